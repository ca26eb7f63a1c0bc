//! Waiters in a queue that starve: newcomers leave them the messages or places that are due to them.
ghost use Rattle.std.specs.Prelude.{◌≡◌, ◌==◌, ◌||◌, true, false, length, None, Some, IfErr, IfOk, OnErr};
ghost use Rattle.event_wait.specs.Line.{WaitsBy};
ghost use Rattle.event_channel.specs.Turns.{CannotWaitInTurn, Counts, WaitsAtPlace, but, is_told, left_for_newcomers, struck, told_beside};
ghost use Rattle.event_queue.specs.Queue.{IsQueue};

use event_queue::{Key, List, ListenError, RegisterResult, TaskExchange};
use event_wait::Attempted;
use event_wait::starving::{PATIENCE, forborne_with, strike_off};
use event_wait::waiters::{join_line, leave, wait_in_line};
use std::alloc::Global;

// Returns whether the waiter with this key is in the queue, and notified.
#[inline(always)]
pub(crate) fn is_told<W>(line: &List<(), W>, key: Option<Key>) -> bool
    ensures { result ≡ is_told key line.now }
{
    match key {
        Some(key) => line.is_told_uncounted(key),
        None => false,
    }
}

// Returns how many of the messages or places that are there newcomers may take: all, if the channel is closed or no waiter
// starves, and else those that are due to no notified waiter in the queue.
pub(crate) fn left_for_newcomers<W>(
    is_closed: bool,
    starving: &Vec<(Key, u32), Global>,
    line: &List<(), W>,
    there: usize,
) -> usize
    ensures { result ≡ left_for_newcomers (is_closed || length starving.now.items == 0)
        (length line.now.told) there }
{
    if is_closed || starving.len() == 0 {
        return there;
    }
    there.saturating_sub(line.listeners_notified())
}

// Returns how many waiters are notified beside the waiter with this key.
fn told_beside<W>(line: &List<(), W>, key: Option<Key>) -> usize
    ensures { result ≡ told_beside (is_told key line.now) (length line.now.told) }
{
    let told = line.listeners_notified();
    if is_told(line, key) {
        return told.saturating_sub(1);
    }
    told
}

// Returns how many of the messages or places that are there are due to no waiter beside the waiter with this key: all, if the
// channel is closed or no waiter starves.
pub(crate) fn due_to_no_other<W>(
    is_closed: bool,
    starving: &Vec<(Key, u32), Global>,
    line: &List<(), W>,
    key: Option<Key>,
    there: usize,
) -> usize
    ensures { result ≡ left_for_newcomers (is_closed || length starving.now.items == 0)
        (told_beside (is_told key line.now) (length line.now.told)) there }
{
    if is_closed || starving.len() == 0 {
        return there;
    }
    there.saturating_sub(told_beside(line, key))
}

// Takes the waiter with this key, if there is a key, out of the list of starving waiters.
#[inline(always)]
pub(crate) fn strike(starving: &mut Vec<(Key, u32), Global>, key: Option<Key>)
    ensures { starving.new.items ≡ but key starving.old.items }
{
    if let Some(key) = key {
        if starving.len() != 0 {
            strike_off(starving, key);
        }
    }
}

// Has a waiter that was not notified wait on at its place. A caller without a place is absent, and tries again: all messages or
// places that are there are due to others.
#[cold]
#[inline(never)]
pub(crate) fn wait_at_place<W, G, C, X: TaskExchange<W, C>>(
    line: &mut List<(), W>,
    key: Key,
    exchange: &X,
    on: &mut C,
) -> Attempted<G, ListenError>
    requires untold { is_told (Some key) line.old ≡ false }
    ensures waits { WaitsAtPlace (X.exchanged exchange.now) key line.old on.old result
        line.new on.new }
    ensures as_many { length line.new.told ≡ length line.old.told }
{
    match line.register_with_uncounted(key, exchange, on) {
        RegisterResult::Registered => Attempted::Waits(key),
        RegisterResult::NeverInserted => Attempted::Absent,
        RegisterResult::Notified(()) => unreachable!(),
    }
}

// Has a waiter wait that found nothing: at its place, or at the end of the queue if it was notified or is new. A notified
// waiter has lost once more, and starves if it lost `PATIENCE` times. The call may allocate for a waiter that is new or
// starves. An error says that the waiter is in the queue no more.
#[inline(always)]
pub(crate) fn wait_in_turn<W: Drop, C, X: TaskExchange<W, C>>(
    line: &mut List<(), W>,
    starving: &mut Vec<(Key, u32), Global>,
    key: Option<Key>,
    losses: &mut u32,
    exchange: &X,
    on: &mut C,
) -> Result<Key, ListenError>
    ensures waits { IfOk result (λ waits.
        WaitsBy (X.exchanged exchange.now) key line.old on.old waits line.new on.new) }
    ensures as_many { is_told key line.old ≡ false
        → length line.new.told ≡ length line.old.told }
    ensures same { is_told key line.old ≡ false → starving.new.items ≡ starving.old.items }
    ensures counts { IfOk result (λ waits. Counts (is_told key line.old) key waits losses.old
        starving.old.items losses.new starving.new.items) }
    ensures refused { IfErr result (λ error.
        CannotWaitInTurn (is_told key line.old) key losses.old error line.old line.new) }
    ensures struck { OnErr result
        (starving.new.items ≡ struck (is_told key line.old) key starving.old.items) }
    ensures kept { OnErr result ((on.new ≡ on.old) × (losses.new ≡ losses.old)) }
{
    if is_told(line, key) {
        return wait_after_loss(line, starving, key, losses, exchange, on);
    }
    match key {
        None => join_line(line, exchange, on),
        Some(_) => wait_in_line(line, key, exchange, on),
    }
}

// Has a waiter wait again that was notified and found nothing.
#[inline(never)]
fn wait_after_loss<W: Drop, C, X: TaskExchange<W, C>>(
    line: &mut List<(), W>,
    starving: &mut Vec<(Key, u32), Global>,
    key: Option<Key>,
    losses: &mut u32,
    exchange: &X,
    on: &mut C,
) -> Result<Key, ListenError>
    ensures waits { IfOk result (λ waits.
        WaitsBy (X.exchanged exchange.now) key line.old on.old waits line.new on.new) }
    ensures counts { IfOk result (λ waits. Counts true key waits losses.old starving.old.items
        losses.new starving.new.items) }
    ensures refused { IfErr result (λ error.
        CannotWaitInTurn true key losses.old error line.old line.new) }
    ensures struck { OnErr result (starving.new.items ≡ but key starving.old.items) }
    ensures kept { OnErr result ((on.new ≡ on.old) × (losses.new ≡ losses.old)) }
{
    let lost = losses.saturating_add(1);
    strike(starving, key);
    if lost >= PATIENCE && starving.reserve(1).is_err() {
        leave(line, key);
        return Err(ListenError::Memory);
    }
    let waits = wait_in_line(line, key, exchange, on)?;
    *losses = lost;
    if lost >= PATIENCE {
        starving.push_reserved((waits, forborne_with(lost)));
    }
    Ok(waits)
}
