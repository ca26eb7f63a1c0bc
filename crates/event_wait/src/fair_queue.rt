//! A fair queue of waiters that compete with newcomers: for the permits of a semaphore, or the value of a mutex.
//!
//! A waiter that is notified has nothing yet: it *retries*, which means that it leaves the queue and attempts again; if it finds
//! nothing it joins at the end. Each waiter has a *turn*: while it waits, no more waiters have retried in all than its turn says.
//! A waiter that was notified and found nothing too often *starves*, until it has retried once more, or is struck off.
ghost use Rattle.std.specs.Prelude.{◌≡◌, ◌+◌, ◌<◌, ◌≤◌, [], length, map, true, None, Some, IsSome, vec_len, vec_capacity, IfOk, IfErr, OnOk, OnErr};
ghost use Rattle.std.specs.List.{FoldsTo};
ghost use Rattle.event_queue.specs.Exchange.{InsertsWith, RegistersWith};
ghost use Rattle.event_queue.specs.Insert.{IsInsertionBy};
ghost use Rattle.event_queue.specs.Queue.{IsQueue, listeners_of};
ghost use Rattle.event_queue.specs.Register.{IsRegistration};
ghost use Rattle.event_wait.specs.Line.{HasLeft, TellsUpTo, woken_up_to};
ghost use Rattle.event_wait.specs.FairQueue.{State, CannotJoin, FewCame, Forbears, HasJoined, Joins, KeepsTurns, Looks, NobodyWaitsPastItsTurn, StoresInTurn, task_of, turn_or, woken_tasks};
ghost use Rattle.event_wait.specs.Starving.{but, counted_in, refusals_for};

use crate::starving::{forbear, strike_off};
use crate::waiters;
use event_queue::{Key, List, ListenError, RegisterResult, TaskExchange, WakeSink};
use std::alloc::{AllocError, Global};
use std::marker::Model;

/// A waiter in the queue: its task, and its turn.
#[derive(Drop)]
pub struct Queued<W> {
    pub(crate) task: W,
    pub(crate) turn: u64,
}

/// A queue of waiters in which each waiter has a turn, with the waiters that starve, and for how many newcomers more each of these
/// is forborne with.
///
/// A waiter joins at the end, and is notified once it is at the front and something is free for it. A notified waiter *retries*:
/// it leaves the queue and attempts again. The *turn* of a waiter is the number of all that have retried, and of all that are in
/// the queue, when it joins; while it waits, no more than that many retry. A waiter *starves* if it was notified and found
/// nothing too often: the caller of [`join`](FairQueue::join) decides how often that is.
#[derive(Drop)]
pub struct FairQueue<W> {
    queue: List<(), Queued<W>>,
    starving: Vec<(Key, u32), Global>,
    came: u64,
}

impl<W> Model for FairQueue<W> {
    ghost use Rattle.event_wait.specs.FairQueue.{State, IsFairQueue};

    ghost Value = { State W };

    ghost view = { λ l. record { queue = l.queue; starving = l.starving.items; came = l.came } };

    ghost invariant = { λ l. IsFairQueue (record {
      queue = l.queue;
      starving = l.starving.items;
      came = l.came;
    }) };
}

impl<W> FairQueue<W> {
    /// Makes an empty queue, in which no waiter has retried. Takes no memory.
    pub fn new(alloc: Global) -> Self
        ensures told { result.queue.told ≡ [] }
        ensures waiting { result.queue.waiting ≡ [] }
        ensures starving { result.starving ≡ [] }
        ensures came { result.came ≡ 0 }
    {
        FairQueue {
            queue: List::new(alloc),
            starving: Vec::new(alloc),
            came: 0,
        }
    }

    /// Returns how many waiters are notified, and have not retried.
    pub fn told(&self) -> usize
        ensures { result ≡ length self.now.queue.told }
    {
        self.queue.listeners_notified()
    }

    /// Returns how many waiters are not notified.
    pub fn waiting(&self) -> usize
        ensures { result ≡ length self.now.queue.waiting }
    {
        self.queue.total_listeners() - self.queue.listeners_notified()
    }

    /// Returns how many waiters in the queue, notified or not, starve.
    pub fn starving(&self) -> usize
        ensures { result ≡ length self.now.starving }
    {
        self.starving.len()
    }

    /// Notifies the first waiters until `free` waiters of the queue are notified, if there are as many, and wakes them in order.
    ///
    /// The tasks go to `sink`. A queue in which as many are notified already stays as it is.
    pub fn tell<S: WakeSink<W>>(&mut self, free: usize, sink: &mut S)
        ensures step { TellsUpTo free self.old.queue self.new.queue }
        ensures kept { self.new ≡ record self.old { queue = self.new.queue } }
        ensures turns { KeepsTurns self.old self.new }
        ensures wakes { FoldsTo S.woke sink.old (woken_tasks free self.old) sink.new }
    {
        tell_up_to(&mut self.queue, free, sink);
    }

    /// Looks whether this waiter was notified, and has it retry if so.
    ///
    /// Returns [`RegisterResult::Notified`] for a notified waiter, which has left the queue, and starves no more. Returns
    /// [`RegisterResult::Registered`] for a waiter that waits on: it keeps its place and its turn, and stores the task that the
    /// exchange makes of its stored task. Returns [`RegisterResult::NeverInserted`] if no waiter has this key, and changes
    /// nothing. Takes memory only if the exchange does.
    pub fn look<C, X: TaskExchange<W, C>>(
        &mut self,
        key: Key,
        exchange: &X,
        on: &mut C,
    ) -> RegisterResult<()>
        ensures looks { Looks (X.exchanged exchange.now) key self.old on.old
            result self.new on.new }
        ensures turns { KeepsTurns self.old self.new }
        ensures queue { IsQueue self.old.queue }
    {
        let turn = turn_at_end(&self.queue, self.came);
        match look_in_turn(&mut self.queue, key, turn, exchange, on) {
            RegisterResult::Notified(()) => {
                self.came += 1;
                strike_off(&mut self.starving, key);
                RegisterResult::Notified(())
            }
            RegisterResult::Registered => RegisterResult::Registered,
            RegisterResult::NeverInserted => RegisterResult::NeverInserted,
        }
    }

    /// Has a newcomer wait at the end of the queue, with the task that the exchange makes, and returns its key.
    ///
    /// The newcomer's turn is after all waiters that have retried and all that are in the queue. With a number in `starves` the
    /// newcomer is counted among the waiters that starve, and other newcomers are refused for its sake until so many were,
    /// beside the last. Returns [`ListenError::Memory`] if memory runs out, and [`ListenError::SerialsUsedUp`] if the queue has
    /// given out all its serial numbers, of which each waiter gets one; an error changes nothing. May allocate.
    pub fn join<C, X: TaskExchange<W, C>>(
        &mut self,
        exchange: &X,
        on: &mut C,
        starves: Option<u32>,
    ) -> Result<Key, ListenError>
        ensures joins { IfOk result (λ key.
            Joins (X.exchanged exchange.now) starves key self.old on.old self.new on.new) }
        ensures turn { IfOk result (λ key. HasJoined key self.old self.new) }
        ensures turns { KeepsTurns self.old self.new }
        ensures kept { OnErr result (self.new ≡ self.old) }
        ensures unused { OnErr result (on.new ≡ on.old) }
        ensures reason { IfErr result (λ error. CannotJoin starves error self.old) }
    {
        let turn = turn_at_end(&self.queue, self.came);
        make_room(&mut self.starving, starves)?;
        let key = join_in_turn(&mut self.queue, turn, exchange, on)?;
        count_in(&mut self.starving, key, starves);
        Ok(key)
    }

    /// Counts a newcomer that is refused for the sake of the first waiter that starves, and strikes that waiter off if the
    /// newcomer is the last to be refused for it.
    ///
    /// A waiter that is struck off starves no more. If it was notified it leaves the queue, as if it were dropped: a caller then
    /// has another waiter notified by [`tell`](FairQueue::tell). If it was not notified it waits on at its place. Changes nothing
    /// if no waiter starves. So each call lowers how many newcomers may still be refused (`fewer`), and only
    /// [`join`](FairQueue::join) raises that.
    pub fn forbear(&mut self)
    where
        W: Drop,
        ensures forbears { Forbears self.old self.new }
        ensures fewer { 0 < length self.old.starving
            → refusals_for self.new.starving + 1 ≤ refusals_for self.old.starving }
        ensures turns { KeepsTurns self.old self.new }
    {
        let Some(key) = forbear(&mut self.starving) else {
            return;
        };
        strike_off(&mut self.starving, key);
        if self.queue.is_told_uncounted(key) {
            waiters::leave_line(&mut self.queue, key);
        }
    }

    /// Removes this waiter from the queue, and returns whether it was notified.
    ///
    /// The waiter is counted no more among those that starve. What the waiter was notified of is passed on to nobody, so a caller
    /// that wants another waiter notified calls [`tell`](FairQueue::tell). If no waiter has this key, the call returns `false`
    /// and changes nothing.
    pub fn leave(&mut self, key: Key) -> bool
    where
        W: Drop,
        ensures notified { result ≡ true → length self.new.queue.told + 1
            ≡ length self.old.queue.told }
        ensures left { HasLeft key self.old.queue self.new.queue }
        ensures starving { self.new.starving ≡ but (Some key) self.old.starving }
        ensures came { self.new.came ≡ self.old.came }
        ensures turns { KeepsTurns self.old self.new }
    {
        let left = waiters::leave_line(&mut self.queue, key);
        strike_off(&mut self.starving, key);
        left.was_told()
    }

    /// Proves that no waiter waits past its turn: all that have retried, all that are notified, and all that wait before this
    /// waiter are together no more than its turn says. Does nothing at run time.
    pub fn nobody_waits_past_its_turn(&self)
        ensures { NobodyWaitsPastItsTurn self.now }
    {
        let _ = &self.came;
    }

    /// Proves that few retry before a waiter: since it joined, and while it waits, no more waiters have retried than were in the
    /// queue before it, notified or not. Does nothing at run time.
    pub fn few_come_before_one(&self)
        ensures { FewCame self.now }
    {
        let _ = &self.came;
    }
}

/// Proves that turns are kept along all calls: what keeps the turns, and then keeps them again, keeps them in all. Does nothing
/// at run time.
pub fn turns_are_kept_along<W>()
    ensures { (first between last : State W) → KeepsTurns first between → KeepsTurns between last
        → KeepsTurns first last }
{}

// Returns the turn of a waiter that joins at the end of the queue now.
fn turn_at_end<W>(queue: &List<(), Queued<W>>, came: u64) -> u64
    requires { came + listeners_of queue.now ≤ queue.now.next_serial }
    ensures turn { result ≡ came + listeners_of queue.now }
    ensures queue { IsQueue queue.now }
{
    came + queue.total_listeners() as u64
}

// Makes room for one more among those that starve, if the newcomer starves.
fn make_room(
    starving: &mut Vec<(Key, u32), Global>,
    starves: Option<u32>,
) -> Result<(), ListenError>
    ensures kept { starving.new.items ≡ starving.old.items }
    ensures room { OnOk result (IsSome starves → vec_len starving.new < vec_capacity starving.new) }
    ensures refused { IfErr result (λ error. IsSome starves × (error ≡ ListenError.Memory)) }
{
    if starves.is_none() {
        return Ok(());
    }
    match starving.reserve(1) {
        Ok(()) => Ok(()),
        Err(AllocError) => Err(ListenError::Memory),
    }
}

// Counts this key among those that starve, if the newcomer does.
fn count_in(starving: &mut Vec<(Key, u32), Global>, key: Key, starves: Option<u32>)
    requires { IsSome starves → vec_len starving.old < vec_capacity starving.old }
    ensures { starving.new.items ≡ counted_in key starves starving.old.items }
{
    if let Some(forborne) = starves {
        starving.push_reserved((key, forborne));
    }
}

// Notifies as `waiters::tell` does, and wakes the tasks of those notified.
fn tell_up_to<W, S: WakeSink<W>>(queue: &mut List<(), Queued<W>>, n: usize, sink: &mut S)
    ensures queue { IsQueue queue.old }
    ensures step { TellsUpTo n queue.old queue.new }
    ensures wakes { FoldsTo S.woke sink.old
        (map (λ waiter. waiter.task) (woken_up_to n queue.old)) sink.new }
{
    let mut tasks = Tasks { sink };
    waiters::tell(queue, n, &mut tasks);
    let Tasks { sink: _ } = tasks;
}

// A sink that hands the task of each waiter to another sink.
#[derive(Drop)]
struct Tasks<'s, K> {
    sink: &'s mut K,
}

impl<'s, W, K: WakeSink<W>> WakeSink<Queued<W>> for Tasks<'s, K> {
    ghost woke = { λ before waiter after. (after.sink.ghost_name ≡ before.sink.ghost_name)
        × K.woke before.sink.now waiter.task after.sink.now };

    fn wake(&mut self, waiter: Queued<W>)
        ensures { (self.new.sink.ghost_name ≡ self.old.sink.ghost_name)
            × K.woke self.old.sink.now waiter.task self.new.sink.now }
    {
        let Queued { task, turn: _ } = waiter;
        self.sink.wake(task);
    }
}

// Looks for a waiter that, if it waits, stores the task that the exchange makes, and keeps its turn.
fn look_in_turn<W, C, X: TaskExchange<W, C>>(
    queue: &mut List<(), Queued<W>>,
    key: Key,
    turn: u64,
    exchange: &X,
    on: &mut C,
) -> RegisterResult<()>
    ensures { IsRegistration
        (RegistersWith (StoresInTurn (X.exchanged exchange.now) turn) queue.old key on.old result
        queue.new on.new) queue.old key result queue.new }
{
    let in_turn = InTurn {
        turn,
        tasks: exchange,
    };
    queue.register_with_uncounted(key, &in_turn, on)
}

// Has a newcomer with this turn wait at the end, with the task that the exchange makes.
fn join_in_turn<W, C, X: TaskExchange<W, C>>(
    queue: &mut List<(), Queued<W>>,
    turn: u64,
    exchange: &X,
    on: &mut C,
) -> Result<Key, ListenError>
    ensures { IsInsertionBy (InsertsWith (StoresInTurn (X.exchanged exchange.now) turn) queue.old
        on.old result queue.new on.new) queue.old result queue.new }
{
    let in_turn = InTurn {
        turn,
        tasks: exchange,
    };
    queue.insert_with_uncounted(&in_turn, on)
}

// An exchange that makes a waiter of the task that another exchange makes: a waiter keeps its turn, and a newcomer gets this
// turn.
#[derive(Drop)]
struct InTurn<'x, X> {
    turn: u64,
    tasks: &'x X,
}

impl<'x, W, C, X: TaskExchange<W, C>> TaskExchange<Queued<W>, C> for InTurn<'x, X> {
    ghost exchanged = { λ in_turn before stored waiter after.
        StoresInTurn (X.exchanged in_turn.tasks.now) in_turn.turn before stored waiter after };

    fn exchange(&self, on: &mut C, stored: Option<Queued<W>>) -> Queued<W>
        ensures { StoresInTurn (X.exchanged self.now.tasks.now) self.now.turn on.old
            stored result on.new }
    {
        let (stored, turn) = parted(stored, self.turn);
        Queued {
            task: self.tasks.exchange(on, stored),
            turn,
        }
    }
}

// Returns the task and the turn of a waiter; of a newcomer, no task and this turn.
fn parted<W>(waiter: Option<Queued<W>>, turn: u64) -> (Option<W>, u64)
    ensures task { result.0 ≡ task_of waiter }
    ensures turn { result.1 ≡ turn_or turn waiter }
{
    match waiter {
        Some(Queued { task, turn }) => (Some(task), turn),
        None => (None, turn),
    }
}
