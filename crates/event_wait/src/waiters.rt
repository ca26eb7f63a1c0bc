//! What a state does with a queue of its waiters: a queue notifies, or it hands out.
//!
//! A waiter that is *notified* has nothing yet: it attempts again, and joins at the end of the queue if another thread was
//! faster. A waiter that is *handed* something owns it, and no other thread can be faster.
ghost use Rattle.std.specs.Prelude.{◌≡◌, ◌+◌, ◌<◌, ◌≤◌, ◌↔◌, min, drop, length, if◌then◌else◌, Err, None, Some, IsTrue, IfOk, IfErr, OnErr};
ghost use Rattle.std.specs.List.{FoldsTo};
ghost use Rattle.event_queue.specs.Exchange.{InsertsWith, RegistersWith};
ghost use Rattle.event_queue.specs.Insert.{Inserts};
ghost use Rattle.event_queue.specs.Key.{without};
ghost use Rattle.event_queue.specs.Queue.{IsQueue, order_of};
ghost use Rattle.event_wait.specs.Joining.{found_by, waits_by};
ghost use Rattle.event_wait.specs.Line.{CannotWait, HandsOut, HasLeft, IsNotIn, IsNotInUnlessWaits, Leaves, LeavesThenTells, Looked, TellsAll, TellsUpTo, WaitsBy, left_by, or_more, woken_at_once, woken_by_leaving, woken_up_to};
ghost use Rattle.event_wait.specs.Left.{left_as, told_of, waited_of};

use crate::error::LockError;
use crate::request::Attempted;
use event_queue::{
    IntoNotification, Key, List, ListenError, RegisterResult, State, TaskExchange, WakeSink,
};

// A sink for a call that wakes nobody.
struct Nobody {}

impl<W: Drop> WakeSink<W> for Nobody {
    ghost woke = { λ _ _ _. Unit {0} };

    fn wake(&mut self, _task: W) {}
}

/// Returns whether there is a waiter that is not notified. Where there is none, this is all that a notification costs.
#[inline(always)]
pub fn somebody_waits<W>(line: &List<(), W>) -> bool
    ensures waits { IsTrue result ↔ (0 < length line.now.waiting) }
    ensures queue { IsQueue line.now }
{
    line.total_listeners() > line.listeners_notified()
}

/// Notifies the first waiters until `n` of the queue are notified, if there are as many, and wakes them.
///
/// A queue in which `n` are notified already stays as it is. The tasks go to `sink`. Takes memory only if the sink does.
#[inline(always)]
pub fn tell<W, S: WakeSink<W>>(line: &mut List<(), W>, n: usize, sink: &mut S)
    ensures queue { IsQueue line.old }
    ensures step { TellsUpTo n line.old line.new }
    ensures wakes { FoldsTo S.woke sink.old (woken_up_to n line.old) sink.new }
{
    if somebody_waits(line) {
        tell_waiting(line, n, sink);
    }
}

/// Notifies the first waiters until `n` of the queue are notified, or `more` beside those that are notified already, whichever
/// are more, and wakes them.
///
/// So for each of `more` things that were added a waiter is notified anew. If fewer wait, all of these are notified. The tasks go
/// to `sink`. Takes memory only if the sink does.
#[inline(always)]
pub fn tell_more<W, S: WakeSink<W>>(line: &mut List<(), W>, n: usize, more: usize, sink: &mut S)
    ensures step { TellsUpTo (or_more n more line.old) line.old line.new }
    ensures wakes { FoldsTo S.woke sink.old
        (woken_up_to (or_more n more line.old) line.old) sink.new }
{
    let told = line.listeners_notified();
    let waiting = line.total_listeners() - told;
    if waiting > 0 {
        tell_waiting(line, n.max(told + more.min(waiting)), sink);
    }
}

#[inline(never)]
fn tell_waiting<W, S: WakeSink<W>>(line: &mut List<(), W>, n: usize, sink: &mut S)
    ensures step { TellsUpTo n line.old line.new }
    ensures wakes { FoldsTo S.woke sink.old (woken_up_to n line.old) sink.new }
{
    line.notify_uncounted(&mut n.into_notification(), sink)
        .unwrap();
}

/// Notifies all waiters, and wakes them. The tasks go to `sink`. Takes memory only if the sink does.
#[inline(always)]
pub fn tell_all<W, S: WakeSink<W>>(line: &mut List<(), W>, sink: &mut S)
    ensures step { TellsAll line.old line.new }
    ensures wakes { FoldsTo S.woke sink.old (woken_at_once line.old) sink.new }
{
    if somebody_waits(line) {
        tell_all_waiting(line, sink);
    }
}

#[inline(never)]
fn tell_all_waiting<W, S: WakeSink<W>>(line: &mut List<(), W>, sink: &mut S)
    ensures step { TellsAll line.old line.new }
    ensures wakes { FoldsTo S.woke sink.old (woken_at_once line.old) sink.new }
{
    let all = line.total_listeners();
    tell_waiting(line, all, sink);
}

/// Removes the waiter of this key, if there is one, from the queue. What the waiter was notified of is passed on to nobody.
#[inline(always)]
pub fn leave<W: Drop>(line: &mut List<(), W>, key: Option<Key>)
    ensures left { Leaves key line.old line.new }
    ensures waiting { length line.new.waiting ≤ length line.old.waiting }
{
    if let Some(key) = key {
        leave_line(line, key);
    }
}

/// Removes the waiter of this key from the queue, and then notifies as [`tell`] does. Does nothing without a key.
#[inline(always)]
pub fn leave_then_tell<W: Drop, S: WakeSink<W>>(
    line: &mut List<(), W>,
    key: Option<Key>,
    n: usize,
    sink: &mut S,
)
    ensures left { LeavesThenTells key n line.old line.new }
    ensures wakes { FoldsTo S.woke sink.old (woken_by_leaving key n line.old) sink.new }
    ensures waiting { length line.new.waiting ≤ length line.old.waiting }
{
    if let Some(key) = key {
        leave_line(line, key);
        tell(line, n, sink);
    }
}

/// Has a waiter wait, with the task that the exchange makes of its stored task, and returns the key of its place.
///
/// A waiter that was not notified keeps its place; a notified or a new waiter joins at the end of the queue, which may allocate.
/// An error says that the waiter is in the queue no more.
pub fn wait_in_line<W, C, X: TaskExchange<W, C>>(
    line: &mut List<(), W>,
    key: Option<Key>,
    exchange: &X,
    on: &mut C,
) -> Result<Key, ListenError>
    ensures waits { IfOk result (λ waits.
        WaitsBy (X.exchanged exchange.now) key line.old on.old waits line.new on.new) }
    ensures refused { IfErr result (λ error. CannotWait key error line.old line.new) }
    ensures kept { OnErr result (on.new ≡ on.old) }
{
    match key {
        Some(key) => wait_on(line, key, exchange, on),
        None => join_line(line, exchange, on),
    }
}

// Has a waiter wait that has a key: at its place, or at the end of the queue if it was notified.
fn wait_on<W, C, X: TaskExchange<W, C>>(
    line: &mut List<(), W>,
    key: Key,
    exchange: &X,
    on: &mut C,
) -> Result<Key, ListenError>
    ensures waits { IfOk result (λ waits.
        WaitsBy (X.exchanged exchange.now) (Some key) line.old on.old waits line.new on.new) }
    ensures refused { IfErr result (λ error. CannotWait (Some key) error line.old line.new) }
    ensures kept { OnErr result (on.new ≡ on.old) }
{
    match line.register_with_uncounted(key, exchange, on) {
        RegisterResult::Registered => Ok(key),
        RegisterResult::Notified(()) => join_line(line, exchange, on),
        RegisterResult::NeverInserted => join_line(line, exchange, on),
    }
}

/// Has a newcomer wait at the end of the queue, with the task that the exchange makes, and returns its key.
///
/// May allocate. An error leaves the queue as it was, with no memory or no serial number for the newcomer.
pub fn join_line<W, C, X: TaskExchange<W, C>>(
    line: &mut List<(), W>,
    exchange: &X,
    on: &mut C,
) -> Result<Key, ListenError>
    ensures step { InsertsWith (X.exchanged exchange.now) line.old on.old result line.new on.new }
    ensures waits { IfOk result (λ waits.
        WaitsBy (X.exchanged exchange.now) None line.old on.old waits line.new on.new) }
    ensures joined { IfOk result (λ _. length line.new.waiting ≡ length line.old.waiting + 1) }
    ensures told { line.new.told ≡ line.old.told }
    ensures refused { OnErr result (line.new ≡ line.old) }
    ensures kept { OnErr result (on.new ≡ on.old) }
    ensures reason { IfErr result (λ error. Inserts line.old (Err error) line.new) }
{
    line.insert_with_uncounted(exchange, on)
}

/// Returns what an attempt gave that joined a queue: the key of its place, or why the request can't wait.
pub fn waiting<G>(waits: Result<Key, ListenError>) -> Attempted<G, LockError>
    ensures { result ≡ waits_by waits }
{
    match waits {
        Ok(key) => Attempted::Waits(key),
        Err(error) => Attempted::Refused(LockError::Listen(error)),
    }
}

/// Returns what an attempt gave that looked for its waiter: the grant if the waiter was notified, the key if it waits on, or that
/// it was never in the queue.
pub fn found<G>(key: Key, looked: RegisterResult<G>) -> Attempted<G, LockError>
    ensures { result ≡ found_by key looked }
{
    match looked {
        RegisterResult::Notified(grant) => Attempted::Done(grant),
        RegisterResult::Registered => Attempted::Waits(key),
        RegisterResult::NeverInserted => Attempted::Absent,
    }
}

/// Hands something to the first `n` waiters, or to all if there are fewer, wakes them, and returns to how many.
///
/// The tasks go to `sink`. Takes memory only if the sink does.
#[inline(always)]
pub fn hand_out<W, S: WakeSink<W>>(line: &mut List<(), W>, n: usize, sink: &mut S) -> usize
    ensures count { result ≡ min n (length line.old.waiting) }
    ensures told { length line.new.told ≡ length line.old.told + result }
    ensures waiting { line.new.waiting ≡ drop n line.old.waiting }
    ensures step { HandsOut S.woke n line.old line.new sink.old sink.new }
{
    if !somebody_waits(line) {
        return 0;
    }
    hand_to_waiting(line, n, sink)
}

#[inline(never)]
fn hand_to_waiting<W, S: WakeSink<W>>(line: &mut List<(), W>, n: usize, sink: &mut S) -> usize
    ensures count { result ≡ min n (length line.old.waiting) }
    ensures step { HandsOut S.woke n line.old line.new sink.old sink.new }
{
    line.notify_uncounted(&mut n.additional(), sink).unwrap()
}

/// Looks whether this waiter was handed something: if so, it leaves the queue, and else it stores the task that the exchange
/// makes.
///
/// Returns [`RegisterResult::NeverInserted`] if no waiter has this key. Takes memory only if the exchange does.
pub fn look_for<W, C, X: TaskExchange<W, C>>(
    line: &mut List<(), W>,
    key: Key,
    exchange: &X,
    on: &mut C,
) -> RegisterResult<()>
    ensures step { RegistersWith (X.exchanged exchange.now) line.old key on.old
        result line.new on.new }
    ensures looked { Looked (X.exchanged exchange.now) on.old result on.new }
    ensures told { length line.new.told + left_by result ≡ length line.old.told }
    ensures waiting { length line.new.waiting ≡ length line.old.waiting }
    ensures gone { IsNotInUnlessWaits result key line.new }
{
    line.register_with_uncounted(key, exchange, on)
}

/// What a waiter was when it left the queue.
#[derive(Clone, Copy)]
pub enum Left {
    /// The waiter had been handed something, or notified.
    Told,
    /// The waiter had not been notified.
    Waited,
    /// No waiter of that key was in the queue.
    Absent,
}

impl Left {
    /// Returns whether the waiter had been handed something, or notified.
    pub fn was_told(self) -> bool
        ensures { told_of self ≡ (if result then 1 else 0) }
    {
        match self {
            Left::Told => true,
            Left::Waited => false,
            Left::Absent => false,
        }
    }
}

fn left_as<W: Drop>(left: Option<State<(), W>>) -> Left
    ensures { result ≡ left_as left }
{
    match left {
        Some(
            State::Notified {
                additional: _,
                tag: (),
            },
        ) => Left::Told,
        Some(State::Created | State::Task(_)) => Left::Waited,
        Some(State::Passed { .. } | State::Lost { .. }) => Left::Absent,
        None => Left::Absent,
    }
}

/// Removes this waiter from the queue, and returns what it was. What it was notified of is passed on to nobody.
pub fn leave_line<W: Drop>(line: &mut List<(), W>, key: Key) -> Left
    ensures told { length line.new.told + told_of result ≡ length line.old.told }
    ensures waiting { length line.new.waiting + waited_of result ≡ length line.old.waiting }
    ensures leaves { HasLeft key line.old line.new }
    ensures gone { IsNotIn key line.new }
{
    let mut nobody = Nobody {};
    let left = line.remove_uncounted(key, false, &mut nobody);
    let Nobody {} = nobody;
    left_as(left)
}

/// Hands something to all waiters, wakes them, and returns to how many. The tasks go to `sink`. Takes memory only if the sink
/// does.
pub fn hand_all<W, S: WakeSink<W>>(line: &mut List<(), W>, sink: &mut S) -> usize
    ensures count { result ≡ length line.old.waiting }
    ensures told { length line.new.told ≡ length line.old.told + result }
    ensures waiting { length line.new.waiting ≡ 0 }
    ensures step { HandsOut S.woke (length line.old.waiting) line.old line.new sink.old sink.new }
{
    let all = line.total_listeners() - line.listeners_notified();
    hand_out(line, all, sink)
}
