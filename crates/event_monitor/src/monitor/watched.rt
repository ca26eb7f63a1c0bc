//! The state of a monitor: a value, and the waiters for conditions on it.
ghost use Rattle.std.specs.Prelude.{◌≡◌, [], length, None, IfErr, IfOk, IfSome, IsSome, OnErr};
ghost use Rattle.std.specs.Fn.{FnOnceReturnsAtMut};
ghost use Rattle.std.specs.List.{FoldsTo};
ghost use Rattle.event_wait.specs.Line.{CannotWait, Leaves, TellsAll, WaitsBy};
ghost use Rattle.event_monitor.specs.Watched.{NobodyWaitsInVain, Obtains, Watches, stored_by, woken_by_attempting, woken_by_trying, woken_tasks};

use crate::lock::Waited;
use crate::ticket::waiting;
use event_queue::{Key, List, ListenError, TaskExchange, WakeSink};
use event_wait::Attempted;
use event_wait::waiters::{leave, tell_all, wait_in_line};
use std::alloc::Global;
use std::marker::Model;

/// What a waiter wants of the value of a [`Monitor`](crate::Monitor): an attempt, which gives something or fails.
///
/// A contract knows an implementation by two ghost members. `fails` says of which values an attempt fails. `gives` says what an
/// attempt does that gives something: of the value before, what it gives, and the value after. An implementation repeats the
/// clauses of `attempt`.
pub trait Condition<V> {
    /// What an attempt gives.
    type Output;

    ghost fails: { Self → V → Type 0 };

    ghost gives: { Self → V → Self.Output → V → Type 0 };

    /// Attempts once. The attempt may change the value if it gives something, and leaves the value as it is if it fails.
    fn attempt(&self, value: &mut V) -> Option<Self::Output>
        ensures gave { IfSome result (λ output. gives self.now value.old output value.new) }
        ensures only_then { IsSome result → ¬ fails self.now value.old }
        ensures failed { result ≡ None → fails self.now value.old }
        ensures kept { result ≡ None → value.new ≡ value.old };
}

/// A waiter: its condition, and its task.
#[derive(Drop)]
pub struct Waiter<C, W> {
    pub(crate) condition: C,
    pub(crate) task: W,
}

/// A value, and the queue of the waiters for conditions on it. Each waiter that is not notified has stored its task, and an
/// attempt of its condition gives nothing of the value as it is.
#[derive(Drop)]
pub struct Watched<V, C: Condition<V>, W> {
    value: V,
    line: List<(), Waiter<C, W>>,
}

impl<V, C: Condition<V>, W> Model for Watched<V, C, W> {
    ghost use Rattle.event_monitor.specs.Watched.{State, NobodyWaitsInVain};

    ghost Value = { State V C W };

    ghost view = { λ s. record { value = s.value; line = s.line } };

    ghost invariant = { λ s. NobodyWaitsInVain C.fails (record { value = s.value; line = s.line }) };
}

impl<V, C: Condition<V> + Copy, W: Drop> Watched<V, C, W> {
    /// A value for which nobody waits.
    pub fn new(alloc: Global, value: V) -> Self
        ensures value { result.value ≡ value }
        ensures told { result.line.told ≡ [] }
        ensures waiting { result.line.waiting ≡ [] }
    {
        Watched {
            value,
            line: List::new(alloc),
        }
    }

    /// Changes the value, and notifies all that wait, so that each attempts anew.
    pub fn change<A, F: FnOnce(&mut V) -> A, K: WakeSink<W>>(
        &mut self,
        change: F,
        sink: &mut K,
    ) -> A
        requires { F.IsAlwaysCallable change }
        ensures changed { FnOnceReturnsAtMut F.FnOnce change self.old.value result self.new.value }
        ensures told { TellsAll self.old.line self.new.line }
        ensures wakes { FoldsTo K.woke sink.old (woken_tasks self.old.line) sink.new }
    {
        let answer = made(&mut self.value, change);
        wake_all(&mut self.line, sink);
        answer
    }

    /// Attempts the condition once. If the attempt gives something, which may change the value, all waiters are notified.
    pub fn attempt<K: WakeSink<W>>(&mut self, condition: C, sink: &mut K) -> Option<C::Output>
        ensures gave { IfSome result (λ output.
            C.gives condition self.old.value output self.new.value) }
        ensures told { IfSome result (λ _. TellsAll self.old.line self.new.line) }
        ensures only_then { IsSome result → ¬ C.fails condition self.old.value }
        ensures failed { result ≡ None → C.fails condition self.old.value }
        ensures kept { result ≡ None → self.new ≡ self.old }
        ensures wakes { FoldsTo K.woke sink.old (woken_by_trying self.old.line result) sink.new }
    {
        let output = condition.attempt(&mut self.value)?;
        wake_all(&mut self.line, sink);
        Some(output)
    }

    /// Attempts the condition once. If the attempt gives something, the caller leaves the queue, and all other waiters are
    /// notified. Else the caller waits for its condition, with the task that the exchange makes: at its place, or at the end of
    /// the queue if it was notified or is new.
    pub fn attempt_or_wait<O, X: TaskExchange<W, O>, K: WakeSink<W>>(
        &mut self,
        key: Option<Key>,
        condition: C,
        exchange: &X,
        on: &mut O,
        sink: &mut K,
    ) -> Attempted<C::Output, ListenError>
        ensures obtains { Obtains C.gives C.fails (X.exchanged exchange.now) condition key self.old
            on.old result self.new on.new }
        ensures wakes { FoldsTo K.woke sink.old
            (woken_by_attempting key self.old.line result) sink.new }
    {
        match condition.attempt(&mut self.value) {
            Some(output) => {
                leave(&mut self.line, key);
                wake_all(&mut self.line, sink);
                Attempted::Done(output)
            }
            None => waiting(watch_in_line(&mut self.line, key, condition, exchange, on)),
        }
    }

    /// Takes the waiter with this key, if there is a key, out of the queue. Nobody need be notified in its place, since each
    /// change notifies all waiters.
    pub fn cancel(&mut self, key: Option<Key>)
        ensures value { self.new.value ≡ self.old.value }
        ensures left { Leaves key self.old.line self.new.line }
    {
        leave(&mut self.line, key);
    }

    /// States that nobody waits in vain: each waiter that is not notified has stored its task, and an attempt of its condition
    /// gives nothing of the value as it is.
    pub fn nobody_waits_in_vain(&self)
        ensures { NobodyWaitsInVain C.fails self.now }
    {
        let _ = &self.value;
    }
}

// Makes one change of the value.
#[inline(always)]
fn made<V, A, F: FnOnce(&mut V) -> A>(value: &mut V, change: F) -> A
    requires { F.IsAlwaysCallable change }
    ensures { FnOnceReturnsAtMut F.FnOnce change value.old result value.new }
{
    change(value)
}

// Notifies all waiters, and wakes their tasks.
fn wake_all<C: Copy, W, K: WakeSink<W>>(line: &mut List<(), Waiter<C, W>>, sink: &mut K)
    ensures told { TellsAll line.old line.new }
    ensures wakes { FoldsTo K.woke sink.old (woken_tasks line.old) sink.new }
{
    let mut tasks = Tasks { sink };
    tell_all(line, &mut tasks);
    let Tasks { sink: _ } = tasks;
}

// A sink that wakes the tasks of the waiters that it is handed.
#[derive(Drop)]
struct Tasks<'s, K> {
    sink: &'s mut K,
}

impl<'s, C: Copy, W, K: WakeSink<W>> WakeSink<Waiter<C, W>> for Tasks<'s, K> {
    ghost woke = { λ before waiter after. (after.sink.ghost_name ≡ before.sink.ghost_name)
        × K.woke before.sink.now waiter.task after.sink.now };

    fn wake(&mut self, waiter: Waiter<C, W>)
        ensures { (self.new.sink.ghost_name ≡ self.old.sink.ghost_name)
            × K.woke self.old.sink.now waiter.task self.new.sink.now }
    {
        let Waiter { condition: _, task } = waiter;
        self.sink.wake(task);
    }
}

// Has a caller wait for this condition: at its place, or at the end of the queue if it was notified or is new.
fn watch_in_line<C: Copy, W, O, X: TaskExchange<W, O>>(
    line: &mut List<(), Waiter<C, W>>,
    key: Option<Key>,
    condition: C,
    exchange: &X,
    on: &mut O,
) -> Result<Key, ListenError>
    ensures waits { IfOk result (λ waits.
        WaitsBy (Watches (X.exchanged exchange.now) condition) key line.old on.old waits
        line.new on.new) }
    ensures refused { IfErr result (λ error. CannotWait key error line.old line.new) }
    ensures kept { OnErr result (on.new ≡ on.old) }
{
    wait_in_line(
        line,
        key,
        &Watching {
            condition,
            tasks: exchange,
        },
        on,
    )
}

// An exchange that makes a waiter for this condition of the task that another exchange makes.
#[derive(Drop)]
struct Watching<'x, C, X> {
    condition: C,
    tasks: &'x X,
}

impl<'x, C: Copy, W, O, X: TaskExchange<W, O>> TaskExchange<Waiter<C, W>, O>
    for Watching<'x, C, X> {
    ghost exchanged = { λ watching before stored waiter after.
        Watches (X.exchanged watching.tasks.now) watching.condition before stored waiter after };

    fn exchange(&self, on: &mut O, stored: Option<Waiter<C, W>>) -> Waiter<C, W>
        ensures { Watches (X.exchanged self.now.tasks.now) self.now.condition on.old
            stored result on.new }
    {
        Waiter {
            condition: self.condition,
            task: self.tasks.exchange(on, task_in(stored)),
        }
    }
}

// Returns the task of the waiter, if there is a waiter.
fn task_in<C: Copy, W>(waiter: Option<Waiter<C, W>>) -> Option<W>
    ensures { result ≡ stored_by waiter }
{
    let Waiter { condition: _, task } = waiter?;
    Some(task)
}

impl<V, C: Condition<V>, W> Waited for Watched<V, C, W> {
    fn waiting(&self) -> usize
        ensures { result ≡ length self.now.line.waiting }
    {
        self.line.total_listeners() - self.line.listeners_notified()
    }
}
