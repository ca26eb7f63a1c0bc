//! A value whose changes wake the waiters for a condition on it.
ghost use Rattle.std.specs.Prelude.{◌≡◌, None, IfOk, IfSome, IsSome};
ghost use Rattle.event_wait.specs.declared.lock.limit.Limit.TheVariants.{Never};
ghost use Rattle.event_monitor.specs.Watched.{Changes, Fails, Gives, LastAttempt, Succeeds};

mod watched;

pub use self::watched::{Condition, Waiter, Watched};
use crate::asking;
use crate::error::WaitError;
use crate::lock::{QuietLock, quiet_step};
use event_queue::{Key, ListenError, TaskExchange, WakeSink};
use event_wait::{Attempt, Attempted, Limit, Obtainable, Refused, Request, Task, poll_in};
use futures::Future;
use futures::task::{Context, Poll};
use std::alloc::Global;
use std::marker::Model;
use std::sync::Wait;
use std::time::{Clock, Duration, Instant};

/// A value under a lock, with threads and tasks that wait until the value is as they want it.
///
/// What a waiter wants is a [`Condition`], whose attempt looks at the value and may change it; all waiters of one monitor have
/// conditions of one type. Each change wakes all waiters, and each of them attempts anew. So a monitor serves best where few
/// wait, or where one change gives most of them what they want.
#[derive(Drop)]
pub struct Monitor<V, C: Condition<V>> {
    watched: QuietLock<Watched<V, C, Task>>,
}

impl<V: Drop, C: Condition<V> + Copy> Monitor<V, C> {
    /// Makes a monitor of `value`, without waiters. The monitor takes no memory until somebody waits.
    pub fn new(alloc: Global, value: V) -> Self {
        Monitor {
            watched: QuietLock::of(alloc, Watched::new(alloc, value)),
        }
    }

    /// Changes the value by `change`, which runs under the lock, and wakes all waiters. Returns what `change` returns.
    ///
    /// The call may block for the lock. Do not call the same monitor inside `change`: that would block for ever.
    pub fn change<A, R: Wait, F: FnOnce(&mut V) -> A>(&self, rt: &R, change: F) -> A
        requires { F.IsAlwaysCallable change }
        ensures { Changes F.FnOnce change result }
    {
        quiet_step!(self.watched, rt, watched, sink => watched.change(change, &mut sink))
    }

    /// Attempts `condition` once, without waiting for it. Returns what the attempt gave, or `None` if it failed.
    ///
    /// An attempt that gives something may have changed the value, so it wakes all waiters. The call may block for the lock.
    pub fn try_now<R: Wait>(&self, rt: &R, condition: C) -> Option<C::Output>
        ensures gave { IfSome result (λ output. Gives C.gives condition output) }
        ensures failed { result ≡ None → Fails C.fails condition }
    {
        quiet_step!(self.watched, rt, watched, sink => watched.attempt(condition, &mut sink))
    }

    /// Waits until an attempt of `condition` gives something, once the returned [`Until`] is waited on or polled. Until then
    /// nothing happens.
    ///
    /// `alloc` gives the memory for a place in the queue, if the caller has to wait.
    ///
    /// ```rust
    /// let mut withdrawal = balance.until(rt, alloc, Withdrawal { amount });
    /// withdrawal.wait_timeout(limit)
    /// ```
    pub fn until<'a, R: Wait + Clock>(
        &'a self,
        rt: &'a R,
        alloc: Global,
        condition: C,
    ) -> Until<'a, V, C, R>
        ensures { result.watch ≡ condition }
    {
        Until {
            lock: &self.watched,
            rt,
            alloc,
            watch: Watch::new(condition),
        }
    }
}

/// A wait until an attempt of a condition gives something. It attempts once it is waited on or polled, and not before.
///
/// A thread blocks by [`wait`](Until::wait), [`wait_timeout`](Until::wait_timeout) or [`wait_deadline`](Until::wait_deadline).
/// A task awaits it, since it is a future. Its result is what an attempt gave. After a result or an error the `Until` may be
/// used again, and then waits anew. An `Until` that was polled and is then waited on keeps its place in the queue. An `Until`
/// that is dropped while it waits leaves the queue.
#[must_use = "nothing is attempted until it is waited on or polled"]
pub struct Until<'a, V, C: Condition<V> + Copy, R: Wait> {
    lock: &'a QuietLock<Watched<V, C, Task>>,
    rt: &'a R,
    alloc: Global,
    watch: Watch<C>,
}

impl<V, C: Condition<V> + Copy, R: Wait + Clock> Until<'_, V, C, R> {
    /// Blocks the thread until an attempt gives something, and returns that.
    ///
    /// Where the call has to wait it takes memory, for a place in the queue and for what the thread parks on. An error says
    /// that it could not wait: then the thread is in no queue.
    pub fn wait(&mut self) -> Result<C::Output, WaitError>
        ensures gave { IfOk result (Gives C.gives self.old.watch) }
        ensures same { self.new.watch ≡ self.old.watch }
    {
        match self.wait_until(Limit::Never)? {
            Some(output) => Ok(output),
            None => unreachable!(),
        }
    }

    /// Blocks the thread until an attempt gives something, at most for `timeout`. `None` says that even the last attempt, made
    /// at that time, failed.
    ///
    /// After `None` or an error the thread is in no queue. With a `timeout` of zero the call only attempts once: it joins no
    /// queue and takes no memory. A moment too late to be represented never arrives, so then the call waits without a limit. A
    /// clock that can't be read counts as one that shows that the time has passed.
    pub fn wait_timeout(&mut self, timeout: Duration) -> Result<Option<C::Output>, WaitError>
        ensures gave { IfOk result (λ answer. IfSome answer (Gives C.gives self.old.watch)) }
        ensures late { IfOk result (λ answer. answer ≡ None → Fails C.fails self.old.watch) }
        ensures same { self.new.watch ≡ self.old.watch }
    {
        let limit = Limit::after(self.rt, timeout);
        self.wait_until(limit)
    }

    /// Blocks the thread until an attempt gives something, at most until `deadline`. `None` says that even the last attempt,
    /// made at that time, failed.
    ///
    /// After `None` or an error the thread is in no queue. If `deadline` has passed the call only attempts once: it joins no
    /// queue and takes no memory. A clock that can't be read counts as one that shows that the time has passed.
    pub fn wait_deadline(&mut self, deadline: Instant) -> Result<Option<C::Output>, WaitError>
        ensures gave { IfOk result (λ answer. IfSome answer (Gives C.gives self.old.watch)) }
        ensures late { IfOk result (λ answer. answer ≡ None → Fails C.fails self.old.watch) }
        ensures same { self.new.watch ≡ self.old.watch }
    {
        self.wait_until(Limit::At(deadline))
    }

    fn wait_until(&mut self, limit: Limit) -> Result<Option<C::Output>, WaitError>
        ensures never { limit ≡ Never → IfOk result IsSome }
        ensures gave { IfOk result (λ answer. IfSome answer (Gives C.gives self.old.watch)) }
        ensures late { IfOk result (λ answer. answer ≡ None → Fails C.fails self.old.watch) }
        ensures same { self.new.watch ≡ self.old.watch }
    {
        let answer = obtain(self.lock, self.rt, self.alloc, &mut self.watch, limit)?;
        Ok(answer)
    }
}

// Blocks the thread until an attempt gives something or the limit has passed, and returns the lock's answer in the monitor's
// types.
#[inline(always)]
fn obtain<V, C: Condition<V> + Copy, R: Wait + Clock>(
    lock: &QuietLock<Watched<V, C, Task>>,
    rt: &R,
    alloc: Global,
    watch: &mut Watch<C>,
    limit: Limit,
) -> Result<Option<C::Output>, Refused<ListenError>>
    ensures never { limit ≡ Never → IfOk result IsSome }
    ensures gave { IfOk result (λ answer. IfSome answer (Gives C.gives watch.old)) }
    ensures late { IfOk result (λ answer. answer ≡ None → Fails C.fails watch.old) }
    ensures same { watch.new ≡ watch.old }
{
    asking::obtain(lock, rt, alloc, watch, limit)
}

impl<V, C: Condition<V> + Copy, R: Wait> Drop for Until<'_, V, C, R> {
    fn drop(self) {
        let Until {
            lock,
            rt,
            alloc: _,
            watch,
        } = self;
        let mut watch = watch;
        lock.give_up(rt, &mut watch);
    }
}

impl<V, C: Condition<V> + Copy, R: Wait + Clock> Future for Until<'_, V, C, R> {
    type Output = Result<C::Output, ListenError>;

    ghost needs = { λ until s. s ≡ until.lock.now };

    ghost gives = { λ until answer. IfOk answer (Gives C.gives until.watch) };

    fn poll(&mut self, cx: &mut Context<'_>) -> Poll<Result<C::Output, ListenError>> {
        poll_in(self.lock, self.rt, &mut self.watch, cx)
    }
}

/// What one waiter of a monitor waits for, and its place in the queue, if it has one. A contract sees the condition.
#[derive(Drop)]
pub struct Watch<C> {
    condition: C,
    key: Option<Key>,
}

impl<C> Model for Watch<C> {
    ghost Value = { C };

    ghost view = { λ watch. watch.condition };
}

impl<C> Watch<C> {
    fn new(condition: C) -> Self
        ensures { result ≡ condition }
    {
        Watch {
            condition,
            key: None,
        }
    }
}

impl<V, C: Condition<V> + Copy> Request<Watched<V, C, Task>> for Watch<C> {
    type Output = C::Output;

    type Refusal = ListenError;

    ghost succeeds = { Succeeds C.gives };

    ghost leaves = { LastAttempt C.gives C.fails };

    fn attempt_or_wait<O, X: TaskExchange<Task, O>, K: WakeSink<Task>>(
        &mut self,
        state: &mut Watched<V, C, Task>,
        exchange: &X,
        on: &mut O,
        sink: &mut K,
    ) -> Attempted<C::Output, ListenError> {
        let attempted = state.attempt_or_wait(self.key, self.condition, exchange, on, sink);
        self.key = attempted.key();
        attempted
    }

    fn leave<K: WakeSink<Task>>(
        &mut self,
        state: &mut Watched<V, C, Task>,
        sink: &mut K,
    ) -> Result<Option<C::Output>, ListenError> {
        state.cancel(self.key.take());
        Ok(state.attempt(self.condition, sink))
    }
}

impl<V, C: Condition<V> + Copy> Attempt<Watched<V, C, Task>> for Watch<C> {
    // A thread that waits for a change mostly waits long: in a few pauses it would not see a change.
    const TRIES: u32 = 0;

    fn is_waiting(&self) -> bool {
        self.key.is_some()
    }

    fn attempt<K: WakeSink<Task>>(
        &mut self,
        state: &mut Watched<V, C, Task>,
        sink: &mut K,
    ) -> Option<C::Output> {
        state.attempt(self.condition, sink)
    }

    fn give_up<K: WakeSink<Task>>(&mut self, state: &mut Watched<V, C, Task>, _sink: &mut K) {
        state.cancel(self.key.take());
    }
}
