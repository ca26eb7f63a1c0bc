//! Waits for the value of a cell, or for the turn to make it.
ghost use Rattle.std.specs.Prelude.{◌≡◌, IfOk, IsSome, IsSomeAnd};
ghost use Rattle.event_wait.specs.declared.lock.limit.Limit.TheVariants.{Never};

use super::once::{IsSet, Once, Turn};
use super::{Claim, OnceCell};
use crate::error::{BlockError, PollError};
use crate::lock::QuietLock;
use crate::queueing::Queueing;
use crate::ticket::{Handoff, Ticket, found};
use event_queue::{Key, ListenError, TaskExchange, WakeSink};
use event_wait::{Attempted, Hold, Limit, Task};
use futures::Future;
use futures::task::{Context, Poll};
use std::alloc::Global;
use std::sync::Wait;
use std::time::{Clock, Duration, Instant};

/// A wait for the value of a cell, or for the turn to make it. It asks once it is waited on or polled, and not before.
///
/// A thread blocks by [`wait`](Claiming::wait), [`wait_timeout`](Claiming::wait_timeout) or
/// [`wait_deadline`](Claiming::wait_deadline). A task awaits it, since it is a future; a poll after its output answers
/// [`PollError::Finished`]. A wait that is dropped leaves the queue, and hands its turn, if it has that, to the next caller.
#[must_use = "nothing is asked for until it is waited on or polled"]
#[derive(Drop)]
pub struct Claiming<'a, T, R: Wait + Clock> {
    pub(super) queueing: Queueing<QuietLock<Once<Task>>, Ticket<Turn>, Asking<'a, T, R>>,
}

/// A wait until somebody has set the value of a cell. It asks once it is waited on or polled, and not before.
///
/// A thread blocks by [`wait`](Seeing::wait), [`wait_timeout`](Seeing::wait_timeout) or
/// [`wait_deadline`](Seeing::wait_deadline). A task awaits it, since it is a future; a poll after its output answers
/// [`PollError::Finished`]. A wait that is dropped leaves the queue.
#[must_use = "nothing is asked for until it is waited on or polled"]
#[derive(Drop)]
pub struct Seeing<'a, T, R: Wait + Clock> {
    queueing: Queueing<QuietLock<Once<Task>>, Ticket<IsSet>, Asking<'a, T, R>>,
}

impl<'a, T, R: Wait + Clock> Claiming<'a, T, R> {
    pub(super) fn new(cell: &'a OnceCell<T>, rt: &'a R, alloc: Global) -> Self
        ensures { IsSomeAnd result.queueing.hold
            (λ asking. asking.cell.now.source ≡ cell.now.source) }
    {
        Claiming {
            queueing: Queueing::new(Asking { cell, rt }, alloc, Ticket::new()),
        }
    }

    /// Blocks the thread until the value is set or the caller has the turn to make it.
    ///
    /// Where the call has to wait it takes memory, for a place in the queue and for what the thread parks on. An error says
    /// that it could not wait: then the thread is in no queue.
    pub fn wait(self) -> Result<Claim<'a, T, R>, BlockError> {
        match self.wait_until(Limit::Never)? {
            Some(claim) => Ok(claim),
            None => unreachable!(),
        }
    }

    /// Blocks the thread until the value is set or the caller has the turn to make it, at most for `timeout`. Returns `None` if
    /// that passed in vain.
    ///
    /// After `None` or an error the thread is in no queue. With a `timeout` of zero the call only asks: it joins no queue and
    /// takes no memory. A moment too late to be represented never arrives, so then the call waits without a limit. A clock that
    /// can't be read counts as one that shows that the time has passed.
    pub fn wait_timeout(self, timeout: Duration) -> Result<Option<Claim<'a, T, R>>, BlockError> {
        let limit = self.queueing.limit_after(timeout);
        self.wait_until(limit)
    }

    /// Blocks the thread until the value is set or the caller has the turn to make it, at most until `deadline`. Returns `None`
    /// if that passed in vain.
    ///
    /// After `None` or an error the thread is in no queue. If `deadline` has passed the call only asks: it joins no queue and
    /// takes no memory. A clock that can't be read counts as one that shows that the time has passed.
    pub fn wait_deadline(self, deadline: Instant) -> Result<Option<Claim<'a, T, R>>, BlockError> {
        self.wait_until(Limit::At(deadline))
    }

    fn wait_until(self, limit: Limit) -> Result<Option<Claim<'a, T, R>>, BlockError>
        ensures never { limit ≡ Never → IfOk result IsSome }
    {
        if let Some(value) = at_hand(self.queueing.idle()) {
            return Ok(Some(Claim::Value(value)));
        }
        match self.queueing.wait_until(limit)? {
            Some((asking, turn)) => Ok(Some(asking.claimed(turn))),
            None => Ok(None),
        }
    }
}

impl<'a, T, R: Wait + Clock> Future for Claiming<'a, T, R> {
    type Output = Result<Claim<'a, T, R>, PollError>;

    ghost needs = { λ claiming s. IsSomeAnd claiming.queueing.hold
        (λ asking. s ≡ asking.cell.now.source) };

    fn poll(&mut self, cx: &mut Context<'_>) -> Poll<Result<Claim<'a, T, R>, PollError>> {
        if let Some(value) = at_hand(self.queueing.idle()) {
            self.queueing.finish();
            return Poll::Ready(Ok(Claim::Value(value)));
        }
        match self.queueing.poll(cx) {
            Poll::Ready(Ok((asking, turn))) => Poll::Ready(Ok(asking.claimed(turn))),
            Poll::Ready(Err(error)) => Poll::Ready(Err(error)),
            Poll::Pending => Poll::Pending,
        }
    }
}

impl<'a, T, R: Wait + Clock> Seeing<'a, T, R> {
    pub(super) fn new(cell: &'a OnceCell<T>, rt: &'a R, alloc: Global) -> Self {
        Seeing {
            queueing: Queueing::new(Asking { cell, rt }, alloc, Ticket::new()),
        }
    }

    /// Blocks the thread until the value is set, and returns a reference to it.
    ///
    /// Where the call has to wait it takes memory, for a place in the queue and for what the thread parks on. An error says
    /// that it could not wait: then the thread is in no queue.
    pub fn wait(self) -> Result<&'a T, BlockError> {
        match self.wait_until(Limit::Never)? {
            Some(value) => Ok(value),
            None => unreachable!(),
        }
    }

    /// Blocks the thread until the value is set, at most for `timeout`. Returns `None` if it is not set by then.
    ///
    /// After `None` or an error the thread is in no queue. With a `timeout` of zero the call only looks: it joins no queue and
    /// takes no memory. A moment too late to be represented never arrives, so then the call waits without a limit. A clock that
    /// can't be read counts as one that shows that the time has passed.
    pub fn wait_timeout(self, timeout: Duration) -> Result<Option<&'a T>, BlockError> {
        let limit = self.queueing.limit_after(timeout);
        self.wait_until(limit)
    }

    /// Blocks the thread until the value is set, at most until `deadline`. Returns `None` if it is not set by then.
    ///
    /// After `None` or an error the thread is in no queue. If `deadline` has passed the call only looks: it joins no queue and
    /// takes no memory. A clock that can't be read counts as one that shows that the time has passed.
    pub fn wait_deadline(self, deadline: Instant) -> Result<Option<&'a T>, BlockError> {
        self.wait_until(Limit::At(deadline))
    }

    fn wait_until(self, limit: Limit) -> Result<Option<&'a T>, BlockError>
        ensures never { limit ≡ Never → IfOk result IsSome }
    {
        if let Some(value) = at_hand(self.queueing.idle()) {
            return Ok(Some(value));
        }
        match self.queueing.wait_until(limit)? {
            Some((asking, _is_set)) => Ok(Some(asking.seen())),
            None => Ok(None),
        }
    }
}

impl<'a, T, R: Wait + Clock> Future for Seeing<'a, T, R> {
    type Output = Result<&'a T, PollError>;

    ghost needs = { λ seeing s. IsSomeAnd seeing.queueing.hold
        (λ asking. s ≡ asking.cell.now.source) };

    fn poll(&mut self, cx: &mut Context<'_>) -> Poll<Result<&'a T, PollError>> {
        if let Some(value) = at_hand(self.queueing.idle()) {
            self.queueing.finish();
            return Poll::Ready(Ok(value));
        }
        match self.queueing.poll(cx) {
            Poll::Ready(Ok((asking, _is_set))) => Poll::Ready(Ok(asking.seen())),
            Poll::Ready(Err(error)) => Poll::Ready(Err(error)),
            Poll::Pending => Poll::Pending,
        }
    }
}

// Returns the value, if it is set, without the lock. The caller waits in no queue.
#[inline(always)]
fn at_hand<'a, T, R>(asking: Option<&Asking<'a, T, R>>) -> Option<&'a T> {
    let cell = asking?.cell;
    cell.get()
}

/// A borrow of a cell, and of the runtime.
#[derive(Drop)]
pub(crate) struct Asking<'a, T, R> {
    cell: &'a OnceCell<T>,
    rt: &'a R,
}

impl<'a, T, R: Wait + Clock> Hold<QuietLock<Once<Task>>> for Asking<'a, T, R> {
    ghost held = { λ it. it.cell.now.source };

    type Runtime = R;

    fn lock(&self) -> &QuietLock<Once<Task>> {
        let cell = self.cell;
        &cell.once
    }

    fn rt(&self) -> &R {
        self.rt
    }
}

impl<'a, T, R: Wait + Clock> Asking<'a, T, R> {
    fn claimed(self, turn: Turn) -> Claim<'a, T, R> {
        let Asking { cell, rt } = self;
        cell.claimed(rt, turn)
    }

    // Returns the value. The value is set before the state says so, so the call waits for nobody.
    fn seen(self) -> &'a T {
        let Asking { cell, rt } = self;
        cell.value.wait(rt)
    }
}

impl Handoff<Turn> for Once<Task> {
    fn try_grant<K: WakeSink<Task>>(&mut self, _sink: &mut K) -> Option<Turn> {
        self.try_make()
    }

    fn grant_or_queue<C, X: TaskExchange<Task, C>, K: WakeSink<Task>>(
        &mut self,
        key: Option<Key>,
        exchange: &X,
        on: &mut C,
        _sink: &mut K,
    ) -> Attempted<Turn, ListenError> {
        match key {
            Some(key) => found(key, self.look_to_make(key, exchange, on)),
            None => self.come_to_make(exchange, on),
        }
    }

    fn leave<K: WakeSink<Task>>(&mut self, key: Key, _sink: &mut K) -> Option<Turn> {
        self.leave_making(key)
    }

    fn cancel<K: WakeSink<Task>>(&mut self, key: Key, sink: &mut K) {
        if let Some(turn) = self.leave_making(key) {
            self.give_back(turn, sink);
        }
    }
}

impl Handoff<IsSet> for Once<Task> {
    fn try_grant<K: WakeSink<Task>>(&mut self, _sink: &mut K) -> Option<IsSet> {
        self.try_use()
    }

    fn grant_or_queue<C, X: TaskExchange<Task, C>, K: WakeSink<Task>>(
        &mut self,
        key: Option<Key>,
        exchange: &X,
        on: &mut C,
        _sink: &mut K,
    ) -> Attempted<IsSet, ListenError> {
        match key {
            Some(key) => found(key, self.look_to_use(key, exchange, on)),
            None => self.come_to_use(exchange, on),
        }
    }

    fn leave<K: WakeSink<Task>>(&mut self, key: Key, _sink: &mut K) -> Option<IsSet> {
        self.leave_using(key)
    }

    fn cancel<K: WakeSink<Task>>(&mut self, key: Key, _sink: &mut K) {
        self.leave_using(key);
    }
}
