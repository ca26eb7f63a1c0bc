//! A barrier.
ghost use Rattle.std.specs.Prelude.{◌≡◌, IfOk, IsSome, IsSomeAnd};
ghost use Rattle.event_wait.specs.declared.lock.limit.Limit.TheVariants.{Never};
ghost use Rattle.event_queue.specs.Key.{without};
ghost use Rattle.event_queue.specs.Queue.{order_of};

mod rounds;

pub use self::rounds::{Ended, Rounds};
use crate::error::{BlockError, PollError};
use crate::lock::QuietLock;
use crate::queueing::Queueing;
use crate::ticket::{Handoff, Ticket, found};
use event_queue::{Key, ListenError, TaskExchange, WakeSink};
use event_wait::{Attempted, Hold, Limit, Task};
use futures::Future;
use futures::task::{Context, Poll};
use std::alloc::Global;
use std::sync::Wait;
use std::time::{Clock, Duration, Instant};

/// A barrier: a fixed number of threads and tasks have to arrive before any of them goes on, round after round.
#[derive(Drop)]
pub struct Barrier {
    rounds: QuietLock<Rounds<Task>>,
}

/// A wait at a barrier for the others. It arrives once it is waited on or polled, and not before.
///
/// A thread blocks by [`wait`](BarrierWait::wait), [`wait_timeout`](BarrierWait::wait_timeout) or
/// [`wait_deadline`](BarrierWait::wait_deadline). A task awaits it, since it is a future; a poll after its output answers
/// [`PollError::Finished`]. A wait that is dropped before its round has ended counts as a caller that has not arrived.
#[must_use = "it arrives only once it is waited on or polled"]
#[derive(Drop)]
pub struct BarrierWait<'a, R: Wait + Clock> {
    queueing: Queueing<QuietLock<Rounds<Task>>, Ticket<Ended>, Arriving<'a, R>>,
}

/// The end of a round at a barrier, as a caller sees it that arrived in the round.
#[derive(Clone, Copy, Debug, PartialEq, Eq)]
pub struct BarrierWaitResult {
    is_leader: bool,
}

impl Barrier {
    /// Makes a barrier for so many threads and tasks. A barrier for zero is a barrier for one. The barrier takes no memory
    /// until somebody waits.
    pub fn new(alloc: Global, parties: usize) -> Self {
        Barrier {
            rounds: QuietLock::of(alloc, Rounds::new(alloc, parties)),
        }
    }

    /// Arrives, and waits until all have arrived, once the returned [`BarrierWait`] is waited on or polled. Until then nothing
    /// happens.
    ///
    /// `alloc` gives the memory for a place in the queue, if the caller has to wait.
    pub fn wait<'a, R: Wait + Clock>(&'a self, rt: &'a R, alloc: Global) -> BarrierWait<'a, R> {
        BarrierWait {
            queueing: Queueing::new(Arriving { barrier: self, rt }, alloc, Ticket::new()),
        }
    }
}

impl BarrierWaitResult {
    fn of(ended: Ended) -> Self {
        BarrierWaitResult {
            is_leader: ended.is_leader(),
        }
    }

    /// Returns whether the caller was the last to arrive. In each round just one caller is the last.
    pub fn is_leader(&self) -> bool
        ensures { result ≡ self.now.is_leader }
    {
        self.is_leader
    }
}

impl<R: Wait + Clock> BarrierWait<'_, R> {
    /// Arrives, and blocks the thread until all have arrived.
    ///
    /// Where the call has to wait it takes memory, for a place in the queue and for what the thread parks on. An error says
    /// that it could not wait: then the caller has not arrived.
    pub fn wait(self) -> Result<BarrierWaitResult, BlockError> {
        match self.wait_until(Limit::Never)? {
            Some(ended) => Ok(ended),
            None => unreachable!(),
        }
    }

    /// Arrives, and blocks the thread until all have arrived, at most for `timeout`. `None` says that not all arrived in time:
    /// then the caller has not arrived either.
    ///
    /// With a `timeout` of zero the caller arrives only if it is the last. A moment too late to be represented never arrives,
    /// so then the call waits without a limit. A clock that can't be read counts as one that shows that the time has passed.
    pub fn wait_timeout(self, timeout: Duration) -> Result<Option<BarrierWaitResult>, BlockError> {
        let limit = self.queueing.limit_after(timeout);
        self.wait_until(limit)
    }

    /// Arrives, and blocks the thread until all have arrived, at most until `deadline`. `None` says that not all arrived in
    /// time: then the caller has not arrived either.
    ///
    /// If `deadline` has passed the caller arrives only if it is the last. A clock that can't be read counts as one that shows
    /// that the time has passed.
    pub fn wait_deadline(self, deadline: Instant) -> Result<Option<BarrierWaitResult>, BlockError> {
        self.wait_until(Limit::At(deadline))
    }

    fn wait_until(self, limit: Limit) -> Result<Option<BarrierWaitResult>, BlockError>
        ensures never { limit ≡ Never → IfOk result IsSome }
    {
        match self.queueing.wait_until(limit)? {
            Some((_, ended)) => Ok(Some(BarrierWaitResult::of(ended))),
            None => Ok(None),
        }
    }
}

impl<R: Wait + Clock> Future for BarrierWait<'_, R> {
    type Output = Result<BarrierWaitResult, PollError>;

    ghost needs = { λ wait s. IsSomeAnd wait.queueing.hold (λ it. s ≡ it.barrier.now.rounds) };

    fn poll(&mut self, cx: &mut Context<'_>) -> Poll<Result<BarrierWaitResult, PollError>> {
        match self.queueing.poll(cx) {
            Poll::Ready(Ok((_, ended))) => Poll::Ready(Ok(BarrierWaitResult::of(ended))),
            Poll::Ready(Err(error)) => Poll::Ready(Err(error)),
            Poll::Pending => Poll::Pending,
        }
    }
}

/// Borrows a barrier and the runtime.
#[derive(Drop)]
pub(crate) struct Arriving<'a, R> {
    barrier: &'a Barrier,
    rt: &'a R,
}

impl<'a, R: Wait + Clock> Hold<QuietLock<Rounds<Task>>> for Arriving<'a, R> {
    ghost held = { λ it. it.barrier.now.rounds };

    type Runtime = R;

    fn lock(&self) -> &QuietLock<Rounds<Task>> {
        &self.barrier.rounds
    }

    fn rt(&self) -> &R {
        self.rt
    }
}

impl Handoff<Ended> for Rounds<Task> {
    // The waiter that withdraws is in the queue no more, and so has not arrived in a round that goes on.
    ghost withdraws = { λ old key new. order_of new.line ≡ without key (order_of old.line) };

    fn try_grant<K: WakeSink<Task>>(&mut self, sink: &mut K) -> Option<Ended> {
        self.try_end(sink)
    }

    fn grant_or_queue<C, X: TaskExchange<Task, C>, K: WakeSink<Task>>(
        &mut self,
        key: Option<Key>,
        exchange: &X,
        on: &mut C,
        sink: &mut K,
    ) -> Attempted<Ended, ListenError> {
        match key {
            Some(key) => found(key, self.look_for_end(key, exchange, on)),
            None => self.arrive(exchange, on, sink),
        }
    }

    fn leave<K: WakeSink<Task>>(&mut self, key: Key, _sink: &mut K) -> Option<Ended> {
        self.leave_round(key)
    }

    fn cancel<K: WakeSink<Task>>(&mut self, key: Key, _sink: &mut K) {
        drop(self.leave_round(key));
    }
}
