//! Waits for a permit.
ghost use Rattle.std.specs.Prelude.{◌≡◌, IfOk, IfSome, Ok};
ghost use Rattle.event_locks.specs.Awaited.{acquire_arc_awaits, acquire_awaits};
ghost use Rattle.futures.specs.Poll.{IfReady, OnPending};
ghost use Rattle.futures.specs.declared.task.Poll.TheVariants.{Pending, Ready};

use super::Semaphore;
use super::error::AcquireError;
use super::guard::{SemaphoreGuard, SemaphoreGuardArc};
use crate::taker::Taker;
use event_wait::{Borrowed, LockError, Obtaining, Shared};
use event_word::Permit;
use futures::Future;
use futures::task::{Context, Poll};
use std::sync::Wait;
use std::time::{Clock, Duration, Instant};

/// A wait for one permit of a semaphore. It asks for the permit once it is waited on or polled, and not before.
///
/// A thread blocks by [`wait`](Acquire::wait), [`wait_timeout`](Acquire::wait_timeout) or
/// [`wait_deadline`](Acquire::wait_deadline). A task awaits it, since it is a future; a poll after its output answers
/// [`LockError::Finished`]. Threads and tasks wait in one queue. An `Acquire` that was polled and is then waited on keeps its
/// place there. An `Acquire` that is dropped while it waits leaves the queue, and a notification that it had goes to the next
/// waiter.
///
/// A task awaits two permits at once. The first `?` propagates an error of the executor, the others an error of a wait. Two
/// tasks that do so may wait for each other for ever, if each has one permit and no other is free:
///
/// ```rust
/// let both = join(permits.acquire(rt, alloc), permits.acquire(rt, alloc));
/// let (first, second) = block_on(rt, both)?;
/// let held = (first?, second?);
/// ```
#[must_use = "nothing is asked for until it is waited on or polled"]
#[derive(Drop)]
pub struct Acquire<'a, R: Wait + Clock> {
    obtaining: Obtaining<Semaphore, Taker, Borrowed<'a, Semaphore, R>>,
}

/// A wait for one permit that keeps the semaphore by a share of its `Arc`, so that the wait and its guard may go to another
/// thread.
///
/// An `AcquireArc` is waited on, awaited and dropped like an [`Acquire`].
///
/// The first `?` propagates an `AllocError`, if no further share could be counted, and the second an error of the wait:
///
/// ```rust
/// let permit = Semaphore::acquire_arc(permits, rt, alloc)?.wait()?;
/// ```
#[must_use = "nothing is asked for until it is waited on or polled"]
#[derive(Drop)]
pub struct AcquireArc<R: Wait + Clock + Drop> {
    obtaining: Obtaining<Semaphore, Taker, Shared<Semaphore, R>>,
}

impl<'a, R: Wait + Clock> Acquire<'a, R> {
    #[inline(always)]
    pub(crate) fn new(obtaining: Obtaining<Semaphore, Taker, Borrowed<'a, Semaphore, R>>) -> Self {
        Acquire { obtaining }
    }

    /// Blocks the thread until it has a permit. Returns the guard.
    ///
    /// The call first tries at once. Where it has to wait it takes memory, for a place in the queue and for what the thread
    /// parks on. An error says that it could not wait, or that the semaphore is closed: then the caller is in no queue.
    ///
    /// ```rust
    /// let _permit = permits.acquire(rt, alloc).wait().ok()?;
    /// ```
    #[inline(always)]
    pub fn wait(self) -> Result<SemaphoreGuard<'a, R>, AcquireError>
        ensures one { IfOk result (λ guard. guard ≡ 1) }
    {
        let (hold, permit) = self.obtaining.wait()?;
        let permit = permit?;
        Ok(SemaphoreGuard::new(hold, permit))
    }

    /// Blocks the thread until it has a permit, at most for `timeout`. Returns `None` if that passed in vain.
    ///
    /// After `None` or an error the caller is in no queue. With a `timeout` of zero the call only tries at once: it joins no
    /// queue and takes no memory. A moment too late to be represented never arrives, so then the call waits without a limit. A
    /// clock that can't be read counts as one that shows that the time has passed. Closing the semaphore ends the wait with an
    /// error.
    pub fn wait_timeout(
        self,
        timeout: Duration,
    ) -> Result<Option<SemaphoreGuard<'a, R>>, AcquireError>
        ensures one { IfOk result (λ answer. IfSome answer (λ guard. guard ≡ 1)) }
    {
        let Some((hold, permit)) = self.obtaining.wait_timeout(timeout)? else {
            return Ok(None);
        };
        let permit = permit?;
        Ok(Some(SemaphoreGuard::new(hold, permit)))
    }

    /// Blocks the thread until it has a permit, at most until `deadline`. Returns `None` if that passed in vain.
    ///
    /// After `None` or an error the caller is in no queue. If `deadline` has passed the call only tries at once: it joins no
    /// queue and takes no memory. A clock that can't be read counts as one that shows that the time has passed. Closing the
    /// semaphore ends the wait with an error.
    pub fn wait_deadline(
        self,
        deadline: Instant,
    ) -> Result<Option<SemaphoreGuard<'a, R>>, AcquireError>
        ensures one { IfOk result (λ answer. IfSome answer (λ guard. guard ≡ 1)) }
    {
        let Some((hold, permit)) = self.obtaining.wait_deadline(deadline)? else {
            return Ok(None);
        };
        let permit = permit?;
        Ok(Some(SemaphoreGuard::new(hold, permit)))
    }
}

impl<R: Wait + Clock + Drop> AcquireArc<R> {
    pub(crate) fn new(obtaining: Obtaining<Semaphore, Taker, Shared<Semaphore, R>>) -> Self {
        AcquireArc { obtaining }
    }

    /// Blocks the thread until it has a permit, like [`Acquire::wait`]. Returns a guard that may go to another thread.
    ///
    /// Here `wait` went to a thread before it was waited on. The `?` propagates an error, which is `Closed` once the semaphore
    /// is closed:
    ///
    /// ```rust
    /// let _seat = wait.wait()?;
    /// Ok(())
    /// ```
    pub fn wait(self) -> Result<SemaphoreGuardArc<R>, AcquireError>
        ensures one { IfOk result (λ guard. guard ≡ 1) }
    {
        let (hold, permit) = self.obtaining.wait()?;
        let permit = permit?;
        Ok(SemaphoreGuardArc::new(hold, permit))
    }

    /// Blocks the thread until it has a permit, at most for `timeout`, like [`Acquire::wait_timeout`]. Returns a guard that may
    /// go to another thread.
    pub fn wait_timeout(
        self,
        timeout: Duration,
    ) -> Result<Option<SemaphoreGuardArc<R>>, AcquireError>
        ensures one { IfOk result (λ answer. IfSome answer (λ guard. guard ≡ 1)) }
    {
        let Some((hold, permit)) = self.obtaining.wait_timeout(timeout)? else {
            return Ok(None);
        };
        let permit = permit?;
        Ok(Some(SemaphoreGuardArc::new(hold, permit)))
    }

    /// Blocks the thread until it has a permit, at most until `deadline`, like [`Acquire::wait_deadline`]. Returns a guard that
    /// may go to another thread.
    pub fn wait_deadline(
        self,
        deadline: Instant,
    ) -> Result<Option<SemaphoreGuardArc<R>>, AcquireError>
        ensures one { IfOk result (λ answer. IfSome answer (λ guard. guard ≡ 1)) }
    {
        let Some((hold, permit)) = self.obtaining.wait_deadline(deadline)? else {
            return Ok(None);
        };
        let permit = permit?;
        Ok(Some(SemaphoreGuardArc::new(hold, permit)))
    }
}

impl<'a, R: Wait + Clock> Future for Acquire<'a, R> {
    type Output = Result<SemaphoreGuard<'a, R>, AcquireError>;

    ghost needs = { acquire_awaits };

    ghost gives = { λ _ answer. IfOk answer (λ guard. guard ≡ 1) };

    fn poll(&mut self, cx: &mut Context<'_>) -> Poll<Result<SemaphoreGuard<'a, R>, AcquireError>> {
        match permitted(self.obtaining.poll(cx)) {
            Poll::Ready(Ok((hold, permit))) => Poll::Ready(Ok(SemaphoreGuard::new(hold, permit))),
            Poll::Ready(Err(error)) => Poll::Ready(Err(error)),
            Poll::Pending => Poll::Pending,
        }
    }
}

impl<R: Wait + Clock + Drop> Future for AcquireArc<R> {
    type Output = Result<SemaphoreGuardArc<R>, AcquireError>;

    ghost needs = { acquire_arc_awaits };

    ghost gives = { λ _ answer. IfOk answer (λ guard. guard ≡ 1) };

    fn poll(&mut self, cx: &mut Context<'_>) -> Poll<Result<SemaphoreGuardArc<R>, AcquireError>> {
        match permitted(self.obtaining.poll(cx)) {
            Poll::Ready(Ok((hold, permit))) => {
                Poll::Ready(Ok(SemaphoreGuardArc::new(hold, permit)))
            }
            Poll::Ready(Err(error)) => Poll::Ready(Err(error)),
            Poll::Pending => Poll::Pending,
        }
    }
}

// Returns the hold and the permit, if the poll returned both. Else returns why there is no permit, or `Pending`.
#[inline(always)]
fn permitted<H: Drop>(
    polled: Poll<Result<(H, Result<Permit, AcquireError>), LockError>>,
) -> Poll<Result<(H, Permit), AcquireError>>
    ensures pending { OnPending result (polled ≡ Pending) }
    ensures ready { IfReady result (λ answer. IfOk answer (λ got.
        polled ≡ Ready (Ok (got.0, Ok got.1)))) }
{
    match polled {
        Poll::Ready(Ok((hold, permit))) => match permit {
            Ok(permit) => Poll::Ready(Ok((hold, permit))),
            Err(error) => Poll::Ready(Err(error)),
        },
        Poll::Ready(Err(error)) => Poll::Ready(Err(AcquireError::WaitFailed(error))),
        Poll::Pending => Poll::Pending,
    }
}
