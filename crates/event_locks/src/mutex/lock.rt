//! Waits for the value of a mutex.
ghost use Rattle.event_locks.specs.Awaited.{lock_arc_awaits, lock_awaits};

use super::Mutex;
use super::guard::{MutexGuard, MutexGuardArc};
use crate::lending::{Lender, Lending};
use crate::polled::guarded;
use crate::taker::Taker;
use event_wait::{LockError, Obtaining, Shared};
use futures::Future;
use futures::task::{Context, Poll};
use std::sync::Wait;
use std::time::{Clock, Duration, Instant};

/// A wait for the value of a mutex. It asks for the value once it is waited on or polled, and not before.
///
/// A thread blocks by [`wait`](Lock::wait), [`wait_timeout`](Lock::wait_timeout) or [`wait_deadline`](Lock::wait_deadline). A
/// task awaits it, since it is a future; a poll after its output answers [`LockError::Finished`]. Threads and tasks wait in one
/// queue. A `Lock` that was polled and is then waited on keeps its place there. A `Lock` that is dropped while it waits leaves
/// the queue, and a notification that it had goes to the next waiter.
///
/// A future that has a `Lock` polls that `Lock` in its own poll. Here such a future adds to a balance, and adds nothing if the
/// wait fails:
///
/// ```rust
/// if let Ok(mut balance) = ready!(self.lock.poll(cx)) {
///     *balance = balance.saturating_add(self.amount);
/// }
/// Poll::Ready(())
/// ```
#[must_use = "nothing is asked for until it is waited on or polled"]
#[derive(Drop)]
pub struct Lock<'a, T, R: Wait + Clock> {
    obtaining: Obtaining<Lender<'a, Mutex<T>>, Taker, Lending<'a, Mutex<T>, R>>,
}

/// A wait for the value of a mutex that keeps the mutex by a share of its `Arc`, so that the wait and its guard may go to
/// another thread.
///
/// A `LockArc` is waited on, awaited and dropped like a [`Lock`].
///
/// [`Mutex::lock_arc`](crate::Mutex::lock_arc) makes this, and a thread waits on it:
///
/// ```rust
/// let takings = Mutex::lock_arc(&self.takings, rt, alloc)?.wait()?;
/// ```
#[must_use = "nothing is asked for until it is waited on or polled"]
#[derive(Drop)]
pub struct LockArc<T: Drop, R: Wait + Clock + Drop> {
    obtaining: Obtaining<Mutex<T>, Taker, Shared<Mutex<T>, R>>,
}

impl<'a, T, R: Wait + Clock> Lock<'a, T, R> {
    #[inline(always)]
    pub(crate) fn new(
        obtaining: Obtaining<Lender<'a, Mutex<T>>, Taker, Lending<'a, Mutex<T>, R>>,
    ) -> Self {
        Lock { obtaining }
    }

    /// Blocks the thread until it has the value. Returns the guard.
    ///
    /// The call first tries at once. Where it has to wait it takes memory, for a place in the queue and for what the thread
    /// parks on. An error says that it could not wait: then the caller is in no queue.
    ///
    /// ```rust
    /// let balance = balance.lock(&rt, alloc).wait()?;
    /// Ok(*balance)
    /// ```
    #[inline(always)]
    pub fn wait(self) -> Result<MutexGuard<'a, T, R>, LockError> {
        let (hold, lent) = self.obtaining.wait()?;
        Ok(MutexGuard::new(hold, lent))
    }

    /// Blocks the thread until it has the value, at most for `timeout`. Returns `None` if that passed in vain.
    ///
    /// After `None` or an error the caller is in no queue. With a `timeout` of zero the call only tries at once: it joins no
    /// queue and takes no memory. A moment too late to be represented never arrives, so then the call waits without a limit. A
    /// clock that can't be read counts as one that shows that the time has passed.
    ///
    /// Here the `?` propagates an error of the wait, and `context` makes an error of the `None`:
    ///
    /// ```rust
    /// let guard = balance
    ///     .lock(rt, alloc)
    ///     .wait_timeout(Duration::from_secs(1))?;
    /// let mut balance = guard.context("the balance was not free in time")?;
    /// *balance = balance.saturating_add(amount);
    /// ```
    pub fn wait_timeout(
        self,
        timeout: Duration,
    ) -> Result<Option<MutexGuard<'a, T, R>>, LockError> {
        let Some((hold, lent)) = self.obtaining.wait_timeout(timeout)? else {
            return Ok(None);
        };
        Ok(Some(MutexGuard::new(hold, lent)))
    }

    /// Blocks the thread until it has the value, at most until `deadline`. Returns `None` if that passed in vain.
    ///
    /// After `None` or an error the caller is in no queue. If `deadline` has passed the call only tries at once: it joins no
    /// queue and takes no memory. A clock that can't be read counts as one that shows that the time has passed.
    pub fn wait_deadline(
        self,
        deadline: Instant,
    ) -> Result<Option<MutexGuard<'a, T, R>>, LockError> {
        let Some((hold, lent)) = self.obtaining.wait_deadline(deadline)? else {
            return Ok(None);
        };
        Ok(Some(MutexGuard::new(hold, lent)))
    }
}

impl<T: Drop, R: Wait + Clock + Drop> LockArc<T, R> {
    pub(crate) fn new(obtaining: Obtaining<Mutex<T>, Taker, Shared<Mutex<T>, R>>) -> Self {
        LockArc { obtaining }
    }

    /// Blocks the thread until it has the value, like [`Lock::wait`]. Returns a guard that may go to another thread.
    ///
    /// The guard goes to the thread that makes a sale:
    ///
    /// ```rust
    /// let takings = Mutex::lock_arc(&self.takings, rt, alloc)?.wait()?;
    /// let sale = thread::spawn(&rt, move || sell(seats, price, takings))?;
    /// ```
    pub fn wait(self) -> Result<MutexGuardArc<T, R>, LockError> {
        match come_first(self.obtaining) {
            Ok(guard) => Ok(guard),
            Err(rest) => {
                let (hold, parked) = rest.wait_longer()?;
                Ok(MutexGuardArc::new(hold, parked))
            }
        }
    }

    /// Blocks the thread until it has the value, at most for `timeout`, like [`Lock::wait_timeout`]. Returns a guard that may
    /// go to another thread.
    pub fn wait_timeout(self, timeout: Duration) -> Result<Option<MutexGuardArc<T, R>>, LockError> {
        match come_first(self.obtaining) {
            Ok(guard) => Ok(Some(guard)),
            Err(rest) => {
                let got = rest.wait_timeout(timeout)?;
                Ok(got.map(|(hold, parked)| MutexGuardArc::new(hold, parked)))
            }
        }
    }

    /// Blocks the thread until it has the value, at most until `deadline`, like [`Lock::wait_deadline`]. Returns a guard that
    /// may go to another thread.
    pub fn wait_deadline(
        self,
        deadline: Instant,
    ) -> Result<Option<MutexGuardArc<T, R>>, LockError> {
        match come_first(self.obtaining) {
            Ok(guard) => Ok(Some(guard)),
            Err(rest) => {
                let got = rest.wait_deadline(deadline)?;
                Ok(got.map(|(hold, parked)| MutexGuardArc::new(hold, parked)))
            }
        }
    }
}

impl<'a, T, R: Wait + Clock> Future for Lock<'a, T, R> {
    type Output = Result<MutexGuard<'a, T, R>, LockError>;

    ghost needs = { lock_awaits };

    fn poll(&mut self, cx: &mut Context<'_>) -> Poll<Result<MutexGuard<'a, T, R>, LockError>> {
        guarded(self.obtaining.poll(cx), MutexGuard::new)
    }
}

impl<T: Drop, R: Wait + Clock + Drop> Future for LockArc<T, R> {
    type Output = Result<MutexGuardArc<T, R>, LockError>;

    ghost needs = { lock_arc_awaits };

    fn poll(&mut self, cx: &mut Context<'_>) -> Poll<Result<MutexGuardArc<T, R>, LockError>> {
        if let Some(guard) = come_at_poll(&mut self.obtaining) {
            return Poll::Ready(Ok(guard));
        }
        guarded(self.obtaining.poll(cx), MutexGuardArc::new)
    }
}

// A wait that ends with a guard that shares the mutex.
type SharedWait<T, R> = Obtaining<Mutex<T>, Taker, Shared<Mutex<T>, R>>;

// Takes the value by one step, if the wait is in no queue and a newcomer may. Returns the wait, as an `Err`, else.
#[inline(always)]
fn come_first<T: Drop, R: Wait + Clock + Drop>(
    wait: SharedWait<T, R>,
) -> Result<MutexGuardArc<T, R>, SharedWait<T, R>> {
    match wait.begin() {
        Ok((hold, alloc)) => match MutexGuardArc::come(hold) {
            Ok(guard) => Ok(guard),
            Err(hold) => Err(Obtaining::new(hold, alloc, Taker::default())),
        },
        Err(rest) => Err(rest),
    }
}

// Takes the value as `come_first` does, for a poll. Returns `None` else, and the wait stays as it was.
#[inline(always)]
fn come_at_poll<T: Drop, R: Wait + Clock + Drop>(
    wait: &mut SharedWait<T, R>,
) -> Option<MutexGuardArc<T, R>> {
    let hold = wait.take_hold()?;
    match MutexGuardArc::come(hold) {
        Ok(guard) => Some(guard),
        Err(hold) => {
            wait.hold = Some(hold);
            None
        }
    }
}
