//! Waits for the value of a read-write lock.
ghost use Rattle.std.specs.Prelude.{◌<◌};
ghost use Rattle.event_locks.specs.Awaited.{read_arc_awaits, read_awaits, write_arc_awaits, write_awaits};

use super::RwLock;
use super::guard::{
    HeldArc, RwLockReadGuard, RwLockReadGuardArc, RwLockWriteGuard, RwLockWriteGuardArc,
};
use super::requests::Place;
use crate::lending::{Lender, Lending};
use crate::polled::guarded;
use event_wait::{LockError, Obtaining, Shared, Task};
use event_word::{Reading, Right, Writing};
use futures::Future;
use futures::task::{Context, Poll};
use std::sync::Wait;
use std::time::{Clock, Duration, Instant};

/// A wait for the right to read the value of a read-write lock. It asks once it is waited on or polled, and not before.
///
/// A thread blocks by [`wait`](Read::wait), [`wait_timeout`](Read::wait_timeout) or [`wait_deadline`](Read::wait_deadline). A
/// task awaits it, since it is a future; a poll after its output answers [`LockError::Finished`]. A `Read` that was polled and
/// is then waited on keeps its place in the queue. A `Read` that is dropped while it waits leaves the queue; if it was let in,
/// it gives the right back.
///
/// A `Read` that was let in has the lock, whether it is polled or not. So a `Read` that is kept unpolled keeps other callers
/// out, for example as one arm of a `select` whose other arm asks for the same lock.
///
/// A task awaits a `Read`. The first `?` propagates an error of the executor, the second an error of the wait:
///
/// ```rust
/// Ok(*block_on(rt, value.read(rt, alloc))??)
/// ```
#[must_use = "nothing is asked for until it is waited on or polled"]
#[derive(Drop)]
pub struct Read<'a, T, R: Wait + Clock> {
    obtaining: Obtaining<Lender<'a, RwLock<T>>, Place<Reading>, Lending<'a, RwLock<T>, R>>,
}

/// A wait for the right to read the value of a read-write lock that keeps the lock by a share of its `Arc`, so that the wait
/// and its guard may go to another thread.
///
/// A `ReadArc` is waited on, awaited and dropped like a [`Read`].
///
/// [`RwLock::read_arc`](crate::RwLock::read_arc) makes this, and a thread waits on it:
///
/// ```rust
/// let price = RwLock::read_arc(&self.price, rt, alloc)?.wait()?;
/// ```
#[must_use = "nothing is asked for until it is waited on or polled"]
#[derive(Drop)]
pub struct ReadArc<T: Drop, R: Wait + Clock + Drop> {
    obtaining: Obtaining<RwLock<T>, Place<Reading>, Shared<RwLock<T>, R>>,
}

impl<'a, T, R: Wait + Clock> Read<'a, T, R> {
    #[inline(always)]
    pub(crate) fn new(
        obtaining: Obtaining<Lender<'a, RwLock<T>>, Place<Reading>, Lending<'a, RwLock<T>, R>>,
    ) -> Self {
        Read { obtaining }
    }

    /// Blocks the thread until it may read. Returns the guard.
    ///
    /// The call first tries at once. Where it has to wait it takes memory, for a place in the queue and for what the thread
    /// parks on. An error says that it could not wait: then the caller is in no queue.
    ///
    /// ```rust
    /// let reader = cache.read(rt, alloc).wait()?;
    /// if let Some(square) = reader.get(number) {
    ///     return Ok(square);
    /// }
    /// ```
    #[inline(always)]
    pub fn wait(self) -> Result<RwLockReadGuard<'a, T, R>, LockError> {
        let (hold, grant) = self.obtaining.wait()?;
        Ok(RwLockReadGuard::new(hold, grant))
    }

    /// Blocks the thread until it may read, at most for `timeout`. Returns `None` if that passed in vain.
    ///
    /// After `None` or an error the caller is in no queue. With a `timeout` of zero the call only tries at once: it joins no
    /// queue and takes no memory. A moment too late to be represented never arrives, so then the call waits without a limit. A
    /// clock that can't be read counts as one that shows that the time has passed.
    pub fn wait_timeout(
        self,
        timeout: Duration,
    ) -> Result<Option<RwLockReadGuard<'a, T, R>>, LockError> {
        let Some((hold, grant)) = self.obtaining.wait_timeout(timeout)? else {
            return Ok(None);
        };
        Ok(Some(RwLockReadGuard::new(hold, grant)))
    }

    /// Blocks the thread until it may read, at most until `deadline`. Returns `None` if that passed in vain.
    ///
    /// After `None` or an error the caller is in no queue. If `deadline` has passed the call only tries at once: it joins no
    /// queue and takes no memory. A clock that can't be read counts as one that shows that the time has passed.
    pub fn wait_deadline(
        self,
        deadline: Instant,
    ) -> Result<Option<RwLockReadGuard<'a, T, R>>, LockError> {
        let Some((hold, grant)) = self.obtaining.wait_deadline(deadline)? else {
            return Ok(None);
        };
        Ok(Some(RwLockReadGuard::new(hold, grant)))
    }
}

impl<T: Drop, R: Wait + Clock + Drop> ReadArc<T, R> {
    pub(crate) fn new(
        obtaining: Obtaining<RwLock<T>, Place<Reading>, Shared<RwLock<T>, R>>,
    ) -> Self {
        ReadArc { obtaining }
    }

    /// Blocks the thread until it may read, like [`Read::wait`]. Returns a guard that may go to another thread.
    ///
    /// The guard goes to the thread that makes a sale:
    ///
    /// ```rust
    /// let price = RwLock::read_arc(&self.price, rt, alloc)?.wait()?;
    ///
    /// let sale = thread::spawn(&rt, move || sell(seats, price, takings))?;
    /// ```
    pub fn wait(self) -> Result<RwLockReadGuardArc<T, R>, LockError> {
        match come_first(self.obtaining) {
            Ok(held) => Ok(RwLockReadGuardArc::of(held)),
            Err(rest) => {
                let (hold, share) = rest.wait_longer()?;
                Ok(RwLockReadGuardArc::new(hold, share))
            }
        }
    }

    /// Blocks the thread until it may read, at most for `timeout`, like [`Read::wait_timeout`]. Returns a guard that may go to
    /// another thread.
    pub fn wait_timeout(
        self,
        timeout: Duration,
    ) -> Result<Option<RwLockReadGuardArc<T, R>>, LockError> {
        match come_first(self.obtaining) {
            Ok(held) => Ok(Some(RwLockReadGuardArc::of(held))),
            Err(rest) => {
                let got = rest.wait_timeout(timeout)?;
                Ok(got.map(|(hold, share)| RwLockReadGuardArc::new(hold, share)))
            }
        }
    }

    /// Blocks the thread until it may read, at most until `deadline`, like [`Read::wait_deadline`]. Returns a guard that may go
    /// to another thread.
    pub fn wait_deadline(
        self,
        deadline: Instant,
    ) -> Result<Option<RwLockReadGuardArc<T, R>>, LockError> {
        match come_first(self.obtaining) {
            Ok(held) => Ok(Some(RwLockReadGuardArc::of(held))),
            Err(rest) => {
                let got = rest.wait_deadline(deadline)?;
                Ok(got.map(|(hold, share)| RwLockReadGuardArc::new(hold, share)))
            }
        }
    }
}

impl<'a, T, R: Wait + Clock> Future for Read<'a, T, R> {
    type Output = Result<RwLockReadGuard<'a, T, R>, LockError>;

    ghost needs = { read_awaits };

    fn poll(&mut self, cx: &mut Context<'_>) -> Poll<Result<RwLockReadGuard<'a, T, R>, LockError>> {
        guarded(self.obtaining.poll(cx), RwLockReadGuard::new)
    }
}

impl<T: Drop, R: Wait + Clock + Drop> Future for ReadArc<T, R> {
    type Output = Result<RwLockReadGuardArc<T, R>, LockError>;

    ghost needs = { read_arc_awaits };

    fn poll(&mut self, cx: &mut Context<'_>) -> Poll<Result<RwLockReadGuardArc<T, R>, LockError>> {
        if let Some(held) = come_at_poll(&mut self.obtaining) {
            return Poll::Ready(Ok(RwLockReadGuardArc::of(held)));
        }
        guarded(self.obtaining.poll(cx), RwLockReadGuardArc::new)
    }
}

/// A wait for the right to write the value of a read-write lock. It asks once it is waited on or polled, and not before.
///
/// A thread blocks by [`wait`](Write::wait), [`wait_timeout`](Write::wait_timeout) or [`wait_deadline`](Write::wait_deadline).
/// A task awaits it, since it is a future; a poll after its output answers [`LockError::Finished`]. A `Write` that was polled
/// and is then waited on keeps its place in the queue. A `Write` that is dropped while it waits leaves the queue; if it was let
/// in, it gives the right back.
///
/// A `Write` that was let in has the lock, whether it is polled or not. So a `Write` that is kept unpolled keeps other callers
/// out, for example as one arm of a `select` whose other arm asks for the same lock.
///
/// A task awaits a `Write`. The first `?` propagates an error of the executor, the second an error of the wait:
///
/// ```rust
/// let mut writer = block_on(rt, value.write(rt, alloc))??;
/// *writer = writer.saturating_mul(2);
/// ```
#[must_use = "nothing is asked for until it is waited on or polled"]
#[derive(Drop)]
pub struct Write<'a, T, R: Wait + Clock> {
    obtaining: Obtaining<Lender<'a, RwLock<T>>, Place<Writing>, Lending<'a, RwLock<T>, R>>,
}

/// A wait for the right to write the value of a read-write lock that keeps the lock by a share of its `Arc`, so that the wait
/// and its guard may go to another thread.
///
/// A `WriteArc` is waited on, awaited and dropped like a [`Write`].
///
/// [`RwLock::write_arc`](crate::RwLock::write_arc) makes this, and a thread waits on it:
///
/// ```rust
/// let price = RwLock::write_arc(&self.price, rt, alloc)?.wait()?;
/// ```
#[must_use = "nothing is asked for until it is waited on or polled"]
#[derive(Drop)]
pub struct WriteArc<T: Drop, R: Wait + Clock + Drop> {
    obtaining: Obtaining<RwLock<T>, Place<Writing>, Shared<RwLock<T>, R>>,
}

impl<'a, T, R: Wait + Clock> Write<'a, T, R> {
    #[inline(always)]
    pub(crate) fn new(
        obtaining: Obtaining<Lender<'a, RwLock<T>>, Place<Writing>, Lending<'a, RwLock<T>, R>>,
    ) -> Self {
        Write { obtaining }
    }

    /// Blocks the thread until it may write. Returns the guard.
    ///
    /// The call first tries at once. Where it has to wait it takes memory, for a place in the queue and for what the thread
    /// parks on. An error says that it could not wait: then the caller is in no queue.
    ///
    /// ```rust
    /// let mut writer = cache.write(rt, alloc).wait()?;
    ///
    /// Ok(writer.add(number)?)
    /// ```
    #[inline(always)]
    pub fn wait(self) -> Result<RwLockWriteGuard<'a, T, R>, LockError> {
        let (hold, grant) = self.obtaining.wait()?;
        Ok(RwLockWriteGuard::new(hold, grant))
    }

    /// Blocks the thread until it may write, at most for `timeout`. Returns `None` if that passed in vain.
    ///
    /// After `None` or an error the caller is in no queue. With a `timeout` of zero the call only tries at once: it joins no
    /// queue and takes no memory. A moment too late to be represented never arrives, so then the call waits without a limit. A
    /// clock that can't be read counts as one that shows that the time has passed.
    pub fn wait_timeout(
        self,
        timeout: Duration,
    ) -> Result<Option<RwLockWriteGuard<'a, T, R>>, LockError> {
        let Some((hold, grant)) = self.obtaining.wait_timeout(timeout)? else {
            return Ok(None);
        };
        Ok(Some(RwLockWriteGuard::new(hold, grant)))
    }

    /// Blocks the thread until it may write, at most until `deadline`. Returns `None` if that passed in vain.
    ///
    /// After `None` or an error the caller is in no queue. If `deadline` has passed the call only tries at once: it joins no
    /// queue and takes no memory. A clock that can't be read counts as one that shows that the time has passed.
    pub fn wait_deadline(
        self,
        deadline: Instant,
    ) -> Result<Option<RwLockWriteGuard<'a, T, R>>, LockError> {
        let Some((hold, grant)) = self.obtaining.wait_deadline(deadline)? else {
            return Ok(None);
        };
        Ok(Some(RwLockWriteGuard::new(hold, grant)))
    }
}

impl<T: Drop, R: Wait + Clock + Drop> WriteArc<T, R> {
    pub(crate) fn new(
        obtaining: Obtaining<RwLock<T>, Place<Writing>, Shared<RwLock<T>, R>>,
    ) -> Self {
        WriteArc { obtaining }
    }

    /// Blocks the thread until it may write, like [`Write::wait`]. Returns a guard that may go to another thread.
    ///
    /// The guard goes to the thread that sets the price:
    ///
    /// ```rust
    /// let price = RwLock::write_arc(&self.price, rt, alloc)?.wait()?;
    /// let setter = thread::spawn(&rt, move || set(price, amount))?;
    /// ```
    pub fn wait(self) -> Result<RwLockWriteGuardArc<T, R>, LockError> {
        match come_first(self.obtaining) {
            Ok(held) => Ok(RwLockWriteGuardArc::of(held)),
            Err(rest) => {
                let (hold, share) = rest.wait_longer()?;
                Ok(RwLockWriteGuardArc::new(hold, share))
            }
        }
    }

    /// Blocks the thread until it may write, at most for `timeout`, like [`Write::wait_timeout`]. Returns a guard that may go
    /// to another thread.
    pub fn wait_timeout(
        self,
        timeout: Duration,
    ) -> Result<Option<RwLockWriteGuardArc<T, R>>, LockError> {
        match come_first(self.obtaining) {
            Ok(held) => Ok(Some(RwLockWriteGuardArc::of(held))),
            Err(rest) => {
                let got = rest.wait_timeout(timeout)?;
                Ok(got.map(|(hold, share)| RwLockWriteGuardArc::new(hold, share)))
            }
        }
    }

    /// Blocks the thread until it may write, at most until `deadline`, like [`Write::wait_deadline`]. Returns a guard that may
    /// go to another thread.
    pub fn wait_deadline(
        self,
        deadline: Instant,
    ) -> Result<Option<RwLockWriteGuardArc<T, R>>, LockError> {
        match come_first(self.obtaining) {
            Ok(held) => Ok(Some(RwLockWriteGuardArc::of(held))),
            Err(rest) => {
                let got = rest.wait_deadline(deadline)?;
                Ok(got.map(|(hold, share)| RwLockWriteGuardArc::new(hold, share)))
            }
        }
    }
}

impl<'a, T, R: Wait + Clock> Future for Write<'a, T, R> {
    type Output = Result<RwLockWriteGuard<'a, T, R>, LockError>;

    ghost needs = { write_awaits };

    fn poll(
        &mut self,
        cx: &mut Context<'_>,
    ) -> Poll<Result<RwLockWriteGuard<'a, T, R>, LockError>> {
        guarded(self.obtaining.poll(cx), RwLockWriteGuard::new)
    }
}

impl<T: Drop, R: Wait + Clock + Drop> Future for WriteArc<T, R> {
    type Output = Result<RwLockWriteGuardArc<T, R>, LockError>;

    ghost needs = { write_arc_awaits };

    fn poll(&mut self, cx: &mut Context<'_>) -> Poll<Result<RwLockWriteGuardArc<T, R>, LockError>> {
        if let Some(held) = come_at_poll(&mut self.obtaining) {
            return Poll::Ready(Ok(RwLockWriteGuardArc::of(held)));
        }
        guarded(self.obtaining.poll(cx), RwLockWriteGuardArc::new)
    }
}

// A wait for a right, which ends with a guard that shares the lock.
type SharedWait<T, R, K> = Obtaining<RwLock<T>, Place<K>, Shared<RwLock<T>, R>>;

// Takes the right by one step, if the wait is in no queue and the lock admits a newcomer. Returns the wait, as an `Err`, else.
#[inline(always)]
fn come_first<T: Drop, R: Wait + Clock + Drop, K: Right<Task>>(
    wait: SharedWait<T, R, K>,
) -> Result<HeldArc<T, R, K>, SharedWait<T, R, K>>
    requires { 0 < K.RIGHT }
{
    match wait.begin() {
        Ok((hold, alloc)) => match HeldArc::come(hold) {
            Ok(held) => Ok(held),
            Err(hold) => Err(Obtaining::new(hold, alloc, Place::default())),
        },
        Err(rest) => Err(rest),
    }
}

// Takes the right as `come_first` does, for a poll. Returns `None` else, and the wait stays as it was.
#[inline(always)]
fn come_at_poll<T: Drop, R: Wait + Clock + Drop, K: Right<Task>>(
    wait: &mut SharedWait<T, R, K>,
) -> Option<HeldArc<T, R, K>>
    requires { 0 < K.RIGHT }
{
    let hold = wait.take_hold()?;
    match HeldArc::come(hold) {
        Ok(held) => Some(held),
        Err(hold) => {
            wait.hold = Some(hold);
            None
        }
    }
}
