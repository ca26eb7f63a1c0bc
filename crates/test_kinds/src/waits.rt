//! What the waits of all locks have in common.
use event_locks::{
    Acquire, AcquireArc, AcquireError, BarrierWait, BarrierWaitResult, BlockError, Claim, Claiming,
    Lock, LockArc, LockError, MutexGuard, MutexGuardArc, PollError, Read, ReadArc, RwLockReadGuard,
    RwLockReadGuardArc, RwLockWriteGuard, RwLockWriteGuardArc, Seeing, SemaphoreGuard,
    SemaphoreGuardArc, Write, WriteArc,
};
use futures::Future;
use std::fmt::Debug;
use std::sync::Wait;
use std::time::{Clock, Duration, Instant};

/// Why a wait is granted nothing.
pub trait Refusal: Copy + Debug + Drop {
    /// Why it could not wait. A semaphore that is closed has no such reason.
    fn reason(&self) -> Option<LockError>;
}

impl Refusal for LockError {
    fn reason(&self) -> Option<LockError> {
        Some(*self)
    }
}

impl Refusal for AcquireError {
    fn reason(&self) -> Option<LockError> {
        match self {
            AcquireError::WaitFailed(error) => Some(*error),
            AcquireError::Closed => None,
        }
    }
}

impl Refusal for PollError {
    fn reason(&self) -> Option<LockError> {
        Some((*self).into())
    }
}

impl Refusal for BlockError {
    fn reason(&self) -> Option<LockError> {
        Some((*self).into())
    }
}

/// A wait for a lock. A thread blocks by it, and a task awaits it.
pub trait Waits: Future<Output = Result<Self::Granted, Self::Refusal>> + Drop {
    /// What it is granted.
    type Granted: Drop;

    /// Why a poll grants it nothing.
    type Refusal: Refusal;

    /// Why a thread that blocks by it is granted nothing.
    type Blocked: Refusal;

    /// It may be polled now.
    fn can_be_polled(&self)
        ensures { Self.can_poll self.now };

    /// Blocks the thread until it is granted.
    fn wait(self) -> Result<Self::Granted, Self::Blocked>;

    /// Blocks the thread until it is granted, or so long.
    fn wait_timeout(self, timeout: Duration) -> Result<Option<Self::Granted>, Self::Blocked>;

    /// Blocks the thread until it is granted, or until this moment.
    fn wait_deadline(self, deadline: Instant) -> Result<Option<Self::Granted>, Self::Blocked>;
}

impl<'a, R: Wait + Clock> Waits for Acquire<'a, R> {
    type Granted = SemaphoreGuard<'a, R>;

    type Refusal = AcquireError;

    type Blocked = AcquireError;

    fn can_be_polled(&self) {}

    fn wait(self) -> Result<Self::Granted, Self::Blocked> {
        self.wait()
    }

    fn wait_timeout(self, timeout: Duration) -> Result<Option<Self::Granted>, Self::Blocked> {
        self.wait_timeout(timeout)
    }

    fn wait_deadline(self, deadline: Instant) -> Result<Option<Self::Granted>, Self::Blocked> {
        self.wait_deadline(deadline)
    }
}

impl<R: Wait + Clock + Drop> Waits for AcquireArc<R> {
    type Granted = SemaphoreGuardArc<R>;

    type Refusal = AcquireError;

    type Blocked = AcquireError;

    fn can_be_polled(&self) {}

    fn wait(self) -> Result<Self::Granted, Self::Blocked> {
        self.wait()
    }

    fn wait_timeout(self, timeout: Duration) -> Result<Option<Self::Granted>, Self::Blocked> {
        self.wait_timeout(timeout)
    }

    fn wait_deadline(self, deadline: Instant) -> Result<Option<Self::Granted>, Self::Blocked> {
        self.wait_deadline(deadline)
    }
}

impl<'a, T: Drop, R: Wait + Clock> Waits for Lock<'a, T, R> {
    type Granted = MutexGuard<'a, T, R>;

    type Refusal = LockError;

    type Blocked = LockError;

    fn can_be_polled(&self) {}

    fn wait(self) -> Result<Self::Granted, Self::Blocked> {
        self.wait()
    }

    fn wait_timeout(self, timeout: Duration) -> Result<Option<Self::Granted>, Self::Blocked> {
        self.wait_timeout(timeout)
    }

    fn wait_deadline(self, deadline: Instant) -> Result<Option<Self::Granted>, Self::Blocked> {
        self.wait_deadline(deadline)
    }
}

impl<T: Drop, R: Wait + Clock + Drop> Waits for LockArc<T, R> {
    type Granted = MutexGuardArc<T, R>;

    type Refusal = LockError;

    type Blocked = LockError;

    fn can_be_polled(&self) {}

    fn wait(self) -> Result<Self::Granted, Self::Blocked> {
        self.wait()
    }

    fn wait_timeout(self, timeout: Duration) -> Result<Option<Self::Granted>, Self::Blocked> {
        self.wait_timeout(timeout)
    }

    fn wait_deadline(self, deadline: Instant) -> Result<Option<Self::Granted>, Self::Blocked> {
        self.wait_deadline(deadline)
    }
}

impl<'a, T, R: Wait + Clock> Waits for Read<'a, T, R> {
    type Granted = RwLockReadGuard<'a, T, R>;

    type Refusal = LockError;

    type Blocked = LockError;

    fn can_be_polled(&self) {}

    fn wait(self) -> Result<Self::Granted, Self::Blocked> {
        self.wait()
    }

    fn wait_timeout(self, timeout: Duration) -> Result<Option<Self::Granted>, Self::Blocked> {
        self.wait_timeout(timeout)
    }

    fn wait_deadline(self, deadline: Instant) -> Result<Option<Self::Granted>, Self::Blocked> {
        self.wait_deadline(deadline)
    }
}

impl<T: Drop, R: Wait + Clock + Drop> Waits for ReadArc<T, R> {
    type Granted = RwLockReadGuardArc<T, R>;

    type Refusal = LockError;

    type Blocked = LockError;

    fn can_be_polled(&self) {}

    fn wait(self) -> Result<Self::Granted, Self::Blocked> {
        self.wait()
    }

    fn wait_timeout(self, timeout: Duration) -> Result<Option<Self::Granted>, Self::Blocked> {
        self.wait_timeout(timeout)
    }

    fn wait_deadline(self, deadline: Instant) -> Result<Option<Self::Granted>, Self::Blocked> {
        self.wait_deadline(deadline)
    }
}

impl<'a, T, R: Wait + Clock> Waits for Write<'a, T, R> {
    type Granted = RwLockWriteGuard<'a, T, R>;

    type Refusal = LockError;

    type Blocked = LockError;

    fn can_be_polled(&self) {}

    fn wait(self) -> Result<Self::Granted, Self::Blocked> {
        self.wait()
    }

    fn wait_timeout(self, timeout: Duration) -> Result<Option<Self::Granted>, Self::Blocked> {
        self.wait_timeout(timeout)
    }

    fn wait_deadline(self, deadline: Instant) -> Result<Option<Self::Granted>, Self::Blocked> {
        self.wait_deadline(deadline)
    }
}

impl<T: Drop, R: Wait + Clock + Drop> Waits for WriteArc<T, R> {
    type Granted = RwLockWriteGuardArc<T, R>;

    type Refusal = LockError;

    type Blocked = LockError;

    fn can_be_polled(&self) {}

    fn wait(self) -> Result<Self::Granted, Self::Blocked> {
        self.wait()
    }

    fn wait_timeout(self, timeout: Duration) -> Result<Option<Self::Granted>, Self::Blocked> {
        self.wait_timeout(timeout)
    }

    fn wait_deadline(self, deadline: Instant) -> Result<Option<Self::Granted>, Self::Blocked> {
        self.wait_deadline(deadline)
    }
}

impl<R: Wait + Clock> Waits for BarrierWait<'_, R> {
    type Granted = BarrierWaitResult;

    type Refusal = PollError;

    type Blocked = BlockError;

    fn can_be_polled(&self) {}

    fn wait(self) -> Result<Self::Granted, Self::Blocked> {
        self.wait()
    }

    fn wait_timeout(self, timeout: Duration) -> Result<Option<Self::Granted>, Self::Blocked> {
        self.wait_timeout(timeout)
    }

    fn wait_deadline(self, deadline: Instant) -> Result<Option<Self::Granted>, Self::Blocked> {
        self.wait_deadline(deadline)
    }
}

impl<'a, T, R: Wait + Clock> Waits for Claiming<'a, T, R> {
    type Granted = Claim<'a, T, R>;

    type Refusal = PollError;

    type Blocked = BlockError;

    fn can_be_polled(&self) {}

    fn wait(self) -> Result<Self::Granted, Self::Blocked> {
        self.wait()
    }

    fn wait_timeout(self, timeout: Duration) -> Result<Option<Self::Granted>, Self::Blocked> {
        self.wait_timeout(timeout)
    }

    fn wait_deadline(self, deadline: Instant) -> Result<Option<Self::Granted>, Self::Blocked> {
        self.wait_deadline(deadline)
    }
}

impl<'a, T, R: Wait + Clock> Waits for Seeing<'a, T, R> {
    type Granted = &'a T;

    type Refusal = PollError;

    type Blocked = BlockError;

    fn can_be_polled(&self) {}

    fn wait(self) -> Result<Self::Granted, Self::Blocked> {
        self.wait()
    }

    fn wait_timeout(self, timeout: Duration) -> Result<Option<Self::Granted>, Self::Blocked> {
        self.wait_timeout(timeout)
    }

    fn wait_deadline(self, deadline: Instant) -> Result<Option<Self::Granted>, Self::Blocked> {
        self.wait_deadline(deadline)
    }
}
