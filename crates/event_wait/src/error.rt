//! Why nothing was obtained.
ghost use Rattle.std.specs.Prelude.{◌≡◌};
ghost use Rattle.event_wait.specs.Refused.{Means};

use crate::lock::wait::Refused;
use event_queue::ListenError;
use std::alloc::AllocError;
use thiserror::Error;

/// Why a wait obtained nothing.
///
/// The caller that waited is in no queue any more, and the lock is as if the caller had not asked.
#[derive(Clone, Copy, Debug, PartialEq, Eq, Error)]
pub enum LockError {
    /// The caller could not join the queue: memory was refused, or the serial numbers of the queue are used up.
    #[error("{0}")]
    Listen(#[from] ListenError),
    /// There was no memory for what the thread parks on, or no further share of the lock could be counted.
    #[error("no memory for a wait")]
    Memory(#[from] AllocError),
    /// As many readers have the lock or wait for it as the lock can count.
    #[error("too many readers")]
    TooManyReaders,
    /// The future was polled again after it had given its output.
    #[error("the wait is over")]
    Finished,
}

impl From<Refused<LockError>> for LockError {
    ghost from_gives = { Means };

    fn from(refused: Refused<LockError>) -> Self {
        match refused {
            Refused::Memory => LockError::Memory(AllocError),
            Refused::Request(error) => error,
        }
    }
}
