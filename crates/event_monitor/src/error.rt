//! Why nothing was obtained, or nothing was set: for each call only what can befall it.
ghost use Rattle.std.specs.Prelude.{◌≡◌};
ghost use Rattle.event_monitor.specs.Errors.{IsWhy, block_error, of_block, of_poll, of_wait};

use event_queue::ListenError;
use event_wait::{LockError, Refused};
use std::alloc::AllocError;
use std::error::Error;
use std::fmt;
use std::fmt::{Debug, Display, Formatter};
use thiserror::Error;

/// Why a thread could not wait. The thread is in no queue, and what it asked is as if it had not been asked.
#[derive(Clone, Copy, Debug, PartialEq, Eq, Error)]
pub enum WaitError {
    /// The caller could not join the queue: memory was refused, or the serial numbers of the queue are used up.
    #[error("{0}")]
    Listen(#[from] ListenError),
    /// There was no memory for what the thread parks on.
    #[error("no memory for a wait")]
    Memory(#[from] AllocError),
}

/// Why a poll of a wait obtained nothing. The task is in no queue, and what it asked is as if it had not been asked.
#[derive(Clone, Copy, Debug, PartialEq, Eq, Error)]
pub enum PollError {
    /// The caller could not join the queue: memory was refused, or the serial numbers of the queue are used up.
    #[error("{0}")]
    Listen(#[from] ListenError),
    /// The future was polled again after it had given its output.
    #[error("the wait is over")]
    Finished,
}

/// Why a thread obtained nothing by a wait that may have been polled before. The thread is in no queue, and what it asked is as
/// if it had not been asked.
#[derive(Clone, Copy, Debug, PartialEq, Eq, Error)]
pub enum BlockError {
    /// The caller could not join the queue: memory was refused, or the serial numbers of the queue are used up.
    #[error("{0}")]
    Listen(#[from] ListenError),
    /// There was no memory for what the thread parks on.
    #[error("no memory for a wait")]
    Memory(#[from] AllocError),
    /// The future had given its output before the thread waited on it.
    #[error("the wait is over")]
    Finished,
}

impl From<Refused<ListenError>> for WaitError {
    ghost from_gives = { IsWhy };

    fn from(refused: Refused<ListenError>) -> Self {
        match refused {
            Refused::Memory => WaitError::Memory(AllocError),
            Refused::Request(error) => WaitError::Listen(error),
        }
    }
}

impl From<WaitError> for BlockError {
    ghost from_gives = { λ from error. error ≡ block_error from };

    fn from(error: WaitError) -> Self {
        match error {
            WaitError::Listen(error) => BlockError::Listen(error),
            WaitError::Memory(error) => BlockError::Memory(error),
        }
    }
}

// A wait of this crate may stand beside a wait for a lock, whose errors have these reasons, too.
impl From<WaitError> for LockError {
    ghost from_gives = { λ from error. error ≡ of_wait from };

    fn from(error: WaitError) -> Self {
        match error {
            WaitError::Listen(error) => LockError::Listen(error),
            WaitError::Memory(error) => LockError::Memory(error),
        }
    }
}

impl From<PollError> for LockError {
    ghost from_gives = { λ from error. error ≡ of_poll from };

    fn from(error: PollError) -> Self {
        match error {
            PollError::Listen(error) => LockError::Listen(error),
            PollError::Finished => LockError::Finished,
        }
    }
}

impl From<BlockError> for LockError {
    ghost from_gives = { λ from error. error ≡ of_block from };

    fn from(error: BlockError) -> Self {
        match error {
            BlockError::Listen(error) => LockError::Listen(error),
            BlockError::Memory(error) => LockError::Memory(error),
            BlockError::Finished => LockError::Finished,
        }
    }
}

/// Why a cell was not set.
#[derive(Clone, Copy, Debug, PartialEq, Eq, Error)]
pub enum SetReason {
    /// The cell is set already.
    #[error("the cell is set already")]
    AlreadySet,
    /// Another caller is making the value, and this caller could not wait for that.
    #[error("{0}")]
    WaitFailed(#[from] WaitError),
}

/// A value to which a cell was not set, and why.
#[derive(Clone, Copy, PartialEq, Eq, Drop)]
pub struct SetError<T> {
    /// The value, which the caller has again.
    pub value: T,
    /// Why the cell was not set.
    pub reason: SetReason,
}

impl<T> SetError<T> {
    pub(crate) fn new(value: T, reason: SetReason) -> Self
        ensures value { result.value ≡ value }
        ensures reason { result.reason ≡ reason }
    {
        SetError { value, reason }
    }
}

impl<T> Display for SetError<T> {
    fn fmt<W: fmt::Write>(&self, f: &mut Formatter<W>) -> fmt::Result {
        Display::fmt(&self.reason, f)
    }
}

/// Shows the reason and not the value, which need not be [`Debug`](std::fmt::Debug).
impl<T> Debug for SetError<T> {
    fn fmt<W: fmt::Write>(&self, f: &mut Formatter<W>) -> fmt::Result {
        Debug::fmt(&self.reason, f)
    }
}

impl<T: Drop> Error for SetError<T> {}
