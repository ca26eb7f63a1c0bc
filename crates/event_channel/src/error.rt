//! Why a message was not sent, or none received.
ghost use Rattle.std.specs.Prelude.{◌≡◌, ◌↔◌, IsTrue};

use event_queue::ListenError;
use std::alloc::AllocError;
use std::error::Error;
use std::fmt;
use std::fmt::{Debug, Display, Formatter};
use thiserror::Error;

/// Why a wait was refused.
///
/// A function that iterates over messages propagates this error by `?`:
///
/// ```rust
/// fn work<R: Wait + Clock + Clone>(jobs: Receiver<Job<R>, R>) -> Result<(), WaitError> {
///     for job in jobs.iter() {
///         let Job { number, answer } = job?;
/// ```
#[derive(Clone, Copy, Debug, PartialEq, Eq, Error)]
pub enum WaitError {
    /// The caller could not join the queue: memory was refused, or the serial numbers of the queue are used up.
    #[error("{0}")]
    Listen(#[from] ListenError),
    /// There was no memory for what the thread parks on, or for the message that was to be received.
    #[error("no memory for a wait")]
    Memory(#[from] AllocError),
}

/// Why a message was not sent.
#[derive(Clone, Copy, Debug, PartialEq, Eq, Error)]
pub enum SendReason {
    /// The channel is closed.
    #[error("the channel is closed")]
    Closed,
    /// As many messages wait as there may be, or each free place is due to a notified send while a send
    /// [starves](crate::PATIENCE). Only [`try_send`](crate::Sender::try_send) returns this.
    #[error("there is no room for the message")]
    Full,
    /// There was no room for the message before the time passed.
    #[error("there was no room for the message in time")]
    TimedOut,
    /// There was no memory for the message. A channel with a limit never returns this: it has room for its messages from
    /// the beginning.
    #[error("no memory for a message")]
    Memory,
    /// There is no room for the message, and the caller could not wait for room.
    #[error("{0}")]
    WaitFailed(#[from] WaitError),
}

/// A message that was not sent, and why. The caller has the message again.
///
/// Here `late` is the answer of a send that came after the close, and the closure takes the reason and the message out of its
/// error:
///
/// ```rust
/// let (sum, late) = close_gracefully(rt, rt.alloc())?;
/// let late = late.map_err(|refused| (refused.reason, refused.message));
/// ```
#[derive(Clone, Copy, PartialEq, Eq, Drop)]
pub struct SendError<T> {
    pub message: T,
    pub reason: SendReason,
}

/// Why [`try_recv`](crate::Receiver::try_recv) received no message.
///
/// Here a loop receives what there is, and the function returns once nothing was received:
///
/// ```rust
/// match readings.try_recv() {
///     Ok(reading) => sum = sum.saturating_add(reading),
///     Err(TryRecvError::Empty) => return (sum, true),
///     Err(TryRecvError::Closed) => return (sum, false),
/// }
/// ```
#[derive(Clone, Copy, Debug, PartialEq, Eq, Error)]
pub enum TryRecvError {
    /// No message waits, or each message that waits is due to a notified receive while a receive [starves](crate::PATIENCE).
    #[error("there is no message to receive")]
    Empty,
    /// The channel is closed and empty, so no message will come.
    #[error("the channel is empty and closed")]
    Closed,
}

/// Why no message was received.
///
/// A worker ends without an error once the channel is closed and empty, and returns any other error:
///
/// ```rust
/// Err(RecvError::Closed) => return Ok(sum),
/// Err(error) => return Err(error),
/// ```
#[derive(Clone, Copy, Debug, PartialEq, Eq, Error)]
pub enum RecvError {
    /// The channel is closed and empty, so no message will come.
    #[error("the channel is empty and closed")]
    Closed,
    /// There is no message, and the caller could not wait for one; or `recv_many` found no memory for a message, whether or not
    /// a message waits.
    #[error("{0}")]
    WaitFailed(#[from] WaitError),
}

/// Why no message was received in time.
///
/// Here a limit that has passed is no error for the caller:
///
/// ```rust
/// match readings.recv_timeout(limit) {
///     Ok(reading) => Ok(Some(reading)),
///     Err(RecvTimeoutError::TimedOut) => Ok(None),
///     Err(error) => Err(error),
/// }
/// ```
#[derive(Clone, Copy, Debug, PartialEq, Eq, Error)]
pub enum RecvTimeoutError {
    /// There was no message before the time passed.
    #[error("there was no message to receive in time")]
    TimedOut,
    /// The channel is closed and empty, so no message will come.
    #[error("the channel is empty and closed")]
    Closed,
    /// There is no message, and the caller could not wait for one.
    #[error("{0}")]
    WaitFailed(#[from] WaitError),
}

impl<T> SendError<T> {
    pub(crate) fn new(message: T, reason: SendReason) -> Self
        ensures message { result.message ≡ message }
        ensures reason { result.reason ≡ reason }
    {
        SendError { message, reason }
    }

    /// Returns the message that was not sent.
    pub fn into_inner(self) -> T
        ensures { result ≡ self.message }
    {
        self.message
    }

    /// Returns whether the message was refused because there was no room for it.
    pub fn is_full(&self) -> bool
        ensures { IsTrue result ↔ (self.now.reason ≡ SendReason.Full) }
    {
        self.reason == SendReason::Full
    }

    /// Returns whether the message was refused because the channel was closed.
    pub fn is_closed(&self) -> bool
        ensures { IsTrue result ↔ (self.now.reason ≡ SendReason.Closed) }
    {
        self.reason == SendReason::Closed
    }
}

impl TryRecvError {
    /// Returns whether there was no message to receive though the channel was open.
    pub fn is_empty(&self) -> bool
        ensures { IsTrue result ↔ (self.now ≡ TryRecvError.Empty) }
    {
        matches!(self, TryRecvError::Empty)
    }

    /// Returns whether the channel was closed and empty.
    pub fn is_closed(&self) -> bool
        ensures { IsTrue result ↔ (self.now ≡ TryRecvError.Closed) }
    {
        matches!(self, TryRecvError::Closed)
    }
}

impl<T> Display for SendError<T> {
    fn fmt<W: fmt::Write>(&self, f: &mut Formatter<W>) -> fmt::Result {
        Display::fmt(&self.reason, f)
    }
}

/// Shows the reason and not the message, which need not be [`Debug`](std::fmt::Debug).
impl<T> Debug for SendError<T> {
    fn fmt<W: fmt::Write>(&self, f: &mut Formatter<W>) -> fmt::Result {
        Debug::fmt(&self.reason, f)
    }
}

impl<T: Drop> Error for SendError<T> {}
