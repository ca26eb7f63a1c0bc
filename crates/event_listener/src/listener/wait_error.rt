//! Why a wait gave no answer.
ghost use Rattle.std.specs.Prelude.{◌≡◌};
ghost use Rattle.event_listener.specs.Waiting.{reason_of};

use std::error::Error;
use std::fmt;
use std::fmt::{Debug, Display, Formatter};
use thiserror::Error;

/// Why a wait returned neither a tag nor `None`, with the listener if that may wait again.
///
/// [`reason`](WaitError::reason) says the same without the listener, for an error that is propagated. A
/// [`RecordedListener::discard`](crate::RecordedListener::discard) that fails for memory returns this error too.
///
/// ```rust
/// // A listener that comes back is dropped here, which propagates its notification.
/// if let Err(WaitError::Memory(_)) = listener.wait() {
///     return Err(FlagError::Memory);
/// }
/// ```
#[derive(Debug, Drop)]
pub enum WaitError<L> {
    /// The listener is not in the queue any more, because it has given its tag.
    NeverInserted,
    /// There was no memory for what the thread parks on, or, for a listener of a [`RecordedEvent`](crate::RecordedEvent), for
    /// an entry or a note. The same listener is returned, at the same place in the queue, and may wait again.
    Memory(L),
}

/// Why a wait returned neither a tag nor `None`, without the listener.
///
/// A variant of the caller's own error keeps the reason, which has no listener:
///
/// ```rust
/// #[error("{0}")]
/// Wait(#[from] WaitReason),
/// ```
#[derive(Clone, Copy, Debug, PartialEq, Eq, Error)]
pub enum WaitReason {
    /// The listener is not in the queue any more, because it has given its tag.
    #[error("listener is not in the queue")]
    NeverInserted,
    /// There was no memory for what the thread parks on, or, for a listener of a [`RecordedEvent`](crate::RecordedEvent), for
    /// an entry or a note.
    #[error("no memory for a parker")]
    Memory,
}

impl<L> WaitError<L> {
    /// Returns the reason without the listener, which stays in the error. Takes no memory and never blocks.
    ///
    /// Here an error of the caller keeps the reason, and the listener is dropped:
    ///
    /// ```rust
    /// fn from(error: WaitError<L>) -> TagError {
    ///     TagError::Wait(error.reason())
    /// }
    /// ```
    pub fn reason(&self) -> WaitReason
        ensures { result ≡ reason_of self.now }
    {
        match self {
            WaitError::NeverInserted => WaitReason::NeverInserted,
            WaitError::Memory(_) => WaitReason::Memory,
        }
    }
}

/// Drops the listener, if the error has one. The drop propagates the listener's notification if the listener was notified.
impl<L: Drop> From<WaitError<L>> for WaitReason {
    ghost from_gives = { λ error reason. reason ≡ reason_of error };

    fn from(error: WaitError<L>) -> WaitReason {
        error.reason()
    }
}

impl<L> Display for WaitError<L> {
    fn fmt<W: fmt::Write>(&self, f: &mut Formatter<W>) -> fmt::Result {
        Display::fmt(&self.reason(), f)
    }
}

impl<L: Debug + Drop> Error for WaitError<L> {}
