//! Why an `Until` returned no output.
use event_listener::{ListenError, NeverInserted, WaitError, WaitReason};
use std::alloc::AllocError;
use thiserror::Error;

/// Why an [`Until`](crate::Until) returned no output.
///
/// After an error no listener of the `Until` is in the queue, and the `Until` may be waited on or polled again.
///
/// This attempt does all that may fail before it takes the baton. Each `?` makes a [`Memory`](UntilError::Memory) of an
/// `AllocError`:
///
/// ```rust
/// let rt = rt.clone()?;
/// let share = Arc::try_clone(baton)?;
/// if baton.is_taken.swap(true, Ordering::SeqCst) {
///     return Ok(None);
/// }
/// ```
#[derive(Clone, Copy, Debug, PartialEq, Eq, Error)]
pub enum UntilError {
    /// No listener could be registered: memory ran out, or the queue has given out all its serial numbers, of which each
    /// listener gets one.
    #[error("{0}")]
    Listen(#[from] ListenError),
    /// There was no memory for what the thread parks on.
    #[error("no memory for a parker")]
    Parker,
    /// A listener was not in the queue. `Until` keeps no listener that has given its tag, so it should never return this; no
    /// clause says so.
    #[error("{0}")]
    NeverInserted(#[from] NeverInserted),
    /// There was no memory for what an attempt makes, for example a guard's clone of the runtime value. `Until` itself never
    /// returns this: the variant is for callers, whose `AllocError` converts into it.
    #[error("no memory for an attempt")]
    Memory,
}

impl From<AllocError> for UntilError {
    ghost use Rattle.std.specs.Prelude.{◌≡◌};
    ghost use Rattle.event_until.specs.declared.error.UntilError.TheVariants.{Memory};

    ghost from_gives = { λ _ error. error ≡ Memory };

    fn from(_refused: AllocError) -> UntilError {
        UntilError::Memory
    }
}

impl From<WaitReason> for UntilError {
    fn from(reason: WaitReason) -> UntilError {
        match reason {
            WaitReason::Memory => UntilError::Parker,
            WaitReason::NeverInserted => UntilError::NeverInserted(NeverInserted),
        }
    }
}

/// Drops the listener, if the error has one. The drop propagates the listener's notification if the listener was notified.
impl<L: Drop> From<WaitError<L>> for UntilError {
    fn from(error: WaitError<L>) -> UntilError {
        UntilError::from(error.reason())
    }
}
