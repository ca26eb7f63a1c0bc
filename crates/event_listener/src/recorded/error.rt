use std::alloc::AllocError;
use thiserror::Error;

/// Why a call of a [`RecordedEvent`](crate::RecordedEvent) failed.
///
/// A caller whose notification has to arrive retries:
///
/// ```rust
/// // No listener is notified if memory runs out, so try until it does not.
/// for _ in rt.forever() {
///     if flag.set(rt, &mut hand).is_ok() {
///         break;
///     }
/// }
/// ```
#[derive(Clone, Copy, Debug, PartialEq, Eq, Error)]
pub enum RecordError {
    /// There was no memory for the record, the queue or the hand's note, or no clone of the runtime value could be made.
    /// Nothing was changed, recorded or noted, so the caller may retry. Only a failed
    /// [`RecordedEvent::new`](crate::RecordedEvent::new) has used up its identity.
    #[error("no memory for the record")]
    Memory,
    /// The queue has given out all its serial numbers, of which each listener gets one. No listener was inserted. The call is
    /// recorded and noted with this reply.
    #[error("serial numbers are used up")]
    SerialsUsedUp,
}

impl From<AllocError> for RecordError {
    ghost use Rattle.std.specs.Prelude.{◌≡◌};
    ghost use Rattle.event_listener.specs.declared.recorded.error.RecordError.TheVariants.{Memory};

    ghost from_gives = { λ _ error. error ≡ Memory };

    fn from(_refused: AllocError) -> Self {
        RecordError::Memory
    }
}
