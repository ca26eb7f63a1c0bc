use event_listener::ListenError;
use thiserror::Error;

/// Why a permit was not given.
#[derive(Clone, Copy, Debug, PartialEq, Eq, Error)]
pub enum SemaphoreError {
    /// Memory was refused, for a listener or for what a thread parks on. No listener is left.
    #[error("no memory for a listener")]
    Memory,
    /// The semaphore's event has given out all serial numbers.
    #[error("serial numbers are used up")]
    SerialsUsedUp,
}

impl From<ListenError> for SemaphoreError {
    fn from(error: ListenError) -> Self {
        match error {
            ListenError::Memory => SemaphoreError::Memory,
            ListenError::SerialsUsedUp => SemaphoreError::SerialsUsedUp,
        }
    }
}
