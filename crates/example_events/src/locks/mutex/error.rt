use event_listener::ListenError;
use thiserror::Error;

/// Why a lock was not given.
#[derive(Clone, Copy, Debug, PartialEq, Eq, Error)]
pub enum MutexError {
    /// Memory was refused, for a listener or for what a thread parks on. No listener is left.
    #[error("no memory for a listener")]
    Memory,
    /// The lock's event has given out all serial numbers.
    #[error("serial numbers are used up")]
    SerialsUsedUp,
    /// A polled lock gave its guard before.
    #[error("the lock was given")]
    Finished,
}

impl From<ListenError> for MutexError {
    fn from(error: ListenError) -> Self {
        match error {
            ListenError::Memory => MutexError::Memory,
            ListenError::SerialsUsedUp => MutexError::SerialsUsedUp,
        }
    }
}
