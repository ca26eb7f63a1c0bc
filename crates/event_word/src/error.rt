//! Why no permit was taken.
use thiserror::Error;

/// Why a call that does not wait took no permit.
#[derive(Clone, Copy, Debug, PartialEq, Eq, Error)]
pub enum TryAcquireError {
    /// The semaphore is closed, so there never will be a permit.
    #[error("the semaphore is closed")]
    Closed,
    /// Fewer permits are free than were asked for, or newcomers are shut out: a waiter starves, or a thread could not put the queue
    /// back in sixteen tries.
    #[error("too few permits are free for newcomers")]
    NoPermits,
}
