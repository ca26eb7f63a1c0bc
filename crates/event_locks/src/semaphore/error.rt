//! Why a wait obtained no permit.
use event_wait::LockError;
use thiserror::Error;

/// Why a wait obtained no permit. The caller that waited is in no queue any more.
///
/// A function that waits for a permit returns this error to its caller:
///
/// ```rust
/// fn visit<R: Wait + Clock + Drop>(wait: AcquireArc<R>) -> Result<(), AcquireError> {
///     let _seat = wait.wait()?;
///     Ok(())
/// }
/// ```
#[derive(Clone, Copy, Debug, PartialEq, Eq, Error)]
pub enum AcquireError {
    /// The semaphore is closed, so there never will be a permit.
    #[error("the semaphore is closed")]
    Closed,
    /// The caller could not wait; the inner error says why.
    #[error("{0}")]
    WaitFailed(#[from] LockError),
}
