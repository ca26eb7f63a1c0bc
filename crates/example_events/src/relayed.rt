//! Errors of waits that are propagated.

use event_listener::{Event, ListenError, Listener, WaitError, WaitReason};
use std::alloc::Global;
use std::sync::Wait;
use std::time::Clock;
use thiserror::Error;

/// Listens, and waits for the tag.
///
/// A wait that fails for memory returns its listener. The listener is dropped here, which propagates its notification.
pub fn wait_for_tag<R>(rt: &R, alloc: Global, event: &Event<u32>) -> Result<u32, TagError>
where
    R: Wait + Clock + Clone,
{
    let listener = event.listen(rt, alloc)?;
    Ok(listener.wait()?)
}

/// Why no tag came.
#[derive(Clone, Copy, Debug, PartialEq, Eq, Error)]
pub enum TagError {
    #[error("{0}")]
    Listen(#[from] ListenError),
    #[error("{0}")]
    Wait(#[from] WaitReason),
}

// Makes a `TagError` of a failed wait for a `?`, whatever listener the wait had.
impl<L: Drop> From<WaitError<L>> for TagError {
    fn from(error: WaitError<L>) -> TagError {
        TagError::Wait(error.reason())
    }
}
