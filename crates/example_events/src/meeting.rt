//! A thread that waits for a flag until another thread has set it.
//!
//! The waiting thread looks at the flag, listens, looks again, and only then waits; the setting thread sets the flag, and
//! notifies afterwards. Both begin at once, so that either may be first.
use crate::flag::{Flag, FlagError};
use event_listener::EventId;
use std::alloc::{AllocError, Global};
use std::sync::{Arc, Wait};
use std::thread::{self, JoinHandle, Threads};
use std::time::Clock;
use thiserror::Error;

/// Why the wait ended before the flag was set.
#[derive(Clone, Copy, Debug, PartialEq, Eq, Error)]
pub enum MeetingError {
    /// The wait failed.
    #[error("{0}")]
    Flag(#[from] FlagError),
    /// There was no memory for the flag or for a share of it, or the thread did not start.
    #[error("no memory for the program")]
    Memory(#[from] AllocError),
}

/// Starts a thread that sets a flag, and waits until it is set. The thread has ended when this returns.
pub fn wait_for_setter<R>(rt: R, alloc: Global, id: EventId) -> Result<(), MeetingError>
where
    R: Threads + Wait + Clock + Copy + Send + Sync + 'static,
{
    let (flag, setter) = start_setter(rt, alloc, id)?;
    let waited = flag.wait(&rt, alloc);
    setter.join(&rt);
    waited?;
    Ok(())
}

// Makes a flag, and starts a thread that sets it.
fn start_setter<R>(
    rt: R,
    alloc: Global,
    id: EventId,
) -> Result<(Arc<Flag>, JoinHandle<()>), AllocError>
where
    R: Threads + Wait + Clock + Copy + Send + Sync + 'static,
{
    let flag = Arc::new(alloc, Flag::new(id))?;
    let share = Arc::try_clone(&flag)?;
    let setter = thread::spawn(&rt, move || share.set(&rt))?;
    Ok((flag, setter))
}
