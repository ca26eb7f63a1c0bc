//! A thread that waits for a notification of another thread.
use event_listener::{Event, EventIds, IntoTagged, Listener};
use std::alloc::Global;
use std::sync::Wait;
use std::thread::{self, Threads};
use std::time::Clock;

/// Waits for the tag 7, with which another thread notifies. The listener is made before that thread starts, so the notification
/// finds the listener.
pub fn first_wait<R>(rt: R, alloc: Global) -> anyhow::Result<u32>
where
    R: Threads + Wait + Clock + Copy + Send + 'static,
{
    let event = Event::with_tag(EventIds::new().next()?);
    let listener = event.listen(&rt, alloc)?;
    let worker = thread::spawn(&rt, move || event.notify(&rt, 1.tag(7u32)))?;
    let waited = listener.wait();
    worker.join(&rt)?;
    Ok(waited?)
}
