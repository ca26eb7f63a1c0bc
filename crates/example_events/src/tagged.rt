//! An event with tags, and the two kinds of notification.
ghost use Rattle.std.specs.Prelude.{◌≤◌};

use event_listener::{
    Event, EventId, IntoNotification, IntoTagged, ListenError, Listener, WaitError,
};
use std::alloc::Global;
use std::sync::Wait;
use std::time::Clock;
use thiserror::Error;

/// Why two listeners did not get their tags.
#[derive(Clone, Copy, Debug, PartialEq, Eq, Error)]
pub enum TagsError {
    #[error("{0}")]
    Listen(#[from] ListenError),
    #[error("no tag was given")]
    Wait,
}

impl<L: Drop> From<WaitError<L>> for TagsError {
    fn from(_refused: WaitError<L>) -> TagsError {
        TagsError::Wait
    }
}

/// Notifies the first listener that waits, with this tag, unless one is notified. Returns how many it notified.
///
/// A clone of a number never fails, so no tag is refused.
pub fn tell_one<R: Wait>(rt: &R, event: &Event<u32>, tag: u32) -> usize
    ensures { result ≤ 1 }
{
    event.notify(rt, 1.tag(tag)).unwrap()
}

/// Notifies the first listener that waits, with this tag, even if others are. Returns how many it notified.
pub fn tell_one_more<R: Wait>(rt: &R, event: &Event<u32>, tag: u32) -> usize
    ensures { result ≤ 1 }
{
    event.notify(rt, 1.additional().tag(tag)).unwrap()
}

/// Notifies two listeners three times, and returns the tags that they got: 7 and 9.
pub fn tags_of_two<R>(rt: &R, alloc: Global, id: EventId) -> Result<(u32, u32), TagsError>
where
    R: Wait + Clock + Clone,
{
    let event = Event::with_tag(id);
    let first = event.listen(rt, alloc)?;
    let second = event.listen(rt, alloc)?;
    tell_one(rt, &event, 7);
    // One is notified already, so none gets this tag.
    tell_one(rt, &event, 8);
    tell_one_more(rt, &event, 9);
    Ok((first.wait()?, second.wait()?))
}
