use crate::notify::Notification;
use std::alloc::AllocError;
use std::vec::IntoIter;

/// A notification that has its tags in a list, and refuses to give a tag after the last.
#[derive(Drop)]
pub struct TagList<T> {
    /// How many listeners the notification is for.
    pub count: usize,
    /// Whether the notification is an additional one, which counts no listener that is notified already.
    pub additional: bool,
    /// The tags that are left, in order.
    pub tags: IntoIter<T>,
}

impl<T> Notification for TagList<T> {
    ghost use Rattle.std.specs.Vec.Iter.{into_iter_items};
    ghost use Rattle.event_queue.specs.Run.{TakesFirst};

    type Tag = T;

    ghost count = { λ source. source.count };

    ghost is_additional = { λ source. source.additional };

    ghost can_tag = { λ _. Unit {0} };

    ghost tag_gives = { λ before answer after.
        TakesFirst (into_iter_items before.tags) answer (into_iter_items after.tags) };

    fn count(&self) -> usize {
        self.count
    }

    fn is_additional(&self) -> bool {
        self.additional
    }

    fn next_tag(&mut self) -> Result<T, AllocError> {
        self.tags.next().ok_or(AllocError)
    }
}
