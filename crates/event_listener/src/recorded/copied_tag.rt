use event_queue::Notification;
use std::alloc::AllocError;

/// A notification that gives each listener that it notifies a copy of one tag, and refuses no tag.
#[derive(Drop)]
pub(super) struct CopiedTag<T> {
    pub(super) count: usize,
    pub(super) additional: bool,
    pub(super) tag: T,
}

impl<T: Copy> Notification for CopiedTag<T> {
    ghost use Rattle.std.specs.Prelude.{◌≡◌, Ok};

    type Tag = T;

    ghost count = { λ source. source.count };

    ghost is_additional = { λ source. source.additional };

    ghost can_tag = { λ _. Unit {0} };

    ghost tag_gives = { λ before answer after. (answer ≡ Ok before.tag) × (after ≡ before) };

    fn count(&self) -> usize {
        self.count
    }

    fn is_additional(&self) -> bool {
        self.additional
    }

    fn next_tag(&mut self) -> Result<T, AllocError> {
        Ok(self.tag)
    }
}
