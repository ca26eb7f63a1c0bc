//! An additional notification.
ghost use Rattle.std.specs.Prelude.{◌≡◌, true};

use super::Notification;
use std::alloc::AllocError;
use std::marker::Model;

/// A notification that was made additional: it notifies its whole count anew, however many listeners are notified already.
#[derive(Clone, Debug, Drop)]
pub struct Additional<N>(N);

impl<N> Model for Additional<N> {
    ghost Value = { N };

    ghost view = { λ n. n.0 };
}

impl<N> Additional<N> {
    pub(super) fn new(inner: N) -> Self
        ensures { result ≡ inner }
    {
        Additional(inner)
    }
}

impl<N: Notification> Notification for Additional<N> {
    type Tag = N::Tag;

    ghost count = { λ n. N.count n };

    ghost is_additional = { λ _. true };

    ghost can_tag = { λ n. N.can_tag n };

    ghost tag_gives = { λ before answer after. N.tag_gives before answer after };

    fn count(&self) -> usize {
        self.0.count()
    }

    fn is_additional(&self) -> bool {
        true
    }

    fn next_tag(&mut self) -> Result<N::Tag, AllocError> {
        self.0.next_tag()
    }
}
