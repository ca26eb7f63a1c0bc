//! A relaxed notification.
ghost use Rattle.std.specs.Prelude.{◌≡◌};

use super::Notification;
use std::alloc::AllocError;
use std::marker::Model;

/// A notification that was made relaxed, which means what the notification in it means.
///
/// In the Rust crate a relaxed notification leaves out a memory fence; here it changes nothing.
#[derive(Clone, Debug, Drop)]
pub struct Relaxed<N>(N);

impl<N> Model for Relaxed<N> {
    ghost Value = { N };

    ghost view = { λ n. n.0 };
}

impl<N> Relaxed<N> {
    pub(super) fn new(inner: N) -> Self
        ensures { result ≡ inner }
    {
        Relaxed(inner)
    }
}

impl<N: Notification> Notification for Relaxed<N> {
    type Tag = N::Tag;

    ghost count = { λ n. N.count n };

    ghost is_additional = { λ n. N.is_additional n };

    ghost can_tag = { λ n. N.can_tag n };

    ghost tag_gives = { λ before answer after. N.tag_gives before answer after };

    fn count(&self) -> usize {
        self.0.count()
    }

    fn is_additional(&self) -> bool {
        self.0.is_additional()
    }

    fn next_tag(&mut self) -> Result<N::Tag, AllocError> {
        self.0.next_tag()
    }
}
