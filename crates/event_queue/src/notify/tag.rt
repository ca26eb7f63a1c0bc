//! A notification with a tag.
ghost use Rattle.std.specs.Prelude.{◌≡◌, MatchResult};

use super::Notification;
use std::alloc::AllocError;
use std::marker::Model;

/// A notification of which each notified listener gets a clone of one tag. A clone that fails is a refused tag.
///
/// Takes memory only if the clone does.
#[derive(Clone, Debug, Drop)]
pub struct Tag<N, T> {
    tag: T,
    inner: N,
}

impl<N, T> Model for Tag<N, T> {
    ghost Value = { T × N };

    ghost view = { λ n. (n.tag, n.inner) };
}

impl<N, T> Tag<N, T> {
    pub(super) fn new(tag: T, inner: N) -> Self
        ensures { result ≡ (tag, inner) }
    {
        Tag { tag, inner }
    }
}

impl<N: Notification, T: Clone> Notification for Tag<N, T> {
    type Tag = T;

    ghost count = { λ n. N.count n.1 };

    ghost is_additional = { λ n. N.is_additional n.1 };

    ghost can_tag = { λ _. Unit {0} };

    ghost tag_gives = { λ before answer after.
        MatchResult answer (T.is_clone before.0) (λ _. ¬ T.is_infallible before.0) × (after ≡ before) };

    fn count(&self) -> usize {
        self.inner.count()
    }

    fn is_additional(&self) -> bool {
        self.inner.is_additional()
    }

    fn next_tag(&mut self) -> Result<T, AllocError> {
        self.tag.clone()
    }
}
