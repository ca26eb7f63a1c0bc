//! A notification with a function that makes its tags.
ghost use Rattle.std.specs.Prelude.{◌≡◌, IsOkAnd};

use super::Notification;
use std::alloc::AllocError;
use std::fmt::{self, Debug, Formatter, Write};
use std::marker::Model;

/// A notification of which each notified listener gets a tag that a function makes.
///
/// The function is called once for each notified listener, in order, and no tag is refused. A tag may be asked for if the
/// function may always be called. Takes memory only if the function does.
#[derive(Drop)]
pub struct TagWith<N, F> {
    tag: F,
    inner: N,
}

impl<N, F> Model for TagWith<N, F> {
    ghost Value = { F × N };

    ghost view = { λ n. (n.tag, n.inner) };
}

impl<N, F> TagWith<N, F> {
    pub(super) fn new(tag: F, inner: N) -> Self
        ensures { result ≡ (tag, inner) }
    {
        TagWith { tag, inner }
    }
}

// What `Debug` prints in place of the function, which has no text of its own.
struct Ellipsis;

impl Debug for Ellipsis {
    fn fmt<W: Write>(&self, f: &mut Formatter<W>) -> fmt::Result {
        f.write_str("..")
    }
}

impl<N: Debug, F> Debug for TagWith<N, F> {
    fn fmt<W: Write>(&self, f: &mut Formatter<W>) -> fmt::Result {
        f.debug_struct("TagWith")
            .field("tag", &Ellipsis)
            .field("inner", &self.inner)
            .finish()
    }
}

impl<N: Notification, T, F: FnMut() -> T> Notification for TagWith<N, F> {
    type Tag = T;

    ghost count = { λ n. N.count n.1 };

    ghost is_additional = { λ n. N.is_additional n.1 };

    ghost can_tag = { λ n. F.IsAlwaysCallable n.0 };

    ghost tag_gives = { λ before answer after.
        IsOkAnd answer (λ tag. F.step before.0 tag after.0) × (after.1 ≡ before.1) };

    fn count(&self) -> usize {
        self.inner.count()
    }

    fn is_additional(&self) -> bool {
        self.inner.is_additional()
    }

    fn next_tag(&mut self) -> Result<T, AllocError> {
        Ok((self.tag)())
    }
}
