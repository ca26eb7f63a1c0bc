//! Which lock a step, a permit or a right is of, as a proof sees it.
ghost use Rattle.std.specs.Prelude.{◌≡◌, ℕ};
ghost use Rattle.std.specs.Borrow.{ftrue};

use event_slot::Mark;
use std::marker::{Model, Send, Sync};

/// The lock of a step, a permit or a right, for proofs alone: the value has no bytes. An origin names no state and no value, so
/// that what has an origin goes to another thread with little proof.
#[derive(Drop)]
pub(crate) struct Origin {
    pub ghost name: { ℕ },
}

impl Model for Origin {
    ghost also_owns = { λ _. ftrue };
}

// An origin owns nothing.
unsafe impl Send for Origin {}

unsafe impl Sync for Origin {}

impl Origin {
    /// Returns the origin of the lock of this seat. The call does nothing at run time.
    #[inline(always)]
    pub(crate) fn of<W>(_seat: &Mark<W>) -> Self
        ensures { result.name ≡ _seat.now.slot }
    {
        Origin {}
    }
}
