//! A notification of a number of listeners.
ghost use Rattle.std.specs.Prelude.{◌≡◌, ℕ, false, Ok};

use super::Notification;
use std::alloc::AllocError;
use std::marker::Model;

/// A default notification without tags of a number of listeners, among which those count that are notified already.
#[derive(Clone, Debug, Drop)]
pub struct Notify(usize);

impl Model for Notify {
    ghost Value = { ℕ };

    ghost view = { λ n. n.0 };
}

impl Notify {
    pub(super) fn new(count: usize) -> Self
        ensures { result ≡ count }
    {
        Notify(count)
    }
}

impl Notification for Notify {
    type Tag = ();

    ghost count = { λ n. n };

    ghost is_additional = { λ _. false };

    ghost can_tag = { λ _. Unit {0} };

    ghost tag_gives = { λ before answer after. (answer ≡ Ok tt) × (after ≡ before) };

    fn count(&self) -> usize {
        self.0
    }

    fn is_additional(&self) -> bool {
        false
    }

    fn next_tag(&mut self) -> Result<(), AllocError> {
        Ok(())
    }
}
