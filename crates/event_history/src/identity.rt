//! Which mark a hand is made of, as a proof sees it.
ghost use Rattle.std.specs.Prelude.{◌≡◌, ℕ, length};
ghost use Rattle.std.specs.Borrow.{ftrue};

use event_slot::{Mark, Rest};
use std::marker::{Model, Send, Sync};

/// The mark of a hand, or of the hand that rests in a place, for proofs alone: the value has no bytes. An identity names no state
/// and no call, so that a hand goes to another thread with little proof.
#[derive(Drop)]
pub(crate) struct Identity {
    pub ghost slot: { ℕ },
    pub ghost id: { ℕ },
    pub ghost hands: { ℕ },
}

impl Model for Identity {
    ghost also_owns = { λ _. ftrue };
}

// An identity owns nothing.
unsafe impl Send for Identity {}

unsafe impl Sync for Identity {}

impl Identity {
    /// Returns the identity of the hand that has this mark. The call does nothing at run time.
    #[inline(always)]
    pub(crate) fn of_mark<V>(_mark: &Mark<V>) -> Self
        ensures { (result.slot ≡ _mark.now.slot) × (result.id ≡ _mark.now.id) }
    {
        Identity {}
    }

    /// Returns the identity of the hand that rests here, or of an empty place. The call does nothing at run time.
    #[inline(always)]
    pub(crate) fn of_rest<V>(_rest: &Rest<V>) -> Self
        ensures { (result.slot ≡ _rest.now.slot) × (result.id ≡ _rest.now.id)
            × (result.hands ≡ length _rest.now.views) }
    {
        Identity {}
    }
}
