//! The right to write.
ghost use Rattle.std.specs.Prelude.{◌≡◌, ℕ, None, Some};
ghost use Rattle.event_slot.specs.Holding.{writing_owns, writing_shares};

use crate::claim::Claim;
use crate::rule::Ruled;
use crate::slot::Slot;
use std::marker::{Model, PhantomData};

/// The right to write the value of a slot, which no other thread reads or writes meanwhile. The right can't be dropped.
pub struct Writing<'a, X: Ruled<S>, S> {
    /// Where the slot lies. Only code that is proved by hand makes a right to write of its fields.
    pub slot: *const Slot<X, S>,
    /// For how long the slot is borrowed.
    pub marker: PhantomData<&'a X>,
    /// The name of the slot.
    pub ghost name: { ℕ },
    /// The key of the slot.
    pub ghost key: { X.Key } by { X.Key.code },
    /// The value as it is.
    pub ghost value: { X },
}

impl<'a, X: Ruled<S>, S> Model for Writing<'a, X, S> {
    ghost also_owns = { λ w. writing_owns X.View.row.coded.code w.name X.row S.row X.counts (X.holds w.key) 'a w.slot w.value };

    ghost also_shares = { λ w _ κ. writing_shares 'a X.row w.slot w.value κ };
}

impl<'a, X: Ruled<S>, S> Writing<'a, X, S> {
    /// Returns the claim with this right, by which the right ends.
    pub fn claim(self) -> Claim<'a, X, S>
        ensures { (result.name ≡ self.entry.name) × (result.key ≡ self.entry.key) × (result.right ≡ 2)
            × (result.value ≡ Some self.entry.value) × (result.state ≡ None) }
    {
        let Writing { slot, marker } = self;
        Claim { slot, marker }
    }
}

unsafe impl<X: Ruled<S> + Send + Sync, S: Send> Send for Writing<'_, X, S> {}

unsafe impl<X: Ruled<S> + Sync, S> Sync for Writing<'_, X, S> {}
