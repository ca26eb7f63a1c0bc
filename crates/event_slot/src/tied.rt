//! A writer with what a guard has beside it.
ghost use Rattle.std.specs.Prelude.{◌≡◌, ℕ};
ghost use Rattle.event_slot.specs.Holding.{tied_owns, writing_shares};

use crate::rule::Ruled;
use crate::slot::Slot;
use crate::writing::Writing;
use std::marker::{Model, PhantomData};

/// What a guard has beside its right to write, such as its mark and the way by which it is given back.
pub trait Ties {
    /// The fact that it belongs to the slot of that name.
    ghost ties: { Self → ℕ → Type 0 };
}

/// A right to write with what belongs to it, which can't be dropped.
///
/// A guard that has a tied right lends `&mut X` without a new proof, since the fact that ties the two is kept in here: a ghost
/// field of the guard's own would stand in the way.
pub struct Tied<'a, X: Ruled<S>, S, L: Ties> {
    pub(crate) slot: *const Slot<X, S>,
    pub(crate) marker: PhantomData<&'a X>,
    pub(crate) beside: L,
    /// The name of the slot.
    pub ghost name: { ℕ },
    /// The key of the slot.
    pub ghost key: { X.Key } by { X.Key.code },
    /// The value as it is.
    pub ghost value: { X },
}

impl<'a, X: Ruled<S>, S, L: Ties> Model for Tied<'a, X, S, L> {
    ghost also_owns = { λ t. tied_owns X.View.row.coded.code t.name X.row S.row X.counts (X.holds t.key) 'a t.slot t.value (L.ties t.beside t.name) };

    ghost also_shares = { λ t _ κ. writing_shares 'a X.row t.slot t.value κ };
}

impl<'a, X: Ruled<S>, S> Writing<'a, X, S> {
    /// Ties the right to write to what belongs to it. Does nothing at run time.
    pub fn tie<L: Ties>(self, beside: L) -> Tied<'a, X, S, L>
        requires { L.ties beside self.name }
        ensures { (result.name ≡ self.entry.name) × (result.key ≡ self.entry.key) × (result.value ≡ self.entry.value) }
    {
        let Writing { slot, marker } = self;
        Tied {
            slot,
            marker,
            beside,
        }
    }
}

impl<'a, X: Ruled<S>, S, L: Ties> Tied<'a, X, S, L> {
    /// Returns the right to write, and what was tied to it.
    pub fn untie(self) -> (Writing<'a, X, S>, L)
        ensures { (result.0.name ≡ self.entry.name) × (result.0.key ≡ self.entry.key)
            × (result.0.value ≡ self.entry.value)
            × L.ties result.1 result.0.name }
    {
        let Tied {
            slot,
            marker,
            beside,
        } = self;
        (Writing { slot, marker }, beside)
    }

    /// Borrows what is beside the right to write.
    #[inline(always)]
    pub fn beside(&self) -> &L
        ensures { result.now ≡ self.now.beside }
    {
        &self.beside
    }
}

unsafe impl<X: Ruled<S> + Send + Sync, S: Send, L: Ties + Send> Send for Tied<'_, X, S, L> {}

unsafe impl<X: Ruled<S> + Sync, S, L: Ties + Sync> Sync for Tied<'_, X, S, L> {}
