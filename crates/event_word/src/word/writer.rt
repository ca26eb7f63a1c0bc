//! The right to write an exclusive value, with what a guard has beside it.
ghost use Rattle.std.specs.Prelude.{◌≡◌, ℕ};
ghost use Rattle.event_slot.specs.Holding.{inner_shares, tied_owns};
ghost use Rattle.event_slot.specs.contracts.exclusive.Exclusive.{the_row as exclusive_row};
ghost use Rattle.event_word.specs.Word.{Holds, counts_of};
ghost use Rattle.event_word.specs.contracts.word.rule.Place.{the_row as place_row};
ghost use Rattle.event_word.specs.contracts.word.rule.View.{the_row as view_row};

use super::kept::Kept;
use super::rule::Place;
use super::value::Lent;
use event_slot::{Exclusive, Slot, Ties, Writing};
use std::marker::{Model, PhantomData};

/// The right to write an exclusive value, with what belongs to that right. A writer lends the value where it lies.
///
/// The lock itself shows nothing of the value to those who share it, so threads may share a lock whose value they may not share. A
/// writer can't be dropped.
pub struct Writer<'a, T, S: Kept, L: Ties> {
    pub(crate) slot: *const Slot<Place<Exclusive<T>>, S>,
    pub(crate) marker: PhantomData<&'a Place<Exclusive<T>>>,
    pub(crate) beside: L,
    /// The name of the lock.
    pub ghost name: { ℕ },
    /// The value as it is.
    pub ghost value: { T },
}

impl<'a, T, S: Kept, L: Ties> Model for Writer<'a, T, S, L> {
    ghost also_owns = { λ w. tied_owns view_row.coded.code w.name (place_row (exclusive_row T.row)) S.row (counts_of S.rules) (Holds S.rules) 'a w.slot (record { value = w.value }) (L.ties w.beside w.name) };

    ghost also_shares = { λ w _ κ. inner_shares 'a (place_row (exclusive_row T.row)) T.row w.slot w.value κ };
}

impl<'a, T, S: Kept, L: Ties> Writer<'a, T, S, L> {
    /// Makes the writer of this right to write, with what belongs to it. Does nothing at run time.
    #[inline(always)]
    pub fn new(writing: Lent<'a, S, Exclusive<T>>, beside: L) -> Self
        requires { L.ties beside writing.name }
        ensures { (result.name ≡ writing.entry.name) × (result.value ≡ writing.entry.value.value) }
    {
        let Writing { slot, marker } = writing;
        Writer {
            slot,
            marker,
            beside,
        }
    }

    /// Returns the right to write, and what belongs to it.
    #[inline(always)]
    pub fn apart(self) -> (Lent<'a, S, Exclusive<T>>, L)
        ensures { (result.0.name ≡ self.entry.name) × (result.0.value.value ≡ self.entry.value) × L.ties result.1 result.0.name }
    {
        let Writer {
            slot,
            marker,
            beside,
        } = self;
        (Writing { slot, marker }, beside)
    }
}

unsafe impl<T: Send, S: Kept + Send, L: Ties + Send> Send for Writer<'_, T, S, L> {}

unsafe impl<T: Sync, S: Kept, L: Ties + Sync> Sync for Writer<'_, T, S, L> {}
