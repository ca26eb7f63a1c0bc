//! The right to write an exclusive value of a lock that an `Arc` shares, so that the right has no lifetime.
ghost use Rattle.std.specs.Prelude.{◌≡◌, ◌++◌, [], ◌∷◌, ℕ, None, Some};
ghost use base.Fml.{flft};
ghost use denote.Sharing.{one, beside};
ghost use Rattle.event_slot.specs.Holding.{inner_shares};
ghost use Rattle.event_slot.specs.Owning.{owned_owns};
ghost use Rattle.event_slot.specs.contracts.exclusive.Exclusive.{the_row as exclusive_row};
ghost use Rattle.event_word.specs.Word.{Holds, counts_of};
ghost use Rattle.event_word.specs.contracts.word.rule.Place.{the_row as place_row};
ghost use Rattle.event_word.specs.contracts.word.rule.View.{the_row as view_row};

use super::kept::Kept;
use super::rule::Place;
use event_slot::{Exclusive, Inside, Leased, Owned, Slot};
use std::alloc::Global;
use std::marker::Model;

/// The right to write an exclusive value, with the `Arc` that keeps its lock. It lends the value where the value lies.
///
/// A `WriterArc` is to a [`Writer`](crate::Writer) what an [`Owned`] is to a [`Claim`](event_slot::Claim): it has no lifetime.
/// A `WriterArc` can't be dropped: it ends by [`into_owned`](WriterArc::into_owned).
pub struct WriterArc<L: Inside<Place<Exclusive<T>>, S>, T, S: Kept> {
    pub(crate) slot: *const Slot<Place<Exclusive<T>>, S>,
    pub(crate) arc: Leased<L, Global>,
    /// What the `Arc` shares.
    pub ghost of: { L },
    /// The name of the lock's slot.
    pub ghost name: { ℕ },
    /// The value as it is.
    pub ghost value: { T },
}

impl<L: Inside<Place<Exclusive<T>>, S>, T, S: Kept> Model for WriterArc<L, T, S> {
    ghost also_owns = { λ w. owned_owns view_row.coded.code w.name (place_row (exclusive_row T.row)) S.row (counts_of S.rules) (Holds S.rules) (L.row.lives ++ ((place_row (exclusive_row T.row)).lives ++ S.row.lives)) w.arc.life w.slot 2 (Some (record { value = w.value })) None ((w.arc.of ≡ w.of) × (w.name ≡ (L.finds w.of).name)) };

    ghost also_shares = { λ w _ κ. beside (one (λ q. flft (w.arc.life ∷ []) q)) (inner_shares (w.arc.life ∷ (L.row.lives ++ ((place_row (exclusive_row T.row)).lives ++ S.row.lives))) (place_row (exclusive_row T.row)) T.row w.slot w.value) κ };
}

impl<L: Inside<Place<Exclusive<T>>, S>, T, S: Kept> WriterArc<L, T, S> {
    /// Makes the writer of an owned claim that has the right to write and no state out. Does nothing at run time.
    #[inline(always)]
    pub fn new(owned: Owned<L, Place<Exclusive<T>>, S, Global>) -> Self
        requires right { (owned.right ≡ 2) × (owned.state ≡ None) }
        requires finds { owned.name ≡ (L.finds owned.of).name }
        ensures { (result.of ≡ owned.of) × (result.name ≡ owned.name) }
    {
        let Owned { slot, arc } = owned;
        WriterArc { slot, arc }
    }

    /// Returns the owned claim, which has the right to write and no state out.
    #[inline(always)]
    pub fn into_owned(self) -> Owned<L, Place<Exclusive<T>>, S, Global>
        ensures right { (result.right ≡ 2) × (result.state ≡ None) }
        ensures of { (result.of ≡ self.of) × (result.name ≡ self.name) }
        ensures finds { result.name ≡ (L.finds result.of).name }
    {
        let WriterArc { slot, arc } = self;
        Owned { slot, arc }
    }
}

unsafe impl<L: Inside<Place<Exclusive<T>>, S> + Send + Sync, T: Send, S: Kept + Send> Send
    for WriterArc<L, T, S> {}

unsafe impl<L: Inside<Place<Exclusive<T>>, S>, T: Sync, S: Kept> Sync for WriterArc<L, T, S> {}
