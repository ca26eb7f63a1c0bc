//! The slot, and the calls of its owner and of any thread with a `&` to it.
ghost use Rattle.std.specs.Prelude.{◌≡◌, ◌⊎◌, ℕ, [], ◌∷◌, true, None, Some};
ghost use Rattle.event_slot.specs.Ruling.{Keeps, Enters, MaySplit, MayJoin, OwesStill};
ghost use Rattle.event_slot.specs.Holding.{Named, named_coded, slot_owns, slot_shares};

use crate::claim::Claim;
use crate::rule::{Joins, Mark, Ruled, Splits, Tells};
use std::marker::{Brand, Move, Owns, PhantomData};
use std::sync::atomic::Ordering::SeqCst;
use std::sync::atomic::raw;

/// A value in place beside one atomic word, and a state behind both. A clause sees the slot's name, a number, and its key.
pub struct Slot<X: Ruled<S>, S> {
    pub(crate) word: u64,
    /// The value. Only code that is proved by hand reaches it behind a `&`.
    pub value: X,
    pub(crate) state: S,
}

impl<X: Ruled<S>, S> Owns for Slot<X, S> {
    ghost Value = { Named X.Key };

    ghost coded = { named_coded X.Key.code };

    ghost shr_at = { λ d p κ. slot_shares X.View.row.coded.code d.name X.row S.row X.counts (X.holds d.key) p κ };
}

impl<X: Ruled<S>, S> Move for Slot<X, S> {
    ghost own_val = { λ d vs. slot_owns X.View.row.coded.code d.name (X.holds d.key) (λ n x s. Fields.own_val (record { word = n; value = x; state = s }) vs) };
}

impl<X: Ruled<S>, S> Slot<X, S> {
    /// Makes a slot with this value, this state, this word and this key, and its first mark.
    ///
    /// Requires that the rule holds at the start. The call allocates nothing.
    pub fn new(value: X, state: S, word: u64, key: &X::Key) -> (Slot<X, S>, Mark<X::View>)
        requires { X.holds key.now word (Some state) (X.first key.now ∷ []) }
        ensures { (result.0.key ≡ key.now) × (result.1.slot ≡ result.0.name) × (result.1.id ≡ 0)
            × (result.1.view ≡ X.first key.now) }
    {
        (
            Slot { word, value, state },
            Mark {
                marker: PhantomData,
            },
        )
    }

    /// Makes a claim that has nothing of the slot, with which a step may begin.
    pub fn claim(&self) -> Claim<'_, X, S>
        ensures { (result.name ≡ self.now.name) × (result.key ≡ self.now.key) × (result.right ≡ 0)
            × (result.state ≡ None) }
    {
        Claim {
            slot: self,
            marker: PhantomData,
        }
    }

    // Returns the word, by one load, and tells the mark as `M` says. The call asks nothing of what is owed.
    #[inline(always)]
    pub(crate) fn see<M: Tells<X::View>>(&self, mark: &mut Mark<X::View>) -> u64
        requires { (mark.old.slot ≡ self.now.name)
            × Keeps (X.holds self.now.key) mark.old.id mark.old.view (M.then mark.old.view) }
        ensures { (mark.new.slot ≡ mark.old.slot) × (mark.new.id ≡ mark.old.id)
            × M.then mark.old.view result mark.new.view }
    {
        unsafe { raw::load::<Brand>(&raw const self.word, SeqCst) }
    }

    /// Returns the word, by one load, and tells the mark as `M` says. A mark that owes a wake still owes it.
    #[inline(always)]
    pub fn load<M: Tells<X::View>>(&self, mark: &mut Mark<X::View>) -> u64
        requires keeps { (mark.old.slot ≡ self.now.name)
            × Keeps (X.holds self.now.key) mark.old.id mark.old.view (M.then mark.old.view) }
        requires owes { OwesStill X.owes mark.old.view (M.then mark.old.view) }
        ensures { (mark.new.slot ≡ mark.old.slot) × (mark.new.id ≡ mark.old.id)
            × M.then mark.old.view result mark.new.view }
    {
        self.see::<M>(mark)
    }

    /// Returns the word, by one load, and a new mark, which is told as `M` says.
    pub fn enter<M: Tells<X::View>>(&self) -> (u64, Mark<X::View>)
        requires keeps { Enters (X.holds self.now.key) (M.then (X.first self.now.key)) }
        requires owes { OwesStill X.owes (X.first self.now.key) (M.then (X.first self.now.key)) }
        ensures { (result.1.slot ≡ self.now.name)
            × M.then (X.first self.now.key) result.0 result.1.view }
    {
        let found = unsafe { raw::load::<Brand>(&raw const self.word, SeqCst) };
        let mark = Mark {
            marker: PhantomData,
        };
        (found, mark)
    }

    /// Cuts the view of a mark in two, by one load, and returns a new mark, which knows the second part. A mark that owes a wake
    /// still owes it.
    pub fn split<M: Splits<X::View>>(&self, mark: &mut Mark<X::View>) -> Mark<X::View>
        requires keeps { (mark.old.slot ≡ self.now.name)
            × MaySplit (X.holds self.now.key) mark.old.id mark.old.view (M.left mark.old.view) (M.right mark.old.view) }
        requires owes { X.owes mark.old.view ≡ true → X.owes (M.left mark.old.view) ≡ true }
        ensures { (mark.new.slot ≡ mark.old.slot) × (mark.new.id ≡ mark.old.id)
            × (mark.new.view ≡ M.left mark.old.view) × (result.slot ≡ mark.old.slot)
            × (result.view ≡ M.right mark.old.view) }
    {
        unsafe { raw::load::<Brand>(&raw const self.word, SeqCst) };
        Mark {
            marker: PhantomData,
        }
    }

    fn merge<M: Joins<X::View>>(&self, mark: &mut Mark<X::View>, other: &mut Mark<X::View>)
        requires { (mark.old.slot ≡ self.now.name) × (other.old.slot ≡ self.now.name)
            × MayJoin (X.holds self.now.key) mark.old.id mark.old.view other.old.id other.old.view
            (M.both mark.old.view other.old.view) M.spent }
        ensures { (mark.new.slot ≡ mark.old.slot) × (mark.new.id ≡ mark.old.id)
            × (mark.new.view ≡ M.both mark.old.view other.old.view) }
    {
        unsafe { raw::load::<Brand>(&raw const self.word, SeqCst) };
    }

    /// Makes the views of two marks one, by one load, and ends the other mark.
    ///
    /// The other mark's view stays among the views as `M.spent`. A wake that either mark owed, `mark` owes.
    pub fn join<M: Joins<X::View>>(&self, mark: &mut Mark<X::View>, mut other: Mark<X::View>)
        requires keeps { (mark.old.slot ≡ self.now.name) × (other.slot ≡ self.now.name)
            × MayJoin (X.holds self.now.key) mark.old.id mark.old.view other.id other.view
            (M.both mark.old.view other.view) M.spent }
        requires owes { (X.owes mark.old.view ≡ true) ⊎ (X.owes other.view ≡ true)
            → X.owes (M.both mark.old.view other.view) ≡ true }
        ensures { (mark.new.slot ≡ mark.old.slot) × (mark.new.id ≡ mark.old.id)
            × (mark.new.view ≡ M.both mark.old.view other.view) }
    {
        self.merge::<M>(mark, &mut other);
    }

    /// Returns the word, by one load that needs no mark and tells nothing.
    pub fn peek(&self) -> u64 {
        unsafe { raw::load::<Brand>(&raw const self.word, SeqCst) }
    }

    /// Returns the value and the state. No thread shares the slot any more.
    pub fn into_inner(self) -> (X, S) {
        let Self {
            word: _,
            value,
            state,
        } = self;
        (value, state)
    }
}

impl<X: Ruled<S> + Drop, S: Drop> Drop for Slot<X, S> {
    fn drop(self) {
        drop(self.into_inner());
    }
}

unsafe impl<X: Ruled<S> + Send, S: Send> Send for Slot<X, S> {}

unsafe impl<X: Ruled<S> + Send + Sync, S: Send> Sync for Slot<X, S> {}
