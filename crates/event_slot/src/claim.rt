//! What a thread has of a slot, and how that changes.
ghost use Rattle.std.specs.Prelude.{◌≡◌, ◌≢◌, ℕ, ◌==◌, Option, None, Some};
ghost use prog.Atomic.{either};
ghost use Rattle.std.specs.Coded.{coded_option};
ghost use Rattle.event_slot.specs.Ruling.{MayTurn, Becomes, Sees, Keeps, Comes, Enters, MayTrade, OwesStill, StaysDue};
ghost use Rattle.event_slot.specs.Holding.{claim_owns, claim_shares};

use crate::rule::{Mark, Ruled, Tells, Trades};
use crate::slot::Slot;
use crate::writing::Writing;
use atomic_table::exchange;
use std::marker::{Brand, Model, PhantomData};
use std::sync::atomic::Ordering::SeqCst;
use std::sync::atomic::raw;

/// What a thread has of a slot: a right to the value, which is 0 for none, 1 to read it and 2 to write it; and the state, if it
/// is out with this claim.
///
/// A claim can't be dropped: a claim ends by [`done`](Claim::done) once it has nothing of the slot.
pub struct Claim<'a, X: Ruled<S>, S> {
    pub(crate) slot: *const Slot<X, S>,
    pub(crate) marker: PhantomData<&'a X>,
    /// The name of the slot.
    pub ghost name: { ℕ },
    /// The key of the slot.
    pub ghost key: { X.Key } by { X.Key.code },
    /// The right to the value: 0, 1 or 2.
    pub ghost right: { ℕ },
    /// The value that the claim's reader sees, or its writer finds.
    pub ghost value: { Option X } by { coded_option X.code },
    /// The state, if it is out with this claim.
    pub ghost state: { Option S } by { coded_option S.code },
}

impl<'a, X: Ruled<S>, S> Model for Claim<'a, X, S> {
    ghost also_owns = { λ h. claim_owns X.View.row.coded.code h.name X.row S.row X.counts (X.holds h.key) 'a h.slot h.right h.value h.state };

    ghost also_shares = { λ h _ κ. claim_shares 'a X.row h.slot h.right h.value κ };
}

impl<'a, X: Ruled<S>, S> Claim<'a, X, S> {
    /// Borrows the value, for a reader.
    pub fn get(&self) -> &X
        requires { self.now.right ≡ 1 }
        ensures { Some result.now ≡ self.now.value }
    {
        unsafe { &(*self.slot).value }
    }

    /// Ends a claim that has nothing of the slot. Does nothing at run time.
    pub fn done(self)
        requires { (self.right ≡ 0) × (self.state ≡ None) }
    {
        let Claim { slot: _, marker: _ } = self;
    }

    /// Returns the word, by one load, and the claim, which has what it had. Tells the mark as `M` says.
    ///
    /// The word shows what the claim's right says of it. A mark that owes a wake still owes it.
    pub fn load<M: Tells<X::View>>(self, mark: &mut Mark<X::View>) -> (u64, Claim<'a, X, S>)
        requires keeps { (mark.old.slot ≡ self.name)
            × Keeps (X.holds self.key) mark.old.id mark.old.view (M.then mark.old.view) }
        requires owes { OwesStill X.owes mark.old.view (M.then mark.old.view) }
        ensures stays { (result.1.right ≡ self.entry.right) × (result.1.value ≡ self.entry.value)
            × (result.1.state ≡ self.entry.state) × (result.1.name ≡ self.entry.name)
            × (result.1.key ≡ self.entry.key) }
        ensures sees { Sees self.entry.right (X.counts result.0) }
        ensures tells { (mark.new.slot ≡ mark.old.slot) × (mark.new.id ≡ mark.old.id)
            × M.then mark.old.view result.0 mark.new.view }
    {
        let Claim { slot, marker } = self;
        let found = unsafe { raw::load::<Brand>(&raw const (*slot).word, SeqCst) };
        (found, Claim { slot, marker })
    }

    /// Returns the word, by one load that makes a mark, with the claim, which has what it had, and that mark, which is told as
    /// `M` says. The word shows what the claim's right says of it.
    pub fn enter<M: Tells<X::View>>(self) -> (u64, Claim<'a, X, S>, Mark<X::View>)
        requires keeps { Enters (X.holds self.key) (M.then (X.first self.key)) }
        requires owes { OwesStill X.owes (X.first self.key) (M.then (X.first self.key)) }
        ensures stays { (result.1.right ≡ self.entry.right) × (result.1.value ≡ self.entry.value)
            × (result.1.state ≡ self.entry.state) × (result.1.name ≡ self.entry.name)
            × (result.1.key ≡ self.entry.key) }
        ensures sees { Sees self.entry.right (X.counts result.0) }
        ensures tells { (result.2.slot ≡ self.entry.name)
            × M.then (X.first self.entry.key) result.0 result.2.view }
    {
        let Claim { slot, marker } = self;
        let found = unsafe { raw::load::<Brand>(&raw const (*slot).word, SeqCst) };
        let mark = Mark {
            marker: PhantomData,
        };
        (found, Claim { slot, marker }, mark)
    }

    /// Changes the word from `old` to `new` by one compare-exchange, and returns the word as it was, and the claim afterwards.
    ///
    /// `MayTurn` lists the changes that a claim with this right may make, and `Becomes` says which right that leads to. If the
    /// word was `old`, the state may be taken out, or put back if it is out. The rule has to hold afterwards, whether or not the
    /// word was `old`. A wake that the mark owed, or that `old` announced, is owed by the mark or announced by `new` then.
    pub fn exchange<M: Trades<X::View, S>>(
        self,
        mark: &mut Mark<X::View>,
        old: u64,
        new: u64,
    ) -> (u64, Claim<'a, X, S>)
        requires turn { MayTurn self.right (X.counts old) (X.counts new) }
        requires keeps { (mark.old.slot ≡ self.name)
            × MayTrade (X.holds self.key) mark.old.id mark.old.view self.state (λ n. either (n == old) new n)
            (M.then old new mark.old.view self.state) }
        requires owes { StaysDue X.owes X.announces old new mark.old.view
            (M.then old new mark.old.view self.state) }
        ensures becomes { (result.0 ≡ old → Becomes self.entry.right (X.counts old) (X.counts new) result.1.right)
            × (result.0 ≢ old → result.1.right ≡ self.entry.right) × (result.1.name ≡ self.entry.name)
            × (result.1.key ≡ self.entry.key) }
        ensures sees { Sees self.entry.right (X.counts result.0) }
        ensures value { self.entry.right ≡ 1 → result.1.right ≡ 1
            → result.1.value ≡ self.entry.value }
        ensures tells { (mark.new.slot ≡ mark.old.slot) × (mark.new.id ≡ mark.old.id)
            × M.then old new mark.old.view self.entry.state result.0 mark.new.view result.1.state }
    {
        let Claim { slot, marker } = self;
        let found = unsafe { exchange::<Brand>(&raw const (*slot).word, old, new) };
        (found, Claim { slot, marker })
    }

    /// Changes the word as [`exchange`](Claim::exchange) does, by a compare-exchange that makes a mark, and returns that mark,
    /// too.
    pub fn arrive<M: Trades<X::View, S>>(
        self,
        old: u64,
        new: u64,
    ) -> (u64, Claim<'a, X, S>, Mark<X::View>)
        requires turn { MayTurn self.right (X.counts old) (X.counts new) }
        requires keeps { Comes (X.holds self.key) self.state (λ n. either (n == old) new n)
            (M.then old new (X.first self.key) self.state) }
        requires owes { StaysDue X.owes X.announces old new (X.first self.key)
            (M.then old new (X.first self.key) self.state) }
        ensures becomes { (result.0 ≡ old → Becomes self.entry.right (X.counts old) (X.counts new) result.1.right)
            × (result.0 ≢ old → result.1.right ≡ self.entry.right) × (result.1.name ≡ self.entry.name)
            × (result.1.key ≡ self.entry.key) }
        ensures sees { Sees self.entry.right (X.counts result.0) }
        ensures value { self.entry.right ≡ 1 → result.1.right ≡ 1
            → result.1.value ≡ self.entry.value }
        ensures tells { (result.2.slot ≡ self.entry.name)
            × M.then old new (X.first self.entry.key) self.entry.state result.0 result.2.view result.1.state }
    {
        let Claim { slot, marker } = self;
        let found = unsafe { exchange::<Brand>(&raw const (*slot).word, old, new) };
        let mark = Mark {
            marker: PhantomData,
        };
        (found, Claim { slot, marker }, mark)
    }

    /// Returns the right to write, of a claim that has that right and no state out.
    pub fn write(self) -> Writing<'a, X, S>
        requires { (self.right ≡ 2) × (self.state ≡ None) }
        ensures { (result.name ≡ self.entry.name) × (result.key ≡ self.entry.key)
            × (Some result.value ≡ self.entry.value) }
    {
        let Claim { slot, marker } = self;
        Writing { slot, marker }
    }
}

unsafe impl<X: Ruled<S> + Send + Sync, S: Send> Send for Claim<'_, X, S> {}

unsafe impl<X: Ruled<S> + Sync, S> Sync for Claim<'_, X, S> {}
