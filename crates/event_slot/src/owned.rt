//! A claim with the `Arc` that its slot lies in, for a guard without a lifetime.
ghost use Rattle.std.specs.Prelude.{◌≡◌, ◌≢◌, ℕ, ◌<◌, ◌==◌, ◌++◌, Option, None, Some, IsSome};
ghost use prog.Atomic.{either};
ghost use Rattle.std.specs.Coded.{coded_option};
ghost use Rattle.event_slot.specs.Ruling.{MayTurn, Becomes, Sees, Comes, MayTrade, StaysDue};
ghost use Rattle.event_slot.specs.Holding.{Named};
ghost use Rattle.event_slot.specs.Owning.{owned_owns, owned_shares};

use crate::claim::Claim;
use crate::leased::Leased;
use crate::rule::{Mark, Ruled, Trades};
use crate::slot::Slot;
use atomic_table::exchange;
use std::alloc::Allocator;
use std::marker::{Brand, Model, PhantomData};
use std::sync::Arc;

/// A value that a slot lies in, such as a lock.
pub trait Inside<X: Ruled<S>, S> {
    /// The name and the key of the slot.
    ghost finds: { Self → Named X.Key };

    /// Returns the slot in the value.
    fn slot(&self) -> &Slot<X, S>
        ensures { result.now ≡ finds self.now };
}

// The layout of the block that an `Arc` points to.
struct Shared<T, A> {
    count: u64,
    alloc: A,
    value: T,
}

/// An `Arc` with what a thread has of the slot in its value. An owned claim is to a [`Claim`] what an `Arc` is to a `&`: it has
/// no lifetime.
///
/// An owned claim can't be dropped: it ends by [`done`](Owned::done) once it has nothing of the slot.
pub struct Owned<T, X: Ruled<S>, S, A: Allocator> {
    /// Where the slot lies. Only code that is proved by hand makes an owned claim of its fields.
    pub slot: *const Slot<X, S>,
    /// The `Arc`, less its token.
    pub arc: Leased<T, A>,
    /// What the `Arc` shares.
    pub ghost of: { T },
    /// The name of the slot.
    pub ghost name: { ℕ },
    /// The key of the slot.
    pub ghost key: { X.Key } by { X.Key.code },
    /// The right to the value: 0 for none, 1 to read it and 2 to write it.
    pub ghost right: { ℕ },
    /// The value that the claim's reader sees, or its writer finds.
    pub ghost value: { Option X } by { coded_option X.code },
    /// The state, if it is out with this claim.
    pub ghost state: { Option S } by { coded_option S.code },
}

impl<T, X: Ruled<S>, S, A: Allocator> Model for Owned<T, X, S, A> {
    ghost also_owns = { λ h. owned_owns X.View.row.coded.code h.name X.row S.row X.counts (X.holds h.key) (T.row.lives ++ (X.row.lives ++ S.row.lives)) h.arc.life h.slot h.right h.value h.state (h.arc.of ≡ h.of) };

    ghost also_shares = { λ h _ κ. owned_shares X.row (T.row.lives ++ (X.row.lives ++ S.row.lives)) h.arc.life h.slot h.right h.value h.state κ };
}

// Makes a claim that has nothing of the slot in a value.
fn find<'a, T: Inside<X, S>, X: Ruled<S> + 'a, S: 'a>(value: &'a T) -> Claim<'a, X, S>
    ensures { (result.name ≡ (T.finds value.now).name) × (result.key ≡ (T.finds value.now).key)
        × (result.right ≡ 0) × (result.state ≡ None) }
{
    value.slot().claim()
}

impl<T, X: Ruled<S>, S, A: Allocator> Owned<T, X, S, A> {
    /// Makes a claim that has nothing of the slot, with which a step may begin.
    ///
    /// Allocates nothing: the `Arc` is kept in the claim, and returned by [`done`](Owned::done).
    // No clause of `Arc` says where its value lies, so its pointer is read: the proof compares `Shared` with what std defines.
    pub fn new(arc: Arc<T, A>) -> Owned<T, X, S, A>
    where
        T: Inside<X, S>,
        ensures { (result.of ≡ arc.value) × (result.name ≡ (T.finds arc.value).name)
            × (result.key ≡ (T.finds arc.value).key) × (result.right ≡ 0) × (result.state ≡ None) }
    {
        let shared = unsafe { *(&raw const arc as *const *const Shared<T, A>) };
        let claim = find(unsafe { &(*shared).value });
        let Claim { slot, marker: _ } = claim;
        Owned {
            slot,
            arc: Leased { arc },
        }
    }

    /// Changes the word from `old` to `new` by one compare-exchange, as [`Claim::exchange`] does, and returns the word as it was,
    /// and the claim afterwards. A claim with a right has a value.
    pub fn exchange<M: Trades<X::View, S>>(
        self,
        mark: &mut Mark<X::View>,
        old: u64,
        new: u64,
    ) -> (u64, Owned<T, X, S, A>)
        requires turn { MayTurn self.right (X.counts old) (X.counts new) }
        requires keeps { (mark.old.slot ≡ self.name)
            × MayTrade (X.holds self.key) mark.old.id mark.old.view self.state (λ n. either (n == old) new n)
            (M.then old new mark.old.view self.state) }
        requires owes { StaysDue X.owes X.announces old new mark.old.view
            (M.then old new mark.old.view self.state) }
        ensures becomes { (result.0 ≡ old → Becomes self.right (X.counts old) (X.counts new) result.1.right)
            × (result.0 ≢ old → result.1.right ≡ self.right) × (result.1.name ≡ self.name)
            × (result.1.key ≡ self.key) × (result.1.of ≡ self.of) }
        ensures sees { Sees self.right (X.counts result.0) }
        ensures value { self.right ≡ 1 → result.1.right ≡ 1 → result.1.value ≡ self.value }
        ensures has { 0 < result.1.right → IsSome result.1.value }
        ensures tells { (mark.new.slot ≡ mark.old.slot) × (mark.new.id ≡ mark.old.id)
            × M.then old new mark.old.view self.state result.0 mark.new.view result.1.state }
    {
        let Owned { slot, arc } = self;
        let found = unsafe { exchange::<Brand>(&raw const (*slot).word, old, new) };
        (found, Owned { slot, arc })
    }

    /// Changes the word as [`exchange`](Owned::exchange) does, by a compare-exchange that makes a mark, and returns that mark,
    /// too.
    pub fn arrive<M: Trades<X::View, S>>(
        self,
        old: u64,
        new: u64,
    ) -> (u64, Owned<T, X, S, A>, Mark<X::View>)
        requires turn { MayTurn self.right (X.counts old) (X.counts new) }
        requires keeps { Comes (X.holds self.key) self.state (λ n. either (n == old) new n)
            (M.then old new (X.first self.key) self.state) }
        requires owes { StaysDue X.owes X.announces old new (X.first self.key)
            (M.then old new (X.first self.key) self.state) }
        ensures becomes { (result.0 ≡ old → Becomes self.right (X.counts old) (X.counts new) result.1.right)
            × (result.0 ≢ old → result.1.right ≡ self.right) × (result.1.name ≡ self.name)
            × (result.1.key ≡ self.key) × (result.1.of ≡ self.of) }
        ensures sees { Sees self.right (X.counts result.0) }
        ensures value { self.right ≡ 1 → result.1.right ≡ 1 → result.1.value ≡ self.value }
        ensures has { 0 < result.1.right → IsSome result.1.value }
        ensures tells { (result.2.slot ≡ self.name)
            × M.then old new (X.first self.key) self.state result.0 result.2.view result.1.state }
    {
        let Owned { slot, arc } = self;
        let found = unsafe { exchange::<Brand>(&raw const (*slot).word, old, new) };
        let mark = Mark {
            marker: PhantomData,
        };
        (found, Owned { slot, arc }, mark)
    }

    /// Returns the `Arc`, and ends a claim that has nothing of the slot.
    pub fn done(self) -> Arc<T, A>
        requires { (self.right ≡ 0) × (self.state ≡ None) }
        ensures { result.value ≡ self.of }
    {
        let Owned { slot: _, arc } = self;
        let Leased { arc } = arc;
        arc
    }
}

unsafe impl<T: Send + Sync, X: Ruled<S> + Send + Sync, S: Send, A: Allocator + Send + Sync> Send
    for Owned<T, X, S, A> {}

unsafe impl<T, X: Ruled<S> + Sync, S, A: Allocator> Sync for Owned<T, X, S, A> {}
