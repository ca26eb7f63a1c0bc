//! A state under a lock of one word.
ghost use Rattle.std.specs.Prelude.{◌≡◌, ◌∷◌, [], false, true, None, Some, IfSome};
ghost use Rattle.event_history.specs.Hands.{IsClaimOf, IsOf, SameTable, known_by};
ghost use Rattle.event_history.specs.History.{AreAmong, Looks, both_views, machine_from, machine_of, newcomer};
ghost use Rattle.event_history.specs.Rule.{Holds, PutsBack, Returns, owing};

use crate::hand::Hand;
use crate::history::{Made, Steps, View};
use crate::rule::{
    Absorb, Arrive, Await, Begins, Enter, Look, PutAwaited, PutBack, Rule, Take, TakeAwaited, Tell,
    Wake,
};
use event_slot::{Claim, Mark, Slot};
use event_wait::{PAUSES, pause};
use std::marker::Brand;
use std::sync::Wait;

// The word while the state is at home, while a thread has the state, and while a thread has it and others may sleep.
const FREE: u64 = 0;

const TAKEN: u64 = 1;

const AWAITED: u64 = 2;

/// A state that threads share, under a lock of one word, with one history of all calls on it. The state lies in place, so no
/// memory is allocated for it.
///
/// A contract knows a traced state by the `name` of its slot, and by the `key` of the slot what was given of the start.
pub struct Traced<S: Steps> {
    #[doc(hidden)]
    pub slot: Slot<Rule, S>,
}

impl<S: Steps> Traced<S> {
    /// Makes a traced state, on which no call was made, and its first hand.
    ///
    /// Requires that the state starts as `start` says. No program sees `start` again: it is for contracts. The call does not
    /// allocate.
    pub fn new(state: S, start: &S::Start) -> (Self, Hand<S, S::Call>)
        requires starts { S.starts start.now state }
        ensures start { result.0.slot.key ≡ start.now }
        ensures hand { IsOf result.0.slot.name result.1 × (known_by result.1 ≡ newcomer []) }
    {
        let (slot, mark) = Slot::new(Rule, state, FREE, start);
        (Traced { slot }, Hand::of(mark))
    }

    /// Makes a hand that made no call yet, and has seen the history so far. The call costs one load.
    #[inline(always)]
    pub fn hand(&self) -> Hand<S, S::Call>
        ensures { IsOf self.now.slot.name result
            × (known_by result ≡ newcomer (known_by result).seen) }
    {
        Hand::of(self.slot.enter::<Enter>().1)
    }

    /// Takes the state out, and returns the claim on it, or `None` if another hand has the state.
    ///
    /// The call can't say that others may sleep, so it requires that the hand owes nobody a wake.
    #[doc(hidden)]
    #[inline(always)]
    pub fn try_take(&self, mark: &mut Mark<View<S, S::Call>>) -> Option<Claim<'_, Rule, S>>
        requires mark { (mark.old.slot ≡ self.now.slot.name) × (mark.old.view.spent ≡ false)
            × (mark.old.view.owes ≡ false) }
        ensures mark { (mark.new.slot ≡ mark.old.slot) × (mark.new.id ≡ mark.old.id) }
        ensures takes { IfSome result (λ claim. IsClaimOf self.now.slot.name self.now.slot.key claim
            × Holds mark.old.view mark.new.view claim.state) }
        ensures kept { result ≡ None → mark.new.view ≡ mark.old.view }
    {
        let (found, claim) = self.slot.claim().exchange::<Take>(mark, FREE, TAKEN);
        if found == FREE {
            Some(claim)
        } else {
            claim.done();
            None
        }
    }

    /// Makes the mark of a new hand, and takes the state out if no other hand has it. The call costs one compare-exchange.
    #[doc(hidden)]
    #[inline(always)]
    pub fn arrive(&self) -> (Option<Claim<'_, Rule, S>>, Mark<View<S, S::Call>>)
        ensures mark { (result.1.slot ≡ self.now.slot.name) }
        ensures takes { IfSome result.0 (λ claim. IsClaimOf self.now.slot.name self.now.slot.key claim
            × Holds (newcomer result.1.view.seen) result.1.view claim.state) }
        ensures kept { result.0 ≡ None → result.1.view ≡ newcomer result.1.view.seen }
    {
        let (found, claim, mark) = self.slot.claim().arrive::<Arrive>(FREE, TAKEN);
        if found == FREE {
            (Some(claim), mark)
        } else {
            claim.done();
            (None, mark)
        }
    }

    // Takes the state out, if no other hand has it, and has the word say that others may sleep, whom the hand may owe a wake.
    #[tactic(auto, using(crate::proofs::Keeps::locks))]
    fn take_awaited(&self, mark: &mut Mark<View<S, S::Call>>) -> Option<Claim<'_, Rule, S>>
        requires { (mark.old.slot ≡ self.now.slot.name) × (mark.old.view.spent ≡ false) }
        ensures mark { (mark.new.slot ≡ mark.old.slot) × (mark.new.id ≡ mark.old.id) }
        ensures takes { IfSome result (λ claim. IsClaimOf self.now.slot.name self.now.slot.key claim
            × Holds (owing false mark.old.view) mark.new.view claim.state) }
        ensures kept { result ≡ None → mark.new.view ≡ mark.old.view }
    {
        let (found, claim) = self
            .slot
            .claim()
            .exchange::<TakeAwaited>(mark, FREE, AWAITED);
        if found == FREE {
            Some(claim)
        } else {
            claim.done();
            None
        }
    }

    // Has the word say that a thread waits, and sleeps while the word says so. A thread that is woken owes others a wake: these
    // may sleep still.
    #[tactic(auto, using(crate::proofs::Keeps::waits))]
    fn sleep<R: Wait>(&self, rt: &R, mark: &mut Mark<View<S, S::Call>>)
        requires { (mark.old.slot ≡ self.now.slot.name) × (mark.old.view.spent ≡ false)
            × (mark.old.view.out ≡ []) }
        ensures { (mark.new.slot ≡ mark.old.slot) × (mark.new.id ≡ mark.old.id)
            × (mark.new.view ≡ owing true mark.old.view) }
    {
        let (_, claim) = self.slot.claim().exchange::<Await>(mark, TAKEN, AWAITED);
        claim.done();
        self.slot.park(rt, mark, AWAITED as u32);
    }

    /// Gives the state back, after the call that `K` picks of `answer` and `maker`, and wakes a thread that sleeps if there may
    /// be any.
    #[doc(hidden)]
    #[inline(always)]
    pub fn give_back<K: Made<S::Call>, A, M>(
        &self,
        claim: Claim<'_, Rule, S>,
        mark: &mut Mark<View<S, S::Call>>,
        answer: &A,
        maker: &M,
    )
        requires claim { IsClaimOf self.now.slot.name self.now.slot.key claim }
        requires mark { mark.old.slot ≡ self.now.slot.name }
        requires step { (c : S.Call) × (q : S) × (r : S) × K.made c
            × (mark.old.view.out ≡ q ∷ []) × (claim.state ≡ Some r) × S.goes q c r
            × (mark.old.view.spent ≡ false) × AreAmong (S.rests c) mark.old.view.mine }
        requires owes { mark.old.view.owes ≡ false }
        ensures mark { (mark.new.slot ≡ mark.old.slot) × (mark.new.id ≡ mark.old.id) }
        ensures extends { (c : S.Call) × K.made c
            × Returns (machine_of S.Steps self.now.slot.key) mark.old.view claim.entry.state c
            mark.new.view }
    {
        if let Some(claim) = self.put_back::<Brand, K>(claim, mark) {
            self.put_awaited::<Brand, K>(claim, mark);
            self.wake_one(mark);
        }
    }

    // Gives the state back, unless others may sleep: then the claim is returned.
    #[inline(always)]
    fn put_back<'a, B: Begins<S>, K: Made<S::Call>>(
        &self,
        claim: Claim<'a, Rule, S>,
        mark: &mut Mark<View<S, S::Call>>,
    ) -> Option<Claim<'a, Rule, S>>
        requires begins { (q : S) → S.starts self.now.slot.key q → B.begins q }
        requires claim { IsClaimOf self.now.slot.name self.now.slot.key claim }
        requires mark { mark.old.slot ≡ self.now.slot.name }
        requires step { (c : S.Call) × (q : S) × (r : S) × K.made c
            × (mark.old.view.out ≡ q ∷ []) × (claim.state ≡ Some r) × S.goes q c r
            × (mark.old.view.spent ≡ false) × AreAmong (S.rests c) mark.old.view.mine }
        requires owes { mark.old.view.owes ≡ false }
        ensures mark { (mark.new.slot ≡ mark.old.slot) × (mark.new.id ≡ mark.old.id) }
        ensures puts { result ≡ None
            → PutsBack (machine_from S.Steps B.begins) K.made mark.old.view claim.entry.state
            mark.new.view None }
        ensures awaited { IfSome result (λ left. IsClaimOf self.now.slot.name self.now.slot.key left
            × (left.state ≡ claim.entry.state) × (mark.new.view ≡ owing true mark.old.view)) }
    {
        let (found, claim) = claim.exchange::<PutBack<S, B, K>>(mark, TAKEN, FREE);
        if found == TAKEN {
            claim.done();
            None
        } else {
            Some(claim)
        }
    }

    // Gives the state back where others may sleep, as the hand knows. The hand owes a sleeping thread a wake afterwards.
    #[cold]
    #[inline(never)]
    fn put_awaited<B: Begins<S>, K: Made<S::Call>>(
        &self,
        claim: Claim<'_, Rule, S>,
        mark: &mut Mark<View<S, S::Call>>,
    )
        requires begins { (q : S) → S.starts self.now.slot.key q → B.begins q }
        requires claim { IsClaimOf self.now.slot.name self.now.slot.key claim }
        requires mark { mark.old.slot ≡ self.now.slot.name }
        requires owes { mark.old.view.owes ≡ true }
        requires step { (c : S.Call) × (q : S) × (r : S) × K.made c
            × (mark.old.view.out ≡ q ∷ []) × (claim.state ≡ Some r) × S.goes q c r
            × (mark.old.view.spent ≡ false) × AreAmong (S.rests c) mark.old.view.mine }
        ensures mark { (mark.new.slot ≡ mark.old.slot) × (mark.new.id ≡ mark.old.id) }
        ensures puts { (u : View S S.Call) × (mark.new.view ≡ owing true u)
            × PutsBack (machine_from S.Steps B.begins) K.made (owing false mark.old.view)
            claim.entry.state u None }
    {
        let (_, claim) = claim.exchange::<PutAwaited<S, B, K>>(mark, AWAITED, FREE);
        claim.done();
    }

    // Wakes a thread that sleeps, to which the hand owed a wake.
    #[cold]
    #[inline(never)]
    #[tactic(auto, using(crate::proofs::Keeps::turns))]
    fn wake_one(&self, mark: &mut Mark<View<S, S::Call>>)
        requires { (mark.old.slot ≡ self.now.slot.name) × (mark.old.view.spent ≡ false)
            × (mark.old.view.out ≡ []) }
        ensures { (mark.new.slot ≡ mark.old.slot) × (mark.new.id ≡ mark.old.id)
            × (mark.new.view ≡ owing false mark.old.view) }
    {
        self.slot.wake_one::<Wake>(mark);
    }

    /// Makes another hand, which has seen as much as this hand and made no call. The call costs one load.
    pub fn fork(&self, hand: &mut Hand<S, S::Call>) -> Hand<S, S::Call>
        requires { IsOf self.now.slot.name hand.old }
        ensures hand { SameTable hand.old hand.new
            × (known_by hand.new ≡ known_by hand.old) }
        ensures told { SameTable hand.old result
            × (known_by result ≡ newcomer (known_by hand.old).seen) }
    {
        Hand::of(self.slot.split::<Tell>(&mut hand.mark))
    }

    /// Has a hand learn what another hand saw and did, and ends the other hand.
    ///
    /// From here on the hand speaks of one history that has the calls of both. Requires that the other hand may end. The call
    /// costs two loads.
    pub fn join(&self, hand: &mut Hand<S, S::Call>, other: Hand<S, S::Call>)
        requires here { IsOf self.now.slot.name hand.old }
        requires there { IsOf self.now.slot.name other }
        requires ends { S.may_end (known_by other).mine }
        ensures hand { SameTable hand.old hand.new }
        ensures looks { Looks (machine_of S.Steps self.now.slot.key)
            (both_views (known_by hand.old) (known_by other)) (known_by hand.new) }
    {
        let mark = &mut hand.mark;
        let other = other.into_mark();
        self.slot.join::<Absorb>(mark, other);
        self.look::<Brand>(mark);
    }

    // Has a hand see the history so far.
    #[inline(always)]
    fn look<B: Begins<S>>(&self, mark: &mut Mark<View<S, S::Call>>)
        requires begins { (q : S) → S.starts self.now.slot.key q → B.begins q }
        requires mark { (mark.old.slot ≡ self.now.slot.name) × (mark.old.view.spent ≡ false) }
        ensures mark { (mark.new.slot ≡ mark.old.slot) × (mark.new.id ≡ mark.old.id) }
        ensures looks { Looks (machine_from S.Steps B.begins) mark.old.view mark.new.view }
    {
        self.slot.load::<Look<S, B>>(mark);
    }
}

/// Takes the state out, and waits while another hand has it: for [`take_out!`](crate::take_out), which tried once.
///
/// The thread pauses and looks, ever more seldom, and at last sleeps until the state is given back, because a sleep, with the
/// wake that ends it, costs far more than a step under such a lock. The call does not allocate.
///
/// This is a function of its own, so that `take_out!` is a few instructions where the state is at home.
#[cold]
#[inline(never)]
pub fn wait_to_take<'a, S: Steps, R: Wait>(
    traced: &'a Traced<S>,
    rt: &R,
    mark: &mut Mark<View<S, S::Call>>,
) -> Claim<'a, Rule, S>
    requires mark { (mark.old.slot ≡ traced.now.slot.name) × (mark.old.view.out ≡ [])
        × (mark.old.view.spent ≡ false) × (mark.old.view.owes ≡ false) }
    ensures mark { (mark.new.slot ≡ mark.old.slot) × (mark.new.id ≡ mark.old.id) }
    ensures takes { IsClaimOf traced.now.slot.name traced.now.slot.key result
        × Holds mark.old.view mark.new.view result.state }
{
    for pauses in PAUSES {
        pause(pauses);
        if traced.slot.peek() == FREE {
            if let Some(claim) = traced.try_take(mark) {
                return claim;
            }
        }
    }
    for _ in rt.forever() {
        if let Some(claim) = traced.take_awaited(mark) {
            return claim;
        }
        traced.sleep(rt, mark);
    }
    unreachable!()
}

impl<S: Steps + Drop> Drop for Traced<S> {
    // This is a function of its own, so that a share that is not the last is given up in a few instructions.
    #[cold]
    #[inline(never)]
    fn drop(self) {
        let Traced { slot } = self;
        drop(slot);
    }
}
