//! A call on a traced state.
ghost use Rattle.std.specs.Prelude.{◌≡◌, ◌∷◌, [], false, Some};
ghost use Rattle.event_history.specs.Hands.{IsClaimOf, IsOf, SameTable, known_by};
ghost use Rattle.event_history.specs.History.{AreAmong, ExtendsThat, machine_of};

use crate::hand::Hand;
use crate::history::{Steps, View};
use crate::rule::Rule;
use crate::traced::Traced;
use crate::{make, take_out};
use event_slot::{Claim, Mark};
use std::marker::Brand;
use std::snapshot::Snapshot;
use std::sync::Wait;

/// Takes the state out of its slot, and evaluates to the claim on it; waits while another hand has the state.
///
/// A caller tests after each call of a function that may wait, inlined or not, whether the caller is to end. So this is a macro
/// and no function: a state that is at home is taken with no such test.
#[macro_export]
macro_rules! take_out {
    ($traced:expr, $rt:expr, $mark:expr) => {
        match $traced.try_take($mark) {
            Some(claim) => claim,
            None => $crate::wait_to_take($traced, $rt, $mark),
        }
    };
}

/// One call on a state of type `S`, with what stands beside the state, of type `B`: a sink of the tasks that it wakes, say.
pub trait Step<S: Steps, B> {
    /// What the call returns.
    type Reply;

    // When the call may be made. By default always.
    ghost may: { Self → Type 0 } = { λ _. Unit {0} };

    // The call as the history has it, by its reply.
    ghost call: { Self → Self.Reply → S.Call };

    // What the call does, from the state and what is beside it to both afterwards.
    ghost does: { Self → S → B → Self.Reply → S → B → Type 0 };

    /// Makes the call on the state, and returns the reply. The caller has the lock, for which this call does not wait.
    fn make(self, state: &mut S, beside: &mut B) -> Self::Reply
        requires { may self }
        ensures goes { S.goes state.old (call self result) state.new }
        ensures does { does self state.old beside.old result state.new beside.new };
}

/// Makes one call on the state that is out with this claim, gives the state back, and evaluates to the reply.
///
/// This is a macro and no function, as `take_out!` is, because a step that wakes others may wait. What makes the step may stand
/// last, as `|step, state, beside| ..`; by default it is [`Step::make`](crate::Step::make).
#[doc(hidden)]
#[macro_export]
macro_rules! make {
    ($traced:expr, $claim:expr, $mark:expr, $step:expr, $beside:expr) => {
        $crate::make!($traced, $claim, $mark, $step, $beside, |step, state, beside| {
            $crate::Step::make(step, state, beside)
        })
    };
    ($traced:expr, $claim:expr, $mark:expr, $step:expr, $beside:expr, |$own:ident, $state:ident, $on:ident| $made:expr) => {{
        let mut claim = $claim;
        let $own = $step;
        let asked = std::snapshot::Snapshot::of(&$own);
        let before = std::snapshot::Snapshot::of(&*$beside);
        let $state = claim.state_mut();
        let $on = &mut *$beside;
        let reply = $made;
        $traced.end(claim, $mark, asked, before, &reply, &*$beside);
        reply
    }};
}

/// Makes one call of a [`Lock`](crate::Lock) as a call of this hand, with what stands beside the state, and evaluates to what
/// [`Lock::perform`](crate::Lock::perform) returns. This is a macro and no function, as `take_out!` is.
///
/// [`Step::make`](crate::Step::make) is a function, after which a caller tests whether it is to end, if the step can wake others.
/// `|step, state, beside| ..` may stand last: that expression is evaluated in the place of `Step::make`, with no such test, and
/// must do the same.
#[macro_export]
macro_rules! perform {
    ($lock:expr, $rt:expr, $hand:expr, $step:expr, $beside:expr $(, |$own:ident, $state:ident, $on:ident| $made:expr)?) => {{
        let traced = $lock.traced();
        let mark = &mut $hand.mark;
        let claim = $crate::take_out!(traced, $rt, mark);
        let beside = &mut *$beside;
        $crate::make!(traced, claim, mark, $step, beside $(, |$own, $state, $on| $made)?)
    }};
}

/// Makes one call of a [`Lock`](crate::Lock) as the first call of a new hand, with what stands beside the state, and evaluates to
/// that hand and the reply.
///
/// The macro does what [`Lock::hand`](crate::Lock::hand) and then `perform!` do, without the load of `Lock::hand`. What makes the
/// step may stand last, as at `perform!`.
#[macro_export]
macro_rules! perform_first {
    ($lock:expr, $rt:expr, $step:expr, $beside:expr $(, |$own:ident, $state:ident, $on:ident| $made:expr)?) => {{
        let traced = $lock.traced();
        let (arrived, mark) = traced.arrive();
        let mut mark = mark;
        let claim = match arrived {
            Some(claim) => claim,
            None => $crate::wait_to_take(traced, $rt, &mut mark),
        };
        let beside = &mut *$beside;
        let reply = $crate::make!(traced, claim, &mut mark, $step, beside $(, |$own, $state, $on| $made)?);
        ($crate::Hand::of(mark), reply)
    }};
}

impl<S: Steps> Traced<S> {
    /// Makes one call on the state, as a call of this hand, and returns the reply.
    ///
    /// Requires that the hand made the calls on which this call rests. May block until the lock is free, and allocates what the
    /// step allocates.
    #[inline(always)]
    pub fn perform<B, K: Step<S, B>, R: Wait>(
        &self,
        rt: &R,
        hand: &mut Hand<S, S::Call>,
        step: K,
        beside: &mut B,
    ) -> K::Reply
        requires hand { IsOf self.now.slot.name hand.old }
        requires may { K.may step }
        requires rests { (reply : K.Reply)
            → AreAmong (S.rests (K.call step reply)) (known_by hand.old).mine }
        ensures hand { SameTable hand.old hand.new }
        ensures call { ExtendsThat (machine_of S.Steps self.now.slot.key)
            (λ before after. K.does step before beside.old result after beside.new)
            (known_by hand.old) (K.call step result) (known_by hand.new) }
    {
        let mark = &mut hand.mark;
        let claim = take_out!(self, rt, mark);
        make!(self, claim, mark, step, beside)
    }

    /// Gives the state back, which is out with this claim, and notes the call of `step` that was made on the state.
    #[doc(hidden)]
    #[inline(always)]
    pub fn end<B, K: Step<S, B>>(
        &self,
        claim: Claim<'_, Rule, S>,
        mark: &mut Mark<View<S, S::Call>>,
        step: Snapshot<K>,
        before: Snapshot<B>,
        reply: &K::Reply,
        after: &B,
    )
        requires claim { IsClaimOf self.now.slot.name self.now.slot.key claim }
        requires mark { mark.old.slot ≡ self.now.slot.name }
        requires made { (q : S) × (r : S) × (mark.old.view.out ≡ q ∷ []) × (claim.state ≡ Some r)
            × (mark.old.view.spent ≡ false) × (mark.old.view.owes ≡ false)
            × S.goes q (K.call step.value reply.now) r
            × K.does step.value q before.value reply.now r after.now }
        requires rests { AreAmong (S.rests (K.call step.value reply.now)) mark.old.view.mine }
        ensures mark { (mark.new.slot ≡ mark.old.slot) × (mark.new.id ≡ mark.old.id) }
        ensures call { ExtendsThat (machine_of S.Steps self.now.slot.key)
            (λ q r. K.does step.value q before.value reply.now r after.now) mark.old.view
            (K.call step.value reply.now) mark.new.view }
    {
        self.give_back::<Brand, _, _>(claim, mark, reply, &step);
    }
}
