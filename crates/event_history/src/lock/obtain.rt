//! Attempts that are made before a wait.
ghost use Rattle.std.specs.Prelude.{◌≡◌, ◌↔◌, Option, None, IfSome};
ghost use Rattle.event_history.specs.Hands.{IsOf, SameTable, known_by};
ghost use Rattle.event_history.specs.History.{Makes, machine_of};
ghost use Rattle.event_history.specs.Waiting.{GivesUp};

use super::Lock;
use crate::hand::Hand;
use crate::history::{Named, Steps};
use crate::request::Attempt;
use crate::take_out;
use event_wait::DeferredWake;
use std::marker::Brand;
use std::sync::Wait;

impl<S: Steps> Lock<S> {
    /// Attempts once to get the output, as a call of this hand, without waiting for it, and returns the output or `None`.
    ///
    /// A request that has a place in a queue keeps the place. A `None` leaves the request as it was. May block until the lock is
    /// free.
    #[inline(always)]
    pub fn attempt<Q: Attempt<S>, R: Wait>(
        &self,
        rt: &R,
        hand: &mut Hand<S, S::Call>,
        request: &mut Q,
    ) -> Option<Q::Output>
        requires hand { IsOf self.now.table hand.old }
        requires rests { Q.follows request.old (known_by hand.old).mine }
        ensures hand { SameTable hand.old hand.new }
        ensures rests { ¬ Q.has_place request.new
            → Q.follows request.new (known_by hand.new).mine }
        ensures place { Q.has_place request.new ↔ Q.has_place request.old }
        ensures call { Makes (machine_of S.Steps self.now.start) (known_by hand.old)
            (Q.trying request.old result) (known_by hand.new) }
        ensures succeeded { IfSome result (λ output. Q.succeeds request.old output request.new) }
        ensures kept { result ≡ None → request.new ≡ request.old }
    {
        self.try_named::<Brand, _, _>(rt, hand, request)
    }

    #[inline(always)]
    fn try_named<N: Named<Option<Q::Output>, S::Call>, Q: Attempt<S>, R: Wait>(
        &self,
        rt: &R,
        hand: &mut Hand<S, S::Call>,
        request: &mut Q,
    ) -> Option<Q::Output>
        requires hand { IsOf self.now.table hand.old }
        requires rests { Q.follows request.old (known_by hand.old).mine }
        requires named { (answer : Option Q.Output) (call : S.Call) → N.named answer call
            ↔ Q.trying request.old answer call }
        ensures hand { SameTable hand.old hand.new }
        ensures rests { ¬ Q.has_place request.new
            → Q.follows request.new (known_by hand.new).mine }
        ensures place { Q.has_place request.new ↔ Q.has_place request.old }
        ensures call { Makes (machine_of S.Steps self.now.start) (known_by hand.old)
            (Q.trying request.old result) (known_by hand.new) }
        ensures succeeded { IfSome result (λ output. Q.succeeds request.old output request.new) }
        ensures kept { result ≡ None → request.new ≡ request.old }
    {
        let mut waking = DeferredWake::new();
        let traced = &self.traced;
        let mark = &mut hand.mark;
        let mut claim = take_out!(traced, rt, mark);
        let state = claim.state_mut();
        let answer = request.attempt(state, &mut waking);
        traced.give_back::<Brand, _, _>(claim, mark, &answer, &*request);
        waking.finish_seldom();
        answer
    }

    /// Has the request leave its queue, if it has a place there, as a call of this hand.
    ///
    /// What the request was notified of is passed on in the same step. A request without a place makes no call. May block until
    /// the lock is free.
    #[inline(always)]
    pub fn give_up<Q: Attempt<S>, R: Wait>(
        &self,
        rt: &R,
        hand: &mut Hand<S, S::Call>,
        request: &mut Q,
    )
        requires hand { IsOf self.now.table hand.old }
        requires rests { Q.follows request.old (known_by hand.old).mine }
        ensures hand { SameTable hand.old hand.new }
        ensures rests { Q.follows request.new (known_by hand.new).mine }
        ensures gave_up { GivesUp (machine_of S.Steps self.now.start) Q.waits Q.has_place
            Q.giving_up
            (request.old, known_by hand.old) (request.new, known_by hand.new) }
    {
        if request.is_waiting() {
            self.give_up_named::<Brand, _, _>(rt, hand, request);
        }
    }

    #[inline(always)]
    fn give_up_named<N: Named<(), S::Call>, Q: Attempt<S>, R: Wait>(
        &self,
        rt: &R,
        hand: &mut Hand<S, S::Call>,
        request: &mut Q,
    )
        requires hand { IsOf self.now.table hand.old }
        requires rests { Q.follows request.old (known_by hand.old).mine }
        requires named { (answer : Unit {0}) (call : S.Call) → N.named answer call
            ↔ Q.giving_up request.old call }
        ensures hand { SameTable hand.old hand.new }
        ensures rests { Q.follows request.new (known_by hand.new).mine }
        ensures call { Makes (machine_of S.Steps self.now.start) (known_by hand.old)
            (Q.giving_up request.old) (known_by hand.new) }
        ensures kept { Q.waits request.old request.new }
        ensures out { ¬ Q.has_place request.new }
    {
        let mut waking = DeferredWake::new();
        let traced = &self.traced;
        let mark = &mut hand.mark;
        let mut claim = take_out!(traced, rt, mark);
        let state = claim.state_mut();
        request.give_up(state, &mut waking);
        traced.give_back::<Brand, _, _>(claim, mark, &(), &*request);
        waking.finish_seldom();
    }
}
