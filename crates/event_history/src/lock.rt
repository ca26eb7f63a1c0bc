//! A state under a lock, with the queues of its waiters.
ghost use Rattle.std.specs.Prelude.{◌≡◌, ◌↔◌, Option, Result, [], IfOk, IfErr, OnErr};
ghost use Rattle.event_wait.specs.declared.request.Attempted.{Attempted};
ghost use Rattle.event_wait.specs.Attempted.{Attempts, OnDone, OnRefused, OnUndone};
ghost use Rattle.event_history.specs.Hands.{IsOf, SameTable, known_by};
ghost use Rattle.event_history.specs.History.{AreAmong, Extends, ExtendsThat, Looks, Makes, both_views, machine_of, newcomer};

mod by_hand;
mod obtain;
mod wait;

use crate::hand::Hand;
use crate::history::{Named, Steps};
use crate::request::Request;
use crate::step::Step;
use crate::traced::Traced;
use crate::{make, take_out};
use event_queue::TaskExchange;
use event_wait::{Attempted, DeferredWake, Task, WakerSource};
use std::marker::{Brand, Model};
use std::sync::Wait;

/// A state under a lock, with one history of all calls on it, and the queues of the threads and tasks that wait for something of
/// it.
///
/// A contract sees the number of the source at which waiting tasks are registered, the name of the lock, and what was given of
/// its start.
#[derive(Drop)]
pub struct Lock<S: Steps> {
    traced: Traced<S>,
    source: WakerSource,
}

impl<S: Steps> Model for Lock<S> {
    ghost use Rattle.event_history.specs.Lock.{LockId};

    ghost Value = { LockId S.Start };

    ghost view = { λ lock. record {
      source = lock.source;
      table = lock.traced.slot.name;
      start = lock.traced.slot.key;
    } };
}

impl<S: Steps> Lock<S> {
    /// Makes a lock round this state, and its first hand.
    ///
    /// Requires that the state starts as `start` says. No program sees `start` again: it is for contracts. The call does not
    /// allocate.
    pub fn new(state: S, start: &S::Start) -> (Self, Hand<S, S::Call>)
        requires starts { S.starts start.now state }
        ensures start { result.0.start ≡ start.now }
        ensures hand { IsOf result.0.table result.1 × (known_by result.1 ≡ newcomer []) }
    {
        let (traced, hand) = Traced::new(state, start);
        let source = WakerSource::new();
        (Lock { traced, source }, hand)
    }

    /// Makes a hand that made no call yet, and has seen the history so far. The call costs one load.
    #[inline(always)]
    pub fn hand(&self) -> Hand<S, S::Call>
        ensures { IsOf self.now.table result
            × (known_by result ≡ newcomer (known_by result).seen) }
    {
        self.traced.hand()
    }

    /// Returns the source at which a task registers that polls a waiting request.
    #[inline(always)]
    pub fn waker_source(&self) -> &WakerSource
        ensures { result.now ≡ self.now.source }
    {
        &self.source
    }

    /// Makes one call at once, as a call of this hand, and returns the reply; if another hand has the state, returns the step as
    /// an error.
    ///
    /// Requires that the hand made the calls on which this call rests. An error leaves the hand and `beside` as they were. The
    /// call does not wait for the lock, and allocates what the step allocates.
    pub fn try_perform<B, K: Step<S, B>>(
        &self,
        hand: &mut Hand<S, S::Call>,
        step: K,
        beside: &mut B,
    ) -> Result<K::Reply, K>
        requires hand { IsOf self.now.table hand.old }
        requires may { K.may step }
        requires rests { (reply : K.Reply)
            → AreAmong (S.rests (K.call step reply)) (known_by hand.old).mine }
        ensures hand { SameTable hand.old hand.new }
        ensures call { IfOk result (λ reply.
            ExtendsThat (machine_of S.Steps self.now.start)
            (λ before after. K.does step before beside.old reply after beside.new)
            (known_by hand.old) (K.call step reply) (known_by hand.new)) }
        ensures kept { IfErr result (λ back. (back ≡ step) × (beside.new ≡ beside.old)
            × (known_by hand.new ≡ known_by hand.old)) }
    {
        let mark = &mut hand.mark;
        let traced = &self.traced;
        match traced.try_take(mark) {
            Some(claim) => Ok(make!(traced, claim, mark, step, beside)),
            None => Err(step),
        }
    }

    /// Returns the traced state alone, for [`perform!`](crate::perform).
    #[doc(hidden)]
    #[inline(always)]
    pub fn traced(&self) -> &Traced<S>
        ensures table { result.now.slot.name ≡ self.now.table }
        ensures start { result.now.slot.key ≡ self.now.start }
    {
        &self.traced
    }

    /// Makes another hand, which has seen as much as this hand and made no call. The call costs one load.
    pub fn fork(&self, hand: &mut Hand<S, S::Call>) -> Hand<S, S::Call>
        requires { IsOf self.now.table hand.old }
        ensures hand { SameTable hand.old hand.new
            × (known_by hand.new ≡ known_by hand.old) }
        ensures told { SameTable hand.old result
            × (known_by result ≡ newcomer (known_by hand.old).seen) }
    {
        self.traced.fork(hand)
    }

    /// Has a hand learn what another hand saw and did, and ends the other hand.
    ///
    /// From here on the hand speaks of one history that has the calls of both. Requires that the other hand may end. The call
    /// costs two loads.
    pub fn join(&self, hand: &mut Hand<S, S::Call>, other: Hand<S, S::Call>)
        requires here { IsOf self.now.table hand.old }
        requires there { IsOf self.now.table other }
        requires ends { S.may_end (known_by other).mine }
        ensures hand { SameTable hand.old hand.new }
        ensures looks { Looks (machine_of S.Steps self.now.start)
            (both_views (known_by hand.old) (known_by other)) (known_by hand.new) }
    {
        self.traced.join(hand, other);
    }

    /// Makes one call, as a call of this hand, with what stands beside the state, and returns the reply.
    ///
    /// Requires that the hand made the calls on which this call rests. May block until the lock is free, and allocates what the
    /// step allocates.
    #[inline(always)]
    pub fn perform<B, K: Step<S, B>, R: Wait>(
        &self,
        rt: &R,
        hand: &mut Hand<S, S::Call>,
        step: K,
        beside: &mut B,
    ) -> K::Reply
        requires hand { IsOf self.now.table hand.old }
        requires may { K.may step }
        requires rests { (reply : K.Reply)
            → AreAmong (S.rests (K.call step reply)) (known_by hand.old).mine }
        ensures hand { SameTable hand.old hand.new }
        ensures call { ExtendsThat (machine_of S.Steps self.now.start)
            (λ before after. K.does step before beside.old result after beside.new)
            (known_by hand.old) (K.call step result) (known_by hand.new) }
    {
        self.traced.perform(rt, hand, step, beside)
    }

    /// Makes one call that may wake others, as a call of this hand, and returns the reply.
    ///
    /// The task that is woken last is woken once the lock is given back. Requires that the hand made the calls on which this call
    /// rests. May block until the lock is free, and allocates what the step allocates.
    #[inline(always)]
    pub fn call<K: Step<S, DeferredWake>, R: Wait>(
        &self,
        rt: &R,
        hand: &mut Hand<S, S::Call>,
        step: K,
    ) -> K::Reply
        requires hand { IsOf self.now.table hand.old }
        requires may { K.may step }
        requires rests { (reply : K.Reply)
            → AreAmong (S.rests (K.call step reply)) (known_by hand.old).mine }
        ensures hand { SameTable hand.old hand.new }
        ensures call { Extends (machine_of S.Steps self.now.start) (known_by hand.old)
            (K.call step result) (known_by hand.new) }
    {
        let mut waking = DeferredWake::new();
        let reply = self.traced.perform(rt, hand, step, &mut waking);
        waking.finish();
        reply
    }

    // Attempts a request once; a request that waits on stores the task that the exchange makes.
    fn attempt_named<
        N: Named<Attempted<Q::Output, Q::Refusal>, S::Call>,
        Q: Request<S>,
        C,
        X: TaskExchange<Task, C>,
        R: Wait,
    >(
        &self,
        rt: &R,
        hand: &mut Hand<S, S::Call>,
        request: &mut Q,
        exchange: &X,
        on: &mut C,
    ) -> Attempted<Q::Output, Q::Refusal>
        requires hand { IsOf self.now.table hand.old }
        requires rests { Q.follows request.old (known_by hand.old).mine }
        requires named { (answer : Attempted Q.Output Q.Refusal) (call : S.Call)
            → N.named answer call ↔ Q.attempting request.old answer call }
        ensures hand { SameTable hand.old hand.new }
        ensures rests { Q.follows request.new (known_by hand.new).mine }
        ensures call { Makes (machine_of S.Steps self.now.start) (known_by hand.old)
            (Q.attempting request.old result) (known_by hand.new) }
        ensures succeeded { OnDone result (λ output. Q.succeeds request.old output request.new) }
        ensures waited { OnUndone result (Q.waits request.old request.new) }
        ensures kept { OnRefused result (Q.waits request.old request.new) }
        ensures exchanged { Attempts (X.exchanged exchange.now) on.old result on.new }
    {
        let mut waking = DeferredWake::new();
        let traced = &self.traced;
        let mark = &mut hand.mark;
        let mut claim = take_out!(traced, rt, mark);
        let state = claim.state_mut();
        let answer = request.attempt_or_wait(state, exchange, on, &mut waking);
        traced.give_back::<Brand, _, _>(claim, mark, &answer, &*request);
        waking.finish_seldom();
        answer
    }

    // Has a request leave its queue at the limit, with what it can still get.
    fn leave_named<
        N: Named<Result<Option<Q::Output>, Q::Refusal>, S::Call>,
        Q: Request<S>,
        R: Wait,
    >(
        &self,
        rt: &R,
        hand: &mut Hand<S, S::Call>,
        request: &mut Q,
    ) -> Result<Option<Q::Output>, Q::Refusal>
        requires hand { IsOf self.now.table hand.old }
        requires rests { Q.follows request.old (known_by hand.old).mine }
        requires named { (answer : Result (Option Q.Output) Q.Refusal) (call : S.Call)
            → N.named answer call ↔ Q.leaving request.old answer call }
        ensures hand { SameTable hand.old hand.new }
        ensures rests { Q.follows request.new (known_by hand.new).mine }
        ensures call { Makes (machine_of S.Steps self.now.start) (known_by hand.old)
            (Q.leaving request.old result) (known_by hand.new) }
        ensures left { IfOk result (λ answer. Q.leaves request.old answer request.new) }
        ensures kept { OnErr result (request.new ≡ request.old) }
    {
        let mut waking = DeferredWake::new();
        let traced = &self.traced;
        let mark = &mut hand.mark;
        let mut claim = take_out!(traced, rt, mark);
        let state = claim.state_mut();
        let answer = request.leave(state, &mut waking);
        traced.give_back::<Brand, _, _>(claim, mark, &answer, &*request);
        waking.finish_seldom();
        answer
    }
}
