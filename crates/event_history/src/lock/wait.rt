//! Waits of a thread, and the poll of a task: those of `event_wait`, each of whose attempts is a call of the hand.
ghost use Rattle.std.specs.Prelude.{◌≡◌, ◌≢◌, IfOk, IsSome, OnErr};
ghost use Rattle.futures.specs.Poll.{IfReady, OnPending};
ghost use Rattle.futures.specs.Task.{Covers, Keeps};
ghost use Rattle.event_history.specs.Hands.{IsOf, SameTable, known_by};
ghost use Rattle.event_history.specs.History.{Makes, machine_of};
ghost use Rattle.event_history.specs.Waiting.{EndsObtaining, EndsWait, Polls};
ghost use Rattle.event_wait.specs.declared.lock.limit.Limit.TheVariants.{Never};

use super::Lock;
use super::by_hand::ByHand;
use crate::hand::Hand;
use crate::history::Steps;
use crate::request::{Attempt, Request};
use event_wait::{Attempted, Limit, Refused};
use futures::task::{Context, Poll};
use std::alloc::Global;
use std::marker::Brand;
use std::sync::Wait;
use std::time::Clock;

impl<S: Steps> Lock<S> {
    /// Blocks the thread until the request gets its output or the limit has passed, and returns the output or `None`.
    ///
    /// Each attempt is a call of this hand. At the limit the request leaves the queue with what it can still get, so a late
    /// output is returned, too. An error says that memory ran out ([`Refused::Memory`](event_wait::Refused::Memory)) or that the
    /// request can't wait ([`Refused::Request`](event_wait::Refused::Request)); the request keeps the place that its last attempt
    /// left it. Allocates what the thread parks on, as [`event_wait::wait`] does. May block until the lock is free, too.
    #[inline(always)]
    pub fn wait<Q: Request<S>, R: Wait + Clock>(
        &self,
        rt: &R,
        alloc: Global,
        hand: &mut Hand<S, S::Call>,
        request: &mut Q,
        limit: Limit,
    ) -> Result<Option<Q::Output>, Refused<Q::Refusal>>
        requires hand { IsOf self.now.table hand.old }
        requires rests { Q.follows request.old (known_by hand.old).mine }
        ensures hand { SameTable hand.old hand.new }
        ensures rests { Q.follows request.new (known_by hand.new).mine }
        ensures never { limit ≡ Never → IfOk result IsSome }
        ensures waits { EndsWait (machine_of S.Steps self.now.start) Q.attempting Q.leaving
            Q.waits Q.succeeds Q.leaves (limit ≢ Never) (request.old, known_by hand.old) result
            (request.new, known_by hand.new) }
    {
        let mut by = ByHand { hand, request };
        let answer = event_wait::wait(self, rt, alloc, &mut by, limit);
        let ByHand {
            hand: _,
            request: _,
        } = by;
        answer
    }

    /// Tries to get the output at once, then blocks the thread until the request gets it or the limit has passed, and returns the
    /// output or `None`.
    ///
    /// Each attempt is a call of this hand, as is the removal of a request that gives up. After any return the request is in no
    /// queue. What is tried, allocated and refused is said at [`event_wait::obtain`]. May block until the lock is free, too.
    #[inline(always)]
    pub fn obtain<Q: Attempt<S>, R: Wait + Clock>(
        &self,
        rt: &R,
        alloc: Global,
        hand: &mut Hand<S, S::Call>,
        request: &mut Q,
        limit: Limit,
    ) -> Result<Option<Q::Output>, Refused<Q::Refusal>>
        requires hand { IsOf self.now.table hand.old }
        requires rests { Q.follows request.old (known_by hand.old).mine }
        ensures hand { SameTable hand.old hand.new }
        ensures rests { Q.follows request.new (known_by hand.new).mine }
        ensures never { limit ≡ Never → IfOk result IsSome }
        ensures obtains { EndsObtaining (machine_of S.Steps self.now.start) Q.attempting Q.leaving Q.waits
            Q.succeeds Q.leaves (limit ≢ Never) Q.trying Q.has_place Q.giving_up
            (request.old, known_by hand.old) result (request.new, known_by hand.new) }
    {
        let mut by = ByHand { hand, request };
        let answer = event_wait::obtain(self, rt, alloc, &mut by, limit);
        let ByHand {
            hand: _,
            request: _,
        } = by;
        answer
    }

    /// Attempts the request once, as a call of this hand, and registers the task that polls if the request waits on.
    ///
    /// Returns the output, or the refusal if the request can't wait. After a pending poll the task is registered at the source of
    /// this lock ([`waker_source`](Lock::waker_source)). May block until the lock is free.
    #[inline(always)]
    pub fn poll_in<Q: Request<S>, R: Wait>(
        &self,
        rt: &R,
        hand: &mut Hand<S, S::Call>,
        request: &mut Q,
        cx: &mut Context<'_>,
    ) -> Poll<Result<Q::Output, Q::Refusal>>
        requires hand { IsOf self.now.table hand.old }
        requires rests { Q.follows request.old (known_by hand.old).mine }
        ensures hand { SameTable hand.old hand.new }
        ensures rests { Q.follows request.new (known_by hand.new).mine }
        ensures call { Makes (machine_of S.Steps self.now.start) (known_by hand.old)
            (Polls Q.attempting request.old result) (known_by hand.new) }
        ensures succeeded { IfReady result
            (λ answer. IfOk answer (λ output. Q.succeeds request.old output request.new)) }
        ensures refused { IfReady result (λ answer. OnErr answer (Q.waits request.old request.new)) }
        ensures pending { OnPending result (Q.waits request.old request.new) }
        ensures registered { OnPending result (Covers cx.new (λ s. s ≡ self.now.source)) }
        ensures kept { Keeps cx.old cx.new }
    {
        let source = &self.source;
        match self.attempt_named::<Brand, _, _, _, _>(rt, hand, request, source, cx) {
            Attempted::Done(output) => Poll::Ready(Ok(output)),
            Attempted::Waits(_) => Poll::Pending,
            Attempted::Absent => cx.yield_now(),
            Attempted::Refused(error) => Poll::Ready(Err(error)),
        }
    }
}
