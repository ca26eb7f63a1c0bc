//! A request with the hand that makes it, as the waits of `event_wait` know it.
ghost use Rattle.std.specs.Prelude.{◌≡◌};
ghost use Rattle.event_history.specs.Hands.{IsOf, known_by};
ghost use Rattle.event_history.specs.History.{machine_of};
ghost use Rattle.event_history.specs.Waiting.{by_hand, lent, lent_tries, tried_by_hand};

use super::Lock;
use crate::hand::Hand;
use crate::history::Steps;
use crate::request::{Attempt, Request};
use event_queue::TaskExchange;
use event_wait::{Attempted, Obtainable, Task, Waitable, WakerSource};
use std::marker::Brand;
use std::sync::Wait;

/// A request, and the hand whose calls its attempts are, both lent for one wait.
#[derive(Drop)]
pub struct ByHand<'h, 'q, S: Steps, Q> {
    pub(crate) hand: &'h mut Hand<S, S::Call>,
    pub(crate) request: &'q mut Q,
}

// A request fits if its hand is of this lock and made the calls that the request follows.
impl<'h, 'q, S: Steps, Q: Request<S>> Waitable<ByHand<'h, 'q, S, Q>> for Lock<S> {
    type Output = Q::Output;

    type Refusal = Q::Refusal;

    ghost rules = { λ lock.
        lent (λ by. (by.hand.ghost_name, by.request.ghost_name))
        (λ by. (by.request.now, known_by by.hand.now))
        (λ by. IsOf lock.table by.hand.now
        × Q.follows by.request.now (known_by by.hand.now).mine)
        (by_hand (machine_of S.Steps lock.start) Q.attempting Q.leaving Q.waits Q.succeeds
        Q.leaves) };

    ghost source = { λ lock. lock.source };

    #[inline(always)]
    fn waker_source(&self) -> &WakerSource {
        &self.source
    }

    #[inline(always)]
    fn attempt_or_wait<C, X: TaskExchange<Task, C>, R: Wait>(
        &self,
        rt: &R,
        by: &mut ByHand<'h, 'q, S, Q>,
        exchange: &X,
        on: &mut C,
    ) -> Attempted<Q::Output, Q::Refusal> {
        self.attempt_named::<Brand, _, _, _, _>(rt, by.hand, by.request, exchange, on)
    }

    #[inline(always)]
    fn leave<R: Wait>(
        &self,
        rt: &R,
        by: &mut ByHand<'h, 'q, S, Q>,
    ) -> Result<Option<Q::Output>, Q::Refusal> {
        self.leave_named::<Brand, _, _>(rt, by.hand, by.request)
    }
}

impl<'h, 'q, S: Steps, Q: Attempt<S>> Obtainable<ByHand<'h, 'q, S, Q>> for Lock<S> {
    const TRIES: u32 = Q::TRIES;

    ghost trying = { λ lock.
        lent_tries (λ by. (by.hand.ghost_name, by.request.ghost_name))
        (λ by. (by.request.now, known_by by.hand.now))
        (tried_by_hand (machine_of S.Steps lock.start) Q.waits Q.succeeds Q.trying Q.has_place
        Q.giving_up) };

    #[inline(always)]
    fn is_waiting(&self, by: &ByHand<'h, 'q, S, Q>) -> bool {
        by.request.is_waiting()
    }

    #[inline(always)]
    fn attempt<R: Wait>(&self, rt: &R, by: &mut ByHand<'h, 'q, S, Q>) -> Option<Q::Output> {
        // A mere attempt would leave its place behind.
        if by.request.is_waiting() {
            return None;
        }
        Lock::attempt(self, rt, by.hand, by.request)
    }

    #[inline(always)]
    fn give_up<R: Wait>(&self, rt: &R, by: &mut ByHand<'h, 'q, S, Q>) {
        Lock::give_up(self, rt, by.hand, by.request);
    }
}
