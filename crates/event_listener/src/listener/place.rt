//! A place in the queue of an event, while a thread waits there.
ghost use Rattle.std.specs.Prelude.{◌≡◌, ◌∷◌, [], Ok};
ghost use Rattle.event_history.specs.History.{AreAmong};
ghost use Rattle.event_history.specs.declared.queue_call.QueueCall.TheVariants.{Insert};
ghost use Rattle.event_listener.specs.Waiting.{Attempting, Leaving, answer_of};

use super::{NeverInserted, WaitReason};
use event_history::Request;
use event_queue::{Key, List, RegisterResult, State, TaskExchange, WakeSink};
use event_wait::{Attempted, Refused, Task};
use std::convert::Infallible;

/// The key of a listener that has not left the queue.
#[derive(Drop)]
pub(super) struct Place {
    pub(super) key: Key,
}

/// A request for the tag. An attempt gives the tag, or finds that the listener is not in the queue; no attempt is refused.
impl<T: Drop> Request<List<T, Task>> for Place {
    type Output = Result<T, NeverInserted>;

    type Refusal = Infallible;

    ghost succeeds = { λ before _ after. after ≡ before };

    ghost leaves = { λ before _ after. after ≡ before };

    ghost follows = { λ place. AreAmong (Insert (Ok place.key) ∷ []) };

    ghost attempting = { λ place. Attempting place.key };

    ghost leaving = { λ place. Leaving place.key };

    fn attempt_or_wait<C, X: TaskExchange<Task, C>, K: WakeSink<Task>>(
        &mut self,
        queue: &mut List<T, Task>,
        exchange: &X,
        on: &mut C,
        _sink: &mut K,
    ) -> Attempted<Result<T, NeverInserted>, Infallible> {
        match queue.register_with_uncounted(self.key, exchange, on) {
            RegisterResult::Registered => Attempted::Waits(self.key),
            RegisterResult::Notified(tag) => Attempted::Done(Ok(tag)),
            RegisterResult::NeverInserted => Attempted::Done(Err(NeverInserted)),
        }
    }

    fn leave<K: WakeSink<Task>>(
        &mut self,
        queue: &mut List<T, Task>,
        sink: &mut K,
    ) -> Result<Option<Result<T, NeverInserted>>, Infallible> {
        match queue.remove_uncounted(self.key, false, sink) {
            Some(State::Notified { additional: _, tag }) => Ok(Some(Ok(tag))),
            Some(State::Created | State::Task(_)) => Ok(None),
            Some(State::Passed { .. } | State::Lost { .. }) => unreachable!(),
            None => Ok(Some(Err(NeverInserted))),
        }
    }
}

/// Returns the answer of a wait in this place.
#[inline(always)]
pub(super) fn answer_of<T>(
    waited: Result<Option<Result<T, NeverInserted>>, Refused<Infallible>>,
) -> Result<Option<T>, WaitReason>
    ensures { result ≡ answer_of waited }
{
    match waited {
        Ok(Some(Ok(tag))) => Ok(Some(tag)),
        Ok(Some(Err(NeverInserted))) => Err(WaitReason::NeverInserted),
        Ok(None) => Ok(None),
        Err(Refused::Memory) => Err(WaitReason::Memory),
        Err(Refused::Request(never)) => match never {},
    }
}
