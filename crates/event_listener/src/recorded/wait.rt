//! How a recorded listener waits: as any listener does, with a note of each step.
ghost use Rattle.std.specs.Prelude.{◌≡◌, ◌≢◌};
ghost use Rattle.event_wait.specs.declared.lock.limit.Limit.TheVariants.{Never};
ghost use Rattle.event_listener.specs.recording.Wait.{NotesWait};
ghost use Rattle.event_listener.specs.recording.WaitSteps.{NotesAttempt, NotesRemoval, NotesRound};

use super::call::StepCall;
use super::error::RecordError;
use super::hand::Hand;
use super::listener::RecordedListener;
use super::reply::{Former, RecordedReply};
use super::state::RecordedState;
use super::step::PollStep;
use crate::listener::{NeverInserted, WaitError};
use event_queue::{Key, RegisterResult, TaskExchange, WakeSink};
use event_wait::{Attempted, Limit, Refused, Request, Task, wait};
use std::alloc::Global;
use std::mem;
use std::sync::Wait;
use std::time::Clock;

/// A recorded listener as a wait uses it: its key in the queue, and the hand, which notes each step.
pub(super) struct RecordedPlace<T> {
    key: Key,
    hand: Hand<T>,
}

impl<T> RecordedPlace<T> {
    /// Takes the hand out of `hand`, and leaves there a hand without notes.
    pub(super) fn of(key: Key, hand: &mut Hand<T>, alloc: Global) -> Self
        ensures key { result.key ≡ key }
        ensures hand { result.hand ≡ hand.old }
    {
        let nobody = Hand::new(0, 0, alloc);
        RecordedPlace {
            key,
            hand: mem::replace(hand, nobody),
        }
    }

    /// Puts the hand back into `hand`.
    pub(super) fn give_back(self, hand: &mut Hand<T>)
    where
        T: Drop,
        ensures { hand.new ≡ self.hand }
    {
        let RecordedPlace { key: _, hand: its } = self;
        *hand = its;
    }
}

impl<T: Copy + Eq> Request<RecordedState<T>> for RecordedPlace<T> {
    type Output = Result<T, NeverInserted>;

    type Refusal = RecordError;

    ghost succeeds = { λ before output after. (after.key ≡ before.key)
        × NotesAttempt before.key before.hand output after.hand };

    ghost waits = { λ before after. (after.key ≡ before.key)
        × NotesRound before.key before.hand after.hand };

    ghost leaves = { λ before answer after. (after.key ≡ before.key)
        × NotesRemoval before.key before.hand answer after.hand };

    fn attempt_or_wait<C, X: TaskExchange<Task, C>, K: WakeSink<Task>>(
        &mut self,
        state: &mut RecordedState<T>,
        exchange: &X,
        on: &mut C,
        _sink: &mut K,
    ) -> Attempted<Result<T, NeverInserted>, RecordError> {
        let key = self.key;
        match self.hand.note_step(state, PollStep { key, exchange }, on) {
            Ok(RecordedReply::Registered(RegisterResult::Notified(tag))) => {
                Attempted::Done(Ok(tag))
            }
            Ok(RecordedReply::Registered(RegisterResult::Registered)) => Attempted::Waits(key),
            Ok(RecordedReply::Registered(RegisterResult::NeverInserted)) => {
                Attempted::Done(Err(NeverInserted))
            }
            Ok(_) => unreachable!(),
            Err(error) => Attempted::Refused(error),
        }
    }

    fn leave<K: WakeSink<Task>>(
        &mut self,
        state: &mut RecordedState<T>,
        sink: &mut K,
    ) -> Result<Option<Result<T, NeverInserted>>, RecordError> {
        let removal = StepCall::Remove {
            key: self.key,
            propagate: false,
        };
        match self.hand.note_step(state, removal, sink)? {
            RecordedReply::Removed(Some(Former::Notified { additional: _, tag })) => {
                Ok(Some(Ok(tag)))
            }
            RecordedReply::Removed(Some(Former::Created | Former::Task)) => Ok(None),
            RecordedReply::Removed(None) => Ok(Some(Err(NeverInserted))),
            _ => unreachable!(),
        }
    }
}

// Waits until the listener is notified or the limit has passed.
pub(super) fn wait_until<'ev, T: Copy + Eq, R: Wait + Clock + Clone>(
    listener: RecordedListener<'ev, T, R>,
    hand: &mut Hand<T>,
    limit: Limit,
) -> Result<Option<T>, WaitError<RecordedListener<'ev, T, R>>>
    ensures { NotesWait (limit ≢ Never) listener.entry hand.old result hand.new }
{
    let alloc = listener.event.alloc();
    let mut place = RecordedPlace::of(listener.key, hand, alloc);
    let lock = listener.event.state();
    let waited = wait(lock, &listener.runtime, alloc, &mut place, limit);
    place.give_back(hand);
    let answer = match waited {
        Ok(answer) => answer,
        Err(Refused::Memory | Refused::Request(_)) => return Err(WaitError::Memory(listener)),
    };
    listener.forget();
    match answer.transpose() {
        Ok(tag) => Ok(tag),
        Err(NeverInserted) => Err(WaitError::NeverInserted),
    }
}
