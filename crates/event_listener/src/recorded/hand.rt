//! The hands that call a recorded event, and what they note.
ghost use Rattle.std.specs.Prelude.{◌≡◌, [], OnErr, IfErr, IfOk};
ghost use Rattle.event_listener.specs.recording.Step.{IsReplyTo, without_task};
ghost use Rattle.event_listener.specs.recording.Exchange.{StepsOfSome};
ghost use Rattle.event_listener.specs.Noting.{note, noted, new_hands};

use super::call::{RecordedCall, StepCall};
use super::entry::Entry;
use super::error::RecordError;
use super::reply::RecordedReply;
use super::state::RecordedState;
use super::step::MakesStep;
use event_wait::{Lock, step};
use std::alloc::{AllocError, Global};
use std::marker::Model;
use std::sync::Wait;

/// One call that a hand made, with the reply that the hand was given.
#[derive(Clone, Copy, Debug, PartialEq, Eq, Drop)]
pub struct Note<T> {
    /// The call, without its task.
    pub call: RecordedCall<T>,
    /// The reply of the queue.
    pub reply: RecordedReply<T>,
}

impl<T: Copy> Note<T> {
    // Makes the note of an entry that is the hand's own.
    #[inline(always)]
    fn of(entry: &Entry<T>) -> Self
        ensures { result ≡ note entry.now.call entry.now.reply }
    {
        Note {
            call: entry.call,
            reply: entry.reply,
        }
    }
}

/// A caller of a [`RecordedEvent`](crate::RecordedEvent), which notes each of its calls with the reply, in order.
///
/// A call that fails for memory is not noted. Of a wait that fails for memory, the steps before the failure are noted. A call
/// takes its hand by a `&mut`, so the calls of one hand are made one after another, whatever threads make them. A hand can't
/// be cloned, because [`close`](crate::RecordedEvent::close) wants each once. The notes of a hand grow by one with each step,
/// and never shrink.
///
/// A contract sees a hand as its number, the number of its event, and its notes.
///
/// A flag over a recorded event has a hand for each thread. Each thread returns its hand, and the event is closed with all
/// hands:
///
/// ```rust
/// let (flag, hands) = RecordedFlag::new(alloc, id, hands)?;
/// // If no thread can be made, the first hand is the first that runs, so none waits for it in vain.
/// let hands = thread::map_vec(rt, hands, &|hand| take_part(rt, &flag, hand))?;
/// Ok(flag.close(hands)?)
/// ```
#[must_use = "an event is closed with all its hands"]
#[derive(Drop)]
pub struct Hand<T> {
    number: usize,
    event_number: u64,
    notes: Vec<Note<T>>,
}

impl<T> Model for Hand<T> {
    ghost use Rattle.event_listener.specs.Noting.{HandNotes};

    ghost Value = { HandNotes T };

    ghost view = { λ hand. record {
      number = hand.number;
      event_number = hand.event_number;
      notes = hand.notes.items;
    } };
}

impl<T> Hand<T> {
    // Makes a hand of that event, with no notes.
    pub(super) fn new(number: usize, event_number: u64, alloc: Global) -> Self
        ensures { result ≡ record { number = number; event_number = event_number; notes = [] } }
    {
        Hand {
            number,
            event_number,
            notes: Vec::new(alloc),
        }
    }

    /// Returns the number of the hand among the hands of its event. Takes no memory and never blocks.
    pub fn number(&self) -> usize
        ensures { result ≡ self.now.number }
    {
        self.number
    }

    // Returns the number of the hand's event.
    pub(super) fn event_number(&self) -> u64
        ensures { result ≡ self.now.event_number }
    {
        self.event_number
    }

    /// Returns the calls of the hand and their replies, in order. Takes no memory and never blocks.
    pub fn notes(&self) -> &[Note<T>]
        ensures { result.now ≡ self.now.notes }
    {
        self.notes.as_slice()
    }
}

// Makes this many hands of that event, which are numbered from 0 on.
pub(super) fn new_hands<T>(
    count: usize,
    event_number: u64,
    alloc: Global,
) -> Result<Vec<Hand<T>>, AllocError>
    ensures { IfOk result (λ hands. hands.items ≡ new_hands event_number count) }
{
    let mut hands = Vec::with_capacity(alloc, count)?;
    for number in 0..count {
        hands.push_reserved(Hand::new(number, event_number, alloc));
    }
    Ok(hands)
}

impl<T: Copy + Eq> Hand<T> {
    // Performs one call, and notes the call with its reply. The task that it wakes last is woken once the lock is given back.
    #[inline(always)]
    pub(super) fn perform<R: Wait>(
        &mut self,
        rt: &R,
        lock: &Lock<RecordedState<T>>,
        call: StepCall<T>,
    ) -> Result<RecordedReply<T>, RecordError>
        ensures noted { IfOk result (λ reply. self.new ≡ noted self.old (without_task call) reply) }
        ensures kind { IfOk result (λ reply. IsReplyTo (without_task call) reply) }
        ensures unchanged { OnErr result (self.new ≡ self.old) }
        ensures memory { IfErr result (λ error. error ≡ RecordError.Memory) }
    {
        step!(lock, rt, state, waking => self.note_step(&mut *state, call, &mut waking))
    }

    // Makes one step, and notes the step with its reply. Room for the note is made first, so a failure leaves queue, record
    // and notes as they were.
    #[inline(always)]
    pub(super) fn note_step<C, P: MakesStep<T, C>>(
        &mut self,
        state: &mut RecordedState<T>,
        step: P,
        beside: &mut C,
    ) -> Result<RecordedReply<T>, RecordError>
        ensures noted { IfOk result (λ reply. self.new ≡ noted self.old (P.call step) reply) }
        ensures kind { IfOk result (λ reply. IsReplyTo (P.call step) reply) }
        ensures step { IfOk result (λ reply.
            StepsOfSome (P.steps step) beside.old reply beside.new) }
        ensures unchanged { OnErr result (self.new ≡ self.old) }
        ensures beside_unchanged { OnErr result (beside.new ≡ beside.old) }
        ensures memory { IfErr result (λ error. error ≡ RecordError.Memory) }
    {
        self.notes.reserve(1)?;
        let entry = state.record_step(self.number, step, beside)?;
        self.notes.push_reserved(Note::of(&entry));
        Ok(entry.reply)
    }
}
