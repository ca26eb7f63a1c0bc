//! A queue with its record.
ghost use Rattle.std.specs.Prelude.{◌≡◌, ◌+◌, ◌≤◌, true, [], ◌∷◌, ◌++◌, length, IsTrue, OnOk, OnErr, IfOk, IfErr, vec_len, vec_capacity};
ghost use Rattle.std.specs.List.{FoldsTo};
ghost use Rattle.event_queue.specs.Queue.{IsQueue, IsAbsent};
ghost use Rattle.event_queue.specs.Remove.{woken_by_removal};
ghost use Rattle.event_listener.specs.recording.Step.{StepsAnySpare, IsReplyTo, without_task, task_of, woken_by_call};
ghost use Rattle.event_listener.specs.recording.Exchange.{StepsBeside};
ghost use Rattle.event_listener.specs.recording.Replay.{ReplaysTo, replays};
ghost use Rattle.event_listener.specs.recording.State.{Ends, HandlessAreEnds};

use super::call::{RecordedCall, StepCall};
use super::entry::Entry;
use super::error::RecordError;
use super::reply::RecordedReply;
use super::step::{MakesStep, perform_removal};
use event_queue::{Key, List, WakeSink};
use event_wait::Task;
use std::alloc::Global;
use std::marker::Model;

/// A queue and the record of every step that it made: what stands under the lock of a
/// [`RecordedEvent`](crate::RecordedEvent).
///
/// The type keeps three things: that the record replays to the queue, that each entry without a hand is the removal of a
/// listener that was dropped, and room to record the removal of each listener in the queue. Only
/// [`apply`](RecordedState::apply), [`apply_end`](RecordedState::apply_end) and the polls of this crate change a state; each
/// makes one step of the queue and records it. No call takes a lock, and none blocks unless its sink does. A contract sees a
/// state as its entries and its queue, except how much of the queue is spare.
#[derive(Drop)]
pub struct RecordedState<T: Copy + Eq> {
    list: List<T, Task>,
    entries: Vec<Entry<T>>,
}

impl<T: Copy + Eq> Model for RecordedState<T> {
    ghost use Rattle.std.specs.Prelude.{vec_len, vec_capacity};
    ghost use Rattle.event_listener.specs.recording.State.{Recording, IsRecording};

    ghost Value = { Recording T };

    ghost view = { λ state. record {
      entries = state.entries.items;
      queue = record state.list { spare = 0 };
    } };

    ghost invariant = { λ state. IsRecording T.eq state.entries.items
        (record state.list { spare = 0 }) (vec_len state.entries) (vec_capacity state.entries) };
}

// Makes room for this many new entries, and for one more for each listener.
fn make_room<T>(
    entries: &mut Vec<Entry<T>>,
    listeners: usize,
    new: usize,
) -> Result<(), RecordError>
    ensures items { entries.new.items ≡ entries.old.items }
    ensures len { vec_len entries.new ≡ vec_len entries.old }
    ensures room { OnOk result (vec_len entries.new + new + listeners ≤ vec_capacity entries.new) }
    ensures kept { vec_capacity entries.old ≤ vec_capacity entries.new }
    ensures memory { IfErr result (λ error. error ≡ RecordError.Memory) }
{
    let Some(wanted) = new.checked_add(listeners) else {
        return Err(RecordError::Memory);
    };
    Ok(entries.reserve(wanted)?)
}

impl<T: Copy + Eq> RecordedState<T> {
    /// Makes an empty queue, whose first listener gets the serial number 0, and an empty record. Takes no memory.
    pub fn new(alloc: Global) -> Self
        ensures empty { result ≡ record {
          entries = [];
          queue = record { told = []; waiting = []; next_serial = 0; spare = 0 };
        } }
    {
        RecordedState {
            list: List::new(alloc),
            entries: Vec::new(alloc),
        }
    }

    /// Makes one call on the queue, records it as a call of that hand, and returns the queue's reply.
    ///
    /// The tasks that the call wakes are given to `sink`. All room is made first: for the entry, and for a new listener and
    /// the entry of its removal. If there is no memory for that, the call returns [`RecordError::Memory`], makes no step,
    /// drops the task of `call`, and leaves the queue, the record and the sink as they were. Returns no other error: used up
    /// serial numbers are a reply, which is recorded.
    #[inline(always)]
    pub fn apply<S: WakeSink<Task>>(
        &mut self,
        hand: usize,
        call: StepCall<T>,
        sink: &mut S,
    ) -> Result<RecordedReply<T>, RecordError>
        // The queue made this one step, the sink was handed the tasks that it woke, and the step is the record's last
        // entry.
        ensures step { IfOk result (λ reply.
            StepsAnySpare self.old.queue (without_task call) (task_of call) reply self.new.queue) }
        ensures wakes { OnOk result (FoldsTo S.woke sink.old
            (woken_by_call (without_task call) self.old.queue) sink.new) }
        ensures recorded { IfOk result (λ reply.
            self.new.entries ≡ self.old.entries ++ record {
              hand = Some hand;
              call = without_task call;
              reply = reply;
            } ∷ []) }
        ensures kind { IfOk result (λ reply. IsReplyTo (without_task call) reply) }

        // A refusal changes nothing.
        ensures memory { IfErr result (λ error. error ≡ RecordError.Memory) }
        ensures unchanged { OnErr result (self.new ≡ self.old) }
        ensures sink_unchanged { OnErr result (sink.new ≡ sink.old) }
    {
        Ok(self.record_step(hand, call, sink)?.reply)
    }

    // Makes one step, records it as a call of that hand, and returns the entry. A failure leaves everything as it was.
    #[inline(always)]
    pub(super) fn record_step<C, P: MakesStep<T, C>>(
        &mut self,
        hand: usize,
        step: P,
        beside: &mut C,
    ) -> Result<Entry<T>, RecordError>
        ensures step { IfOk result (λ entry.
            StepsBeside (P.steps step) self.old.queue beside.old entry.reply
            self.new.queue beside.new) }
        ensures recorded { IfOk result (λ entry.
            self.new.entries ≡ self.old.entries ++ entry ∷ []) }
        ensures entry { IfOk result (λ entry. entry ≡ record {
          hand = Some hand;
          call = P.call step;
          reply = entry.reply;
        }) }
        ensures kind { IfOk result (λ entry. IsReplyTo (P.call step) entry.reply) }
        ensures memory { IfErr result (λ error. error ≡ RecordError.Memory) }
        ensures unchanged { OnErr result (self.new ≡ self.old) }
        ensures beside_unchanged { OnErr result (beside.new ≡ beside.old) }
    {
        let call = step.recorded();
        let newcomers = call.newcomers();
        let listeners = self.list.total_listeners();
        make_room(&mut self.entries, listeners, 1 + newcomers)?;
        self.list.reserve(newcomers)?;
        let reply = step.make(&mut self.list, beside);
        let entry = Entry::by_hand(hand, call, reply);
        self.entries.push_reserved(entry);
        Ok(entry)
    }

    /// Removes a listener that is dropped, propagates its notification if it was notified, and records the removal without a
    /// hand.
    ///
    /// The task that the propagation wakes is given to `sink`. If no listener has that key, nothing changes. Takes no memory,
    /// because room for the entry was made when the listener was inserted.
    pub fn apply_end<S: WakeSink<Task>>(&mut self, key: Key, sink: &mut S)
        ensures ends { ¬ IsAbsent key self.old.queue → Ends self.old key self.new }
        ensures wakes { FoldsTo S.woke sink.old
            (woken_by_removal key true self.old.queue) sink.new }

        // A key that no listener has changes nothing.
        ensures unchanged { IsAbsent key self.old.queue → self.new ≡ self.old }
        ensures sink_unchanged { IsAbsent key self.old.queue → sink.new ≡ sink.old }
    {
        let Some(was) = perform_removal(&mut self.list, key, true, sink) else {
            return;
        };
        self.entries.push_reserved(Entry {
            hand: None,
            call: RecordedCall::Remove {
                key,
                propagate: true,
            },
            reply: RecordedReply::Removed(Some(was)),
        });
    }

    /// Returns the record: an entry for each step, in the order in which the queue made the steps. Takes no memory.
    pub fn entries(&self) -> &[Entry<T>]
        ensures value { result.now ≡ self.now.entries }
        ensures replays { ReplaysTo T.eq self.now.entries self.now.queue }
        ensures ends { HandlessAreEnds self.now.entries }
    {
        self.entries.as_slice()
    }

    /// Returns how many listeners are in the queue, notified or waiting. Takes no memory, and is not recorded.
    pub fn total_listeners(&self) -> usize
        ensures value { result ≡ length self.now.queue.told + length self.now.queue.waiting }
        ensures queue { IsQueue self.now.queue }
    {
        self.list.total_listeners()
    }

    /// Returns the record alone, which replays, and each of whose entries without a hand is the removal of a listener that
    /// was dropped. The call drops the queue with its tasks and tags, takes no memory and never blocks.
    pub(crate) fn into_entries(self) -> Vec<Entry<T>>
        ensures value { result.items ≡ self.entries }
        ensures replays { IsTrue (replays T.eq result.items) }
        ensures ends { HandlessAreEnds result.items }
    {
        let RecordedState { list: _, entries } = self;
        entries
    }
}
