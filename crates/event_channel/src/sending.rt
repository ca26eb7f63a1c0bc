//! Sends that wait for room.
ghost use Rattle.std.specs.Prelude.{◌≡◌, None, Some, IsSome, IsTrue};
ghost use Rattle.event_channel.specs.Calls.{SendsOne, sent_at_once};
ghost use Rattle.event_channel.specs.Waits.{Empties};
ghost use Rattle.event_wait.specs.Attempted.{LeavesBy};

use crate::error::{SendError, SendReason};
use crate::messages::{Messages, put_back};
use event_history::{Attempt, Request};
use event_queue::{Key, ListenError, TaskExchange, WakeSink};
use event_wait::{Attempted, Task};
use std::marker::Model;

/// The request of a sender: the message that is to be sent, the place of the sender in the queue, and how often the sender was
/// notified and found no room. A contract sees the message until it is sent or returned, and the place.
#[derive(Drop)]
pub(crate) struct Sending<T> {
    message: Option<T>,
    key: Option<Key>,
    losses: u32,
}

impl<T> Model for Sending<T> {
    ghost use Rattle.std.specs.Prelude.{Option};
    ghost use Rattle.event_channel.specs.Asking.{Asking};

    ghost Value = { Asking (Option T) };

    ghost view = { λ sending. record { asked = sending.message; key = sending.key } };
}

impl<T> Sending<T> {
    pub(crate) fn new(message: T) -> Self
        ensures message { result.asked ≡ Some message }
        ensures key { result.key ≡ None }
    {
        Sending {
            message: Some(message),
            key: None,
            losses: 0,
        }
    }

    /// Returns whether the sender has no place in the queue.
    #[inline(always)]
    pub(crate) fn has_no_place(&self) -> bool
        ensures { IsTrue result → self.now.key ≡ None }
    {
        self.key.is_none()
    }

    /// Returns the error with the message, which was not sent for this reason.
    pub(crate) fn refuse(&mut self, reason: SendReason) -> SendError<T>
        requires { IsSome self.old.asked }
        ensures message { self.old.asked ≡ Some result.message }
        ensures reason { result.reason ≡ reason }
        ensures key { self.new.key ≡ self.old.key }
    {
        match self.message.take() {
            Some(message) => SendError::new(message, reason),
            None => unreachable!(),
        }
    }
}

// Sends the message in a slot, if there is a message and room for it. The sender may have a place in the queue, with this key.
#[inline(always)]
fn send_at_once<T, W: Drop, K: WakeSink<W>>(
    slot: &mut Option<T>,
    key: Option<Key>,
    state: &mut Messages<T, W>,
    sink: &mut K,
) -> Option<Result<(), SendReason>>
    ensures sends { (message : T) → slot.old ≡ Some message
        → SendsOne key message (sent_at_once result) state.old state.new }
    ensures absent { slot.old ≡ None → (result ≡ None) × (state.new ≡ state.old) }
    ensures empties { LeavesBy Empties slot.old result slot.new }
{
    let message = slot.take()?;
    match state.push_by(key, message, sink) {
        Ok(()) => Some(Ok(())),
        Err(error) => {
            let reason = error.reason;
            put_back(slot, error.into_inner());
            if reason == SendReason::Full {
                return None;
            }
            Some(Err(reason))
        }
    }
}

impl<T: Drop> Request<Messages<T, Task>> for Sending<T> {
    type Output = Result<(), SendReason>;

    type Refusal = ListenError;

    ghost use Rattle.event_channel.specs.Asking.{AsksOn};
    ghost use Rattle.event_channel.specs.Places.{WaitsAt, sender_at};
    ghost use Rattle.event_wait.specs.Attempted.{LeavesBy};
    ghost use Rattle.event_channel.specs.Requests.{NotRefused, SendsOrLeaves, SendsOrWaits};
    ghost use Rattle.event_channel.specs.Waits.{Empties};

    ghost succeeds = { λ before sent after. Empties before.asked sent after.asked };

    ghost waits = { AsksOn };

    ghost leaves = { λ before answer after. LeavesBy Empties before.asked answer after.asked };

    // The hand of the request waits in the place of the request.
    ghost follows = { λ sending. WaitsAt (sender_at sending.key) };

    ghost attempting = { λ sending. SendsOrWaits sending.asked };

    ghost leaving = { λ sending. NotRefused SendsOrLeaves sending.asked };

    fn attempt_or_wait<C, X: TaskExchange<Task, C>, K: WakeSink<Task>>(
        &mut self,
        state: &mut Messages<T, Task>,
        exchange: &X,
        on: &mut C,
        sink: &mut K,
    ) -> Attempted<Result<(), SendReason>, ListenError> {
        let (message, losses) = (&mut self.message, &mut self.losses);
        let attempted = state.push_or_wait(message, self.key, losses, exchange, on, sink);
        self.key = attempted.key();
        attempted
    }

    fn leave<K: WakeSink<Task>>(
        &mut self,
        state: &mut Messages<T, Task>,
        sink: &mut K,
    ) -> Result<Option<Result<(), SendReason>>, ListenError> {
        let key = self.key.take();
        let sent = send_at_once(&mut self.message, key, state, sink);
        state.cancel_sender(key, sink);
        Ok(sent)
    }
}

impl<T: Drop> Attempt<Messages<T, Task>> for Sending<T> {
    ghost use Rattle.event_channel.specs.Asking.{HasPlace};
    ghost use Rattle.event_channel.specs.Requests.{GivesUpSending, TriesToSend};

    ghost has_place = { HasPlace };

    ghost trying = { λ sending. TriesToSend sending.asked };

    ghost giving_up = { λ sending. GivesUpSending sending.asked };

    fn is_waiting(&self) -> bool {
        self.key.is_some()
    }

    #[inline(always)]
    fn attempt<K: WakeSink<Task>>(
        &mut self,
        state: &mut Messages<T, Task>,
        sink: &mut K,
    ) -> Option<Result<(), SendReason>> {
        send_at_once(&mut self.message, None, state, sink)
    }

    fn give_up<K: WakeSink<Task>>(&mut self, state: &mut Messages<T, Task>, sink: &mut K) {
        state.cancel_sender(self.key.take(), sink);
    }
}
