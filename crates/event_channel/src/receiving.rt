//! Receives that wait for a message.
ghost use Rattle.std.specs.Prelude.{◌≡◌, ◌<◌, None, true, false, vec_capacity, vec_len, IfSome, IsTrue};
ghost use Rattle.event_channel.specs.Calls.{LeavesReceivers, ReceivesOne, TakesMany, calls, received_at_once, receiver_key};
ghost use Rattle.event_channel.specs.Many.{Collects};
ghost use Rattle.event_channel.specs.Messages.{for_one};
ghost use Rattle.event_channel.specs.Steps.{FindsNone};
ghost use Rattle.event_channel.specs.declared.call.ChannelCall.TheVariants.{ReceiveOrWait};
ghost use Rattle.event_wait.specs.Attempted.{Attempts, LeavesBy};

use crate::error::TryRecvError;
use crate::messages::Messages;
use event_history::{Attempt, Request};
use event_queue::{Key, ListenError, TaskExchange, WakeSink};
use event_wait::{Attempted, Task};
use std::marker::Model;

/// The request of a receiver for one message, or of a stream for all: its place in its queue, and how often it was notified and
/// found nothing. A contract sees whether the request is of a stream, and the place.
#[derive(Drop)]
pub(crate) struct Receiving {
    is_stream: bool,
    key: Option<Key>,
    losses: u32,
}

impl Model for Receiving {
    ghost use Rattle.std.specs.Prelude.{Bool};
    ghost use Rattle.event_channel.specs.Asking.{Asking};

    ghost Value = { Asking Bool };

    ghost view = { λ receiving. record { asked = receiving.is_stream; key = receiving.key } };
}

impl Receiving {
    pub(crate) fn one() -> Self
        ensures asked { result.asked ≡ false }
        ensures key { result.key ≡ None }
    {
        Receiving {
            is_stream: false,
            key: None,
            losses: 0,
        }
    }

    pub(crate) fn stream() -> Self
        ensures asked { result.asked ≡ true }
        ensures key { result.key ≡ None }
    {
        Receiving {
            is_stream: true,
            key: None,
            losses: 0,
        }
    }

    /// Returns whether the receiver or stream has no place in its queue.
    #[inline(always)]
    pub(crate) fn has_no_place(&self) -> bool
        ensures { IsTrue result → self.now.key ≡ None }
    {
        self.key.is_none()
    }
}

// Receives a message, or has the receiver or stream wait in its queue.
fn receive_or_wait<T, W: Drop, C, X: TaskExchange<W, C>, K: WakeSink<W>>(
    is_stream: bool,
    key: Option<Key>,
    losses: &mut u32,
    state: &mut Messages<T, W>,
    exchange: &X,
    on: &mut C,
    sink: &mut K,
) -> Attempted<Option<T>, ListenError>
    ensures receives { calls state.old (ReceiveOrWait is_stream key result) state.new }
    ensures exchanges { Attempts (X.exchanged exchange.now) on.old result on.new }
{
    if is_stream {
        return state.next_or_wait(key, exchange, on, sink);
    }
    state.pop_or_wait(key, losses, exchange, on, sink)
}

// Receives a message, if one is there for the receiver. A stream is a newcomer here.
fn receive_at_once<T, W: Drop, K: WakeSink<W>>(
    is_stream: bool,
    key: Option<Key>,
    state: &mut Messages<T, W>,
    sink: &mut K,
) -> Option<Option<T>>
    ensures { ReceivesOne (receiver_key is_stream key) (received_at_once result) state.old
        state.new }
{
    let key = if is_stream { None } else { key };
    match state.pop_by(key, sink) {
        Ok(message) => Some(Some(message)),
        Err(TryRecvError::Empty) => None,
        Err(TryRecvError::Closed) => Some(None),
    }
}

// Takes the receiver or stream out of its queue.
fn leave<T, W: Drop, K: WakeSink<W>>(
    is_stream: bool,
    key: Option<Key>,
    state: &mut Messages<T, W>,
    sink: &mut K,
)
    ensures { LeavesReceivers is_stream key state.old state.new }
{
    if is_stream {
        return state.cancel_stream(key, sink);
    }
    state.cancel_receiver(key, sink);
}

impl<T> Request<Messages<T, Task>> for Receiving {
    // A message, or the end: there is no message, and the channel is closed.
    type Output = Option<T>;

    type Refusal = ListenError;

    ghost use Rattle.event_channel.specs.Asking.{AsksOn};
    ghost use Rattle.event_channel.specs.Places.{WaitsAt, receiver_at};
    ghost use Rattle.event_channel.specs.Requests.{NotRefused, ReceivesOrLeaves, ReceivesOrWaits};

    ghost succeeds = { λ before _ after. AsksOn before after };

    ghost waits = { AsksOn };

    ghost leaves = { λ before _ after. AsksOn before after };

    // The hand of the request waits in the place of the request.
    ghost follows = { λ receiving. WaitsAt (receiver_at receiving.asked receiving.key) };

    ghost attempting = { λ receiving. ReceivesOrWaits receiving.asked };

    ghost leaving = { λ receiving. NotRefused ReceivesOrLeaves receiving.asked };

    fn attempt_or_wait<C, X: TaskExchange<Task, C>, K: WakeSink<Task>>(
        &mut self,
        state: &mut Messages<T, Task>,
        exchange: &X,
        on: &mut C,
        sink: &mut K,
    ) -> Attempted<Option<T>, ListenError> {
        let losses = &mut self.losses;
        let attempted = receive_or_wait(
            self.is_stream,
            self.key,
            losses,
            state,
            exchange,
            on,
            sink,
        );
        self.key = attempted.key();
        attempted
    }

    fn leave<K: WakeSink<Task>>(
        &mut self,
        state: &mut Messages<T, Task>,
        sink: &mut K,
    ) -> Result<Option<Option<T>>, ListenError> {
        let key = self.key.take();
        let received = receive_at_once(self.is_stream, key, state, sink);
        leave(self.is_stream, key, state, sink);
        Ok(received)
    }
}

impl<T> Attempt<Messages<T, Task>> for Receiving {
    ghost use Rattle.event_channel.specs.Asking.{HasPlace};
    ghost use Rattle.event_channel.specs.Requests.{GivesUpReceiving, TriesToReceive};

    ghost has_place = { HasPlace };

    ghost trying = { λ receiving. TriesToReceive receiving.asked };

    ghost giving_up = { λ receiving. GivesUpReceiving receiving.asked };

    fn is_waiting(&self) -> bool {
        self.key.is_some()
    }

    #[inline(always)]
    fn attempt<K: WakeSink<Task>>(
        &mut self,
        state: &mut Messages<T, Task>,
        sink: &mut K,
    ) -> Option<Option<T>> {
        match state.pop(sink) {
            Ok(message) => Some(Some(message)),
            Err(TryRecvError::Empty) => None,
            Err(TryRecvError::Closed) => Some(None),
        }
    }

    fn give_up<K: WakeSink<Task>>(&mut self, state: &mut Messages<T, Task>, sink: &mut K) {
        leave(self.is_stream, self.key.take(), state, sink);
    }
}

/// The request of a receiver for many messages at once: its place in its queue, and the vector into which the messages go. A
/// contract sees the vector, how many messages beside the first the receiver takes at most, and the place.
#[derive(Drop)]
pub(crate) struct ReceivingMany<T> {
    key: Option<Key>,
    losses: u32,
    into: Vec<T>,
    more: usize,
}

impl<T> Model for ReceivingMany<T> {
    ghost use Rattle.event_channel.specs.Asking.{Asking};
    ghost use Rattle.event_channel.specs.Many.{Many};

    ghost Value = { Asking (Many T) };

    ghost view = { λ many. record {
      asked = record { into = many.into.items; more = many.more };
      key = many.key;
    } };
}

impl<T> ReceivingMany<T> {
    /// Makes a request of a vector that has room for one message at least.
    pub(crate) fn new(into: Vec<T>, more: usize) -> Self
        ensures into { result.asked.into ≡ into.items }
        ensures more { result.asked.more ≡ more }
        ensures key { result.key ≡ None }
    {
        ReceivingMany {
            key: None,
            losses: 0,
            into,
            more,
        }
    }

    pub(crate) fn into_messages(self) -> Vec<T>
        ensures { result.items ≡ self.asked.into }
    {
        let ReceivingMany {
            key: _,
            losses: _,
            into,
            more: _,
        } = self;
        into
    }
}

// Takes the first message, if one is there for the receiver with this key, and as many more as the receiver may. The receiver
// keeps its place in the queue. Counts no refused newcomer.
fn take<T, W: Drop, K: WakeSink<W>>(
    into: &mut Vec<T>,
    more: usize,
    key: Option<Key>,
    state: &mut Messages<T, W>,
    sink: &mut K,
) -> Option<Option<usize>>
    requires room { vec_len into.old < vec_capacity into.old }
    ensures collects { LeavesBy Collects (record { into = into.old.items; more = more }) result
        (record { into = into.new.items; more = more }) }
    ensures takes { IfSome result (λ output. TakesMany key output state.old state.new) }
    ensures nothing { result ≡ None → state.new ≡ state.old }
    ensures none { result ≡ None → FindsNone (for_one key state.old) state.old TryRecvError.Empty }
{
    match state.pop_as(key, sink) {
        Ok(message) => {
            into.push_reserved(message);
            Some(Some(1 + state.pop_into_as(key, into, more, sink)))
        }
        Err(TryRecvError::Empty) => None,
        Err(TryRecvError::Closed) => Some(None),
    }
}

impl<T> Request<Messages<T, Task>> for ReceivingMany<T> {
    // How many messages were received, or the end.
    type Output = Option<usize>;

    type Refusal = ListenError;

    ghost use Rattle.event_wait.specs.Attempted.{LeavesBy};
    ghost use Rattle.event_channel.specs.Asking.{AsksOn};
    ghost use Rattle.event_channel.specs.Many.{Collects};
    ghost use Rattle.event_channel.specs.Places.{WaitsAt, receiver_at};
    ghost use Rattle.event_channel.specs.Requests.{NotRefused, ReceivesManyOrLeaves, ReceivesManyOrWaits};

    ghost succeeds = { λ before output after. Collects before.asked output after.asked };

    ghost waits = { AsksOn };

    ghost leaves = { λ before answer after. LeavesBy Collects before.asked answer after.asked };

    // The hand of the request waits in the place of the request.
    ghost follows = { λ many. WaitsAt (receiver_at false many.key) };

    ghost attempting = { λ many. ReceivesManyOrWaits many.asked };

    ghost leaving = { λ many. NotRefused ReceivesManyOrLeaves many.asked };

    // The receiver leaves the queue once it has all messages that it takes, so nobody is notified of these messages. Room for a
    // message was reserved before: a request without any room is refused.
    fn attempt_or_wait<C, X: TaskExchange<Task, C>, K: WakeSink<Task>>(
        &mut self,
        state: &mut Messages<T, Task>,
        exchange: &X,
        on: &mut C,
        sink: &mut K,
    ) -> Attempted<Option<usize>, ListenError> {
        let key = self.key;
        if self.into.len() == self.into.capacity() {
            self.key = None;
            state.cancel_receiver(key, sink);
            return Attempted::Refused(ListenError::Memory);
        }
        if let Some(output) = take(&mut self.into, self.more, key, state, sink) {
            self.key = None;
            state.cancel_receiver(key, sink);
            return Attempted::Done(output);
        }
        match receive_or_wait(false, key, &mut self.losses, state, exchange, on, sink) {
            Attempted::Done(_received) => unreachable!(),
            Attempted::Waits(key) => {
                self.key = Some(key);
                Attempted::Waits(key)
            }
            Attempted::Absent => {
                self.key = None;
                Attempted::Absent
            }
            Attempted::Refused(error) => {
                self.key = None;
                Attempted::Refused(error)
            }
        }
    }

    fn leave<K: WakeSink<Task>>(
        &mut self,
        state: &mut Messages<T, Task>,
        sink: &mut K,
    ) -> Result<Option<Option<usize>>, ListenError> {
        let key = self.key.take();
        if self.into.len() == self.into.capacity() {
            state.cancel_receiver(key, sink);
            return Ok(None);
        }
        let received = take(&mut self.into, self.more, key, state, sink);
        state.cancel_receiver(key, sink);
        Ok(received)
    }
}

impl<T> Attempt<Messages<T, Task>> for ReceivingMany<T> {
    ghost use Rattle.event_channel.specs.Asking.{HasPlace};
    ghost use Rattle.event_channel.specs.Requests.{GivesUpReceivingMany, TriesToReceiveMany};

    ghost has_place = { HasPlace };

    ghost trying = { λ many. TriesToReceiveMany many.asked };

    ghost giving_up = { λ many. GivesUpReceivingMany many.asked };

    fn is_waiting(&self) -> bool {
        self.key.is_some()
    }

    fn attempt<K: WakeSink<Task>>(
        &mut self,
        state: &mut Messages<T, Task>,
        sink: &mut K,
    ) -> Option<Option<usize>> {
        if self.into.len() == self.into.capacity() {
            return None;
        }
        match Messages::pop(state, sink) {
            Ok(message) => {
                self.into.push_reserved(message);
                Some(Some(1 + state.pop_into(&mut self.into, self.more, sink)))
            }
            Err(TryRecvError::Empty) => None,
            Err(TryRecvError::Closed) => Some(None),
        }
    }

    fn give_up<K: WakeSink<Task>>(&mut self, state: &mut Messages<T, Task>, sink: &mut K) {
        state.cancel_receiver(self.key.take(), sink);
    }
}
