//! Senders and receivers that wait where there is no room or no message for them.
ghost use Rattle.std.specs.Prelude.{◌≡◌, None, Some, length, IfErr};
ghost use Rattle.std.specs.List.{FoldsTo};
ghost use Rattle.event_wait.specs.Line.{LeavesThenTells, woken_by_leaving};
ghost use Rattle.event_wait.specs.Attempted.{Attempts, OnDone, OnRefused, OnUndone};
ghost use Rattle.event_channel.specs.Calls.{ReceivesOne, SendsOne, answer_of};
ghost use Rattle.event_channel.specs.Errors.{IsUnsentAtOnce};
ghost use Rattle.event_channel.specs.Messages.{room_in};
ghost use Rattle.event_channel.specs.Steps.{KeepsAllButSenders, KeepsAllButReceivers, KeepsAllButStreams};
ghost use Rattle.event_channel.specs.Waits.{Empties, ReceiverLeaves, Receives, ReceivesInTurn, SenderLeaves, SendsInTurn, woken_by_receiver, woken_by_receiver_leaving, woken_by_receiving, woken_by_sending};

use super::Messages;
use super::turns::{left_for_newcomers, strike, wait_at_place, wait_in_turn};
use crate::error::{SendError, SendReason, TryRecvError};
use event_queue::{Key, ListenError, TaskExchange, WakeSink};
use event_wait::Attempted;
use event_wait::waiters::{leave, leave_then_tell, tell_all, wait_in_line};

// Puts a value back into the slot from which it was taken.
pub(crate) fn put_back<T>(slot: &mut Option<T>, value: T)
    requires { slot.old ≡ None }
    ensures { slot.new ≡ Some value }
{
    match slot.replace(value) {
        None => {}
        _ => unreachable!(),
    }
}

impl<T, W: Drop> Messages<T, W> {
    /// Sends the message in a slot as [`push`](Messages::push) does; a notified sender also takes a place that is due to it.
    /// Where there is no room for the message its sender waits, with the task that the exchange makes. A message that is not
    /// sent stays in its slot. A sender whose slot is empty is absent. A sender in no queue is absent, too, where there is
    /// room, but each place is due to others: that sender tries again. A sender tries at each call, notified or not. A sender
    /// that was notified in vain goes to the end of the queue, and has lost once more: it starves if it lost
    /// [`PATIENCE`](crate::PATIENCE) times. A sender that does not wait is in the queue no more, and another sender is notified
    /// in its place if a place is due. The call may allocate for a sender that is new or starves.
    pub fn push_or_wait<C, X: TaskExchange<W, C>, S: WakeSink<W>>(
        &mut self,
        message: &mut Option<T>,
        key: Option<Key>,
        losses: &mut u32,
        exchange: &X,
        on: &mut C,
        sink: &mut S,
    ) -> Attempted<Result<(), SendReason>, ListenError>
        ensures sends { SendsInTurn (X.exchanged exchange.now) message.old key self.old losses.old
            on.old result self.new losses.new on.new }
        ensures absent { message.old ≡ None → result ≡ Attempted.Absent }
        ensures ends { OnDone result (λ sent. Empties message.old sent message.new) }
        ensures waits { OnUndone result (message.new ≡ message.old) }
        ensures refused { OnRefused result (message.new ≡ message.old) }
        ensures exchanges { Attempts (X.exchanged exchange.now) on.old result on.new }
        ensures wakes { FoldsTo S.woke sink.old
            (woken_by_sending message.old key self.old result self.new) sink.new }
    {
        let Some(unsent) = message.take() else {
            self.cancel_sender(key, sink);
            return Attempted::Absent;
        };
        match self.push_as(key, unsent, sink) {
            Ok(()) => {
                self.cancel_sender(key, sink);
                Attempted::Done(Ok(()))
            }
            Err(error) => {
                let reason = error.reason;
                put_back(message, error.into_inner());
                match reason {
                    SendReason::Full if !self.is_full() => match key {
                        Some(key) => wait_at_place(&mut self.senders, key, exchange, on),
                        None => {
                            self.forbear_sending(sink);
                            Attempted::Absent
                        }
                    },
                    SendReason::Full => {
                        let line = &mut self.senders;
                        let starving = &mut self.starving_senders;
                        match wait_in_turn(line, starving, key, losses, exchange, on) {
                            Ok(key) => Attempted::Waits(key),
                            Err(error) => Attempted::Refused(error),
                        }
                    }
                    reason => {
                        self.cancel_sender(key, sink);
                        Attempted::Done(Err(reason))
                    }
                }
            }
        }
    }

    /// Receives a message as [`pop`](Messages::pop) does; a notified receiver also takes a message that is due to it. A
    /// receiver for which there is no message waits, as a sender does: a notified receiver has lost once more, and starves if
    /// it lost [`PATIENCE`](crate::PATIENCE) times. A receiver in no queue is absent where there are messages, but each is due
    /// to others: that receiver tries again. `None` is the end: there is no message, and the channel is closed, so no message
    /// will be sent.
    pub fn pop_or_wait<C, X: TaskExchange<W, C>, S: WakeSink<W>>(
        &mut self,
        key: Option<Key>,
        losses: &mut u32,
        exchange: &X,
        on: &mut C,
        sink: &mut S,
    ) -> Attempted<Option<T>, ListenError>
        ensures receives { ReceivesInTurn (X.exchanged exchange.now) key self.old losses.old
            on.old result self.new losses.new on.new }
        ensures exchanges { Attempts (X.exchanged exchange.now) on.old result on.new }
        ensures wakes { FoldsTo S.woke sink.old
            (woken_by_receiver key self.old result self.new) sink.new }
    {
        match self.pop_as(key, sink) {
            Ok(message) => {
                self.cancel_receiver(key, sink);
                Attempted::Done(Some(message))
            }
            Err(TryRecvError::Empty) if !self.is_empty() => match key {
                Some(key) => wait_at_place(&mut self.receivers, key, exchange, on),
                None => {
                    self.forbear_receiving(sink);
                    Attempted::Absent
                }
            },
            Err(TryRecvError::Empty) => {
                let line = &mut self.receivers;
                let starving = &mut self.starving_receivers;
                match wait_in_turn(line, starving, key, losses, exchange, on) {
                    Ok(key) => Attempted::Waits(key),
                    Err(error) => Attempted::Refused(error),
                }
            }
            Err(TryRecvError::Closed) => {
                self.cancel_receiver(key, sink);
                Attempted::Done(None)
            }
        }
    }

    /// Receives as [`pop_or_wait`](Messages::pop_or_wait) does, for a stream, which waits in the queue of the streams. A stream
    /// takes a message that is there for newcomers, and never waits where there are messages that are due to others: it leaves
    /// its queue then, and tries again.
    pub fn next_or_wait<C, X: TaskExchange<W, C>, S: WakeSink<W>>(
        &mut self,
        key: Option<Key>,
        exchange: &X,
        on: &mut C,
        sink: &mut S,
    ) -> Attempted<Option<T>, ListenError>
        ensures receives { Receives (X.exchanged exchange.now) key self.old self.old.streams on.old
            result (record self.new { streams = self.old.streams }) self.new.streams on.new }
        ensures exchanges { Attempts (X.exchanged exchange.now) on.old result on.new }
        ensures wakes { FoldsTo S.woke sink.old
            (woken_by_receiving key self.old self.old.streams result self.new) sink.new }
    {
        match self.pop_as(None, sink) {
            Ok(message) => {
                self.cancel_stream(key, sink);
                Attempted::Done(Some(message))
            }
            Err(TryRecvError::Empty) if !self.is_empty() => {
                self.forbear_receiving(sink);
                leave(&mut self.streams, key);
                Attempted::Absent
            }
            Err(TryRecvError::Empty) => {
                match wait_in_line(&mut self.streams, key, exchange, on) {
                    Ok(key) => Attempted::Waits(key),
                    Err(error) => Attempted::Refused(error),
                }
            }
            Err(TryRecvError::Closed) => {
                self.cancel_stream(key, sink);
                Attempted::Done(None)
            }
        }
    }

    /// Sends as [`push`](Messages::push) does, for a sender that may have a place in the queue of the senders: a notified
    /// sender also takes a place that is due to it.
    pub fn push_by<S: WakeSink<W>>(
        &mut self,
        key: Option<Key>,
        message: T,
        sink: &mut S,
    ) -> Result<(), SendError<T>>
        ensures sends { SendsOne key message (answer_of result) self.old self.new }
        ensures returned { IfErr result (λ error. error.message ≡ message) }
        ensures at_once { IfErr result (λ error. IsUnsentAtOnce error.reason) }
    {
        match key {
            Some(_) => self.push_as(key, message, sink),
            None => self.push(message, sink),
        }
    }

    /// Takes the sender with this key, if there is a key, out of its queue: the sender starves no more. If fewer senders are
    /// notified now than there are free places, notifies and wakes other senders.
    #[inline(always)]
    pub fn cancel_sender<S: WakeSink<W>>(&mut self, key: Option<Key>, sink: &mut S)
        ensures left { SenderLeaves key self.old self.new }
        ensures wakes { FoldsTo S.woke sink.old
            (woken_by_leaving key (room_in self.new) self.old.senders) sink.new }
        ensures others { KeepsAllButSenders self.old self.new }
    {
        let room = self.capacity - self.items.len();
        strike(&mut self.starving_senders, key);
        leave_then_tell(&mut self.senders, key, room, sink);
    }

    /// Receives as [`pop`](Messages::pop) does, for a receiver that may have a place in the queue of the receivers: a notified
    /// receiver also takes a message that is due to it.
    pub fn pop_by<S: WakeSink<W>>(
        &mut self,
        key: Option<Key>,
        sink: &mut S,
    ) -> Result<T, TryRecvError>
        ensures receives { ReceivesOne key result self.old self.new }
    {
        match key {
            Some(_) => self.pop_as(key, sink),
            None => self.pop(sink),
        }
    }

    /// Takes the receiver with this key, if there is a key, out of its queue: the receiver starves no more. If fewer receivers
    /// are notified now than there are messages, notifies and wakes other receivers. If a message is there for newcomers now,
    /// notifies and wakes all streams.
    #[inline(always)]
    pub fn cancel_receiver<S: WakeSink<W>>(&mut self, key: Option<Key>, sink: &mut S)
        ensures left { ReceiverLeaves key self.old self.new }
        ensures wakes { FoldsTo S.woke sink.old
            (woken_by_receiver_leaving key self.old self.new) sink.new }
        ensures others { KeepsAllButReceivers self.old self.new }
    {
        if self.starving_receivers.len() != 0 {
            return self.cancel_in_turn(key, sink);
        }
        leave_then_tell(&mut self.receivers, key, self.items.len(), sink);
    }

    // Takes a receiver out of its queue as `cancel_receiver` does, where a receiver starves.
    #[cold]
    #[inline(never)]
    fn cancel_in_turn<S: WakeSink<W>>(&mut self, key: Option<Key>, sink: &mut S)
        ensures left { ReceiverLeaves key self.old self.new }
        ensures wakes { FoldsTo S.woke sink.old
            (woken_by_receiver_leaving key self.old self.new) sink.new }
        ensures others { KeepsAllButReceivers self.old self.new }
    {
        let Some(gone) = key else {
            return;
        };
        let messages = self.items.len();
        strike(&mut self.starving_receivers, Some(gone));
        leave_then_tell(&mut self.receivers, Some(gone), messages, sink);
        let starving = &self.starving_receivers;
        if left_for_newcomers(self.is_closed, starving, &self.receivers, messages) > 0 {
            tell_all(&mut self.streams, sink);
        }
    }

    /// Takes the stream with this key, if there is a key, out of its queue. Nobody need be notified in its place: where there
    /// is a message for newcomers, no stream waits.
    #[inline(always)]
    pub fn cancel_stream<S: WakeSink<W>>(&mut self, key: Option<Key>, sink: &mut S)
        ensures left { LeavesThenTells key (length self.new.messages) self.old.streams
            self.new.streams }
        ensures wakes { FoldsTo S.woke sink.old
            (woken_by_leaving key (length self.new.messages) self.old.streams) sink.new }
        ensures others { KeepsAllButStreams self.old self.new }
    {
        leave_then_tell(&mut self.streams, key, self.items.len(), sink);
    }
}
