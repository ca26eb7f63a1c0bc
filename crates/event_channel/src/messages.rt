//! The state under the lock of a channel.
ghost use Rattle.std.specs.Prelude.{◌≡◌, ◌+◌, ◌-◌, ◌<◌, ◌≤◌, ◌↔◌, min, true, false, [], ◌∷◌, ◌++◌, Some, None, take, drop, length, vec_len, vec_capacity, IfOk, IfErr, OnOk, OnErr, IsTrue, IsFalse};
ghost use Rattle.std.specs.List.{FoldsTo};
ghost use Rattle.std.specs.VecDeque.{deque_capacity};
ghost use Rattle.event_wait.specs.Line.{woken_at_once};
ghost use Rattle.event_channel.specs.Errors.{IsUnsent, IsUnsentAtOnce};
ghost use Rattle.event_channel.specs.Forbearing.{Forbears, ForbearsSending, ReceiverStruckOff, RefusedFor, SenderStruckOff, woken_by_forbearing, woken_by_forbearing_sending, woken_by_refusal_for, woken_by_striking, woken_by_striking_sender};
ghost use Rattle.event_channel.specs.Messages.{NobodyWaitsInVain, IsFull, due_to_no_other, for_newcomers, for_one, limit_of, new_state, room_for_newcomers, room_for_one, room_in};
ghost use Rattle.event_channel.specs.Order.{IsReceivedInOrder};
ghost use Rattle.event_channel.specs.Steps.{Pushes, Refuses, RefusesAt, Forces, Takes, FindsNone, IsEmptyFor, Closes, woken_by_forcing, woken_by_pushing, woken_by_taking};
ghost use Rattle.event_channel.specs.Turns.{is_told};

mod turns;
mod waits;

use crate::error::{SendError, SendReason, TryRecvError};
use event_queue::{Key, List, WakeSink};
use event_wait::starving::forbear;
use event_wait::waiters::{tell_all, tell_more};
use std::alloc::{AllocError, AllocFailed, Global};
use std::collections::VecDeque;
use std::marker::Model;
use turns::{due_to_no_other, is_told, left_for_newcomers, strike};
pub(crate) use waits::put_back;

/// The state of a channel, with no lock and no thread: the messages that were sent and not received, first the one that is
/// received next; how many there may be at most; whether the channel is closed; and the queues of waiters.
///
/// After each call nobody waits in vain, as [`nobody_waits_in_vain`](Messages::nobody_waits_in_vain) says, and there are no more
/// messages than there may be. Where there is a limit below `usize::MAX`, each has its place from the beginning.
///
/// A waiter that is notified owns no message or place yet: it tries, and waits again if another caller was faster. A message
/// notifies one more receiver and all streams, so a waiter that was notified before and does not try keeps the message from
/// nobody for good. A message that is taken notifies senders in the same way.
///
/// A receiver that was notified and found nothing [`PATIENCE`](crate::PATIENCE) times starves. While a receiver in the queue starves, newcomers
/// take only messages that are not due to notified receivers: as many as there are more messages than notified receivers. A
/// stream is a newcomer. The same holds of senders and places. A forced send takes any place.
///
/// The number of newcomers that are refused for a starving waiter has a bound, so that a waiter that does not try again stops
/// nobody for good. The first of the starving waiters is struck off when [`FORBEARANCE`](crate::FORBEARANCE) newcomers were refused though a
/// message or place was there, or twice as many for each time that the waiter lost since it began to starve. From then on that
/// waiter does not starve. If it was notified it also leaves the queue, and the next waiter is notified in its place: when the
/// waiter that was struck off tries again, it is a newcomer. The last of the counted newcomers is refused, too. No newcomer
/// waits behind messages or places that are due to others: it tries again.
#[derive(Drop)]
pub struct Messages<T, W> {
    items: VecDeque<T>,
    capacity: usize,
    is_closed: bool,
    senders: List<(), W>,
    receivers: List<(), W>,
    streams: List<(), W>,
    starving_senders: Vec<(Key, u32), Global>,
    starving_receivers: Vec<(Key, u32), Global>,
}

impl<T, W> Model for Messages<T, W> {
    ghost use Rattle.std.specs.VecDeque.{deque_capacity};
    ghost use Rattle.event_channel.specs.Messages.{State, IsKept};

    ghost Value = { State T W };

    ghost view = { λ m. record {
      messages = m.items.items;
      capacity = m.capacity;
      is_closed = m.is_closed;
      senders = m.senders;
      receivers = m.receivers;
      streams = m.streams;
      starving_senders = m.starving_senders.items;
      starving_receivers = m.starving_receivers.items;
    } };

    ghost invariant = { λ m. IsKept (record {
      messages = m.items.items;
      capacity = m.capacity;
      is_closed = m.is_closed;
      senders = m.senders;
      receivers = m.receivers;
      streams = m.streams;
      starving_senders = m.starving_senders.items;
      starving_receivers = m.starving_receivers.items;
    }) (deque_capacity m.items) };
}

// Puts this message behind all others, and takes the first message out. Returns this message itself if there is no other.
fn replace_first<T>(items: &mut VecDeque<T>, message: T) -> T
    ensures moves { items.old.items ++ (message ∷ []) ≡ result ∷ items.new.items }
    ensures count { length items.new.items ≡ length items.old.items }
    ensures places { deque_capacity items.new ≡ deque_capacity items.old }
{
    match items.pop_front() {
        Some(first) => {
            items.push_back_reserved(message);
            first
        }
        None => message,
    }
}

// Moves the first `count` messages to the end of `into`.
fn move_first<T>(items: &mut VecDeque<T>, into: &mut Vec<T>, count: usize)
    requires there { count ≤ length items.old.items }
    requires room { vec_len into.old + count ≤ vec_capacity into.old }
    ensures left { items.new.items ≡ drop count items.old.items }
    ensures moved { into.new.items ≡ into.old.items ++ take count items.old.items }
    ensures places { deque_capacity items.new ≡ deque_capacity items.old }
{
    for _ in 0..count {
        let Some(message) = items.pop_front() else {
            unreachable!()
        };
        into.push_reserved(message);
    }
}

impl<T, W: Drop> Messages<T, W> {
    /// Makes an open channel without messages. Where there is a limit the call allocates a place for each message that there
    /// may be, and else nothing.
    pub fn new(alloc: Global, capacity: Option<usize>) -> Result<Self, AllocError>
        ensures { IfOk result (λ made. made ≡ new_state (limit_of capacity)) }
    {
        let (items, capacity) = match capacity {
            Some(capacity) => (VecDeque::with_capacity(alloc, capacity)?, capacity),
            None => (VecDeque::new(alloc), usize::MAX),
        };
        Ok(Messages {
            items,
            capacity,
            is_closed: false,
            senders: List::new(alloc),
            receivers: List::new(alloc),
            streams: List::new(alloc),
            starving_senders: Vec::new(alloc),
            starving_receivers: Vec::new(alloc),
        })
    }

    /// Returns how many more messages newcomers may send: as many as there is room for, or, while a sender starves, as many as
    /// there are places that are due to no notified sender.
    pub fn room_for_newcomers(&self) -> usize
        ensures count { result ≡ room_for_newcomers self.now }
        ensures most { result ≤ room_in self.now }
        ensures due { result ≡ 0 → room_in self.now ≤ length self.now.senders.told }
        ensures closed { self.now.is_closed ≡ true → result ≡ room_in self.now }
    {
        let room = self.capacity - self.items.len();
        left_for_newcomers(self.is_closed, &self.starving_senders, &self.senders, room)
    }

    /// Puts a message behind all others, if the channel is open and there is room for newcomers, and wakes a receiver and all
    /// streams. The call allocates only where there is no limit.
    #[inline(always)]
    pub fn push<S: WakeSink<W>>(&mut self, message: T, sink: &mut S) -> Result<(), SendError<T>>
        ensures pushed { IfOk result (λ _. Pushes message self.old self.new) }
        ensures may { OnOk result (0 < room_for_newcomers self.old) }
        ensures wakes { IfOk result (λ _.
            FoldsTo S.woke sink.old (woken_by_pushing self.old self.new) sink.new) }
        ensures returned { IfErr result (λ error. error.message ≡ message) }
        ensures refused { IfErr result (λ error. RefusedFor error.reason None self.old self.new) }
        ensures forbears { IfErr result (λ error.
            FoldsTo S.woke sink.old (woken_by_refusal_for error.reason self.old self.new) sink.new) }
        ensures reason { IfErr result (λ error. Refuses self.old error.reason) }
        ensures at_once { IfErr result (λ error. IsUnsentAtOnce error.reason) }
        ensures due { IfErr result (λ error. error.reason ≡ SendReason.Full
            → room_in self.old ≤ length self.old.senders.told) }
    {
        if self.starving_senders.len() != 0 {
            return self.push_in_turn(message, sink);
        }
        self.push_any(message, sink)
    }

    // Sends as `push` does, where a sender starves.
    #[cold]
    #[inline(never)]
    fn push_in_turn<S: WakeSink<W>>(&mut self, message: T, sink: &mut S) -> Result<(), SendError<T>>
        ensures pushed { IfOk result (λ _. Pushes message self.old self.new) }
        ensures may { OnOk result (0 < room_for_newcomers self.old) }
        ensures wakes { IfOk result (λ _.
            FoldsTo S.woke sink.old (woken_by_pushing self.old self.new) sink.new) }
        ensures returned { IfErr result (λ error. error.message ≡ message) }
        ensures refused { IfErr result (λ error. RefusedFor error.reason None self.old self.new) }
        ensures forbears { IfErr result (λ error.
            FoldsTo S.woke sink.old (woken_by_refusal_for error.reason self.old self.new) sink.new) }
        ensures reason { IfErr result (λ error. Refuses self.old error.reason) }
        ensures at_once { IfErr result (λ error. IsUnsentAtOnce error.reason) }
        ensures due { IfErr result (λ error. error.reason ≡ SendReason.Full
            → room_in self.old ≤ length self.old.senders.told) }
    {
        if self.places_are_due() {
            self.forbear_sending(sink);
            return Err(SendError::new(message, SendReason::Full));
        }
        self.push_any(message, sink)
    }

    // Sends as `push` does, for a sender that may have a place in the queue of the senders. Counts no refused newcomer.
    #[inline(always)]
    fn push_as<S: WakeSink<W>>(
        &mut self,
        key: Option<Key>,
        message: T,
        sink: &mut S,
    ) -> Result<(), SendError<T>>
        ensures pushed { IfOk result (λ _. Pushes message self.old self.new) }
        ensures may { OnOk result (0 < room_for_one key self.old) }
        ensures wakes { IfOk result (λ _.
            FoldsTo S.woke sink.old (woken_by_pushing self.old self.new) sink.new) }
        ensures returned { IfErr result (λ error. error.message ≡ message) }
        ensures refused { OnErr result ((self.new ≡ self.old) × (sink.new ≡ sink.old)) }
        ensures reason { IfErr result (λ error.
            RefusesAt (room_for_one key self.old) self.old error.reason) }
        ensures at_once { IfErr result (λ error. IsUnsentAtOnce error.reason) }
        ensures due { IfErr result (λ error. error.reason ≡ SendReason.Full
            → room_in self.old ≤ length self.old.senders.told) }
        ensures full { is_told key self.old.senders ≡ true
            → IfErr result (λ error. error.reason ≡ SendReason.Full → room_in self.old ≡ 0) }
    {
        let starve = self.starving_senders.len() != 0;
        if starve && !is_told(&self.senders, key) && self.places_are_due() {
            return Err(SendError::new(message, SendReason::Full));
        }
        self.push_any(message, sink)
    }

    // Returns whether the channel is open, and there is no room for newcomers.
    #[cold]
    #[inline(never)]
    fn places_are_due(&self) -> bool
        ensures due { IsTrue result
            ↔ ((self.now.is_closed ≡ false) × (room_for_newcomers self.now ≡ 0)) }
    {
        !self.is_closed && self.room_for_newcomers() == 0
    }

    // Counts a newcomer that found no room. If there is some room, the newcomer was refused for the sake of the first starving
    // sender; the last newcomer that is counted for that sender strikes it off.
    #[cold]
    #[inline(never)]
    fn forbear_sending<S: WakeSink<W>>(&mut self, sink: &mut S)
        ensures forbears { ForbearsSending self.old self.new }
        ensures wakes { FoldsTo S.woke sink.old
            (woken_by_forbearing_sending self.old self.new) sink.new }
    {
        if self.is_full() {
            return;
        }
        if let Some(key) = forbear(&mut self.starving_senders) {
            self.strike_sender(key, sink);
        }
    }

    // Strikes a sender off: it starves no more. A sender that was notified also leaves the queue, and the next sender is
    // notified in its place.
    fn strike_sender<S: WakeSink<W>>(&mut self, key: Key, sink: &mut S)
        ensures off { SenderStruckOff key self.old self.new }
        ensures wakes { FoldsTo S.woke sink.old
            (woken_by_striking_sender (Some key) self.old self.new) sink.new }
    {
        if is_told(&self.senders, Some(key)) {
            return self.cancel_sender(Some(key), sink);
        }
        strike(&mut self.starving_senders, Some(key));
    }

    // Puts a message behind all others, if the channel is open and not full, and wakes a receiver and all streams. The message
    // takes any free place, also a place that is due to others.
    #[inline(always)]
    fn push_any<S: WakeSink<W>>(&mut self, message: T, sink: &mut S) -> Result<(), SendError<T>>
        ensures pushed { IfOk result (λ _. Pushes message self.old self.new) }
        ensures wakes { IfOk result (λ _.
            FoldsTo S.woke sink.old (woken_by_pushing self.old self.new) sink.new) }
        ensures returned { IfErr result (λ error. error.message ≡ message) }
        ensures refused { OnErr result ((self.new ≡ self.old) × (sink.new ≡ sink.old)) }
        ensures reason { IfErr result (λ error. RefusesAt (room_in self.old) self.old error.reason) }
        ensures at_once { IfErr result (λ error. IsUnsentAtOnce error.reason) }
        ensures full { IfErr result (λ error. error.reason ≡ SendReason.Full
            → room_in self.old ≡ 0) }
    {
        if self.is_closed {
            return Err(SendError::new(message, SendReason::Closed));
        }
        if self.items.len() >= self.capacity {
            return Err(SendError::new(message, SendReason::Full));
        }
        match self.items.push_back(message) {
            Ok(()) => {
                let messages = self.items.len();
                tell_more(&mut self.receivers, messages, 1, sink);
                tell_all(&mut self.streams, sink);
                Ok(())
            }
            Err(AllocFailed { value }) => Err(SendError::new(value, SendReason::Memory)),
        }
    }

    /// Sends a message as [`push`](Messages::push) does, but on any place, also a place that is due to others. Where the
    /// channel is full the call takes out and returns the first message of all: then nobody is woken.
    pub fn push_forced<S: WakeSink<W>>(
        &mut self,
        message: T,
        sink: &mut S,
    ) -> Result<Option<T>, SendError<T>>
        ensures forced { IfOk result (λ out. Forces message out self.old self.new) }
        ensures wakes { IfOk result (λ out.
            FoldsTo S.woke sink.old (woken_by_forcing out self.old self.new) sink.new) }
        ensures returned { IfErr result (λ error. error.message ≡ message) }
        ensures refused { OnErr result ((self.new ≡ self.old) × (sink.new ≡ sink.old)) }
        ensures reason { IfErr result (λ error. Refuses self.old error.reason) }
        ensures unfull { IfErr result (λ error. IsUnsent error.reason) }
    {
        if !self.is_closed && self.items.len() >= self.capacity {
            return Ok(Some(replace_first(&mut self.items, message)));
        }
        self.push_any(message, sink)?;
        Ok(None)
    }

    /// Returns how many messages newcomers may take: all, or, while a receiver starves, those messages that are due to no
    /// notified receiver.
    pub fn for_newcomers(&self) -> usize
        ensures count { result ≡ for_newcomers self.now }
        ensures most { result ≤ length self.now.messages }
        ensures due { result ≡ 0 → length self.now.messages ≤ length self.now.receivers.told }
        ensures closed { self.now.is_closed ≡ true → result ≡ length self.now.messages }
    {
        let starving = &self.starving_receivers;
        left_for_newcomers(self.is_closed, starving, &self.receivers, self.items.len())
    }

    /// Takes the first message, if it is there for newcomers, and wakes a sender.
    #[inline(always)]
    pub fn pop<S: WakeSink<W>>(&mut self, sink: &mut S) -> Result<T, TryRecvError>
        ensures popped { IfOk result (λ message. Takes (message ∷ []) self.old self.new) }
        ensures may { OnOk result (0 < for_newcomers self.old) }
        ensures wakes { IfOk result (λ _.
            FoldsTo S.woke sink.old (woken_by_taking 1 self.old self.new) sink.new) }
        ensures empty { OnErr result (Forbears self.old self.new) }
        ensures forbears { OnErr result
            (FoldsTo S.woke sink.old (woken_by_forbearing self.old self.new) sink.new) }
        ensures reason { IfErr result (IsEmptyFor self.old) }
        ensures due { OnErr result (length self.old.messages ≤ length self.old.receivers.told) }
    {
        if self.starving_receivers.len() != 0 {
            return self.pop_in_turn(sink);
        }
        self.pop_any(sink)
    }

    // Receives as `pop` does, where a receiver starves.
    #[cold]
    #[inline(never)]
    fn pop_in_turn<S: WakeSink<W>>(&mut self, sink: &mut S) -> Result<T, TryRecvError>
        ensures popped { IfOk result (λ message. Takes (message ∷ []) self.old self.new) }
        ensures may { OnOk result (0 < for_newcomers self.old) }
        ensures wakes { IfOk result (λ _.
            FoldsTo S.woke sink.old (woken_by_taking 1 self.old self.new) sink.new) }
        ensures empty { OnErr result (Forbears self.old self.new) }
        ensures forbears { OnErr result
            (FoldsTo S.woke sink.old (woken_by_forbearing self.old self.new) sink.new) }
        ensures reason { IfErr result (IsEmptyFor self.old) }
        ensures due { OnErr result (length self.old.messages ≤ length self.old.receivers.told) }
    {
        if self.messages_are_due() {
            self.forbear_receiving(sink);
            return Err(TryRecvError::Empty);
        }
        self.pop_any(sink)
    }

    // Receives as `pop` does, for a receiver that may have a place in the queue of the receivers. Counts no refused newcomer.
    #[inline(always)]
    pub(crate) fn pop_as<S: WakeSink<W>>(
        &mut self,
        key: Option<Key>,
        sink: &mut S,
    ) -> Result<T, TryRecvError>
        ensures popped { IfOk result (λ message. Takes (message ∷ []) self.old self.new) }
        ensures may { OnOk result (0 < for_one key self.old) }
        ensures wakes { IfOk result (λ _.
            FoldsTo S.woke sink.old (woken_by_taking 1 self.old self.new) sink.new) }
        ensures empty { OnErr result ((self.new ≡ self.old) × (sink.new ≡ sink.old)) }
        ensures reason { IfErr result (FindsNone (for_one key self.old) self.old) }
        ensures due { OnErr result (length self.old.messages ≤ length self.old.receivers.told) }
        ensures none { is_told key self.old.receivers ≡ true
            → OnErr result (self.old.messages ≡ []) }
    {
        let starve = self.starving_receivers.len() != 0;
        if starve && !is_told(&self.receivers, key) && self.messages_are_due() {
            return Err(TryRecvError::Empty);
        }
        self.pop_any(sink)
    }

    // Takes the first message, also a message that is due to others, and wakes a sender.
    #[inline(always)]
    fn pop_any<S: WakeSink<W>>(&mut self, sink: &mut S) -> Result<T, TryRecvError>
        ensures popped { IfOk result (λ message. Takes (message ∷ []) self.old self.new) }
        ensures wakes { IfOk result (λ _.
            FoldsTo S.woke sink.old (woken_by_taking 1 self.old self.new) sink.new) }
        ensures empty { OnErr result ((self.new ≡ self.old) × (sink.new ≡ sink.old)) }
        ensures reason { IfErr result (FindsNone (length self.old.messages) self.old) }
        ensures none { OnErr result (self.old.messages ≡ []) }
    {
        match self.items.pop_front() {
            Some(message) => {
                let room = self.capacity - self.items.len();
                tell_more(&mut self.senders, room, 1, sink);
                Ok(message)
            }
            None if self.is_closed => Err(TryRecvError::Closed),
            None => Err(TryRecvError::Empty),
        }
    }

    // Returns whether the channel is open, and there is no message for newcomers.
    #[cold]
    #[inline(never)]
    fn messages_are_due(&self) -> bool
        ensures due { IsTrue result
            ↔ ((self.now.is_closed ≡ false) × (for_newcomers self.now ≡ 0)) }
    {
        !self.is_closed && self.for_newcomers() == 0
    }

    // Counts a newcomer that found no message. If there is a message, the newcomer was refused for the sake of the first
    // starving receiver; the last newcomer that is counted for that receiver strikes it off.
    #[cold]
    #[inline(never)]
    fn forbear_receiving<S: WakeSink<W>>(&mut self, sink: &mut S)
        ensures forbears { Forbears self.old self.new }
        ensures wakes { FoldsTo S.woke sink.old (woken_by_forbearing self.old self.new) sink.new }
    {
        if self.is_empty() {
            return;
        }
        if let Some(key) = forbear(&mut self.starving_receivers) {
            self.strike_receiver(key, sink);
        }
    }

    // Strikes a receiver off: it starves no more. A receiver that was notified also leaves the queue, and the next receiver is
    // notified in its place.
    fn strike_receiver<S: WakeSink<W>>(&mut self, key: Key, sink: &mut S)
        ensures off { ReceiverStruckOff key self.old self.new }
        ensures wakes { FoldsTo S.woke sink.old (woken_by_striking
            (is_told (Some key) self.old.receivers) key self.old self.new) sink.new }
    {
        if is_told(&self.receivers, Some(key)) {
            return self.cancel_receiver(Some(key), sink);
        }
        strike(&mut self.starving_receivers, Some(key));
        let starving = &self.starving_receivers;
        if left_for_newcomers(self.is_closed, starving, &self.receivers, self.items.len()) > 0 {
            tell_all(&mut self.streams, sink);
        }
    }

    /// Takes the first messages, `limit` at most and no more than are there for newcomers and `into` has room for, puts them
    /// behind what `into` has, and wakes as many senders. Returns how many messages the call took. Does not allocate.
    pub fn pop_into<S: WakeSink<W>>(
        &mut self,
        into: &mut Vec<T>,
        limit: usize,
        sink: &mut S,
    ) -> usize
        ensures count { result ≡ min limit
            (min (vec_capacity into.old - vec_len into.old) (for_newcomers self.old)) }
        ensures popped { Takes (take result self.old.messages) self.old self.new }
        ensures appended { into.new.items ≡ into.old.items ++ take result self.old.messages }
        ensures wakes { FoldsTo S.woke sink.old
            (woken_by_taking result self.old self.new) sink.new }
    {
        self.pop_into_as(None, into, limit, sink)
    }

    // Receives as `pop_into` does, for a receiver that may have a place in the queue of the receivers: it also takes the message
    // that is due to itself.
    pub(crate) fn pop_into_as<S: WakeSink<W>>(
        &mut self,
        key: Option<Key>,
        into: &mut Vec<T>,
        limit: usize,
        sink: &mut S,
    ) -> usize
        ensures count { result ≡ min limit
            (min (vec_capacity into.old - vec_len into.old) (due_to_no_other key self.old)) }
        ensures popped { Takes (take result self.old.messages) self.old self.new }
        ensures appended { into.new.items ≡ into.old.items ++ take result self.old.messages }
        ensures wakes { FoldsTo S.woke sink.old
            (woken_by_taking result self.old self.new) sink.new }
    {
        let room = into.capacity() - into.len();
        let count = limit.min(room).min(self.due_to_no_other(key));
        move_first(&mut self.items, into, count);
        let places = self.capacity - self.items.len();
        tell_more(&mut self.senders, places, count, sink);
        count
    }

    // Returns how many messages are due to no receiver beside the receiver with this key.
    fn due_to_no_other(&self, key: Option<Key>) -> usize
        ensures count { result ≡ due_to_no_other key self.now }
        ensures most { result ≤ length self.now.messages }
    {
        let (starving, line) = (&self.starving_receivers, &self.receivers);
        due_to_no_other(self.is_closed, starving, line, key, self.items.len())
    }

    /// Closes the channel, and wakes all waiters: senders, receivers, streams. Returns `false` if the channel is closed
    /// already.
    pub fn close<S: WakeSink<W>>(&mut self, sink: &mut S) -> bool
        ensures once { IsTrue result ↔ (self.old.is_closed ≡ false) }
        ensures closed { IsTrue result → Closes self.old self.new }
        ensures wakes { IsTrue result
            → FoldsTo S.woke sink.old
            (woken_at_once self.old.senders ++ woken_at_once self.old.receivers ++ woken_at_once
            self.old.streams) sink.new }
        ensures again { IsFalse result → (self.new ≡ self.old) × (sink.new ≡ sink.old) }
    {
        if self.is_closed {
            return false;
        }
        self.is_closed = true;
        tell_all(&mut self.senders, sink);
        tell_all(&mut self.receivers, sink);
        tell_all(&mut self.streams, sink);
        true
    }

    /// Returns how many messages there are.
    pub fn len(&self) -> usize
        ensures { result ≡ length self.now.messages }
    {
        self.items.len()
    }

    /// Returns whether there is no message.
    pub fn is_empty(&self) -> bool
        ensures { IsTrue result ↔ (length self.now.messages ≡ 0) }
    {
        self.items.len() == 0
    }

    /// Returns whether there are as many messages as there may be.
    pub fn is_full(&self) -> bool
        ensures { IsTrue result ↔ IsFull self.now }
    {
        self.items.len() >= self.capacity
    }

    /// Returns how many messages there may be at most: `usize::MAX` without a limit.
    pub fn capacity(&self) -> usize
        ensures { result ≡ self.now.capacity }
    {
        self.capacity
    }

    /// Returns whether the channel is closed.
    pub fn is_closed(&self) -> bool
        ensures { result ≡ self.now.is_closed }
    {
        self.is_closed
    }

    /// States that nobody waits in vain: a receiver waits only while as many receivers are notified as there are messages, a
    /// sender only while as many senders are notified as there are free places, a stream only while there is no message for
    /// newcomers, and nobody waits once the channel is closed.
    pub fn nobody_waits_in_vain(&self)
        ensures waits { NobodyWaitsInVain self.now }
        ensures fits { length self.now.messages ≤ self.now.capacity }
    {
        let _ = &self.capacity;
    }
}

/// States that messages are received in the order in which they were sent, however many calls are made one after another: the
/// messages that were there at first, and then all messages that were sent, are all messages that were received, and then the
/// messages that are there at last.
pub fn received_in_order<T>()
    ensures { IsReceivedInOrder T }
{}
