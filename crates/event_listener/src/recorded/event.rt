//! Events that keep a record.
ghost use Rattle.std.specs.Prelude.{◌≡◌, ◌↔◌, length, All, IsTrue, IsErrAnd, IfOk, IfErr};
ghost use Rattle.event_listener.specs.Closing.{AreAllHands, are_hands_below, are_notes_of_all, entries_of_hands, notes_of_all};
ghost use Rattle.event_listener.specs.Noting.{Owns, new_hands};
ghost use Rattle.event_listener.specs.recording.State.{HandlessAreEnds};
ghost use Rattle.event_listener.specs.recording.Replay.{replays};
ghost use Rattle.event_listener.specs.recording.Calls.{Listens, NotesNotify, NotesTotal, NotesIsNotified};

use super::call::StepCall;
use super::close::{CloseError, are_all_hands, are_hands_below, are_notes_of_all};
use super::error::RecordError;
use super::hand::{Hand, new_hands};
use super::listener::RecordedListener;
use super::record::Record;
use super::reply::RecordedReply;
use super::state::RecordedState;
use crate::event::EventId;
use event_queue::ListenError;
use event_wait::Lock;
use std::alloc::Global;
use std::marker::Model;
use std::sync::Wait;
use std::time::Clock;

/// An event that keeps a record of every step of its queue, and whose callers each note their own calls.
///
/// The event is made together with its *hands*, which are its callers. Each call is made by one hand, which notes the call
/// and its reply. Only the drop of a listener is recorded without a hand. Each step of the queue is made under the lock of
/// the event, and recorded before the lock is given back. So whatever threads call, the record is one history of the queue,
/// in the order in which the steps were made. [`close`](RecordedEvent::close) returns the record if it has the notes of each
/// hand, each once and in order.
///
/// A contract sees a recorded event as the number of its identity and its count of hands. A call with a hand requires that
/// the event [`owns`](RecordedEvent::owns) the hand, and its clauses let the caller carry that over to the next call.
///
/// Tags are copied, and compared by `close` and [`replays`](crate::replays) alone. Tasks are woken under the lock, except the
/// last one of a call. So what a waker runs must not call the same event: the call would wait for the lock that its own
/// thread holds. The record grows by an entry with each step, and never shrinks. No call except `close` and `replays` looks
/// at older entries.
///
/// A flag has such an event, in its field `set`. These lines make the event, notify its listeners, listen to the event,
/// and close it:
///
/// ```rust
/// let (set, hands) = RecordedEvent::new(alloc, id, hands)?;
///
/// self.set.notify(rt, hand, usize::MAX, false, ())?;
///
/// let listener = self.set.listen(rt, hand)?;
///
/// set.close(hands)
/// ```
#[derive(Drop)]
pub struct RecordedEvent<T: Copy + Eq> {
    id: EventId,
    hands: usize,
    state: Lock<RecordedState<T>>,
    alloc: Global,
}

impl<T: Copy + Eq> Model for RecordedEvent<T> {
    ghost use Rattle.event_listener.specs.Noting.{Recorded};

    ghost Value = { Recorded };

    ghost view = { λ event. record { number = event.id; hands = event.hands } };
}

impl<T: Copy + Eq> RecordedEvent<T> {
    /// Makes an event with `hands` hands, and returns both. The hands are numbered from 0 on, in order, and have no notes.
    ///
    /// The event owns each of the hands, and keeps `alloc` for all later calls. Returns [`RecordError::Memory`] if there is
    /// no memory for the hands, and then the identity is used up. Returns no other error. Takes memory for the hands, and
    /// never blocks.
    ///
    /// ```rust
    /// let (set, hands) = RecordedEvent::new(alloc, id, hands)?;
    /// ```
    pub fn new(
        alloc: Global,
        id: EventId,
        hands: usize,
    ) -> Result<(Self, Vec<Hand<T>>), RecordError>
        ensures event { IfOk result (λ made. made.0 ≡ record { number = id; hands = hands }) }
        ensures hands { IfOk result (λ made. made.1.items ≡ new_hands id hands) }
        ensures owned { IfOk result (λ made. All (λ hand. Owns made.0 hand) made.1.items) }
        ensures memory { IfErr result (λ error. error ≡ RecordError.Memory) }
    {
        let made = new_hands(hands, id.number(), alloc)?;
        let event = RecordedEvent {
            id,
            hands,
            state: Lock::of(RecordedState::new(alloc)),
            alloc,
        };
        Ok((event, made))
    }

    // Returns what stands under the lock.
    pub(super) fn state(&self) -> &Lock<RecordedState<T>> {
        &self.state
    }

    // Returns the allocator for what the event's listeners need.
    pub(super) fn alloc(&self) -> Global {
        self.alloc
    }

    /// Returns whether the hand is one of this event's: whether it has the event's number, and a number below the count of
    /// hands.
    ///
    /// Each call with a hand requires this, and here a program can test it. Events whose identities are of two sources may
    /// have one number, and then one event owns hands of the other. Takes no memory and never blocks.
    pub fn owns(&self, hand: &Hand<T>) -> bool
        ensures { IsTrue result ↔ Owns self.now hand.now }
    {
        hand.event_number() == self.id.number() && hand.number() < self.hands
    }

    /// Registers a listener at the end of the queue, as a call of this hand, and returns the listener.
    ///
    /// The listener waits, even if other listeners are notified already. The listener borrows the event, and keeps a clone of
    /// `rt` for its own calls.
    ///
    /// Returns [`RecordError::Memory`] if memory runs out or no clone of `rt` can be made: no listener is inserted, and
    /// nothing is recorded or noted. Returns [`RecordError::SerialsUsedUp`] if the queue has given out all its serial
    /// numbers: no listener is inserted, and the call is recorded and noted with that reply.
    ///
    /// Takes memory for the listener, the entry and the note, and also for the entry of the listener's removal, so that the
    /// drop of the listener needs none. May block until the lock of the event is free.
    ///
    /// ```rust
    /// let listener = self.set.listen(rt, hand)?;
    /// // A notification that came before the listener was in the queue does not reach it, so look again. The drop of
    /// // a listener is recorded without a hand.
    /// if self.is_set() {
    ///     return Ok(());
    /// }
    /// ```
    pub fn listen<R>(
        &self,
        rt: &R,
        hand: &mut Hand<T>,
    ) -> Result<RecordedListener<'_, T, R>, RecordError>
    where
        R: Wait + Clock + Clone,
        requires { Owns self.now hand.old }
        ensures noted { Listens (λ listener. listener.key) hand.old result hand.new }
        ensures event { IfOk result (λ listener. listener.event ≡ self.now) }
    {
        let Ok(runtime) = rt.clone() else {
            return Err(RecordError::Memory);
        };
        let reply = hand.perform(rt, &self.state, StepCall::Listen)?;
        match reply {
            RecordedReply::Listened(Ok(key)) => { Ok(RecordedListener::new(self, key, runtime)) }
            RecordedReply::Listened(Err(ListenError::SerialsUsedUp)) => {
                Err(RecordError::SerialsUsedUp)
            }
            _ => unreachable!(),
        }
    }

    /// Notifies the first listeners that wait, as a call of this hand, and returns how many were notified.
    ///
    /// Each notified listener, in queue order, gets a copy of `tag`, and its task is woken. If `additional`, then `count`
    /// listeners more are notified; else `count` less those that are notified already. If fewer listeners wait, all of these
    /// are notified. A notification that finds no listener waiting is recorded, and lost.
    ///
    /// Returns [`RecordError::Memory`] if there is no memory for the entry or the note: no listener is notified, and nothing
    /// is recorded or noted, so a caller whose notification has to arrive retries. Returns no other error. Takes memory for
    /// the entry and the note. May block until the lock of the event is free.
    ///
    /// Here all who wait for a flag are notified, after the flag has been set. The last three arguments are the count,
    /// whether the notification is additional, and the tag:
    ///
    /// ```rust
    /// self.is_set.store(true, Ordering::SeqCst);
    /// self.set.notify(rt, hand, usize::MAX, false, ())?;
    /// ```
    pub fn notify<R: Wait>(
        &self,
        rt: &R,
        hand: &mut Hand<T>,
        count: usize,
        additional: bool,
        tag: T,
    ) -> Result<usize, RecordError>
        requires { Owns self.now hand.old }
        ensures noted { NotesNotify count additional tag hand.old result hand.new }
    {
        let call = StepCall::Notify {
            count,
            additional,
            tag,
        };
        match hand.perform(rt, &self.state, call)? {
            RecordedReply::Notified(told) => Ok(told),
            _ => unreachable!(),
        }
    }

    /// Returns whether some listener is notified, as a call of this hand. The call is recorded and noted.
    ///
    /// Returns [`RecordError::Memory`] if there is no memory for the entry or the note; nothing is recorded or noted then.
    /// Returns no other error. Takes memory for the entry and the note. May block until the lock of the event is free.
    pub fn is_notified<R: Wait>(&self, rt: &R, hand: &mut Hand<T>) -> Result<bool, RecordError>
        requires { Owns self.now hand.old }
        ensures noted { NotesIsNotified hand.old result hand.new }
    {
        match hand.perform(rt, &self.state, StepCall::IsNotified)? {
            RecordedReply::IsNotified(told) => Ok(told),
            _ => unreachable!(),
        }
    }

    /// Returns how many listeners are in the queue, notified or waiting, as a call of this hand. The call is recorded and
    /// noted.
    ///
    /// Returns [`RecordError::Memory`] if there is no memory for the entry or the note; nothing is recorded or noted then.
    /// Returns no other error. Takes memory for the entry and the note. May block until the lock of the event is free.
    pub fn total_listeners<R: Wait>(&self, rt: &R, hand: &mut Hand<T>) -> Result<usize, RecordError>
        requires { Owns self.now hand.old }
        ensures noted { NotesTotal hand.old result hand.new }
    {
        match hand.perform(rt, &self.state, StepCall::TotalListeners)? {
            RecordedReply::TotalListeners(total) => Ok(total),
            _ => unreachable!(),
        }
    }

    /// Ends the event, and returns its record if each hand's notes are the record's entries of that hand.
    ///
    /// The record is one history of the queue. In it stand the calls of each hand, each once, in the hand's order, with the
    /// replies that the hand was given. Each other entry has no hand, and is the removal of a listener that was dropped, with
    /// propagation.
    ///
    /// Returns [`CloseError::HandsMissing`] exactly if the numbers of the hands are not all those below the event's count of
    /// hands, each once. Returns [`CloseError::Differs`] if the notes of some hand are not its entries. That needs a hand of
    /// an event with the same number whose identity is of another source, given to this call or to an earlier one. In any
    /// case the event and the hands are gone.
    ///
    /// Listeners borrow the event, so none can be alive. Takes no memory and never blocks. The call looks at each hand for
    /// each number, and at each entry for each hand, so its time grows with the number of hands times the number of entries.
    ///
    /// A flag that has a recorded event ends in this way, and returns the record of the event:
    ///
    /// ```rust
    /// let RecordedFlag { is_set: _, set } = self;
    /// set.close(hands)
    /// ```
    pub fn close(self, hands: Vec<Hand<T>>) -> Result<Record<T>, CloseError>
        requires { All (λ hand. Owns self hand) hands.items }
        ensures missing { ¬ AreAllHands self.hands hands.items
            → IsErrAnd result (λ error. error ≡ CloseError.HandsMissing) }
        ensures differ { AreAllHands self.hands hands.items
            → IfErr result (λ error. error ≡ CloseError.Differs) }
        ensures notes { IfOk result (λ entries.
            IsTrue (are_notes_of_all T.eq entries hands.items)) }
        ensures hands { IfOk result (λ entries. IsTrue (are_hands_below self.hands entries)) }
        ensures as_many { IfOk result (λ entries.
            length (entries_of_hands entries) ≡ notes_of_all hands.items) }
        ensures ends { IfOk result (λ entries. HandlessAreEnds entries) }
        ensures replays { IfOk result (λ entries. IsTrue (replays T.eq entries)) }
    {
        let RecordedEvent {
            id: _,
            hands: count,
            state,
            alloc: _,
        } = self;
        if !are_all_hands(hands.as_slice(), count) {
            return Err(CloseError::HandsMissing);
        }
        let entries = state.into_state().into_entries();
        if !are_hands_below(entries.as_slice(), count) {
            return Err(CloseError::Differs);
        }
        if !are_notes_of_all(entries.as_slice(), hands.as_slice()) {
            return Err(CloseError::Differs);
        }
        Ok(Record::new(entries))
    }
}
