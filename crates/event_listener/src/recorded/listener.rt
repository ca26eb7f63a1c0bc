//! The listeners of a recorded event.
ghost use Rattle.std.specs.Prelude.{◌≡◌, ⊤};
ghost use Rattle.event_listener.specs.Noting.{Owns};
ghost use Rattle.event_listener.specs.recording.Calls.{Polls, Discards};
ghost use Rattle.event_listener.specs.recording.Wait.{NotesWait, as_some};

use super::call::StepCall;
use super::event::RecordedEvent;
use super::hand::Hand;
use super::reply::{Former, RecordedReply};
use super::wait::wait_until;
use crate::listener::{WaitError, poll_of};
use event_queue::Key;
use event_wait::{Limit, Task, step};
use futures::task::{Poll, Waker};
use std::fmt;
use std::marker::Model;
use std::sync::Wait;
use std::time::{Clock, Duration, Instant};
use thiserror::Error;

/// Why a poll of a [`RecordedListener`] returned neither a tag nor `Pending`.
#[derive(Clone, Copy, Debug, PartialEq, Eq, Error)]
pub enum RecordedPollError {
    /// The listener is not in the queue any more, because it has given its tag. The poll is recorded and noted.
    #[error("listener is not in the queue")]
    NeverInserted,
    /// There was no memory for the entry or the note. Nothing was changed, recorded or noted.
    #[error("no memory for the record")]
    Memory,
}

/// What waits in the queue of a [`RecordedEvent`] until it is notified.
///
/// The listener borrows its event, and so can't outlive it. Each of its calls is made by a hand of that event, any of them,
/// which notes the call. A call on a listener that has given its tag is recorded and noted too, with the reply that no such
/// listener is in the queue.
///
/// Dropping the listener removes it from the queue. If the listener was notified, the drop propagates its notification: the
/// event is notified of one, of the same kind and with the same tag. The drop is recorded without a hand, in room that was
/// made when the listener was inserted, so it takes no memory. The drop of a listener that has left the queue records
/// nothing. The drop may block until the lock of the event is free.
///
/// This type is no [`Listener`](crate::Listener), because each call takes a hand. A contract sees a recorded listener as its
/// event, and its key in the queue there.
///
/// One hand makes both calls, and notes them:
///
/// ```rust
/// let listener = self.set.listen(rt, hand)?;
///
/// if let Err(WaitError::Memory(_)) = listener.wait(hand) {
///     return Err(RecordError::Memory);
/// }
/// ```
#[must_use = "a listener that is dropped waits for nothing"]
pub struct RecordedListener<'ev, T: Copy + Eq, R: Wait + Clock + Clone> {
    pub(super) event: &'ev RecordedEvent<T>,
    pub(super) key: Key,
    pub(super) runtime: R,
}

impl<'ev, T: Copy + Eq, R: Wait + Clock + Clone> Model for RecordedListener<'ev, T, R> {
    ghost use Rattle.event_listener.specs.Noting.{RecordedListening};

    ghost Value = { RecordedListening };

    ghost view = { λ listener. record { event = listener.event.now; key = listener.key } };
}

impl<'ev, T: Copy + Eq, R: Wait + Clock + Clone> RecordedListener<'ev, T, R> {
    pub(super) fn new(event: &'ev RecordedEvent<T>, key: Key, runtime: R) -> Self
        ensures { result ≡ record { event = event.now; key = key } }
    {
        RecordedListener {
            event,
            key,
            runtime,
        }
    }

    /// Takes the tag if the listener is notified; else stores the waker and returns `Pending`. The hand notes one
    /// registration.
    ///
    /// Returns [`RecordedPollError::NeverInserted`] if the listener has given its tag, which is recorded and noted. Returns
    /// [`RecordedPollError::Memory`] if there is no memory for the entry or the note: the listener stays as it was, and
    /// nothing is recorded or noted.
    ///
    /// Takes memory for the entry and the note. May block until the lock of the event is free. The waker replaces the one
    /// that an earlier poll stored. A waker that is replaced, or is not stored, is dropped, which wakes its task.
    pub fn poll(&mut self, hand: &mut Hand<T>, waker: Waker) -> Result<Poll<T>, RecordedPollError>
        requires { Owns self.old.event hand.old }
        ensures noted { Polls self.old.key hand.old result hand.new }
        ensures same { self.new ≡ self.old }
    {
        let call = StepCall::Register {
            key: self.key,
            task: Task::from_waker(waker),
        };
        let Ok(reply) = hand.perform(&self.runtime, self.event.state(), call) else {
            return Err(RecordedPollError::Memory);
        };
        match reply {
            RecordedReply::Registered(found) => poll_of(found, RecordedPollError::NeverInserted),
            _ => unreachable!(),
        }
    }

    /// Removes the listener from the queue without propagating its notification, and returns whether it was notified.
    ///
    /// For a listener that has given its tag the call returns `false`, because that listener is not in the queue. The hand
    /// notes one removal. Returns [`WaitError::Memory`] with the same listener if there is no memory for the entry or the
    /// note: nothing is changed, recorded or noted. Returns no other error.
    ///
    /// Takes memory for the entry and the note. May block until the lock of the event is free.
    pub fn discard(self, hand: &mut Hand<T>) -> Result<bool, WaitError<Self>>
        requires { Owns self.event hand.old }
        ensures noted { Discards self.entry hand.old result hand.new }
    {
        let call = StepCall::Remove {
            key: self.key,
            propagate: false,
        };
        let Ok(reply) = hand.perform(&self.runtime, self.event.state(), call) else {
            return Err(WaitError::Memory(self));
        };
        self.forget();
        match reply {
            RecordedReply::Removed(former) => Ok(matches!(former, Some(Former::Notified { .. }))),
            _ => unreachable!(),
        }
    }

    /// Waits until the listener is notified, and returns the tag. Each look for the listener in the queue is recorded and
    /// noted.
    ///
    /// Such a look is one registration, and a wait makes at least one, unless memory runs out before. Returns
    /// [`WaitError::NeverInserted`] if the listener has given its tag. Returns [`WaitError::Memory`] with the same listener
    /// if memory runs out for what the thread parks on, for an entry or for a note: the listener is not removed, and the
    /// steps made before stay recorded and noted.
    ///
    /// The call blocks and takes memory as the wait of [any listener](crate::Listener#waiting) does, and makes room for an
    /// entry and a note before each step.
    ///
    /// A wait that is refused memory returns its listener, which is dropped here:
    ///
    /// ```rust
    /// if let Err(WaitError::Memory(_)) = listener.wait(hand) {
    ///     return Err(RecordError::Memory);
    /// }
    /// ```
    pub fn wait(self, hand: &mut Hand<T>) -> Result<T, WaitError<Self>>
        requires { Owns self.event hand.old }
        ensures noted { NotesWait ⊥ self.entry hand.old (as_some result) hand.new }
    {
        match wait_until(self, hand, Limit::Never)? {
            Some(tag) => Ok(tag),
            None => unreachable!(),
        }
    }

    /// Waits until the listener is notified or `timeout` has passed, and returns the tag or `None`. The listener has left the
    /// queue then.
    ///
    /// The limit is that of [`Limit::after`], by the clock of the listener. At the limit the listener is removed, which is
    /// recorded and noted too; a tag that the listener is given before that is returned, and not propagated. What the call
    /// records, when it blocks, what memory it takes and how it fails is said at [`wait`](RecordedListener::wait); the
    /// removal may fail for memory, too.
    pub fn wait_timeout(
        self,
        hand: &mut Hand<T>,
        timeout: Duration,
    ) -> Result<Option<T>, WaitError<Self>>
        requires { Owns self.event hand.old }
        ensures noted { NotesWait ⊤ self.entry hand.old result hand.new }
    {
        let limit = Limit::after(&self.runtime, timeout);
        wait_until(self, hand, limit)
    }

    /// Waits until the listener is notified or its clock shows `deadline`, and returns the tag or `None`. The listener has
    /// left the queue then.
    ///
    /// A clock that can't be read counts as one that shows the deadline. At the deadline the listener is removed, which is
    /// recorded and noted too; a tag that the listener is given before that is returned, and not propagated. What the call
    /// records, when it blocks, what memory it takes and how it fails is said at [`wait`](RecordedListener::wait); the
    /// removal may fail for memory, too.
    pub fn wait_deadline(
        self,
        hand: &mut Hand<T>,
        deadline: Instant,
    ) -> Result<Option<T>, WaitError<Self>>
        requires { Owns self.event hand.old }
        ensures noted { NotesWait ⊤ self.entry hand.old result hand.new }
    {
        wait_until(self, hand, Limit::At(deadline))
    }

    // Ends a listener that has left the queue, with no call on the queue.
    pub(super) fn forget(self) {
        let Self {
            event: _,
            key: _,
            runtime: _,
        } = self;
    }
}

impl<T: Copy + Eq, R: Wait + Clock + Clone> Drop for RecordedListener<'_, T, R> {
    fn drop(self) {
        let Self {
            event,
            key,
            runtime,
        } = self;
        step!(event.state(), &runtime, state, waking => state.apply_end(key, &mut waking))
    }
}

impl<T: Copy + Eq, R: Wait + Clock + Clone> fmt::Debug for RecordedListener<'_, T, R> {
    fn fmt<W: fmt::Write>(&self, f: &mut fmt::Formatter<W>) -> fmt::Result {
        f.debug_struct("RecordedListener").finish_non_exhaustive()
    }
}
