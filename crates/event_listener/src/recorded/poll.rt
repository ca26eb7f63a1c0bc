//! Polls of recorded listeners that keep the waker of their task.
ghost use Rattle.std.specs.Prelude.{◌≡◌, IfOk};
ghost use Rattle.futures.specs.Task.{IsArmed, Keeps};
ghost use Rattle.futures.specs.Poll.{OnPending};
ghost use Rattle.event_listener.specs.Noting.{Owns};
ghost use Rattle.event_listener.specs.recording.Calls.{Polls};

use super::hand::Hand;
use super::listener::{RecordedListener, RecordedPollError};
use super::wait::RecordedPlace;
use crate::listener::NeverInserted;
use event_wait::poll_in;
use futures::task::{Context, Poll};
use std::sync::Wait;
use std::time::Clock;

impl<T: Copy + Eq, R: Wait + Clock + Clone> RecordedListener<'_, T, R> {
    /// Takes the tag if the listener is notified; else registers the task that polls, and returns `Pending`.
    ///
    /// The call differs from [`poll`](RecordedListener::poll) in the waker: a waker of this task that an earlier poll stored
    /// stays, so no task is woken. If the stored waker is of another task, the task's own waker replaces it, and that other
    /// task is woken. If no waker can be made, the task asks for another poll. A poll that fails for memory registers no
    /// task, so a future returns that error, or polls again by itself. Errors, memory and the lock are as for
    /// [`poll`](RecordedListener::poll).
    pub fn poll_in(
        &mut self,
        hand: &mut Hand<T>,
        cx: &mut Context<'_>,
    ) -> Result<Poll<T>, RecordedPollError>
        requires { Owns self.old.event hand.old }
        ensures noted { Polls self.old.key hand.old result hand.new }
        ensures same { self.new ≡ self.old }
        ensures registered { IfOk result (λ polled. OnPending polled (IsArmed cx.new)) }
        ensures kept { Keeps cx.old cx.new }
    {
        let mut place = RecordedPlace::of(self.key, hand, self.event.alloc());
        let polled = poll_in(self.event.state(), &self.runtime, &mut place, cx);
        place.give_back(hand);
        match polled {
            Poll::Ready(Ok(Ok(tag))) => Ok(Poll::Ready(tag)),
            Poll::Ready(Ok(Err(NeverInserted))) => Err(RecordedPollError::NeverInserted),
            Poll::Ready(Err(_)) => Err(RecordedPollError::Memory),
            Poll::Pending => Ok(Poll::Pending),
        }
    }
}
