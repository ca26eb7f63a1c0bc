//! What a text calls on one queue, by keys.
use crate::answer::{Left, Reply};
use crate::call::Act;
use crate::queues::Place;
use crate::queues::sink::Sink;
use crate::tag::{Notifiable, Tag};
use event_queue::RegisterResult::{NeverInserted, Notified, Registered};
use event_queue::{IntoNotification, Key, List, NotifyError, RegisterResult, State};
use std::mem;

// The task of a wait, which ends at once and is never woken.
const NO_TASK: usize = usize::MAX;

/// A queue, and what gets the tasks that it wakes.
#[derive(Drop)]
pub struct QueueAndSink<'q, T> {
    pub queue: &'q mut List<T, usize>,
    pub sink: &'q mut Sink,
}

impl<'q, T: Drop> Notifiable<T> for QueueAndSink<'q, T> {
    fn notify<N: IntoNotification<Tag = T> + Drop>(&mut self, n: N) -> Result<usize, NotifyError>
    where
        N::Notify: Drop,
    {
        let mut notification = n.into_notification();
        self.queue
            .notify_uncounted(&mut notification, self.sink.woken())
    }
}

impl<'q, T: Tag + Drop> QueueAndSink<'q, T> {
    /// What is called on the listener of that place.
    pub fn act(&mut self, place: &mut Place, act: Act) -> Reply {
        let key = place.key;
        match act {
            Act::Poll(task) => self.poll(place, task),
            Act::Wait => self.wait(place),
            Act::Timeout(limit) if !limit.is_zero() => self.wait(place),
            Act::Timeout(_) | Act::Expire => self.expire(place),
            Act::Drop => {
                place.has_left = true;
                let _ = self.remove(key, true);
                Reply::Dropped
            }
            Act::Discard => {
                place.has_left = true;
                let state = self.remove(key, false);
                Reply::Discarded(matches!(state, Some(State::Notified { .. })))
            }
            Act::IsTold => Reply::Is(self.queue.is_told_uncounted(key)),
            Act::Serial => Reply::Number(key.serial()),
            _ => Reply::Invalid,
        }
    }

    // The queue lets go the task before, or the one that is not stored.
    fn poll(&mut self, place: &mut Place, task: usize) -> Reply {
        let reply = self.register(place, task);
        let let_go = match reply {
            Reply::Pending => mem::replace(&mut place.stored, Some(task)),
            _ => Some(task),
        };
        self.sink.let_go(let_go);
        reply
    }

    // A listener that waits would wait for ever, or for longer than a text may.
    fn wait(&mut self, place: &mut Place) -> Reply {
        if place.has_left || self.queue.is_told_uncounted(place.key) {
            self.register(place, NO_TASK)
        } else {
            Reply::Invalid
        }
    }

    // A wait whose limit has passed registers, and leaves the queue where it was not told.
    fn expire(&mut self, place: &mut Place) -> Reply {
        match self.register(place, NO_TASK) {
            Reply::Pending => {
                place.has_left = true;
                let _ = self.remove(place.key, false);
                self.sink.let_go(place.stored);
                Reply::TimedOut
            }
            reply => reply,
        }
    }

    fn register(&mut self, place: &mut Place, task: usize) -> Reply {
        let reply = registered(self.queue.register_uncounted(place.key, task));
        place.has_left |= !matches!(reply, Reply::Pending);
        reply
    }

    /// Removes a listener.
    pub fn remove(&mut self, key: Key, propagate: bool) -> Option<State<T, usize>> {
        let sink = self.sink.woken();
        let state = self.queue.remove_uncounted(key, propagate, sink);
        if let Some(State::Task(task)) = &state {
            self.sink.let_go(Some(*task));
        }
        state
    }
}

/// What a registration answers.
pub fn registered<T: Tag>(answer: RegisterResult<T>) -> Reply {
    match answer {
        Registered => Reply::Pending,
        Notified(tag) => Reply::Ready(tag.number()),
        NeverInserted => Reply::Finished,
    }
}

/// What a removed listener was, of those at these places.
pub fn left_by<T: Tag>(state: Option<State<T, usize>>, places: &[Place]) -> Left {
    match state {
        None => Left::Nobody,
        Some(State::Created) => Left::Created,
        Some(State::Task(task)) => Left::Task(task),
        Some(State::Notified { additional, tag }) => Left::Notified(additional, tag.number()),
        Some(State::Passed { to }) => {
            let number = places.iter().position(|place| place.key == to);
            Left::Passed(number.unwrap_or(usize::MAX))
        }
        Some(State::Lost { additional, tag }) => Left::Lost(additional, tag.number()),
    }
}
