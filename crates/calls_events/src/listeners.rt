//! What a text calls on a listener.
use calls::{Act, Reply, Tag};
use event_listener::{Event, Listener, NeverInserted, WaitError};
use futures::task::{Poll, Waker};
use futures::test::MockTask;
use std::time::Instant;

/// A listener of one of two kinds.
#[derive(Drop)]
pub enum Either<L, M> {
    One(L),
    Other(M),
}

impl<L, M> Either<L, M> {
    /// `poll` and `hand`: a poll that is handed its waker.
    pub fn poll<T: Tag>(&mut self, waker: Waker) -> Reply
    where
        L: Listener<T>,
        M: Listener<T>,
    {
        match self {
            Either::One(listener) => polled(listener.poll(waker)),
            Either::Other(listener) => polled(listener.poll(waker)),
        }
    }

    /// `await`: a poll in a task.
    pub fn poll_in<T: Tag>(&mut self, task: &MockTask) -> Reply
    where
        L: Listener<T>,
        M: Listener<T>,
    {
        match self {
            Either::One(listener) => polled(task.enter(|cx| listener.poll_in(cx))),
            Either::Other(listener) => polled(task.enter(|cx| listener.poll_in(cx))),
        }
    }

    /// What a listener does last, and itself where it comes back.
    pub fn end<T: Tag>(self, act: Act, past: Option<Instant>) -> (Reply, Option<Self>)
    where
        L: Listener<T> + Drop,
        M: Listener<T> + Drop,
    {
        match self {
            Either::One(listener) => match end(listener, act, past) {
                (reply, Some(listener)) => (reply, Some(Either::One(listener))),
                (reply, None) => (reply, None),
            },
            Either::Other(listener) => match end(listener, act, past) {
                (reply, Some(listener)) => (reply, Some(Either::Other(listener))),
                (reply, None) => (reply, None),
            },
        }
    }

    /// Whether both listen to one event. There is no answer of two kinds.
    pub fn same_event<T>(&self, other: &Self) -> Reply
    where
        L: Listener<T>,
        M: Listener<T>,
    {
        match (self, other) {
            (Either::One(one), Either::One(other)) => Reply::Is(one.same_event(other)),
            (Either::Other(one), Either::Other(other)) => Reply::Is(one.same_event(other)),
            _ => Reply::Invalid,
        }
    }

    /// Whether it listens to this event.
    pub fn listens_to<T>(&self, event: &Event<T>) -> Reply
    where
        L: Listener<T>,
        M: Listener<T>,
    {
        match self {
            Either::One(listener) => Reply::Is(listener.listens_to(event)),
            Either::Other(listener) => Reply::Is(listener.listens_to(event)),
        }
    }
}

fn polled<T: Tag>(polled: Result<Poll<T>, NeverInserted>) -> Reply {
    match polled {
        Ok(Poll::Ready(tag)) => Reply::Ready(tag.number()),
        Ok(Poll::Pending) => Reply::Pending,
        Err(NeverInserted) => Reply::Finished,
    }
}

fn end<T: Tag, L: Listener<T> + Drop>(
    listener: L,
    act: Act,
    past: Option<Instant>,
) -> (Reply, Option<L>) {
    let answer = match (act, past) {
        (Act::Drop, _) => {
            drop(listener);
            return (Reply::Dropped, None);
        }
        (Act::Discard, _) => return (Reply::Discarded(listener.discard()), None),
        (Act::Wait, _) => listener.wait().map(Some),
        (Act::Timeout(limit), _) => listener.wait_timeout(limit),
        (Act::Expire, Some(past)) => listener.wait_deadline(past),
        _ => return (Reply::Invalid, Some(listener)),
    };
    match answer {
        Ok(Some(tag)) => (Reply::Ready(tag.number()), None),
        Ok(None) => (Reply::TimedOut, None),
        Err(WaitError::NeverInserted) => (Reply::Finished, None),
        Err(WaitError::Memory(listener)) => (Reply::NoMemory, Some(listener)),
    }
}
