use crate::key::Key;
use thiserror::Error;

/// What a listener was when it left the queue.
#[derive(Clone, Copy, Debug, PartialEq, Eq, Drop)]
pub enum State<T, W> {
    /// The listener waited, and had stored no task.
    Created,
    /// The listener was notified, and its notification is returned, because it was not to be propagated.
    Notified {
        /// Whether the notification was an additional one.
        additional: bool,
        /// The tag of the notification.
        tag: T,
    },
    /// The listener waited, and this is the task that it had stored last.
    Task(W),
    /// The listener was notified, and its notification was propagated: another listener was notified by it.
    Passed {
        /// The key of the listener that was notified.
        to: Key,
    },
    /// The listener was notified, and its notification was lost, because propagating it notified no listener. So the
    /// notification is returned.
    Lost {
        /// Whether the notification was an additional one.
        additional: bool,
        /// The tag of the notification.
        tag: T,
    },
}

/// What [`List::register`](crate::List::register) found.
#[derive(Clone, Copy, Debug, PartialEq, Eq, Drop)]
pub enum RegisterResult<T> {
    /// The listener was notified and has left the queue. This is its tag.
    Notified(T),
    /// The listener waits, and a task is stored.
    Registered,
    /// No listener with that key is in the queue.
    NeverInserted,
}

/// Why a listener was not inserted.
#[derive(Clone, Copy, Debug, PartialEq, Eq, Error)]
pub enum ListenError {
    /// There was no memory for the listener, or for what an event makes with a listener. No listener was inserted.
    #[error("no memory for a listener")]
    Memory,
    /// The queue has given out all its serial numbers, of which each listener gets one. No listener was inserted.
    #[error("serial numbers are used up")]
    SerialsUsedUp,
}

/// The error of a notification that refused a tag before all its listeners were notified.
#[derive(Clone, Copy, Debug, PartialEq, Eq, Error)]
#[error("a tag was refused after {told} listeners")]
pub struct NotifyError {
    /// How many listeners were notified before that. These listeners stay notified, and no other listener is changed.
    pub told: usize,
}
