//! What a recorded queue answered, as a value.
ghost use Rattle.std.specs.Prelude.{◌≡◌};
ghost use Rattle.event_listener.specs.recording.Step.{former_of};

use event_queue::{Key, ListenError, RegisterResult, State};

/// What the queue of a recorded event returned to a [`StepCall`](crate::StepCall).
#[derive(Clone, Copy, Debug, PartialEq, Eq, Drop)]
pub enum RecordedReply<T> {
    /// The new listener's key, or why no listener was inserted. In a record the error is never [`ListenError::Memory`],
    /// because room is made before the step.
    Listened(Result<Key, ListenError>),
    /// What the registration found.
    Registered(RegisterResult<T>),
    /// What the listener was when it left the queue, or `None` if no listener has that key.
    Removed(Option<Former<T>>),
    /// How many listeners the call notified.
    Notified(usize),
    /// How many listeners were in the queue.
    TotalListeners(usize),
    /// Whether some listener was notified.
    IsNotified(bool),
}

/// What a listener was when it left the queue, as a record keeps it: a [`State`] without its task.
#[derive(Clone, Copy, Debug, PartialEq, Eq, Drop)]
pub enum Former<T> {
    /// The listener waited, and had stored no task.
    Created,
    /// The listener was notified, and its notification was not propagated, but is returned.
    Notified {
        /// Whether the notification was an additional one.
        additional: bool,
        /// The tag of the notification.
        tag: T,
    },
    /// The listener waited, and had stored a task.
    Task,
    /// The listener was notified, and its notification was propagated: another listener was notified by it.
    Passed {
        /// The key of the listener that was notified.
        to: Key,
    },
    /// The listener was notified, and its notification was lost: propagating it notified no listener.
    Lost {
        /// Whether the notification was an additional one.
        additional: bool,
        /// The tag of the notification.
        tag: T,
    },
}

impl<T> Former<T> {
    /// Returns what a record keeps of a state. The call drops the state's task, takes no memory and never blocks.
    pub(super) fn of<W: Drop>(state: State<T, W>) -> Self
        ensures { result ≡ former_of state }
    {
        match state {
            State::Created => Former::Created,
            State::Notified { additional, tag } => Former::Notified { additional, tag },
            State::Task(_) => Former::Task,
            State::Passed { to } => Former::Passed { to },
            State::Lost { additional, tag } => Former::Lost { additional, tag },
        }
    }
}
