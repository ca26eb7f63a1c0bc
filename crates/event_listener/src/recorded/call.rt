//! One call of a recorded queue, as a value.
ghost use Rattle.std.specs.Prelude.{◌≡◌, ◌≤◌};
ghost use Rattle.event_listener.specs.recording.Step.{without_task, newcomers_of};

use event_queue::Key;
use event_wait::Task;

/// A call on the queue of a recorded event, as [`RecordedState::apply`](crate::RecordedState::apply) makes it.
#[derive(Drop)]
pub enum StepCall<T> {
    /// Inserts a listener at the end of the queue.
    Listen,
    /// Registers the task of a listener: a notified listener gives its tag and leaves the queue, another one stores the task.
    Register {
        /// The key of the listener.
        key: Key,
        /// The task to store.
        task: Task,
    },
    /// Removes a listener from the queue.
    Remove {
        /// The key of the listener.
        key: Key,
        /// Whether the notification of a notified listener is propagated, so that another listener may get it.
        propagate: bool,
    },
    /// Notifies the first listeners that wait.
    Notify {
        /// How many listeners the notification is for.
        count: usize,
        /// Whether the notification is an additional one, which counts no listener that is notified already.
        additional: bool,
        /// The tag, of which each listener that is notified gets a copy.
        tag: T,
    },
    /// Asks how many listeners are in the queue.
    TotalListeners,
    /// Asks whether some listener is notified.
    IsNotified,
}

/// A call on the queue of a recorded event, as the record keeps it: a [`StepCall`] without its task.
#[derive(Clone, Copy, Debug, PartialEq, Eq, Drop)]
pub enum RecordedCall<T> {
    /// The insertion of a listener at the end of the queue.
    Listen,
    /// The registration of a listener's task.
    Register {
        /// The key of the listener.
        key: Key,
    },
    /// The removal of a listener.
    Remove {
        /// The key of the listener.
        key: Key,
        /// Whether the notification of a notified listener was to be propagated, so that another listener may get it.
        propagate: bool,
    },
    /// A notification of the first listeners that waited.
    Notify {
        /// How many listeners the notification was for.
        count: usize,
        /// Whether the notification was an additional one, which counts no listener that is notified already.
        additional: bool,
        /// The tag, of which each listener that was notified got a copy.
        tag: T,
    },
    /// The question how many listeners are in the queue.
    TotalListeners,
    /// The question whether some listener is notified.
    IsNotified,
}

impl<T: Copy> StepCall<T> {
    /// Returns the call as a record keeps it, without its task. Takes no memory and never blocks.
    #[inline(always)]
    pub fn recorded(&self) -> RecordedCall<T>
        ensures { result ≡ without_task self.now }
    {
        match self {
            StepCall::Listen => RecordedCall::Listen,
            StepCall::Register { key, task: _ } => RecordedCall::Register { key: *key },
            StepCall::Remove { key, propagate } => RecordedCall::Remove {
                key: *key,
                propagate: *propagate,
            },
            StepCall::Notify {
                count,
                additional,
                tag,
            } => RecordedCall::Notify {
                count: *count,
                additional: *additional,
                tag: *tag,
            },
            StepCall::TotalListeners => RecordedCall::TotalListeners,
            StepCall::IsNotified => RecordedCall::IsNotified,
        }
    }
}

impl<T> RecordedCall<T> {
    // Returns how many listeners the call may insert.
    #[inline(always)]
    pub(super) fn newcomers(&self) -> usize
        ensures value { result ≡ newcomers_of self.now }
        ensures at_most { result ≤ 1 }
    {
        usize::from(matches!(self, RecordedCall::Listen))
    }
}
