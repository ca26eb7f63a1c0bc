//! The calls on a queue of listeners.
ghost use Rattle.event_history.specs.Queue.{NoneLeft, calls, is_empty, rests_on};

use crate::history::Steps;
use event_queue::{Key, List, ListenError, NotifyError, RegisterResult, State};

/// A call on a queue of listeners, with its reply. No value of this type is made when a program runs.
pub enum QueueCall<T, W> {
    /// An insertion of a listener at the end, with the key of the listener or why there was none.
    Insert(Result<Key, ListenError>),
    /// A registration of a listener: the listener takes its tag, or stores a task.
    Register(Key, RegisterResult<T>),
    /// A removal of a listener, whether its notification is propagated, and what the listener was.
    Remove(Key, bool, Option<State<T, W>>),
    /// A notification of so many listeners, whether it is additional, and how many were notified.
    Notify(usize, bool, Result<usize, NotifyError>),
    /// How many listeners are notified, and how many there are.
    Counts(usize, usize),
}

/// A queue starts empty, and each call is one step of its two lists. A listener takes its tag, stores its task and leaves by the
/// hand that inserted the listener, and that hand ends once the listener has left.
impl<T, W> Steps for List<T, W> {
    type Call = QueueCall<T, W>;

    type Start = ();

    ghost starts = { λ _. is_empty };

    ghost goes = { calls };

    ghost rests = { rests_on };

    ghost may_end = { NoneLeft };
}
