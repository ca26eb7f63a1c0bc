use crate::key::Key;
use crate::reply::{ListenError, NotifyError, RegisterResult, State};

/// A call of a queue, as a value that [`List::run`](crate::List::run) makes.
#[derive(Clone, Debug, PartialEq, Eq, Drop)]
pub enum Call<T, W> {
    /// Inserts a listener at the end of the queue, as [`List::insert`](crate::List::insert) does.
    Insert,
    /// Registers a listener with a task, as [`List::register`](crate::List::register) does.
    Register {
        /// The key of the listener.
        key: Key,
        /// The task to store.
        task: W,
    },
    /// Removes a listener from the queue, as [`List::remove`](crate::List::remove) does.
    Remove {
        /// The key of the listener.
        key: Key,
        /// Whether the notification of a notified listener is propagated, so that another listener may get it.
        propagate: bool,
    },
    /// Notifies the first listeners that wait, as [`List::notify`](crate::List::notify) does.
    Notify {
        /// How many listeners the notification is for.
        count: usize,
        /// Whether the notification is an additional one, which counts no listener that is notified already.
        additional: bool,
        /// The tags, one for each listener that is notified, in order. After the last tag the notification refuses to give
        /// one.
        tags: Vec<T>,
    },
    /// Asks how many listeners are in the queue, as [`List::total_listeners`](crate::List::total_listeners) does.
    TotalListeners,
    /// Asks whether some listener is notified, as [`List::is_notified`](crate::List::is_notified) does.
    IsNotified,
}

/// What a queue returned to a [`Call`].
#[derive(Clone, Copy, Debug, PartialEq, Eq, Drop)]
pub enum Reply<T, W> {
    /// The new listener's key, or why no listener was inserted.
    Inserted(Result<Key, ListenError>),
    /// What the registration found.
    Registered(RegisterResult<T>),
    /// What the listener was when it left the queue, or `None` if no listener has that key.
    Removed(Option<State<T, W>>),
    /// How many listeners the call notified, or that the notification refused a tag.
    Notified(Result<usize, NotifyError>),
    /// How many listeners were in the queue.
    TotalListeners(usize),
    /// Whether some listener was notified.
    IsNotified(bool),
}
