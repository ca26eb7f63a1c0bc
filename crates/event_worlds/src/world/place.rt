ghost use Rattle.std.specs.Prelude.{◌≡◌};
ghost use Rattle.event_worlds.specs.ClientTable.{place_after};

/// Where a client of a lock or of a semaphore is in its loop. [`Place::after`] says which place is next.
///
/// A client tries to take the lock, or a permit, listens, tries again, and only then waits, because a client that freed the lock
/// or a permit before this client listened would not have notified it.
#[derive(Clone, Copy, Debug, PartialEq, Eq)]
pub enum Place {
    /// The client does not want the lock, or a permit.
    Idle,
    /// The client is about to try to take the lock, or a permit, with no listener.
    First {
        /// Whether a notification brought the client here.
        woken: bool,
    },
    /// The client found the lock held, or no permit free, and is about to listen.
    ToListen,
    /// The client listens, and is about to try again.
    Second,
    /// The client's second try took the lock, or a permit, and its listener is still to be dropped.
    Ending,
    /// The client's second try found the lock held, or no permit free, or the client woke: it is about to register.
    ToRegister,
    /// The client has registered, and waits for its wake-up.
    Parked,
    /// The client has the lock, or one permit or several, and no listener.
    Holding,
    /// The client has freed the lock, or all its permits, and is about to notify.
    Releasing,
}

/// What a client of a lock or of a semaphore learns.
#[derive(Clone, Copy, Debug, PartialEq, Eq)]
pub enum News {
    /// The client wants the lock, or a permit.
    Begin,
    /// A try took the lock, or a permit.
    Got,
    /// A try found the lock held, or no permit free.
    Busy,
    /// The client listens.
    Listening,
    /// Listening failed.
    Refused,
    /// Registering, or the removal at a deadline, returned the tag of a notification.
    Told,
    /// Registering stored the client's task.
    Registered,
    /// The client's wake-up was there while the client was parked, or the client was polled without a wake-up.
    Woke,
    /// The removal at a deadline returned no tag.
    TimedOut,
    /// The client's listener was dropped, which propagates a notification.
    Dropped,
    /// The client freed the lock, or all its permits.
    Freed,
    /// The client's notification after that returned.
    Notified,
}

impl Place {
    /// Returns the place of a client after this news, or `None` if a client at this place can't learn this news.
    pub fn after(self, news: News) -> Option<Place>
        ensures { result ≡ place_after self news }
    {
        match (self, news) {
            (Place::Idle, News::Begin) => Some(Place::First { woken: false }),
            (Place::First { .. }, News::Got) => Some(Place::Holding),
            (Place::First { .. }, News::Busy) => Some(Place::ToListen),
            (Place::ToListen, News::Listening) => Some(Place::Second),
            (Place::ToListen, News::Refused) => Some(Place::Idle),
            (Place::Second, News::Got) => Some(Place::Ending),
            (Place::Second, News::Busy) => Some(Place::ToRegister),
            (Place::Ending, News::Dropped) => Some(Place::Holding),
            (Place::ToRegister, News::Told) => Some(Place::First { woken: true }),
            (Place::ToRegister, News::Registered) => Some(Place::Parked),
            (Place::ToRegister, News::Dropped) => Some(Place::Idle),
            (Place::Parked, News::Woke) => Some(Place::ToRegister),
            (Place::Parked, News::Told) => Some(Place::First { woken: true }),
            (Place::Parked, News::TimedOut) => Some(Place::Idle),
            (Place::Parked, News::Dropped) => Some(Place::Idle),
            (Place::Holding, News::Freed) => Some(Place::Releasing),
            (Place::Releasing, News::Notified) => Some(Place::Idle),
            _ => None,
        }
    }
}
