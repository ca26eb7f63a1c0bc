//! A client that listens, and waits to be notified.
ghost use Rattle.std.specs.Prelude.{◌≡◌, IsSome, IfOk};
ghost use Rattle.event_worlds.specs.declared.world.place.Place.TheVariants as place;

use super::client::{Client, Trying};
use event_listener::{EventListener, Limit, ListenError, Listener, NeverInserted, WaitError};
use event_worlds::News;
use futures::task::{Poll, Waker};
use std::sync::Wait;
use std::time::Clock;

/// A client that found nothing free twice, and listened in between. The client is about to register. Dropping a `Waiting` drops
/// its listener.
pub(crate) struct Waiting<R: Wait + Clock + Clone> {
    client: Client,
    listener: EventListener<(), R>,
    ghost registers: { client ≡ place.ToRegister },
}

/// A client whose task is stored. Dropping a `Parked` drops its listener.
pub(crate) struct Parked<R: Wait + Clock + Clone> {
    client: Client,
    listener: EventListener<(), R>,
    ghost parked: { client ≡ place.Parked },
}

/// What a client found when it registered.
pub(crate) enum Registered<R: Wait + Clock + Clone> {
    /// The client was notified, and tries again.
    Told(Trying),
    /// The client was not notified, and its task is stored.
    Stored(Parked<R>),
}

impl<R: Wait + Clock + Clone> Waiting<R> {
    pub(super) fn new(client: Client, listener: EventListener<(), R>) -> Self
        requires { client ≡ place.ToRegister }
    {
        Waiting { client, listener }
    }

    /// Blocks the calling thread until the client is notified, or returns `None` once the limit has passed.
    pub(super) fn wait(self, limit: Limit) -> Result<Option<Trying>, ListenError>
        ensures { limit ≡ Limit.Never → IfOk result IsSome }
    {
        let Waiting {
            mut client,
            listener,
        } = self;
        match listener.wait_until(limit) {
            // A listener that is not in the queue was notified before.
            Ok(Some(())) | Err(WaitError::NeverInserted) => Ok(Some(Trying::told(client))),
            Ok(None) => {
                client.hears(News::Registered);
                client.hears(News::TimedOut);
                client.leaves();
                Ok(None)
            }
            Err(WaitError::Memory(listener)) => {
                client.drops(listener);
                client.leaves();
                Err(ListenError::Memory)
            }
        }
    }

    /// Stores the waker, unless the client was notified.
    pub(crate) fn register(self, waker: Waker) -> Registered<R> {
        let Waiting {
            mut client,
            mut listener,
        } = self;
        match listener.poll(waker) {
            // A listener that is not in the queue was notified before.
            Ok(Poll::Ready(())) | Err(NeverInserted) => Registered::Told(Trying::told(client)),
            Ok(Poll::Pending) => {
                client.hears(News::Registered);
                Registered::Stored(Parked { client, listener })
            }
        }
    }
}

impl<R: Wait + Clock + Clone> Parked<R> {
    /// Has the client go on that is woken, or polled without being woken.
    pub(crate) fn wakes(self) -> Waiting<R> {
        let Parked {
            mut client,
            listener,
        } = self;
        client.hears(News::Woke);
        Waiting { client, listener }
    }
}

impl<R: Wait + Clock + Clone> Drop for Waiting<R> {
    fn drop(self) {
        let Self {
            mut client,
            listener,
        } = self;
        client.drops(listener);
        client.leaves();
    }
}

impl<R: Wait + Clock + Clone> Drop for Parked<R> {
    fn drop(self) {
        let Self {
            mut client,
            listener,
        } = self;
        client.drops(listener);
        client.leaves();
    }
}
