//! What a client has taken, and how the client gives it back.
ghost use Rattle.std.specs.Prelude.{◌≡◌};
ghost use Rattle.event_worlds.specs.declared.world.place.Place.TheVariants as place;

use super::Clients;
use super::client::Client;
use event_listener::IntoNotification;
use event_worlds::News;
use std::sync::Wait;

/// How many listeners to notify once something was freed.
#[derive(Clone, Copy, Debug, PartialEq, Eq)]
pub enum Owed {
    /// One listener, unless a listener is notified already.
    One,
    /// This many waiting listeners, whichever are notified already.
    Additional(usize),
}

/// What a client takes.
pub trait Taken {
    ghost use Rattle.example_events.specs.declared.locks.contended.held.Owed.{Owed};

    // How many listeners to notify once the taken thing is freed.
    ghost owed: { Self → Owed };

    /// Frees what was taken. Returns how many listeners to notify of that.
    fn free(self) -> Owed
        ensures { result ≡ owed self };
}

/// What a client has taken. It has to be [freed](Held::free).
pub struct Held<'a, V> {
    clients: &'a Clients,
    /// What the client has taken.
    pub taken: V,
    holder: Holder,
}

// A client that has taken something, and has no listener.
struct Holder {
    client: Client,
    ghost holds: { client ≡ place.Holding },
}

impl<'a, V> Held<'a, V> {
    pub(super) fn new(clients: &'a Clients, taken: V, client: Client) -> Self
        requires { client ≡ place.Holding }
        ensures { result.taken ≡ taken }
    {
        let holder = Holder { client };
        Held {
            clients,
            taken,
            holder,
        }
    }

    /// Frees what was taken. The notification is sent afterwards, so a client that is notified finds it free.
    pub fn free(self) -> Releasing<'a>
    where
        V: Taken,
        ensures { result.owed ≡ V.owed self.entry.taken }
    {
        let Held {
            clients,
            taken,
            holder,
        } = self;
        let Holder { mut client } = holder;
        let owed = taken.free();
        client.hears(News::Freed);
        Releasing {
            clients,
            owed,
            client,
        }
    }
}

/// A client that has freed what it had, and still owes a notification. Only [`Held::free`] makes a `Releasing`, and to
/// [notify](Releasing::notify) is the only thing to do with a `Releasing`.
pub struct Releasing<'a> {
    clients: &'a Clients,
    owed: Owed,
    client: Client,
    ghost releasing: { client ≡ place.Releasing },
}

impl Releasing<'_> {
    /// Notifies the listeners that are owed a notification.
    ///
    /// The call does not allocate. It may wait for the lock of the event.
    pub fn notify<R: Wait>(self, rt: &R) {
        let Releasing {
            clients,
            owed,
            mut client,
        } = self;
        let _ = match owed {
            Owed::One => clients.freed.notify(rt, 1),
            Owed::Additional(count) => clients.freed.notify(rt, count.additional()),
        };
        client.hears(News::Notified);
        client.leaves();
    }
}
