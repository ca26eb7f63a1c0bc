//! A client, and what it is at the places where it has no listener.
ghost use Rattle.std.specs.Prelude.{◌≡◌, ◌≢◌, IsSome, Some, false};
ghost use Rattle.event_worlds.specs.declared.world.place.News.TheVariants as news;
ghost use Rattle.event_worlds.specs.declared.world.place.Place.TheVariants as place;
ghost use Rattle.event_worlds.specs.ClientTable.{place_after, is_listening};

use event_listener::EventListener;
use event_worlds::{News, Place};
use std::marker::Model;
use std::sync::Wait;
use std::time::Clock;

/// One client, by its place. A new client is idle; from then on its place is what [`Place::after`] says of the place before.
///
/// A client is no `Drop`: a client that has a listener has to drop the listener before it [leaves](Client::leaves).
pub(super) struct Client {
    place: Place,
}

impl Model for Client {
    ghost use Rattle.event_worlds.specs.declared.world.place.Place.{Place};

    ghost Value = { Place };

    ghost view = { λ client. client.place };
}

impl Client {
    fn new() -> Self
        ensures { result ≡ place.Idle }
    {
        Client { place: Place::Idle }
    }

    /// Moves the client on by this news. That its listener was dropped is no such news: a client hears that from
    /// [`drops`](Client::drops), which drops the listener.
    pub(super) fn hears(&mut self, news: News)
        requires comes_here { IsSome (place_after self.old news) }
        requires keeps_its_listener { news ≢ News.Dropped }
        ensures { place_after self.old news ≡ Some self.new }
    {
        self.goes_on(news);
    }

    /// Drops the client's listener, and has the client hear that. If the listener was notified, its drop notifies another
    /// listener.
    pub(super) fn drops<R: Wait + Clock + Clone>(&mut self, listener: EventListener<(), R>)
        requires { IsSome (place_after self.old news.Dropped) }
        ensures { place_after self.old news.Dropped ≡ Some self.new }
    {
        drop(listener);
        self.goes_on(News::Dropped);
    }

    /// Ends the client, which has no listener.
    pub(super) fn leaves(self)
        requires { is_listening self ≡ false }
    {
        let Client { place: _ } = self;
    }

    fn goes_on(&mut self, news: News)
        requires { IsSome (place_after self.old news) }
        ensures { place_after self.old news ≡ Some self.new }
    {
        match self.place.after(news) {
            Some(place) => self.place = place,
            None => unreachable!(),
        }
    }
}

/// A client that is about to try, and has no listener.
pub(crate) struct Trying {
    client: Client,
    ghost got: { place_after client news.Got ≡ Some place.Holding },
    ghost busy: { place_after client news.Busy ≡ Some place.ToListen },
}

impl Trying {
    /// Makes a new client, which begins to want something.
    pub(crate) fn begin() -> Self {
        let mut client = Client::new();
        client.hears(News::Begin);
        Trying { client }
    }

    /// Makes a client try again that registered and found that it was notified. The client has no listener any more.
    pub(super) fn told(client: Client) -> Self
        requires { client ≡ place.ToRegister }
    {
        let mut client = client;
        client.hears(News::Told);
        Trying { client }
    }

    pub(super) fn into_client(self) -> Client
        ensures got { place_after result news.Got ≡ Some place.Holding }
        ensures busy { place_after result news.Busy ≡ Some place.ToListen }
    {
        let Trying { client } = self;
        client
    }
}
