//! The way of a client to what it wants, be that a lock or a permit.
//!
//! What can be wanted is [`Contended`]. A client takes it by [`try_once`], [`take`] or [`take_timeout`], and has it as [`Held`]
//! then. The client can do two things with a `Held`, in this order: [`Held::free`] makes a [`Releasing`], and
//! [`Releasing::notify`] ends the `Releasing`. Neither is a `Drop`, so a client that has a `Held` or a `Releasing` has to go
//! on, and no client notifies before it frees.
ghost use Rattle.std.specs.Prelude.{◌≡◌, IsSome, IsNone, IfOk, IfSome, Some};
ghost use Rattle.event_worlds.specs.ClientTable.{place_after};
ghost use Rattle.event_worlds.specs.declared.world.place.News.TheVariants as news;
ghost use Rattle.example_events.specs.Turn.{IfHolds};

mod client;
mod held;
mod waiting;

use client::Client;
pub(crate) use client::Trying;
use event_listener::{Event, EventId, Limit, ListenError};
use event_worlds::News;
pub use held::{Held, Owed, Releasing, Taken};
use std::alloc::Global;
use std::marker::Model;
use std::sync::Wait;
use std::time::{Clock, Duration};
pub(crate) use waiting::{Parked, Registered, Waiting};

/// What clients want: a lock, or one of a semaphore's permits.
pub trait Contended<'a>: Copy {
    /// What a try takes.
    type Taken: Taken;

    // What a try may have taken.
    ghost is_new: { Self.Taken → Type 0 };

    /// Returns the clients that want it.
    fn clients(self) -> &'a Clients;

    /// Tries once: takes what is wanted, if it is free. The call neither allocates nor waits.
    fn try_take(self) -> Option<Self::Taken>
        ensures { IfSome result is_new };
}

/// The clients that want one lock, or permits of one semaphore: the event that they listen to while they wait.
///
/// A contract sees `Clients` as the number of the event.
#[derive(Drop)]
pub struct Clients {
    freed: Event,
}

impl Model for Clients {
    ghost use Rattle.std.specs.Prelude.{ℕ};

    ghost Value = { ℕ };

    ghost view = { λ clients. clients.freed };
}

impl Clients {
    /// Makes the list of the clients, of which there are none yet.
    ///
    /// The call neither allocates nor waits.
    pub fn new(id: EventId) -> Self
        ensures { result ≡ id }
    {
        Clients {
            freed: Event::new(id),
        }
    }
}

/// Takes what is wanted if it is free. A client that finds it taken goes no further.
///
/// The call neither allocates nor waits.
pub fn try_once<'a, C: Contended<'a>>(contended: C) -> Option<Held<'a, C::Taken>>
    ensures { IfSome result (λ held. C.is_new held.taken) }
{
    let mut client = Trying::begin().into_client();
    match try_take(contended, &mut client) {
        Some(taken) => Some(Held::new(contended.clients(), taken, client)),
        None => {
            client.leaves();
            None
        }
    }
}

/// Blocks the calling thread until it has taken what is wanted.
///
/// Returns the error of listening, or [`ListenError::Memory`] if there is no memory for what the thread parks on. Either
/// leaves no listener.
pub fn take<'a, C, R>(
    contended: C,
    rt: &R,
    alloc: Global,
) -> Result<Held<'a, C::Taken>, ListenError>
where
    C: Contended<'a>,
    R: Wait + Clock + Clone,
    ensures { IfOk result (λ held. C.is_new held.taken) }
{
    match take_within(contended, rt, alloc, Limit::Never)? {
        Some(held) => Ok(held),
        None => unreachable!(),
    }
}

/// Blocks the calling thread until it has taken what is wanted, or returns `None` once the timeout has passed.
///
/// The time begins with the call, as [`Limit::after`] says. The errors are those of [`take`].
pub fn take_timeout<'a, C, R>(
    contended: C,
    rt: &R,
    alloc: Global,
    timeout: Duration,
) -> Result<Option<Held<'a, C::Taken>>, ListenError>
where
    C: Contended<'a>,
    R: Wait + Clock + Clone,
    ensures { IfOk result (λ answer. IfSome answer (λ held. C.is_new held.taken)) }
{
    take_within(contended, rt, alloc, Limit::after(rt, timeout))
}

// All waits have the one limit, however often the client is notified and finds nothing.
fn take_within<'a, C, R>(
    contended: C,
    rt: &R,
    alloc: Global,
    limit: Limit,
) -> Result<Option<Held<'a, C::Taken>>, ListenError>
where
    C: Contended<'a>,
    R: Wait + Clock + Clone,
    ensures unlimited { limit ≡ Limit.Never → IfOk result IsSome }
    ensures taken { IfOk result (λ answer. IfSome answer (λ held. C.is_new held.taken)) }
{
    let mut trying = Trying::begin();
    for _ in rt.forever() {
        let waiting = match try_twice(contended, rt, alloc, trying)? {
            Turn::Holds(held) => return Ok(Some(held)),
            Turn::Waits(waiting) => waiting,
        };
        match waiting.wait(limit)? {
            Some(told) => trying = told,
            None => return Ok(None),
        }
    }
    unreachable!()
}

/// What a client has once it has tried twice and listened in between.
pub(crate) enum Turn<'a, V, R: Wait + Clock + Clone> {
    Holds(Held<'a, V>),
    Waits(Waiting<R>),
}

/// Tries, listens, and tries again: if what is wanted was freed before the listener was in the queue, that notification did not
/// reach the listener.
pub(crate) fn try_twice<'a, C, R>(
    contended: C,
    rt: &R,
    alloc: Global,
    trying: Trying,
) -> Result<Turn<'a, C::Taken, R>, ListenError>
where
    C: Contended<'a>,
    R: Wait + Clock + Clone,
    ensures { IfOk result (λ turn. IfHolds turn C.is_new) }
{
    let clients = contended.clients();
    let mut client = trying.into_client();
    if let Some(taken) = try_take(contended, &mut client) {
        return Ok(Turn::Holds(Held::new(clients, taken, client)));
    }
    let listener = match clients.freed.listen(rt, alloc) {
        Ok(listener) => listener,
        Err(refusal) => {
            client.hears(News::Refused);
            client.leaves();
            return Err(refusal);
        }
    };
    client.hears(News::Listening);
    match try_take(contended, &mut client) {
        Some(taken) => {
            client.drops(listener);
            Ok(Turn::Holds(Held::new(clients, taken, client)))
        }
        None => Ok(Turn::Waits(Waiting::new(client, listener))),
    }
}

// Tries once.
fn try_take<'a, C: Contended<'a>>(contended: C, client: &mut Client) -> Option<C::Taken>
    requires got { IsSome (place_after client.old news.Got) }
    requires busy { IsSome (place_after client.old news.Busy) }
    ensures got { IsSome result → place_after client.old news.Got ≡ Some client.new }
    ensures busy { IsNone result → place_after client.old news.Busy ≡ Some client.new }
    ensures new { IfSome result C.is_new }
{
    let taken = contended.try_take();
    client.hears(if taken.is_some() {
        News::Got
    } else {
        News::Busy
    });
    taken
}
