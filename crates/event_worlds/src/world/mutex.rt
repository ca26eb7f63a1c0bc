ghost use Rattle.std.specs.Prelude.{◌≡◌, ◌<◌, is_some, unwrap_or, Some, length, slice_get, IfOk, IsSome};
ghost use Rattle.event_worlds.specs.declared.world.acts.Act.TheVariants.{Go};
ghost use Rattle.event_worlds.specs.declared.world.place.News.TheVariants.{Got, Busy};
ghost use Rattle.event_worlds.specs.ClientTable.{place_after};
ghost use Rattle.event_worlds.specs.Line.{is_told, has_wake};
ghost use Rattle.event_worlds.specs.Mutex.{start, tried, from, next, after, after_all, taken};
ghost use Rattle.event_worlds.specs.MutexSafety.{IsSafe, HolderIsInside, AtMostOneTold, NotifiesDefault, InLineAreListening};
ghost use Rattle.event_worlds.specs.Served.{MayBeAt};
ghost use Rattle.event_worlds.specs.Steps.{Moves, Takes};

use super::acts::{Act, Step};
use super::client::{find, next_place, wait};
use super::line::ClientLine;
use super::place::{News, Place};
use std::alloc::{AllocError, Global};
use std::marker::Model;

/// A lock with its clients, and the line in which they wait for the lock.
///
/// A client tries the lock, listens, tries again, and waits until it is notified; a client that frees the lock notifies one
/// client. Each step of a client is one call of [`step`](MutexWorld::step). Whatever the schedule, no wake-up is lost.
#[derive(Drop)]
pub struct MutexWorld {
    holder: Option<usize>,
    places: Vec<Place>,
    line: ClientLine,
}

impl Model for MutexWorld {
    ghost use Rattle.event_worlds.specs.Mutex.{MutexState};
    ghost use Rattle.event_worlds.specs.MutexInvariant.{IsSound};

    ghost Value = { MutexState };

    ghost view = { λ world. record {
      holder = world.holder;
      places = world.places.items;
      line = world.line;
    } };

    ghost invariant = { λ world. IsSound
        (record { holder = world.holder; places = world.places.items; line = world.line }) };
}

// The client that has the lock after a step, and the place of the client that took the step.
#[derive(Clone, Copy)]
struct Move {
    holder: Option<usize>,
    place: Place,
}

impl MutexWorld {
    /// Makes a free lock with `clients` clients, none of which wants the lock. The first client that listens gets the serial
    /// number 0.
    ///
    /// The call allocates room for all clients, and returns an error if that fails. No later call allocates.
    pub fn new(alloc: Global, clients: usize) -> Result<Self, AllocError>
        ensures start { IfOk result (λ world. world ≡ start clients 0) }
        ensures safe { IfOk result IsSafe }
        ensures holder_is_the_one_inside { IfOk result HolderIsInside }
        ensures at_most_one_told { IfOk result AtMostOneTold }
        ensures notifies_default { IfOk result NotifiesDefault }
        ensures in_line_are_those_listening { IfOk result InLineAreListening }
    {
        Self::starting_at(alloc, clients, 0)
    }

    /// Makes a free lock with `clients` clients, the first of which that listens gets the serial number `first`.
    ///
    /// No listener gets `u64::MAX`, so a world that starts at a greater number has fewer serial numbers to give. The call
    /// allocates room for all clients, and returns an error if that fails. No later call allocates.
    pub fn starting_at(alloc: Global, clients: usize, first: u64) -> Result<Self, AllocError>
        ensures start { IfOk result (λ world. world ≡ start clients first) }
        ensures safe { IfOk result IsSafe }
        ensures holder_is_the_one_inside { IfOk result HolderIsInside }
        ensures at_most_one_told { IfOk result AtMostOneTold }
        ensures notifies_default { IfOk result NotifiesDefault }
        ensures in_line_are_those_listening { IfOk result InLineAreListening }
    {
        let places = vec![in alloc; Place::Idle; clients]?;
        let line = ClientLine::new(alloc, false, clients, first)?;
        let world = MutexWorld {
            holder: None,
            places,
            line,
        };
        world.reveal_invariant();
        Ok(world)
    }

    /// Takes a step of one client, and returns whether the table of steps has this act at the place of that client.
    ///
    /// Any other act, and any number that no client has, changes nothing, and returns `false`.
    pub fn step(&mut self, client: usize, act: Act) -> bool
        ensures step { self.new ≡ after client act self.old }
        ensures answer { result ≡ is_some (next client act self.old) }
        ensures safe { IsSafe self.new }
        ensures holder_is_the_one_inside { HolderIsInside self.new }
        ensures at_most_one_told { AtMostOneTold self.new }
        ensures notifies_default { NotifiesDefault self.new }
        ensures in_line_are_those_listening { InLineAreListening self.new }
    {
        let taken = self.take_step(client, act);
        self.reveal_invariant();
        taken
    }

    fn take_step(&mut self, client: usize, act: Act) -> bool
        ensures takes { Takes (next client act self.old) self.old result self.new }
    {
        let Some(place) = find(&self.places, client) else {
            return false;
        };
        match moves(self.holder, place, client, act, &mut self.line) {
            Some(made) => {
                self.holder = made.holder;
                self.places[client] = made.place;
                true
            }
            None => false,
        }
    }

    /// Takes the steps of a schedule, one after another, and returns how many were steps of the table. The other steps change
    /// nothing.
    pub fn run(&mut self, steps: &[Step]) -> usize
        ensures state { self.new ≡ after_all steps.now self.old }
        ensures taken { result ≡ taken steps.now self.old }
        ensures safe { IsSafe self.new }
        ensures holder_is_the_one_inside { HolderIsInside self.new }
        ensures at_most_one_told { AtMostOneTold self.new }
        ensures notifies_default { NotifiesDefault self.new }
        ensures in_line_are_those_listening { InLineAreListening self.new }
    {
        let mut taken = 0;
        for step in steps {
            taken += usize::from(self.take_step(step.client, step.act));
        }
        self.reveal_invariant();
        taken
    }

    // Shows what follows from what the type keeps, which is known where a field is read.
    fn reveal_invariant(&self)
        ensures safe { IsSafe self.now }
        ensures holder_is_the_one_inside { HolderIsInside self.now }
        ensures at_most_one_told { AtMostOneTold self.now }
        ensures notifies_default { NotifiesDefault self.now }
        ensures in_line_are_those_listening { InLineAreListening self.now }
    {
        let _line = &self.line;
    }

    /// Returns how many clients there are.
    pub fn clients(&self) -> usize
        ensures value { result ≡ length self.now.places }
    {
        self.places.len()
    }

    /// Returns the client that has the lock, or `None`.
    pub fn holder(&self) -> Option<usize>
        ensures value { result ≡ self.now.holder }
    {
        self.holder
    }

    /// Returns where a client is.
    pub fn place(&self, client: usize) -> Place
        requires client { client < length self.now.places }
        ensures value { slice_get self.now.places client ≡ Some result }
    {
        self.places[client]
    }

    /// Returns whether a client is notified, and has not left the line.
    pub fn is_told(&self, client: usize) -> bool
        requires client { client < length self.now.places }
        ensures value { result ≡ is_told client self.now.line }
    {
        self.line.is_told(client)
    }

    /// Returns whether a client has a wake-up. A wake-up that a client has when it leaves the line stays until the client listens
    /// again.
    pub fn has_wake(&self, client: usize) -> bool
        requires client { client < length self.now.places }
        ensures value { result ≡ has_wake client self.now.line }
    {
        self.line.has_wake(client)
    }
}

// The table of steps: returns the move that this act of a client at this place is, or `None` if the act is no step. The line
// changes with the move.
fn moves(
    holder: Option<usize>,
    place: Place,
    client: usize,
    act: Act,
    line: &mut ClientLine,
) -> Option<Move>
    requires client { client < length line.old.awake }
    requires may_be_at { MayBeAt place client line.old }
    ensures moves { Moves (from act place client holder line.old) line.old result line.new }
{
    match act {
        Act::Go => go(holder, place, client, line),
        Act::Poll | Act::TimeOut | Act::Cancel => {
            let place = wait(place, act, client, line)?;
            Some(Move { holder, place })
        }
    }
}

fn go(holder: Option<usize>, place: Place, client: usize, line: &mut ClientLine) -> Option<Move>
    requires client { client < length line.old.awake }
    requires may_be_at { MayBeAt place client line.old }
    ensures moves { Moves (from Go place client holder line.old) line.old result line.new }
{
    match place {
        Place::First { .. } | Place::Second => Some(try_lock(holder, place, client)),
        Place::Holding => Some(Move {
            holder: None,
            place: next_place(place, News::Freed),
        }),
        Place::Releasing => {
            line.notify(1);
            Some(Move {
                holder,
                place: next_place(place, News::Notified),
            })
        }
        Place::Idle | Place::ToListen | Place::Ending | Place::ToRegister | Place::Parked => {
            let place = wait(place, Act::Go, client, line)?;
            Some(Move { holder, place })
        }
    }
}

// Tries the lock, and takes it if it is free.
fn try_lock(holder: Option<usize>, place: Place, client: usize) -> Move
    requires may_get { IsSome (place_after place Got) }
    requires may_be_busy { IsSome (place_after place Busy) }
    ensures { result ≡ tried (unwrap_or (place_after place Got) place)
        (unwrap_or (place_after place Busy) place) client holder }
{
    match holder {
        None => Move {
            holder: Some(client),
            place: next_place(place, News::Got),
        },
        Some(_) => Move {
            holder,
            place: next_place(place, News::Busy),
        },
    }
}
