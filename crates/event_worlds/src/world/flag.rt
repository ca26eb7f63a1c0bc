ghost use Rattle.std.specs.Prelude.{◌≡◌, ◌<◌, [], is_some, length, slice_get, Some, IfOk};
ghost use Rattle.event_worlds.specs.declared.world.flag.SetterPlace.TheVariants.{ToNotify};
ghost use Rattle.event_worlds.specs.Line.{everybody, is_told, has_wake, notified};
ghost use Rattle.event_worlds.specs.Flag.{start, lock_place, flag_place, from, from_setter, next, next_of_client, next_of_setter, after, after_all, taken};
ghost use Rattle.event_worlds.specs.FlagSafety.{IsSafe, NotifiesDefault, InLineAreListening};
ghost use Rattle.event_worlds.specs.Served.{MayBeAt};
ghost use Rattle.event_worlds.specs.Steps.{Moves, Takes};

use super::acts::{Act, Step};
use super::client::{find, wait};
use super::line::ClientLine;
use super::place::Place;
use std::alloc::{AllocError, Global};
use std::marker::Model;

/// Where a client that waits for a flag is in its loop.
#[derive(Clone, Copy, Debug, PartialEq, Eq)]
pub enum FlagPlace {
    /// The client is about to look at the flag, with no listener.
    Check1,
    /// The client found the flag not set, and is about to listen.
    ToListen,
    /// The client listens, and is about to look again.
    Check2,
    /// The client's second look found the flag set, and its listener is still to be dropped.
    Dropping,
    /// The client's second look found the flag not set, or the client woke: it is about to register.
    ToRegister,
    /// The client has registered, and waits for its wake-up.
    Parked,
    /// The client waits no longer: the flag was set, or listening failed.
    Done,
}

impl FlagPlace {
    // Returns the place of a client of a lock that is at this place of its loop.
    fn in_lock(self) -> Place
        ensures { result ≡ lock_place self }
    {
        match self {
            FlagPlace::Check1 => Place::First { woken: true },
            FlagPlace::ToListen => Place::ToListen,
            FlagPlace::Check2 => Place::Second,
            FlagPlace::Dropping => Place::Ending,
            FlagPlace::ToRegister => Place::ToRegister,
            FlagPlace::Parked => Place::Parked,
            FlagPlace::Done => Place::Idle,
        }
    }

    // Returns the place of a client of a flag that is at this place of a lock's loop.
    fn at(place: Place) -> Self
        ensures { result ≡ flag_place place }
    {
        match place {
            Place::First { .. } => FlagPlace::Check1,
            Place::ToListen => FlagPlace::ToListen,
            Place::Second => FlagPlace::Check2,
            Place::Ending => FlagPlace::Dropping,
            Place::ToRegister => FlagPlace::ToRegister,
            Place::Parked => FlagPlace::Parked,
            Place::Idle | Place::Holding | Place::Releasing => FlagPlace::Done,
        }
    }
}

/// Where a setter of a flag is.
#[derive(Clone, Copy, Debug, PartialEq, Eq)]
pub enum SetterPlace {
    /// The setter is about to set the flag.
    ToSet,
    /// The setter has set the flag, and is about to notify all clients.
    ToNotify,
    /// The setter has notified.
    Done,
}

/// A flag with its clients, the line in which they wait for the flag, and its setters.
///
/// A client looks at the flag, listens, looks again, and waits until it is notified; a setter sets the flag, and then notifies
/// all clients. Each step is one call of [`step`](FlagWorld::step). Whatever the schedule, no wake-up is lost.
#[derive(Drop)]
pub struct FlagWorld {
    flag: bool,
    places: Vec<FlagPlace>,
    setters: Vec<SetterPlace>,
    line: ClientLine,
}

impl Model for FlagWorld {
    ghost use Rattle.event_worlds.specs.Flag.{FlagState};
    ghost use Rattle.event_worlds.specs.FlagInvariant.{IsSound};

    ghost Value = { FlagState };

    ghost view = { λ world. record {
      flag = world.flag;
      places = world.places.items;
      setters = world.setters.items;
      line = world.line;
    } };

    ghost invariant = { λ world. IsSound (record {
      flag = world.flag;
      places = world.places.items;
      setters = world.setters.items;
      line = world.line;
    }) };
}

// The place of a setter after its step, and whether the flag is set then.
#[derive(Clone, Copy)]
struct SetterMove {
    place: SetterPlace,
    flag: bool,
}

impl FlagWorld {
    /// Makes a flag that is not set, with clients that have not looked at it, and with setters. The first client that listens
    /// gets the serial number 0.
    ///
    /// The call allocates room for all clients and setters, and returns an error if that fails. No later call allocates.
    pub fn new(alloc: Global, clients: usize, setters: usize) -> Result<Self, AllocError>
        ensures start { IfOk result (λ world. world ≡ start clients setters 0) }
        ensures safe { IfOk result IsSafe }
        ensures notifies_default { IfOk result NotifiesDefault }
        ensures in_line_are_those_listening { IfOk result InLineAreListening }
    {
        Self::starting_at(alloc, clients, setters, 0)
    }

    /// Makes a flag that is not set, with clients and setters; the first client that listens gets the serial number `first`.
    ///
    /// No listener gets `u64::MAX`, so a world that starts at a greater number has fewer serial numbers to give. The call
    /// allocates room for all clients and setters, and returns an error if that fails. No later call allocates.
    pub fn starting_at(
        alloc: Global,
        clients: usize,
        setters: usize,
        first: u64,
    ) -> Result<Self, AllocError>
        ensures start { IfOk result (λ world. world ≡ start clients setters first) }
        ensures safe { IfOk result IsSafe }
        ensures notifies_default { IfOk result NotifiesDefault }
        ensures in_line_are_those_listening { IfOk result InLineAreListening }
    {
        let places = vec![in alloc; FlagPlace::Check1; clients]?;
        let setters = vec![in alloc; SetterPlace::ToSet; setters]?;
        let line = ClientLine::new(alloc, false, clients, first)?;
        let world = FlagWorld {
            flag: false,
            places,
            setters,
            line,
        };
        world.reveal_invariant();
        Ok(world)
    }

    /// Takes a step of one actor, and returns whether the tables of steps have this act at the place of that actor.
    ///
    /// The numbers below [`clients`](FlagWorld::clients) are those of the clients, and the next ones those of the setters. Any
    /// other act, and any number that no actor has, changes nothing, and returns `false`.
    pub fn step(&mut self, actor: usize, act: Act) -> bool
        ensures step { self.new ≡ after actor act self.old }
        ensures answer { result ≡ is_some (next actor act self.old) }
        ensures safe { IsSafe self.new }
        ensures notifies_default { NotifiesDefault self.new }
        ensures in_line_are_those_listening { InLineAreListening self.new }
    {
        let taken = self.take_step(actor, act);
        self.reveal_invariant();
        taken
    }

    fn take_step(&mut self, actor: usize, act: Act) -> bool
        ensures takes { Takes (next actor act self.old) self.old result self.new }
    {
        let clients = self.places.len();
        match act {
            Act::Go => {
                if actor < clients {
                    self.take_client_step(actor)
                } else {
                    self.take_setter_step(actor - clients)
                }
            }
            Act::Poll | Act::TimeOut | Act::Cancel => false,
        }
    }

    fn take_client_step(&mut self, client: usize) -> bool
        ensures takes { Takes (next_of_client client self.old) self.old result self.new }
    {
        let Some(place) = find(&self.places, client) else {
            return false;
        };
        match moves(place, client, self.flag, &mut self.line) {
            Some(place) => {
                self.places[client] = place;
                true
            }
            None => false,
        }
    }

    fn take_setter_step(&mut self, setter: usize) -> bool
        ensures takes { Takes (next_of_setter setter self.old) self.old result self.new }
    {
        let Some(place) = find(&self.setters, setter) else {
            return false;
        };
        match setter_moves(place, self.flag, &mut self.line) {
            Some(made) => {
                self.flag = made.flag;
                self.setters[setter] = made.place;
                true
            }
            None => false,
        }
    }

    /// Takes the steps of a schedule, one after another, and returns how many were steps of the tables. The client of a step is
    /// its actor.
    pub fn run(&mut self, steps: &[Step]) -> usize
        ensures state { self.new ≡ after_all steps.now self.old }
        ensures taken { result ≡ taken steps.now self.old }
        ensures safe { IsSafe self.new }
        ensures notifies_default { NotifiesDefault self.new }
        ensures in_line_are_those_listening { InLineAreListening self.new }
    {
        let mut taken = 0;
        for step in steps {
            taken += usize::from(self.take_step(step.client, step.act));
        }
        self.reveal_invariant();
        taken
    }

    // Shows what follows from what the type keeps, which is known where a field is read.
    fn reveal_invariant(&self)
        ensures safe { IsSafe self.now }
        ensures notifies_default { NotifiesDefault self.now }
        ensures in_line_are_those_listening { InLineAreListening self.now }
    {
        let _line = &self.line;
    }

    /// Returns whether the flag is set.
    pub fn flag(&self) -> bool
        ensures value { result ≡ self.now.flag }
    {
        self.flag
    }

    /// Returns how many clients there are.
    pub fn clients(&self) -> usize
        ensures value { result ≡ length self.now.places }
    {
        self.places.len()
    }

    /// Returns how many setters there are.
    pub fn setters(&self) -> usize
        ensures value { result ≡ length self.now.setters }
    {
        self.setters.len()
    }

    /// Returns where a client is.
    pub fn place(&self, client: usize) -> FlagPlace
        requires client { client < length self.now.places }
        ensures value { slice_get self.now.places client ≡ Some result }
    {
        self.places[client]
    }

    /// Returns where a setter is, by its number among the setters.
    pub fn setter(&self, setter: usize) -> SetterPlace
        requires setter { setter < length self.now.setters }
        ensures value { slice_get self.now.setters setter ≡ Some result }
    {
        self.setters[setter]
    }

    /// Returns whether a client is notified, and has not left the line.
    pub fn is_told(&self, client: usize) -> bool
        requires client { client < length self.now.places }
        ensures value { result ≡ is_told client self.now.line }
    {
        self.line.is_told(client)
    }

    /// Returns whether a client has a wake-up. A wake-up that a client has when it leaves the line stays until the client listens
    /// again.
    pub fn has_wake(&self, client: usize) -> bool
        requires client { client < length self.now.places }
        ensures value { result ≡ has_wake client self.now.line }
    {
        self.line.has_wake(client)
    }
}

// The table of a client: returns the next place of a client at this place, or `None` if the client has no step. The line changes
// with the step.
fn moves(place: FlagPlace, client: usize, flag: bool, line: &mut ClientLine) -> Option<FlagPlace>
    requires client { client < length line.old.awake }
    requires may_be_at { MayBeAt (lock_place place) client line.old }
    ensures moves { Moves (from place client flag line.old) line.old result line.new }
{
    match place {
        FlagPlace::Check1 => Some(if flag {
            FlagPlace::Done
        } else {
            FlagPlace::ToListen
        }),
        FlagPlace::Check2 => Some(if flag {
            FlagPlace::Dropping
        } else {
            FlagPlace::ToRegister
        }),
        FlagPlace::Dropping => {
            line.drop_out(client);
            Some(FlagPlace::Done)
        }
        FlagPlace::Done => None,
        FlagPlace::ToListen | FlagPlace::ToRegister | FlagPlace::Parked => {
            let next = wait(place.in_lock(), Act::Go, client, line)?;
            Some(FlagPlace::at(next))
        }
    }
}

// The table of a setter: returns the move of a setter at this place, or `None` if the setter has no step. The line changes with
// the step.
fn setter_moves(place: SetterPlace, flag: bool, line: &mut ClientLine) -> Option<SetterMove>
    ensures moves { Moves (from_setter place flag line.old) line.old result line.new }
    ensures nobody_waits { place ≡ ToNotify → (notified everybody line.old).waiting ≡ [] }
{
    match place {
        SetterPlace::ToSet => Some(SetterMove {
            place: SetterPlace::ToNotify,
            flag: true,
        }),
        SetterPlace::ToNotify => {
            line.notify_all();
            Some(SetterMove {
                place: SetterPlace::Done,
                flag,
            })
        }
        SetterPlace::Done => None,
    }
}
