ghost use Rattle.std.specs.Prelude.{◌≡◌, ℕ, ◌+◌, ◌^◌, ◌<◌, is_some, unwrap_or, length, slice_get, IfOk, IsSome, IsSomeAnd};
ghost use Rattle.event_worlds.specs.declared.world.acts.SemAct.TheVariants.{Go, More};
ghost use Rattle.event_worlds.specs.declared.world.place.News.TheVariants.{Got, Busy, Freed, Notified};
ghost use Rattle.event_worlds.specs.ClientTable.{place_after};
ghost use Rattle.event_worlds.specs.Line.{Line, is_told, has_wake, notified};
ghost use Rattle.event_worlds.specs.Semaphore.{start, tried, freed, paid, from, next, after, after_all, taken};
ghost use Rattle.event_worlds.specs.SemaphoreSafety.{IsSafe, PermitsAddUp, NotifiesAdditional, InLineAreListening};
ghost use Rattle.event_worlds.specs.Served.{MayBeAt};
ghost use Rattle.event_worlds.specs.Steps.{Moves, Takes};

use super::acts::{Act, SemAct, SemStep};
use super::client::{find, next_place, wait};
use super::line::ClientLine;
use super::place::{News, Place};
use std::alloc::{AllocError, Global};
use std::marker::Model;

// A client: its place, how many permits it holds, and of how many permits that it freed it is still to notify.
#[derive(Clone, Copy)]
struct SemaphoreClient {
    place: Place,
    held: usize,
    owed: usize,
}

/// A semaphore with its clients, and the line in which they wait for its permits.
///
/// A client tries to take a permit, listens, tries again, and waits until it is notified. A client that holds a permit may take
/// more. A client frees all its permits at once, and then notifies as many clients, additional to those notified already. Each
/// step of a client is one call of [`step`](SemaphoreWorld::step). Whatever the schedule, no wake-up and no permit is lost.
#[derive(Drop)]
pub struct SemaphoreWorld {
    permits: usize,
    free: usize,
    clients: Vec<SemaphoreClient>,
    line: ClientLine,
}

impl Model for SemaphoreWorld {
    ghost use Rattle.event_worlds.specs.Semaphore.{SemaphoreState};
    ghost use Rattle.event_worlds.specs.SemaphoreInvariant.{IsSound};

    ghost Value = { SemaphoreState };

    ghost view = { λ world. record {
      permits = world.permits;
      free = world.free;
      clients = world.clients.items;
      line = world.line;
    } };

    ghost invariant = { λ world. IsSound (record {
      permits = world.permits;
      free = world.free;
      clients = world.clients.items;
      line = world.line;
    }) };
}

// A client and the free permits after a step.
#[derive(Clone, Copy)]
struct SemaphoreMove {
    own: SemaphoreClient,
    free: usize,
}

impl SemaphoreWorld {
    /// Makes a semaphore of `permits` permits, all free, with `clients` clients, none of which wants a permit.
    ///
    /// The call allocates room for all clients, and returns an error if that fails. No later call allocates.
    pub fn new(alloc: Global, clients: usize, permits: usize) -> Result<Self, AllocError>
        ensures start { IfOk result (λ world. world ≡ start clients permits) }
        ensures safe { IfOk result IsSafe }
        ensures permits_add_up { IfOk result PermitsAddUp }
        ensures notifies_additional { IfOk result NotifiesAdditional }
        ensures in_line_are_those_listening { IfOk result InLineAreListening }
    {
        let idle = SemaphoreClient {
            place: Place::Idle,
            held: 0,
            owed: 0,
        };
        let clients_idle = vec![in alloc; idle; clients]?;
        let line = ClientLine::new(alloc, true, clients, 0)?;
        let world = SemaphoreWorld {
            permits,
            free: permits,
            clients: clients_idle,
            line,
        };
        world.reveal_invariant();
        Ok(world)
    }

    /// Takes a step of one client, and returns whether the table of steps has this act at the place of that client.
    ///
    /// Any other act, and any number that no client has, changes nothing, and returns `false`.
    pub fn step(&mut self, client: usize, act: SemAct) -> bool
        ensures step { self.new ≡ after client act self.old }
        ensures answer { result ≡ is_some (next client act self.old) }
        ensures safe { IsSafe self.new }
        ensures permits_add_up { PermitsAddUp self.new }
        ensures notifies_additional { NotifiesAdditional self.new }
        ensures in_line_are_those_listening { InLineAreListening self.new }
    {
        let taken = self.take_step(client, act);
        self.reveal_invariant();
        taken
    }

    fn take_step(&mut self, client: usize, act: SemAct) -> bool
        ensures takes { Takes (next client act self.old) self.old result self.new }
    {
        let Some(own) = find(&self.clients, client) else {
            return false;
        };
        match moves(own, self.free, client, act, &mut self.line) {
            Some(made) => {
                self.free = made.free;
                self.clients[client] = made.own;
                true
            }
            None => false,
        }
    }

    /// Takes the steps of a schedule, one after another, and returns how many were steps of the table. The other steps change
    /// nothing.
    pub fn run(&mut self, steps: &[SemStep]) -> usize
        ensures state { self.new ≡ after_all steps.now self.old }
        ensures taken { result ≡ taken steps.now self.old }
        ensures safe { IsSafe self.new }
        ensures permits_add_up { PermitsAddUp self.new }
        ensures notifies_additional { NotifiesAdditional self.new }
        ensures in_line_are_those_listening { InLineAreListening self.new }
    {
        let mut taken = 0;
        for step in steps {
            taken += usize::from(self.take_step(step.client, step.act));
        }
        self.reveal_invariant();
        taken
    }

    // Shows what follows from what the type keeps, which is known where a field is read.
    fn reveal_invariant(&self)
        ensures safe { IsSafe self.now }
        ensures permits_add_up { PermitsAddUp self.now }
        ensures notifies_additional { NotifiesAdditional self.now }
        ensures in_line_are_those_listening { InLineAreListening self.now }
    {
        let _line = &self.line;
    }

    /// Returns how many clients there are.
    pub fn clients(&self) -> usize
        ensures value { result ≡ length self.now.clients }
    {
        self.clients.len()
    }

    /// Returns how many permits there are, free or held.
    pub fn permits(&self) -> usize
        ensures value { result ≡ self.now.permits }
    {
        self.permits
    }

    /// Returns how many permits are free.
    pub fn free(&self) -> usize
        ensures value { result ≡ self.now.free }
    {
        self.free
    }

    /// Returns where a client is.
    pub fn place(&self, client: usize) -> Place
        requires client { client < length self.now.clients }
        ensures value { IsSomeAnd (slice_get self.now.clients client) (λ own. own.place ≡ result) }
    {
        self.clients[client].place
    }

    /// Returns how many permits a client holds.
    pub fn held(&self, client: usize) -> usize
        requires client { client < length self.now.clients }
        ensures value { IsSomeAnd (slice_get self.now.clients client) (λ own. own.held ≡ result) }
    {
        self.clients[client].held
    }

    /// Returns of how many permits that it freed a client is still to notify.
    pub fn owed(&self, client: usize) -> usize
        requires client { client < length self.now.clients }
        ensures value { IsSomeAnd (slice_get self.now.clients client) (λ own. own.owed ≡ result) }
    {
        self.clients[client].owed
    }

    /// Returns whether a client is notified, and has not left the line.
    pub fn is_told(&self, client: usize) -> bool
        requires client { client < length self.now.clients }
        ensures value { result ≡ is_told client self.now.line }
    {
        self.line.is_told(client)
    }

    /// Returns whether a client has a wake-up. A wake-up that a client has when it leaves the line stays until the client listens
    /// again.
    pub fn has_wake(&self, client: usize) -> bool
        requires client { client < length self.now.clients }
        ensures value { result ≡ has_wake client self.now.line }
    {
        self.line.has_wake(client)
    }
}

// The table of steps: returns the client and the free permits after this act of a client at its place, or `None` if the act is no
// step. The line changes with the step.
fn moves(
    own: SemaphoreClient,
    free: usize,
    client: usize,
    act: SemAct,
    line: &mut ClientLine,
) -> Option<SemaphoreMove>
    requires client { client < length line.old.awake }
    requires may_be_at { MayBeAt own.place client line.old }
    requires fits { free + own.held < 2 ^ 64 }
    ensures moves { Moves (from act own.place client own free line.old) line.old result line.new }
{
    let place = match act {
        SemAct::Go => return go(own, free, client, line),
        SemAct::More => return take_more(own, free),
        SemAct::TimeOut => wait(own.place, Act::TimeOut, client, line)?,
        SemAct::Cancel => wait(own.place, Act::Cancel, client, line)?,
    };
    Some(SemaphoreMove {
        own: SemaphoreClient { place, ..own },
        free,
    })
}

fn go(
    own: SemaphoreClient,
    free: usize,
    client: usize,
    line: &mut ClientLine,
) -> Option<SemaphoreMove>
    requires client { client < length line.old.awake }
    requires may_be_at { MayBeAt own.place client line.old }
    requires fits { free + own.held < 2 ^ 64 }
    ensures moves { Moves (from Go own.place client own free line.old) line.old result line.new }
{
    match own.place {
        Place::First { .. } | Place::Second => Some(try_acquire(own, free)),
        Place::Holding => Some(release(own, free)),
        Place::Releasing => Some(notify(own, free, line)),
        Place::Idle | Place::ToListen | Place::Ending | Place::ToRegister | Place::Parked => {
            let place = wait(own.place, Act::Go, client, line)?;
            Some(SemaphoreMove {
                own: SemaphoreClient { place, ..own },
                free,
            })
        }
    }
}

// Tries to take a permit, and takes one if one is free.
fn try_acquire(own: SemaphoreClient, free: usize) -> SemaphoreMove
    requires may_get { IsSome (place_after own.place Got) }
    requires may_be_busy { IsSome (place_after own.place Busy) }
    ensures { result ≡ tried (unwrap_or (place_after own.place Got) own.place)
        (unwrap_or (place_after own.place Busy) own.place) own free }
{
    if free > 0 {
        SemaphoreMove {
            own: SemaphoreClient {
                place: next_place(own.place, News::Got),
                held: 1,
                ..own
            },
            free: free - 1,
        }
    } else {
        SemaphoreMove {
            own: SemaphoreClient {
                place: next_place(own.place, News::Busy),
                ..own
            },
            free,
        }
    }
}

// Frees all permits that the client holds, in one step. The client is to notify of as many.
fn release(own: SemaphoreClient, free: usize) -> SemaphoreMove
    requires may_free { IsSome (place_after own.place Freed) }
    requires fits { free + own.held < 2 ^ 64 }
    ensures { result ≡ freed (unwrap_or (place_after own.place Freed) own.place) own free }
{
    SemaphoreMove {
        own: SemaphoreClient {
            place: next_place(own.place, News::Freed),
            held: 0,
            owed: own.held,
        },
        free: free + own.held,
    }
}

// Notifies of all permits that the client freed.
fn notify(own: SemaphoreClient, free: usize, line: &mut ClientLine) -> SemaphoreMove
    requires may_notify { IsSome (place_after own.place Notified) }
    ensures made { result ≡ paid (unwrap_or (place_after own.place Notified) own.place) own free }
    ensures line { line.new ≡ notified own.owed line.old }
{
    line.notify(own.owed);
    SemaphoreMove {
        own: SemaphoreClient {
            place: next_place(own.place, News::Notified),
            owed: 0,
            ..own
        },
        free,
    }
}

// Takes one more permit for a client that holds one, if a permit is free.
fn take_more(own: SemaphoreClient, free: usize) -> Option<SemaphoreMove>
    requires fits { free + own.held < 2 ^ 64 }
    ensures moves { (client : ℕ) (line : Line)
        → Moves (from More own.place client own free line) line result line }
{
    match own.place {
        Place::Holding if free > 0 => Some(SemaphoreMove {
            own: SemaphoreClient {
                held: own.held + 1,
                ..own
            },
            free: free - 1,
        }),
        _ => None,
    }
}
