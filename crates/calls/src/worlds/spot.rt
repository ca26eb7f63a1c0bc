//! Where an actor is.
use event_worlds::{CloserPlace, FlagPlace, Place, SetterPlace};
use std::fmt::{self, Display, Formatter, Write};

/// A place of any world.
#[derive(Clone, Copy)]
pub enum At {
    /// Of a client of a lock or of a semaphore, or of one side of a channel
    Client(Place),
    /// Of a client of a flag
    Waiter(FlagPlace),
    /// Of a setter of a flag
    Setter(SetterPlace),
    /// Of who closes a channel
    Closer(CloserPlace),
}

/// Where an actor is, and how it stands.
#[derive(Clone, Copy)]
pub struct Spot {
    pub at: At,
    /// Whether it is notified, and in line.
    pub is_told: bool,
    /// Whether it has its wake-up.
    pub has_wake: bool,
    /// How many permits it holds, or its message.
    pub has: usize,
    /// How many of those that wait it is still to notify.
    pub owes: usize,
}

impl Spot {
    /// One that is not told, has no wake-up, no permit and no message, and owes nothing.
    pub fn new(at: At) -> Spot {
        Spot {
            at,
            is_told: false,
            has_wake: false,
            has: 0,
            owes: 0,
        }
    }
}

impl Display for At {
    fn fmt<W: Write>(&self, f: &mut Formatter<W>) -> fmt::Result {
        match *self {
            At::Client(Place::First { woken: false }) => f.write_str("First"),
            At::Client(Place::First { woken: true }) => f.write_str("First woken"),
            At::Client(place) => write!(f, "{place:?}"),
            At::Waiter(place) => write!(f, "{place:?}"),
            At::Setter(place) => write!(f, "{place:?}"),
            At::Closer(place) => write!(f, "{place:?}"),
        }
    }
}

impl Display for Spot {
    fn fmt<W: Write>(&self, f: &mut Formatter<W>) -> fmt::Result {
        write!(f, "{}", self.at)?;
        if self.is_told {
            f.write_str(" told")?;
        }
        if self.has_wake {
            f.write_str(" wake")?;
        }
        if self.has > 0 {
            write!(f, " has {}", self.has)?;
        }
        if self.owes > 0 {
            write!(f, " owes {}", self.owes)?;
        }
        Ok(())
    }
}
