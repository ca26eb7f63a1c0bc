//! Attempts that are made until one succeeds. What their tests share is an attempt that notes what it sees.
mod attempts;
mod deadlines;
mod polls;
mod threads;

use crate::support::check;
use event_listener::Event;
use event_until::{Attempt, Until};
use std::alloc::AllocGlobal;
use std::cell::Cell;
use std::process::Abort;
use std::sync::Wait;
use std::time::Clock;

/// How many attempts were made, and how many listeners there were at each of the first three.
#[derive(Drop)]
pub struct Notes {
    pub made: Cell<usize>,
    pub listeners: Cell<[usize; 3]>,
}

impl Notes {
    /// No attempt yet.
    pub fn new() -> Self {
        Notes {
            made: Cell::new(0),
            listeners: Cell::new([9; 3]),
        }
    }

    /// So many attempts were made, and there were so many listeners at each of the first three.
    pub fn check<R: Abort>(&self, rt: &R, made: usize, listeners: [usize; 3]) {
        check(rt, "the attempts", self.made.get(), made);
        check(rt, "the listeners", self.listeners.get(), listeners);
    }
}

/// An attempt that succeeds at the n-th time, and gives that number.
#[derive(Drop)]
pub struct Nth<'a, R> {
    rt: &'a R,
    event: &'a Event<()>,
    notes: &'a Notes,
    n: usize,
}

impl<R: Wait> Attempt for Nth<'_, R> {
    type Output = usize;

    fn attempt(&mut self) -> Option<usize> {
        let made = self.notes.made.get();
        let mut listeners = self.notes.listeners.get();
        if let Some(seen) = listeners.get_mut(made) {
            *seen = self.event.total_listeners(self.rt);
        }
        self.notes.listeners.set(listeners);
        let made = made.saturating_add(1);
        self.notes.made.set(made);
        if made == self.n { Some(made) } else { None }
    }
}

/// Attempts of which the n-th succeeds.
pub fn until_nth<'a, H: AllocGlobal, R>(
    host: &H,
    rt: &'a R,
    event: &'a Event<()>,
    notes: &'a Notes,
    n: usize,
) -> Until<'a, Nth<'a, R>, R>
where
    R: Wait + Clock + Clone,
{
    let nth = Nth {
        rt,
        event,
        notes,
        n,
    };
    Until::new(rt, host.alloc(), event, nth)
}
