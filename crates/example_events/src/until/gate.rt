//! A gate.
use event_listener::{Event, EventId};
use event_until::{Attempt, Until};
use std::alloc::Global;
use std::sync::Wait;
use std::sync::atomic::{AtomicBool, Ordering};
use std::time::Clock;

/// A gate that is opened once, and that threads and tasks wait for.
#[derive(Drop)]
pub struct Gate {
    is_open: AtomicBool,
    opened: Event,
}

impl Gate {
    /// A closed gate.
    pub fn new(id: EventId) -> Self {
        Gate {
            is_open: AtomicBool::new(false),
            opened: Event::new(id),
        }
    }

    /// Opens the gate, and then notifies all who wait.
    pub fn open<R: Wait>(&self, rt: &R) {
        self.is_open.store(true, Ordering::SeqCst);
        self.opened.notify_relaxed(rt, usize::MAX);
    }

    /// Waits until the gate is open.
    pub fn pass<'a, R>(&'a self, rt: &'a R, alloc: Global) -> Until<'a, Pass<'a>, R>
    where
        R: Wait + Clock + Clone,
    {
        Until::new(rt, alloc, &self.opened, Pass { gate: self })
    }
}

/// The request of a waiter for the gate.
#[derive(Drop)]
pub struct Pass<'a> {
    gate: &'a Gate,
}

impl Attempt for Pass<'_> {
    type Output = ();

    fn attempt(&mut self) -> Option<()> {
        if self.gate.is_open.load(Ordering::SeqCst) {
            Some(())
        } else {
            None
        }
    }
}
