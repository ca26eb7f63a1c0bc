//! A lock and its clients.
use crate::worlds::spot::{At, Spot};
use crate::worlds::step::{Act, Actor, Step};
use crate::worlds::world::{World, size_and_first};
use event_worlds::{Act as LockAct, MutexWorld, Step as LockStep};
use std::alloc::{AllocError, Global};
use std::fmt::Write;

/// A step of a client of a lock, or of an actor of a flag.
pub(super) fn lock_step(step: Step) -> Option<LockStep> {
    let Actor::Client(client) = step.actor else {
        return None;
    };
    let act = match step.act {
        Act::Go => LockAct::Go,
        Act::Poll => LockAct::Poll,
        Act::TimeOut => LockAct::TimeOut,
        Act::Cancel => LockAct::Cancel,
        Act::Send(_) | Act::More => return None,
    };
    Some(LockStep { client, act })
}

impl World for MutexWorld {
    type Step = LockStep;

    fn sized(alloc: Global, size: &str) -> Option<Result<Self, AllocError>> {
        let (clients, first) = size_and_first(size)?;
        let clients = clients.parse().ok()?;
        Some(match first {
            0 => MutexWorld::new(alloc, clients),
            first => MutexWorld::starting_at(alloc, clients, first),
        })
    }

    fn step_of(step: Step) -> Option<LockStep> {
        lock_step(step)
    }

    fn take(&mut self, step: LockStep) -> bool {
        self.step(step.client, step.act)
    }

    fn take_all(&mut self, steps: &[LockStep]) -> usize {
        self.run(steps)
    }

    fn spot(&self, actor: Actor) -> Option<Spot> {
        match actor {
            Actor::Client(client) if client < self.clients() => Some(Spot {
                is_told: self.is_told(client),
                has_wake: self.has_wake(client),
                ..Spot::new(At::Client(self.place(client)))
            }),
            _ => None,
        }
    }

    fn write_shared(&self, text: &mut String) -> Result<(), AllocError> {
        match self.holder() {
            Some(client) => write!(text, "lock {client}"),
            None => write!(text, "lock free"),
        }
    }
}
