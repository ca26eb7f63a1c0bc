//! A semaphore and its clients.
use crate::worlds::spot::{At, Spot};
use crate::worlds::step::{Act, Actor, Step};
use crate::worlds::world::World;
use event_worlds::{SemAct, SemStep, SemaphoreWorld};
use std::alloc::{AllocError, Global};
use std::fmt::Write;

impl World for SemaphoreWorld {
    type Step = SemStep;

    fn sized(alloc: Global, size: &str) -> Option<Result<Self, AllocError>> {
        let (clients, permits) = size.split_once(' ')?;
        let (clients, permits) = (clients.parse().ok()?, permits.parse().ok()?);
        Some(SemaphoreWorld::new(alloc, clients, permits))
    }

    fn step_of(step: Step) -> Option<SemStep> {
        let Actor::Client(client) = step.actor else {
            return None;
        };
        let act = match step.act {
            Act::Go => SemAct::Go,
            Act::More => SemAct::More,
            Act::TimeOut => SemAct::TimeOut,
            Act::Cancel => SemAct::Cancel,
            Act::Send(_) | Act::Poll => return None,
        };
        Some(SemStep { client, act })
    }

    fn take(&mut self, step: SemStep) -> bool {
        self.step(step.client, step.act)
    }

    fn take_all(&mut self, steps: &[SemStep]) -> usize {
        self.run(steps)
    }

    fn spot(&self, actor: Actor) -> Option<Spot> {
        match actor {
            Actor::Client(client) if client < self.clients() => Some(Spot {
                at: At::Client(self.place(client)),
                is_told: self.is_told(client),
                has_wake: self.has_wake(client),
                has: self.held(client),
                owes: self.owed(client),
            }),
            _ => None,
        }
    }

    fn write_shared(&self, text: &mut String) -> Result<(), AllocError> {
        write!(text, "free {}/{}", self.free(), self.permits())
    }
}
