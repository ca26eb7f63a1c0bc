//! A flag, its clients, and its setters behind them.
use crate::worlds::spot::{At, Spot};
use crate::worlds::step::{Actor, Step};
use crate::worlds::world::mutex::lock_step;
use crate::worlds::world::{World, size_and_first};
use event_worlds::{FlagWorld, Step as FlagStep};
use std::alloc::{AllocError, Global};
use std::fmt::Write;

impl World for FlagWorld {
    type Step = FlagStep;

    fn sized(alloc: Global, size: &str) -> Option<Result<Self, AllocError>> {
        let (size, first) = size_and_first(size)?;
        let (clients, setters) = size.split_once(' ')?;
        let (clients, setters) = (clients.parse().ok()?, setters.parse().ok()?);
        Some(match first {
            0 => FlagWorld::new(alloc, clients, setters),
            first => FlagWorld::starting_at(alloc, clients, setters, first),
        })
    }

    fn step_of(step: Step) -> Option<FlagStep> {
        lock_step(step)
    }

    fn take(&mut self, step: FlagStep) -> bool {
        self.step(step.client, step.act)
    }

    fn take_all(&mut self, steps: &[FlagStep]) -> usize {
        self.run(steps)
    }

    fn spot(&self, actor: Actor) -> Option<Spot> {
        let Actor::Client(number) = actor else {
            return None;
        };
        match number.checked_sub(self.clients()) {
            None => Some(Spot {
                is_told: self.is_told(number),
                has_wake: self.has_wake(number),
                ..Spot::new(At::Waiter(self.place(number)))
            }),
            Some(setter) if setter < self.setters() => {
                Some(Spot::new(At::Setter(self.setter(setter))))
            }
            Some(_) => None,
        }
    }

    fn write_shared(&self, text: &mut String) -> Result<(), AllocError> {
        write!(text, "flag {}", self.flag())
    }
}
