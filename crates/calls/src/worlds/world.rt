//! Worlds, as texts speak of them.
mod channel;
mod flag;
mod mutex;
mod semaphore;

use crate::worlds::spot::Spot;
use crate::worlds::step::{Actor, Step};
use std::alloc::{AllocError, Global};
use std::fmt::Write;

/// A world.
pub trait World: Drop {
    /// A step of its schedules.
    type Step: Copy + Drop;

    /// A new world of this size, if that is one. The error is that there is no memory for it.
    fn sized(alloc: Global, size: &str) -> Option<Result<Self, AllocError>>;

    /// The step, if it is one of such a world.
    fn step_of(step: Step) -> Option<Self::Step>;

    /// Takes the step, and answers whether it was one.
    fn take(&mut self, step: Self::Step) -> bool;

    /// Takes the steps of a schedule, and answers how many were taken.
    fn take_all(&mut self, steps: &[Self::Step]) -> usize;

    /// The actor of this number. They are numbered from 0.
    fn actor(&self, number: usize) -> Actor {
        Actor::Client(number)
    }

    /// Where the actor is, if there is such an actor.
    fn spot(&self, actor: Actor) -> Option<Spot>;

    /// Writes what all actors share.
    fn write_shared(&self, text: &mut String) -> Result<(), AllocError>;
}

/// Writes all parts of the world, parted by a comma: each actor, and what they share.
pub fn write_state<W: World>(world: &W, text: &mut String) -> Result<(), AllocError> {
    for number in 0..usize::MAX {
        let actor = world.actor(number);
        let Some(spot) = world.spot(actor) else {
            break;
        };
        write!(text, "{actor} {spot}, ")?;
    }
    world.write_shared(text)
}

/// Writes those parts of a state that are not as they were before, each behind a comma, and the first behind a colon.
pub fn write_changes(text: &mut String, before: &str, after: &str) -> Result<(), AllocError> {
    let mut between = ':';
    for (old, new) in before.split(", ").zip(after.split(", ")) {
        if old != new {
            write!(text, "{between} {new}")?;
            between = ',';
        }
    }
    Ok(())
}

// The size before `from SERIAL`, and that serial, which is 0 where nothing is said.
fn size_and_first(text: &str) -> Option<(&str, u64)> {
    match text.split_once(" from ") {
        Some((size, first)) => Some((size, first.parse().ok()?)),
        None => Some((text, 0)),
    }
}
