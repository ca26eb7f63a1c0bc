//! Every schedule of a length.
use crate::table::take;
use anyhow::Result;
use calls::worlds::{Act, Step, World};
use std::alloc::{AllocError, Global};

/// What was found.
#[derive(Drop)]
pub struct Search<'a> {
    alloc: Global,
    size: &'a str,
    // The steps up to the one that is looked at.
    path: Vec<Step>,
    /// Lists of as many steps as were asked for, each of them taken.
    pub schedules: u64,
    /// Steps that were taken. Steps that schedules have in common are taken once.
    pub taken: u64,
    /// Steps that were not taken.
    pub not_taken: u64,
}

impl<'a> Search<'a> {
    /// A search of worlds of this size.
    pub fn new(alloc: Global, size: &'a str) -> Self {
        Search {
            alloc,
            size,
            path: Vec::new(alloc),
            schedules: 0,
            taken: 0,
            not_taken: 0,
        }
    }

    /// Goes on from the path by every schedule of so many steps more. A step that is not taken is not followed further.
    pub fn go_on<V: World, P: Eprint>(&mut self, depth: usize, progress: &P) -> Result<()> {
        if depth == 0 {
            self.schedules = self.schedules.saturating_add(1);
            return Ok(());
        }
        let world = self.world::<V>()?;
        for number in 0..usize::MAX {
            let actor = world.actor(number);
            if world.spot(actor).is_none() {
                break;
            }
            for act in Act::ALL {
                if self.make::<V>(Step { actor, act })? {
                    self.report(progress)?;
                    self.go_on::<V, P>(depth - 1, progress)?;
                    self.path.pop();
                }
            }
        }
        Ok(())
    }

    fn world<V: World>(&self) -> Result<V, AllocError> {
        V::sized(self.alloc, self.size).unwrap_or(Err(AllocError))
    }

    // Makes one step after the path, if such a world has it, and answers whether it was taken. Then the path has it.
    fn make<V: World>(&mut self, step: Step) -> Result<bool> {
        if V::step_of(step).is_none() {
            return Ok(false);
        }
        let mut world = self.world::<V>()?;
        for earlier in self.path.iter() {
            take(&mut world, *earlier);
        }
        if !take(&mut world, step) {
            self.not_taken = self.not_taken.saturating_add(1);
            return Ok(false);
        }
        self.taken = self.taken.saturating_add(1);
        self.path.push(step)?;
        Ok(true)
    }

    // Writes how many steps were taken, now and then.
    fn report<P: Eprint>(&self, progress: &P) -> Result<()> {
        if self.taken % 100_000 == 0 {
            progress.eprintln(self.taken)?;
        }
        Ok(())
    }
}
