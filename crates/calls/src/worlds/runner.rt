//! Makes the lines of a row on a world.
use crate::worlds::step::{no_step, steps_of};
use crate::worlds::world::{World, write_changes, write_state};
use crate::{Hook, Request};
use std::alloc::{AllocError, Global};
use std::fmt::Write;
use std::mem;

// Room for all parts of a world of a row, so that nothing is asked for while the hook may have taken all memory.
const ROOM: usize = 4096;

/// Makes the lines of a row on a world, with a hook round each schedule and each new world.
#[derive(Drop)]
pub struct Runner<'h, W, H> {
    alloc: Global,
    hook: &'h mut H,
    world: W,
    // The parts of the world, before the schedule of a line and after it.
    before: String,
    after: String,
    answer: String,
}

/// A new world of this size, if it is one. It is made again where memory was refused and the hook says so.
pub fn new_world<W: World, H: Hook>(
    alloc: Global,
    hook: &mut H,
    size: &str,
) -> Option<Result<W, AllocError>> {
    hook.before(Some(Request::World));
    let made = W::sized(alloc, size);
    hook.after();
    match made {
        Some(Err(_)) if hook.refused(Request::World, true) => W::sized(alloc, size),
        made => made,
    }
}

impl<'h, W: World, H: Hook> Runner<'h, W, H> {
    /// One that makes them on this world, which is new.
    pub fn new(alloc: Global, hook: &'h mut H, world: W) -> Result<Self, AllocError> {
        let mut before = String::with_capacity(alloc, ROOM)?;
        write_state(&world, &mut before)?;
        Ok(Runner {
            alloc,
            hook,
            world,
            before,
            after: String::with_capacity(alloc, ROOM)?,
            answer: String::new(alloc),
        })
    }

    /// What the line answers. The error is that there is no memory for that.
    pub fn answer(&mut self, line: &str) -> Result<&str, AllocError> {
        self.answer.clear();
        match line.split_once(' ').unwrap_or((line, "")) {
            ("state", "") => self.answer.push_str(self.before.as_str())?,
            ("new", size) => self.renew(size)?,
            _ => match no_step::<W>(line) {
                Some(word) => write!(self.answer, "no step `{word}`")?,
                None => self.make(line)?,
            },
        }
        Ok(self.answer.as_str())
    }

    // Makes a schedule. One of a single step is made by the call for that.
    fn make(&mut self, schedule: &str) -> Result<(), AllocError> {
        let steps = schedule_of::<W>(self.alloc, schedule)?;
        self.after.clear();
        self.hook.before(None);
        let taken = match steps.as_slice() {
            [step] => usize::from(self.world.take(*step)),
            steps => self.world.take_all(steps),
        };
        let written = write_state(&self.world, &mut self.after);
        self.hook.after();
        written?;
        write!(self.answer, "{taken}")?;
        write_changes(&mut self.answer, self.before.as_str(), self.after.as_str())?;
        mem::swap(&mut self.before, &mut self.after);
        Ok(())
    }

    fn renew(&mut self, size: &str) -> Result<(), AllocError> {
        match new_world::<W, H>(self.alloc, &mut *self.hook, size) {
            Some(Ok(world)) => {
                self.world = world;
                self.before.clear();
                write_state(&self.world, &mut self.before)?;
                self.answer.push_str("ok")
            }
            Some(Err(_)) => self.answer.push_str("no memory"),
            None => self.answer.push_str("invalid"),
        }
    }
}

// The steps of a schedule, as the world takes them.
fn schedule_of<W: World>(alloc: Global, text: &str) -> Result<Vec<W::Step>, AllocError> {
    let mut schedule = Vec::new(alloc);
    for step in steps_of(alloc, text)?.iter() {
        if let Some(step) = W::step_of(*step) {
            schedule.push(step)?;
        }
    }
    Ok(schedule)
}
