//! Rows on worlds.
use crate::worlds::runner::{Runner, new_world};
use crate::worlds::world::World;
use crate::{Difference, Hook, Row};
use event_worlds::{ChannelWorld, FlagWorld, MutexWorld, SemaphoreWorld};
use std::alloc::{AllocError, Global};

/// Makes the lines of a row on a world, if that is its subject.
pub fn run_on_worlds<'t, H: Hook>(
    row: Row<'t>,
    alloc: Global,
    hook: &mut H,
) -> Option<Result<(), Difference<'t>>> {
    let (name, size) = row.subject.split_once(' ')?;
    match name {
        "mutex" => run_on::<MutexWorld, H>(row, alloc, hook, size),
        "flag" => run_on::<FlagWorld, H>(row, alloc, hook, size),
        "semaphore" => run_on::<SemaphoreWorld, H>(row, alloc, hook, size),
        "channel" => run_on::<ChannelWorld, H>(row, alloc, hook, size),
        _ => None,
    }
}

fn run_on<'t, W: World, H: Hook>(
    row: Row<'t>,
    alloc: Global,
    hook: &mut H,
    size: &str,
) -> Option<Result<(), Difference<'t>>> {
    match new_world::<W, H>(alloc, hook, size)? {
        Ok(world) => Some(make_lines(row, alloc, hook, world)),
        Err(_) => Some(Err(row.differs(0, None))),
    }
}

// Makes the lines on this world, which is new.
fn make_lines<'t, W: World, H: Hook>(
    row: Row<'t>,
    alloc: Global,
    hook: &mut H,
    world: W,
) -> Result<(), Difference<'t>> {
    let Ok(mut runner) = Runner::new(alloc, hook, world) else {
        return Err(row.differs(0, None));
    };
    for (line, text) in (1usize..).zip(row.lines.lines()) {
        match found(alloc, &mut runner, text) {
            Ok(None) => {}
            Ok(answer) => return Err(row.differs(line, answer)),
            Err(_) => return Err(row.differs(line, None)),
        }
    }
    Ok(())
}

// What a line answers where that is not what it says. The error is that there is no memory for it.
fn found<W: World, H: Hook>(
    alloc: Global,
    runner: &mut Runner<'_, W, H>,
    line: &str,
) -> Result<Option<String>, AllocError> {
    let (call, wanted) = line.split_once(" -> ").unwrap_or((line, ""));
    let answer = runner.answer(call)?;
    if answer == wanted {
        return Ok(None);
    }
    Ok(Some(answer.to_string(alloc)?))
}
