//! The lines of the input, and what is answered to each.
use crate::all::Search;
use crate::table::write_run;
use anyhow::Result;
use calls::worlds::{World, no_step, steps_of};
use event_worlds::{ChannelWorld, FlagWorld, MutexWorld, SemaphoreWorld};
use std::alloc::Global;
use std::io::{BufRead, Write};

/// Answers each line of the input, in order: the line itself, what it asks for, and an empty line. A line that asks for
/// nothing is answered `invalid`, and what of it is wrong. Answers whether each of them asked for something.
pub fn answer_all<P: Eprint, R: BufRead + Drop, W: Write>(
    progress: &P,
    alloc: Global,
    input: R,
    output: &mut W,
) -> Result<bool> {
    let mut all_are_valid = true;
    for line in input.lines(alloc) {
        let line = line?;
        let line = line.as_str().trim_end();
        writeln!(output, "{line}")?;
        let is_valid = answer(progress, alloc, line, output)?;
        writeln!(output)?;
        all_are_valid = all_are_valid && is_valid;
    }
    Ok(all_are_valid)
}

fn answer<P: Eprint, W: Write>(
    progress: &P,
    alloc: Global,
    line: &str,
    output: &mut W,
) -> Result<bool> {
    let (head, asked) = line.split_once(": ").unwrap_or((line, ""));
    let (name, size) = head.split_once(' ').unwrap_or((head, ""));
    let is_valid = match name {
        "mutex" => answer_in::<MutexWorld, P, W>(progress, alloc, size, asked, output)?,
        "flag" => answer_in::<FlagWorld, P, W>(progress, alloc, size, asked, output)?,
        "semaphore" => answer_in::<SemaphoreWorld, P, W>(progress, alloc, size, asked, output)?,
        "channel" => answer_in::<ChannelWorld, P, W>(progress, alloc, size, asked, output)?,
        _ => None,
    };
    if is_valid.is_none() {
        writeln!(output, "invalid: no world `{head}`")?;
    }
    Ok(is_valid.unwrap_or(false))
}

// None where there is no world of this size.
fn answer_in<V: World, P: Eprint, W: Write>(
    progress: &P,
    alloc: Global,
    size: &str,
    asked: &str,
    output: &mut W,
) -> Result<Option<bool>> {
    let Some(world) = V::sized(alloc, size) else {
        return Ok(None);
    };
    let mut world = world?;
    let depth = asked
        .strip_prefix("all ")
        .and_then(|depth| depth.parse().ok());
    if let Some(depth) = depth {
        let mut search = Search::new(alloc, size);
        search.go_on::<V, P>(depth, progress)?;
        writeln!(
            output,
            "{} schedules, {} steps taken, {} not taken",
            search.schedules, search.taken, search.not_taken
        )?;
        return Ok(Some(true));
    }
    if let Some(word) = no_step::<V>(asked) {
        writeln!(output, "invalid: no step `{word}`")?;
        return Ok(Some(false));
    }
    write_run(
        alloc,
        &mut world,
        steps_of(alloc, asked)?.as_slice(),
        output,
    )?;
    Ok(Some(true))
}
