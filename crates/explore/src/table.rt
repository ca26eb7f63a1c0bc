//! A run of a world as a table.
use anyhow::Result;
use calls::worlds::{Step, World, write_state};
use std::alloc::Global;
use std::io::Write;

/// Takes the steps in order, and writes a line for each: what was done, and where everybody is then. A step that is not
/// taken changes nothing, and is marked.
pub fn write_run<V: World, W: Write>(
    alloc: Global,
    world: &mut V,
    steps: &[Step],
    output: &mut W,
) -> Result<()> {
    let mut parts = String::new(alloc);
    write_state(world, &mut parts)?;
    write_header(parts.as_str(), output)?;
    write!(output, "|    0 | {:<9} {:<9} |", "start", "")?;
    write_parts(parts.as_str(), output)?;
    let mut made: u64 = 0;
    for (number, step) in (1u64..).zip(steps.iter()) {
        let is_step = take(world, *step);
        made = made.saturating_add(u64::from(is_step));
        let mark = if is_step { "" } else { "not taken" };
        write!(
            output,
            "| {number:>4} | {:<9} {mark:<9} |",
            step.to_string(alloc)?
        )?;
        parts.clear();
        write_state(world, &mut parts)?;
        write_parts(parts.as_str(), output)?;
    }
    writeln!(output, "{made} steps taken")?;
    Ok(())
}

/// Takes the step, and answers whether it was one.
pub fn take<V: World>(world: &mut V, step: Step) -> bool {
    match V::step_of(step) {
        Some(step) => world.take(step),
        None => false,
    }
}

// A column for each part, under its name.
fn write_header<W: Write>(parts: &str, output: &mut W) -> Result<()> {
    write!(output, "| step | {:<19} |", "act")?;
    write_columns(parts, true, output)?;
    write!(output, "|---|---|")?;
    for _ in parts.split(", ") {
        write!(output, "---|")?;
    }
    writeln!(output)?;
    Ok(())
}

fn write_parts<W: Write>(parts: &str, output: &mut W) -> Result<()> {
    write_columns(parts, false, output)
}

// The name of each part, or its value, and the end of the line.
fn write_columns<W: Write>(parts: &str, are_names: bool, output: &mut W) -> Result<()> {
    for part in parts.split(", ") {
        let (name, value) = part.split_once(' ').unwrap_or((part, ""));
        let text = if are_names { name } else { value };
        write!(output, " {text:<24} |")?;
    }
    writeln!(output)?;
    Ok(())
}
