//! What is asked for on the command line.
use crate::run::{Measured, Runtime};
use crate::workload::{NAMES, measure, rounds_of};
use anyhow::Result;
use std::env::{self, Env};
use std::io::Write;

const USAGE: &str =
    "usage: bench WORKLOAD N [ROUNDS]    runs it, and prints how many operations that were, and how long one took
       bench                        prints this, and runs every workload for a moment";

// For a moment: so many listeners or threads, and so many rounds.
const FEW: usize = 2;

const MOMENT: u64 = 3;

/// Does what the words of the command line ask for, and answers whether they asked for something.
pub fn answer<R: Runtime + Drop + Env, W: Write>(rt: &R, output: &mut W) -> Result<bool> {
    let mut words = Vec::new(rt.alloc());
    for word in env::args(rt)? {
        words.push(word)?;
    }
    if words.len() <= 1 {
        writeln!(output, "{USAGE}")?;
        run_all(rt, output)?;
        return Ok(true);
    }
    let Some((name, n, rounds)) = read(words.as_slice()) else {
        writeln!(output, "{USAGE}")?;
        return Ok(false);
    };
    let measured = measure(name, rt, n, rounds)?;
    writeln!(output, "{measured}")?;
    Ok(true)
}

// The workload, how many listeners or threads, and how many rounds. The first word is the name of the program.
fn read(words: &[String]) -> Option<(&str, usize, u64)> {
    let word = |index: usize| words.get(index).map(|word| word.as_str());
    let name = word(1)?;
    if words.len() > 4 || !NAMES.split(' ').any(|it| it == name) {
        return None;
    }
    let n = word(2)?.parse().ok()?;
    let rounds = match word(3) {
        Some(rounds) => rounds.parse().ok()?,
        None => rounds_of(name, n),
    };
    Some((name, n, rounds))
}

fn run_all<R: Runtime + Drop, W: Write>(rt: &R, output: &mut W) -> Result<()> {
    for name in NAMES.split(' ') {
        let Measured { done, of, .. } = measure(name, rt, FEW, MOMENT)?;
        writeln!(output, "{name}/{FEW}: {done} {of}")?;
    }
    Ok(())
}
