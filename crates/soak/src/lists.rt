//! Random lists of calls as rows: a queue gives the answers, and events have to give the same.
use crate::random::take_at;
use crate::run::Request;
use crate::steps::{Listeners, Step, random_list};
use anyhow::{Result, bail};
use calls::{Interpreter, Queues, Row, Undisturbed};
use calls_events::{Runtime, run_on_events, run_on_records};
use std::alloc::Global;
use std::io::Print;

// How many lists that differ are printed.
const PRINTED: u64 = 5;

// So many lists bring about each kind of answer.
const LISTS_FOR_EACH_KIND: u64 = 1_000;

// The kinds of answers of events, and a woken task. A kind that no list brings about is compared nowhere.
const KINDS: [&str; 13] = [
    " -> listener ",
    " -> ready ",
    " -> pending",
    " -> timeout",
    " -> finished",
    " -> told ",
    " -> discarded true",
    " -> discarded false",
    " -> dropped",
    " -> total ",
    " -> isnotified true",
    " -> isnotified false",
    " wakes ",
];

/// Makes a run of lists, and prints how they differ. Answers whether none does, and each kind of answer came up.
pub fn run_lists<R: Runtime + Print>(rt: &R, request: Request) -> Result<bool> {
    let mut lists = Lists {
        rt,
        missing: Vec::from_array(rt.alloc(), KINDS)?,
        printed: 0,
    };
    let (made, differing) = request.run(rt, |seed| lists.differs(seed))?;
    let mut is_right = differing == 0;
    if made >= LISTS_FOR_EACH_KIND {
        for kind in lists.missing {
            println!(rt; "no list has '{kind}'")?;
            is_right = false;
        }
    }
    println!(rt; "{made} lists, {differing} differ")?;
    Ok(is_right)
}

// Random lists of calls on events.
#[derive(Drop)]
struct Lists<'a, R> {
    rt: &'a R,
    // The kinds that have not come up.
    missing: Vec<&'static str>,
    // How many lists were printed.
    printed: u64,
}

impl<'a, R: Runtime + Print> Lists<'a, R> {
    // Makes a list, and prints how it differs. Answers whether it does.
    fn differs(&mut self, seed: u64) -> Result<bool> {
        let steps = random_list(self.rt.alloc(), seed)?;
        let Some(difference) = self.difference(steps.as_slice())? else {
            return Ok(false);
        };
        if self.printed < PRINTED {
            self.printed = self.printed.saturating_add(1);
            let difference = self.shortened(steps, difference)?;
            println!(self.rt; "the list of seed {seed} differs:\n{difference}")?;
        }
        Ok(true)
    }

    // The row of these steps and how it differs, if it does.
    fn difference(&mut self, steps: &[Step]) -> Result<Option<String>> {
        let lines = lines_of(self.rt.alloc(), steps)?;
        let lines = lines.as_str();
        self.missing.retain(|kind| !lines.contains(*kind));
        for subject in ["event tags", "recorded by 3 in turn"] {
            if let Some(text) = difference_on(self.rt, subject, lines)? {
                return Ok(Some(text));
            }
        }
        Ok(None)
    }

    // Leaves out steps, one after another, for as long as some difference is left. No single step can be left out of the
    // row that it gives.
    fn shortened(&mut self, steps: Vec<Step>, difference: String) -> Result<String> {
        let mut steps = steps;
        let mut difference = difference;
        for _ in 0..steps.len() {
            let before = steps.len();
            for place in (0..before).rev() {
                let mut fewer = Vec::from_slice(self.rt.alloc(), steps.as_slice())?;
                take_at(&mut fewer, place);
                if let Some(text) = self.difference(fewer.as_slice())? {
                    steps = fewer;
                    difference = text;
                }
            }
            if steps.len() == before {
                break;
            }
        }
        Ok(difference)
    }
}

// The lines of a row, with the answers of a queue.
fn lines_of(alloc: Global, steps: &[Step]) -> Result<String> {
    let mut hook = Undisturbed;
    let mut queue = Interpreter::new(alloc, Queues::<u64>::like_an_event(alloc)?, &mut hook);
    let mut listeners = Listeners::new(alloc);
    let mut lines = String::new(alloc);
    let mut call = String::new(alloc);
    for step in steps {
        call.clear();
        if listeners.write(&mut call, *step)? {
            let answer = queue.answer(call.as_str())?;
            write!(lines, "{call} -> {answer}\n")?;
        }
    }
    Ok(lines)
}

// The row of these lines, and how it differs on this subject, if it does.
fn difference_on<R: Runtime>(rt: &R, subject: &str, lines: &str) -> Result<Option<String>> {
    let row = Row {
        number: 0,
        title: "",
        subject,
        kind: "",
        lines,
    };
    let made = match run_on_events(row, rt, &mut Undisturbed) {
        Some(made) => Some(made),
        None => run_on_records(row, rt, &mut Undisturbed),
    };
    match made {
        Some(Ok(())) => Ok(None),
        Some(Err(difference)) => Ok(Some(format!(in rt.alloc(); "{row}{difference}")?)),
        None => bail!("no subject is '{subject}'"),
    }
}
