//! Does lists of operations on a queue, `List<u64, usize>`, and prints the reply to each. The Rust crate
//! `event-listener` 5.4.2 was given the same lists, and its replies have to be the same, byte by byte.
//!
//!     replies < LISTS > REPLIES
//!
//! # The lines
//!
//! One line of input gives one line of output. A line `case NAME` is answered by itself: a new list begins, with an empty
//! queue. Every other line is a call of the language of [`calls`], on a queue with tags, and is answered as there, but for
//! two things. The tasks that it woke stand behind the reply with no word between. And a removal whose notification was
//! propagated answers `removed taken`, since the Rust crate does not say where that went.
//!
//! `slisten` listens on the stack in the Rust crate. `wait N` is `invalid` if the listener waits, since it would wait for
//! ever, and `expire N` is a wait whose deadline has passed. A listener that has left keeps its number, which is then the
//! key of no listener. The status is 0 at the end of the input. If memory runs out, or a line can't be read or written, the
//! error goes to the standard error and the status is 1.
//!
//! # The sample
//!
//! `stdin` has 432 lists, and `stdout` the Rust crate's replies, which need no Rust crate at hand:
//!
//! - `case core ..`, 200 lists of 60 operations: random ones, to listen, poll, notify, drop and discard, and the two
//!   questions, on queues of up to 16.
//! - `case ext ..`, 100 of 60: also stack listeners, tags by a function, relaxed notifications, `wait` and `expire`.
//! - `case keys ..`, 100 of 60: also removals by key, and calls with the key of a listener that has left.
//! - `case row..`, 31: short ones whose answers were worked out by hand.
//! - The last one: lines that are no operation.
//!
//! A program in Rust made the replies, over the crate's public calls for `core` and `ext`, and over its private list,
//! which a few added functions make reachable, for the others. Three words are not the crate's own answers:
//! `isnotified false` if there is no listener, where the crate returns true, against its documentation; `finished` if
//! the crate panics; `invalid`, for which the crate was not called. One waker stands for each task's number, so these
//! lists can't show that the crate keeps a stored waker if the new one would wake the same task.
//!
//! # The larger comparison
//!
//! `make diff ORACLE=FOLDER` compares 33,944 lists, if the Rust crate's answers are at hand: four files, and every list
//! of up to 5 operations over 3 listeners. The last line is `N compared, M differ`. The folder has:
//!
//! - `vectors/NAME.ops` and `vectors/NAME.replies`, for the names `core`, `ext`, `keys` and `rows`: lists, and the
//!   crate's replies.
//! - A program `gen`. `gen exhaustive LENGTH LISTENERS all` writes every list of up to LENGTH operations over LISTENERS
//!   listeners. Counts are 1, 2 and the greatest, and each list ends with the questions and a poll of each listener
//!   that is left.
//! - A program `replay`, which answers the lists on its standard input with the Rust crate.
//!
//! No clause speaks of the lines; the sample and the comparison show them.
#![tactic(auto)]

use anyhow::Result;
use calls::{Answer, Interpreter, Left, Queues, Reply, Undisturbed};
use std::alloc::Global;
use std::io::{self, BufRead, BufReader, BufWriter, Write};

fn main(rt: HostRuntime) -> Result<()> {
    let alloc = rt.alloc();
    let input = BufReader::new(alloc, rt.reader())?;
    let mut output = BufWriter::new(alloc, io::writer(&rt))?;
    answer_all(alloc, input, &mut output)?;
    output.flush()?;
    Ok(())
}

// Answers each line of the input with one line, in order.
fn answer_all<I: BufRead + Drop, W: Write>(alloc: Global, input: I, output: &mut W) -> Result<()> {
    let mut hook = Undisturbed;
    let mut interpreter = Interpreter::new(alloc, Queues::<u64>::new(alloc, 1)?, &mut hook);
    for line in input.lines(alloc) {
        let line = line?;
        let line = line.as_str().trim_end();
        if line.starts_with("case ") {
            interpreter.restart(Queues::new(alloc, 1)?);
            writeln!(output, "{line}")?;
        } else {
            print(interpreter.answer(line)?, output)?;
        }
    }
    Ok(())
}

// An answer as the Rust crate's lists have it.
fn print<W: Write>(answer: &Answer, output: &mut W) -> Result<()> {
    for reply in answer.replies.iter() {
        match reply {
            Reply::Removed(Left::Passed(_) | Left::Lost(_, _)) => write!(output, "removed taken")?,
            reply => write!(output, "{reply}")?,
        }
    }
    for task in answer.woken.iter() {
        write!(output, " {task}")?;
    }
    writeln!(output)?;
    Ok(())
}
