//! Runs the worked rows, and prints `row N ok` or `row N differs` for each, in order of number. The status is 0 if none
//! differs, else 1. Words on the command line are ignored: `args` has some.
//!
//! A row is a short list of calls, each with the answer that it must give, as text in the language of `calls`. It ends at
//! the first line that answers otherwise, or for which there is no memory: then the row differs, and the standard error
//! says which line that is, what was wanted and what came. On events each row is made twice, with each kind of listener.
//!
//! The table of rows and its printing do not allocate, so a row that ran out of memory has its line, too: the tests of
//! `test_memory` have each request of a row fail in turn, and `make starved` runs the program with too few addresses.
//!
//! `make run` runs it without proof, in under a minute; `make run V=1` shows the text of each row above its line. `make
//! vectors` proves it and all below it, runs it, and keeps the program as `crates/vectors/out/vectors`. What the rows show,
//! they show when they run.
//!
//! # Another row
//!
//! - Write its title, which says what it shows, its head and its lines into the text of its family: `queue`, `events` or
//!   `records` in the folder `worked` of `calls_events`, or [`calls::worlds`]. No two rows have one number. `calls` has the calls
//!   and the subjects.
//! - Add its line to `crates/vectors/stdout`, and its calls to the counts in `rows::families` of `test_memory`. `make run` shows
//!   whether its answers are right.
//!
//! A call that no row has made yet is a variant of `Call` in `calls`, with an arm where its subject makes calls. Another
//! subject is a type with `calls::Subject`, and an arm of [`calls_events::run_row`].
#![tactic(auto)]

ghost use Rattle.std.specs.Prelude.{◌≡◌, IfOk, IsErr, if◌then◌else◌};
ghost use Rattle.std.specs.Process.{exit_status};

use calls::Undisturbed;
use calls_events::{TEXTS, print_rows};
use std::io;
use std::process::ExitCode;

// The status of the program, by whether no row differs. Where a line could not be printed, that goes to the standard
// error.
fn status<R: Eprint>(rt: &R, none_differs: io::Result<bool>) -> ExitCode
    ensures differ { IfOk none_differs (λ none. exit_status result ≡ (if none then 0 else 1)) }
    ensures unprinted { IsErr none_differs → exit_status result ≡ 1 }
{
    match none_differs {
        Ok(true) => ExitCode::SUCCESS,
        Ok(false) => ExitCode::FAILURE,
        Err(error) => {
            let _ = rt.eprintln(error);
            ExitCode::FAILURE
        }
    }
}

fn main(rt: HostRuntime) -> ExitCode {
    let none_differs = print_rows(&rt, &rt, TEXTS.as_slice(), &mut Undisturbed);
    status(&rt, none_differs)
}
