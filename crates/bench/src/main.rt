//! Measures events with their listeners and the queue below them, locks, and channels, also those of Rattle's own kit.
//! `make bench` runs it beside Rust crates; `docs/BENCHMARKS.md` has the tables, says what one operation of each workload
//! is, and how they are measured.
//!
//! - `bench WORKLOAD N [ROUNDS]` runs the workload with N listeners, or threads, for that many rounds, or for some
//!   hundredths of a second, and prints how many operations that were and how long one took. Where threads share a mutex,
//!   a round is a millisecond, and it prints the longest wait, the smallest share, or how often one had it that comes
//!   seldom.
//! - `bench` prints how it is called, and runs every workload with two listeners or threads for three rounds. Any other
//!   words print how it is called, with status 1.
//!
//! An error for memory, a clock that can't be read and an answer that the workload does not expect are printed to
//! standard error, with status 1; else the status is 0. Every workload checks what the calls answered: how many were
//! notified, which polls gave a tag, that no listener is left, which message came.
//!
//! `listen_drop`, `burst` and its parts, `churn`, the removals, the notifications and the questions run over an event
//! whose listeners share its queue, some also, with `_stack` at the end of the name, over listeners that borrow it, with
//! `_recorded` over a recorded event, and with `_list` over a `List` alone. A listener of an event is polled by
//! `poll_in`, one of a recorded event by `poll`, with a waker made for each.
//!
//! A workload whose name begins with `kit_` runs the loop of the workload that is named after `kit_` over the kit's own
//! lock or channel: `Mutex`, `RwLock` and `Barrier` of `std::sync`, and `crossbeam_channel`.
//!
//! To count instructions, run a workload twice with different rounds under callgrind, and divide the difference:
//!
//!     valgrind --tool=callgrind --toggle-collect='bench::run::region*' out/bench churn 1000 1000
//!
//! Each measured loop is such a function. `stdout` has what the program prints without words; nothing of it depends on
//! time.
#![tactic(auto)]

mod acts;
mod channels;
mod fairness;
mod kit;
mod queues;
mod request;
mod run;
mod threads;
mod workload;

use anyhow::Result;
use std::io::{self, BufWriter, Write};
use std::process::ExitCode;

fn main(rt: HostRuntime) -> Result<ExitCode> {
    let mut output = BufWriter::new(rt.alloc(), io::writer(&rt))?;
    let is_asked = request::answer(&rt, &mut output)?;
    output.flush()?;
    Ok(if is_asked {
        ExitCode::SUCCESS
    } else {
        ExitCode::FAILURE
    })
}
