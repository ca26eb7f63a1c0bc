//! Makes random calls on events: in lists, whose answers are compared, and by 8 threads at once, and counts.
//!
//!     make fuzz SECONDS=600
//!     make soak SECONDS=60 SEED=7
//!
//! The words of the command line are runs, one after another: `lists seed SEED times N` makes N lists, whatever time that
//! takes, and `threads seed SEED seconds N` rounds of threads for so long. A run prints its seed, and ends in
//! `N lists, M differ` or `N rounds, M differ`. The status is 0 only if none differs. The gate makes the runs of `args`.
//!
//! # Lists
//!
//! Each list has a seed of its own, one more than the list before. It is made on a `List`, and so becomes a row of the
//! language of `calls`, with the queue's answers. That has to hold on an `Event`, whose listeners share its queue or borrow
//! it, and then with the two kinds exchanged, and on a `RecordedEvent`, whose three hands (what makes its calls, and notes
//! them) take turns, and whose record has to replay. Random are polls, waits with no time left, calls on finished listeners
//! and counts, the greatest among them; in half of the lists all listeners are of one kind.
//!
//! Each line compares an answer, and the order of the tasks that the call woke or let go. A waker of `futures` wakes its
//! task when it is dropped, too. So a task that a call lets go is noted beside those that it wakes, and this comparison does
//! not show that a task is woken, and not only dropped.
//!
//! A run of 1,000 lists or more also fails if one of the 12 kinds of answer of an event, or a woken task, came up in
//! none of them: `no list has ' -> KIND'`. A list that differs is made shorter, until no single call can be left out, and
//! the first five of a run are printed, as rows that can be kept as tests. All are made of the same `List`, so a fault of it
//! does not show here. It is proved, and compared with the Rust crate (`replies`).
//!
//! # Threads
//!
//! The threads call one event and one recorded event at once, round after round, each time on new ones. Each thread makes
//! 600 random steps of a round, from the seed, on listeners that share the queue of the event, that borrow it, or that are
//! recorded: the calls that lists have, with waits for 0 to 2 milliseconds. At the end it drops the listeners that are left.
//! The system chooses how the threads interleave, so one seed does not give one run. When all have ended, this has to hold:
//!
//! - of the event: no listener is left; some tag was taken; as many tags were made as listeners notified; each tag given
//!   was made, and none was given twice; no more tags were lost than listeners dropped;
//! - of the recorded event: `close` gives its record, and the record replays; it has as many listenings, notified
//!   listeners and taken tags as the threads counted; its calls notify as many as take their tag or lose it.
//!
//! No step waits for another thread for longer than 2 milliseconds. Should a round not end within 60 seconds all the
//! same, the program ends with status 1, and its error is `the round of seed SEED does not end`.
#![tactic(auto)]

mod callee;
mod lists;
mod random;
mod round;
mod run;
mod seen;
mod steps;
mod worker;

use anyhow::Result;
use lists::run_lists;
use round::run_rounds;
use run::{Kind, Request};
use std::process::ExitCode;

fn main(rt: HostRuntime) -> Result<ExitCode> {
    let mut is_right = true;
    for request in Request::read_all(&rt)? {
        let made = match request.kind {
            Kind::Lists => run_lists(&rt, request)?,
            Kind::Threads => run_rounds(rt, request)?,
        };
        is_right &= made;
    }
    Ok(if is_right {
        ExitCode::SUCCESS
    } else {
        ExitCode::FAILURE
    })
}
