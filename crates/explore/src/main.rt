//! Runs the worlds of `event_worlds`, models of a lock (flag, semaphore, channel) and its clients, and shows every
//! step. A line of its input is a world, a colon, a space, and what is asked for, in the language of [`calls::worlds`]:
//!
//! - `mutex 2: 0:2 1:5`: the run as a table, and how many of its steps were taken. Client 0 goes twice, then client 1 five
//!   times. Worlds are `mutex CLIENTS`, `flag CLIENTS SETTERS`, `semaphore CLIENTS PERMITS` and
//!   `channel SENDERS RECEIVERS CAPACITY`; words of a schedule are `ACTOR:TIMES` and `ACTOR:ACT`.
//! - `mutex 2: all 8`: runs every schedule of that length, and counts them and their steps.
//!
//! `docs/DEFINITIONS.md` says where each act leads from each place. An act is one of these:
//!
//! - `Go`: what the client's place has next: it tries, listens, registers, goes on by its wake-up, frees, notifies.
//! - `SendN`, in `channel`: a sender that is `Idle` begins to send the message N.
//! - `Poll`, in `mutex` and `channel`: it is polled, with a wake-up or without.
//! - `More`, in `semaphore`: it takes one more permit, if it holds one and another is free.
//! - `TimeOut`, in all but `flag`: its deadline passes while it is parked.
//! - `Cancel`, in all but `flag`: it gives up, and its listener is dropped.
//!
//! In a `flag` the acts of a lock may be written, and only `Go` is ever a step. `closer:Go` is one of the three steps of
//! closing. For any other line it prints `invalid`, and what is no world or no step.
//!
//!     make explore RUN='mutex 2: 0:2 1:3 0:2 1:2'
//!     make explore RUN='semaphore 3 2: 0:2 0:More 1:5 2:5 0:2'
//!     make explore RUN='channel 2 2 1: r0:5 r1:5 s0:Send7 s0:2 r0:Cancel r1:4'
//!     make explore RUN='mutex 3: all 10'
//!     make explore < LINES
//!
//! The status is 1 if a line is invalid, memory ran out, or a line can't be read or written, and else 0. That no wake-up is
//! lost, whatever the schedule, is not looked for: `event_worlds` proves it.
//!
//! # The table
//!
//! One step a line: what was done, where each actor is then, and what all share: who has the lock, whether the flag is set,
//! how many permits are free, or which messages wait. `told` says that an actor is notified, `wake` that it has its
//! wake-up. A client with `has N` holds so many permits, or sends or sent that message last, or received it; one with
//! `owes N` is still to notify so many. At `Second`, `Ending`, `ToRegister` and `Parked`, in a flag at `Check2`, `Dropping`,
//! `ToRegister` and `Parked`, a client is in line; there it waits unless it is told. A step that is not taken changes
//! nothing, and is marked.
//!
//! # What a lost wake-up looks like
//!
//! Take a lock whose release notifies first and frees the lock afterwards. This is its table for `0:3 1:5 0:1 1:1`; it was
//! written by hand, since no world here does that:
//!
//!     | step | act                 | 0                        | 1                        | lock                     |
//!     |    2 | 0:Go                | Holding                  | Idle                     | 0                        |
//!     |    3 | 0:Go                | Releasing                | Idle                     | 0                        |
//!     |    4 | 1:Go                | Releasing                | First                    | 0                        |
//!     |    5 | 1:Go                | Releasing                | ToListen                 | 0                        |
//!     |    6 | 1:Go                | Releasing                | Second                   | 0                        |
//!     |    7 | 1:Go                | Releasing                | ToRegister               | 0                        |
//!     |    8 | 1:Go                | Releasing                | Parked                   | 0                        |
//!     |    9 | 0:Go                | Idle                     | Parked                   | free                     |
//!     |   10 | 1:Go      not taken | Idle                     | Parked                   | free                     |
//!
//! In step 3 client 0 notifies with no listener there, and the lock still held. Client 1 finds it held twice and parks.
//! Step 9 frees the lock and notifies none: client 1 is parked for ever. `event_worlds` proves that its mutex world
//! never gets there.
//!
//! # Every schedule
//!
//! A schedule of a length is counted if each of its steps is taken; a step that is not taken is not followed further. Steps
//! that schedules have in common are made and counted once. All messages are 9. So `mutex 2: all 8` has to find 286
//! schedules, 546 steps taken and 1542 not taken. It writes the number of steps taken to the standard error, each 100,000.
//!
//! `stdin` has twelve runs and five searches. What `stdout` says of them was made by another program that knows the
//! tables of the worlds alone, and no queue; of one run, by hand. Twenty invalid lines follow, each with a wrong or missing
//! word, and so the status of that run is 1.
#![tactic(auto)]

mod all;
mod lines;
mod table;

use anyhow::Result;
use std::io::{self, BufReader, BufWriter, Write};
use std::process::ExitCode;

fn main(rt: HostRuntime) -> Result<ExitCode> {
    let alloc = rt.alloc();
    let input = BufReader::new(alloc, rt.reader())?;
    let mut output = BufWriter::new(alloc, io::writer(&rt))?;
    let are_valid = lines::answer_all(&rt, alloc, input, &mut output)?;
    output.flush()?;
    Ok(if are_valid {
        ExitCode::SUCCESS
    } else {
        ExitCode::FAILURE
    })
}
