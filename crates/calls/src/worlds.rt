//! Schedules of the worlds of [`event_worlds`] as text: one language for the worked rows ([`WORLDS`]), other rows of
//! tests, and the program `explore`.
//!
//! A row is a title, a head and lines up to an empty line:
//!
//! ```text
//! A client that is told and then times out tries once more.
//! row 16 mutex 2
//! 0:2 1:5 -> 7: 0 Holding, 1 Parked, lock 0
//! 0:2 1:TimeOut 1:1 -> 4: 0 Idle, 1 Holding wake, lock 1
//! ```
//!
//! The head has a number and a world ([`World`]): `mutex CLIENTS`, `flag CLIENTS SETTERS`, `semaphore CLIENTS PERMITS` or
//! `channel SENDERS RECEIVERS CAPACITY`. `from SERIAL` behind a mutex or a flag gives the first listener that serial number.
//!
//! A schedule is words, parted by single spaces: `1:Cancel` is an act of client 1 ([`Act`]), and `1:5` says that it goes five
//! times. The setters of a flag are numbered on from its clients. A channel has senders, `s0` and so on, receivers, `r0` and
//! so on, and `closer`.
//!
//! Line|Answers
//! ---|---
//! `SCHEDULE`|how many of its steps are taken, and all parts of the world that it changes
//! `state`|all parts of the world
//! `new SIZE`|`ok`, `no memory`: later schedules are of a new world of the same sort, which has that size
//!
//! A part is a name and a value. Of an actor it has the place; `told`, if it is notified and in line; `wake`, if it has its
//! wake-up; `has N`, the permits that it holds, or its message; and `owes N`, how many it is still to notify. What all share
//! is `lock CLIENT` or `lock free`; `flag true` or `flag false`; `free PERMITS/ALL`; `messages COUNT/CAPACITY`, all messages,
//! and `closed`. Who is not named is as before.
//!
//! What is no schedule of the world answers `` no step `WORD` ``, and what is none of the lines `invalid`. An answer is never
//! parsed: what is displayed is compared with the text.
//!
//! No clause speaks of texts: rows show it when they run.
mod row;
mod rows;
mod runner;
mod spot;
mod step;
mod world;

pub use row::run_on_worlds;
pub use rows::WORLDS;
pub use spot::{At, Spot};
pub use step::{Act, Actor, Step, no_step, steps_of};
pub use world::{World, write_changes, write_state};
