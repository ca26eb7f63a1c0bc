//! Each kind of wait for a lock of `event_locks`, so that crates of tests write once what is said of every wait, and run it with
//! each. It is a crate of its own since two such crates use it, and each test build proves its own crate's library anew.
//!
//! | Module | What it has |
//! |---|---|
//! | `waits` | what the waits of all locks have in common: [`Waits`], [`Refusal`] |
//! | `kinds` | each lock and way to wait for it, as a [`Kind`] |
//! | `cases` | how a [`Case`] is run with [`each`] of them |
#![tactic(auto)]

mod cases;
mod kinds;
mod waits;

pub use cases::{Case, each};
pub use kinds::{Arrives, Kind, Of, Read, See, Sets, Sharing, Write, numbers};
pub use waits::{Refusal, Waits};
