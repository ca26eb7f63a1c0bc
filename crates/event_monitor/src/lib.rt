//! A barrier, a cell that is set once, and a monitor: each a state under a [`QuietLock`], which wakes tasks once it is given back.
//! The type of each state says that nobody waits in vain.
//!
//! Nobody needs this crate to use a lock: [`event_locks`](../../event_locks/README.md) has them all. Read `ticket.rt` first,
//! the place of a waiter to which a state hands something, then `barrier.rt` and `once_cell.rt`; `monitor.rt` stands alone.
#![tactic(auto)]

mod asking;
mod barrier;
mod error;
mod lock;
mod monitor;
mod once_cell;
mod queueing;
mod ticket;
mod wakes;

pub use barrier::{Barrier, BarrierWait, BarrierWaitResult, Ended, Rounds};
pub use error::{BlockError, PollError, SetError, SetReason, WaitError};
pub use lock::{QuietLock, Waited};
pub use monitor::{Condition, Monitor, Until, Waiter, Watch, Watched};
pub use once_cell::{
    Claim, Claiming, Initializing, IsSet, Once, OnceCell, Seeing, Surely, Turn, Vacant,
};
pub use ticket::{Handoff, Ticket};
