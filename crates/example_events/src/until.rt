//! What threads and tasks wait for over [`event_until`]. Each file says what one [`Attempt`](event_until::Attempt) is and which
//! listeners a drop notifies, and writes nothing else of a wait. Locks are in `event_locks`.
//!
//! - [`Gate`]: it is opened once, and all its waiters go on.
//! - [`Watch`]: the latest value, for many readers; each gets a newer value than it has seen, which is a clause of
//!   `wait_newer`.
//! - [`Baton`]: one thread or task at a time has it, by a guard that owns its runtime value.
//!
//! Each call that may wait returns an `Until`: `gate.pass(&rt, alloc).wait()?` blocks, `.wait_timeout(limit)?` returns
//! `None` at the limit, and `block_on(&rt, gate.pass(&rt, alloc))??` awaits. What one at a time can have needs no more
//! than a default notification; what all can have notifies `usize::MAX`. Each changes first and notifies then.
//!
//! Only tested, in `test_examples`: that one waiter at a time has the baton, that all waiters go on, that a woken waiter
//! finds the gate open, and what a drop propagates.
mod baton;
mod gate;
mod watch;

pub use baton::{Baton, OwnedBaton, Take};
pub use gate::{Gate, Pass};
pub use watch::{Newer, Version, Watch};
