//! The loop that every lock, semaphore and channel over an [`Event`](event_listener::Event) needs: attempt until one attempt
//! succeeds.
//!
//! The loop attempts, listens, attempts again, waits until it is notified, and begins anew. An [`Attempt`] is what is
//! attempted, for example to take a lock. [`Until`] makes the attempts until one succeeds: a call of it blocks a thread, with
//! or without a limit, or a task awaits it. Read `attempt.rt` first, then `until.rt` and `until/turn.rt`.
#![tactic(auto)]

mod attempt;
mod error;
mod until;

pub use attempt::Attempt;
pub use error::UntilError;
pub use until::Until;
