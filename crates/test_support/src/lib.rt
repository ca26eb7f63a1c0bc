//! What the crates of tests share, and `soak` and the worked rows with them: runtimes that they change, and the kinds of
//! listeners and the wakers of `calls_events`, which this hands on.
//!
//! - Listeners and tasks: [`ListenerKind`]s, so that a test is run with each; [`WaitCall`] names a wait, for the same;
//!   [`any_waker`].
//! - Runtimes: [`Runtime`] is what a test asks of its runtime value, [`SharedRuntime`] what one with threads does.
//!   [`Changed`] is one with a [`Change`]: of what its clock shows, as by [`NoClock`] or [`Ticks`], or of what happens when
//!   that is read or the runtime value is cloned.
//! - Programs: a [`Screen`] keeps what one prints.
//! - Threads: [`for_two_seconds`], as long as a race takes, [`spin_until`], and [`is_let_in`], a thread that has parked.
//!
//! No clause says that anything is woken: the tests show it.
#![tactic(auto)]

mod changed;
mod loops;
mod runtimes;
mod screen;
mod waits;
mod wakers;

pub use calls_events::{Borrowing, ListenerKind, Sharing, waker_of};
pub use changed::{Change, Changed, NoClock, Ticks};
pub use loops::{for_two_seconds, is_let_in, spin_until};
pub use runtimes::{Runtime, SharedRuntime};
pub use screen::Screen;
pub use waits::{WaitCall, deadline_after};
pub use wakers::any_waker;
