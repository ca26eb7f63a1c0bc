//! A lock over `event_slot` under a rule of its own, and its tests: what the clauses of the base are good for, from here.
//!
//! [`Lock`] has a value that many read or one writes, until somebody closes it, and a tally behind it, which is out with one that
//! counts. Its rule: whoever knows that the lock is closed is right, and the word shows what the tally is while it is at home. Who
//! comes has a mark, which the compare-exchange makes by which it came. [`Owning`] and [`Sharing`] are guards without a lifetime.
//!
//! All but the rule, which its specs cite, is compiled and proved with the tests alone, since no other crate uses it.
//!
//! | Module | What it tests |
//! |---|---|
//! | `tests` | readers together, a writer alone, who closes it; four threads that write in turn, and sleep till they may; parking; the owner's `&mut`; the tally out with one at a time, and what four threads count; guards that keep their lock by an `Arc` |
//! | `once` | a cell that is set once: who wins, what all see, and that its value is dropped once |
//! | `words` | a word of `event_word`, over such a slot: threads that meet there while another thread has its state out |
//! | `history` | a state under a lock of `event_history`, over such a slot: threads that meet add in one history, a thread that sleeps for the state is woken, a hand at rest is shared |
#![tactic(auto)]

#[cfg(test)]
mod guard;
#[cfg(test)]
mod history;
#[cfg(test)]
mod lock;
#[cfg(test)]
mod once;
mod rule;
#[cfg(test)]
mod shared;
#[cfg(test)]
mod tests;
#[cfg(test)]
mod words;

#[cfg(test)]
pub use guard::{Changing, Counting, Kept, Reading};
#[cfg(test)]
pub use lock::Lock;
#[cfg(test)]
pub use once::{AtLeast, settles};
pub use rule::{Adds, Closes, Copies, Held, Looks, Puts, Stays, Takes, Tally, View};
#[cfg(test)]
pub use shared::{Owning, Sharing};
