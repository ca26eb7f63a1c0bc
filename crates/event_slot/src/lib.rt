//! A value in place beside one atomic word, which many threads may read or one may write, and a state behind both that the thread
//! which takes it out owns, under a rule of the caller's.
//!
//! A [`Slot`] is a word, a value and a state. The caller says how the word counts the threads that have the value,
//! [`Ruled::counts`], and what else the word has. One compare-exchange, [`Claim::exchange`] or [`Claim::arrive`], decides which
//! thread may read or write, which takes the state out and which puts it back. What a thread has of a slot is a [`Claim`]. A
//! reader lends `&T`; a writer is a [`Writing`], which lends `&mut T`; and a claim that has the state out lends `&mut S`. Value
//! and state stay where they are. Nothing is allocated, and making a slot can't fail.
//!
//! Between any two steps of any threads the caller's rule holds, [`Ruled::holds`]: a fact about the word, about the state while
//! it is at home, and about what each [`Mark`] knows. The rule may read the slot's key, which is given when the slot is made, and
//! which no step changes. A mark is a token without bytes. Each step is made with a mark, asks that the step keeps the rule, and
//! may change what that mark knows, as [`Trades`] and [`Tells`] say. Marks are made by steps, too, and cut in two or joined, as
//! [`Splits`] and [`Joins`] say. A mark that no step is made with may lie in a [`Rest`].
//!
//! Threads may sleep beside a slot while its word announces that, [`Ruled::announces`]. A thread that sleeps owes a wake,
//! [`Ruled::owes`], and so does a thread that takes the announcement from the word. A thread pays by [`Slot::wake_one`] or
//! [`Slot::wake_all`], or leaves a word that announces the wake.
//!
//! A guard over a writer has a mark besides, which has to be of the same slot. Such a guard has a [`Tied`], so that it can lend
//! `&mut T`.
//!
//! A guard that keeps its lock by an `Arc` has no lifetime. Such a guard has an [`Owned`], an `Arc` with a claim on the slot in
//! its value, which is [`Inside`]. An owned claim takes the same steps, lends the value and the state where they lie, and gives
//! the `Arc` back at the end.
//!
//! A `&` to an [`Exclusive`] shows nothing of the value in it. A slot of such a value may be shared though the value may not, and
//! only a writer reaches the value.
//!
//! A [`SetOnce`] is another thing: a value in place that is set at most once, and shared from then on. Each value that a cell may
//! have fits the key of the cell, as [`Fits`] says.
//!
//! Read `rule.rt` first, then `slot.rt`, `claim.rt`, `writing.rt`, `tied.rt` and `owned.rt`; of the definitions
//! `specs/Ruling.antt`, then `specs/Holding.antt` and `specs/Owning.antt`. `proofs/Rights.antt` and `proofs/Steps.antt` have the
//! two sides of a step on the word, that of the count and that of the marks, which the walks of the functions cite. Of `SetOnce`
//! read `set_once.rt` and `write_once.rt`, then `specs/Written.antt` and `proofs/Setting.antt`.
#![tactic(auto)]

mod claim;
mod exclusive;
mod leased;
mod lends;
mod owned;
mod rest;
mod rule;
mod set_once;
mod sleep;
mod slot;
mod tied;
mod write_once;
mod writing;

pub use claim::Claim;
pub use exclusive::Exclusive;
pub use leased::Leased;
pub use owned::{Inside, Owned};
pub use rest::Rest;
pub use rule::{Joins, Mark, Ruled, Splits, Tells, Trades};
pub use set_once::SetOnce;
pub use slot::Slot;
pub use tied::{Tied, Ties};
pub use write_once::Fits;
pub use writing::Writing;

/// The state of a counted word where a writer may be admitted, and no reader.
pub const FREE: u64 = 0;

/// The state where readers may be admitted, and a writer once there is no reader.
pub const PRESENT: u64 = 1;

/// Another state where readers may be admitted, which this crate takes for [`PRESENT`]. A rule may tell the two apart.
pub const MARKED: u64 = 2;

/// The state while a writer has the value.
pub const TAKEN: u64 = 3;

/// What one reader adds to the word: 4, because the low two bits are the state.
pub const ONE_READER: u64 = 4;
