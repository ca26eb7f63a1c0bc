//! A lock on one word: what a semaphore, a mutex and a read-write lock are made of, proved between any two steps of any threads.
//!
//! [`Word`] keeps a *state*, the queues of the waiters, behind an atomic word. The word has a *number*, of what is free or of the
//! threads that have the value, and a *code*, which says whether the state is there and whether a waiter may have to be notified
//! of what is given back. One compare-exchange takes what is free, and one gives it back where no waiter has to be notified. Else
//! a thread takes the state out, notifies, and puts the state back by a compare-exchange that fails where the word has changed:
//! then the thread notifies again. A state that is out can't be dropped. The thread wakes the notified tasks once the state is
//! back: a few from a list of its own, and where they are more, the next few once it has taken the state again. The tasks lie
//! beside the state meanwhile, in room that the waiters have made. Word, state and value lie in place, in a
//! [`Slot`](event_slot::Slot), so making a lock takes no memory.
//!
//! A thread that finds the state out again and again sleeps, once it has marked the word. The thread that puts the state back
//! wakes one that sleeps; the woken thread marks the word as it takes the state, since others may sleep still.
//!
//! What a lock says of its number and its state is its [`Kept::rules`]. [`Competing`] is the state of a semaphore and of a mutex,
//! whose queue is a fair one; [`Queues`] is that of a read-write lock, whose readers and writers each have a [`Right`]. A user of
//! a lock does not need this crate: [`event_locks`](../../event_locks/README.md) has the locks.
//!
//! Read `word.rt` and `word/rule.rt` first, then `word/take.rt` and `wakes.rt`; for a semaphore and a mutex `competing.rt`,
//! `word/competing.rt`, `word/permits.rt` and `word/value.rt`; for a read-write lock `shares/queues.rt`, `shares/right.rt`,
//! `shares/steps.rt`, `shares/owned.rt` and `shares/requests.rt`.
#![tactic(auto)]

mod competing;
mod contender;
mod counts;
mod error;
mod shares;
mod wakes;
mod word;

pub use competing::{Competing, Counted, OneValue, Permits, the_starving_find_one};
pub use contender::{Arrival, Coming, Contender};
pub use counts::Counts;
pub use error::TryAcquireError;
pub use shares::counts::RwLockCounts;
pub use shares::number::{is_written, readers};
pub use shares::owned::OwnedRight;
pub use shares::queues::Queues;
pub use shares::reading::Reading;
pub use shares::right::Right;
pub use shares::share::{Grant, Out, Share};
pub use shares::writing::Writing;
pub use wakes::Room;
pub use word::{
    Held, Kept, Lent, OwnedClaim, OwnedValue, Parked, Permit, Place, Seat, Step, View, Word,
    Writer, WriterArc,
};
