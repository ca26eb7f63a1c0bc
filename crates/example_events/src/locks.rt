//! A lock and a semaphore over an event of `event_listener`: a client that finds the lock held, or no permit free,
//! listens, tries again, and waits until a notification makes it try anew.
//!
//! [`Mutex::lock`] blocks the calling thread, [`Mutex::lock_timeout`] does so for some time at most, and a [`PolledLock`] is
//! polled by a task. A [`Semaphore`] has several permits; a [`Permit`] is one, or several: `more` takes one more permit. The
//! drop of a [`MutexGuard`] frees the lock, and then notifies one listener, unless one is notified already; that of a permit
//! frees all of it in one step, and then notifies as many listeners more. [`count`] and [`count_with_permits`] start threads
//! that each add 1 under one lock. The value stands in the standard library's lock, which is only tried; the free permits are
//! an atomic number. A client waits by its listener alone.
//!
//! # The way of a client
//!
//! A client is at a [`Place`](event_worlds::Place) of `event_worlds`, and goes on by
//! [`Place::after`](event_worlds::Place::after) alone. The way of a client is written once, in [`contended`]; what the client
//! has at a place is a type: `Trying` has no listener, `Waiting` and `Parked` have a listener, `Held` has what was taken,
//! `Releasing` has freed it and not yet notified. The types keep the order. `Held` and `Releasing` are not `Drop`: only
//! `Held::free` makes a `Releasing`, and only `Releasing::notify` ends it. Nor is a `Client`: a client leaves only from a place
//! without a listener, and learns that its listener was dropped only from `Client::drops`, which drops the listener.
//!
//! Two tries stand around the listening, since a notification in between reaches no listener. A second try that takes something
//! drops the listener while the client has it. A notified client that finds the lock taken again listens anew. All waits of a
//! call have the deadline that the call began with. `PolledLock::poll` uses that a dropped waker wakes its task: a client that
//! was notified and found the lock taken again has no waker left, and its task is polled again.
//!
//! For a lock of your own, implement `Contended`, whose `try_take` is one try, and `Taken`, whose `free` frees what was taken
//! and says how many listeners to notify; then call `try_once`, `take` and `take_timeout`. `docs/PROMISES.md` says what is
//! proved, and what only `test_examples` and `test_memory` show.
pub mod contended;
mod counter;
mod mutex;
mod semaphore;

pub use counter::{CountError, count, count_with_permits};
pub use mutex::{Mutex, MutexError, MutexGuard, PolledLock};
pub use semaphore::{Permit, Semaphore, SemaphoreError};
