//! How a thread or a task waits at any lock. Events, the locks of `event_locks` and channels stand on this crate.
//!
//! A waiter makes a *request* of a lock ([`Waitable`]): an attempt, made under the lock, gives the request its output, has the
//! request wait on, or is refused; and at a limit the request leaves its queue. Most requests are attempted before they wait
//! ([`Obtainable`]). What a lock says of its requests is one record, its [`Rules`](../specs/Rounds.antt). One loop serves a
//! thread ([`wait`], [`obtain`]) and one poll a task ([`poll_in`]), at any lock. [`Obtaining`] is a wait as a value, which holds
//! its lock by a [`Hold`].
//!
//! A [`Lock`] holds a state, and takes each [`Request`] of that state. [`waiters`] are the steps on a queue that states of locks
//! are made of, and [`FairQueue`] is a queue in which each waiter has a turn; [`starving`] says for how long newcomers are
//! refused for the sake of waiters that starve. [`take_lock!`] takes a free lock at once. While
//! another thread has the lock, a thread looks ever more seldom, and sleeps at last ([`wait_for_lock`]).
//!
//! Read `waitable.rt` first, then `lock/wait.rt`, `request.rt`, `lock.rt` and `obtaining.rt`.
#![tactic(auto)]

mod back_off;
mod error;
mod fair_queue;
mod hold;
mod lock;
mod obtaining;
mod request;
pub mod starving;
mod waitable;
pub mod waiters;

pub use back_off::{PAUSES, pause, wait_for_lock};
pub use error::LockError;
pub use fair_queue::{FairQueue, Queued, turns_are_kept_along};
pub use hold::{Borrowed, Hold, Shared};
pub use lock::wait::{Refused, obtain, poll_in, try_then_wait, wait};
pub use lock::{DeferredWake, Limit, Lock, StoreParker, Task, WakerSource};
pub use obtaining::Obtaining;
pub use request::{Attempt, Attempted, Request};
pub use waitable::{Obtainable, TakesAny, Waitable};
