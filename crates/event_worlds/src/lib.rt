//! Worlds over the queue of an event: the clients of a lock, of a flag, of a semaphore or of a bounded channel, one step at a
//! time.
//!
//! A client of a lock goes from [`Place`] to place, by what it learns: [`Place::after`] is the whole table of its steps. A
//! [`MutexWorld`] is a lock with its clients, in any number, each of whose steps is one call; a [`SemaphoreWorld`] is a lock of
//! several permits, whose clients go by the same table, and so do the senders and the receivers of a [`ChannelWorld`]. Read
//! `world/place.rt` first, then `world/mutex.rt`.
#![tactic(auto)]

pub mod world;

pub use world::acts::{Act, ChannelAct, ChannelActor, ChannelStep, SemAct, SemStep, Step};
pub use world::channel::{ChannelClient, ChannelWorld, CloserPlace};
pub use world::flag::{FlagPlace, FlagWorld, SetterPlace};
pub use world::mutex::MutexWorld;
pub use world::place::{News, Place};
pub use world::semaphore::SemaphoreWorld;
