//! Locks for threads and tasks, of which it is proved in the code that runs that nobody waits in vain.
//!
//! A semaphore, a mutex and a read-write lock are each a [`Word`](event_word::Word) of `event_word`, with its guards and waits.
//! A barrier, a cell that is set once and a monitor are those of `event_monitor`. Read `semaphore.rt` first.
#![tactic(auto)]

mod lending;
mod mutex;
mod polled;
mod rw_lock;
mod semaphore;
pub mod states;
mod taker;

pub use event_monitor::{
    Barrier, BarrierWait, BarrierWaitResult, BlockError, Claim, Claiming, Condition, Initializing,
    Monitor, OnceCell, PollError, Seeing, SetError, SetReason, Surely, Until, Vacant, WaitError,
};
pub use event_wait::LockError;
pub use event_wait::starving::{FORBEARANCE, PATIENCE};
pub use event_word::{Counts, RwLockCounts, TryAcquireError};
pub use mutex::{Lock, LockArc, Mutex, MutexGuard, MutexGuardArc};
pub use rw_lock::{
    Read, ReadArc, RwLock, RwLockReadGuard, RwLockReadGuardArc, RwLockWriteGuard,
    RwLockWriteGuardArc, Write, WriteArc,
};
pub use semaphore::{
    Acquire, AcquireArc, AcquireError, Semaphore, SemaphoreGuard, SemaphoreGuardArc,
};
