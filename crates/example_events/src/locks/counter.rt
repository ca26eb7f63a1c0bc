//! Threads that count.
use crate::locks::mutex::{Mutex, MutexError};
use crate::locks::semaphore::{Semaphore, SemaphoreError};
use crate::threads::{Work, run_threads};
use event_listener::EventId;
use std::alloc::{AllocError, Global};
use std::sync::{self, Arc, Wait};
use std::thread::Threads;
use std::time::Clock;
use thiserror::Error;

/// Why the threads did not count to the end. Of several threads that fail this is the fault of the thread that was started
/// first.
#[derive(Clone, Copy, Debug, PartialEq, Eq, Error)]
pub enum CountError {
    /// A thread was not given the lock.
    #[error("{0}")]
    Lock(#[from] MutexError),
    /// A thread was not given a permit.
    #[error("{0}")]
    Permit(#[from] SemaphoreError),
    /// There was no memory for a thread or for a share of the counter, or a thread did not start.
    #[error("no memory for the program")]
    Memory(#[from] AllocError),
}

/// Starts that many threads, each of which locks a counter and adds 1. Returns the count once all have ended.
pub fn count<R>(rt: R, alloc: Global, id: EventId, threads: usize) -> Result<u64, CountError>
where
    R: Threads + Wait + Clock + Copy + Send + Sync + 'static,
{
    let counter = share(alloc, Mutex::new(id, 0u64))?;
    run_threads(rt, alloc, &counter, threads)?;
    Ok(*counter.lock(&rt, alloc)?)
}

/// Starts that many threads, each of which takes a permit, and one more if one is free, and adds 1 to a counter.
/// Returns the count once all have ended.
pub fn count_with_permits<R>(
    rt: R,
    alloc: Global,
    id: EventId,
    threads: usize,
    permits: usize,
) -> Result<u64, CountError>
where
    R: Threads + Wait + Clock + Copy + Send + Sync + 'static,
{
    let counter = PermitCounter {
        semaphore: Semaphore::new(id, permits),
        count: sync::Mutex::new(0),
    };
    let counter = share(alloc, counter)?;
    run_threads(rt, alloc, &counter, threads)?;
    Ok(*counter.count.lock(&rt))
}

// Makes a counter that threads can share.
fn share<C: Drop>(alloc: Global, counter: C) -> Result<Arc<C>, AllocError> {
    Ok(Arc::new(alloc, counter)?)
}

// Each thread adds 1.
impl Work<CountError> for Mutex<u64> {
    fn work<R>(&self, rt: &R, alloc: Global, _place: usize) -> Result<(), CountError>
    where
        R: Wait + Clock + Clone,
    {
        let mut count = self.lock(rt, alloc)?;
        *count = count.saturating_add(1);
        Ok(())
    }
}

// A counter that only threads with a permit touch.
#[derive(Drop)]
struct PermitCounter {
    semaphore: Semaphore,
    count: sync::Mutex<u64>,
}

impl Work<CountError> for PermitCounter {
    fn work<R>(&self, rt: &R, alloc: Global, _place: usize) -> Result<(), CountError>
    where
        R: Wait + Clock + Clone,
    {
        let mut permit = self.semaphore.acquire(rt, alloc)?;
        permit.more();
        let mut count = self.count.lock(rt);
        *count = count.saturating_add(1);
        Ok(())
    }
}
