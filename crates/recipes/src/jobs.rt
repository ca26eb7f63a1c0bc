//! Jobs that `rayon` runs, of which a few at most run at once.
use event_locks::Semaphore;
use rayon::prelude::*;
use std::alloc::{AllocError, Global};
use std::sync::Wait;
use std::thread::Threads;
use std::time::Clock;

/// Squares each number on as many threads as there are processors, as many at once as there are permits at most. A number
/// whose thread could not wait for a permit has no square.
pub fn square_each<R>(
    rt: &R,
    alloc: Global,
    permits: &Semaphore,
    numbers: &[u32],
) -> Result<Vec<Option<u64>>, AllocError>
where
    R: Threads + Wait + Clock + Sync,
{
    numbers
        .par_iter()
        .map(|number: &u32| {
            let _permit = permits.acquire(rt, alloc).wait().ok()?;
            Some(u64::from(*number) * u64::from(*number))
        })
        .collect(rt, alloc)
}
