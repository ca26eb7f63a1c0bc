//! Threads that are started one after another, and joined in that order.
use std::alloc::{AllocError, Global};
use std::sync::{Arc, Wait};
use std::thread::{self, JoinHandle, Threads};
use std::time::Clock;

/// The work that several threads share, and that each of them does once. The fault of a thread that fails is an `E`.
pub trait Work<E>: Drop + Send + Sync + 'static {
    /// Does the work of the thread that is started in this place, counted from 0.
    fn work<R>(&self, rt: &R, alloc: Global, place: usize) -> Result<(), E>
    where
        R: Wait + Clock + Clone;
}

/// Starts that many threads, each of which does the work, and joins them.
///
/// Returns the fault of the first thread that failed, in the order in which the threads were started and not in that in which
/// they failed. If no thread failed, the fault that is made of an [`AllocError`] says that a thread was not started, for want
/// of memory or of a thread. Whatever failed, each thread that was started has ended. The call allocates, and waits for the
/// threads.
pub fn run_threads<R, E, W>(rt: R, alloc: Global, work: &Arc<W>, threads: usize) -> Result<(), E>
where
    R: Threads + Wait + Clock + Copy + Send + Sync + 'static,
    E: From<AllocError> + Send + Drop + 'static,
    W: Work<E>,
{
    let mut started = Vec::new(alloc);
    let all_started = start(rt, alloc, work, threads, &mut started);
    let mut ended = Ok(());
    for thread in started {
        ended = ended.and(thread.join(&rt));
    }
    ended?;
    all_started?;
    Ok(())
}

// Starts the threads. The list has the threads that were started, also if a later thread was not.
fn start<R, E, W>(
    rt: R,
    alloc: Global,
    work: &Arc<W>,
    threads: usize,
    started: &mut Vec<JoinHandle<Result<(), E>>>,
) -> Result<(), AllocError>
where
    R: Threads + Wait + Clock + Copy + Send + Sync + 'static,
    E: Send + Drop + 'static,
    W: Work<E>,
{
    for place in 0..threads {
        started.reserve(1)?;
        let share = Arc::try_clone(work)?;
        let thread = thread::spawn(&rt, move || share.work(&rt, alloc, place))?;
        started.push_reserved(thread);
    }
    Ok(())
}
