//! Threads of which a few at most run at once.
use event_locks::Semaphore;
use std::alloc::Global;
use std::sync::atomic::{AtomicUsize, Ordering};
use std::sync::{Arc, Wait};
use std::thread::{self, JoinHandle, Threads};
use std::time::{Clock, Duration};

/// How many jobs run, and how many have run at once at most.
#[derive(Drop)]
pub struct Load {
    running: AtomicUsize,
    most: AtomicUsize,
}

impl Load {
    /// Makes the counts before any job has run.
    pub fn new() -> Self {
        Load {
            running: AtomicUsize::new(0),
            most: AtomicUsize::new(0),
        }
    }

    /// Returns how many jobs have run at once at most.
    pub fn most(&self) -> usize {
        self.most.load(Ordering::SeqCst)
    }

    // Runs one more job, for a moment, and counts it.
    fn run<R: Clock>(&self, rt: &R) {
        let running = self.running.fetch_add(1, Ordering::SeqCst).wrapping_add(1);
        self.most.fetch_max(running, Ordering::SeqCst);
        thread::sleep(rt, Duration::from_millis(5));
        self.running.fetch_sub(1, Ordering::SeqCst);
    }
}

/// Starts a job in a thread of its own, once a permit is free. The thread has the permit, and gives it back when the job ends.
pub fn start<R, J, T>(
    rt: R,
    alloc: Global,
    permits: &Arc<Semaphore, Global>,
    job: J,
) -> anyhow::Result<JoinHandle<T>>
where
    R: Threads + Wait + Clock + Copy + Send + Sync + 'static,
    J: FnOnce() -> T + Send + Drop + 'static,
    T: Send + Drop + 'static,
    requires { J.pre job }
{
    let permit = Semaphore::acquire_arc(permits, rt, alloc)?.wait()?;
    let started = thread::spawn(
        &rt,
        move ||
            requires { J.pre job }
        {
            let answer = job();
            drop(permit);
            answer
        },
    )?;
    Ok(started)
}

/// Runs so many jobs, of which as many at once as there are permits at most.
pub fn run_all<R>(
    rt: R,
    alloc: Global,
    permits: &Arc<Semaphore, Global>,
    load: &Arc<Load, Global>,
    jobs: usize,
) -> anyhow::Result<()>
where
    R: Threads + Wait + Clock + Copy + Send + Sync + 'static,
{
    let mut started = Vec::with_capacity(alloc, jobs)?;
    for _ in 0..jobs {
        let load = Arc::try_clone(load)?;
        started.push(start(rt, alloc, permits, move || load.run(&rt))?)?;
    }
    for job in started {
        job.join(&rt);
    }
    Ok(())
}
