//! A pool of workers. Each job has a channel of its own for the answer.
use event_channel::{Receiver, RecvError, Sender, WaitError, bounded, unbounded};
use std::alloc::Global;
use std::sync::Wait;
use std::thread::{self, JoinHandle, Threads};
use std::time::Clock;

// A number to be squared, and where the answer goes.
#[derive(Drop)]
struct Job<R: Wait + Clock + Clone> {
    number: u64,
    answer: Sender<u64, R>,
}

/// The answer to a job, once there is one.
#[derive(Drop)]
pub struct Answer<R: Wait + Clock + Clone> {
    receiver: Receiver<u64, R>,
}

impl<R: Wait + Clock + Clone> Answer<R> {
    /// Blocks the thread until the job is done. `Closed` says that a worker gave the job up, or is gone.
    pub fn wait(self) -> Result<u64, RecvError> {
        self.receiver.recv_blocking()
    }
}

/// Workers that take jobs from one channel.
#[derive(Drop)]
pub struct Pool<R: Wait + Clock + Clone> {
    jobs: Sender<Job<R>, R>,
    workers: Vec<JoinHandle<Result<(), WaitError>>>,
}

// Does jobs until the channel is closed and empty. A job that is too large drops its sender, and so closes the channel
// of its answer.
fn work<R: Wait + Clock + Clone>(jobs: Receiver<Job<R>, R>) -> Result<(), WaitError> {
    for job in jobs.iter() {
        let Job { number, answer } = job?;
        if let Some(square) = number.checked_mul(number) {
            // There is room. Perhaps nobody waits for the answer any more.
            let _ = answer.try_send(square);
        }
    }
    Ok(())
}

impl<R> Pool<R>
where
    R: Threads + Wait + Clock + Copy + Send + Sync + 'static,
{
    /// Starts so many workers.
    pub fn new(rt: R, alloc: Global, size: usize) -> anyhow::Result<Self> {
        let (jobs, receiver) = unbounded(&rt, alloc)?;
        let mut workers = Vec::with_capacity(alloc, size)?;
        for _ in 0..size {
            let jobs = receiver.clone()?;
            workers.push(thread::spawn(&rt, move || work(jobs))?)?;
        }
        Ok(Pool { jobs, workers })
    }

    /// Hands in a job.
    pub fn submit(&self, rt: R, alloc: Global, number: u64) -> anyhow::Result<Answer<R>> {
        let (answer, receiver) = bounded(&rt, alloc, 1)?;
        self.jobs.send_blocking(Job { number, answer })?;
        Ok(Answer { receiver })
    }

    /// Takes in no more jobs, and returns once all jobs are done.
    pub fn finish(self, rt: R) -> Result<(), WaitError> {
        let Pool { jobs, workers } = self;
        drop(jobs);
        let mut ended = Ok(());
        for worker in workers {
            ended = ended.and(worker.join(&rt));
        }
        ended
    }
}
