//! A queue of work that is closed: what was taken in is done, and each worker ends.
use event_channel::{Receiver, RecvError, SendError, Sender, bounded};
use std::alloc::Global;
use std::sync::Wait;
use std::thread::{self, JoinHandle, Threads};
use std::time::Clock;

const WORKERS: usize = 4;

const NUMBERS: u64 = 1000;

// Sends all numbers. The call owns the only sender, so the channel is closed when the call ends, for whatever reason.
fn send_all<R: Wait + Clock + Clone>(numbers: Sender<u64, R>) -> Result<(), SendError<u64>> {
    for number in 1..=NUMBERS {
        numbers.send_blocking(number)?;
    }
    Ok(())
}

// Receives numbers until the channel is closed and empty. If all workers end early, the channel is closed as well.
fn add_squares<R: Wait + Clock + Clone>(
    rt: R,
    numbers: Receiver<u64, R>,
) -> Result<u64, RecvError> {
    let mut sum = 0u64;
    for _ in rt.forever() {
        match numbers.recv_blocking() {
            Ok(number) => sum = sum.saturating_add(number.saturating_mul(number)),
            Err(RecvError::Closed) => return Ok(sum),
            Err(error) => return Err(error),
        }
    }
    unreachable!()
}

// Workers, each of which returns the sum of the squares that it computed.
type Workers = Vec<JoinHandle<Result<u64, RecvError>>>;

// Starts the workers, each with a receiver of its own.
fn start_workers<R>(rt: R, alloc: Global, receiver: Receiver<u64, R>) -> anyhow::Result<Workers>
where
    R: Threads + Wait + Clock + Copy + Send + Sync + 'static,
{
    let mut workers = Vec::with_capacity(alloc, WORKERS)?;
    for _ in 0..WORKERS {
        let numbers = receiver.clone()?;
        workers.push(thread::spawn(&rt, move || add_squares(rt, numbers))?)?;
    }
    Ok(workers)
}

// Returns the sum of all workers, once each has ended.
fn join_workers<R: Threads>(rt: &R, workers: Workers) -> Result<u64, RecvError> {
    let mut sum = Ok(0u64);
    for worker in workers {
        let added = worker.join(rt);
        sum = sum.and_then(|sum| Ok(sum.saturating_add(added?)));
    }
    sum
}

/// Returns the sum of the squares of all numbers. Workers share the numbers, of which a few wait at a time.
pub fn sum_of_squares<R>(rt: R, alloc: Global) -> anyhow::Result<u64>
where
    R: Threads + Wait + Clock + Copy + Send + Sync + 'static,
{
    let (sender, receiver) = bounded(&rt, alloc, 8)?;
    let workers = start_workers(rt, alloc, receiver)?;
    let sent = send_all(sender);
    let sum = join_workers(&rt, workers)?;
    sent?;
    Ok(sum)
}

/// Hands in the numbers from 1 to 10, closes the queue, and hands in 11. Returns the sum of the squares of what was taken
/// in, and what became of the last one.
pub fn close_gracefully<R>(
    rt: R,
    alloc: Global,
) -> anyhow::Result<(u64, Result<(), SendError<u64>>)>
where
    R: Threads + Wait + Clock + Copy + Send + Sync + 'static,
{
    let (numbers, receiver) = bounded(&rt, alloc, 8)?;
    let workers = start_workers(rt, alloc, receiver)?;
    for number in 1..=10 {
        numbers.send_blocking(number)?;
    }
    numbers.close();
    let late = numbers.send_blocking(11);
    let sum = join_workers(&rt, workers)?;
    Ok((sum, late))
}
