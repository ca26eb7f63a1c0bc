//! A thread that waits for two channels at once.
use event_channel::{Receiver, unbounded};
use futures::executor::block_on;
use futures::future::select;
use std::alloc::AllocGlobal;
use std::random::RandomSource;
use std::sync::Wait;
use std::time::Clock;

// Returns the next number of either channel, an urgent number first.
fn next_of_two<R>(
    rt: &R,
    urgent: &Receiver<u64, R>,
    others: &Receiver<u64, R>,
) -> anyhow::Result<u64>
where
    R: Wait + Clock + Clone + RandomSource + AllocGlobal,
{
    let received = block_on(rt, select(urgent.recv(), others.recv()))?;
    let (number, _) = received.factor_first();
    Ok(number?)
}

/// Sends two numbers into a channel, and then an urgent number into another channel. Returns all numbers in the order in which
/// they are received.
pub fn urgent_first<R>(rt: &R) -> anyhow::Result<[u64; 3]>
where
    R: Wait + Clock + Clone + RandomSource + AllocGlobal,
{
    let (send_urgent, urgent) = unbounded(rt, rt.alloc())?;
    let (send, others) = unbounded(rt, rt.alloc())?;
    send.send_blocking(1)?;
    send.send_blocking(2)?;
    send_urgent.send_blocking(3)?;
    Ok([
        next_of_two(rt, &urgent, &others)?,
        next_of_two(rt, &urgent, &others)?,
        next_of_two(rt, &urgent, &others)?,
    ])
}
