//! Functions that await locks, over any runtime.
use event_channel::Receiver;
use event_locks::{Barrier, Mutex, RwLock, Semaphore};
use futures::executor::block_on;
use futures::future::{Either, join, select};
use std::alloc::{AllocGlobal, Global};
use std::random::RandomSource;
use std::sync::Wait;
use std::time::Clock;

/// Adds to the balance once this task has it, and returns what the balance is then.
pub fn deposit<R>(rt: &R, alloc: Global, balance: &Mutex<u64>, amount: u64) -> anyhow::Result<u64>
where
    R: Wait + Clock + RandomSource + AllocGlobal,
{
    let mut balance = block_on(rt, balance.lock(rt, alloc))??;
    *balance = balance.saturating_add(amount);
    Ok(*balance)
}

/// Has two permits at once, and returns how many are free meanwhile.
pub fn take_two<R>(rt: &R, alloc: Global, permits: &Semaphore) -> anyhow::Result<usize>
where
    R: Wait + Clock + RandomSource + AllocGlobal,
{
    let both = join(permits.acquire(rt, alloc), permits.acquire(rt, alloc));
    let (first, second) = block_on(rt, both)?;
    let held = (first?, second?);
    let free = permits.available();
    drop(held);
    Ok(free)
}

/// Returns a message, or else the balance, made one higher: whichever this task gets first.
pub fn first_of<R>(
    rt: &R,
    alloc: Global,
    messages: &Receiver<u64, R>,
    balance: &Mutex<u64>,
) -> anyhow::Result<Result<u64, u64>>
where
    R: Wait + Clock + Clone + RandomSource + AllocGlobal,
{
    match block_on(rt, select(messages.recv(), balance.lock(rt, alloc)))? {
        Either::Left((message, _lock)) => Ok(Ok(message?)),
        Either::Right((balance, _message)) => {
            let mut balance = balance?;
            *balance = balance.saturating_add(1);
            Ok(Err(*balance))
        }
    }
}

/// Doubles the value, and then reads it.
pub fn read_after_write<R>(rt: &R, alloc: Global, value: &RwLock<u64>) -> anyhow::Result<u64>
where
    R: Wait + Clock + RandomSource + AllocGlobal,
{
    let mut writer = block_on(rt, value.write(rt, alloc))??;
    *writer = writer.saturating_mul(2);
    drop(writer);
    Ok(*block_on(rt, value.read(rt, alloc))??)
}

/// Waits twice at once at a barrier for two, and returns whether just one of both waits leads.
pub fn meet<R>(rt: &R, alloc: Global, barrier: &Barrier) -> anyhow::Result<bool>
where
    R: Wait + Clock + RandomSource + AllocGlobal,
{
    let both = join(barrier.wait(rt, alloc), barrier.wait(rt, alloc));
    let (first, second) = block_on(rt, both)?;
    Ok(first?.is_leader() != second?.is_leader())
}
