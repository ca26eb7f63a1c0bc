//! Tasks of one thread take turns at a balance, in a pool of `futures`.
ghost use Rattle.event_locks.specs.Awaited.{lock_awaits};

use event_locks::{Lock, Mutex};
use futures::executor::LocalPool;
use futures::task::{Context, Poll};
use futures::{Future, ready};
use std::alloc::{AllocGlobal, Global};
use std::random::RandomSource;
use std::sync::Wait;
use std::time::Clock;

/// Adds to a balance once this task has it.
#[derive(Drop)]
struct Deposit<'a, R: Wait + Clock> {
    lock: Lock<'a, u64, R>,
    amount: u64,
}

impl<'a, R: Wait + Clock> Future for Deposit<'a, R> {
    type Output = ();

    // A pending poll waits for what that of the lock does.
    ghost needs = { λ deposit s. lock_awaits deposit.lock s };

    fn poll(&mut self, cx: &mut Context<'_>) -> Poll<()> {
        if let Ok(mut balance) = ready!(self.lock.poll(cx)) {
            *balance = balance.saturating_add(self.amount);
        }
        Poll::Ready(())
    }
}

/// What a balance is once each task has added its amount, from 1 up. One that could not wait adds nothing.
pub fn deposit_all<R>(rt: &R, alloc: Global, tasks: u64) -> anyhow::Result<u64>
where
    R: Wait + Clock + RandomSource + AllocGlobal,
{
    let balance = Mutex::new(alloc, 0u64);
    let mut pool: LocalPool<Deposit<'_, R>> = LocalPool::new(rt)?;
    let spawner = pool.spawner()?;
    for amount in 1..=tasks {
        let lock = balance.lock(rt, alloc);
        if spawner.spawn(Deposit { lock, amount }).is_err() {
            anyhow::bail!("no memory for a task");
        }
    }
    pool.run(rt);
    let balance = pool.run_until(rt, balance.lock(rt, alloc))??;
    Ok(*balance)
}
