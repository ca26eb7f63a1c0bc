//! Four threads pay into one balance, for which each waits a second at most. The balance is printed once all have paid. An
//! error is printed to standard error, with status 1.
#![tactic(auto)]

use anyhow::Context;
use event_locks::Mutex;
use std::alloc::Global;
use std::sync::{Arc, Wait};
use std::thread::{self, Threads};
use std::time::{Clock, Duration};

fn main(rt: HostRuntime) -> anyhow::Result<()> {
    let balance = pay_in(rt, rt.alloc())?;
    println!(rt; "The balance is {balance}.")?;
    Ok(())
}

/// The balance once four threads have paid into it.
fn pay_in<R>(rt: R, alloc: Global) -> anyhow::Result<u64>
where
    R: Threads + Wait + Clock + Copy + Send + Sync + 'static,
{
    let balance = Arc::new(alloc, Mutex::new(alloc, 0u64))?;
    let mut threads = Vec::new(alloc);
    for amount in 1..=4 {
        let balance = Arc::try_clone(&balance)?;
        threads.push(thread::spawn(&rt, move || pay(&rt, alloc, &balance, amount))?)?;
    }
    let mut paid = Ok(());
    for thread in threads {
        paid = paid.and(thread.join(&rt));
    }
    paid?;
    let balance = balance.lock(&rt, alloc).wait()?;
    Ok(*balance)
}

/// Adds to the balance, once nobody else has it.
fn pay<R: Wait + Clock>(
    rt: &R,
    alloc: Global,
    balance: &Mutex<u64>,
    amount: u64,
) -> anyhow::Result<()> {
    let guard = balance
        .lock(rt, alloc)
        .wait_timeout(Duration::from_secs(1))?;
    let mut balance = guard.context("the balance was not free in time")?;
    *balance = balance.saturating_add(amount);
    Ok(())
}
