//! A balance that is waited for, over any runtime.
ghost use Rattle.std.specs.Prelude.{◌≡◌, ◌+◌, ◌≤◌, IfOk, IfSome};

use event_locks::{Condition, Monitor, WaitError};
use futures::executor::block_on;
use std::alloc::{AllocGlobal, Global};
use std::random::RandomSource;
use std::sync::{Arc, Wait};
use std::thread::{self, JoinHandle, Threads};
use std::time::{Clock, Duration};

/// A balance, and the callers that wait to withdraw from it.
pub type Balance = Monitor<u64, Withdrawal>;

/// A withdrawal: takes an amount off the balance, once there is as much.
#[derive(Clone, Copy)]
pub struct Withdrawal {
    pub amount: u64,
}

/// What was there before a withdrawal, and what is left.
#[derive(Clone, Copy)]
pub struct Receipt {
    pub before: u64,
    pub left: u64,
}

impl Condition<u64> for Withdrawal {
    type Output = Receipt;

    ghost use Rattle.std.specs.Prelude.{◌≡◌, ◌+◌, ◌<◌};

    // There is less.
    ghost fails = { λ withdrawal balance. balance < withdrawal.amount };

    // Just the amount is taken off.
    ghost gives = { λ withdrawal balance receipt rest. (receipt.before ≡ balance)
        × (receipt.left ≡ rest) × (receipt.left + withdrawal.amount ≡ receipt.before) };

    fn attempt(&self, balance: &mut u64) -> Option<Receipt> {
        let before = *balance;
        let left = before.checked_sub(self.amount)?;
        *balance = left;
        Some(Receipt { before, left })
    }
}

/// Adds to the balance, which holds as much as a `u64` does at most, and returns what the balance is then.
pub fn deposit<R: Wait>(rt: &R, balance: &Balance, amount: u64) -> u64
    ensures { amount ≤ result }
{
    balance.change(rt, |balance| {
        *balance = balance.saturating_add(amount);
        *balance
    })
}

/// Starts a thread that adds to the balance in a moment, and returns what the balance is then.
pub fn deposit_later<R>(
    rt: R,
    balance: &Arc<Balance, Global>,
    amount: u64,
) -> anyhow::Result<JoinHandle<u64>>
where
    R: Threads + Wait + Clock + Copy + Send + Sync + 'static,
{
    let balance = Arc::try_clone(balance)?;
    let depositor = thread::spawn(&rt, move || {
        thread::sleep(&rt, Duration::from_millis(20));
        deposit(&rt, &balance, amount)
    })?;
    Ok(depositor)
}

/// Blocks the thread until there is as much, and takes it off.
pub fn withdraw<R: Wait + Clock>(
    rt: &R,
    alloc: Global,
    balance: &Balance,
    amount: u64,
) -> Result<Receipt, WaitError>
    ensures { IfOk result (λ receipt. receipt.left + amount ≡ receipt.before) }
{
    balance.until(rt, alloc, Withdrawal { amount }).wait()
}

/// The same, for so long at most. `None` says that there was less at the end too.
pub fn withdraw_within<R: Wait + Clock>(
    rt: &R,
    alloc: Global,
    balance: &Balance,
    amount: u64,
    limit: Duration,
) -> Result<Option<Receipt>, WaitError>
    ensures { IfOk result (λ answer.
        IfSome answer (λ receipt. receipt.left + amount ≡ receipt.before)) }
{
    let mut withdrawal = balance.until(rt, alloc, Withdrawal { amount });
    withdrawal.wait_timeout(limit)
}

/// Takes the amount off once the balance holds it, as a task that awaits the withdrawal.
pub fn withdraw_as_task<R>(
    rt: &R,
    alloc: Global,
    balance: &Balance,
    amount: u64,
) -> anyhow::Result<Receipt>
where
    R: Wait + Clock + RandomSource + AllocGlobal,
    ensures { IfOk result (λ receipt. receipt.left + amount ≡ receipt.before) }
{
    let withdrawal = balance.until(rt, alloc, Withdrawal { amount });
    Ok(block_on(rt, withdrawal)??)
}
