//! A gate through which no more than so many are inside at once.
ghost use Rattle.std.specs.Prelude.{◌≤◌, IfOk, IfSome};

use event_locks::{Condition, Monitor, WaitError};
use std::alloc::Global;
use std::sync::Wait;
use std::time::{Clock, Duration};

/// How many are inside: `MOST` at most, since each value of the type is so.
#[derive(Drop)]
pub struct Inside<const MOST: usize> {
    count: usize,
    ghost few: { count ≤ MOST },
}

/// A gate with those that are inside, and the callers that wait until there is room for one more.
pub type Gate<const MOST: usize> = Monitor<Inside<MOST>, Entry>;

/// The wish to go in, once there is room.
#[derive(Clone, Copy)]
pub struct Entry {}

impl<const MOST: usize> Condition<Inside<MOST>> for Entry {
    // How many are inside then.
    type Output = usize;

    ghost use Rattle.std.specs.Prelude.{◌≡◌, ◌+◌, ◌≤◌};

    // As many are inside as may be.
    ghost fails = { λ _ inside. inside.count ≡ MOST };

    // One more is inside, and no more than may be.
    ghost gives = { λ _ inside count after. (after.count ≡ inside.count + 1)
        × (count ≡ after.count) × (count ≤ MOST) };

    fn attempt(&self, inside: &mut Inside<MOST>) -> Option<usize> {
        if inside.count >= MOST {
            return None;
        }
        inside.count += 1;
        Some(inside.count)
    }
}

/// Makes a gate with nobody inside.
pub fn new_gate<const MOST: usize>(alloc: Global) -> Gate<MOST> {
    Monitor::new(alloc, Inside { count: 0 })
}

/// Blocks the thread until there is room, goes in, and returns how many are inside then.
pub fn go_in<R: Wait + Clock, const MOST: usize>(
    rt: &R,
    alloc: Global,
    gate: &Gate<MOST>,
) -> Result<usize, WaitError>
    ensures { IfOk result (λ count. count ≤ MOST) }
{
    gate.until(rt, alloc, Entry {}).wait()
}

/// The same, for so long at most. `None` says that there was no room at the end either.
pub fn go_in_within<R: Wait + Clock, const MOST: usize>(
    rt: &R,
    alloc: Global,
    gate: &Gate<MOST>,
    limit: Duration,
) -> Result<Option<usize>, WaitError>
    ensures { IfOk result (λ answer. IfSome answer (λ count. count ≤ MOST)) }
{
    let mut entry = gate.until(rt, alloc, Entry {});
    entry.wait_timeout(limit)
}

/// Goes out. The gate notifies the callers that wait for room.
pub fn go_out<R: Wait, const MOST: usize>(rt: &R, gate: &Gate<MOST>) {
    gate.change(rt, |inside| {
        inside.count = inside.count.saturating_sub(1);
    });
}
