//! Waiters that starve: newcomers leave to them what is due to them, but not for ever.
//!
//! A waiter *starves* if it was notified and found nothing too often. While a waiter starves newcomers are refused for its sake.
//! A waiter that is left alone would have them refused for ever, so each has a number of refusals: the newcomer that is the last
//! of them has the waiter *struck off*, which means that it starves no more.
ghost use Rattle.std.specs.Prelude.{◌≡◌, ◌≢◌, None, length};
ghost use Rattle.event_wait.specs.Starving.{but, forborne_with, less_forborne, struck_off};

use event_queue::Key;
use std::alloc::Global;

/// How often a waiter is notified and finds nothing before newcomers are refused for its sake.
pub const PATIENCE: u32 = 2;

/// How many newcomers are refused for the sake of a starving waiter before that waiter is struck off, if it lost [`PATIENCE`]
/// times. Each further loss doubles the number, up to about a million.
pub const FORBEARANCE: u32 = 64;

// How often `FORBEARANCE` is doubled at most.
const DOUBLED: u32 = 14;

/// Returns how many newcomers, beside the last, are refused for the sake of a waiter that has lost so often.
pub fn forborne_with(losses: u32) -> u32
    ensures { result ≡ forborne_with losses }
{
    (FORBEARANCE << losses.saturating_sub(PATIENCE).min(DOUBLED)) - 1
}

/// Takes the waiter with this key out of the list of starving waiters, if it is there.
#[cold]
#[inline(never)]
pub fn strike_off(starving: &mut Vec<(Key, u32), Global>, key: Key)
    ensures { starving.new.items ≡ but (Some key) starving.old.items }
{
    starving.retain(|one| key != one.0);
}

/// Counts one more newcomer that is refused for the sake of the first starving waiter. Returns the key of that waiter if the
/// newcomer is the last to be refused for it; the waiter is still in the list then.
pub fn forbear(starving: &mut Vec<(Key, u32), Global>) -> Option<Key>
    ensures off { result ≡ struck_off starving.old.items }
    ensures less { result ≡ None → starving.new.items ≡ less_forborne starving.old.items }
    ensures same { result ≢ None → starving.new.items ≡ starving.old.items }
    ensures count { length starving.new.items ≡ length starving.old.items }
{
    let (key, more) = *starving.get(0)?;
    if more == 0 {
        return Some(key);
    }
    starving[0] = (key, more - 1);
    None
}
