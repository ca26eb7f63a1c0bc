//! Laws that users rely on. Each is the contract of a function without a `requires`.
ghost use Rattle.std.specs.Prelude.{◌≡◌, ◌↔◌, ℕ, List, [], IsTrue};
ghost use Rattle.std.specs.List.{FoldsTo};
ghost use Rattle.event_queue.specs.Woken.{Kept, first_of};

use crate::key::Key;
use crate::wake::WakeSink;
use crate::woken::Woken;

/// Returns whether two keys are equal, and proves that this is so exactly if their slots and their serial numbers are.
pub fn equal_keys(left: Key, right: Key) -> bool
    ensures { IsTrue result ↔ ((left.slot ≡ right.slot) × (left.serial ≡ right.serial)) }
{
    left == right
}

/// Proves that a [`Woken`] with room for `n` tasks keeps the first `n` of the tasks that it is given, and counts the others.
///
/// Does nothing when a program runs.
pub fn woken_keeps_the_first<W: Drop>()
    ensures { (n : ℕ) (tasks : List W) (after : Kept W)
        → FoldsTo ⟦<Woken<W> as WakeSink<W>>⟧.woke (record { tasks = []; room = n; missed = 0 })
        tasks after → after ≡ first_of n tasks }
{}
