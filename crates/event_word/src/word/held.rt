//! The state of a lock, out with one thread.
ghost use Rattle.std.specs.Prelude.{◌≡◌};

use super::kept::Kept;
use super::rule::Place;
use super::{Seat, Word};
use event_slot::Claim;

/// The state of a lock, taken out from behind its word, with the lock that it is of.
///
/// The type is not `Drop`: the thread that has the state puts it back, by [`put_back`](Held::put_back).
pub struct Held<'a, S: Kept, V> {
    pub(crate) word: &'a Word<S, V>,
    pub(crate) claim: Claim<'a, Place<V>, S>,
    pub(crate) seat: Seat,
    ghost own: { (claim.name ≡ word.now.slot.name) × (claim.right ≡ 0) × (seat.slot ≡ word.now.slot.name) },
}
