//! Looking at the number of a lock for which threads compete, with its state out.
ghost use Rattle.std.specs.Prelude.{◌≡◌, ◌%◌, ◌<◌, ◌≤◌, false, true};
ghost use Rattle.event_word.specs.Free.{IsClosed, IsOpen, NoneFor, ServesWith, free_of, unshut_of};
ghost use Rattle.event_word.specs.Held.{HasState};
ghost use Rattle.event_word.specs.Word.{count, number_of};

use super::held::Held;
use super::{ONE, Word};
use crate::competing::{CLOSED, Competing, Counted, free};

/// Returns whether a contender may take what is free: a notified contender also where newcomers may not.
#[inline(always)]
pub(crate) fn may_take(seen: u64, notified: bool) -> bool
    ensures some { result ≡ true → (4 ≤ seen) × 0 < free_of (number_of seen) }
    ensures open { result ≡ true → notified ≡ false → IsOpen (number_of seen) }
    ensures none { result ≡ false → (IsClosed (number_of seen) → ⊥)
        → NoneFor notified (number_of seen) }
{
    free(seen / ONE) > 0 && (notified || seen < CLOSED * ONE)
}

impl<'a, C: Counted, V> Held<'a, Competing<C>, V> {
    /// Returns the word while the state is out. What is left for the notified waiters that starve, and for one more contender
    /// that was notified, is left still.
    #[inline(always)]
    pub(crate) fn look_serving(&mut self, notified: bool) -> u64
        requires serves { HasState (λ n q. ServesWith (count notified) n q.line) self.old }
        ensures of { self.new.word ≡ self.old.word }
        ensures state { self.new.claim.state ≡ self.old.claim.state }
        ensures word { (result % 2 ≡ 1) × C.fits (unshut_of (number_of result)) }
        ensures serves { HasState (λ n q. (n ≡ number_of result)
            × ServesWith (count notified) n q.line) self.new }
    {
        self.look()
    }
}
