//! What a lock keeps behind its word.
ghost use Rattle.std.specs.Prelude.{◌≡◌, ◌^◌, ◌<◌, ◌≤◌, ℕ, false, true};
ghost use Rattle.event_word.specs.Rules.{Rules};

use crate::wakes::Room;
use event_queue::WakeSink;
use event_wait::Task;

/// The state of a lock on one word: the waiters, and what belongs to them.
pub trait Kept: Sized {
    // What the lock says of its number and of this state.
    ghost rules: { Rules Self };

    /// Returns the number that the word is to have before a waiter is notified: with the bit set or cleared that shows newcomers
    /// whether they may take what is free. The call neither allocates nor waits.
    fn number(&self, number: u64) -> u64
        requires { (number < 2 ^ 62) × rules.fits number × rules.promised number self.now }
        ensures room { result < 2 ^ 62 }
        ensures fits { rules.fits result }
        ensures promised { rules.promised result self.now }
        ensures tells { rules.tells result self.now }
        ensures counts { rules.counts result ≡ rules.counts number }
        ensures lowers { result ≤ number → (state : Self) → rules.promised result state
            → rules.promised number state };

    /// Returns the number by which newcomers leave the word alone, or the same number if there is none.
    ///
    /// A thread that gives back what it has changes the word still. By default the call returns the number as it is.
    fn shut(number: u64) -> u64
        requires { (number < 2 ^ 62) × rules.fits number }
        ensures room { result < 2 ^ 62 }
        ensures fits { rules.fits result }
        ensures counts { rules.counts result ≡ rules.counts number }
        ensures promised { (state : Self) → rules.promised number state
            → rules.promised result state }
    {
        number
    }

    /// Notifies waiters of what is free by this number, and returns whether a waiter has to be notified of what is given back
    /// next. The tasks go to `sink`.
    fn settle<K: WakeSink<Task>>(&mut self, number: u64, sink: &mut K) -> bool
        requires { (number < 2 ^ 62) × rules.fits number × rules.promised number self.old
            × rules.tells number self.old }
        ensures stands { rules.stands number self.new }
        ensures quiet { result ≡ false → rules.quiet self.new }
        ensures crowded { result ≡ true → rules.quiet self.new → ⊥ };

    /// Exchanges the room beside the state, if it has one. The call changes nothing that a contract sees.
    fn swap_room(&mut self, _room: &mut Room)
        ensures { self.new ≡ self.old }
    {}

    // What stands is promised.
    ghost promises: { (number : ℕ) (state : Self) → rules.stands number state → rules.promised number state };
}
