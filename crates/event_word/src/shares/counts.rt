//! The counts of a read-write lock.
ghost use Rattle.std.specs.Prelude.{◌≡◌, ◌+◌, ◌<◌, ◌≤◌};
ghost use Rattle.event_word.specs.Queues.{IsExclusive, NobodyWaitsInVain};
ghost use Rattle.event_word.specs.Held.{HasState};

use super::queues::Queues;
use crate::word::Held;
use event_wait::Task;

/// The counts of a read-write lock, all at one moment: how many readers and writers have the value, and how many wait for it.
#[derive(Clone, Copy, Debug, PartialEq, Eq)]
pub struct RwLockCounts {
    /// How many readers have a guard.
    pub readers: u64,
    /// How many writers have a guard: one or none.
    pub writers: u64,
    /// How many readers were let in and have not noticed yet. These readers have the value, too.
    pub readers_let_in: usize,
    /// How many writers were let in and have not noticed yet: one or none. That writer has the value, too.
    pub writers_let_in: usize,
    /// How many readers wait, and are not let in.
    pub readers_waiting: usize,
    /// How many writers wait, and are not let in.
    pub writers_waiting: usize,
}

impl<'a, V> Held<'a, Queues<Task>, V> {
    /// Returns the counts of the lock by this number, with the queues out, which stay as they are.
    pub fn counted(&mut self, number: u64) -> RwLockCounts
        requires stands { HasState (λ n q. (n ≡ number) × NobodyWaitsInVain n q) self.old }
        ensures of { self.new.word ≡ self.old.word }
        ensures same { (self.new.claim.state ≡ self.old.claim.state)
            × (self.new.seat.view ≡ self.old.seat.view) }
        ensures alone { HasState IsExclusive self.new }
        ensures reader_waits { 0 < result.readers_waiting
            → 0 < result.writers + result.writers_let_in + result.writers_waiting }
        ensures writer_waits { 0 < result.writers_waiting
            → 0 < result.readers + result.readers_let_in + result.writers + result.writers_let_in }
        ensures exclusive { 0 < result.readers + result.readers_let_in
            → result.writers + result.writers_let_in ≡ 0 }
        ensures one { result.writers + result.writers_let_in ≤ 1 }
    {
        self.claim.state_mut().counts(number)
    }
}
