//! Readers and writers that have the value of a read-write lock, counted in the number of its word, and the steps on the word
//! that need no queue.
ghost use Rattle.std.specs.Prelude.{◌≡◌, ◌≢◌, ◌<◌, ◌%◌, ◌↔◌, None, IfSome, IsTrue};
ghost use Rattle.event_word.specs.Count.{active_readers_of, readers_of, writers_of};
ghost use Rattle.event_word.specs.Word.{number_of};
ghost use Rattle.event_word.specs.Queues.{CountsOne, Recounts};

/// What one reader adds to the word.
pub(crate) const READER: u64 = 8;

/// What the writer adds to the word.
pub(crate) const WRITER: u64 = 4;

/// What a parked reader adds to the word.
pub(crate) const PARKED_READER: u64 = 0x4_0000_0000;

/// What the parked writer adds to the word.
pub(crate) const PARKED_WRITER: u64 = 0x2_0000_0000;

/// So many readers are more than can be counted.
pub(crate) const TOO_MANY: u64 = 0x2000_0000;

// A number counts fewer readers than that which are not parked.
const ROOM: u64 = 0x4000_0000;

// What a parked reader adds to a number, and what a parked writer adds.
const ONE_PARKED: u64 = 0x1_0000_0000;

const WRITER_PARKED: u64 = 0x8000_0000;

/// The word once a reader or writer that has the value leaves.
#[derive(Clone, Copy)]
pub enum Leaving {
    /// The word changes, and no waiter is to be let in by that.
    Going(u64),
    /// The word changes, and the queues are taken out, because a waiter may be next.
    Taking(u64),
}

/// Returns how many readers a number counts that are not parked.
#[inline(always)]
pub(crate) fn active_readers(number: u64) -> u64
    ensures { result ≡ active_readers_of number }
{
    number / 2 % ROOM
}

/// Returns how many readers a number counts, parked or not.
#[inline(always)]
pub fn readers(number: u64) -> u64
    ensures { result ≡ readers_of number }
{
    active_readers(number) + number / ONE_PARKED
}

/// Returns how many writers a number counts: one or none.
#[inline(always)]
pub(crate) fn writers(number: u64) -> u64
    ensures { result ≡ writers_of number }
{
    number % 2 + number / WRITER_PARKED % 2
}

/// Returns whether a number counts a writer.
#[inline(always)]
pub fn is_written(number: u64) -> bool
    ensures { IsTrue result ↔ (0 < writers_of number) }
{
    writers(number) > 0
}

/// Returns the word once the writer reads, or `None` if there may be a waiter.
#[inline(always)]
pub(crate) fn writer_reads(word: u64) -> Option<u64>
    ensures step { IfSome result (Recounts 2 1 word) }
    ensures counts { IfSome result (λ new. (number_of word ≡ 1) × (number_of new ≡ 2)) }
    ensures one { IfSome result (CountsOne 1) }
    ensures refused { result ≡ None → word % 4 ≡ 0 → number_of word ≢ 1 }
{
    if word != WRITER {
        return None;
    }
    Some(READER)
}

/// Returns the word once the only reader writes, or `None` if there is another reader or there may be a waiter.
#[inline(always)]
pub(crate) fn reader_writes(word: u64) -> Option<u64>
    ensures step { IfSome result (Recounts 1 2 word) }
    ensures passes_nobody { IfSome result (λ _. word % 4 ≡ 0) }
    ensures counts { IfSome result (λ new. (number_of word ≡ 2) × (number_of new ≡ 1)) }
    ensures one { IfSome result (CountsOne 2) }
    ensures refused { result ≡ None → word % 4 ≡ 0 → number_of word ≢ 2 }
{
    if word != READER {
        return None;
    }
    Some(WRITER)
}
