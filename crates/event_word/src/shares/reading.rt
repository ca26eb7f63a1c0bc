//! The right to read, beside other readers.
ghost use Rattle.std.specs.Prelude.{◌≡◌, ◌+◌, ◌-◌, ◌≤◌, ◌%◌, ◌^◌, None, IfSome};
ghost use Rattle.event_word.specs.Count.{readers_of, writers_of};
ghost use Rattle.event_word.specs.Queues.{HasNoRoom, NoWriterIsThere, Recounts, RefusesReader, WritersStay};
ghost use Rattle.event_word.specs.Word.{number_of};

use super::number::{self, Leaving, PARKED_READER, READER, TOO_MANY};
use super::queues::Queues;
use super::right::{Right, joined};
use crate::word::{CROWDED, ONE};
use event_queue::{Key, RegisterResult, TaskExchange};
use event_wait::LockError;
use event_wait::waiters::{join_line, leave_line, look_for};

/// The right to read. A newcomer gets it where no writer writes, was let in or waits, and one more reader can be counted.
pub struct Reading {}

impl<W> Right<W> for Reading {
    ghost line = { λ queues. queues.read_line };

    ghost others_stay = { WritersStay };

    ghost is_open = { NoWriterIsThere };

    ghost is_full = { HasNoRoom };

    ghost refuses = { RefusesReader };

    ghost ends = { λ old new. (readers_of new ≡ readers_of old - 1)
        × (writers_of new ≡ writers_of old) };

    const COUNTS: u64 = 2;

    ghost COUNTS = { 2 };

    ghost RIGHT = { 1 };

    #[inline(always)]
    fn word_in(word: u64) -> Option<u64>
        ensures step { IfSome result (Recounts 0 1 word) }
        ensures counts { IfSome result (λ new. number_of new ≡ number_of word + 2) }
        ensures open { IfSome result (λ _. (word % 4 ≡ 0) × (writers_of (number_of word) ≡ 0)) }
        ensures refused { result ≡ None → word % 4 ≡ 0 → writers_of (number_of word) ≡ 0
            → 2 ^ 29 ≤ readers_of (number_of word) + 1 }
    {
        let number = word / ONE;
        if word % 4 > 0 || number::is_written(number) || number::readers(number) >= TOO_MANY - 1 {
            return None;
        }
        Some(word + READER)
    }

    fn word_with(word: u64) -> u64 {
        word + READER
    }

    #[inline(always)]
    fn word_out(word: u64) -> Leaving {
        if word < 2 * READER && word % 4 == CROWDED {
            return Leaving::Taking(word - READER - 1);
        }
        Leaving::Going(word - READER)
    }

    fn word_parked(word: u64) -> u64 {
        word - READER + PARKED_READER
    }

    fn word_unparked(word: u64) -> Option<u64> {
        if word < PARKED_READER {
            return None;
        }
        Some(word - PARKED_READER + READER)
    }

    fn is_barred(number: u64) -> bool {
        number::is_written(number)
    }

    fn may_come(queues: &Queues<W>, number: u64) -> bool {
        queues.has_room(number) && !queues.is_wanted(number)
    }

    fn wait<C, X: TaskExchange<W, C>>(
        queues: &mut Queues<W>,
        number: u64,
        exchange: &X,
        on: &mut C,
    ) -> Result<Key, LockError> {
        if !queues.has_room(number) {
            return Err(LockError::TooManyReaders);
        }
        joined(join_line(&mut queues.read_line, exchange, on))
    }

    fn look<C, X: TaskExchange<W, C>>(
        queues: &mut Queues<W>,
        key: Key,
        exchange: &X,
        on: &mut C,
    ) -> RegisterResult<()> {
        look_for(&mut queues.read_line, key, exchange, on)
    }

    fn leave(queues: &mut Queues<W>, key: Key) -> bool
    where
        W: Drop,
    {
        leave_line(&mut queues.read_line, key).was_told()
    }
}
