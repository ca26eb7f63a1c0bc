//! The right to write, alone.
ghost use Rattle.std.specs.Prelude.{◌≡◌, ◌≢◌, None, IfSome};
ghost use Rattle.event_wait.specs.Joining.{CannotJoin};
ghost use Rattle.event_word.specs.Count.{readers_of, writers_of};
ghost use Rattle.event_word.specs.Queues.{IsQuiet, ReadersStay, Recounts};
ghost use Rattle.event_word.specs.Word.{number_of};

use super::number::{Leaving, PARKED_READER, PARKED_WRITER, READER, WRITER};
use super::queues::Queues;
use super::right::{Right, joined};
use crate::word::CROWDED;
use event_queue::{Key, RegisterResult, TaskExchange};
use event_wait::LockError;
use event_wait::waiters::{join_line, leave_line, look_for};

/// The right to write. A newcomer gets it where no reader or writer has the value, was let in or waits.
pub struct Writing {}

impl<W> Right<W> for Writing {
    ghost line = { λ queues. queues.write_line };

    ghost others_stay = { ReadersStay };

    ghost is_open = { λ number queues. (number ≡ 0) × IsQuiet queues };

    ghost is_full = { λ _ _. ⊥ };

    ghost refuses = { λ error _ old new. CannotJoin error old.write_line new.write_line };

    ghost ends = { λ old new. (readers_of new ≡ readers_of old) × (writers_of new ≡ 0) };

    const COUNTS: u64 = 1;

    ghost COUNTS = { 1 };

    ghost RIGHT = { 2 };

    #[inline(always)]
    fn word_in(word: u64) -> Option<u64>
        ensures step { IfSome result (Recounts 0 2 word) }
        ensures counts { IfSome result (λ new. (word ≡ 0) × (number_of new ≡ 1)) }
        ensures refused { result ≡ None → word ≢ 0 }
    {
        if word > 0 {
            return None;
        }
        Some(WRITER)
    }

    fn word_with(word: u64) -> u64 {
        word + WRITER
    }

    #[inline(always)]
    fn word_out(word: u64) -> Leaving {
        if word % 4 == CROWDED {
            return Leaving::Taking(word - WRITER - 1);
        }
        Leaving::Going(word - WRITER)
    }

    fn word_parked(word: u64) -> u64 {
        word - WRITER + PARKED_WRITER
    }

    fn word_unparked(word: u64) -> Option<u64> {
        if word % PARKED_READER < PARKED_WRITER {
            return None;
        }
        Some(word - PARKED_WRITER + WRITER)
    }

    fn is_barred(number: u64) -> bool {
        number > 0
    }

    fn may_come(queues: &Queues<W>, number: u64) -> bool {
        number == 0 && queues.is_quiet()
    }

    fn wait<C, X: TaskExchange<W, C>>(
        queues: &mut Queues<W>,
        _number: u64,
        exchange: &X,
        on: &mut C,
    ) -> Result<Key, LockError> {
        joined(join_line(&mut queues.write_line, exchange, on))
    }

    fn look<C, X: TaskExchange<W, C>>(
        queues: &mut Queues<W>,
        key: Key,
        exchange: &X,
        on: &mut C,
    ) -> RegisterResult<()> {
        look_for(&mut queues.write_line, key, exchange, on)
    }

    fn leave(queues: &mut Queues<W>, key: Key) -> bool
    where
        W: Drop,
    {
        leave_line(&mut queues.write_line, key).was_told()
    }
}
