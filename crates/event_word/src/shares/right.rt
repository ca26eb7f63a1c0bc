//! What the rights to read and to write have in common.
ghost use Rattle.std.specs.Prelude.{◌≡◌, ℕ, ◌%◌, ◌+◌, ◌≤◌, length, IfErr, IfOk, IfSome, IsFalse, IsTrue, OnErr};
ghost use Rattle.event_queue.specs.Exchange.{JoinsWithTask, RegistersWith};
ghost use Rattle.event_queue.specs.Queue.{Queue};
ghost use Rattle.event_wait.specs.declared.error.LockError.{LockError};
ghost use Rattle.event_wait.specs.Line.{HasLeft, IsNotIn, IsNotInUnlessWaits, Looked, left_by};
ghost use Rattle.event_word.specs.declared.shares.queues.Queues.{Queues};
ghost use Rattle.event_word.specs.Count.{IsCount, readers_of, writers_of};
ghost use Rattle.event_word.specs.Leaving.{IfGoing, IfTaking, becomes};
ghost use Rattle.event_word.specs.Queues.{Admits, CountsOne, IsExclusive, Recounts, RecountsAndTakes, counted_in, joined_by};
ghost use Rattle.event_slot.specs.Ruling.{Becomes, MayTurn};
ghost use Rattle.event_word.specs.Word.{number_of};

use super::number::Leaving;
use super::queues::Queues;
use event_queue::{Key, ListenError, RegisterResult, TaskExchange};
use event_wait::LockError;

/// What a thread or task asks of the lock: to read ([`Reading`](super::reading::Reading)) or to write
/// ([`Writing`](super::writing::Writing)).
///
/// An implementation says how the word counts a holder, and what a waiter does with the queues.
pub trait Right<W> {
    // The queue of the waiters for this right.
    ghost line: { Queues W → Queue (Unit {0}) W };

    // The other queue and the turn are as they were.
    ghost others_stay: { Queues W → Queues W → Type 0 };

    // No holder or waiter stands in the way of a newcomer.
    ghost is_open: { ℕ → Queues W → Type 0 };

    // One more holder can't be counted.
    ghost is_full: { ℕ → Queues W → Type 0 };

    // Why a newcomer can't wait.
    ghost refuses: { LockError → ℕ → Queues W → Queues W → Type 0 };

    // What the number was and is once a holder leaves.
    ghost ends: { ℕ → ℕ → Type 0 };

    /// What one holder adds to the number.
    const COUNTS: u64;

    ghost COUNTS: { ℕ };

    // What a holder may do, as a slot counts it: 1 is to read, 2 to write.
    ghost RIGHT: { ℕ };

    /// Returns the word with one more holder, or `None` if there may be a waiter or a newcomer is barred. So newcomers leave a
    /// word alone whose queues are out.
    fn word_in(word: u64) -> Option<u64>
        requires { IsCount (number_of word) }
        ensures home { IfSome result (λ _. word % 4 ≡ 0) }
        ensures step { IfSome result (Recounts 0 RIGHT word) }
        ensures counts { IfSome result (λ new. number_of new ≡ number_of word + COUNTS) }
        ensures one { IfSome result (CountsOne RIGHT) };

    /// Returns the word with one more holder, for a thread that has the queues out and found that one more may be admitted.
    fn word_with(word: u64) -> u64
        requires { IsCount (number_of word) }
        ensures code { result % 4 ≡ word % 4 }
        ensures counts { number_of result ≡ number_of word + COUNTS }
        ensures alone { (q : Queues W) → Admits COUNTS (number_of word) q
            → IsExclusive (number_of result) q }
        ensures may { (q : Queues W) → Admits COUNTS (number_of word) q
            → MayTurn 0 (counted_in word) (counted_in result) }
        ensures has { (k : ℕ) → Becomes 0 (counted_in word) (counted_in result) k
            → (q : Queues W) → Admits COUNTS (number_of word) q → k ≡ RIGHT };

    /// Returns the word with one holder less, for a holder that is not parked. The queues are taken out where a waiter may be next.
    fn word_out(word: u64) -> Leaving
        requires { CountsOne RIGHT word }
        ensures going { IfGoing result (Recounts RIGHT 0 word) }
        ensures taking { IfTaking result (RecountsAndTakes RIGHT 0 word) }
        ensures last { IfTaking result (λ new. (number_of word ≡ COUNTS) × (number_of new ≡ 0)) }
        ensures ends { ends (number_of word) (number_of (becomes result)) };

    /// Returns the word once a holder that is not parked is parked.
    fn word_parked(word: u64) -> u64
        requires { CountsOne RIGHT word }
        ensures step { Recounts RIGHT 0 word result }
        ensures same { (readers_of (number_of result) ≡ readers_of (number_of word))
            × (writers_of (number_of result) ≡ writers_of (number_of word)) };

    /// Returns the word once a holder is parked no more, or `None` if the word counts no parked holder.
    fn word_unparked(word: u64) -> Option<u64>
        requires { IsCount (number_of word) }
        ensures step { IfSome result (Recounts 0 RIGHT word) }
        ensures same { IfSome result (λ new. (readers_of (number_of new) ≡ readers_of (number_of word))
            × (writers_of (number_of new) ≡ writers_of (number_of word))) }
        ensures counts { IfSome result (CountsOne RIGHT) };

    /// Returns whether the number alone shows that a holder stands in the way of a newcomer.
    fn is_barred(number: u64) -> bool
        ensures { IsTrue result → (q : Queues W) → is_open number q → ⊥ };

    /// Returns whether a newcomer may be admitted: no holder or waiter stands in its way, and one more can be counted.
    fn may_come(queues: &Queues<W>, number: u64) -> bool
        ensures yes { IsTrue result → is_open number queues.now }
        ensures counted { IsTrue result → IsExclusive number queues.now
            → Admits COUNTS number queues.now }
        ensures no { IsFalse result → is_open number queues.now → is_full number queues.now };

    /// Has a newcomer wait in its queue, with the task that the exchange makes, and returns its key.
    ///
    /// May allocate. An error leaves all as it was.
    fn wait<C, X: TaskExchange<W, C>>(
        queues: &mut Queues<W>,
        number: u64,
        exchange: &X,
        on: &mut C,
    ) -> Result<Key, LockError>
        ensures joins { IfOk result (λ key.
            JoinsWithTask (X.exchanged exchange.now) (line queues.old) on.old key
            (line queues.new) on.new) }
        ensures others { others_stay queues.old queues.new }
        ensures refused { OnErr result ((queues.new ≡ queues.old) × (on.new ≡ on.old)) }
        ensures reason { IfErr result (λ error. refuses error number queues.old queues.new) }
        ensures alone { IsExclusive number queues.old → IsExclusive number queues.new }
        ensures alone_at { (n : ℕ) → (is_full n queues.old → ⊥) → IsExclusive n queues.old
            → IsExclusive n queues.new };

    /// Looks whether this waiter was let in. A waiter that was let in leaves its queue, and the number is to count it then;
    /// another waiter stores its task.
    fn look<C, X: TaskExchange<W, C>>(
        queues: &mut Queues<W>,
        key: Key,
        exchange: &X,
        on: &mut C,
    ) -> RegisterResult<()>
        ensures looked { Looked (X.exchanged exchange.now) on.old result on.new }
        ensures step { RegistersWith (X.exchanged exchange.now) (line queues.old) key on.old
            result (line queues.new) on.new }
        ensures told { length (line queues.new).told + left_by result
            ≡ length (line queues.old).told }
        ensures waiting { length (line queues.new).waiting ≡ length (line queues.old).waiting }
        ensures gone { IsNotInUnlessWaits result key (line queues.new) }
        ensures others { others_stay queues.old queues.new }
        ensures alone { (n : ℕ) → IsExclusive n queues.old → IsExclusive n queues.new }
        ensures counted { left_by result ≡ 1 → (n : ℕ) → IsExclusive n queues.old
            → Admits COUNTS n queues.new };

    /// Removes this waiter from its queue, and returns whether it was let in.
    ///
    /// The number is to count a waiter that was let in, or else the waiter gives its right up at once. The waiters that are next
    /// then are let in before the queues are put back.
    fn leave(queues: &mut Queues<W>, key: Key) -> bool
    where
        W: Drop,
        ensures let_in { IsTrue result → length (line queues.new).told + 1
            ≡ length (line queues.old).told }
        ensures not_yet { IsFalse result
            → length (line queues.new).told ≡ length (line queues.old).told }
        ensures waiting { length (line queues.new).waiting ≤ length (line queues.old).waiting }
        ensures left { HasLeft key (line queues.old) (line queues.new) }
        ensures gone { IsNotIn key (line queues.new) }
        ensures others { others_stay queues.old queues.new }
        ensures alone { (n : ℕ) → IsExclusive n queues.old → IsExclusive n queues.new }
        ensures counted { IsTrue result → (n : ℕ) → IsExclusive n queues.old
            → Admits COUNTS n queues.new };
}

/// Returns the key of a newcomer that joined its queue, or why it can't wait.
pub(super) fn joined(waits: Result<Key, ListenError>) -> Result<Key, LockError>
    ensures { result ≡ joined_by waits }
{
    match waits {
        Ok(key) => Ok(key),
        Err(error) => Err(LockError::Listen(error)),
    }
}
