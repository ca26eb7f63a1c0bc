//! The right to the value of a mutex of a holder that shares the mutex, so that the right has no lifetime.
ghost use Rattle.std.specs.Prelude.{◌≡◌, ◌≢◌, None, IfErr, IfOk};
ghost use Rattle.event_slot.specs.Ruling.{Becomes, MayTurn};
ghost use Rattle.event_word.specs.Free.{unshut_of};
ghost use Rattle.event_word.specs.Word.{Changes, Passes, Shows, counts_of, nothing, number_of};

use super::kept::Kept;
use super::rule::{Change, Enter, Place};
use super::value::PARKED;
use super::{CROWDED, ONE, Parked, Seat};
use crate::competing::{CLOSED, Competing, OneValue, SHUT};
use event_slot::{Inside, Owned};
use std::alloc::Global;
use std::sync::{Arc, Wait};

/// What a thread has of a lock on one word that it shares by an `Arc`.
pub type OwnedClaim<L, S, V> = Owned<L, Place<V>, S, Global>;

/// The right to the value of a mutex that the holder shares by an `Arc`.
pub type OwnedValue<L, K, V> = OwnedClaim<L, Competing<OneValue<K>>, V>;

// Changes the word, if it is as it was expected and no waiter has to be notified. Returns the word as it was, the claim then, and a
// new seat.
#[inline(always)]
#[tactic(auto, using(crate::proofs::WordKeeps::comes, crate::proofs::WordKeeps::due_changes))]
fn turn<L, S: Kept, V>(
    owned: OwnedClaim<L, S, V>,
    expected: u64,
    new: u64,
) -> (u64, OwnedClaim<L, S, V>, Seat)
    requires state { owned.state ≡ None }
    requires may { MayTurn owned.right (counts_of S.rules expected) (counts_of S.rules new) }
    requires changes { Changes S.rules expected new }
    ensures own { (result.1.name ≡ owned.name) × (result.1.of ≡ owned.of) × (result.1.state ≡ None) }
    ensures seat { (result.2.slot ≡ owned.name) × (result.2.view ≡ nothing) }
    ensures made { result.0 ≡ expected → Becomes owned.right (counts_of S.rules expected)
        (counts_of S.rules new) result.1.right }
    ensures stays { result.0 ≢ expected → result.1.right ≡ owned.right }
    ensures shows { Shows S.rules owned.right result.0 }
{
    owned.arrive::<Change>(expected, new)
}

// Takes the right to the value by one compare-exchange, where no waiter has to be notified. An error has the lock and the word,
// where that is another.
#[inline(always)]
fn lend<L: Inside<Place<V>, S>, S: Kept, V>(
    lock: Arc<L, Global>,
    expected: u64,
    new: u64,
) -> Result<OwnedClaim<L, S, V>, (Arc<L, Global>, u64)>
    requires changes { Changes S.rules expected new × Passes S.rules 0 2 expected new }
    ensures right { IfOk result (λ owned. (owned.right ≡ 2) × (owned.state ≡ None)) }
    ensures own { IfOk result (λ owned. (owned.of ≡ lock.value)
        × (owned.name ≡ (L.finds lock.value).name)) }
    ensures refused { IfErr result (λ again. (again.0.value ≡ lock.value)
        × S.rules.fits (number_of again.1)) }
{
    let (found, owned, _seat) = turn(Owned::new(lock), expected, new);
    if found == expected {
        return Ok(owned);
    }
    Err((owned.done(), found))
}

// Gives the right to the value back by one compare-exchange, where no waiter has to be notified. An error has the right, and the
// word where that is another.
#[inline(always)]
fn give_back<L, S: Kept, V>(
    owned: OwnedClaim<L, S, V>,
    expected: u64,
    new: u64,
) -> Result<(Arc<L, Global>, Seat), (OwnedClaim<L, S, V>, u64)>
    requires right { (owned.right ≡ 2) × (owned.state ≡ None) }
    requires changes { Changes S.rules expected new × Passes S.rules 2 0 expected new }
    ensures given { IfOk result (λ given. (given.0.value ≡ owned.of) × (given.1.slot ≡ owned.name)) }
    ensures own { IfErr result (λ again. (again.0.right ≡ 2) × (again.0.state ≡ None)
        × (again.0.of ≡ owned.of) × (again.0.name ≡ owned.name)) }
    ensures shows { IfErr result (λ again. Shows S.rules 2 again.1) }
{
    let (found, owned, seat) = turn(owned, expected, new);
    if found == expected {
        return Ok((owned.done(), seat));
    }
    Err((owned, found))
}

impl<K> OneValue<K> {
    /// Takes the right to the value of a mutex, if no thread has it and newcomers may take it, and returns the right. An error has
    /// the mutex.
    ///
    /// The call costs one compare-exchange where no other thread changes the word meanwhile, and does not wait.
    #[inline(always)]
    pub fn come<L: Inside<Place<V>, Competing<OneValue<K>>>, V>(
        lock: Arc<L, Global>,
    ) -> Result<OwnedValue<L, K, V>, Arc<L, Global>>
        ensures right { IfOk result (λ owned. (owned.right ≡ 2) × (owned.state ≡ None)) }
        ensures own { IfOk result (λ owned. (owned.of ≡ lock.value)
            × (owned.name ≡ (L.finds lock.value).name)) }
        ensures refused { IfErr result (λ again. again.value ≡ lock.value) }
    {
        let mut lock = lock;
        let mut expected = ONE;
        for _ in 0..u64::MAX {
            match lend(lock, expected, expected - ONE) {
                Ok(owned) => return Ok(owned),
                Err((again, found)) => {
                    lock = again;
                    expected = found;
                }
            }
            if expected < ONE || expected >= CLOSED * ONE {
                return Err(lock);
            }
        }
        Err(lock)
    }

    /// Gives the right to the value of a mutex back, if no waiter is to be notified by that, and returns the share of the mutex. An
    /// error has the right, and the word as the call found it.
    ///
    /// The call costs one compare-exchange where no waiter has to be notified.
    #[inline(always)]
    pub fn go<L, V, R: Wait>(
        rt: &R,
        owned: OwnedValue<L, K, V>,
    ) -> Result<Arc<L, Global>, (OwnedValue<L, K, V>, u64)>
        requires right { (owned.right ≡ 2) × (owned.state ≡ None) }
        ensures lock { IfOk result (λ arc. arc.value ≡ owned.of) }
        ensures own { IfErr result (λ again. (again.0.right ≡ 2) × (again.0.state ≡ None)
            × (again.0.of ≡ owned.of) × (again.0.name ≡ owned.name)) }
        ensures taken { IfErr result (λ again. unshut_of (number_of again.1) ≡ 0) }
    {
        let mut owned = owned;
        let mut expected = 0;
        for _ in rt.forever() {
            match give_back(owned, expected, expected + ONE) {
                Ok((lock, _seat)) => return Ok(lock),
                Err((again, found)) => {
                    owned = again;
                    expected = found;
                }
            }
            if expected % 4 == CROWDED {
                return Err((owned, expected));
            }
        }
        unreachable!()
    }

    /// Parks: gives up the right to where the value lies, and returns the share of the mutex and the parked right.
    ///
    /// The number still says that the value is taken. The call expects `word`, as [`go`](OneValue::go) found it.
    pub fn park<L, V, R: Wait>(
        rt: &R,
        owned: OwnedValue<L, K, V>,
        word: u64,
    ) -> (Arc<L, Global>, Parked)
        requires right { (owned.right ≡ 2) × (owned.state ≡ None) }
        requires taken { unshut_of (number_of word) ≡ 0 }
        ensures lock { result.0.value ≡ owned.of }
        ensures parked { result.1 ≡ owned.name }
    {
        let mut owned = owned;
        let mut expected = word;
        for _ in rt.forever() {
            match give_back(owned, expected, expected + PARKED * ONE) {
                Ok((lock, seat)) => return (lock, Parked::new(&seat)),
                Err((again, found)) => {
                    owned = again;
                    expected = found;
                }
            }
        }
        unreachable!()
    }
}

impl Parked {
    /// Takes the right to where the value lies again, for a holder that shares the mutex, and returns the right.
    ///
    /// The call blocks for no other thread, because the number says that the value is parked, and no other thread takes the right
    /// meanwhile.
    pub fn unpark<L: Inside<Place<V>, Competing<OneValue<K>>>, K, V, R: Wait>(
        self,
        rt: &R,
        lock: Arc<L, Global>,
    ) -> OwnedValue<L, K, V>
        requires { self ≡ (L.finds lock.value).name }
        ensures right { (result.right ≡ 2) × (result.state ≡ None) }
        ensures own { (result.of ≡ lock.value) × (result.name ≡ (L.finds lock.value).name) }
    {
        self.end();
        let mut lock = lock;
        let mut expected = PARKED * ONE;
        for _ in rt.forever() {
            if expected / ONE % SHUT == PARKED {
                match lend(lock, expected, expected - PARKED * ONE) {
                    Ok(owned) => return owned,
                    Err((again, found)) => {
                        lock = again;
                        expected = found;
                    }
                }
            } else {
                expected = look(&*lock);
            }
        }
        unreachable!()
    }
}

// Returns the word of a mutex, by one load.
#[tactic(auto, using(crate::proofs::WordKeeps::sits, crate::proofs::WordKeeps::due_enters))]
fn look<L: Inside<Place<V>, S>, S: Kept, V>(lock: &L) -> u64
    ensures fits { S.rules.fits (number_of result) }
{
    let (seen, _seat) = lock.slot().enter::<Enter<S>>();
    seen
}
