//! The right to read or write of a holder that shares the lock, while it is not parked.
ghost use Rattle.std.specs.Prelude.{◌≡◌, ◌<◌, None, IfErr, IfOk, IfSome, IsSome, MatchResult};
ghost use Rattle.event_word.specs.Count.{IsCount};
ghost use Rattle.event_word.specs.Queues.{CountsOne, Recounts};
ghost use Rattle.event_word.specs.Word.{number_of};

use super::number::{self, Leaving};
use super::queues::Queues;
use super::reading::Reading;
use super::right::Right;
use super::share::Share;
use super::writing::Writing;
use crate::word::{Change, Enter, Place, Seat};
use event_slot::{Inside, Owned};
use event_wait::Task;
use std::alloc::Global;
use std::sync::{Arc, Wait};

/// A right to the value of a lock where it lies, with a share of the lock, so that the right has no lifetime.
///
/// A newcomer gets such a right by one compare-exchange ([`Share::come`]), and ends it by another ([`Share::go`]) where no waiter is
/// to be let in. Where one is, the holder parks its right first ([`Share::park`]), and then ends the right that is left.
pub type OwnedRight<L, V> = Owned<L, Place<V>, Queues<Task>, Global>;

// Returns the word of a lock, and a new seat.
#[tactic(auto, using(crate::proofs::WordKeeps::sits, crate::proofs::WordKeeps::due_enters))]
fn look<L: Inside<Place<V>, Queues<Task>>, V>(lock: &L) -> (u64, Seat)
    ensures seat { result.1.slot ≡ (L.finds lock.now).name }
    ensures fits { IsCount (number_of result.0) }
{
    lock.slot().enter::<Enter<Queues<Task>>>()
}

// Returns the word once a holder leaves, or `None` if a waiter may have to be let in by that.
#[inline(always)]
fn word_gone<K: Right<Task>>(word: u64) -> Option<u64>
    requires { CountsOne K.RIGHT word }
    ensures step { IfSome result (Recounts K.RIGHT 0 word) }
    ensures ends { IfSome result (λ new. K.ends (number_of word) (number_of new)) }
{
    match K::word_out(word) {
        Leaving::Going(new) => Some(new),
        Leaving::Taking(_) => None,
    }
}

impl<K: Right<Task>> Share<K> {
    /// Gives a newcomer its right, if it may be admitted without the queues, and returns the right with a seat and the word that
    /// the call left. An error has the lock.
    ///
    /// The call costs one load and one compare-exchange where no other thread changes the word meanwhile. Nothing is parked. The
    /// returned seat and word are for [`go`](Share::go) and [`park`](Share::park).
    #[inline(always)]
    pub fn come<L: Inside<Place<V>, Queues<Task>>, V, R: Wait>(
        rt: &R,
        lock: Arc<L, Global>,
    ) -> Result<(OwnedRight<L, V>, Seat, u64), Arc<L, Global>>
        ensures right { IfOk result (λ got. (got.0.right ≡ K.RIGHT) × (got.0.state ≡ None)) }
        ensures lock { IfOk result (λ got. got.0.of ≡ lock.value) }
        ensures own { IfOk result (λ got. got.0.name ≡ (L.finds lock.value).name) }
        ensures lends { IfOk result (λ got. 0 < K.RIGHT → IsSome got.0.value) }
        ensures seat { IfOk result (λ got. got.1.slot ≡ got.0.name) }
        ensures counts { IfOk result (λ got. CountsOne K.RIGHT got.2) }
        ensures refused { IfErr result (λ again. again.value ≡ lock.value) }
    {
        let mut lock = lock;
        for _ in rt.forever() {
            let (seen, mut seat) = look(&*lock);
            let Some(new) = K::word_in(seen) else {
                return Err(lock);
            };
            let (found, owned) = Owned::new(lock).exchange::<Change>(&mut seat, seen, new);
            if found == seen {
                return Ok((owned, seat, new));
            }
            lock = owned.done();
        }
        unreachable!()
    }

    /// Ends a right, if no waiter is to be let in by that, and returns the share of the lock. An error has the right, its seat and
    /// the word as the call found it.
    ///
    /// The call costs one compare-exchange where the word is as [`come`](Share::come) left it.
    #[inline(always)]
    pub fn go<L, V, R: Wait>(
        rt: &R,
        owned: OwnedRight<L, V>,
        seat: Seat,
        word: u64,
    ) -> Result<Arc<L, Global>, (OwnedRight<L, V>, Seat, u64)>
        requires right { (owned.right ≡ K.RIGHT) × (owned.state ≡ None) }
        requires seat { seat.slot ≡ owned.name }
        requires counts { CountsOne K.RIGHT word }
        ensures lock { IfOk result (λ arc. arc.value ≡ owned.of) }
        ensures right { IfErr result (λ again. (again.0.right ≡ K.RIGHT) × (again.0.state ≡ None)) }
        ensures own { IfErr result (λ again. (again.0.of ≡ owned.of) × (again.0.name ≡ owned.name)
            × (again.1.slot ≡ owned.name) × CountsOne K.RIGHT again.2) }
    {
        let mut owned = owned;
        let mut seat = seat;
        let mut seen = word;
        for _ in rt.forever() {
            let Some(new) = word_gone::<K>(seen) else {
                return Err((owned, seat, seen));
            };
            let (found, left) = owned.exchange::<Change>(&mut seat, seen, new);
            if found == seen {
                return Ok(left.done());
            }
            owned = left;
            seen = found;
        }
        unreachable!()
    }

    /// Takes the right of a parked holder again, and returns the right with a seat and the word that the call left.
    ///
    /// The call blocks for no other thread, because the number counts the parked holder already. The returned seat and word are
    /// for [`park`](Share::park).
    pub fn unpark<L: Inside<Place<V>, Queues<Task>>, V, R: Wait>(
        self,
        rt: &R,
        lock: Arc<L, Global>,
    ) -> (OwnedRight<L, V>, Seat, u64)
        requires { self ≡ (L.finds lock.value).name }
        ensures right { (result.0.right ≡ K.RIGHT) × (result.0.state ≡ None) }
        ensures lock { result.0.of ≡ lock.value }
        ensures own { result.0.name ≡ (L.finds lock.value).name }
        ensures lends { 0 < K.RIGHT → IsSome result.0.value }
        ensures seat { result.1.slot ≡ result.0.name }
        ensures counts { CountsOne K.RIGHT result.2 }
    {
        self.end();
        let mut lock = lock;
        for _ in rt.forever() {
            let (seen, mut seat) = look(&*lock);
            let Some(new) = K::word_unparked(seen) else {
                continue;
            };
            let (found, owned) = Owned::new(lock).exchange::<Change>(&mut seat, seen, new);
            if found == seen {
                return (owned, seat, new);
            }
            lock = owned.done();
        }
        unreachable!()
    }

    /// Parks: gives up the right to where the value lies, and returns the share of the lock and the parked right.
    ///
    /// The number still counts the holder. The call has no `&` to the lock by which to look at its word, so it first expects
    /// `word`, as [`unpark`](Share::unpark) left it.
    pub fn park<L, V, R: Wait>(
        rt: &R,
        owned: OwnedRight<L, V>,
        seat: Seat,
        word: u64,
    ) -> (Arc<L, Global>, Self)
        requires right { (owned.right ≡ K.RIGHT) × (owned.state ≡ None) }
        requires seat { seat.slot ≡ owned.name }
        requires counts { CountsOne K.RIGHT word }
        ensures lock { result.0.value ≡ owned.of }
        ensures share { result.1 ≡ owned.name }
    {
        let mut owned = owned;
        let mut seat = seat;
        let mut seen = word;
        for _ in rt.forever() {
            let new = K::word_parked(seen);
            let (found, left) = owned.exchange::<Change>(&mut seat, seen, new);
            if found == seen {
                return (left.done(), Share::new(&seat));
            }
            owned = left;
            seen = found;
        }
        unreachable!()
    }
}

impl Share<Reading> {
    /// Turns the right of the only reader into the right to write, by one compare-exchange, if `word`, as the reader left it, shows no
    /// waiter and no other reader, and is the word still. An error has the right to read with its seat and the word.
    #[inline(always)]
    pub fn upgrade<L, V>(
        owned: OwnedRight<L, V>,
        seat: Seat,
        word: u64,
    ) -> Result<(OwnedRight<L, V>, Seat, u64), (OwnedRight<L, V>, Seat, u64)>
        requires right { (owned.right ≡ 1) × (owned.state ≡ None) × IsSome owned.value }
        requires seat { seat.slot ≡ owned.name }
        requires counts { CountsOne 1 word }
        ensures turned { IfOk result (λ got. (got.0.right ≡ 2) × (got.0.state ≡ None)
            × IsSome got.0.value × CountsOne 2 got.2) }
        ensures kept { IfErr result (λ again. (again.0.right ≡ 1) × (again.0.state ≡ None)
            × IsSome again.0.value × CountsOne 1 again.2) }
        ensures own { MatchResult result
            (λ got. (got.0.of ≡ owned.of) × (got.0.name ≡ owned.name) × (got.1.slot ≡ owned.name))
            (λ again. (again.0.of ≡ owned.of) × (again.0.name ≡ owned.name)
            × (again.1.slot ≡ owned.name)) }
    {
        let mut seat = seat;
        let Some(new) = number::reader_writes(word) else {
            return Err((owned, seat, word));
        };
        let (found, owned) = owned.exchange::<Change>(&mut seat, word, new);
        if found == word {
            return Ok((owned, seat, new));
        }
        Err((owned, seat, found))
    }
}

impl Share<Writing> {
    /// Turns the right of the writer into a right to read, by one compare-exchange, if `word`, as the writer left it, shows no waiter,
    /// and is the word still. An error has the right to write with its seat and the word.
    #[inline(always)]
    pub fn downgrade<L, V>(
        owned: OwnedRight<L, V>,
        seat: Seat,
        word: u64,
    ) -> Result<(OwnedRight<L, V>, Seat, u64), (OwnedRight<L, V>, Seat, u64)>
        requires right { (owned.right ≡ 2) × (owned.state ≡ None) × IsSome owned.value }
        requires seat { seat.slot ≡ owned.name }
        requires counts { CountsOne 2 word }
        ensures turned { IfOk result (λ got. (got.0.right ≡ 1) × (got.0.state ≡ None)
            × IsSome got.0.value × CountsOne 1 got.2) }
        ensures kept { IfErr result (λ again. (again.0.right ≡ 2) × (again.0.state ≡ None)
            × IsSome again.0.value × CountsOne 2 again.2) }
        ensures own { MatchResult result
            (λ got. (got.0.of ≡ owned.of) × (got.0.name ≡ owned.name) × (got.1.slot ≡ owned.name))
            (λ again. (again.0.of ≡ owned.of) × (again.0.name ≡ owned.name)
            × (again.1.slot ≡ owned.name)) }
    {
        let mut seat = seat;
        let Some(new) = number::writer_reads(word) else {
            return Err((owned, seat, word));
        };
        let (found, owned) = owned.exchange::<Change>(&mut seat, word, new);
        if found == word {
            return Ok((owned, seat, new));
        }
        Err((owned, seat, found))
    }
}
