//! Guards of readers and writers of the value of a read-write lock.
ghost use Rattle.std.specs.Prelude.{◌≡◌, ◌<◌, IfErr, IsSome, MatchResult, None, Option, Some};
ghost use Rattle.std.specs.Arc.{arc_value};
ghost use Rattle.event_word.specs.Held.{placed, placed_in};
ghost use Rattle.event_word.specs.Queues.{CountsOne};

use super::{Hidden, RwLock};
use crate::lending::Lending;
use event_slot::{Inside, Slot, Tied, Ties};
use event_wait::{Shared, Task};
use event_word::{Grant, OwnedRight, Place, Queues, Reading, Right, Seat, Share, Writing};
use std::fmt;
use std::fmt::{Debug, Formatter};
use std::marker::{Model, PhantomData};
use std::ops::{Deref, DerefMut};
use std::sync::Wait;
use std::time::Clock;

// Ties a right to write to the lock to which the guard gives the right back.
impl<T, R> Ties for Lending<'_, RwLock<T>, R> {
    ghost ties = { λ hold name. hold.lender.lock.now.word.slot.name ≡ name };
}

// Finds, in a shared lock, the slot to which a guard gives its right back.
impl<T> Inside<Place<Hidden<T>>, Queues<Task>> for RwLock<T> {
    ghost finds = { λ lock. lock.word.slot };

    fn slot(&self) -> &Slot<Place<Hidden<T>>, Queues<Task>> {
        &self.word.slot
    }
}

// The right of a guard that shares the lock. The right has a type of its own, because a ghost field of the guard would stand in
// the way of the guard's `deref_mut`.
pub(super) struct HeldArc<T, R, K: Right<Task>> {
    owned: OwnedRight<RwLock<T>, Hidden<T>>,
    seat: Seat,
    word: u64,
    rt: R,
    of: PhantomData<K>,
    ghost right: { (owned.right ≡ K.RIGHT) × (owned.state ≡ None) },
    ghost lends: { IsSome owned.value },
    ghost own: { owned.name ≡ owned.of.word.slot.name },
    ghost same: { seat.slot ≡ owned.name },
    ghost counts: { CountsOne K.RIGHT word },
}

impl<T, R: Wait, K: Right<Task>> HeldArc<T, R, K> {
    fn new(hold: Shared<RwLock<T>, R>, share: Share<K>) -> Self
        requires own { share ≡ (arc_value hold.lock).word.slot.name }
        requires right { 0 < K.RIGHT }
    {
        let Shared { lock, rt } = hold;
        let (owned, seat, word) = share.unpark(&rt, lock);
        HeldArc {
            owned,
            seat,
            word,
            rt,
            of: PhantomData,
        }
    }

    // Takes the right by one compare-exchange, if the lock admits a newcomer without a look at the queues. Returns the lock, as
    // an `Err`, else.
    #[inline(always)]
    pub(super) fn come(hold: Shared<RwLock<T>, R>) -> Result<Self, Shared<RwLock<T>, R>>
        requires right { 0 < K.RIGHT }
        ensures { IfErr result (λ again. arc_value again.lock ≡ arc_value hold.lock) }
    {
        let Shared { lock, rt } = hold;
        match Share::<K>::come(&rt, lock) {
            Ok((owned, seat, word)) => Ok(HeldArc {
                owned,
                seat,
                word,
                rt,
                of: PhantomData,
            }),
            Err(lock) => Err(Shared { lock, rt }),
        }
    }

    // Gives the right up. Parks the right for a moment only where a waiter may have to be let in.
    #[inline(always)]
    fn end(self)
    where
        T: Drop,
        R: Drop,
    {
        let HeldArc {
            owned,
            seat,
            word,
            rt,
            of: _,
        } = self;
        match Share::<K>::go(&rt, owned, seat, word) {
            Ok(lock) => drop(lock),
            Err((owned, seat, word)) => {
                let (lock, share) = Share::<K>::park(&rt, owned, seat, word);
                lock.ended(&rt, share);
            }
        }
    }

    fn park(self) -> (Shared<RwLock<T>, R>, Share<K>)
        ensures { result.1 ≡ (arc_value result.0.lock).word.slot.name }
    {
        let HeldArc {
            owned,
            seat,
            word,
            rt,
            of: _,
        } = self;
        let (lock, share) = Share::park(&rt, owned, seat, word);
        (Shared { lock, rt }, share)
    }
}

impl<T, R> HeldArc<T, R, Reading> {
    #[inline(always)]
    fn get(&self) -> &T
        ensures { result.now ≡ placed_in self.now.owned.value self.now.lends }
    {
        &self.owned.get().value.value
    }

    // Upgrades by one compare-exchange, if the word shows no waiter and no other reader. Returns the right to read, as an
    // `Err`, else.
    #[inline(always)]
    fn upgrade(self) -> Result<HeldArc<T, R, Writing>, Self> {
        let HeldArc {
            owned,
            seat,
            word,
            rt,
            of: _,
        } = self;
        match Share::<Reading>::upgrade(owned, seat, word) {
            Ok((owned, seat, word)) => Ok(HeldArc {
                owned,
                seat,
                word,
                rt,
                of: PhantomData,
            }),
            Err((owned, seat, word)) => Err(HeldArc {
                owned,
                seat,
                word,
                rt,
                of: PhantomData,
            }),
        }
    }
}

impl<T, R> HeldArc<T, R, Writing> {
    #[inline(always)]
    fn get(&self) -> &T
        ensures { result.now ≡ placed_in self.now.owned.value self.now.lends }
    {
        &self.owned.written().value.value
    }

    #[inline(always)]
    fn get_mut(&mut self) -> &mut T
        ensures { result.now ≡ placed_in self.old.owned.value self.old.lends }
    {
        &mut self.owned.get_mut().value.value
    }

    // Downgrades by one compare-exchange, if the word shows no waiter. Returns the right to write, as an `Err`, else.
    #[inline(always)]
    fn downgrade(self) -> Result<HeldArc<T, R, Reading>, Self> {
        let HeldArc {
            owned,
            seat,
            word,
            rt,
            of: _,
        } = self;
        match Share::<Writing>::downgrade(owned, seat, word) {
            Ok((owned, seat, word)) => Ok(HeldArc {
                owned,
                seat,
                word,
                rt,
                of: PhantomData,
            }),
            Err((owned, seat, word)) => Err(HeldArc {
                owned,
                seat,
                word,
                rt,
                of: PhantomData,
            }),
        }
    }
}

/// The right to read the value of a read-write lock, where the value lies. Dropping the guard ends the reading; the last reader
/// that leaves lets in the next writer.
///
/// The guard dereferences to the value. A contract sees the guard as `Some` of the value.
///
/// Here `reader` is such a guard, by which a method of the value is called. The guard is dropped before its owner asks to
/// write, because a writer waits until all readers have left:
///
/// ```rust
/// if let Some(square) = reader.get(number) {
///     return Ok(square);
/// }
/// drop(reader);
/// ```
#[must_use = "a guard that is dropped at once ends the reading"]
pub struct RwLockReadGuard<'a, T, R: Wait + Clock> {
    grant: Grant<'a, Reading, Hidden<T>>,
    hold: Lending<'a, RwLock<T>, R>,
    ghost own: { grant.claim.name ≡ hold.lender.lock.now.word.slot.name },
}

/// The right to write the value of a read-write lock, where the value lies. Dropping the guard ends the writing, and lets in
/// all readers that wait, or else the next writer.
///
/// The guard dereferences to the value. A contract sees the guard as the value.
///
/// The value is written through the guard, and the drop ends the writing:
///
/// ```rust
/// *writer = writer.saturating_mul(2);
/// drop(writer);
/// ```
#[must_use = "a guard that is dropped at once ends the writing"]
pub struct RwLockWriteGuard<'a, T, R: Wait + Clock> {
    tied: Tied<'a, Place<Hidden<T>>, Queues<Task>, Lending<'a, RwLock<T>, R>>,
}

/// The right to read the value of a read-write lock, by a guard that keeps the lock by a share of its `Arc` and so may go to
/// another thread.
///
/// Dropping the guard ends the reading. A contract sees the guard as the value.
///
/// Here the guard `price` is an argument of the function that a thread runs, and nobody changes the price before the function
/// returns:
///
/// ```rust
/// let mut takings = takings;
/// let paid = price.saturating_mul(seats.num_permits() as u64);
/// *takings = takings.saturating_add(paid);
/// seats.forget();
/// paid
/// ```
#[must_use = "a guard that is dropped at once ends the reading"]
pub struct RwLockReadGuardArc<T: Drop, R: Wait + Clock + Drop> {
    held: HeldArc<T, R, Reading>,
}

/// The right to write the value of a read-write lock, by a guard that keeps the lock by a share of its `Arc` and so may go to
/// another thread.
///
/// Dropping the guard ends the writing. A contract sees the guard as the value.
///
/// Here the guard is an argument of the function that a thread runs, and the writing ends where the function returns:
///
/// ```rust
/// let mut price = price;
/// *price = amount;
/// ```
#[must_use = "a guard that is dropped at once ends the writing"]
pub struct RwLockWriteGuardArc<T: Drop, R: Wait + Clock + Drop> {
    held: HeldArc<T, R, Writing>,
}

impl<'a, T, R: Wait + Clock> Model for RwLockReadGuard<'a, T, R> {
    ghost Value = { Option T };

    ghost view = { λ guard. placed guard.grant.claim.value };
}

impl<'a, T, R: Wait + Clock> Model for RwLockWriteGuard<'a, T, R> {
    ghost Value = { T };

    ghost view = { λ guard. guard.tied.value.value };
}

impl<T: Drop, R: Wait + Clock + Drop> Model for RwLockReadGuardArc<T, R> {
    ghost Value = { T };

    ghost view = { λ guard. placed_in guard.held.owned.value guard.held.lends };
}

impl<T: Drop, R: Wait + Clock + Drop> Model for RwLockWriteGuardArc<T, R> {
    ghost Value = { T };

    ghost view = { λ guard. placed_in guard.held.owned.value guard.held.lends };
}

impl<'a, T, R: Wait + Clock> RwLockReadGuard<'a, T, R> {
    #[inline(always)]
    pub(crate) fn new(hold: Lending<'a, RwLock<T>, R>, grant: Grant<'a, Reading, Hidden<T>>) -> Self
        requires { grant.claim.name ≡ hold.lender.lock.now.word.slot.name }
    {
        RwLockReadGuard { grant, hold }
    }

    /// Returns the lock to which this guard belongs.
    pub fn source(&self) -> &'a RwLock<T> {
        self.hold.lender.lock
    }

    /// Makes a writer of this reader, if nobody else reads and no writer waits. Returns the reader again, as an `Err`, else.
    ///
    /// The value is not given back in between. The call takes no memory. Where others wait it may block until the queues, which
    /// another thread may be using, are put back.
    ///
    /// A reader that may not become a writer at once leaves, and asks to write. Then another writer may have had the value in
    /// between, so what was read before may hold no more:
    ///
    /// ```rust
    /// let mut price = match price.try_upgrade() {
    ///     Ok(price) => price,
    ///     Err(price) => {
    ///         // Others read, or a writer waits. Another writer may come first.
    ///         drop(price);
    ///         self.price.write(rt, alloc).wait()?
    ///     }
    /// };
    /// *price = (*price).max(least);
    /// ```
    pub fn try_upgrade(self) -> Result<RwLockWriteGuard<'a, T, R>, RwLockReadGuard<'a, T, R>> {
        let RwLockReadGuard { grant, hold } = self;
        match hold.lender.lock.word.try_upgrade(hold.rt, grant) {
            Ok(grant) => Ok(RwLockWriteGuard::new(hold, grant)),
            Err(grant) => Err(RwLockReadGuard::new(hold, grant)),
        }
    }
}

impl<'a, T, R: Wait + Clock> RwLockWriteGuard<'a, T, R> {
    #[inline(always)]
    pub(crate) fn new(hold: Lending<'a, RwLock<T>, R>, grant: Grant<'a, Writing, Hidden<T>>) -> Self
        requires { grant.claim.name ≡ hold.lender.lock.now.word.slot.name }
    {
        RwLockWriteGuard {
            tied: grant.write().tie(hold),
        }
    }

    /// Returns the lock to which this guard belongs.
    pub fn source(&self) -> &'a RwLock<T> {
        self.tied.beside().lender.lock
    }

    /// Makes a reader of this writer, with no other writer in between, and lets in all readers that wait.
    ///
    /// Where others wait the call may block until the queues, which another thread may be using, are put back.
    ///
    /// The seats are counted while the price is the one that this caller left:
    ///
    /// ```rust
    /// *price = (*price).max(least);
    /// let price = price.downgrade();
    /// Ok((*price, self.seats.available()))
    /// ```
    pub fn downgrade(self) -> RwLockReadGuard<'a, T, R> {
        let RwLockWriteGuard { tied } = self;
        let (writing, hold) = tied.untie();
        let grant = Grant::from_writing(writing);
        let grant = hold.lender.lock.word.downgrade(hold.rt, grant);
        RwLockReadGuard::new(hold, grant)
    }
}

impl<T: Drop, R: Wait + Clock + Drop> RwLockReadGuardArc<T, R> {
    #[inline(always)]
    pub(super) fn of(held: HeldArc<T, R, Reading>) -> Self {
        RwLockReadGuardArc { held }
    }

    pub(crate) fn new(hold: Shared<RwLock<T>, R>, share: Share<Reading>) -> Self
        requires { share ≡ (arc_value hold.lock).word.slot.name }
    {
        RwLockReadGuardArc {
            held: HeldArc::new(hold, share),
        }
    }

    /// Makes a writer of this reader, if nobody else reads and no writer waits, like [`RwLockReadGuard::try_upgrade`]. Returns
    /// the reader again, as an `Err`, else.
    pub fn try_upgrade(self) -> Result<RwLockWriteGuardArc<T, R>, RwLockReadGuardArc<T, R>> {
        let RwLockReadGuardArc { held } = self;
        let (hold, share) = match held.upgrade() {
            Ok(held) => return Ok(RwLockWriteGuardArc { held }),
            Err(held) => held.park(),
        };
        match hold.lock.upgraded(&hold.rt, share) {
            Ok(share) => Ok(RwLockWriteGuardArc::new(hold, share)),
            Err(share) => Err(RwLockReadGuardArc::new(hold, share)),
        }
    }
}

impl<T: Drop, R: Wait + Clock + Drop> RwLockWriteGuardArc<T, R> {
    #[inline(always)]
    pub(super) fn of(held: HeldArc<T, R, Writing>) -> Self {
        RwLockWriteGuardArc { held }
    }

    pub(crate) fn new(hold: Shared<RwLock<T>, R>, share: Share<Writing>) -> Self
        requires { share ≡ (arc_value hold.lock).word.slot.name }
    {
        RwLockWriteGuardArc {
            held: HeldArc::new(hold, share),
        }
    }

    /// Makes a reader of this writer, with no other writer in between, like [`RwLockWriteGuard::downgrade`], and lets in all
    /// readers that wait.
    pub fn downgrade(self) -> RwLockReadGuardArc<T, R> {
        let RwLockWriteGuardArc { held } = self;
        let (hold, share) = match held.downgrade() {
            Ok(held) => return RwLockReadGuardArc { held },
            Err(held) => held.park(),
        };
        let share = hold.lock.downgraded(&hold.rt, share);
        RwLockReadGuardArc::new(hold, share)
    }
}

// The steps of guards that share the lock.
impl<T> RwLock<T> {
    fn upgraded<R: Wait>(
        &self,
        rt: &R,
        share: Share<Reading>,
    ) -> Result<Share<Writing>, Share<Reading>>
        requires { share ≡ self.now.word.slot.name }
        ensures { MatchResult result (λ writes. writes ≡ self.now.word.slot.name)
            (λ reads. reads ≡ self.now.word.slot.name) }
    {
        let grant = self.word.unpark(rt, share);
        match self.word.try_upgrade(rt, grant) {
            Ok(grant) => Ok(self.word.park(rt, grant)),
            Err(grant) => Err(self.word.park(rt, grant)),
        }
    }

    fn downgraded<R: Wait>(&self, rt: &R, share: Share<Writing>) -> Share<Reading>
        requires { share ≡ self.now.word.slot.name }
        ensures { result ≡ self.now.word.slot.name }
    {
        let grant = self.word.unpark(rt, share);
        let grant = self.word.downgrade(rt, grant);
        self.word.park(rt, grant)
    }

    fn ended<K: Right<Task>, R: Wait>(&self, rt: &R, share: Share<K>)
        requires { share ≡ self.now.word.slot.name }
    {
        let grant = self.word.unpark(rt, share);
        self.word.end(rt, grant);
    }
}

impl<T, R: Wait + Clock> Deref for RwLockReadGuard<'_, T, R> {
    type Target = T;

    ghost deref_gives = { λ guard value. Some value ≡ guard };

    #[inline(always)]
    fn deref(&self) -> &T {
        &self.grant.get().value
    }
}

impl<T, R: Wait + Clock> Deref for RwLockWriteGuard<'_, T, R> {
    type Target = T;

    ghost deref_gives = { λ guard value. value ≡ guard };

    #[inline(always)]
    fn deref(&self) -> &T {
        &self.tied.get().value.value
    }
}

impl<T, R: Wait + Clock> DerefMut for RwLockWriteGuard<'_, T, R> {
    ghost deref_mut_gives = { λ guard value. value ≡ guard };

    #[inline(always)]
    fn deref_mut(&mut self) -> &mut T {
        &mut self.tied.get_mut().value.value
    }
}

impl<T: Drop, R: Wait + Clock + Drop> Deref for RwLockReadGuardArc<T, R> {
    type Target = T;

    ghost deref_gives = { λ guard value. value ≡ guard };

    #[inline(always)]
    fn deref(&self) -> &T {
        self.held.get()
    }
}

impl<T: Drop, R: Wait + Clock + Drop> Deref for RwLockWriteGuardArc<T, R> {
    type Target = T;

    ghost deref_gives = { λ guard value. value ≡ guard };

    #[inline(always)]
    fn deref(&self) -> &T {
        self.held.get()
    }
}

impl<T: Drop, R: Wait + Clock + Drop> DerefMut for RwLockWriteGuardArc<T, R> {
    ghost deref_mut_gives = { λ guard value. value ≡ guard };

    #[inline(always)]
    fn deref_mut(&mut self) -> &mut T {
        self.held.get_mut()
    }
}

impl<T, R: Wait + Clock> Drop for RwLockReadGuard<'_, T, R> {
    #[inline(always)]
    fn drop(self) {
        let RwLockReadGuard { grant, hold } = self;
        hold.lender.lock.word.end(hold.rt, grant);
    }
}

impl<T, R: Wait + Clock> Drop for RwLockWriteGuard<'_, T, R> {
    #[inline(always)]
    fn drop(self) {
        let RwLockWriteGuard { tied } = self;
        let (writing, hold) = tied.untie();
        hold.lender
            .lock
            .word
            .end(hold.rt, Grant::from_writing(writing));
    }
}

impl<T: Drop, R: Wait + Clock + Drop> Drop for RwLockReadGuardArc<T, R> {
    fn drop(self) {
        let RwLockReadGuardArc { held } = self;
        held.end();
    }
}

impl<T: Drop, R: Wait + Clock + Drop> Drop for RwLockWriteGuardArc<T, R> {
    fn drop(self) {
        let RwLockWriteGuardArc { held } = self;
        held.end();
    }
}

impl<T: Debug, R: Wait + Clock> Debug for RwLockReadGuard<'_, T, R> {
    fn fmt<W: fmt::Write>(&self, f: &mut Formatter<W>) -> fmt::Result {
        Debug::fmt(&self.grant.get().value, f)
    }
}

impl<T: Debug, R: Wait + Clock> Debug for RwLockWriteGuard<'_, T, R> {
    fn fmt<W: fmt::Write>(&self, f: &mut Formatter<W>) -> fmt::Result {
        Debug::fmt(&self.tied.get().value.value, f)
    }
}

impl<T: Drop + Debug, R: Wait + Clock + Drop> Debug for RwLockReadGuardArc<T, R> {
    fn fmt<W: fmt::Write>(&self, f: &mut Formatter<W>) -> fmt::Result {
        Debug::fmt(self.held.get(), f)
    }
}

impl<T: Drop + Debug, R: Wait + Clock + Drop> Debug for RwLockWriteGuardArc<T, R> {
    fn fmt<W: fmt::Write>(&self, f: &mut Formatter<W>) -> fmt::Result {
        Debug::fmt(self.held.get(), f)
    }
}
