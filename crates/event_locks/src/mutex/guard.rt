//! Guards that own the value of a mutex.
ghost use Rattle.std.specs.Prelude.{◌≡◌, [], IfErr};
ghost use mir.Syntax.{named};
ghost use Rattle.std.specs.Arc.{arc_value};

use super::{Line, Mutex, MutexSlot, Right};
use crate::lending::Lending;
use event_slot::Ties;
use event_wait::Shared;
use event_word::{OneValue, Parked, Writer, WriterArc};
use std::fmt;
use std::fmt::{Debug, Formatter};
use std::marker::Model;
use std::ops::{Deref, DerefMut};
use std::sync::Wait;
use std::time::Clock;

// Ties a right to the value to the mutex to which the guard gives the right back.
impl<T, R> Ties for Lending<'_, Mutex<T>, R> {
    ghost ties = { λ hold name. hold.lender.lock.now.word.slot.name ≡ name };
}

/// The value of a mutex, as long as its owner keeps this guard. Dropping the guard gives the value back, and notifies the first
/// waiter, unless one is notified already.
///
/// The guard dereferences to the value. A contract sees the guard as the value.
///
/// Here `guard` is what a wait with a limit returned. The value is read and written through the guard `balance`, and given back
/// where the function returns:
///
/// ```rust
/// let mut balance = guard.context("the balance was not free in time")?;
/// *balance = balance.saturating_add(amount);
/// Ok(())
/// ```
#[must_use = "a guard that is dropped at once gives back what it holds"]
pub struct MutexGuard<'a, T, R: Wait + Clock> {
    writer: Writer<'a, T, Line, Lending<'a, Mutex<T>, R>>,
}

/// The value of a mutex, by a guard that keeps the mutex by a share of its `Arc` and so may go to another thread.
///
/// Dropping the guard gives the value back, and notifies the first waiter, unless one is notified already. A contract sees the
/// guard as the value.
///
/// Here the guard `takings` is an argument of the function that a thread runs. The value is given back where the function
/// returns:
///
/// ```rust
/// let mut takings = takings;
/// let paid = price.saturating_mul(seats.num_permits() as u64);
/// *takings = takings.saturating_add(paid);
/// seats.forget();
/// paid
/// ```
#[must_use = "a guard that is dropped at once gives back what it holds"]
pub struct MutexGuardArc<T: Drop, R: Wait + Clock + Drop> {
    writer: WriterArc<Mutex<T>, T, Line>,
    rt: R,
}

impl<'a, T, R: Wait + Clock> Model for MutexGuard<'a, T, R> {
    ghost Value = { T };

    ghost view = { λ guard. guard.writer.value };
}

impl<T: Drop, R: Wait + Clock + Drop> Model for MutexGuardArc<T, R> {
    ghost Value = { T };

    ghost view = { λ guard. guard.writer.value };
}

impl<'a, T, R: Wait + Clock> MutexGuard<'a, T, R> {
    #[inline(always)]
    pub(crate) fn new(hold: Lending<'a, Mutex<T>, R>, lent: Right<'a, T>) -> Self
        requires { lent.name ≡ hold.lender.lock.now.word.slot.name }
    {
        MutexGuard {
            writer: Writer::new(lent, hold),
        }
    }

    /// Returns the mutex to which this guard belongs.
    pub fn source(&self) -> &'a Mutex<T> {
        self.writer.beside().lender.lock
    }
}

impl<T: Drop, R: Wait + Clock + Drop> MutexGuardArc<T, R> {
    // Takes the value by one compare-exchange, if a newcomer may. Returns the mutex, as an `Err`, else.
    #[inline(always)]
    pub(super) fn come(hold: Shared<Mutex<T>, R>) -> Result<Self, Shared<Mutex<T>, R>>
        ensures { IfErr result (λ again. arc_value again.lock ≡ arc_value hold.lock) }
    {
        let Shared { lock, rt } = hold;
        match OneValue::<MutexSlot>::come(lock) {
            Ok(owned) => Ok(MutexGuardArc {
                writer: WriterArc::new(owned),
                rt,
            }),
            Err(lock) => Err(Shared { lock, rt }),
        }
    }

    // Makes the guard of a wait that was given the value while the queue was out.
    pub(crate) fn new(hold: Shared<Mutex<T>, R>, parked: Parked) -> Self
        requires { parked ≡ (arc_value hold.lock).word.slot.name }
    {
        let Shared { lock, rt } = hold;
        let owned = parked.unpark(&rt, lock);
        MutexGuardArc {
            writer: WriterArc::new(owned),
            rt,
        }
    }
}

impl<T, R: Wait + Clock> Deref for MutexGuard<'_, T, R> {
    type Target = T;

    ghost deref_gives = { λ guard value. value ≡ guard };

    #[inline(always)]
    fn deref(&self) -> &T {
        self.writer.get()
    }
}

impl<T: Drop, R: Wait + Clock + Drop> Deref for MutexGuardArc<T, R> {
    type Target = T;

    ghost deref_gives = { λ guard value. value ≡ guard };

    #[inline(always)]
    fn deref(&self) -> &T {
        self.writer.get()
    }
}

impl<T, R: Wait + Clock> DerefMut for MutexGuard<'_, T, R> {
    ghost use Rattle.std.specs.Borrow.{Lends, sem};
    ghost use Rattle.event_locks.specs.contracts.mutex.guard.MutexGuard.{the_row};

    ghost deref_mut_gives = { λ guard value. value ≡ guard };

    #[inline(always)]
    fn deref_mut(&mut self) -> &mut T
        ensures* writes_back { sem 𝓛
            (Lends (the_row (record { mir = named 1; lft = [] }) T.row R.row) T.row self.entry
            result (λ w. w)) }
        ensures shows { result.now ≡ self.old }
    {
        self.writer.get_mut()
    }
}

impl<T: Drop, R: Wait + Clock + Drop> DerefMut for MutexGuardArc<T, R> {
    ghost use Rattle.std.specs.Borrow.{Lends, sem};
    ghost use Rattle.event_locks.specs.contracts.mutex.guard.MutexGuardArc.{the_row};

    ghost deref_mut_gives = { λ guard value. value ≡ guard };

    #[inline(always)]
    fn deref_mut(&mut self) -> &mut T
        ensures* writes_back { sem 𝓛 (Lends (the_row T.row R.row) T.row self.entry
            result (λ w. w)) }
        ensures shows { result.now ≡ self.old }
    {
        self.writer.get_mut()
    }
}

impl<T, R: Wait + Clock> Drop for MutexGuard<'_, T, R> {
    #[inline(always)]
    fn drop(self) {
        let MutexGuard { writer } = self;
        let (lent, hold) = writer.apart();
        hold.lender.lock.word.give_value(hold.rt, lent);
    }
}

impl<T: Drop, R: Wait + Clock + Drop> Drop for MutexGuardArc<T, R> {
    fn drop(self) {
        let MutexGuardArc { writer, rt } = self;
        match OneValue::<MutexSlot>::go(&rt, writer.into_owned()) {
            Ok(lock) => drop(lock),
            Err((owned, word)) => {
                let (lock, parked) = OneValue::<MutexSlot>::park(&rt, owned, word);
                lock.give_parked(&rt, parked);
            }
        }
    }
}

impl<T: Debug, R: Wait + Clock> Debug for MutexGuard<'_, T, R> {
    fn fmt<W: fmt::Write>(&self, f: &mut Formatter<W>) -> fmt::Result {
        Debug::fmt(self.writer.get(), f)
    }
}

impl<T: Drop + Debug, R: Wait + Clock + Drop> Debug for MutexGuardArc<T, R> {
    fn fmt<W: fmt::Write>(&self, f: &mut Formatter<W>) -> fmt::Result {
        Debug::fmt(self.writer.get(), f)
    }
}
