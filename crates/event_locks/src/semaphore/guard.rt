//! Permits that were taken.
ghost use Rattle.std.specs.Prelude.{◌≡◌};
ghost use Rattle.std.specs.Arc.{arc_value};

use super::Semaphore;
use event_wait::{Borrowed, Hold, Shared};
use event_word::Permit;
use std::alloc::Global;
use std::fmt;
use std::fmt::{Debug, Formatter};
use std::marker::Model;
use std::sync::{Arc, Wait};
use std::time::Clock;

/// One permit of a semaphore, or as many as were taken at once. Dropping the guard gives them back, and notifies the first
/// waiters until as many are notified as permits are free.
///
/// A contract sees the guard as the number of its permits.
///
/// Here `first` and `second` are what two waits returned, and the drop gives both permits back:
///
/// ```rust
/// let held = (first?, second?);
/// let free = permits.available();
/// drop(held);
/// ```
#[must_use = "a guard that is dropped at once gives back what it holds"]
pub struct SemaphoreGuard<'a, R: Wait + Clock> {
    hold: Borrowed<'a, Semaphore, R>,
    permit: Permit,
    ghost own: { permit.origin ≡ hold.lock.now.word.slot.name },
}

/// One permit of a semaphore, or as many as were taken at once, by a guard that keeps the semaphore by a share of its `Arc` and
/// so may go to another thread.
///
/// Dropping the guard gives the permits back, and notifies the first waiters until as many are notified as permits are free. A
/// contract sees the guard as the number of its permits.
///
/// Here the guard `permit` is part of the closure that a thread runs. The thread gives the permit back after its job:
///
/// ```rust
/// let answer = job();
/// drop(permit);
/// answer
/// ```
#[must_use = "a guard that is dropped at once gives back what it holds"]
pub struct SemaphoreGuardArc<R: Wait + Clock + Drop> {
    hold: Shared<Semaphore, R>,
    permit: Permit,
    ghost own: { permit.origin ≡ (arc_value hold.lock).word.slot.name },
}

impl<'a, R: Wait + Clock> Model for SemaphoreGuard<'a, R> {
    ghost use Rattle.std.specs.Prelude.{ℕ};

    ghost Value = { ℕ };

    ghost view = { λ guard. guard.permit.count };
}

impl<R: Wait + Clock + Drop> Model for SemaphoreGuardArc<R> {
    ghost use Rattle.std.specs.Prelude.{ℕ};

    ghost Value = { ℕ };

    ghost view = { λ guard. guard.permit.count };
}

impl<'a, R: Wait + Clock> SemaphoreGuard<'a, R> {
    #[inline(always)]
    pub(crate) fn new(hold: Borrowed<'a, Semaphore, R>, permit: Permit) -> Self
        requires { permit.origin ≡ hold.lock.now.word.slot.name }
        ensures { result ≡ permit.count }
    {
        SemaphoreGuard { hold, permit }
    }

    /// Returns how many permits this guard has: one, or as many as were taken at once.
    pub fn num_permits(&self) -> usize
        ensures { result ≡ self.now }
    {
        self.permit.count() as usize
    }

    /// Returns the semaphore to which this guard belongs.
    pub fn source(&self) -> &'a Semaphore {
        self.hold.lock
    }

    /// Ends the guard without giving its permits back: the semaphore has so many permits less from here on.
    pub fn forget(self) {
        let SemaphoreGuard { hold: _, permit } = self;
        permit.forget();
    }
}

impl<R: Wait + Clock + Drop> SemaphoreGuardArc<R> {
    pub(crate) fn new(hold: Shared<Semaphore, R>, permit: Permit) -> Self
        requires { permit.origin ≡ (arc_value hold.lock).word.slot.name }
        ensures { result ≡ permit.count }
    {
        SemaphoreGuardArc { hold, permit }
    }

    /// Returns how many permits this guard has: one, or as many as were taken at once.
    ///
    /// The buyer pays for as many seats as the guard has permits:
    ///
    /// ```rust
    /// let paid = price.saturating_mul(seats.num_permits() as u64);
    /// ```
    pub fn num_permits(&self) -> usize
        ensures { result ≡ self.now }
    {
        self.permit.count() as usize
    }

    /// Returns the semaphore to which this guard belongs.
    pub fn source(&self) -> &Arc<Semaphore, Global> {
        &self.hold.lock
    }

    /// Ends the guard without giving its permits back: the semaphore has so many permits less from here on.
    ///
    /// A seat that was sold is not given back:
    ///
    /// ```rust
    /// *takings = takings.saturating_add(paid);
    /// seats.forget();
    /// ```
    pub fn forget(self) {
        let SemaphoreGuardArc { hold: _, permit } = self;
        permit.forget();
    }
}

impl<R: Wait + Clock> Drop for SemaphoreGuard<'_, R> {
    #[inline(always)]
    fn drop(self) {
        let SemaphoreGuard { hold, permit } = self;
        hold.lock().give_back(hold.rt(), permit);
    }
}

impl<R: Wait + Clock + Drop> Drop for SemaphoreGuardArc<R> {
    fn drop(self) {
        let SemaphoreGuardArc { hold, permit } = self;
        hold.lock().give_back(hold.rt(), permit);
    }
}

impl<R: Wait + Clock> Debug for SemaphoreGuard<'_, R> {
    fn fmt<W: fmt::Write>(&self, f: &mut Formatter<W>) -> fmt::Result {
        f.debug_struct("SemaphoreGuard").finish()
    }
}

impl<R: Wait + Clock + Drop> Debug for SemaphoreGuardArc<R> {
    fn fmt<W: fmt::Write>(&self, f: &mut Formatter<W>) -> fmt::Result {
        f.debug_struct("SemaphoreGuardArc").finish()
    }
}
