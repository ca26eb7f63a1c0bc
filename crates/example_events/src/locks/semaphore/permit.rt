//! The guard of permits.
ghost use Rattle.std.specs.Prelude.{◌≡◌, ◌+◌, ◌≤◌, true, false};

use super::Semaphore;
use crate::locks::contended::{Held, Owed, Taken};
use std::marker::Model;
use std::sync::Wait;

/// One permit of a semaphore or more. Dropping the guard frees all its permits in one step, and then notifies as many listeners
/// more, whichever are notified already.
///
/// The guard keeps the runtime value for its drop, which may wait for the lock of the event. A contract sees the guard as the
/// number of permits that it holds.
#[must_use = "a permit is free once it is dropped"]
pub struct Permit<'a, R: Wait> {
    rt: &'a R,
    held: Held<'a, Permits<'a>>,
}

impl<'a, R: Wait> Model for Permit<'a, R> {
    ghost use Rattle.std.specs.Prelude.{ℕ};

    ghost Value = { ℕ };

    ghost view = { λ permit. permit.held.taken };
}

impl<'a, R: Wait> Permit<'a, R> {
    pub(super) fn new(rt: &'a R, held: Held<'a, Permits<'a>>) -> Self
        ensures { result ≡ held.entry.taken }
    {
        Permit { rt, held }
    }

    /// Takes one more permit if one is free, and returns whether it did.
    ///
    /// The call neither allocates nor waits.
    pub fn more(&mut self) -> bool
        ensures taken { result ≡ true → self.new ≡ self.old + 1 }
        ensures none { result ≡ false → self.new ≡ self.old }
    {
        self.held.taken.take_more()
    }

    /// Returns how many permits the guard holds: one, and one for each [`more`](Permit::more) that took a permit.
    pub fn held(&self) -> usize
        ensures { result ≡ self.now }
    {
        self.held.taken.count
    }
}

impl<R: Wait> Drop for Permit<'_, R> {
    fn drop(self) {
        let Self { rt, held } = self;
        held.free().notify(rt);
    }
}

/// Permits that a client has taken. A contract sees the permits as their number.
pub struct Permits<'a> {
    semaphore: &'a Semaphore,
    count: usize,
}

impl<'a> Model for Permits<'a> {
    ghost use Rattle.std.specs.Prelude.{ℕ};

    ghost Value = { ℕ };

    ghost view = { λ permits. permits.count };
}

impl<'a> Permits<'a> {
    pub(super) fn one(semaphore: &'a Semaphore) -> Self
        ensures { result ≡ 1 }
    {
        Permits {
            semaphore,
            count: 1,
        }
    }

    // Takes one more permit if one is free, and returns whether it did.
    fn take_more(&mut self) -> bool
        ensures taken { result ≡ true → self.new ≡ self.old + 1 }
        ensures none { result ≡ false → self.new ≡ self.old }
    {
        let Some(count) = self.count.checked_add(1) else {
            return false;
        };
        let takes = self.semaphore.take_one();
        if takes {
            self.count = count;
        }
        takes
    }
}

impl Taken for Permits<'_> {
    ghost use Rattle.example_events.specs.declared.locks.contended.held.Owed.TheVariants.{Additional};

    ghost owed = { λ permits. Additional permits };

    fn free(self) -> Owed {
        let Permits { semaphore, count } = self;
        semaphore.give_back(count);
        Owed::Additional(count)
    }
}
