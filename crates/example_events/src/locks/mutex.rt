//! The lock.
ghost use Rattle.std.specs.Prelude.{◌≡◌};

mod error;
mod guard;
mod polled_lock;

use crate::locks::contended::{Clients, Contended, Owed, Taken, take, take_timeout, try_once};
pub use error::MutexError;
use event_listener::EventId;
pub use guard::MutexGuard;
pub use polled_lock::PolledLock;
use std::alloc::Global;
use std::marker::Model;
use std::sync::{self, Wait};
use std::time::{Clock, Duration};

/// A value that one thread or task at a time can use.
///
/// A contract sees the mutex as the number of its event.
#[derive(Drop)]
pub struct Mutex<T> {
    // No thread waits for this lock: it is only tried.
    value: sync::Mutex<T>,
    clients: Clients,
}

impl<T> Model for Mutex<T> {
    ghost use Rattle.std.specs.Prelude.{ℕ};

    ghost Value = { ℕ };

    ghost view = { λ mutex. mutex.clients };
}

impl<T> Mutex<T> {
    /// Makes a free lock round this value.
    ///
    /// The call neither allocates nor waits.
    pub fn new(id: EventId, value: T) -> Self
        ensures { result ≡ id }
    {
        Mutex {
            value: sync::Mutex::new(value),
            clients: Clients::new(id),
        }
    }

    /// Takes the lock, if it is free. A client that finds the lock held does not wait.
    ///
    /// The call neither allocates nor waits.
    #[must_use = "the lock is free once its guard is dropped"]
    pub fn try_lock<'a, R: Wait>(&'a self, rt: &'a R) -> Option<MutexGuard<'a, T, R>> {
        let held = try_once(self)?;
        Some(MutexGuard::new(rt, held))
    }

    /// Blocks the calling thread until it has the lock.
    ///
    /// Returns an error if the thread can't listen or there is no memory for what the thread parks on. Either leaves no
    /// listener.
    pub fn lock<'a, R>(
        &'a self,
        rt: &'a R,
        alloc: Global,
    ) -> Result<MutexGuard<'a, T, R>, MutexError>
    where
        R: Wait + Clock + Clone,
    {
        let held = take(self, rt, alloc)?;
        Ok(MutexGuard::new(rt, held))
    }

    /// Blocks the calling thread until it has the lock or so much time has passed. Returns `None` if the time has passed.
    ///
    /// Where the present moment and the timeout add up to a moment that can't be represented, the call waits without a limit. A
    /// clock that can't be read counts as one that shows the deadline. Refusals are those of [`lock`](Mutex::lock).
    pub fn lock_timeout<'a, R>(
        &'a self,
        rt: &'a R,
        alloc: Global,
        timeout: Duration,
    ) -> Result<Option<MutexGuard<'a, T, R>>, MutexError>
    where
        R: Wait + Clock + Clone,
    {
        let Some(held) = take_timeout(self, rt, alloc, timeout)? else {
            return Ok(None);
        };
        Ok(Some(MutexGuard::new(rt, held)))
    }

    /// Returns a future that takes the lock, to be polled.
    ///
    /// The call neither allocates nor waits.
    pub fn polled_lock<'a, R>(&'a self, rt: &'a R, alloc: Global) -> PolledLock<'a, T, R>
    where
        R: Wait + Clock + Clone,
    {
        PolledLock::new(self, rt, alloc)
    }
}

impl<'a, T> Contended<'a> for &'a Mutex<T> {
    type Taken = sync::MutexGuard<'a, T>;

    ghost is_new = { λ _. Unit {0} };

    fn clients(self) -> &'a Clients {
        &self.clients
    }

    fn try_take(self) -> Option<sync::MutexGuard<'a, T>> {
        self.value.try_lock()
    }
}

impl<T> Taken for sync::MutexGuard<'_, T> {
    ghost use Rattle.example_events.specs.declared.locks.contended.held.Owed.TheVariants.{One};

    ghost owed = { λ _. One };

    fn free(self) -> Owed {
        drop(self);
        Owed::One
    }
}
