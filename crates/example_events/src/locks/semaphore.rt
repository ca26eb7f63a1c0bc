//! The semaphore.
ghost use Rattle.std.specs.Prelude.{◌≡◌, IfOk, IfSome};

mod error;
mod permit;

use crate::locks::contended::{Clients, Contended, take, take_timeout, try_once};
pub use error::SemaphoreError;
use event_listener::EventId;
pub use permit::{Permit, Permits};
use std::alloc::Global;
use std::marker::Model;
use std::sync::Wait;
use std::sync::atomic::{AtomicUsize, Ordering};
use std::time::{Clock, Duration};

/// Some permits, which threads take and give back.
///
/// A contract sees the semaphore as the number of its event.
#[derive(Drop)]
pub struct Semaphore {
    free: AtomicUsize,
    clients: Clients,
}

impl Model for Semaphore {
    ghost use Rattle.std.specs.Prelude.{ℕ};

    ghost Value = { ℕ };

    ghost view = { λ semaphore. semaphore.clients };
}

impl Semaphore {
    /// Makes a semaphore with that many permits, all of them free.
    ///
    /// The call neither allocates nor waits.
    pub fn new(id: EventId, permits: usize) -> Self
        ensures { result ≡ id }
    {
        Semaphore {
            free: AtomicUsize::new(permits),
            clients: Clients::new(id),
        }
    }

    /// Takes a permit, if one is free. A client that finds no permit does not wait.
    ///
    /// The call neither allocates nor waits.
    #[must_use = "a permit is free once it is dropped"]
    pub fn try_acquire<'a, R: Wait>(&'a self, rt: &'a R) -> Option<Permit<'a, R>>
        ensures { IfSome result (λ permit. permit ≡ 1) }
    {
        let held = try_once(self)?;
        Some(Permit::new(rt, held))
    }

    /// Blocks the calling thread until it has a permit.
    ///
    /// Returns an error if the thread can't listen or there is no memory for what the thread parks on. Either leaves no
    /// listener.
    pub fn acquire<'a, R>(
        &'a self,
        rt: &'a R,
        alloc: Global,
    ) -> Result<Permit<'a, R>, SemaphoreError>
    where
        R: Wait + Clock + Clone,
        ensures { IfOk result (λ permit. permit ≡ 1) }
    {
        let held = take(self, rt, alloc)?;
        Ok(Permit::new(rt, held))
    }

    /// Blocks the calling thread until it has a permit or so much time has passed. Returns `None` if the time has passed.
    ///
    /// Where the present moment and the timeout add up to a moment that can't be represented, the call waits without a limit. A
    /// clock that can't be read counts as one that shows the deadline. Refusals are those of [`acquire`](Semaphore::acquire).
    pub fn acquire_timeout<'a, R>(
        &'a self,
        rt: &'a R,
        alloc: Global,
        timeout: Duration,
    ) -> Result<Option<Permit<'a, R>>, SemaphoreError>
    where
        R: Wait + Clock + Clone,
        ensures { IfOk result (λ answer. IfSome answer (λ permit. permit ≡ 1)) }
    {
        let Some(held) = take_timeout(self, rt, alloc, timeout)? else {
            return Ok(None);
        };
        Ok(Some(Permit::new(rt, held)))
    }

    // Takes one of the free permits, if there is one.
    fn take_one(&self) -> bool {
        let before = self.free.fetch_update(
            Ordering::SeqCst,
            Ordering::SeqCst,
            |free| free.checked_sub(1),
        );
        before.is_ok()
    }

    // Gives that many permits back, in one step.
    fn give_back(&self, permits: usize) {
        self.free.fetch_add(permits, Ordering::SeqCst);
    }
}

impl<'a> Contended<'a> for &'a Semaphore {
    type Taken = Permits<'a>;

    ghost is_new = { λ permits. permits ≡ 1 };

    fn clients(self) -> &'a Clients {
        &self.clients
    }

    fn try_take(self) -> Option<Permits<'a>> {
        if self.take_one() {
            Some(Permits::one(self))
        } else {
            None
        }
    }
}
