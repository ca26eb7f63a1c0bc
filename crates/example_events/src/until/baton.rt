//! A baton, with a guard that a thread may keep.
ghost use Rattle.std.specs.Prelude.{◌≡◌};

use event_listener::{Event, EventId};
use event_until::{Attempt, Until, UntilError};
use std::alloc::Global;
use std::marker::Model;
use std::sync::atomic::{AtomicBool, Ordering};
use std::sync::{Arc, Wait};
use std::time::Clock;

/// A thing that one thread or task at a time has.
#[derive(Drop)]
pub struct Baton {
    is_taken: AtomicBool,
    freed: Event,
}

/// The baton. Dropping the guard frees the baton, and then notifies one listener. The guard owns all that it needs for that.
#[must_use = "the baton is free once it is dropped"]
pub struct OwnedBaton<R: Wait + Drop> {
    baton: Arc<Baton>,
    rt: R,
}

/// The request of a waiter for the baton. A contract sees how many of the waiter's attempts failed.
#[derive(Drop)]
pub struct Take<'a, R> {
    baton: &'a Arc<Baton>,
    rt: &'a R,
    failed: usize,
}

impl<'a, R> Model for Take<'a, R> {
    ghost use Rattle.std.specs.Prelude.{ℕ};

    ghost Value = { ℕ };

    ghost view = { λ take. take.failed };
}

impl Baton {
    /// Makes a baton that nobody has.
    pub fn new(id: EventId) -> Self {
        Baton {
            is_taken: AtomicBool::new(false),
            freed: Event::new(id),
        }
    }

    /// Returns a wait for the baton, to be awaited or blocked on.
    pub fn take<'a, R>(baton: &'a Arc<Baton>, rt: &'a R, alloc: Global) -> Until<'a, Take<'a, R>, R>
    where
        R: Wait + Clock + Clone + Drop,
    {
        let take = Take {
            baton,
            rt,
            failed: 0,
        };
        Until::new(rt, alloc, &baton.freed, take)
    }
}

impl Baton {
    // All that may fail comes before the baton is taken.
    fn try_take<R>(baton: &Arc<Baton>, rt: &R) -> Result<Option<OwnedBaton<R>>, UntilError>
    where
        R: Wait + Clone + Drop,
    {
        let rt = rt.clone()?;
        let share = Arc::try_clone(baton)?;
        if baton.is_taken.swap(true, Ordering::SeqCst) {
            return Ok(None);
        }
        Ok(Some(OwnedBaton { baton: share, rt }))
    }
}

impl<R> Take<'_, R> {
    /// Returns how many attempts failed.
    pub fn failed(&self) -> usize
        ensures { result ≡ self.now }
    {
        self.failed
    }
}

impl<R: Wait + Clone + Drop> Attempt for Take<'_, R> {
    type Output = Result<OwnedBaton<R>, UntilError>;

    ghost use Rattle.std.specs.Prelude.{◌≤◌};

    // An attempt that fails is counted.
    ghost fails = { λ failed now_failed. failed ≤ now_failed };

    fn attempt(&mut self) -> Option<Result<OwnedBaton<R>, UntilError>> {
        let taken = Baton::try_take(self.baton, self.rt).transpose();
        match &taken {
            Some(Ok(_)) => {}
            // A notified waiter that has no memory for a guard lets the next waiter try.
            Some(Err(_)) => {
                self.baton.freed.notify_relaxed(self.rt, 1);
            }
            None => self.failed = self.failed.saturating_add(1),
        }
        taken
    }
}

impl<R: Wait + Drop> Drop for OwnedBaton<R> {
    fn drop(self) {
        let OwnedBaton { baton, rt } = self;
        baton.is_taken.store(false, Ordering::SeqCst);
        baton.freed.notify_relaxed(&rt, 1);
    }
}
