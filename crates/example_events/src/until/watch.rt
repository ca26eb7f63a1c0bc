//! The latest value.
ghost use Rattle.std.specs.Prelude.{◌≡◌, ◌<◌, IfOk};

use event_listener::{Event, EventId};
use event_until::{Attempt, Until, UntilError};
use std::alloc::Global;
use std::marker::Model;
use std::sync::{self, Wait};
use std::time::Clock;

/// A value that is replaced again and again, and that any number of threads and tasks wait for. Each gets the latest value: a
/// reader that is late misses the values between.
#[derive(Drop)]
pub struct Watch<T> {
    latest: sync::Mutex<Version<T>>,
    replaced: Event,
}

/// A value, and its number: the first value has 1, and each later value a greater number.
#[derive(Clone, Copy, Debug, PartialEq, Eq)]
pub struct Version<T> {
    pub number: u64,
    pub value: T,
}

/// The request of a waiter for a value with a number above the number that it has seen. A contract sees that number.
#[derive(Drop)]
pub struct Newer<'a, T, R> {
    watch: &'a Watch<T>,
    rt: &'a R,
    seen: u64,
}

impl<'a, T, R> Model for Newer<'a, T, R> {
    ghost use Rattle.std.specs.Prelude.{ℕ};

    ghost Value = { ℕ };

    ghost view = { λ newer. newer.seen };
}

impl<T: Copy> Watch<T> {
    /// Makes a watch with its first value.
    pub fn new(id: EventId, value: T) -> Self {
        Watch {
            latest: sync::Mutex::new(Version { number: 1, value }),
            replaced: Event::new(id),
        }
    }

    /// Replaces the value, and then notifies all waiters.
    pub fn replace<R: Wait>(&self, rt: &R, value: T) {
        let mut latest = self.latest.lock(rt);
        let number = latest.number.saturating_add(1);
        *latest = Version { number, value };
        drop(latest);
        self.replaced.notify_relaxed(rt, usize::MAX);
    }

    /// Returns a wait for the latest value, once its number is above `seen`, to be awaited or blocked on. Above 0 there is a
    /// value at once.
    pub fn newer<'a, R>(
        &'a self,
        rt: &'a R,
        alloc: Global,
        seen: u64,
    ) -> Until<'a, Newer<'a, T, R>, R>
    where
        R: Wait + Clock + Clone,
        ensures { result.attempt ≡ seen }
    {
        let newer = Newer {
            watch: self,
            rt,
            seen,
        };
        Until::new(rt, alloc, &self.replaced, newer)
    }
}

impl<T: Copy> Watch<T> {
    /// As [`newer`](Watch::newer), and blocks the calling thread until then.
    pub fn wait_newer<R>(&self, rt: &R, alloc: Global, seen: u64) -> Result<Version<T>, UntilError>
    where
        R: Wait + Clock + Clone,
        ensures { IfOk result (λ version. seen < version.number) }
    {
        self.newer(rt, alloc, seen).wait()
    }
}

impl<T: Copy, R: Wait> Attempt for Newer<'_, T, R> {
    type Output = Version<T>;

    ghost use Rattle.std.specs.Prelude.{◌≡◌, ◌<◌};

    // An attempt gives a value with a number above the number seen before, and the waiter has seen that value then.
    ghost succeeds = { λ seen version now_seen. (seen < version.number)
        × (now_seen ≡ version.number) };

    fn attempt(&mut self) -> Option<Version<T>> {
        let latest = *self.watch.latest.lock(self.rt);
        if latest.number <= self.seen {
            return None;
        }
        self.seen = latest.number;
        Some(latest)
    }
}
