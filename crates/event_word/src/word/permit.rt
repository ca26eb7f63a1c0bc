//! Permits of a semaphore.
ghost use Rattle.std.specs.Prelude.{◌≡◌, ◌+◌, ◌-◌, ◌<◌, ◌^◌, min};
ghost use Rattle.event_word.specs.Free.{IsClosed, free_of};
ghost use Rattle.event_word.specs.Word.{number_of};

use super::origin::Origin;
use super::step::Step;
use std::marker::Model;

/// Permits that were taken at once, mostly one permit.
///
/// The type is not `Drop`, and is made only by a step that takes as many permits from a word that is not closed. A contract sees
/// how many permits there are, and of which word.
pub struct Permit {
    count: u64,
    origin: Origin,
    ghost room: { count < 2 ^ 60 },
}

impl Model for Permit {
    ghost use Rattle.event_word.specs.Permit.{Taken};

    ghost Value = { Taken };

    ghost view = { λ permit. record { origin = permit.origin.name; count = permit.count } };
}

impl Permit {
    /// Makes the permits that this step takes.
    #[inline(always)]
    pub(crate) fn taken(step: Step, count: u64) -> Self
        requires open { IsClosed (number_of step.from) → ⊥ }
        requires fewer { free_of (number_of step.from) ≡ free_of (number_of step.to) + count }
        ensures origin { result.origin ≡ step.origin.name }
        ensures count { result.count ≡ count }
    {
        Permit {
            count,
            origin: step.into_origin(),
        }
    }

    /// Returns how many permits there are.
    #[inline(always)]
    pub fn count(&self) -> u64
        ensures count { result ≡ self.now.count }
        ensures room { result < 2 ^ 60 }
    {
        self.count
    }

    /// Ends the permits, which this step of their word gives back: as many more are free, if the number has room for them.
    #[inline(always)]
    pub(crate) fn given(self, step: Step)
        requires own { step.origin.name ≡ self.origin }
        requires more { free_of (number_of step.to)
            ≡ min (free_of (number_of step.from) + self.count) (2 ^ 60 - 1) }
        requires closed { IsClosed (number_of step.from) → IsClosed (number_of step.to) }
    {
        let Permit {
            count: _,
            origin: _,
        } = self;
        drop(step);
    }

    /// Forgets the permits, which are never given back, and returns how many there were.
    pub fn forget(self) -> u64
        ensures { result ≡ self.count }
    {
        let Permit { count, origin: _ } = self;
        count
    }
}
