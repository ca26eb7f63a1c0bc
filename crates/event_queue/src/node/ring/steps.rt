//! How many nodes of other listeners the calls of a queue visit, and how often they look up a key.
ghost use Rattle.std.specs.Prelude.{◌≡◌, ◌+◌, ◌-◌, ◌<◌, ◌^◌, ℕ, min};
ghost use Rattle.event_queue.specs.Counts.{counted_on};

use std::marker::Model;
use std::sync::ledger::{Blank, Book, Ledger, Share};

/// What a call of a queue tells of its visits and its looks by key: [`Steps`], or what the `_uncounted` calls use in its
/// place.
///
/// Only the ring counts, wherever it gives a way to a node.
pub trait Count {
    ghost visits: { Self → ℕ };

    ghost looks: { Self → ℕ };

    /// Counts one more visit.
    fn add_visit(&mut self)
        ensures visits { visits self.new ≡ visits self.old + 1 }
        ensures looks { looks self.new ≡ looks self.old };

    /// Counts one more look by key.
    fn add_look(&mut self)
        ensures visits { visits self.new ≡ visits self.old }
        ensures looks { looks self.new ≡ counted_on (looks self.old) 1 };
}

/// Counts of the work of a queue: *visits*, which are looks of a call at the nodes of other listeners, and *looks by key*,
/// which find the node of a key.
///
/// Only a look by key leads a call to the node of its own listener. A call of a [`List`](crate::List) that takes `steps` adds
/// its visits and its looks, and nothing else changes the counts. Clauses see the visits as a number without a limit, and the
/// looks as a number that stays at `u64::MAX`.
#[derive(Drop)]
pub struct Steps<L: Ledger> {
    book: Book<L>,
    share: Share<L>,
    // The total of the book, which only proofs can read, as far as a `u64` counts.
    visits: u64,
    looks: u64,
}

impl<L: Ledger> Model for Steps<L> {
    ghost use Rattle.std.specs.Prelude.{◌≡◌, ◌-◌, ◌<◌, ◌^◌, min};
    ghost use Rattle.event_queue.specs.Counts.{Counts};

    ghost Value = { Counts };

    ghost view = { λ steps. record { visits = steps.book.total; looks = steps.looks } };

    ghost invariant = { λ steps. (0 < steps.share.parts)
        × (steps.visits ≡ min steps.book.total (2 ^ 64 - 1)) };
}

impl<L: Ledger> Steps<L> {
    /// Makes counts of 0, which are kept in a new ledger. The blank has to be of the ledger `L`, with at least one part.
    /// Takes no memory.
    #[inline(always)]
    pub fn new(blank: Blank) -> Self
        requires name { blank.name ≡ L.name }
        requires parts { blank.parts ≡ L.parts }
        requires has_a_part { 0 < blank.parts }
        ensures visits { result.visits ≡ 0 }
        ensures looks { result.looks ≡ 0 }
    {
        let (book, share) = blank.open::<L>();
        Steps {
            book,
            share,
            visits: 0,
            looks: 0,
        }
    }

    /// Returns how many visits were counted. The answer stays at `u64::MAX`. Takes no memory.
    #[inline(always)]
    pub fn visits(&self) -> u64
        ensures { result ≡ min self.now.visits (2 ^ 64 - 1) }
    {
        self.visits
    }

    /// Returns how many looks by key were counted. The answer stays at `u64::MAX`. Takes no memory.
    #[inline(always)]
    pub fn looks(&self) -> u64
        ensures { result ≡ self.now.looks }
    {
        self.looks
    }
}

impl<L: Ledger> Count for Steps<L> {
    ghost visits = { λ steps. steps.visits };

    ghost looks = { λ steps. steps.looks };

    #[inline(always)]
    fn add_visit(&mut self) {
        self.book.add(&mut self.share, 1);
        self.visits = self.visits.saturating_add(1);
    }

    #[inline(always)]
    fn add_look(&mut self) {
        self.looks = self.looks.saturating_add(1);
    }
}
