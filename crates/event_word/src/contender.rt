//! A waiter that competes.
ghost use Rattle.std.specs.Prelude.{◌≡◌, ◌≤◌, ◌↔◌, ℕ, if◌then◌else◌, IfSome, IsSome};
ghost use Rattle.event_wait.specs.Starving.{forborne_with};
ghost use Rattle.event_word.specs.Contender.{count_of};
ghost use Rattle.event_word.specs.declared.contender.Coming.{Coming};

use event_queue::Key;
use event_wait::starving::{PATIENCE, forborne_with};
use std::marker::Model;

/// A thread or a task that competes for a permit or a value. The contract of a wait sees how often the contender lost.
#[derive(Drop)]
pub struct Contender {
    /// The key by which the contender is in the queue, or `None` if it is in no queue.
    pub place: Option<Key>,
    /// How often the contender was notified and found nothing.
    pub losses: u32,
}

impl Model for Contender {
    ghost Value = { ℕ };

    ghost view = { λ contender. contender.losses };
}

/// How a contender starts an attempt.
#[derive(Clone, Copy)]
pub enum Coming {
    /// The contender has no place in the queue.
    New,
    /// The contender was notified, and is in the queue no more.
    Notified,
    /// The contender is not notified, and waits on by this key.
    Waits(Key),
}

impl Coming {
    /// Returns whether the contender was notified.
    #[inline(always)]
    pub fn is_notified(&self) -> bool
        ensures { count_of self.now ≡ (if result then 1 else 0) }
    {
        match self {
            Coming::New => false,
            Coming::Notified => true,
            Coming::Waits(_) => false,
        }
    }
}

/// Returns for how many newcomers beside the last a contender is forborne with that has lost so often and waits again, if that
/// contender starves: it was notified, and has lost [`PATIENCE`] times.
///
/// A contender that is new does not starve, however often it has lost: it was struck off, and joins as any newcomer does.
pub(crate) fn forborne(coming: Coming, losses: u32) -> Option<u32>
    ensures starves { IsSome result ↔ (count_of coming ≡ 1) × (2 ≤ losses) }
    ensures number { IfSome result (λ n. n ≡ forborne_with losses) }
{
    if coming.is_notified() && losses >= PATIENCE {
        return Some(forborne_with(losses));
    }
    None
}

/// How a contender started an attempt, as its queue says. Only [`Held::come`](crate::Held::come) and
/// [`Held::leave`](crate::Held::leave) make an arrival.
#[derive(Drop)]
pub struct Arrival {
    coming: Coming,
}

impl Model for Arrival {
    ghost Value = { Coming };

    ghost view = { λ arrival. arrival.coming };
}

impl Arrival {
    #[inline(always)]
    pub(crate) fn new(coming: Coming) -> Self
        ensures { result ≡ coming }
    {
        Arrival { coming }
    }

    /// Returns how the contender started its attempt.
    #[inline(always)]
    pub fn coming(&self) -> Coming
        ensures { result ≡ self.now }
    {
        self.coming
    }
}

impl Contender {
    /// Makes a contender that is in no queue, and has lost nothing.
    #[inline(always)]
    pub fn new() -> Self
        ensures { result ≡ 0 }
    {
        Contender {
            place: None,
            losses: 0,
        }
    }

    /// Returns whether the contender has a place in the queue.
    #[inline(always)]
    pub fn is_waiting(&self) -> bool {
        self.place.is_some()
    }
}
