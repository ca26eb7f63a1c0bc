//! The identities of events.
ghost use Rattle.std.specs.Prelude.{◌≡◌, ◌≢◌, ◌+◌, ◌<◌, ◌^◌, ℕ, List, IfOk, OnErr};
ghost use Rattle.std.specs.List.{AllPairs, FoldsTo};
ghost use Rattle.event_listener.specs.Identity.{GivesNumber, IsLastNumber};

use std::marker::Model;
use thiserror::Error;

/// A source of identities of events, none of which it gives twice.
///
/// Two sources may give the same number, so all events of a program best get their identities from one. No call of a source
/// takes memory or blocks.
///
/// ```rust
/// let event = Event::with_tag(EventIds::new().next()?);
/// ```
#[derive(Debug, Drop)]
pub struct EventIds {
    next: u64,
}

/// The identity of one event, given by [`EventIds::next`].
///
/// An identity cannot be cloned, and an event consumes it. So two events whose identities are of one source have different
/// numbers.
///
/// A type that has an event takes an identity, and makes its event with that identity:
///
/// ```rust
/// pub fn new(id: EventId) -> Self {
///     Gate {
///         is_open: AtomicBool::new(false),
///         opened: Event::new(id),
///     }
/// }
/// ```
#[derive(Debug, Drop)]
pub struct EventId {
    number: u64,
}

/// The error of [`EventIds::next`]: the source has given all its identities.
///
/// A function that takes identities from a source propagates this error by `?`:
///
/// ```rust
/// pub fn pair(ids: &mut EventIds) -> Result<(Flag, Flag), IdsUsedUp>
///
/// let first = Flag::new(ids.next()?);
/// ```
#[derive(Clone, Copy, Debug, PartialEq, Eq, Error)]
#[error("event identities are used up")]
pub struct IdsUsedUp;

impl Model for EventIds {
    ghost Value = { ℕ };

    ghost view = { λ ids. ids.next };
}

impl Model for EventId {
    ghost Value = { ℕ };

    ghost view = { λ id. id.number };

    ghost invariant = { λ id. id.number + 1 < 2 ^ 64 };
}

impl EventIds {
    /// Makes a source whose first identity has the number 0.
    pub fn new() -> Self
        ensures { result ≡ 0 }
    {
        EventIds { next: 0 }
    }

    /// Makes a source whose first identity has the number `first`. If that is `u64::MAX`, the source has no identity to give.
    pub fn starting_at(first: u64) -> Self
        ensures { result ≡ first }
    {
        EventIds { next: first }
    }

    /// Returns the next identity of the source. The numbers of identities rise by one.
    ///
    /// Returns [`IdsUsedUp`] exactly if the next number is `u64::MAX`, and leaves the source as it was. Takes no memory and
    /// never blocks.
    ///
    /// Two flags get identities of one source, so their events have different numbers:
    ///
    /// ```rust
    /// let first = Flag::new(ids.next()?);
    /// let second = Flag::new(ids.next()?);
    /// ```
    pub fn next(&mut self) -> Result<EventId, IdsUsedUp>
        ensures given { IfOk result (λ id. GivesNumber self.old id self.new) }
        ensures refused { OnErr result (IsLastNumber self.old × (self.new ≡ self.old)) }
    {
        if self.next == u64::MAX {
            return Err(IdsUsedUp);
        }
        let number = self.next;
        self.next += 1;
        Ok(EventId { number })
    }
}

impl EventId {
    /// Returns the number of the identity, which is below `u64::MAX`. Takes no memory and never blocks.
    pub fn number(&self) -> u64
        ensures value { result ≡ self.now }
        ensures below { result + 1 < 2 ^ 64 }
    {
        self.number
    }
}

/// Proves that the numbers which one source gives, one after another and however many, are distinct. Does nothing when a
/// program runs.
pub fn given_numbers_are_distinct(ids: &EventIds)
    ensures { (numbers : List ℕ) (after : ℕ) → FoldsTo GivesNumber ids.now numbers after
        → AllPairs (λ earlier later. earlier ≢ later) numbers }
{}
