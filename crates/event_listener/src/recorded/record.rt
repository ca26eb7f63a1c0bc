//! The record of an event that was closed.
ghost use Rattle.std.specs.Prelude.{◌≡◌, IfOk, IsTrue};
ghost use Rattle.event_listener.specs.recording.State.{HandlessAreEnds};
ghost use Rattle.event_listener.specs.recording.Replay.{replays};

use super::entry::Entry;
use super::replay;
use std::alloc::{AllocError, Global};
use std::marker::Model;

/// The record of a [`RecordedEvent`](crate::RecordedEvent) that was closed: every step of its queue, in order.
///
/// The entries *replay*: from an empty queue each call returns its reply, one after another. Each entry without a hand is the
/// removal of a listener that was dropped.
///
/// Here a flag returns the record of its event, once each thread has returned its hand:
///
/// ```rust
/// let hands = thread::map_vec(rt, hands, &|hand| take_part(rt, &flag, hand))?;
/// Ok(flag.close(hands)?)
/// ```
#[derive(Drop)]
pub struct Record<T: Copy + Eq> {
    entries: Vec<Entry<T>>,
}

impl<T: Copy + Eq> Model for Record<T> {
    ghost use Rattle.std.specs.Prelude.{List, IsTrue};
    ghost use Rattle.event_listener.specs.declared.recorded.entry.Entry.{Entry};
    ghost use Rattle.event_listener.specs.recording.State.{HandlessAreEnds};
    ghost use Rattle.event_listener.specs.recording.Replay.{replays};

    ghost Value = { List (Entry T) };

    ghost view = { λ kept. kept.entries.items };

    ghost invariant = { λ kept. IsTrue (replays T.eq kept.entries.items)
        × HandlessAreEnds kept.entries.items };
}

impl<T: Copy + Eq> Record<T> {
    // Makes the record of these entries, which replay, and each of which without a hand is the end of a listener.
    pub(super) fn new(entries: Vec<Entry<T>>) -> Self
        requires replays { IsTrue (replays T.eq entries.items) }
        requires ends { HandlessAreEnds entries.items }
        ensures { result ≡ entries.items }
    {
        Record { entries }
    }

    /// Returns an entry for each step, in the order in which the queue made the steps. Takes no memory and never blocks.
    pub fn entries(&self) -> &[Entry<T>]
        ensures value { result.now ≡ self.now }
        ensures replays { IsTrue (replays T.eq self.now) }
        ensures ends { HandlessAreEnds self.now }
    {
        self.entries.as_slice()
    }

    /// Checks once more that the entries replay, as [`replays`](crate::replays) does, and returns the answer.
    ///
    /// The answer is always `true`, because the type keeps only entries that replay. So the call is for a program that wants
    /// to see the check run; no clause says that the call makes the check. Takes memory, and returns an error if there is
    /// none. Never blocks.
    pub fn replays(&self, alloc: Global) -> Result<bool, AllocError>
        ensures { IfOk result (λ answer. IsTrue answer) }
    {
        replay::replays(alloc, self.entries.as_slice())
    }
}
