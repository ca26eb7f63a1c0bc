//! Whether the record of an event and the notes of its hands are one history.
ghost use Rattle.std.specs.Prelude.{◌≡◌, ◌↔◌, ◌&&◌, IsTrue};
ghost use Rattle.event_listener.specs.Closing.{AreAllHands, are_hands_below, are_notes, are_notes_of_all, entries_of, how_many_with, is_by, same_call};
ghost use Rattle.event_listener.specs.recording.Replay.{same_reply};

use super::entry::Entry;
use super::hand::{Hand, Note};
use thiserror::Error;

/// Why [`RecordedEvent::close`](crate::RecordedEvent::close) returned no record.
///
/// A caller propagates this error by `?`, because the variant below makes an error of the caller from a `CloseError`:
///
/// ```rust
/// #[error("{0}")]
/// Close(#[from] CloseError),
///
/// Ok(flag.close(hands)?)
/// ```
#[derive(Clone, Copy, Debug, PartialEq, Eq, Error)]
pub enum CloseError {
    /// The hands are not those that the event was made with, each once: their numbers are not all those below the event's
    /// count of hands.
    #[error("hands are missing")]
    HandsMissing,
    /// The notes of some hand are not the record's entries of that hand, in order, or an entry is of a hand with a number
    /// that no hand of the event has. Only a hand of another event with the same number leads to this.
    #[error("notes differ from the record")]
    Differs,
}

// Returns how many of the hands have that number.
fn how_many_with<T>(hands: &[Hand<T>], number: usize) -> usize
    ensures { result ≡ how_many_with number hands.now }
{
    let mut found = 0;
    for hand in hands {
        found += usize::from(number == hand.number());
    }
    found
}

// Returns whether each number below the count is that of exactly one of the hands. The function looks at each hand for each
// number, and takes no memory.
pub(super) fn are_all_hands<T>(hands: &[Hand<T>], count: usize) -> bool
    ensures { IsTrue result ↔ AreAllHands count hands.now }
{
    for number in 0..count {
        if how_many_with(hands, number) != 1 {
            return false;
        }
    }
    true
}

// Returns whether each entry that some hand made is of a hand with a number below the count.
pub(super) fn are_hands_below<T>(entries: &[Entry<T>], count: usize) -> bool
    ensures { result ≡ are_hands_below count entries.now }
{
    for entry in entries {
        if let Some(hand) = entry.hand
            && hand >= count
        {
            return false;
        }
    }
    true
}

// Returns whether the note has the same call and reply as the entry.
fn is_note_of<T: Eq>(entry: &Entry<T>, note: &Note<T>) -> bool
    ensures { result ≡ (same_call T.eq entry.now.call note.now.call && same_reply T.eq
        entry.now.reply note.now.reply) }
{
    entry.call == note.call && entry.reply == note.reply
}

// Returns whether that hand made the call.
fn is_by<T>(entry: &Entry<T>, hand: usize) -> bool
    ensures { result ≡ is_by hand entry.now.hand }
{
    entry.hand == Some(hand)
}

// Returns whether the notes are the entries of that hand, in order.
fn are_notes_of<T: Eq>(entries: &[Entry<T>], hand: usize, notes: &[Note<T>]) -> bool
    ensures { result ≡ are_notes T.eq (entries_of hand entries.now) notes.now }
{
    let mut left = notes;
    for entry in entries {
        if is_by(entry, hand) {
            let Some((note, rest)) = left.split_first() else {
                return false;
            };
            if !is_note_of(entry, note) {
                return false;
            }
            left = rest;
        }
    }
    left.is_empty()
}

// Returns whether the notes of each hand are the entries of that hand, in order.
pub(super) fn are_notes_of_all<T: Eq>(entries: &[Entry<T>], hands: &[Hand<T>]) -> bool
    ensures { result ≡ are_notes_of_all T.eq entries.now hands.now }
{
    for hand in hands {
        if !are_notes_of(entries, hand.number(), hand.notes()) {
            return false;
        }
    }
    true
}
