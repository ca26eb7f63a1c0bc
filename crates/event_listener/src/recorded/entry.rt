//! An entry of a record.
ghost use Rattle.std.specs.Prelude.{◌≡◌, Some};

use super::call::RecordedCall;
use super::reply::RecordedReply;

/// An entry of a record: one step of the queue, with the hand that called, the call, and the queue's reply.
///
/// Anybody may write entries, and ask [`replays`](crate::replays) whether they are a history of some queue.
///
/// These lines write an entry as a row of a table:
///
/// ```rust
/// match entry.hand {
///     Some(number) => write!(table, "{number}")?,
///     None => write!(table, "-")?,
/// }
/// writeln!(table, " | {:?} | {:?}", entry.call, entry.reply)?;
/// ```
#[derive(Clone, Copy, Debug, PartialEq, Eq, Drop)]
pub struct Entry<T> {
    /// The number of the hand that made the call, or `None` for the removal of a listener that was dropped.
    pub hand: Option<usize>,
    /// The call, without its task.
    pub call: RecordedCall<T>,
    /// What the queue returned.
    pub reply: RecordedReply<T>,
}

impl<T> Entry<T> {
    // Makes the entry of a call that this hand made.
    #[inline(always)]
    pub(super) fn by_hand(hand: usize, call: RecordedCall<T>, reply: RecordedReply<T>) -> Self
        ensures { result ≡ record { hand = Some hand; call = call; reply = reply } }
    {
        Entry {
            hand: Some(hand),
            call,
            reply,
        }
    }
}
