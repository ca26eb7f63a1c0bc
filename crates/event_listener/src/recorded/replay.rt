//! Whether a record replays.
ghost use Rattle.std.specs.Prelude.{◌≡◌, IfOk};
ghost use Rattle.event_listener.specs.recording.Replay.{replays, slot_in};

mod entries;
mod replayed_queue;

use super::entry::Entry;
use super::reply::RecordedReply;
use replayed_queue::ReplayedQueue;
use std::alloc::{AllocError, Global};

/// Returns whether these entries *replay*: whether from an empty queue each call returns its reply, one after another.
///
/// The first listener of that queue gets the serial number 0. Tags are compared by the equality of `T`. The slot of a new
/// listener is read from the reply, because the queue may choose any; the hand that made the call is not looked at. Any
/// entries may be given. In no run does a listening fail for memory, and a listening finds the serial numbers used up only at
/// the serial number `u64::MAX`.
///
/// Takes memory for two vectors of the listeners, and returns an error if there is none. Never blocks. For each entry the
/// call makes at most one pass over the listeners that are in the queue by then, to find a key or to move the notified
/// listeners.
pub fn replays<T: Copy + Eq>(alloc: Global, entries: &[Entry<T>]) -> Result<bool, AllocError>
    ensures { IfOk result (λ answer. answer ≡ replays T.eq entries.now) }
{
    let mut queue = ReplayedQueue::new(alloc);
    for entry in entries {
        let reply = queue.perform_call(entry.call, slot_in(&entry.reply))?;
        if reply != entry.reply {
            return Ok(false);
        }
    }
    Ok(true)
}

// Returns the slot that a new listener got, by the reply; 0 if the reply is not that of a new listener.
fn slot_in<T>(reply: &RecordedReply<T>) -> u32
    ensures { result ≡ slot_in reply.now }
{
    match reply {
        RecordedReply::Listened(Ok(key)) => key.slot,
        _ => 0,
    }
}
