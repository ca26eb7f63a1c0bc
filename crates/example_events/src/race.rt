//! Threads that wait for a flag while one of them sets it.
ghost use Rattle.std.specs.Prelude.{◌≡◌, IfOk, IsTrue};
ghost use Rattle.event_listener.specs.Closing.{are_hands_below};
ghost use Rattle.event_listener.specs.Noting.{Owns};

use crate::recorded_flag::RecordedFlag;
use event_listener::{CloseError, EventId, Hand, Record, RecordError};
use std::alloc::{AllocError, Global};
use std::sync::Wait;
use std::thread::{self, Threads};
use std::time::Clock;
use thiserror::Error;

/// Why a race gave no record.
#[derive(Clone, Copy, Debug, PartialEq, Eq, Error)]
pub enum RaceError {
    #[error("{0}")]
    Record(#[from] RecordError),
    #[error("no memory for the threads")]
    Threads(#[from] AllocError),
    #[error("{0}")]
    Close(#[from] CloseError),
}

/// Starts a thread for each of that many hands. The first sets a flag, and all others wait for it. Returns the record of
/// the flag's event.
pub fn race<R>(rt: &R, alloc: Global, id: EventId, hands: usize) -> Result<Record<()>, RaceError>
where
    R: Threads + Sync + Wait + Clock + Clone,
    ensures { IfOk result (λ entries. IsTrue (are_hands_below hands entries)) }
{
    let (flag, hands) = RecordedFlag::new(alloc, id, hands)?;
    // If no thread can be made, the first hand is the first that runs, so none waits for it in vain.
    let hands = thread::map_vec(rt, hands, &|hand| take_part(rt, &flag, hand))?;
    Ok(flag.close(hands)?)
}

// Does what the thread of a hand does, and returns the hand. A thread that fails for memory does not wait.
fn take_part<R>(rt: &R, flag: &RecordedFlag, hand: Hand<()>) -> Hand<()>
where
    R: Wait + Clock + Clone,
    requires { Owns flag.now hand }
    ensures { Owns flag.now result }
{
    let mut hand = hand;
    if hand.number() == 0 {
        // No listener is notified if memory runs out, so try until it does not.
        for _ in rt.forever() {
            if flag.set(rt, &mut hand).is_ok() {
                break;
            }
        }
    } else {
        let _ = flag.wait(rt, &mut hand);
    }
    hand
}
