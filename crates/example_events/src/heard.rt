//! A thread that listens while another thread notifies, and hears of it.
ghost use Rattle.std.specs.Prelude.{◌≡◌, true, IfOk};
ghost use Rattle.event_listener.specs.Heard.{NotifiesAll};

use event_listener::{
    Event, EventHand, IntoNotification, ListenError, Listener, listening_is_known,
    notifying_all_is_known,
};
use std::alloc::{AllocError, Global};
use std::sync::Wait;
use std::thread::{self, Threads};
use std::time::Clock;
use thiserror::Error;

/// Why the thread could not listen, or no other thread notified.
#[derive(Clone, Copy, Debug, PartialEq, Eq, Error)]
pub enum HeardError {
    #[error("{0}")]
    Listen(#[from] ListenError),
    #[error("no memory for a hand")]
    Memory(#[from] AllocError),
}

/// Listens, has another thread notify all listeners, and returns whether the listener was notified: it was, whatever other
/// threads do with the event meanwhile.
///
/// Returns an error if memory runs out or the event has given out all serial numbers: then nobody notifies, and no listener
/// is left. The call allocates. It waits for the other thread, and may wait for the lock of the event.
pub fn hear_another<R>(rt: &R, alloc: Global, event: &Event) -> Result<bool, HeardError>
where
    R: Threads + Sync + Wait + Clock + Clone,
    ensures { IfOk result (λ heard. heard ≡ true) }
{
    let mut hand = event.hand(rt, alloc)?;
    let mut listener = hand.listen(rt, alloc)?;
    hand.observe(&mut listener);
    let other = hand.fork()?;
    // Whether the other one has notified yet is not known here.
    let (_, other) = thread::join(
        rt,
        || event.is_notified(rt),
        || -> EventHand
            ensures table { result.table ≡ other.table }
            ensures notifies { NotifiesAll other.knows result.knows }
        {
            let mut other = other;
            let _ = other.notify(rt, usize::MAX.additional());
            other
        },
    );
    listener.join(other);
    listening_is_known::<()>();
    notifying_all_is_known::<()>();
    Ok(listener.discard())
}
