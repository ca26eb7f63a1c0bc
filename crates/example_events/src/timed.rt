//! A wait against a deadline.
ghost use Rattle.std.specs.Prelude.{◌≡◌, true, IsErr, IfErr};
ghost use Rattle.event_listener.specs.Waiting.{HandsBack};

use event_listener::{Listener, WaitError};
use std::time::{Clock, Duration, Instant};

/// The tag, if the listener is notified before the deadline, and else `None`.
///
/// A wait that fails for memory is retried once, with the listener that it returns and against the same deadline.
/// If the second wait fails too, the caller gets the listener.
pub fn tag_by<T, L: Listener<T>>(listener: L, deadline: Instant) -> Result<Option<T>, WaitError<L>>
    ensures finished { (L.standing listener).is_finished ≡ true → IsErr result }
    ensures memory { IfErr result (HandsBack L.standing listener) }
{
    match listener.wait_deadline(deadline) {
        Err(WaitError::Memory(listener)) => listener.wait_deadline(deadline),
        answer => answer,
    }
}

/// Returns the tag, if the listener is notified within the limit, and else `None`.
///
/// The limit becomes a deadline once, so a second wait adds nothing to the time: see [`tag_by`]. A limit that ends too late to
/// be represented is no limit. If the clock can't be read the time counts as up: the listener gives the tag that it has. In
/// these two cases the wait is not tried again.
pub fn tag_within<R: Clock, T, L: Listener<T>>(
    rt: &R,
    listener: L,
    limit: Duration,
) -> Result<Option<T>, WaitError<L>>
    ensures finished { (L.standing listener).is_finished ≡ true → IsErr result }
    ensures memory { IfErr result (HandsBack L.standing listener) }
{
    let Ok(now) = Instant::now(rt) else {
        return listener.wait_timeout(Duration::ZERO);
    };
    match now.checked_add(limit) {
        Some(deadline) => tag_by(listener, deadline),
        None => Ok(Some(listener.wait()?)),
    }
}
