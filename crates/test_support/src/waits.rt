//! The waits of a listener, so that what is said of each wait is written once.
use std::time::{Clock, Duration, Instant};

/// The moment so long after the present one. The error is a text.
pub fn deadline_after<R: Clock>(clock: &R, limit: Duration) -> Result<Instant, &'static str> {
    let Ok(now) = Instant::now(clock) else {
        return Err("the clock can't be read");
    };
    now.checked_add(limit).ok_or("the clock is at its end")
}

/// A wait that is tried.
#[derive(Clone, Copy, Debug)]
pub enum WaitCall {
    Timeout,
    Deadline,
    UntilTold,
}
