//! Until when a wait goes on.
ghost use Rattle.std.specs.Prelude.{◌≡◌, false, None};
ghost use Rattle.std.specs.Duration.{as_nanos};
ghost use Rattle.event_wait.specs.declared.lock.limit.Limit.TheVariants.{Never, Past};

use std::time::{Clock, Duration, Instant};

/// The moment up to which a wait goes on that does not get its output.
#[derive(Clone, Copy, Debug, PartialEq, Eq)]
pub enum Limit {
    /// The wait goes on without end.
    Never,
    /// The wait goes on until this moment. If the clock can't be read, the moment counts as passed.
    At(Instant),
    /// The limit has passed already, so the wait does not park.
    Past,
}

impl Limit {
    /// Returns the limit of a wait that begins now and has this timeout.
    ///
    /// A timeout of zero is [`Past`](Limit::Past), and the clock is not read. Else the limit is [`Never`](Limit::Never) if the
    /// present moment and the timeout add up to a moment that can't be represented, and `Past` if the clock can't be read. The
    /// call neither allocates nor waits.
    pub fn after<R: Clock>(clock: &R, timeout: Duration) -> Self
        ensures zero { as_nanos timeout ≡ 0 → result ≡ Past }
    {
        if timeout.is_zero() {
            return Limit::Past;
        }
        match Instant::now(clock) {
            Ok(now) => match now.checked_add(timeout) {
                Some(moment) => Limit::At(moment),
                None => Limit::Never,
            },
            Err(_) => Limit::Past,
        }
    }

    /// Returns how long the wait may still go on: zero if the limit has passed or the clock can't be read, and `None` if there is
    /// no limit.
    pub fn left<R: Clock>(self, clock: &R) -> Option<Duration>
        ensures never { self ≡ Never → result ≡ None }
    {
        match self {
            Limit::Never => None,
            Limit::Past => Some(Duration::ZERO),
            Limit::At(moment) => Some(match Instant::now(clock) {
                Ok(now) => moment.saturating_duration_since(now),
                Err(_) => Duration::ZERO,
            }),
        }
    }

    /// Returns whether the limit has passed. Without a limit the clock is not read.
    pub fn has_passed<R: Clock>(self, clock: &R) -> bool
        ensures never { self ≡ Never → result ≡ false }
    {
        match self.left(clock) {
            Some(left) => left.is_zero(),
            None => false,
        }
    }
}
