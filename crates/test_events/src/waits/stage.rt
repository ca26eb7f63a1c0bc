//! The event of a case, with the clock of its listeners, and what the tests of waits share besides.
use crate::support::check;
use event_listener::{Event, IntoTagged, RecordedReply};
use std::io;
use std::process::Abort;
use std::sync::atomic::{AtomicU32, Ordering};
use std::sync::{Mutex, Wait};
use std::thread::Threads;
use std::time::{Clock, CpuClock, Duration, Instant};
use test_support::WaitCall::{self, Deadline, Timeout, UntilTold};
use test_support::{Change, Changed, Runtime, deadline_after};

/// What the tests ask of a runtime value that several threads use.
pub trait SharedRuntime: Runtime + CpuClock + Threads + Send + Sync {}

impl<R: Runtime + CpuClock + Threads + Send + Sync> SharedRuntime for R {}

/// All waits.
pub const WAITS: [WaitCall; 3] = [Timeout, Deadline, UntilTold];

/// Those that end at a limit.
pub const TIMED_WAITS: [WaitCall; 2] = [Timeout, Deadline];

/// The present moment by the system's clock.
pub fn now<R: Clock + Abort>(rt: &R) -> Duration {
    rt.monotonic().expect(rt, "the time")
}

/// A limit that no test reaches.
pub fn long() -> Duration {
    Duration::from_secs(3600)
}

/// The greatest limit whose moment can be represented, but for an hour.
pub fn greatest<R: Clock + Abort>(rt: &R) -> Duration {
    let last = Duration::from_secs(u64::MAX / 2);
    last.saturating_sub(now(rt)).saturating_sub(long())
}

/// The moment so long after the present one, but none after the greatest limit.
pub fn moment_after<R: Clock + Abort>(rt: &R, limit: Duration) -> Instant {
    let limit = limit.min(greatest(rt));
    deadline_after(rt, limit).expect(rt, "a moment")
}

/// Where a wait ends that should be woken and is not.
pub fn limit() -> Duration {
    Duration::from_secs(20)
}

/// A wait that began at this moment ends well before that limit.
pub fn ends_soon<R: Clock + Abort>(rt: &R, start: Duration) {
    let taken = now(rt).saturating_sub(start);
    check(rt, taken, taken < limit() / 2, true);
}

/// An event, recorded or not. Each call has to succeed.
pub trait AnyEvent {
    /// Notifies listeners, and answers how many were told.
    fn tell<R: Runtime>(&self, rt: &R, count: usize, tag: u32) -> usize;

    fn count_listeners<R: Runtime>(&self, rt: &R) -> usize;

    /// What the steps of the wait answered that ended last, if the event is recorded.
    fn last_steps<R: Runtime>(&self, _rt: &R) -> Option<Vec<RecordedReply<u32>>> {
        None
    }
}

impl AnyEvent for Event<u32> {
    fn tell<R: Runtime>(&self, rt: &R, count: usize, tag: u32) -> usize {
        self.notify(rt, count.tag(tag)).expect(rt, "a notification")
    }

    fn count_listeners<R: Runtime>(&self, rt: &R) -> usize {
        self.total_listeners(rt)
    }
}

/// What the clock of the listeners does.
#[derive(Clone, Copy, Debug)]
pub enum Habit {
    /// It shows the time.
    Exact,
    /// It goes at half speed from this moment on, which it shows until then.
    Slow(Duration),
    /// It goes back at each of its first readings.
    Back,
    /// It can be read so often, and then not any more.
    Fails(u32),
    /// It notifies one listener, with the tag 7, at each reading but the first so many.
    Notifies(u32),
}

/// An event, with the clock that its listeners read.
#[derive(Drop)]
pub struct Stage<R, E> {
    pub rt: R,
    pub event: E,
    habit: Mutex<Habit>,
    /// How often the clock was read since it was set.
    pub reads: AtomicU32,
}

/// The runtime value of the listeners.
pub type StageClock<'a, R, E> = Changed<'a, R, Stage<R, E>>;

impl<R: Runtime, E: AnyEvent> Stage<R, E> {
    pub fn new(rt: &R, event: E) -> Self {
        Stage {
            rt: rt.clone().expect(rt, "a runtime value"),
            event,
            habit: Mutex::new(Habit::Exact),
            reads: AtomicU32::new(0),
        }
    }

    /// Sets the clock.
    pub fn set(&self, habit: Habit) {
        *self.habit.lock(&self.rt) = habit;
        self.reads.store(0, Ordering::SeqCst);
    }
}

impl<R: Runtime, E: AnyEvent> Change for Stage<R, E> {
    fn read<C: Clock>(&self, rt: &C) -> io::Result<Duration> {
        let now = rt.monotonic()?;
        let reads = self.reads.fetch_add(1, Ordering::SeqCst);
        let habit = *self.habit.lock(&self.rt);
        match habit {
            Habit::Slow(since) => Ok(since.saturating_add(now.saturating_sub(since) / 2)),
            Habit::Back => {
                let back = Duration::from_millis(20).saturating_mul(reads.min(5));
                Ok(now.saturating_sub(back))
            }
            Habit::Fails(others) if reads >= others => Err(io::ErrorKind::Unsupported.into()),
            Habit::Notifies(others) if reads >= others => {
                self.event.tell(&self.rt, 1, 7);
                Ok(now)
            }
            _ => Ok(now),
        }
    }
}
