//! Runtimes that a test changes.
use std::alloc::AllocError;
use std::cell::Cell;
use std::io;
use std::sync::atomic::{AtomicU64, Ordering};
use std::sync::{Mutex, Wait};
use std::time::{Clock, Duration};

/// What a test changes of a runtime, and what it wants done there. As written here, that is nothing.
pub trait Change {
    /// What the clock shows. The error is a clock that can't be read.
    fn read<R: Clock>(&self, rt: &R) -> io::Result<Duration> {
        rt.monotonic()
    }

    /// Comes before a clone, and may refuse it. A listener keeps a clone, which is made before the listener stands in the
    /// queue: so it comes after somebody's first look, and nobody is told of it.
    fn before_clone<R: Wait>(&self, _rt: &R) -> Result<(), AllocError> {
        Ok(())
    }
}

/// A runtime that is changed by that.
#[derive(Drop)]
pub struct Changed<'a, R, C> {
    pub rt: &'a R,
    pub by: &'a C,
}

impl<R: Wait, C: Change> Clone for Changed<'_, R, C> {
    fn clone(&self) -> Result<Self, AllocError> {
        let Changed { rt, by } = *self;
        by.before_clone(rt)?;
        Ok(Changed { rt, by })
    }
}

impl<R: Wait, C> Wait for Changed<'_, R, C> {}

impl<R: Clock, C: Change> Clock for Changed<'_, R, C> {
    fn monotonic(&self) -> io::Result<Duration> {
        self.by.read(self.rt)
    }

    fn since_1970(&self) -> io::Result<Duration> {
        self.rt.since_1970()
    }
}

/// Its clock can't be read.
#[derive(Drop)]
pub struct NoClock;

impl Change for NoClock {
    fn read<R: Clock>(&self, _rt: &R) -> io::Result<Duration> {
        Err(io::ErrorKind::Unsupported.into())
    }
}

/// A clock that shows a second more each time it is read: a wait of one and a half looks at it, waits, and is over.
#[derive(Drop)]
pub struct Ticks {
    reads: AtomicU64,
}

impl Ticks {
    /// A clock that begins at zero.
    pub fn new() -> Self {
        let reads = AtomicU64::new(0);
        Ticks { reads }
    }
}

impl Change for Ticks {
    fn read<C: Clock>(&self, _rt: &C) -> io::Result<Duration> {
        let reads = self.reads.fetch_add(1, Ordering::SeqCst);
        Ok(Duration::from_secs(reads))
    }
}

/// It counts how often its clock is read.
impl Change for Cell<u32> {
    fn read<R: Clock>(&self, rt: &R) -> io::Result<Duration> {
        self.set(self.get().saturating_add(1));
        rt.monotonic()
    }
}

/// What the mutex has is dropped at the first clone.
impl<G: Drop> Change for Mutex<Option<G>> {
    fn before_clone<R: Wait>(&self, rt: &R) -> Result<(), AllocError> {
        drop(self.lock(rt).take());
        Ok(())
    }
}
