//! A lock that is polled.
use super::Mutex;
use super::error::MutexError;
use super::guard::MutexGuard;
use crate::locks::contended::{Parked, Registered, Trying, Turn, Waiting, try_twice};
use futures::task::{Poll, Waker};
use std::alloc::Global;
use std::mem;
use std::sync::{self, Wait};
use std::time::Clock;

/// A lock that is polled until it gives its guard. Dropping it before that gives up: if its client was notified, another client
/// is notified in its place.
#[must_use = "nothing is locked before it is polled"]
#[derive(Drop)]
pub struct PolledLock<'a, T, R: Wait + Clock + Clone> {
    mutex: &'a Mutex<T>,
    rt: &'a R,
    alloc: Global,
    stage: Stage<R>,
}

// The place of the polled lock's client.
#[derive(Drop)]
enum Stage<R: Wait + Clock + Clone> {
    /// Not begun: the lock was not polled yet, or was refused.
    Idle,
    /// About to register, at the next poll.
    Waits(Waiting<R>),
    /// Parked.
    Parked(Parked<R>),
    /// Gone with the guard.
    Finished,
}

impl<'a, T, R: Wait + Clock + Clone> PolledLock<'a, T, R> {
    pub(crate) fn new(mutex: &'a Mutex<T>, rt: &'a R, alloc: Global) -> Self {
        PolledLock {
            mutex,
            rt,
            alloc,
            stage: Stage::Idle,
        }
    }

    /// Gives the guard if the lock is free; else the task of the waker is woken once it is worth another poll.
    ///
    /// A polled lock that gave its guard answers [`MutexError::Finished`] from then on. A polled lock that was refused leaves
    /// no listener, and the next poll begins anew.
    ///
    /// The call allocates what listening allocates, and may wait for the lock of the event.
    pub fn poll(&mut self, waker: Waker) -> Result<Poll<MutexGuard<'a, T, R>>, MutexError> {
        match mem::replace(&mut self.stage, Stage::Idle) {
            Stage::Idle => match self.try_twice(Trying::begin())? {
                Turn::Holds(held) => Ok(Poll::Ready(MutexGuard::new(self.rt, held))),
                Turn::Waits(waiting) => self.register(waiting, waker),
            },
            Stage::Waits(waiting) => self.register(waiting, waker),
            Stage::Parked(parked) => self.register(parked.wakes(), waker),
            Stage::Finished => {
                self.stage = Stage::Finished;
                Err(MutexError::Finished)
            }
        }
    }

    // Registers the client, and tries again if the client was notified.
    fn register(
        &mut self,
        waiting: Waiting<R>,
        waker: Waker,
    ) -> Result<Poll<MutexGuard<'a, T, R>>, MutexError> {
        self.stage = match waiting.register(waker) {
            Registered::Told(trying) => match self.try_twice(trying)? {
                Turn::Holds(held) => return Ok(Poll::Ready(MutexGuard::new(self.rt, held))),
                // The waker was let go when the listener gave its tag, and a waker that is let go wakes its task. So
                // the lock is polled again, and registers then.
                Turn::Waits(waiting) => Stage::Waits(waiting),
            },
            Registered::Stored(parked) => Stage::Parked(parked),
        };
        Ok(Poll::Pending)
    }

    // Tries twice, listening in between. A polled lock that takes the lock has finished.
    fn try_twice(
        &mut self,
        trying: Trying,
    ) -> Result<Turn<'a, sync::MutexGuard<'a, T>, R>, MutexError> {
        let turn = try_twice(self.mutex, self.rt, self.alloc, trying)?;
        if let Turn::Holds(_) = &turn {
            self.stage = Stage::Finished;
        }
        Ok(turn)
    }
}
