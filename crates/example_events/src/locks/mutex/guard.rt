//! The guard of a lock.
use crate::locks::contended::Held;
use std::ops::{Deref, DerefMut};
use std::sync::{self, Wait};

/// The lock, and by it the value. Dropping the guard frees the lock, and then notifies one listener, if no listener is notified
/// yet.
///
/// The guard keeps the runtime value for its drop, which may wait for the lock of the event.
#[must_use = "the lock is free once its guard is dropped"]
pub struct MutexGuard<'a, T, R: Wait> {
    rt: &'a R,
    held: Held<'a, sync::MutexGuard<'a, T>>,
}

impl<'a, T, R: Wait> MutexGuard<'a, T, R> {
    pub(super) fn new(rt: &'a R, held: Held<'a, sync::MutexGuard<'a, T>>) -> Self {
        MutexGuard { rt, held }
    }
}

impl<T, R: Wait> Deref for MutexGuard<'_, T, R> {
    type Target = T;

    fn deref(&self) -> &T {
        &self.held.taken
    }
}

impl<T, R: Wait> DerefMut for MutexGuard<'_, T, R> {
    fn deref_mut(&mut self) -> &mut T {
        &mut self.held.taken
    }
}

impl<T, R: Wait> Drop for MutexGuard<'_, T, R> {
    fn drop(self) {
        let Self { rt, held } = self;
        held.free().notify(rt);
    }
}
