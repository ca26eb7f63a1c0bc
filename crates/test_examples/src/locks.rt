//! Locks: those that are polled by hand, and what their tests share. `races` has threads that block.
mod clients;
mod limits;
mod permits;

use crate::support::{check, is_woken, new_id, new_task};
use example_events::locks::{Mutex, MutexError, MutexGuard, PolledLock};
use futures::task::Poll;
use futures::test::MockTask;
use std::process::Abort;
use std::sync::{self, Wait};
use std::time::{Clock, Duration};
use test_support::{Changed, Runtime, waker_of};

// A free lock round the value 7.
fn new_mutex<R: Abort>(rt: &R) -> Mutex<u64> {
    Mutex::new(new_id(rt), 7)
}

// The lock, which is free.
fn hold<'a, R: Abort + Wait>(rt: &'a R, mutex: &'a Mutex<u64>) -> MutexGuard<'a, u64, R> {
    mutex.try_lock(rt).expect(rt, "the lock")
}

// A lock that a task polls.
#[derive(Drop)]
struct Polled<'a, R: Wait + Clock + Clone> {
    task: MockTask,
    lock: PolledLock<'a, u64, R>,
}

impl<'a, R: Runtime> Polled<'a, R> {
    // The lock is held, and the task waits for it.
    fn new(rt: &'a R, mutex: &'a Mutex<u64>) -> Self {
        let mut polled = Polled {
            task: new_task(rt),
            lock: mutex.polled_lock(rt, rt.alloc()),
        };
        polled.waits(rt);
        polled
    }

    fn poll(&mut self, rt: &R) -> Result<Poll<MutexGuard<'a, u64, R>>, MutexError> {
        self.lock.poll(waker_of(&self.task).expect(rt, "a waker"))
    }

    // It polls in vain.
    fn waits(&mut self, rt: &R) {
        let is_pending = matches!(self.poll(rt), Ok(Poll::Pending));
        check(rt, "whether the poll is pending", is_pending, true);
    }

    // It polls, and is given the lock.
    fn is_given(&mut self, rt: &R) -> MutexGuard<'a, u64, R> {
        match self.poll(rt) {
            Ok(Poll::Ready(guard)) => guard,
            _ => panic!(rt; "the poll gives no lock"),
        }
    }
}

// The task of the last poll is the task that is woken.
#[test]
fn pending_while_it_is_held_and_ready_once_it_is_free(rt: HostRuntime) {
    let (rt, mutex) = (&rt, &new_mutex(&rt));
    let held = hold(rt, mutex);
    let mut polled = Polled::new(rt, mutex);
    polled.task = new_task(rt);
    polled.waits(rt);
    is_woken(rt, &polled.task, false);
    drop(held);
    is_woken(rt, &polled.task, true);
    let guard = polled.is_given(rt);
    check(rt, "the value", *guard, 7);
    check(rt, "held", mutex.try_lock(rt).is_none(), true);
    drop(guard);
    let again = polled.poll(rt).err();
    check(rt, "another poll", again, Some(MutexError::Finished));
}

// A notified client may find the lock taken again. The poll then has no waker left, so its task must be woken.
#[test]
fn a_told_lock_that_comes_too_late_is_polled_again(rt: HostRuntime) {
    let (rt, mutex) = (&rt, &new_mutex(&rt));
    let held = hold(rt, mutex);
    let mut polled = Polled::new(rt, mutex);
    drop(held);
    let faster = hold(rt, mutex);
    polled.waits(rt);
    is_woken(rt, &polled.task, true);
    polled.waits(rt);
    is_woken(rt, &polled.task, false);
    drop(faster);
    is_woken(rt, &polled.task, true);
    drop(polled.is_given(rt));
}

// The notification of a guard counts a listener that is notified already, so a second guard wakes nobody.
#[test]
fn a_told_lock_that_is_dropped_passes_its_turn_on(rt: HostRuntime) {
    let (rt, mutex) = (&rt, &new_mutex(&rt));
    let held = hold(rt, mutex);
    let gives_up = Polled::new(rt, mutex);
    let mut stays = Polled::new(rt, mutex);
    drop(held);
    is_woken(rt, &gives_up.task, true);
    is_woken(rt, &stays.task, false);
    drop(hold(rt, mutex));
    is_woken(rt, &stays.task, false);
    drop(gives_up);
    is_woken(rt, &stays.task, true);
    drop(stays.is_given(rt));
}

// A thread waits without a limit that comes. Were there no second try, the call would never return: the first finds the lock
// held, and nobody is told that it is freed.
#[test]
fn the_second_try_takes_a_lock_that_was_freed_meanwhile(rt: HostRuntime) {
    let (rt, mutex) = (&rt, &new_mutex(&rt));
    let held = sync::Mutex::new(Some(hold(rt, mutex)));
    let frees = Changed { rt, by: &held };
    let given = mutex.lock_timeout(&frees, rt.alloc(), Duration::MAX);
    let guard = given.expect(rt, "an answer").expect(rt, "the lock");
    check(rt, "held", mutex.try_lock(rt).is_none(), true);

    // Its listener is gone: the next client that listens is the first to be notified.
    let polled = Polled::new(rt, mutex);
    drop(guard);
    is_woken(rt, &polled.task, true);
}
