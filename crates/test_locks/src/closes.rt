//! A semaphore that closes ends each kind of wait, of tasks and of threads, and gives no permit any more.
use crate::support::{check, new_semaphore};
use crate::tasks::Polled;
use event_locks::{AcquireError, Semaphore, TryAcquireError};
use futures::task::Poll;
use std::sync::Arc;
use std::thread;
use std::time::Duration;
use test_kinds::{Waits, numbers};
use test_support::{Runtime, deadline_after};

const CLOSED: Option<AcquireError> = Some(AcquireError::Closed);

// Returns the error by which this poll ends the wait, if it does.
fn refused<W: Waits<Refusal = AcquireError>>(polled: &mut Polled<W>) -> Option<AcquireError> {
    match polled.poll() {
        Poll::Ready(answer) => answer.err(),
        Poll::Pending => None,
    }
}

// One task is notified, and two wait. A thread goes on in the place of the third task, at its limit.
#[test]
fn tasks_that_wait_are_woken_by_a_close(rt: HostRuntime) {
    let semaphore = new_semaphore(&rt, 0);
    let mut notified = Polled::new(&rt, semaphore.acquire(&rt, rt.alloc()));
    let mut first = Polled::new(&rt, semaphore.acquire(&rt, rt.alloc()));
    let second = Polled::new(&rt, semaphore.acquire(&rt, rt.alloc()));
    semaphore.add_permits(&rt, 1);
    let woken = [notified.is_woken(), first.is_woken(), second.is_woken()];
    check(&rt, "who is woken", woken, [true, false, false]);
    semaphore.close(&rt);
    let woken = [notified.is_woken(), first.is_woken(), second.is_woken()];
    check(&rt, "who is woken", woken, [true; 3]);
    check(&rt, "one that was notified", refused(&mut notified), CLOSED);
    check(&rt, "one that waited", refused(&mut first), CLOSED);
    let late = second.into_waits().wait_timeout(Duration::ZERO).err();
    check(&rt, "one that is late", late, CLOSED);
    check(&rt, "whether it is over", first.is_over(), true);
    let counts = numbers(semaphore.counts(&rt));
    check(&rt, "free, and nobody waits", counts, [1, 0, 0, 0]);
}

// A waiter lost twice, and newcomers are shut out for it: no newcomer takes many permits, or forgets some.
#[test]
fn one_that_starves_is_served_until_a_close(rt: HostRuntime) {
    let semaphore = new_semaphore(&rt, 2);
    let mut held = semaphore.try_acquire_many(&rt, 2);
    let mut one = Polled::new(&rt, semaphore.acquire(&rt, rt.alloc()));
    for _ in 0..2u32 {
        drop(held);
        held = semaphore.try_acquire_many(&rt, 2);
        one.waits_on(&rt);
    }
    drop(held);
    let counts = numbers(semaphore.counts(&rt));
    check(&rt, "shut", counts, [2, 1, 0, 1]);
    let many = semaphore.try_acquire_many(&rt, 1).err();
    check(&rt, "many", many, Some(TryAcquireError::NoPermits));
    check(&rt, "forgotten", semaphore.forget_permits(1), 0);
    semaphore.close(&rt);
    check(&rt, "one that starved", refused(&mut one), CLOSED);
    let counts = semaphore.counts(&rt);
    check(&rt, "shut", counts.is_shut, false);
    check(&rt, "nobody waits", numbers(counts), [2, 0, 0, 0]);
}

// The number of ways in which a thread waits.
const WAYS: u32 = 4;

// Waits in this way, and returns why the thread has no permit, if it has none.
fn waits<R: Runtime>(rt: &R, semaphore: &Semaphore, way: u32) -> Option<AcquireError> {
    let acquire = semaphore.acquire(rt, rt.alloc());
    let long = Duration::from_secs(20);
    match way {
        0 => acquire.wait().err(),
        1 => acquire.wait_timeout(long).err(),
        2 => acquire.wait_timeout(Duration::MAX).err(),
        _ => {
            let moment = deadline_after(rt, long).expect(rt, "a moment");
            acquire.wait_deadline(moment).err()
        }
    }
}

// Closes the semaphore once a thread waits.
fn closes<R: Runtime>(rt: &R, semaphore: &Semaphore) {
    for _ in rt.forever() {
        if semaphore.counts(rt).waiting > 0 {
            return semaphore.close(rt);
        }
        thread::yield_now();
    }
}

#[test]
fn a_thread_that_waits_is_woken_by_a_close(rt: HostRuntime) {
    for way in 0..WAYS {
        let semaphore = &new_semaphore(&rt, 0);
        let waits = || waits(&rt, semaphore, way);
        let closes = || closes(&rt, semaphore);
        let (refused, ()) = thread::join(&rt, waits, closes);
        check(&rt, "why it has no permit", refused, CLOSED);
    }
}

#[test]
fn an_owned_wait_is_woken_by_a_close(rt: HostRuntime) {
    let semaphore = &Arc::new(rt.alloc(), new_semaphore(&rt, 0)).expect(&rt, "memory");
    let waits = || {
        let acquire = Semaphore::acquire_arc(semaphore, rt, rt.alloc());
        acquire.expect(&rt, "a share").wait().err()
    };
    let closes = || closes(&rt, semaphore);
    let (refused, ()) = thread::join(&rt, waits, closes);
    check(&rt, "why it has no permit", refused, CLOSED);
    check(&rt, "shares", Arc::strong_count(semaphore), 1);
}
