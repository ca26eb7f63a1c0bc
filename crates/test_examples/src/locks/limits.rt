//! Locks and permits that are waited for until a limit, by the system's clock.
use super::{Polled, hold, new_mutex};
use crate::support::{Host, check, is_woken, new_id};
use example_events::locks::{Mutex, Semaphore};
use std::sync::atomic::{AtomicBool, Ordering};
use std::thread;
use std::time::{Duration, Instant};
use test_support::Runtime;

fn limit() -> Duration {
    Duration::from_millis(10)
}

// Whether the lock is given within the limit. It is free again then.
fn is_locked<R: Runtime>(rt: &R, mutex: &Mutex<u64>) -> bool {
    let answer = mutex.lock_timeout(rt, rt.alloc(), limit());
    answer.expect(rt, "an answer").is_some()
}

// Whether a permit is given within the limit. It is free again then.
fn is_acquired<R: Runtime>(rt: &R, semaphore: &Semaphore) -> bool {
    let answer = semaphore.acquire_timeout(rt, rt.alloc(), limit());
    answer.expect(rt, "an answer").is_some()
}

// Nothing is given while it is held, and none is refused before the limit.
fn gives_up<F, R>(rt: &R, is_given: F, is_over: &AtomicBool)
where
    F: FnOnce() -> bool,
    R: Host,
    requires { F.pre is_given }
{
    let began = Instant::now(rt).expect(rt, "the time");
    let given = is_given();
    let took = began.elapsed(rt).expect(rt, "the time");
    is_over.store(true, Ordering::SeqCst);
    check(rt, "whether it is given while held", given, false);
    check(rt, "whether the limit has passed", took >= limit(), true);
}

// Holds the lock or permit until the other thread has given up. A thread that waits on is given it after twenty seconds, and so
// fails.
fn hold_on<G: Drop, R: Host>(rt: &R, held: G, is_over: &AtomicBool) {
    for _ in 0..20_000u32 {
        if is_over.load(Ordering::SeqCst) {
            break;
        }
        thread::sleep(rt, Duration::from_millis(1));
    }
    drop(held);
}

#[test]
fn a_timed_lock_gives_up_at_its_deadline(rt: HostRuntime) {
    let (rt, mutex) = (&rt, &new_mutex(&rt));
    let (held, is_over) = (hold(rt, mutex), &AtomicBool::new(false));
    thread::join(
        rt,
        || gives_up(rt, || is_locked(rt, mutex), is_over),
        move || hold_on(rt, held, is_over),
    );
    check(rt, "once it is free", is_locked(rt, mutex), true);

    // No listener is left: the next client that listens is the first to be notified.
    let held = hold(rt, mutex);
    let polled = Polled::new(rt, mutex);
    drop(held);
    is_woken(rt, &polled.task, true);
}

#[test]
fn a_timed_acquire_gives_up_at_its_deadline(rt: HostRuntime) {
    let semaphore = Semaphore::new(new_id(&rt), 1);
    let is_over = &AtomicBool::new(false);
    let held = semaphore.try_acquire(&rt).expect(&rt, "a permit");
    thread::join(
        &rt,
        || gives_up(&rt, || is_acquired(&rt, &semaphore), is_over),
        move || hold_on(&rt, held, is_over),
    );
    check(&rt, "once one is free", is_acquired(&rt, &semaphore), true);
}
