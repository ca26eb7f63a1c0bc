//! Permits of a semaphore. One waits for them as for a lock.
use crate::support::{check, new_id};
use example_events::locks::Semaphore;
use std::process::Abort;
use std::sync::atomic::{AtomicUsize, Ordering};
use std::sync::{Barrier, Wait};
use std::thread;
use std::time::Duration;
use test_support::Runtime;

// Waits for a permit, without a limit or with one whose moment can't be represented, and keeps it until both threads have
// ended their wait: so the first permit that is given back can't have told the second.
fn acquires<R: Runtime>(rt: &R, semaphore: &Semaphore, is_timed: bool, both: &Barrier) -> bool {
    let permit = if is_timed {
        let answer = semaphore.acquire_timeout(rt, rt.alloc(), Duration::MAX);
        answer.expect(rt, "an answer")
    } else {
        semaphore.acquire(rt, rt.alloc()).ok()
    };
    both.wait(rt);
    permit.is_some()
}

#[test]
fn all_permits_of_one_go_to_those_who_wait(rt: HostRuntime) {
    let (semaphore, both) = (Semaphore::new(new_id(&rt), 2), Barrier::new(2));
    let mut permit = semaphore.try_acquire(&rt).expect(&rt, "a permit");
    check(&rt, "more", permit.more(), true);
    let wait = |is_timed| acquires(&rt, &semaphore, is_timed, &both);
    let (given, ()) = thread::join(
        &rt,
        || thread::join(&rt, || wait(false), || wait(true)),
        move || {
            thread::sleep(&rt, Duration::from_millis(20));
            drop(permit);
        },
    );
    check(&rt, "whether they are given", given, (true, true));
}

// Tries for a permit, and for one more, many times. No more are out at once than the three that there are.
fn take_turns<R: Abort + Wait>(rt: &R, semaphore: &Semaphore, out: &AtomicUsize) {
    for _ in 0..30_000u32 {
        let Some(mut permit) = semaphore.try_acquire(rt) else {
            continue;
        };
        permit.more();
        let held = permit.held();
        let before = out.fetch_add(held, Ordering::SeqCst);
        let too_many = before.saturating_add(held) > 3;
        check(rt, "whether too many are out", too_many, false);
        out.fetch_sub(held, Ordering::SeqCst);
    }
}

#[test]
fn no_more_permits_are_out_than_there_are(rt: HostRuntime) {
    let (semaphore, out) = (Semaphore::new(new_id(&rt), 3), AtomicUsize::new(0));
    let turns = |_| take_turns(&rt, &semaphore, &out);
    let ended = thread::map_indices(&rt, rt.alloc(), 4, &turns);
    check(&rt, "whether all took turns", ended.is_ok(), true);
    let mut all = semaphore.try_acquire(&rt).expect(&rt, "a permit");
    let more = [all.more(), all.more(), all.more()];
    check(&rt, "free at the end", more, [true, true, false]);
}
