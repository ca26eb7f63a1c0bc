//! Races of two threads: one gives the lock back while the other joins the queue, at each moment of its way there.
use crate::support::{check, new_lock, new_mutex, new_semaphore, new_task, wait_until};
use event_wait::pause;
use futures::test::MockTask;
use std::sync::atomic::{AtomicBool, AtomicU32, Ordering};
use std::thread;
use std::time::{Duration, Instant};
use test_kinds::{Kind, Of, Read, Waits, Write};
use test_support::Runtime;

// The last round that one thread has opened, the last round in which the other thread was granted the lock, and whether the
// other thread had to wait.
#[derive(Drop)]
struct Rounds {
    opened: AtomicU32,
    granted: AtomicU32,
    has_waited: AtomicBool,
}

// No more rounds are opened.
const OVER: u32 = u32::MAX;

// More pauses than a thread makes before it joins the queue.
const PAUSES: u32 = 1024;

// Waits once in each round: in every eighth round as a thread, and else as a task.
fn waits<R: Runtime, K: Kind>(rt: &R, kind: &K, rounds: &Rounds) {
    let task = new_task(rt);
    for round in 1..OVER {
        wait_until(rt, || rounds.opened.load(Ordering::SeqCst) >= round);
        if rounds.opened.load(Ordering::SeqCst) == OVER {
            return;
        }
        let waits = kind.waits().expect(rt, "a share");
        if round % 8 == 0 {
            check(rt, "whether it is granted", waits.wait().is_ok(), true);
        } else {
            let has_waited = polls(rt, waits, &task);
            rounds.has_waited.store(has_waited, Ordering::SeqCst);
        }
        rounds.granted.store(round, Ordering::SeqCst);
    }
}

// Polls as a task until the wait is granted. Returns whether the task had to wait.
fn polls<R: Runtime, W: Waits>(rt: &R, waits: W, task: &MockTask) -> bool {
    let mut waits = waits;
    waits.can_be_polled();
    if task.poll(&mut waits).is_ready() {
        return false;
    }
    wait_until(rt, || task.is_woken());
    let is_granted = task.poll(&mut waits).is_ready();
    check(rt, "whether it is granted", is_granted, true);
    true
}

// Takes and gives back the lock in each round. A task gets it a little earlier than in the last round, if the task had to wait
// there, and else a little later, so that both threads act at about the same moment. The step doubles as long as the answer
// stays the same, and else falls to a quarter.
fn gives_back<R: Runtime, K: Kind>(rt: &R, kind: &K, rounds: &Rounds) {
    let began = Instant::now(rt).expect(rt, "the time");
    let (mut pauses, mut step, mut had_waited) = (0u32, 1u32, false);
    for round in 1..OVER {
        let held = kind.hold();
        rounds.opened.store(round, Ordering::SeqCst);
        pause(if round % 8 == 0 {
            round % PAUSES
        } else {
            pauses
        });
        drop(held);
        wait_until(rt, || rounds.granted.load(Ordering::SeqCst) == round);
        let has_waited = rounds.has_waited.load(Ordering::SeqCst);
        step = if has_waited == had_waited {
            step.saturating_mul(2).min(PAUSES)
        } else {
            (step / 4).max(1)
        };
        pauses = if has_waited {
            pauses.saturating_sub(step)
        } else {
            pauses.saturating_add(step)
        };
        had_waited = has_waited;
        if began.elapsed(rt).expect(rt, "the time") > Duration::from_millis(500) {
            break;
        }
    }
    rounds.opened.store(OVER, Ordering::SeqCst);
}

// Both threads race for a lock. What a thread is sent has to be of a known type, so this is no function.
macro_rules! race {
    ($rt:expr, $kind:expr) => {{
        let kind = $kind;
        let rounds = Rounds {
            opened: AtomicU32::new(0),
            granted: AtomicU32::new(0),
            has_waited: AtomicBool::new(false),
        };
        thread::join(
            $rt,
            || waits($rt, &kind, &rounds),
            || gives_back($rt, &kind, &rounds),
        );
    }};
}

#[test]
fn a_permit_comes_back_while_one_goes_into_the_queue(rt: HostRuntime) {
    let semaphore = new_semaphore(&rt, 1);
    race!(&rt, Of::<_, _, ()>::new(&semaphore, &rt, rt.alloc()));
}

#[test]
fn a_value_comes_back_while_one_goes_into_the_queue(rt: HostRuntime) {
    let mutex = new_mutex(&rt, 7u64);
    race!(&rt, Of::<_, _, ()>::new(&mutex, &rt, rt.alloc()));
}

#[test]
fn a_writer_goes_while_a_reader_goes_into_the_queue(rt: HostRuntime) {
    let lock = new_lock(&rt, 7u64);
    race!(&rt, Of::<_, _, Read>::new(&lock, &rt, rt.alloc()));
}

#[test]
fn a_reader_goes_while_a_writer_goes_into_the_queue(rt: HostRuntime) {
    let lock = new_lock(&rt, 7u64);
    race!(&rt, Of::<_, _, Write>::new(&lock, &rt, rt.alloc()));
}
