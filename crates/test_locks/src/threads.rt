//! Threads that wait in each way, and are woken once they are let in. That each lock wakes the waiters that it lets in is
//! tested by `tasks`: a thread that is woken differs from a task in nothing else.
use crate::support::{check, new_lock, new_task, wait_until};
use event_locks::RwLock;
use futures::executor::block_on;
use futures::test::MockTask;
use std::sync::Arc;
use std::sync::atomic::{AtomicBool, Ordering};
use std::thread;
use std::time::Duration;
use test_kinds::Waits;
use test_support::{Runtime, is_let_in};

// A way in which a thread waits.
#[derive(Clone, Copy)]
enum Way {
    Blocking,
    Timed,
    LongestTimed,
    Awaited,
}

const WAYS: [Way; 4] = [Way::Blocking, Way::Timed, Way::LongestTimed, Way::Awaited];

// Returns whether the wait is granted to a thread that waits in this way.
fn is_granted<R: Runtime, W: Waits>(rt: &R, waits: W, way: Way) -> bool {
    waits.can_be_polled();
    let limit = match way {
        Way::Blocking => return waits.wait().is_ok(),
        Way::Awaited => return block_on(rt, waits).expect(rt, "an executor").is_ok(),
        Way::Timed => Duration::from_secs(20),
        Way::LongestTimed => Duration::MAX,
    };
    let given = waits.wait_timeout(limit);
    given.expect(rt, "an answer").is_some()
}

// Waits in this way, after the task has polled the wait, if there is a task. Returns whether the wait is granted.
fn waits<R: Runtime, W: Waits>(rt: &R, waits: W, way: Way, task: Option<&MockTask>) -> bool {
    let mut waits = waits;
    if let Some(task) = task {
        waits.can_be_polled();
        let is_pending = task.poll(&mut waits).is_pending();
        check(rt, "whether the task waits", is_pending, true);
        check(rt, "whether it is woken", task.is_woken(), false);
    }
    is_granted(rt, waits, way)
}

// Returns whether the thread is in the queue, as a writer, which keeps readers out. That a thread waits on in the place of a
// task is seen, too: the waker of a task wakes it when it is dropped.
fn is_in_queue<R: Runtime>(rt: &R, lock: &RwLock<u64>, task: Option<&MockTask>) -> bool {
    lock.try_read(rt).is_none() && task.map_or(true, |task| task.is_woken())
}

// Once the thread is seen to be in the queue it is let in, and has to be woken.
#[test]
fn a_thread_that_waits_is_woken(rt: HostRuntime) {
    let (lock, mock) = (new_lock(&rt, 7u64), new_task(&rt));
    for task in [None, Some(&mock)] {
        for way in WAYS {
            let reader = lock.try_read(&rt).expect(&rt, "the value");
            let is_over = AtomicBool::new(false);
            let waits = || {
                let granted = waits(&rt, lock.write(&rt, rt.alloc()), way, task);
                is_over.store(true, Ordering::SeqCst);
                granted
            };
            let lets_in = || {
                wait_until(&rt, || is_in_queue(&rt, &lock, task));
                drop(reader);
                wait_until(&rt, || is_over.load(Ordering::SeqCst));
            };
            let (granted, ()) = thread::join(&rt, waits, lets_in);
            check(&rt, "whether it is granted", granted, true);
        }
    }
}

#[test]
fn a_writer_that_reads_lets_a_thread_in(rt: HostRuntime) {
    let lock = &Arc::new(rt.alloc(), new_lock(&rt, 7u64)).expect(&rt, "memory");
    let writer = RwLock::try_write_arc(lock, rt).expect(&rt, "a share");
    let writer = writer.expect(&rt, "the value");
    let reads = || lock.read(&rt, rt.alloc()).wait().is_ok();
    let granted = is_let_in(&rt, reads, move || writer.downgrade());
    check(&rt, "whether it is granted", granted, true);
}
