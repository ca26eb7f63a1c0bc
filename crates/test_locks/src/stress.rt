//! Threads and tasks that wait at once, and give up at times.
use crate::support::{check, new_lock, new_mutex, new_semaphore, new_task, sum};
use event_locks::{Mutex, OnceCell, RwLock, Semaphore};
use futures::executor::block_on;
use std::alloc::Global;
use std::sync::Arc;
use std::thread;
use std::time::{Duration, Instant};
use test_kinds::{Waits, numbers};
use test_support::Runtime;

// Returns what is granted to a waiter in this way, or `None` if the waiter gave up.
fn in_some_way<R: Runtime, W: Waits>(rt: &R, way: usize, waits: W) -> Option<W::Granted> {
    let mut waits = waits;
    waits.can_be_polled();
    match way % 4 {
        0 => Some(waits.wait().expect(rt, "a grant")),
        1 => {
            let given = block_on(rt, waits).expect(rt, "an executor");
            Some(given.expect(rt, "a grant"))
        }
        2 => waits
            .wait_timeout(Duration::from_micros(1))
            .expect(rt, "an answer"),
        _ => {
            drop(new_task(rt).poll(&mut waits));
            None
        }
    }
}

#[derive(Drop)]
struct Locks {
    semaphore: Arc<Semaphore, Global>,
    mutex: Arc<Mutex<usize>, Global>,
    shared: Arc<RwLock<usize>, Global>,
    cell: OnceCell<usize>,
}

// Each lock has functions of its own: a function that names several locks needs much memory to prove.
fn shared<L: Drop, R: Runtime>(rt: &R, lock: L) -> Arc<L, Global> {
    Arc::new(rt.alloc(), lock).expect(rt, "memory")
}

fn new_locks<R: Runtime>(rt: &R) -> Locks {
    Locks {
        semaphore: shared(rt, new_semaphore(rt, 3)),
        mutex: shared(rt, new_mutex(rt, 0)),
        shared: shared(rt, new_lock(rt, 0)),
        cell: OnceCell::new(rt.alloc()),
    }
}

// Counts at the mutex. Returns how often.
fn count_at_mutex<R: Runtime>(rt: &R, mutex: &Mutex<usize>, way: usize) -> usize {
    let Some(mut count) = in_some_way(rt, way, mutex.lock(rt, rt.alloc())) else {
        return 0;
    };
    *count = count.saturating_add(1);
    1
}

// Reads, and counts as a writer. Returns how often.
fn read_and_write<R: Runtime>(rt: &R, shared: &RwLock<usize>, way: usize) -> usize {
    drop(in_some_way(rt, way, shared.read(rt, rt.alloc())));
    let Some(mut count) = in_some_way(rt, way, shared.write(rt, rt.alloc())) else {
        return 0;
    };
    *count = count.saturating_add(1);
    1
}

// Gives up the turn to make a value, and counts at the mutex and at the read-write lock in one round, with a permit if it
// was given one. Returns how often.
fn borrows<R: Runtime>(rt: &R, all: &Locks, way: usize) -> usize {
    drop(in_some_way(rt, way, all.cell.claim(rt, rt.alloc())));
    let _permit = in_some_way(rt, way, all.semaphore.acquire(rt, rt.alloc()));
    let locked = count_at_mutex(rt, &all.mutex, way);
    locked.saturating_add(read_and_write(rt, &all.shared, way))
}

// Counts at the mutex by a guard that shares it. Returns how often.
fn count_at_shared_mutex<R: Runtime + Copy>(
    rt: &R,
    mutex: &Arc<Mutex<usize>, Global>,
    way: usize,
) -> usize {
    let lock = Mutex::lock_arc(mutex, *rt, rt.alloc()).expect(rt, "a share");
    let Some(mut count) = in_some_way(rt, way, lock) else {
        return 0;
    };
    *count = count.saturating_add(1);
    1
}

// Reads, and counts as a writer, by guards that share the lock. Returns how often.
fn read_and_write_shared<R: Runtime + Copy>(
    rt: &R,
    shared: &Arc<RwLock<usize>, Global>,
    way: usize,
) -> usize {
    let read = RwLock::read_arc(shared, *rt, rt.alloc()).expect(rt, "a share");
    drop(in_some_way(rt, way, read));
    let write = RwLock::write_arc(shared, *rt, rt.alloc()).expect(rt, "a share");
    let Some(mut count) = in_some_way(rt, way, write) else {
        return 0;
    };
    *count = count.saturating_add(1);
    1
}

// Counts at both by guards that share them, with a permit that shares its semaphore if it was given one. Returns how often.
fn shares<R: Runtime + Copy>(rt: &R, all: &Locks, way: usize) -> usize {
    let acquire = Semaphore::acquire_arc(&all.semaphore, *rt, rt.alloc());
    let _permit = in_some_way(rt, way, acquire.expect(rt, "a share"));
    let locked = count_at_shared_mutex(rt, &all.mutex, way);
    locked.saturating_add(read_and_write_shared(rt, &all.shared, way))
}

// A thousand rounds, or ten seconds. Returns how often they count.
fn rounds<R: Runtime + Copy>(rt: &R, all: &Locks, thread: usize) -> usize {
    let began = Instant::now(rt).expect(rt, "the time");
    let mut counts = 0usize;
    for way in thread..thread.saturating_add(1000) {
        let counted = match (way / 4) % 2 {
            0 => borrows(rt, all, way),
            _ => shares(rt, all, way),
        };
        counts = counts.saturating_add(counted);
        if began.elapsed(rt).expect(rt, "the time") > Duration::from_secs(10) {
            break;
        }
    }
    counts
}

// Nobody has a lock any more, and nobody waits. Returns what was counted.
fn are_free<R: Runtime>(rt: &R, all: &Locks) -> usize {
    let permits = numbers(all.semaphore.counts(rt));
    check(rt, "the semaphore", permits, [3, 0, 0, 0]);
    let values = numbers(all.mutex.counts(rt));
    check(rt, "the mutex", values, [1, 0, 0, 0]);
    let count = *all.mutex.try_lock(rt).expect(rt, "the mutex");
    let written = *all.shared.try_write(rt).expect(rt, "the lock");
    count.saturating_add(written)
}

#[test]
fn nothing_is_lost_among_threads_and_tasks_that_give_up(rt: HostRuntime) {
    let all = new_locks(&rt);
    let work = |thread| rounds(&rt, &all, thread);
    let counted = sum(&rt, thread::map_indices(&rt, rt.alloc(), 8, &work));
    check(&rt, "the counts", are_free(&rt, &all), counted);
    let made = all.cell.set(&rt, rt.alloc(), 7).copied();
    check(&rt, "made", made, Ok(7));
}
