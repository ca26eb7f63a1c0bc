//! What threads do together: they take locks and give them back, meet, and wait for each other.
use crate::repeat;
use crate::run::{Run, Runtime};
use anyhow::Result;
use event_listener::{Event, EventIds, Listener};
use event_locks::{Barrier, Mutex, RwLock, Semaphore};
use std::sync::Arc;
use std::sync::atomic::{AtomicU64, Ordering};

pub fn lock_mutex<R: Runtime>(run: &mut Run<'_, R>) -> Result<()> {
    let (rt, alloc, n) = (run.rt, run.rt.alloc(), run.n);
    let mutex = &Mutex::new(alloc, 0u64);
    let work = repeat!(as _index => {
        let Ok(mut count) = mutex.lock(rt, alloc).wait() else {
            return false;
        };
        *count = count.wrapping_add(1);
        true
    });
    run.together(n, n, &work)
}

// A count with more beside it.
#[derive(Drop)]
struct Padded<P> {
    count: u64,
    padding: P,
}

/// Threads take a mutex whose value is larger than a count by this padding.
pub fn lock_padded<R: Runtime, P: Drop + Send>(run: &mut Run<'_, R>, padding: P) -> Result<()> {
    let (rt, alloc, n) = (run.rt, run.rt.alloc(), run.n);
    let mutex = &Mutex::new(alloc, Padded { count: 0, padding });
    let work = repeat!(as _index => {
        let Ok(mut padded) = mutex.lock(rt, alloc).wait() else {
            return false;
        };
        padded.count = padded.count.wrapping_add(1);
        true
    });
    run.together(n, n, &work)
}

/// One thread takes a free mutex by guards that share it.
pub fn lock_arc<R: Runtime + Drop>(run: &mut Run<'_, R>) -> Result<()> {
    let (rt, rounds) = (run.rt, run.rounds);
    let mutex = &Arc::new(rt.alloc(), Mutex::new(rt.alloc(), 0u64))?;
    let work = repeat!({
        let Ok(rt) = rt.clone() else {
            return false;
        };
        let Ok(Some(mut count)) = Mutex::try_lock_arc(mutex, rt) else {
            return false;
        };
        *count = count.wrapping_add(1);
        true
    });
    run.alone(rounds, 1, work)
}

/// One thread takes a free mutex that it tries.
pub fn try_mutex<R: Runtime>(run: &mut Run<'_, R>) -> Result<()> {
    let (rt, rounds) = (run.rt, run.rounds);
    let mutex = &Mutex::new(rt.alloc(), 0u64);
    let work = repeat!({
        let Some(mut count) = mutex.try_lock(rt) else {
            return false;
        };
        *count = count.wrapping_add(1);
        true
    });
    run.alone(rounds, 1, work)
}

pub fn acquire<R: Runtime>(run: &mut Run<'_, R>, permits: usize) -> Result<()> {
    let (rt, alloc, n) = (run.rt, run.rt.alloc(), run.n);
    let semaphore = &Semaphore::new(alloc, permits);
    let work = repeat!(as _index => semaphore.acquire(rt, alloc).wait().is_ok());
    run.together(n, n, &work)
}

pub fn read<R: Runtime>(run: &mut Run<'_, R>) -> Result<()> {
    let (rt, alloc, n) = (run.rt, run.rt.alloc(), run.n);
    let lock = &RwLock::new(alloc, 0u64);
    let work = repeat!(as _index => lock.read(rt, alloc).wait().is_ok());
    run.together(n, n, &work)
}

pub fn write<R: Runtime>(run: &mut Run<'_, R>) -> Result<()> {
    let (rt, alloc, n) = (run.rt, run.rt.alloc(), run.n);
    let lock = &RwLock::new(alloc, 0u64);
    let work = repeat!(as _index => {
        let Ok(mut count) = lock.write(rt, alloc).wait() else {
            return false;
        };
        *count = count.wrapping_add(1);
        true
    });
    run.together(n, n, &work)
}

/// One thread reads in a free lock, by a guard that has a share of the lock.
pub fn read_arc<R: Runtime + Drop>(run: &mut Run<'_, R>) -> Result<()> {
    let (rt, rounds) = (run.rt, run.rounds);
    let lock = &Arc::new(rt.alloc(), RwLock::new(rt.alloc(), 0u64))?;
    let work = repeat!({
        let Ok(rt) = rt.clone() else {
            return false;
        };
        let Ok(guard) = RwLock::try_read_arc(lock, rt) else {
            return false;
        };
        guard.is_some()
    });
    run.alone(rounds, 1, work)
}

/// One thread writes in a free lock, by a guard that has a share of the lock.
pub fn write_arc<R: Runtime + Drop>(run: &mut Run<'_, R>) -> Result<()> {
    let (rt, rounds) = (run.rt, run.rounds);
    let lock = &Arc::new(rt.alloc(), RwLock::new(rt.alloc(), 0u64))?;
    let work = repeat!({
        let Ok(rt) = rt.clone() else {
            return false;
        };
        let Ok(Some(mut count)) = RwLock::try_write_arc(lock, rt) else {
            return false;
        };
        *count = count.wrapping_add(1);
        true
    });
    run.alone(rounds, 1, work)
}

pub fn meet<R: Runtime>(run: &mut Run<'_, R>) -> Result<()> {
    let (rt, alloc, n) = (run.rt, run.rt.alloc(), run.n);
    let barrier = &Barrier::new(alloc, n);
    let work = repeat!(as _index => barrier.wait(rt, alloc).wait().is_ok());
    run.together(n, 1, &work)
}

/// Two threads wait for each other in turn, by semaphores. An operation is a round trip, as below.
pub fn hand_over<R: Runtime>(run: &mut Run<'_, R>) -> Result<()> {
    let (rt, alloc) = (run.rt, run.rt.alloc());
    let (here, there) = (&Semaphore::new(alloc, 0), &Semaphore::new(alloc, 0));
    let work = repeat!(as index => {
        let (mine, other) = if index == 0 {
            (here, there)
        } else {
            (there, here)
        };
        if index == 0 {
            other.add_permits(rt, 1);
        }
        let Ok(permit) = mine.acquire(rt, alloc).wait() else {
            return false;
        };
        permit.forget();
        if index != 0 {
            other.add_permits(rt, 1);
        }
        true
    });
    run.together(2, 1, &work)
}

/// The same, by events: even turns are the first thread's.
pub fn ping_pong<R: Runtime>(run: &mut Run<'_, R>) -> Result<()> {
    let rt = run.rt;
    let mut ids = EventIds::new();
    let ping = &Event::new(ids.next()?);
    let pong = &Event::new(ids.next()?);
    let turn = &AtomicU64::new(0);
    let work = repeat!(as index => {
        if index == 0 {
            end_turn(rt, turn, ping);
            wait_for_turn(rt, pong, turn, 0);
        } else {
            wait_for_turn(rt, ping, turn, 1);
            end_turn(rt, turn, pong);
        }
        true
    });
    run.together(2, 1, &work)
}

fn end_turn<R: Runtime>(rt: &R, turn: &AtomicU64, event: &Event<()>) {
    turn.fetch_add(1, Ordering::SeqCst);
    event.notify_relaxed(rt, 1);
}

// Where memory is refused, it tries again: the other thread can't go on alone.
fn wait_for_turn<R: Runtime>(rt: &R, event: &Event<()>, turn: &AtomicU64, index: u64) {
    for _ in rt.forever() {
        if turn.load(Ordering::SeqCst) % 2 == index {
            return;
        }
        if let Ok(listener) = event.listen(rt, rt.alloc()) {
            if turn.load(Ordering::SeqCst) % 2 == index {
                return;
            }
            let _ = listener.wait();
        }
    }
}
