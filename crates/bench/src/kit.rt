//! The locks and channels of Rattle's own kit, in the loops of `threads` and `channels`.
use crate::channels::MESSAGE;
use crate::repeat;
use crate::run::{Run, Runtime};
use anyhow::Result;
use crossbeam_channel::{Receiver, Sender, bounded, unbounded};
use std::sync::{Barrier, Mutex, RwLock};

/// Measures the workload that is named after `kit_` on the kit's own lock or channel. The loops of locks have no answer to
/// check but whether a mutex that is tried was free, because the kit's locks take no memory, so waiting for them never
/// fails.
pub fn measure<R: Runtime>(run: &mut Run<'_, R>) -> Result<()> {
    match run.name {
        "kit_mutex_lock" => lock_mutex(run),
        "kit_mutex_try" => try_mutex(run),
        "kit_read" => read(run),
        "kit_write" => write(run),
        "kit_barrier" => meet(run),
        "kit_channel_1" => pass(run, Some(1)),
        "kit_channel_128" => pass(run, Some(128)),
        "kit_channel_unbounded" => pass(run, None),
        _ => pass_alone(run),
    }
}

fn lock_mutex<R: Runtime>(run: &mut Run<'_, R>) -> Result<()> {
    let (rt, n) = (run.rt, run.n);
    let mutex = &Mutex::new(0u64);
    let work = repeat!(as _index => {
        let mut count = mutex.lock(rt);
        *count = count.wrapping_add(1);
        true
    });
    run.together(n, n, &work)
}

fn try_mutex<R: Runtime>(run: &mut Run<'_, R>) -> Result<()> {
    let rounds = run.rounds;
    let mutex = &Mutex::new(0u64);
    let work = repeat!({
        let Some(mut count) = mutex.try_lock() else {
            return false;
        };
        *count = count.wrapping_add(1);
        true
    });
    run.alone(rounds, 1, work)
}

fn read<R: Runtime>(run: &mut Run<'_, R>) -> Result<()> {
    let (rt, n) = (run.rt, run.n);
    let lock = &RwLock::new(0u64);
    let work = repeat!(as _index => {
        drop(lock.read(rt));
        true
    });
    run.together(n, n, &work)
}

fn write<R: Runtime>(run: &mut Run<'_, R>) -> Result<()> {
    let (rt, n) = (run.rt, run.n);
    let lock = &RwLock::new(0u64);
    let work = repeat!(as _index => {
        let mut count = lock.write(rt);
        *count = count.wrapping_add(1);
        true
    });
    run.together(n, n, &work)
}

fn meet<R: Runtime>(run: &mut Run<'_, R>) -> Result<()> {
    let (rt, n) = (run.rt, run.n);
    let barrier = &Barrier::new(n);
    let work = repeat!(as _index => {
        drop(barrier.wait(rt));
        true
    });
    run.together(n, 1, &work)
}

fn channel<R: Runtime>(rt: &R, capacity: Option<usize>) -> Result<(Sender<u64>, Receiver<u64>)> {
    Ok(match capacity {
        Some(capacity) => bounded(rt.alloc(), capacity)?,
        None => unbounded(rt.alloc())?,
    })
}

fn pass<R: Runtime>(run: &mut Run<'_, R>, capacity: Option<usize>) -> Result<()> {
    let (rt, n) = (run.rt, run.n);
    let (sender, receiver) = channel(rt, capacity)?;
    let (sender, receiver) = (&sender, &receiver);
    let work = repeat!(as index => {
        if index % 2 == 0 {
            sender.send(rt, MESSAGE).is_ok()
        } else {
            receiver.recv(rt) == Ok(MESSAGE)
        }
    });
    run.together(n.saturating_mul(2), n, &work)
}

fn pass_alone<R: Runtime>(run: &mut Run<'_, R>) -> Result<()> {
    let rt = run.rt;
    let (sender, receiver) = channel(rt, Some(128))?;
    let (sender, receiver) = (&sender, &receiver);
    let work = repeat!(as _index => {
        sender.try_send(rt, MESSAGE).is_ok() & (receiver.try_recv(rt) == Ok(MESSAGE))
    });
    run.together(1, 1, &work)
}
