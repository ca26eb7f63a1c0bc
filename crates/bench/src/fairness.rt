//! How a mutex is shared by threads that hold it for a while, and by one that comes seldom.
use crate::run::{Measured, OtherAnswer, Run, Runtime};
use anyhow::Result;
use event_locks::Mutex;
use std::hint::spin_loop;
use std::thread;
use std::time::{Duration, Instant};

// How many microseconds a thread holds the mutex.
const HOLDS: u64 = 20;

// How many microseconds a thread stays away that comes seldom.
const AWAY: u64 = 1_000;

/// How often a thread had the mutex, and its longest wait for it.
#[derive(Clone, Copy, Default)]
struct Share {
    locks: u64,
    longest: Duration,
}

/// The longest wait of a thread; the smallest share, in hundredths of what each has where all have the same; or how often
/// one thread has the mutex that comes every millisecond, beside others that hold it again and again.
pub fn measure<R: Runtime>(run: &Run<'_, R>) -> Result<Measured> {
    let (mut seldom, mut least, mut all) = (None, u64::MAX, 0u64);
    let mut most = Duration::ZERO;
    for share in shares(run)? {
        let Share { locks, longest } = share?;
        seldom = seldom.or(Some(locks));
        least = least.min(locks);
        all = all.wrapping_add(locks);
        most = most.max(longest);
    }
    let (tenths, unit) = match run.name {
        "longest_wait" => (most.as_nanos() / 100, "us at most"),
        "smallest_share" => (of_fair(least, all, run.n), "percent"),
        _ => (u128::from(seldom.unwrap_or(0)).saturating_mul(10), "locks"),
    };
    Ok(Measured {
        done: run.rounds,
        of: "milliseconds",
        tenths,
        unit,
    })
}

// In tenths of a hundredth of what each of so many has where all have the same.
fn of_fair(least: u64, all: u64, n: usize) -> u128 {
    u128::from(least).saturating_mul((n as u128).saturating_mul(1000)) / u128::from(all.max(1))
}

// What each thread has of a mutex that all hold again and again, a millisecond for each round. The first may come seldom,
// and lets it go at once.
fn shares<R: Runtime>(run: &Run<'_, R>) -> Result<Vec<Result<Share>>> {
    let (rt, alloc) = (run.rt, run.rt.alloc());
    let mutex = &Mutex::new(alloc, 0u64);
    let Some(ends) = Instant::now(rt)?.checked_add(Duration::from_millis(run.rounds)) else {
        return Err(OtherAnswer.into());
    };
    let comes_seldom = run.name == "seldom";
    let (holds, away) = (Duration::from_micros(HOLDS), Duration::from_micros(AWAY));
    let shares = thread::map_indices(
        rt,
        alloc,
        run.n,
        &|index| {
            if comes_seldom && index == 0 {
                hammer(rt, mutex, ends, Duration::ZERO, away)
            } else {
                hammer(rt, mutex, ends, holds, Duration::ZERO)
            }
        },
    )?;
    Ok(shares)
}

// A thread has the mutex again and again, for so long each time, and stays away for so long in between.
fn hammer<R: Runtime>(
    rt: &R,
    mutex: &Mutex<u64>,
    ends: Instant,
    holds: Duration,
    away: Duration,
) -> Result<Share> {
    let mut share = Share::default();
    for _ in rt.forever() {
        let asked = Instant::now(rt)?;
        if asked >= ends {
            break;
        }
        let had = hold(rt, mutex, holds)?;
        share.locks = share.locks.wrapping_add(1);
        share.longest = share.longest.max(had.saturating_duration_since(asked));
        if !away.is_zero() {
            thread::sleep(rt, away);
        }
    }
    Ok(share)
}

// Has the mutex for so long, and answers since when.
fn hold<R: Runtime>(rt: &R, mutex: &Mutex<u64>, holds: Duration) -> Result<Instant> {
    let mut count = mutex.lock(rt, rt.alloc()).wait()?;
    *count = count.wrapping_add(1);
    let had = Instant::now(rt)?;
    for _ in rt.forever() {
        if had.elapsed(rt)? >= holds {
            break;
        }
        spin_loop();
    }
    Ok(had)
}
