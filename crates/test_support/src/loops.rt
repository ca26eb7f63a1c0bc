//! Loops of threads that race, or wait for one another without a lock, and threads that are let in.
use std::io;
use std::marker::Send;
use std::sync::Wait;
use std::thread::{self, Threads};
use std::time::{Clock, Duration};

/// Returns once this holds.
pub fn spin_until<R: Wait, F: Fn() -> bool>(rt: &R, holds: F)
    requires { F.IsAlwaysCallable holds }
{
    for _ in rt.forever() {
        if holds() {
            break;
        }
    }
}

/// Does this again and again, for two seconds. The error is a clock that can't be read.
pub fn for_two_seconds<R: Wait + Clock, F: Fn()>(rt: &R, once: F) -> io::Result<()>
    requires { F.IsAlwaysCallable once }
{
    let end = rt.monotonic()?.saturating_add(Duration::from_secs(2));
    for _ in rt.forever() {
        once();
        if rt.monotonic()? >= end {
            break;
        }
    }
    Ok(())
}

/// Has a thread wait, and makes a call that lets the thread in once it has parked. Returns whether the wait was granted; what the
/// call returns is kept until then.
pub fn is_let_in<R, W, C, G>(rt: &R, waits: W, call: C) -> bool
where
    R: Wait + Clock + Threads + Sync,
    W: FnOnce() -> bool + Send,
    C: FnOnce() -> G + Send,
    G: Drop + Send,
    requires waits { W.pre waits }
    requires call { C.pre call }
{
    let calls = || {
        thread::sleep(rt, Duration::from_millis(100));
        call()
    };
    let (granted, kept) = thread::join(rt, waits, calls);
    drop(kept);
    granted
}
