//! Tests that are written once and run with each kind of wait.
use crate::kinds::{Kind, Of, Read, See, Write};
use event_locks::{Barrier, Mutex, OnceCell, RwLock, Semaphore};
use std::alloc::{AllocError, AllocGlobal};
use std::sync::{Arc, Wait};
use std::time::Clock;

/// A test of a kind of wait.
pub trait Case<R> {
    /// How many wait at once, which is one less than a barrier is for.
    fn waiters(&self) -> usize;

    /// Makes its calls on a new lock.
    fn run<K: Kind>(&self, rt: &R, kind: &K);
}

/// Runs a case with each kind of wait, each time on a new lock. Those that wait have a runtime of their own. A test calls
/// this alone: each place that names the kinds is slow to prove. The error is a refusal of memory for a lock or a share.
pub fn each<C, R, W>(rt: &R, own: &W, case: &C) -> Result<(), AllocError>
where
    C: Case<R>,
    R: AllocGlobal,
    W: Wait + Clock + Clone + Sync,
{
    semaphores(rt, own, case)?;
    mutexes(rt, own, case)?;
    readers(rt, own, case)?;
    writers(rt, own, case)?;
    barriers(rt, own, case);
    cells(rt, own, case);
    Ok(())
}

// Each kind of lock has a function of its own: one that names several needs much memory to prove.
fn semaphores<C, R, W>(rt: &R, own: &W, case: &C) -> Result<(), AllocError>
where
    C: Case<R>,
    R: AllocGlobal,
    W: Wait + Clock + Clone + Sync,
{
    let alloc = rt.alloc();
    let semaphore = Semaphore::new(alloc, 1);
    case.run(rt, &Of::<_, _, ()>::new(&semaphore, own, alloc));
    let semaphore = Arc::new(alloc, Semaphore::new(alloc, 1))?;
    case.run(rt, &Of::<_, _, ()>::new(&semaphore, own, alloc));
    Ok(())
}

fn mutexes<C, R, W>(rt: &R, own: &W, case: &C) -> Result<(), AllocError>
where
    C: Case<R>,
    R: AllocGlobal,
    W: Wait + Clock + Clone + Sync,
{
    let alloc = rt.alloc();
    let mutex = Mutex::new(alloc, 7u64);
    case.run(rt, &Of::<_, _, ()>::new(&mutex, own, alloc));
    let mutex = Arc::new(alloc, Mutex::new(alloc, 7u64))?;
    case.run(rt, &Of::<_, _, ()>::new(&mutex, own, alloc));
    Ok(())
}

fn readers<C, R, W>(rt: &R, own: &W, case: &C) -> Result<(), AllocError>
where
    C: Case<R>,
    R: AllocGlobal,
    W: Wait + Clock + Clone + Sync,
{
    let alloc = rt.alloc();
    let shared = RwLock::new(alloc, 7u64);
    case.run(rt, &Of::<_, _, Read>::new(&shared, own, alloc));
    let shared = Arc::new(alloc, RwLock::new(alloc, 7u64))?;
    case.run(rt, &Of::<_, _, Read>::new(&shared, own, alloc));
    Ok(())
}

fn writers<C, R, W>(rt: &R, own: &W, case: &C) -> Result<(), AllocError>
where
    C: Case<R>,
    R: AllocGlobal,
    W: Wait + Clock + Clone + Sync,
{
    let alloc = rt.alloc();
    let shared = RwLock::new(alloc, 7u64);
    case.run(rt, &Of::<_, _, Write>::new(&shared, own, alloc));
    let shared = Arc::new(alloc, RwLock::new(alloc, 7u64))?;
    case.run(rt, &Of::<_, _, Write>::new(&shared, own, alloc));
    Ok(())
}

fn barriers<C, R, W>(rt: &R, own: &W, case: &C)
where
    C: Case<R>,
    R: AllocGlobal,
    W: Wait + Clock + Sync,
{
    let alloc = rt.alloc();
    let barrier = Barrier::new(alloc, case.waiters().saturating_add(1));
    case.run(rt, &Of::<_, _, ()>::new(&barrier, own, alloc));
}

fn cells<C, R, W>(rt: &R, own: &W, case: &C)
where
    C: Case<R>,
    R: AllocGlobal,
    W: Wait + Clock + Sync,
{
    let alloc = rt.alloc();
    let cell: OnceCell<u64> = OnceCell::new(alloc);
    case.run(rt, &Of::<_, _, ()>::new(&cell, own, alloc));
    let cell: OnceCell<u64> = OnceCell::new(alloc);
    case.run(rt, &Of::<_, _, See>::new(&cell, own, alloc));
}
