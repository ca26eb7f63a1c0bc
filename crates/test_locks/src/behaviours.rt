//! What each lock does in the order in which callers of other crates' locks use it.
use crate::support::{check, new_lock, new_mutex, new_semaphore, new_task};
use event_locks::{AcquireError, LockError, Mutex, RwLock, Semaphore, TryAcquireError};
use std::fmt::Debug;
use std::mem;
use std::sync::Arc;
use std::time::Duration;
use test_kinds::{Waits, numbers};
use test_support::Runtime;

#[test]
fn a_future_that_gave_its_output_is_over(rt: HostRuntime) {
    let mutex = new_mutex(&rt, 7u64);
    let mut lock = mutex.lock(&rt, rt.alloc());
    let is_ready = new_task(&rt).poll(&mut lock).is_ready();
    check(&rt, "whether it is granted", is_ready, true);
    let finished = lock.wait().err();
    check(&rt, "a wait", finished, Some(LockError::Finished));
    let is_free = mutex.try_lock(&rt).is_some();
    check(&rt, "whether it is free", is_free, true);
}

#[test]
fn a_mutex_that_is_over_gives_its_value(rt: HostRuntime) {
    let mut mutex = new_mutex(&rt, 1u64);
    *mutex.try_lock(&rt).expect(&rt, "the value") = 2;
    let value = mutex.get_mut();
    *value = value.saturating_add(1);
    check(&rt, "the value", mutex.into_inner(), 3);
}

#[test]
fn a_forgotten_guard_leaves_the_value_in_the_mutex(rt: HostRuntime) {
    let mut mutex = new_mutex(&rt, 1u64);
    let mut guard = mutex.try_lock(&rt).expect(&rt, "the value");
    *guard = 2;
    mem::forget(guard);
    check(&rt, "whether it is taken", mutex.is_locked(), true);
    check(&rt, "the value", *mutex.get_mut(), 2);
    check(&rt, "the value at last", mutex.into_inner(), 2);
}

#[test]
fn a_mutex_shows_whether_somebody_has_its_value(rt: HostRuntime) {
    let mutex = Arc::new(rt.alloc(), new_mutex(&rt, 7u64)).expect(&rt, "memory");
    check(&rt, "free", mutex.is_locked(), false);
    let guard = mutex.try_lock(&rt);
    check(&rt, "taken", mutex.is_locked(), true);
    drop(guard);
    check(&rt, "given back", mutex.is_locked(), false);
    let guard = Mutex::try_lock_arc(&mutex, rt).expect(&rt, "a share");
    check(
        &rt,
        "taken by a guard that shares it",
        mutex.is_locked(),
        true,
    );
    drop(guard);
    check(&rt, "given back by that", mutex.is_locked(), false);
}

// Returns whether the lock is taken, and whether a writer has it.
fn is_taken(lock: &RwLock<u64>) -> (bool, bool) {
    (lock.is_locked(), lock.is_write_locked())
}

#[test]
fn a_read_write_lock_shows_who_has_its_value(rt: HostRuntime) {
    let lock = Arc::new(rt.alloc(), new_lock(&rt, 7u64)).expect(&rt, "memory");
    check(&rt, "free", is_taken(&lock), (false, false));
    let readers = (lock.try_read(&rt), lock.try_read(&rt));
    check(&rt, "read", is_taken(&lock), (true, false));
    drop(readers);
    let writer = lock.try_write(&rt);
    check(&rt, "written", is_taken(&lock), (true, true));
    drop(writer);
    let reader = RwLock::try_read_arc(&lock, rt).expect(&rt, "a share");
    check(
        &rt,
        "read by a guard that shares it",
        is_taken(&lock),
        (true, false),
    );
    drop(reader);
    let writer = RwLock::try_write_arc(&lock, rt).expect(&rt, "a share");
    check(
        &rt,
        "written by a guard that shares it",
        is_taken(&lock),
        (true, true),
    );
    drop(writer);
    check(&rt, "given back", is_taken(&lock), (false, false));
}

// Returns whether a task gets the guard at its first poll. The guard is dropped at once.
fn has_it_at_once<R: Runtime, W: Waits>(rt: &R, waits: W) -> bool {
    let mut waits = waits;
    waits.can_be_polled();
    new_task(rt).poll(&mut waits).is_ready()
}

// Beside a reader a writer waits, and gives up here: then another reader waits for nobody.
#[test]
fn whoever_finds_a_read_write_lock_free_has_it_at_once(rt: HostRuntime) {
    let lock = Arc::new(rt.alloc(), new_lock(&rt, 7u64)).expect(&rt, "memory");
    for has_reader in [false, true] {
        let reader = has_reader.then(|| lock.try_read(&rt));
        let writes = has_it_at_once(&rt, lock.write(&rt, rt.alloc()));
        check(&rt, "to write", writes, !has_reader);
        let write = RwLock::write_arc(&lock, rt, rt.alloc()).expect(&rt, "a share");
        check(&rt, "to write", has_it_at_once(&rt, write), !has_reader);
        let reads = has_it_at_once(&rt, lock.read(&rt, rt.alloc()));
        check(&rt, "to read", reads, true);
        let read = RwLock::read_arc(&lock, rt, rt.alloc()).expect(&rt, "a share");
        check(&rt, "to read", has_it_at_once(&rt, read), true);
        drop(reader);
    }
}

#[test]
fn a_semaphore_has_no_more_permits_than_it_can_count(rt: HostRuntime) {
    let semaphore = new_semaphore(&rt, usize::MAX);
    let permit = semaphore.try_acquire(&rt).expect(&rt, "a permit");
    semaphore.add_permits(&rt, 2);
    drop(permit);
    check(&rt, "free", semaphore.available(), Semaphore::MAX_PERMITS);
}

// Returns why so many permits are not given at once, if they are not.
fn refused<R: Runtime>(rt: &R, semaphore: &Semaphore, n: usize) -> Option<TryAcquireError> {
    semaphore.try_acquire_many(rt, n).err()
}

#[test]
fn a_semaphore_gives_all_at_once_or_none(rt: HostRuntime) {
    let semaphore = new_semaphore(&rt, 3);
    let too_few = Some(TryAcquireError::NoPermits);
    for n in [4, usize::MAX] {
        check(&rt, "too many", refused(&rt, &semaphore, n), too_few);
    }
    check(&rt, "free", semaphore.available(), 3);
    let two = semaphore.try_acquire_many(&rt, 2).expect(&rt, "permits");
    check(&rt, "permits", two.num_permits(), 2);
    check(&rt, "free", semaphore.available(), 1);
    check(&rt, "too many", refused(&rt, &semaphore, 2), too_few);
    let one = semaphore.try_acquire(&rt).expect(&rt, "a permit");
    check(&rt, "permits", one.num_permits(), 1);
    check(&rt, "none", refused(&rt, &semaphore, 0), None);
    check(&rt, "another", semaphore.try_acquire(&rt).err(), too_few);
    drop(two);
    check(&rt, "free", semaphore.available(), 2);
    one.forget();
    check(&rt, "free", semaphore.available(), 2);
}

#[test]
fn permits_that_came_at_once_share_their_semaphore(rt: HostRuntime) {
    let semaphore = Arc::new(rt.alloc(), new_semaphore(&rt, 3)).expect(&rt, "memory");
    let two = Semaphore::try_acquire_many_arc(&semaphore, rt, 2).expect(&rt, "a share");
    let two = two.expect(&rt, "permits");
    check(&rt, "permits", two.num_permits(), 2);
    let others = Semaphore::try_acquire_many_arc(&semaphore, rt, 2).expect(&rt, "a share");
    check(
        &rt,
        "too many",
        others.err(),
        Some(TryAcquireError::NoPermits),
    );
    check(&rt, "shares", Arc::strong_count(&semaphore), 2);
    two.forget();
    check(&rt, "free", semaphore.available(), 1);
    semaphore.add_permits(&rt, 1);
    let two = Semaphore::try_acquire_many_arc(&semaphore, rt, 2).expect(&rt, "a share");
    check(&rt, "whether there are so many", two.is_ok(), true);
    drop(two);
    check(&rt, "free", semaphore.available(), 2);
}

#[test]
fn no_more_permits_are_forgotten_than_are_free(rt: HostRuntime) {
    let semaphore = new_semaphore(&rt, 3);
    let held = semaphore.try_acquire(&rt);
    check(&rt, "one of two", semaphore.forget_permits(1), 1);
    check(&rt, "free", semaphore.available(), 1);
    check(&rt, "all", semaphore.forget_permits(usize::MAX), 1);
    check(&rt, "none", semaphore.forget_permits(1), 0);
    check(&rt, "free", semaphore.available(), 0);
    drop(held);
    check(&rt, "free", semaphore.available(), 1);
}

// Permits that are given back or added are counted still.
#[test]
fn a_closed_semaphore_gives_nothing(rt: HostRuntime) {
    let semaphore = new_semaphore(&rt, 3);
    let held = semaphore.try_acquire_many(&rt, 2);
    check(&rt, "closed", semaphore.is_closed(), false);
    for _ in 0..2u32 {
        semaphore.close(&rt);
        check(&rt, "closed", semaphore.is_closed(), true);
    }
    drop(held);
    semaphore.add_permits(&rt, 1);
    let closed = Some(TryAcquireError::Closed);
    check(&rt, "one", semaphore.try_acquire(&rt).err(), closed);
    for n in [0, 1, 5] {
        check(&rt, "many", refused(&rt, &semaphore, n), closed);
    }
    check(&rt, "forgotten", semaphore.forget_permits(1), 0);
    let counts = numbers(semaphore.counts(&rt));
    check(&rt, "free, and nobody waits", counts, [4, 0, 0, 0]);
    check(&rt, "closed", semaphore.counts(&rt).is_closed, true);
    check(&rt, "shut", semaphore.counts(&rt).is_shut, false);
    check(&rt, "free", semaphore.available(), 4);
}

#[test]
fn a_wait_for_a_closed_semaphore_ends_at_once(rt: HostRuntime) {
    let semaphore = Arc::new(rt.alloc(), new_semaphore(&rt, 1)).expect(&rt, "memory");
    semaphore.close(&rt);
    let closed = Some(AcquireError::Closed);
    let mut polled = semaphore.acquire(&rt, rt.alloc());
    let answer = new_task(&rt).poll(&mut polled);
    check(&rt, "a poll", answer.is_ready(), true);
    let waited = semaphore.acquire(&rt, rt.alloc()).wait().err();
    check(&rt, "a wait", waited, closed);
    let owned = Semaphore::acquire_arc(&semaphore, rt, rt.alloc()).expect(&rt, "a share");
    check(&rt, "an owned one", owned.wait().err(), closed);
    let late = semaphore.acquire(&rt, rt.alloc());
    let late = late.wait_timeout(Duration::ZERO).err();
    check(&rt, "a late one", late, closed);
    let other = Semaphore::try_acquire_arc(&semaphore, rt).expect(&rt, "a share");
    check(&rt, "another", other.err(), Some(TryAcquireError::Closed));
}

// Checks that the debug text of this value is the expected text.
fn shows<V: Debug, R: Runtime>(rt: &R, value: &V, expected: &str) {
    let shown = format!(in rt.alloc(); "{value:?}").expect(rt, "a text");
    check(rt, "shown", shown.as_str(), expected);
}

#[test]
fn a_semaphore_and_its_permits_show_themselves(rt: HostRuntime) {
    let semaphore = Arc::new(rt.alloc(), new_semaphore(&rt, 3)).expect(&rt, "memory");
    let permit = semaphore.try_acquire(&rt).expect(&rt, "a permit");
    let owned = Semaphore::try_acquire_arc(&semaphore, rt).expect(&rt, "a share");
    shows(&rt, &owned, "Ok(SemaphoreGuardArc)");
    shows(&rt, &*semaphore, "Semaphore { available: 1 }");
    shows(&rt, &permit, "SemaphoreGuard");
}

#[test]
fn a_mutex_and_its_guards_show_themselves(rt: HostRuntime) {
    let mutex = Arc::new(rt.alloc(), new_mutex(&rt, 7u64)).expect(&rt, "memory");
    shows(&rt, &*mutex, "Mutex { is_locked: false }");
    let guard = mutex.try_lock(&rt);
    shows(&rt, &*mutex, "Mutex { is_locked: true }");
    shows(&rt, &guard, "Some(7)");
    drop(guard);
    let owned = Mutex::try_lock_arc(&mutex, rt).expect(&rt, "a share");
    shows(&rt, &owned, "Some(7)");
}

#[test]
fn a_read_write_lock_and_its_guards_show_themselves(rt: HostRuntime) {
    let lock = Arc::new(rt.alloc(), new_lock(&rt, 7u64)).expect(&rt, "memory");
    let owned = RwLock::try_read_arc(&lock, rt).expect(&rt, "a share");
    let readers = (lock.try_read(&rt), owned);
    shows(&rt, &*lock, "RwLock { readers: 2, is_written: false }");
    shows(&rt, &readers, "(Some(7), Some(7))");
    drop(readers);
    let writer = lock.try_write(&rt);
    shows(&rt, &*lock, "RwLock { readers: 0, is_written: true }");
    shows(&rt, &writer, "Some(7)");
    drop(writer);
    let owned = RwLock::try_write_arc(&lock, rt).expect(&rt, "a share");
    shows(&rt, &*lock, "RwLock { readers: 0, is_written: true }");
    shows(&rt, &owned, "Some(7)");
}
