//! What is dropped gives its memory back: where little is left, it can be made and dropped again and again.
use crate::support::{Runtime, all_memory, check, comes_back, new_id, new_task};
use event_listener::{Event, Limit, Listener};
use event_locks::{AcquireError, Barrier, LockError, Mutex, OnceCell, RwLock, Semaphore};
use futures::task::Poll;
use std::cell::Cell;
use std::io;
use std::sync::{Arc, Wait};
use std::time::{Clock, Duration};
use test_kinds::Waits;
use test_support::{Change, Changed};

// The last listener outlives the event.
fn event_and_listeners<R: Runtime>(rt: &R) {
    let event: Event<()> = Event::new(new_id(rt));
    let listen = || event.listen(rt, rt.alloc()).expect(rt, "a listener");
    let (told, first, last) = (listen(), listen(), listen());
    event.notify_relaxed(rt, 1);
    check(rt, "told", told.wait().is_ok(), true);
    drop(first);
    drop(event);
    drop(last);
}

#[test]
fn an_event_and_its_listeners_give_the_queue_back(rt: HostRuntime) {
    comes_back(&rt, || event_and_listeners(&rt));
}

// Each listener of a hand ends by it, in another way.
fn of_a_hand<R: Runtime>(rt: &R) {
    let event: Event<()> = Event::new(new_id(rt));
    let mut hand = event.hand(rt, rt.alloc()).expect(rt, "a hand");
    let told = hand.listen(rt, rt.alloc()).expect(rt, "a listener");
    let second = hand.listen(rt, rt.alloc()).expect(rt, "a listener");
    let third = hand.listen(rt, rt.alloc()).expect(rt, "a listener");
    event.notify_relaxed(rt, 1);
    let waited = hand.wait_until(told, Limit::Never).is_ok();
    check(rt, "told", waited, true);
    check(rt, "dropped", hand.drop_listener(second), false);
    check(rt, "discarded", hand.discard(third), false);
}

#[test]
fn a_hand_and_its_listeners_give_the_queue_back(rt: HostRuntime) {
    comes_back(&rt, || of_a_hand(&rt));
}

// A newcomer that has no time to wait is given nothing while others have the lock.
fn is_late<R: Runtime, W: Waits>(rt: &R, waits: W) {
    let given = waits.wait_timeout(Duration::ZERO).ok();
    check(rt, "late", given.map(|it| it.is_some()), Some(false));
}

// A waiter is notified. The wait has the last share of its lock, and is dropped with it; or a guard has the last share.
fn is_told<R: Runtime, W: Waits, G: Drop>(rt: &R, waits: W, held: G, is_given: bool) {
    let (mut waits, task) = (waits, new_task(rt));
    waits.can_be_polled();
    check(rt, "waits", task.poll(&mut waits).is_pending(), true);
    drop(held);
    check(rt, "told", task.is_woken(), true);
    if is_given {
        let guard = waits.wait();
        check(rt, "given", guard.is_ok(), true);
        drop(guard);
    } else {
        drop(waits);
    }
}

fn of_a_semaphore<R: Runtime + Copy>(rt: &R, is_given: bool) {
    let permits = Semaphore::new(rt.alloc(), 1);
    let permits = Arc::new(rt.alloc(), permits).expect(rt, "a share");
    let held = Semaphore::try_acquire_arc(&permits, *rt).expect(rt, "a share");
    let another = Semaphore::try_acquire_arc(&permits, *rt)
        .expect(rt, "a share")
        .is_ok();
    check(rt, "another", another, false);
    let late = Semaphore::acquire_arc(&permits, *rt, rt.alloc());
    is_late(rt, late.expect(rt, "a share"));
    let waits = Semaphore::acquire_arc(&permits, *rt, rt.alloc()).expect(rt, "a share");
    drop(permits);
    is_told(rt, waits, held, is_given);
}

fn of_a_mutex<R: Runtime + Copy>(rt: &R, is_given: bool) {
    let mutex = Mutex::new(rt.alloc(), 7u64);
    let mutex = Arc::new(rt.alloc(), mutex).expect(rt, "a share");
    let held = Mutex::try_lock_arc(&mutex, *rt).expect(rt, "a share");
    let another = Mutex::try_lock_arc(&mutex, *rt)
        .expect(rt, "a share")
        .is_some();
    check(rt, "another", another, false);
    let late = Mutex::lock_arc(&mutex, *rt, rt.alloc());
    is_late(rt, late.expect(rt, "a share"));
    let waits = Mutex::lock_arc(&mutex, *rt, rt.alloc()).expect(rt, "a share");
    drop(mutex);
    is_told(rt, waits, held, is_given);
}

fn of_a_read_write_lock<R: Runtime + Copy>(rt: &R, is_given: bool) {
    let lock = RwLock::new(rt.alloc(), 7u64);
    let lock = Arc::new(rt.alloc(), lock).expect(rt, "a share");
    let held = RwLock::try_read_arc(&lock, *rt).expect(rt, "a share");
    let another = RwLock::try_write_arc(&lock, *rt)
        .expect(rt, "a share")
        .is_some();
    check(rt, "another", another, false);
    let late = RwLock::write_arc(&lock, *rt, rt.alloc());
    is_late(rt, late.expect(rt, "a share"));
    let waits = RwLock::write_arc(&lock, *rt, rt.alloc()).expect(rt, "a share");
    drop(lock);
    is_told(rt, waits, held, is_given);
}

#[test]
fn a_lock_is_given_back_by_the_last_one_that_was_told(rt: HostRuntime) {
    for is_given in [false, true] {
        comes_back(&rt, || of_a_semaphore(&rt, is_given));
        comes_back(&rt, || of_a_mutex(&rt, is_given));
        comes_back(&rt, || of_a_read_write_lock(&rt, is_given));
    }
}

fn of_a_forgotten_permit<R: Runtime + Copy>(rt: &R) {
    let permits = Semaphore::new(rt.alloc(), 1);
    let permits = Arc::new(rt.alloc(), permits).expect(rt, "a share");
    let held = Semaphore::try_acquire_arc(&permits, *rt).expect(rt, "a share");
    held.expect(rt, "a permit").forget();
}

#[test]
fn a_permit_that_is_forgotten_keeps_no_share(rt: HostRuntime) {
    comes_back(&rt, || of_a_forgotten_permit(&rt));
}

#[test]
fn a_poll_that_is_refused_keeps_no_share(rt: HostRuntime) {
    let permits = Semaphore::new(rt.alloc(), 0);
    let permits = Arc::new(rt.alloc(), permits).expect(&rt, "a share");
    let waits = Semaphore::acquire_arc(&permits, rt, rt.alloc());
    let (mut waits, task) = (waits.expect(&rt, "a share"), new_task(&rt));
    let hog = all_memory(&rt);
    let polled = task.poll(&mut waits);
    drop(hog);
    let is_refused = matches!(
        polled,
        Poll::Ready(Err(AcquireError::WaitFailed(LockError::Listen(_))))
    );
    check(&rt, "whether it is refused", is_refused, true);
    check(&rt, "shares", Arc::strong_count(&permits), 1);
}

// A waiter in a queue leaves it, and the queue is freed with its lock.
fn polls_in_vain<R: Runtime, W: Waits>(rt: &R, waits: W) {
    let mut waits = waits;
    waits.can_be_polled();
    let is_pending = new_task(rt).poll(&mut waits).is_pending();
    check(rt, "waits", is_pending, true);
}

fn of_a_barrier<R: Runtime>(rt: &R) {
    let barrier = Barrier::new(rt.alloc(), 2);
    polls_in_vain(rt, barrier.wait(rt, rt.alloc()));
}

fn of_a_cell<R: Runtime>(rt: &R) {
    let cell: OnceCell<u64> = OnceCell::new(rt.alloc());
    polls_in_vain(rt, cell.wait(rt, rt.alloc()));
}

#[test]
fn a_barrier_and_a_cell_give_their_queues_back(rt: HostRuntime) {
    comes_back(&rt, || of_a_barrier(&rt));
    comes_back(&rt, || of_a_cell(&rt));
}

// A clock that shows a second more each time it is read. Each third time comes once a timed wait has stored its task, and adds
// a permit.
#[derive(Drop)]
struct Gives<'a, R> {
    rt: &'a R,
    permits: &'a Semaphore,
    reads: Cell<u64>,
}

impl<R: Runtime> Change for Gives<'_, R> {
    fn read<C: Clock>(&self, _rt: &C) -> io::Result<Duration> {
        let reads = self.reads.get();
        self.reads.set(reads.saturating_add(1));
        if reads % 3 == 2 {
            self.permits.add_permits(self.rt, 1);
        }
        Ok(Duration::from_secs(reads))
    }
}

// A thread makes what it parks on, and is given a permit after that, before its limit or at it.
fn of_a_parker<R: Runtime, C: Wait + Clock>(rt: &R, clock: &C, permits: &Semaphore, limit: u64) {
    let waits = permits.acquire(clock, rt.alloc());
    let given = waits.wait_timeout(Duration::from_millis(limit));
    let given = given.expect(rt, "an answer");
    given.expect(rt, "a permit").forget();
}

fn parks_often<R: Runtime, C: Wait + Clock>(rt: &R, clock: &C, permits: &Semaphore) {
    for limit in [9000, 1500] {
        comes_back(rt, || of_a_parker(rt, clock, permits, limit));
    }
}

#[test]
fn a_thread_that_waits_gives_back_what_it_parks_on(rt: HostRuntime) {
    let permits = &Semaphore::new(rt.alloc(), 0);
    let (rt, reads) = (&rt, Cell::new(0));
    let by = &Gives { rt, permits, reads };
    parks_often(rt, &Changed { rt, by }, permits);
}
