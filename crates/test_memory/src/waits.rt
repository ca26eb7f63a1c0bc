//! Waits for each lock of `event_locks` that are refused memory, and calls there that need none.
use crate::budget::Budget;
use crate::starved::Starved;
use crate::support::{Runtime, all_memory, check, count_refused, leave, new_task};
use event_listener::ListenError;
use event_locks::{Barrier, LockError, Mutex, RwLock, Semaphore};
use futures::task::Poll;
use std::cell::Cell;
use std::time::{Duration, Instant};
use test_kinds::{Case, Kind, Refusal, Sharing, Waits, each};
use test_support::{Changed, Ticks};

// A wait that ends at its limit, or a poll. It counts the refusals of a place in the queue, and of what a thread parks on.
#[derive(Drop)]
struct InVain<'a, R, K> {
    rt: &'a R,
    kind: &'a K,
    is_polled: bool,
    places: Cell<usize>,
    parkers: Cell<usize>,
}

impl<R: Runtime, K: Kind> Starved for InVain<'_, R, K> {
    fn is_granted(&self, budget: &mut Budget, bytes: usize) -> bool {
        let (rt, task) = (self.rt, new_task(self.rt));
        let mut waits = self.kind.waits().expect(rt, "a share");
        waits.can_be_polled();
        leave(rt, budget, bytes);
        let refusal = if self.is_polled {
            let polled = task.poll(&mut waits);
            drop(waits);
            match polled {
                Poll::Ready(Err(refusal)) => refusal.reason(),
                Poll::Ready(Ok(_granted)) => None,
                Poll::Pending => None,
            }
        } else {
            let answer = waits.wait_timeout(Duration::from_millis(1500));
            answer.err().and_then(|refusal| refusal.reason())
        };
        budget.give_back();
        match refusal {
            Some(LockError::Listen(ListenError::Memory)) => {
                self.places.set(self.places.get().saturating_add(1));
            }
            Some(LockError::Memory(_)) => {
                self.parkers.set(self.parkers.get().saturating_add(1));
            }
            Some(_) => panic!(rt; "another refusal"),
            None => {}
        }
        refusal.is_none()
    }
}

#[derive(Drop)]
struct EachIsRefused {
    is_polled: bool,
}

impl<R: Runtime> Case<R> for EachIsRefused {
    fn waiters(&self) -> usize {
        1
    }

    fn run<K: Kind>(&self, rt: &R, kind: &K) {
        let held = kind.hold();
        let is_polled = self.is_polled;
        let (places, parkers) = (Cell::new(0), Cell::new(0));
        let in_vain = InVain {
            rt,
            kind,
            is_polled,
            places,
            parkers,
        };
        let refused = count_refused(rt, &in_vain);
        check(rt, "a place", in_vain.places.get() > 0, true);
        check(rt, "a parker", in_vain.parkers.get() > 0, !is_polled);
        // No waiter is left in the queue to which it would be handed.
        let (task, mut waits) = (new_task(rt), kind.waits().expect(rt, "a share"));
        waits.can_be_polled();
        check(rt, refused, task.poll(&mut waits).is_pending(), true);
        drop(held);
        check(rt, "woken", task.is_woken(), true);
        waits.can_be_polled();
        check(rt, "given", task.poll(&mut waits).is_ready(), true);
    }
}

#[test]
fn each_request_of_a_wait_for_a_lock_is_refused(rt: HostRuntime) {
    let clock = Ticks::new();
    let own = Changed {
        rt: &rt,
        by: &clock,
    };
    for is_polled in [false, true] {
        let ran = each(&rt, &own, &EachIsRefused { is_polled });
        ran.expect(&rt, "memory");
    }
}

// A wait until a moment that has passed attempts, and joins no queue.
fn is_late_without_memory<R: Runtime, W: Waits>(rt: &R, waits: W) {
    let now = Instant::now(rt).expect(rt, "the time");
    let hog = all_memory(rt);
    let late = waits.wait_deadline(now).ok();
    drop(hog);
    let given = late.map(|it| it.is_some());
    check(rt, "late", given, Some(false));
}

#[derive(Drop)]
struct NeedsNone;

// Without memory a waiter is let in and woken. A waiter that was notified before its thread blocks makes nothing to park on.
impl<R: Runtime> Case<R> for NeedsNone {
    fn waiters(&self) -> usize {
        2
    }

    fn run<K: Kind>(&self, rt: &R, kind: &K) {
        let (held, task, other) = (kind.hold(), new_task(rt), new_task(rt));
        is_late_without_memory(rt, kind.waits().expect(rt, "a share"));
        let mut first = kind.waits().expect(rt, "a share");
        let mut second = kind.waits().expect(rt, "a share");
        first.can_be_polled();
        second.can_be_polled();
        check(rt, "waits", task.poll(&mut first).is_pending(), true);
        check(rt, "waits", other.poll(&mut second).is_pending(), true);
        let hog = all_memory(rt);
        drop(held);
        check(rt, "woken", task.is_woken(), true);
        let given = first.wait_timeout(Duration::MAX).ok();
        check(rt, "told", given.map(|it| it.is_some()), Some(true));
        check(rt, "woken", other.is_woken(), true);
        second.can_be_polled();
        check(rt, "given", other.poll(&mut second).is_ready(), true);
        drop(kind.hold());
        if kind.sharing() != Sharing::Together {
            let free = kind.waits().expect(rt, "a share").wait();
            check(rt, "free", free.is_ok(), true);
        }
        drop(hog);
    }
}

#[test]
fn calls_of_a_lock_that_need_no_memory(rt: HostRuntime) {
    each(&rt, &rt, &NeedsNone).expect(&rt, "memory");
    let hog = all_memory(&rt);
    let mutex = Mutex::new(rt.alloc(), 1u64);
    check(&rt, "free", mutex.try_lock(&rt).is_some(), true);
    let permits = Semaphore::new(rt.alloc(), 1);
    check(&rt, "free", permits.try_acquire(&rt).is_ok(), true);
    let lock = RwLock::new(rt.alloc(), 1u64);
    check(&rt, "free", lock.try_write(&rt).is_some(), true);
    let alone = Barrier::new(rt.alloc(), 1);
    let ended = alone.wait(&rt, rt.alloc()).wait().is_ok();
    check(&rt, "the end of the round", ended, true);
    drop(hog);
}
