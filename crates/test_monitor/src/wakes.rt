//! Threads that have parked, and calls that let them in which no other test makes with a thread behind.
use crate::support::{check, new_task};
use event_monitor::{Barrier, Claim, OnceCell};
use futures::Future;
use futures::task::{Context, Poll};
use std::sync::atomic::{AtomicBool, Ordering};
use std::thread;
use test_support::is_let_in;

#[test]
fn a_task_that_comes_last_lets_a_thread_in(rt: HostRuntime) {
    let (barrier, task) = (&Barrier::new(rt.alloc(), 2), &new_task(&rt));
    let waits = || barrier.wait(&rt, rt.alloc()).wait().is_ok();
    let comes = || {
        let mut last = barrier.wait(&rt, rt.alloc());
        let has_ended = task.poll(&mut last).is_ready();
        check(&rt, "whether the round has ended", has_ended, true);
    };
    check(
        &rt,
        "whether it is granted",
        is_let_in(&rt, waits, comes),
        true,
    );
}

// A waiter is given the turn to make the value, and gives the turn up.
#[test]
fn a_turn_that_is_given_up_goes_to_a_thread(rt: HostRuntime) {
    let cell: &OnceCell<u64> = &OnceCell::new(rt.alloc());
    let task = &new_task(&rt);
    let turn = cell.claim(&rt, rt.alloc()).wait().expect(&rt, "the turn");
    let mut next = cell.claim(&rt, rt.alloc());
    let is_pending = task.poll(&mut next).is_pending();
    check(&rt, "whether it waits", is_pending, true);
    drop(turn);
    check(&rt, "whether it is woken", task.is_woken(), true);
    let claims = || matches!(cell.claim(&rt, rt.alloc()).wait(), Ok(Claim::Vacant(_)));
    let granted = is_let_in(&rt, claims, move || drop(next));
    check(&rt, "whether it is granted", granted, true);
}

// A future that makes the value once this is so.
#[derive(Drop)]
struct Maker<'a> {
    is_so: &'a AtomicBool,
}

impl Future for Maker<'_> {
    type Output = u64;

    fn poll(&mut self, cx: &mut Context<'_>) -> Poll<u64> {
        if self.is_so.load(Ordering::SeqCst) {
            return Poll::Ready(7);
        }
        cx.yield_now()
    }
}

// A task makes the value, and two threads wait: one would make the value, and the other only waits to see it.
#[test]
fn a_task_that_makes_a_value_lets_threads_in(rt: HostRuntime) {
    let (cell, task) = (&OnceCell::new(rt.alloc()), &new_task(&rt));
    let is_so = &AtomicBool::new(false);
    let mut makes = cell.get_or_init_async(&rt, rt.alloc(), Maker { is_so });
    let is_pending = task.poll(&mut makes).is_pending();
    check(&rt, "whether it waits", is_pending, true);
    let claims = || cell
        .get_or_init(&rt, rt.alloc(), || 8u64)
        .is_ok_and(|it| *it == 7);
    let sees = || cell.wait(&rt, rt.alloc()).wait().is_ok_and(|it| *it == 7);
    let waits = || {
        let (claimed, seen) = thread::join(&rt, claims, sees);
        claimed && seen
    };
    let granted = is_let_in(&rt, waits, move || {
        is_so.store(true, Ordering::SeqCst);
        task.poll(&mut makes).is_ready()
    });
    check(&rt, "whether it is granted", granted, true);
}
