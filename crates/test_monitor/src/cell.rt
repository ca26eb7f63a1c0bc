//! A value that is made once: what a cell does in the order in which callers of other crates' cells use it, and tasks that make
//! it, one at a time, and once that one is gone the next. `wakes` of `test_locks` has threads that wait for it.
use crate::support::{check, new_task};
use event_monitor::{Claim, OnceCell, SetError, SetReason};
use event_wait::LockError;
use futures::Future;
use futures::future::ready;
use futures::task::{Context, Poll};
use futures::test::MockTask;
use std::cell::Cell;
use std::sync::atomic::{AtomicUsize, Ordering};
use std::thread::{self, Threads};
use std::time::{Duration, Instant};
use test_support::{Runtime, for_two_seconds, spin_until};

// What a maker is told to give, how often it was polled, and whether it is gone, and was before the next one was woken.
#[derive(Drop)]
struct Told {
    output: Cell<Option<Result<u64, LockError>>>,
    polls: Cell<u64>,
    is_gone: Cell<bool>,
    is_early: Cell<bool>,
}

impl Told {
    fn new(output: Option<Result<u64, LockError>>) -> Self {
        Told {
            output: Cell::new(output),
            polls: Cell::new(0),
            is_gone: Cell::new(false),
            is_early: Cell::new(false),
        }
    }
}

struct Maker<'a> {
    told: &'a Told,
    next: &'a MockTask,
}

impl Future for Maker<'_> {
    type Output = Result<u64, LockError>;

    fn poll(&mut self, cx: &mut Context<'_>) -> Poll<Result<u64, LockError>> {
        self.told.polls.set(self.told.polls.get().saturating_add(1));
        match self.told.output.get() {
            Some(output) => Poll::Ready(output),
            None => cx.yield_now(),
        }
    }
}

impl Drop for Maker<'_> {
    fn drop(self) {
        let Maker { told, next } = self;
        told.is_gone.set(true);
        told.is_early.set(!next.is_woken());
    }
}

// What a poll gave: `None` while it waits.
fn given<E: Drop>(polled: Poll<Result<&u64, E>>) -> Option<Result<u64, E>> {
    match polled {
        Poll::Ready(answer) => Some(answer.copied()),
        Poll::Pending => None,
    }
}

#[test]
fn a_maker_that_is_dropped_lets_the_next_one_in(rt: HostRuntime) {
    let (alloc, task, next) = (rt.alloc(), new_task(&rt), new_task(&rt));
    let (cell, told) = (
        OnceCell::new(alloc),
        [Told::new(None), Told::new(Some(Ok(7)))],
    );
    let maker = |told| Maker { told, next: &next };
    let mut makes = cell.get_or_try_init_async(&rt, alloc, maker(&told[0]));
    let mut waits = cell.get_or_try_init_async(&rt, alloc, maker(&told[1]));
    check(&rt, "one", given(task.poll(&mut makes)), None);
    check(&rt, "the next", given(next.poll(&mut waits)), None);
    let polls = [told[0].polls.get(), told[1].polls.get()];
    check(&rt, "polls", polls, [1, 0]);
    check(&rt, "whether it is woken", next.is_woken(), false);
    drop(makes);
    let is_gone = [told[0].is_gone.get(), told[0].is_early.get()];
    check(
        &rt,
        "whether the maker is gone, and early",
        is_gone,
        [true, true],
    );
    check(&rt, "whether it is woken", next.is_woken(), true);
    check(&rt, "whether it is set", cell.is_initialized(), false);
    check(&rt, "the next", given(next.poll(&mut waits)), Some(Ok(7)));
    check(&rt, "what is set", cell.get().copied(), Some(7));
}

#[test]
fn a_maker_that_fails_lets_the_next_one_in(rt: HostRuntime) {
    let (alloc, task, next) = (rt.alloc(), new_task(&rt), new_task(&rt));
    let (cell, told) = (
        OnceCell::new(alloc),
        [Told::new(None), Told::new(Some(Ok(7)))],
    );
    let maker = |told| Maker { told, next: &next };
    let mut makes = cell.get_or_try_init_async(&rt, alloc, maker(&told[0]));
    let mut waits = cell.get_or_try_init_async(&rt, alloc, maker(&told[1]));
    check(&rt, "one", given(task.poll(&mut makes)), None);
    check(&rt, "the next", given(next.poll(&mut waits)), None);
    let failed = Err(LockError::TooManyReaders);
    told[0].output.set(Some(failed));
    check(&rt, "one", given(task.poll(&mut makes)), Some(failed));
    check(&rt, "whether it is woken", next.is_woken(), true);
    let over = Some(Err(LockError::Finished));
    check(&rt, "one that is over", given(task.poll(&mut makes)), over);
    check(&rt, "the next", given(next.poll(&mut waits)), Some(Ok(7)));
    let polls = [told[0].polls.get(), told[1].polls.get()];
    check(&rt, "polls", polls, [2, 1]);
}

#[test]
fn a_value_that_a_task_makes_wakes_all_that_wait(rt: HostRuntime) {
    let (alloc, task, next) = (rt.alloc(), new_task(&rt), new_task(&rt));
    let (cell, told) = (
        OnceCell::new(alloc),
        [Told::new(None), Told::new(Some(Ok(8)))],
    );
    let maker = |told| Maker { told, next: &next };
    let mut makes = cell.get_or_try_init_async(&rt, alloc, maker(&told[0]));
    let mut waits = cell.get_or_try_init_async(&rt, alloc, maker(&told[1]));
    let (mut claims, mut sees) = (cell.claim(&rt, alloc), cell.wait(&rt, alloc));
    let (claimer, seer) = (new_task(&rt), new_task(&rt));
    check(&rt, "one", given(task.poll(&mut makes)), None);
    check(&rt, "the next", given(next.poll(&mut waits)), None);
    check(&rt, "a claim", claimer.poll(&mut claims).is_pending(), true);
    check(&rt, "a wait", given(seer.poll(&mut sees)), None);
    told[0].output.set(Some(Ok(7)));
    check(&rt, "one", given(task.poll(&mut makes)), Some(Ok(7)));
    let woken = [next.is_woken(), claimer.is_woken(), seer.is_woken()];
    check(&rt, "who is woken", woken, [true; 3]);
    check(&rt, "the next", given(next.poll(&mut waits)), Some(Ok(7)));
    check(&rt, "its polls", told[1].polls.get(), 0);
    let claimed = matches!(claimer.poll(&mut claims), Poll::Ready(Ok(Claim::Value(7))));
    check(&rt, "a claim", claimed, true);
    check(&rt, "a wait", given(seer.poll(&mut sees)), Some(Ok(7)));
}

#[test]
fn a_maker_that_cannot_fail_makes_a_value_once(rt: HostRuntime) {
    let (alloc, task) = (rt.alloc(), new_task(&rt));
    let cell = OnceCell::new(alloc);
    let mut makes = cell.get_or_init_async(&rt, alloc, ready(7u64));
    let mut comes_late = cell.get_or_init_async(&rt, alloc, ready(8));
    check(&rt, "whether it is set", cell.is_initialized(), false);
    check(&rt, "one", given(task.poll(&mut makes)), Some(Ok(7)));
    check(&rt, "whether it is set", cell.is_initialized(), true);
    check(
        &rt,
        "one that is late",
        given(task.poll(&mut comes_late)),
        Some(Ok(7)),
    );
}

// Another one makes the value, and threads that give up at their limit make none.
#[test]
fn a_value_is_waited_for_until_a_limit(rt: HostRuntime) {
    let alloc = rt.alloc();
    let cell = OnceCell::new(alloc);
    let turn = cell.claim(&rt, alloc).wait().expect(&rt, "the turn");
    let soon = Duration::from_millis(3);
    let now = Instant::now(&rt).expect(&rt, "the time");
    let late = cell.get_or_init_timeout(&rt, alloc, soon, || 7u64);
    check(&rt, "one that is late", late, Ok(None));
    let late = cell.get_or_init_deadline(&rt, alloc, now, || 7);
    check(&rt, "one that is late", late, Ok(None));
    let make = || -> Result<u64, LockError> { Ok(7) };
    let late = cell.get_or_try_init_timeout(&rt, alloc, soon, make);
    check(&rt, "one that is late", late, Ok(None));
    let late = cell.get_or_try_init_deadline(&rt, alloc, now, make);
    check(&rt, "one that is late", late, Ok(None));
    drop(turn);
    let made = cell.get_or_init_timeout(&rt, alloc, Duration::ZERO, || 8);
    check(&rt, "one in time", made, Ok(Some(&8)));
    let kept = cell.get_or_try_init_deadline(&rt, alloc, now, make);
    check(&rt, "one in time", kept, Ok(Some(&8)));
}

fn failed() -> Result<u64, LockError> {
    Err(LockError::Finished)
}

#[test]
fn a_cell_is_set_once(rt: HostRuntime) {
    let cell = OnceCell::new(rt.alloc());
    let set = cell.set(&rt, rt.alloc(), 7).copied();
    check(&rt, "set", set, Ok(7));
    let again = cell.set(&rt, rt.alloc(), 8).copied();
    let (value, reason) = (8, SetReason::AlreadySet);
    check(&rt, "again", again, Err(SetError { value, reason }));
    let seen = cell.wait(&rt, rt.alloc()).wait().expect(&rt, "the value");
    check(&rt, "seen", *seen, 7);
}

#[test]
fn a_value_that_cannot_be_made_leaves_a_cell_unset(rt: HostRuntime) {
    let cell = OnceCell::new(rt.alloc());
    let made = cell.get_or_try_init(&rt, rt.alloc(), failed).copied();
    check(&rt, "failed", made, Err(LockError::Finished));
    check(&rt, "unset", cell.get().copied(), None);
    let set = cell.set(&rt, rt.alloc(), 7).copied();
    check(&rt, "set", set, Ok(7));
    let made = cell.get_or_try_init(&rt, rt.alloc(), failed).copied();
    check(&rt, "made", made, Ok(7));
}

// Of four threads one makes the value, and all have it.
fn make_once<R: Runtime + Threads + Sync>(rt: &R) {
    let (cell, made, come) = (
        OnceCell::new(rt.alloc()),
        AtomicUsize::new(0),
        AtomicUsize::new(0),
    );
    let gets = |_| {
        come.fetch_add(1, Ordering::SeqCst);
        spin_until(rt, || come.load(Ordering::SeqCst) >= 4);
        let make = || -> Result<u64, LockError> {
            made.fetch_add(1, Ordering::SeqCst);
            thread::yield_now();
            Ok(7)
        };
        let value = cell.get_or_try_init(rt, rt.alloc(), make);
        value.copied().unwrap_or(0)
    };
    let values = thread::map_indices(rt, rt.alloc(), 4, &gets);
    let values = values.expect(rt, "the threads");
    check(rt, "values", values.as_slice(), [7; 4].as_slice());
    check(rt, "made", made.load(Ordering::SeqCst), 1);
}

#[test]
fn a_value_is_made_once(rt: HostRuntime) {
    for_two_seconds(&rt, || make_once(&rt)).expect(&rt, "the time");
}
