//! Threads that call at once, half of them by futures.
use crate::support::{check, new_id, new_task};
use event_until::{Attempt, Until, UntilError};
use example_events::until::{Baton, Gate, OwnedBaton, Version, Watch};
use futures::Future;
use futures::executor::block_on;
use futures::task::{Context, Poll};
use futures::test::MockTask;
use std::fmt::Debug;
use std::sync::Arc;
use std::sync::atomic::{AtomicBool, AtomicUsize, Ordering};
use std::thread::{self, Threads};
use test_support::{Runtime, for_two_seconds, spin_until};

const THREADS: usize = 10;

const CALLS: usize = 1000;

// A future that counts its polls.
#[derive(Drop)]
struct Counted<'a, F> {
    future: F,
    polls: &'a AtomicUsize,
}

impl<F: Future> Future for Counted<'_, F> {
    type Output = F::Output;

    ghost can_poll = { λ counted. F.can_poll counted.future };

    ghost needs = { λ counted. F.needs counted.future };

    ghost gives = { λ counted. F.gives counted.future };

    fn poll(&mut self, cx: &mut Context<'_>) -> Poll<F::Output> {
        self.polls.fetch_add(1, Ordering::SeqCst);
        self.future.poll(cx)
    }
}

fn take<R: Runtime + Drop>(
    rt: &R,
    baton: &Arc<Baton>,
    polls: &AtomicUsize,
    thread: usize,
) -> Result<OwnedBaton<R>, UntilError> {
    let mut future = Baton::take(baton, rt, rt.alloc());
    if thread % 2 == 0 {
        future.wait()?
    } else {
        block_on(rt, Counted { future, polls }).expect(rt, "an executor")?
    }
}

// Answers the most batons that were out at once, as far as it saw.
fn take_turns<R: Runtime + Drop>(
    rt: &R,
    baton: &Arc<Baton>,
    out: &AtomicUsize,
    polls: &AtomicUsize,
    thread: usize,
) -> usize {
    let mut most = 0usize;
    for _ in 0..CALLS {
        let taken = take(rt, baton, polls, thread).expect(rt, "the baton");
        let before = out.fetch_add(1, Ordering::SeqCst);
        most = most.max(before.saturating_add(1));
        out.fetch_sub(1, Ordering::SeqCst);
        drop(taken);
    }
    most
}

// A poll is either the first of its task or due to a notification, of which each guard makes one. That leaves room for one
// more each task.
#[test]
fn one_at_a_time_has_the_baton_and_tasks_rest(rt: HostRuntime) {
    let baton = Arc::new(rt.alloc(), Baton::new(new_id(&rt))).expect(&rt, "memory");
    let out = AtomicUsize::new(0);
    let polls = AtomicUsize::new(0);
    let turns = |thread| take_turns(&rt, &baton, &out, &polls, thread);
    let seen = thread::map_indices(&rt, rt.alloc(), THREADS, &turns);
    let seen = seen.expect(&rt, "the threads");
    check(&rt, "the most", seen.iter().copied().max(), Some(1));
    let polls = polls.load(Ordering::SeqCst);
    let most = 2 * (THREADS / 2) * CALLS + THREADS * CALLS;
    check(&rt, "at most so many polls", polls.max(most), most);
}

// A thread makes the change and notifies, and the task of a waiter is woken. Then an attempt succeeds, which needs no lock of
// the event, though others may still have to be notified.
fn who_is_woken_succeeds<A, C, R>(rt: &R, task: &MockTask, attempt: A, change: C)
where
    A: Attempt<Output: Drop> + Drop,
    C: FnOnce() + Send,
    R: Runtime + Threads + Sync,
    requires { C.pre change }
{
    let (mut attempt, is_looking) = (attempt, AtomicBool::new(false));
    let ((), has_succeeded) = thread::join(
        rt,
        || {
            spin_until(rt, || is_looking.load(Ordering::SeqCst));
            change();
        },
        || {
            is_looking.store(true, Ordering::SeqCst);
            spin_until(rt, || task.is_woken());
            attempt.attempt().is_some()
        },
    );
    check(rt, "whether it succeeds", has_succeeded, true);
}

// One waits in this task, behind those that wait already.
fn wait_in_line<'a, A, R>(
    rt: &R,
    line: &mut Vec<Until<'a, A, R>>,
    task: &MockTask,
    until: Until<'a, A, R>,
)
where
    A: Attempt<Output: Drop> + Drop,
    R: Runtime,
{
    let mut until = until;
    check(rt, "pending", task.poll(&mut until).is_pending(), true);
    line.push(until).expect(rt, "room");
}

// All waiters there were woken, and are given this.
fn all_are_given<A, V, R>(rt: &R, task: &MockTask, line: Vec<Until<'_, A, R>>, expected: V)
where
    A: Attempt<Output = V> + Drop,
    V: Copy + PartialEq + Debug,
    R: Runtime,
{
    check(rt, "woken", task.is_woken(), true);
    for until in line {
        let mut until = until;
        let polled = task.poll(&mut until);
        check(rt, "given", polled, Poll::Ready(Ok(expected)));
    }
}

// How many wait behind the one whose task is looked at.
const BEHIND: usize = 100;

fn opens_and_then_wakes<R: Runtime + Threads + Sync>(rt: &R) {
    let gate = Gate::new(new_id(rt));
    let (task, other, mut line) = (new_task(rt), new_task(rt), Vec::new(rt.alloc()));
    wait_in_line(rt, &mut line, &task, gate.pass(rt, rt.alloc()));
    for _ in 0..BEHIND {
        wait_in_line(rt, &mut line, &other, gate.pass(rt, rt.alloc()));
    }
    let pass = gate.pass(rt, rt.alloc()).into_attempt();
    who_is_woken_succeeds(rt, &task, pass, || gate.open(rt));
    all_are_given(rt, &other, line, ());
}

fn replaces_and_then_wakes<R: Runtime + Threads + Sync>(rt: &R) {
    let watch = Watch::new(new_id(rt), 'a');
    let (number, value) = (1, 'a');
    let initial = watch.wait_newer(rt, rt.alloc(), 0);
    check(rt, "the first", initial, Ok(Version { number, value }));
    let (task, other, mut line) = (new_task(rt), new_task(rt), Vec::new(rt.alloc()));
    wait_in_line(rt, &mut line, &task, watch.newer(rt, rt.alloc(), 1));
    for _ in 0..BEHIND {
        wait_in_line(rt, &mut line, &other, watch.newer(rt, rt.alloc(), 1));
    }
    let newer = watch.newer(rt, rt.alloc(), 1).into_attempt();
    let replace = || {
        watch.replace(rt, 'b');
        watch.replace(rt, 'c');
    };
    who_is_woken_succeeds(rt, &task, newer, replace);
    let (number, value) = (3, 'c');
    all_are_given(rt, &other, line, Version { number, value });
}

fn frees_and_then_wakes<R: Runtime + Threads + Sync + Send + Drop>(rt: &R) {
    let baton = Arc::new(rt.alloc(), Baton::new(new_id(rt))).expect(rt, "memory");
    let held = Baton::take(&baton, rt, rt.alloc()).wait();
    let held = held.expect(rt, "the baton").expect(rt, "a guard");
    let (task, mut line) = (new_task(rt), Vec::new(rt.alloc()));
    wait_in_line(rt, &mut line, &task, Baton::take(&baton, rt, rt.alloc()));
    let take = Baton::take(&baton, rt, rt.alloc()).into_attempt();
    who_is_woken_succeeds(rt, &task, take, || drop(held));
    for until in line {
        check(rt, "failed", until.into_attempt().failed(), 2);
    }
}

#[test]
fn who_is_woken_finds_the_gate_open_a_newer_value_or_the_baton_free(rt: HostRuntime) {
    for_two_seconds(&rt, || opens_and_then_wakes(&rt)).expect(&rt, "the time");
    for_two_seconds(&rt, || replaces_and_then_wakes(&rt)).expect(&rt, "the time");
    for_two_seconds(&rt, || frees_and_then_wakes(&rt)).expect(&rt, "the time");
}
