//! More waiters than a thread that notifies has room for at hand. No waiter is woken while the thread has the lock, and all are
//! woken.
ghost use Rattle.event_wait.specs.Attempted.{Attempts};

use crate::monitor::Withdrawal;
use crate::support::{check, new_task};
use event_monitor::{
    Barrier, Ended, IsSet, Monitor, Once, OnceCell, QuietLock, Rounds, Waited, Watched,
};
use event_queue::{ListenError, TaskExchange, WakeSink};
use event_wait::{Attempted, Request, Task, Waitable, WakerSource};
use futures::Future;
use futures::test::MockTask;
use std::sync::atomic::{AtomicUsize, Ordering};
use std::time::Duration;
use test_support::Runtime;

const CROWD: usize = 20;

fn woken(tasks: &[MockTask]) -> usize {
    tasks.iter().filter(|task| task.is_woken()).count()
}

fn new_tasks<R: Runtime>(rt: &R) -> Vec<MockTask> {
    let mut tasks = Vec::new(rt.alloc());
    for _ in 0..CROWD {
        let is_kept = tasks.push(new_task(rt)).is_ok();
        check(rt, "whether there is memory", is_kept, true);
    }
    tasks
}

/// A state that callers wait at, all of which one step notifies.
trait Crowded: Waited {
    type Given;

    fn join<C, X: TaskExchange<Task, C>, K: WakeSink<Task>>(
        &mut self,
        exchange: &X,
        on: &mut C,
        sink: &mut K,
    ) -> Attempted<Self::Given, ListenError>
        ensures { Attempts (X.exchanged exchange.now) on.old result on.new };

    fn tell_all<K: WakeSink<Task>>(&mut self, sink: &mut K);
}

impl Crowded for Rounds<Task> {
    type Given = Ended;

    fn join<C, X: TaskExchange<Task, C>, K: WakeSink<Task>>(
        &mut self,
        exchange: &X,
        on: &mut C,
        sink: &mut K,
    ) -> Attempted<Ended, ListenError> {
        self.arrive(exchange, on, sink)
    }

    fn tell_all<K: WakeSink<Task>>(&mut self, sink: &mut K) {
        drop(self.try_end(sink));
    }
}

impl Crowded for Once<Task> {
    type Given = IsSet;

    fn join<C, X: TaskExchange<Task, C>, K: WakeSink<Task>>(
        &mut self,
        exchange: &X,
        on: &mut C,
        _sink: &mut K,
    ) -> Attempted<IsSet, ListenError> {
        self.come_to_use(exchange, on)
    }

    fn tell_all<K: WakeSink<Task>>(&mut self, sink: &mut K) {
        self.set(sink);
    }
}

impl Crowded for Watched<u64, Withdrawal, Task> {
    type Given = u64;

    fn join<C, X: TaskExchange<Task, C>, K: WakeSink<Task>>(
        &mut self,
        exchange: &X,
        on: &mut C,
        sink: &mut K,
    ) -> Attempted<u64, ListenError> {
        let withdrawal = Withdrawal { amount: 1 };
        self.attempt_or_wait(None, withdrawal, exchange, on, sink)
    }

    fn tell_all<K: WakeSink<Task>>(&mut self, sink: &mut K) {
        self.change(|balance| *balance = 1, sink);
    }
}

/// A request that waits, or, as an attempt, notifies all that wait. It notes, still under the lock, how many of these tasks are
/// woken.
#[derive(Drop)]
struct Telling<'a> {
    tasks: &'a [MockTask],
    noted: &'a AtomicUsize,
}

impl<S: Crowded> Request<S> for Telling<'_> {
    type Output = S::Given;

    type Refusal = ListenError;

    ghost succeeds = { λ _ _ _. Unit {0} };

    ghost waits = { λ _ _. Unit {0} };

    ghost leaves = { λ _ _ _. Unit {0} };

    fn attempt_or_wait<C, X: TaskExchange<Task, C>, K: WakeSink<Task>>(
        &mut self,
        state: &mut S,
        exchange: &X,
        on: &mut C,
        sink: &mut K,
    ) -> Attempted<S::Given, ListenError> {
        state.join(exchange, on, sink)
    }

    fn leave<K: WakeSink<Task>>(
        &mut self,
        state: &mut S,
        sink: &mut K,
    ) -> Result<Option<S::Given>, ListenError> {
        state.tell_all(sink);
        self.noted.store(woken(self.tasks), Ordering::SeqCst);
        Ok(None)
    }
}

// Has a crowd wait at this state, and notifies it by one step under the lock.
fn none_is_woken_under_the_lock<R: Runtime, S: Crowded + Drop>(rt: &R, state: S)
where
    S::Given: Drop,
{
    let (tasks, noted, source) = (new_tasks(rt), AtomicUsize::new(CROWD), WakerSource::new());
    let lock = QuietLock::of(rt.alloc(), state);
    let mut telling = Telling {
        tasks: &tasks,
        noted: &noted,
    };
    for task in tasks.iter() {
        let waits = task.enter(|cx| lock.attempt_or_wait(rt, &mut telling, &source, cx));
        let is_waiting = match waits {
            Attempted::Waits(_) => true,
            Attempted::Done(given) => {
                drop(given);
                false
            }
            Attempted::Absent | Attempted::Refused(_) => false,
        };
        check(rt, "whether it waits", is_waiting, true);
    }
    check(rt, "woken before", woken(&tasks), 0);
    let told = lock.leave(rt, &mut telling).is_ok();
    check(rt, "whether it tells", told, true);
    let under_the_lock = noted.load(Ordering::SeqCst);
    check(rt, "woken under the lock", under_the_lock, 0);
    check(rt, "woken at last", woken(&tasks), CROWD);
}

#[test]
fn a_barrier_wakes_nobody_under_its_lock(rt: HostRuntime) {
    none_is_woken_under_the_lock(&rt, Rounds::new(rt.alloc(), CROWD + 1));
}

#[test]
fn a_cell_wakes_nobody_under_its_lock(rt: HostRuntime) {
    none_is_woken_under_the_lock(&rt, Once::new(rt.alloc()));
}

#[test]
fn a_monitor_wakes_nobody_under_its_lock(rt: HostRuntime) {
    none_is_woken_under_the_lock(&rt, Watched::new(rt.alloc(), 0u64));
}

// Has a crowd of tasks wait, does this, and checks that all are woken, and that each has what it waits for.
fn all_are_woken<R: Runtime, F: Future, M: Fn() -> F, D: FnOnce()>(rt: &R, make: M, does: D)
where
    F: Drop,
    F::Output: Drop,
    requires polls { (waits : F) → F.can_poll waits }
    requires makes { M.IsAlwaysCallable make }
    requires does { D.IsAlwaysCallable does }
{
    let tasks = new_tasks(rt);
    let mut crowd = Vec::new(rt.alloc());
    for task in tasks.iter() {
        let mut waits = make();
        let is_pending = task.poll(&mut waits).is_pending();
        let is_kept = crowd.push(waits).is_ok();
        check(rt, "whether it waits", is_pending && is_kept, true);
    }
    does();
    check(rt, "how many are woken", woken(&tasks), CROWD);
    for (task, waits) in tasks.iter().zip(crowd.iter_mut()) {
        check(
            rt,
            "whether it waits on",
            task.poll(waits).is_pending(),
            false,
        );
    }
}

#[test]
fn a_crowd_at_a_barrier_goes_on(rt: HostRuntime) {
    let alloc = rt.alloc();
    let barrier = Barrier::new(alloc, CROWD + 1);
    // Room that was taken once is made anew.
    for _ in 0..2u32 {
        let arrives = || {
            let ended = barrier.wait(&rt, alloc).wait_timeout(Duration::ZERO);
            let ended = ended
                .expect(&rt, "an answer")
                .expect(&rt, "the end of the round");
            check(&rt, "whether it leads", ended.is_leader(), true);
        };
        all_are_woken(&rt, || barrier.wait(&rt, alloc), arrives);
    }
}

#[test]
fn a_crowd_at_a_cell_sees_the_value(rt: HostRuntime) {
    let alloc = rt.alloc();
    let cell = OnceCell::new(alloc);
    let sets = || {
        let set = cell.set(&rt, alloc, 7).copied();
        check(&rt, "set", set, Ok(7));
    };
    all_are_woken(&rt, || cell.wait(&rt, alloc), sets);
}

#[test]
fn a_crowd_at_a_monitor_sees_a_change(rt: HostRuntime) {
    let alloc = rt.alloc();
    let balance = Monitor::new(alloc, 0u64);
    let waits = || balance.until(&rt, alloc, Withdrawal { amount: 1 });
    let adds = || balance.change(&rt, |balance| *balance = CROWD as u64);
    all_are_woken(&rt, waits, adds);
}
