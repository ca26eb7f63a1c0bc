//! A value that threads and tasks wait for, with the condition that the page of `event_locks` shows.
use crate::support::{check, new_task};
use event_monitor::{Condition, Monitor, Until};
use futures::test::MockTask;
use std::sync::atomic::{AtomicUsize, Ordering};
use std::sync::{Barrier, Wait};
use std::thread::{self, Threads};
use std::time::{CpuClock, Duration, Instant};
use test_support::{Runtime, deadline_after, spin_until};

/// Takes an amount off a balance, once there is as much. It gives what is left.
#[derive(Clone, Copy)]
pub struct Withdrawal {
    pub amount: u64,
}

impl Condition<u64> for Withdrawal {
    type Output = u64;

    ghost use Rattle.std.specs.Prelude.{◌≡◌, ◌+◌, ◌<◌};

    ghost fails = { λ withdrawal balance. balance < withdrawal.amount };

    ghost gives = { λ withdrawal balance left rest. (left ≡ rest)
        × (rest + withdrawal.amount ≡ balance) };

    fn attempt(&self, balance: &mut u64) -> Option<u64> {
        let left = balance.checked_sub(self.amount)?;
        *balance = left;
        Some(left)
    }
}

/// The same, and counts its attempts.
#[derive(Clone, Copy)]
struct Counted<'a> {
    withdrawal: Withdrawal,
    attempts: &'a AtomicUsize,
}

impl Condition<u64> for Counted<'_> {
    type Output = u64;

    ghost use Rattle.std.specs.Prelude.{◌≡◌, ◌+◌, ◌<◌};

    ghost fails = { λ counted balance. balance < counted.withdrawal.amount };

    ghost gives = { λ counted balance left rest. (left ≡ rest)
        × (rest + counted.withdrawal.amount ≡ balance) };

    fn attempt(&self, balance: &mut u64) -> Option<u64> {
        self.attempts.fetch_add(1, Ordering::SeqCst);
        self.withdrawal.attempt(balance)
    }
}

fn add<R: Wait, C: Condition<u64> + Copy>(rt: &R, balance: &Monitor<u64, C>, more: u64) {
    balance.change(rt, |balance| *balance = balance.saturating_add(more));
}

#[test]
fn what_is_added_is_taken(rt: HostRuntime) {
    let alloc = rt.alloc();
    let balance = Monitor::new(alloc, 0);
    let adds = || {
        for _ in 0..2000u32 {
            add(&rt, &balance, 1);
        }
    };
    let takes = || {
        for _ in 0..500u32 {
            let left = balance.until(&rt, alloc, Withdrawal { amount: 2 }).wait();
            check(&rt, "whether it is taken", left.is_ok(), true);
        }
    };
    thread::join(&rt, adds, || thread::join(&rt, takes, takes));
    let left = balance.try_now(&rt, Withdrawal { amount: 1 });
    check(&rt, "what is left", left, None);
}

// Task and thread attempt once each, as they store what is woken. Then the thread parks until the change.
#[test]
fn a_change_wakes_a_thread_and_a_task(rt: HostRuntime) {
    let (alloc, task, attempts) = (rt.alloc(), new_task(&rt), AtomicUsize::new(0));
    let attempts = &attempts;
    let balance = Monitor::new(alloc, 1);
    let mut awaited = balance.until(
        &rt,
        alloc,
        Counted {
            withdrawal: Withdrawal { amount: 3 },
            attempts,
        },
    );
    let is_pending = task.poll(&mut awaited).is_pending();
    check(&rt, "whether the task waits", is_pending, true);
    let waits = || balance
        .until(
            &rt,
            alloc,
            Counted {
                withdrawal: Withdrawal { amount: 2 },
                attempts,
            },
        )
        .wait();
    let changes = || {
        spin_until(&rt, || attempts.load(Ordering::SeqCst) >= 2);
        thread::sleep(&rt, Duration::from_millis(20));
        check(&rt, "attempts", attempts.load(Ordering::SeqCst), 2);
        add(&rt, &balance, 4);
        spin_until(&rt, || attempts.load(Ordering::SeqCst) >= 3);
    };
    let (left, ()) = thread::join(&rt, waits, changes);
    check(&rt, "the thread", left, Ok(3));
    check(&rt, "whether the task is woken", task.is_woken(), true);
    check(&rt, "the task", awaited.wait(), Ok(0));
}

#[test]
fn one_that_gave_up_is_woken_no_more(rt: HostRuntime) {
    let (alloc, task) = (rt.alloc(), new_task(&rt));
    let balance = Monitor::new(alloc, 1);
    let mut late = balance.until(&rt, alloc, Withdrawal { amount: 9 });
    let mut dropped = balance.until(&rt, alloc, Withdrawal { amount: 9 });
    check(&rt, "one", task.poll(&mut late).is_pending(), true);
    check(&rt, "two", task.poll(&mut dropped).is_pending(), true);
    let answer = late.wait_timeout(Duration::ZERO);
    check(&rt, "one that is late", answer, Ok(None));
    drop(dropped);
    // The wakers that both left woke the task.
    task.enter(|_| ());
    add(&rt, &balance, 1);
    check(&rt, "whether the task is woken", task.is_woken(), false);
}

// What one wants that is not there: a wait for it with a limit ends there, and soon after it. Each of many waits would have to
// end late, and not only one, which a busy machine may bring about.
fn ends_at_its_limit<R: Runtime>(rt: &R, balance: &Monitor<u64, Withdrawal>, is_deadline: bool) {
    let limit = Duration::from_millis(50);
    let is_soon = (0..20).any(|_| {
        let began = Instant::now(rt).expect(rt, "the time");
        let mut late = balance.until(rt, rt.alloc(), Withdrawal { amount: 9 });
        let answer = if is_deadline {
            late.wait_deadline(deadline_after(rt, limit).expect(rt, "a moment"))
        } else {
            late.wait_timeout(limit)
        };
        let took = began.elapsed(rt).expect(rt, "the time");
        check(rt, "one that is late", answer, Ok(None));
        check(rt, "whether its time had passed", took >= limit, true);
        took < Duration::from_millis(87)
    });
    check(rt, "whether one ended in time", is_soon, true);
}

#[test]
fn a_wait_for_a_value_ends_at_its_limit(rt: HostRuntime) {
    let balance = Monitor::new(rt.alloc(), 1);
    ends_at_its_limit(&rt, &balance, false);
    ends_at_its_limit(&rt, &balance, true);
}

/// Raises a value to another one, once it is as high as this.
#[derive(Clone, Copy)]
struct Raise {
    from: u64,
    to: u64,
}

impl Condition<u64> for Raise {
    type Output = ();

    ghost use Rattle.std.specs.Prelude.{◌≡◌, ◌<◌};

    ghost fails = { λ raise value. value < raise.from };

    ghost gives = { λ raise _ _ after. after ≡ raise.to };

    fn attempt(&self, value: &mut u64) -> Option<()> {
        if *value < self.from {
            return None;
        }
        *value = self.to;
        Some(())
    }
}

// Of the highest value, which one waits for, and to it.
const TOP: Raise = Raise { from: 9, to: 9 };

const TO_TOP: Raise = Raise { from: 1, to: 9 };

// What raises the value to that, and wakes whoever waits: a change, an attempt that is made at once, and one that was polled
// before and is made as it is polled again, or at its limit.
#[derive(Clone, Copy, Debug)]
enum Raising {
    Changed,
    AtOnce,
    Polled,
    Late,
}

const RAISING: [Raising; 4] = [
    Raising::Changed,
    Raising::AtOnce,
    Raising::Polled,
    Raising::Late,
];

// One more waits with this task, and would get it at its next attempt. Whoever else waits is woken by that, and looks in vain.
fn one_more<'a, R: Runtime>(
    rt: &'a R,
    value: &'a Monitor<u64, Raise>,
    task: &MockTask,
) -> Until<'a, u64, Raise, R> {
    let mut one_more = value.until(rt, rt.alloc(), TO_TOP);
    let is_pending = task.poll(&mut one_more).is_pending();
    check(rt, "whether one more waits", is_pending, true);
    value.change(rt, |value| *value = 1);
    one_more
}

fn raise_to_top<R: Runtime>(
    rt: &R,
    value: &Monitor<u64, Raise>,
    by: Raising,
    task: &MockTask,
    one_more: Until<'_, u64, Raise, R>,
) {
    let mut one_more = one_more;
    match by {
        Raising::Changed => value.change(rt, |value| *value = 9),
        Raising::AtOnce => check(rt, "at once", value.try_now(rt, TO_TOP), Some(())),
        Raising::Polled => check(rt, "a poll", task.poll(&mut one_more).is_ready(), true),
        Raising::Late => {
            let answer = one_more.wait_timeout(Duration::ZERO);
            check(rt, "at its limit", answer, Ok(Some(())));
        }
    }
}

fn raises_for_a_task<R: Runtime>(rt: &R, by: Raising) {
    let (value, task, other) = (Monitor::new(rt.alloc(), 0), new_task(rt), new_task(rt));
    let mut awaited = value.until(rt, rt.alloc(), TOP);
    check(
        rt,
        "whether it waits",
        task.poll(&mut awaited).is_pending(),
        true,
    );
    let one_more = one_more(rt, &value, &other);
    check(
        rt,
        "whether it waits",
        task.poll(&mut awaited).is_pending(),
        true,
    );
    raise_to_top(rt, &value, by, &other, one_more);
    check(rt, "whether it is woken", task.is_woken(), true);
    check(
        rt,
        "whether it waits",
        task.poll(&mut awaited).is_pending(),
        false,
    );
}

// The thread has parked by then.
fn raises_for_a_thread<R: Runtime + Threads + Sync>(rt: &R, by: Raising) {
    let (value, other) = (Monitor::new(rt.alloc(), 0), new_task(rt));
    let waits = || value.until(rt, rt.alloc(), TOP).wait();
    let raises = || {
        thread::sleep(rt, Duration::from_millis(50));
        let one_more = one_more(rt, &value, &other);
        thread::sleep(rt, Duration::from_millis(50));
        raise_to_top(rt, &value, by, &other, one_more);
    };
    let (risen, ()) = thread::join(rt, waits, raises);
    check(rt, "the thread", risen, Ok(()));
}

#[test]
fn whatever_raises_a_value_wakes_who_waits_for_it(rt: HostRuntime) {
    for by in RAISING {
        raises_for_a_task(&rt, by);
        raises_for_a_thread(&rt, by);
    }
}

// A thread waits for the lock of a monitor, which another one has for 300 milliseconds. One that looked at it again and again
// would use far more than ten of them, on a busy machine too.
fn use_no_time<R: Runtime + CpuClock + Threads + Sync>(rt: &R) {
    let (balance, meeting) = (Monitor::new(rt.alloc(), 1), &Barrier::new(2));
    let changes = || balance.change(rt, |balance| {
        meeting.wait(rt);
        rt.sleep(Duration::from_millis(300));
        *balance = 2;
    });
    let tries = || {
        meeting.wait(rt);
        let before = rt.thread_cpu_time().expect(rt, "the processor time");
        let left = balance.try_now(rt, Withdrawal { amount: 2 });
        let after = rt.thread_cpu_time().expect(rt, "the processor time");
        (left, after.saturating_sub(before))
    };
    let ((), (left, used)) = thread::join(rt, changes, tries);
    check(rt, "what is left", left, Some(0));
    check(rt, "little time", used < Duration::from_millis(10), true);
}

#[test]
fn a_thread_that_waits_for_the_lock_uses_no_processor_time(rt: HostRuntime) {
    use_no_time(&rt);
}
