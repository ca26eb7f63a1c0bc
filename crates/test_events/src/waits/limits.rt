//! When a wait ends, by the clock of its listener.
use crate::support::{check, new_task};
use crate::waits::stage::Habit::{self, Back, Exact, Fails, Notifies, Slow};
use crate::waits::stage::{AnyEvent, TIMED_WAITS, WAITS, ends_soon, greatest, limit, long, now};
use crate::waits::trial::{Case, Polled, Trial, all};
use event_listener::{Former, RecordedReply, RegisterResult, WaitReason};
use futures::task::Poll;
use futures::test::MockTask;
use std::sync::atomic::Ordering;
use std::time::Duration;
use test_support::WaitCall::{self, Deadline, Timeout};

// What a step of a wait answers: the listener was told with the tag 7, or waits; it leaves untold or told.
const TOLD: RecordedReply<u32> = RecordedReply::Registered(RegisterResult::Notified(7));

const WAITS_ON: RecordedReply<u32> = RecordedReply::Registered(RegisterResult::Registered);

const LEAVES: RecordedReply<u32> = RecordedReply::Removed(Some(Former::Task));

const LEAVES_TOLD: RecordedReply<u32> = RecordedReply::Removed(Some(Former::Notified {
    additional: false,
    tag: 7,
}));

fn an_hour_ahead<S: Trial>(trial: &S) -> Habit {
    Slow(now(trial.rt()).saturating_add(long()))
}

// It does not park first, and passes nothing on.
fn gives_its_tag<S: Trial>(trial: &S, wait: WaitCall, limit: Duration) {
    let (told, waiting) = (trial.listen(), trial.listen());
    trial.tell(1, 7);
    trial.waits(told, wait, limit, Some(7));
    trial.has_listeners(1);
    trial.waits(waiting, Timeout, Duration::ZERO, None);
    trial.has_listeners(0);
}

pub fn gives_its_tag_at_once<S: Trial>(trial: &S) {
    let (ahead, greatest) = (an_hour_ahead(trial), greatest(trial.rt()));
    let (zero, nanosecond) = (Duration::ZERO, Duration::from_nanos(1));
    for habit in [Exact, ahead, Fails(0)] {
        trial.stage().set(habit);
        for wait in WAITS {
            for limit in [zero, nanosecond, long(), greatest, Duration::MAX] {
                gives_its_tag(trial, wait, limit);
            }
        }
    }
}

#[test]
fn a_told_listener_gives_its_tag_at_once(rt: HostRuntime) {
    all(&rt, Case::Told);
}

// A poll by this task answers this, and does not wake it.
fn polls<S: Trial>(trial: &S, task: &MockTask, listener: &mut S::Listener, expected: Polled) {
    let polled = task.enter(|cx| trial.poll(listener, cx));
    check(trial.rt(), "a poll", polled, expected);
    check(trial.rt(), "woken by a poll", task.is_woken(), false);
}

// However often it is polled, its task is woken only once it is told. It gives its tag to one poll, and is gone then.
fn gives_one_tag<S: Trial>(trial: &S, task: &MockTask, wait: WaitCall, limit: Duration) {
    let (mut listener, behind) = (trial.listen(), trial.listen());
    polls(trial, task, &mut listener, Ok(Poll::Pending));
    polls(trial, task, &mut listener, Ok(Poll::Pending));
    trial.tell(1, 7);
    check(trial.rt(), "woken", task.is_woken(), true);
    polls(trial, task, &mut listener, Ok(Poll::Ready(7)));
    let gone = WaitReason::NeverInserted;
    polls(trial, task, &mut listener, Err(gone));
    let answer = trial.wait(listener, wait, limit);
    check(trial.rt(), wait, answer, Err(gone));
    trial.leave(behind);
    trial.has_listeners(0);
}

pub fn is_told_once<S: Trial>(trial: &S) {
    let task = new_task(trial.rt());
    for wait in WAITS {
        for limit in [Duration::ZERO, long(), Duration::MAX] {
            gives_one_tag(trial, &task, wait, limit);
        }
    }
}

#[test]
fn a_task_is_woken_once_told_and_a_finished_listener_does_not_wait(rt: HostRuntime) {
    all(&rt, Case::Polled);
}

pub fn ends_by_its_clock<S: Trial>(trial: &S) {
    let rt = trial.rt();
    let (zero, ahead) = (Duration::ZERO, an_hour_ahead(trial));
    for (habit, wait, limit, tag, last_step) in [
        // The deadline is now or passed long ago, or the clock can't be read.
        (Exact, Timeout, zero, None, LEAVES),
        (Exact, Deadline, zero, None, LEAVES),
        (ahead, Deadline, zero, None, LEAVES),
        (Fails(0), Timeout, long(), None, LEAVES),
        (Fails(0), Deadline, long(), None, LEAVES),
        (Fails(0), Timeout, Duration::MAX, None, LEAVES),
        // The reading that notifies comes after the wait last registered, and before the listener leaves. A timeout
        // above zero has one reading before, which fixes its deadline.
        (Notifies(0), Deadline, zero, Some(7), LEAVES_TOLD),
        (
            Notifies(1),
            Timeout,
            Duration::from_nanos(1),
            Some(7),
            LEAVES_TOLD,
        ),
        // Before the thread parks there is one reading, and none as it does. No lock is held at it.
        (Notifies(0), Deadline, limit(), Some(7), TOLD),
        (Notifies(1), Timeout, limit(), Some(7), TOLD),
    ] {
        let (listener, behind, start) = (trial.listen(), trial.listen(), now(rt));
        trial.stage().set(habit);
        let answer = trial.wait(listener, wait, limit);
        check(rt, (habit, wait), answer, Ok(tag));
        ends_soon(rt, start);
        if let Some(steps) = trial.stage().event.last_steps(rt) {
            let expected = [WAITS_ON, last_step];
            check(rt, wait, steps.as_slice(), expected.as_slice());
        }
        // Nothing was passed on.
        trial.stage().set(Exact);
        trial.waits(behind, Timeout, Duration::ZERO, None);
        trial.has_listeners(0);
    }
    ends_by_any_clock(trial);
}

// The first reading fails, or one of those between parks; or the clock goes back.
fn ends_by_any_clock<S: Trial>(trial: &S) {
    for readings in 0..9 {
        let habit = if readings < 8 { Fails(readings) } else { Back };
        for wait in TIMED_WAITS {
            for nanos in [0, 1, 10_000_000] {
                trial.stage().set(habit);
                trial.waits(trial.listen(), wait, Duration::from_nanos(nanos), None);
                trial.has_listeners(0);
            }
        }
    }
}

#[test]
fn a_clock_that_shows_the_limit_goes_back_or_fails_ends_a_wait(rt: HostRuntime) {
    all(&rt, Case::EndsByItsClock);
}

fn short() -> Duration {
    Duration::from_millis(50)
}

// How long a wait takes on which nobody is told: no less than its limit.
fn time_of<S: Trial>(trial: &S, wait: WaitCall) -> Duration {
    let (listener, start) = (trial.listen(), now(trial.rt()));
    trial.waits(listener, wait, short(), None);
    let taken = now(trial.rt()).saturating_sub(start);
    check(trial.rt(), (wait, taken), taken >= short(), true);
    taken
}

// Whether a wait parks once, and ends well before twice its time. A wait that looked at the time again and again would read its
// clock thousands of times.
fn parks_once<S: Trial>(trial: &S, wait: WaitCall) -> bool {
    let stage = trial.stage();
    stage.set(Exact);
    let is_soon = time_of(trial, wait) < Duration::from_millis(87);
    let reads = stage.reads.load(Ordering::SeqCst);
    check(trial.rt(), (wait, reads), reads < 25, true);
    let steps = stage.event.last_steps(trial.rt());
    trial.has_listeners(0);
    let once = [WAITS_ON, WAITS_ON, LEAVES];
    is_soon && steps.is_none_or(|steps| steps.as_slice() == once.as_slice())
}

pub fn parks_until_its_limit<S: Trial>(trial: &S) {
    let rt = trial.rt();
    for wait in TIMED_WAITS {
        // One of several does. The others may be late, since the machine may be busy.
        let parks_once = (0..20).any(|_| parks_once(trial, wait));
        check(rt, ("parks once", wait), parks_once, true);
        // The thread parks by the system's clock, and so wakes when half of its time is over.
        trial.stage().set(Slow(now(rt)));
        let taken = time_of(trial, wait);
        check(rt, ("parks again", wait), taken / 2 >= short(), true);
    }
}

#[test]
fn a_timed_wait_parks_until_its_limit(rt: HostRuntime) {
    all(&rt, Case::Parks);
}
