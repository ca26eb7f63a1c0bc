//! Threads that park, and what wakes them; a thread that is told again and again, whatever it does by then.
use crate::support::check;
use crate::waits::stage::{AnyEvent, WAITS, ends_soon, greatest, limit, now};
use crate::waits::trial::{Case, Trial, all};
use std::sync::Wait;
use std::sync::atomic::{AtomicU32, Ordering};
use std::thread;
use std::time::{Clock, CpuClock, Duration};
use test_support::{WaitCall, spin_until};

// Long enough for other threads to park meanwhile. A thread that isn't parked yet needs nobody to wake it.
fn a_while() -> Duration {
    Duration::from_millis(100)
}

// The listener is told, and its thread parks until then. A thread that looked again and again would use more than a tenth of
// the time, on a busy machine too, or note each look.
fn parks<S: Trial>(trial: &S, listener: S::Listener, wait: WaitCall, limit: Duration) {
    let rt = trial.rt();
    let before = rt.thread_cpu_time().expect(rt, "the processor time");
    trial.waits(listener, wait, limit, Some(7));
    let after = rt.thread_cpu_time().expect(rt, "the processor time");
    let used = after.saturating_sub(before);
    check(rt, (wait, used), used < a_while() / 10, true);
    let steps = trial.stage().event.last_steps(rt);
    check(rt, wait, steps.is_none_or(|steps| steps.len() < 10), true);
}

// Threads wait on new listeners, so many, until this call, which comes once they are parked. Nobody is left.
fn are_woken_by<S, W>(trial: &S, count: usize, wait: WaitCall, limit: Duration, wake: W)
where
    S: Trial,
    W: FnOnce(),
    requires { W.pre wake }
{
    let rt = trial.rt();
    let mut listeners = Vec::new(rt.alloc());
    for _ in 0..count {
        listeners.push(trial.listen()).expect(rt, "room");
    }
    let start = now(rt);
    let park = |listener: S::Listener| parks(trial, listener, wait, limit);
    let (parked, ()) = thread::join(
        rt,
        || thread::map_vec(rt, listeners, &park),
        || {
            rt.sleep(a_while());
            wake();
        },
    );
    parked.expect(rt, "room for the threads");
    ends_soon(rt, start);
    trial.has_listeners(0);
}

pub fn are_woken<S: Trial>(trial: &S) {
    for wait in WAITS {
        for most in [limit(), greatest(trial.rt()), Duration::MAX] {
            are_woken_by(trial, 1, wait, most, || trial.tell(1, 7));
        }
        are_woken_by(trial, 3, wait, limit(), || trial.tell(3, 7));
        let told = trial.listen();
        trial.tell(1, 7);
        are_woken_by(trial, 1, wait, limit(), || trial.leave(told));
    }
}

#[test]
fn a_notification_and_the_drop_of_a_told_listener_wake_parked_threads(rt: HostRuntime) {
    all(&rt, Case::Woken);
}

// The tag of the last round of a race. The others have the tag 7.
const LAST: u32 = 8;

// Waits again and again, and shows the other thread in which round it begins to listen.
fn wait_again<S: Trial>(trial: &S, wait: WaitCall, reached: &AtomicU32) {
    for _ in trial.rt().forever() {
        reached.fetch_add(1, Ordering::SeqCst);
        let answer = trial.wait(trial.listen(), wait, limit());
        if answer == Ok(Some(LAST)) {
            return;
        }
        check(trial.rt(), wait, answer, Ok(Some(7)));
    }
}

// Tells the listener of each round as soon as there is one: before its thread looks for it, as that parks, or after. In
// half of the rounds that is a little later, and later in each than in the one before.
fn tell_again<S: Trial>(trial: &S, reached: &AtomicU32) {
    let rt = trial.rt();
    let end = now(rt).saturating_add(Duration::from_secs(2));
    for round in 1..u32::MAX {
        let tag = if now(rt) < end { 7 } else { LAST };
        spin_until(rt, || reached.load(Ordering::SeqCst) >= round);
        for _ in 0..(round % 2) * (round % 1000) {
            reached.load(Ordering::SeqCst);
        }
        spin_until(rt, || trial.stage().event.tell(rt, 1, tag) == 1);
        if tag == LAST {
            return;
        }
    }
}

pub fn is_told_as_it_parks<S: Trial>(trial: &S) {
    for wait in WAITS {
        let reached = AtomicU32::new(0);
        let tell = || tell_again(trial, &reached);
        thread::join(trial.rt(), tell, || wait_again(trial, wait, &reached));
    }
}

#[test]
fn a_thread_that_is_told_as_it_parks_does_not_sleep_on(rt: HostRuntime) {
    all(&rt, Case::ToldAsItParks);
}
