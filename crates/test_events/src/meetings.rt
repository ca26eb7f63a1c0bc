//! Threads that meet at the lock of an event: each that sleeps for it is woken, and sleeps until then.
//!
//! A tag is made under the lock, so a thread has that for as long as the function of its notification takes. One that is not
//! woken sleeps on, and its test fails at the limit that the toolchain has for every test.
use crate::support::{Runtime, check, new_event, sharing};
use event_listener::{Event, IntoNotification, IntoTagged, NotifyError};
use std::sync::Barrier;
use std::sync::atomic::{AtomicU32, Ordering};
use std::thread::{self, Threads};
use std::time::{CpuClock, Duration};
use test_support::{for_two_seconds, spin_until};

fn reach<R: Runtime>(rt: &R, step: &AtomicU32, far: u32) {
    spin_until(rt, || step.load(Ordering::SeqCst) >= far);
}

// Has the lock at steps 1 and 2, and until 3 is reached.
fn notify_in_steps<R: Runtime>(
    rt: &R,
    event: &Event<u32>,
    step: &AtomicU32,
) -> Result<usize, NotifyError> {
    let tag = || {
        step.store(1, Ordering::SeqCst);
        rt.sleep(Duration::from_millis(2));
        step.store(2, Ordering::SeqCst);
        reach(rt, step, 3);
        7u32
    };
    event.notify(rt, 1.tag_with(tag))
}

// One thread has the lock, and another one sleeps for it. Then a third comes.
fn one_comes_after_the_sleeper<R: Runtime + Threads + Sync>(rt: &R, event: &Event<u32>) {
    let (_told, step) = (sharing(rt, event), &AtomicU32::new(0));
    let sleeps = || {
        reach(rt, step, 1);
        event.is_notified(rt)
    };
    let comes = || {
        reach(rt, step, 2);
        step.store(3, Ordering::SeqCst);
        event.is_notified(rt)
    };
    let notifies = || notify_in_steps(rt, event, step);
    let (told, found) = thread::join(rt, notifies, || thread::join(rt, sleeps, comes));
    check(rt, "told", told, Ok(1));
    check(rt, "whether one is told", found, (true, true));
}

#[test]
fn a_sleeper_is_woken_whoever_comes_after_it(rt: HostRuntime) {
    let event = new_event(&rt);
    for_two_seconds(&rt, || one_comes_after_the_sleeper(&rt, &event)).expect(&rt, "the time");
}

// While each of four threads has the lock for a while, those after it sleep.
fn sleep_side_by_side<R: Runtime + Threads + Sync>(rt: &R, event: &Event<u32>) {
    let next = || sharing(rt, event);
    let _waiting = (next(), next(), next(), next());
    let tag = || {
        rt.sleep(Duration::from_millis(20));
        7u32
    };
    let tells = |_| event.notify(rt, 1.additional().tag_with(tag));
    let told = thread::map_indices(rt, rt.alloc(), 4, &tells).expect(rt, "the threads");
    check(rt, "told", told.as_slice(), [Ok(1); 4].as_slice());
}

#[test]
fn all_that_sleep_for_the_lock_are_woken(rt: HostRuntime) {
    sleep_side_by_side(&rt, &new_event(&rt));
}

// Has the lock for 300 milliseconds from the meeting on.
fn notify_for_long<R: Runtime>(
    rt: &R,
    event: &Event<u32>,
    meeting: &Barrier,
) -> Result<usize, NotifyError> {
    let tag = || {
        meeting.wait(rt);
        rt.sleep(Duration::from_millis(300));
        7u32
    };
    event.notify(rt, 1.tag_with(tag))
}

// A thread waits for the lock, which another one has for long. A thread that looked at the lock again and again would use far
// more than ten milliseconds, on a busy machine too.
fn use_no_time<R: Runtime + CpuClock + Threads + Sync>(rt: &R, event: &Event<u32>) {
    let (_told, meeting) = (sharing(rt, event), &Barrier::new(2));
    let waits = || {
        meeting.wait(rt);
        let before = rt.thread_cpu_time().expect(rt, "the processor time");
        let is_told = event.is_notified(rt);
        let after = rt.thread_cpu_time().expect(rt, "the processor time");
        (is_told, after.saturating_sub(before))
    };
    let notifies = || notify_for_long(rt, event, meeting);
    let (told, (is_told, used)) = thread::join(rt, notifies, waits);
    check(rt, "told", told, Ok(1));
    check(rt, "whether it waited", is_told, true);
    check(rt, used, used < Duration::from_millis(10), true);
}

#[test]
fn a_thread_that_waits_for_the_lock_uses_no_processor_time(rt: HostRuntime) {
    use_no_time(&rt, &new_event(&rt));
}
