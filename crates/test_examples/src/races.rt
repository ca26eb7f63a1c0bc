//! Threads that race, most for two seconds each time.
use crate::support::{Host, check, new_id, new_task};
use event_listener::{Event, RecordedCall, RecordedReply, RegisterResult};
use example_events::desk::Desk;
use example_events::flag::Flag;
use example_events::heard::hear_another;
use example_events::locks::{count, count_with_permits};
use example_events::meeting::wait_for_setter;
use example_events::passed::pass_on;
use example_events::race::race;
use futures::test::MockTask;
use std::sync::atomic::{AtomicBool, Ordering};
use std::thread;
use test_support::{for_two_seconds, spin_until};

// Worked row 21, under a lock.
#[test]
fn ten_threads_count_to_ten(rt: HostRuntime) {
    let by_lock = |threads| count(rt, rt.alloc(), new_id(&rt), threads);
    check(&rt, "no threads", by_lock(0), Ok(0));
    for_two_seconds(&rt, || check(&rt, "a lock", by_lock(10), Ok(10))).expect(&rt, "the time");
}

// Worked row 21, with three permits.
#[test]
fn ten_threads_with_permits_count_to_ten(rt: HostRuntime) {
    let by_permit = |n, permits| count_with_permits(rt, rt.alloc(), new_id(&rt), n, permits);
    check(&rt, "no threads, no permits", by_permit(0, 0), Ok(0));
    let raced = for_two_seconds(&rt, || check(&rt, "permits", by_permit(10, 3), Ok(10)));
    raced.expect(&rt, "the time");
}

// Whichever thread is first, the wait ends and leaves no listener.
#[test]
fn a_thread_waits_until_another_one_sets_the_flag(rt: HostRuntime) {
    for_two_seconds(&rt, || {
        let flag = Flag::new(new_id(&rt));
        let wait = || flag.wait(&rt, rt.alloc());
        let (waited, ()) = thread::join(&rt, wait, || flag.set(&rt));
        check(&rt, "the wait", waited, Ok(()));
        check(&rt, "listeners", flag.total_listeners(&rt), 0);
        let waited = wait_for_setter(rt, rt.alloc(), new_id(&rt));
        check(&rt, "the program", waited, Ok(()));
    })
    .expect(&rt, "the time");
}

// Each of two threads starts one more that notifies all.
#[test]
fn two_threads_hear_what_two_others_say(rt: HostRuntime) {
    let event = Event::new(new_id(&rt));
    let hears = || hear_another(&rt, rt.alloc(), &event);
    for _ in 0..100 {
        let heard = thread::join(&rt, hears, hears);
        check(&rt, "what both hear", heard, (Ok(true), Ok(true)));
        check(&rt, "listeners", event.total_listeners(&rt), 0);
    }
}

// Alone, the two listeners are all that listen; beside another listener they are not.
#[test]
fn a_drop_passes_on_to_the_next(rt: HostRuntime) {
    let event = Event::new(new_id(&rt));
    let passes = || pass_on(&rt, rt.alloc(), &event);
    check(&rt, "alone", passes(), Ok(Some(true)));
    let third = event.listen(&rt, rt.alloc()).expect(&rt, "a listener");
    check(&rt, "beside a third", passes(), Ok(None));
    drop(third);
    for _ in 0..100 {
        let (one, other) = thread::join(&rt, passes, passes);
        check(&rt, "errors", one.is_err() || other.is_err(), false);
        check(&rt, "listeners", event.total_listeners(&rt), 0);
    }
}

// Another thread leaves the seat. The waiter tries as soon as its task is woken, and needs no lock for that.
fn who_is_woken_sits<R: Host>(rt: &R, desk: &Desk, task: &MockTask) {
    let seat = desk.try_sit(rt).expect(rt, "a seat");
    let mut waiting = desk.sit(rt, rt.alloc());
    let is_pending = task.poll(&mut waiting).is_pending();
    check(rt, "whether it waits", is_pending, true);
    let is_looking = AtomicBool::new(false);
    let ((), is_seated) = thread::join(
        rt,
        || {
            spin_until(rt, || is_looking.load(Ordering::SeqCst));
            drop(seat);
        },
        || {
            is_looking.store(true, Ordering::SeqCst);
            spin_until(rt, || task.is_woken());
            desk.try_sit(rt).is_some()
        },
    );
    check(rt, "whether it sits", is_seated, true);
}

#[test]
fn who_is_woken_finds_the_seat_free(rt: HostRuntime) {
    let (desk, task) = (Desk::new(new_id(&rt)), new_task(&rt));
    let raced = for_two_seconds(&rt, || who_is_woken_sits(&rt, &desk, &task));
    raced.expect(&rt, "the time");
}

// The record of a race has one notification, which is that of the first hand. Each listener took it, or was dropped.
fn is_recorded_whole<R: Host>(rt: &R) {
    let record = race(rt, rt.alloc(), new_id(rt), 4).expect(rt, "a record");
    let entries = || record.entries().iter();
    let took = RecordedReply::Registered(RegisterResult::Notified(()));
    let came = entries().filter(|entry| entry.call == RecordedCall::Listen);
    let ended = entries().filter(|entry| entry.reply == took || entry.hand.is_none());
    check(rt, "the ends", ended.count(), came.count());
    let mut told = entries().filter(|entry| matches!(entry.call, RecordedCall::Notify { .. }));
    let first = told.next().map(|entry| entry.hand);
    check(rt, "the first notification", first, Some(Some(0)));
    check(rt, "more notifications", told.count(), 0);
    check(rt, "a replay", record.replays(rt.alloc()), Ok(true));
}

#[test]
fn a_race_is_recorded_whole(rt: HostRuntime) {
    for_two_seconds(&rt, || is_recorded_whole(&rt)).expect(&rt, "the time");
}
