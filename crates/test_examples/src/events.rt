//! Callers of events: which listener gets which tag, and which tasks are woken.
mod flags;
mod timed;

use crate::support::{check, is_woken, listen, new_id, new_task, tell};
use event_listener::{Event, IntoTagged, Listener, WaitError, WaitReason};
use example_events::desk::{Desk, Sitting};
use example_events::polled::Order::{Stop, Work};
use example_events::polled::{NextOrder, await_tag};
use example_events::relayed::{TagError, wait_for_tag};
use example_events::tagged::tags_of_two;
use futures::task::Poll;
use futures::test::MockTask;
use std::thread;
use test_support::{Runtime, spin_until};

// One of two listeners is notified already when it is notified once more, and the other listener then.
#[test]
fn a_default_notification_counts_who_is_told_and_an_additional_one_does_not(rt: HostRuntime) {
    let tags = tags_of_two(&rt, rt.alloc(), new_id(&rt));
    check(&rt, "the tags of two", tags, Ok((7, 9)));
}

// Notifies a listener as soon as there is one.
fn tell_the_first<R: Runtime>(rt: &R, event: &Event<u32>) {
    spin_until(rt, || event.notify(rt, 1.tag(7u32)) == Ok(1));
}

#[test]
fn a_tag_comes_to_who_waits(rt: HostRuntime) {
    let (rt, event) = (&rt, &Event::with_tag(new_id(&rt)));
    let wait = || wait_for_tag(rt, rt.alloc(), event);
    let (waited, ()) = thread::join(rt, wait, || tell_the_first(rt, event));
    check(rt, "who waits", waited, Ok(7));
}

#[test]
fn a_tag_comes_to_who_awaits(rt: HostRuntime) {
    let (rt, event) = (&rt, &Event::with_tag(new_id(&rt)));
    let wait = || await_tag(rt, event).expect(rt, "a tag");
    let (awaited, ()) = thread::join(rt, wait, || tell_the_first(rt, event));
    check(rt, "who awaits", awaited, 7);
}

// The listener of a refused wait is dropped where its error is turned into another.
#[test]
fn who_is_refused_passes_its_tag_on(rt: HostRuntime) {
    let (rt, event) = (&rt, &Event::with_tag(new_id(&rt)));
    let (refused, next) = (listen(rt, event), listen(rt, event));
    tell(rt, event);
    let error = TagError::from(WaitError::Memory(refused));
    check(rt, "the error", error, TagError::Wait(WaitReason::Memory));
    check(rt, "the next", next.wait().map_err(|e| e.reason()), Ok(7));
}

#[test]
fn work_and_a_stop_wake_the_task(rt: HostRuntime) {
    let (rt, task) = (&rt, new_task(&rt));
    let (stop, work) = (Event::new(new_id(rt)), Event::with_tag(new_id(rt)));
    let next = || NextOrder::new(rt, rt.alloc(), &stop, &work).expect(rt, "an order");
    let mut order = next();
    check(rt, "no order", task.poll(&mut order), Poll::Pending);
    check(rt, "no order", task.poll(&mut order), Poll::Pending);
    is_woken(rt, &task, false);
    tell(rt, &work);
    is_woken(rt, &task, true);
    check(rt, "work", task.poll(&mut order), Poll::Ready(Ok(Work(7))));
    drop(order);
    let mut order = next();
    check(rt, "no order", task.poll(&mut order), Poll::Pending);
    check(rt, "told", stop.notify_additional(rt, 1), 1);
    is_woken(rt, &task, true);
    check(rt, "a stop", task.poll(&mut order), Poll::Ready(Ok(Stop)));
}

fn sits<R: Runtime>(rt: &R, task: &MockTask, sitting: &mut Sitting<'_, R>, expected: bool) {
    let has_seat = match task.poll(sitting) {
        Poll::Ready(seat) => seat.map(|_| true),
        Poll::Pending => Ok(false),
    };
    check(rt, "whether there is a seat", has_seat, Ok(expected));
}

// The task of the first waiter is woken once the seat is left. A future that gives up hands its turn on.
#[test]
fn those_who_wait_for_a_desk_sit_one_after_another(rt: HostRuntime) {
    let (rt, desk) = (&rt, &Desk::new(new_id(&rt)));
    let seat = desk.try_sit(rt).expect(rt, "a seat");
    let (first_task, second_task) = (new_task(rt), new_task(rt));
    let (mut first, mut second) = (desk.sit(rt, rt.alloc()), desk.sit(rt, rt.alloc()));
    sits(rt, &first_task, &mut first, false);
    sits(rt, &second_task, &mut second, false);
    drop(seat);
    is_woken(rt, &first_task, true);
    is_woken(rt, &second_task, false);
    drop(first);
    is_woken(rt, &second_task, true);
    sits(rt, &second_task, &mut second, true);
}
