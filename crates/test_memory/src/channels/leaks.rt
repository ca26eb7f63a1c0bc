//! What channels drop gives its memory back: where little is left, it can be made and dropped again and again.
use crate::support::{Runtime, check, comes_back, new_task};
use event_channel::{RecvTimeoutError, bounded};
use std::sync::Wait;
use std::time::{Clock, Duration};
use test_support::{Changed, Ticks};

// A thread makes what it parks on, and reaches its limit.
fn is_late_often<R: Runtime, C: Wait + Clock + Clone>(rt: &R, clock: &C) {
    let sides = bounded::<u64, _>(clock, rt.alloc(), 1);
    let (_sender, receiver) = sides.expect(rt, "a channel");
    comes_back(rt, || {
        let late = receiver.recv_timeout(Duration::from_millis(1500));
        check(rt, "late", late, Err(RecvTimeoutError::TimedOut));
    });
}

#[test]
fn a_receive_that_is_late_gives_back_what_it_parks_on(rt: HostRuntime) {
    let (rt, by) = (&rt, &Ticks::new());
    is_late_often(rt, &Changed { rt, by });
}

// One message is in the channel, and each other one goes with its send.
fn of_a_channel<R: Runtime>(rt: &R) {
    let (sender, receiver) = bounded(rt, rt.alloc(), 1).expect(rt, "a channel");
    let message = || vec![in rt.alloc(); 7u64; 8].expect(rt, "a message");
    check(rt, "a send", sender.try_send(message()).is_ok(), true);
    drop(sender.send(message()));
    let mut waits = sender.send(message());
    let is_pending = new_task(rt).poll(&mut waits).is_pending();
    check(rt, "waits", is_pending, true);
    drop(waits);
    let late = sender.send_timeout(message(), Duration::ZERO);
    check(rt, "late", late.is_err(), true);
    drop(sender.clone().expect(rt, "a sender"));
    drop(receiver.clone().expect(rt, "a receiver"));
}

// A weak handle of a channel that is closed makes no other one.
fn of_a_weak_handle<R: Runtime>(rt: &R) {
    let (sender, receiver) = bounded::<u64, _>(rt, rt.alloc(), 1).expect(rt, "a channel");
    let weak_sender = sender.downgrade().expect(rt, "a weak handle");
    let weak_receiver = receiver.downgrade().expect(rt, "a weak handle");
    drop(sender);
    let made = weak_sender.upgrade().expect(rt, "memory").is_some();
    check(rt, "a sender", made, false);
    let made = weak_receiver.upgrade().expect(rt, "memory").is_some();
    check(rt, "a receiver", made, false);
}

#[test]
fn a_channel_goes_with_its_handles_and_a_message_with_its_send(rt: HostRuntime) {
    comes_back(&rt, || of_a_channel(&rt));
    comes_back(&rt, || of_a_weak_handle(&rt));
}
