//! Handles: clones, weak handles, the last handle of a side; and what handles and errors say.
use crate::support::{Runtime, Sides, check, sides};
use crate::waiting::Waiting;
use crate::ways::Answer;
use event_channel::{RecvTimeoutError, SendError, SendReason, TryRecvError, WaitError, bounded};
use futures::test::MockTask;
use std::alloc::{AllocError, AllocGlobal};
use std::cell::Cell;
use std::sync::{Arc, Wait};
use std::time::Clock;
use test_support::{Change, Changed};

// Checks that both sides say that there are so many handles of each.
fn counts<R: Runtime>(rt: &R, sides: &Sides<R>, expected: (usize, usize)) {
    let answer = (sides.0.sender_count(), sides.0.receiver_count());
    check(rt, "the counts of a sender", answer, expected);
    let answer = (sides.1.sender_count(), sides.1.receiver_count());
    check(rt, "the counts of a receiver", answer, expected);
}

// Makes one more sender and one more receiver, by clones or by weak handles.
fn more<R: Runtime>(rt: &R, sides: &Sides<R>, by_weak: bool) -> Sides<R> {
    let (sender, receiver) = sides;
    if !by_weak {
        let sender = sender.clone().expect(rt, "a sender");
        return (sender, receiver.clone().expect(rt, "a receiver"));
    }
    let weak = sender.downgrade().expect(rt, "a weak handle");
    let sender = weak.upgrade().expect(rt, "memory");
    let weak = receiver.downgrade().expect(rt, "a weak handle");
    let receiver = weak.upgrade().expect(rt, "memory");
    let sender = sender.expect(rt, "a sender");
    (sender, receiver.expect(rt, "a receiver"))
}

#[test]
fn handles_are_counted(rt: HostRuntime) {
    for by_weak in [false, true] {
        let first = sides(&rt, Some(3));
        let second = more(&rt, &first, by_weak);
        let third = more(&rt, &second, by_weak);
        counts(&rt, &first, (3, 3));
        let fourth = first.0.clone().expect(&rt, "a sender");
        counts(&rt, &third, (4, 3));
        drop(fourth);
        drop(first);
        drop(second);
        counts(&rt, &third, (1, 1));
        check(&rt, "whether it is closed", third.0.is_closed(), false);
    }
}

// A runtime value that is cloned so often, and then no more.
#[derive(Drop)]
struct Clones(Cell<u32>);

impl Change for Clones {
    fn before_clone<R: Wait>(&self, _rt: &R) -> Result<(), AllocError> {
        let left = self.0.get();
        self.0.set(left.saturating_sub(1));
        if left == 0 { Err(AllocError) } else { Ok(()) }
    }
}

// Four clones of the runtime value make a sender, a receiver and the weak handles, and no more are made. Were a refused handle
// counted, the channel would never close.
fn refuses_more<R: Runtime, C: Wait + Clock + Clone>(rt: &R, clones: &C) {
    let (sender, receiver) = bounded(clones, rt.alloc(), 1).expect(rt, "a channel");
    check(rt, "a send", sender.try_send(7usize), Ok(()));
    let weak_sender = sender.downgrade().expect(rt, "a weak handle");
    let weak_receiver = receiver.downgrade().expect(rt, "a weak handle");
    let refused = [
        sender.clone().is_err(),
        receiver.clone().is_err(),
        weak_sender.upgrade().is_err(),
        weak_receiver.upgrade().is_err(),
    ];
    check(rt, "refused", refused, [true; 4]);
    let counted = (receiver.sender_count(), sender.receiver_count());
    check(rt, "handles", counted, (1, 1));
    drop(sender);
    check(rt, "whether it is closed", receiver.is_closed(), true);
}

#[test]
fn a_handle_that_is_refused_is_not_counted(rt: HostRuntime) {
    let (rt, by) = (&rt, &Clones(Cell::new(4)));
    refuses_more(rt, &Changed { rt, by });
}

// Messages are shares of one value: a message that is sent, a message of a send that is dropped at once, and a message of a
// send that waited.
#[test]
fn a_channel_goes_with_its_last_handle_and_a_message_with_its_send(rt: HostRuntime) {
    let value = Arc::new(rt.alloc(), 7u64).expect(&rt, "memory");
    let share = || Arc::try_clone(&value).expect(&rt, "a share");
    let (sender, receiver) = bounded(&rt, rt.alloc(), 1).expect(&rt, "a channel");
    check(&rt, "a send", sender.try_send(share()).is_ok(), true);
    drop(sender.send(share()));
    check(&rt, "shares", Arc::strong_count(&value), 2);
    let (mut waits, task) = (
        sender.send(share()),
        MockTask::new(&rt).expect(&rt, "a task"),
    );
    check(&rt, "a poll", task.poll(&mut waits).is_pending(), true);
    drop(waits);
    check(&rt, "shares", Arc::strong_count(&value), 2);
    drop(sender.clone().expect(&rt, "a sender"));
    drop(receiver.clone().expect(&rt, "a receiver"));
    drop(sender);
    drop(receiver);
    check(&rt, "shares", Arc::strong_count(&value), 1);
}

// A message is dropped while a sender lives, and with the message the sender of an answer that it has: the receiver that waits
// for the answer is notified.
#[test]
fn messages_go_with_the_last_receiver(rt: HostRuntime) {
    let (requests, served) = bounded(&rt, rt.alloc(), 2).expect(&rt, "a channel");
    let (answers, answered) = sides(&rt, Some(1));
    let mut answer = Waiting::receive(&rt, &answered);
    check(&rt, "a poll", answer.poll(), Answer::Waits);
    let more = answers.clone().expect(&rt, "a sender");
    check(&rt, "a send", requests.try_send(answers).is_ok(), true);
    check(&rt, "a send", requests.try_send(more).is_ok(), true);
    drop(served.clone().expect(&rt, "a receiver"));
    check(&rt, "messages", requests.len(), 2);
    drop(served);
    check(&rt, "messages", requests.len(), 0);
    let end = (answer.is_woken(), answer.poll(), answered.sender_count());
    check(&rt, "the end", end, (true, Answer::Closed, 0));
    check(&rt, "a send", requests.is_closed(), true);
}

// A waiter on the other side is woken, and its wait answers that no handle is left.
#[test]
fn the_last_of_a_side_closes(rt: HostRuntime) {
    let (sender, receiver) = sides(&rt, Some(1));
    let mut stream = Waiting::stream(&rt, &receiver);
    check(&rt, "a poll", stream.poll(), Answer::Waits);
    drop(sender);
    let end = (stream.is_woken(), stream.poll(), receiver.sender_count());
    check(&rt, "the end", end, (true, Answer::Closed, 0));
    let (sender, receiver) = sides(&rt, Some(1));
    check(&rt, "a send", sender.try_send(7), Ok(()));
    let mut send = Waiting::send(&rt, &sender, 8);
    check(&rt, "a poll", send.poll(), Answer::Waits);
    drop(receiver);
    let end = (send.is_woken(), send.poll(), sender.receiver_count());
    check(&rt, "the end", end, (true, Answer::Closed, 0));
}

// Both sides have handles still.
#[test]
fn a_closed_channel_makes_no_handle_anew(rt: HostRuntime) {
    let sides = sides(&rt, Some(1));
    let weak_sender = sides.0.downgrade().expect(&rt, "a weak handle");
    let weak_receiver = sides.1.downgrade().expect(&rt, "a weak handle");
    check(&rt, "a close", sides.1.close(), true);
    let made = weak_sender.upgrade().expect(&rt, "memory").is_some();
    check(&rt, "whether a sender comes back", made, false);
    let made = weak_receiver.upgrade().expect(&rt, "memory").is_some();
    check(&rt, "whether a receiver comes back", made, false);
    counts(&rt, &sides, (1, 1));
}

#[test]
fn handles_futures_and_errors_are_shown(rt: HostRuntime) {
    let (sender, receiver) = sides(&rt, None);
    let (send, recv) = (sender.send(1), receiver.recv());
    let shown = format!(in rt.alloc(); "{sender:?}, {receiver:?}, {send:?}, {recv:?}");
    let expected = "Sender { .. }, Receiver { .. }, Send { .. }, Recv { .. }";
    let shown = shown.expect(&rt, "a text");
    check(&rt, "handles", shown.as_str(), expected);
    for (reason, expected) in [
        (SendReason::Full, "Full: there is no room for the message"),
        (SendReason::Closed, "Closed: the channel is closed"),
        (
            SendReason::TimedOut,
            "TimedOut: there was no room for the message in time",
        ),
        (SendReason::Memory, "Memory: no memory for a message"),
        (
            SendReason::WaitFailed(WaitError::Memory(AllocError)),
            "WaitFailed(Memory(AllocError)): no memory for a wait",
        ),
    ] {
        let error = SendError { message: 1, reason };
        let shown = format!(in rt.alloc(); "{error:?}: {error}");
        let shown = shown.expect(&rt, "a text");
        check(&rt, "an error", shown.as_str(), expected);
    }
    let (empty, late) = (TryRecvError::Empty, RecvTimeoutError::TimedOut);
    let shown = format!(in rt.alloc(); "{empty}, {late}");
    let expected = "there is no message to receive, there was no message to receive in time";
    let shown = shown.expect(&rt, "a text");
    check(&rt, "errors of receives", shown.as_str(), expected);
}
