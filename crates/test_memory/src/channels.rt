//! What channels leave where memory is refused: a message is in the channel or is returned, and is never lost.
mod leaks;

use crate::budget::Budget;
use crate::starved::Starved;
use crate::support::{Answer, Runtime, all_memory, check, count_refused, leave, new_task};
use event_channel::{
    ChannelError, Receiver, RecvError, RecvTimeoutError, SendError, SendReason, Sender,
    TryRecvError, WaitError, bounded, unbounded,
};
use event_queue::ListenError;
use futures::StreamExt;
use futures::task::Poll;
use std::alloc::AllocError;
use std::cell::Cell;
use std::time::Duration;

const LISTENING: WaitError = WaitError::Listen(ListenError::Memory);

const NO_MEMORY: WaitError = WaitError::Memory(AllocError);

const MAX: Duration = Duration::MAX;

type Sides<R> = (Sender<usize, R>, Receiver<usize, R>);

// A channel of numbers, with this capacity or without a limit.
fn make<R: Runtime>(rt: &R, capacity: Option<usize>) -> Result<Sides<R>, ChannelError> {
    match capacity {
        Some(capacity) => bounded(rt, rt.alloc(), capacity),
        None => unbounded(rt, rt.alloc()),
    }
}

// The call is refused for this reason.
fn refused<A: Answer, E: Answer, R: Runtime>(rt: &R, answer: Result<A, E>, refusal: E) {
    check(rt, "a refusal", answer, Err(refusal));
}

fn sends<R: Runtime>(rt: &R, sender: &Sender<usize, R>, messages: &[usize]) {
    for message in messages {
        check(rt, "a send", sender.try_send(*message), Ok(()));
    }
}

// These messages wait, and no others. They are taken out.
fn are_left<R: Runtime>(rt: &R, receiver: &Receiver<usize, R>, messages: &[usize]) {
    for message in messages {
        check(rt, "a message", receiver.try_recv(), Ok(*message));
    }
    refused(rt, receiver.try_recv(), TryRecvError::Empty);
}

fn unsent(message: usize, reason: SendReason) -> SendError<usize> {
    SendError { message, reason }
}

// Without memory each send that would block is refused what its thread parks on, and hands the message back.
fn sends_are_refused<R: Runtime>(rt: &R, sender: &Sender<usize, R>) {
    let refusal = unsent(7, SendReason::WaitFailed(NO_MEMORY));
    refused(rt, sender.send_blocking(7), refusal);
    let refusal = unsent(8, SendReason::WaitFailed(NO_MEMORY));
    refused(rt, sender.send_timeout(8, MAX), refusal);
}

// It notes whether a place in the queue was refused.
#[derive(Drop)]
struct FirstWait<'a, R> {
    rt: &'a R,
    needs_place: &'a Cell<bool>,
}

impl<R: Runtime> Starved for FirstWait<'_, R> {
    fn is_granted(&self, budget: &mut Budget, bytes: usize) -> bool {
        let rt = self.rt;
        let (sender, receiver) = make(rt, Some(1)).expect(rt, "a channel");
        sends(rt, &sender, &[0]);
        leave(rt, budget, bytes);
        // It has time to enter the queue, also on a machine that is busy.
        let sent = sender.send_timeout(7, Duration::from_millis(500));
        budget.give_back();
        are_left(rt, &receiver, &[0]);
        let SendError { message, reason } = sent.expect_err(rt, "room for a message");
        check(rt, "the message", message, 7);
        let SendReason::WaitFailed(refusal) = reason else {
            check(rt, "the reason", reason, SendReason::TimedOut);
            return true;
        };
        if refusal == LISTENING {
            self.needs_place.set(true);
        } else {
            check(rt, "the refusal", refusal, NO_MEMORY);
        }
        false
    }
}

#[test]
fn each_request_of_a_first_wait_is_refused(rt: HostRuntime) {
    let rt = &rt;
    let needs_place = &Cell::new(false);
    let refused = count_refused(rt, &FirstWait { rt, needs_place });
    check(rt, "whether some are refused", refused > 0, true);
    check(rt, "whether a place is", needs_place.get(), true);
}

#[test]
fn a_send_that_cannot_wait_hands_back(rt: HostRuntime) {
    let rt = &rt;
    let (sender, receiver) = make(rt, Some(2)).expect(rt, "a channel");
    sends(rt, &sender, &[0, 1]);
    let task = new_task(rt);
    let hog = all_memory(rt);
    sends_are_refused(rt, &sender);
    let polled = task.poll(&mut sender.send(9));
    let refusal = unsent(9, SendReason::WaitFailed(LISTENING));
    check(rt, "a poll", polled, Poll::Ready(Err(refusal)));
    drop(hog);
    are_left(rt, &receiver, &[0, 1]);
}

// A first send makes a place in the queue, for which it has time. A send that waits there needs no memory.
#[test]
fn a_send_at_a_place_that_is_there_waits(rt: HostRuntime) {
    let rt = &rt;
    let (sender, receiver) = make(rt, Some(2)).expect(rt, "a channel");
    sends(rt, &sender, &[0, 1]);
    let task = new_task(rt);
    let timed_out = sender.send_timeout(5, Duration::from_millis(500));
    refused(rt, timed_out, unsent(5, SendReason::TimedOut));
    let mut sending = sender.send(9);
    let hog = all_memory(rt);
    sends_are_refused(rt, &sender);
    let Poll::Pending = task.poll(&mut sending) else {
        panic!(rt; "there is no room");
    };
    check(rt, "a receive", receiver.try_recv(), Ok(0));
    let polled = task.poll(&mut sending);
    check(rt, "the poll after it", polled, Poll::Ready(Ok(())));
    drop(hog);
    are_left(rt, &receiver, &[1, 9]);
}

// Without memory each receive that would block is refused what its thread parks on.
fn receives_are_refused<R: Runtime>(rt: &R, receiver: &Receiver<usize, R>) {
    let refusal = RecvError::WaitFailed(NO_MEMORY);
    refused(rt, receiver.recv_blocking(), refusal);
    let refusal = RecvTimeoutError::WaitFailed(NO_MEMORY);
    refused(rt, receiver.recv_timeout(MAX), refusal);
}

#[test]
fn a_receive_that_cannot_wait_loses_nothing(rt: HostRuntime) {
    let rt = &rt;
    let (sender, receiver) = make(rt, Some(2)).expect(rt, "a channel");
    let task = new_task(rt);
    let mut receiving = receiver.recv();
    let hog = all_memory(rt);
    receives_are_refused(rt, &receiver);
    let refusal = RecvError::WaitFailed(LISTENING);
    let polled = task.poll(&mut receiving);
    check(rt, "a poll", polled, Poll::Ready(Err(refusal)));
    sends(rt, &sender, &[5]);
    are_left(rt, &receiver, &[5]);
    drop(hog);
    let polled = task.poll(&mut receiving);
    check(rt, "a poll with memory", polled, Poll::Pending);
}

// An item that says so is not the end of a stream.
#[test]
fn an_item_that_cannot_be_waited_for_is_an_error(rt: HostRuntime) {
    let rt = &rt;
    let (sender, receiver) = make(rt, Some(2)).expect(rt, "a channel");
    let (mut stream, task) = (receiver.clone().expect(rt, "a receiver"), new_task(rt));
    let hog = all_memory(rt);
    let item = task.poll(&mut stream.next());
    check(rt, "an item", item, Poll::Ready(Some(Err(LISTENING))));
    let item = Poll::Ready(receiver.iter().next());
    check(rt, "an item", item, Poll::Ready(Some(Err(NO_MEMORY))));
    sends(rt, &sender, &[5]);
    let item = task.poll(&mut stream.next());
    check(rt, "an item", item, Poll::Ready(Some(Ok(5))));
    drop(hog);
}

// Two polls make places in the queue. A receive that waits there needs no memory, nor does a receive that takes such a place.
#[test]
fn a_receive_at_a_place_that_is_there_waits(rt: HostRuntime) {
    let rt = &rt;
    let (sender, receiver) = make(rt, Some(2)).expect(rt, "a channel");
    let task = new_task(rt);
    let mut stream = receiver.clone().expect(rt, "a receiver");
    let mut receiving = receiver.recv();
    let polled = task.poll(&mut receiving);
    check(rt, "a poll", polled, Poll::Pending);
    let item = task.poll(&mut stream.next());
    check(rt, "no item", item, Poll::Pending);
    sends(rt, &sender, &[6]);
    let polled = task.poll(&mut receiving);
    check(rt, "a poll", polled, Poll::Ready(Ok(6)));
    let hog = all_memory(rt);
    receives_are_refused(rt, &receiver);
    let item = task.poll(&mut stream.next());
    check(rt, "no item", item, Poll::Pending);
    sends(rt, &sender, &[7, 8]);
    let item = task.poll(&mut stream.next());
    check(rt, "an item", item, Poll::Ready(Some(Ok(7))));
    let polled = task.poll(&mut receiving);
    check(rt, "a poll", polled, Poll::Ready(Ok(8)));
    drop(hog);
    are_left(rt, &receiver, &[]);
}

// Room for the first message is refused, which stays in the channel.
#[test]
fn many_without_room_for_one_are_refused(rt: HostRuntime) {
    let rt = &rt;
    let (sender, receiver) = make(rt, Some(2)).expect(rt, "a channel");
    sends(rt, &sender, &[5]);
    let mut many = Vec::new(rt.alloc());
    let hog = all_memory(rt);
    let refusal = RecvError::WaitFailed(NO_MEMORY);
    refused(rt, receiver.recv_many(&mut many, 2), refusal);
    drop(hog);
    are_left(rt, &receiver, &[5]);
}

// Room for one message is there, and room for more is refused.
#[test]
fn many_without_room_for_more_are_one(rt: HostRuntime) {
    let rt = &rt;
    let (sender, receiver) = make(rt, Some(64)).expect(rt, "a channel");
    for message in 0..64 {
        sends(rt, &sender, &[message]);
    }
    let mut many = Vec::with_capacity(rt.alloc(), 1).expect(rt, "room");
    let hog = all_memory(rt);
    let count = receiver.recv_many(&mut many, 64);
    drop(hog);
    check(rt, "how many are received", count, Ok(1));
    check(rt, "them", many.as_slice(), [0].as_slice());
    check(rt, "how many are left", receiver.len(), 63);
    for message in 1..64 {
        check(rt, "the next", receiver.try_recv(), Ok(message));
    }
}

// A message that was not taken in wakes nobody, and is returned.
#[test]
fn a_send_that_finds_no_memory_hands_back(rt: HostRuntime) {
    let rt = &rt;
    let (sender, receiver) = make(rt, None).expect(rt, "a channel");
    let (task, other) = (new_task(rt), new_task(rt));
    let mut receiving = receiver.recv();
    check(rt, "a poll", task.poll(&mut receiving), Poll::Pending);
    let hog = all_memory(rt);
    refused(rt, sender.try_send(6), unsent(6, SendReason::Memory));
    refused(rt, sender.force_send(5), unsent(5, SendReason::Memory));
    refused(rt, sender.send_blocking(7), unsent(7, SendReason::Memory));
    refused(
        rt,
        sender.send_timeout(8, MAX),
        unsent(8, SendReason::Memory),
    );
    let polled = other.poll(&mut sender.send(9));
    let refusal = Poll::Ready(Err(unsent(9, SendReason::Memory)));
    check(rt, "a poll", polled, refusal);
    drop(hog);
    check(rt, "whether it was woken", task.is_woken(), false);
    check(rt, "messages", sender.len(), 0);
}

// Those before it are all there.
#[test]
fn a_channel_that_finds_no_memory_keeps_its_messages(rt: HostRuntime) {
    let rt = &rt;
    let (sender, receiver) = make(rt, None).expect(rt, "a channel");
    sends(rt, &sender, &[0]);
    let hog = all_memory(rt);
    let mut sent = 1usize;
    for _ in 1..1000 {
        sent = sent.saturating_add(usize::from(sender.try_send(sent).is_ok()));
    }
    refused(rt, sender.try_send(sent), unsent(sent, SendReason::Memory));
    drop(hog);
    check(rt, "messages", sender.len(), sent);
    for message in 0..sent {
        check(rt, "the next", receiver.try_recv(), Ok(message));
    }
    are_left(rt, &receiver, &[]);
}

// A channel with a limit has room for its messages from the beginning, and a call that need not wait needs no memory.
#[test]
fn calls_that_need_no_memory(rt: HostRuntime) {
    let rt = &rt;
    let (sender, receiver) = make(rt, Some(2)).expect(rt, "a channel");
    let hog = all_memory(rt);
    sends(rt, &sender, &[1]);
    check(rt, "a send", sender.send_blocking(2), Ok(()));
    refused(rt, sender.try_send(9), unsent(9, SendReason::Full));
    check(rt, "a send by force", sender.force_send(3), Ok(Some(1)));
    check(rt, "one more", sender.force_send(1), Ok(Some(2)));
    check(rt, "a receive", receiver.recv_blocking(), Ok(3));
    check(rt, "the next", receiver.recv_timeout(MAX), Ok(1));
    are_left(rt, &receiver, &[]);
    drop(hog);
}

#[test]
fn polls_clones_and_a_close_need_no_memory(rt: HostRuntime) {
    let rt = &rt;
    let (sender, receiver) = make(rt, Some(2)).expect(rt, "a channel");
    let task = new_task(rt);
    let hog = all_memory(rt);
    let polled = task.poll(&mut sender.send(3));
    check(rt, "a poll", polled, Poll::Ready(Ok(())));
    let polled = task.poll(&mut receiver.recv());
    check(rt, "a poll", polled, Poll::Ready(Ok(3)));
    let cloned = sender.clone().is_ok() && receiver.clone().is_ok();
    check(rt, "clones", cloned, true);
    check(rt, "whether it was open", sender.close(), true);
    let refusal = unsent(8, SendReason::Closed);
    refused(rt, sender.send_timeout(8, MAX), refusal);
    drop(hog);
}

// Nobody waits past its limit, and a waiter that is notified before its thread blocks makes nothing to park on.
#[test]
fn calls_that_are_late_or_told_need_no_memory(rt: HostRuntime) {
    let (rt, now) = (&rt, Duration::ZERO);
    let (sender, receiver) = make(rt, Some(1)).expect(rt, "a channel");
    let (mut told, task) = (receiver.recv(), new_task(rt));
    check(rt, "a poll", task.poll(&mut told), Poll::Pending);
    let hog = all_memory(rt);
    let late = receiver.recv_timeout(now);
    refused(rt, late, RecvTimeoutError::TimedOut);
    sends(rt, &sender, &[7]);
    let late = sender.send_timeout(8, now);
    refused(rt, late, unsent(8, SendReason::TimedOut));
    check(rt, "told", told.wait(), Ok(7));
    drop(hog);
}
