//! Many threads and tasks at once: each message that is sent is received once, and the messages of one sender in order.
use crate::support::{Runtime, SharedRuntime, check, sides};
use crate::ways::{Answer, WAYS, of_recv};
use event_channel::{Receiver, Sender};
use std::alloc::AllocGlobal;
use std::thread;
use std::time::{Duration, Instant};
use test_support::deadline_after;

// The most messages of a sender. The numbers of the next sender's messages begin so much later.
const MOST: usize = 500;

// No message is sent after so many milliseconds, once a sender has sent so many messages.
const MILLISECONDS: u64 = 700;

const LEAST: usize = 20;

// Threads of each side. Each sends or receives in a way of its own; the first receives many at once.
const SIDE: usize = 8;

// A thread makes its handle anew by a weak one after so many messages.
const RENEWED: usize = 16;

// Sends the messages of a sender, until the channel is closed or the least number is sent and time is up.
fn send_all<R: Runtime>(
    rt: &R,
    end: Instant,
    patience: Duration,
    number: usize,
    sender: Sender<usize, R>,
) -> Vec<usize> {
    let (mut sender, way) = (sender, WAYS[number % SIDE]);
    let mut sent = Vec::with_capacity(rt.alloc(), MOST).expect(rt, "room");
    let first = number.saturating_mul(MOST);
    for message in first..first.saturating_add(MOST) {
        if sent.len() >= LEAST && Instant::now(rt).expect(rt, "the time") >= end {
            break;
        }
        if sent.len() % RENEWED == 0 {
            let weak = sender.downgrade().expect(rt, "a weak handle");
            sender = weak.upgrade().expect(rt, "memory").unwrap_or(sender);
        }
        match way.send(rt, &sender, message, patience) {
            Answer::Sent => sent.push(message).expect(rt, "room"),
            Answer::Closed => break,
            other => {
                check(rt, "what is late", other, Answer::Late);
                thread::yield_now();
            }
        }
    }
    sent
}

// Receives messages until the channel is closed and empty. Closes the channel after so many messages.
fn receive_all<R: Runtime>(
    rt: &R,
    closes_after: usize,
    patience: Duration,
    number: usize,
    receiver: Receiver<usize, R>,
) -> Vec<usize> {
    let (mut receiver, way) = (receiver, WAYS[number % SIDE]);
    let mut messages = Vec::new(rt.alloc());
    for _ in rt.forever() {
        let answer = if number == 0 {
            match receiver.recv_many(&mut messages, 5) {
                Ok(_) => Answer::Received(messages.pop().expect(rt, "a message")),
                Err(error) => of_recv(Err(error)),
            }
        } else {
            way.receive(rt, &receiver, patience)
        };
        match answer {
            Answer::Received(message) => messages.push(message).expect(rt, "room"),
            Answer::Closed => break,
            other => {
                check(rt, "no message", other, Answer::Late);
                thread::yield_now();
            }
        }
        if messages.len() >= closes_after {
            receiver.close();
        }
        if messages.len() % RENEWED == 0 {
            let weak = receiver.downgrade().expect(rt, "a weak handle");
            receiver = weak.upgrade().expect(rt, "memory").unwrap_or(receiver);
        }
    }
    messages
}

// Runs all threads, which have all handles of the channel. A call that has a limit waits so many microseconds.
fn run<R: SharedRuntime>(rt: &R, capacity: Option<usize>, patience: u64, closes_after: usize) {
    let plan = (capacity, patience, closes_after);
    let patience = Duration::from_micros(patience);
    let end = deadline_after(rt, Duration::from_millis(MILLISECONDS)).expect(rt, "an end");
    let (sender, receiver) = sides(rt, capacity);
    let (mut senders, mut receivers) = (Vec::new(rt.alloc()), Vec::new(rt.alloc()));
    for number in 0..SIDE {
        let own = (number, sender.clone().expect(rt, "a sender"));
        senders.push(own).expect(rt, "room");
        let own = (number, receiver.clone().expect(rt, "a receiver"));
        receivers.push(own).expect(rt, "room");
    }
    drop(sender);
    drop(receiver);
    let sends = |(number, sender)| send_all(rt, end, patience, number, sender);
    let receives = |(number, receiver)| receive_all(rt, closes_after, patience, number, receiver);
    let (sent, received) = thread::join(
        rt,
        || thread::map_vec(rt, senders, &sends),
        || thread::map_vec(rt, receivers, &receives),
    );
    let sent = sorted(rt, sent.expect(rt, "the threads"));
    let received = received.expect(rt, "the threads");
    for messages in &received {
        check(rt, plan, is_in_order(messages.as_slice()), true);
    }
    check(rt, "whether enough are sent", sent.len() >= 100, true);
    check(rt, plan, sorted(rt, received), sent);
}

// Returns whether the messages of each sender rise, at one receiver.
fn is_in_order(messages: &[usize]) -> bool {
    let mut next = [0usize; SIDE];
    for message in messages {
        match next.get_mut(*message / MOST) {
            Some(least) if *least <= *message => *least = message.saturating_add(1),
            _ => return false,
        }
    }
    true
}

// Returns the messages of all threads.
fn sorted<R: Runtime>(rt: &R, threads: Vec<Vec<usize>>) -> Vec<usize> {
    let mut all = Vec::new(rt.alloc());
    for message in threads.into_iter().flatten() {
        all.push(message).expect(rt, "room");
    }
    all.sort_unstable();
    all
}

// A call that waits for room may be out of time before it waits, or given up while it is notified. In the last runs a receiver
// closes the channel in the middle.
#[test]
fn each_message_is_received_once(rt: HostRuntime) {
    for (capacity, patience, closes_after) in [
        (Some(1), 0, usize::MAX),
        (Some(1), 50, usize::MAX),
        (Some(3), 20, usize::MAX),
        (Some(128), 50, usize::MAX),
        (None, 1, usize::MAX),
        (Some(1), 20, 100),
        (Some(3), 0, 100),
        (None, 50, 100),
    ] {
        run(&rt, capacity, patience, closes_after);
    }
}
