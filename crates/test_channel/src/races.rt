//! Threads that make their calls at the same time, on one channel after another.
use crate::support::{Runtime, SharedRuntime, Sides, check, sides};
use event_channel::{Receiver, Sender};
use std::alloc::AllocGlobal;
use std::sync::atomic::{AtomicUsize, Ordering};
use std::sync::{Barrier, Wait};
use std::thread;
use std::time::Clock;
use test_support::{for_two_seconds, spin_until};

// A thread makes its call so many looks later at most.
const SKEW: usize = 16;

// The channels of a race, in which each delay of one thread meets each of the other.
const CHANNELS: usize = 256;

// How often a thread sends by twos.
const TURNS: u32 = 200_000;

// Waits until both threads have come so far, and a few looks longer.
fn meet<R: Runtime>(rt: &R, come: &AtomicUsize, far: usize, looks: usize) {
    come.fetch_add(1, Ordering::SeqCst);
    for _ in rt.forever() {
        if come.load(Ordering::SeqCst) >= far {
            break;
        }
        thread::yield_now();
    }
    for _ in 0..looks {
        come.load(Ordering::SeqCst);
    }
}

// Makes new channels: for each of two threads both sides of all channels.
fn channels<R: Runtime>(rt: &R) -> (Vec<Sides<R>>, Vec<Sides<R>>) {
    let (mut first, mut second) = (Vec::new(rt.alloc()), Vec::new(rt.alloc()));
    for _ in 0..CHANNELS {
        let (sender, receiver) = sides(rt, Some(1));
        let clone = sender.clone().expect(rt, "a sender");
        let clones = (clone, receiver.clone().expect(rt, "a receiver"));
        first.push(clones).expect(rt, "room");
        second.push((sender, receiver)).expect(rt, "room");
    }
    (first, second)
}

// Drops a sender of each channel or a receiver, as the other thread does. Then the channel is closed.
fn drop_all<R: Runtime>(rt: &R, all: Vec<Sides<R>>, come: &AtomicUsize, is_first: bool) {
    for (number, (sender, receiver)) in all.into_iter().enumerate() {
        let looks = if is_first {
            number % SKEW
        } else {
            number / SKEW
        };
        let far = number.saturating_mul(4).saturating_add(2);
        meet(rt, come, far, looks);
        let is_closed = if number % 2 == 0 {
            drop(sender);
            meet(rt, come, far.saturating_add(2), 0);
            receiver.is_closed()
        } else {
            drop(receiver);
            meet(rt, come, far.saturating_add(2), 0);
            sender.is_closed()
        };
        check(rt, number, is_closed, true);
    }
}

fn drop_last_two<R: SharedRuntime>(rt: &R) {
    let ((first, second), come) = (channels(rt), &AtomicUsize::new(0));
    thread::join(
        rt,
        || drop_all(rt, first, come, true),
        || drop_all(rt, second, come, false),
    );
}

#[test]
fn the_last_two_of_a_side_close_at_once(rt: HostRuntime) {
    for_two_seconds(&rt, || drop_last_two(&rt)).expect(&rt, "the time");
}

// How many threads make handles of one side and drop them, and how many each.
const THREADS: usize = 4;

const HANDLES: usize = 64;

#[derive(Drop)]
enum Handle<R: Wait + Clock + Clone> {
    Sender(Sender<usize, R>),
    Receiver(Receiver<usize, R>),
}

impl<R: Runtime> Handle<R> {
    // Makes another handle, by a clone or by a weak handle.
    fn more(&self, rt: &R, by_weak: bool) -> Self {
        match self {
            Handle::Sender(sender) if by_weak => {
                let weak = sender.downgrade().expect(rt, "a weak handle");
                let made = weak.upgrade().expect(rt, "memory");
                Handle::Sender(made.expect(rt, "a sender"))
            }
            Handle::Receiver(receiver) if by_weak => {
                let weak = receiver.downgrade().expect(rt, "a weak handle");
                let made = weak.upgrade().expect(rt, "memory");
                Handle::Receiver(made.expect(rt, "a receiver"))
            }
            Handle::Sender(sender) => Handle::Sender(sender.clone().expect(rt, "a sender")),
            Handle::Receiver(receiver) => {
                Handle::Receiver(receiver.clone().expect(rt, "a receiver"))
            }
        }
    }
}

// Makes the thread's handles, as the other threads make theirs. Once the handles are counted the thread drops them, with the
// handle that it was given.
fn make_and_drop<R: Runtime>(rt: &R, own: Handle<R>, come: &AtomicUsize, made: &Barrier) {
    let mut more = Vec::with_capacity(rt.alloc(), HANDLES).expect(rt, "room");
    meet(rt, come, THREADS, 0);
    for number in 0..HANDLES {
        more.push(own.more(rt, number % 2 == 1)).expect(rt, "room");
    }
    made.wait(rt);
    made.wait(rt);
    come.fetch_add(1, Ordering::SeqCst);
    spin_until(rt, || come.load(Ordering::SeqCst) >= 2 * THREADS);
    drop(more);
    drop(own);
}

// All handles of one side are made and dropped by the threads. The other side counts them, and answers that no handle is left.
fn count_and_close<R: SharedRuntime>(rt: &R, is_senders: bool) {
    let ((sender, receiver), come) = (sides(rt, None), &AtomicUsize::new(0));
    let (first, other) = if is_senders {
        (Handle::Sender(sender), Handle::Receiver(receiver))
    } else {
        (Handle::Receiver(receiver), Handle::Sender(sender))
    };
    let count = || match &other {
        Handle::Sender(sender) => (sender.receiver_count(), sender.is_closed()),
        Handle::Receiver(receiver) => (receiver.sender_count(), receiver.is_closed()),
    };
    let mut own = Vec::new(rt.alloc());
    for _ in 1..THREADS {
        own.push(first.more(rt, false)).expect(rt, "room");
    }
    own.push(first).expect(rt, "room");
    let made = &Barrier::new(THREADS + 1);
    let each = |own| make_and_drop(rt, own, come, made);
    let counts = || {
        made.wait(rt);
        let counted = count();
        made.wait(rt);
        counted
    };
    let (ended, counted) = thread::join(rt, || thread::map_vec(rt, own, &each), counts);
    ended.expect(rt, "the threads");
    check(rt, is_senders, counted, (THREADS * (HANDLES + 1), false));
    check(rt, is_senders, count(), (0, true));
}

#[test]
fn handles_that_are_made_and_dropped_at_once_are_counted(rt: HostRuntime) {
    for is_senders in [true, false] {
        for_two_seconds(&rt, || count_and_close(&rt, is_senders)).expect(&rt, "the time");
    }
}

// Sends the last message of each channel.
fn send_last<R: Runtime>(rt: &R, all: Vec<Sides<R>>, come: &AtomicUsize) {
    for (number, (sender, _receiver)) in all.into_iter().enumerate() {
        let far = number.saturating_mul(2).saturating_add(2);
        meet(rt, come, far, number % SKEW);
        let sent = sender.try_send(7);
        drop(sender);
        check(rt, "the last message", sent, Ok(()));
    }
}

// Receives the last message of each channel, before the end of that channel.
fn receive_until_closed<R: Runtime>(rt: &R, all: Vec<Sides<R>>, come: &AtomicUsize) {
    for (number, (sender, receiver)) in all.into_iter().enumerate() {
        drop(sender);
        let far = number.saturating_mul(2).saturating_add(2);
        meet(rt, come, far, number / SKEW);
        let mut received = None;
        for _ in rt.forever() {
            match receiver.try_recv() {
                Ok(message) => received = Some(message),
                Err(error) if error.is_closed() => break,
                Err(_) => {}
            }
        }
        check(rt, number, received, Some(7));
    }
}

fn end_as_others_receive<R: SharedRuntime>(rt: &R) {
    let ((first, second), come) = (channels(rt), &AtomicUsize::new(0));
    thread::join(
        rt,
        || send_last(rt, first, come),
        || receive_until_closed(rt, second, come),
    );
}

#[test]
fn no_receive_answers_closed_before_the_last_message(rt: HostRuntime) {
    for_two_seconds(&rt, || end_as_others_receive(&rt)).expect(&rt, "the time");
}

// Sends messages by twos, and takes one message back each time. Then closes the channel.
fn send_and_take<R: Runtime>(sender: &Sender<usize, R>, receiver: &Receiver<usize, R>) {
    let mut next = 0usize;
    for turn in 0..2 * TURNS {
        if sender.try_send(next).is_ok() {
            next = next.saturating_add(1);
        }
        if turn % 2 == 1 {
            let _ = receiver.try_recv();
        }
    }
    sender.close();
}

// Receives two messages at once, which are adjacent.
fn take_twos<R: Runtime>(rt: &R, receiver: &Receiver<usize, R>) {
    let mut two = Vec::with_capacity(rt.alloc(), 2).expect(rt, "room");
    for _ in rt.forever() {
        two.clear();
        if receiver.recv_many(&mut two, 2).is_err() {
            break;
        }
        if let [first, second] = two.as_slice() {
            check(rt, *first, *second, first.saturating_add(1));
        }
    }
}

#[test]
fn many_received_at_once_are_adjacent(rt: HostRuntime) {
    let (sender, receiver) = &sides(&rt, Some(128));
    thread::join(
        &rt,
        || take_twos(&rt, receiver),
        || send_and_take(sender, receiver),
    );
}
