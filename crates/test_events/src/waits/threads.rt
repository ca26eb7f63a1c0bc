//! Threads with a hand each on one recorded event, and on two.
use crate::support::check;
use crate::waits::stage::{SharedRuntime, now};
use calls::{Act, Reply};
use calls_events::{HandCalls, On, close, new_event};
use event_listener::{EventId, EventIds, Hand, RecordedEvent};
use std::sync::Wait;
use std::thread;
use std::time::{Clock, Duration};
use test_support::any_waker;

const HANDS: usize = 8;

const ROUNDS: usize = 200;

// A round of one thread, which listens, and does one of four things with its listener. Answers whether it dropped the
// listener while that was in the queue.
fn play_round<C: HandCalls, R: SharedRuntime>(
    rt: &R,
    on: &C,
    hand: &mut Hand<u32>,
    round: usize,
) -> bool {
    let number = hand.number();
    let Ok(mut listener) = on.listen(hand) else {
        panic!(rt; "no listener");
    };
    match number.wrapping_add(round) % 4 {
        0 => {
            let waker = any_waker(rt).expect(rt, "a waker");
            let polled = on.poll(hand, &mut listener, waker);
            drop(listener);
            let is_told = matches!(polled, Reply::Ready(_));
            check(
                rt,
                "polled",
                is_told || matches!(polled, Reply::Pending),
                true,
            );
            return !is_told;
        }
        1 => {
            let (reply, _) = on.end(hand, listener, Act::Discard);
            check(rt, "discarded", matches!(reply, Reply::Discarded(_)), true);
        }
        2 => {
            let limit = Duration::from_millis(1);
            let (reply, _) = on.end(hand, listener, Act::Timeout(limit));
            let is_told = matches!(reply, Reply::Ready(_));
            check(
                rt,
                "waited",
                is_told || matches!(reply, Reply::TimedOut),
                true,
            );
        }
        _ => {
            let tag = u32::try_from(number).expect(rt, "a tag");
            let reply = on.notify(hand, 1, round % 2 == 1, tag);
            check(rt, "notified", matches!(reply, Reply::Told(0 | 1, _)), true);
            drop(listener);
            return true;
        }
    }
    false
}

// The rounds of one thread. Answers its hand, and how often it dropped a listener that was in the queue.
fn play<C: HandCalls, R: SharedRuntime>(rt: &R, on: &C, hand: Hand<u32>) -> (Hand<u32>, usize) {
    let (mut hand, mut dropped) = (hand, 0usize);
    for round in 0..ROUNDS {
        let is_dropped = play_round(rt, on, &mut hand, round);
        dropped = dropped.saturating_add(usize::from(is_dropped));
    }
    (hand, dropped)
}

// Each hand makes its rounds in a thread of its own. The record has what they noted, one entry more for each listener that
// was dropped while it was in the queue, and no other one.
fn make_one_record<R: SharedRuntime>(rt: &R) {
    let (event, hands) = new_event(rt.alloc(), HANDS).expect(rt, "an event");
    let on = On { rt, event: &event };
    let played = thread::map_vec(rt, hands, &|hand| play(rt, &on, hand));
    let (mut hands, mut notes, mut drops) = (Vec::new(rt.alloc()), 0usize, 0usize);
    for (hand, dropped) in played.expect(rt, "room for the threads") {
        notes = notes.saturating_add(hand.notes().len());
        drops = drops.saturating_add(dropped);
        hands.push(hand).expect(rt, "room for a hand");
    }
    check(rt, "hands", hands.len(), HANDS);
    let closed = close(event, hands).expect(rt, "hands of the event");
    let record = closed.expect(rt, "a record");
    let entries = || record.entries().iter();
    let noted = entries().filter(|entry| entry.hand.is_some());
    check(rt, "noted entries", noted.count(), notes);
    let ends = entries().filter(|entry| entry.hand.is_none());
    check(rt, "entries of no hand", ends.count(), drops);
    check(rt, "replays", record.replays(rt.alloc()), Ok(true));
}

#[test]
fn eight_hands_on_one_record(rt: HostRuntime) {
    for _ in 0..20 {
        make_one_record(&rt);
    }
}

// How often a thread notifies at most until somebody is told.
const TRIES: u32 = 100_000;

// How long the thread waits at most then. A thread that is not woken is late, and fails.
fn limit() -> Duration {
    Duration::from_secs(10)
}

// Notifies until somebody is told, or often enough. Answers whether somebody was.
fn tell<C: HandCalls, R: SharedRuntime>(rt: &R, on: &C, hand: &mut Hand<u32>, tag: u32) -> bool {
    for _ in 0..TRIES {
        if let Reply::Told(1, _) = on.notify(hand, 1, true, tag) {
            return true;
        }
        rt.sleep(Duration::from_micros(100));
    }
    false
}

// A thread with a hand of both events: it listens to the first, tells who listens to the second, and waits until it is told
// itself.
fn tell_and_wait<C: HandCalls, R: SharedRuntime>(
    rt: &R,
    (own, other): (&C, &C),
    (own_hand, other_hand): (Hand<u32>, Hand<u32>),
) -> (Hand<u32>, Hand<u32>) {
    let (mut own_hand, mut other_hand) = (own_hand, other_hand);
    let Ok(listener) = own.listen(&mut own_hand) else {
        panic!(rt; "no listener");
    };
    let is_told = tell(rt, other, &mut other_hand, 7);
    check(rt, "whether the other one is told", is_told, true);
    let start = now(rt);
    let (reply, _) = own.end(&mut own_hand, listener, Act::Timeout(limit()));
    check(rt, "the tag", matches!(reply, Reply::Ready(Some(7))), true);
    let taken = now(rt).saturating_sub(start);
    check(rt, taken, taken < limit() / 2, true);
    (own_hand, other_hand)
}

// An event with two hands.
fn new_pair<R: SharedRuntime>(rt: &R, id: EventId) -> (RecordedEvent<u32>, Hand<u32>, Hand<u32>) {
    let (event, mut hands) = RecordedEvent::new(rt.alloc(), id, 2).expect(rt, "an event");
    let (second, first) = (
        hands.pop().expect(rt, "a hand"),
        hands.pop().expect(rt, "a hand"),
    );
    (event, first, second)
}

fn close_pair<R: SharedRuntime>(
    rt: &R,
    event: RecordedEvent<u32>,
    (first, second): (Hand<u32>, Hand<u32>),
) {
    let mut hands = Vec::new(rt.alloc());
    hands.push(first).expect(rt, "room for a hand");
    hands.push(second).expect(rt, "room for a hand");
    let closed = close(event, hands).expect(rt, "hands of the event");
    check(rt, "whether it is closed", closed.is_ok(), true);
}

// Were one thread to run after the other, neither would be told.
fn tell_each_other<R: SharedRuntime>(rt: &R) {
    let mut ids = EventIds::new();
    let mut next = || ids.next().expect(rt, "an identity");
    let (a, a0, a1) = new_pair(rt, next());
    let (b, b0, b1) = new_pair(rt, next());
    let (on_a, on_b) = (On { rt, event: &a }, On { rt, event: &b });
    let ((a0, b0), (b1, a1)) = thread::join(
        rt,
        || tell_and_wait(rt, (&on_a, &on_b), (a0, b0)),
        || tell_and_wait(rt, (&on_b, &on_a), (b1, a1)),
    );
    close_pair(rt, a, (a0, a1));
    close_pair(rt, b, (b0, b1));
}

#[test]
fn two_recorded_events_are_told_in_turn(rt: HostRuntime) {
    for _ in 0..20 {
        tell_each_other(&rt);
    }
}
