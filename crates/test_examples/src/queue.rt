//! Callers of the queue: a line of visitors under a lock, and which visitor is called with which tag.
use crate::support::check;
use event_queue::ListenError::SerialsUsedUp;
use event_queue::{Key, List, RegisterResult, Woken};
use example_events::queue::counted::{admit_counted, leave_counted};
use example_events::queue::shared::SharedTurnstile;
use example_events::queue::tagged::{announce, call_to_desk};
use example_events::queue::turnstile::Turnstile;
use std::fmt::Debug;
use std::process::Abort;

// What the calls do to a line say the clauses of `Turnstile`.
#[test]
fn calls_under_the_lock_reach_the_line(rt: HostRuntime) {
    let line = SharedTurnstile::with_room(rt.alloc(), 0).expect(&rt, "room");
    let join = |visitor| line.join(&rt, visitor).expect(&rt, "a ticket");
    let (first, second) = (join(10), join(20));
    join(30);
    let admitted = line.admit(&rt, rt.alloc(), 2).expect(&rt, "room");
    check(&rt, "admitted", admitted.tasks(), &[10, 20]);
    check(&rt, "enter", line.enter(&rt, first, 10), true);
    check(&rt, "enter again", line.enter(&rt, first, 10), false);
    check(&rt, "leave", line.leave(&rt, second), Some(30));
    check(&rt, "leave again", line.leave(&rt, second), None);
}

#[test]
fn a_line_with_one_ticket_left_gives_no_more(rt: HostRuntime) {
    let mut line = Turnstile::starting_at(rt.alloc(), u64::MAX - 1);
    check(&rt, "the last", line.join(10).is_ok(), true);
    check(&rt, "one more", line.join(20), Err(SerialsUsedUp));
}

// A visitor stands in line under this number.
fn stands<T: Drop, R: Abort>(rt: &R, line: &mut List<T, u64>, visitor: u64) -> Key {
    let key = line.insert_uncounted().expect(rt, "a listener");
    line.register_uncounted(key, visitor);
    key
}

// Checks that the waiter with this key was called with this tag.
fn gets<T: PartialEq + Debug + Drop, R: Abort>(rt: &R, line: &mut List<T, u64>, key: Key, tag: T) {
    let answer = line.register_uncounted(key, 0);
    check(rt, "the tag", answer, RegisterResult::Notified(tag));
}

#[test]
fn the_first_who_waits_gets_the_desk(rt: HostRuntime) {
    let mut line = List::new(rt.alloc());
    let mut called = Woken::with_room(rt.alloc(), 4).expect(&rt, "a sink");
    // The first stores no number.
    let first = line.insert_uncounted().expect(&rt, "a listener");
    let second = stands(&rt, &mut line, 20);
    call_to_desk(&mut line, 4, &mut called);
    call_to_desk(&mut line, 5, &mut called);
    check(&rt, "numbers", called.tasks(), &[20]);
    gets(&rt, &mut line, first, 4u32);
    gets(&rt, &mut line, second, 5);
}

#[test]
fn each_who_is_called_gets_the_text(rt: HostRuntime) {
    let text = || String::from_str(rt.alloc(), "gate 7").expect(&rt, "a text");
    let mut line = List::new(rt.alloc());
    let first = stands(&rt, &mut line, 10);
    let second = stands(&rt, &mut line, 20);
    let mut called = Woken::with_room(rt.alloc(), 2).expect(&rt, "a sink");
    let told = announce(&mut line, 5, text(), &mut called);
    check(&rt, "called", told, Ok(2));
    gets(&rt, &mut line, first, text());
    gets(&rt, &mut line, second, text());
}

#[test]
fn who_leaves_a_line_looks_at_few_others(rt: HostRuntime) {
    let mut line = List::new(rt.alloc());
    let mut called = Woken::with_room(rt.alloc(), 4).expect(&rt, "a sink");
    stands(&rt, &mut line, 10);
    let second = stands(&rt, &mut line, 20);
    stands(&rt, &mut line, 30);
    stands(&rt, &mut line, 40);
    admit_counted(&mut line, 2, &mut called);
    // An admitted visitor that leaves looks at the neighbors and the visitor admitted in its place, and the next at the
    // neighbors.
    let looked = leave_counted(&mut line, second, &mut called);
    check(&rt, "visits, looks", looked, (3, 1));
    let looked = leave_counted(&mut line, second, &mut called);
    check(&rt, "visits, looks", looked, (0, 1));
    check(&rt, "numbers", called.tasks(), &[10, 20, 30]);
}
