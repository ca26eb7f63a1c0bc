//! Calls on recorded events that have room for note and entry, or none for the note, and each request of a wait. Afterwards the
//! record agrees with the notes.
use crate::budget::Budget;
use crate::starved::Starved;
use crate::support::{Runtime, all_memory, check, count_refused, leave, new_task};
use calls::{Reply, reads};
use calls_events::{HandCalls, On, close, new_event};
use event_listener::{Hand, RecordedEvent, RecordedPollError, WaitError};
use std::alloc::AllocError;
use std::cell::Cell;
use std::process::Abort;
use std::time::Duration;

// A call has the reply that has this text. It allocates nothing.
fn is<R: Abort>(rt: &R, reply: Reply, text: &str) {
    if !reads(&reply, text) {
        panic!(rt; "{reply}, and not {text}");
    }
}

// So many calls that whatever notes or records them has room for some more.
const SOME: usize = 18;

fn ask<C: HandCalls, R: Runtime>(rt: &R, calls: &C, hand: &mut Hand<u32>, times: usize) {
    for _ in 0..times {
        is(rt, calls.is_notified(hand), "isnotified false");
    }
}

// How many entries the record of a closed event has.
fn entries_of<R: Abort>(rt: &R, event: RecordedEvent<u32>, hands: Vec<Hand<u32>>) -> usize {
    let closed = close(event, hands).expect(rt, "hands of the event");
    closed.expect(rt, "a record").entries().len()
}

// The record has room for more, and so has the first hand. The notes of the other one have none.
#[test]
fn a_poll_in_a_task_is_refused_a_note_and_a_call_with_room_needs_no_memory(rt: HostRuntime) {
    let rt = &rt;
    let (event, mut hands) = new_event(rt.alloc(), 2).expect(rt, "an event");
    let [hand, other] = hands.as_mut_slice() else {
        panic!(rt; "a hand is missing");
    };
    if !event.owns(hand) || !event.owns(other) {
        panic!(rt; "the hand is another event's");
    }
    let mut listener = event.listen(rt, hand).expect(rt, "a listener");
    ask(rt, &On { rt, event: &event }, hand, SOME);
    let task = new_task(rt);
    let hog = all_memory(rt);
    let polled = task.enter(|cx| listener.poll_in(other, cx));
    let total = On { rt, event: &event }.total_listeners(hand);
    drop(hog);
    check(rt, "a poll", polled, Err(RecordedPollError::Memory));
    is(rt, total, "total 1");
    drop(listener);
    check(rt, "entries", entries_of(rt, event, hands), SOME + 3);
}

// A wait is refused memory and nothing else.
fn answered<A, L: Drop, R: Abort>(rt: &R, reply: Result<A, WaitError<L>>) -> Result<A, AllocError> {
    match reply {
        Ok(answer) => Ok(answer),
        Err(WaitError::Memory(_)) => Err(AllocError),
        Err(WaitError::NeverInserted) => panic!(rt; "the listener was not in the queue"),
    }
}

// A wait of a listener that nobody tells, whose limit has passed.
#[derive(Drop)]
struct TimedWait<'a, R> {
    rt: &'a R,
    // How often the hand has called before, which decides when it needs room for more notes.
    calls: Cell<usize>,
    // How many steps were made by waits that were refused.
    refused_steps: Cell<usize>,
}

impl<R: Runtime> Starved for TimedWait<'_, R> {
    fn is_granted(&self, budget: &mut Budget, bytes: usize) -> bool {
        let (rt, calls) = (self.rt, self.calls.get());
        let (event, mut hands) = new_event(rt.alloc(), 1).expect(rt, "an event");
        let hand = hands.first_mut().expect(rt, "a hand");
        ask(rt, &On { rt, event: &event }, hand, calls);
        if !event.owns(hand) {
            panic!(rt; "the hand is another event's");
        }
        let Ok(listener) = event.listen(rt, hand) else {
            panic!(rt; "nobody listens");
        };
        leave(rt, budget, bytes);
        let answer = answered(rt, listener.wait_timeout(hand, Duration::ZERO));
        budget.give_back();
        let is_granted = answer == Ok(None);
        if !is_granted {
            check(rt, bytes, answer, Err(AllocError));
        }
        let notes = hand.notes().len();
        let steps = notes.saturating_sub(calls).saturating_sub(1);
        check(rt, (bytes, steps), steps == 2, is_granted);
        // The drop of a listener that came back is an entry, too.
        let drops = usize::from(!is_granted);
        check(
            rt,
            bytes,
            entries_of(rt, event, hands),
            notes.saturating_add(drops),
        );
        let refused = self
            .refused_steps
            .get()
            .saturating_add(drops.saturating_mul(steps));
        self.refused_steps.set(refused);
        is_granted
    }
}

#[test]
fn a_refused_wait_keeps_the_notes_of_its_steps(rt: HostRuntime) {
    let (calls, refused_steps) = (Cell::new(0), Cell::new(0));
    let wait = TimedWait {
        rt: &rt,
        calls,
        refused_steps,
    };
    for calls in 0..8 {
        wait.calls.set(calls);
        // Each first try has no parker.
        check(&rt, calls, count_refused(&rt, &wait) > 0, true);
    }
    let steps = wait.refused_steps.get();
    check(&rt, "refused after a step", steps > 0, true);
}
