//! How many attempts are made, and when, and texts.
use crate::support::{check, new_id};
use crate::until::{Notes, until_nth};
use event_listener::{Event, EventListener, ListenError, Listener, NeverInserted, WaitReason};
use event_until::{Attempt, Until, UntilError};
use std::alloc::{AllocGlobal, Global};
use std::sync::Wait;
use std::time::{Clock, Duration};
use test_support::WaitCall::{self, Deadline, Timeout, UntilTold};
use test_support::{Changed, NoClock, Runtime, deadline_after};

// A wait with this limit, by this clock, whose n-th attempt would succeed gives that output. It makes no more than three
// attempts, with so many listeners at each, and leaves none.
fn gives<R, C>(
    rt: &R,
    clock: &C,
    n: usize,
    (wait, limit): (WaitCall, Duration),
    output: Option<usize>,
    listeners: [usize; 3],
)
where
    R: Runtime,
    C: Wait + Clock + Clone,
{
    let (event, notes) = (Event::new(new_id(rt)), Notes::new());
    let mut until = until_nth(rt, clock, &event, &notes, n);
    let given = match wait {
        Timeout => until.wait_timeout(limit),
        Deadline => until.wait_deadline(deadline_after(rt, limit).expect(rt, "a deadline")),
        UntilTold => until.wait().map(Some),
    };
    check(rt, wait, given, Ok(output));
    notes.check(rt, n.min(3), listeners);
    check(rt, "listeners left", event.total_listeners(rt), 0);
}

#[test]
fn attempts_are_made_before_it_listens_then_and_at_the_limit(rt: HostRuntime) {
    let rt = &rt;
    let (now, soon) = (Duration::ZERO, Duration::from_millis(5));
    gives(rt, rt, 1, (UntilTold, now), Some(1), [0, 9, 9]);
    gives(rt, rt, 2, (UntilTold, now), Some(2), [0, 1, 9]);
    gives(rt, rt, 3, (Timeout, now), Some(3), [0, 1, 0]);
    gives(rt, rt, 9, (Timeout, soon), None, [0, 1, 0]);
    gives(rt, rt, 9, (Deadline, now), None, [0, 1, 0]);
    // A clock that can't be read is past the deadline.
    let blind = Changed { rt, by: &NoClock };
    gives(rt, &blind, 9, (Timeout, Duration::MAX), None, [0, 1, 0]);
}

// An attempt whose second makes another one listen, tells the first listener, and gives the other one.
#[derive(Drop)]
struct Overtaken<'a, R> {
    rt: &'a R,
    alloc: Global,
    event: &'a Event<()>,
    is_first: bool,
}

impl<R: Wait + Clock + Clone> Attempt for Overtaken<'_, R> {
    type Output = EventListener<(), R>;

    ghost fails = { λ _ _. Unit {0} };

    fn attempt(&mut self) -> Option<EventListener<(), R>> {
        if self.is_first {
            self.is_first = false;
            return None;
        }
        let other = self.event.listen(self.rt, self.alloc).ok();
        self.event.notify_relaxed(self.rt, 1);
        other
    }
}

#[test]
fn who_is_told_and_succeeds_before_it_waits_passes_on(rt: HostRuntime) {
    let (alloc, event) = (rt.alloc(), Event::new(new_id(&rt)));
    let overtaken = Overtaken {
        rt: &rt,
        alloc,
        event: &event,
        is_first: true,
    };
    let mut until = Until::new(&rt, alloc, &event, overtaken);
    let other = until.wait().expect(&rt, "the other listener");
    check(&rt, "whether it is told", other.discard(), true);
}

// The error of a wait has this text.
fn reads<R: Runtime>(rt: &R, error: UntilError, text: &str) {
    let shown = format!(in rt.alloc(); "{error}").expect(rt, "a text");
    check(rt, "the text", shown.as_str(), text);
}

#[test]
fn texts_of_errors(rt: HostRuntime) {
    reads(&rt, ListenError::Memory.into(), "no memory for a listener");
    reads(&rt, WaitReason::Memory.into(), "no memory for a parker");
    let gone = "listener is not in the queue";
    reads(&rt, WaitReason::NeverInserted.into(), gone);
    reads(&rt, NeverInserted.into(), gone);
}
