//! Attempts until one succeeds, whose wait is refused a listener, or what the thread parks on.
use crate::support::{Runtime, all_memory, check, new_id};
use event_listener::{Event, EventListener, ListenError, Listener};
use event_until::{Attempt, Until, UntilError};
use std::cell::Cell;
use std::sync::Wait;
use std::time::Duration;

// An attempt that never succeeds. It notes how many were made, and how many listeners there were at the last.
#[derive(Drop)]
struct Never<'r, 'e, 's, R> {
    rt: &'r R,
    event: &'e Event<()>,
    seen: &'s Cell<(usize, usize)>,
}

impl<R: Wait> Attempt for Never<'_, '_, '_, R> {
    type Output = ();

    fn attempt(&mut self) -> Option<()> {
        let attempts = self.seen.get().0.saturating_add(1);
        let listeners = self.event.total_listeners(self.rt);
        self.seen.set((attempts, listeners));
        None
    }
}

// Without memory each wait is refused for this reason, after so many attempts, and leaves no listener.
fn waits_are_refused<R: Runtime>(rt: &R, has_room: bool, refusal: UntilError, attempts: usize) {
    let event = &Event::new(new_id(rt));
    if has_room {
        drop(event.listen(rt, rt.alloc()).expect(rt, "a listener"));
    }
    let seen = &Cell::new((0, 0));
    let mut until = Until::new(rt, rt.alloc(), event, Never { rt, event, seen });
    let hog = all_memory(rt);
    check(rt, "the wait", until.wait(), Err(refusal));
    let listeners = usize::from(has_room);
    check(rt, "attempts", seen.replace((0, 0)), (attempts, listeners));
    check(
        rt,
        "a timed wait",
        until.wait_timeout(Duration::MAX),
        Err(refusal),
    );
    check(rt, "attempts", seen.get(), (attempts, listeners));
    check(rt, "listeners left", event.total_listeners(rt), 0);
    drop(hog);
    let answer = until.wait_timeout(Duration::ZERO);
    check(rt, "a wait after it", answer, Ok(None));
}

#[test]
fn a_refused_listening_or_parker_leaves_no_listener(rt: HostRuntime) {
    let listening = UntilError::Listen(ListenError::Memory);
    waits_are_refused(&rt, false, listening, 1);
    waits_are_refused(&rt, true, UntilError::Parker, 2);
}

// An attempt that fails. If its listener is there, another one comes after that, and the first of both is told.
#[derive(Drop)]
struct IsTold<'r, 'e, 'n, R: Runtime> {
    rt: &'r R,
    event: &'e Event<()>,
    next: &'n Cell<Option<EventListener<(), R>>>,
}

impl<R: Runtime> Attempt for IsTold<'_, '_, '_, R> {
    type Output = ();

    fn attempt(&mut self) -> Option<()> {
        let (rt, event) = (self.rt, self.event);
        if event.total_listeners(rt) > 0 {
            let next = event.listen(rt, rt.alloc()).expect(rt, "a place");
            drop(self.next.replace(Some(next)));
            check(rt, "told", event.notify_relaxed(rt, 1), 1);
        }
        None
    }
}

// Its listener leaves the queue, and its notification goes to the one after it.
fn is_refused_and_passes_on<R: Runtime>(rt: &R, is_timed: bool) {
    let event = &Event::new(new_id(rt));
    let listen = || event.listen(rt, rt.alloc()).expect(rt, "a listener");
    let places = (listen(), listen());
    drop(places);
    let next = &Cell::new(None);
    let mut until = Until::new(rt, rt.alloc(), event, IsTold { rt, event, next });
    let hog = all_memory(rt);
    let refusal = if is_timed {
        until.wait_timeout(Duration::MAX).err()
    } else {
        until.wait().err()
    };
    drop(hog);
    check(rt, "the refusal", refusal, Some(UntilError::Parker));
    check(rt, "listeners left", event.total_listeners(rt), 1);
    let next = next.replace(None).expect(rt, "the next");
    check(rt, "whether the next is told", next.discard(), true);
}

#[test]
fn who_is_told_and_refused_a_parker_passes_on(rt: HostRuntime) {
    for is_timed in [false, true] {
        is_refused_and_passes_on(&rt, is_timed);
    }
}
