//! Polls by hand.
use crate::support::{check, is_woken, new_id, new_task};
use crate::until::{Notes, Nth, until_nth};
use event_listener::{Event, Listener};
use event_until::Until;
use futures::task::Poll;
use std::time::Duration;
use test_support::{Runtime, deadline_after};

// Two are behind one that leaves, which wakes nobody. The first of them attempts as long as it does not listen, and then
// once it is told. A poll that is not due attempts nothing, and keeps its place.
#[test]
fn a_poll_that_is_not_due_keeps_its_place_and_one_that_fails_listens_anew(rt: HostRuntime) {
    let (event, notes, others) = (Event::new(new_id(&rt)), Notes::new(), Notes::new());
    let (task, other) = (new_task(&rt), new_task(&rt));
    let mut leaves = until_nth(&rt, &rt, &event, &others, 9);
    check(&rt, "one", other.poll(&mut leaves), Poll::Pending);
    let mut until = until_nth(&rt, &rt, &event, &notes, 5);
    check(&rt, "the first", task.poll(&mut until), Poll::Pending);
    notes.check(&rt, 2, [1, 2, 9]);
    let mut behind = until_nth(&rt, &rt, &event, &others, 9);
    drop(leaves);
    check(&rt, "behind", other.poll(&mut behind), Poll::Pending);
    is_woken(&rt, &task, false);
    check(&rt, "listeners", event.total_listeners(&rt), 2);
    check(&rt, "not due", task.poll(&mut until), Poll::Pending);
    check(&rt, "the attempts", notes.made.get(), 2);
    is_woken(&rt, &task, false);
    check(&rt, "told", event.notify_relaxed(&rt, 1), 1);
    is_woken(&rt, &task, true);
    is_woken(&rt, &other, false);
    drop(behind);
    check(&rt, "the third", task.poll(&mut until), Poll::Pending);
    check(&rt, "the attempts", notes.made.get(), 4);
    is_woken(&rt, &task, false);
    check(&rt, "told again", event.notify_relaxed(&rt, 1), 1);
    check(&rt, "the last", task.poll(&mut until), Poll::Ready(Ok(5)));
    check(&rt, "listeners left", event.total_listeners(&rt), 0);
}

// What is called on an `Until` that a poll left pending. Its third attempt succeeds.
#[derive(Clone, Copy)]
enum End {
    Drop,
    IntoAttempt,
    Wait,
    Timeout,
    Deadline,
}

impl End {
    fn make<R: Runtime>(self, rt: &R, mut until: Until<'_, Nth<'_, R>, R>) {
        match self {
            End::Drop => drop(until),
            End::IntoAttempt => drop(until.into_attempt()),
            End::Wait => check(rt, "the wait", until.wait(), Ok(3)),
            End::Timeout => {
                let output = until.wait_timeout(Duration::ZERO);
                check(rt, "the wait", output, Ok(Some(3)));
            }
            End::Deadline => {
                let deadline = deadline_after(rt, Duration::ZERO).expect(rt, "a deadline");
                check(rt, "the wait", until.wait_deadline(deadline), Ok(Some(3)));
            }
        }
    }
}

// Two tasks and a thread wait. The first task is told; as it ends, the second is; as that ends, the thread is.
fn passes_on<R: Runtime>(rt: &R, end: End) {
    let event = Event::new(new_id(rt));
    let notes = (Notes::new(), Notes::new());
    let tasks = (new_task(rt), new_task(rt));
    let mut first = until_nth(rt, rt, &event, &notes.0, 3);
    let mut second = until_nth(rt, rt, &event, &notes.1, 3);
    check(rt, "the first", tasks.0.poll(&mut first), Poll::Pending);
    check(rt, "the second", tasks.1.poll(&mut second), Poll::Pending);
    let third = event.listen(rt, rt.alloc()).expect(rt, "a listener");
    check(rt, "told", event.notify_relaxed(rt, 1), 1);
    is_woken(rt, &tasks.1, false);
    end.make(rt, first);
    is_woken(rt, &tasks.1, true);
    end.make(rt, second);
    check(rt, "listeners left", event.total_listeners(rt), 1);
    check(rt, "whether the third is told", third.discard(), true);
}

#[test]
fn who_is_told_and_goes_or_blocks_passes_on(rt: HostRuntime) {
    for end in [
        End::Drop,
        End::IntoAttempt,
        End::Wait,
        End::Timeout,
        End::Deadline,
    ] {
        passes_on(&rt, end);
    }
}
