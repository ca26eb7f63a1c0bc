//! Notifications whose tags are refused, or can't be cloned any more.
use crate::support::{Runtime, check, discard, has_listeners, new_event, reads, sharing};
use event_listener::{Event, IntoNotification, IntoTagged, Listener, NotifyError};
use futures::task::Poll;
use std::alloc::AllocError;
use std::cell::Cell;
use std::thread::{self, Threads};
use std::time::Duration;
use test_support::{Borrowing, ListenerKind, Sharing, any_waker};

// A tag that can be cloned so many times. Its clones can't be cloned.
#[derive(Debug, Drop)]
struct Refusing {
    clones_left: Cell<u8>,
}

impl Clone for Refusing {
    fn clone(&self) -> Result<Self, AllocError> {
        let left = self.clones_left.get().checked_sub(1).ok_or(AllocError)?;
        self.clones_left.set(left);
        let clones_left = Cell::new(0);
        Ok(Refusing { clones_left })
    }
}

// Notifies of three, with a tag that can be cloned so many times.
fn notify_three<R: Runtime>(
    rt: &R,
    event: &Event<Refusing>,
    clones: u8,
) -> Result<usize, NotifyError> {
    let clones_left = Cell::new(clones);
    event.notify(rt, 3.tag(Refusing { clones_left }))
}

// The same, of a notification of either kind.
fn notify_three_by<R: Runtime>(
    rt: &R,
    event: &Event<Refusing>,
    additional: bool,
    clones: u8,
) -> Result<usize, NotifyError> {
    if !additional {
        return notify_three(rt, event, clones);
    }
    let clones_left = Cell::new(clones);
    event.notify(rt, 3.additional().tag(Refusing { clones_left }))
}

// Polls a listener for the last time. Whether it has a tag.
fn polls<L: Listener<Refusing> + Drop, R: Runtime>(rt: &R, mut listener: L, has_tag: bool) {
    let polled = listener.poll(any_waker(rt).expect(rt, "a waker"));
    let polled = polled.expect(rt, "it is in the queue");
    check(
        rt,
        "whether it has a tag",
        matches!(polled, Poll::Ready(_)),
        has_tag,
    );
}

// The third of three is refused a tag, and is not told.
fn refuses_the_third<'ev, K, L, R>(rt: &R, event: &'ev Event<Refusing>, additional: bool)
where
    K: ListenerKind<'ev, Refusing, R, Listener = L>,
    L: Listener<Refusing> + Drop,
    R: Runtime,
{
    let next = || K::listen(rt, rt.alloc(), event).expect(rt, "a listener");
    let (first, second, third) = (next(), next(), next());
    let refused = notify_three_by(rt, event, additional, 2);
    let refusal = refused.expect_err(rt, "a third clone");
    let text = format!(in rt.alloc(); "{refusal}");
    reads(rt, text, "a tag was refused after 2 listeners");
    check(rt, additional, refusal, NotifyError { told: 2 });
    has_listeners(rt, event, 3, true);
    polls(rt, first, true);
    polls(rt, second, true);
    polls(rt, third, false);
}

// Of three the first has a tag that can't be cloned. It is dropped, and the second has that tag.
fn passes_on_the_first<'ev, K, L, R>(rt: &R, event: &'ev Event<Refusing>, additional: bool)
where
    K: ListenerKind<'ev, Refusing, R, Listener = L>,
    L: Listener<Refusing> + Drop,
    R: Runtime,
{
    let next = || K::listen(rt, rt.alloc(), event).expect(rt, "a listener");
    let (first, second, third) = (next(), next(), next());
    let refused = notify_three_by(rt, event, additional, 1);
    check(rt, additional, refused, Err(NotifyError { told: 1 }));
    drop(first);
    has_listeners(rt, event, 2, true);
    polls(rt, second, true);
    polls(rt, third, false);
    has_listeners(rt, event, 0, false);
}

fn refuse_the_third<R: Runtime>(rt: &R, event: &Event<Refusing>) {
    for additional in [false, true] {
        refuses_the_third::<Sharing, _, R>(rt, event, additional);
        refuses_the_third::<Borrowing, _, R>(rt, event, additional);
    }
}

fn pass_on_the_first<R: Runtime>(rt: &R, event: &Event<Refusing>) {
    for additional in [false, true] {
        passes_on_the_first::<Sharing, _, R>(rt, event, additional);
        passes_on_the_first::<Borrowing, _, R>(rt, event, additional);
    }
}

#[test]
fn the_third_clone_of_a_tag_is_refused(rt: HostRuntime) {
    refuse_the_third(&rt, &new_event(&rt));
}

#[test]
fn a_tag_that_cannot_be_cloned_is_passed_on(rt: HostRuntime) {
    pass_on_the_first(&rt, &new_event(&rt));
}

// Of three waiters the first parks its thread. That thread is woken, though the second is refused a tag. Later notifications
// begin with the second.
fn skips_nobody<R: Runtime + Threads + Sync>(rt: &R, event: &Event<Refusing>) {
    let next = || sharing(rt, event);
    let (first, second, third) = (next(), next(), next());
    let told = Err(NotifyError { told: 0 });
    check(rt, "no tag", notify_three(rt, event, 0), told);
    has_listeners(rt, event, 3, false);
    let (refused, waited) = thread::join(
        rt,
        || {
            rt.sleep(Duration::from_millis(100));
            notify_three(rt, event, 1)
        },
        || first.wait().is_ok(),
    );
    check(rt, "one tag", refused, Err(NotifyError { told: 1 }));
    check(rt, "whether it has it", waited, true);
    has_listeners(rt, event, 2, false);
    check(rt, "the others", notify_three(rt, event, 3), Ok(2));
    discard(rt, second, true);
    discard(rt, third, true);
}

#[test]
fn a_refused_clone_skips_nobody_and_who_was_told_before_is_woken(rt: HostRuntime) {
    skips_nobody(&rt, &new_event(&rt));
}
