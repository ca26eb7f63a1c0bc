//! Calls that wake the next waiter, be that a task or a thread that parks, and a call that does not. `waits` has those of
//! events and of listeners for threads.
use crate::support::{Runtime, check, listen_as, new_event, new_task, sharing};
use calls::Reply;
use calls_events::{HandCalls, On, new_event as new_recorded};
use event_listener::{Event, IntoTagged, Listener};
use futures::task::Poll;
use std::thread::{self, Threads};
use std::time::{Duration, Instant};
use test_support::{Borrowing, ListenerKind, Sharing, waker_of};

// The next waiter is a task, and this call notifies it.
fn wakes_a_task<R: Runtime, F: FnOnce()>(rt: &R, event: &Event<u32>, call: F)
    requires { F.pre call }
{
    let (mut next, task) = (sharing(rt, event), new_task(rt));
    let polled = next.poll(waker_of(&task).expect(rt, "a waker"));
    check(rt, "a poll", polled, Ok(Poll::Pending));
    check(rt, "whether it is woken", task.is_woken(), false);
    call();
    check(rt, "whether it is woken", task.is_woken(), true);
    check(rt, "its tag", next.wait().ok(), Some(7));
}

// The next waiter is a thread that parks. A thread that is not woken is notified at its limit, too late.
fn wakes_a_thread<R: Runtime + Threads + Send + Sync, F: FnOnce() + Send>(
    rt: &R,
    event: &Event<u32>,
    call: F,
)
    requires { F.pre call }
{
    let (next, limit) = (sharing(rt, event), Duration::from_secs(20));
    let start = Instant::now(rt).expect(rt, "the time");
    let (waited, ()) = thread::join(
        rt,
        || next.wait_timeout(limit).ok(),
        || {
            rt.sleep(Duration::from_millis(100));
            call();
        },
    );
    let took = start.elapsed(rt).expect(rt, "the time");
    check(rt, "its tag", waited, Some(Some(7)));
    check(rt, took, took < limit / 2, true);
}

fn hand_notifies<R: Runtime>(rt: &R, event: &Event<u32>) {
    let mut hand = event.hand(rt, rt.alloc()).expect(rt, "a hand");
    check(rt, "told", hand.notify(rt, 1.tag(7)), Ok(1));
}

#[test]
fn a_hand_that_notifies_wakes_a_task_and_a_thread(rt: HostRuntime) {
    let (rt, event) = (&rt, &new_event(&rt));
    wakes_a_task(rt, event, || hand_notifies(rt, event));
    wakes_a_thread(rt, event, || hand_notifies(rt, event));
}

// Two listeners listen by a hand, which ends the notified listener. Dropped, that listener notifies the next; discarded, it
// does not.
fn hand_ends_one<R: Runtime>(rt: &R, drops: bool) {
    let (event, task) = (new_event(rt), new_task(rt));
    let mut hand = event.hand(rt, rt.alloc()).expect(rt, "a hand");
    let told = hand.listen(rt, rt.alloc()).expect(rt, "a listener");
    let mut next = hand.listen(rt, rt.alloc()).expect(rt, "a listener");
    let polled = next.poll(waker_of(&task).expect(rt, "a waker"));
    check(rt, "a poll", polled, Ok(Poll::Pending));
    check(rt, "told", hand.notify(rt, 1.tag(7)), Ok(1));
    let was_told = if drops {
        hand.drop_listener(told)
    } else {
        hand.discard(told)
    };
    check(rt, "whether it was told", was_told, true);
    check(rt, "whether the next is woken", task.is_woken(), drops);
    check(rt, "whether the next was told", hand.discard(next), drops);
    check(rt, "listeners", event.total_listeners(rt), 0);
}

#[test]
fn a_hand_drops_a_listener_or_discards_it(rt: HostRuntime) {
    hand_ends_one(&rt, true);
    hand_ends_one(&rt, false);
}

// A notified listener is dropped.
fn told_and_dropped<'ev, K, L, R>(rt: &R, event: &'ev Event<u32>)
where
    K: ListenerKind<'ev, u32, R, Listener = L>,
    L: Listener<u32> + Drop,
    R: Runtime,
{
    let told = listen_as::<K, L, R>(rt, event);
    check(rt, "told", event.notify(rt, 1.tag(7)), Ok(1));
    wakes_a_task(rt, event, move || drop(told));
}

fn each_told_and_dropped<R: Runtime>(rt: &R, event: &Event<u32>) {
    told_and_dropped::<Sharing, _, R>(rt, event);
    told_and_dropped::<Borrowing, _, R>(rt, event);
}

#[test]
fn the_drop_of_a_told_listener_wakes_a_task(rt: HostRuntime) {
    each_told_and_dropped(&rt, &new_event(&rt));
}

// The first is told, and dropped while a task waits behind it.
fn recorded_one_is_dropped<R: Runtime>(rt: &R) {
    let (event, mut hands) = new_recorded(rt.alloc(), 1).expect(rt, "an event");
    let mut hand = hands.pop().expect(rt, "a hand");
    let (on, task) = (On { rt, event: &event }, new_task(rt));
    let (Ok(told), Ok(mut next)) = (on.listen(&mut hand), on.listen(&mut hand)) else {
        panic!(rt; "no listener");
    };
    let waker = waker_of(&task).expect(rt, "a waker");
    let polled = on.poll(&mut hand, &mut next, waker);
    check(rt, "a poll", matches!(polled, Reply::Pending), true);
    let notified = on.notify(&mut hand, 1, false, 7);
    check(rt, "told", matches!(notified, Reply::Told(1, _)), true);
    check(rt, "whether it is woken", task.is_woken(), false);
    drop(told);
    check(rt, "whether it is woken", task.is_woken(), true);
}

#[test]
fn the_drop_of_a_told_recorded_listener_wakes_a_task(rt: HostRuntime) {
    recorded_one_is_dropped(&rt);
}
