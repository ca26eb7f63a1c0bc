//! What is called while the lock of an event is held, by the thread that holds it and by another, and threads that make
//! the queue of one event at once.
//!
//! A tag is made under the lock of its event, so the lock is held while the function of a notification runs. A call that
//! wrongly waits for that lock does not return, and its test fails at the limit that the toolchain has for every test. Where
//! two threads meet, the thread that makes the tag sleeps for 50 milliseconds, in which the other thread makes its call. What a
//! listener's own calls do under the lock, clauses say.
use crate::rows;
use crate::support::{Runtime, check, discard, listen_as, new_event, new_task, sharing, shows};
use event_listener::{Event, EventIds, IntoNotification, IntoTagged, ListenError, Listener};
use futures::task::Poll;
use std::sync::Barrier;
use std::sync::atomic::{AtomicU32, Ordering};
use std::thread::{self, Threads};
use std::time::{Duration, Instant};
use test_support::{Borrowing, ListenerKind, Sharing, deadline_after, spin_until};

// A listener tells its event from another one, and whether a second listens to the same.
fn under_the_lock<'ev, K, L, R>(rt: &R, event: &'ev Event<u32>)
where
    K: ListenerKind<'ev, u32, R, Listener = L>,
    L: Listener<u32> + Drop,
    R: Runtime,
{
    let next = || listen_as::<K, L, R>(rt, event);
    let (first, second) = (next(), next());
    let id = EventIds::starting_at(1).next();
    let other = Event::with_tag(id.expect(rt, "an identity"));
    let tag = || {
        rows::all_hold(rt);
        shows(rt, event, "Event(<locked>)");
        check(rt, "its event", first.listens_to(event), true);
        check(rt, "another event", first.listens_to(&other), false);
        check(rt, "the same event", first.same_event(&second), true);
        7u32
    };
    check(rt, "told", event.notify(rt, 1.tag_with(tag)), Ok(1));
}

fn each_works_under_the_lock<R: Runtime>(rt: &R, event: &Event<u32>) {
    under_the_lock::<Sharing, _, R>(rt, event);
    under_the_lock::<Borrowing, _, R>(rt, event);
}

#[test]
fn another_event_works_and_identity_is_asked_while_a_lock_is_held(rt: HostRuntime) {
    each_works_under_the_lock(&rt, &new_event(&rt));
}

// Makes the call while another thread holds the lock of the event: it tells the listener that waits first, and takes a
// while to make the tag.
fn while_one_is_told<R, A, C>(rt: &R, event: &Event<u32>, call: C) -> A
where
    R: Runtime + Threads + Sync,
    C: FnOnce() -> A,
    requires { C.pre call }
{
    let meeting = Barrier::new(2);
    let (told, answer) = thread::join(
        rt,
        || {
            let tag = || {
                meeting.wait(rt);
                rt.sleep(Duration::from_millis(50));
                7u32
            };
            event.notify(rt, 1.additional().tag_with(tag))
        },
        || {
            meeting.wait(rt);
            call()
        },
    );
    check(rt, "told", told, Ok(1));
    answer
}

// While two are told, one after the other, these calls come, and find them told.
fn ask_once_the_lock_is_free<R: Runtime + Threads + Sync>(rt: &R, event: &Event<u32>) {
    let (_first, _second) = (sharing(rt, event), sharing(rt, event));
    let is_notified = while_one_is_told(rt, event, || event.is_notified(rt));
    check(rt, "whether some are told", is_notified, true);
    let total = while_one_is_told(rt, event, || event.total_listeners(rt));
    check(rt, "listeners", total, 2);
}

// While two are told, the last one is polled, and told by a notification that comes then.
fn tell_once_the_lock_is_free<R: Runtime + Threads + Sync>(rt: &R, event: &Event<u32>) {
    let (_first, _second) = (sharing(rt, event), sharing(rt, event));
    let (mut last, task) = (sharing(rt, event), new_task(rt));
    let poll = || task.enter(|cx| last.poll_in(cx));
    let polled = while_one_is_told(rt, event, poll);
    check(rt, "a poll", polled, Ok(Poll::Pending));
    check(rt, "whether it is woken", task.is_woken(), false);
    let notify = || event.notify(rt, 1.additional().tag(9));
    check(rt, "told", while_one_is_told(rt, event, notify), Ok(1));
    check(rt, "whether it is woken", task.is_woken(), true);
    check(rt, "the last", last.wait().ok(), Some(9));
}

#[test]
fn calls_of_other_threads_wait_for_the_lock(rt: HostRuntime) {
    ask_once_the_lock_is_free(&rt, &new_event(&rt));
    tell_once_the_lock_is_free(&rt, &new_event(&rt));
}

// Two threads listen at once to an event that nobody has listened to yet. One notification tells both, since there is one
// queue.
fn race<R, L, F>(rt: &R, event: &Event<()>, listen: F)
where
    R: Runtime + Threads + Sync,
    L: Listener<()> + Drop + Send,
    F: Fn() -> Result<L, ListenError> + Sync,
    requires { F.IsAlwaysCallable listen }
{
    let arrived = AtomicU32::new(0);
    let meet_and_listen = || {
        arrived.fetch_add(1, Ordering::SeqCst);
        spin_until(rt, || arrived.load(Ordering::SeqCst) > 1);
        listen().expect(rt, "a listener")
    };
    let (one, other) = thread::join(rt, &meet_and_listen, &meet_and_listen);
    check(rt, "told", event.notify_additional(rt, 2), 2);
    discard(rt, one, true);
    discard(rt, other, true);
}

#[test]
fn threads_that_race_to_listen_share_one_queue(rt: HostRuntime) {
    let end = deadline_after(&rt, Duration::from_secs(2)).expect(&rt, "a moment");
    for _ in rt.forever() {
        let event = new_event(&rt);
        race(&rt, &event, || Sharing::listen(&rt, rt.alloc(), &event));
        let event = new_event(&rt);
        race(&rt, &event, || Borrowing::listen(&rt, rt.alloc(), &event));
        if Instant::now(&rt).expect(&rt, "a clock") >= end {
            break;
        }
    }
}
