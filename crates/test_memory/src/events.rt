//! Events: threads that are parked, and woken by a thread that has no memory.
use crate::support::{Runtime, all_memory, check, new_id};
use event_listener::{Event, IntoTagged, Listener};
use std::io;
use std::sync::atomic::{AtomicBool, Ordering};
use std::thread::{self, Threads};
use std::time::{Clock, Duration};
use test_support::{Borrowing, Change, Changed, ListenerKind, Sharing, deadline_after, spin_until};

// What a test of two threads asks of its runtime value.
trait SharedRuntime: Runtime + Threads + Sync + Copy {}

impl<R: Runtime + Threads + Sync + Copy> SharedRuntime for R {}

// A clock that shows when it is read. A wait with a deadline reads it when it has stored its task, and before it parks.
#[derive(Drop)]
struct SeenClock<'a, R> {
    rt: &'a R,
    is_read: AtomicBool,
}

impl<R> Change for SeenClock<'_, R> {
    fn read<C: Clock>(&self, rt: &C) -> io::Result<Duration> {
        self.is_read.store(true, Ordering::SeqCst);
        rt.monotonic()
    }
}

// Waits until the listener is told, and sets the mark.
fn wait<L: Listener<u32> + Drop, R: SharedRuntime>(rt: &R, listener: L, is_over: &AtomicBool) {
    let deadline = deadline_after(rt, Duration::from_secs(20)).expect(rt, "a moment");
    let answer = listener
        .wait_deadline(deadline)
        .map_err(|error| error.reason());
    is_over.store(true, Ordering::SeqCst);
    check(rt, "the wait", answer, Ok(Some(7)));
}

fn tell_one<R: SharedRuntime>(rt: &R, event: &Event<u32>) {
    check(rt, "told", event.notify(rt, 1.tag(7)), Ok(1));
}

// A thread waits on the listener. Once it is parked this one takes all memory and wakes it: it drops the listener that was
// told, or else notifies. The memory comes back when the wait is over.
fn is_woken<L, R>(clock: &SeenClock<'_, R>, event: &Event<u32>, told: Option<L>, listener: L)
where
    L: Listener<u32> + Drop + Send,
    R: SharedRuntime,
{
    let rt = clock.rt;
    clock.is_read.store(false, Ordering::SeqCst);
    let is_over = AtomicBool::new(false);
    thread::join(
        rt,
        || wait(rt, listener, &is_over),
        || {
            spin_until(rt, || clock.is_read.load(Ordering::SeqCst));
            rt.sleep(Duration::from_millis(50));
            let hog = all_memory(rt);
            match told {
                Some(told) => drop(told),
                None => tell_one(rt, event),
            }
            spin_until(rt, || is_over.load(Ordering::SeqCst));
            drop(hog);
        },
    );
}

#[test]
fn a_notification_and_a_drop_without_memory_wake_a_thread(rt: HostRuntime) {
    let (rt, is_read) = (&rt, AtomicBool::new(false));
    let event = &Event::with_tag(new_id(rt));
    let clock = &SeenClock { rt, is_read };
    let seen = &Changed { rt, by: clock };
    let first = Sharing::listen(seen, rt.alloc(), event).expect(rt, "a listener");
    is_woken(clock, event, None, first);
    let first = Borrowing::listen(seen, rt.alloc(), event).expect(rt, "a listener");
    is_woken(clock, event, None, first);
    let told = Sharing::listen(seen, rt.alloc(), event).expect(rt, "a listener");
    let second = Sharing::listen(seen, rt.alloc(), event).expect(rt, "a listener");
    tell_one(rt, event);
    is_woken(clock, event, Some(told), second);
    let told = Borrowing::listen(seen, rt.alloc(), event).expect(rt, "a listener");
    let second = Borrowing::listen(seen, rt.alloc(), event).expect(rt, "a listener");
    tell_one(rt, event);
    is_woken(clock, event, Some(told), second);
}
