//! Clocks that notify when they are read, so that a waiter is notified at its deadline.
use crate::support::{check, new_id};
use crate::until::{Notes, until_nth};
use event_listener::Event;
use example_events::until::Gate;
use std::cell::Cell;
use std::sync::Wait;
use std::time::{Clock, Duration};
use std::{io, thread};
use test_support::{Change, Changed, Runtime};

// A clock that goes on by a second at each reading. From the second reading to the last that it is told to, it notifies.
#[derive(Drop)]
struct Notifies<'a, R> {
    rt: &'a R,
    event: &'a Event<()>,
    last: u32,
    reads: Cell<u32>,
}

impl<R: Wait> Change for Notifies<'_, R> {
    fn read<C: Clock>(&self, _rt: &C) -> io::Result<Duration> {
        let reads = self.reads.get();
        self.reads.set(reads.saturating_add(1));
        if reads > 0 && reads <= self.last {
            self.event.notify_relaxed(self.rt, 1);
        }
        Ok(Duration::from_secs(u64::from(reads)))
    }
}

// What a wait of so many seconds gives whose n-th attempt succeeds, under a clock that notifies up to this reading; and how
// many readings and attempts that takes.
fn waits<R: Runtime>(rt: &R, seconds: u64, n: usize, last: u32) -> (Option<usize>, u32, usize) {
    let (event, notes) = (Event::new(new_id(rt)), Notes::new());
    let notifies = Notifies {
        rt,
        event: &event,
        last,
        reads: Cell::new(0),
    };
    let clock = Changed { rt, by: &notifies };
    let mut until = until_nth(rt, &clock, &event, &notes, n);
    let output = until.wait_timeout(Duration::from_secs(seconds));
    let output = output.expect(rt, "an answer");
    (output, notifies.reads.get(), notes.made.get())
}

// First the second reading, which notifies, shows the deadline; one last attempt would be the third. Then it is told at each
// reading before the deadline, and fails each time: it gives up at the deadline that it began with.
#[test]
fn who_is_told_at_its_deadline_begins_anew_and_keeps_its_deadline(rt: HostRuntime) {
    check(&rt, "the fourth", waits(&rt, 1, 4, 1), (Some(4), 2, 4));
    check(&rt, "too late", waits(&rt, 5, 99, 4), (None, 6, 11));
}

// It lasts until the gate is opened. A wait that ends at once has ended by then.
#[test]
fn the_greatest_limit_ends_no_wait(rt: HostRuntime) {
    let gate = Gate::new(new_id(&rt));
    let passes = || gate.pass(&rt, rt.alloc()).wait_timeout(Duration::MAX);
    let opens = || {
        thread::sleep(&rt, Duration::from_millis(30));
        gate.open(&rt);
    };
    let (passed, ()) = thread::join(&rt, passes, opens);
    check(&rt, "whether it passed", passed, Ok(Some(())));
}
