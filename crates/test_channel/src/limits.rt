//! Calls that wait until a limit.
use crate::support::{Runtime, SharedRuntime, check, sides};
use crate::ways::{Answer, Way};
use event_channel::bounded;
use std::alloc::AllocGlobal;
use std::marker::Send;
use std::sync::Wait;
use std::sync::atomic::{AtomicUsize, Ordering};
use std::time::{Clock, Duration, Instant};
use std::{io, thread};
use test_support::{Change, Changed, NoClock, spin_until};

const MAX: Duration = Duration::MAX;

fn now<R: Runtime>(rt: &R) -> Instant {
    Instant::now(rt).expect(rt, "the time")
}

#[test]
fn a_call_that_has_time_waits_so_long(rt: HostRuntime) {
    let (limit, (sender, receiver)) = (Duration::from_millis(20), sides(&rt, Some(1)));
    for way in [Way::Timed, Way::Due, Way::WaitedTimed, Way::WaitedDue] {
        let before = now(&rt);
        check(&rt, way, way.receive(&rt, &receiver, limit), Answer::Late);
        let between = now(&rt);
        let sent = way.send(&rt, &sender, 7, Duration::ZERO);
        check(&rt, way, sent, Answer::Sent);
        check(&rt, way, way.send(&rt, &sender, 8, limit), Answer::Late);
        let waited = [
            between.saturating_duration_since(before) >= limit,
            now(&rt).saturating_duration_since(between) >= limit,
        ];
        check(&rt, "whether each waited so long", waited, [true; 2]);
        let received = way.receive(&rt, &receiver, limit);
        check(&rt, way, received, Answer::Received(7));
    }
}

// Returns whether a receive from an empty channel, and a send into a full channel, ends well before twice its limit.
fn end_soon<R: Runtime>(rt: &R, way: Way) -> [bool; 2] {
    let (limit, soon) = (Duration::from_millis(50), Duration::from_millis(87));
    let (sender, receiver) = sides(rt, Some(1));
    let before = now(rt);
    check(rt, way, way.receive(rt, &receiver, limit), Answer::Late);
    let between = now(rt);
    check(rt, "a send", sender.try_send(7), Ok(()));
    check(rt, way, way.send(rt, &sender, 8, limit), Answer::Late);
    let after = now(rt);
    [
        between.saturating_duration_since(before) < soon,
        after.saturating_duration_since(between) < soon,
    ]
}

// Each of many calls would have to end late, and not only one, which a busy machine may bring about.
#[test]
fn a_call_that_waits_ends_soon_after_its_limit(rt: HostRuntime) {
    for way in [Way::Timed, Way::Due, Way::WaitedTimed, Way::WaitedDue] {
        let (mut received, mut sent) = (false, false);
        for _ in 0..20u32 {
            let [is_received, is_sent] = end_soon(&rt, way);
            received = received || is_received;
            sent = sent || is_sent;
            if received && sent {
                break;
            }
        }
        check(&rt, way, (received, sent), (true, true));
    }
}

#[test]
fn a_clock_that_cannot_be_read_is_past_the_limit(rt: HostRuntime) {
    let rt = &rt;
    let blind = Changed { rt, by: &NoClock };
    let (sender, receiver) = bounded(&blind, rt.alloc(), 1).expect(rt, "a channel");
    check(rt, "room", sender.send_timeout(7usize, MAX).is_ok(), true);
    check(rt, "no room", sender.send_timeout(8, MAX).is_ok(), false);
    check(rt, "a message", receiver.recv_timeout(MAX).ok(), Some(7));
    check(rt, "no message", receiver.recv_timeout(MAX).ok(), None);
}

// A clock that shows the time once another thread has made its call: at 2 it is read, at 3 the call is made. If the step begins
// at 0 the clock is read once before, and is early.
#[derive(Drop)]
struct Meets<'a, R> {
    rt: &'a R,
    step: &'a AtomicUsize,
}

impl<R: Runtime> Change for Meets<'_, R> {
    fn read<C: Clock>(&self, _rt: &C) -> io::Result<Duration> {
        if self.step.fetch_add(1, Ordering::SeqCst) == 0 {
            return Ok(Duration::ZERO);
        }
        spin_until(self.rt, || self.step.load(Ordering::SeqCst) >= 3);
        self.rt.monotonic()
    }
}

// A receive or a send until a moment that has passed when it looks at the clock. Another thread makes the message or the room
// while the call looks.
fn is_taken<R, C>(rt: &R, clock: &C, step: &AtomicUsize, is_send: bool)
where
    R: SharedRuntime,
    C: Wait + Clock + Clone + Sync + Send,
{
    let due = now(rt);
    let (sender, receiver) = &bounded(clock, rt.alloc(), 1).expect(rt, "a channel");
    let is_full = is_send && sender.try_send(7usize).is_ok();
    check(rt, "whether it is full", is_full, is_send);
    let waits = || {
        if is_send {
            sender.send_deadline(8, due).is_ok()
        } else {
            receiver.recv_deadline(due).is_ok()
        }
    };
    let meanwhile = || {
        spin_until(rt, || step.load(Ordering::SeqCst) >= 2);
        let done = if is_send {
            receiver.try_recv().is_ok()
        } else {
            sender.try_send(7).is_ok()
        };
        step.store(3, Ordering::SeqCst);
        done
    };
    let both = thread::join(rt, waits, meanwhile);
    check(rt, "the wait, and the call meanwhile", both, (true, true));
}

// The first reading is before the call joins the queue, the second in the queue.
fn each_is_taken<R, C>(rt: &R, clock: &C, step: &AtomicUsize)
where
    R: SharedRuntime,
    C: Wait + Clock + Clone + Sync + Send,
{
    for (begin, is_send) in [(1, false), (1, true), (0, false), (0, true)] {
        step.store(begin, Ordering::SeqCst);
        is_taken(rt, clock, step, is_send);
    }
}

#[test]
fn what_comes_while_the_clock_is_read_is_taken(rt: HostRuntime) {
    let (rt, step) = (&rt, &AtomicUsize::new(0));
    let by = &Meets { rt, step };
    each_is_taken(rt, &Changed { rt, by }, step);
}
