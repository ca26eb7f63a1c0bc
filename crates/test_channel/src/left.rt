//! A starving waiter that does not try again: newcomers are refused so often what is due to the waiter, and then go on. When
//! the waiter tries again later, it is a newcomer.
use crate::support::{Runtime, check, sides};
use crate::waiting::Waiting;
use crate::ways::Answer::{Late, Received, Sent, Waits};
use crate::ways::Way;
use event_channel::{FORBEARANCE, Receiver, Sender};
use std::time::Duration;

// Ways that wait for as long as it takes, or for long.
const PATIENT: [Way; 9] = [
    Way::Blocking,
    Way::Waited,
    Way::Awaited,
    Way::Streamed,
    Way::Iterated,
    Way::Timed,
    Way::Due,
    Way::WaitedTimed,
    Way::WaitedDue,
];

// Returns a limit so long that no call reaches it.
fn long() -> Duration {
    Duration::from_secs(100)
}

// Makes a receive that starves, and is notified of the message 3.
fn starve<'a, R: Runtime>(
    rt: &R,
    sender: &Sender<usize, R>,
    receiver: &'a Receiver<usize, R>,
) -> Waiting<'a, R> {
    let mut left = Waiting::receive(rt, receiver);
    check(rt, "a poll", left.poll(), Waits);
    for message in [1, 2] {
        check(rt, "a send", sender.try_send(message), Ok(()));
        check(rt, "a receive", receiver.try_recv(), Ok(message));
        check(rt, "a poll", left.poll(), Waits);
    }
    check(rt, "a send", sender.try_send(3), Ok(()));
    check(rt, "whether it is woken", left.is_woken(), true);
    left
}

// Makes a send of 9 that starves, and is notified of the one place.
fn starve_send<'a, R: Runtime>(
    rt: &R,
    sender: &'a Sender<usize, R>,
    receiver: &Receiver<usize, R>,
) -> Waiting<'a, R> {
    check(rt, "a send", sender.try_send(0), Ok(()));
    let mut left = Waiting::send(rt, sender, 9);
    check(rt, "a poll", left.poll(), Waits);
    for message in [0, 1] {
        check(rt, "a receive", receiver.try_recv(), Ok(message));
        check(rt, "a send", sender.try_send(message + 1), Ok(()));
        check(rt, "a poll", left.poll(), Waits);
    }
    check(rt, "a receive", receiver.try_recv(), Ok(2));
    check(rt, "whether it is woken", left.is_woken(), true);
    left
}

// Checks that so many receives by newcomers are refused.
fn refuse<R: Runtime>(rt: &R, receiver: &Receiver<usize, R>, count: u32) {
    for _ in 0..count {
        check(
            rt,
            "a receive",
            Way::AtOnce.receive(rt, receiver, long()),
            Late,
        );
    }
}

fn refuse_sends<R: Runtime>(rt: &R, sender: &Sender<usize, R>, count: u32) {
    for _ in 0..count {
        check(rt, "a send", Way::AtOnce.send(rt, sender, 4, long()), Late);
    }
}

// Others receive and send in each way that waits.
#[test]
fn a_receive_left_alone_stops_nobody(rt: HostRuntime) {
    for way in PATIENT {
        let (sender, receiver) = sides(&rt, Some(1));
        let left = starve(&rt, &sender, &receiver);
        check(&rt, way, way.receive(&rt, &receiver, long()), Received(3));
        check(&rt, way, way.send(&rt, &sender, 4, long()), Sent);
        check(&rt, way, way.receive(&rt, &receiver, long()), Received(4));
        check(&rt, "whether it is woken", left.is_woken(), true);
    }
}

#[test]
fn a_send_left_alone_stops_nobody(rt: HostRuntime) {
    for way in PATIENT {
        let (sender, receiver) = sides(&rt, Some(1));
        let left = starve_send(&rt, &sender, &receiver);
        check(&rt, way, way.send(&rt, &sender, 3, long()), Sent);
        check(&rt, way, way.receive(&rt, &receiver, long()), Received(3));
        check(&rt, way, way.send(&rt, &sender, 4, long()), Sent);
        check(&rt, "whether it is woken", left.is_woken(), true);
    }
}

// One newcomer fewer is refused than would strike the waiter off. The waiter gets the message or place that is due to it.
#[test]
fn one_in_time_has_what_is_due_to_it(rt: HostRuntime) {
    let (sender, receiver) = sides(&rt, Some(1));
    let mut left = starve(&rt, &sender, &receiver);
    refuse(&rt, &receiver, FORBEARANCE - 1);
    check(&rt, "its poll", left.poll(), Received(3));
    let mut left = starve_send(&rt, &sender, &receiver);
    refuse_sends(&rt, &sender, FORBEARANCE - 1);
    check(&rt, "its poll", left.poll(), Sent);
    check(&rt, "a receive", receiver.try_recv(), Ok(9));
}

// The last of the counted newcomers is refused, too, and the next goes on. The receive that was struck off then waits behind
// the receives that joined the queue before, and gets a message in its turn.
#[test]
fn a_late_receive_waits_anew(rt: HostRuntime) {
    let (sender, receiver) = sides(&rt, Some(1));
    let mut left = starve(&rt, &sender, &receiver);
    refuse(&rt, &receiver, FORBEARANCE);
    check(&rt, "the next", receiver.try_recv(), Ok(3));
    for message in [4, 5] {
        check(&rt, "a send", sender.try_send(message), Ok(()));
        check(&rt, "a receive", receiver.try_recv(), Ok(message));
    }
    let mut first = Waiting::receive(&rt, &receiver);
    check(&rt, "a poll", first.poll(), Waits);
    check(&rt, "its poll", left.poll(), Waits);
    check(&rt, "a send", sender.try_send(6), Ok(()));
    check(&rt, "whether the first is woken", first.is_woken(), true);
    check(&rt, "whether it is woken", left.is_woken(), false);
    check(&rt, "a poll", first.poll(), Received(6));
    check(&rt, "a send", sender.try_send(7), Ok(()));
    check(&rt, "whether it is woken", left.is_woken(), true);
    check(&rt, "its poll", left.poll(), Received(7));
}

#[test]
fn a_late_send_waits_anew(rt: HostRuntime) {
    let (sender, receiver) = sides(&rt, Some(1));
    let mut left = starve_send(&rt, &sender, &receiver);
    refuse_sends(&rt, &sender, FORBEARANCE);
    check(&rt, "the next", sender.try_send(3), Ok(()));
    let mut first = Waiting::send(&rt, &sender, 5);
    check(&rt, "a poll", first.poll(), Waits);
    check(&rt, "its poll", left.poll(), Waits);
    check(&rt, "a receive", receiver.try_recv(), Ok(3));
    check(&rt, "whether the first is woken", first.is_woken(), true);
    check(&rt, "whether it is woken", left.is_woken(), false);
    check(&rt, "a poll", first.poll(), Sent);
    check(&rt, "a receive", receiver.try_recv(), Ok(5));
    check(&rt, "whether it is woken", left.is_woken(), true);
    check(&rt, "its poll", left.poll(), Sent);
    check(&rt, "a receive", receiver.try_recv(), Ok(9));
}

// A waiter that was struck off takes what is there when it tries again, and at its limit as well.
#[test]
fn one_that_is_late_takes_what_is_there(rt: HostRuntime) {
    let (sender, receiver) = sides(&rt, Some(1));
    let mut left = starve(&rt, &sender, &receiver);
    refuse(&rt, &receiver, FORBEARANCE);
    check(&rt, "its poll", left.poll(), Received(3));
    let mut left = starve(&rt, &sender, &receiver);
    refuse(&rt, &receiver, FORBEARANCE);
    check(&rt, "its end", left.end(), Received(3));
    let mut left = starve_send(&rt, &sender, &receiver);
    refuse_sends(&rt, &sender, FORBEARANCE);
    check(&rt, "its poll", left.poll(), Sent);
    check(&rt, "a receive", receiver.try_recv(), Ok(9));
}

// Returns in which round a starving receive is served that tries only after so many attempts of a newcomer, or once the
// newcomer has the message.
fn served_in_round<R: Runtime>(rt: &R, late: usize) -> usize {
    let (sender, receiver) = sides(rt, Some(1));
    let mut left = starve(rt, &sender, &receiver);
    for round in 1..100 {
        for _ in 0..late {
            if receiver.try_recv().is_ok() {
                break;
            }
        }
        match left.poll() {
            Received(_) => return round,
            _ => check(rt, "a send", sender.try_send(round), Ok(())),
        }
    }
    100
}

// Each time that the receive loses once more, twice as many newcomers are refused for its sake.
#[test]
fn one_that_is_always_late_is_served(rt: HostRuntime) {
    for (late, round) in [(64, 1), (65, 3), (128, 3), (129, 5), (1000, 9)] {
        check(&rt, late, served_in_round(&rt, late), round);
    }
}

// When a receive is struck off, the receive behind it is notified in its place. Until then a stream tries again and again.
#[test]
fn the_next_is_notified_in_its_place(rt: HostRuntime) {
    let (sender, receiver) = sides(&rt, Some(1));
    let mut left = Waiting::receive(&rt, &receiver);
    check(&rt, "a poll", left.poll(), Waits);
    for message in [1, 2] {
        check(&rt, "a send", sender.try_send(message), Ok(()));
        check(&rt, "a receive", receiver.try_recv(), Ok(message));
        check(&rt, "a poll", left.poll(), Waits);
    }
    let mut next = Waiting::receive(&rt, &receiver);
    check(&rt, "a poll", next.poll(), Waits);
    check(&rt, "a send", sender.try_send(3), Ok(()));
    let mut stream = Waiting::stream(&rt, &receiver);
    for _ in 1..FORBEARANCE {
        check(&rt, "a poll of a stream", stream.poll(), Waits);
        check(&rt, "whether it comes again", stream.is_woken(), true);
    }
    check(&rt, "whether the next is woken", next.is_woken(), false);
    check(&rt, "the last poll", stream.poll(), Waits);
    check(&rt, "whether the next is woken", next.is_woken(), true);
    check(&rt, "the poll of the next", next.poll(), Received(3));
    check(&rt, "its poll", left.poll(), Waits);
    check(&rt, "a send", sender.try_send(4), Ok(()));
    check(&rt, "its poll", left.poll(), Received(4));
}

// A notified receive that does not starve does not try, before a receive that starves: newcomers go on, and the starving
// receive gets the next message.
#[test]
fn one_before_one_that_starves_stops_nobody(rt: HostRuntime) {
    let (sender, receiver) = sides(&rt, Some(1));
    let mut starving = Waiting::receive(&rt, &receiver);
    check(&rt, "a poll", starving.poll(), Waits);
    check(&rt, "a send", sender.try_send(1), Ok(()));
    check(&rt, "a receive", receiver.try_recv(), Ok(1));
    check(&rt, "a poll", starving.poll(), Waits);
    check(&rt, "a send", sender.try_send(2), Ok(()));
    check(&rt, "a receive", receiver.try_recv(), Ok(2));
    let mut before = Waiting::receive(&rt, &receiver);
    check(&rt, "a poll", before.poll(), Waits);
    check(&rt, "a poll", starving.poll(), Waits);
    check(&rt, "a send", sender.try_send(3), Ok(()));
    check(&rt, "whether the first is woken", before.is_woken(), true);
    check(&rt, "whether the other is", starving.is_woken(), false);
    refuse(&rt, &receiver, FORBEARANCE);
    check(&rt, "a receive", receiver.try_recv(), Ok(3));
    check(&rt, "a send", sender.try_send(4), Ok(()));
    check(&rt, "whether the other is", starving.is_woken(), true);
    check(&rt, "its poll", starving.poll(), Received(4));
}

#[test]
fn one_before_a_send_that_starves_stops_nobody(rt: HostRuntime) {
    let (sender, receiver) = sides(&rt, Some(1));
    check(&rt, "a send", sender.try_send(0), Ok(()));
    let mut starving = Waiting::send(&rt, &sender, 9);
    check(&rt, "a poll", starving.poll(), Waits);
    check(&rt, "a receive", receiver.try_recv(), Ok(0));
    check(&rt, "a send", sender.try_send(1), Ok(()));
    check(&rt, "a poll", starving.poll(), Waits);
    check(&rt, "a receive", receiver.try_recv(), Ok(1));
    check(&rt, "a send", sender.try_send(2), Ok(()));
    let mut before = Waiting::send(&rt, &sender, 8);
    check(&rt, "a poll", before.poll(), Waits);
    check(&rt, "a poll", starving.poll(), Waits);
    check(&rt, "a receive", receiver.try_recv(), Ok(2));
    check(&rt, "whether the first is woken", before.is_woken(), true);
    check(&rt, "whether the other is", starving.is_woken(), false);
    refuse_sends(&rt, &sender, FORBEARANCE);
    check(&rt, "a send", sender.try_send(3), Ok(()));
    check(&rt, "a receive", receiver.try_recv(), Ok(3));
    check(&rt, "whether the other is", starving.is_woken(), true);
    check(&rt, "its poll", starving.poll(), Sent);
}

// A call that is refused because nothing is there is not counted, nor an attempt of a waiter in the queue.
#[test]
fn others_that_are_refused_are_not_counted(rt: HostRuntime) {
    let (sender, receiver) = sides(&rt, Some(1));
    let mut left = Waiting::receive(&rt, &receiver);
    check(&rt, "a poll", left.poll(), Waits);
    for message in [1, 2] {
        check(&rt, "a send", sender.try_send(message), Ok(()));
        check(&rt, "a receive", receiver.try_recv(), Ok(message));
        check(&rt, "a poll", left.poll(), Waits);
    }
    refuse(&rt, &receiver, 2 * FORBEARANCE);
    let mut next = Waiting::receive(&rt, &receiver);
    for _ in 0..FORBEARANCE {
        check(&rt, "a poll", next.poll(), Waits);
    }
    check(&rt, "a send", sender.try_send(3), Ok(()));
    for _ in 0..FORBEARANCE {
        check(&rt, "a poll", next.poll(), Waits);
    }
    refuse(&rt, &receiver, FORBEARANCE - 1);
    check(&rt, "whether the next is woken", next.is_woken(), false);
    check(&rt, "its poll", left.poll(), Received(3));
}

// Two receives starve, and neither tries again. For each of them so many newcomers are refused.
#[test]
fn the_next_that_starves_has_its_own_time(rt: HostRuntime) {
    let (sender, receiver) = sides(&rt, Some(2));
    let mut first = Waiting::receive(&rt, &receiver);
    let mut second = Waiting::receive(&rt, &receiver);
    check(&rt, "a poll", first.poll(), Waits);
    check(&rt, "a poll", second.poll(), Waits);
    for message in [1, 3] {
        check(&rt, "a send", sender.try_send(message), Ok(()));
        check(&rt, "a send", sender.try_send(message + 1), Ok(()));
        check(&rt, "a receive", receiver.try_recv(), Ok(message));
        check(&rt, "a receive", receiver.try_recv(), Ok(message + 1));
        check(&rt, "a poll", first.poll(), Waits);
        check(&rt, "a poll", second.poll(), Waits);
    }
    check(&rt, "a send", sender.try_send(5), Ok(()));
    check(&rt, "a send", sender.try_send(6), Ok(()));
    refuse(&rt, &receiver, FORBEARANCE);
    check(&rt, "a receive", receiver.try_recv(), Ok(5));
    refuse(&rt, &receiver, FORBEARANCE - 1);
    check(&rt, "the poll of the second", second.poll(), Received(6));
    check(&rt, "the poll of the first", first.poll(), Waits);
}

// A receive of many messages at once no longer waits for messages that are due to others, and one attempt counts no refusal
// twice.
#[test]
fn many_are_received_past_one_left_alone(rt: HostRuntime) {
    let (sender, receiver) = sides(&rt, None);
    let left = starve(&rt, &sender, &receiver);
    let mut many = Vec::new(rt.alloc());
    check(&rt, "many", receiver.recv_many(&mut many, 4), Ok(1));
    check(&rt, "many", many.as_slice(), [3].as_slice());
    check(&rt, "whether it is woken", left.is_woken(), true);
}
