//! A waiter that was notified and found nothing twice: newcomers leave it what is due to it, until it has tried again.
use crate::script::{Call, Step, run};
use crate::support::{Runtime, check, sides};
use crate::waiting::Waiting;
use crate::ways::Answer::{Closed, Late, Received, Sent, Waits};
use crate::ways::Way;
use crate::ways::Way::{AtOnce, Due, Forced, GivenUp, Timed, WaitedDue, WaitedTimed};
use std::alloc::AllocGlobal;

// Ways that have no time to wait.
const QUICK: [Way; 6] = [AtOnce, Timed, Due, WaitedTimed, WaitedDue, GivenUp];

// Has a receive be notified of a message, and another receive take the message before it, twice.
fn starve(way: Way) -> [Step; 7] {
    [
        (Call::AwaitReceive, Waits, [0, 0, 0, 0, 0]),
        (Call::Send(way, 1), Sent, [1, 0, 0, 0, 0]),
        (Call::Receive(way), Received(1), [1, 0, 0, 0, 0]),
        (Call::Poll(0), Waits, [0, 0, 0, 0, 0]),
        (Call::Send(way, 2), Sent, [1, 0, 0, 0, 0]),
        (Call::Receive(way), Received(2), [1, 0, 0, 0, 0]),
        (Call::Poll(0), Waits, [0, 0, 0, 0, 0]),
    ]
}

// Has a send be notified of a place, and another send take the place before it, twice.
fn starve_send(way: Way) -> [Step; 8] {
    [
        (Call::Send(way, 0), Sent, [0, 0, 0, 0, 0]),
        (Call::AwaitSend(1), Waits, [0, 0, 0, 0, 0]),
        (Call::Receive(way), Received(0), [1, 0, 0, 0, 0]),
        (Call::Send(way, 2), Sent, [1, 0, 0, 0, 0]),
        (Call::Poll(0), Waits, [0, 0, 0, 0, 0]),
        (Call::Receive(way), Received(2), [1, 0, 0, 0, 0]),
        (Call::Send(way, 3), Sent, [1, 0, 0, 0, 0]),
        (Call::Poll(0), Waits, [0, 0, 0, 0, 0]),
    ]
}

fn run_both<R: Runtime>(rt: &R, capacity: Option<usize>, first: &[Step], then: &[Step]) {
    let mut all = Vec::new(rt.alloc());
    for step in first.iter().chain(then.iter()) {
        all.push(*step).expect(rt, "room");
    }
    run(rt, capacity, &all);
}

// Makes these calls after the calls by which the first receive starves.
fn run_starving<R: Runtime>(rt: &R, way: Way, steps: &[Step]) {
    run_both(rt, None, &starve(way), steps);
}

// Makes these calls after the calls by which the first send starves, on a channel with room for one message.
fn run_starving_send<R: Runtime>(rt: &R, way: Way, steps: &[Step]) {
    run_both(rt, Some(1), &starve_send(way), steps);
}

// The starving receive gets the third message. Then it starves no more: newcomers take what is due to another receive.
#[test]
fn a_receive_by_turns_has_the_third_message(rt: HostRuntime) {
    for way in QUICK {
        let steps = [
            (Call::Send(way, 3), Sent, [1, 0, 0, 0, 0]),
            (Call::Receive(way), Late, [1, 0, 0, 0, 0]),
            (Call::Poll(0), Received(3), [0, 0, 0, 0, 0]),
            (Call::AwaitReceive, Waits, [0, 0, 0, 0, 0]),
            (Call::Send(way, 4), Sent, [0, 1, 0, 0, 0]),
            (Call::Receive(way), Received(4), [0, 1, 0, 0, 0]),
            (Call::Poll(1), Waits, [0, 0, 0, 0, 0]),
        ];
        run_starving(&rt, way, &steps);
    }
}

// One message more than there are notified receives is there for newcomers. A newcomer that finds each message due to another
// receive does not wait in the queue: it tries again by itself.
#[test]
fn newcomers_take_what_is_not_due(rt: HostRuntime) {
    for way in QUICK {
        let steps = [
            (Call::Send(way, 3), Sent, [1, 0, 0, 0, 0]),
            (Call::AwaitReceive, Waits, [1, 1, 0, 0, 0]),
            (Call::Poll(1), Waits, [1, 1, 0, 0, 0]),
            (Call::Send(way, 4), Sent, [1, 1, 0, 0, 0]),
            (Call::Receive(way), Received(3), [1, 1, 0, 0, 0]),
            (Call::Receive(way), Late, [1, 1, 0, 0, 0]),
            (Call::Send(way, 5), Sent, [1, 1, 0, 0, 0]),
            (Call::Poll(1), Received(4), [1, 0, 0, 0, 0]),
            (Call::Poll(0), Received(5), [0, 0, 0, 0, 0]),
        ];
        run_starving(&rt, way, &steps);
    }
}

// A receive that is polled again without being notified loses nothing by that.
#[test]
fn a_poll_that_nothing_woke_is_no_loss(rt: HostRuntime) {
    let steps = [
        (Call::AwaitReceive, Waits, [0, 0, 0, 0, 0]),
        (Call::Poll(0), Waits, [0, 0, 0, 0, 0]),
        (Call::Poll(0), Waits, [0, 0, 0, 0, 0]),
        (Call::Send(AtOnce, 1), Sent, [1, 0, 0, 0, 0]),
        (Call::Receive(AtOnce), Received(1), [1, 0, 0, 0, 0]),
        (Call::Poll(0), Waits, [0, 0, 0, 0, 0]),
        (Call::Poll(0), Waits, [0, 0, 0, 0, 0]),
        (Call::Send(AtOnce, 2), Sent, [1, 0, 0, 0, 0]),
        (Call::Receive(AtOnce), Received(2), [1, 0, 0, 0, 0]),
    ];
    run(&rt, None, &steps);
}

// A message that was due to a dropped receive is there for newcomers, and so is each message in a closed channel.
#[test]
fn one_that_is_gone_keeps_nothing_back(rt: HostRuntime) {
    for way in QUICK {
        let steps = [
            (Call::Send(way, 3), Sent, [1, 0, 0, 0, 0]),
            (Call::Receive(way), Late, [1, 0, 0, 0, 0]),
            (Call::Drop(0), Late, [0, 0, 0, 0, 0]),
            (Call::Receive(way), Received(3), [0, 0, 0, 0, 0]),
        ];
        run_starving(&rt, way, &steps);
        let steps = [
            (Call::Send(way, 3), Sent, [1, 0, 0, 0, 0]),
            (Call::Receive(way), Late, [1, 0, 0, 0, 0]),
            (Call::Close, Closed, [1, 0, 0, 0, 0]),
            (Call::Receive(way), Received(3), [1, 0, 0, 0, 0]),
            (Call::Poll(0), Closed, [0, 0, 0, 0, 0]),
        ];
        run_starving(&rt, way, &steps);
    }
}

// A stream is a newcomer. While each message is due to another waiter the stream tries again by itself, until the receive has
// tried or is dropped.
#[test]
fn a_stream_waits_for_what_is_not_due(rt: HostRuntime) {
    for way in QUICK {
        let steps = [
            (Call::AwaitNext, Waits, [0, 0, 0, 0, 0]),
            (Call::Send(way, 3), Sent, [1, 1, 0, 0, 0]),
            (Call::Poll(1), Waits, [1, 1, 0, 0, 0]),
            (Call::Poll(0), Received(3), [0, 1, 0, 0, 0]),
            (Call::Send(way, 4), Sent, [0, 1, 0, 0, 0]),
            (Call::Poll(1), Received(4), [0, 0, 0, 0, 0]),
        ];
        run_starving(&rt, way, &steps);
        let steps = [
            (Call::AwaitNext, Waits, [0, 0, 0, 0, 0]),
            (Call::Send(way, 3), Sent, [1, 1, 0, 0, 0]),
            (Call::Poll(1), Waits, [1, 1, 0, 0, 0]),
            (Call::Drop(0), Late, [0, 1, 0, 0, 0]),
            (Call::Poll(1), Received(3), [0, 0, 0, 0, 0]),
        ];
        run_starving(&rt, way, &steps);
    }
}

// The receive is at its limit, and its message is there still. A receive of many messages at once gets as many as are not due.
#[test]
fn one_at_its_limit_has_what_is_due_to_it(rt: HostRuntime) {
    let (sender, receiver) = sides(&rt, None);
    let mut starving = Waiting::receive(&rt, &receiver);
    check(&rt, "a poll", starving.poll(), Waits);
    for message in [1, 2] {
        check(&rt, "a send", sender.try_send(message), Ok(()));
        check(&rt, "a receive", receiver.try_recv(), Ok(message));
        check(&rt, "a poll", starving.poll(), Waits);
    }
    for message in [3, 4, 5] {
        check(&rt, "a send", sender.try_send(message), Ok(()));
    }
    let mut many = Vec::new(rt.alloc());
    many.reserve(4).expect(&rt, "room");
    check(&rt, "many", receiver.recv_many(&mut many, 4), Ok(2));
    check(&rt, "many", many.as_slice(), [3, 4].as_slice());
    check(
        &rt,
        "whether one is there",
        receiver.try_recv().is_err(),
        true,
    );
    check(&rt, "its end", starving.end(), Received(5));
}

// The starving send gets the third place. Then it starves no more: newcomers take what is due to another send.
#[test]
fn a_send_by_turns_has_the_third_place(rt: HostRuntime) {
    for way in QUICK {
        let steps = [
            (Call::Receive(way), Received(3), [1, 0, 0, 0, 0]),
            (Call::Send(way, 4), Late, [1, 0, 0, 0, 0]),
            (Call::Poll(0), Sent, [0, 0, 0, 0, 0]),
            (Call::AwaitSend(5), Waits, [0, 0, 0, 0, 0]),
            (Call::Receive(way), Received(1), [0, 1, 0, 0, 0]),
            (Call::Send(way, 6), Sent, [0, 1, 0, 0, 0]),
            (Call::Poll(1), Waits, [0, 0, 0, 0, 0]),
        ];
        run_starving_send(&rt, way, &steps);
    }
}

// The place of the send is there for newcomers once the send is dropped. A forced send takes the place at any time.
#[test]
fn a_place_is_taken_by_force_or_left(rt: HostRuntime) {
    for way in QUICK {
        let steps = [
            (Call::Receive(way), Received(3), [1, 0, 0, 0, 0]),
            (Call::Send(way, 4), Late, [1, 0, 0, 0, 0]),
            (Call::Drop(0), Late, [0, 0, 0, 0, 0]),
            (Call::Send(way, 5), Sent, [0, 0, 0, 0, 0]),
        ];
        run_starving_send(&rt, way, &steps);
        let steps = [
            (Call::Receive(way), Received(3), [1, 0, 0, 0, 0]),
            (Call::Send(Forced, 4), Sent, [1, 0, 0, 0, 0]),
            (Call::Poll(0), Waits, [0, 0, 0, 0, 0]),
            (Call::Receive(way), Received(4), [1, 0, 0, 0, 0]),
            (Call::Send(way, 5), Late, [1, 0, 0, 0, 0]),
            (Call::Poll(0), Sent, [0, 0, 0, 0, 0]),
        ];
        run_starving_send(&rt, way, &steps);
    }
}

// Two places are free, and one send is notified: one place is there for newcomers. The send is at its limit, and its place is
// there still.
#[test]
fn newcomers_take_places_that_are_not_due(rt: HostRuntime) {
    let (sender, receiver) = sides(&rt, Some(2));
    check(&rt, "a send", sender.try_send(0), Ok(()));
    check(&rt, "a send", sender.try_send(1), Ok(()));
    let mut starving = Waiting::send(&rt, &sender, 2);
    check(&rt, "a poll", starving.poll(), Waits);
    for message in [0, 1] {
        check(&rt, "a receive", receiver.try_recv(), Ok(message));
        check(&rt, "a send", sender.try_send(message), Ok(()));
        check(&rt, "a poll", starving.poll(), Waits);
    }
    check(&rt, "a receive", receiver.try_recv(), Ok(0));
    check(&rt, "a receive", receiver.try_recv(), Ok(1));
    check(&rt, "a send", sender.try_send(3), Ok(()));
    check(&rt, "whether it is full", sender.is_full(), false);
    check(&rt, "another send", sender.try_send(4).is_err(), true);
    check(&rt, "its end", starving.end(), Sent);
    check(&rt, "a receive", receiver.try_recv(), Ok(3));
    check(&rt, "a receive", receiver.try_recv(), Ok(2));
}
