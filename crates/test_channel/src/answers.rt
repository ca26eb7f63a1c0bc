//! What calls answer and whom they wake: that each way of a call reaches the state of the channel, whose clauses say the
//! rest.
use crate::script::{Call, run};
use crate::support::{check, sides};
use crate::waiting::Waiting;
use crate::ways::Answer::{Closed, Late, Out, Received, Sent, Waits};
use crate::ways::WAYS;
use crate::ways::Way::{AtOnce, Due, Forced, GivenUp, Timed, WaitedDue, WaitedTimed};
use std::alloc::AllocGlobal;

// One message wakes a receive and all streams. A stream that is dropped before is not woken; a receive is dropped once it is
// notified, and another receive is notified. A poll for another reason attempts, too, and is before the notified receive, which
// waits again. The waker that the polled receive left is dropped, which wakes its task.
#[test]
fn a_send_wakes_one_receive_and_all_streams(rt: HostRuntime) {
    for way in WAYS {
        let steps = [
            (Call::AwaitNext, Waits, [0, 0, 0, 0, 0]),
            (Call::AwaitNext, Waits, [0, 0, 0, 0, 0]),
            (Call::AwaitReceive, Waits, [0, 0, 0, 0, 0]),
            (Call::AwaitReceive, Waits, [0, 0, 0, 0, 0]),
            (Call::AwaitReceive, Waits, [0, 0, 0, 0, 0]),
            (Call::Drop(0), Late, [0, 0, 0, 0, 0]),
            (Call::Send(way, 7), Sent, [0, 1, 1, 0, 0]),
            (Call::Drop(2), Late, [0, 1, 0, 1, 0]),
            (Call::Poll(4), Received(7), [0, 1, 0, 1, 1]),
            (Call::Poll(1), Waits, [0, 0, 0, 1, 1]),
            (Call::Poll(3), Waits, [0, 0, 0, 0, 1]),
            (Call::Send(way, 8), Sent, [0, 1, 0, 1, 1]),
            (Call::Poll(1), Received(8), [0, 0, 0, 1, 1]),
            (Call::Send(way, 0), Sent, [0, 0, 0, 1, 1]),
            (Call::Send(way, 1), Sent, [0, 0, 0, 1, 1]),
            (Call::Poll(3), Received(0), [0, 0, 0, 0, 1]),
            (Call::Receive(way), Received(1), [0, 0, 0, 0, 1]),
        ];
        run(&rt, None, &steps);
    }
}

// Does with sends what the test before does with receives.
#[test]
fn a_receive_wakes_one_send(rt: HostRuntime) {
    for way in WAYS {
        let steps = [
            (Call::Send(way, 0), Sent, [0, 0, 0, 0, 0]),
            (Call::AwaitSend(1), Waits, [0, 0, 0, 0, 0]),
            (Call::AwaitSend(2), Waits, [0, 0, 0, 0, 0]),
            (Call::AwaitSend(3), Waits, [0, 0, 0, 0, 0]),
            (Call::Receive(way), Received(0), [1, 0, 0, 0, 0]),
            (Call::Drop(0), Late, [0, 1, 0, 0, 0]),
            (Call::Poll(2), Sent, [0, 1, 1, 0, 0]),
            (Call::Poll(1), Waits, [0, 0, 1, 0, 0]),
            (Call::Receive(way), Received(3), [0, 1, 1, 0, 0]),
            (Call::Poll(1), Sent, [0, 0, 1, 0, 0]),
            (Call::Receive(way), Received(2), [0, 0, 1, 0, 0]),
        ];
        run(&rt, Some(1), &steps);
    }
}

// A message that replaces another message notifies nobody.
#[test]
fn a_send_by_force_takes_the_first_out(rt: HostRuntime) {
    let steps = [
        (Call::AwaitReceive, Waits, [0, 0, 0, 0, 0]),
        (Call::Send(Forced, 0), Sent, [1, 0, 0, 0, 0]),
        (Call::Send(Forced, 1), Sent, [1, 0, 0, 0, 0]),
        (Call::AwaitSend(9), Waits, [1, 0, 0, 0, 0]),
        (Call::Send(Forced, 2), Out(0), [1, 0, 0, 0, 0]),
        (Call::Send(Forced, 3), Out(1), [1, 0, 0, 0, 0]),
        (Call::Poll(0), Received(2), [0, 1, 0, 0, 0]),
        (Call::Poll(1), Sent, [0, 0, 0, 0, 0]),
    ];
    run(&rt, Some(2), &steps);
}

// One receive is notified of the message; the other receive and the send wait on until the close.
#[test]
fn a_close_wakes_all_and_leaves_the_messages(rt: HostRuntime) {
    for way in WAYS {
        let steps = [
            (Call::AwaitReceive, Waits, [0, 0, 0, 0, 0]),
            (Call::AwaitReceive, Waits, [0, 0, 0, 0, 0]),
            (Call::Send(way, 0), Sent, [1, 0, 0, 0, 0]),
            (Call::AwaitSend(1), Waits, [1, 0, 0, 0, 0]),
            (Call::Close, Closed, [1, 1, 1, 0, 0]),
            (Call::Close, Late, [1, 1, 1, 0, 0]),
            (Call::Send(way, 5), Closed, [1, 1, 1, 0, 0]),
            (Call::Receive(way), Received(0), [1, 1, 1, 0, 0]),
            (Call::Poll(0), Closed, [0, 1, 1, 0, 0]),
            (Call::Poll(1), Closed, [0, 0, 1, 0, 0]),
            (Call::Poll(2), Closed, [0, 0, 0, 0, 0]),
            (Call::AwaitNext, Closed, [0, 0, 0, 0, 0]),
            (Call::Receive(way), Closed, [0, 0, 0, 0, 0]),
        ];
        run(&rt, Some(1), &steps);
    }
}

// A deadline of now has passed once a call looks at it.
#[test]
fn calls_without_time_attempt_and_wake_nobody(rt: HostRuntime) {
    for way in [AtOnce, Timed, Due, WaitedTimed, WaitedDue, GivenUp] {
        let steps = [
            (Call::AwaitReceive, Waits, [0, 0, 0, 0, 0]),
            (Call::Receive(way), Late, [0, 0, 0, 0, 0]),
            (Call::Send(way, 0), Sent, [1, 0, 0, 0, 0]),
            (Call::AwaitSend(1), Waits, [1, 0, 0, 0, 0]),
            (Call::Send(way, 2), Late, [1, 0, 0, 0, 0]),
            (Call::Receive(way), Received(0), [1, 1, 0, 0, 0]),
        ];
        run(&rt, Some(1), &steps);
    }
}

// The messages are put behind what the vector had, and as many sends that wait for room are woken. An iterator gets the rest.
#[test]
fn many_are_received_at_once(rt: HostRuntime) {
    for (limit, count) in [(2, 2), (usize::MAX, 4)] {
        let (sender, receiver) = sides(&rt, Some(4));
        for message in 0..4 {
            check(&rt, "a send", sender.try_send(message), Ok(()));
        }
        let mut first = Waiting::send(&rt, &sender, 4);
        let mut second = Waiting::send(&rt, &sender, 5);
        check(&rt, "polls", [first.poll(), second.poll()], [Waits; 2]);
        let mut many = vec![in rt.alloc(); 9usize].expect(&rt, "room");
        check(&rt, limit, receiver.recv_many(&mut many, limit), Ok(count));
        let woken = [first.is_woken(), second.is_woken()];
        check(&rt, "whether they are woken", woken, [true; 2]);
        for message in receiver.try_iter() {
            many.push(message).expect(&rt, "room");
        }
        check(&rt, limit, many.as_slice(), [9, 0, 1, 2, 3].as_slice());
    }
}
