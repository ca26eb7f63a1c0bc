//! Threads that are blocked: each thread that is notified is woken, and no other thread. A thread that is not blocked yet needs
//! nobody to wake it, so each test is made with longer and longer pauses before the call that wakes.
use crate::support::{SharedRuntime, check, sides};
use crate::waiting::Waiting;
use crate::ways::{Answer, Way, of_timed_recv};
use event_channel::{Receiver, Sender};
use futures::test::MockTask;
use std::alloc::AllocGlobal;
use std::sync::atomic::{AtomicBool, Ordering};
use std::thread;
use std::time::Duration;
use test_support::spin_until;

// In milliseconds.
const PAUSES: [u64; 6] = [1, 3, 10, 30, 60, 100];

// Longer than a test may take.
fn limit() -> Duration {
    Duration::from_secs(100)
}

// Blocks a thread, and then has a task wait. Returns whether one message wakes the task, too.
fn wakes_the_task<R: SharedRuntime>(rt: &R, way: Way, send: Way, pause: u64) -> bool {
    let (sender, receiver) = &sides(rt, None);
    let blocked = || way.receive(rt, receiver, limit());
    let wakes = || {
        thread::sleep(rt, Duration::from_millis(pause));
        let mut waiting = Waiting::receive(rt, receiver);
        check(rt, "a poll", waiting.poll(), Answer::Waits);
        check(rt, send, send.send(rt, sender, 7, limit()), Answer::Sent);
        waiting.is_woken()
    };
    let (received, is_woken) = thread::join(rt, blocked, wakes);
    check(rt, way, received, Answer::Received(7));
    is_woken
}

#[test]
fn a_message_for_a_blocked_thread_wakes_no_other_receive(rt: HostRuntime) {
    for (way, send) in [
        (Way::Blocking, Way::Forced),
        (Way::Timed, Way::AtOnce),
        (Way::Due, Way::Blocking),
        (Way::Waited, Way::Forced),
    ] {
        let is_spared = PAUSES
            .iter()
            .any(|pause| !wakes_the_task(&rt, way, send, *pause));
        check(&rt, way, is_spared, true);
    }
}

// A receive is polled, and then blocks a thread. The thread is woken at the place that the receive has: a new place would be
// the last.
fn waits_at_its_place<R: SharedRuntime>(rt: &R, pause: u64) {
    let (sender, receiver) = &sides(rt, None);
    let task = MockTask::new(rt).expect(rt, "a task");
    let mut first = receiver.recv();
    check(rt, "a poll", task.poll(&mut first).is_pending(), true);
    let mut second = Waiting::receive(rt, receiver);
    check(rt, "a poll", second.poll(), Answer::Waits);
    let blocked = || of_timed_recv(first.wait_timeout(limit()));
    let wakes = || {
        thread::sleep(rt, Duration::from_millis(pause));
        check(rt, "a send", sender.try_send(7), Ok(()));
    };
    let (received, ()) = thread::join(rt, blocked, wakes);
    check(rt, "a wait", received, Answer::Received(7));
    check(rt, "another receive", second.is_woken(), false);
}

#[test]
fn one_that_was_polled_waits_at_its_place(rt: HostRuntime) {
    for pause in PAUSES {
        waits_at_its_place(&rt, pause);
    }
}

// Makes a receive that starves, and is not notified.
fn starve<'a, R: SharedRuntime>(
    rt: &R,
    sender: &Sender<usize, R>,
    receiver: &'a Receiver<usize, R>,
) -> Waiting<'a, R> {
    let mut starving = Waiting::receive(rt, receiver);
    check(rt, "a poll", starving.poll(), Answer::Waits);
    for message in [1, 2] {
        check(rt, "a send", sender.try_send(message), Ok(()));
        check(rt, "a receive", receiver.try_recv(), Ok(message));
        check(rt, "a poll", starving.poll(), Answer::Waits);
    }
    starving
}

// While a receive starves, a thread waits for many messages, and behind it a last receive. Of four messages each of the three is
// notified of one, so the thread may take its own and the one that is due to nobody. Returns whether the thread took these two:
// else it was late at the queue, or woke up before all messages were there.
fn takes_its_own_and_more<R: SharedRuntime>(rt: &R, pause: u64) -> bool {
    let (sender, receiver) = &sides(rt, None);
    let starving = starve(rt, sender, receiver);
    let is_done = &AtomicBool::new(false);
    let blocked = || {
        let mut many = Vec::with_capacity(rt.alloc(), 4).expect(rt, "room");
        check(rt, "many", receiver.recv_many(&mut many, 4).is_ok(), true);
        is_done.store(true, Ordering::SeqCst);
        many
    };
    let sends = || {
        thread::sleep(rt, Duration::from_millis(pause));
        let mut last = Waiting::receive(rt, receiver);
        check(rt, "a poll", last.poll(), Answer::Waits);
        let first_two = [sender.try_send(3), sender.try_send(4)];
        let is_late = last.is_woken();
        let last_two = [sender.try_send(5), sender.try_send(6)];
        check(rt, "two sends", first_two, [Ok(()), Ok(())]);
        check(rt, "two sends", last_two, [Ok(()), Ok(())]);
        spin_until(rt, || is_done.load(Ordering::SeqCst));
        is_late
    };
    let (many, is_late) = thread::join(rt, blocked, sends);
    let mut starving = starving;
    if is_late || many.len() != 2 {
        return false;
    }
    check(rt, "many", many.as_slice(), [3, 4].as_slice());
    check(rt, "the next", starving.poll(), Answer::Received(5));
    true
}

#[test]
fn many_begin_with_the_message_that_is_due(rt: HostRuntime) {
    let is_taken = PAUSES
        .iter()
        .any(|pause| takes_its_own_and_more(&rt, *pause));
    check(&rt, "whether one took two", is_taken, true);
}

// How a notified wait ends: the wait is dropped, or reaches its limit.
#[derive(Clone, Copy, Debug, PartialEq, Eq)]
enum End {
    Dropped,
    Late,
}

// A send or a receive waits, and is notified as soon as another call makes room or sends. If the wait is dropped, the next
// waiter of its side is notified. If the wait reaches its limit, it is done still, and a waiter of the other side is notified.
#[derive(Clone, Copy, Debug)]
struct Told {
    is_send: bool,
    end: End,
    next_is_thread: bool,
}

impl Told {
    fn next_sends(self) -> bool {
        self.is_send == (self.end == End::Dropped)
    }

    // Makes the call that notifies the waiter.
    fn tell<R: SharedRuntime>(
        self,
        rt: &R,
        sender: &Sender<usize, R>,
        receiver: &Receiver<usize, R>,
    ) {
        if self.is_send {
            check(rt, self, receiver.try_recv(), Ok(7));
        } else {
            check(rt, self, sender.try_send(7), Ok(()));
        }
    }

    // Ends the notified wait, which notifies the next waiter.
    fn end<R: SharedRuntime>(
        self,
        rt: &R,
        sender: &Sender<usize, R>,
        receiver: &Receiver<usize, R>,
        told: Waiting<'_, R>,
    ) {
        let mut told = told;
        if self.end == End::Dropped {
            self.tell(rt, sender, receiver);
            check(rt, self, told.is_woken(), true);
            told.give_up();
        } else {
            let done = if self.is_send {
                Answer::Sent
            } else {
                Answer::Received(7)
            };
            check(rt, self, told.end(), done);
        }
    }

    fn run<R: SharedRuntime>(self, rt: &R) {
        let (sender, receiver) = &sides(rt, Some(1));
        let mut told = if self.is_send {
            check(rt, self, sender.try_send(7), Ok(()));
            Waiting::send(rt, sender, 8)
        } else {
            Waiting::receive(rt, receiver)
        };
        check(rt, self, told.poll(), Answer::Waits);
        if self.end == End::Late {
            self.tell(rt, sender, receiver);
        }
        let answer = if self.next_is_thread {
            self.thread_goes_on(rt, sender, receiver, told)
        } else {
            self.task_goes_on(rt, sender, receiver, told)
        };
        let expected = if self.next_sends() {
            Answer::Sent
        } else {
            Answer::Received(if self.is_send { 8 } else { 7 })
        };
        check(rt, self, answer, expected);
    }

    fn task_goes_on<R: SharedRuntime>(
        self,
        rt: &R,
        sender: &Sender<usize, R>,
        receiver: &Receiver<usize, R>,
        told: Waiting<'_, R>,
    ) -> Answer {
        let mut next = if self.next_sends() {
            Waiting::send(rt, sender, 9)
        } else {
            Waiting::receive(rt, receiver)
        };
        check(rt, self, next.poll(), Answer::Waits);
        self.end(rt, sender, receiver, told);
        check(rt, self, next.is_woken(), true);
        next.poll()
    }

    fn thread_goes_on<R: SharedRuntime>(
        self,
        rt: &R,
        sender: &Sender<usize, R>,
        receiver: &Receiver<usize, R>,
        told: Waiting<'_, R>,
    ) -> Answer {
        let goes_on = || {
            if self.next_sends() {
                Way::Timed.send(rt, sender, 9, limit())
            } else {
                Way::Timed.receive(rt, receiver, limit())
            }
        };
        let ends = move || {
            thread::sleep(rt, Duration::from_millis(100));
            self.end(rt, sender, receiver, told);
        };
        let (answer, ()) = thread::join(rt, goes_on, ends);
        answer
    }
}

#[test]
fn one_that_is_told_and_ends_tells_the_next(rt: HostRuntime) {
    for is_send in [false, true] {
        for end in [End::Dropped, End::Late] {
            for next_is_thread in [false, true] {
                Told {
                    is_send,
                    end,
                    next_is_thread,
                }
                .run(&rt);
            }
        }
    }
}
