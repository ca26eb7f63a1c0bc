//! The ways to send and to receive, and what they answer.
use crate::support::Runtime;
use crate::waiting::Waiting;
use event_channel::{
    Receiver, RecvError, RecvTimeoutError, SendError, SendReason, Sender, TryRecvError, WaitError,
};
use futures::StreamExt;
use futures::executor::block_on;
use std::thread;
use std::time::Duration;
use test_support::deadline_after;

/// What a call answered. That a message which was not sent is returned is a clause of each call.
#[derive(Clone, Copy, Debug, PartialEq, Eq)]
pub enum Answer {
    Sent,
    Received(usize),
    /// Another message was sent, and this message went out.
    Out(usize),
    Waits,
    /// The channel was full or empty: the call did not wait, was out of time, or was given up.
    Late,
    Closed,
    /// The call was refused memory, or was done before.
    Failed,
}

/// A way to send, and to receive.
#[derive(Clone, Copy, Debug, PartialEq, Eq)]
pub enum Way {
    AtOnce,
    Blocking,
    Timed,
    /// With a deadline.
    Due,
    /// By a future that is waited for: for as long as it takes, for some time, and until a moment.
    Waited,
    WaitedTimed,
    WaitedDue,
    Awaited,
    /// By a stream of its own, which is dropped after one item. A send is awaited.
    Streamed,
    /// Polled, and dropped a little later if it is not done.
    GivenUp,
    /// By an iterator of its own, for one item. A send blocks.
    Iterated,
    /// By force. A receive is made at once.
    Forced,
}

/// All ways.
pub const WAYS: [Way; 12] = [
    Way::Blocking,
    Way::Awaited,
    Way::Timed,
    Way::Streamed,
    Way::Due,
    Way::GivenUp,
    Way::Iterated,
    Way::AtOnce,
    Way::Waited,
    Way::WaitedTimed,
    Way::WaitedDue,
    Way::Forced,
];

impl Way {
    /// Sends a message. A way that has a limit waits so long for room.
    pub fn send<R: Runtime>(
        self,
        rt: &R,
        sender: &Sender<usize, R>,
        message: usize,
        limit: Duration,
    ) -> Answer {
        let moment = deadline_after(rt, limit).expect(rt, "a moment");
        match self {
            Way::AtOnce => of_send(sender.try_send(message)),
            Way::Forced => of_force(sender.force_send(message)),
            Way::Blocking | Way::Iterated => of_send(sender.send_blocking(message)),
            Way::Timed => of_send(sender.send_timeout(message, limit)),
            Way::Due => of_send(sender.send_deadline(message, moment)),
            Way::Waited => of_send(sender.send(message).wait()),
            Way::WaitedTimed => of_send(sender.send(message).wait_timeout(limit)),
            Way::WaitedDue => of_send(sender.send(message).wait_deadline(moment)),
            Way::Awaited | Way::Streamed => {
                of_send(block_on(rt, sender.send(message)).expect(rt, "an executor"))
            }
            Way::GivenUp => once(Waiting::send(rt, sender, message)),
        }
    }

    /// Receives a message. A way that has a limit waits so long for a message.
    pub fn receive<R: Runtime>(
        self,
        rt: &R,
        receiver: &Receiver<usize, R>,
        limit: Duration,
    ) -> Answer {
        let moment = deadline_after(rt, limit).expect(rt, "a moment");
        match self {
            Way::AtOnce | Way::Forced => of_try_recv(receiver.try_recv()),
            Way::Blocking => of_recv(receiver.recv_blocking()),
            Way::Timed => of_timed_recv(receiver.recv_timeout(limit)),
            Way::Due => of_timed_recv(receiver.recv_deadline(moment)),
            Way::Waited => of_recv(receiver.recv().wait()),
            Way::WaitedTimed => of_timed_recv(receiver.recv().wait_timeout(limit)),
            Way::WaitedDue => of_timed_recv(receiver.recv().wait_deadline(moment)),
            Way::Awaited => of_recv(block_on(rt, receiver.recv()).expect(rt, "an executor")),
            Way::Streamed => {
                let mut stream = receiver.clone().expect(rt, "a receiver");
                of_item(block_on(rt, stream.next()).expect(rt, "an executor"))
            }
            Way::Iterated => of_item(receiver.iter().next()),
            Way::GivenUp => once(Waiting::receive(rt, receiver)),
        }
    }
}

// Between the poll and the drop other calls may notify the wait.
fn once<R: Runtime>(mut waiting: Waiting<'_, R>) -> Answer {
    match waiting.poll() {
        Answer::Waits => {
            thread::yield_now();
            Answer::Late
        }
        answer => answer,
    }
}

pub fn of_send(answer: Result<(), SendError<usize>>) -> Answer {
    of_force(answer.map(|()| None))
}

fn of_force(answer: Result<Option<usize>, SendError<usize>>) -> Answer {
    match answer {
        Ok(None) => Answer::Sent,
        Ok(Some(message)) => Answer::Out(message),
        Err(SendError { message: _, reason }) => match reason {
            SendReason::Full | SendReason::TimedOut => Answer::Late,
            SendReason::Closed => Answer::Closed,
            SendReason::Memory | SendReason::WaitFailed(_) => Answer::Failed,
        },
    }
}

fn of_try_recv(answer: Result<usize, TryRecvError>) -> Answer {
    match answer {
        Ok(message) => Answer::Received(message),
        Err(TryRecvError::Empty) => Answer::Late,
        Err(TryRecvError::Closed) => Answer::Closed,
    }
}

pub fn of_recv(answer: Result<usize, RecvError>) -> Answer {
    match answer {
        Ok(message) => Answer::Received(message),
        Err(RecvError::Closed) => Answer::Closed,
        Err(RecvError::WaitFailed(_)) => Answer::Failed,
    }
}

/// Returns what a receive answered that waited in time, or was late.
pub fn of_timed_recv(answer: Result<usize, RecvTimeoutError>) -> Answer {
    match answer {
        Ok(message) => Answer::Received(message),
        Err(RecvTimeoutError::TimedOut) => Answer::Late,
        Err(RecvTimeoutError::Closed) => Answer::Closed,
        Err(RecvTimeoutError::WaitFailed(_)) => Answer::Failed,
    }
}

pub fn of_item(item: Option<Result<usize, WaitError>>) -> Answer {
    match item {
        Some(Ok(message)) => Answer::Received(message),
        Some(Err(_)) => Answer::Failed,
        None => Answer::Closed,
    }
}
