//! Sends, receives and streams, each with a task of its own that a test polls by hand.
ghost use Rattle.std.specs.Prelude.{IsSome};
ghost use Rattle.std.proofs.Props.{props};

use crate::support::Runtime;
use crate::ways::{Answer, of_item, of_recv, of_send, of_timed_recv};
use event_channel::{Receiver, Recv, Send, Sender};
use futures::StreamExt;
use futures::task::Poll;
use futures::test::MockTask;
use std::mem;
use std::sync::Wait;
use std::time::{Clock, Duration};

// A send that is not done.
#[derive(Drop)]
struct Unsent<'a, R: Wait + Clock + Clone> {
    send: Send<'a, usize, R>,
    ghost carries: { IsSome send.message } by { Prim.hlevel props },
}

#[derive(Drop)]
enum Awaited<'a, R: Wait + Clock + Clone> {
    Send(Unsent<'a, R>),
    Receive(Recv<'a, usize, R>),
    Stream(Receiver<usize, R>),
    Over,
}

/// A send, a receive or a stream, with the task that awaits it.
#[derive(Drop)]
pub struct Waiting<'a, R: Wait + Clock + Clone> {
    task: MockTask,
    awaited: Awaited<'a, R>,
}

// Polls a send. A send that is not done is returned.
fn poll_send<'a, R: Runtime>(task: &MockTask, unsent: Unsent<'a, R>) -> (Awaited<'a, R>, Answer) {
    let Unsent { mut send } = unsent;
    match task.poll(&mut send) {
        Poll::Pending => (Awaited::Send(Unsent { send }), Answer::Waits),
        Poll::Ready(answer) => (Awaited::Over, of_send(answer)),
    }
}

impl<'a, R: Runtime> Waiting<'a, R> {
    // The task is not woken.
    fn new(rt: &R, awaited: Awaited<'a, R>) -> Self {
        let task = MockTask::new(rt).expect(rt, "a task");
        task.enter(|_| ());
        Waiting { task, awaited }
    }

    /// Makes a send of this message, which was not polled yet.
    pub fn send(rt: &R, sender: &'a Sender<usize, R>, message: usize) -> Self {
        let send = sender.send(message);
        Waiting::new(rt, Awaited::Send(Unsent { send }))
    }

    /// Makes a receive, which was not polled yet.
    pub fn receive(rt: &R, receiver: &'a Receiver<usize, R>) -> Self {
        Waiting::new(rt, Awaited::Receive(receiver.recv()))
    }

    /// Makes a stream of a clone of this receiver, which was not polled yet.
    pub fn stream(rt: &R, receiver: &Receiver<usize, R>) -> Self {
        let stream = receiver.clone().expect(rt, "a receiver");
        Waiting::new(rt, Awaited::Stream(stream))
    }

    /// Polls, and returns the answer.
    pub fn poll(&mut self) -> Answer {
        let (awaited, answer) = match mem::replace(&mut self.awaited, Awaited::Over) {
            Awaited::Send(unsent) => poll_send(&self.task, unsent),
            Awaited::Receive(mut recv) => {
                let answer = match self.task.poll(&mut recv) {
                    Poll::Pending => Answer::Waits,
                    Poll::Ready(answer) => of_recv(answer),
                };
                (Awaited::Receive(recv), answer)
            }
            Awaited::Stream(mut stream) => {
                let answer = match self.task.poll(&mut stream.next()) {
                    Poll::Pending => Answer::Waits,
                    Poll::Ready(item) => of_item(item),
                };
                (Awaited::Stream(stream), answer)
            }
            Awaited::Over => (Awaited::Over, Answer::Failed),
        };
        self.awaited = awaited;
        answer
    }

    /// Drops what the task awaits. The task is left, and counts as not woken.
    pub fn give_up(&mut self) {
        self.awaited = Awaited::Over;
        self.task.enter(|_| ());
    }

    /// Returns what a send or a receive answers at its limit. A stream is dropped.
    pub fn end(&mut self) -> Answer {
        match mem::replace(&mut self.awaited, Awaited::Over) {
            Awaited::Send(Unsent { send }) => of_send(send.wait_timeout(Duration::ZERO)),
            Awaited::Receive(recv) => of_timed_recv(recv.wait_timeout(Duration::ZERO)),
            Awaited::Stream(_) | Awaited::Over => Answer::Failed,
        }
    }

    /// Returns whether the task was woken since its last poll began, or since it gave up.
    pub fn is_woken(&self) -> bool {
        self.task.is_woken()
    }
}
