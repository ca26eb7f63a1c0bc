//! Makes the calls of a test that is written as a table, by one thread, on a new channel.
use crate::support::{Runtime, check, sides};
use crate::waiting::Waiting;
use crate::ways::{Answer, Way};
use event_channel::{Receiver, Sender};
use std::time::Duration;

/// A call of a test. Waiters are named by their numbers, in the order in which they are made.
#[derive(Clone, Copy)]
pub enum Call {
    /// A send in this way, without time.
    Send(Way, usize),
    /// A receive in this way, without time.
    Receive(Way),
    /// The first poll of a new send of this message.
    AwaitSend(usize),
    /// The first poll of a new receive.
    AwaitReceive,
    /// The first poll of a new stream.
    AwaitNext,
    Poll(usize),
    /// A drop, which answers that it is late. The task is left.
    Drop(usize),
    /// A close, which is late if the channel is closed already.
    Close,
}

/// A call, its answer, and which of the first five waiters are woken then (1) since their last polls began, or since they were
/// dropped.
pub type Step = (Call, Answer, [u8; 5]);

#[derive(Drop)]
struct Desk<'a, R: Runtime> {
    rt: &'a R,
    sender: &'a Sender<usize, R>,
    receiver: &'a Receiver<usize, R>,
    waiting: Vec<Waiting<'a, R>>,
    // How many messages have to be there, by the answers.
    len: usize,
}

impl<'a, R: Runtime> Desk<'a, R> {
    fn await_first(&mut self, mut waiting: Waiting<'a, R>) -> Answer {
        let answer = waiting.poll();
        self.waiting.push(waiting).expect(self.rt, "room");
        answer
    }

    fn numbered(&mut self, number: usize) -> &mut Waiting<'a, R> {
        let waiting = self.waiting.get_mut(number);
        waiting.expect(self.rt, "one that waits")
    }

    fn is_woken(&self, number: usize) -> u8 {
        let waiting = self.waiting.get(number);
        u8::from(waiting.is_some_and(|waiting| waiting.is_woken()))
    }

    fn make(&mut self, call: Call) -> Answer {
        let (rt, sender, receiver) = (self.rt, self.sender, self.receiver);
        match call {
            Call::Send(way, message) => way.send(rt, sender, message, Duration::ZERO),
            Call::Receive(way) => way.receive(rt, receiver, Duration::ZERO),
            Call::AwaitSend(message) => self.await_first(Waiting::send(rt, sender, message)),
            Call::AwaitReceive => self.await_first(Waiting::receive(rt, receiver)),
            Call::AwaitNext => self.await_first(Waiting::stream(rt, receiver)),
            Call::Poll(number) => self.numbered(number).poll(),
            Call::Drop(number) => {
                self.numbered(number).give_up();
                Answer::Late
            }
            Call::Close if sender.close() => Answer::Closed,
            Call::Close => Answer::Late,
        }
    }

    // Checks that both sides say how many messages there are, and whether more fit and may be sent.
    fn says(&self, capacity: Option<usize>, is_closed: bool) {
        let (rt, sender, receiver) = (self.rt, self.sender, self.receiver);
        let expected = (self.len, self.len == 0, capacity == Some(self.len));
        let said = (sender.len(), sender.is_empty(), sender.is_full());
        check(rt, "the sender", said, expected);
        let said = (receiver.len(), receiver.is_empty(), receiver.is_full());
        check(rt, "the receiver", said, expected);
        let closed = (sender.is_closed(), receiver.is_closed());
        check(rt, "whether it is closed", closed, (is_closed, is_closed));
    }
}

/// Makes these calls on a new channel of this capacity, and checks that each gives its answer.
pub fn run<R: Runtime>(rt: &R, capacity: Option<usize>, steps: &[Step]) {
    let (sender, receiver) = &sides(rt, capacity);
    let mut desk = Desk {
        rt,
        sender,
        receiver,
        waiting: Vec::new(rt.alloc()),
        len: 0,
    };
    let mut is_closed = false;
    for (number, &(call, answer, woken)) in steps.iter().enumerate() {
        let answered = desk.make(call);
        let now = [0, 1, 2, 3, 4].map(|number| desk.is_woken(number));
        check(rt, ("step", number), (answered, now), (answer, woken));
        match answer {
            Answer::Sent => desk.len = desk.len.saturating_add(1),
            Answer::Received(_) => desk.len = desk.len.saturating_sub(1),
            Answer::Closed => is_closed = true,
            _ => {}
        }
        desk.says(capacity, is_closed);
    }
}
