//! Channels, through which messages pass.
use crate::repeat;
use crate::run::{Run, Runtime};
use anyhow::Result;
use event_channel::{Receiver, Recv, Sender, bounded, unbounded};
use futures::Future;
use futures::executor::block_on;
use futures::task::{Context, Poll};

/// Passes through every channel.
pub const MESSAGE: u64 = 7;

fn channel<R: Runtime>(
    rt: &R,
    capacity: Option<usize>,
) -> Result<(Sender<u64, R>, Receiver<u64, R>)> {
    Ok(match capacity {
        Some(capacity) => bounded(rt, rt.alloc(), capacity)?,
        None => unbounded(rt, rt.alloc())?,
    })
}

/// So many threads send, and as many receive.
pub fn pass<R: Runtime>(run: &mut Run<'_, R>, capacity: Option<usize>) -> Result<()> {
    let n = run.n;
    let (sender, receiver) = channel(run.rt, capacity)?;
    let (sender, receiver) = (&sender, &receiver);
    let work = repeat!(as index => {
        if index % 2 == 0 {
            sender.send_blocking(MESSAGE).is_ok()
        } else {
            receiver.recv_blocking() == Ok(MESSAGE)
        }
    });
    run.together(n.saturating_mul(2), n, &work)
}

/// One thread sends a message and receives it.
pub fn pass_alone<R: Runtime>(run: &mut Run<'_, R>) -> Result<()> {
    let (sender, receiver) = channel(run.rt, Some(128))?;
    let (sender, receiver) = (&sender, &receiver);
    let work = repeat!(as _index => {
        sender.try_send(MESSAGE).is_ok() & (receiver.try_recv() == Ok(MESSAGE))
    });
    run.together(1, 1, &work)
}

// A receive that waits for messages, which the same task sends, each once the receive waits.
#[derive(Drop)]
struct Passing<'a, R: Runtime> {
    sender: &'a Sender<u64, R>,
    receive: Recv<'a, u64, R>,
    left: u64,
}

impl<'a, R: Runtime> Future for Passing<'a, R> {
    // Whether each message came.
    type Output = bool;

    fn poll(&mut self, cx: &mut Context<'_>) -> Poll<bool> {
        if let Poll::Ready(received) = self.receive.poll(cx) {
            self.left = self.left.saturating_sub(1);
            if received != Ok(MESSAGE) || self.left == 0 {
                return Poll::Ready(received == Ok(MESSAGE));
            }
            if self.receive.poll(cx).is_ready() {
                return Poll::Ready(false);
            }
        }
        let mut send = self.sender.send(MESSAGE);
        match send.poll(cx) {
            Poll::Ready(Ok(())) => Poll::Pending,
            _ => Poll::Ready(false),
        }
    }
}

fn pass_awaited<R: Runtime>(
    rt: &R,
    sender: &Sender<u64, R>,
    receiver: &Receiver<u64, R>,
    left: u64,
) -> bool {
    let passing = Passing {
        sender,
        receive: receiver.recv(),
        left,
    };
    block_on(rt, passing).unwrap_or(false)
}

/// One thread awaits the messages of all rounds, which it sends, in one executor.
pub fn pass_in_tasks<R: Runtime>(run: &mut Run<'_, R>) -> Result<()> {
    let (rt, messages) = (run.rt, run.rounds);
    let (sender, receiver) = channel(rt, Some(3))?;
    let (sender, receiver) = (&sender, &receiver);
    run.alone(
        1,
        messages as usize,
        |_| pass_awaited(rt, sender, receiver, messages),
    )
}
