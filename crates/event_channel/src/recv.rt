//! The future of a receive.
ghost use Rattle.std.specs.Prelude.{◌≡◌, IfOk, IsSome};
ghost use Rattle.event_channel.specs.Hands.{Says};

use crate::call::RestingHand;
use crate::channel::{Channel, wait_error};
use crate::error::{RecvError, RecvTimeoutError, WaitError};
use crate::receiving::Receiving;
use event_queue::ListenError;
use event_wait::{Limit, Refused};
use futures::Future;
use futures::task::{Context, Poll};
use std::alloc::Global;
use std::fmt;
use std::fmt::{Debug, Formatter};
use std::marker::Model;
use std::sync::Wait;
use std::time::{Clock, Duration, Instant};

/// A message that is received once there is one: the future of [`recv`](crate::Receiver::recv).
///
/// Each poll attempts to receive. The future may be polled again after it was ready, and then receives another message. No
/// message is lost if it is dropped.
///
/// Poll it or drop it once its task is woken. Left alone it stops nobody for good: if it [starves](crate::PATIENCE), others are
/// refused what is due to it [so often](crate::FORBEARANCE), and then it waits anew when it is polled.
///
/// One of two such futures receives, and the other is dropped, which loses no message:
///
/// ```rust
/// let received = block_on(rt, select(urgent.recv(), others.recv()))?;
/// let (number, _) = received.factor_first();
/// ```
#[must_use = "nothing is received before it is polled"]
pub struct Recv<'a, T: Drop, R: Wait + Clock + Clone> {
    channel: &'a Channel<T>,
    rt: &'a R,
    alloc: Global,
    receiving: Receiving,
    // The hand that makes all calls of the future.
    hand: RestingHand<T>,
}

// Returns what a wait without a limit received.
pub(crate) fn received<T>(
    waited: Result<Option<Option<T>>, Refused<ListenError>>,
) -> Result<T, RecvError>
    requires { IfOk waited IsSome }
    ensures { Says waited result }
{
    match waited {
        Ok(Some(Some(message))) => Ok(message),
        Ok(Some(None)) => Err(RecvError::Closed),
        Ok(None) => unreachable!(),
        Err(error) => Err(RecvError::WaitFailed(wait_error(error))),
    }
}

// Returns what a wait with a limit received.
pub(crate) fn received_in_time<T>(
    waited: Result<Option<Option<T>>, Refused<ListenError>>,
) -> Result<T, RecvTimeoutError> {
    match waited {
        Ok(Some(Some(message))) => Ok(message),
        Ok(Some(None)) => Err(RecvTimeoutError::Closed),
        Ok(None) => Err(RecvTimeoutError::TimedOut),
        Err(error) => Err(RecvTimeoutError::WaitFailed(wait_error(error))),
    }
}

impl<'a, T: Drop, R: Wait + Clock + Clone> Model for Recv<'a, T, R> {
    ghost use Rattle.event_channel.specs.Hands.{IsOneHand};
    ghost use Rattle.event_channel.specs.Places.{WaitsAt, receiver_at};
    ghost use Rattle.event_history.specs.Lock.{LockId};
    ghost use Rattle.std.specs.Prelude.{ℕ, All, Option};

    ghost Value = { LockId (Option ℕ) };

    ghost view = { λ recv. recv.channel.now.lock };

    ghost invariant = { λ recv. IsOneHand recv.channel.now.lock.table recv.hand.rest.slot
        recv.hand.rest.views
        × All (λ v. WaitsAt (receiver_at recv.receiving.asked recv.receiving.key) v.mine)
        recv.hand.rest.views };
}

impl<'a, T: Drop, R: Wait + Clock + Clone> Recv<'a, T, R> {
    pub(crate) fn new(channel: &'a Channel<T>, rt: &'a R, alloc: Global) -> Self
        ensures { result ≡ channel.now.lock }
    {
        Recv {
            channel,
            rt,
            alloc,
            receiving: Receiving::one(),
            hand: channel.lock.hand().rest(),
        }
    }

    /// Blocks the thread until a message is received, or until the channel is closed and empty. A future that was polled before
    /// keeps its place in the queue.
    ///
    /// Where it has to wait it takes memory, for a place in the queue and for what the thread parks on.
    pub fn wait(self) -> Result<T, RecvError> {
        received(self.end(Limit::Never))
    }

    /// Blocks the thread until a message is received or none will come, at most for `timeout`, with the errors of
    /// [`recv_timeout`](crate::Receiver::recv_timeout). With a `timeout` of zero the call still attempts to receive.
    pub fn wait_timeout(self, timeout: Duration) -> Result<T, RecvTimeoutError> {
        let limit = Limit::after(self.rt, timeout);
        received_in_time(self.end(limit))
    }

    /// Blocks the thread until a message is received or none will come, at most until `deadline`, with the errors of
    /// [`recv_deadline`](crate::Receiver::recv_deadline). If `deadline` has passed the call still attempts to receive.
    pub fn wait_deadline(self, deadline: Instant) -> Result<T, RecvTimeoutError> {
        received_in_time(self.end(Limit::At(deadline)))
    }

    fn end(self, limit: Limit) -> Result<Option<Option<T>>, Refused<ListenError>>
        ensures { limit ≡ Limit.Never → IfOk result IsSome }
    {
        let mut recv = self;
        let mut hand = recv.hand.take();
        let ended = recv
            .channel
            .wait_to_receive(recv.rt, recv.alloc, &mut hand, &mut recv.receiving, limit);
        recv.hand.put(hand);
        ended
    }
}

impl<'a, T: Drop, R: Wait + Clock + Clone> Drop for Recv<'a, T, R> {
    fn drop(self) {
        let Recv {
            channel,
            rt,
            alloc: _,
            receiving,
            hand,
        } = self;
        let mut receiving = receiving;
        let mut hand = hand.into_hand();
        channel.stop_receiving(rt, &mut hand, &mut receiving);
        hand.end();
    }
}

impl<'a, T: Drop, R: Wait + Clock + Clone> Future for Recv<'a, T, R> {
    type Output = Result<T, RecvError>;

    ghost use Rattle.std.specs.Prelude.{◌≡◌};

    ghost needs = { λ recv s. s ≡ recv.source };

    fn poll(&mut self, cx: &mut Context<'_>) -> Poll<Result<T, RecvError>> {
        let mut hand = self.hand.take();
        let polled = self
            .channel
            .lock
            .poll_in(self.rt, &mut hand, &mut self.receiving, cx);
        self.hand.put(hand);
        match polled {
            Poll::Ready(Ok(Some(message))) => Poll::Ready(Ok(message)),
            Poll::Ready(Ok(None)) => Poll::Ready(Err(RecvError::Closed)),
            Poll::Ready(Err(error)) => {
                Poll::Ready(Err(RecvError::WaitFailed(WaitError::Listen(error))))
            }
            Poll::Pending => Poll::Pending,
        }
    }
}

impl<'a, T: Drop, R: Wait + Clock + Clone> Debug for Recv<'a, T, R> {
    fn fmt<W: fmt::Write>(&self, f: &mut Formatter<W>) -> fmt::Result {
        f.write_str("Recv { .. }")
    }
}
