//! The future of a send.
ghost use Rattle.std.specs.Prelude.{◌≡◌, Some, IfErr};
ghost use Rattle.event_channel.specs.Errors.{IsUnsentByWaiting, IsUnsentInTime};
ghost use Rattle.event_channel.specs.Handle.{Carries};

use crate::call::RestingHand;
use crate::channel::{Channel, wait_error};
use crate::error::{SendError, SendReason, WaitError};
use crate::sending::Sending;
use event_wait::Limit;
use futures::Future;
use futures::task::{Context, Poll};
use std::alloc::Global;
use std::fmt;
use std::fmt::{Debug, Formatter};
use std::marker::Model;
use std::sync::Wait;
use std::time::{Clock, Duration, Instant};

/// A message that is sent once there is room: the future of [`send`](crate::Sender::send).
///
/// Each poll attempts to send. The future may be polled until it is ready. Dropped before, it drops its message.
///
/// Poll it or drop it once its task is woken. Left alone it stops nobody for good: if it [starves](crate::PATIENCE), others are
/// refused what is due to it [so often](crate::FORBEARANCE), and then it waits anew when it is polled.
///
/// A task awaits the send:
///
/// ```rust
/// block_on(rt, readings.send(reading))??;
/// Ok(())
/// ```
#[must_use = "nothing is sent before it is polled"]
pub struct Send<'a, T: Drop, R: Wait + Clock + Clone> {
    channel: &'a Channel<T>,
    rt: &'a R,
    alloc: Global,
    sending: Sending<T>,
    // The hand that makes all calls of the future.
    hand: RestingHand<T>,
}

impl<'a, T: Drop, R: Wait + Clock + Clone> Model for Send<'a, T, R> {
    ghost use Rattle.event_channel.specs.Handle.{Pending};
    ghost use Rattle.std.specs.Prelude.{All};
    ghost use Rattle.event_channel.specs.Hands.{IsOneHand};
    ghost use Rattle.event_channel.specs.Places.{WaitsAt, sender_at};

    ghost Value = { Pending T };

    ghost view = { λ send. record {
      message = send.sending.asked;
      channel = send.channel.now.lock;
    } };

    ghost invariant = { λ send. IsOneHand send.channel.now.lock.table send.hand.rest.slot
        send.hand.rest.views
        × All (λ v. WaitsAt (sender_at send.sending.key) v.mine) send.hand.rest.views };
}

impl<'a, T: Drop, R: Wait + Clock + Clone> Send<'a, T, R> {
    pub(crate) fn new(channel: &'a Channel<T>, rt: &'a R, alloc: Global, message: T) -> Self
        ensures carries { Carries message result }
        ensures channel { result.channel ≡ channel.now.lock }
    {
        Send {
            channel,
            rt,
            alloc,
            sending: Sending::new(message),
            hand: channel.lock.hand().rest(),
        }
    }

    /// Blocks the thread until the message is sent or can't be. A future that was polled before keeps its place in the queue.
    ///
    /// An error has the message again. Where it has to wait it takes memory, for a place in the queue and for what the thread
    /// parks on.
    pub fn wait(self) -> Result<(), SendError<T>>
        requires { (message : T) × Carries message self }
        ensures returned { IfErr result (λ error. Carries error.message self.entry) }
        ensures reason { IfErr result (λ error. IsUnsentByWaiting error.reason) }
    {
        self.end(Limit::Never)
    }

    /// Blocks the thread until the message is sent or can't be, at most for `timeout`. With a `timeout` of zero the call still
    /// attempts to send. An error has the message again.
    pub fn wait_timeout(self, timeout: Duration) -> Result<(), SendError<T>>
        requires { (message : T) × Carries message self }
        ensures returned { IfErr result (λ error. Carries error.message self.entry) }
        ensures reason { IfErr result (λ error. IsUnsentInTime error.reason) }
    {
        let limit = Limit::after(self.rt, timeout);
        self.end(limit)
    }

    /// Blocks the thread until the message is sent or can't be, at most until `deadline`. If `deadline` has passed the call
    /// still attempts to send. An error has the message again.
    pub fn wait_deadline(self, deadline: Instant) -> Result<(), SendError<T>>
        requires { (message : T) × Carries message self }
        ensures returned { IfErr result (λ error. Carries error.message self.entry) }
        ensures reason { IfErr result (λ error. IsUnsentInTime error.reason) }
    {
        self.end(Limit::At(deadline))
    }

    fn end(self, limit: Limit) -> Result<(), SendError<T>>
        requires { (message : T) × Carries message self }
        ensures returned { IfErr result (λ error. Carries error.message self.entry) }
        ensures reason { IfErr result (λ error. IsUnsentInTime error.reason) }
        ensures never { limit ≡ Limit.Never
            → IfErr result (λ error. IsUnsentByWaiting error.reason) }
    {
        let mut send = self;
        let mut hand = send.hand.take();
        let waited = send
            .channel
            .wait_to_send(send.rt, send.alloc, &mut hand, &mut send.sending, limit);
        send.hand.put(hand);
        match waited {
            Ok(Some(Ok(()))) => Ok(()),
            Ok(Some(Err(reason))) => Err(send.sending.refuse(reason)),
            Ok(None) => Err(send.sending.refuse(SendReason::TimedOut)),
            Err(error) => Err(
                send.sending
                    .refuse(SendReason::WaitFailed(wait_error(error))),
            ),
        }
    }
}

impl<'a, T: Drop, R: Wait + Clock + Clone> Drop for Send<'a, T, R> {
    fn drop(self) {
        let Send {
            channel,
            rt,
            alloc: _,
            sending,
            hand,
        } = self;
        let mut sending = sending;
        let mut hand = hand.into_hand();
        channel.stop_sending(rt, &mut hand, &mut sending);
        hand.end();
    }
}

impl<'a, T: Drop, R: Wait + Clock + Clone> Future for Send<'a, T, R> {
    type Output = Result<(), SendError<T>>;

    ghost use Rattle.std.specs.Prelude.{◌≡◌, IfErr};
    ghost use Rattle.event_channel.specs.Errors.{IsUnsentByWaiting};
    ghost use Rattle.event_channel.specs.Handle.{Carries};

    ghost can_poll = { λ send. (message : T) × Carries message send };

    ghost needs = { λ send s. s ≡ send.channel.source };

    ghost gives = { λ send output. IfErr output (λ error. Carries error.message send
        × IsUnsentByWaiting error.reason) };

    fn poll(&mut self, cx: &mut Context<'_>) -> Poll<Result<(), SendError<T>>> {
        let mut hand = self.hand.take();
        let polled = self
            .channel
            .lock
            .poll_in(self.rt, &mut hand, &mut self.sending, cx);
        self.hand.put(hand);
        match polled {
            Poll::Ready(Ok(Ok(()))) => Poll::Ready(Ok(())),
            Poll::Ready(Ok(Err(reason))) => Poll::Ready(Err(self.sending.refuse(reason))),
            Poll::Ready(Err(error)) => {
                let reason = SendReason::WaitFailed(WaitError::Listen(error));
                Poll::Ready(Err(self.sending.refuse(reason)))
            }
            Poll::Pending => Poll::Pending,
        }
    }
}

impl<'a, T: Drop, R: Wait + Clock + Clone> Debug for Send<'a, T, R> {
    fn fmt<W: fmt::Write>(&self, f: &mut Formatter<W>) -> fmt::Result {
        f.write_str("Send { .. }")
    }
}
