//! The side that receives.
ghost use Rattle.std.specs.Prelude.{◌≡◌, ◌<◌, ◌≤◌, None, Ok, Some, IfOk, IfSome, IsSome, OnErr};
ghost use Rattle.event_channel.specs.Calls.{channel_machine};
ghost use Rattle.event_channel.specs.Hands.{ReceivesBlocking, ReceivesWaiting};
ghost use Rattle.event_channel.specs.Many.{Appends, Collects};
ghost use Rattle.event_channel.specs.Waits.{Gets};
ghost use Rattle.event_channel.specs.declared.call.ChannelCall.TheVariants as call;
ghost use Rattle.event_history.specs.Hands.{IsOf, SameTable, known_by};
ghost use Rattle.event_history.specs.History.{Extends, Looks, both_views, newcomer};

use crate::call::{ChannelHand, RestingHand};
use crate::channel::{Link, wait_error};
use crate::error::{RecvError, RecvTimeoutError, TryRecvError, WaitError};
use crate::receiving::{Receiving, ReceivingMany};
use crate::recv::{Recv, received, received_in_time};
use event_queue::ListenError;
use event_wait::{Limit, Refused};
use futures::Stream;
use futures::task::{Context, Poll};
use std::alloc::AllocError;
use std::fmt::{Debug, Formatter};
use std::marker::Model;
use std::sync::Wait;
use std::time::{Clock, Duration, Instant};
use std::{fmt, mem};

/// The receiving side of a channel. Clones receive from the same channel; when the last of them is dropped, the channel is
/// closed, and the messages in it are dropped.
///
/// Each message is received once, and messages are received in the order in which they were sent. Each call may block for the
/// lock of the channel, as the calls of a [`Sender`](crate::Sender) may. A receiver is also a stream of the messages, which
/// ends when the channel is closed and empty. A contract sees the lock of the channel and its capacity.
///
/// [`recv_blocking`](Receiver::recv_blocking) and [`iter`](Receiver::iter) show how a worker receives. Each worker gets a
/// receiver of its own:
///
/// ```rust
/// let numbers = receiver.clone()?;
/// workers.push(thread::spawn(&rt, move || add_squares(rt, numbers))?)?;
/// ```
pub struct Receiver<T: Drop, R: Wait + Clock + Clone> {
    link: Link<T, R>,
    // The place in which the receiver waits as a stream, and the hand that makes the calls of the stream.
    stream: Receiving,
    hand: RestingHand<T>,
}

impl<T: Drop, R: Wait + Clock + Clone> Model for Receiver<T, R> {
    ghost use Rattle.event_channel.specs.Handle.{Handle};
    ghost use Rattle.std.specs.Prelude.{All};
    ghost use Rattle.event_channel.specs.Hands.{IsOneHand};
    ghost use Rattle.event_channel.specs.Places.{WaitsAt, receiver_at};

    ghost Value = { Handle };

    ghost view = { λ receiver. receiver.link };

    ghost invariant = { λ receiver. IsOneHand receiver.link.channel.table
        receiver.hand.rest.slot receiver.hand.rest.views
        × All (λ v. WaitsAt (receiver_at receiver.stream.asked receiver.stream.key) v.mine)
        receiver.hand.rest.views };
}

impl<T: Drop, R: Wait + Clock + Clone> Receiver<T, R> {
    pub(crate) fn new(link: Link<T, R>) -> Self
        ensures { result ≡ link }
    {
        let hand = link.channel.lock.hand().rest();
        Receiver {
            link,
            stream: Receiving::stream(),
            hand,
        }
    }

    pub(crate) fn runtime(&self) -> &R {
        &self.link.rt
    }

    /// Makes a hand of this channel: the right to make calls that a contract can follow in the history of the channel's calls.
    ///
    /// The hand has made no call yet, and has seen a beginning of the history; how much of it, no clause says. It has no bytes,
    /// and making it is one load, which never blocks. A hand can't be dropped: end it by its [`end`](crate::ChannelHand::end).
    #[inline(always)]
    pub fn hand(&self) -> ChannelHand<T>
        ensures { IsOf self.now.channel.table result
            × (known_by result ≡ newcomer (known_by result).seen) }
    {
        self.link.channel.hand()
    }

    /// Makes a new hand that has seen as much of the history of this channel as `hand` has. It is one load, which never blocks.
    pub fn fork(&self, hand: &mut ChannelHand<T>) -> ChannelHand<T>
        requires { IsOf self.now.channel.table hand.old }
        ensures hand { SameTable hand.old hand.new
            × (known_by hand.new ≡ known_by hand.old) }
        ensures told { SameTable hand.old result
            × (known_by result ≡ newcomer (known_by hand.old).seen) }
    {
        self.link.channel.fork(hand)
    }

    /// Ends the hand `other`, and has `hand` learn what `other` saw and did. From here on a contract speaks of one history that
    /// has the calls of both. It is two loads, which never block.
    ///
    /// Here `other` is the hand with which another thread has sent. What `hand` receives then stands in the history after that
    /// send:
    ///
    /// ```rust
    /// receiver.join(hand, other);
    /// let received = receiver.try_recv_as(hand);
    /// ```
    pub fn join(&self, hand: &mut ChannelHand<T>, other: ChannelHand<T>)
        requires here { IsOf self.now.channel.table hand.old }
        requires there { IsOf self.now.channel.table other }
        ensures hand { SameTable hand.old hand.new }
        ensures looks { Looks (channel_machine self.now.capacity)
            (both_views (known_by hand.old) (known_by other)) (known_by hand.new) }
    {
        self.link.channel.join(hand, other);
    }

    /// Receives the first message, if one waits. Never waits for one, and takes no memory.
    ///
    /// While a receive [starves](crate::PATIENCE), a message that is due to a notified receive is not there for this call: it
    /// answers `Empty` then although messages wait, at most [so often](crate::FORBEARANCE) for the sake of each such receive.
    ///
    /// Each round of a loop receives a message, and the function returns once there is none, with the sum, and with whether
    /// more may come:
    ///
    /// ```rust
    /// match readings.try_recv() {
    ///     Ok(reading) => sum = sum.saturating_add(reading),
    ///     Err(TryRecvError::Empty) => return (sum, true),
    ///     Err(TryRecvError::Closed) => return (sum, false),
    /// }
    /// ```
    #[inline(always)]
    pub fn try_recv(&self) -> Result<T, TryRecvError> {
        let mut hand = self.hand();
        let received = self.try_recv_as(&mut hand);
        hand.end();
        received
    }

    /// Receives the first message, like [`try_recv`](Receiver::try_recv), as a call of this hand.
    ///
    /// The call is the last of one history, which begins with all that the hand had seen, and which has of this hand just its
    /// own calls.
    ///
    /// Here `other` is the hand with which another thread has sent, and a law says what `received` may be:
    ///
    /// ```rust
    /// receiver.join(hand, other);
    /// let received = receiver.try_recv_as(hand);
    /// no_message_is_lost::<u64, Task>();
    /// ```
    #[inline(always)]
    pub fn try_recv_as(&self, hand: &mut ChannelHand<T>) -> Result<T, TryRecvError>
        requires { IsOf self.now.channel.table hand.old }
        ensures hand { SameTable hand.old hand.new }
        ensures call { Extends (channel_machine self.now.capacity) (known_by hand.old)
            (call.Receive result) (known_by hand.new) }
    {
        self.link.channel.try_receive(&self.link.rt, hand)
    }

    /// Receives a message once there is one, as a future: await it, or block on it by [`wait`](crate::Recv::wait). Nothing is
    /// received before it is polled, and no message is lost if it is dropped.
    ///
    /// A thread waits for the messages of two channels at once. The first `?` propagates an error of the executor, the second
    /// an error of the receive:
    ///
    /// ```rust
    /// let received = block_on(rt, select(urgent.recv(), others.recv()))?;
    /// let (number, _) = received.factor_first();
    /// Ok(number?)
    /// ```
    pub fn recv(&self) -> Recv<'_, T, R>
        ensures { result ≡ self.now.channel }
    {
        Recv::new(&self.link.channel, &self.link.rt, self.link.alloc)
    }

    /// Receives a message once there is one, and blocks the thread until then.
    ///
    /// An error says that the channel is closed and empty, or that the call could not wait. Where it has to wait it takes
    /// memory, for a place in the queue and for what the thread parks on.
    ///
    /// A worker receives in a loop, and ends without an error once the channel is closed and empty:
    ///
    /// ```rust
    /// match numbers.recv_blocking() {
    ///     Ok(number) => sum = sum.saturating_add(number.saturating_mul(number)),
    ///     Err(RecvError::Closed) => return Ok(sum),
    ///     Err(error) => return Err(error),
    /// }
    /// ```
    #[inline(always)]
    pub fn recv_blocking(&self) -> Result<T, RecvError> {
        let mut hand = self.hand();
        let received = self.recv_blocking_as(&mut hand);
        hand.end();
        received
    }

    /// Receives a message, like [`recv_blocking`](Receiver::recv_blocking), as calls of this hand: attempts that found the
    /// channel empty, and then an attempt that received the message or the end.
    ///
    /// The last of these calls is the last of one history, which begins with all that the hand had seen, and which has of this
    /// hand just its own calls.
    #[inline(always)]
    pub fn recv_blocking_as(&self, hand: &mut ChannelHand<T>) -> Result<T, RecvError>
        requires { IsOf self.now.channel.table hand.old }
        ensures hand { SameTable hand.old hand.new }
        ensures calls { ReceivesBlocking self.now.capacity (known_by hand.old) result
            (known_by hand.new) }
    {
        received(self.wait(hand, Limit::Never))
    }

    /// Receives a message once there is one, and blocks the thread until then, at most for `timeout`. With a `timeout` of zero
    /// the call still attempts to receive.
    ///
    /// Where it has to wait it takes memory, for a place in the queue and for what the thread parks on.
    ///
    /// Here a limit that has passed is no error for the caller, but a closed channel is:
    ///
    /// ```rust
    /// match readings.recv_timeout(limit) {
    ///     Ok(reading) => Ok(Some(reading)),
    ///     Err(RecvTimeoutError::TimedOut) => Ok(None),
    ///     Err(error) => Err(error),
    /// }
    /// ```
    pub fn recv_timeout(&self, timeout: Duration) -> Result<T, RecvTimeoutError> {
        let mut hand = self.hand();
        let waited = self.wait(&mut hand, Limit::after(&self.link.rt, timeout));
        hand.end();
        received_in_time(waited)
    }

    /// Receives a message once there is one, and blocks the thread until then, at most until `deadline`. If `deadline` has
    /// passed the call still attempts to receive.
    ///
    /// Where it has to wait it takes memory, for a place in the queue and for what the thread parks on.
    pub fn recv_deadline(&self, deadline: Instant) -> Result<T, RecvTimeoutError> {
        let mut hand = self.hand();
        let waited = self.wait(&mut hand, Limit::At(deadline));
        hand.end();
        received_in_time(waited)
    }

    /// Receives messages once there is one, at most `limit` of them, and puts them behind what `into` has. Returns how many
    /// messages these were, which is zero only if `limit` is 0.
    ///
    /// The call blocks the thread until there is a message. It takes all its messages in one step, so no other receive gets one
    /// from between them. While a receive [starves](crate::PATIENCE), the call takes no message that is due to another receive.
    /// Where the call has to wait it takes memory, for a place in the queue and for what the thread parks on. Before that it
    /// takes room in `into`: for one message, where a refusal is an error, and for as many as are in the channel at the moment,
    /// where a refusal is no error. It takes no more messages than `into` has room for, so reserve room for `limit` messages to
    /// have as many as there are.
    ///
    /// Each round of a loop receives one batch, and ends the loop once the channel is closed and empty. The vector is used
    /// again for the next batch:
    ///
    /// ```rust
    /// match readings.recv_many(&mut batch, BATCH) {
    ///     Ok(_) => batches = batches.saturating_add(1),
    ///     Err(RecvError::Closed) => return Ok((batches, sum)),
    ///     Err(error) => return Err(error),
    /// }
    /// for reading in &batch {
    ///     sum = sum.saturating_add(*reading);
    /// }
    /// batch.clear();
    /// ```
    pub fn recv_many(&self, into: &mut Vec<T>, limit: usize) -> Result<usize, RecvError>
        ensures most { IfOk result (λ count. count ≤ limit) }
        ensures one { IfOk result (λ count. 0 < limit → 0 < count) }
        ensures none { limit ≡ 0 → result ≡ Ok 0 }
        ensures appended { IfOk result (λ count. Appends count into.old.items into.new.items) }
        ensures kept { OnErr result (into.new.items ≡ into.old.items) }
    {
        if limit == 0 {
            return Ok(0);
        }
        if into.reserve(1).is_err() {
            return Err(RecvError::WaitFailed(WaitError::Memory(AllocError)));
        }
        if into.capacity() - into.len() < limit {
            let _ = into.reserve(limit.min(self.len()));
        }
        let before = mem::replace(into, Vec::new(self.link.alloc));
        let mut many = ReceivingMany::new(before, limit - 1);
        let collected = self.collect(&mut many);
        *into = many.into_messages();
        match collected {
            Ok(Some(Some(count))) => Ok(count),
            Ok(Some(None)) => Err(RecvError::Closed),
            Ok(None) => unreachable!(),
            Err(error) => Err(RecvError::WaitFailed(wait_error(error))),
        }
    }

    fn collect(
        &self,
        many: &mut ReceivingMany<T>,
    ) -> Result<Option<Option<usize>>, Refused<ListenError>>
        requires { many.old.key ≡ None }
        ensures never { IfOk result IsSome }
        ensures gets { Gets Collects many.old.asked result many.new.asked }
    {
        let mut hand = self.link.channel.lock.hand();
        let collected = self.link.channel.lock.obtain(
            &self.link.rt,
            self.link.alloc,
            &mut hand,
            many,
            Limit::Never,
        );
        hand.end();
        collected
    }

    #[inline(always)]
    fn wait(
        &self,
        hand: &mut ChannelHand<T>,
        limit: Limit,
    ) -> Result<Option<Option<T>>, Refused<ListenError>>
        requires { IsOf self.now.channel.table hand.old }
        ensures hand { SameTable hand.old hand.new }
        ensures never { limit ≡ Limit.Never → IfOk result IsSome }
        ensures calls { limit ≡ Limit.Never
            → ReceivesWaiting self.now.capacity (known_by hand.old) result (known_by hand.new) }
    {
        let mut receiving = Receiving::one();
        let link = &self.link;
        link.channel.wait_to_receive(&link.rt, link.alloc, &mut hand.hand, &mut receiving, limit)
    }

    /// Closes the channel, and wakes all that wait. Returns `false` if the channel was closed already.
    ///
    /// From here on no message is sent; messages in the channel can still be received. All waiters but the last are woken under
    /// the lock of the channel.
    pub fn close(&self) -> bool {
        let mut hand = self.hand();
        let closed = self.close_as(&mut hand);
        hand.end();
        closed
    }

    /// Closes the channel, like [`close`](Receiver::close), as a call of this hand in the history.
    pub fn close_as(&self, hand: &mut ChannelHand<T>) -> bool
        requires { IsOf self.now.channel.table hand.old }
        ensures hand { SameTable hand.old hand.new }
        ensures call { Extends (channel_machine self.now.capacity) (known_by hand.old)
            (call.Close result) (known_by hand.new) }
    {
        self.link.channel.close(&self.link.rt, hand)
    }

    /// Returns whether the channel is closed. A closed one stays closed.
    pub fn is_closed(&self) -> bool {
        self.link.channel.is_closed(&self.link.rt)
    }

    /// Returns how many messages are in the channel at some moment of this call. Another thread may change that at once.
    pub fn len(&self) -> usize {
        self.link.channel.len(&self.link.rt)
    }

    /// Returns whether no message is in the channel at some moment of this call.
    pub fn is_empty(&self) -> bool {
        self.len() == 0
    }

    /// Returns whether as many messages are in the channel as there may be, at some moment of this call.
    pub fn is_full(&self) -> bool {
        self.link.channel.is_full(&self.link.rt)
    }

    /// Returns how many messages may be in the channel at once. `None` says that it has no limit.
    pub fn capacity(&self) -> Option<usize>
        ensures { result ≡ self.now.capacity }
    {
        self.link.channel.capacity
    }

    /// Returns how many senders of the channel there are at some moment of this call.
    pub fn sender_count(&self) -> usize {
        self.link.channel.senders.count()
    }

    /// Returns how many receivers of the channel there are at some moment of this call.
    pub fn receiver_count(&self) -> usize {
        self.link.channel.receivers.count()
    }

    /// Makes a handle that does not keep the channel open, of which [`upgrade`](WeakReceiver::upgrade) makes a receiver again.
    /// Fails if the runtime value can't be cloned.
    pub fn downgrade(&self) -> Result<WeakReceiver<T, R>, AllocError>
        ensures { IfOk result (λ weak. weak ≡ self.now) }
    {
        let link = self.link.try_clone()?;
        Ok(WeakReceiver { link })
    }
}

/// Makes another receiver of the same channel. Fails if the runtime value can't be cloned or there are too many receivers.
impl<T: Drop, R: Wait + Clock + Clone> Clone for Receiver<T, R> {
    ghost is_clone = { λ receiver same. same ≡ receiver };

    fn clone(&self) -> Result<Self, AllocError> {
        let link = self.link.try_clone()?;
        link.channel.receivers.add()?;
        Ok(Receiver::new(link))
    }
}

/// Closes the channel, if this receiver is the last one, and drops the messages in it, since nobody can receive them any more.
impl<T: Drop, R: Wait + Clock + Clone> Drop for Receiver<T, R> {
    fn drop(self) {
        let Receiver { link, stream, hand } = self;
        let mut stream = stream;
        let mut hand = hand.into_hand();
        link.channel
            .stop_receiving(&link.rt, &mut hand, &mut stream);
        let mut hand = ChannelHand::of(hand);
        if link.channel.receivers.remove() {
            link.channel.close(&link.rt, &mut hand);
            link.channel.drop_messages(&link.rt, &mut hand);
        }
        hand.end();
    }
}

/// Gives the messages one by one. An item is an error if waiting for a message was refused; the stream may be polled again
/// then.
///
/// Each message wakes every stream that waits, beside one receive, so a stream that is polled once and left alone keeps no
/// message from others.
///
/// A task awaits the next message. The first `?` propagates an error of the executor, and the second a `WaitError`:
///
/// ```rust
/// let reading = block_on(rt, readings.next())?;
/// Ok(reading.transpose()?)
/// ```
impl<T: Drop, R: Wait + Clock + Clone> Stream for Receiver<T, R> {
    type Item = Result<T, WaitError>;

    ghost use Rattle.std.specs.Prelude.{◌≡◌};

    ghost needs = { λ receiver s. s ≡ receiver.channel.source };

    fn poll_next(&mut self, cx: &mut Context<'_>) -> Poll<Option<Result<T, WaitError>>> {
        let mut hand = self.hand.take();
        let polled = self
            .link
            .channel
            .lock
            .poll_in(&self.link.rt, &mut hand, &mut self.stream, cx);
        self.hand.put(hand);
        match polled {
            Poll::Ready(Ok(Some(message))) => Poll::Ready(Some(Ok(message))),
            Poll::Ready(Ok(None)) => Poll::Ready(None),
            Poll::Ready(Err(error)) => Poll::Ready(Some(Err(WaitError::Listen(error)))),
            Poll::Pending => Poll::Pending,
        }
    }
}

impl<T: Drop, R: Wait + Clock + Clone> Debug for Receiver<T, R> {
    fn fmt<W: fmt::Write>(&self, f: &mut Formatter<W>) -> fmt::Result {
        f.write_str("Receiver { .. }")
    }
}

/// A handle of a channel that does not keep the channel open for receivers. [`upgrade`](WeakReceiver::upgrade) makes a receiver
/// of it, while there is another receiver.
#[derive(Drop)]
pub struct WeakReceiver<T: Drop, R: Wait + Clock + Clone> {
    link: Link<T, R>,
}

impl<T: Drop, R: Wait + Clock + Clone> Model for WeakReceiver<T, R> {
    ghost use Rattle.event_channel.specs.Handle.{Handle};

    ghost Value = { Handle };

    ghost view = { λ weak. weak.link };
}

impl<T: Drop, R: Wait + Clock + Clone> WeakReceiver<T, R> {
    /// Makes a receiver again, if the channel is open and has a receiver still. Returns `None` else. Fails if the runtime value
    /// can't be cloned.
    ///
    /// The call may block for the lock of the channel.
    pub fn upgrade(&self) -> Result<Option<Receiver<T, R>>, AllocError>
        ensures { IfOk result (λ receiver. IfSome receiver (λ receiver. receiver ≡ self.now)) }
    {
        let link = self.link.try_clone()?;
        if link.channel.is_closed(&link.rt) || !link.channel.receivers.revive() {
            return Ok(None);
        }
        Ok(Some(Receiver::new(link)))
    }
}
