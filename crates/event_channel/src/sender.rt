//! The side that sends.
ghost use Rattle.std.specs.Prelude.{◌≡◌, ◌≢◌, ◌↔◌, Some, None, Err, IfOk, IfErr, IfSome};
ghost use Rattle.event_channel.specs.Calls.{answer_of, channel_machine};
ghost use Rattle.event_channel.specs.Errors.{IsUnsent, IsUnsentAtOnce, IsUnsentByWaiting, IsUnsentInTime};
ghost use Rattle.event_channel.specs.Handle.{Carries};
ghost use Rattle.event_channel.specs.Hands.{SendsBlocking};
ghost use Rattle.event_channel.specs.declared.call.ChannelCall.TheVariants as call;
ghost use Rattle.event_channel.specs.declared.channel.ChannelError.TheVariants.{ZeroCapacity};
ghost use Rattle.event_history.specs.Hands.{IsOf, SameTable, known_by};
ghost use Rattle.event_history.specs.History.{Extends, Looks, both_views, newcomer};
ghost use Rattle.event_wait.specs.declared.lock.limit.Limit.TheVariants.{Never};

use crate::call::ChannelHand;
use crate::channel::{Channel, ChannelError, Link, wait_error};
use crate::error::{SendError, SendReason};
use crate::receiver::Receiver;
use crate::send::Send;
use crate::sending::Sending;
use crate::steps::Push;
use event_history::perform;
use event_wait::{DeferredWake, Limit};
use std::alloc::{AllocError, Global};
use std::fmt;
use std::fmt::{Debug, Formatter};
use std::marker::Model;
use std::sync::{Arc, Wait};
use std::time::{Clock, Duration, Instant};

/// The sending side of a channel. Clones send into the same channel; when the last of them is dropped, the channel is closed.
///
/// A message that is sent waits behind those that were sent before. Each call may block for the lock of the channel. That lock
/// is held for a few instructions, and longer where a channel without a limit doubles its room (27 ms at two million messages),
/// where many messages are received at once, or where a close wakes all that wait. A contract sees the lock of the channel and
/// its capacity.
///
/// ```rust
/// let (numbers, receiver) = bounded(&rt, alloc, 8)?;
/// let workers = start_workers(rt, alloc, receiver)?;
/// for number in 1..=10 {
///     numbers.send_blocking(number)?;
/// }
/// numbers.close();
/// ```
pub struct Sender<T: Drop, R: Wait + Clock + Clone> {
    link: Link<T, R>,
}

impl<T: Drop, R: Wait + Clock + Clone> Model for Sender<T, R> {
    ghost use Rattle.event_channel.specs.Handle.{Handle};

    ghost Value = { Handle };

    ghost view = { λ sender. sender.link };
}

/// Makes a channel in which at most `capacity` messages wait. Returns its two sides.
///
/// The call takes room for `capacity` messages, so no later call takes memory for a message. An error says that `capacity` is 0
/// or that there is no memory. Both sides keep clones of `rt`. The history of which a hand knows begins where the channel is
/// open, without messages and of this capacity, which [`capacity_is_kept`](crate::capacity_is_kept) keeps.
///
/// A channel with room for one message carries the answer to a job: the job gets the sender, and the caller the receiver:
///
/// ```rust
/// let (answer, receiver) = bounded(&rt, alloc, 1)?;
/// self.jobs.send_blocking(Job { number, answer })?;
/// Ok(Answer { receiver })
/// ```
pub fn bounded<T: Drop, R: Wait + Clock + Clone>(
    rt: &R,
    alloc: Global,
    capacity: usize,
) -> Result<(Sender<T, R>, Receiver<T, R>), ChannelError>
    ensures one { IfOk result (λ sides. sides.1 ≡ sides.0) }
    ensures capacity { IfOk result (λ sides. sides.0.capacity ≡ Some capacity) }
    ensures zero { (result ≡ Err ZeroCapacity) ↔ (capacity ≡ 0) }
{
    if capacity == 0 {
        return Err(ChannelError::ZeroCapacity);
    }
    match sides(rt, alloc, Some(capacity)) {
        Ok(sides) => Ok(sides),
        Err(error) => Err(ChannelError::Memory(error)),
    }
}

/// Makes a channel in which any number of messages may wait. Returns its two sides.
///
/// An error says that there is no memory. Both sides keep clones of `rt`. The history of which a hand knows begins where the
/// channel is open, without messages and without a limit.
///
/// Workers take jobs from one channel, each by a clone of the receiver:
///
/// ```rust
/// let (jobs, receiver) = unbounded(&rt, alloc)?;
/// let mut workers = Vec::with_capacity(alloc, size)?;
/// for _ in 0..size {
///     let jobs = receiver.clone()?;
///     workers.push(thread::spawn(&rt, move || work(jobs))?)?;
/// }
/// ```
pub fn unbounded<T: Drop, R: Wait + Clock + Clone>(
    rt: &R,
    alloc: Global,
) -> Result<(Sender<T, R>, Receiver<T, R>), ChannelError>
    ensures one { IfOk result (λ sides. sides.1 ≡ sides.0) }
    ensures capacity { IfOk result (λ sides. sides.0.capacity ≡ None) }
    ensures nonzero { result ≢ Err ZeroCapacity }
{
    match sides(rt, alloc, None) {
        Ok(sides) => Ok(sides),
        Err(error) => Err(ChannelError::Memory(error)),
    }
}

// Makes a channel, and the first handle of each side.
fn sides<T: Drop, R: Wait + Clock + Clone>(
    rt: &R,
    alloc: Global,
    capacity: Option<usize>,
) -> Result<(Sender<T, R>, Receiver<T, R>), AllocError>
    ensures one { IfOk result (λ sides. sides.1 ≡ sides.0) }
    ensures capacity { IfOk result (λ sides. sides.0.capacity ≡ capacity) }
{
    let channel = Channel::new(alloc, capacity)?;
    let link = Link {
        channel: Arc::new(alloc, channel)?,
        rt: rt.clone()?,
        alloc,
    };
    let other = link.try_clone()?;
    Ok((Sender::new(link), Receiver::new(other)))
}

impl<T: Drop, R: Wait + Clock + Clone> Sender<T, R> {
    fn new(link: Link<T, R>) -> Self
        ensures { result ≡ link }
    {
        Sender { link }
    }

    /// Makes a hand of this channel: the right to make calls that a contract can follow in the history of the channel's calls.
    ///
    /// The hand has made no call yet, and has seen a beginning of the history; how much of it, no clause says. It has no bytes,
    /// and making it is one load, which never blocks. A hand can't be dropped: end it by its [`end`](crate::ChannelHand::end).
    ///
    /// The hand is lent to a function whose contract speaks of the history, and ended after that:
    ///
    /// ```rust
    /// let mut hand = sender.hand();
    /// let exchanged = send_then_receive(rt, &sender, &receiver, &mut hand, 7);
    /// hand.end();
    /// ```
    #[inline(always)]
    pub fn hand(&self) -> ChannelHand<T>
        ensures { IsOf self.now.channel.table result
            × (known_by result ≡ newcomer (known_by result).seen) }
    {
        self.link.channel.hand()
    }

    /// Makes a new hand that has seen as much of the history of this channel as `hand` has. It is one load, which never blocks.
    ///
    /// A hand is forked for another thread, and joined once that thread has made its calls:
    ///
    /// ```rust
    /// let mut other = sender.fork(hand);
    ///
    /// receiver.join(hand, other);
    /// ```
    pub fn fork(&self, hand: &mut ChannelHand<T>) -> ChannelHand<T>
        requires { IsOf self.now.channel.table hand.old }
        ensures hand { SameTable hand.old hand.new
            × (known_by hand.new ≡ known_by hand.old) }
        ensures told { SameTable hand.old result
            × (known_by result ≡ newcomer (known_by hand.old).seen) }
    {
        self.link.channel.fork(hand)
    }

    /// Ends the hand `other`, and has `hand` learn what `other` saw and did. From here on a contract speaks of one history that
    /// has the calls of both. It is two loads, which never block.
    pub fn join(&self, hand: &mut ChannelHand<T>, other: ChannelHand<T>)
        requires here { IsOf self.now.channel.table hand.old }
        requires there { IsOf self.now.channel.table other }
        ensures hand { SameTable hand.old hand.new }
        ensures looks { Looks (channel_machine self.now.capacity)
            (both_views (known_by hand.old) (known_by other)) (known_by hand.new) }
    {
        self.link.channel.join(hand, other);
    }

    /// Sends a message, if the channel is open and has a free place. Never waits for one.
    ///
    /// An error has the message again. While a send [starves](crate::PATIENCE), a place that is due to a notified send is not
    /// free for this call: it answers `Full` then, at most [so often](crate::FORBEARANCE) for the sake of each such send. The
    /// call takes memory only where the channel has no limit and no room left.
    ///
    /// Here `answer` is the only sender of a channel with room for one message, into which nothing was sent yet:
    ///
    /// ```rust
    /// if let Some(square) = number.checked_mul(number) {
    ///     // There is room. Perhaps nobody waits for the answer any more.
    ///     let _ = answer.try_send(square);
    /// }
    /// ```
    #[inline(always)]
    pub fn try_send(&self, message: T) -> Result<(), SendError<T>>
        ensures returned { IfErr result (λ error. error.message ≡ message) }
        ensures reason { IfErr result (λ error. IsUnsentAtOnce error.reason) }
    {
        let mut hand = self.hand();
        let sent = self.try_send_as(&mut hand, message);
        hand.end();
        sent
    }

    /// Sends a message, like [`try_send`](Sender::try_send), as a call of this hand.
    ///
    /// The call is the last of one history, which begins with all that the hand had seen, and which has of this hand just its
    /// own calls.
    ///
    /// Another thread sends as a call of a hand of its own. The line in the middle is the body of the closure that this thread
    /// runs:
    ///
    /// ```rust
    /// let mut other = sender.fork(hand);
    ///
    /// { sender.try_send_as(&mut other, number) },
    ///
    /// receiver.join(hand, other);
    /// ```
    #[inline(always)]
    pub fn try_send_as(&self, hand: &mut ChannelHand<T>, message: T) -> Result<(), SendError<T>>
        requires { IsOf self.now.channel.table hand.old }
        ensures hand { SameTable hand.old hand.new }
        ensures call { Extends (channel_machine self.now.capacity) (known_by hand.old)
            (call.Send message (answer_of result)) (known_by hand.new) }
        ensures returned { IfErr result (λ error. error.message ≡ message) }
        ensures reason { IfErr result (λ error. IsUnsentAtOnce error.reason) }
    {
        let (lock, rt) = (&self.link.channel.lock, &self.link.rt);
        let mut waking = DeferredWake::new();
        let sent = perform!(lock, rt, hand.hand, Push { message }, &mut waking);
        waking.finish_seldom();
        sent
    }

    /// Sends a message on any free place, due to others or not, if the channel is open. If the channel is full, its first
    /// message is taken out and returned.
    ///
    /// An error has the message again. The call takes memory only where the channel has no limit and no room left.
    ///
    /// The loop counts the messages that went out for new ones:
    ///
    /// ```rust
    /// for reading in 1..=last {
    ///     if readings.force_send(reading)?.is_some() {
    ///         lost = lost.saturating_add(1);
    ///     }
    /// }
    /// Ok(lost)
    /// ```
    pub fn force_send(&self, message: T) -> Result<Option<T>, SendError<T>>
        ensures returned { IfErr result (λ error. error.message ≡ message) }
        ensures reason { IfErr result (λ error. IsUnsent error.reason) }
    {
        let mut hand = self.hand();
        let sent = self.force_send_as(&mut hand, message);
        hand.end();
        sent
    }

    /// Sends a message, like [`force_send`](Sender::force_send), as a call of this hand, in the history as
    /// [`try_send_as`](Sender::try_send_as) says.
    pub fn force_send_as(
        &self,
        hand: &mut ChannelHand<T>,
        message: T,
    ) -> Result<Option<T>, SendError<T>>
        requires { IsOf self.now.channel.table hand.old }
        ensures hand { SameTable hand.old hand.new }
        ensures call { Extends (channel_machine self.now.capacity) (known_by hand.old)
            (call.ForceSend message (answer_of result)) (known_by hand.new) }
        ensures returned { IfErr result (λ error. error.message ≡ message) }
        ensures reason { IfErr result (λ error. IsUnsent error.reason) }
    {
        self.link.channel.force_send(&self.link.rt, hand, message)
    }

    /// Sends a message once there is room, as a future: await it, or block on it by [`wait`](crate::Send::wait). Nothing is
    /// sent before it is polled.
    ///
    /// An error has the message again. If the future is dropped before it is ready, the message is dropped and not sent.
    ///
    /// A task sends. The first `?` propagates an error of the executor, and the second a `SendError`, which has the message:
    ///
    /// ```rust
    /// block_on(rt, readings.send(reading))??;
    /// Ok(())
    /// ```
    pub fn send(&self, message: T) -> Send<'_, T, R>
        ensures carries { Carries message result }
        ensures channel { result.channel ≡ self.now.channel }
    {
        Send::new(&self.link.channel, &self.link.rt, self.link.alloc, message)
    }

    /// Sends a message once there is room, and blocks the thread until then.
    ///
    /// An error has the message again: the channel is closed, or the call could not wait. Where it has to wait it takes memory,
    /// for a place in the queue and for what the thread parks on.
    ///
    /// Here the `?` propagates a `SendError`, which has the number that was not sent:
    ///
    /// ```rust
    /// for number in 1..=NUMBERS {
    ///     numbers.send_blocking(number)?;
    /// }
    /// Ok(())
    /// ```
    #[inline(always)]
    pub fn send_blocking(&self, message: T) -> Result<(), SendError<T>>
        ensures returned { IfErr result (λ error. error.message ≡ message) }
        ensures reason { IfErr result (λ error. IsUnsentByWaiting error.reason) }
    {
        let mut hand = self.hand();
        let sent = self.send_blocking_as(&mut hand, message);
        hand.end();
        sent
    }

    /// Sends a message, like [`send_blocking`](Sender::send_blocking), as calls of this hand: attempts that found the channel
    /// full, and then an attempt that sent the message or was refused.
    ///
    /// The last of these calls is the last of one history, which begins with all that the hand had seen, and which has of this
    /// hand just its own calls.
    #[inline(always)]
    pub fn send_blocking_as(
        &self,
        hand: &mut ChannelHand<T>,
        message: T,
    ) -> Result<(), SendError<T>>
        requires { IsOf self.now.channel.table hand.old }
        ensures hand { SameTable hand.old hand.new }
        ensures calls { SendsBlocking self.now.capacity message (known_by hand.old) result
            (known_by hand.new) }
        ensures returned { IfErr result (λ error. error.message ≡ message) }
        ensures reason { IfErr result (λ error. IsUnsentByWaiting error.reason) }
    {
        self.send_until(hand, message, Limit::Never)
    }

    /// Sends a message once there is room, and blocks the thread until then, at most for `timeout`. With a `timeout` of zero
    /// the call still attempts to send.
    ///
    /// An error has the message again. Where it has to wait it takes memory, for a place in the queue and for what the thread
    /// parks on.
    pub fn send_timeout(&self, message: T, timeout: Duration) -> Result<(), SendError<T>>
        ensures returned { IfErr result (λ error. error.message ≡ message) }
        ensures reason { IfErr result (λ error. IsUnsentInTime error.reason) }
    {
        let mut hand = self.hand();
        let sent = self.send_until(&mut hand, message, Limit::after(&self.link.rt, timeout));
        hand.end();
        sent
    }

    /// Sends a message once there is room, and blocks the thread until then, at most until `deadline`. If `deadline` has passed
    /// the call still attempts to send.
    ///
    /// An error has the message again. Where it has to wait it takes memory, for a place in the queue and for what the thread
    /// parks on.
    pub fn send_deadline(&self, message: T, deadline: Instant) -> Result<(), SendError<T>>
        ensures returned { IfErr result (λ error. error.message ≡ message) }
        ensures reason { IfErr result (λ error. IsUnsentInTime error.reason) }
    {
        let mut hand = self.hand();
        let sent = self.send_until(&mut hand, message, Limit::At(deadline));
        hand.end();
        sent
    }

    #[inline(always)]
    fn send_until(
        &self,
        hand: &mut ChannelHand<T>,
        message: T,
        limit: Limit,
    ) -> Result<(), SendError<T>>
        requires { IsOf self.now.channel.table hand.old }
        ensures hand { SameTable hand.old hand.new }
        ensures calls { limit ≡ Never
            → SendsBlocking self.now.capacity message (known_by hand.old) result (known_by hand.new) }
        ensures returned { IfErr result (λ error. error.message ≡ message) }
        ensures reason { IfErr result (λ error. IsUnsentInTime error.reason) }
        ensures never { limit ≡ Never → IfErr result (λ error. IsUnsentByWaiting error.reason) }
    {
        let mut sending = Sending::new(message);
        let link = &self.link;
        match link
            .channel
            .wait_to_send(&link.rt, link.alloc, &mut hand.hand, &mut sending, limit)
        {
            Ok(Some(Ok(()))) => Ok(()),
            Ok(Some(Err(reason))) => Err(sending.refuse(reason)),
            Ok(None) => Err(sending.refuse(SendReason::TimedOut)),
            Err(error) => Err(sending.refuse(SendReason::WaitFailed(wait_error(error)))),
        }
    }

    /// Closes the channel, and wakes all that wait. Returns `false` if the channel was closed already.
    ///
    /// From here on no message is sent; messages in the channel can still be received. All waiters but the last are woken under
    /// the lock of the channel.
    ///
    /// Workers receive what was sent before the close, and then end. A later send fails, and `late` has its message:
    ///
    /// ```rust
    /// numbers.close();
    /// let late = numbers.send_blocking(11);
    /// let sum = join_workers(&rt, workers)?;
    /// Ok((sum, late))
    /// ```
    pub fn close(&self) -> bool {
        let mut hand = self.hand();
        let closed = self.close_as(&mut hand);
        hand.end();
        closed
    }

    /// Closes the channel, like [`close`](Sender::close), as a call of this hand in the history.
    pub fn close_as(&self, hand: &mut ChannelHand<T>) -> bool
        requires { IsOf self.now.channel.table hand.old }
        ensures hand { SameTable hand.old hand.new }
        ensures call { Extends (channel_machine self.now.capacity) (known_by hand.old)
            (call.Close result) (known_by hand.new) }
    {
        self.link.channel.close(&self.link.rt, hand)
    }

    /// Returns whether the channel is closed. A closed one stays closed.
    pub fn is_closed(&self) -> bool {
        self.link.channel.is_closed(&self.link.rt)
    }

    /// Returns how many messages are in the channel at some moment of this call. Another thread may change that at once.
    pub fn len(&self) -> usize {
        self.link.channel.len(&self.link.rt)
    }

    /// Returns whether no message is in the channel at some moment of this call.
    pub fn is_empty(&self) -> bool {
        self.len() == 0
    }

    /// Returns whether as many messages are in the channel as there may be, at some moment of this call.
    pub fn is_full(&self) -> bool {
        self.link.channel.is_full(&self.link.rt)
    }

    /// Returns how many messages may be in the channel at once. `None` says that it has no limit.
    pub fn capacity(&self) -> Option<usize>
        ensures { result ≡ self.now.capacity }
    {
        self.link.channel.capacity
    }

    /// Returns how many senders of the channel there are at some moment of this call.
    pub fn sender_count(&self) -> usize {
        self.link.channel.senders.count()
    }

    /// Returns how many receivers of the channel there are at some moment of this call.
    pub fn receiver_count(&self) -> usize {
        self.link.channel.receivers.count()
    }

    /// Makes a handle that does not keep the channel open, of which [`upgrade`](WeakSender::upgrade) makes a sender again.
    /// Fails if the runtime value can't be cloned.
    ///
    /// While there is a sender, `report_if_open` sends by the weak handle and returns `true`. Once the last sender is dropped,
    /// `report_if_open` sends nothing and returns `false`:
    ///
    /// ```rust
    /// let weak = sender.downgrade()?;
    /// let is_open = report_if_open(&weak, 5)?;
    /// drop(sender);
    /// let is_still = report_if_open(&weak, 6)?;
    /// ```
    pub fn downgrade(&self) -> Result<WeakSender<T, R>, AllocError>
        ensures { IfOk result (λ weak. weak ≡ self.now) }
    {
        let link = self.link.try_clone()?;
        Ok(WeakSender { link })
    }
}

/// Makes another sender of the same channel. Fails if the runtime value can't be cloned or there are too many senders.
impl<T: Drop, R: Wait + Clock + Clone> Clone for Sender<T, R> {
    ghost is_clone = { λ sender same. same ≡ sender };

    fn clone(&self) -> Result<Self, AllocError> {
        let link = self.link.try_clone()?;
        link.channel.senders.add()?;
        Ok(Sender::new(link))
    }
}

/// Closes the channel, if this sender is the last one.
impl<T: Drop, R: Wait + Clock + Clone> Drop for Sender<T, R> {
    fn drop(self) {
        let Sender { link } = self;
        if link.channel.senders.remove() {
            let mut hand = link.channel.hand();
            link.channel.close(&link.rt, &mut hand);
            hand.end();
        }
    }
}

impl<T: Drop, R: Wait + Clock + Clone> Debug for Sender<T, R> {
    fn fmt<W: fmt::Write>(&self, f: &mut Formatter<W>) -> fmt::Result {
        f.write_str("Sender { .. }")
    }
}

/// A handle of a channel that does not keep the channel open for senders. [`upgrade`](WeakSender::upgrade) makes a sender of
/// it, while there is another sender.
///
/// The function sends only while somebody else has a sender:
///
/// ```rust
/// let Some(sender) = readings.upgrade()? else {
///     return Ok(false);
/// };
/// sender.force_send(reading)?;
/// Ok(true)
/// ```
#[derive(Drop)]
pub struct WeakSender<T: Drop, R: Wait + Clock + Clone> {
    link: Link<T, R>,
}

impl<T: Drop, R: Wait + Clock + Clone> Model for WeakSender<T, R> {
    ghost use Rattle.event_channel.specs.Handle.{Handle};

    ghost Value = { Handle };

    ghost view = { λ weak. weak.link };
}

impl<T: Drop, R: Wait + Clock + Clone> WeakSender<T, R> {
    /// Makes a sender again, if the channel is open and has a sender still. Returns `None` else. Fails if the runtime value
    /// can't be cloned.
    ///
    /// The call may block for the lock of the channel.
    ///
    /// Here the sender that was made is dropped where the function returns:
    ///
    /// ```rust
    /// let Some(sender) = readings.upgrade()? else {
    ///     return Ok(false);
    /// };
    /// sender.force_send(reading)?;
    /// Ok(true)
    /// ```
    pub fn upgrade(&self) -> Result<Option<Sender<T, R>>, AllocError>
        ensures { IfOk result (λ sender. IfSome sender (λ sender. sender ≡ self.now)) }
    {
        let link = self.link.try_clone()?;
        if link.channel.is_closed(&link.rt) || !link.channel.senders.revive() {
            return Ok(None);
        }
        Ok(Some(Sender::new(link)))
    }
}
