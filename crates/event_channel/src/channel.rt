//! The channel that senders and receivers share.
ghost use Rattle.std.specs.Prelude.{◌≡◌, None, Option, Some, IfErr, IfOk, IsSome, false};
ghost use Rattle.event_channel.specs.Calls.{answer_of, channel_machine};
ghost use Rattle.event_channel.specs.Errors.{IsUnsent};
ghost use Rattle.event_channel.specs.Hands.{ReceivesWaiting, SendsWaiting};
ghost use Rattle.event_channel.specs.Places.{WaitsAt, WaitsNowhere, came_by, left_at, receiver_at, sender_at};
ghost use Rattle.event_channel.specs.Waits.{Empties, Gets};
ghost use Rattle.event_channel.specs.declared.call.ChannelCall.TheVariants as call;
ghost use Rattle.event_history.specs.Hands.{IsOf, SameTable, known_by};
ghost use Rattle.event_history.specs.History.{Extends, Looks, both_views, newcomer};

use crate::call::{ChannelHand, LockHand};
use crate::error::{SendError, SendReason, TryRecvError, WaitError};
use crate::messages::Messages;
use crate::receiving::Receiving;
use crate::sending::Sending;
use crate::steps::{Close, IsClosed, IsFull, Len, Pop, PushForced};
use event_history::{Lock, Step, perform};
use event_queue::ListenError;
use event_wait::{DeferredWake, Limit, Refused, Task};
use std::alloc::{AllocError, Global};
use std::marker::Model;
use std::sync::atomic::{AtomicUsize, Ordering};
use std::sync::{Arc, Wait};
use std::time::Clock;
use thiserror::Error;

/// Why no channel was made.
#[derive(Clone, Copy, Debug, PartialEq, Eq, Error)]
pub enum ChannelError {
    /// A channel needs room for one message at least.
    #[error("a channel needs room for one message at least")]
    ZeroCapacity,
    /// There was no memory for the channel.
    #[error("no memory for a channel")]
    Memory(#[from] AllocError),
}

/// The messages and all waiters, under one lock, and how many handles there are.
#[derive(Drop)]
pub(crate) struct Channel<T> {
    pub(crate) lock: Lock<Messages<T, Task>>,
    pub(crate) capacity: Option<usize>,
    pub(crate) senders: Handles,
    pub(crate) receivers: Handles,
    ghost asked: { lock.start ≡ capacity },
}

/// What each handle has: a share of the channel, and a runtime value of its own.
#[derive(Drop)]
pub(crate) struct Link<T, R> {
    pub(crate) channel: Arc<Channel<T>>,
    pub(crate) rt: R,
    pub(crate) alloc: Global,
}

impl<T, R> Model for Link<T, R> {
    ghost use Rattle.std.specs.Arc.{arc_value};
    ghost use Rattle.event_channel.specs.Handle.{Handle};

    ghost Value = { Handle };

    ghost view = { λ link. record {
      channel = (arc_value link.channel).lock;
      capacity = (arc_value link.channel).lock.start;
    } };
}

impl<T: Drop, R: Clone + Drop> Link<T, R> {
    /// Makes another link to the same channel.
    pub(crate) fn try_clone(&self) -> Result<Self, AllocError>
        ensures { IfOk result (λ link. link ≡ self.now) }
    {
        Ok(Link {
            channel: Arc::try_clone(&self.channel)?,
            rt: self.rt.clone()?,
            alloc: self.alloc,
        })
    }
}

/// The number of handles of one side.
#[derive(Drop)]
pub(crate) struct Handles(AtomicUsize);

/// Returns why a wait was refused.
pub(crate) fn wait_error(refused: Refused<ListenError>) -> WaitError {
    match refused {
        Refused::Memory => WaitError::Memory(AllocError),
        Refused::Request(error) => WaitError::Listen(error),
    }
}

impl<T: Drop> Channel<T> {
    /// Makes an open channel without messages, with one handle of each side.
    pub(crate) fn new(alloc: Global, capacity: Option<usize>) -> Result<Self, AllocError>
        ensures capacity { IfOk result (λ channel. channel.lock.start ≡ capacity) }
    {
        let messages = Messages::new(alloc, capacity)?;
        let (lock, hand) = Lock::new(messages, &capacity);
        hand.end();
        Ok(Channel {
            lock,
            capacity,
            senders: Handles::one(),
            receivers: Handles::one(),
        })
    }

    /// Makes a hand that made no call yet. The call is one load.
    #[inline(always)]
    pub(crate) fn hand(&self) -> ChannelHand<T>
        ensures { IsOf self.now.lock.table result
            × (known_by result ≡ newcomer (known_by result).seen) }
    {
        ChannelHand::of(self.lock.hand())
    }

    /// Makes a new hand, which has seen as much as `hand` has.
    pub(crate) fn fork(&self, hand: &mut ChannelHand<T>) -> ChannelHand<T>
        requires { IsOf self.now.lock.table hand.old }
        ensures hand { SameTable hand.old hand.new
            × (known_by hand.new ≡ known_by hand.old) }
        ensures told { SameTable hand.old result
            × (known_by result ≡ newcomer (known_by hand.old).seen) }
    {
        ChannelHand::of(self.lock.fork(&mut hand.hand))
    }

    /// Has `hand` learn what the hand `other` saw and did, and ends `other`.
    pub(crate) fn join(&self, hand: &mut ChannelHand<T>, other: ChannelHand<T>)
        requires here { IsOf self.now.lock.table hand.old }
        requires there { IsOf self.now.lock.table other }
        ensures hand { SameTable hand.old hand.new }
        ensures looks { Looks (channel_machine self.now.lock.start)
            (both_views (known_by hand.old) (known_by other)) (known_by hand.new) }
    {
        self.lock.join(&mut hand.hand, other.into_hand());
    }

    /// Puts a message behind all others, if the channel is open, and takes the first message out if the channel is full.
    pub(crate) fn force_send<R: Wait>(
        &self,
        rt: &R,
        hand: &mut ChannelHand<T>,
        message: T,
    ) -> Result<Option<T>, SendError<T>>
        requires { IsOf self.now.lock.table hand.old }
        ensures hand { SameTable hand.old hand.new }
        ensures call { Extends (channel_machine self.now.lock.start) (known_by hand.old)
            (call.ForceSend message (answer_of result)) (known_by hand.new) }
        ensures returned { IfErr result (λ error. error.message ≡ message) }
        ensures reason { IfErr result (λ error. IsUnsent error.reason) }
    {
        let mut waking = DeferredWake::new();
        let answer = perform!(
            self.lock,
            rt,
            hand.hand,
            PushForced { message },
            &mut waking
        );
        waking.finish_seldom();
        answer
    }

    /// Receives the first message, if it is there for newcomers.
    #[inline(always)]
    pub(crate) fn try_receive<R: Wait>(
        &self,
        rt: &R,
        hand: &mut ChannelHand<T>,
    ) -> Result<T, TryRecvError>
        requires { IsOf self.now.lock.table hand.old }
        ensures hand { SameTable hand.old hand.new }
        ensures call { Extends (channel_machine self.now.lock.start) (known_by hand.old)
            (call.Receive result) (known_by hand.new) }
    {
        let mut waking = DeferredWake::new();
        let received = perform!(self.lock, rt, hand.hand, Pop, &mut waking);
        waking.finish_seldom();
        received
    }

    /// Drops the messages that wait at a closed channel, each once the lock is given back, because the drop of a message may
    /// call the channel.
    pub(crate) fn drop_messages<R: Wait>(&self, rt: &R, hand: &mut ChannelHand<T>)
        requires { IsOf self.now.lock.table hand.old }
        ensures { SameTable hand.old hand.new }
    {
        for _ in 0..self.len(rt) {
            drop(self.try_receive(rt, hand));
        }
    }

    /// Attempts to send, and waits until an attempt ends the wait or the limit has passed. A message that is not sent stays in
    /// `sending`. In any case the hand waits in no queue afterwards.
    #[inline(always)]
    pub(crate) fn wait_to_send<R: Wait + Clock>(
        &self,
        rt: &R,
        alloc: Global,
        hand: &mut LockHand<T>,
        sending: &mut Sending<T>,
        limit: Limit,
    ) -> Result<Option<Result<(), SendReason>>, Refused<ListenError>>
        requires hand { IsOf self.now.lock.table hand.old }
        requires waits { WaitsAt (sender_at sending.old.key) (known_by hand.old).mine }
        ensures hand { SameTable hand.old hand.new }
        ensures waits { WaitsAt (sender_at sending.new.key) (known_by hand.new).mine }
        ensures nowhere { WaitsNowhere (known_by hand.new).mine }
        ensures calls { (message : T) → sending.old.asked ≡ Some message → limit ≡ Limit.Never
            → SendsWaiting self.now.lock.start message (known_by hand.old) result
            (known_by hand.new) }
        ensures never { limit ≡ Limit.Never → IfOk result IsSome }
        ensures gets { Gets Empties sending.old.asked result sending.new.asked }
    {
        self.lock.obtain(rt, alloc, hand, sending, limit)
    }

    /// Attempts to receive, and waits until an attempt ends the wait or the limit has passed. In any case the hand waits in no
    /// queue afterwards.
    #[inline(always)]
    pub(crate) fn wait_to_receive<R: Wait + Clock>(
        &self,
        rt: &R,
        alloc: Global,
        hand: &mut LockHand<T>,
        receiving: &mut Receiving,
        limit: Limit,
    ) -> Result<Option<Option<T>>, Refused<ListenError>>
        requires hand { IsOf self.now.lock.table hand.old }
        requires waits { WaitsAt (receiver_at receiving.old.asked receiving.old.key)
            (known_by hand.old).mine }
        ensures hand { SameTable hand.old hand.new }
        ensures waits { WaitsAt (receiver_at receiving.new.asked receiving.new.key)
            (known_by hand.new).mine }
        ensures nowhere { WaitsNowhere (known_by hand.new).mine }
        ensures never { limit ≡ Limit.Never → IfOk result IsSome }
        ensures calls { receiving.old.asked ≡ false → limit ≡ Limit.Never
            → ReceivesWaiting self.now.lock.start (known_by hand.old) result (known_by hand.new) }
    {
        self.lock.obtain(rt, alloc, hand, receiving, limit)
    }

    /// Takes a sender out of the queue of the senders, if the sender is there.
    #[inline(always)]
    pub(crate) fn stop_sending<R: Wait>(
        &self,
        rt: &R,
        hand: &mut LockHand<T>,
        sending: &mut Sending<T>,
    )
        requires hand { IsOf self.now.lock.table hand.old }
        requires waits { WaitsAt (sender_at sending.old.key) (known_by hand.old).mine }
        ensures hand { SameTable hand.old hand.new }
        ensures nowhere { WaitsNowhere (known_by hand.new).mine }
    {
        if sending.has_no_place() {
            return;
        }
        self.leave_senders(rt, hand, sending);
    }

    // Takes a sender out of its queue. This is a function of its own, because most sends are done before they are dropped.
    #[cold]
    #[inline(never)]
    fn leave_senders<R: Wait>(&self, rt: &R, hand: &mut LockHand<T>, sending: &mut Sending<T>)
        requires hand { IsOf self.now.lock.table hand.old }
        requires waits { WaitsAt (sender_at sending.old.key) (known_by hand.old).mine }
        ensures hand { SameTable hand.old hand.new }
        ensures nowhere { WaitsNowhere (known_by hand.new).mine }
    {
        self.lock.give_up(rt, hand, sending);
    }

    /// Takes a receiver or stream out of its queue, if the receiver or stream is there.
    #[inline(always)]
    pub(crate) fn stop_receiving<R: Wait>(
        &self,
        rt: &R,
        hand: &mut LockHand<T>,
        receiving: &mut Receiving,
    )
        requires hand { IsOf self.now.lock.table hand.old }
        requires waits { WaitsAt (receiver_at receiving.old.asked receiving.old.key)
            (known_by hand.old).mine }
        ensures hand { SameTable hand.old hand.new }
        ensures nowhere { WaitsNowhere (known_by hand.new).mine }
    {
        if receiving.has_no_place() {
            return;
        }
        self.leave_receivers(rt, hand, receiving);
    }

    // Takes a receiver or stream out of its queue. This is a function of its own, because most receives are done before they are
    // dropped.
    #[cold]
    #[inline(never)]
    fn leave_receivers<R: Wait>(&self, rt: &R, hand: &mut LockHand<T>, receiving: &mut Receiving)
        requires hand { IsOf self.now.lock.table hand.old }
        requires waits { WaitsAt (receiver_at receiving.old.asked receiving.old.key)
            (known_by hand.old).mine }
        ensures hand { SameTable hand.old hand.new }
        ensures nowhere { WaitsNowhere (known_by hand.new).mine }
    {
        self.lock.give_up(rt, hand, receiving);
    }

    /// Closes the channel and wakes all waiters. Returns `false` if the channel is closed already.
    pub(crate) fn close<R: Wait>(&self, rt: &R, hand: &mut ChannelHand<T>) -> bool
        requires { IsOf self.now.lock.table hand.old }
        ensures hand { SameTable hand.old hand.new }
        ensures call { Extends (channel_machine self.now.lock.start) (known_by hand.old)
            (call.Close result) (known_by hand.new) }
    {
        self.lock.call(rt, &mut hand.hand, Close)
    }

    pub(crate) fn is_closed<R: Wait>(&self, rt: &R) -> bool {
        self.ask(rt, IsClosed)
    }

    pub(crate) fn is_full<R: Wait>(&self, rt: &R) -> bool {
        self.ask(rt, IsFull)
    }

    /// Returns how many messages wait.
    pub(crate) fn len<R: Wait>(&self, rt: &R) -> usize {
        self.ask(rt, Len)
    }

    // Makes one call by a hand that is made for it.
    #[inline(always)]
    fn ask<K: Step<Messages<T, Task>, ()>, R: Wait>(&self, rt: &R, step: K) -> K::Reply
        requires may { K.may step }
        requires nowhere { (reply : K.Reply) → (came_by (K.call step reply) ≡ None)
            × (left_at (K.call step reply) ≡ None) }
    {
        let mut hand = self.lock.hand();
        let reply = self.lock.perform(rt, &mut hand, step, &mut ());
        hand.end();
        reply
    }
}

impl Handles {
    fn one() -> Self {
        Handles(AtomicUsize::new(1))
    }

    /// Adds one handle. An error says that no further handle could be counted.
    pub(crate) fn add(&self) -> Result<(), AllocError> {
        let added = self.0.fetch_update(
            Ordering::SeqCst,
            Ordering::SeqCst,
            |count| count.checked_add(1),
        );
        match added {
            Ok(_) => Ok(()),
            Err(_) => Err(AllocError),
        }
    }

    /// Adds one handle, if there is a handle still. Returns whether it did.
    pub(crate) fn revive(&self) -> bool {
        let revived = self.0.fetch_update(
            Ordering::SeqCst,
            Ordering::SeqCst,
            |count| if count == 0 {
                None
            } else {
                count.checked_add(1)
            },
        );
        revived.is_ok()
    }

    /// Takes one handle away. Returns whether no handle is left.
    pub(crate) fn remove(&self) -> bool {
        self.0.fetch_sub(1, Ordering::SeqCst) == 1
    }

    pub(crate) fn count(&self) -> usize {
        self.0.load(Ordering::SeqCst)
    }
}
