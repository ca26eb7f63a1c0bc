//! The calls on the state under a channel's lock.
ghost use Rattle.std.specs.Prelude.{◌≡◌};
ghost use Rattle.event_channel.specs.Calls.{calls, is_new, rests_on_none};
ghost use Rattle.event_channel.specs.Places.{WaitsNowhere};
ghost use Rattle.event_history.specs.Hands.{known_by};

use crate::error::{SendReason, TryRecvError};
use crate::messages::Messages;
use event_history::{Hand, IdleHand, Steps};
use event_queue::{Key, ListenError};
use event_wait::{Attempted, Task};
use std::collections::LinkedList;
use std::marker::Model;

// A hand of a channel's lock. The hand may have a place in a queue of the channel.
pub(crate) type LockHand<T> = Hand<Messages<T, Task>, ChannelCall<T>>;

// The hand of a waiter, between the waiter's calls.
pub(crate) type RestingHand<T> = IdleHand<Messages<T, Task>, ChannelCall<T>>;

/// A caller's right to make calls on one channel, of no bytes. It can't be dropped: it ends by its [`end`](ChannelHand::end).
///
/// A contract sees a `ChannelHand` as the hand of the channel's lock: the history that the hand has seen, and the hand's own
/// calls in that history. Between two calls of its owner the hand waits in no queue.
///
/// A hand is made, lent to a function that makes calls with it, and ended:
///
/// ```rust
/// let mut hand = sender.hand();
/// let exchanged = send_then_receive(rt, &sender, &receiver, &mut hand, 7);
/// hand.end();
/// ```
pub struct ChannelHand<T> {
    pub(crate) hand: LockHand<T>,
}

impl<T> Model for ChannelHand<T> {
    ghost use Rattle.event_channel.specs.Messages.{State};
    ghost use Rattle.event_channel.specs.Places.{WaitsNowhere};
    ghost use Rattle.event_channel.specs.declared.call.ChannelCall.{ChannelCall};
    ghost use Rattle.event_history.specs.Hands.{known_by};
    ghost use Rattle.event_history.specs.declared.hand.Hand.{Hand};
    ghost use Rattle.event_wait.specs.declared.lock.task.Task.{Task};

    ghost Value = { Hand (State T Task) (ChannelCall T) };

    ghost view = { λ hand. hand.hand };

    ghost invariant = { λ hand. WaitsNowhere (known_by hand.hand).mine };
}

impl<T> ChannelHand<T> {
    // Makes a `ChannelHand` of a hand that waits in no queue.
    #[inline(always)]
    pub(crate) fn of(hand: LockHand<T>) -> Self
        requires { WaitsNowhere (known_by hand).mine }
        ensures { result ≡ hand }
    {
        ChannelHand { hand }
    }

    // Returns the hand of the channel's lock alone.
    #[inline(always)]
    pub(crate) fn into_hand(self) -> LockHand<T>
        ensures hand { result ≡ self }
        ensures waits { WaitsNowhere (known_by result).mine }
    {
        let ChannelHand { hand } = self;
        hand
    }

    /// Ends the hand. The call does nothing when a program runs.
    #[inline(always)]
    pub fn end(self) {
        self.into_hand().end();
    }
}

/// A call on the state under a channel's lock, with its reply. No value of it is made when a program runs.
///
/// A key is that of a waiter, which has a place in a queue. A truth value says whether a receiver is a stream.
pub enum ChannelCall<T> {
    /// A message is sent, if the channel is open and not full.
    Send(T, Result<(), SendReason>),
    /// A message is sent, if the channel is open. If the channel is full its first message goes out.
    ForceSend(T, Result<Option<T>, SendReason>),
    /// A message is sent by a sender that waits where the channel is full, and else is in the queue no more.
    SendOrWait(T, Option<Key>, Attempted<Result<(), SendReason>, ListenError>),
    /// A message is sent, if the channel is open and not full, by a sender that leaves the queue in any case.
    SendOrLeave(T, Option<Key>, Result<(), SendReason>),
    /// A sender leaves the queue.
    LeaveSenders(Option<Key>),
    /// The first message is received, if there is one.
    Receive(Result<T, TryRecvError>),
    /// The first message is received by a receiver that waits where there is no message, and else is in the queue no more.
    /// `None` is the end: the channel is empty and closed.
    ReceiveOrWait(bool, Option<Key>, Attempted<Option<T>, ListenError>),
    /// The first message is received, if there is one, by a receiver that leaves the queue in any case.
    ReceiveOrLeave(bool, Option<Key>, Result<T, TryRecvError>),
    /// These messages are received, one at least, by a receiver that leaves the queue.
    ReceiveMany(LinkedList<T>, Option<Key>),
    /// A receiver leaves the queue.
    LeaveReceivers(bool, Option<Key>),
    /// The channel is closed, if it is open.
    Close(bool),
    /// Whether the channel is closed.
    IsClosed(bool),
    /// Whether as many messages wait as may.
    IsFull(bool),
    /// How many messages wait.
    Len(usize),
}

/// A channel starts open, without messages and waiters, and with the capacity that was asked for. A hand that waits in a queue
/// makes its next call by that place, and ends only once it has left the queue.
impl<T, W> Steps for Messages<T, W> {
    type Call = ChannelCall<T>;

    type Start = Option<usize>;

    ghost starts = { is_new };

    ghost goes = { calls };

    ghost rests = { rests_on_none };

    ghost may_end = { WaitsNowhere };
}
