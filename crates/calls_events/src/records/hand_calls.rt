//! The calls on one recorded event, each with its reply.
ghost use Rattle.std.specs.Prelude.{◌≡◌};

use calls::{Act, Reply};
use event_listener::{
    Hand, RecordError, RecordedEvent, RecordedListener, RecordedPollError, WaitError,
};
use futures::task::{Poll, Waker};
use std::sync::Wait;
use std::time::{Clock, Duration};

/// The calls on one recorded event. A hand that is none of its own makes no call, and the reply is `Invalid`.
///
/// What is written over it does not see what a listener is made of, and so is proved quickly.
pub trait HandCalls {
    /// Its listeners.
    type Listener: Drop;

    /// A new listener, or why there is none.
    fn listen(&self, hand: &mut Hand<u32>) -> Result<Self::Listener, Reply>;

    /// Notifies listeners.
    fn notify(&self, hand: &mut Hand<u32>, count: usize, additional: bool, tag: u32) -> Reply;

    /// How many listeners there are.
    fn total_listeners(&self, hand: &mut Hand<u32>) -> Reply;

    /// Whether some listener is notified.
    fn is_notified(&self, hand: &mut Hand<u32>) -> Reply;

    /// Polls a listener.
    fn poll(&self, hand: &mut Hand<u32>, listener: &mut Self::Listener, waker: Waker) -> Reply;

    /// What a listener does last: a drop, a discard or a wait. It comes back if it is in the queue still.
    fn end(
        &self,
        hand: &mut Hand<u32>,
        listener: Self::Listener,
        act: Act,
    ) -> (Reply, Option<Self::Listener>);
}

/// A recorded event that is called.
#[derive(Clone, Copy)]
pub struct On<'ev, R> {
    /// The runtime value, which its listeners keep a clone of.
    pub rt: &'ev R,
    /// The event.
    pub event: &'ev RecordedEvent<u32>,
}

/// A listener, and the event that it listens to.
#[derive(Drop)]
pub struct OwnListener<'ev, R: Wait + Clock + Clone> {
    event: &'ev RecordedEvent<u32>,
    listener: RecordedListener<'ev, u32, R>,
    ghost of_event: { listener.event ≡ event.now },
}

fn refused(error: RecordError) -> Reply {
    match error {
        RecordError::Memory => Reply::NoMemory,
        RecordError::SerialsUsedUp => Reply::UsedUp,
    }
}

fn ready(tag: u32) -> Reply {
    Reply::Ready(Some(u64::from(tag)))
}

// What a wait that ends at a limit gave.
fn timed(tag: Option<u32>) -> Reply {
    tag.map_or(Reply::TimedOut, ready)
}

impl<'ev, R: Wait + Clock + Clone> HandCalls for On<'ev, R> {
    type Listener = OwnListener<'ev, R>;

    fn listen(&self, hand: &mut Hand<u32>) -> Result<OwnListener<'ev, R>, Reply> {
        let event = self.event;
        if !event.owns(hand) {
            return Err(Reply::Invalid);
        }
        match event.listen(self.rt, hand) {
            Ok(listener) => Ok(OwnListener { event, listener }),
            Err(error) => Err(refused(error)),
        }
    }

    fn notify(&self, hand: &mut Hand<u32>, count: usize, additional: bool, tag: u32) -> Reply {
        if !self.event.owns(hand) {
            return Reply::Invalid;
        }
        match self.event.notify(self.rt, hand, count, additional, tag) {
            Ok(told) => Reply::Told(told, None),
            Err(error) => refused(error),
        }
    }

    fn total_listeners(&self, hand: &mut Hand<u32>) -> Reply {
        if !self.event.owns(hand) {
            return Reply::Invalid;
        }
        match self.event.total_listeners(self.rt, hand) {
            Ok(total) => Reply::Total(total),
            Err(error) => refused(error),
        }
    }

    fn is_notified(&self, hand: &mut Hand<u32>) -> Reply {
        if !self.event.owns(hand) {
            return Reply::Invalid;
        }
        match self.event.is_notified(self.rt, hand) {
            Ok(is) => Reply::IsNotified(is),
            Err(error) => refused(error),
        }
    }

    fn poll(&self, hand: &mut Hand<u32>, own: &mut OwnListener<'ev, R>, waker: Waker) -> Reply {
        if !own.event.owns(hand) {
            return Reply::Invalid;
        }
        match own.listener.poll(hand, waker) {
            Ok(Poll::Ready(tag)) => ready(tag),
            Ok(Poll::Pending) => Reply::Pending,
            Err(RecordedPollError::NeverInserted) => Reply::Finished,
            Err(RecordedPollError::Memory) => Reply::NoMemory,
        }
    }

    fn end(
        &self,
        hand: &mut Hand<u32>,
        own: OwnListener<'ev, R>,
        act: Act,
    ) -> (Reply, Option<OwnListener<'ev, R>>) {
        if !own.event.owns(hand) {
            return (Reply::Invalid, Some(own));
        }
        let OwnListener { event, listener } = own;
        let answer = match act {
            Act::Drop => {
                drop(listener);
                return (Reply::Dropped, None);
            }
            Act::Discard => listener.discard(hand).map(Reply::Discarded),
            Act::Wait => listener.wait(hand).map(ready),
            Act::Timeout(limit) => listener.wait_timeout(hand, limit).map(timed),
            Act::Expire => listener.wait_timeout(hand, Duration::ZERO).map(timed),
            _ => return (Reply::Invalid, Some(OwnListener { event, listener })),
        };
        match answer {
            Ok(reply) => (reply, None),
            Err(WaitError::NeverInserted) => (Reply::Finished, None),
            Err(WaitError::Memory(listener)) => {
                (Reply::NoMemory, Some(OwnListener { event, listener }))
            }
        }
    }
}
