//! An event, called as a recorded one is.
use calls::{Act, Reply};
use calls_events::{HandCalls, ListenerKind, Runtime};
use event_listener::{
    Event, Hand, IntoNotification, IntoTagged, ListenError, Listener, NeverInserted, WaitError,
};
use futures::task::{Poll, Waker};
use std::marker::PhantomData;
use std::sync::atomic::{AtomicU64, Ordering};

/// An event, with listeners of the kind `K`. It has no hands, and looks at none. Each listener that it notifies gets a tag
/// of its own, the next number.
#[derive(Drop)]
pub struct OnEvent<'ev, K, R> {
    rt: &'ev R,
    event: &'ev Event<u64>,
    made: &'ev AtomicU64,
    kind: PhantomData<K>,
}

impl<'ev, K, R: Runtime> OnEvent<'ev, K, R> {
    /// The event for which so many tags were made. The next tag is this number.
    pub fn new(rt: &'ev R, event: &'ev Event<u64>, made: &'ev AtomicU64) -> Self {
        OnEvent {
            rt,
            event,
            made,
            kind: PhantomData,
        }
    }

    fn notify_by<N: IntoTagged>(&self, n: N) -> Reply
    where
        N::Notify: Drop,
        requires { N.fits n }
    {
        let made = self.made;
        let tagged = n.tag_with(|| made.fetch_add(1, Ordering::SeqCst));
        match self.event.notify(self.rt, tagged) {
            Ok(told) => Reply::Told(told, None),
            Err(refused) => Reply::TagRefused(refused.told),
        }
    }
}

impl<'ev, K: ListenerKind<'ev, u64, R>, R: Runtime> HandCalls for OnEvent<'ev, K, R> {
    type Listener = K::Listener;

    fn listen(&self, _hand: &mut Hand<u32>) -> Result<K::Listener, Reply> {
        match K::listen(self.rt, self.rt.alloc(), self.event) {
            Ok(listener) => Ok(listener),
            Err(ListenError::Memory) => Err(Reply::NoMemory),
            Err(ListenError::SerialsUsedUp) => Err(Reply::UsedUp),
        }
    }

    fn notify(&self, _hand: &mut Hand<u32>, count: usize, additional: bool, _tag: u32) -> Reply {
        if additional {
            self.notify_by(count.additional())
        } else {
            self.notify_by(count)
        }
    }

    fn total_listeners(&self, _hand: &mut Hand<u32>) -> Reply {
        Reply::Total(self.event.total_listeners(self.rt))
    }

    fn is_notified(&self, _hand: &mut Hand<u32>) -> Reply {
        Reply::IsNotified(self.event.is_notified(self.rt))
    }

    fn poll(&self, _hand: &mut Hand<u32>, listener: &mut K::Listener, waker: Waker) -> Reply {
        match listener.poll(waker) {
            Ok(Poll::Ready(tag)) => Reply::Ready(Some(tag)),
            Ok(Poll::Pending) => Reply::Pending,
            Err(NeverInserted) => Reply::Finished,
        }
    }

    fn end(
        &self,
        _hand: &mut Hand<u32>,
        listener: K::Listener,
        act: Act,
    ) -> (Reply, Option<K::Listener>) {
        let reply = match act {
            Act::Drop => {
                drop(listener);
                Reply::Dropped
            }
            Act::Discard => Reply::Discarded(listener.discard()),
            Act::Timeout(limit) => match listener.wait_timeout(limit) {
                Ok(Some(tag)) => Reply::Ready(Some(tag)),
                Ok(None) => Reply::TimedOut,
                Err(WaitError::NeverInserted) => Reply::Finished,
                Err(WaitError::Memory(_)) => Reply::NoMemory,
            },
            _ => return (Reply::Invalid, Some(listener)),
        };
        (reply, None)
    }
}
