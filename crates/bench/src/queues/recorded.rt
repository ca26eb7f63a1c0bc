//! Recorded events.
use super::{Queue, waker_of};
use calls::Reply;
use calls_events::HandCalls;
use event_listener::Hand;
use futures::task::Context;

/// A recorded event with the one hand that calls it.
#[derive(Drop)]
pub struct OnRecorded<C> {
    pub event: C,
    pub hand: Hand<u32>,
}

impl<C: HandCalls + Drop> Queue for OnRecorded<C> {
    type Listener = C::Listener;

    #[inline(always)]
    fn listen(&mut self) -> Option<C::Listener> {
        self.event.listen(&mut self.hand).ok()
    }

    #[inline(always)]
    fn poll(&mut self, listener: &mut C::Listener, cx: &mut Context<'_>) -> bool {
        let Some(waker) = waker_of(cx) else {
            return false;
        };
        let polled = self.event.poll(&mut self.hand, listener, waker);
        matches!(polled, Reply::Ready(_))
    }

    #[inline(always)]
    fn notify(&mut self, count: usize) -> usize {
        match self.event.notify(&mut self.hand, count, false, 0) {
            Reply::Told(told, _) => told,
            _ => 0,
        }
    }

    #[inline(always)]
    fn leave(&mut self, _listener: C::Listener) {}
}
