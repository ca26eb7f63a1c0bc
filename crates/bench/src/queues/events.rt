//! Events, with listeners of either kind. Each calls its event with nothing in between, as callers do.
use super::Queue;
use anyhow::Result;
use event_listener::{Event, EventIds, EventListener, Listener, StackListener, StackSlot};
use futures::task::{Context, Poll};
use std::alloc::Global;
use std::sync::Wait;
use std::time::Clock;

/// An event whose listeners share its queue.
#[derive(Drop)]
pub struct OnEvent<'ev, 'r, R> {
    pub event: &'ev Event<()>,
    pub rt: &'r R,
    pub alloc: Global,
}

/// An event whose listeners borrow it.
#[derive(Drop)]
pub struct OnBorrowed<'ev, 'r, R> {
    pub event: &'ev Event<()>,
    pub rt: &'r R,
    pub alloc: Global,
}

/// So many events.
pub fn events(alloc: Global, count: usize) -> Result<Vec<Event<()>>> {
    let mut ids = EventIds::new();
    let mut events = Vec::new(alloc);
    for _ in 0..count {
        let id = ids.next()?;
        events.push(Event::new(id))?;
    }
    Ok(events)
}

impl<R: Wait + Clock + Clone> Queue for OnEvent<'_, '_, R> {
    type Listener = EventListener<(), R>;

    #[inline(always)]
    fn listen(&mut self) -> Option<EventListener<(), R>> {
        self.event.listen(self.rt, self.alloc).ok()
    }

    #[inline(always)]
    fn poll(&mut self, listener: &mut EventListener<(), R>, cx: &mut Context<'_>) -> bool {
        matches!(listener.poll_in(cx), Ok(Poll::Ready(())))
    }

    #[inline(always)]
    fn notify(&mut self, count: usize) -> usize {
        self.event.notify(self.rt, count).unwrap_or(0)
    }

    #[inline(always)]
    fn leave(&mut self, _listener: EventListener<(), R>) {}
}

impl<'ev, R: Wait + Clock + Clone> Queue for OnBorrowed<'ev, '_, R> {
    type Listener = StackListener<'ev, (), R>;

    #[inline(always)]
    fn listen(&mut self) -> Option<StackListener<'ev, (), R>> {
        let slot = StackSlot::new(self.rt, self.alloc, self.event).ok()?;
        slot.listen(self.rt).ok()
    }

    #[inline(always)]
    fn poll(&mut self, listener: &mut StackListener<'ev, (), R>, cx: &mut Context<'_>) -> bool {
        matches!(listener.poll_in(cx), Ok(Poll::Ready(())))
    }

    #[inline(always)]
    fn notify(&mut self, count: usize) -> usize {
        self.event.notify(self.rt, count).unwrap_or(0)
    }

    #[inline(always)]
    fn leave(&mut self, _listener: StackListener<'ev, (), R>) {}
}
