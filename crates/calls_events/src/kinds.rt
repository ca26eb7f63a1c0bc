//! Kinds of listeners, so that what is said of every listener is written once and run with each kind.
use event_listener::{Event, EventListener, ListenError, Listener, StackListener, StackSlot};
use std::alloc::Global;
use std::sync::Wait;
use std::time::Clock;

/// A kind of listener.
pub trait ListenerKind<'ev, T, R> {
    /// The listeners of this kind.
    type Listener: Listener<T> + Drop;

    /// A new listener.
    fn listen(rt: &R, alloc: Global, event: &'ev Event<T>) -> Result<Self::Listener, ListenError>;
}

/// Listeners that share the queue of their event.
#[derive(Drop)]
pub struct Sharing;

impl<'ev, T: Drop, R: Wait + Clock + Clone> ListenerKind<'ev, T, R> for Sharing {
    type Listener = EventListener<T, R>;

    #[inline(always)]
    fn listen(
        rt: &R,
        alloc: Global,
        event: &'ev Event<T>,
    ) -> Result<EventListener<T, R>, ListenError> {
        event.listen(rt, alloc)
    }
}

/// Listeners that borrow their event.
#[derive(Drop)]
pub struct Borrowing;

impl<'ev, T: Drop + 'ev, R: Wait + Clock + Clone> ListenerKind<'ev, T, R> for Borrowing {
    type Listener = StackListener<'ev, T, R>;

    #[inline(always)]
    fn listen(
        rt: &R,
        alloc: Global,
        event: &'ev Event<T>,
    ) -> Result<StackListener<'ev, T, R>, ListenError> {
        StackSlot::new(rt, alloc, event)?.listen(rt)
    }
}
