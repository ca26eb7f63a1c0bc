//! What makes a listener that borrows its event.
ghost use Rattle.std.specs.Prelude.{◌≡◌, false, IfOk};
ghost use Rattle.event_listener.specs.Event.{ListensFirst};

use super::StackListener;
use crate::event::{Event, Shared};
use event_history::perform_first;
use event_history::steps::Insert;
use event_queue::ListenError;
use std::alloc::Global;
use std::fmt;
use std::marker::Model;
use std::sync::Wait;
use std::time::Clock;

/// A right to make one [`StackListener`], which borrows the queue of an event.
///
/// [`listen`](StackSlot::listen) consumes the slot, which cannot be cloned, so a slot listens once. A slot that is dropped
/// leaves no listener in the queue. A contract sees a slot as the number of its event.
#[must_use = "no listener is in the queue before the slot listens"]
#[derive(Drop)]
pub struct StackSlot<'ev, T> {
    shared: &'ev Shared<T>,
    // What the calls of the listener allocate from.
    alloc: Global,
}

impl<'ev, T> Model for StackSlot<'ev, T> {
    ghost use Rattle.std.specs.Prelude.{ℕ};

    ghost Value = { ℕ };

    ghost view = { λ slot. slot.shared.now.event_number };
}

impl<'ev, T> StackSlot<'ev, T> {
    /// Makes a slot of this event, and the queue of the event if there is none yet. No listener is in the queue before the
    /// slot listens.
    ///
    /// Returns [`ListenError::Memory`] if there is no memory for the queue, and leaves the event as it was. Returns no other
    /// error.
    ///
    /// Takes memory only for the queue. May block until another thread has made the queue.
    #[inline(always)]
    pub fn new<R: Wait>(rt: &R, alloc: Global, event: &'ev Event<T>) -> Result<Self, ListenError>
    where
        T: Drop,
        ensures event { IfOk result (λ slot. slot ≡ event.now) }
    {
        let made = match event.made() {
            Some(made) => made,
            None => match event.make_queue(rt, alloc) {
                Ok(made) => made,
                Err(_) => return Err(ListenError::Memory),
            },
        };
        let shared = &**made;
        Ok(StackSlot { shared, alloc })
    }

    /// Registers a listener at the end of the queue, and returns the listener.
    ///
    /// The listener waits, even if other listeners are notified already: a notification made before this call does not reach
    /// it. For its own calls the listener keeps a clone of `rt` and the allocator of the slot.
    ///
    /// Returns [`ListenError::Memory`] if memory runs out or no clone of `rt` can be made, and [`ListenError::SerialsUsedUp`]
    /// if the queue has given out all its serial numbers, of which each listener gets one. Neither error leaves a listener in
    /// the queue, and either drops the slot.
    ///
    /// Takes memory if no slot of an earlier listener is spare in the queue. May block until the lock of the event is free.
    #[inline(always)]
    pub fn listen<R>(self, rt: &R) -> Result<StackListener<'ev, T, R>, ListenError>
    where
        T: Drop,
        R: Wait + Clock + Clone,
        ensures event { IfOk result (λ listener. listener.standing.event_number ≡ self.entry) }
        ensures unfinished { IfOk result (λ listener. listener.standing.is_finished ≡ false) }
        ensures listens { IfOk result ListensFirst }
    {
        let Ok(runtime) = rt.clone() else {
            return Err(ListenError::Memory);
        };
        let (hand, key) = perform_first!(self.shared.lock(), rt, Insert, &mut ());
        let key = match key {
            Ok(key) => key,
            Err(error) => {
                hand.end();
                return Err(error);
            }
        };
        Ok(StackListener::new(self.shared, key, hand, runtime, self.alloc))
    }
}

impl<T> fmt::Debug for StackSlot<'_, T> {
    fn fmt<W: fmt::Write>(&self, f: &mut fmt::Formatter<W>) -> fmt::Result {
        f.debug_struct("StackSlot").finish_non_exhaustive()
    }
}
