//! A desk at which one visitor at a time sits: a guard that notifies in its drop, and a future that loops.

use event_listener::{Event, EventId, EventListener, ListenError, Listener, NeverInserted};
use futures::Future;
use futures::task::{Context, Poll};
use std::alloc::Global;
use std::sync::Wait;
use std::sync::atomic::{AtomicBool, Ordering};
use std::time::Clock;
use thiserror::Error;

/// A desk at which one visitor at a time sits.
#[derive(Drop)]
pub struct Desk {
    is_taken: AtomicBool,
    left: Event,
}

impl Desk {
    /// Makes a desk at which nobody sits.
    pub fn new(id: EventId) -> Self {
        Desk {
            is_taken: AtomicBool::new(false),
            left: Event::new(id),
        }
    }

    /// Takes the seat, if nobody has it.
    pub fn try_sit<'a, R: Wait>(&'a self, rt: &'a R) -> Option<Seat<'a, R>> {
        if self.is_taken.swap(true, Ordering::SeqCst) {
            return None;
        }
        Some(Seat { desk: self, rt })
    }

    /// Returns a future that takes the seat once it is free.
    pub fn sit<'a, R: Wait + Clock + Clone>(&'a self, rt: &'a R, alloc: Global) -> Sitting<'a, R> {
        Sitting {
            desk: self,
            rt,
            alloc,
            listener: None,
        }
    }
}

/// The seat at a desk. Dropping it frees the desk, and then notifies one listener.
///
/// The seat keeps the runtime value for its drop, which may wait for the lock of the event.
pub struct Seat<'a, R: Wait> {
    desk: &'a Desk,
    rt: &'a R,
}

impl<R: Wait> Drop for Seat<'_, R> {
    fn drop(self) {
        let Seat { desk, rt } = self;
        // A notified listener is to find the desk free.
        desk.is_taken.store(false, Ordering::SeqCst);
        desk.left.notify_relaxed(rt, 1);
    }
}

/// The seat at a desk, as a future. Once the future has given the seat, or an error, it may be polled for another.
///
/// Dropping the future gives up. Its listener is dropped with it, and propagates its notification if it has one.
#[derive(Drop)]
pub struct Sitting<'a, R: Wait + Clock + Clone> {
    desk: &'a Desk,
    rt: &'a R,
    alloc: Global,
    listener: Option<EventListener<(), R>>,
}

impl<'a, R: Wait + Clock + Clone> Future for Sitting<'a, R> {
    type Output = Result<Seat<'a, R>, SitError>;

    fn poll(&mut self, cx: &mut Context<'_>) -> Poll<Result<Seat<'a, R>, SitError>> {
        let rt = self.rt;
        for _ in rt.forever() {
            if let Some(seat) = self.desk.try_sit(rt) {
                self.listener = None;
                return Poll::Ready(Ok(seat));
            }
            match self.listener.take() {
                // A seat that was left before the listener was in the queue did not reach it, so try again.
                None => match self.desk.left.listen(rt, self.alloc) {
                    Ok(listener) => self.listener = Some(listener),
                    Err(refused) => return Poll::Ready(Err(SitError::Listen(refused))),
                },
                Some(mut listener) => match listener.poll_in(cx) {
                    Ok(Poll::Ready(())) => {}
                    Ok(Poll::Pending) => {
                        self.listener = Some(listener);
                        return Poll::Pending;
                    }
                    Err(gone) => return Poll::Ready(Err(SitError::NeverInserted(gone))),
                },
            }
        }
        unreachable!()
    }
}

/// Why there is no seat.
#[derive(Clone, Copy, Debug, PartialEq, Eq, Error)]
pub enum SitError {
    #[error("{0}")]
    Listen(#[from] ListenError),
    #[error("{0}")]
    NeverInserted(#[from] NeverInserted),
}
