//! Listeners in tasks: a listener that is awaited, and a future over two events.
ghost use Rattle.std.specs.Prelude.{◌≡◌, ◌⊎◌};

use event_listener::{Event, EventListener, ListenError, Listener, NeverInserted};
use futures::Future;
use futures::executor::block_on;
use futures::task::{Context, Poll};
use std::alloc::{AllocGlobal, Global};
use std::io;
use std::random::RandomSource;
use std::sync::Wait;
use std::time::Clock;
use thiserror::Error;

/// Listens, and awaits the tag on this thread.
pub fn await_tag<R>(rt: &R, event: &Event<u32>) -> Result<u32, AwaitError>
where
    R: Wait + Clock + Clone + RandomSource + AllocGlobal,
{
    let listener = event.listen(rt, rt.alloc())?;
    Ok(block_on(rt, listener)??)
}

/// Why no tag was awaited.
#[derive(Debug, Drop, Error)]
pub enum AwaitError {
    #[error("{0}")]
    Listen(#[from] ListenError),
    #[error("{0}")]
    Executor(#[from] io::Error),
    #[error("{0}")]
    NeverInserted(#[from] NeverInserted),
}

/// What a worker is to do next.
#[derive(Clone, Copy, Debug, PartialEq, Eq)]
pub enum Order {
    Work(u32),
    Stop,
}

/// The next order, as a future: a stop, or else the work that was ordered.
///
/// Once the future gives its order it is done. The listener that is left is dropped with the future, and propagates its
/// notification if it has one.
#[derive(Drop)]
pub struct NextOrder<R: Wait + Clock + Clone> {
    stop: EventListener<(), R>,
    work: EventListener<u32, R>,
}

impl<R: Wait + Clock + Clone> NextOrder<R> {
    /// Listens to both events.
    pub fn new(
        rt: &R,
        alloc: Global,
        stop: &Event,
        work: &Event<u32>,
    ) -> Result<Self, ListenError> {
        Ok(NextOrder {
            stop: stop.listen(rt, alloc)?,
            work: work.listen(rt, alloc)?,
        })
    }
}

impl<R: Wait + Clock + Clone> Future for NextOrder<R> {
    type Output = Result<Order, NeverInserted>;

    // A pending poll has left the task with both listeners, so either event wakes it.
    ghost needs = { λ next s. (s ≡ next.stop.standing.source) ⊎ (s ≡ next.work.standing.source) };

    fn poll(&mut self, cx: &mut Context<'_>) -> Poll<Result<Order, NeverInserted>> {
        match self.stop.poll_in(cx) {
            Ok(Poll::Ready(())) => return Poll::Ready(Ok(Order::Stop)),
            Ok(Poll::Pending) => {}
            Err(gone) => return Poll::Ready(Err(gone)),
        }
        match self.work.poll_in(cx) {
            Ok(Poll::Ready(work)) => Poll::Ready(Ok(Order::Work(work))),
            Ok(Poll::Pending) => Poll::Pending,
            Err(gone) => Poll::Ready(Err(gone)),
        }
    }
}
