//! A wait for what a state hands out, blocking or awaited.
ghost use Rattle.std.specs.Prelude.{◌≡◌, None, Some, Err, IfOk, IsSome, IsSomeAnd};
ghost use Rattle.futures.specs.Poll.{IfReady, OnPending};
ghost use Rattle.futures.specs.Task.{Covers, Keeps};
ghost use Rattle.futures.specs.declared.task.Poll.TheVariants.{Ready};
ghost use Rattle.event_wait.specs.declared.lock.limit.Limit.TheVariants.{Never};
ghost use Rattle.event_monitor.specs.declared.error.PollError.TheVariants.{Finished};

use crate::asking::obtain;
use crate::error::{BlockError, PollError, WaitError};
use event_queue::ListenError;
use event_wait::{Hold, Limit, TakesAny, poll_in};
use futures::task::{Context, Poll};
use std::alloc::Global;
use std::marker::PhantomData;
use std::time::Duration;

/// A wait at a lock whose queue alone can refuse it. It asks once it is waited on or polled, and not before. What it obtains
/// comes with the hold. Dropped while it waits, it leaves the queue, and what it was notified of goes to the next.
pub(crate) struct Queueing<L: TakesAny<Q>, Q, H: Hold<L>> {
    pub(crate) hold: Option<H>,
    alloc: Global,
    request: Q,
    lock: PhantomData<L>,
}

impl<L: TakesAny<Q>, Q, H: Hold<L>> Queueing<L, Q, H> {
    #[inline(always)]
    pub(crate) fn new(hold: H, alloc: Global, request: Q) -> Self
        ensures { result.hold ≡ Some hold }
    {
        Queueing {
            hold: Some(hold),
            alloc,
            request,
            lock: PhantomData,
        }
    }
}

impl<L: TakesAny<Q, Refusal = ListenError>, Q: Drop, H: Hold<L> + Drop> Queueing<L, Q, H> {
    // Returns the limit of a wait that begins now and has this timeout.
    pub(crate) fn limit_after(&self, timeout: Duration) -> Limit {
        match &self.hold {
            Some(hold) => Limit::after(hold.rt(), timeout),
            None => Limit::Past,
        }
    }

    // Blocks the thread until the state hands it what it wants, or until the limit. With no time left the call only attempts.
    pub(crate) fn wait_until(self, limit: Limit) -> Result<Option<(H, L::Output)>, BlockError>
        ensures never { limit ≡ Never → IfOk result IsSome }
    {
        let Queueing {
            hold,
            alloc,
            request,
            lock: _,
        } = self;
        let Some(hold) = hold else {
            return Err(BlockError::Finished);
        };
        let mut request = request;
        match obtain(hold.lock(), hold.rt(), alloc, &mut request, limit) {
            Ok(Some(output)) => Ok(Some((hold, output))),
            Ok(None) => Ok(None),
            Err(refused) => Err(BlockError::from(WaitError::from(refused))),
        }
    }

    // Attempts, and registers the task that polls where the wait goes on. After an output or an error the wait has finished.
    pub(crate) fn poll(&mut self, cx: &mut Context<'_>) -> Poll<Result<(H, L::Output), PollError>>
        ensures finished { self.old.hold ≡ None → result ≡ Ready (Err Finished) }
        ensures ends { IfReady result (λ _. self.new.hold ≡ None) }
        ensures registered { OnPending result
            (Covers cx.new (λ s. IsSomeAnd self.new.hold (λ hold. s ≡ L.source (H.held hold)))) }
        ensures kept { Keeps cx.old cx.new }
    {
        let Some(hold) = self.hold.take() else {
            return Poll::Ready(Err(PollError::Finished));
        };
        match poll_in(hold.lock(), hold.rt(), &mut self.request, cx) {
            Poll::Ready(Ok(output)) => Poll::Ready(Ok((hold, output))),
            Poll::Ready(Err(error)) => Poll::Ready(Err(PollError::Listen(error))),
            Poll::Pending => {
                self.hold = Some(hold);
                Poll::Pending
            }
        }
    }

    // Returns the hold, if the wait has no place in a queue and has given nothing yet: what the wait wants may be at hand
    // without the lock.
    #[inline(always)]
    pub(crate) fn idle(&self) -> Option<&H> {
        match &self.hold {
            Some(hold) if !hold.lock().is_waiting(&self.request) => Some(hold),
            _ => None,
        }
    }

    // Ends the wait, which has given what was at hand.
    pub(crate) fn finish(&mut self)
        ensures { self.new.hold ≡ None }
    {
        drop(self.hold.take());
    }
}

impl<L: TakesAny<Q>, Q: Drop, H: Hold<L> + Drop> Drop for Queueing<L, Q, H> {
    fn drop(self) {
        let Queueing {
            hold,
            alloc: _,
            request,
            lock: _,
        } = self;
        let mut request = request;
        if let Some(hold) = hold {
            hold.lock().give_up(hold.rt(), &mut request);
        }
    }
}
