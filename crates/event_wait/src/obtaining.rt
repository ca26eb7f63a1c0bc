//! Waits, blocking or awaited.
ghost use Rattle.std.specs.Prelude.{◌≡◌, None, Err, IfErr, IfOk, IfSome, IsSomeAnd, Some};
ghost use Rattle.futures.specs.Poll.{IfReady, OnPending};
ghost use Rattle.futures.specs.Task.{Covers, Keeps};
ghost use Rattle.futures.specs.declared.task.Poll.TheVariants.{Ready};
ghost use Rattle.event_wait.specs.declared.error.LockError.TheVariants.{Finished};
ghost use Rattle.event_wait.specs.Obtained.{Obtained};

use crate::error::LockError;
use crate::hold::Hold;
use crate::lock::Limit;
use crate::lock::wait::{obtain, poll_in, try_then_wait};
use crate::waitable::TakesAny;
use futures::task::{Context, Poll};
use std::alloc::Global;
use std::marker::PhantomData;
use std::time::{Duration, Instant};

/// A wait for what a request asks of a lock. Each wait for a lock is made of this type.
///
/// The wait asks the lock once it is waited on or polled, and not before. What it obtains is returned with the hold, for a guard.
/// A wait that is dropped leaves the queue, if it is there, and what it was notified of is passed on to the next waiter. The drop
/// may block until the lock is free.
pub struct Obtaining<L: TakesAny<Q>, Q, H: Hold<L>> {
    pub hold: Option<H>,
    alloc: Global,
    request: Q,
    lock: PhantomData<L>,
}

impl<L: TakesAny<Q>, Q, H: Hold<L>> Obtaining<L, Q, H> {
    /// Makes a wait for this request, of which the lock has not been asked yet.
    #[inline(always)]
    pub fn new(hold: H, alloc: Global, request: Q) -> Self {
        Obtaining {
            hold: Some(hold),
            alloc,
            request,
            lock: PhantomData,
        }
    }
}

impl<L: TakesAny<Q, Refusal = LockError>, Q: Default + Drop, H: Hold<L> + Drop> Obtaining<L, Q, H> {
    /// Blocks the thread until the request is granted, and returns the hold and the output.
    ///
    /// A thread that does not get the output at once tries a few times, and then waits in the queue, for which it allocates what
    /// it parks on. Returns an error if the request can't wait, if memory runs out, or ([`LockError::Finished`]) if a poll was
    /// ready before; the request is in no queue then.
    #[inline(always)]
    pub fn wait(self) -> Result<(H, L::Output), LockError>
        ensures obtained { IfOk result (λ got. Obtained (L.rules (H.held got.0)) (L.trying (H.held got.0)) got.1) }
    {
        match self.at_once() {
            Ok(got) => Ok(got),
            Err(rest) => rest.wait_longer(),
        }
    }

    /// Attempts the request once, and returns the hold and the output, or else the wait itself as an error.
    ///
    /// The error is for [`wait_longer`](Obtaining::wait_longer). A wait that is in a queue already is not attempted here, because
    /// its attempt is made where its place is. May block until the lock is free, but does not wait for the output.
    #[inline(always)]
    pub fn at_once(self) -> Result<(H, L::Output), Self>
        ensures obtained { IfOk result (λ got. Obtained (L.rules (H.held got.0)) (L.trying (H.held got.0)) got.1) }
        ensures kept { IfErr result (λ rest. rest.hold ≡ self.hold) }
    {
        let Obtaining {
            hold,
            alloc,
            request,
            lock,
        } = self;
        let mut request = request;
        let hold = match hold {
            Some(hold) => {
                if !hold.lock().is_waiting(&request) {
                    if let Some(output) = hold.lock().attempt(hold.rt(), &mut request) {
                        return Ok((hold, output));
                    }
                }
                Some(hold)
            }
            None => None,
        };
        Err(Obtaining {
            hold,
            alloc,
            request,
            lock,
        })
    }

    /// Blocks the thread until the request is granted, as [`wait`](Obtaining::wait) does, but makes no attempt at once.
    #[inline(always)]
    pub fn wait_longer(self) -> Result<(H, L::Output), LockError>
        ensures obtained { IfOk result (λ got. Obtained (L.rules (H.held got.0)) (L.trying (H.held got.0)) got.1) }
    {
        let Obtaining {
            hold,
            alloc,
            request,
            lock: _,
        } = self;
        let Some(hold) = hold else {
            return Err(LockError::Finished);
        };
        if hold.lock().is_waiting(&request) {
            return wait_in_queue(hold, alloc, request);
        }
        // A request that is in no queue has nothing to lose by a new request. Were this request passed by a pointer, a thread
        // that gets its output at once would clear a place for it.
        wait_anew(hold, alloc)
    }
}

impl<L: TakesAny<Q>, Q: Drop, H: Hold<L> + Drop> Obtaining<L, Q, H> {
    /// Takes a wait that is in no queue apart, for an attempt that takes the hold by value, and returns the hold and the allocator.
    ///
    /// An error is the wait itself: it has a place in a queue, or is over. Does nothing else.
    #[inline(always)]
    pub fn begin(self) -> Result<(H, Global), Self>
        ensures begun { IfOk result (λ got. self.hold ≡ Some got.0) }
        ensures kept { IfErr result (λ rest. rest.hold ≡ self.hold) }
    {
        let Obtaining {
            hold,
            alloc,
            request,
            lock,
        } = self;
        let hold = match hold {
            Some(hold) => {
                if !hold.lock().is_waiting(&request) {
                    return Ok((hold, alloc));
                }
                Some(hold)
            }
            None => None,
        };
        Err(Obtaining {
            hold,
            alloc,
            request,
            lock,
        })
    }

    /// Takes the hold out of a wait that is in no queue, for an attempt that takes the hold by value, and returns the hold.
    ///
    /// Returns `None` if the wait has a place in a queue, or is over; the wait is as it was then. A caller whose attempt got
    /// nothing puts the hold back.
    pub fn take_hold(&mut self) -> Option<H>
        ensures taken { IfSome result (λ hold. (self.old.hold ≡ Some hold) × (self.new.hold ≡ None)) }
        ensures kept { result ≡ None → self.new.hold ≡ self.old.hold }
    {
        let hold = self.hold.take()?;
        if hold.lock().is_waiting(&self.request) {
            self.hold = Some(hold);
            return None;
        }
        Some(hold)
    }
}

impl<L: TakesAny<Q, Refusal = LockError>, Q: Drop, H: Hold<L> + Drop> Obtaining<L, Q, H> {
    /// Blocks the thread until the request is granted or the timeout has passed, and returns the hold and the output, or `None`.
    ///
    /// With a timeout of zero the call only attempts: it enters no queue and allocates nothing. After `None` or an error the
    /// request is in no queue; the errors are those of [`wait`](Obtaining::wait).
    pub fn wait_timeout(self, timeout: Duration) -> Result<Option<(H, L::Output)>, LockError>
        ensures obtained { IfOk result (λ answer.
            IfSome answer (λ got. Obtained (L.rules (H.held got.0)) (L.trying (H.held got.0)) got.1)) }
    {
        let limit = match &self.hold {
            Some(hold) => Limit::after(hold.rt(), timeout),
            None => Limit::Past,
        };
        self.wait_until(limit)
    }

    /// Blocks the thread until the request is granted or this moment has passed, and returns the hold and the output, or `None`.
    ///
    /// With a moment that has passed already the call only attempts: it enters no queue and allocates nothing. After `None` or an
    /// error the request is in no queue; the errors are those of [`wait`](Obtaining::wait).
    pub fn wait_deadline(self, deadline: Instant) -> Result<Option<(H, L::Output)>, LockError>
        ensures obtained { IfOk result (λ answer.
            IfSome answer (λ got. Obtained (L.rules (H.held got.0)) (L.trying (H.held got.0)) got.1)) }
    {
        self.wait_until(Limit::At(deadline))
    }

    fn wait_until(self, limit: Limit) -> Result<Option<(H, L::Output)>, LockError>
        ensures obtained { IfOk result (λ answer.
            IfSome answer (λ got. Obtained (L.rules (H.held got.0)) (L.trying (H.held got.0)) got.1)) }
    {
        let Obtaining {
            hold,
            alloc,
            request,
            lock: _,
        } = self;
        let Some(hold) = hold else {
            return Err(LockError::Finished);
        };
        let mut request = request;
        match obtain(hold.lock(), hold.rt(), alloc, &mut request, limit)? {
            Some(output) => Ok(Some((hold, output))),
            None => Ok(None),
        }
    }

    /// Attempts the request, and registers the task that polls if the request waits on.
    ///
    /// Returns the hold and the output, or an error if the request can't wait. After an output or an error each further poll
    /// returns [`LockError::Finished`], because the wait is over. May block until the lock is free.
    pub fn poll(&mut self, cx: &mut Context<'_>) -> Poll<Result<(H, L::Output), LockError>>
        ensures obtained { IfReady result
            (λ answer. IfOk answer (λ got. Obtained (L.rules (H.held got.0)) (L.trying (H.held got.0)) got.1)) }
        ensures finished { self.old.hold ≡ None → result ≡ Ready (Err Finished) }
        ensures ends { IfReady result (λ _. self.new.hold ≡ None) }
        ensures registered { OnPending result
            (Covers cx.new (λ s. IsSomeAnd self.new.hold (λ hold. s ≡ L.source (H.held hold)))) }
        ensures kept { Keeps cx.old cx.new }
    {
        let Some(hold) = self.hold.take() else {
            return Poll::Ready(Err(LockError::Finished));
        };
        match poll_in(hold.lock(), hold.rt(), &mut self.request, cx) {
            Poll::Ready(Ok(output)) => Poll::Ready(Ok((hold, output))),
            Poll::Ready(Err(error)) => Poll::Ready(Err(error)),
            Poll::Pending => {
                self.hold = Some(hold);
                Poll::Pending
            }
        }
    }
}

// Waits with a new request.
#[cold]
#[inline(never)]
fn wait_anew<L: TakesAny<Q, Refusal = LockError>, Q: Default + Drop, H: Hold<L> + Drop>(
    hold: H,
    alloc: Global,
) -> Result<(H, L::Output), LockError>
    ensures obtained { IfOk result (λ got. Obtained (L.rules (H.held got.0)) (L.trying (H.held got.0)) got.1) }
{
    wait_in_queue(hold, alloc, Q::default())
}

// Makes a few attempts with pauses between, if the request is in no queue, and then waits in the queue.
#[cold]
#[inline(never)]
fn wait_in_queue<L: TakesAny<Q, Refusal = LockError>, Q: Drop, H: Hold<L> + Drop>(
    hold: H,
    alloc: Global,
    request: Q,
) -> Result<(H, L::Output), LockError>
    ensures obtained { IfOk result (λ got. Obtained (L.rules (H.held got.0)) (L.trying (H.held got.0)) got.1) }
{
    let mut request = request;
    match try_then_wait(hold.lock(), hold.rt(), alloc, &mut request, Limit::Never)? {
        Some(output) => Ok((hold, output)),
        None => unreachable!(),
    }
}

impl<L: TakesAny<Q>, Q: Drop, H: Hold<L> + Drop> Drop for Obtaining<L, Q, H> {
    fn drop(self) {
        let Obtaining {
            hold,
            alloc: _,
            request,
            lock: _,
        } = self;
        let mut request = request;
        if let Some(hold) = hold {
            hold.lock().give_up(hold.rt(), &mut request);
        }
    }
}
