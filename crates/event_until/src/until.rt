//! The loop that attempts and waits.
ghost use Rattle.std.specs.Prelude.{◌≡◌, None, IfOk, IfNone, IsSome, OnErr};
ghost use Rattle.event_until.specs.Attempts.{SucceedsAfter, Succeeded, FailsAtLeast};

mod blocking;
mod polling;
mod turn;

use crate::attempt::Attempt;
use crate::error::UntilError;
use blocking::attempt_again;
use event_listener::{Event, Limit, StackListener};
use std::alloc::Global;
use std::marker::Model;
use std::sync::Wait;
use std::time::{Clock, Duration, Instant};
pub(crate) use turn::Turn;

/// A loop that attempts until an attempt succeeds, and between attempts waits until an event is notified.
///
/// A thread blocks on the loop by [`wait`](Until::wait), [`wait_timeout`](Until::wait_timeout) or
/// [`wait_deadline`](Until::wait_deadline). A task awaits the loop, which is a future, or polls it by
/// [`poll_in`](Until::poll_in).
///
/// Each round attempts, listens, and attempts again, because a notification that was made before the listener was in the
/// queue did not reach the listener. Then the round waits until the listener is notified, and the next round begins.
///
/// If the second attempt of a round succeeds, its listener is dropped. If the `Until` is dropped, so is a listener that a
/// pending poll left in the queue. Either drop propagates the listener's notification if the listener was notified, so that
/// another listener may get it.
///
/// Each round takes memory if listening does, and a wait of a thread also takes memory for what the thread parks on. Each
/// round may block until the lock of the event is free. An `Until` holds no lock while an attempt is made.
///
/// An `Until` may be used again after an output or an error, by any of its calls. A contract sees an `Until` as the state of
/// its attempts, the number of its event, and the standing of the listener that a pending poll left.
///
/// Here a call that waits for a gate returns an `Until`, so that its caller may block on it or await it:
///
/// ```rust
/// Until::new(rt, alloc, &self.opened, Pass { gate: self })
/// ```
#[must_use = "nothing is attempted before it is waited or polled"]
#[derive(Drop)]
pub struct Until<'a, A, R: Wait + Clock + Clone> {
    rt: &'a R,
    alloc: Global,
    event: &'a Event<()>,
    attempt: A,
    // The listener that a pending poll left in the queue.
    listener: Option<StackListener<'a, (), R>>,
}

impl<'a, A, R: Wait + Clock + Clone> Model for Until<'a, A, R> {
    ghost use Rattle.std.specs.Prelude.{◌≡◌, IfSome};
    ghost use Rattle.event_until.specs.Trying.{Trying, standing_of};

    ghost Value = { Trying A };

    ghost view = { λ until. record {
      attempt = until.attempt;
      event_number = until.event.now;
      listener = standing_of until.listener;
    } };

    ghost invariant = { λ until. IfSome until.listener
        (λ listener. listener.standing.event_number ≡ until.event.now) };
}

impl<'a, A: Attempt, R: Wait + Clock + Clone> Until<'a, A, R> {
    /// Makes a loop over this state of attempts, which waits for this event. No attempt is made before the loop is waited on
    /// or polled.
    ///
    /// Takes no memory and never blocks.
    ///
    /// ```rust
    /// let take = Take {
    ///     baton,
    ///     rt,
    ///     failed: 0,
    /// };
    /// Until::new(rt, alloc, &baton.freed, take)
    /// ```
    pub fn new(rt: &'a R, alloc: Global, event: &'a Event<()>, attempt: A) -> Self
        ensures { result ≡ record { attempt = attempt; event_number = event.now; listener = None } }
    {
        Until {
            rt,
            alloc,
            event,
            attempt,
            listener: None,
        }
    }

    /// Blocks the calling thread until an attempt succeeds, and returns its output.
    ///
    /// A listener that a pending poll left is dropped first. If the first attempt succeeds, the call takes no memory of its
    /// own; else the thread listens and waits, as [`Until`] says. [`UntilError`] says which errors there are and what they
    /// leave.
    ///
    /// Here `newer` returns an `Until`, whose output is a value that is newer than the caller has seen:
    ///
    /// ```rust
    /// self.newer(rt, alloc, seen).wait()
    /// ```
    #[inline(always)]
    pub fn wait(&mut self) -> Result<A::Output, UntilError>
        ensures succeeded { IfOk result (λ output.
            SucceedsAfter A.fails A.succeeds self.old.attempt output self.new.attempt) }
        ensures failed { OnErr result (FailsAtLeast A.fails 1 self.old.attempt self.new.attempt) }
        ensures event { self.new.event_number ≡ self.old.event_number }
        ensures unlistened { self.new.listener ≡ None }
    {
        match self.wait_until(Limit::Never)? {
            Some(output) => Ok(output),
            None => unreachable!(),
        }
    }

    /// Blocks the calling thread until an attempt succeeds, and returns its output, or `None` if `timeout` has passed.
    ///
    /// At the limit one more attempt is made, because what it attempts may have become possible meanwhile, so `None` is
    /// returned only after three failed attempts at least. The time begins with the call, as [`Limit::after`] says. A
    /// listener that a pending poll left is dropped first. [`UntilError`] says which errors there are and what they leave.
    pub fn wait_timeout(&mut self, timeout: Duration) -> Result<Option<A::Output>, UntilError>
        ensures succeeded { Succeeded A.fails A.succeeds self.old.attempt result self.new.attempt }
        ensures timed_out { IfOk result (λ answer.
            IfNone answer (FailsAtLeast A.fails 3 self.old.attempt self.new.attempt)) }
        ensures failed { OnErr result (FailsAtLeast A.fails 1 self.old.attempt self.new.attempt) }
        ensures event { self.new.event_number ≡ self.old.event_number }
        ensures unlistened { self.new.listener ≡ None }
    {
        let limit = Limit::after(self.rt, timeout);
        self.wait_until(limit)
    }

    /// Blocks the calling thread until an attempt succeeds, and returns its output, or `None` if the runtime's clock shows
    /// `deadline`.
    ///
    /// At the deadline one more attempt is made, because what it attempts may have become possible meanwhile, so `None` is
    /// returned only after three failed attempts at least. A clock that can't be read counts as one that shows the deadline.
    /// A listener that a pending poll left is dropped first. [`UntilError`] says which errors there are and what they leave.
    pub fn wait_deadline(&mut self, deadline: Instant) -> Result<Option<A::Output>, UntilError>
        ensures succeeded { Succeeded A.fails A.succeeds self.old.attempt result self.new.attempt }
        ensures timed_out { IfOk result (λ answer.
            IfNone answer (FailsAtLeast A.fails 3 self.old.attempt self.new.attempt)) }
        ensures failed { OnErr result (FailsAtLeast A.fails 1 self.old.attempt self.new.attempt) }
        ensures event { self.new.event_number ≡ self.old.event_number }
        ensures unlistened { self.new.listener ≡ None }
    {
        self.wait_until(Limit::At(deadline))
    }

    /// Ends the loop, and returns the state of its attempts. A listener that a pending poll left is dropped.
    ///
    /// Takes no memory. May block until the lock of the event is free, if there is such a listener.
    pub fn into_attempt(self) -> A
        ensures { result ≡ self.entry.attempt }
    {
        let Until {
            rt: _,
            alloc: _,
            event: _,
            attempt,
            listener,
        } = self;
        drop(listener);
        attempt
    }

    // Attempts until an attempt succeeds, and after each two failed attempts waits, until the limit at most. Then it makes
    // one more attempt.
    #[inline(always)]
    fn wait_until(&mut self, limit: Limit) -> Result<Option<A::Output>, UntilError>
        ensures succeeded { Succeeded A.fails A.succeeds self.old.attempt result self.new.attempt }
        ensures timed_out { IfOk result (λ answer.
            IfNone answer (FailsAtLeast A.fails 3 self.old.attempt self.new.attempt)) }
        ensures failed { OnErr result (FailsAtLeast A.fails 1 self.old.attempt self.new.attempt) }
        ensures unlimited { limit ≡ Limit.Never → IfOk result IsSome }
        ensures event { self.new.event_number ≡ self.old.event_number }
        ensures unlistened { self.new.listener ≡ None }
    {
        self.listener = None;
        if let Some(output) = self.attempt.attempt() {
            return Ok(Some(output));
        }
        attempt_again(&mut self.attempt, self.rt, self.alloc, self.event, limit)
    }
}
