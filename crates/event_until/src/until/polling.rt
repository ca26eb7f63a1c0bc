//! The loop of a task.
ghost use Rattle.std.specs.Prelude.{◌≡◌, ◌⊎◌, None, IsSomeAnd};
ghost use Rattle.futures.specs.Poll.{IfReady, OnPending};
ghost use Rattle.futures.specs.Task.{Covers, Keeps};
ghost use Rattle.event_until.specs.Attempts.{SomeFail, FailsAtLeast, SucceedsOrFails};

use super::Until;
use super::turn::poll_turns;
use crate::attempt::Attempt;
use crate::error::UntilError;
use futures::Future;
use futures::task::{Context, Poll};
use std::sync::Wait;
use std::time::Clock;

impl<'a, A: Attempt, R: Wait + Clock + Clone> Until<'a, A, R> {
    /// Attempts until an attempt succeeds, and returns its output, or registers the task that polls at the event and returns
    /// `Pending`.
    ///
    /// A pending poll leaves a listener in the queue. The next poll attempts only if that listener was notified, so a task
    /// that is polled for another reason takes nothing away from the waiters before it in the queue.
    ///
    /// With an output or an error, no listener is left. [`UntilError`] says which errors there are. Takes memory if listening
    /// does. May block until the lock of the event is free.
    #[must_use = "it may be the output"]
    pub fn poll_in(&mut self, cx: &mut Context<'_>) -> Poll<Result<A::Output, UntilError>>
        ensures ready { IfReady result (λ output.
            SucceedsOrFails A.fails A.succeeds self.old.attempt output self.new.attempt) }
        ensures pending { OnPending result (SomeFail A.fails self.old.attempt self.new.attempt) }

        // If no listener was left, a pending poll has attempted twice at least. No clause says that it listened in between.
        ensures attempted { self.old.listener ≡ None
            → OnPending result (FailsAtLeast A.fails 2 self.old.attempt self.new.attempt) }

        // A pending poll leaves all as it was, with the listener in its place, or has attempted twice at least.
        ensures stays { OnPending result (((self.new.attempt ≡ self.old.attempt)
            × (self.new.listener ≡ self.old.listener))
            ⊎ FailsAtLeast A.fails 2 self.old.attempt self.new.attempt) }

        // A pending poll has left a listener of the event, and registered at its source.
        ensures listens { OnPending result
            (IsSomeAnd self.new.listener
            (λ listener. listener.event_number ≡ self.new.event_number)) }
        ensures registered { OnPending result
            (IsSomeAnd self.new.listener (λ listener. Covers cx.new (λ s. s ≡ listener.source))) }
        ensures unlistened { IfReady result (λ _. self.new.listener ≡ None) }
        ensures event { self.new.event_number ≡ self.old.event_number }
        ensures kept { Keeps cx.old cx.new }
    {
        let polled = poll_turns(
            &mut self.attempt,
            &mut self.listener,
            self.rt,
            self.alloc,
            self.event,
            cx,
        );
        match polled {
            Ok(Poll::Ready(output)) => Poll::Ready(Ok(output)),
            Ok(Poll::Pending) => Poll::Pending,
            Err(error) => {
                self.listener = None;
                Poll::Ready(Err(error))
            }
        }
    }
}

/// Gives the output of the first attempt that succeeds, or the first error. [`Until::poll_in`] says what each poll does.
impl<'a, A: Attempt + Drop, R: Wait + Clock + Clone> Future for Until<'a, A, R> {
    type Output = Result<A::Output, UntilError>;

    ghost needs = { λ until s. IsSomeAnd until.listener (λ listener. s ≡ listener.source) };

    ghost gives = { λ until output. (after : A)
        × SucceedsOrFails A.fails A.succeeds until.attempt output after };

    fn poll(&mut self, cx: &mut Context<'_>) -> Poll<Result<A::Output, UntilError>> {
        self.poll_in(cx)
    }
}
