//! Attempts while a listener is in the queue, and the loop of a task.
ghost use Rattle.std.specs.Prelude.{◌≡◌, ◌⊎◌, None, IfOk, IfSome, IsSome, IsSomeAnd, OnErr};
ghost use Rattle.futures.specs.Poll.{IfReady, OnPending};
ghost use Rattle.futures.specs.Task.{Covers, Keeps};
ghost use Rattle.event_until.specs.Attempts.{SomeFail, FailsAtLeast, SucceedsAfter};
ghost use Rattle.event_until.specs.Trying.{standing_of};
ghost use Rattle.event_until.specs.Turn.{Attempted, IfListens};

use crate::attempt::Attempt;
use crate::error::UntilError;
use event_listener::{Event, ListenError, Listener, StackListener, StackSlot};
use futures::task::{Context, Poll};
use std::alloc::Global;
use std::sync::Wait;
use std::time::Clock;

/// The outcome of an attempt that was made while a listener was in the queue.
pub(crate) enum Turn<T, L> {
    /// The attempt succeeded. The listener has been dropped.
    Succeeded(T),
    /// The attempt failed, and this is the listener.
    Listens(L),
}

/// Listens, and attempts once the listener is in the queue, because a notification made before that did not reach the
/// listener.
#[inline(always)]
pub(super) fn listen_and_attempt<'a, A, R>(
    attempt: &mut A,
    rt: &R,
    alloc: Global,
    event: &'a Event<()>,
) -> Result<Turn<A::Output, StackListener<'a, (), R>>, ListenError>
where
    A: Attempt,
    R: Wait + Clock + Clone,
    ensures attempted { IfOk result (λ turn.
        Attempted A.fails A.succeeds attempt.old turn attempt.new) }
    ensures refused { OnErr result (attempt.new ≡ attempt.old) }
    ensures event { IfOk result (λ turn.
        IfListens turn (λ listener. listener.standing.event_number ≡ event.now)) }
{
    let slot = StackSlot::new(rt, alloc, event)?;
    let listener = slot.listen(rt)?;
    match attempt.attempt() {
        // The listener is dropped here, which propagates its notification if it was notified.
        Some(output) => Ok(Turn::Succeeded(output)),
        None => Ok(Turn::Listens(listener)),
    }
}

/// Attempts, listens and attempts again until an attempt succeeds, or until a listener has registered the task that polls.
///
/// A listener that an earlier poll left is polled first, and keeps its place in the queue. A listener is polled where it is
/// left, because each move costs a copy. An error may leave a finished listener.
#[inline(always)]
pub(super) fn poll_turns<'a, A, R>(
    attempt: &mut A,
    left: &mut Option<StackListener<'a, (), R>>,
    rt: &R,
    alloc: Global,
    event: &'a Event<()>,
    cx: &mut Context<'_>,
) -> Result<Poll<A::Output>, UntilError>
where
    A: Attempt,
    R: Wait + Clock + Clone,
    ensures ready { IfOk result (λ polled.
        IfReady polled
        (λ output. SucceedsAfter A.fails A.succeeds attempt.old output attempt.new)) }
    ensures pending { IfOk result (λ polled.
        OnPending polled (SomeFail A.fails attempt.old attempt.new)) }
    ensures failed { OnErr result (SomeFail A.fails attempt.old attempt.new) }
    ensures attempted { left.old ≡ None
        → IfOk result (λ polled.
        OnPending polled (FailsAtLeast A.fails 2 attempt.old attempt.new)) }
    ensures stays { IfOk result (λ polled.
        OnPending polled (((attempt.new ≡ attempt.old)
        × (standing_of left.new ≡ standing_of left.old))
        ⊎ FailsAtLeast A.fails 2 attempt.old attempt.new)) }
    ensures listens { IfOk result (λ polled. OnPending polled (IsSome left.new)) }
    ensures registered { IfOk result (λ polled.
        OnPending polled
        (IsSomeAnd left.new (λ listener. Covers cx.new (λ s. s ≡ listener.standing.source)))) }
    ensures unlistened { IfOk result (λ polled. IfReady polled (λ _. left.new ≡ None)) }
    ensures event { IfSome left.old (λ listener. listener.standing.event_number ≡ event.now)
        → IfSome left.new (λ listener. listener.standing.event_number ≡ event.now) }
    ensures kept { Keeps cx.old cx.new }
{
    for _ in rt.forever() {
        if let Some(listener) = left {
            if listener.poll_in(cx)?.is_pending() {
                return Ok(Poll::Pending);
            }
            *left = None;
        }
        if let Some(output) = attempt.attempt() {
            return Ok(Poll::Ready(output));
        }
        match listen_and_attempt(attempt, rt, alloc, event)? {
            Turn::Succeeded(output) => return Ok(Poll::Ready(output)),
            Turn::Listens(listener) => *left = Some(listener),
        }
    }
    unreachable!()
}
