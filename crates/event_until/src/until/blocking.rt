//! The loop of a thread.
ghost use Rattle.std.specs.Prelude.{◌≡◌, IfOk, IfSome, IfNone, IsSome, OnErr};
ghost use Rattle.event_until.specs.Attempts.{SomeFail, Succeeded, FailsAtLeast};

use super::turn::{Turn, listen_and_attempt};
use crate::attempt::Attempt;
use crate::error::UntilError;
use event_listener::{Event, Limit, Listener};
use std::alloc::Global;
use std::sync::Wait;
use std::time::Clock;

/// Goes on after an attempt that failed: listens and attempts, waits, attempts, and begins anew.
///
/// All waits have the same limit. Once that has passed, one last attempt is made. The function is never inlined, so that an
/// attempt that succeeds at once pays for no listener.
#[inline(never)]
pub(super) fn attempt_again<A: Attempt, R: Wait + Clock + Clone>(
    attempt: &mut A,
    rt: &R,
    alloc: Global,
    event: &Event<()>,
    limit: Limit,
) -> Result<Option<A::Output>, UntilError>
    ensures succeeded { Succeeded A.fails A.succeeds attempt.old result attempt.new }
    ensures timed_out { IfOk result (λ answer.
        IfNone answer (FailsAtLeast A.fails 2 attempt.old attempt.new)) }
    ensures failed { OnErr result (SomeFail A.fails attempt.old attempt.new) }
    ensures unlimited { limit ≡ Limit.Never → IfOk result IsSome }
{
    for _ in rt.forever() {
        let listener = match listen_and_attempt(attempt, rt, alloc, event)? {
            Turn::Succeeded(output) => return Ok(Some(output)),
            Turn::Listens(listener) => listener,
        };
        if listener.wait_until(limit)?.is_none() {
            return Ok(attempt_at_limit(attempt));
        }
        if let Some(output) = attempt.attempt() {
            return Ok(Some(output));
        }
    }
    unreachable!()
}

// Makes the last attempt, once the listener has left the queue: a later notification does not reach the listener.
fn attempt_at_limit<A: Attempt>(attempt: &mut A) -> Option<A::Output>
    ensures succeeded { IfSome result (λ output. A.succeeds attempt.old output attempt.new) }
    ensures failed { IfNone result (A.fails attempt.old attempt.new) }
{
    attempt.attempt()
}
