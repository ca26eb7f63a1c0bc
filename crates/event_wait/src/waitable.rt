//! What a wait asks of a lock.
ghost use Rattle.std.specs.Prelude.{◌≡◌, ℕ, Option, None, IfSome, IfErr, IfOk};
ghost use Rattle.event_wait.specs.Attempted.{Attempts, IfRefused, OnDone, OnUndone};
ghost use Rattle.event_wait.specs.Rounds.{Rules, Trying};

use crate::lock::{Task, WakerSource};
use crate::request::Attempted;
use event_queue::TaskExchange;
use std::sync::Wait;

/// A lock of which a request is made, each attempt as one step under the lock.
///
/// [`Lock`](crate::Lock) is one for each [`Request`](crate::Request) of its state. [`wait`](crate::wait) and
/// [`poll_in`](crate::poll_in) serve any such lock. Each step wakes the tasks that it notifies. A contract knows an
/// implementation by its [`Rules`](../specs/Rounds.antt): which requests fit, what an attempt does that succeeds, that gets
/// nothing or that is refused, and what leaving at the limit does.
pub trait Waitable<Q> {
    /// What an attempt gives the request.
    type Output;

    /// Why a request can't wait.
    type Refusal;

    // What the lock says of requests that wait.
    ghost rules: { Self → Rules Q Self.Output Self.Refusal };

    // The number of the source at which tasks that wait are registered.
    ghost source: { Self → ℕ };

    /// Returns the source at which a task registers that polls a waiting request.
    fn waker_source(&self) -> &WakerSource
        ensures { result.now ≡ source self.now };

    /// Attempts to get the output, and has the request wait in its queue if there is nothing to get yet.
    ///
    /// A request that waits stores the task that `exchange` makes from `on`. Returns
    /// [`Attempted::Refused`](crate::Attempted::Refused) if the request can't wait; the rules of the lock say what that leaves.
    /// May block until the lock is free.
    fn attempt_or_wait<C, X: TaskExchange<Task, C>, R: Wait>(
        &self,
        rt: &R,
        request: &mut Q,
        exchange: &X,
        on: &mut C,
    ) -> Attempted<Self::Output, Self::Refusal>
        requires fits { (rules self.now).fits request.old }
        ensures fits { (rules self.now).fits request.new }
        ensures succeeded { OnDone result (λ output.
            (rules self.now).succeeds request.old output request.new) }
        ensures waited { OnUndone result ((rules self.now).waits request.old request.new) }
        ensures refused { IfRefused result (λ error.
            (rules self.now).refuses request.old error request.new) }
        ensures exchanged { Attempts (X.exchanged exchange.now) on.old result on.new };

    /// Has the request leave its queue at the limit of a wait, and returns what the request can still get, or `None`.
    ///
    /// An error leaves the request in its queue, as the rules of the lock say. May block until the lock is free.
    fn leave<R: Wait>(&self, rt: &R, request: &mut Q) -> Result<Option<Self::Output>, Self::Refusal>
        requires fits { (rules self.now).fits request.old }
        ensures fits { (rules self.now).fits request.new }
        ensures left { IfOk result (λ answer.
            (rules self.now).leaves request.old answer request.new) }
        ensures stayed { IfErr result (λ error.
            (rules self.now).stays request.old error request.new) };
}

/// A lock at which a request is attempted before it waits, as [`obtain`](crate::obtain) does.
///
/// [`Lock`](crate::Lock) is one for each [`Attempt`](crate::Attempt) at its state.
pub trait Obtainable<Q>: Waitable<Q> {
    /// The number of times that a thread pauses and tries again, after a first attempt got nothing, before it waits in the queue.
    ///
    /// Where others keep what is requested for a moment only, a try spares this thread a sleep, and the other thread the wake.
    /// Where waits are long, tries only cost time, so an implementation may set 0.
    const TRIES: u32 = 8;

    // What the lock says of mere attempts and of giving up.
    ghost trying: { Self → Trying Q Self.Output };

    /// Returns whether the request has a place in a queue.
    fn is_waiting(&self, request: &Q) -> bool;

    /// Attempts once to get the output, without waiting for it, and returns the output or `None`.
    ///
    /// The call leaves no queue, and need not look whether the request has a place there, so a caller looks first, by
    /// [`is_waiting`](Obtainable::is_waiting). May block until the lock is free.
    fn attempt<R: Wait>(&self, rt: &R, request: &mut Q) -> Option<Self::Output>
        requires fits { (Self.rules self.now).fits request.old }
        ensures fits { (Self.rules self.now).fits request.new }
        ensures gave { IfSome result (λ output.
            (trying self.now).gives request.old output request.new) }
        ensures missed { result ≡ None → (trying self.now).misses request.old request.new };

    /// Has the request leave its queue, if it has a place there.
    ///
    /// What the request was notified of is passed on in the same step. May block until the lock is free.
    fn give_up<R: Wait>(&self, rt: &R, request: &mut Q)
        requires fits { (Self.rules self.now).fits request.old }
        ensures fits { (Self.rules self.now).fits request.new }
        ensures gave_up { (trying self.now).gives_up request.old request.new };
}

/// A lock of which any request of this type may be made, whatever the request knows.
pub trait TakesAny<Q>: Obtainable<Q> {
    // Each request fits.
    ghost all_fit: { (lock : Self) → (request : Q) → (Self.rules lock).fits request };
}
