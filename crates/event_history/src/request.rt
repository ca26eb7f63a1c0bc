//! What a waiter does with the state under a lock.
ghost use Rattle.std.specs.Prelude.{◌≡◌, ◌↔◌, List, [], Option, Result, None, IfSome, IfOk, IsTrue, OnErr};
ghost use Rattle.event_wait.specs.declared.request.Attempted.{Attempted};
ghost use Rattle.event_wait.specs.Attempted.{Attempts, OnDone, OnRefused, OnUndone};
ghost use Rattle.event_history.specs.History.{KeepsTo};

use crate::history::Steps;
use event_queue::{TaskExchange, WakeSink};
use event_wait::{Attempted, Task};

/// What a waiter wants of the state under a lock, and its place in a queue there.
///
/// The waiter is a thread or a task. [`Lock::wait`](crate::Lock::wait) and [`Lock::poll_in`](crate::Lock::poll_in) make each
/// attempt under the lock, as one call of a hand. A contract knows an implementation by its ghost relations: what an attempt does
/// that succeeds, what an attempt does that gets nothing, what leaving at the limit does, which calls of the history both are, by
/// their answers, and which calls of its own hand a call of the request rests on.
pub trait Request<S: Steps> {
    /// What an attempt gives that succeeds.
    type Output;

    /// Why the request can't wait.
    type Refusal;

    // What an attempt that gives this output does.
    ghost succeeds: { Self → Self.Output → Self → Type 0 };

    // What an attempt does that gets nothing, after which the request waits on or can't wait. By default that changes nothing.
    ghost waits: { Self → Self → Type 0 } = { λ before after. after ≡ before };

    // What leaving at the limit does.
    ghost leaves: { Self → Option Self.Output → Self → Type 0 };

    // What is said of the calls of its own hand between two calls of the request: on which the request rests, or that these calls
    // left it the place in the queue that it has. By default nothing.
    ghost follows: { Self → List S.Call → Type 0 } = { λ _ _. Unit {0} };

    // What is said of the call that an attempt is, by its answer.
    ghost attempting: { Self → Attempted Self.Output Self.Refusal → S.Call → Type 0 };

    // What is said of the call that leaving at the limit is.
    ghost leaving: { Self → Result (Option Self.Output) Self.Refusal → S.Call → Type 0 };

    /// Attempts to get the output, and waits in the queue if there is nothing to get yet.
    ///
    /// A request that waits stores the task that `exchange` makes from `on`. Returns
    /// [`Attempted::Done`](event_wait::Attempted::Done) with the output, after which the request is in no queue,
    /// [`Attempted::Waits`](event_wait::Attempted::Waits) with the key of its place,
    /// [`Attempted::Absent`](event_wait::Attempted::Absent) if the request was in the queue no more and has to attempt again, or
    /// [`Attempted::Refused`](event_wait::Attempted::Refused) if the request can't wait. The tasks that the attempt wakes go to
    /// `sink`.
    fn attempt_or_wait<C, X: TaskExchange<Task, C>, K: WakeSink<Task>>(
        &mut self,
        state: &mut S,
        exchange: &X,
        on: &mut C,
        sink: &mut K,
    ) -> Attempted<Self::Output, Self::Refusal>
        ensures goes { (call : S.Call) × attempting self.old result call
            × KeepsTo S.rests (follows self.old) call (follows self.new)
            × S.goes state.old call state.new }
        ensures succeeded { OnDone result (λ output. succeeds self.old output self.new) }
        ensures waited { OnUndone result (waits self.old self.new) }
        ensures kept { OnRefused result (waits self.old self.new) }
        ensures exchanged { Attempts (X.exchanged exchange.now) on.old result on.new };

    /// Leaves the queue at the limit of a wait, and returns what the request can still get, or `None`.
    ///
    /// An error leaves the request where it is. The tasks that the call wakes go to `sink`.
    fn leave<K: WakeSink<Task>>(
        &mut self,
        state: &mut S,
        sink: &mut K,
    ) -> Result<Option<Self::Output>, Self::Refusal>
        ensures goes { (call : S.Call) × leaving self.old result call
            × KeepsTo S.rests (follows self.old) call (follows self.new)
            × S.goes state.old call state.new }
        ensures left { IfOk result (λ answer. leaves self.old answer self.new) }
        ensures kept { OnErr result (self.new ≡ self.old) };
}

/// A request that is attempted before it waits, as [`Lock::obtain`](crate::Lock::obtain) does.
pub trait Attempt<S: Steps>: Request<S> {
    /// The number of times that a thread pauses and tries again, after a first attempt got nothing, before it waits in the queue.
    ///
    /// Where others keep what is requested for a moment only, a try spares this thread a sleep, and the other thread the wake.
    /// Where waits are long, tries only cost time, so an implementation may set 0.
    const TRIES: u32 = 8;

    // Whether the request has a place in a queue.
    ghost has_place: { Self → Type 0 };

    // What is said of the call that a mere attempt is, by its answer.
    ghost trying: { Self → Option Self.Output → S.Call → Type 0 };

    // What is said of the call that giving up is.
    ghost giving_up: { Self → S.Call → Type 0 };

    /// Returns whether the request has a place in a queue.
    fn is_waiting(&self) -> bool
        ensures { IsTrue result ↔ has_place self.now };

    /// Attempts once to get the output, without waiting for it, and returns the output or `None`.
    ///
    /// The call neither looks whether the request has a place in a queue nor leaves a queue. So what [`Request`] says of the
    /// calls of its hand need hold afterwards only if the request has no place. A `None` leaves the request as it was. The tasks
    /// that the attempt wakes go to `sink`.
    fn attempt<K: WakeSink<Task>>(&mut self, state: &mut S, sink: &mut K) -> Option<Self::Output>
        ensures goes { (call : S.Call) × trying self.old result call
            × KeepsTo S.rests (Self.follows self.old) call
            (λ mine. ¬ has_place self.new → Self.follows self.new mine)
            × S.goes state.old call state.new }
        ensures place { has_place self.new ↔ has_place self.old }
        ensures succeeded { IfSome result (λ output. Self.succeeds self.old output self.new) }
        ensures kept { result ≡ None → self.new ≡ self.old };

    /// Leaves the queue, if the request has a place there, and passes on what it was notified of.
    ///
    /// The tasks that the call wakes go to `sink`.
    fn give_up<K: WakeSink<Task>>(&mut self, state: &mut S, sink: &mut K)
        ensures goes { (call : S.Call) × giving_up self.old call
            × KeepsTo S.rests (Self.follows self.old) call (Self.follows self.new)
            × S.goes state.old call state.new }
        ensures kept { Self.waits self.old self.new }
        ensures out { ¬ has_place self.new };
}
