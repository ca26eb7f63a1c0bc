//! What a waiter does with the state under a lock.
ghost use Rattle.std.specs.Prelude.{◌≡◌, Option, None, IfSome, IfOk, OnErr};
ghost use Rattle.event_wait.specs.Attempted.{Attempts, OnDone, OnRefused, OnUndone, key_of};

use crate::lock::Task;
use event_queue::{Key, TaskExchange, WakeSink};

/// What an attempt gave a request that waits if it has to.
pub enum Attempted<G, E> {
    /// The request has its output, and is in no queue.
    Done(G),
    /// The request waits in the queue by this key, with its task.
    Waits(Key),
    /// The request was in the queue no more, and has to attempt again.
    Absent,
    /// The request can't wait.
    Refused(E),
}

impl<G, E> Attempted<G, E> {
    /// Returns the key of a request that waits, or `None`.
    pub fn key(&self) -> Option<Key>
        ensures { result ≡ key_of self.now }
    {
        match self {
            Attempted::Waits(key) => Some(*key),
            Attempted::Done(_) => None,
            Attempted::Absent => None,
            Attempted::Refused(_) => None,
        }
    }
}

/// What a waiter wants of the state under a lock, and its place in a queue there.
///
/// The waiter is a thread or a task. A contract knows an implementation by its ghost relations: what an attempt does that
/// succeeds, what an attempt does after which the request waits on, and what leaving at the limit does.
pub trait Request<S> {
    /// What an attempt gives that succeeds.
    type Output;

    /// Why the request can't wait.
    type Refusal;

    // What an attempt that gives this output does.
    ghost succeeds: { Self → Self.Output → Self → Type 0 };

    // What an attempt does after which the request waits on. By default that changes nothing.
    ghost waits: { Self → Self → Type 0 } = { λ before after. after ≡ before };

    // What leaving at the limit does, mostly `LeavesBy` one more attempt.
    ghost leaves: { Self → Option Self.Output → Self → Type 0 };

    /// Attempts to get the output, and waits in the queue if there is nothing to get yet.
    ///
    /// A request that waits stores the task that `exchange` makes from `on`. Returns [`Attempted::Refused`] if the request can't
    /// wait, and leaves the request as it was then. The tasks that the attempt wakes go to `sink`.
    fn attempt_or_wait<C, X: TaskExchange<Task, C>, K: WakeSink<Task>>(
        &mut self,
        state: &mut S,
        exchange: &X,
        on: &mut C,
        sink: &mut K,
    ) -> Attempted<Self::Output, Self::Refusal>
        ensures succeeded { OnDone result (λ output. succeeds self.old output self.new) }
        ensures waited { OnUndone result (waits self.old self.new) }
        ensures kept { OnRefused result (self.new ≡ self.old) }
        ensures exchanged { Attempts (X.exchanged exchange.now) on.old result on.new };

    /// Leaves the queue at the limit of a wait, and returns what the request can still get, or `None`.
    ///
    /// An error leaves the request where it is. The tasks that the call wakes go to `sink`.
    fn leave<K: WakeSink<Task>>(
        &mut self,
        state: &mut S,
        sink: &mut K,
    ) -> Result<Option<Self::Output>, Self::Refusal>
        ensures left { IfOk result (λ answer. leaves self.old answer self.new) }
        ensures kept { OnErr result (self.new ≡ self.old) };
}

/// A request that is attempted before it waits, as [`obtain`](crate::obtain) does.
pub trait Attempt<S>: Request<S> {
    /// The number of times that a thread pauses and tries again, after a first attempt got nothing, before it waits in the queue.
    ///
    /// Where others keep what is requested for a moment only, a try spares this thread a sleep, and the other thread the wake.
    /// Where waits are long, tries only cost time, so an implementation may set 0.
    const TRIES: u32 = 8;

    /// Returns whether the request has a place in a queue.
    fn is_waiting(&self) -> bool;

    /// Attempts once to get the output, without waiting for it, and returns the output or `None`.
    ///
    /// The call neither looks whether the request has a place in a queue nor leaves a queue. A `None` leaves the request as it
    /// was. The tasks that the attempt wakes go to `sink`.
    fn attempt<K: WakeSink<Task>>(&mut self, state: &mut S, sink: &mut K) -> Option<Self::Output>
        ensures succeeded { IfSome result (λ output. Self.succeeds self.old output self.new) }
        ensures kept { result ≡ None → self.new ≡ self.old };

    /// Leaves the queue, if the request has a place there, and passes on what it was notified of.
    ///
    /// The tasks that the call wakes go to `sink`.
    fn give_up<K: WakeSink<Task>>(&mut self, state: &mut S, sink: &mut K)
        ensures { self.new ≡ self.old };
}
