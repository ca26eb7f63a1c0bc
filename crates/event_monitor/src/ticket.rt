//! The place in a queue of a waiter that wants something of a state.
ghost use Rattle.std.specs.Prelude.{◌≡◌, ⊤, IsSome};
ghost use Rattle.event_queue.specs.declared.key.Key.{Key};
ghost use Rattle.event_monitor.specs.Queued.{found_by, waits_by};
ghost use Rattle.event_wait.specs.Attempted.{Attempts, LeavesBy};

use event_queue::{Key, ListenError, RegisterResult, TaskExchange, WakeSink};
use event_wait::{Attempt, Attempted, Request, Task};
use std::marker::{Model, PhantomData};

/// A state that hands a `G` to newcomers, or to waiters in its queue.
pub trait Handoff<G> {
    // What a waiter that withdraws does to the state.
    ghost withdraws: { Self → Key → Self → Type 0 } = { λ _ _ _. ⊤ };

    /// Hands a `G` to a newcomer, if nobody is due before.
    fn try_grant<K: WakeSink<Task>>(&mut self, sink: &mut K) -> Option<G>;

    /// Hands a `G` to a newcomer, or to the waiter with this key, which then is in the queue no more. Else has the caller wait,
    /// with the task that the exchange makes.
    fn grant_or_queue<C, X: TaskExchange<Task, C>, K: WakeSink<Task>>(
        &mut self,
        key: Option<Key>,
        exchange: &X,
        on: &mut C,
        sink: &mut K,
    ) -> Attempted<G, ListenError>
        ensures exchanged { Attempts (X.exchanged exchange.now) on.old result on.new }
        ensures absent { result ≡ Attempted.Absent → IsSome key };

    /// Takes this waiter out of the queue, and returns what it can have.
    fn leave<K: WakeSink<Task>>(&mut self, key: Key, sink: &mut K) -> Option<G>;

    /// Takes this waiter out of the queue, and hands on what it can have.
    fn cancel<K: WakeSink<Task>>(&mut self, key: Key, sink: &mut K)
        ensures { withdraws self.old key self.new };
}

/// The request of a caller that wants a `G` of a state: its place in the queue of the state, if it has one.
pub struct Ticket<G> {
    key: Option<Key>,
    wanted: PhantomData<G>,
}

impl<G> Model for Ticket<G> {
    ghost Value = { Unit {0} };

    ghost view = { λ _. tt };
}

impl<G> Ticket<G> {
    #[inline(always)]
    pub(crate) fn new() -> Self {
        Ticket {
            key: None,
            wanted: PhantomData,
        }
    }
}

impl<G> Drop for Ticket<G> {
    fn drop(self) {
        let Ticket { key: _, wanted: _ } = self;
    }
}

impl<G, S: Handoff<G>> Request<S> for Ticket<G> {
    type Output = G;

    type Refusal = ListenError;

    ghost succeeds = { λ _ _ _. ⊤ };

    ghost leaves = { LeavesBy (λ _ _ _. ⊤) };

    fn attempt_or_wait<C, X: TaskExchange<Task, C>, K: WakeSink<Task>>(
        &mut self,
        state: &mut S,
        exchange: &X,
        on: &mut C,
        sink: &mut K,
    ) -> Attempted<G, ListenError> {
        let attempted = state.grant_or_queue(self.key, exchange, on, sink);
        self.key = attempted.key();
        attempted
    }

    fn leave<K: WakeSink<Task>>(
        &mut self,
        state: &mut S,
        sink: &mut K,
    ) -> Result<Option<G>, ListenError> {
        match self.key.take() {
            Some(key) => Ok(state.leave(key, sink)),
            None => Ok(state.try_grant(sink)),
        }
    }
}

impl<G, S: Handoff<G>> Attempt<S> for Ticket<G> {
    // A caller that waits here mostly waits long: in a few pauses it would see nothing.
    const TRIES: u32 = 0;

    fn is_waiting(&self) -> bool {
        self.key.is_some()
    }

    #[inline(always)]
    fn attempt<K: WakeSink<Task>>(&mut self, state: &mut S, sink: &mut K) -> Option<G> {
        state.try_grant(sink)
    }

    fn give_up<K: WakeSink<Task>>(&mut self, state: &mut S, sink: &mut K) {
        if let Some(key) = self.key.take() {
            state.cancel(key, sink);
        }
    }
}

/// Returns by which key the caller waits, or why it could not wait.
pub(crate) fn waiting<G>(waits: Result<Key, ListenError>) -> Attempted<G, ListenError>
    ensures { result ≡ waits_by waits }
{
    match waits {
        Ok(key) => Attempted::Waits(key),
        Err(error) => Attempted::Refused(error),
    }
}

/// Returns whether this waiter was notified, waits still, or was never in the queue.
pub(crate) fn found<G>(key: Key, looked: RegisterResult<G>) -> Attempted<G, ListenError>
    ensures { result ≡ found_by key looked }
{
    match looked {
        RegisterResult::Notified(grant) => Attempted::Done(grant),
        RegisterResult::Registered => Attempted::Waits(key),
        RegisterResult::NeverInserted => Attempted::Absent,
    }
}
