//! A state under a lock.
ghost use Rattle.event_wait.specs.Rounds.{alike, of_any};

mod limit;
mod task;
pub(crate) mod wait;

pub use self::limit::Limit;
pub use self::task::{DeferredWake, StoreParker, Task, WakerSource};
use crate::request::{Attempt, Attempted, Request};
use crate::step;
use crate::waitable::{Obtainable, TakesAny, Waitable};
use event_queue::TaskExchange;
use std::marker::Model;
use std::sync::{Mutex, Wait};

/// A state under a lock, with the queues of the threads and tasks that wait for something of it.
///
/// A contract sees the number of the source at which waiting tasks are registered.
pub struct Lock<S> {
    state: Mutex<S>,
    source: WakerSource,
}

impl<S> Model for Lock<S> {
    ghost use Rattle.std.specs.Prelude.{ℕ};

    ghost Value = { ℕ };

    ghost view = { λ lock. lock.source };
}

impl<S> Lock<S> {
    /// Makes a lock round this state. The call neither allocates nor waits.
    pub fn of(state: S) -> Self {
        Lock {
            state: Mutex::new(state),
            source: WakerSource::new(),
        }
    }

    /// Returns the lock alone, for [`take_lock!`](crate::take_lock).
    #[doc(hidden)]
    #[inline(always)]
    pub fn mutex(&self) -> &Mutex<S> {
        &self.state
    }

    /// Returns the state, and ends the lock.
    pub fn into_state(self) -> S {
        let Lock { state, source } = self;
        drop(source);
        state.into_inner()
    }
}

impl<S, Q: Request<S>> Waitable<Q> for Lock<S> {
    type Output = Q::Output;

    type Refusal = Q::Refusal;

    ghost rules = { λ _. of_any Q.succeeds Q.waits Q.leaves };

    ghost source = { λ lock. lock };

    #[inline(always)]
    fn waker_source(&self) -> &WakerSource {
        &self.source
    }

    fn attempt_or_wait<C, X: TaskExchange<Task, C>, R: Wait>(
        &self,
        rt: &R,
        request: &mut Q,
        exchange: &X,
        on: &mut C,
    ) -> Attempted<Q::Output, Q::Refusal> {
        step!(self, rt, state, waking => request.attempt_or_wait(&mut *state, exchange, on, &mut waking))
    }

    fn leave<R: Wait>(&self, rt: &R, request: &mut Q) -> Result<Option<Q::Output>, Q::Refusal> {
        step!(self, rt, state, waking => request.leave(&mut *state, &mut waking))
    }
}

impl<S, Q: Attempt<S>> Obtainable<Q> for Lock<S> {
    const TRIES: u32 = Q::TRIES;

    ghost trying = { λ _. alike Q.succeeds };

    #[inline(always)]
    fn is_waiting(&self, request: &Q) -> bool {
        request.is_waiting()
    }

    #[inline(always)]
    fn attempt<R: Wait>(&self, rt: &R, request: &mut Q) -> Option<Q::Output> {
        step!(self, rt, state, waking => request.attempt(&mut *state, &mut waking))
    }

    #[inline(always)]
    fn give_up<R: Wait>(&self, rt: &R, request: &mut Q) {
        if request.is_waiting() {
            step!(self, rt, state, waking => request.give_up(&mut *state, &mut waking))
        }
    }
}

impl<S, Q: Attempt<S>> TakesAny<Q> for Lock<S> {
    ghost all_fit = { λ _ _. tt };
}

impl<S: Drop> Drop for Lock<S> {
    // This is a function of its own, so that a share that is not the last is given up in a few instructions.
    #[cold]
    #[inline(never)]
    fn drop(self) {
        let Lock { state, source } = self;
        drop(state);
        drop(source);
    }
}
