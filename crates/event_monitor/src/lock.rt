//! A state under a lock, whose steps wake tasks only once the lock is given back.
ghost use Rattle.event_wait.specs.Rounds.{alike, of_any};

use crate::wakes::{Room, Wakes};
use event_queue::TaskExchange;
use event_wait::{Attempt, Attempted, Obtainable, Request, TakesAny, Task, Waitable, WakerSource};
use std::alloc::Global;
use std::marker::Model;
use std::mem;
use std::sync::{Mutex, Wait};

// Makes one step under a `QuietLock`, and evaluates to what the step does: an expression over the state and over the sink of the
// tasks that it wakes. All of these are woken once the lock is given back.
macro_rules! quiet_step {
    ($lock:expr, $rt:expr, $state:ident, $sink:ident => $step:expr) => {{
        let mut $sink = $crate::wakes::Wakes::new();
        let mut kept = event_wait::take_lock!($lock, $rt);
        kept.lend_room(&mut $sink);
        let $state = &mut kept.state;
        let answer = $step;
        kept.take_room_back(&mut $sink);
        drop(kept);
        $sink.finish();
        answer
    }};
}

pub(crate) use quiet_step;

/// A state with waiters.
pub trait Waited {
    /// Returns how many tasks a step can wake: those of the waiters that are not notified.
    fn waiting(&self) -> usize;
}

/// A state under a lock, with the queues of the threads and tasks that wait for something of it. A step wakes its tasks once the
/// lock is given back, so that none of them meets the lock.
///
/// A contract sees the number of the source at which waiting tasks are registered.
#[derive(Drop)]
pub struct QuietLock<S> {
    kept: Mutex<Kept<S>>,
    source: WakerSource,
    alloc: Global,
}

/// A state, and beside it the room for the tasks of its waiters.
#[derive(Drop)]
pub(crate) struct Kept<S> {
    pub(crate) state: S,
    room: Room,
}

impl<S> Kept<S> {
    /// Moves the room into a sink, for one step.
    #[inline(always)]
    pub(crate) fn lend_room(&mut self, sink: &mut Wakes) {
        mem::swap(&mut self.room, &mut sink.room);
    }

    /// Moves the room back, but a room with tasks stays with the thread that wakes these: waiters make new room.
    #[inline(always)]
    pub(crate) fn take_room_back(&mut self, sink: &mut Wakes) {
        if !sink.room.has_tasks() {
            mem::swap(&mut self.room, &mut sink.room);
        }
    }
}

impl<S> Model for QuietLock<S> {
    ghost use Rattle.std.specs.Prelude.{ℕ};

    ghost Value = { ℕ };

    ghost view = { λ lock. lock.source };
}

impl<S> QuietLock<S> {
    /// Makes a lock round this state. The call neither allocates nor waits; waiters take memory of `alloc`, if these are many.
    pub fn of(alloc: Global, state: S) -> Self {
        QuietLock {
            kept: Mutex::new(Kept {
                state,
                room: Room::new(),
            }),
            source: WakerSource::new(),
            alloc,
        }
    }

    /// Returns the lock alone, for [`quiet_step!`].
    #[inline(always)]
    pub(crate) fn mutex(&self) -> &Mutex<Kept<S>> {
        &self.kept
    }
}

impl<S: Waited, Q: Request<S>> Waitable<Q> for QuietLock<S> {
    type Output = Q::Output;

    type Refusal = Q::Refusal;

    ghost rules = { λ _. of_any Q.succeeds Q.waits Q.leaves };

    ghost source = { λ lock. lock };

    #[inline(always)]
    fn waker_source(&self) -> &WakerSource {
        &self.source
    }

    fn attempt_or_wait<C, X: TaskExchange<Task, C>, R: Wait>(
        &self,
        rt: &R,
        request: &mut Q,
        exchange: &X,
        on: &mut C,
    ) -> Attempted<Q::Output, Q::Refusal> {
        quiet_step!(self, rt, state, sink => {
            let attempted = request.attempt_or_wait(&mut *state, exchange, on, &mut sink);
            if let Attempted::Waits(_) = &attempted {
                sink.room.make(self.alloc, state.waiting());
            }
            attempted
        })
    }

    fn leave<R: Wait>(&self, rt: &R, request: &mut Q) -> Result<Option<Q::Output>, Q::Refusal> {
        quiet_step!(self, rt, state, sink => request.leave(&mut *state, &mut sink))
    }
}

impl<S: Waited, Q: Attempt<S>> Obtainable<Q> for QuietLock<S> {
    const TRIES: u32 = Q::TRIES;

    ghost trying = { λ _. alike Q.succeeds };

    #[inline(always)]
    fn is_waiting(&self, request: &Q) -> bool {
        request.is_waiting()
    }

    #[inline(always)]
    fn attempt<R: Wait>(&self, rt: &R, request: &mut Q) -> Option<Q::Output> {
        quiet_step!(self, rt, state, sink => request.attempt(&mut *state, &mut sink))
    }

    #[inline(always)]
    fn give_up<R: Wait>(&self, rt: &R, request: &mut Q) {
        if request.is_waiting() {
            quiet_step!(self, rt, state, sink => request.give_up(&mut *state, &mut sink))
        }
    }
}

impl<S: Waited, Q: Attempt<S>> TakesAny<Q> for QuietLock<S> {
    ghost all_fit = { λ _ _. tt };
}
