//! How a thread waits that tries once before it parks.
//!
//! An attempt is a few instructions under a lock, and a thread that gets nothing mostly waits long: for others to arrive, for a
//! value to be made, for a change. So the thread joins the queue by the step that attempts, and makes what it parks on only
//! then.
ghost use Rattle.std.specs.Prelude.{◌≡◌, ◌≢◌, IfErr, IfOk, IsSome};
ghost use Rattle.event_wait.specs.Rounds.{Fails, Obtains, TriesOrWaits, Waits};
ghost use Rattle.event_wait.specs.declared.lock.limit.Limit.TheVariants.{Never};

use event_queue::TaskExchange;
use event_wait::{Attempted, Limit, Obtainable, Refused, StoreParker, Task, Waitable};
use std::alloc::{AllocError, Global};
use std::sync::{Arc, Wait};
use std::thread::Parker;
use std::time::Clock;

/// Blocks the thread until it has what it requests. Returns `None` if the limit has passed before. The thread attempts by the
/// step that has it join the queue, parks, and attempts again once it is woken. Where the limit has passed already, the thread
/// attempts once, joins no queue and allocates nothing.
///
/// After an answer, a refusal or `None` the thread is in no queue. The call may wait for the lock.
pub(crate) fn obtain<L: Obtainable<Q>, Q, R: Wait + Clock>(
    lock: &L,
    rt: &R,
    alloc: Global,
    request: &mut Q,
    limit: Limit,
) -> Result<Option<L::Output>, Refused<L::Refusal>>
    requires fits { (L.rules lock.now).fits request.old }
    ensures fits { (L.rules lock.now).fits request.new }
    ensures never { limit ≡ Never → IfOk result IsSome }
    ensures obtains { Obtains (L.rules lock.now) (L.trying lock.now) (limit ≢ Never)
        request.old result
        request.new }
{
    match ask_or_wait(lock, rt, alloc, request, limit) {
        Ok(answer) => Ok(answer),
        Err(error) => {
            lock.give_up(rt, request);
            Err(error)
        }
    }
}

// Blocks the thread as `obtain` does, but leaves the request its place in the queue, if it has one, after an error.
#[inline(always)]
fn ask_or_wait<L: Obtainable<Q>, Q, R: Wait + Clock>(
    lock: &L,
    rt: &R,
    alloc: Global,
    request: &mut Q,
    limit: Limit,
) -> Result<Option<L::Output>, Refused<L::Refusal>>
    requires fits { (L.rules lock.now).fits request.old }
    ensures fits { (L.rules lock.now).fits request.new }
    ensures never { limit ≡ Never → IfOk result IsSome }
    ensures trying { TriesOrWaits (L.rules lock.now) (L.trying lock.now) (limit ≢ Never)
        request.old result request.new }
{
    if limit.has_passed(rt) {
        return leave_late(lock, rt, request);
    }
    wait(lock, rt, alloc, request, limit)
}

// Waits in the queue: attempts as the thread joins the queue, and whenever the thread is woken.
#[inline(always)]
fn wait<L: Waitable<Q>, Q, R: Wait + Clock>(
    lock: &L,
    rt: &R,
    alloc: Global,
    request: &mut Q,
    limit: Limit,
) -> Result<Option<L::Output>, Refused<L::Refusal>>
    requires fits { (L.rules lock.now).fits request.old }
    ensures fits { (L.rules lock.now).fits request.new }
    ensures never { limit ≡ Never → IfOk result IsSome }
    ensures waits { Waits (L.rules lock.now) (limit ≢ Never) request.old result request.new }
{
    let mut parking = Parking {
        parker: None,
        alloc,
    };
    for _ in rt.forever() {
        match lock.attempt_or_wait(rt, request, &MakeParker {}, &mut parking) {
            Attempted::Done(output) => return Ok(Some(output)),
            Attempted::Waits(_) => {}
            Attempted::Absent => continue,
            Attempted::Refused(error) => return Err(Refused::Request(error)),
        }
        let Some(parker) = &parking.parker else {
            return Err(Refused::Memory);
        };
        match limit.left(rt) {
            None => parker.park(rt),
            Some(left) if left.is_zero() => return leave_late(lock, rt, request),
            Some(left) => parker.park_timeout(rt, left),
        }
    }
    unreachable!()
}

fn leave_late<L: Waitable<Q>, Q, R: Wait>(
    lock: &L,
    rt: &R,
    request: &mut Q,
) -> Result<Option<L::Output>, Refused<L::Refusal>>
    requires fits { (L.rules lock.now).fits request.old }
    ensures fits { (L.rules lock.now).fits request.new }
    ensures left { IfOk result (λ answer. (L.rules lock.now).leaves request.old answer request.new) }
    ensures failed { IfErr result (λ error. Fails (L.rules lock.now) request.old error request.new) }
{
    match lock.leave(rt, request) {
        Ok(answer) => Ok(answer),
        Err(error) => Err(Refused::Request(error)),
    }
}

// What a thread parks on, once it has to park and its memory was not refused.
#[derive(Drop)]
struct Parking {
    parker: Option<Arc<Parker, Global>>,
    alloc: Global,
}

impl Parking {
    // Returns the task of the thread, if there was memory for it.
    fn task(&mut self) -> Option<Task> {
        let parker = match self.parker.take() {
            Some(parker) => parker,
            None => Arc::new(self.alloc, Parker::new()).ok()?,
        };
        let task = Arc::try_clone(&parker).ok()?;
        self.parker = Some(parker);
        Some(Task::parked(task))
    }
}

// Stores the task by which the thread is woken. A thread that parked before, and keeps its place, has stored its task already.
struct MakeParker {}

impl TaskExchange<Task, Parking> for MakeParker {
    // No contract can name the thread that sleeps. Tests show that it is woken.
    ghost exchanged = { λ _ _ _ _ _. Unit {0} };

    fn exchange(&self, on: &mut Parking, stored: Option<Task>) -> Task
        ensures { Unit {0} }
    {
        let mut task = if stored.is_some() && on.parker.is_some() {
            None
        } else {
            on.task()
        };
        StoreParker {}.exchange(&mut task, stored)
    }
}
