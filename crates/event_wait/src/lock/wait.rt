//! The wait of a thread, and the poll of a task.
ghost use Rattle.std.specs.Prelude.{◌≡◌, ◌≢◌, None, Ok, IfErr, IfOk, IfSome, IsSome};
ghost use Rattle.futures.specs.Poll.{IfReady, OnPending};
ghost use Rattle.futures.specs.Task.{Covers, Keeps};
ghost use Rattle.event_wait.specs.Rounds.{Fails, Gets, Obtains, SomeRounds, Succeeds, Tries, TriesOrWaits, Waits};
ghost use Rattle.event_wait.specs.declared.lock.limit.Limit.TheVariants.{Never};

use super::limit::Limit;
use super::task::{StoreParker, Task};
use crate::back_off::pause;
use crate::request::Attempted;
use crate::waitable::{Obtainable, Waitable};
use futures::task::{Context, Poll};
use std::alloc::{AllocError, Global};
use std::sync::{Arc, Wait};
use std::thread;
use std::thread::Parker;
use std::time::Clock;

// How many pauses a thread makes before it tries again.
const PAUSES_TO_TRY: u32 = 64;

/// Why a wait of a thread ended with neither an output nor a limit that had passed.
pub enum Refused<E> {
    /// There was no memory for what the thread parks on.
    Memory,
    /// The request can't wait, for this reason.
    Request(E),
}

/// Blocks the thread until the request gets its output or the limit has passed, and returns the output or `None`.
///
/// The call makes at least one attempt; where the limit has passed it enters no queue and allocates nothing. Else it tries a few
/// times with pauses between, and then waits as [`wait`] does, which allocates what the thread parks on. A request that has a
/// place in the queue already waits on at that place.
///
/// After any return the request is in no queue: an error ([`Refused`]) has it give its place up. May block until the lock is
/// free, too.
#[inline(always)]
pub fn obtain<L: Obtainable<Q>, Q, R: Wait + Clock>(
    lock: &L,
    rt: &R,
    alloc: Global,
    request: &mut Q,
    limit: Limit,
) -> Result<Option<L::Output>, Refused<L::Refusal>>
    requires fits { (L.rules lock.now).fits request.old }
    ensures fits { (L.rules lock.now).fits request.new }
    ensures never { limit ≡ Never → IfOk result IsSome }
    ensures obtains { Obtains (L.rules lock.now) (L.trying lock.now) (limit ≢ Never)
        request.old result
        request.new }
{
    if let Some(output) = try_first(lock, rt, request) {
        return Ok(Some(output));
    }
    try_then_wait(lock, rt, alloc, request, limit)
}

// Attempts once. A request that has a place in the queue is not tried: its attempt is made where its place is.
#[inline(always)]
fn try_first<L: Obtainable<Q>, Q, R: Wait>(lock: &L, rt: &R, request: &mut Q) -> Option<L::Output>
    requires fits { (L.rules lock.now).fits request.old }
    ensures fits { (L.rules lock.now).fits request.new }
    ensures obtained { IfSome result (λ output.
        Succeeds (Tries (L.rules lock.now) (L.trying lock.now))
        (Gets (L.rules lock.now) (L.trying lock.now)) request.old output request.new) }
    ensures tried { result ≡ None
        → SomeRounds (Tries (L.rules lock.now) (L.trying lock.now)) request.old request.new }
{
    if lock.is_waiting(request) {
        return None;
    }
    lock.attempt(rt, request)
}

/// Blocks the thread until the request gets its output or the limit has passed, and returns the output or `None`.
///
/// At the limit the request leaves its queue with what it can still get, so a late output is returned, too. The call allocates
/// what the thread parks on, attempts, stores the thread's task if the request waits on, looks at the limit, parks, and attempts
/// again.
///
/// Returns [`Refused::Memory`] if memory runs out; the request is as its last attempt left it. Returns [`Refused::Request`] if
/// the request can't wait; the rules of the lock say what that leaves. May block until the lock is free, too.
#[inline(always)]
pub fn wait<L: Waitable<Q>, Q, R: Wait + Clock>(
    lock: &L,
    rt: &R,
    alloc: Global,
    request: &mut Q,
    limit: Limit,
) -> Result<Option<L::Output>, Refused<L::Refusal>>
    requires fits { (L.rules lock.now).fits request.old }
    ensures fits { (L.rules lock.now).fits request.new }
    ensures never { limit ≡ Never → IfOk result IsSome }
    ensures waits { Waits (L.rules lock.now) (limit ≢ Never) request.old result request.new }
{
    let Ok(parker) = Arc::new(alloc, Parker::new()) else {
        return Err(Refused::Memory);
    };
    let mut task = None;
    for _ in rt.forever() {
        if task.is_none() {
            let Ok(new) = task_of(&parker) else {
                return Err(Refused::Memory);
            };
            task = new;
        }
        match lock.attempt_or_wait(rt, request, &StoreParker {}, &mut task) {
            Attempted::Done(output) => return Ok(Some(output)),
            Attempted::Waits(_) => {}
            Attempted::Absent => {
                if limit.has_passed(rt) {
                    return leave_late(lock, rt, request);
                }
                let_others_come();
                continue;
            }
            Attempted::Refused(error) => return Err(Refused::Request(error)),
        }
        match limit.left(rt) {
            None => parker.park(rt),
            Some(left) if left.is_zero() => return leave_late(lock, rt, request),
            Some(left) => parker.park_timeout(rt, left),
        }
    }
    unreachable!()
}

/// Attempts the request once, and registers the task that polls if the request waits on.
///
/// Returns the output, or an error if the request can't wait; the rules of the lock say what that leaves. May block until the
/// lock is free.
#[inline(always)]
pub fn poll_in<L: Waitable<Q>, Q, R: Wait>(
    lock: &L,
    rt: &R,
    request: &mut Q,
    cx: &mut Context<'_>,
) -> Poll<Result<L::Output, L::Refusal>>
    requires fits { (L.rules lock.now).fits request.old }
    ensures fits { (L.rules lock.now).fits request.new }
    ensures succeeded { IfReady result
        (λ answer. IfOk answer (λ output. (L.rules lock.now).succeeds request.old output request.new)) }
    ensures refused { IfReady result
        (λ answer. IfErr answer (λ error. (L.rules lock.now).refuses request.old error request.new)) }
    ensures pending { OnPending result ((L.rules lock.now).waits request.old request.new) }
    ensures registered { OnPending result (Covers cx.new (λ s. s ≡ L.source lock.now)) }
    ensures kept { Keeps cx.old cx.new }
{
    match lock.attempt_or_wait(rt, request, lock.waker_source(), cx) {
        Attempted::Done(output) => Poll::Ready(Ok(output)),
        Attempted::Waits(_) => Poll::Pending,
        Attempted::Absent => cx.yield_now(),
        Attempted::Refused(error) => Poll::Ready(Err(error)),
    }
}

// Lets a while pass for a thread that is in no queue, and finds nothing since others come first: who is notified has to run.
fn let_others_come() {
    pause(PAUSES_TO_TRY);
    thread::yield_now();
}

// Makes the task of the thread that parks on this parker.
fn task_of(parker: &Arc<Parker, Global>) -> Result<Option<Task>, AllocError> {
    Ok(Some(Task::parked(Arc::try_clone(parker)?)))
}

fn leave_late<L: Waitable<Q>, Q, R: Wait>(
    lock: &L,
    rt: &R,
    request: &mut Q,
) -> Result<Option<L::Output>, Refused<L::Refusal>>
    requires fits { (L.rules lock.now).fits request.old }
    ensures fits { (L.rules lock.now).fits request.new }
    ensures left { IfOk result (λ answer. (L.rules lock.now).leaves request.old answer request.new) }
    ensures failed { IfErr result (λ error. Fails (L.rules lock.now) request.old error request.new) }
{
    match lock.leave(rt, request) {
        Ok(answer) => Ok(answer),
        Err(error) => Err(Refused::Request(error)),
    }
}

/// Waits as [`obtain`] does, but makes no attempt at once: for a lock that makes the first attempt itself, and for a request that
/// waits in the queue already.
///
/// This is a function of its own, so that what is free is taken in a few instructions. The call allocates what the thread parks
/// on, if it has to wait. After any return the request is in no queue. May block until the lock is free, too.
#[inline(never)]
pub fn try_then_wait<L: Obtainable<Q>, Q, R: Wait + Clock>(
    lock: &L,
    rt: &R,
    alloc: Global,
    request: &mut Q,
    limit: Limit,
) -> Result<Option<L::Output>, Refused<L::Refusal>>
    requires fits { (L.rules lock.now).fits request.old }
    ensures fits { (L.rules lock.now).fits request.new }
    ensures never { limit ≡ Never → IfOk result IsSome }
    ensures obtains { Obtains (L.rules lock.now) (L.trying lock.now) (limit ≢ Never)
        request.old result
        request.new }
{
    match try_or_wait(lock, rt, alloc, request, limit) {
        Ok(answer) => Ok(answer),
        Err(error) => {
            lock.give_up(rt, request);
            Err(error)
        }
    }
}

// Where there is time left, tries a few times with pauses between, and then waits in the queue.
#[inline(always)]
fn try_or_wait<L: Obtainable<Q>, Q, R: Wait + Clock>(
    lock: &L,
    rt: &R,
    alloc: Global,
    request: &mut Q,
    limit: Limit,
) -> Result<Option<L::Output>, Refused<L::Refusal>>
    requires fits { (L.rules lock.now).fits request.old }
    ensures fits { (L.rules lock.now).fits request.new }
    ensures never { limit ≡ Never → IfOk result IsSome }
    ensures trying { TriesOrWaits (L.rules lock.now) (L.trying lock.now) (limit ≢ Never)
        request.old result request.new }
{
    if limit.has_passed(rt) {
        return leave_late(lock, rt, request);
    }
    if let Some(output) = try_a_while(lock, rt, request) {
        return Ok(Some(output));
    }
    match take_if_notified(lock, rt, request) {
        Ok(Some(output)) => Ok(Some(output)),
        Ok(None) => wait(lock, rt, alloc, request, limit),
        Err(error) => Err(Refused::Request(error)),
    }
}

// Attempts a few times, as `try_first` does, with a pause before each.
fn try_a_while<L: Obtainable<Q>, Q, R: Wait>(lock: &L, rt: &R, request: &mut Q) -> Option<L::Output>
    requires fits { (L.rules lock.now).fits request.old }
    ensures fits { (L.rules lock.now).fits request.new }
    ensures obtained { IfSome result (λ output.
        Succeeds (Tries (L.rules lock.now) (L.trying lock.now))
        (Gets (L.rules lock.now) (L.trying lock.now)) request.old output request.new) }
    ensures tried { result ≡ None
        → SomeRounds (Tries (L.rules lock.now) (L.trying lock.now)) request.old request.new }
{
    for _ in 0..L::TRIES {
        if lock.is_waiting(request) {
            return None;
        }
        pause(PAUSES_TO_TRY);
        if let Some(output) = lock.attempt(rt, request) {
            return Some(output);
        }
    }
    None
}

// Takes the output of a request that polled before and was notified since, so that the thread need not park. The request's task
// stays.
fn take_if_notified<L: Obtainable<Q>, Q, R: Wait>(
    lock: &L,
    rt: &R,
    request: &mut Q,
) -> Result<Option<L::Output>, L::Refusal>
    requires fits { (L.rules lock.now).fits request.old }
    ensures fits { (L.rules lock.now).fits request.new }
    ensures succeeded { IfOk result (λ answer.
        IfSome answer (λ output. (L.rules lock.now).succeeds request.old output request.new)) }
    ensures waited { result ≡ Ok None → SomeRounds (L.rules lock.now).waits request.old request.new }
    ensures refused { IfErr result (λ error. (L.rules lock.now).refuses request.old error request.new) }
{
    if !lock.is_waiting(request) {
        return Ok(None);
    }
    match lock.attempt_or_wait(rt, request, &StoreParker {}, &mut None) {
        Attempted::Done(output) => Ok(Some(output)),
        Attempted::Waits(_) => Ok(None),
        Attempted::Absent => Ok(None),
        Attempted::Refused(error) => Err(error),
    }
}
