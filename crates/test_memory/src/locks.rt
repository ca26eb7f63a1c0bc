//! Locks that are held, and semaphores whose permits are taken, while their callers are refused memory, and the example
//! programs.
use crate::budget::Budget;
use crate::starved::Starved;
use crate::support::{
    Answer, Runtime, all_memory, check, count_refused, leave, new_budget, new_id, new_task,
};
use example_events::locks::{
    CountError, Mutex, MutexError, PolledLock, Semaphore, SemaphoreError, count, count_with_permits,
};
use example_events::meeting::{MeetingError, wait_for_setter};
use futures::task::Waker;
use std::alloc::AllocError;
use std::time::Duration;
use test_support::{any_waker, waker_of};

// Whether it was given. There is no answer where memory was refused.
fn is_given<G: Drop, E: Answer, R: Runtime>(
    rt: &R,
    answer: Result<Option<G>, E>,
    no_memory: E,
) -> Option<bool> {
    match answer {
        Ok(given) => Some(given.is_some()),
        Err(refusal) => {
            check(rt, "the refusal", refusal, no_memory);
            None
        }
    }
}

fn poll<R: Runtime>(rt: &R, lock: &mut PolledLock<'_, u64, R>, waker: Waker) -> Option<bool> {
    match lock.poll(waker) {
        Ok(polled) => Some(polled.is_ready()),
        Err(refusal) => {
            check(rt, "the refusal", refusal, MutexError::Memory);
            None
        }
    }
}

// The calls that wait: two that end at their limit, and a poll.
#[derive(Clone, Copy, Debug)]
enum Call {
    Lock,
    Acquire,
    Poll,
}

// What some have and others want.
#[derive(Drop)]
struct Wanted<'a, R> {
    rt: &'a R,
    mutex: Mutex<u64>,
    permits: Semaphore,
}

impl<R: Runtime> Wanted<'_, R> {
    fn new(rt: &R, permits: usize) -> Wanted<'_, R> {
        Wanted {
            rt,
            mutex: Mutex::new(new_id(rt), 7),
            permits: Semaphore::new(new_id(rt), permits),
        }
    }

    fn make(&self, call: Call, waker: Waker) -> Option<bool> {
        let (rt, alloc, now) = (self.rt, self.rt.alloc(), Duration::ZERO);
        match call {
            Call::Lock => {
                let answer = self.mutex.lock_timeout(rt, alloc, now);
                is_given(rt, answer, MutexError::Memory)
            }
            Call::Acquire => {
                let answer = self.permits.acquire_timeout(rt, alloc, now);
                is_given(rt, answer, SemaphoreError::Memory)
            }
            Call::Poll => poll(rt, &mut self.mutex.polled_lock(rt, alloc), waker),
        }
    }

    // Makes the call with so many bytes of memory while both are taken. Nobody is left that waits: the first task that waits
    // for the lock from now on is told that it is free.
    fn make_in_vain(&self, call: Call, budget: &mut Budget, bytes: usize) -> Option<bool> {
        let rt = self.rt;
        let lock = self.mutex.try_lock(rt).expect(rt, "the lock");
        let permit = self.permits.try_acquire(rt).expect(rt, "the permit");
        let waker = any_waker(rt).expect(rt, "a waker");
        leave(rt, budget, bytes);
        let answer = self.make(call, waker);
        budget.give_back();
        let (mut next, task) = (self.mutex.polled_lock(rt, rt.alloc()), new_task(rt));
        let waker = waker_of(&task).expect(rt, "a waker");
        check(rt, call, poll(rt, &mut next, waker), Some(false));
        drop(lock);
        drop(permit);
        check(rt, "whether it is woken", task.is_woken(), true);
        let waker = waker_of(&task).expect(rt, "a waker");
        check(rt, call, poll(rt, &mut next, waker), Some(true));
        answer
    }
}

// A call on what is taken, for which somebody has waited before if there is to be a slot in its queue.
#[derive(Drop)]
struct InVain<'a, R> {
    rt: &'a R,
    call: Call,
    has_slot: bool,
}

impl<R: Runtime> Starved for InVain<'_, R> {
    fn is_granted(&self, budget: &mut Budget, bytes: usize) -> bool {
        let (rt, call, wanted) = (self.rt, self.call, Wanted::new(self.rt, 1));
        if self.has_slot {
            let answer = wanted.make_in_vain(call, budget, Budget::MOST);
            check(rt, call, answer, Some(false));
        }
        let answer = wanted.make_in_vain(call, budget, bytes);
        if answer.is_none() {
            let again = wanted.make_in_vain(call, budget, Budget::MOST);
            check(rt, call, again, Some(false));
        }
        answer.is_some()
    }
}

#[test]
fn each_request_of_a_wait_for_a_lock_or_a_permit_is_refused(rt: HostRuntime) {
    let rt = &rt;
    for call in [Call::Lock, Call::Acquire] {
        // Where there is a slot, only what the thread parks on is asked for.
        let has_slot = true;
        let parker = count_refused(rt, &InVain { rt, call, has_slot });
        check(rt, "whether a parker was refused", parker > 0, true);
        let has_slot = false;
        let queue = count_refused(rt, &InVain { rt, call, has_slot });
        check(rt, "whether a queue was refused", queue > parker, true);
    }
}

// A task waits without a parker.
#[test]
fn a_polled_lock_needs_memory_for_its_slot_alone(rt: HostRuntime) {
    let (rt, call) = (&rt, Call::Poll);
    for has_slot in [false, true] {
        let refused = count_refused(rt, &InVain { rt, call, has_slot });
        check(rt, "whether it needs none", refused == 0, has_slot);
    }
}

// A caller that would wait without a limit is refused.
#[test]
fn a_permit_that_is_free_needs_no_memory(rt: HostRuntime) {
    let rt = &rt;
    let hog = all_memory(rt);
    let permits = &Semaphore::new(new_id(rt), 3);
    let mut two = permits.try_acquire(rt).expect(rt, "a permit");
    check(rt, "a second", two.more(), true);
    drop(permits.acquire(rt, rt.alloc()).expect(rt, "the third"));
    let third = permits.acquire_timeout(rt, rt.alloc(), Duration::ZERO);
    check(rt, "a fourth", two.more(), false);
    let refusal = permits.acquire(rt, rt.alloc()).err();
    check(rt, "a wait", refusal, Some(SemaphoreError::Memory));
    let third = third.expect(rt, "no refusal").is_some();
    check(rt, "the third in time", third, true);
    drop(two);
    drop(hog);
}

#[test]
fn a_lock_that_is_free_needs_no_memory(rt: HostRuntime) {
    let rt = &rt;
    let hog = all_memory(rt);
    let mutex = &Mutex::new(new_id(rt), 7u64);
    let held = mutex.lock(rt, rt.alloc()).expect(rt, "the lock");
    let refusal = mutex.lock(rt, rt.alloc()).err();
    check(rt, "a wait", refusal, Some(MutexError::Memory));
    drop(held);
    drop(hog);
}

// No budget has room for the stack of a thread. What the programs print then is the text of the refusal.
#[test]
fn programs_start_no_thread(rt: HostRuntime) {
    let mut budget = new_budget(&rt);
    let no_memory = CountError::from(AllocError);
    for bytes in (0..Budget::MOST).step_by(8 * Budget::STEP) {
        leave(&rt, &mut budget, bytes);
        let counted = count(rt, rt.alloc(), new_id(&rt), 2);
        leave(&rt, &mut budget, bytes);
        let permitted = count_with_permits(rt, rt.alloc(), new_id(&rt), 2, 1);
        leave(&rt, &mut budget, bytes);
        let met = wait_for_setter(rt, rt.alloc(), new_id(&rt));
        budget.give_back();
        check(&rt, bytes, counted, Err(no_memory));
        check(&rt, bytes, permitted, Err(no_memory));
        check(&rt, bytes, met, Err(MeetingError::from(AllocError)));
    }
}
