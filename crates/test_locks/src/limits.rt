//! Waits that end at their limit. A waiter that gives up there is in no queue, and what it was handed is not lost.
use crate::support::{check, new_semaphore};
use crate::tasks::Polled;
use event_locks::Semaphore;
use std::alloc::AllocGlobal;
use std::cell::Cell;
use std::io;
use std::sync::Wait;
use std::time::{Clock, Duration, Instant};
use test_kinds::{Case, Kind, Waits, each};
use test_support::{Change, Changed, NoClock, Runtime, deadline_after};

// One caller waits for some time, and another until a moment, both in vain. Then a later waiter is the first in the queue.
#[derive(Drop)]
struct InVain;

impl<R: Runtime> Case<R> for InVain {
    fn waiters(&self) -> usize {
        1
    }

    fn run<K: Kind>(&self, rt: &R, kind: &K) {
        let held = kind.hold();
        for limit in [Duration::ZERO, Duration::from_millis(3)] {
            let began = Instant::now(rt).expect(rt, "the time");
            let given = kind.waits().expect(rt, "a share").wait_timeout(limit);
            let given = given.expect(rt, "an answer").is_some();
            let moment = deadline_after(rt, limit).expect(rt, "a moment");
            let later = kind.waits().expect(rt, "a share").wait_deadline(moment);
            let later = later.expect(rt, "an answer").is_some();
            check(rt, "which is granted", [given, later], [false; 2]);
            let took = began.elapsed(rt).expect(rt, "the time");
            let is_too_soon = took < limit.saturating_mul(2);
            check(rt, "whether one ended too soon", is_too_soon, false);
        }
        Polled::new(rt, kind.waits().expect(rt, "a share")).let_in(rt, held);
    }
}

#[test]
fn each_wait_ends_at_its_limit(rt: HostRuntime) {
    each(&rt, &rt, &InVain).expect(&rt, "memory");
}

// Returns whether a thread that waits so long for a permit is given one.
fn is_given<R: Runtime, C: Wait + Clock>(
    rt: &R,
    clock: &C,
    semaphore: &Semaphore,
    limit: Duration,
) -> bool {
    let given = semaphore.acquire(clock, rt.alloc()).wait_timeout(limit);
    given.expect(rt, "an answer").is_some()
}

// The waits of all locks look at the clock in one function. `test_channel` has limits that such a clock makes no moments of.
#[test]
fn a_clock_that_cannot_be_read_ends_a_wait(rt: HostRuntime) {
    let (rt, semaphore) = (&rt, new_semaphore(&rt, 0));
    let blind = Changed { rt, by: &NoClock };
    let moment = deadline_after(rt, Duration::from_secs(3600)).expect(rt, "a moment");
    let given = semaphore.acquire(&blind, rt.alloc()).wait_deadline(moment);
    let given = given.expect(rt, "an answer").is_some();
    check(rt, "whether it is granted", given, false);
}

// A clock that goes on by a millisecond at each reading, whatever time that takes. At the third reading and later, the waiting
// thread has stored its task, and is to park.
#[derive(Drop)]
struct Steps<'a, R> {
    rt: &'a R,
    semaphore: &'a Semaphore,
    // At which readings a permit is added, and at which the permit is taken again once the waiting thread is woken.
    added: [u64; 2],
    taken: u64,
    reads: Cell<u64>,
}

// Stands for no reading.
const NEVER: u64 = u64::MAX;

impl<R: Runtime> Change for Steps<'_, R> {
    fn read<C: Clock>(&self, _rt: &C) -> io::Result<Duration> {
        let read = self.reads.get();
        self.reads.set(read.saturating_add(1));
        for added in self.added {
            if read == added {
                self.semaphore.add_permits(self.rt, 1);
            }
        }
        if read == self.taken {
            let permit = self.semaphore.try_acquire(self.rt);
            permit.expect(self.rt, "the permit").forget();
        }
        Ok(Duration::from_millis(read))
    }
}

// Checks whether a thread that waits so long is given a permit, and how often it looked at the clock: after so many
// milliseconds the wait ended.
fn ends<R: Runtime>(rt: &R, limit: u64, added: [u64; 2], taken: u64, expected: (bool, u64)) {
    let semaphore = &new_semaphore(rt, 0);
    let steps = Steps {
        rt,
        semaphore,
        added,
        taken,
        reads: Cell::new(0),
    };
    let clock = Changed { rt, by: &steps };
    let given = is_given(rt, &clock, semaphore, Duration::from_millis(limit));
    let answer = (given, steps.reads.get());
    check(rt, "given, after looks", answer, expected);
    check(rt, "free", semaphore.available(), usize::from(given));
}

#[test]
fn a_timed_wait_goes_on_until_its_limit_or_a_permit(rt: HostRuntime) {
    // A limit of zero has passed already, by any clock.
    ends(&rt, 0, [NEVER; 2], NEVER, (false, 0));
    // The wait begins at 0, joins the queue at 1, parks at 2 and at 3, though the thread wakes each time, and is over at 4.
    ends(&rt, 4, [NEVER; 2], NEVER, (false, 5));
    // A permit that is added at the limit is in time, both before the thread joins the queue and in the queue.
    ends(&rt, 1, [1, NEVER], NEVER, (true, 2));
    ends(&rt, 2, [2, NEVER], NEVER, (true, 3));
    // A newcomer is faster and takes the permit for which the thread is woken. The thread gets a later permit.
    ends(&rt, 9, [2, 3], 2, (true, 4));
}

// Each of many waits would have to end late, and not only one, which a busy machine may bring about.
#[test]
fn a_timed_wait_parks_until_its_limit(rt: HostRuntime) {
    let (semaphore, limit) = (new_semaphore(&rt, 0), Duration::from_millis(50));
    for _ in 0..30u32 {
        let reads = Cell::new(0);
        let clock = Changed {
            rt: &rt,
            by: &reads,
        };
        let began = Instant::now(&rt).expect(&rt, "the time");
        let given = is_given(&rt, &clock, &semaphore, limit);
        let took = began.elapsed(&rt).expect(&rt, "the time");
        check(&rt, "whether it is granted", given, false);
        // A thread that does not park looks all the time.
        check(&rt, "whether it parked", reads.get() < 10, true);
        if took < Duration::from_millis(75) {
            return;
        }
    }
    panic!(&rt; "none ended in time");
}
