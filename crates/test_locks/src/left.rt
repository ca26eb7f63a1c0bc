//! A starving waiter that is left alone: newcomers are refused so often what is free, and then go on. When the waiter tries again
//! later, it is a newcomer.
use crate::support::{check, new_mutex, new_semaphore, new_task};
use crate::tasks::Polled;
use event_locks::{FORBEARANCE, Mutex, Semaphore};
use std::alloc::{AllocError, AllocGlobal, Global};
use std::sync::Arc;
use std::time::Duration;
use test_kinds::{Kind, Of, Waits, numbers};
use test_support::Runtime;

// Has a waiter be notified and find the lock taken, once.
fn lose<R: Runtime, K: Kind>(
    rt: &R,
    kind: &K,
    one: &mut Polled<K::Waits>,
    held: K::Held,
) -> K::Held {
    drop(held);
    // The holder takes the lock again before the waiter polls.
    let held = kind.hold();
    check(rt, "whether it is granted", one.is_ready(), false);
    held
}

// Makes a waiter that starves, and is notified of a free lock.
fn starve<R: Runtime, K: Kind>(rt: &R, kind: &K) -> Polled<K::Waits> {
    let held = kind.hold();
    let mut one = Polled::new(rt, kind.waits().expect(rt, "a share"));
    let held = lose(rt, kind, &mut one, held);
    let held = lose(rt, kind, &mut one, held);
    drop(held);
    stands(rt, kind, [1, 1, 0, 1]);
    one
}

// Checks how many are free, and how many are notified, wait and starve.
fn stands<R: Runtime, K: Kind>(rt: &R, kind: &K, expected: [u64; 4]) {
    check(
        rt,
        "how it stands",
        kind.counts().map(numbers),
        Some(expected),
    );
}

// Has so many newcomers try, each of which would give back at once what it got.
fn try_often<K: Kind>(kind: &K, times: u32) {
    for _ in 0..times {
        drop(kind.hold());
    }
}

// When a waiter that is left alone tries again, or what newcomers do meanwhile.
#[derive(Clone, Copy, Drop)]
enum Left {
    InTime,
    Late,
    LateAndFree,
    LateAtItsLimit,
    Dropped,
    InFront,
    PassedByAThread,
    PassedByATask,
    WaitedForTooLong,
    Rounds,
}

fn run<R: Runtime, K: Kind>(rt: &R, kind: &K, left: Left) {
    match left {
        Left::InTime => in_time(rt, kind),
        Left::Late => late(rt, kind),
        Left::LateAndFree => late_and_free(rt, kind),
        Left::LateAtItsLimit => late_at_its_limit(rt, kind),
        Left::Dropped => dropped(rt, kind),
        Left::InFront => in_front(rt, kind),
        Left::PassedByAThread => passed_by_a_thread(rt, kind),
        Left::PassedByATask => passed_by_a_task(rt, kind),
        Left::WaitedForTooLong => waited_for_too_long(rt, kind),
        Left::Rounds => rounds(rt, kind),
    }
}

// Runs a case with a semaphore and a mutex, the locks at which waiters compete with newcomers.
fn run_with_each<R: Runtime + Sync>(rt: &R, left: Left) {
    let semaphore = new_semaphore(rt, 1);
    run(rt, &Of::<_, _, ()>::new(&semaphore, rt, rt.alloc()), left);
    let mutex = new_mutex(rt, 7u64);
    run(rt, &Of::<_, _, ()>::new(&mutex, rt, rt.alloc()), left);
}

// One newcomer fewer is refused than would strike the waiter off. The waiter finds the lock free.
fn in_time<R: Runtime, K: Kind>(rt: &R, kind: &K) {
    let mut one = starve(rt, kind);
    try_often(kind, FORBEARANCE - 1);
    stands(rt, kind, [1, 1, 0, 1]);
    check(rt, "whether it is granted", one.is_ready(), true);
    stands(rt, kind, [1, 0, 0, 0]);
}

// The last of the counted newcomers is refused, too, and the next goes on. The waiter that was struck off waits anew behind a
// waiter that came before, starves no more, and is notified in its turn.
fn late<R: Runtime, K: Kind>(rt: &R, kind: &K) {
    let mut one = starve(rt, kind);
    try_often(kind, FORBEARANCE);
    stands(rt, kind, [1, 0, 0, 0]);
    let held = kind.hold();
    stands(rt, kind, [0, 0, 0, 0]);
    let mut first = Polled::new(rt, kind.waits().expect(rt, "a share"));
    check(rt, "whether it is woken", one.is_woken(), true);
    check(rt, "whether it is granted", one.is_ready(), false);
    stands(rt, kind, [0, 0, 2, 0]);
    drop(held);
    check(rt, "whether it is woken", one.is_woken(), false);
    check(rt, "whether the first is granted", first.is_ready(), true);
    check(rt, "whether it is woken", one.is_woken(), true);
    check(rt, "whether it is granted", one.is_ready(), true);
    stands(rt, kind, [1, 0, 0, 0]);
}

// A waiter that was struck off takes what is free.
fn late_and_free<R: Runtime, K: Kind>(rt: &R, kind: &K) {
    let mut one = starve(rt, kind);
    try_often(kind, FORBEARANCE);
    check(rt, "whether it is granted", one.is_ready(), true);
    stands(rt, kind, [1, 0, 0, 0]);
}

fn late_at_its_limit<R: Runtime, K: Kind>(rt: &R, kind: &K) {
    let one = starve(rt, kind);
    try_often(kind, FORBEARANCE);
    let given = one.into_waits().wait_timeout(Duration::ZERO);
    check(rt, "in time", given.expect(rt, "an answer").is_some(), true);
    stands(rt, kind, [1, 0, 0, 0]);
}

// A waiter that was struck off has no notification that its drop could pass on.
fn dropped<R: Runtime, K: Kind>(rt: &R, kind: &K) {
    let one = starve(rt, kind);
    try_often(kind, FORBEARANCE);
    let held = kind.hold();
    let first = Polled::new(rt, kind.waits().expect(rt, "a share"));
    drop(one);
    stands(rt, kind, [0, 0, 1, 0]);
    drop(held);
    check(rt, "whether the first is woken", first.is_woken(), true);
    drop(first);
    stands(rt, kind, [1, 0, 0, 0]);
}

// A waiter that does not starve is notified and left alone in front of one that starves. The second one starves no more, and
// keeps its place.
fn in_front<R: Runtime, K: Kind>(rt: &R, kind: &K) {
    let held = kind.hold();
    let mut second = Polled::new(rt, kind.waits().expect(rt, "a share"));
    let held = lose(rt, kind, &mut second, held);
    drop(held);
    let held = kind.hold();
    let first = Polled::new(rt, kind.waits().expect(rt, "a share"));
    check(rt, "whether it is granted", second.is_ready(), false);
    stands(rt, kind, [0, 0, 2, 1]);
    drop(held);
    stands(rt, kind, [1, 1, 1, 1]);
    try_often(kind, FORBEARANCE - 1);
    stands(rt, kind, [1, 1, 1, 1]);
    try_often(kind, 1);
    stands(rt, kind, [1, 1, 1, 0]);
    let held = kind.hold();
    stands(rt, kind, [0, 1, 1, 0]);
    drop(held);
    drop(first);
    check(rt, "whether it is woken", second.is_woken(), true);
    check(rt, "whether it is granted", second.is_ready(), true);
}

// A thread that waits goes on past a waiter that is left alone.
fn passed_by_a_thread<R: Runtime, K: Kind>(rt: &R, kind: &K) {
    let one = starve(rt, kind);
    let passes = kind.waits().expect(rt, "a share");
    let given = passes.wait_timeout(Duration::from_secs(100));
    check(rt, "in time", given.expect(rt, "an answer").is_some(), true);
    stands(rt, kind, [1, 0, 0, 0]);
    drop(one);
}

// A task that waits is woken by itself until newcomers were refused often enough, and joins no queue meanwhile.
fn passed_by_a_task<R: Runtime, K: Kind>(rt: &R, kind: &K) {
    let one = starve(rt, kind);
    let mut passes = kind.waits().expect(rt, "a share");
    let task = new_task(rt);
    for _ in 0..FORBEARANCE {
        passes.can_be_polled();
        let is_ready = task.poll(&mut passes).is_ready();
        check(rt, "whether it is granted", is_ready, false);
        check(rt, "whether it is woken", task.is_woken(), true);
    }
    stands(rt, kind, [1, 0, 0, 0]);
    passes.can_be_polled();
    let is_ready = task.poll(&mut passes).is_ready();
    check(rt, "whether it is granted", is_ready, true);
    drop(one);
}

// Has a newcomer take the lock, once the starving waiter is struck off.
fn hold_at_last<K: Kind>(kind: &K) -> Option<K::Held> {
    for _ in 0..100_000 {
        let got = kind.hold();
        let [free, _, _, _] = kind.counts().map_or([0; 4], numbers);
        if free == 0 {
            return Some(got);
        }
    }
    None
}

// Newcomers are to be refused some thousand times for the sake of a waiter that lost eight times. A thread ends its wait at its
// limit long before, and has nothing.
fn waited_for_too_long<R: Runtime, K: Kind>(rt: &R, kind: &K) {
    let mut one = starve(rt, kind);
    for _ in 0..6 {
        let held = hold_at_last(kind).expect(rt, "the lock");
        check(rt, "whether it is granted", one.is_ready(), false);
        let held = lose(rt, kind, &mut one, held);
        drop(held);
        stands(rt, kind, [1, 1, 0, 1]);
    }
    let waits = kind.waits().expect(rt, "a share");
    let given = waits.wait_timeout(Duration::from_millis(1));
    check(
        rt,
        "in time",
        given.expect(rt, "an answer").is_some(),
        false,
    );
    stands(rt, kind, [1, 1, 0, 1]);
    check(rt, "whether it is granted", one.is_ready(), true);
}

// Returns at which of its polls a starving waiter finds the lock free that polls only after so many attempts of a newcomer, or
// once the newcomer has the lock.
fn served_at<R: Runtime, K: Kind>(rt: &R, kind: &K, attempts: usize) -> usize {
    let mut one = starve(rt, kind);
    for poll in 1..100 {
        let mut held = None;
        for _ in 0..attempts {
            let got = kind.hold();
            let [free, _, _, _] = kind.counts().map_or([0; 4], numbers);
            if free == 0 {
                held = Some(got);
                break;
            }
        }
        if one.is_ready() {
            return poll;
        }
        drop(held);
    }
    100
}

// Each time that the waiter loses once more, twice as many newcomers are refused for its sake. In each second round the waiter
// is notified, and the newcomer is faster.
fn rounds<R: Runtime, K: Kind>(rt: &R, kind: &K) {
    for (attempts, expected) in [(63, 1), (100, 3), (127, 3), (200, 5), (1000, 9)] {
        check(rt, "its poll", served_at(rt, kind, attempts), expected);
    }
}

#[test]
fn one_that_is_left_alone_stops_nobody(rt: HostRuntime) {
    for case in [Left::PassedByAThread, Left::PassedByATask] {
        run_with_each(&rt, case);
    }
}

#[test]
fn one_in_time_finds_the_lock_free(rt: HostRuntime) {
    for case in [
        Left::InTime,
        Left::InFront,
        Left::WaitedForTooLong,
        Left::Rounds,
    ] {
        run_with_each(&rt, case);
    }
}

#[test]
fn one_that_is_late_waits_anew(rt: HostRuntime) {
    for case in [
        Left::Late,
        Left::LateAndFree,
        Left::LateAtItsLimit,
        Left::Dropped,
    ] {
        run_with_each(&rt, case);
    }
}

// A way to try by a share of the lock, or for several permits.
#[derive(Clone, Copy, Drop)]
enum Way {
    Share,
    Many,
    ManyByShare,
}

// Returns whether a newcomer got something in this way.
fn tries<R: Runtime>(
    rt: &R,
    semaphore: &Arc<Semaphore, Global>,
    way: Way,
    n: usize,
) -> Result<bool, AllocError> {
    match way {
        Way::Share => Ok(Semaphore::try_acquire_arc(semaphore, rt.clone()?)?.is_ok()),
        Way::Many => Ok(semaphore.try_acquire_many(rt, n).is_ok()),
        Way::ManyByShare => Ok(Semaphore::try_acquire_many_arc(semaphore, rt.clone()?, n)?.is_ok()),
    }
}

// The semaphore has one permit. A newcomer that asks for more is not refused for the waiter's sake.
#[test]
fn each_way_to_try_for_permits_counts(rt: HostRuntime) {
    for way in [Way::Share, Way::Many, Way::ManyByShare] {
        let semaphore = Arc::new(rt.alloc(), new_semaphore(&rt, 1)).expect(&rt, "a share");
        let kind = Of::<_, _, ()>::new(&*semaphore, &rt, rt.alloc());
        let one = starve(&rt, &kind);
        for _ in 0..FORBEARANCE {
            let got = tries(&rt, &semaphore, way, 1).expect(&rt, "a share");
            check(&rt, "whether it got one", got, false);
        }
        let got = tries(&rt, &semaphore, way, 1).expect(&rt, "a share");
        check(&rt, "whether it got one", got, true);
        drop(one);
    }
}

#[test]
fn who_wants_more_than_is_free_does_not_count(rt: HostRuntime) {
    for way in [Way::Many, Way::ManyByShare] {
        let semaphore = Arc::new(rt.alloc(), new_semaphore(&rt, 1)).expect(&rt, "a share");
        let kind = Of::<_, _, ()>::new(&*semaphore, &rt, rt.alloc());
        let mut one = starve(&rt, &kind);
        for _ in 0..FORBEARANCE {
            let got = tries(&rt, &semaphore, way, 2).expect(&rt, "a share");
            check(&rt, "whether it got two", got, false);
        }
        stands(&rt, &kind, [1, 1, 0, 1]);
        check(&rt, "whether it is granted", one.is_ready(), true);
    }
}

#[test]
fn a_try_by_a_share_of_a_mutex_counts(rt: HostRuntime) {
    let mutex = Arc::new(rt.alloc(), new_mutex(&rt, 7u64)).expect(&rt, "a share");
    let kind = Of::<_, _, ()>::new(&*mutex, &rt, rt.alloc());
    let one = starve(&rt, &kind);
    for _ in 0..FORBEARANCE {
        let got = Mutex::try_lock_arc(&mutex, rt).expect(&rt, "a share");
        check(&rt, "whether it got it", got.is_some(), false);
    }
    let got = Mutex::try_lock_arc(&mutex, rt).expect(&rt, "a share");
    check(&rt, "whether it got it", got.is_some(), true);
    drop(one);
}
