//! What no clause sees: that a step wins where nobody is in the way, and that threads that meet change one value and one tally.
ghost use Rattle.std.specs.Prelude.{◌≡◌};

use crate::lock::Lock;
use crate::rule::{Looks, View};
use crate::shared::{Owning, Sharing};
use event_slot::Mark;
use std::sync::{Arc, Wait};
use std::test::Fail;
use std::thread;
use std::time::Duration;

const THREADS: usize = 4;

const ROUNDS: u64 = 20_000;

// Whether a writer may come. It goes at once.
fn lets_a_writer_in<T, R: Wait>(rt: &R, lock: &Lock<T>) -> bool {
    lock.try_write(rt).is_some()
}

// Whether the tally could be taken. It is put back with one more.
fn counts_once<T, R: Wait>(rt: &R, lock: &Lock<T>) -> bool {
    match lock.try_count(rt) {
        Some(counting) => counting.end() > 0,
        None => false,
    }
}

// A guard goes to another thread where its value may.
fn crossing<G: Send + Sync>(guard: G) -> G {
    guard
}

#[test]
fn readers_are_together_and_a_writer_is_alone(rt: HostRuntime) {
    let (lock, _mark) = Lock::new(5u64);
    let first = crossing(lock.try_read(&rt).expect(&rt, "a reader"));
    let second = lock.try_read(&rt).expect(&rt, "another one");
    assert!(rt; *first == 5 && *second == 5);
    assert!(rt; !lets_a_writer_in(&rt, &lock));
    drop(first);
    assert!(rt; !lets_a_writer_in(&rt, &lock));
    drop(second);
    assert!(rt; lets_a_writer_in(&rt, &lock));
    let mut writing = crossing(lock.try_write(&rt).expect(&rt, "the writer"));
    *writing = 7;
    assert!(rt; lock.try_read(&rt).is_none() && !lets_a_writer_in(&rt, &lock));
    drop(writing);
    let reading = lock.try_read(&rt).expect(&rt, "a reader");
    assert!(rt; *reading == 7);
    let Ok(mut writing) = reading.try_upgrade() else {
        panic!(rt; "the only reader")
    };
    *writing = 8;
    drop(writing);
    assert!(rt; lock.into_inner() == (8, 0));
}

#[test]
fn who_closed_a_lock_sees_that_it_is(rt: HostRuntime) {
    let (lock, mut mark) = Lock::new(5u64);
    assert!(rt; !lock.is_closed(&mut mark));
    let mut own = lock.try_write(&rt).expect(&rt, "the writer").close();
    assert!(rt; lock.is_closed(&mut own) && lock.is_closed(&mut mark));
    assert!(rt; !lets_a_writer_in(&rt, &lock) && lock.try_read(&rt).is_some());
}

#[test]
fn what_marks_know_is_copied_and_joined(rt: HostRuntime) {
    let (lock, mut mark) = Lock::new(5u64);
    let mut own = lock.try_write(&rt).expect(&rt, "the writer").close();
    let mut copy = lock.fork(&mut own);
    assert!(rt; lock.is_closed(&mut copy));
    lock.join(&mut mark, copy);
    let mut newcomer = lock.mark();
    assert!(rt; lock.is_closed(&mut mark) && lock.is_closed(&mut newcomer));
}

#[tactic(auto, using(crate::proofs::Closing::looks))]
fn wake(lock: &Lock<u64>, mark: &mut Mark<View>)
    requires { mark.old.slot ≡ lock.now.slot.name }
{
    lock.slot.wake_one::<Looks>(mark);
    lock.slot.wake_all::<Looks>(mark);
}

#[test]
fn a_thread_parks_only_beside_the_expected_word(rt: HostRuntime) {
    let (lock, mut mark) = Lock::new(5u64);
    lock.slot.park(&rt, &mark, 0);
    lock.slot
        .park_timeout(&rt, &mark, 1, Duration::from_millis(1));
    wake(&lock, &mut mark);
    assert!(rt; lock.slot.peek() == 1);
}

#[test]
fn the_owner_changes_the_value_in_place(rt: HostRuntime) {
    let (mut lock, mut mark) = Lock::new(5u64);
    lock.slot.get_mut().value = 6;
    assert!(rt; !lock.is_closed(&mut mark));
    assert!(rt; lock.into_inner() == (6, 0));
}

#[test]
fn guards_keep_their_lock_by_an_arc(rt: HostRuntime) {
    let (lock, _mark) = Lock::new(5u64);
    let lock = Arc::new(rt.alloc(), lock).expect(&rt, "memory");
    let share = || Arc::try_clone(&lock).expect(&rt, "a share");
    let mut writing = crossing(Owning::try_new(rt, share()).expect(&rt, "the writer"));
    *writing = 7;
    assert!(rt; writing.replace(8) == 7 && *writing == 8 && Sharing::first(rt, share()).is_none());
    assert!(rt; lock.try_read(&rt).is_none() && Arc::strong_count(&lock) == 2);
    drop(writing);
    let first = crossing(Sharing::first(rt, share()).expect(&rt, "a reader"));
    let second = lock.try_read(&rt).expect(&rt, "another one");
    assert!(rt; *first == 8 && *second == 8 && Owning::try_new(rt, share()).is_none());
    drop(first);
    drop(second);
    let owner = Owning::try_new(rt, share()).expect(&rt, "the writer again");
    drop(lock);
    assert!(rt; *owner == 8);
}

// Two numbers that a writer changes one after the other.
#[derive(Drop)]
struct Pair {
    one: u64,
    other: u64,
}

#[test]
fn threads_change_one_value_in_place(rt: HostRuntime) -> Result<(), Fail> {
    let (lock, _mark) = Lock::new(Pair { one: 0, other: 0 });
    let shared = &lock;
    let torn = thread::map_indices(
        &rt,
        rt.alloc(),
        THREADS,
        &|_| {
            let (mut left, mut torn) = (ROUNDS, 0u64);
            for _ in rt.forever() {
                if left == 0 {
                    break;
                }
                if let Some(reading) = shared.try_read(&rt) {
                    torn = torn.wrapping_add(u64::from(reading.one != reading.other));
                }
                if let Some(mut writing) = shared.write(&rt) {
                    writing.one = writing.one.wrapping_add(1);
                    writing.other = writing.other.wrapping_add(1);
                    left -= 1;
                }
            }
            torn
        },
    )?;
    assert!(rt; torn.iter().all(|count| *count == 0));
    let (Pair { one, other }, tally) = lock.into_inner();
    assert!(rt; one == ROUNDS * THREADS as u64 && other == one && tally == 0);
    Ok(())
}

#[test]
fn the_tally_is_out_with_one_at_a_time(rt: HostRuntime) {
    let (lock, _mark) = Lock::new(5u64);
    let reading = lock.try_read(&rt).expect(&rt, "a reader");
    let counting = lock.try_count(&rt).expect(&rt, "the tally");
    assert!(rt; !counts_once(&rt, &lock) && *reading == 5);
    assert!(rt; counting.end() == 1 && lock.shown() == 1);
    let counting = crossing(lock.try_count(&rt).expect(&rt, "the tally again"));
    assert!(rt; *lock.try_read(&rt).expect(&rt, "another reader") == 5);
    assert!(rt; counting.end() == 2 && lock.shown() == 2);
    drop(reading);
    assert!(rt; lock.into_inner() == (5, 2));
}

#[test]
fn threads_count_in_one_tally(rt: HostRuntime) -> Result<(), Fail> {
    let (lock, _mark) = Lock::new(5u64);
    let shared = &lock;
    let wrong = thread::map_indices(
        &rt,
        rt.alloc(),
        THREADS,
        &|_| {
            let (mut left, mut wrong) = (ROUNDS, 0u64);
            for _ in rt.forever() {
                if left == 0 {
                    break;
                }
                if let Some(reading) = shared.try_read(&rt) {
                    wrong = wrong.wrapping_add(u64::from(*reading != 5));
                }
                if let Some(counting) = shared.try_count(&rt) {
                    wrong = wrong.wrapping_add(u64::from(counting.end() == 0));
                    left -= 1;
                }
            }
            wrong
        },
    )?;
    assert!(rt; wrong.iter().all(|count| *count == 0));
    assert!(rt; lock.into_inner() == (5, ROUNDS * THREADS as u64));
    Ok(())
}
