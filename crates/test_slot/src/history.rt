//! A state under a lock of `event_history`: what no clause sees, that a thread which sleeps for the state is woken, and that
//! threads which meet all get it.
ghost use Rattle.std.specs.Prelude.{◌≡◌, ◌+◌, ◌%◌, ◌^◌, ⊤};

use event_history::{Step, Steps, Traced};
use std::sync::Wait;
use std::test::Fail;
use std::time::{Clock, Duration};
use std::{mem, thread};

const THREADS: usize = 4;

const ROUNDS: u64 = 20_000;

/// What has been added up.
#[derive(Drop)]
struct Tally {
    sum: u64,
}

/// An addition of so much, and the sum before.
struct Added(u64, u64);

impl Steps for Tally {
    type Call = Added;

    type Start = u64;

    ghost starts = { λ start tally. tally.sum ≡ start };

    ghost goes = { λ old call new. (call.1 ≡ old.sum) × (new.sum ≡ (old.sum + call.0) % 2 ^ 64) };
}

/// Adds so much.
#[derive(Drop)]
struct Add(u64);

impl Step<Tally, ()> for Add {
    type Reply = u64;

    ghost call = { λ step reply. record { 0 = step.0; 1 = reply } };

    ghost does = { λ _ _ _ _ _ _. ⊤ };

    fn make(self, tally: &mut Tally, _beside: &mut ()) -> u64 {
        let before = tally.sum;
        tally.sum = before.wrapping_add(self.0);
        before
    }
}

/// Adds so much, and has the state for so long.
#[derive(Drop)]
struct AddSlowly(u64, Duration);

impl<R: Wait + Clock> Step<Tally, &R> for AddSlowly {
    type Reply = u64;

    ghost call = { λ step reply. record { 0 = step.0; 1 = reply } };

    ghost does = { λ _ _ _ _ _ _. ⊤ };

    fn make(self, tally: &mut Tally, rt: &mut &R) -> u64 {
        thread::sleep(*rt, self.1);
        let before = tally.sum;
        tally.sum = before.wrapping_add(self.0);
        before
    }
}

#[test]
fn threads_that_meet_add_in_one_history(rt: HostRuntime) -> Result<(), Fail> {
    let (tally, first) = Traced::new(Tally { sum: 0 }, &0);
    first.end();
    let shared = &tally;
    let added = thread::map_indices(
        &rt,
        rt.alloc(),
        THREADS,
        &|_| {
            let mut added = 0u64;
            for _ in 0..ROUNDS {
                let mut mine = shared.hand();
                let _ = shared.perform(&rt, &mut mine, Add(3), &mut ());
                mine.end();
                added = added.wrapping_add(3);
            }
            added
        },
    )?;
    assert!(rt; added.iter().all(|sum| *sum == 3 * ROUNDS));
    let mut hand = tally.hand();
    let sum = tally.perform(&rt, &mut hand, Add(0), &mut ());
    hand.end();
    assert!(rt; sum == 3 * ROUNDS * THREADS as u64);
    Ok(())
}

// Each thread but the first finds the state taken for far longer than it pauses, so it sleeps, and has to be woken.
#[test]
fn a_thread_that_sleeps_for_the_state_is_woken(rt: HostRuntime) -> Result<(), Fail> {
    let (tally, first) = Traced::new(Tally { sum: 0 }, &0);
    first.end();
    let shared = &tally;
    let before = thread::map_indices(
        &rt,
        rt.alloc(),
        THREADS,
        &|_| {
            let mut mine = shared.hand();
            let slowly = AddSlowly(1, Duration::from_millis(20));
            let before = shared.perform(&rt, &mut mine, slowly, &mut &rt);
            mine.end();
            before
        },
    )?;
    let mut sum = 0u64;
    for found in before.iter() {
        sum = sum.wrapping_add(*found);
    }
    assert!(rt; sum == 0 + 1 + 2 + 3);
    let mut hand = tally.hand();
    let last = tally.perform(&rt, &mut hand, Add(0), &mut ());
    hand.end();
    assert!(rt; last == THREADS as u64);
    Ok(())
}

#[test]
fn a_hand_at_rest_is_shared_by_threads(rt: HostRuntime) -> Result<(), Fail> {
    let (tally, hand) = Traced::new(Tally { sum: 0 }, &0);
    let mut resting = hand.rest();
    assert!(rt; mem::size_of_val(&resting) == 0);
    let shared = &resting;
    let seen = thread::map_indices(&rt, rt.alloc(), THREADS, &|_| mem::size_of_val(shared));
    let mut hand = resting.take();
    assert!(rt; tally.perform(&rt, &mut hand, Add(5), &mut ()) == 0);
    resting.put(hand);
    resting.into_hand().end();
    assert!(rt; seen?.iter().all(|bytes| *bytes == 0));
    Ok(())
}
