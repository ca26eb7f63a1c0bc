//! What no clause sees of a word: that a thread which sleeps for the state is woken, and that threads which meet all get it.
ghost use Rattle.event_word.specs.Rules.{Rules};

use event_queue::WakeSink;
use event_wait::Task;
use event_word::{Kept, Word};
use std::sync::atomic::{AtomicU64, Ordering};
use std::sync::{Barrier, Wait};
use std::test::Fail;
use std::thread;
use std::time::{Clock, CpuClock, Duration};

const THREADS: usize = 4;

/// A state with nobody who waits. Whoever has it out adds to a sum beside it, by two steps that no other may come between.
#[derive(Drop)]
struct Tally;

impl Kept for Tally {
    ghost rules = { record {
      fits = λ _. Unit {0};
      stands = λ _ _. Unit {0};
      quiet = λ _. Unit {0};
      promised = λ _ _. Unit {0};
      tells = λ _ _. Unit {0};
      counts = λ _. 0;
    } };

    fn number(&self, number: u64) -> u64 {
        number
    }

    fn settle<K: WakeSink<Task>>(&mut self, _number: u64, _sink: &mut K) -> bool {
        false
    }

    ghost promises = { λ _ _ _. tt };
}

// Adds so much to the sum with the state out for so long.
fn add<R: Wait + Clock>(
    rt: &R,
    tally: &Word<Tally, ()>,
    sum: &AtomicU64,
    much: u64,
    long: Duration,
) {
    let (_, held) = tally.take(rt);
    if long > Duration::ZERO {
        thread::sleep(rt, long);
    }
    let before = sum.load(Ordering::SeqCst);
    sum.store(before.wrapping_add(much), Ordering::SeqCst);
    held.put_back(rt);
}

// Where a round takes long, each thread but the first finds the state out for far longer than it pauses, so it sleeps, and has
// to be woken.
fn add_in_rounds<R: Wait + Clock>(
    rt: &R,
    tally: &Word<Tally, ()>,
    sum: &AtomicU64,
    rounds: u64,
    long: Duration,
) {
    for _ in 0..rounds {
        add(rt, tally, sum, 1, long);
    }
}

#[test]
fn threads_that_meet_all_get_the_state(rt: HostRuntime) -> Result<(), Fail> {
    for (rounds, long) in [(20_000u64, 0u64), (1, 20)] {
        let tally = Word::new(0, Tally, ());
        let sum = AtomicU64::new(0);
        let long = Duration::from_millis(long);
        let adds = |_| add_in_rounds(&rt, &tally, &sum, rounds, long);
        let _ = thread::map_indices(&rt, rt.alloc(), THREADS, &adds)?;
        assert!(rt; sum.load(Ordering::SeqCst) == rounds.saturating_mul(THREADS as u64));
    }
    Ok(())
}

// A thread waits for the state, which another one has out for 300 milliseconds. One that looked at the word again and again
// would use far more than ten of them, on a busy machine too.
#[test]
fn a_thread_that_waits_for_the_state_uses_no_processor_time(rt: HostRuntime) -> Result<(), Fail> {
    let tally = &Word::new(0, Tally, ());
    let sum = &AtomicU64::new(0);
    let meeting = &Barrier::new(2);
    let holds = || {
        let (_, held) = tally.take(&rt);
        meeting.wait(&rt);
        thread::sleep(&rt, Duration::from_millis(300));
        held.put_back(&rt);
    };
    let adds = || {
        meeting.wait(&rt);
        let before = rt.thread_cpu_time();
        add(&rt, tally, sum, 1, Duration::ZERO);
        (before, rt.thread_cpu_time())
    };
    let ((), (before, after)) = thread::join(&rt, holds, adds);
    assert!(rt; after?.saturating_sub(before?) < Duration::from_millis(10));
    Ok(())
}
