//! What the programs print, and with which status they end.
use crate::support::check;
use example_events::locks::{CountError, MutexError, SemaphoreError};
use example_events::program::finish;
use example_events::threads::{Work, run_threads};
use std::alloc::{AllocError, AllocGlobal, Global};
use std::fmt::{Debug, Display};
use std::process::{Abort, ExitCode};
use std::sync::atomic::{AtomicBool, Ordering};
use std::sync::{Arc, Wait};
use std::thread;
use std::time::Clock;
use test_support::{Screen, spin_until};

// A program whose threads ended so, where this is wanted, prints that, and has this status.
fn prints<A, E, R>(rt: &R, ended: Result<A, E>, wanted: A, text: &str, status: ExitCode)
where
    A: PartialEq + Debug + Drop,
    E: Display + Drop,
    R: AllocGlobal + Abort,
{
    let screen = Screen::new(rt.alloc()).expect(rt, "a screen");
    let ends = finish(&screen, ended, wanted);
    let printed = screen.text().expect(rt, "a text");
    check(rt, "what is printed", printed.as_str(), text);
    check(rt, text, ends, status);
}

fn prints_count<R: AllocGlobal + Abort>(
    rt: &R,
    counted: Result<u64, CountError>,
    text: &str,
    status: ExitCode,
) {
    prints(rt, counted, 10, text, status);
}

#[test]
fn a_program_prints_done_or_its_fault(rt: HostRuntime) {
    let rt = &rt;
    prints_count(rt, Ok(10), "Done!\n", ExitCode::SUCCESS);
    let nine = "error: the threads ended with 9, not 10\n";
    prints_count(rt, Ok(9), nine, ExitCode::FAILURE);
    let refused = Err(CountError::from(AllocError));
    let no_memory = "error: no memory for the program\n";
    prints_count(rt, refused, no_memory, ExitCode::FAILURE);
    let closed = Screen::new(rt.alloc()).expect(rt, "a screen");
    drop(closed.text());
    let ends = finish(&closed, Ok::<u64, CountError>(10), 10);
    check(rt, "a closed screen", ends, ExitCode::FAILURE);
}

// Two threads that both fail. The first one fails after the second has ended.
#[derive(Drop)]
struct BothFail {
    second_fails: AtomicBool,
    second_has_ended: AtomicBool,
}

impl Work<CountError> for BothFail {
    fn work<R>(&self, rt: &R, _alloc: Global, place: usize) -> Result<(), CountError>
    where
        R: Wait + Clock + Clone,
    {
        if place == 0 {
            spin_until(rt, || self.second_has_ended.load(Ordering::SeqCst));
            return Err(CountError::from(MutexError::SerialsUsedUp));
        }
        self.second_fails.store(true, Ordering::SeqCst);
        Err(CountError::from(SemaphoreError::Memory))
    }
}

// A thread gives its share up where it ends. The shares that are left then are that of the test and that of the first.
fn see_the_second_end<R: Wait>(rt: &R, work: &Arc<BothFail>) {
    spin_until(rt, || work.second_fails.load(Ordering::SeqCst));
    spin_until(rt, || Arc::strong_count(work) == 2);
    work.second_has_ended.store(true, Ordering::SeqCst);
}

#[test]
fn the_first_fault_in_the_order_of_starting_is_printed(rt: HostRuntime) {
    let work = BothFail {
        second_fails: AtomicBool::new(false),
        second_has_ended: AtomicBool::new(false),
    };
    let work = Arc::new(rt.alloc(), work).ok().expect(&rt, "a share");
    let (ended, ()) = thread::join(
        &rt,
        || run_threads(rt, rt.alloc(), &work, 2),
        || see_the_second_end(&rt, &work),
    );
    let text = "error: serial numbers are used up\n";
    prints(&rt, ended, (), text, ExitCode::FAILURE);
}
