//! Taking a lock that is mostly free.
use std::hint;
use std::sync::{Mutex, MutexGuard, Wait};

/// Takes a [`Lock`](crate::Lock), and evaluates to its guard; waits while another thread has the lock.
///
/// A caller tests after each call of a function that may wait, inlined or not, whether the caller is to end. So this is a macro
/// and no function: a free lock is taken with no such test.
#[macro_export]
macro_rules! take_lock {
    ($lock:expr, $rt:expr) => {{
        let mutex = $lock.mutex();
        match mutex.try_lock() {
            Some(guard) => guard,
            None => $crate::wait_for_lock(mutex, $rt),
        }
    }};
}

/// Makes one step under a [`Lock`](crate::Lock), and evaluates to what the step does: an expression over the state and over the
/// sink of the tasks that it wakes.
///
/// The task that the step wakes last is woken once the lock is given back. Most steps wake nobody, which is the short way.
#[macro_export]
macro_rules! step {
    ($lock:expr, $rt:expr, $state:ident, $waking:ident => $step:expr) => {{
        let mut $waking = $crate::DeferredWake::new();
        let mut $state = $crate::take_lock!($lock, $rt);
        let answer = $step;
        drop($state);
        $waking.finish_seldom();
        answer
    }};
}

/// The number of pauses that a thread makes before each look at a lock that another thread has.
///
/// A thread that looks takes the word of the lock from the processor of the thread that has the lock, so a thread looks seldom.
pub const PAUSES: [u32; 6] = [64, 128, 256, 256, 256, 256];

/// Has the processor pause so many times, each time for some tens of nanoseconds.
///
/// A thread pauses before it looks again for what others keep for a moment. The call lets no other thread run, because that would
/// cost a time slice where all processors are busy.
pub fn pause(times: u32) {
    for _ in 0..times {
        hint::spin_loop();
    }
}

/// Takes a lock that another thread had a moment ago, and returns its guard.
///
/// The thread pauses and looks, ever more seldom, and at last sleeps until the lock is given back. A sleep, with the wake that
/// ends it, costs far more than a step under such a lock, and once one thread sleeps, the standard lock has all others sleep,
/// too. The call does not allocate.
///
/// This is a function of its own, so that taking a free lock is a few instructions.
#[cold]
#[inline(never)]
pub fn wait_for_lock<'a, T, R: Wait>(mutex: &'a Mutex<T>, rt: &R) -> MutexGuard<'a, T> {
    for pauses in PAUSES {
        pause(pauses);
        if let Some(guard) = mutex.try_lock() {
            return guard;
        }
    }
    mutex.lock(rt)
}
