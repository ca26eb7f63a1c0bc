//! What the tests share.
use event_locks::{Mutex, RwLock, Semaphore};
use event_wait::pause;
use futures::test::MockTask;
use std::alloc::{AllocError, AllocGlobal};
use std::fmt::{Debug, Display};
use std::process::Abort;
use std::random::RandomSource;
use std::sync::Wait;
use std::thread;

/// Checks that the answer is the expected answer. Where it is not, the message has both, and what was asked. The assertion
/// stands here once, in a generic function, and is proved once.
pub fn check<A, V, R>(rt: &R, asked: A, answer: V, expected: V)
where
    A: Display + Drop,
    V: PartialEq + Debug + Drop,
    R: Abort,
{
    assert_eq!(rt; answer, expected, "{asked}");
}

/// Makes a semaphore with so many permits.
pub fn new_semaphore<R: AllocGlobal>(rt: &R, permits: usize) -> Semaphore {
    Semaphore::new(rt.alloc(), permits)
}

/// Makes a mutex round this value.
pub fn new_mutex<T: Drop, R: AllocGlobal>(rt: &R, value: T) -> Mutex<T> {
    Mutex::new(rt.alloc(), value)
}

/// Makes a read-write lock round this value.
pub fn new_lock<T, R: AllocGlobal>(rt: &R, value: T) -> RwLock<T> {
    RwLock::new(rt.alloc(), value)
}

/// Makes a task that is not woken.
pub fn new_task<R: Abort + RandomSource + AllocGlobal>(rt: &R) -> MockTask {
    MockTask::new(rt).expect(rt, "a task")
}

/// Returns the sum of what the threads counted.
pub fn sum<R: Abort>(rt: &R, counted: Result<Vec<usize>, AllocError>) -> usize {
    let mut all = 0usize;
    for counted in counted.expect(rt, "the threads").iter() {
        all = all.saturating_add(*counted);
    }
    all
}

/// Returns once this is so. The call looks often at first: threads that race are to run at once.
pub fn wait_until<R: Wait, F: Fn() -> bool>(rt: &R, is_so: F)
    requires { F.IsAlwaysCallable is_so }
{
    for _ in rt.forever() {
        for _ in 0..100u32 {
            if is_so() {
                return;
            }
            pause(1);
        }
        thread::yield_now();
    }
}
