//! Wakers for tests that poll by hand.
use calls_events::waker_of;
use futures::task::Waker;
use futures::test::MockTask;
use std::alloc::AllocGlobal;
use std::io;
use std::random::RandomSource;

/// A waker of a new task, which nobody looks at. The task allocates; the error is a refusal of it, or of the random
/// numbers that it starts from.
pub fn any_waker<R: RandomSource + AllocGlobal>(rt: &R) -> io::Result<Waker> {
    Ok(waker_of(&MockTask::new(rt)?)?)
}
