//! What the tests share.
use futures::test::MockTask;
use std::alloc::AllocGlobal;
use std::fmt::{Debug, Display};
use std::process::Abort;
use std::random::RandomSource;

/// The answer is the expected one. Where it is not, the message has both, and what was asked. The assertion stands here
/// once, in a generic function, and is proved once.
pub fn check<A, V, R>(rt: &R, asked: A, answer: V, expected: V)
where
    A: Display + Drop,
    V: PartialEq + Debug + Drop,
    R: Abort,
{
    assert_eq!(rt; answer, expected, "{asked}");
}

/// A task that is not woken.
pub fn new_task<R: Abort + RandomSource + AllocGlobal>(rt: &R) -> MockTask {
    MockTask::new(rt).expect(rt, "a task")
}
