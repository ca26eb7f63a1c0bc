//! What the tests share: the comparison of an answer, and memory that is taken. Each ends the test where it fails.
use crate::budget::Budget;
use crate::hog::Hog;
use crate::starved::Starved;
use event_listener::{EventId, EventIds};
use futures::test::MockTask;
use std::alloc::AllocGlobal;
use std::fmt::Debug;
use std::process::Abort;
pub use test_support::Runtime;

/// What is compared.
pub trait Answer: PartialEq + Debug + Drop {}

impl<V: PartialEq + Debug + Drop> Answer for V {}

/// The answer is the expected one. Where it is not, the message has both, and what was asked. The assertion stands here
/// once, in a generic function, and is proved once.
pub fn check<A: Debug + Drop, V: Answer, R: Abort>(rt: &R, asked: A, answer: V, expected: V) {
    assert_eq!(rt; answer, expected, "{asked:?}");
}

/// The first identity of a source.
pub fn new_id<R: Abort>(rt: &R) -> EventId {
    EventIds::new().next().expect(rt, "an identity")
}

/// A task that is not woken.
pub fn new_task<R: Runtime>(rt: &R) -> MockTask {
    MockTask::new(rt).expect(rt, "a task")
}

/// All memory.
pub fn all_memory<R: Abort + AllocGlobal>(rt: &R) -> Hog {
    Hog::new(rt.alloc()).expect(rt, "all memory")
}

/// All memory but a reserve, of which a test says how much is left.
pub fn new_budget<R: Abort + AllocGlobal>(rt: &R) -> Budget {
    Budget::new(rt.alloc()).expect(rt, "all memory but a reserve")
}

/// From now on no more than so many bytes are left.
pub fn leave<R: Abort>(rt: &R, budget: &mut Budget, bytes: usize) {
    budget.leave(bytes).expect(rt, "so much of the reserve");
}

/// Makes the call with no memory, and with more each time until it is granted, so that each of its requests is refused in
/// its turn. Answers how often it was refused.
pub fn count_refused<S: Starved, R: Abort + AllocGlobal>(rt: &R, call: &S) -> usize {
    let mut budget = new_budget(rt);
    match budget.count_refused(call) {
        Some(refused) => refused,
        None => panic!(rt; "no budget serves"),
    }
}

/// Does it so often that it would run out of memory if each time left a few bytes behind.
pub fn comes_back<F: Fn(), R: Abort + AllocGlobal>(rt: &R, make_and_drop: F)
    requires { F.IsAlwaysCallable make_and_drop }
{
    let mut budget = new_budget(rt);
    let done = budget.do_often(make_and_drop);
    done.expect(rt, "so much of the reserve");
}
