//! What the tests share: what ends a test, and calls that have to succeed.
use event_listener::{Event, EventId, EventIds, EventListener, IntoNotification, IntoTagged};
use futures::test::MockTask;
use std::alloc::AllocGlobal;
use std::fmt::Debug;
use std::process::Abort;
use std::random::RandomSource;
use std::sync::Wait;
use std::thread::Threads;
use test_support::Runtime;

/// What a test asks of its runtime value that starts threads.
pub trait Host: Runtime + Threads + Sync {}

impl<R: Runtime + Threads + Sync> Host for R {}

/// The answer is the expected one. Where it is not, the message has both, and what was asked. The assertion stands here
/// once, in a generic function, and is proved once.
pub fn check<A, V, R>(rt: &R, asked: A, answer: V, expected: V)
where
    A: Debug + Drop,
    V: PartialEq + Debug + Drop,
    R: Abort,
{
    assert_eq!(rt; answer, expected, "{asked:?}");
}

/// The first identity of a source.
pub fn new_id<R: Abort>(rt: &R) -> EventId {
    EventIds::new().next().expect(rt, "an identity")
}

/// A new listener.
pub fn listen<R: Runtime>(rt: &R, event: &Event<u32>) -> EventListener<u32, R> {
    event.listen(rt, rt.alloc()).expect(rt, "a listener")
}

/// Notifies one listener more, with the tag 7.
pub fn tell<R: Abort + Wait>(rt: &R, event: &Event<u32>) {
    let told = event.notify(rt, 1.additional().tag(7u32));
    check(rt, "listeners told", told, Ok(1));
}

/// A task that is not woken.
pub fn new_task<R: Abort + RandomSource + AllocGlobal>(rt: &R) -> MockTask {
    MockTask::new(rt).expect(rt, "a task")
}

/// Since its last poll began the task was woken, or was not.
pub fn is_woken<R: Abort>(rt: &R, task: &MockTask, expected: bool) {
    check(rt, "whether the task is woken", task.is_woken(), expected);
}
