//! What the tests share: the one assertion, and the calls that have to succeed. Each ends the test where it does not.
use event_listener::{Event, EventId, EventIds, EventListener, Listener};
use futures::test::MockTask;
use std::alloc::{AllocError, AllocGlobal};
use std::fmt::Debug;
use std::process::Abort;
use std::random::RandomSource;
use std::sync::Wait;
use test_support::ListenerKind;
pub use test_support::Runtime;

/// The answer is the expected one. Where it is not, the message has both, and what was asked. The assertion stands here
/// once, in a generic function, and is proved once.
pub fn check<A, V, R>(rt: &R, asked: A, answer: V, expected: V)
where
    A: Debug + Drop,
    V: PartialEq + Debug + Drop,
    R: Abort,
{
    assert_eq!(rt; answer, expected, "{asked:?}");
}

/// What was written is this text.
pub fn reads<R: Abort>(rt: &R, written: Result<String, AllocError>, text: &str) {
    let written = written.expect(rt, "a text");
    check(rt, "the text", written.as_str(), text);
}

/// The value has this text for debugging.
pub fn shows<V: Debug, R: Abort + AllocGlobal>(rt: &R, value: &V, text: &str) {
    reads(rt, format!(in rt.alloc(); "{value:?}"), text);
}

/// The first identity of a source.
pub fn new_id<R: Abort>(rt: &R) -> EventId {
    EventIds::new().next().expect(rt, "an identity")
}

/// Makes a new event, the only event of its source.
pub fn new_event<T, R: Abort>(rt: &R) -> Event<T> {
    Event::with_tag(new_id(rt))
}

/// A task that is not woken.
pub fn new_task<R: Abort + RandomSource + AllocGlobal>(rt: &R) -> MockTask {
    MockTask::new(rt).expect(rt, "a task")
}

/// A new listener of this kind.
pub fn listen_as<'ev, K, L, R>(rt: &R, event: &'ev Event<u32>) -> L
where
    K: ListenerKind<'ev, u32, R, Listener = L>,
    R: Runtime,
{
    K::listen(rt, rt.alloc(), event).expect(rt, "a listener")
}

/// A new listener that shares the queue of its event.
pub fn sharing<T: Drop, R: Runtime>(rt: &R, event: &Event<T>) -> EventListener<T, R> {
    event.listen(rt, rt.alloc()).expect(rt, "a listener")
}

/// Discards a listener. Whether it is told.
pub fn discard<T, L: Listener<T>, R: Abort>(rt: &R, listener: L, is_told: bool) {
    check(rt, "whether it is told", listener.discard(), is_told);
}

/// So many listeners are in the queue, and whether some of them are told.
pub fn has_listeners<T, R: Abort + Wait>(rt: &R, event: &Event<T>, total: usize, is_told: bool) {
    let counts = (event.total_listeners(rt), event.is_notified(rt));
    check(rt, "the listeners", counts, (total, is_told));
}
