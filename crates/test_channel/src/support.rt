//! What the tests share.
use event_channel::{Receiver, Sender, bounded, unbounded};
use std::fmt::Debug;
use std::process::Abort;
pub use test_support::{Runtime, SharedRuntime};

/// Checks that the answer is the expected answer. Where it is not, the message has both, and what was asked. The assertion
/// stands here once, in a generic function, and is proved once.
pub fn check<A, V, R>(rt: &R, asked: A, answer: V, expected: V)
where
    A: Debug + Drop,
    V: PartialEq + Debug + Drop,
    R: Abort,
{
    assert_eq!(rt; answer, expected, "{asked:?}");
}

/// Both sides of a channel of numbers.
pub type Sides<R> = (Sender<usize, R>, Receiver<usize, R>);

/// Makes a new channel with this capacity or without a limit.
pub fn sides<R: Runtime>(rt: &R, capacity: Option<usize>) -> Sides<R> {
    let made = match capacity {
        Some(capacity) => bounded(rt, rt.alloc(), capacity),
        None => unbounded(rt, rt.alloc()),
    };
    made.expect(rt, "a channel")
}
