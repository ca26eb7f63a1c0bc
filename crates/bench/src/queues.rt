//! Queues, however they are reached.
mod events;
mod lists;
mod recorded;

pub use events::{OnBorrowed, OnEvent, events};
use futures::task::{Context, Poll, Source, Waker};
pub use lists::OnList;
pub use recorded::OnRecorded;

/// A queue: by an event and its listeners, by a recorded event, or as a value.
pub trait Queue: Drop {
    /// What stands in the queue.
    type Listener: Drop;

    /// A new listener, if it is not refused.
    fn listen(&mut self) -> Option<Self::Listener>;

    /// Polls a listener in this task, and answers whether it was told.
    fn poll(&mut self, listener: &mut Self::Listener, cx: &mut Context<'_>) -> bool;

    /// Notifies so many, and answers how many were told.
    fn notify(&mut self, count: usize) -> usize;

    /// Drops a listener: at the end of the scope, where it can be dropped, since a call of `drop` is never inlined.
    fn leave(&mut self, listener: Self::Listener);
}

/// A new waker of this task. There is none where its count of wakers is used up.
#[inline(always)]
pub fn waker_of(cx: &mut Context<'_>) -> Option<Waker> {
    let mut slot = None;
    let _: Poll<()> = cx.register(&Source::new(), &mut slot);
    slot
}
