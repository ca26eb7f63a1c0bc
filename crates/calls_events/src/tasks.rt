//! Tasks, and wakers of them.
use futures::task::{Doorbell, Poll, Queue, Source, Waker};
use futures::test::MockTask;
use std::alloc::{AllocError, AllocGlobal};
use std::io;
use std::random::RandomSource;
use std::sync::Wait;

/// A waker of this task. It wakes the task when it is dropped, too. The error comes where no waker can be made.
pub fn waker_of(task: &MockTask) -> Result<Waker, AllocError> {
    let source = Source::new();
    let mut slot = None;
    task.enter(|cx| {
        let _: Poll<()> = cx.register(&source, &mut slot);
    });
    slot.ok_or(AllocError)
}

/// Tasks that are noted in the order in which they are woken.
#[derive(Drop)]
pub struct WakeOrder {
    queue: Queue,
}

impl WakeOrder {
    /// An order with no task. It allocates; the error is a refusal of memory, or of the random numbers that it starts
    /// from.
    pub fn new<R: RandomSource + AllocGlobal>(rt: &R) -> io::Result<Self> {
        Ok(WakeOrder {
            queue: Queue::new(rt, Doorbell::parking())?,
        })
    }

    /// A new task, which is not woken yet: its number, and a waker of it. The task allocates. Every task of the order
    /// that was woken has to be taken by [`next`](WakeOrder::next) before.
    pub fn task<R: Wait>(&self, rt: &R) -> Result<(usize, Waker), AllocError> {
        self.queue.add()?.schedule();
        let Some(mut cx) = self.queue.next(rt) else {
            return Err(AllocError);
        };
        let task = cx.task();
        let mut slot = None;
        let _: Poll<()> = cx.register(&Source::new(), &mut slot);
        cx.park();
        Ok((task, slot.ok_or(AllocError)?))
    }

    /// The task that was woken next. The thread is parked until there is one, or until the order is closed.
    pub fn next<R: Wait>(&self, rt: &R) -> Option<usize> {
        let cx = self.queue.next(rt)?;
        let task = cx.task();
        cx.cancel();
        Some(task)
    }

    /// Lets a thread go that waits in `next`.
    pub fn close(&self) {
        self.queue.shut_down();
    }
}
