//! The tasks of polls, in the order in which they are woken or let go.
use crate::tasks::WakeOrder;
use futures::task::Waker;
use std::alloc::{AllocError, AllocGlobal};
use std::random::RandomSource;
use std::sync::Wait;
use std::time::Clock;

/// What the subjects ask of a runtime value.
pub trait Runtime: AllocGlobal + RandomSource + Wait + Clock + Clone {}

impl<R: AllocGlobal + RandomSource + Wait + Clock + Clone> Runtime for R {}

/// Notes which tasks a call wakes. A waker of `futures` wakes its task when it is dropped, too.
#[derive(Drop)]
pub struct Wakes<'a, R> {
    rt: &'a R,
    order: WakeOrder,
    // The names of the tasks by their numbers.
    names: Vec<usize>,
    // A task that is woken after the call.
    mark: Option<(usize, Waker)>,
}

impl<'a, R: Runtime> Wakes<'a, R> {
    /// Notes none so far.
    pub fn new(rt: &'a R) -> Result<Self, AllocError> {
        let Ok(order) = WakeOrder::new(rt) else {
            return Err(AllocError);
        };
        Ok(Wakes {
            rt,
            order,
            names: Vec::new(rt.alloc()),
            mark: None,
        })
    }

    /// A waker of a new task of that name.
    pub fn waker(&mut self, name: usize) -> Result<Waker, AllocError> {
        let (task, waker) = self.order.task(self.rt)?;
        for _ in self.names.len()..=task {
            self.names.push(usize::MAX)?;
        }
        if let Some(place) = self.names.get_mut(task) {
            *place = name;
        }
        Ok(waker)
    }

    /// Comes before a call and its wakers.
    pub fn begin(&mut self) -> Result<(), AllocError> {
        self.mark = Some(self.order.task(self.rt)?);
        Ok(())
    }

    /// Comes after a call. Adds the names of those that were woken since it began.
    pub fn end(&mut self, woken: &mut Vec<usize>) -> Result<(), AllocError> {
        let (last, waker) = self.mark.take().ok_or(AllocError)?;
        waker.wake();
        for _ in 0..usize::MAX {
            match self.order.next(self.rt) {
                Some(task) if task != last => {
                    woken.push(self.names.get(task).copied().unwrap_or(usize::MAX))?;
                }
                _ => break,
            }
        }
        Ok(())
    }
}
