//! What gets the tasks that the queues of a text wake.
use crate::answer::{Answer, Reply};
use event_queue::Woken;
use std::alloc::{AllocError, Global};

/// A sink for one call after another.
#[derive(Drop)]
pub struct Sink {
    woken: Woken<usize>,
    // Whether the text sets its room. Then it is that of all calls from there on.
    is_kept: bool,
    // How many tasks it had before the call, and how many it had missed.
    before: (usize, usize),
    // Whether a task that is let go counts as woken, and the one that the last call let go.
    wakes_let_go: bool,
    let_go: Option<usize>,
}

impl Sink {
    /// A sink that gets no tasks before `begin`.
    pub fn new(alloc: Global) -> Result<Self, AllocError> {
        Ok(Sink {
            woken: Woken::with_room(alloc, 0)?,
            is_kept: false,
            before: (0, 0),
            wakes_let_go: false,
            let_go: None,
        })
    }

    /// From now on, a task that is let go counts as woken.
    pub fn wakes_let_go(&mut self) {
        self.wakes_let_go = true;
    }

    /// The call lets this task go.
    pub fn let_go(&mut self, task: Option<usize>) {
        self.let_go = task;
    }

    /// What the queue wakes tasks by.
    pub fn woken(&mut self) -> &mut Woken<usize> {
        &mut self.woken
    }

    /// Comes before a call, which wakes so many tasks at most.
    pub fn begin(&mut self, alloc: Global, tasks: usize) -> Result<(), AllocError> {
        if !self.is_kept {
            self.woken = Woken::with_room(alloc, tasks)?;
        }
        self.before = self.shape();
        self.let_go = None;
        Ok(())
    }

    /// Makes room for so many tasks of the calls that follow.
    pub fn set_room(&mut self, alloc: Global, tasks: usize) -> Reply {
        match Woken::with_room(alloc, tasks) {
            Ok(woken) => {
                self.woken = woken;
                self.is_kept = true;
                self.before = (0, 0);
                Reply::Done
            }
            Err(_) => Reply::NoMemory,
        }
    }

    /// How many tasks it has, and how many it missed.
    pub fn shape(&self) -> (usize, usize) {
        (self.woken.tasks().len(), self.woken.missed())
    }

    /// Adds what the call woke.
    pub fn note(&self, answer: &mut Answer) -> Result<(), AllocError> {
        let (tasks, missed) = self.before;
        for task in self.woken.tasks().iter().skip(tasks) {
            answer.woken.push(*task)?;
        }
        match self.let_go {
            Some(task) if self.wakes_let_go => answer.woken.push(task)?,
            _ => {}
        }
        answer.missed = self.woken.missed().saturating_sub(missed);
        Ok(())
    }
}
