//! The tasks that a step wakes, once the state is back.
ghost use Rattle.std.specs.Prelude.{◌≡◌, ◌+◌, ◌<◌};

use event_queue::WakeSink;
use event_wait::{DeferredWake, Task};
use std::alloc::{AllocError, AllocFailed, Global};
use std::collections::VecDeque;
use std::marker::Model;

/// The number of tasks that a thread wakes before it takes the state again to see which others are to be woken.
pub(crate) const FEW: usize = 8;

/// Room beside a state for the tasks of all its waiters, once these are more than a few.
///
/// Each waiter makes room for its own task, so that a thread that notifies takes no memory. A contract sees nothing of the room.
#[derive(Drop)]
pub struct Room {
    tasks: Option<Box<VecDeque<Task, Global>, Global>>,
}

impl Model for Room {
    ghost Value = { Unit {0} };

    ghost view = { λ _. tt };
}

impl Room {
    /// Makes the room of a state with no more than a few waiters. Takes no memory.
    #[inline(always)]
    pub fn new() -> Self {
        Room { tasks: None }
    }

    /// Makes room for the tasks of `waiting` waiters.
    ///
    /// Allocates if these are more than a few, and more than there was room for before. An error leaves the room that there was.
    pub fn make(&mut self, alloc: Global, waiting: usize) -> Result<(), AllocError> {
        if waiting <= FEW {
            return Ok(());
        }
        let mut tasks = match self.tasks.take() {
            Some(tasks) => tasks,
            None => Box::new(alloc, VecDeque::new(alloc))?,
        };
        let made = tasks.reserve(waiting);
        self.tasks = Some(tasks);
        made
    }

    // Stores a task behind the others, or returns the task as an error where there is no room.
    fn store(&mut self, task: Task) -> Result<(), Task> {
        let Some(tasks) = &mut self.tasks else {
            return Err(task);
        };
        match tasks.push_back(task) {
            Ok(()) => Ok(()),
            Err(AllocFailed { value }) => Err(value),
        }
    }

    // Removes the first task, and returns it.
    fn next(&mut self) -> Option<Task> {
        match &mut self.tasks {
            Some(tasks) => tasks.pop_front(),
            None => None,
        }
    }

    fn is_empty(&self) -> bool {
        match &self.tasks {
            Some(tasks) => tasks.is_empty(),
            None => true,
        }
    }
}

/// The tasks that a thread has to wake which notified with the state out: a few at hand, and the others in the room beside the
/// state. No task is woken before the state is back.
///
/// This type is not `Drop`, so each thread that makes a value wakes those tasks. The relation of this sink counts the tasks at
/// hand alone, since no contract can name what sleeps; tests show that the sink wakes.
pub(crate) struct Wakes {
    few: [Option<Task>; FEW],
    held: usize,
    // The room, while the state is out and this is its sink.
    pub(crate) room: Room,
    // Whether tasks lie in the room that this thread has to wake.
    are_more: bool,
}

impl Wakes {
    /// Makes a value with no tasks to wake.
    #[inline(always)]
    pub(crate) fn new() -> Self
        ensures { result.held ≡ 0 }
    {
        Wakes {
            few: [None, None, None, None, None, None, None, None],
            held: 0,
            room: Room::new(),
            are_more: false,
        }
    }

    /// Moves a few of the tasks that this thread has to wake from the room to the few at hand.
    pub(crate) fn refill(&mut self) {
        if !self.are_more {
            return;
        }
        for _ in 0..FEW {
            if self.held >= FEW {
                break;
            }
            let Some(task) = self.room.next() else {
                break;
            };
            self.hold(task);
        }
        self.are_more = !self.room.is_empty();
    }

    #[inline(always)]
    fn hold(&mut self, task: Task)
        requires { self.old.held < 8 }
        ensures { self.new.held ≡ self.old.held + 1 }
    {
        self.few[self.held] = Some(task);
        self.held += 1;
    }

    /// Wakes the tasks at hand, and returns whether there are others to wake: then the state is to be taken again. The caller has
    /// put the state back.
    pub(crate) fn wake_few(&mut self) -> bool
        ensures { self.new.held ≡ 0 }
    {
        let mut waking = DeferredWake::new();
        for at in 0..self.held.min(FEW) {
            if let Some(task) = self.few[at].take() {
                waking.wake(task);
            }
        }
        waking.finish();
        self.held = 0;
        self.are_more
    }

    /// Ends the value, once all its tasks are woken.
    #[inline(always)]
    pub(crate) fn end(self)
        requires { self.held ≡ 0 }
    {
        let Wakes {
            few,
            held: _,
            room,
            are_more: _,
        } = self;
        drop(few);
        drop(room);
    }
}

impl WakeSink<Task> for Wakes {
    ghost woke = { λ before _ after. before.held < 8 → after.held ≡ before.held + 1 };

    #[inline(always)]
    fn wake(&mut self, task: Task)
        ensures at_hand { self.old.held < 8 → self.new.held ≡ self.old.held + 1 }
    {
        if self.held < FEW {
            self.hold(task);
            return;
        }
        self.store(task);
    }
}

impl Wakes {
    // Stores a task in the room. Each waiter has made room, so no task is woken here.
    #[cold]
    #[inline(never)]
    fn store(&mut self, task: Task)
        ensures { self.new.held ≡ self.old.held }
    {
        match self.room.store(task) {
            Ok(()) => self.are_more = true,
            Err(task) => {
                let mut waking = DeferredWake::new();
                waking.wake(task);
                waking.finish();
            }
        }
    }
}
