//! The tasks that a step wakes, once the lock is given back.
use event_queue::WakeSink;
use event_wait::{DeferredWake, Task};
use std::alloc::Global;

// For so many tasks a thread that notifies has room at hand.
const FEW: usize = 8;

/// The tasks that a step wakes: the first few at hand of the thread that makes the step, and the others in the room beside the
/// state, which is here while the step is made. The tasks are woken once the lock is given back, except the task of a waiter that
/// was refused the memory for its room: that task is woken under the lock.
///
/// This type is not `Drop`, so each thread that makes a value wakes those tasks. The relation of this sink says nothing, since no
/// contract can name what sleeps; tests show that the tasks are woken.
pub(crate) struct Wakes {
    few: [Option<Task>; FEW],
    held: usize,
    pub(crate) room: Room,
}

impl Wakes {
    /// Makes a value with no tasks to wake.
    #[inline(always)]
    pub(crate) fn new() -> Self {
        Wakes {
            few: [None, None, None, None, None, None, None, None],
            held: 0,
            room: Room::new(),
        }
    }

    /// Wakes the tasks in order. The caller has given the lock back.
    #[inline(always)]
    pub(crate) fn finish(self) {
        let Wakes { few, held, room } = self;
        if held > 0 {
            wake_each(few, room);
        } else {
            drop(few);
            drop(room);
        }
    }
}

impl WakeSink<Task> for Wakes {
    ghost woke = { λ _ _ _. Unit {0} };

    #[inline(always)]
    fn wake(&mut self, task: Task) {
        if self.held < FEW {
            self.few[self.held] = Some(task);
            self.held += 1;
            return;
        }
        store_apart(&mut self.room, task);
    }
}

#[inline(never)]
fn wake_each(few: [Option<Task>; FEW], room: Room) {
    let mut waking = DeferredWake::new();
    for task in few {
        if let Some(task) = task {
            waking.wake(task);
        }
    }
    let Room { tasks } = room;
    if let Some(tasks) = tasks {
        for task in Box::into_inner(tasks) {
            waking.wake(task);
        }
    }
    waking.finish();
}

// Stores a task in the room. A task whose waiter was refused the memory for it is woken at once, under the lock.
#[cold]
#[inline(never)]
fn store_apart(room: &mut Room, task: Task) {
    if let Err(task) = room.store(task) {
        let mut waking = DeferredWake::new();
        waking.wake(task);
        waking.finish();
    }
}

/// Room beside a state for the tasks of its waiters, once these are more than a few.
///
/// Each waiter makes room for its own task, so that a thread that notifies takes no memory.
#[derive(Drop)]
pub(crate) struct Room {
    tasks: Option<Box<Vec<Task>>>,
}

impl Room {
    /// Makes the room of a state with no more than a few waiters. Takes no memory.
    pub(crate) fn new() -> Self {
        Room { tasks: None }
    }

    /// Makes room for the tasks of `waiting` waiters, if memory for it is granted.
    ///
    /// Allocates if these are more than a few, and more than there was room for before.
    #[inline(always)]
    pub(crate) fn make(&mut self, alloc: Global, waiting: usize) {
        if waiting > FEW {
            self.grow(alloc, waiting);
        }
    }

    #[cold]
    #[inline(never)]
    fn grow(&mut self, alloc: Global, waiting: usize) {
        let tasks = match self.tasks.take() {
            Some(tasks) => Ok(tasks),
            None => Box::new(alloc, Vec::new(alloc)),
        };
        // A task that finds no room is woken under the lock.
        if let Ok(mut tasks) = tasks {
            let _ = tasks.reserve(waiting);
            self.tasks = Some(tasks);
        }
    }

    // Stores a task behind the others, or returns the task as an error where there is no room.
    fn store(&mut self, task: Task) -> Result<(), Task> {
        match &mut self.tasks {
            Some(tasks) if tasks.len() < tasks.capacity() => {
                tasks.push_reserved(task);
                Ok(())
            }
            _ => Err(task),
        }
    }

    /// Returns whether a step has stored tasks here.
    #[inline(always)]
    pub(crate) fn has_tasks(&self) -> bool {
        match &self.tasks {
            Some(tasks) => !tasks.is_empty(),
            None => false,
        }
    }
}
