ghost use Rattle.std.specs.Prelude.{◌≡◌, [], IfOk};
ghost use Rattle.event_queue.specs.Woken.{Kept, after_one};

use crate::wake::WakeSink;
use std::alloc::{AllocError, Global};
use std::marker::Model;

/// A sink that keeps the first tasks that it is given, in order, and counts the others.
///
/// The sink takes memory when it is made, and no memory when it is given a task. Whoever calls the queue with such a sink
/// still has to wake the tasks.
#[must_use = "the tasks in it are still to be woken"]
#[derive(Drop)]
pub struct Woken<W> {
    tasks: Vec<W>,
    room: usize,
    missed: usize,
}

impl<W> Model for Woken<W> {
    ghost use Rattle.std.specs.Prelude.{◌≤◌, vec_len, vec_capacity};
    ghost use Rattle.event_queue.specs.Woken.{Kept};

    ghost Value = { Kept W };

    ghost view = { λ woken. record {
      tasks = woken.tasks.items;
      room = woken.room;
      missed = woken.missed;
    } };

    ghost invariant = { λ woken. (vec_len woken.tasks ≤ woken.room)
        × (woken.room ≤ vec_capacity woken.tasks) };
}

impl<W> Woken<W> {
    /// Makes a sink that keeps the first `n` tasks. Takes memory for `n` tasks, and returns an error if there is none.
    pub fn with_room(alloc: Global, n: usize) -> Result<Self, AllocError>
        ensures { IfOk result (λ woken. woken ≡ record { tasks = []; room = n; missed = 0 }) }
    {
        Ok(Woken {
            tasks: Vec::with_capacity(alloc, n)?,
            room: n,
            missed: 0,
        })
    }

    /// Returns the tasks that the sink keeps, in the order in which it was given them. Takes no memory.
    pub fn tasks(&self) -> &[W]
        ensures { result.now ≡ self.now.tasks }
    {
        self.tasks.as_slice()
    }

    /// Returns how many tasks the sink was given beyond those that it keeps. The count stays at `usize::MAX`. Takes no
    /// memory.
    ///
    /// A task that is not kept is dropped.
    pub fn missed(&self) -> usize
        ensures { result ≡ self.now.missed }
    {
        self.missed
    }
}

impl<W: Drop> WakeSink<W> for Woken<W> {
    ghost woke = { λ before task after. after ≡ after_one task before };

    fn wake(&mut self, task: W) {
        if self.tasks.len() < self.room {
            self.tasks.push_reserved(task);
        } else {
            self.missed = self.missed.saturating_add(1);
        }
    }
}
