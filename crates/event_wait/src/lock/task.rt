//! What is woken: threads that park, and tasks that poll.
ghost use Rattle.std.specs.Prelude.{◌≡◌, IfSome};
ghost use Rattle.event_wait.specs.declared.lock.task.TaskKind.TheVariants.{Polled};
ghost use Rattle.event_wait.specs.Task.{Repolls, StoresGiven};

use event_queue::{TaskExchange, WakeSink};
use futures::task::{Context, Poll, Source, Waker};
use std::alloc::Global;
use std::marker::Model;
use std::mem;
use std::sync::Arc;
use std::thread::Parker;

/// A thread or a task that waits, and that a sink wakes.
///
/// A waker wakes its task also when it is dropped. So a waker that is replaced by another task wakes its task, and so does a
/// waker that is dropped with its place in the queue. A thread is woken only by a sink.
#[derive(Drop)]
pub struct Task(TaskKind);

#[derive(Drop)]
enum TaskKind {
    Polled(Waker),
    Nobody,
    Parked(Arc<Parker, Global>),
}

impl Task {
    /// Makes the task that this waker wakes. The call neither allocates nor waits.
    pub fn from_waker(waker: Waker) -> Task {
        Task(TaskKind::Polled(waker))
    }

    /// Makes the task of the thread that parks on this parker. The call neither allocates nor waits.
    pub fn parked(parker: Arc<Parker, Global>) -> Task {
        Task(TaskKind::Parked(parker))
    }

    // Returns the waker of a task that polls, or `None`.
    fn into_waker(self) -> Option<Waker> {
        let Task(kind) = self;
        match kind {
            TaskKind::Polled(waker) => Some(waker),
            TaskKind::Nobody => None,
            TaskKind::Parked(_) => None,
        }
    }

    // Makes the task that this waker wakes, or a task that wakes nobody if no waker could be made.
    fn from_made(waker: Option<Waker>) -> Task
        ensures { IfSome waker (λ w. result.0 ≡ Polled w) }
    {
        Task(match waker {
            Some(waker) => TaskKind::Polled(waker),
            None => TaskKind::Nobody,
        })
    }
}

// Wakes a task. A waker wakes its task as it is dropped here, in place: `Waker::wake` would be a call. This is a macro and no
// function, since a caller tests after each call, inlined or not, whether it is to end.
macro_rules! wake {
    ($kind:expr) => {
        match $kind {
            TaskKind::Polled(_waker) => {}
            TaskKind::Nobody => {}
            TaskKind::Parked(parker) => unpark(parker),
        }
    };
}

#[cold]
#[inline(never)]
fn unpark(parker: Arc<Parker, Global>) {
    parker.unpark();
}

#[cold]
#[inline(never)]
fn wake_apart(kind: TaskKind) {
    wake!(kind)
}

/// A sink that wakes each task it is given, but the last task only once [`finish`](DeferredWake::finish) is called.
///
/// So the last task does not meet the lock under which it was notified. The type is not `Drop`, so each sink has to be finished.
/// The relation of this sink says nothing, since no contract can name what sleeps; tests show that the sink wakes.
pub struct DeferredWake {
    // At first this is a task that wakes nobody.
    held_back: TaskKind,
}

impl DeferredWake {
    /// Makes a sink that was given no task. The call neither allocates nor waits.
    #[inline(always)]
    pub fn new() -> Self {
        DeferredWake {
            held_back: TaskKind::Nobody,
        }
    }

    /// Wakes the task that is held back. The caller holds no lock.
    #[inline(always)]
    pub fn finish(self) {
        let DeferredWake { held_back } = self;
        wake!(held_back)
    }

    /// Wakes the task that is held back, as [`finish`](DeferredWake::finish) does, after a step that seldom wakes a task: where
    /// no task is held back the call is a few instructions.
    #[inline(always)]
    pub fn finish_seldom(self) {
        let DeferredWake { held_back } = self;
        match held_back {
            TaskKind::Nobody => {}
            last => wake_apart(last),
        }
    }
}

impl WakeSink<Task> for DeferredWake {
    ghost woke = { λ _ _ _. Unit {0} };

    #[inline(always)]
    fn wake(&mut self, task: Task) {
        let Task(kind) = task;
        wake!(mem::replace(&mut self.held_back, kind))
    }
}

/// An exchange that stores the caller's task, if there is one, in the place of the stored task, which may be that of a task that
/// polled before. Without a task of the caller the stored task stays.
pub struct StoreParker {}

impl TaskExchange<Task, Option<Task>> for StoreParker {
    ghost exchanged = { λ _ before stored task after. StoresGiven before stored task after };

    fn exchange(&self, on: &mut Option<Task>, stored: Option<Task>) -> Task
        ensures { StoresGiven on.old stored result on.new }
    {
        match on.take() {
            Some(task) => task,
            None => match stored {
                Some(task) => task,
                None => Task(TaskKind::Nobody),
            },
        }
    }
}

/// The source at which a task registers that polls a request which waits under a [`Lock`](crate::Lock).
///
/// The source is an exchange of the stored task for that of the poll: a waker of the task that polls stays where it is, and
/// another waker is replaced, which wakes its task. A contract sees a source as its number.
#[derive(Drop)]
pub struct WakerSource {
    source: Source,
}

impl Model for WakerSource {
    ghost use Rattle.std.specs.Prelude.{ℕ};

    ghost Value = { ℕ };

    ghost view = { λ line. line.source.id };
}

impl WakerSource {
    /// Makes a source at which no task has registered yet. The call neither allocates nor waits.
    pub fn new() -> Self {
        WakerSource {
            source: Source::new(),
        }
    }
}

impl<'cx> TaskExchange<Task, Context<'cx>> for WakerSource {
    ghost exchanged = { λ line before _ task after. Repolls line before task after };

    #[inline(always)]
    fn exchange(&self, cx: &mut Context<'cx>, stored: Option<Task>) -> Task
        ensures { Repolls self.now cx.old result cx.new }
    {
        let mut waker = match stored {
            Some(task) => task.into_waker(),
            None => None,
        };
        let _: Poll<()> = cx.register(&self.source, &mut waker);
        Task::from_made(waker)
    }
}
