//! How a listener holds the queue of its event.
ghost use Rattle.std.specs.Prelude.{◌≡◌, ℕ};
ghost use Rattle.std.specs.Arc.{arc_value};
ghost use Rattle.event_history.specs.Lock.{LockId};

use crate::event::Shared;
use event_history::Lock;
use event_queue::List;
use event_wait::Task;
use std::sync::Arc;

/// How a listener holds the queue of its event: by a share of the queue, or by a borrow.
///
/// Callers name this trait only in bounds, as in those of [`EventHand`](crate::EventHand). A contract sees the lock of the
/// queue, which has the source at which a task registers that polls a listener there, and the lock's name; and the number of
/// the event.
pub trait Hold<T> {
    ghost lock: { Self → LockId (Unit {0}) };

    ghost event_number: { Self → ℕ };

    /// The name of a listener that holds its queue so, as it is printed for debugging.
    const LISTENER: &'static str;

    /// Returns the queue under its lock.
    fn queue(&self) -> &Lock<List<T, Task>>
        ensures { result.now ≡ lock self.now };

    /// Returns the number of the event.
    fn event_number(&self) -> u64
        ensures { result ≡ event_number self.now };
}

impl<T> Hold<T> for Arc<Shared<T>> {
    ghost lock = { λ shared. (arc_value shared).lock };

    ghost event_number = { λ shared. (arc_value shared).event_number };

    const LISTENER: &'static str = "EventListener";

    #[inline(always)]
    fn queue(&self) -> &Lock<List<T, Task>> {
        self.lock()
    }

    fn event_number(&self) -> u64 {
        self.number()
    }
}

impl<T> Hold<T> for &Shared<T> {
    ghost lock = { λ shared. shared.now.lock };

    ghost event_number = { λ shared. shared.now.event_number };

    const LISTENER: &'static str = "StackListener";

    #[inline(always)]
    fn queue(&self) -> &Lock<List<T, Task>> {
        self.lock()
    }

    fn event_number(&self) -> u64 {
        self.number()
    }
}
