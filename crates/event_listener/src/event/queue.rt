//! What the listeners of an event share.
ghost use Rattle.std.specs.Prelude.{◌≡◌};

use event_history::Lock;
use event_queue::List;
use event_slot::Fits;
use event_wait::Task;
use std::alloc::Global;
use std::marker::Model;

/// The queue of one event under its lock, with the number of the event.
///
/// The event, its slots, hands and listeners share or borrow this. The number is kept here once, and not by each listener.
/// Behind the lock there is one history of all calls on the queue, which exists in proofs alone.
///
/// A contract sees the number, the source at which a task registers that polls a listener, and the name of the lock.
#[derive(Drop)]
pub struct Shared<T> {
    lock: Lock<List<T, Task>>,
    event_number: u64,
}

impl<T> Model for Shared<T> {
    ghost use Rattle.event_listener.specs.Listening.{SharedQueue};

    ghost Value = { SharedQueue };

    ghost view = { λ shared. record {
      lock = shared.lock;
      event_number = shared.event_number;
    } };
}

/// A queue fits the key that is the number of its event.
impl<T> Fits for Shared<T> {
    type Key = u64;

    ghost fits = { λ number shared. shared.event_number ≡ number };
}

impl<T> Shared<T> {
    /// Makes the queue of the event with this number, without listeners. The first listener gets the serial number
    /// `first_serial`.
    ///
    /// Takes no memory.
    pub(super) fn new(alloc: Global, event_number: u64, first_serial: u64) -> Self
    where
        T: Drop,
        ensures { result.event_number ≡ event_number }
    {
        let queue = List::starting_at(alloc, first_serial);
        let (lock, first) = Lock::new(queue, &());
        first.end();
        Shared { lock, event_number }
    }

    /// Returns the queue under its lock.
    #[inline(always)]
    pub(crate) fn lock(&self) -> &Lock<List<T, Task>>
        ensures { result.now ≡ self.now.lock }
    {
        &self.lock
    }

    /// Returns the number of the event.
    #[inline(always)]
    pub(crate) fn number(&self) -> u64
        ensures { result ≡ self.now.event_number }
    {
        self.event_number
    }
}
