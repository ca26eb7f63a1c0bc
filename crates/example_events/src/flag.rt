//! A flag that is set once, and that threads wait for.
ghost use Rattle.std.specs.Prelude.{◌≡◌, ◌≢◌, ◌+◌, ◌≤◌, ◌^◌, IfOk, OnErr};

use event_listener::{Event, EventId, EventIds, IdsUsedUp, ListenError, Listener, WaitError};
use std::alloc::Global;
use std::marker::Model;
use std::sync::Wait;
use std::sync::atomic::{AtomicBool, Ordering};
use std::time::Clock;
use thiserror::Error;

/// A flag that is set once, and that threads wait for. A contract sees it as the number of its event.
#[derive(Drop)]
pub struct Flag {
    is_set: AtomicBool,
    set: Event,
}

impl Flag {
    /// A flag that is not set.
    pub fn new(id: EventId) -> Self
        ensures { result ≡ id }
    {
        Flag {
            is_set: AtomicBool::new(false),
            set: Event::new(id),
        }
    }

    /// Whether the flag is set.
    pub fn is_set(&self) -> bool {
        self.is_set.load(Ordering::SeqCst)
    }

    /// Sets the flag, and then notifies every listener.
    pub fn set<R: Wait>(&self, rt: &R) {
        self.is_set.store(true, Ordering::SeqCst);
        self.set.notify_relaxed(rt, usize::MAX);
    }

    /// Returns a listener that is notified when the flag is set, for a task or a wait with a limit. Look at the flag once the
    /// listener is made: a flag that was set before does not notify the listener.
    pub fn listen<R>(
        &self,
        rt: &R,
        alloc: Global,
    ) -> Result<event_listener::EventListener<(), R>, ListenError>
    where
        R: Wait + Clock + Clone,
        ensures event { IfOk result (λ listener. listener.standing.event_number ≡ self.now) }
    {
        self.set.listen(rt, alloc)
    }

    /// Returns how many listeners the flag has, the listeners of waiting threads among them.
    pub fn total_listeners<R: Wait>(&self, rt: &R) -> usize {
        self.set.total_listeners(rt)
    }

    /// Returns once the flag is set.
    pub fn wait<R>(&self, rt: &R, alloc: Global) -> Result<(), FlagError>
    where
        R: Wait + Clock + Clone,
    {
        for _ in rt.forever() {
            if self.is_set() {
                return Ok(());
            }
            let listener = self.set.listen(rt, alloc)?;
            // A notification that came before the listener was in the queue does not reach it, so look again.
            if self.is_set() {
                return Ok(());
            }
            // A listener that comes back is dropped here, which propagates its notification.
            if let Err(WaitError::Memory(_)) = listener.wait() {
                return Err(FlagError::Memory);
            }
        }
        unreachable!()
    }
}

/// Why a wait ended before the flag was set.
#[derive(Clone, Copy, Debug, PartialEq, Eq, Error)]
pub enum FlagError {
    #[error("{0}")]
    Listen(#[from] ListenError),
    #[error("no memory for a parker")]
    Memory,
}

impl Model for Flag {
    ghost use Rattle.std.specs.Prelude.{ℕ};

    ghost Value = { ℕ };

    ghost view = { λ flag. flag.set };
}

/// Makes two flags of one source, whose events are different.
pub fn pair(ids: &mut EventIds) -> Result<(Flag, Flag), IdsUsedUp>
    ensures differ { IfOk result (λ flags. flags.0 ≢ flags.1) }
    ensures refused { OnErr result (2 ^ 64 ≤ ids.old + 2) }
{
    let first = Flag::new(ids.next()?);
    let second = Flag::new(ids.next()?);
    Ok((first, second))
}
