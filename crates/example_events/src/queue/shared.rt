//! The line of `turnstile` under a lock, for visitors on several threads.
ghost use Rattle.std.specs.Prelude.{◌≤◌, length, IfOk};

use crate::queue::turnstile::Turnstile;
use event_queue::{Key, ListenError, Woken};
use std::alloc::{AllocError, Global};
use std::sync::{Mutex, Wait};

/// A [`Turnstile`] under a lock. Each call makes one call of the turnstile.
///
/// Other threads change the line between two calls, so a clause here can't name the line: the clauses of `Turnstile` say which
/// visitors are admitted, for the line that the lock gives. What holds of every line is said here too.
#[derive(Drop)]
pub struct SharedTurnstile {
    turnstile: Mutex<Turnstile>,
}

impl SharedTurnstile {
    /// Makes a line as [`Turnstile::with_room`] does.
    pub fn with_room(alloc: Global, n: usize) -> Result<Self, AllocError> {
        Ok(SharedTurnstile {
            turnstile: Mutex::new(Turnstile::with_room(alloc, n)?),
        })
    }

    /// Calls [`Turnstile::join`] under the lock.
    pub fn join<R: Wait>(&self, rt: &R, visitor: u64) -> Result<Key, ListenError> {
        self.turnstile.lock(rt).join(visitor)
    }

    /// Calls [`Turnstile::admit`] under the lock. The visitors are woken by their numbers after the lock is given back.
    pub fn admit<R: Wait>(&self, rt: &R, alloc: Global, n: usize) -> Result<Woken<u64>, AllocError>
        ensures at_most { IfOk result (λ admitted. length admitted.tasks ≤ n) }
    {
        self.turnstile.lock(rt).admit(alloc, n)
    }

    /// Calls [`Turnstile::enter`] under the lock.
    pub fn enter<R: Wait>(&self, rt: &R, ticket: Key, visitor: u64) -> bool {
        self.turnstile.lock(rt).enter(ticket, visitor)
    }

    /// Calls [`Turnstile::leave`] under the lock.
    pub fn leave<R: Wait>(&self, rt: &R, ticket: Key) -> Option<u64> {
        self.turnstile.lock(rt).leave(ticket)
    }
}
