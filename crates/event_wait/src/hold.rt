//! How waits and guards hold their lock.
ghost use Rattle.std.specs.Prelude.{◌≡◌};
ghost use Rattle.std.specs.Arc.{arc_value};

use std::alloc::Global;
use std::sync::{Arc, Wait};
use std::time::Clock;

/// How a wait or a guard holds its lock and the runtime: by borrowing both ([`Borrowed`]), or by a share of the lock and a
/// runtime of its own ([`Shared`]).
pub trait Hold<L> {
    // What a contract sees of the lock.
    ghost held: { Self → L };

    /// The runtime, by which the wait parks and reads the clock.
    type Runtime: Wait + Clock;

    /// Returns the lock that is held.
    fn lock(&self) -> &L
        ensures { result.now ≡ held self.now };

    /// Returns the runtime that is held.
    fn rt(&self) -> &Self::Runtime;
}

/// A hold that borrows a lock and the runtime.
#[derive(Drop)]
pub struct Borrowed<'a, L, R> {
    pub lock: &'a L,
    pub rt: &'a R,
}

/// A hold that shares a lock, so that the wait or the guard may outlive the caller's borrow and go to another thread.
#[derive(Drop)]
pub struct Shared<L, R> {
    pub lock: Arc<L, Global>,
    pub rt: R,
}

impl<'a, L, R: Wait + Clock> Hold<L> for Borrowed<'a, L, R> {
    ghost held = { λ hold. hold.lock.now };

    type Runtime = R;

    #[inline(always)]
    fn lock(&self) -> &L {
        self.lock
    }

    #[inline(always)]
    fn rt(&self) -> &R {
        self.rt
    }
}

impl<L, R: Wait + Clock> Hold<L> for Shared<L, R> {
    ghost held = { λ hold. arc_value hold.lock };

    type Runtime = R;

    #[inline(always)]
    fn lock(&self) -> &L {
        &self.lock
    }

    #[inline(always)]
    fn rt(&self) -> &R {
        &self.rt
    }
}
