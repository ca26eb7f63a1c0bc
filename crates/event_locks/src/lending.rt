//! Locks that lend the place where their value lies.
ghost use Rattle.std.specs.Prelude.{◌≡◌};

use event_wait::Hold;
use std::sync::Wait;
use std::time::Clock;

/// A lock that lends the place of its value, to a guard that borrows it.
#[derive(Drop)]
pub(crate) struct Lender<'a, L> {
    pub(crate) lock: &'a L,
}

/// A borrow of a lock that lends, and of the runtime.
#[derive(Drop)]
pub(crate) struct Lending<'a, L, R> {
    pub(crate) lender: Lender<'a, L>,
    pub(crate) rt: &'a R,
}

impl<'a, L, R> Lending<'a, L, R> {
    #[inline(always)]
    pub(crate) fn new(lock: &'a L, rt: &'a R) -> Self
        ensures { result.lender.lock.now ≡ lock.now }
    {
        Lending {
            lender: Lender { lock },
            rt,
        }
    }
}

impl<'a, L, R: Wait + Clock> Hold<Lender<'a, L>> for Lending<'a, L, R> {
    ghost held = { λ hold. hold.lender };

    type Runtime = R;

    #[inline(always)]
    fn lock(&self) -> &Lender<'a, L> {
        &self.lender
    }

    #[inline(always)]
    fn rt(&self) -> &R {
        self.rt
    }
}
