//! A number for proofs alone.
ghost use Rattle.std.specs.Prelude.{◌≡◌, ◌+◌, ℕ};
ghost use Rattle.std.specs.Borrow.{ftrue};

use std::marker::{Model, Send, Sync};

/// A number that only proofs read, so it takes no memory: the serial number of an entry, which the table has for calls, or a
/// count that nobody asks for.
#[derive(Drop)]
pub(crate) struct Number {
    ghost number: { ℕ },
}

impl Model for Number {
    ghost also_owns = { λ _. ftrue };
}

// A number for proofs owns nothing.
unsafe impl Send for Number {}

unsafe impl Sync for Number {}

impl Number {
    /// Makes that number, for proofs. Does nothing when a program runs.
    #[inline(always)]
    pub(crate) fn new(_number: &u64) -> Self
        ensures { result.number ≡ _number.now }
    {
        Number {}
    }

    /// Makes the next greater number, for proofs. Does nothing when a program runs.
    #[inline(always)]
    pub(crate) fn after(_number: &Number) -> Self
        ensures { result.number ≡ _number.now.number + 1 }
    {
        Number {}
    }
}
