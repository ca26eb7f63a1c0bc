//! Calls that are made with little memory.
use crate::budget::Budget;
use std::alloc::AllocError;

/// A call that is made with little memory.
pub trait Starved {
    /// Makes the call on something new with so many bytes, and answers whether it was granted. Where it was refused, it has
    /// looked at what stands.
    fn is_granted(&self, budget: &mut Budget, bytes: usize) -> bool;
}

impl Budget {
    /// Makes the call with no memory, and with more each time until it is granted, so that each of its requests is refused in
    /// its turn. Answers how often it was refused, or nothing where no budget serves.
    pub fn count_refused<S: Starved>(&mut self, call: &S) -> Option<usize> {
        for (refused, bytes) in (0..).zip((0..Self::MOST).step_by(Self::STEP)) {
            if call.is_granted(self, bytes) {
                return Some(refused);
            }
        }
        None
    }

    /// Does it so often that it would run out of memory if each time left a few bytes behind. The error is that of
    /// [`leave`](Budget::leave).
    pub fn do_often<F: Fn()>(&mut self, make_and_drop: F) -> Result<(), AllocError>
        requires { F.IsAlwaysCallable make_and_drop }
    {
        self.leave(4096)?;
        for _ in 0..1000 {
            make_and_drop();
        }
        Ok(())
    }
}
