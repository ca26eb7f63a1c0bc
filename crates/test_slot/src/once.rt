//! A cell that is set once, whose key says something of its value.
ghost use Rattle.std.specs.Prelude.{◌≤◌};

use event_slot::{Fits, SetOnce};
use std::marker::Model;
use std::sync::Wait;

#[cfg(test)]
mod tests;

/// A number that is not below the key.
#[derive(Drop)]
pub struct AtLeast {
    number: u64,
}

impl Model for AtLeast {
    ghost use Rattle.std.specs.Prelude.{ℕ};

    ghost Value = { ℕ };

    ghost view = { λ value. value.number };
}

impl Fits for AtLeast {
    type Key = u64;

    ghost fits = { λ key value. key ≤ value };
}

/// The number in the cell, which is this one if nobody else sets one.
pub fn settles<R: Wait>(once: &SetOnce<AtLeast>, rt: &R, number: u64) -> u64
    requires { once.now ≤ number }
    ensures { once.now ≤ result }
{
    match once.try_set(AtLeast { number }) {
        Ok(set) => set.number,
        Err(_) => once.wait(rt).number,
    }
}
