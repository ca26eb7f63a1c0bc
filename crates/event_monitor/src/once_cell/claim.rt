//! What a cell has for a caller that would make its value.
ghost use Rattle.std.specs.Prelude.{◌≡◌, IfErr, IfOk};

use super::OnceCell;
use super::once::Turn;
use std::sync::Wait;
use std::time::Clock;

/// What a cell has for a caller that would make its value: the value, or the turn to make it.
#[derive(Drop)]
pub enum Claim<'a, T, R: Wait + Clock> {
    /// The value: it is set.
    Value(&'a T),
    /// The turn to make it.
    Vacant(Vacant<'a, T, R>),
}

/// The turn to make the value of a cell. Dropping it hands the turn to the next caller.
#[must_use = "a turn that is dropped at once is given up"]
pub struct Vacant<'a, T, R: Wait + Clock> {
    pub(super) cell: &'a OnceCell<T>,
    pub(super) rt: &'a R,
    pub(super) turn: Turn,
}

impl<'a, T, R: Wait + Clock> Vacant<'a, T, R> {
    /// Sets the value, wakes all waiters, and returns a reference to the value. Returns `value` again, as an `Err`, if the cell
    /// is set.
    pub fn set(self, value: T) -> Result<&'a T, T>
        ensures kept { IfOk result (λ kept. kept.now ≡ value) }
        ensures returned { IfErr result (λ back. back ≡ value) }
    {
        let Vacant { cell, rt, turn: _ } = self;
        let (token, back) = cell.insert(rt, value);
        match back {
            None => Ok(cell.value(&token)),
            Some(value) => Err(value),
        }
    }

    // Ends the turn without giving it back: a caller that sets the value itself needs the turn no more.
    pub(super) fn spend(self) {
        let Vacant {
            cell: _,
            rt: _,
            turn: _,
        } = self;
    }

    // Sets this value, if the cell has none yet, and returns the value that the cell has.
    pub(super) fn fill(self, value: T) -> &'a T
    where
        T: Drop,
    {
        let Vacant { cell, rt, turn: _ } = self;
        let (token, _) = cell.insert(rt, value);
        cell.value(&token)
    }
}

impl<T, R: Wait + Clock> Drop for Vacant<'_, T, R> {
    fn drop(self) {
        let Vacant { cell, rt, turn } = self;
        cell.give_back(rt, turn);
    }
}
