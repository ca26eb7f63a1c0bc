//! A right to the value of a mutex that the number counts and the slot does not see.
ghost use Rattle.std.specs.Prelude.{◌≡◌};

use super::Seat;
use super::origin::Origin;
use std::marker::Model;

/// A proof that the right to the value of a mutex is parked, and is to be taken again: the number says that the value is taken, and
/// no thread has the right.
///
/// The type has no lifetime and no bytes, and is not `Drop`; only parking a right makes one. A contract sees of which word it is.
pub struct Parked {
    origin: Origin,
}

impl Model for Parked {
    ghost use Rattle.std.specs.Prelude.{ℕ};

    ghost Value = { ℕ };

    ghost view = { λ parked. parked.origin.name };
}

impl Parked {
    #[inline(always)]
    pub(crate) fn new(seat: &Seat) -> Self
        ensures { result ≡ seat.now.slot }
    {
        Parked {
            origin: Origin::of(seat),
        }
    }

    #[inline(always)]
    pub(crate) fn end(self) {
        let Parked { origin: _ } = self;
    }
}
