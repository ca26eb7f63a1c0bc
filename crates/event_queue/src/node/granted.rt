//! How many blocks for nodes memory granted.
ghost use Rattle.std.specs.Prelude.{◌≡◌, ◌+◌, ◌<◌, ◌^◌, OnOk, OnErr, IfErr};

use super::ring::Room;
use std::alloc::{AllocError, Global};
use std_alloc::room::Vacant;

/// A source of blocks for nodes, which counts the blocks that were granted, so that a clause can say that each became a spare
/// node.
#[derive(Drop)]
pub(super) struct Blocks {
    alloc: Global,
    pub(super) granted: usize,
}

impl Blocks {
    /// Makes a source that has been granted no block so far.
    pub(super) fn of(alloc: Global) -> Self
        ensures { result.granted ≡ 0 }
    {
        Blocks { alloc, granted: 0 }
    }

    /// Takes one more block, or returns an error if there is no memory.
    pub(super) fn take<E>(&mut self) -> Result<Room<E>, AllocError>
        requires { self.old.granted + 1 < 2 ^ 64 }
        ensures granted { OnOk result (self.new.granted ≡ self.old.granted + 1) }
        ensures refused { OnErr result (self.new.granted ≡ self.old.granted) }
    {
        match Vacant::take(self.alloc) {
            Ok(room) => {
                self.granted += 1;
                Ok(room)
            }
            Err(_) => Err(AllocError),
        }
    }
}
