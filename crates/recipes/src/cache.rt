//! Squares that are computed once, behind a read-write lock. Whatever threads do, what comes out is the square.
ghost use Rattle.std.specs.BTreeMap.{get};
ghost use Rattle.std.specs.Ordering.{nat_cmp};
ghost use Rattle.std.specs.Prelude.{◌≡◌, ◌*◌, ℕ, IfOk, IfSome};

use event_locks::RwLock;
use std::alloc::{AllocError, Global};
use std::collections::BTreeMap;
use std::sync::Wait;
use std::time::Clock;

/// Numbers with their squares.
#[derive(Drop)]
pub struct Squares {
    known: BTreeMap<u32, u64>,
    // What is kept is right.
    ghost right: { (k : ℕ) → ∥ IfSome (get nat_cmp known k) (λ square. square ≡ k * k) ∥₁ },
}

impl Squares {
    /// Makes a cache without squares.
    pub fn new(alloc: Global) -> Self {
        Squares {
            known: BTreeMap::new(alloc),
        }
    }

    /// Returns how many squares are kept.
    pub fn len(&self) -> usize {
        self.known.len()
    }

    /// Returns the square of a number, if the square is kept.
    pub fn get(&self, number: u32) -> Option<u64>
        ensures { IfSome result (λ square. square ≡ number * number) }
    {
        self.known.get(&number).copied()
    }

    /// Computes the square of a number, and keeps it.
    pub fn add(&mut self, number: u32) -> Result<u64, AllocError>
        ensures { IfOk result (λ square. square ≡ number * number) }
    {
        let square = u64::from(number) * u64::from(number);
        self.known.insert(number, square)?;
        Ok(square)
    }
}

/// Returns the square of a number, out of the cache if the square is there.
pub fn square<R: Wait + Clock>(
    rt: &R,
    alloc: Global,
    cache: &RwLock<Squares>,
    number: u32,
) -> anyhow::Result<u64>
    ensures { IfOk result (λ square. square ≡ number * number) }
{
    let reader = cache.read(rt, alloc).wait()?;
    if let Some(square) = reader.get(number) {
        return Ok(square);
    }
    drop(reader);

    let mut writer = cache.write(rt, alloc).wait()?;
    // Another may have been here since.
    if let Some(square) = writer.get(number) {
        return Ok(square);
    }
    Ok(writer.add(number)?)
}
