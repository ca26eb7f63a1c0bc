//! Random numbers from a seed, and what stands at a random place.
ghost use Rattle.std.specs.Prelude.{◌<◌};

use rand_core::Rng;
use rand_pcg::Pcg32;

/// A sequence of random numbers. One seed and one stream give one sequence, so that it can be had again.
#[derive(Drop)]
pub struct RandomNumbers {
    generator: Pcg32,
}

impl RandomNumbers {
    /// The sequence of that seed and that stream.
    pub fn new(seed: u64, stream: u64) -> Self {
        RandomNumbers {
            generator: Pcg32::new(seed, stream),
        }
    }

    /// The next number, below the bound.
    pub fn below(&mut self, bound: u32) -> u32
        requires { 0 < bound }
        ensures { result < bound }
    {
        self.generator.next_u32() % bound
    }

    /// The next number, as one of two.
    pub fn coin(&mut self) -> bool {
        self.below(2) == 0
    }
}

/// Takes out what stands at that place, if anything does. A place that is too great begins again at the first.
pub fn take_at<L>(items: &mut Vec<L>, place: usize) -> Option<L> {
    let at = place.checked_rem(items.len())?;
    if at < items.len() {
        Some(items.remove(at))
    } else {
        None
    }
}
