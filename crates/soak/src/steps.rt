//! Random calls, and their texts.
ghost use Rattle.std.specs.Prelude.{◌<◌};

use crate::random::{RandomNumbers, take_at};
use anyhow::Result;
use calls::Act;
use std::alloc::Global;
use std::time::Duration;

const STEPS: u32 = 50;

/// A call. It names a listener by its place among those that were not given up yet, in order of listening. A place that
/// is too great begins again at the first; where there is no listener, nothing is done. So a list without one of its calls
/// is a list, too.
#[derive(Clone, Copy)]
pub enum Step {
    /// A listener comes, of the other kind where there are two.
    Listen { other: bool },
    /// A poll of the listener at that place, by the task of that number.
    Poll(usize, u32),
    /// A notification of so many, additional or not, with that tag.
    Notify(usize, bool, u32),
    /// What the listener at that place does last: a drop, a discard, or a wait for so long at most.
    End(usize, Act),
    /// How many listeners there are.
    Total,
    /// Whether some listener is notified.
    IsNotified,
}

impl Step {
    /// The random step of that number. A wait takes less than so many microseconds.
    pub fn random(random: &mut RandomNumbers, number: u32, micros: u32) -> Step
        requires { 0 < micros }
    {
        let kind = random.below(16);
        let place = random.below(8) as usize;
        match kind {
            0..4 => Step::Listen {
                other: random.coin(),
            },
            4..8 => Step::Poll(place, number),
            8 => {
                let limit = Duration::from_micros(u64::from(random.below(micros)));
                Step::End(place, Act::Timeout(limit))
            }
            9 => Step::End(place, Act::Discard),
            10 => Step::End(place, Act::Drop),
            11..14 => Step::Notify(random_count(random), random.coin(), number),
            14 => Step::Total,
            _ => Step::IsNotified,
        }
    }
}

// 0 to 3, or the greatest.
fn random_count(random: &mut RandomNumbers) -> usize {
    match random.below(9) {
        0 => usize::MAX,
        small => (small % 4) as usize,
    }
}

/// The list of calls of this seed. In half of the lists all listeners are of one kind. After the random calls come
/// discards of all listeners that can be left, so that their answers say which were told.
pub fn random_list(alloc: Global, seed: u64) -> Result<Vec<Step>> {
    let mut random = RandomNumbers::new(seed, 1);
    let (mixed, kind) = (random.coin(), random.coin());
    let mut steps = Vec::new(alloc);
    let mut listeners = 0u32;
    for number in 0..STEPS {
        let mut step = Step::random(&mut random, number, 1);
        if let Step::Listen { other } = &mut step {
            listeners = listeners.saturating_add(1);
            if !mixed {
                *other = kind;
            }
        }
        steps.push(step)?;
    }
    for _ in 0..listeners {
        steps.push(Step::End(0, Act::Discard))?;
    }
    steps.push(Step::Total)?;
    Ok(steps)
}

/// The numbers of the listeners that were not given up, and how many came.
#[derive(Drop)]
pub struct Listeners {
    left: Vec<usize>,
    came: usize,
}

impl Listeners {
    /// None came.
    pub fn new(alloc: Global) -> Self {
        Listeners {
            left: Vec::new(alloc),
            came: 0,
        }
    }

    /// Writes the text of the next call. Answers whether there is something to do.
    pub fn write(&mut self, call: &mut String, step: Step) -> Result<bool> {
        match step {
            Step::Listen { other } => {
                self.left.push(self.came)?;
                self.came = self.came.saturating_add(1);
                call.push_str(if other { "slisten" } else { "listen" })?;
            }
            Step::Poll(place, task) => match self.at(place) {
                Some(number) => write!(call, "poll {number} {task}")?,
                None => return Ok(false),
            },
            Step::Notify(count, additional, tag) => {
                let kind = if additional { 'a' } else { 'd' };
                write!(call, "notify {count} {kind} {tag}")?;
            }
            Step::End(place, act) => match (take_at(&mut self.left, place), act) {
                (Some(number), Act::Drop) => write!(call, "drop {number}")?,
                (Some(number), Act::Discard) => write!(call, "discard {number}")?,
                (Some(number), _) => write!(call, "timeout {number} 0")?,
                (None, _) => return Ok(false),
            },
            Step::Total => call.push_str("total")?,
            Step::IsNotified => call.push_str("isnotified")?,
        }
        Ok(true)
    }

    fn at(&self, place: usize) -> Option<usize> {
        let at = place.checked_rem(self.left.len())?;
        self.left.get(at).copied()
    }
}
