//! A run of a workload, with the loops that are measured.
use anyhow::Result;
use std::alloc::AllocGlobal;
use std::fmt;
use std::fmt::{Display, Formatter};
use std::random::RandomSource;
use std::sync::Wait;
use std::thread::{self, Threads};
use std::time::{Clock, Duration, Instant};
use thiserror::Error;

/// A closure that does the work so often as it is told, as the thread of that index where one is named, and answers whether the
/// work was right each time. The loop stands in the closure, as it would in a caller: a call in each round would be counted.
#[macro_export]
macro_rules! repeat {
    ($(as $index:ident =>)? $work:expr) => {
        |$($index: usize,)? rounds: u64| {
            let mut are_right = true;
            for _ in 0..rounds {
                are_right &= $work;
            }
            are_right
        }
    };
}

/// What a workload asks of its runtime value.
pub trait Runtime: Threads + Wait + Clock + Clone + Sync + AllocGlobal + RandomSource {}

impl<R: Threads + Wait + Clock + Clone + Sync + AllocGlobal + RandomSource> Runtime for R {}

/// A call gave another answer than the workload expects.
#[derive(Clone, Copy, Debug, Error)]
#[error("a call gave another answer than the workload expects")]
pub struct OtherAnswer;

/// An error, unless the answers were right.
pub fn expect(are_right: bool) -> Result<()> {
    if are_right {
        Ok(())
    } else {
        Err(OtherAnswer.into())
    }
}

/// What a workload is run with, how many operations it did, and how long they took. What stands around them is not
/// counted.
#[derive(Drop)]
pub struct Run<'a, R> {
    pub rt: &'a R,
    /// The name of the workload.
    pub name: &'a str,
    /// How many listeners, or threads.
    pub n: usize,
    pub rounds: u64,
    operations: u64,
    time: Duration,
}

impl<'a, R: Runtime> Run<'a, R> {
    pub fn new(rt: &'a R, name: &'a str, n: usize, rounds: u64) -> Self {
        Run {
            rt,
            name,
            n,
            rounds,
            operations: 0,
            time: Duration::ZERO,
        }
    }

    /// Has work done so often, so many operations each time. It answers whether its calls answered as they have to.
    pub fn alone<F: FnMut(u64) -> bool>(&mut self, rounds: u64, each: usize, work: F) -> Result<()>
        requires { F.IsAlwaysCallable work }
    {
        let began = Instant::now(self.rt)?;
        let are_right = region(work, rounds);
        self.add(began, rounds, each)?;
        expect(are_right)
    }

    /// Has work done once, and measures it if that is the workload.
    pub fn part<F: FnMut(u64) -> bool>(
        &mut self,
        name: &str,
        each: usize,
        mut work: F,
    ) -> Result<()>
        requires { F.IsAlwaysCallable work }
    {
        if self.name == name {
            self.alone(1, each, work)
        } else {
            expect(work(1))
        }
    }

    /// So many threads do work, each of all rounds. The work of a round by all threads is so many operations.
    pub fn together<F>(&mut self, threads: usize, each: usize, work: &F) -> Result<()>
    where
        F: Fn(usize, u64) -> bool + Sync,
        requires { F.IsAlwaysCallable work.now }
    {
        let (rt, rounds) = (self.rt, self.rounds);
        let began = Instant::now(rt)?;
        let answers = thread::map_indices(
            rt,
            rt.alloc(),
            threads,
            &|index| { region_of_thread(work, index, rounds) },
        )?;
        self.add(began, rounds, each)?;
        expect(answers.iter().all(|are_right| *are_right))
    }

    // Counts operations, which began at that moment and end now.
    fn add(&mut self, began: Instant, rounds: u64, each: usize) -> Result<()> {
        let time = began.elapsed(self.rt)?;
        self.time = self.time.saturating_add(time);
        let operations = rounds.saturating_mul(each as u64);
        self.operations = self.operations.saturating_add(operations);
        Ok(())
    }

    /// How long an operation took.
    pub fn measured(&self) -> Measured {
        Measured {
            done: self.operations,
            of: "operations",
            tenths: self.time.as_nanos().saturating_mul(10) / self.operations.max(1) as u128,
            unit: "ns per op",
        }
    }
}

// Both are never inlined, so that a profiler can be told to count inside them alone.
#[inline(never)]
fn region<F: FnMut(u64) -> bool>(mut work: F, rounds: u64) -> bool
    requires { F.IsAlwaysCallable work }
{
    work(rounds)
}

#[inline(never)]
fn region_of_thread<F: Fn(usize, u64) -> bool>(work: &F, index: usize, rounds: u64) -> bool
    requires { F.IsAlwaysCallable work.now }
{
    work(index, rounds)
}

/// What a run did, and what it gives, in tenths of a unit.
#[derive(Clone, Copy, Debug)]
pub struct Measured {
    pub done: u64,
    pub of: &'static str,
    pub tenths: u128,
    pub unit: &'static str,
}

impl Display for Measured {
    fn fmt<W: fmt::Write>(&self, f: &mut Formatter<W>) -> fmt::Result {
        let Measured {
            done,
            of,
            tenths,
            unit,
        } = self;
        write!(f, "{done} {of}, {}.{} {unit}", tenths / 10, tenths % 10)
    }
}
