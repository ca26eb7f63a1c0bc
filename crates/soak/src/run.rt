//! What the command line asks for, and how often it is done.
use anyhow::{Result, bail, ensure};
use std::alloc::AllocGlobal;
use std::env::{self, Env};
use std::io::Print;
use std::time::{Clock, Duration, Instant};

const USAGE: &str =
    "the words have to be 'lists' or 'threads', 'seed SEED', and 'times N' or 'seconds N', once or more";

/// A run of comparisons.
#[derive(Clone, Copy)]
pub struct Request {
    /// What is compared.
    pub kind: Kind,
    // What all random numbers come from.
    seed: u64,
    limit: Limit,
}

/// What is compared.
#[derive(Clone, Copy)]
pub enum Kind {
    Lists,
    Threads,
}

// When to end.
#[derive(Clone, Copy)]
enum Limit {
    // After so many times.
    Times(u64),
    // After the first time that ends past so much time.
    Time(Duration),
}

impl Request {
    /// Reads the command line: runs, one after another. The error says what it has to be, or that it can't be read.
    pub fn read_all<R: Env + AllocGlobal>(rt: &R) -> Result<Vec<Request>> {
        let mut args = env::args(rt)?;
        // The name of the program.
        let _ = args.next();
        let mut words = Vec::new(rt.alloc());
        for word in args {
            words.push(word)?;
        }
        let mut requests = Vec::new(rt.alloc());
        for words in words.as_slice().chunks(5) {
            match Request::read(words) {
                Some(request) => requests.push(request)?,
                None => bail!("{USAGE}"),
            }
        }
        ensure!(!requests.is_empty(), "{USAGE}");
        Ok(requests)
    }

    fn read(words: &[String]) -> Option<Request> {
        let [kind, name, seed, limit, number] = words else {
            return None;
        };
        if name.as_str() != "seed" {
            return None;
        }
        let number = number.as_str().parse().ok()?;
        Some(Request {
            kind: match kind.as_str() {
                "lists" => Kind::Lists,
                "threads" => Kind::Threads,
                _ => return None,
            },
            seed: seed.as_str().parse().ok()?,
            limit: match limit.as_str() {
                "times" => Limit::Times(number),
                "seconds" => Limit::Time(Duration::from_secs(number)),
                _ => return None,
            },
        })
    }

    /// Prints the seed, and compares with one seed after another from there on, for as long as it lasts. Answers how often
    /// that was, and how often something differed.
    pub fn run<R, F>(self, rt: &R, mut differs: F) -> Result<(u64, u64)>
    where
        R: Clock + Print,
        F: FnMut(u64) -> Result<bool>,
        requires { F.IsAlwaysCallable differs }
    {
        println!(rt; "seed {}", self.seed)?;
        let start = Instant::now(rt)?;
        let mut differing = 0u64;
        for times in 0..u64::MAX {
            let goes_on = match self.limit {
                Limit::Times(limit) => times < limit,
                Limit::Time(limit) => start.elapsed(rt)? < limit,
            };
            if !goes_on {
                return Ok((times, differing));
            }
            let differs_now = differs(self.seed.wrapping_add(times))?;
            differing = differing.saturating_add(u64::from(differs_now));
        }
        Ok((u64::MAX, differing))
    }
}
