//! Tests of the barrier, the cell and the monitor of `event_monitor` by their public calls: of what no clause can name, since it
//! stands behind a lock, or is done by threads, tasks and clocks. `test_locks` runs its cases of every wait with these, too.
//!
//! | Module | What it tests |
//! |---|---|
//! | `barrier` | that each round has one leader |
//! | `crowds` | more waiters than a thread has room for at hand: none is woken while the lock is held, and all are woken |
//! | `cell` | a value that is set or made once, by threads and by tasks: one at a time, and once that one is gone the next |
//! | `monitor` | a value that threads and tasks wait for: that a thread parks until it changes, whatever changes it, or until its limit, and until the lock is free |
//! | `wakes` | threads that have parked, and are let in by the last task at a barrier, by a turn given up, by a task that makes a value |
#![tactic(auto)]

#[cfg(test)]
mod barrier;
#[cfg(test)]
mod cell;
#[cfg(test)]
mod crowds;
#[cfg(test)]
mod monitor;
#[cfg(test)]
mod support;
#[cfg(test)]
mod wakes;
