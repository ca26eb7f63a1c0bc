//! Tests of the locks of `event_locks` by their public calls: of what no clause can name, since it stands behind a lock, or is
//! done by threads, tasks and clocks. What is said of every wait is a case, which is written once and run with each kind of
//! wait, as `test_kinds` has them. More of barriers, cells and monitors is in `test_monitor`.
//!
//! | Module | What it has, or tests |
//! |---|---|
//! | `behaviours` | what a semaphore, a mutex and a read-write lock do when they are called in the order that their users know from other crates |
//! | `tasks` | tasks that wait for each lock, and are woken once they are let in; one that is told and dropped, which gives on what it was handed; one that is over; permits that share their semaphore |
//! | `threads` | threads that wait in each way, and are woken once they are let in, also by a writer that reads |
//! | `left` | a starving waiter that is left alone: for how long newcomers are refused for its sake, and what becomes of it |
//! | `limits` | waits that end at their limit, at one that has passed and by a clock that can't be read |
//! | `turns` | when newcomers are shut out |
//! | `closes` | that a semaphore which closes ends each kind of wait |
//! | `crowds` | more that wait than a thread wakes before others may have the queues |
//! | `races` | one lets go while another one goes into the queue |
//! | `sizes` | what each lock takes in memory |
//! | `stress` | threads and tasks at the locks, which give up at times |
#![tactic(auto)]

#[cfg(test)]
mod behaviours;
#[cfg(test)]
mod closes;
#[cfg(test)]
mod crowds;
#[cfg(test)]
mod left;
#[cfg(test)]
mod limits;
#[cfg(test)]
mod races;
#[cfg(test)]
mod sizes;
#[cfg(test)]
mod stress;
#[cfg(test)]
mod support;
#[cfg(test)]
mod tasks;
#[cfg(test)]
mod threads;
#[cfg(test)]
mod turns;
