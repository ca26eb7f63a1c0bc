//! Tests of what callers write, `example_events`, of `event_until`, on which its gate, watch and baton stand, and of tasks that
//! await listeners, by their public calls: of what their clauses leave open. `test_memory` has the tests in which memory is
//! refused.
//!
//! | Module | What it tests |
//! |---|---|
//! | `queue` | a line of visitors under a lock; who gets which desk or text; at how many others one looks who leaves a line |
//! | `awaited` | tasks that await listeners, and move between threads: that they are woken, and how often they are polled |
//! | `events` | which listener gets which tag, that it comes, who passes on, and which tasks are woken; `flags` that are set between a look and the queue, and records as tables; `timed` waits, also such as are refused and tried again |
//! | `locks` | locks polled by hand: pending while the lock is held, told and too late, told and dropped; `limits` of timed waits by the system's clock; `clients` that are told before their second try, and what is owed; `permits`, of which no more are out than there are |
//! | `races` | threads that count, take permits and wait for flags, that hear what others say, one that is woken and finds the seat free, and a race that is recorded, for two seconds each; worked row 21 |
//! | `programs` | what is printed where a program ends, with which status, and whose fault it is if several threads fail |
//! | `texts` | the texts of all errors |
//! | `until::attempts` | how many attempts are made, and which of them while a listener is in the queue; the last one at a deadline; a listener that is told and not needed passes its notification on; texts of errors |
//! | `until::polls` | polls by hand: a poll that is not due attempts nothing and wakes nobody; told and dropped, or blocking from then on, or giving its attempt back |
//! | `until::deadlines` | who is told at its deadline; a limit whose moment can't be represented |
//! | `until::threads` | 10 threads that make 1,000 calls each, half of them as futures; how often their tasks are polled; who is woken finds the gate open, the latest value, the baton free |
#![tactic(auto)]

#[cfg(test)]
mod awaited;
#[cfg(test)]
mod events;
#[cfg(test)]
mod locks;
#[cfg(test)]
mod programs;
#[cfg(test)]
mod queue;
#[cfg(test)]
mod races;
#[cfg(test)]
mod support;
#[cfg(test)]
mod texts;
#[cfg(test)]
mod until;
