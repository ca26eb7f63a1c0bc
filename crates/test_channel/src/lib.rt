//! Tests of `event_channel`: that its calls reach the state under its lock, whose clauses say what each step does to the
//! messages and to the waiters.
//!
//! | Module | What it tests |
//! |---|---|
//! | `answers` | tables: what calls answer and whom they wake; polls for another reason, and who is dropped; sends by force; a close; many that are received at once, and an iterator of what waits |
//! | `handles` | clones, weak handles, such as are refused, the last of a side, a closed channel; that a channel and its messages are freed; what handles and errors say |
//! | `left` | one that starves and is left alone: how many newcomers are refused for its sake, that others go on then, and that it comes as one of them |
//! | `limits` | calls that wait until a limit, and what comes while they look at the clock there |
//! | `wakes` | threads that are blocked, and woken one by one; one that is to receive many, and takes what is due to it and to nobody; who is woken as one that was told is dropped, or comes to its limit |
//! | `turns` | one that lost twice, by turns with others: it has the third, and newcomers what is not due; who is dropped, polled for another reason or at its limit then; a close |
//! | `races` | threads that make their calls at the same time: the last two handles of a side dropped at once, and many of four threads; a last message as another thread receives, and many received at once as another takes one |
//! | `threads` | 8 threads that send and 8 that receive, each in a way of its own, or many at once; handles made anew by weak ones; a close among them; calls that are given up |
//!
//! What is said of every way to send or to receive is written once, and run with each: `ways` has them, with what they
//! answer, `waiting` futures and streams, each with a task of its own; `script` makes the calls of a table. Refused memory is
//! tested in `test_memory`.
#![tactic(auto)]

#[cfg(test)]
mod answers;
#[cfg(test)]
mod handles;
#[cfg(test)]
mod left;
#[cfg(test)]
mod limits;
#[cfg(test)]
mod races;
#[cfg(test)]
mod script;
#[cfg(test)]
mod support;
#[cfg(test)]
mod threads;
#[cfg(test)]
mod turns;
#[cfg(test)]
mod waiting;
#[cfg(test)]
mod wakes;
#[cfg(test)]
mod ways;
