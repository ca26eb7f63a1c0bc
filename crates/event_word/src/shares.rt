//! Readers and writers of a value, counted in the number of a word, with the queues of the waiters behind the word.
pub mod counts;
pub mod number;
pub mod owned;
pub mod queues;
pub mod reading;
mod requests;
pub mod right;
pub mod share;
mod steps;
pub mod writing;
