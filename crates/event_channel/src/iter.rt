//! The messages of a receiver, one after another.
ghost use Rattle.std.specs.Iterator.{at_most};
ghost use Rattle.event_channel.specs.Iter.{iter_left, try_iter_left};

use crate::error::{RecvError, WaitError};
use crate::receiver::Receiver;
use std::fmt;
use std::fmt::{Debug, Formatter};
use std::sync::{Forever, Wait};
use std::time::Clock;

/// The messages of a channel, each once it has been sent. [`iter`](Receiver::iter) makes this.
///
/// Each item is a message, or the error of a wait that was refused:
///
/// ```rust
/// for job in jobs.iter() {
///     let Job { number, answer } = job?;
/// ```
#[derive(Drop)]
pub struct Iter<'a, T: Drop, R: Wait + Clock + Clone> {
    receiver: &'a Receiver<T, R>,
    // The prover's measure of a loop over the iterator.
    turns: Forever<'a, R>,
}

/// The messages that are in a channel. [`try_iter`](Receiver::try_iter) makes this.
///
/// The loop ends once no message is there:
///
/// ```rust
/// for reading in readings.try_iter() {
///     newest = Some(reading);
/// }
/// ```
#[derive(Drop)]
pub struct TryIter<'a, T: Drop, R: Wait + Clock + Clone> {
    receiver: &'a Receiver<T, R>,
    turns: Forever<'a, R>,
}

impl<T: Drop, R: Wait + Clock + Clone> Receiver<T, R> {
    /// Iterates over the messages, each once it has been sent, and ends when the channel is closed and empty.
    ///
    /// Each step blocks the thread until there is a message, and takes memory where it has to wait. An item is an error if the
    /// step could not wait, like that of [`recv_blocking`](Receiver::recv_blocking); the next step tries again.
    ///
    /// A worker does jobs until the channel is closed and empty. The `?` propagates a `WaitError`:
    ///
    /// ```rust
    /// for job in jobs.iter() {
    ///     let Job { number, answer } = job?;
    ///     if let Some(square) = number.checked_mul(number) {
    ///         // There is room. Perhaps nobody waits for the answer any more.
    ///         let _ = answer.try_send(square);
    ///     }
    /// }
    /// ```
    pub fn iter(&self) -> Iter<'_, T, R> {
        Iter {
            receiver: self,
            turns: self.runtime().forever(),
        }
    }

    /// Iterates over the messages that are in the channel, and ends when there is none; it goes on if a message has been sent
    /// since.
    ///
    /// It does not wait for messages, and takes no memory.
    ///
    /// The function keeps the newest message that is there, and drops the older ones:
    ///
    /// ```rust
    /// let mut newest = None;
    /// for reading in readings.try_iter() {
    ///     newest = Some(reading);
    /// }
    /// newest
    /// ```
    pub fn try_iter(&self) -> TryIter<'_, T, R> {
        TryIter {
            receiver: self,
            turns: self.runtime().forever(),
        }
    }
}

impl<'a, T: Drop, R: Wait + Clock + Clone> Iterator for Iter<'a, T, R> {
    type Item = Result<T, WaitError>;

    ghost remaining = { λ s. at_most (iter_left s) };

    fn next(&mut self) -> Option<Result<T, WaitError>> {
        self.turns.next();
        match self.receiver.recv_blocking() {
            Ok(message) => Some(Ok(message)),
            Err(RecvError::Closed) => None,
            Err(RecvError::WaitFailed(error)) => Some(Err(error)),
        }
    }
}

impl<'a, T: Drop, R: Wait + Clock + Clone> Iterator for TryIter<'a, T, R> {
    type Item = T;

    ghost remaining = { λ s. at_most (try_iter_left s) };

    fn next(&mut self) -> Option<T> {
        self.turns.next();
        self.receiver.try_recv().ok()
    }
}

impl<'a, T: Drop, R: Wait + Clock + Clone> Debug for Iter<'a, T, R> {
    fn fmt<W: fmt::Write>(&self, f: &mut Formatter<W>) -> fmt::Result {
        f.write_str("Iter { .. }")
    }
}

impl<'a, T: Drop, R: Wait + Clock + Clone> Debug for TryIter<'a, T, R> {
    fn fmt<W: fmt::Write>(&self, f: &mut Formatter<W>) -> fmt::Result {
        f.write_str("TryIter { .. }")
    }
}
