//! Tests of events, listeners and recorded events by their public calls: what no clause says of which listeners are notified,
//! and which wakers a poll keeps; of how listeners are made and what they show; of the lock of an event; of when a wait ends,
//! and that a thread parks until it is woken; and of recorded events. No clause can name what a lock held: these show that a
//! call asked the queue at all.
//!
//! | Module | What it tests |
//! |---|---|
//! | `rows`, as text | which wakers a poll keeps; in which order tasks wake, by a notification and by drops; serial numbers that are used up; that a discarded listener has left; that a record is compared |
//! | `tags` | tags that are refused, and one that can't be cloned, which is passed on |
//! | `locks` | what is called while the lock of an event is held, by its thread and by another; threads that race to make the queue |
//! | `meetings` | threads that sleep for the lock of an event: each is woken, and uses no processor time until then |
//! | `wakes` | a task and a parked thread behind a notification of a hand, a task behind a told listener that is dropped |
//! | `making` | the macro `listener!`; slots; a refused clone; what is shown; what threads may share; listeners that outlive their event |
//! | `order`, as text | in which order tasks wake on a recorded event; 2,000 listeners on one event of each kind: how many are notified and in which order, and what the event says then |
//! | `worlds`, as text | how many clients a world of `event_worlds` may have; that what is no schedule changes nothing; and that a row which is wrong is found |
//! | `records` | more hands than memory holds; hands of other events; each call of a recorded state succeeds |
//! | `waits::limits` | a told listener gives its tag at once, without parking; a timed wait parks until its limit, and ends no earlier and soon after it, by clocks that are slow, go back, fail, can't be read or notify; a task that polls is woken only once its listener is told, and a finished listener does not wait |
//! | `waits::wakes` | a notification and the drop of a told listener wake parked threads; a thread is told before it looks for its listener, before it parks, as it does so, or after |
//! | `waits::threads` | eight threads with a hand each make one record, which has each of their calls and of their drops once; two threads tell each other by two recorded events |
//!
//! Events are tested with both kinds of listener. How many each notification tells, worked rows and `soak` show, which compares
//! all calls that need no second thread, and their records, with a queue. Refused memory is tested in `test_memory`. Not tested:
//! a recorded queue whose serial numbers are used up. None can start late, since its record replays from the serial 0.
//!
//! A case of `waits` runs with listeners that share the queue of their event, with those that borrow their event, and with
//! those of a recorded event. Of its modules `stage` is the event of a case, with the clock of its listeners, `trial` what a
//! case makes its calls on, and `recorded` that of a recorded event, which each test closes with all its hands: their notes
//! have to be those of its record.
//!
//! The machine may be busy, so "soon" means that of up to twenty waits of 50 milliseconds one ends within 87. No contract says
//! that a thread wakes: the tests show that it woke within ten seconds here. A thread that is not woken ends at a limit of 20
//! seconds, and fails. A wait that should end at once and does not, or that has no limit, fails at the limit that the toolchain
//! has for every test. Threads that race do so for two seconds.
//!
//! What is calls and answers is text, in the language of `calls`, which costs the prover nothing. Any other test of both kinds
//! is a generic function. To be proved quickly, calls that have to succeed end in `expect`, in helpers: a `?`, or a condition of
//! several parts, is a branch at which every listener alive is dropped.
#![tactic(auto)]

#[cfg(test)]
mod locks;
#[cfg(test)]
mod making;
#[cfg(test)]
mod meetings;
#[cfg(test)]
mod order;
#[cfg(test)]
mod records;
#[cfg(test)]
mod rows;
#[cfg(test)]
mod support;
#[cfg(test)]
mod tags;
#[cfg(test)]
mod waits;
#[cfg(test)]
mod wakes;
#[cfg(test)]
mod worlds;
