//! Short callers of `event_listener`, `event_queue` and `event_until`, proved, and tested in `test_examples`. Pages quote them.
//!
//! - [`queue`]: lines of visitors over a queue as a plain value, and under a lock.
//! - [`flag`]: a flag that threads wait for: look, listen, look again, wait; set, then notify all; a listener for
//!   callers that wait otherwise, which is one of the flag's event. Two flags of one `EventIds` have different events,
//!   and making them fails only if fewer than two identities are left.
//! - [`meeting`]: a thread that waits for such a flag until another one has set it.
//! - [`locks`]: a mutex and a semaphore, whose clients keep to the places of `event_worlds`.
//! - [`threads`]: threads that are joined in the order in which they were started, whose first fault is the one returned.
//! - [`program`]: how a program over these threads ends, as `program_mutex` does: what it prints, and its status.
//! - [`tagged`]: default and additional notifications with tags, each of which notifies one listener at most and does
//!   not fail.
//! - [`timed`]: a wait against a deadline, over any kind of listener; a failed wait is retried. A wait on a finished
//!   listener fails, and a wait that fails for memory returns the same listener.
//! - [`relayed`]: errors of waits that `?` propagates.
//! - [`polled`]: a tag that a task awaits; a future over two events, whose pending poll has registered with both.
//! - [`desk`]: a desk at which one visitor at a time sits: a guard that notifies in its drop, and a future that tries, listens
//!   and polls in a loop, whose pending poll has registered.
//! - [`recorded_flag`]: a flag over a recorded event, for which each thread waits with a hand of its own, which it
//!   tells from others; closed with `Ok`, the notes of each hand are entries of its record.
//! - [`heard`]: a thread that listens, tells another thread, which notifies all, and learns from it. That its listener was
//!   notified is proved, whatever other threads do: [HISTORY.md](../../../docs/HISTORY.md) says why.
//! - [`passed`]: a listener that is notified and dropped, and the next one, which hears it, whatever other threads do.
//! - [`race`]: the thread of the first hand sets such a flag, and those of all others wait for it. Its record has
//!   entries of these hands alone, and of none.
//! - [`record_table`]: a record as a table of hand, call and reply.
//! - [`until`]: over `event_until`, a gate, the latest value, and a baton.
//!
//! Only tested: which listener gets which tag; that setting a flag notifies all listeners; that waits end, and a
//! second wait has the deadline of the first; that a flag is seen which is set between the first look and `listen`, and
//! that the recorded listener dropped then stands in the record without a hand; that an awaited tag comes, either event
//! wakes the future's task, and a second poll wakes no task; that the waiters for the desk sit one after another;
//! that a listener which an error held propagates its notification; that each listener of a race ends by its tag or is
//! dropped; whose fault is returned; what a program prints, the lines of a table and the texts of errors.
#![tactic(auto)]

pub mod desk;
pub mod flag;
pub mod heard;
pub mod locks;
pub mod meeting;
pub mod passed;
pub mod polled;
pub mod program;
pub mod queue;
pub mod race;
pub mod record_table;
pub mod recorded_flag;
pub mod relayed;
pub mod tagged;
pub mod threads;
pub mod timed;
pub mod until;
