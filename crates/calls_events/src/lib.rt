//! Events and recorded events as subjects of the language of [`calls`], what polls and waits need, and the worked rows.
//!
//! [`run_row`] makes a row on whatever subject it has. [`TEXTS`] has the texts of the worked rows, a family each ([`QUEUE`],
//! [`EVENTS`], [`RECORDS`], and those of [`calls::worlds`]), and [`print_rows`] prints how they end: the program `vectors` runs
//! them, and `test_memory` with memory refused.
//!
//! # Events
//!
//! The heads of rows are `event`, `two events`, `event tags` and `event bits`, for `Event<()>`, `Event<u64>` and
//! `Event<bool>`; `from SERIAL` behind one gives the first listener that serial number. Such a row is made twice, on new
//! events: where `listen` makes a listener that shares the queue of its event, and `slisten` one that borrows the event,
//! and the other way round ([`Sharing`], [`Borrowing`]). A difference says which kind `listen` made.
//!
//! Each `poll` has a new task, `await` and `hand` those of a few tasks that live on, and are polled again. A waker of
//! `futures` wakes its task when it is dropped, too. So tasks that a call lets go count as woken ([`Wakes`]), and a row
//! does not show that a task is woken, and not only dropped. No row parks a thread: a listener that waits was notified
//! before, or has no time left.
//!
//! `ids` and `id` are calls of a source of identities, which the subject has beside its events.
//!
//! # Recorded events
//!
//! The head of a row is `recorded by N`: a `RecordedEvent<u32>` with N hands. Its calls are made by the first of them,
//! `at N` by another; with `recorded by N in turn` each call is made by the next one.
//!
//! The last line of a row may be `close N -> ENTRIES`. It closes the event with N of its hands, and answers `hands missing`,
//! `differs`, or the entries of the record, parted by `; `. An entry is `HAND CALL: REPLY`, with `-` where it is the call
//! of no hand, and names listeners by their serial numbers:
//!
//! ```text
//! What the call of one hand did, another hand reads, and both find it in the record.
//! row 18 recorded by 2
//! listen -> listener 0
//! notify 1 d 5 -> told 1
//! at 1 -> ok
//! total -> total 1
//! drop 0 -> dropped
//! close 2 -> 0 listen: listener 0; 0 notify 1 d 5: told 1; 1 total: total 1; - remove 0 1: removed lost d 5
//! ```
//!
//! Without such a line all hands close the event. In any case a record has to replay.
//!
//! The head `written records` is that of records which the row writes. `replays ENTRIES` answers whether these are the
//! record of a queue, `true` or `false`. There are none behind `replays` alone; their calls are `listen` and `notify`.
//!
//! Proved: no call is made by a hand that is none of the event's.
#![tactic(auto)]

mod events;
mod kinds;
mod listeners;
mod records;
mod row;
mod tag;
mod tasks;
mod wakes;
mod worked;

pub use events::Events;
pub use kinds::{Borrowing, ListenerKind, Sharing};
pub use records::{HandCalls, On, OwnListener, close, new_event, reply_of, run_on_records};
pub use row::run_on_events;
pub use tag::EventTag;
pub use tasks::{WakeOrder, waker_of};
pub use wakes::{Runtime, Wakes};
pub use worked::{EVENTS, QUEUE, RECORDS, TEXTS, print_rows, run_row};
