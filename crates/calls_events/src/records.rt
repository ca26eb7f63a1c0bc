//! A recorded event as a subject, and what its record says: the page of the crate has the language.
mod hand_calls;
mod record;
mod recorded;
mod row;
mod written;

pub use hand_calls::{HandCalls, On, OwnListener};
pub use record::{close, new_event, reply_of};
pub use row::run_on_records;
