//! Events that keep a record of every step of their queue, and whether a record is a run of a queue.

mod call;
mod close;
mod copied_tag;
mod entry;
mod error;
mod event;
mod hand;
mod laws;
mod listener;
mod poll;
mod record;
mod replay;
mod reply;
mod state;
mod step;
mod wait;

pub use call::{RecordedCall, StepCall};
pub use close::CloseError;
pub use entry::Entry;
pub use error::RecordError;
pub use event::RecordedEvent;
pub use hand::{Hand, Note};
pub use laws::{equal_calls, equal_replies, replays_exactly_the_runs};
pub use listener::{RecordedListener, RecordedPollError};
pub use record::Record;
pub use replay::replays;
pub use reply::{Former, RecordedReply};
pub use state::RecordedState;
