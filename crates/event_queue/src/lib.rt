//! The queue of an event as a value: listeners in the order in which they were inserted, of which a front is notified and the
//! others wait.
//!
//! [`List`] is the queue, and a [`Notification`] is what notifies its listeners. The other names are what the calls of these
//! take and return, and laws about them. A law is a function that does nothing when a program runs, and whose clauses are
//! proved.
#![tactic(auto)]

mod call;
mod exchange;
mod key;
mod laws;
mod list;
mod node;
mod notice;
mod notification_laws;
mod notify;
mod reply;
mod run;
mod stored_task;
mod tag_list;
mod uncounted;
mod wake;
mod woken;

pub use call::{Call, Reply};
pub use exchange::TaskExchange;
pub use key::Key;
pub use laws::{equal_keys, woken_keeps_the_first};
pub use list::List;
pub use node::Steps;
#[doc(hidden)]
pub use notice::Notice;
pub use notification_laws::{
    additional_clone_means_the_same, additional_twice_means_once,
    notification_is_its_own_conversion, notify_clone_means_the_same, relaxed_changes_no_meaning,
    relaxed_clone_means_the_same, tag_clone_has_both_clones,
};
pub use notify::{
    Additional, IntoNotification, IntoTagged, Notification, Notify, Relaxed, Tag, TagWith,
};
pub use reply::{ListenError, NotifyError, RegisterResult, State};
#[doc(hidden)]
pub use tag_list::TagList;
pub use wake::WakeSink;
pub use woken::Woken;
