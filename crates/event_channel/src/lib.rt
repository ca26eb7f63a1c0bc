//! A channel: many threads and tasks send messages, and many receive them, each message once and in order.
//!
//! [`bounded`] makes a channel in which a given number of messages wait at most, [`unbounded`] one without a limit. Both return a
//! [`Sender`] and a [`Receiver`], which are shared by clones.
//!
//! Read `messages.rt` first, the state under the lock, then `sending.rt` and `receiving.rt`, the requests of both sides,
//! `channel.rt`, `sender.rt` and `receiver.rt`.
#![tactic(auto)]

mod call;
mod channel;
mod error;
mod iter;
mod laws;
mod messages;
mod receiver;
mod receiving;
mod recv;
mod send;
mod sender;
mod sending;
mod steps;

pub use call::{ChannelCall, ChannelHand};
pub use channel::ChannelError;
pub use error::{RecvError, RecvTimeoutError, SendError, SendReason, TryRecvError, WaitError};
pub use event_wait::Task;
pub use event_wait::starving::{FORBEARANCE, PATIENCE};
pub use iter::{Iter, TryIter};
pub use laws::{
    capacity_is_kept, newcomers_go_on, no_message_is_lost, sent_is_known,
    sent_is_received_in_order, starving_receivers_are_served, starving_senders_are_served,
};
pub use messages::{Messages, received_in_order};
pub use receiver::{Receiver, WeakReceiver};
pub use recv::Recv;
pub use send::Send;
pub use sender::{Sender, WeakSender, bounded, unbounded};
