//! A state behind a lock, and one history of all calls on the state. The history is ghost: compiled code has no trace of it.
//!
//! A thread takes a [`Traced`] state by one compare-exchange and gives it back by another. The state lies in a slot of
//! `event_slot`, so no memory is allocated for it. In proofs a list of all calls stands behind the lock, each call with its reply
//! and the [`Hand`] that made it. The list leads, call by call, from the state at the start to the state as it is, by the
//! relation of [`Steps`]. What is given of the start when the lock is made, as the capacity of a channel, is known from then on.
//! A hand is a caller's right to call, of no bytes. A hand knows a history that the one behind the lock begins with, and its own
//! calls in it.
//!
//! So the clause of a call says: *there is one history; it runs from the start; it begins with all that this hand had seen; it
//! ends with this call and its reply; and the calls of this hand in it are just those that it made, each once, in order.* Two
//! hands speak of the same history: [`Traced::fork`] makes a hand that has seen as much as another hand, and [`Traced::join`] has
//! one hand learn what another hand saw and did.
//!
//! A call may rest on earlier calls of the same hand, as [`Steps`] says: the hand that makes the call made those before. So in a
//! queue a listener is registered and removed by the hand that inserted the listener, and stays there until that hand takes it
//! out ([`own_listener_stays`]). A [`Request`] says more of the calls of its hand: at a channel, that these calls left the hand
//! the place by which it waits.
//!
//! A [`Lock`] is a traced state with queues of waiters: a [`Request`] waits by [`Lock::wait`] (a thread) or [`Lock::poll_in`] (a
//! task), and an [`Attempt`] tries before it waits ([`Lock::obtain`]). These are the loop and the poll of `event_wait`; each
//! attempt is a call of the history. A call of one's own is a [`Step`], made by [`perform!`], [`perform_first!`] or
//! [`Lock::call`]; [`steps`] has the steps of a queue, and what follows of the history of a queue stands in laws, as
//! [`tag_was_told`]. An [`IdleHand`] is a hand that makes no call, which threads may share.
//!
//! Read `history.rt` and `rule.rt` first, then `traced.rt`, `hand.rt`, `step.rt`, `lock.rt` and `lock/by_hand.rt`; of a queue
//! `steps.rt` and `laws.rt`.
//!
//! Nothing says that a call comes to an end, or in which order calls stand of hands that never heard of each other.
#![tactic(auto)]

mod hand;
mod history;
mod identity;
mod laws;
mod lock;
mod queue_call;
mod request;
mod rule;
mod step;
pub mod steps;
mod traced;

pub use hand::{Hand, IdleHand};
pub use history::{Entry, Made, Met, Named, Steps, View};
pub use laws::{
    first_told_first, never_absent, one_history_one_order, own_listener_stays, owns_on, passes_on,
    stays, tag_was_told, tells_all, told_by_another, told_hands_call_later, told_is_found,
    told_or_as_many_before, told_until_own_call,
};
pub use lock::Lock;
pub use queue_call::QueueCall;
pub use request::{Attempt, Request};
pub use rule::Rule;
pub use step::Step;
pub use traced::{Traced, wait_to_take};
