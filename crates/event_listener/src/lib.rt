//! Events that threads and tasks listen to. A notification picks the first listeners that wait, and wakes the task of each.
//!
//! An [`Event`] has one queue of listeners, under a lock of its own. [`Event::listen`] returns an [`EventListener`],
//! which shares that queue. [`StackSlot`], or the macro [`listener!`], returns a [`StackListener`], which borrows the
//! event. A thread waits on either listener, or a task polls it, until the listener is notified: see [`Listener`].
//!
//! A call that may block for the lock takes the runtime value, and a call that may allocate takes the allocator. A
//! listener keeps a clone of the runtime value, and the allocator, for its own calls.
//!
//! The queue itself is the crate `event_queue`. The public names of that crate are exported here too. Read `event.rt` first,
//! then `listener/queue_listener.rt`, `listener/place.rt` and `laws.rt`; of events that record `recorded/step.rt` and
//! `recorded/event.rt`.
//!
//! The examples below are in the crate `example_events`, where they are proved.
//!
//! # A flag that threads wait for
//!
//! The waiting thread looks at the flag, listens, looks again, and only then waits: a notification reaches only the
//! listeners that are in the queue by then. The other thread sets the flag first and notifies afterwards.
//!
//! ```rust
//! ghost use Rattle.std.specs.Prelude.{◌≡◌, ◌≢◌, ◌+◌, ◌≤◌, ◌^◌, IfOk, OnErr};
//!
//! use event_listener::{Event, EventId, EventIds, IdsUsedUp, ListenError, Listener, WaitError};
//! use std::alloc::Global;
//! use std::marker::Model;
//! use std::sync::Wait;
//! use std::sync::atomic::{AtomicBool, Ordering};
//! use std::time::Clock;
//! use thiserror::Error;
//!
//! /// A flag that is set once, and that threads wait for. A contract sees it as the number of its event.
//! #[derive(Drop)]
//! pub struct Flag {
//!     is_set: AtomicBool,
//!     set: Event,
//! }
//!
//! impl Flag {
//!     /// A flag that is not set.
//!     pub fn new(id: EventId) -> Self
//!         ensures { result ≡ id }
//!     {
//!         Flag {
//!             is_set: AtomicBool::new(false),
//!             set: Event::new(id),
//!         }
//!     }
//!
//!     /// Whether the flag is set.
//!     pub fn is_set(&self) -> bool {
//!         self.is_set.load(Ordering::SeqCst)
//!     }
//!
//!     /// Sets the flag, and then notifies every listener.
//!     pub fn set<R: Wait>(&self, rt: &R) {
//!         self.is_set.store(true, Ordering::SeqCst);
//!         self.set.notify_relaxed(rt, usize::MAX);
//!     }
//!
//!     /// Returns once the flag is set.
//!     pub fn wait<R>(&self, rt: &R, alloc: Global) -> Result<(), FlagError>
//!     where
//!         R: Wait + Clock + Clone,
//!     {
//!         for _ in rt.forever() {
//!             if self.is_set() {
//!                 return Ok(());
//!             }
//!             let listener = self.set.listen(rt, alloc)?;
//!             // A notification that came before the listener was in the queue does not reach it, so look again.
//!             if self.is_set() {
//!                 return Ok(());
//!             }
//!             // A listener that comes back is dropped here, which propagates its notification.
//!             if let Err(WaitError::Memory(_)) = listener.wait() {
//!                 return Err(FlagError::Memory);
//!             }
//!         }
//!         unreachable!()
//!     }
//! }
//!
//! /// Why a wait ended before the flag was set.
//! #[derive(Clone, Copy, Debug, PartialEq, Eq, Error)]
//! pub enum FlagError {
//!     #[error("{0}")]
//!     Listen(#[from] ListenError),
//!     #[error("no memory for a parker")]
//!     Memory,
//! }
//!
//! impl Model for Flag {
//!     ghost use Rattle.std.specs.Prelude.{ℕ};
//!
//!     ghost Value = { ℕ };
//!
//!     ghost view = { λ flag. flag.set };
//! }
//! ```
//!
//! # An event with tags
//!
//! Each listener that is notified gets a tag. A default notification of one listener does nothing if a listener is notified
//! already; an additional notification of one listener notifies one more.
//!
//! ```rust
//! ghost use Rattle.std.specs.Prelude.{◌≤◌};
//!
//! use event_listener::{
//!     Event, EventId, IntoNotification, IntoTagged, ListenError, Listener, WaitError,
//! };
//! use std::alloc::Global;
//! use std::sync::Wait;
//! use std::time::Clock;
//! use thiserror::Error;
//!
//! /// Why two listeners did not get their tags.
//! #[derive(Clone, Copy, Debug, PartialEq, Eq, Error)]
//! pub enum TagsError {
//!     #[error("{0}")]
//!     Listen(#[from] ListenError),
//!     #[error("no tag was given")]
//!     Wait,
//! }
//!
//! impl<L: Drop> From<WaitError<L>> for TagsError {
//!     fn from(_refused: WaitError<L>) -> TagsError {
//!         TagsError::Wait
//!     }
//! }
//!
//! /// Notifies the first listener that waits, with this tag, unless one is notified. Returns how many it notified.
//! ///
//! /// A clone of a number never fails, so no tag is refused.
//! pub fn tell_one<R: Wait>(rt: &R, event: &Event<u32>, tag: u32) -> usize
//!     ensures { result ≤ 1 }
//! {
//!     event.notify(rt, 1.tag(tag)).unwrap()
//! }
//!
//! /// Notifies the first listener that waits, with this tag, even if others are. Returns how many it notified.
//! pub fn tell_one_more<R: Wait>(rt: &R, event: &Event<u32>, tag: u32) -> usize
//!     ensures { result ≤ 1 }
//! {
//!     event.notify(rt, 1.additional().tag(tag)).unwrap()
//! }
//!
//! /// Notifies two listeners three times, and returns the tags that they got: 7 and 9.
//! pub fn tags_of_two<R>(rt: &R, alloc: Global, id: EventId) -> Result<(u32, u32), TagsError>
//! where
//!     R: Wait + Clock + Clone,
//! {
//!     let event = Event::with_tag(id);
//!     let first = event.listen(rt, alloc)?;
//!     let second = event.listen(rt, alloc)?;
//!     tell_one(rt, &event, 7);
//!     // One is notified already, so none gets this tag.
//!     tell_one(rt, &event, 8);
//!     tell_one_more(rt, &event, 9);
//!     Ok((first.wait()?, second.wait()?))
//! }
//! ```
//!
//! # A wait against a deadline
//!
//! At the deadline the listener leaves the queue, and the wait returns `None`. [`WaitError::Memory`] returns the
//! listener, which may wait again.
//!
//! ```rust
//! ghost use Rattle.std.specs.Prelude.{◌≡◌, true, IsErr, IfErr};
//! ghost use Rattle.event_listener.specs.Waiting.{HandsBack};
//!
//! use event_listener::{Listener, WaitError};
//! use std::time::{Clock, Duration, Instant};
//!
//! /// The tag, if the listener is notified before the deadline, and else `None`.
//! ///
//! /// A wait that fails for memory is retried once, with the listener that it returns and against the same deadline.
//! /// If the second wait fails too, the caller gets the listener.
//! pub fn tag_by<T, L: Listener<T>>(listener: L, deadline: Instant) -> Result<Option<T>, WaitError<L>>
//!     ensures finished { (L.standing listener).is_finished ≡ true → IsErr result }
//!     ensures memory { IfErr result (HandsBack L.standing listener) }
//! {
//!     match listener.wait_deadline(deadline) {
//!         Err(WaitError::Memory(listener)) => listener.wait_deadline(deadline),
//!         answer => answer,
//!     }
//! }
//! ```
//!
//! # An event that keeps a record
//!
//! A [`RecordedEvent`] records every step of its queue. Each of its callers has a [`Hand`], which notes the calls of that
//! caller and the replies to them. Once the listeners are gone, [`RecordedEvent::close`] returns the [`Record`] if the notes of
//! each hand are the record's entries of that hand. The record is one history of the queue, in which the calls of each hand
//! stand, each once and in order. [`replays`] says of any entries whether they are such a history. The crate `example_events` has
//! a flag that keeps a record.
//!
//! # What the contracts say
//!
//! A contract sees an event as the number of its identity, and a listener as its standing (the number of its event, its
//! key in the queue, whether it has given its tag, where its polls register), the name of the queue's lock, and what its hand
//! knows.
//!
//! Behind the lock of an event there is one *history*: a list of all calls on its queue, each with its reply, which exists in
//! proofs alone. The history runs, call by call, as the two lists of a queue do. A *hand* is a caller whom proofs can follow:
//! each listener has a hand of its own, and each call of the listener is that hand's next call in the history.
//!
//! - [`EventIds::next`] and [`given_numbers_are_distinct`]: events whose identities are of one source have different numbers.
//! - [`Event::listen`]: which event a listener listens to, and that it joined by one call of its hand.
//! - [`Event::notify`]: it returns no greater number than was asked for.
//! - [`Listener`]: when a listener is finished, that only a finished one fails, and that a wait which fails for memory
//!   returns the same listener.
//! - [`QueueListener`]: which calls of its hand its polls and waits, a discard and a drop are, with their replies.
//! - [`EventHand`]: calls of a caller's own hand, and what hands and listeners learn from each other. Laws, which are functions
//!   that only prove something, say what follows: for example [`notifying_all_is_known`] for a listener whose hand knows that all
//!   were notified, and [`passes_on`].
//! - [`RecordedEvent::close`]: a record is a history of its queue, and has the notes of each hand.
//! - [`RecordedState::apply`]: one call makes one step of a queue, and adds one entry to the record.
//!
//! A call that takes the lock, as every wait does, promises its clauses if it returns. No clause says that it returns, or
//! that a thread which is notified wakes.
#![tactic(auto)]

mod event;
mod laws;
mod listener;
mod recorded;

#[doc(hidden)]
pub use event::Shared;
pub use event::{Event, EventHand, EventId, EventIds, IdsUsedUp, given_numbers_are_distinct};
pub use event_history::{
    first_told_first, never_absent, one_history_one_order, own_listener_stays, owns_on, passes_on,
    stays, tag_was_told, tells_all, told_by_another, told_hands_call_later, told_is_found,
    told_or_as_many_before, told_until_own_call,
};
pub use event_queue::{
    Additional, Call, IntoNotification, IntoTagged, Key, List, ListenError, Notification, Notify,
    NotifyError, RegisterResult, Relaxed, Reply, State, Steps, Tag, TagWith, TaskExchange,
    WakeSink, Woken, additional_clone_means_the_same, additional_twice_means_once, equal_keys,
    notification_is_its_own_conversion, notify_clone_means_the_same, relaxed_changes_no_meaning,
    relaxed_clone_means_the_same, tag_clone_has_both_clones, woken_keeps_the_first,
};
#[doc(hidden)]
pub use event_queue::{Notice, TagList};
pub use event_wait::{Limit, Task};
pub use laws::{listening_is_known, notifying_all_is_known};
pub use listener::{
    EventListener, Hold, Listener, NeverInserted, QueueListener, StackListener, StackSlot,
    WaitError, WaitReason,
};
pub use recorded::{
    CloseError, Entry, Former, Hand, Note, Record, RecordError, RecordedCall, RecordedEvent,
    RecordedListener, RecordedPollError, RecordedReply, RecordedState, StepCall, equal_calls,
    equal_replies, replays, replays_exactly_the_runs,
};
