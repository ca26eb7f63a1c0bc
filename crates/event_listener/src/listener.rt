//! Listeners.
ghost use Rattle.std.specs.Prelude.{◌≡◌, ◌↔◌, true, false, IsTrue, IsErr, IsSome, IfOk, IfErr, OnErr};
ghost use Rattle.futures.specs.Poll.{IfReady, OnPending};
ghost use Rattle.futures.specs.Task.{Covers, Keeps};
ghost use Rattle.event_listener.specs.Listening.{Standing};
ghost use Rattle.event_listener.specs.Polling.{IsPolled};
ghost use Rattle.event_listener.specs.Waiting.{HandsBack};
ghost use Rattle.event_wait.specs.declared.lock.limit.Limit.TheVariants.{Never};

mod hold;
mod macros;
mod membership;
mod place;
mod polled;
mod queue_listener;
mod stack_slot;
mod wait_error;

use crate::event::Event;
use event_wait::Limit;
use futures::task::{Context, Poll, Waker};
pub use hold::Hold;
pub(crate) use polled::poll_of;
pub use queue_listener::{EventListener, QueueListener, StackListener};
pub use stack_slot::StackSlot;
use std::time::{Duration, Instant};
use thiserror::Error;
pub use wait_error::{WaitError, WaitReason};

/// The error of a listener that is not in the queue any more, because it has given its tag.
///
/// A task propagates this error by `?`, because the variant below makes an error of the task from a `NeverInserted`:
///
/// ```rust
/// Ok(block_on(rt, listener)??)
///
/// #[error("{0}")]
/// NeverInserted(#[from] NeverInserted),
/// ```
#[derive(Clone, Copy, Debug, PartialEq, Eq, Error)]
#[error("listener is not in the queue")]
pub struct NeverInserted;

/// What waits in the queue of an event until it is notified: for example an [`EventListener`] or a [`StackListener`].
///
/// A listener is *notified* once a notification has picked it, until its tag is taken. A listener is *finished* once it has
/// given its tag.
///
/// Dropping a listener removes it from the queue. If the listener was notified, the drop *propagates* its notification: the
/// event is notified of one, of the same kind and with the same tag. So a default notification is lost while another listener
/// stays notified, and an additional one only if no other listener waits. The drop takes no memory, and may block until the
/// lock of the event is free. A finished listener takes no lock.
///
/// The trait is open. Generic callers know an implementation by its `standing`: the number of the event that it listens to,
/// its key in the queue there, whether it is finished, and where its polls register.
///
/// The clauses of an [`EventListener`] and a [`StackListener`] say more. Each has a *hand*, a caller whom proofs can follow,
/// and each of its calls stands in the one history of all calls on the queue of its event. At each call stands which call
/// that is, with its reply.
///
/// # Waiting
///
/// [`wait_until`](Listener::wait_until) blocks the calling thread until a [`Limit`]. Each of [`wait`](Listener::wait),
/// [`wait_timeout`](Listener::wait_timeout) and [`wait_deadline`](Listener::wait_deadline) calls it with a limit. All four go
/// in this order:
///
/// 1. `wait_timeout` reads the clock, which fixes its limit, unless its timeout is zero.
/// 2. The wait allocates what the thread parks on, and makes a share of that.
/// 3. If the listener is notified, the wait takes the tag and returns it. Else it stores the share in the queue.
/// 4. The wait reads the clock, if its limit is a moment. If the limit has passed, it removes the listener and propagates
///    nothing; a tag that the listener was given since step 3 is returned.
/// 5. The thread parks until it is woken or the limit has passed. Then the wait makes a new share, and goes on at step 3.
///
/// So a listener that was notified already gives its tag, however late the wait begins. Steps 3 and 4 may block until the
/// lock of the event is free. The clock is that of the runtime value which the listener keeps, and no lock is held while it
/// is read. No contract says that a thread is woken, or that a wait returns.
///
/// If step 2 or a new share fails, the wait returns [`WaitError::Memory`] with the same listener, at the same place in the
/// queue: no wait removes a listener, or takes its tag, before it returns that error. A task that the wait stored in the
/// queue stays there. A wait on a finished listener returns [`WaitError::NeverInserted`] after step 2, so it can be refused
/// memory, too.
///
/// A function that takes a listener of any kind has a type parameter for it. These lines are the head and the body of a
/// function that retries a wait once:
///
/// ```rust
/// pub fn tag_by<T, L: Listener<T>>(listener: L, deadline: Instant) -> Result<Option<T>, WaitError<L>>
///
/// match listener.wait_deadline(deadline) {
///     Err(WaitError::Memory(listener)) => listener.wait_deadline(deadline),
///     answer => answer,
/// }
/// ```
pub trait Listener<T>: Sized {
    ghost standing: { Self → Standing };

    /// Takes the tag if the listener is notified, which finishes the listener; else stores the waker and returns `Pending`.
    ///
    /// Returns [`NeverInserted`] if the listener is finished already, and leaves it so. Takes no memory. May block until the
    /// lock of the event is free.
    ///
    /// The waker always replaces the one that an earlier poll stored. A waker wakes when it is dropped, so the task of the
    /// earlier waker is woken, even if that is the task which polls now. A waker that is not stored wakes its task in the
    /// same way. A future of your own has a context and no waker, and calls [`poll_in`](Listener::poll_in).
    fn poll(&mut self, waker: Waker) -> Result<Poll<T>, NeverInserted>
        ensures polled { IsPolled (standing self.old) result (standing self.new) };

    /// Takes the tag if the listener is notified, which finishes the listener; else registers the task that polls, and
    /// returns `Pending`.
    ///
    /// The call differs from [`poll`](Listener::poll) in the waker: a waker of this task that an earlier poll stored stays,
    /// so no task is woken. If the stored waker is of another task, the task's own waker replaces it, and that other task is
    /// woken. If no waker can be made, the task asks for another poll. Errors, memory and the lock are as for
    /// [`poll`](Listener::poll).
    ///
    /// Here a future polls its listener `work`, and makes its output of the tag:
    ///
    /// ```rust
    /// match self.work.poll_in(cx) {
    ///     Ok(Poll::Ready(work)) => Poll::Ready(Ok(Order::Work(work))),
    ///     Ok(Poll::Pending) => Poll::Pending,
    ///     Err(gone) => Poll::Ready(Err(gone)),
    /// }
    /// ```
    fn poll_in(&mut self, cx: &mut Context<'_>) -> Result<Poll<T>, NeverInserted>
        ensures polled { IsPolled (standing self.old) result (standing self.new) }

        // A poll that is pending has registered at the listener's source.
        ensures registered { IfOk result (λ polled.
            OnPending polled (Covers cx.new (λ s. s ≡ (standing self.new).source))) }
        ensures kept { Keeps cx.old cx.new };

    /// Waits until the listener is notified or the limit has passed, and returns the tag or `None`.
    ///
    /// The listener has left the queue then. A tag that the listener is given after the limit and before it leaves is
    /// returned too, and not propagated. See [Waiting](Listener#waiting) for what the call allocates, when it blocks, and
    /// what its errors leave.
    fn wait_until(self, limit: Limit) -> Result<Option<T>, WaitError<Self>>
        ensures finished { (standing self).is_finished ≡ true → IsErr result }
        ensures memory { IfErr result (HandsBack standing self) }

        // A wait without a limit ends with the tag or an error.
        ensures unlimited { limit ≡ Never → IfOk result (λ tag. IsSome tag) };

    /// Waits until the listener is notified, and returns the tag.
    ///
    /// The call is [`wait_until`](Listener::wait_until) with [`Limit::Never`], and fails as that does.
    ///
    /// The first `?` propagates a [`ListenError`](crate::ListenError), the second a [`WaitError`], each as an error of the
    /// caller:
    ///
    /// ```rust
    /// let listener = event.listen(rt, alloc)?;
    /// Ok(listener.wait()?)
    /// ```
    fn wait(self) -> Result<T, WaitError<Self>>
        ensures finished { (standing self).is_finished ≡ true → IsErr result }
        ensures memory { IfErr result (HandsBack standing self) }
    {
        match self.wait_until(Limit::Never)? {
            Some(tag) => Ok(tag),
            None => unreachable!(),
        }
    }

    /// Waits until the listener is notified or `timeout` has passed, and returns the tag or `None`.
    ///
    /// The call is [`wait_until`](Listener::wait_until) with [`Limit::after`], by the clock of the listener, and fails as
    /// that does. Each call begins its time anew: to retry after an error against one limit, call
    /// [`wait_deadline`](Listener::wait_deadline).
    ///
    /// Where the clock can't be read this caller waits for no time: the listener gives the tag that it has, or `None`:
    ///
    /// ```rust
    /// let Ok(now) = Instant::now(rt) else {
    ///     return listener.wait_timeout(Duration::ZERO);
    /// };
    /// ```
    fn wait_timeout(self, timeout: Duration) -> Result<Option<T>, WaitError<Self>>
        ensures finished { (standing self).is_finished ≡ true → IsErr result }
        ensures memory { IfErr result (HandsBack standing self) };

    /// Waits until the listener is notified or its clock shows `deadline`, and returns the tag or `None`.
    ///
    /// The call is [`wait_until`](Listener::wait_until) with [`Limit::At`], and fails as that does. A clock that can't be
    /// read counts as one that shows the deadline.
    ///
    /// A wait that was refused memory is retried once, by the same listener and against the same deadline:
    ///
    /// ```rust
    /// match listener.wait_deadline(deadline) {
    ///     Err(WaitError::Memory(listener)) => listener.wait_deadline(deadline),
    ///     answer => answer,
    /// }
    /// ```
    fn wait_deadline(self, deadline: Instant) -> Result<Option<T>, WaitError<Self>>
        ensures finished { (standing self).is_finished ≡ true → IsErr result }
        ensures memory { IfErr result (HandsBack standing self) }
    {
        self.wait_until(Limit::At(deadline))
    }

    /// Removes the listener from the queue without propagating its notification, and returns whether it was notified.
    ///
    /// For a finished listener the call returns `false`, because that listener is not in the queue. Takes no memory. May
    /// block until the lock of the event is free.
    ///
    /// The caller returns whether its listener was notified:
    ///
    /// ```rust
    /// let mut listener = hand.listen(rt, alloc)?;
    ///
    /// Ok(listener.discard())
    /// ```
    fn discard(self) -> bool
        ensures finished { (standing self).is_finished ≡ true → result ≡ false };

    /// Returns whether the listener listens to this event: whether the numbers of the two events are the same.
    ///
    /// Events whose identities are of two sources may have one number. Takes no memory and never blocks.
    fn listens_to(&self, event: &Event<T>) -> bool
        ensures { IsTrue result ↔ ((standing self.now).event_number ≡ event.now) };

    /// Returns whether both listen to one event: whether the numbers of their events are the same.
    ///
    /// Events whose identities are of two sources may have one number. Takes no memory and never blocks.
    fn same_event(&self, other: &Self) -> bool
        ensures { IsTrue result ↔ ((standing self.now).event_number ≡ (standing other.now).event_number) };
}
