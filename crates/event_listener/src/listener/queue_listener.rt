//! The listener that shares the queue of its event, and the one that borrows it.
ghost use Rattle.std.specs.Prelude.{◌≡◌, ◌≢◌, ◌⊎◌, ◌∷◌, ◌+◌, ◌<◌, ◌^◌, [], ⊤, true, false, Bool, Err, IfErr, IfOk, IsErr, IsSome, Ok};
ghost use Rattle.futures.specs.Poll.{OnPending};
ghost use Rattle.futures.specs.Task.{Covers, Keeps};
ghost use Rattle.event_listener.specs.Listening.{Known};
ghost use Rattle.event_listener.specs.Polling.{IsPolled};
ghost use Rattle.event_queue.specs.declared.reply.RegisterResult.TheVariants as register;
ghost use Rattle.event_listener.specs.Waiting.{Finds, HandsBack, IfBack, PollsBy, RemovesAs, RemovesBy, WaitsBy, answered, reason_of};
ghost use Rattle.event_wait.specs.declared.lock.limit.Limit.TheVariants.{Never};
ghost use Rattle.event_history.specs.Hands.{IsOf, known_by};
ghost use Rattle.event_history.specs.History.{Looks, both_views, newcomer};
ghost use Rattle.event_history.specs.Laws.{OwnsListener};
ghost use Rattle.event_history.specs.Queue.{NoneLeft, queue_machine};
ghost use Rattle.event_history.specs.declared.queue_call.QueueCall.TheVariants as call;
ghost use Rattle.event_listener.specs.declared.listener.wait_error.WaitReason.TheVariants as because;

use super::hold::Hold;
use super::membership::Membership;
use super::place::answer_of;
use super::polled::poll_of;
use super::{Listener, NeverInserted, WaitError, WaitReason};
use crate::event::{Event, EventHand, QueueHand, Shared};
use event_history::steps::{Register, RegisterWith, Remove};
use event_history::{IdleHand, QueueCall, perform};
use event_queue::{Key, List, State};
use event_wait::{DeferredWake, Limit, Task};
use futures::Future;
use futures::task::{Context, Poll, Waker};
use std::alloc::Global;
use std::fmt;
use std::marker::{Model, PhantomData};
use std::sync::{Arc, Wait};
use std::thread::Parker;
use std::time::{Clock, Duration, Instant};

/// A listener that shares the queue of its event, and so can outlive the event.
///
/// The listener keeps the allocator and a clone of the runtime value that it was made with, for its own calls and its drop.
/// [`Listener`] says of every listener what these do, what they allocate and when they block.
///
/// A task awaits a listener. The first of both `?` at the end propagates an error of the executor, the second a
/// [`NeverInserted`]:
///
/// ```rust
/// let listener = event.listen(rt, rt.alloc())?;
/// Ok(block_on(rt, listener)??)
/// ```
pub type EventListener<T, R> = QueueListener<T, Arc<Shared<T>>, R>;

/// A listener that borrows the queue of its event, and so cannot outlive the event. Such a listener needs no share of the
/// queue.
///
/// The listener may be moved and given away as long as the event lives. The drop of the listener removes it from the queue,
/// and not the end of the scope in which its slot was made. For its own calls and its drop the listener keeps the allocator
/// of its slot and a clone of the runtime value. [`Listener`] says of every listener what these do, what they allocate and
/// when they block.
pub type StackListener<'ev, T, R> = QueueListener<T, &'ev Shared<T>, R>;

/// A listener of an [`Event`]: an [`EventListener`] or a [`StackListener`], by how it holds the queue.
///
/// A contract sees a listener as its standing (the number of its event, its key in the queue, whether it has given its tag,
/// where its polls register), the name of the queue's lock, and what its hand knows of the history of the queue.
#[must_use = "a listener that is dropped waits for nothing"]
pub struct QueueListener<T, H: Hold<T>, R: Wait + Clock + Clone> {
    held: H,
    membership: Membership,
    hand: IdleHand<List<T, Task>, QueueCall<T, Task>>,
    runtime: R,
    alloc: Global,
    // A listener may be sent to other threads, and shared by them, only if the queue may.
    tag: PhantomData<Shared<T>>,
}

impl<T, H: Hold<T>, R: Wait + Clock + Clone> Model for QueueListener<T, H, R> {
    ghost use Rattle.std.specs.Prelude.{◌≡◌, ◌∷◌, [], false};
    ghost use Rattle.event_history.specs.Laws.{OwnsListener};
    ghost use Rattle.event_listener.specs.Listening.{Known, LeavesNone, Listening, known_of};

    ghost Value = { Listening T };

    ghost view = { λ listener. record {
      standing = record {
        event_number = H.event_number listener.held;
        key = listener.membership.key;
        is_finished = listener.membership.is_finished;
        source = (H.lock listener.held).source;
      };
      table = (H.lock listener.held).table;
      knows = known_of listener.hand.rest.views;
    } };

    ghost invariant = { λ listener. (listener.hand.rest.slot
        ≡ (H.lock listener.held).table)
        × ((knows : Known T) × (listener.hand.rest.views ≡ knows ∷ [])
        × (listener.membership.is_finished ≡ false
        → OwnsListener listener.membership.key knows.mine)
        × LeavesNone listener.membership knows.mine) };
}

impl<T, H: Hold<T>, R: Wait + Clock + Clone> QueueListener<T, H, R> {
    /// Makes the listener that this hand has just inserted into the queue, under this key.
    #[inline(always)]
    pub(crate) fn new(held: H, key: Key, hand: QueueHand<T>, runtime: R, alloc: Global) -> Self
        requires given { key.serial + 1 < 2 ^ 64 }
        requires hand { IsOf (H.lock held).table hand }
        requires joined { (known_by hand).mine ≡ call.Insert (Ok key) ∷ [] }
        ensures event { result.standing.event_number ≡ H.event_number held }
        ensures key { result.standing.key ≡ key }
        ensures unfinished { result.standing.is_finished ≡ false }
        ensures table { result.table ≡ (H.lock held).table }
        ensures knows { result.knows ≡ known_by hand }
    {
        QueueListener {
            held,
            membership: Membership::new(key),
            hand: hand.rest(),
            runtime,
            alloc,
            tag: PhantomData,
        }
    }

    /// Has the listener learn what this hand saw and did, and ends the hand: one history has the calls of both.
    ///
    /// So what the hand did stands in the history before what the listener does next. The hand and the listener have to be of
    /// one queue. Takes no memory and never blocks.
    ///
    /// Here `other` is the hand of a thread that knew of the listener and has notified all. By the two laws it is proved
    /// that the discard returns `true`:
    ///
    /// ```rust
    /// listener.join(other);
    /// listening_is_known::<()>();
    /// notifying_all_is_known::<()>();
    /// Ok(listener.discard())
    /// ```
    pub fn join(&mut self, other: EventHand<T>)
    where
        T: Drop,
        requires table { other.table ≡ self.old.table }
        ensures looks { Looks queue_machine
            (both_views self.old.knows other.knows) self.new.knows }
        ensures same { (self.new.standing ≡ self.old.standing) × (self.new.table ≡ self.old.table) }
        ensures owns { self.new.standing.is_finished ≡ false
            → OwnsListener self.new.standing.key self.new.knows.mine }
    {
        let mut hand = self.hand.take();
        self.held.queue().join(&mut hand, other.into_hand());
        self.hand.put(hand);
    }

    // Waits in the queue, until the limit at most. With a tag or `None` the listener has left the queue.
    #[inline(always)]
    pub(crate) fn wait_in_queue(&mut self, limit: Limit) -> Result<Option<T>, WaitReason>
    where
        T: Drop,
        ensures finished { self.old.standing.is_finished ≡ true
            → result ≡ Err because.NeverInserted ⊎ result ≡ Err because.Memory }
        ensures memory { result ≡ Err because.Memory → self.new.standing ≡ self.old.standing }
        ensures left { result ≢ Err because.Memory → self.new.standing.is_finished ≡ true }
        ensures unlimited { limit ≡ Never → IfOk result IsSome }
        ensures waits { self.old.standing.is_finished ≡ false
            → WaitsBy self.old.standing.key (limit ≢ Never) self.old.knows result self.new.knows }
        ensures table { self.new.table ≡ self.old.table }
    {
        if self.membership.is_finished() {
            return Err(reason_of_finished(self.alloc));
        }
        let mut hand = self.hand.take();
        let waited = self.held.queue().wait(
            &self.runtime,
            self.alloc,
            &mut hand,
            &mut self.membership.place(),
            limit,
        );
        self.hand.put(hand);
        let answer = answer_of(waited);
        if !matches!(answer, Err(WaitReason::Memory)) {
            self.membership.finish();
        }
        answer
    }

    // Returns the error of a wait, with the listener unless that has left the queue.
    #[inline(always)]
    pub(crate) fn refused(self, reason: WaitReason) -> WaitError<Self>
    where
        T: Drop,
        H: Drop,
        ensures reason { reason_of result ≡ reason }
        ensures back { IfBack result (λ back. back ≡ self) }
    {
        match reason {
            WaitReason::NeverInserted => WaitError::NeverInserted,
            WaitReason::Memory => WaitError::Memory(self),
        }
    }

    // Makes a hand that knows what the listener's hand knows.
    pub(crate) fn fork(&mut self) -> QueueHand<T>
        ensures told { IsOf self.old.table result
            × (known_by result ≡ newcomer self.old.knows.seen) }
        ensures same { self.new ≡ self.old }
    {
        let mut hand = self.hand.take();
        let told = self.held.queue().fork(&mut hand);
        self.hand.put(hand);
        told
    }

    // Returns the hand of a listener that has left the queue.
    pub(crate) fn into_hand(self) -> QueueHand<T>
    where
        H: Drop,
        requires left { self.standing.is_finished ≡ true }
        ensures hand { IsOf self.table result × (known_by result ≡ self.knows) }
        ensures ends { NoneLeft (known_by result).mine }
    {
        let QueueListener {
            held: _,
            membership: _,
            hand,
            runtime: _,
            alloc: _,
            tag: _,
        } = self;
        hand.into_hand()
    }

    // Removes the listener from the queue, if it is there. Returns whether the listener was notified, and the listener's
    // hand, all of whose listeners have left the queue. With `propagate` the listener's notification is propagated.
    #[inline(always)]
    pub(crate) fn leave(self, propagate: bool) -> (bool, QueueHand<T>)
    where
        T: Drop,
        H: Drop,
        ensures finished { self.standing.is_finished ≡ true → result.0 ≡ false }
        ensures removed { self.standing.is_finished ≡ false
            → RemovesAs propagate self result.0 (known_by result.1) }
        ensures table { IsOf self.table result.1 }
        ensures ends { NoneLeft (known_by result.1).mine }
    {
        let QueueListener {
            held,
            membership,
            hand,
            runtime,
            alloc: _,
            tag: _,
        } = self;
        let mut hand = hand.into_hand();
        // A finished listener takes no lock, here and in both polls.
        if membership.is_finished() {
            return (false, hand);
        }
        let step = Remove {
            key: membership.key(),
            propagate,
        };
        // A removal wakes a task only if it propagates a notification.
        let mut waking = DeferredWake::new();
        let former = perform!(
            held.queue(),
            &runtime,
            hand,
            step,
            &mut waking,
            |step, queue, sink| { queue.remove_uncounted(step.key, step.propagate, sink) }
        );
        waking.finish_seldom();
        // What was there is dropped in place: after a call it would be tested whether this is to end.
        let told = match former {
            Some(State::Notified { tag: _tag, .. } | State::Lost { tag: _tag, .. }) => true,
            Some(State::Passed { to: _ }) => true,
            Some(State::Task(_task)) => false,
            Some(State::Created) | None => false,
        };
        (told, hand)
    }
}

// Returns why a finished listener does not wait. The function first asks for what the thread would park on, as any wait does,
// so that a caller without memory learns that, and keeps its listener.
#[cold]
fn reason_of_finished(alloc: Global) -> WaitReason {
    match Arc::new(alloc, Parker::new()) {
        Ok(_) => WaitReason::NeverInserted,
        Err(_) => WaitReason::Memory,
    }
}

impl<T: Drop, H: Hold<T> + Drop, R: Wait + Clock + Clone> Listener<T> for QueueListener<T, H, R> {
    ghost standing = { λ listener. listener.standing };

    #[inline(always)]
    fn poll(&mut self, waker: Waker) -> Result<Poll<T>, NeverInserted>
        ensures polled { IsPolled self.old.standing result self.new.standing }
        ensures unchanged { self.old.standing.is_finished ≡ true → self.new ≡ self.old }
        ensures call { self.old.standing.is_finished ≡ false → PollsBy self.old result self.new }
        ensures table { self.new.table ≡ self.old.table }
    {
        if self.membership.is_finished() {
            return Err(NeverInserted);
        }
        let step = Register {
            key: self.membership.key(),
            task: Task::from_waker(waker),
        };
        let mut hand = self.hand.take();
        let lock = self.held.queue();
        let found = perform!(
            lock,
            &self.runtime,
            hand,
            step,
            &mut (),
            |step, queue, _beside| { queue.register_uncounted(step.key, step.task) }
        );
        self.hand.put(hand);
        self.membership.note(&found);
        poll_of(found, NeverInserted)
    }

    // This poll makes the step itself: by `Lock::poll_in`, each poll would be some twenty instructions longer.
    fn poll_in(&mut self, cx: &mut Context<'_>) -> Result<Poll<T>, NeverInserted>
        ensures polled { IsPolled self.old.standing result self.new.standing }
        ensures unchanged { self.old.standing.is_finished ≡ true → self.new ≡ self.old }
        ensures call { self.old.standing.is_finished ≡ false → PollsBy self.old result self.new }
        ensures table { self.new.table ≡ self.old.table }
        ensures registered { IfOk result (λ polled.
            OnPending polled (Covers cx.new (λ s. s ≡ self.new.standing.source))) }
        ensures kept { Keeps cx.old cx.new }
    {
        if self.membership.is_finished() {
            return Err(NeverInserted);
        }
        let lock = self.held.queue();
        let step = RegisterWith {
            key: self.membership.key(),
            exchange: lock.waker_source(),
        };
        let mut hand = self.hand.take();
        let found = perform!(lock, &self.runtime, hand, step, cx, |step, queue, on| {
            queue.register_with_uncounted(step.key, step.exchange, on)
        });
        self.hand.put(hand);
        self.membership.note(&found);
        poll_of(found, NeverInserted)
    }

    fn wait_until(self, limit: Limit) -> Result<Option<T>, WaitError<Self>>
        ensures finished { self.standing.is_finished ≡ true → IsErr result }
        ensures memory { IfErr result (HandsBack (λ listener. listener.standing) self) }
        ensures unlimited { limit ≡ Never → IfOk result IsSome }
        ensures waits { self.standing.is_finished ≡ false → (after : Known T)
            × WaitsBy self.standing.key (limit ≢ Never) self.knows (answered result) after
            × IfErr result (λ error. IfBack error (λ back. back.knows ≡ after)) }
        ensures table { IfErr result (λ error. IfBack error (λ back. back.table ≡ self.table)) }
    {
        let mut listener = self;
        match listener.wait_in_queue(limit) {
            Ok(tag) => Ok(tag),
            Err(reason) => Err(listener.refused(reason)),
        }
    }

    fn wait(self) -> Result<T, WaitError<Self>>
        ensures finished { self.standing.is_finished ≡ true → IsErr result }
        ensures memory { IfErr result (HandsBack (λ listener. listener.standing) self) }
        ensures told { self.standing.is_finished ≡ false
            → IfOk result (λ tag. (after : Known T)
            × Finds self.standing.key self.knows (register.Notified tag) after) }
    {
        match self.wait_until(Limit::Never)? {
            Some(tag) => Ok(tag),
            None => unreachable!(),
        }
    }

    fn wait_timeout(self, timeout: Duration) -> Result<Option<T>, WaitError<Self>>
        ensures finished { self.standing.is_finished ≡ true → IsErr result }
        ensures memory { IfErr result (HandsBack (λ listener. listener.standing) self) }
        ensures waits { self.standing.is_finished ≡ false → (after : Known T)
            × WaitsBy self.standing.key ⊤ self.knows (answered result) after }
    {
        let limit = Limit::after(&self.runtime, timeout);
        self.wait_until(limit)
    }

    fn wait_deadline(self, deadline: Instant) -> Result<Option<T>, WaitError<Self>>
        ensures finished { self.standing.is_finished ≡ true → IsErr result }
        ensures memory { IfErr result (HandsBack (λ listener. listener.standing) self) }
        ensures waits { self.standing.is_finished ≡ false → (after : Known T)
            × WaitsBy self.standing.key ⊤ self.knows (answered result) after }
    {
        self.wait_until(Limit::At(deadline))
    }

    fn discard(self) -> bool
        ensures finished { self.standing.is_finished ≡ true → result ≡ false }
        ensures removed { self.standing.is_finished ≡ false → RemovesBy false self result }
    {
        let (told, hand) = self.leave(false);
        hand.end();
        told
    }

    fn listens_to(&self, event: &Event<T>) -> bool {
        self.held.event_number() == event.number()
    }

    fn same_event(&self, other: &Self) -> bool {
        self.held.event_number() == other.held.event_number()
    }
}

/// Gives the tag once the listener is notified. Gives [`NeverInserted`] if the listener has given its tag already.
impl<T: Drop, H: Hold<T> + Drop, R: Wait + Clock + Clone> Future for QueueListener<T, H, R> {
    type Output = Result<T, NeverInserted>;

    ghost needs = { λ listener s. s ≡ listener.standing.source };

    ghost gives = { λ listener output. listener.standing.is_finished ≡ true → IsErr output };

    fn poll(&mut self, cx: &mut Context<'_>) -> Poll<Result<T, NeverInserted>> {
        match self.poll_in(cx) {
            Ok(Poll::Ready(tag)) => Poll::Ready(Ok(tag)),
            Ok(Poll::Pending) => Poll::Pending,
            Err(gone) => Poll::Ready(Err(gone)),
        }
    }
}

impl<T: Drop, H: Hold<T> + Drop, R: Wait + Clock + Clone> Drop for QueueListener<T, H, R> {
    #[inline(always)]
    fn drop(self)
        ensures removed { self.standing.is_finished ≡ false → (told : Bool)
            × RemovesBy true self told }
    {
        let (_, hand) = self.leave(true);
        hand.end();
    }
}

impl<T, H: Hold<T>, R: Wait + Clock + Clone> fmt::Debug for QueueListener<T, H, R> {
    fn fmt<W: fmt::Write>(&self, f: &mut fmt::Formatter<W>) -> fmt::Result {
        f.debug_struct(H::LISTENER).finish_non_exhaustive()
    }
}
