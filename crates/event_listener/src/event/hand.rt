//! A caller of an event whose calls are known to stand in one history.
ghost use Rattle.std.specs.Prelude.{◌≡◌, ◌≢◌, true, false, IfOk};
ghost use Rattle.event_history.specs.declared.queue_call.QueueCall.TheVariants as call;
ghost use Rattle.event_history.specs.Hands.{IsOf, known_by};
ghost use Rattle.event_history.specs.History.{Looks, both_views, newcomer};
ghost use Rattle.event_history.specs.Queue.{NoneLeft, queue_machine};
ghost use Rattle.event_listener.specs.Event.{Listens, TellsSome};
ghost use Rattle.event_listener.specs.Listening.{Known};
ghost use Rattle.event_listener.specs.Waiting.{Calls, RemovesHeard, WaitsBy, answered};
ghost use Rattle.event_wait.specs.declared.lock.limit.Limit.TheVariants.{Never};

use super::{Event, QueueHand, Shared};
use crate::listener::{EventListener, Hold, QueueListener, WaitError};
use event_history::perform;
use event_history::steps::{Counts, Insert, Notify};
use event_queue::{IntoNotification, ListenError, NotifyError};
use event_wait::{DeferredWake, Limit};
use std::alloc::{AllocError, Global};
use std::marker::Model;
use std::sync::{Arc, Wait};
use std::time::Clock;

/// A caller of one [`Event`] whom proofs can follow, with a share of the event's queue.
///
/// A hand's calls do what the calls of the event do, and their clauses say more. All calls on the queue, by events, listeners
/// and hands of all threads, stand in one *history*: a list of the calls, each with its reply, which exists in proofs alone.
/// A hand *knows* a beginning of the history, and which of its calls are the hand's own. The clause of each call says that
/// there is one history which begins with all that the hand knew, runs step by step as the queue does, ends with this call
/// and its reply, and has of this hand just the calls that the hand made, each once and in order. Hands learn from each other
/// what they know by [`fork`](EventHand::fork), [`observe`](EventHand::observe) and [`join`](EventHand::join). Compiled code
/// has no trace of the history.
///
/// A contract sees a hand as the number of its event, the name of the queue's lock, and what the hand knows.
///
/// A hand registers a listener, and then learns that the listener has registered:
///
/// ```rust
/// let mut hand = event.hand(rt, alloc)?;
/// let mut first = hand.listen(rt, alloc)?;
/// hand.observe(&mut first);
/// ```
pub struct EventHand<T = ()> {
    shared: Arc<Shared<T>>,
    hand: QueueHand<T>,
}

impl<T> Model for EventHand<T> {
    ghost use Rattle.std.specs.Prelude.{◌≡◌};
    ghost use Rattle.std.specs.Arc.{arc_value};
    ghost use Rattle.event_history.specs.Queue.{NoneLeft};
    ghost use Rattle.event_listener.specs.Listening.{Caller};

    ghost Value = { Caller T };

    ghost view = { λ caller. record {
      event_number = (arc_value caller.shared).event_number;
      table = (arc_value caller.shared).lock.table;
      knows = caller.hand.mark.view;
    } };

    ghost invariant = { λ caller. (caller.hand.mark.slot ≡ (arc_value caller.shared).lock.table)
        × NoneLeft caller.hand.mark.view.mine };
}

impl<T> Event<T> {
    /// Makes a hand of this event: a caller whom proofs can follow, and who has made no call yet.
    ///
    /// The hand knows a beginning of the history of all calls on the queue; no clause says how long a beginning. No clause
    /// says either that the hands of two such calls have one queue, so these two cannot join: [`fork`](EventHand::fork) all
    /// others from one.
    ///
    /// Returns an error if there is no memory for the queue, or no further share of the queue can be made. Takes memory for
    /// the queue if there is none yet. May block until another thread has made the queue.
    ///
    /// ```rust
    /// let mut hand = event.hand(rt, alloc)?;
    /// let mut listener = hand.listen(rt, alloc)?;
    /// ```
    pub fn hand<R: Wait>(&self, rt: &R, alloc: Global) -> Result<EventHand<T>, AllocError>
    where
        T: Drop,
        ensures event { IfOk result (λ caller. caller.event_number ≡ self.now) }
        ensures knows { IfOk result (λ caller. caller.knows ≡ newcomer caller.knows.seen) }
    {
        let made = match self.made() {
            Some(made) => made,
            None => self.make_queue(rt, alloc)?,
        };
        let shared = Arc::try_clone(made)?;
        let hand = shared.lock().hand();
        Ok(EventHand { shared, hand })
    }
}

impl<T> EventHand<T> {
    /// Notifies the first listeners that wait, as a call of this hand, and returns how many were notified.
    ///
    /// What the call does, which error it returns and when it blocks is said at [`Event::notify`].
    ///
    /// Here another thread notifies all who listen, and returns its hand:
    ///
    /// ```rust
    /// let _ = other.notify(rt, usize::MAX.additional());
    /// other
    /// ```
    #[inline(always)]
    pub fn notify<R: Wait, N: IntoNotification<Tag = T>>(
        &mut self,
        rt: &R,
        n: N,
    ) -> Result<usize, NotifyError>
    where
        N::Notify: Drop,
        requires fits { N.fits n }
        requires can_tag { N.Notify.can_tag (N.meaning n) }
        ensures tells { TellsSome N.Notify.tag_gives (N.Notify.count (N.meaning n))
            (N.meaning n) result }
        ensures call { Calls self.old.knows
            (call.Notify (N.Notify.count (N.meaning n)) (N.Notify.is_additional (N.meaning n))
            result) self.new.knows }
        ensures same { (self.new.event_number ≡ self.old.event_number)
            × (self.new.table ≡ self.old.table) }
    {
        let step = Notify {
            notification: n.into_notification(),
        };
        let mut waking = DeferredWake::new();
        let (_, told) = perform!(
            self.shared.lock(),
            rt,
            self.hand,
            step,
            &mut waking,
            |step, queue, sink| {
                let Notify { mut notification } = step;
                let told = queue.notify_uncounted(&mut notification, sink);
                (notification, told)
            }
        );
        waking.finish();
        told
    }

    /// Returns how many listeners are notified, and how many are in the queue, as a call of this hand.
    ///
    /// Another thread may change both at once. Takes no memory. May block until the lock of the event is free.
    ///
    /// ```rust
    /// let (_, listeners) = hand.counts(rt);
    /// if listeners != 2 {
    ///     return Ok(None);
    /// }
    /// ```
    pub fn counts<R: Wait>(&mut self, rt: &R) -> (usize, usize)
        ensures call { Calls self.old.knows (call.Counts result.0 result.1) self.new.knows }
        ensures same { (self.new.event_number ≡ self.old.event_number)
            × (self.new.table ≡ self.old.table) }
    {
        perform!(self.shared.lock(), rt, self.hand, Counts, &mut ())
    }

    /// Registers a listener at the end of the queue, and returns the listener.
    ///
    /// The call that registers is one of the listener's own hand, which knows all that this hand knows. What memory the call
    /// takes, which errors it returns and when it blocks is said at [`Event::listen`]; the queue has been made already.
    ///
    /// ```rust
    /// let mut second = hand.listen(rt, alloc)?;
    /// hand.observe(&mut second);
    /// ```
    #[inline(always)]
    pub fn listen<R>(&mut self, rt: &R, alloc: Global) -> Result<EventListener<T, R>, ListenError>
    where
        T: Drop,
        R: Wait + Clock + Clone,
        ensures event { IfOk result (λ listener.
            listener.standing.event_number ≡ self.old.event_number) }
        ensures unfinished { IfOk result (λ listener. listener.standing.is_finished ≡ false) }
        ensures table { IfOk result (λ listener. listener.table ≡ self.old.table) }
        ensures listens { IfOk result (Listens self.old.knows.seen) }
        ensures same { self.new ≡ self.old }
    {
        let Ok(shared) = Arc::try_clone(&self.shared) else {
            return Err(ListenError::Memory);
        };
        let Ok(runtime) = rt.clone() else {
            return Err(ListenError::Memory);
        };
        let mut hand = self.shared.lock().fork(&mut self.hand);
        let key = match perform!(self.shared.lock(), rt, hand, Insert, &mut ()) {
            Ok(key) => key,
            Err(error) => {
                hand.end();
                return Err(error);
            }
        };
        Ok(EventListener::new(shared, key, hand, runtime, alloc))
    }

    /// Waits until the listener is notified or the limit has passed, and returns the tag or `None`.
    ///
    /// The call blocks, takes memory and fails as [`Listener::wait_until`](crate::Listener::wait_until) does. With the tag or
    /// `None` the listener is gone, and this hand knows what the listener's hand saw and did. With an error this hand has
    /// learned nothing.
    pub fn wait_until<H: Hold<T>, R: Wait + Clock + Clone>(
        &mut self,
        listener: QueueListener<T, H, R>,
        limit: Limit,
    ) -> Result<Option<T>, WaitError<QueueListener<T, H, R>>>
    where
        T: Drop,
        H: Drop,
        requires table { listener.table ≡ self.old.table }
        ensures waits { listener.standing.is_finished ≡ false → (after : Known T)
            × WaitsBy listener.standing.key (limit ≢ Never) listener.knows (answered result) after
            × IfOk result (λ tag.
            Looks queue_machine (both_views self.old.knows after) self.new.knows) }
        ensures same { (self.new.event_number ≡ self.old.event_number)
            × (self.new.table ≡ self.old.table) }
    {
        let mut listener = listener;
        match listener.wait_in_queue(limit) {
            Ok(tag) => {
                self.shared
                    .lock()
                    .join(&mut self.hand, listener.into_hand());
                Ok(tag)
            }
            Err(reason) => Err(listener.refused(reason)),
        }
    }

    /// Removes the listener from the queue without propagating its notification, and returns whether the listener was
    /// notified.
    ///
    /// Afterwards this hand knows what the listener's hand saw and did. For a listener that has given its tag the call
    /// returns `false`, because that listener is not in the queue. What else holds is said at
    /// [`Listener::discard`](crate::Listener::discard). Takes no memory. May block until the lock of the event is free.
    ///
    /// The listener first learns what this hand knows, so that a law can say what the discard returns:
    ///
    /// ```rust
    /// second.join(hand.fork()?);
    /// passes_on::<(), Task>();
    /// Ok(Some(hand.discard(second)))
    /// ```
    pub fn discard<H: Hold<T>, R: Wait + Clock + Clone>(
        &mut self,
        listener: QueueListener<T, H, R>,
    ) -> bool
    where
        T: Drop,
        H: Drop,
        requires table { listener.table ≡ self.old.table }
        ensures finished { listener.standing.is_finished ≡ true → result ≡ false }
        ensures removed { listener.standing.is_finished ≡ false
            → RemovesHeard false listener result self.old.knows self.new.knows }
        ensures same { (self.new.event_number ≡ self.old.event_number)
            × (self.new.table ≡ self.old.table) }
    {
        let (told, other) = listener.leave(false);
        self.shared.lock().join(&mut self.hand, other);
        told
    }

    /// Drops the listener, which leaves the queue, and returns whether the listener was notified.
    ///
    /// The notification of a notified listener is propagated: the event is notified of one, of the same kind and with the
    /// same tag. Afterwards this hand knows what the listener's hand saw and did. For a listener that has given its tag the
    /// call returns `false`, because that listener is not in the queue. Takes no memory. May block until the lock of the
    /// event is free.
    ///
    /// Here the caller goes on only if the listener that is dropped was notified:
    ///
    /// ```rust
    /// first.join(hand.fork()?);
    /// if !hand.drop_listener(first) {
    ///     return Ok(None);
    /// }
    /// ```
    pub fn drop_listener<H: Hold<T>, R: Wait + Clock + Clone>(
        &mut self,
        listener: QueueListener<T, H, R>,
    ) -> bool
    where
        T: Drop,
        H: Drop,
        requires table { listener.table ≡ self.old.table }
        ensures finished { listener.standing.is_finished ≡ true → result ≡ false }
        ensures removed { listener.standing.is_finished ≡ false
            → RemovesHeard true listener result self.old.knows self.new.knows }
        ensures same { (self.new.event_number ≡ self.old.event_number)
            × (self.new.table ≡ self.old.table) }
    {
        let (told, other) = listener.leave(true);
        self.shared.lock().join(&mut self.hand, other);
        told
    }

    /// Makes another hand of the same queue, which knows all that this hand knows and has made no call.
    ///
    /// So what this hand did stands in the history before what the new hand will do. Returns an error if no further share of
    /// the queue can be made. Takes no memory and no lock: the call costs one load and the share.
    ///
    /// The new hand goes to another thread, which makes calls with it. Then the listener learns of these calls:
    ///
    /// ```rust
    /// hand.observe(&mut listener);
    /// let other = hand.fork()?;
    ///
    /// listener.join(other);
    /// ```
    pub fn fork(&mut self) -> Result<Self, AllocError>
        ensures told { IfOk result (λ told. (told.knows ≡ newcomer self.old.knows.seen)
            × (told.table ≡ self.old.table) × (told.event_number ≡ self.old.event_number)) }
        ensures same { self.new ≡ self.old }
    {
        let shared = Arc::try_clone(&self.shared)?;
        let hand = self.shared.lock().fork(&mut self.hand);
        Ok(EventHand { shared, hand })
    }

    /// Learns what the listener's hand knows, and leaves the listener as it was.
    ///
    /// No clause says which of the calls that this hand now knows are the listener's own. The listener has to be of the same
    /// queue. Takes no memory and no lock.
    ///
    /// ```rust
    /// let mut listener = hand.listen(rt, alloc)?;
    /// hand.observe(&mut listener);
    /// ```
    pub fn observe<H: Hold<T>, R: Wait + Clock + Clone>(
        &mut self,
        listener: &mut QueueListener<T, H, R>,
    )
        requires table { listener.old.table ≡ self.old.table }
        ensures looks { Looks queue_machine
            (both_views self.old.knows (newcomer listener.old.knows.seen)) self.new.knows }
        ensures same { (self.new.event_number ≡ self.old.event_number)
            × (self.new.table ≡ self.old.table) }
        ensures listener { listener.new ≡ listener.old }
    {
        let told = listener.fork();
        self.shared.lock().join(&mut self.hand, told);
    }

    /// Learns what the other hand saw and did, and ends that hand: one history has the calls of both.
    ///
    /// So what the other hand did stands in the history before what this hand does next. Both hands have to be of one queue,
    /// as those are that [`fork`](EventHand::fork) made. Takes no memory and no lock.
    pub fn join(&mut self, other: Self)
    where
        T: Drop,
        requires table { other.table ≡ self.old.table }
        ensures looks { Looks queue_machine
            (both_views self.old.knows other.knows) self.new.knows }
        ensures same { (self.new.event_number ≡ self.old.event_number)
            × (self.new.table ≡ self.old.table) }
    {
        self.shared.lock().join(&mut self.hand, other.into_hand());
    }

    // Returns the hand without its share of the queue.
    pub(crate) fn into_hand(self) -> QueueHand<T>
    where
        T: Drop,
        ensures hand { IsOf self.table result × (known_by result ≡ self.knows) }
        ensures ends { NoneLeft (known_by result).mine }
    {
        let EventHand { shared: _, hand } = self;
        hand
    }
}

/// Ends the hand and gives up its share of the queue. No listener of the queue is removed, because each listener has a hand
/// of its own.
impl<T: Drop> Drop for EventHand<T> {
    #[inline(always)]
    fn drop(self) {
        self.into_hand().end();
    }
}
