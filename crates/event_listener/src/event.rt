//! Events.
ghost use Rattle.std.specs.Prelude.{◌≡◌, ◌≤◌, false, IfOk, IfSome};
ghost use Rattle.std.specs.Arc.{arc_value};
ghost use Rattle.event_queue.specs.Notify.{NeverRefuses};
ghost use Rattle.event_listener.specs.Event.{ListensFirst, TellsSome};

mod debug;
mod hand;
mod identity;
mod queue;

use crate::listener::EventListener;
use event_history::steps::{Counts, Insert, Notify};
use event_history::{Hand, QueueCall, perform_first};
use event_queue::{IntoNotification, List, ListenError, NotifyError};
use event_slot::SetOnce;
use event_wait::{DeferredWake, Task};
pub use hand::EventHand;
pub use identity::{EventId, EventIds, IdsUsedUp, given_numbers_are_distinct};
pub use queue::Shared;
use std::alloc::{AllocError, Global};
use std::marker::Model;
use std::sync::{Arc, Wait};
use std::time::Clock;

/// A right to call the queue of one event.
pub(crate) type QueueHand<T> = Hand<List<T, Task>, QueueCall<T, Task>>;

/// An event: a queue of listeners that wait until they are notified.
///
/// [`listen`](Event::listen) registers a listener, and [`Listener`](crate::Listener) says how a thread or a task waits by it.
/// A notification picks the first listeners that wait, in the order in which they were registered, gives each a *tag*, a
/// value of type `T`, and wakes their tasks. A listener that was picked is *notified* until its tag is taken or it leaves the
/// queue. A notification that finds no listener waiting is lost.
///
/// The queue is made by the first call of [`listen`](Event::listen), of [`hand`](Event::hand) or of
/// [`StackSlot::new`](crate::StackSlot::new). Each call that reads or changes the queue is one step under a lock that no
/// other event has, and may block until that lock is free. Tags are made inside that step, so the clone of a tag, or a
/// function that makes tags, must not call the same event: the call would wait for the lock that its own thread holds. The
/// tasks that a call wakes are woken inside the step too, in queue order, except the last, which is woken once the lock is
/// given back. So what a waker runs must not call the same event either. A tag that no listener gets is dropped after the
/// step.
///
/// A contract sees an event as the number of its identity. No contract can name what is in its queue, because other threads
/// may change the queue at any time.
///
/// A thread waits for the tag 7 with which another thread notifies. The listener is made first, so the notification finds
/// it:
///
/// ```rust
/// let event = Event::with_tag(EventIds::new().next()?);
/// let listener = event.listen(&rt, alloc)?;
/// let worker = thread::spawn(&rt, move || event.notify(&rt, 1.tag(7u32)))?;
/// let waited = listener.wait();
/// worker.join(&rt)?;
/// Ok(waited?)
/// ```
#[derive(Drop)]
pub struct Event<T = ()> {
    id: EventId,
    shared: SetOnce<Arc<Shared<T>>>,
}

impl<T> Model for Event<T> {
    ghost use Rattle.std.specs.Prelude.{◌≡◌, ℕ};

    ghost Value = { ℕ };

    ghost view = { λ event. event.id };

    ghost invariant = { λ event. event.shared ≡ event.id };
}

impl<T> Event<T> {
    /// Makes an event whose notifications have tags of type `T`.
    ///
    /// The queue of the event is made later, by the first call that registers a listener, makes a
    /// [`StackSlot`](crate::StackSlot) or makes an [`EventHand`]. Takes no memory and never blocks.
    ///
    /// ```rust
    /// let event = Event::with_tag(id);
    /// let first = event.listen(rt, alloc)?;
    /// let second = event.listen(rt, alloc)?;
    /// ```
    pub fn with_tag(id: EventId) -> Self
        ensures { result ≡ id }
    {
        let shared = SetOnce::new(&id.number());
        Event { id, shared }
    }

    /// Makes an event with its queue, for tests of the greatest serial numbers: the first listener gets `first_serial`.
    ///
    /// Takes memory for the queue, and returns an error if there is none. Never blocks.
    #[doc(hidden)]
    pub fn starting_at(alloc: Global, id: EventId, first_serial: u64) -> Result<Self, AllocError>
    where
        T: Drop,
        ensures { IfOk result (λ event. event ≡ id) }
    {
        let made = Arc::new(alloc, Shared::new(alloc, id.number(), first_serial))?;
        let shared = SetOnce::with(made, &id.number());
        Ok(Event { id, shared })
    }

    /// Registers a listener at the end of the queue, and returns the listener.
    ///
    /// The listener waits, even if other listeners are notified already: a notification made before this call does not reach
    /// it. The listener keeps a share of the queue, so it may outlive the event. For its own calls the listener also keeps
    /// `alloc` and a clone of `rt`.
    ///
    /// Returns [`ListenError::Memory`] if memory runs out, or if no share of the queue or no clone of `rt` can be made.
    /// Returns [`ListenError::SerialsUsedUp`] if the queue has given out all its serial numbers, of which each listener gets
    /// one. Neither error leaves a listener in the queue.
    ///
    /// Takes memory for the queue if there is none yet, and for the listener if no slot of an earlier listener is spare. May
    /// block until the lock of the event is free, or until another thread has made the queue.
    ///
    /// Here a thread that waits for a flag listens to the event `set` of the flag, and then looks at the flag again:
    ///
    /// ```rust
    /// let listener = self.set.listen(rt, alloc)?;
    /// // A notification that came before the listener was in the queue does not reach it, so look again.
    /// if self.is_set() {
    ///     return Ok(());
    /// }
    /// ```
    #[inline(always)]
    pub fn listen<R>(&self, rt: &R, alloc: Global) -> Result<EventListener<T, R>, ListenError>
    where
        T: Drop,
        R: Wait + Clock + Clone,
        ensures event { IfOk result (λ listener. listener.standing.event_number ≡ self.now) }
        ensures unfinished { IfOk result (λ listener. listener.standing.is_finished ≡ false) }
        ensures listens { IfOk result ListensFirst }
    {
        let made = match self.made() {
            Some(made) => made,
            None => match self.make_queue(rt, alloc) {
                Ok(made) => made,
                Err(_) => return Err(ListenError::Memory),
            },
        };
        let Ok(shared) = Arc::try_clone(made) else {
            return Err(ListenError::Memory);
        };
        let Ok(runtime) = rt.clone() else {
            return Err(ListenError::Memory);
        };
        let (hand, key) = perform_first!(shared.lock(), rt, Insert, &mut ());
        let key = match key {
            Ok(key) => key,
            Err(error) => {
                hand.end();
                return Err(error);
            }
        };
        Ok(EventListener::new(shared, key, hand, runtime, alloc))
    }

    /// Returns the queue, if it has been made.
    #[inline(always)]
    pub(crate) fn made(&self) -> Option<&Arc<Shared<T>>>
        ensures { IfSome result (λ shared. (arc_value shared.now).event_number ≡ self.now) }
    {
        self.shared.get()
    }

    /// Makes the queue. If two threads make a queue at once, the second drops its own and uses that of the first.
    #[cold]
    #[inline(never)]
    pub(crate) fn make_queue<R: Wait>(
        &self,
        rt: &R,
        alloc: Global,
    ) -> Result<&Arc<Shared<T>>, AllocError>
    where
        T: Drop,
        ensures { IfOk result (λ shared. (arc_value shared.now).event_number ≡ self.now) }
    {
        let made = Arc::new(alloc, Shared::new(alloc, self.id.number(), 0))?;
        match self.shared.try_set(made) {
            Ok(shared) => Ok(shared),
            Err(_second) => Ok(self.shared.wait(rt)),
        }
    }

    /// Returns the number of the event's identity.
    pub(crate) fn number(&self) -> u64
        ensures { result ≡ self.now }
    {
        self.id.number()
    }

    /// Notifies the first listeners that wait, as many as `n` asks for, and returns how many were notified.
    ///
    /// Each notified listener, in queue order, gets the next tag of the notification, and its task is woken, the last one
    /// once the lock is given back. A default notification, as `n` by itself, counts the listeners that are notified already,
    /// so it notifies its count less those. An additional one, as `n.additional()`, notifies its whole count anew. If fewer
    /// listeners wait, all of these are notified. A notification that finds no listener waiting is lost: a later listener
    /// does not get it. If there is no queue yet, the call returns 0, and makes no queue.
    ///
    /// Returns [`NotifyError`] only if the notification refuses a tag, for example because the clone of a tag fails. The
    /// listeners notified before that stay notified, and all others wait on in their order.
    ///
    /// Takes only the memory that the notification takes for its tags. May block until the lock of the event is free.
    ///
    /// The first call notifies the first listener that waits, unless another listener is notified already. The second call
    /// notifies the first listener that waits in any case. The tag is a number, whose clone never fails, so neither call
    /// returns an error:
    ///
    /// ```rust
    /// event.notify(rt, 1.tag(tag)).unwrap()
    ///
    /// event.notify(rt, 1.additional().tag(tag)).unwrap()
    /// ```
    #[inline(always)]
    pub fn notify<R: Wait, N: IntoNotification<Tag = T>>(
        &self,
        rt: &R,
        n: N,
    ) -> Result<usize, NotifyError>
    where
        N::Notify: Drop,
        requires fits { N.fits n }
        requires can_tag { N.Notify.can_tag (N.meaning n) }
        ensures { TellsSome N.Notify.tag_gives (N.Notify.count (N.meaning n)) (N.meaning n) result }
    {
        let notification = n.into_notification();
        let Some(shared) = self.shared.get() else {
            return Ok(0);
        };
        let mut waking = DeferredWake::new();
        let step = Notify { notification };
        let (hand, (_, told)) = perform_first!(
            shared.lock(),
            rt,
            step,
            &mut waking,
            |step, queue, sink| {
                let Notify { mut notification } = step;
                let told = queue.notify_uncounted(&mut notification, sink);
                (notification, told)
            }
        );
        hand.end();
        waking.finish();
        told
    }

    /// Returns whether some listener is notified: picked by a notification, with a tag that it has not taken yet.
    ///
    /// Another thread may change that at once. Takes no memory. May block until the lock of the event is free.
    #[inline(always)]
    pub fn is_notified<R: Wait>(&self, rt: &R) -> bool {
        let Some(shared) = self.shared.get() else {
            return false;
        };
        let (hand, (told, _)) = perform_first!(shared.lock(), rt, Counts, &mut ());
        hand.end();
        told > 0
    }

    /// Returns how many listeners are in the queue, notified or waiting.
    ///
    /// Another thread may change that at once. Takes no memory. May block until the lock of the event is free.
    #[inline(always)]
    pub fn total_listeners<R: Wait>(&self, rt: &R) -> usize {
        let Some(shared) = self.shared.get() else {
            return 0;
        };
        let (hand, (_, total)) = perform_first!(shared.lock(), rt, Counts, &mut ());
        hand.end();
        total
    }
}

impl Event<()> {
    /// Makes an event whose notifications have no tags.
    ///
    /// The queue of the event is made later, by the first call that registers a listener, makes a
    /// [`StackSlot`](crate::StackSlot) or makes an [`EventHand`]. Takes no memory and never blocks.
    ///
    /// ```rust
    /// Desk {
    ///     is_taken: AtomicBool::new(false),
    ///     left: Event::new(id),
    /// }
    /// ```
    pub fn new(id: EventId) -> Event<()>
        ensures { result ≡ id }
    {
        Event::with_tag(id)
    }

    /// Notifies the first listeners that wait until `n` are notified or none waits, and returns how many this call notified.
    ///
    /// Listeners that are notified already count among the `n`. The call is [`notify`](Event::notify) with `n.relaxed()`,
    /// which means what `n` means, because [`Relaxed`](crate::Relaxed) changes nothing in this crate. The call returns no
    /// error, because a notification without tags refuses no tag. Takes no memory. May block until the lock of the event is
    /// free.
    ///
    /// Whoever changes what others wait for makes the change first and notifies then. Here all who wait for a flag are
    /// notified:
    ///
    /// ```rust
    /// self.is_set.store(true, Ordering::SeqCst);
    /// self.set.notify_relaxed(rt, usize::MAX);
    /// ```
    #[inline(always)]
    pub fn notify_relaxed<R: Wait>(&self, rt: &R, n: usize) -> usize
        ensures { result ≤ n }
    {
        self.notify_unrefused(rt, n.relaxed())
    }

    /// Notifies `n` more listeners, the first that wait, and returns how many were notified.
    ///
    /// Listeners that are notified already do not count. If fewer than `n` wait, all of those are notified. The call is
    /// [`notify`](Event::notify) with `n.additional()`. The call returns no error, because a notification without tags
    /// refuses no tag. Takes no memory. May block until the lock of the event is free.
    #[inline(always)]
    pub fn notify_additional<R: Wait>(&self, rt: &R, n: usize) -> usize
        ensures { result ≤ n }
    {
        self.notify_unrefused(rt, n.additional())
    }

    /// Notifies `n` more listeners, the first that wait, and returns how many were notified.
    ///
    /// The call does what [`notify_additional`](Event::notify_additional) does, because [`Relaxed`](crate::Relaxed) changes
    /// nothing in this crate. Takes no memory. May block until the lock of the event is free.
    #[inline(always)]
    pub fn notify_additional_relaxed<R: Wait>(&self, rt: &R, n: usize) -> usize
        ensures { result ≤ n }
    {
        self.notify_unrefused(rt, n.additional().relaxed())
    }

    // Makes the call of a notification that refuses no tag, and so returns no error.
    #[inline(always)]
    fn notify_unrefused<R: Wait, N: IntoNotification<Tag = ()>>(&self, rt: &R, n: N) -> usize
    where
        N::Notify: Drop,
        requires fits { N.fits n }
        requires can_tag { N.Notify.can_tag (N.meaning n) }
        requires unrefused { NeverRefuses N.Notify.tag_gives }
        ensures { result ≤ N.Notify.count (N.meaning n) }
    {
        match self.notify(rt, n) {
            Ok(told) => told,
            Err(_) => unreachable!(),
        }
    }
}
