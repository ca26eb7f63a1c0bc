//! The calls on a queue of listeners, each as one step.
ghost use Rattle.std.specs.Prelude.{◌≡◌};
ghost use Rattle.event_queue.specs.Exchange.{RegistersWith};
ghost use Rattle.event_queue.specs.Insert.{IsInsertion};
ghost use Rattle.event_queue.specs.Notify.{IsNotification};
ghost use Rattle.event_queue.specs.Register.{IsRegistration, Registers};
ghost use Rattle.event_queue.specs.Remove.{IsRemoval};
ghost use Rattle.event_history.specs.declared.queue_call.QueueCall.TheVariants as call;

use crate::step::Step;
use event_queue::{
    Key, List, ListenError, Notification, NotifyError, RegisterResult, State, TaskExchange,
    WakeSink,
};

/// Inserts a listener at the end of the queue, and replies its key or an error. Allocates if the queue has no spare slot, which
/// is one that was made and is free.
#[derive(Drop)]
pub struct Insert;

impl<T, W, B> Step<List<T, W>, B> for Insert {
    type Reply = Result<Key, ListenError>;

    ghost call = { λ _ reply. call.Insert reply };

    ghost does = { λ _ old beside reply new after. IsInsertion old reply new × (after ≡ beside) };

    #[inline(always)]
    fn make(self, queue: &mut List<T, W>, _beside: &mut B) -> Result<Key, ListenError> {
        queue.insert_uncounted()
    }
}

/// Has a listener take its tag, if it is notified, or else store this task in the place of an earlier task.
#[derive(Drop)]
pub struct Register<W> {
    pub key: Key,
    pub task: W,
}

impl<T, W: Drop, B> Step<List<T, W>, B> for Register<W> {
    type Reply = RegisterResult<T>;

    ghost call = { λ step reply. call.Register step.key reply };

    ghost does = { λ step old beside reply new after.
        IsRegistration (Registers old step.key step.task reply new) old step.key reply new
        × (after ≡ beside) };

    #[inline(always)]
    fn make(self, queue: &mut List<T, W>, _beside: &mut B) -> RegisterResult<T> {
        queue.register_uncounted(self.key, self.task)
    }
}

/// Has a listener take its tag, if it is notified, or else store the task that the exchange makes of the stored task.
#[derive(Drop)]
pub struct RegisterWith<'x, X> {
    pub key: Key,
    pub exchange: &'x X,
}

impl<T, W, C, X: TaskExchange<W, C>> Step<List<T, W>, C> for RegisterWith<'_, X> {
    type Reply = RegisterResult<T>;

    ghost call = { λ step reply. call.Register step.key reply };

    ghost does = { λ step old on reply new after.
        IsRegistration
        (RegistersWith (X.exchanged step.exchange.now) old step.key on reply new after) old
        step.key reply new };

    #[inline(always)]
    fn make(self, queue: &mut List<T, W>, on: &mut C) -> RegisterResult<T> {
        queue.register_with_uncounted(self.key, self.exchange, on)
    }
}

/// Removes a listener, and replies what the listener was. With `propagate` the notification of a notified listener is propagated,
/// so that another listener may get it.
#[derive(Drop)]
pub struct Remove {
    pub key: Key,
    pub propagate: bool,
}

impl<T, W, K: WakeSink<W>> Step<List<T, W>, K> for Remove {
    type Reply = Option<State<T, W>>;

    ghost call = { λ step reply. call.Remove step.key step.propagate reply };

    ghost does = { λ step old sink reply new after.
        IsRemoval K.woke old step.key step.propagate sink reply new after };

    #[inline(always)]
    fn make(self, queue: &mut List<T, W>, sink: &mut K) -> Option<State<T, W>> {
        queue.remove_uncounted(self.key, self.propagate, sink)
    }
}

/// Notifies the first listeners that wait, and replies how many were notified or an error. The reply has the notification, too,
/// so that no notification is dropped under the lock.
#[derive(Drop)]
pub struct Notify<N: Notification> {
    pub notification: N,
}

impl<T, W, N: Notification<Tag = T>, K: WakeSink<W>> Step<List<T, W>, K> for Notify<N> {
    type Reply = (N, Result<usize, NotifyError>);

    ghost may = { λ step. N.can_tag step.notification };

    ghost call = { λ step reply. call.Notify (N.count step.notification)
        (N.is_additional step.notification) reply.1 };

    ghost does = { λ step old sink reply new after.
        IsNotification N.tag_gives K.woke (N.count step.notification)
        (N.is_additional step.notification) old step.notification sink reply.1 new reply.0 after };

    #[inline(always)]
    fn make(self, queue: &mut List<T, W>, sink: &mut K) -> (N, Result<usize, NotifyError>) {
        let Notify { mut notification } = self;
        let answer = queue.notify_uncounted(&mut notification, sink);
        (notification, answer)
    }
}

/// Replies how many listeners are notified, and how many there are. Changes nothing.
#[derive(Drop)]
pub struct Counts;

impl<T, W, B> Step<List<T, W>, B> for Counts {
    type Reply = (usize, usize);

    ghost call = { λ _ reply. call.Counts reply.0 reply.1 };

    ghost does = { λ _ _ beside _ _ after. after ≡ beside };

    #[inline(always)]
    fn make(self, queue: &mut List<T, W>, _beside: &mut B) -> (usize, usize) {
        (queue.listeners_notified(), queue.total_listeners())
    }
}
