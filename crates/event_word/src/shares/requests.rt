//! What readers and writers do with the queues out.
ghost use Rattle.std.specs.Prelude.{◌≡◌, IfOk, IfSome, IsTrue, OnErr};
ghost use Rattle.event_wait.specs.Joining.{IsSettled, UnlessWaits, gained};
ghost use Rattle.event_wait.specs.Line.{IsNotIn, IsNotInUnlessWaits, Looked, left_by};
ghost use Rattle.event_word.specs.Queues.{Admits, CountsMore, IsExclusive, given, if_any};
ghost use Rattle.event_word.specs.Held.{HasState};
ghost use Rattle.event_word.specs.Word.{number_of};
ghost use Rattle.event_wait.specs.Attempted.{Attempts, OnDone, OnUndone, Stores};

use super::queues::Queues;
use super::right::Right;
use super::share::{Grant, Out};
use crate::word::{Held, ONE};
use event_queue::{Key, ListenError, RegisterResult, TaskExchange};
use event_wait::{Attempted, LockError, Task};
use std::alloc::AllocError;
use std::sync::Wait;

impl<'a, V> Held<'a, Queues<Task>, V> {
    // Looks whether this waiter was let in; a waiter that was not stores its task.
    fn look_waiting<K: Right<Task>, C, X: TaskExchange<Task, C>>(
        &mut self,
        key: Key,
        exchange: &X,
        on: &mut C,
    ) -> RegisterResult<()>
        requires alone { HasState IsExclusive self.old }
        ensures of { self.new.word ≡ self.old.word }
        ensures number { self.new.seat.view ≡ self.old.seat.view }
        ensures alone { HasState IsExclusive self.new }
        ensures let_in { left_by result ≡ 1 → HasState (Admits K.COUNTS) self.new }
        ensures gone { HasState (λ _ q. IsNotInUnlessWaits result key (K.line q))
            self.new }
        ensures looked { Looked (X.exchanged exchange.now) on.old result on.new }
    {
        K::look(self.claim.state_mut(), key, exchange, on)
    }

    /// Attempts for a waiter, with the queues out: gives the waiter its right if it was let in, and else has it wait on.
    ///
    /// Returns [`Attempted::Done`] with the right, or [`Attempted::Waits`] with the key for a waiter that stores its task. A
    /// waiter that is in the queue no more attempts as a newcomer, by [`come_newly`](Held::come_newly).
    pub fn come_waiting<K: Right<Task>, C, X: TaskExchange<Task, C>, R: Wait>(
        &mut self,
        rt: &R,
        key: Key,
        exchange: &X,
        on: &mut C,
    ) -> Attempted<Grant<'a, K, V>, LockError>
        requires alone { HasState IsExclusive self.old }
        ensures of { self.new.word ≡ self.old.word }
        ensures alone { HasState IsExclusive self.new }
        ensures own { OnDone result (λ grant. grant.claim.name ≡ self.old.word.now.slot.name) }
        ensures counts { CountsMore (if_any (gained result) K.COUNTS) self.old.seat.view
            self.new.seat.view }
        ensures exchanged { Attempts (X.exchanged exchange.now) on.old result on.new }
        ensures settled { IsSettled result }
        ensures gone { UnlessWaits result
            (HasState (λ _ q. IsNotIn key (K.line q)) self.new) }
    {
        match self.look_waiting::<K, C, X>(key, exchange, on) {
            RegisterResult::Notified(()) => Attempted::Done(self.let_in(rt)),
            RegisterResult::Registered => Attempted::Waits(key),
            RegisterResult::NeverInserted => self.come_newly(rt, exchange, on),
        }
    }

    /// Attempts for a newcomer, with the queues out: gives the newcomer its right if no holder or waiter stands in the way and
    /// one more can be counted, and else has the newcomer wait.
    ///
    /// Returns [`Attempted::Done`] with the right, [`Attempted::Waits`] with the key of the newcomer's place, or
    /// [`Attempted::Refused`] if the newcomer can't wait: for memory, for serial numbers, or because the lock can count no more
    /// readers. A newcomer that waits may allocate.
    pub fn come_newly<K: Right<Task>, C, X: TaskExchange<Task, C>, R: Wait>(
        &mut self,
        rt: &R,
        exchange: &X,
        on: &mut C,
    ) -> Attempted<Grant<'a, K, V>, LockError>
        requires alone { HasState IsExclusive self.old }
        ensures of { self.new.word ≡ self.old.word }
        ensures alone { HasState IsExclusive self.new }
        ensures own { OnDone result (λ grant. grant.claim.name ≡ self.old.word.now.slot.name) }
        ensures counts { CountsMore (if_any (gained result) K.COUNTS) self.old.seat.view
            self.new.seat.view }
        ensures exchanged { Attempts (X.exchanged exchange.now) on.old result on.new }
        ensures settled { IsSettled result }
        ensures stays { UnlessWaits result (self.new.claim.state ≡ self.old.claim.state) }
        ensures waits { OnUndone result (HasState (λ n _. HasState (λ _ q. K.is_open n q
            → K.is_full n q) self.old) self.new) }
    {
        let seen = match self.count_or_see(rt) {
            Ok(grant) => return Attempted::Done(grant),
            Err(seen) => seen,
        };
        match self.wait_seeing::<K, C, X>(seen, exchange, on) {
            Ok(key) => Attempted::Waits(key),
            Err(error) => Attempted::Refused(error),
        }
    }

    // Has a newcomer wait in its queue, if it can be counted later.
    fn wait_seeing<K: Right<Task>, C, X: TaskExchange<Task, C>>(
        &mut self,
        seen: u64,
        exchange: &X,
        on: &mut C,
    ) -> Result<Key, LockError>
        requires alone { HasState (λ n q. (n ≡ number_of seen) × IsExclusive n q) self.old }
        ensures of { self.new.word ≡ self.old.word }
        ensures number { self.new.seat.view ≡ self.old.seat.view }
        ensures alone { HasState IsExclusive self.new }
        ensures waits { IfOk result (λ _. Stores (X.exchanged exchange.now) on.old on.new) }
        ensures refused { OnErr result ((on.new ≡ on.old)
            × (self.new.claim.state ≡ self.old.claim.state)) }
    {
        let queues = self.claim.state_mut();
        if let Err(AllocError) = queues.make_room() {
            return Err(LockError::Listen(ListenError::Memory));
        }
        K::wait(queues, seen / ONE, exchange, on)
    }

    /// Removes a waiter from its queue, and returns whether it was let in.
    pub fn leave<K: Right<Task>>(&mut self, key: Key) -> bool
        requires alone { HasState IsExclusive self.old }
        ensures of { self.new.word ≡ self.old.word }
        ensures number { self.new.seat.view ≡ self.old.seat.view }
        ensures alone { HasState IsExclusive self.new }
        ensures let_in { IsTrue result → HasState (Admits K.COUNTS) self.new }
        ensures gone { HasState (λ _ q. IsNotIn key (K.line q)) self.new }
    {
        K::leave(self.claim.state_mut(), key)
    }

    /// Has a waiter leave its queue, and returns its right if it was let in or a newcomer would get it now, or else `None`.
    pub fn come_or_leave<K: Right<Task>, R: Wait>(
        &mut self,
        rt: &R,
        key: Key,
    ) -> Option<Grant<'a, K, V>>
        requires alone { HasState IsExclusive self.old }
        ensures of { self.new.word ≡ self.old.word }
        ensures alone { HasState IsExclusive self.new }
        ensures own { IfSome result (λ grant. grant.claim.name ≡ self.old.word.now.slot.name) }
        ensures counts { CountsMore (if_any (given result) K.COUNTS) self.old.seat.view
            self.new.seat.view }
        ensures gone { HasState (λ _ q. IsNotIn key (K.line q)) self.new }
    {
        if self.leave::<K>(key) {
            return Some(self.let_in(rt));
        }
        self.count_newcomer(rt)
    }
}
