//! Requests of readers and writers.
ghost use Rattle.std.specs.Prelude.{◌≡◌};
ghost use Rattle.event_wait.specs.Rounds.{gives_what, tries_for};

use super::{Hidden, RwLock};
use crate::lending::Lender;
use event_queue::{Key, RegisterResult, TaskExchange};
use event_wait::{Attempted, LockError, Obtainable, TakesAny, Task, Waitable, WakerSource};
use event_word::{Grant, Right, Share};
use std::marker::{Model, PhantomData};
use std::sync::Wait;

/// The request of a reader or a writer: its place in the queue of its kind, if it has one.
#[derive(Drop)]
pub(crate) struct Place<K> {
    key: Option<Key>,
    of: PhantomData<K>,
}

impl<K> Model for Place<K> {
    ghost Value = { Unit {0} };

    ghost view = { λ _. tt };
}

impl<K> Default for Place<K> {
    // Makes the request of a wait that has no place in a queue.
    #[inline(always)]
    fn default() -> Self {
        Place {
            key: None,
            of: PhantomData,
        }
    }
}

impl<'a, T, K: Right<Task>> Waitable<Place<K>> for Lender<'a, RwLock<T>> {
    type Output = Grant<'a, K, Hidden<T>>;

    type Refusal = LockError;

    ghost rules = { λ lender.
        gives_what (λ grant. grant.claim.name ≡ lender.lock.now.word.slot.name)
        (λ before after. after ≡ before) };

    ghost source = { λ lender. lender.lock.now.source };

    #[inline(always)]
    fn waker_source(&self) -> &WakerSource {
        &self.lock.source
    }

    fn attempt_or_wait<C, X: TaskExchange<Task, C>, R: Wait>(
        &self,
        rt: &R,
        request: &mut Place<K>,
        exchange: &X,
        on: &mut C,
    ) -> Attempted<Grant<'a, K, Hidden<T>>, LockError> {
        let lock = self.lock;
        let (_, mut held) = lock.word.take(rt);
        let attempted = match request.key {
            Some(key) => held.come_waiting(rt, key, exchange, on),
            None => held.come_newly(rt, exchange, on),
        };
        request.key = attempted.key();
        held.put_back(rt);
        attempted
    }

    fn leave<R: Wait>(
        &self,
        rt: &R,
        request: &mut Place<K>,
    ) -> Result<Option<Grant<'a, K, Hidden<T>>>, LockError> {
        let lock = self.lock;
        let (_, mut held) = lock.word.take(rt);
        let grant = match request.key.take() {
            Some(key) => held.come_or_leave(rt, key),
            None => held.count_newcomer(rt),
        };
        held.put_back(rt);
        Ok(grant)
    }
}

impl<'a, T, K: Right<Task>> Obtainable<Place<K>> for Lender<'a, RwLock<T>> {
    ghost trying = { λ lender.
        tries_for (λ grant. grant.claim.name ≡ lender.lock.now.word.slot.name) };

    #[inline(always)]
    fn is_waiting(&self, request: &Place<K>) -> bool {
        request.key.is_some()
    }

    #[inline(always)]
    fn attempt<R: Wait>(&self, rt: &R, _request: &mut Place<K>) -> Option<Grant<'a, K, Hidden<T>>> {
        let lock = self.lock;
        lock.word.attempt(rt)
    }

    // Has the waiter leave its queue. A waiter that was let in already gives up its right, and the next waiter is let in.
    fn give_up<R: Wait>(&self, rt: &R, request: &mut Place<K>) {
        if let Some(key) = request.key.take() {
            let (_, mut held) = self.lock.word.take(rt);
            held.leave::<K>(key);
            held.put_back(rt);
        }
    }
}

impl<T, K: Right<Task>> TakesAny<Place<K>> for Lender<'_, RwLock<T>> {
    ghost all_fit = { λ _ _. tt };
}

// A wait whose guard shares the lock gets its right parked.
impl<T, K: Right<Task>> Waitable<Place<K>> for RwLock<T> {
    type Output = Share<K>;

    type Refusal = LockError;

    ghost rules = { λ lock.
        gives_what (λ share. share ≡ lock.word.slot.name)
        (λ before after. after ≡ before) };

    ghost source = { λ lock. lock.source };

    #[inline(always)]
    fn waker_source(&self) -> &WakerSource {
        &self.source
    }

    fn attempt_or_wait<C, X: TaskExchange<Task, C>, R: Wait>(
        &self,
        rt: &R,
        request: &mut Place<K>,
        exchange: &X,
        on: &mut C,
    ) -> Attempted<Share<K>, LockError> {
        let lender = Lender { lock: self };
        match lender.attempt_or_wait(rt, request, exchange, on) {
            Attempted::Done(grant) => Attempted::Done(self.word.park(rt, grant)),
            Attempted::Waits(key) => Attempted::Waits(key),
            Attempted::Absent => Attempted::Absent,
            Attempted::Refused(error) => Attempted::Refused(error),
        }
    }

    fn leave<R: Wait>(
        &self,
        rt: &R,
        request: &mut Place<K>,
    ) -> Result<Option<Share<K>>, LockError> {
        let lender = Lender { lock: self };
        match lender.leave(rt, request) {
            Ok(Some(grant)) => Ok(Some(self.word.park(rt, grant))),
            Ok(None) => Ok(None),
            Err(error) => Err(error),
        }
    }
}

impl<T, K: Right<Task>> Obtainable<Place<K>> for RwLock<T> {
    ghost trying = { λ lock. tries_for (λ share. share ≡ lock.word.slot.name) };

    #[inline(always)]
    fn is_waiting(&self, request: &Place<K>) -> bool {
        request.key.is_some()
    }

    #[inline(always)]
    fn attempt<R: Wait>(&self, rt: &R, _request: &mut Place<K>) -> Option<Share<K>> {
        self.try_share(rt)
    }

    fn give_up<R: Wait>(&self, rt: &R, request: &mut Place<K>) {
        let lender = Lender { lock: self };
        lender.give_up(rt, request);
    }
}

impl<T, K: Right<Task>> TakesAny<Place<K>> for RwLock<T> {
    ghost all_fit = { λ _ _. tt };
}
