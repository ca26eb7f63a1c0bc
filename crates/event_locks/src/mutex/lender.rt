//! How waiters get the value of a mutex.
ghost use Rattle.std.specs.Prelude.{◌≡◌};
ghost use Rattle.event_wait.specs.Rounds.{gives_what, tries_for};
ghost use Rattle.event_locks.specs.Losses.{LosesOnceAtMost};

use super::{Mutex, Right, attempt_held};
use crate::lending::Lender;
use crate::taker::Taker;
use event_queue::TaskExchange;
use event_wait::{Attempted, LockError, Obtainable, TakesAny, Task, Waitable, WakerSource};
use event_word::{Contender, Parked};
use std::sync::Wait;

impl<'a, T> Waitable<Taker> for Lender<'a, Mutex<T>> {
    type Output = Right<'a, T>;

    type Refusal = LockError;

    ghost rules = { λ lender.
        gives_what (λ lent. lent.name ≡ lender.lock.now.word.slot.name)
        (λ before after. LosesOnceAtMost before.contender after.contender) };

    ghost source = { λ lender. lender.lock.now.source };

    #[inline(always)]
    fn waker_source(&self) -> &WakerSource {
        &self.lock.source
    }

    fn attempt_or_wait<C, X: TaskExchange<Task, C>, R: Wait>(
        &self,
        rt: &R,
        request: &mut Taker,
        exchange: &X,
        on: &mut C,
    ) -> Attempted<Right<'a, T>, LockError> {
        let (_, mut held) = self.lock.word.take(rt);
        let Contender { place, losses } = &mut request.contender;
        let attempted = attempt_held(rt, &mut held, place, losses, exchange, on);
        held.put_back(rt);
        attempted
    }

    fn leave<R: Wait>(
        &self,
        rt: &R,
        request: &mut Taker,
    ) -> Result<Option<Right<'a, T>>, LockError> {
        let (_, mut held) = self.lock.word.take(rt);
        let coming = held.leave(&mut request.contender.place).coming();
        let lent = held.take_value(rt, coming.is_notified());
        held.put_back(rt);
        Ok(lent)
    }
}

impl<'a, T> Obtainable<Taker> for Lender<'a, Mutex<T>> {
    ghost trying = { λ lender. tries_for (λ lent. lent.name ≡ lender.lock.now.word.slot.name) };

    #[inline(always)]
    fn is_waiting(&self, request: &Taker) -> bool {
        request.is_waiting()
    }

    #[inline(always)]
    fn attempt<R: Wait>(&self, _rt: &R, _request: &mut Taker) -> Option<Right<'a, T>> {
        let mutex = self.lock;
        mutex.word.try_value()
    }

    fn give_up<R: Wait>(&self, rt: &R, request: &mut Taker) {
        if request.is_waiting() {
            let (_, mut held) = self.lock.word.take(rt);
            held.leave(&mut request.contender.place);
            held.put_back(rt);
        }
    }
}

impl<T> TakesAny<Taker> for Lender<'_, Mutex<T>> {
    ghost all_fit = { λ _ _. tt };
}

// A wait whose guard shares the mutex gets the right parked: it has no lifetime, and the guard takes the right again by its share.
impl<T> Waitable<Taker> for Mutex<T> {
    type Output = Parked;

    type Refusal = LockError;

    ghost rules = { λ mutex.
        gives_what (λ parked. parked ≡ mutex.word.slot.name)
        (λ before after. LosesOnceAtMost before.contender after.contender) };

    ghost source = { λ mutex. mutex.source };

    #[inline(always)]
    fn waker_source(&self) -> &WakerSource {
        &self.source
    }

    fn attempt_or_wait<C, X: TaskExchange<Task, C>, R: Wait>(
        &self,
        rt: &R,
        request: &mut Taker,
        exchange: &X,
        on: &mut C,
    ) -> Attempted<Parked, LockError> {
        let lender = Lender { lock: self };
        match lender.attempt_or_wait(rt, request, exchange, on) {
            Attempted::Done(lent) => Attempted::Done(self.word.park(rt, lent)),
            Attempted::Waits(key) => Attempted::Waits(key),
            Attempted::Absent => Attempted::Absent,
            Attempted::Refused(error) => Attempted::Refused(error),
        }
    }

    fn leave<R: Wait>(&self, rt: &R, request: &mut Taker) -> Result<Option<Parked>, LockError> {
        let lender = Lender { lock: self };
        match lender.leave(rt, request) {
            Ok(Some(lent)) => Ok(Some(self.word.park(rt, lent))),
            Ok(None) => Ok(None),
            Err(error) => Err(error),
        }
    }
}

impl<T> Obtainable<Taker> for Mutex<T> {
    ghost trying = { λ mutex. tries_for (λ parked. parked ≡ mutex.word.slot.name) };

    #[inline(always)]
    fn is_waiting(&self, request: &Taker) -> bool {
        request.is_waiting()
    }

    #[inline(always)]
    fn attempt<R: Wait>(&self, rt: &R, _request: &mut Taker) -> Option<Parked> {
        let lent = self.word.try_value()?;
        Some(self.word.park(rt, lent))
    }

    fn give_up<R: Wait>(&self, rt: &R, request: &mut Taker) {
        let lender = Lender { lock: self };
        lender.give_up(rt, request);
    }
}

impl<T> TakesAny<Taker> for Mutex<T> {
    ghost all_fit = { λ _ _. tt };
}
