//! The steps of a semaphore on its word.
ghost use Rattle.std.specs.Prelude.{◌≡◌, ◌+◌, ◌-◌, ◌≤◌, ◌^◌, [], Err, min, IfOk, IfSome};
ghost use Rattle.event_word.specs.declared.error.TryAcquireError.TheVariants.{Closed, NoPermits};
ghost use Rattle.event_word.specs.Free.{IsClosed, NobodyIsThere, NoneFor, ServesTheStarving, ServesWith, free_of};
ghost use Rattle.event_word.specs.Held.{HasState};
ghost use Rattle.event_word.specs.Word.{count, number_of};

use super::held::Held;
use super::permit::Permit;
use super::serving::may_take;
use super::{CROWDED, Kept, ONE, Step, Word};
use crate::competing::{CLOSED, Competing, Permits, free, is_closed};
use crate::error::TryAcquireError;
use crate::wakes::Wakes;
use std::sync::Wait;

// The most permits that may be free.
const MOST: u64 = CLOSED - 1;

// Returns why a newcomer gets nothing by this word.
fn refusal(seen: u64) -> TryAcquireError
    ensures closed { result ≡ Closed → IsClosed (number_of seen) }
    ensures open { result ≡ NoPermits → IsClosed (number_of seen) → ⊥ }
{
    if is_closed(seen / ONE) {
        TryAcquireError::Closed
    } else {
        TryAcquireError::NoPermits
    }
}

impl Word<Competing<Permits>, ()> {
    /// Returns whether the semaphore is closed. A closed semaphore stays closed.
    #[inline(always)]
    pub fn is_closed(&self) -> bool {
        is_closed(self.number())
    }

    /// Takes a permit, if one is free for newcomers.
    ///
    /// Returns [`TryAcquireError::Closed`] or [`TryAcquireError::NoPermits`], and takes nothing then. The call costs one load and
    /// one compare-exchange where no other thread changes the word meanwhile, and does not wait.
    #[inline(always)]
    pub fn try_permit(&self) -> Result<Permit, TryAcquireError>
        ensures own { IfOk result (λ permit. permit.origin ≡ self.now.slot.name) }
        ensures one { IfOk result (λ permit. permit.count ≡ 1) }
    {
        let (seen, mut seat) = self.look();
        if seen < ONE || seen >= CLOSED * ONE {
            return Err(refusal(seen));
        }
        if let Some(step) = self.change(&mut seat, seen, seen - ONE) {
            return Ok(Permit::taken(step, 1));
        }
        self.try_permits(1)
    }

    /// Takes `count` permits by one step, if as many are free for newcomers, and else none.
    ///
    /// Returns [`TryAcquireError::Closed`] or [`TryAcquireError::NoPermits`] then. Does not wait.
    #[cold]
    #[inline(never)]
    pub fn try_permits(&self, count: u64) -> Result<Permit, TryAcquireError>
        ensures own { IfOk result (λ permit. permit.origin ≡ self.now.slot.name) }
        ensures all { IfOk result (λ permit. permit.count ≡ count) }
    {
        let (mut seen, mut seat) = self.look();
        for _ in 0..u64::MAX {
            if seen >= CLOSED * ONE || seen / ONE < count {
                return Err(refusal(seen));
            }
            if let Some(step) = self.change(&mut seat, seen, seen - count * ONE) {
                return Ok(Permit::taken(step, count));
            }
            seen = self.look_again(&mut seat);
        }
        Err(TryAcquireError::NoPermits)
    }

    /// Takes `most` permits by one step, or all that are free for newcomers if those are fewer, which may be none.
    ///
    /// Returns `None` if newcomers are shut out, or if the semaphore is closed. Does not wait.
    pub fn try_up_to(&self, most: u64) -> Option<Permit>
        ensures own { IfSome result (λ permit. permit.origin ≡ self.now.slot.name) }
        ensures up_to { IfSome result (λ permit. permit.count ≤ most) }
    {
        let (mut seen, mut seat) = self.look();
        for _ in 0..u64::MAX {
            if seen >= CLOSED * ONE {
                return None;
            }
            let count = most.min(seen / ONE);
            if let Some(step) = self.change(&mut seat, seen, seen - count * ONE) {
                return Some(Permit::taken(step, count));
            }
            seen = self.look_again(&mut seat);
        }
        None
    }

    /// Gives permits of this word back, and notifies as many waiters.
    ///
    /// Where a thread has the state out, that thread notifies. The call costs one load and one compare-exchange where no thread
    /// waits. The call may block until the state is at home only to wake more than a few tasks.
    #[inline(always)]
    pub fn give_permit<R: Wait>(&self, rt: &R, permit: Permit)
        requires { permit.origin ≡ self.now.slot.name }
    {
        let (seen, mut seat) = self.look();
        let count = permit.count();
        if seen % 4 != CROWDED && seen < (CLOSED - count) * ONE {
            if let Some(step) = self.change(&mut seat, seen, seen + count * ONE) {
                permit.given(step);
                return;
            }
        }
        let step = self.added(rt, count);
        permit.given(step);
    }

    /// Adds so many permits, and notifies as many waiters.
    ///
    /// No more permits are free afterwards than the number holds, 2^60 - 1, because its next bit says that the semaphore is
    /// closed; what is more is lost. May block as [`give_permit`](Word::give_permit) may.
    pub fn add<R: Wait>(&self, rt: &R, permits: u64) {
        drop(self.added(rt, permits));
    }

    #[cold]
    #[inline(never)]
    fn added<R: Wait>(&self, rt: &R, permits: u64) -> Step
        ensures own { result.origin.name ≡ self.now.slot.name }
        ensures more { free_of (number_of result.to)
            ≡ min (free_of (number_of result.from) + permits) (2 ^ 60 - 1) }
        ensures closed { IsClosed (number_of result.from) → IsClosed (number_of result.to) }
    {
        let (mut seen, mut seat) = self.look();
        for _ in rt.forever() {
            let more = permits.min(MOST - free(seen / ONE));
            if seen % 4 == CROWDED {
                match self.try_take(seat, seen, seen + more * ONE - 1) {
                    Ok((step, held)) => {
                        held.put_back(rt);
                        return step;
                    }
                    Err(again) => seat = again,
                }
            } else if let Some(step) = self.change(&mut seat, seen, seen + more * ONE) {
                return step;
            }
            seen = self.look_again(&mut seat);
        }
        unreachable!()
    }
}

impl<'a> Held<'a, Competing<Permits>, ()> {
    /// Takes a permit with the state at hand, if one is free, and returns the permit.
    ///
    /// A contender that was notified (`notified`) takes a permit also where newcomers may take none. Returns
    /// [`TryAcquireError::Closed`] or [`TryAcquireError::NoPermits`] otherwise. The state stays as it is.
    pub fn take_permit<R: Wait>(
        &mut self,
        rt: &R,
        notified: bool,
    ) -> Result<Permit, TryAcquireError>
        requires serves { HasState (λ n q. ServesWith (count notified) n q.line) self.old }
        ensures of { self.new.word ≡ self.old.word }
        ensures state { self.new.claim.state ≡ self.old.claim.state }
        ensures serves { HasState (λ n q. ServesTheStarving n q.line) self.new }
        ensures own { IfOk result (λ permit. permit.origin ≡ self.old.word.now.slot.name) }
        ensures one { IfOk result (λ permit. permit.count ≡ 1) }
        ensures none { result ≡ Err NoPermits
            → HasState (λ n _. NoneFor notified n) self.new }
        ensures closed { result ≡ Err Closed → HasState (λ n _. IsClosed n) self.new }
    {
        for _ in rt.forever() {
            let seen = self.look_serving(notified);
            if is_closed(seen / ONE) {
                return Err(TryAcquireError::Closed);
            }
            if !may_take(seen, notified) {
                return Err(TryAcquireError::NoPermits);
            }
            if let Some(step) = self.change(seen, seen - ONE) {
                return Ok(Permit::taken(step, 1));
            }
        }
        unreachable!()
    }
}

impl Word<Competing<Permits>, ()> {
    /// Closes the semaphore, so that no thread gets a permit any more.
    ///
    /// All waiters are notified, in order, and the queue is empty then. Permits that are out are given back still. May block
    /// until the state is at home.
    pub fn close<R: Wait>(&self, rt: &R) {
        let (_, mut held) = self.take(rt);
        let mut waking = Wakes::new();
        held.mark_closed(rt);
        held.notify_all(&mut waking);
        held.put_back_waking(rt, waking);
    }
}

impl<'a> Held<'a, Competing<Permits>, ()> {
    // Notifies all waiters, and leaves an empty queue.
    fn notify_all(&mut self, waking: &mut Wakes)
        requires closed { HasState (λ n _. IsClosed n) self.old }
        ensures of { self.new.word ≡ self.old.word }
        ensures nobody { HasState (λ n q. IsClosed n × NobodyIsThere q.line) self.new }
    {
        let state = self.claim.state_mut();
        state.swap_room(&mut waking.room);
        state.close(waking);
        state.swap_room(&mut waking.room);
    }

    // Sets the bit that says that the semaphore is closed, and clears the bit that shuts newcomers out.
    fn mark_closed<R: Wait>(&mut self, rt: &R)
        requires serves { HasState (λ n q. ServesTheStarving n q.line) self.old }
        ensures of { self.new.word ≡ self.old.word }
        ensures closed { HasState (λ n _. IsClosed n) self.new }
    {
        for _ in rt.forever() {
            let seen = self.look_serving(false);
            let closed = free(seen / ONE) + CLOSED;
            if let Some(_) = self.change(seen, closed * ONE + seen % 4) {
                return;
            }
        }
        unreachable!()
    }
}
