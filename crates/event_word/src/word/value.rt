//! The steps of a mutex on its word.
ghost use Rattle.std.specs.Prelude.{◌≡◌, ◌%◌, ⊤, true, None, Some, IfErr, IfOk, IfSome, MatchOption};
ghost use Rattle.event_word.specs.Free.{NoneFor, ServesTheStarving, ServesWith, unshut_of};
ghost use Rattle.event_word.specs.Held.{HasState, IsOf};
ghost use Rattle.event_word.specs.Word.{Changes, Passes, Shows, Takes, count, nothing, number_of};

use super::held::Held;
use super::kept::Kept;
use super::rule::Place;
use super::serving::may_take;
use super::{CROWDED, ONE, Parked, Seat, Word};
use crate::competing::{CLOSED, Competing, OneValue, SHUT};
use event_slot::Writing;
use std::sync::Wait;

/// The right to the value of a lock, and to where the value lies.
pub type Lent<'a, S, V> = Writing<'a, Place<V>, S>;

/// The number while the value is parked.
pub(super) const PARKED: u64 = CLOSED;

impl<S: Kept, V> Word<S, V> {
    // Changes the number where no waiter has to be notified, and takes the right to the value, if the word is as it was seen.
    #[inline(always)]
    fn lend(&self, seat: &mut Seat, seen: u64, new: u64) -> Option<Lent<'_, S, V>>
        requires seat { seat.old.slot ≡ self.now.slot.name }
        requires changes { Changes S.rules seen new × Passes S.rules 0 2 seen new }
        ensures seat { (seat.new.slot ≡ seat.old.slot) × (seat.new.view ≡ seat.old.view) }
        ensures lends { IfSome result (λ lent. lent.name ≡ self.now.slot.name) }
    {
        let (found, claim) = self.turn(self.slot.claim(), seat, seen, new);
        if found == seen {
            return Some(claim.write());
        }
        claim.done();
        None
    }

    // Changes the number where no waiter has to be notified, and gives the right to the value back. An error has the right and
    // the word, where that is another.
    #[inline(always)]
    fn give_back<'a>(
        &self,
        lent: Lent<'a, S, V>,
        seat: &mut Seat,
        seen: u64,
        new: u64,
    ) -> Result<(), (Lent<'a, S, V>, u64)>
        requires own { (lent.name ≡ self.now.slot.name) × (seat.old.slot ≡ self.now.slot.name) }
        requires changes { Changes S.rules seen new × Passes S.rules 2 0 seen new }
        ensures seat { (seat.new.slot ≡ seat.old.slot) × (seat.new.view ≡ seat.old.view) }
        ensures own { IfErr result (λ again. again.0.name ≡ self.now.slot.name) }
        ensures shows { IfErr result (λ again. Shows S.rules 2 again.1) }
    {
        let (found, claim) = self.turn(lent.claim(), seat, seen, new);
        if found == seen {
            claim.done();
            return Ok(());
        }
        Err((claim.write(), found))
    }

    // Takes the right to the value by one compare-exchange, where no waiter has to be notified. An error is the word, where that
    // is another.
    #[inline(always)]
    fn lend_at(&self, expected: u64, new: u64) -> Result<Lent<'_, S, V>, u64>
        requires changes { Changes S.rules expected new × Passes S.rules 0 2 expected new }
        ensures lends { IfOk result (λ lent. lent.name ≡ self.now.slot.name) }
    {
        let (found, claim, _seat) = self.turn_at(self.slot.claim(), expected, new);
        if found == expected {
            return Ok(claim.write());
        }
        claim.done();
        Err(found)
    }

    // Gives the right to the value back by one compare-exchange. An error has the right, and the word with a seat.
    #[inline(always)]
    fn give_back_at<'a>(
        &self,
        lent: Lent<'a, S, V>,
        expected: u64,
        new: u64,
    ) -> Result<(), (Lent<'a, S, V>, u64, Seat)>
        requires own { lent.name ≡ self.now.slot.name }
        requires changes { Changes S.rules expected new × Passes S.rules 2 0 expected new }
        ensures own { IfErr result (λ again. (again.0.name ≡ self.now.slot.name)
            × (again.2.slot ≡ self.now.slot.name) × (again.2.view ≡ nothing)) }
        ensures shows { IfErr result (λ again. Shows S.rules 2 again.1) }
    {
        let (found, claim, seat) = self.turn_at(lent.claim(), expected, new);
        if found == expected {
            claim.done();
            return Ok(());
        }
        Err((claim.write(), found, seat))
    }

    // Takes the state out where it is at home, gives the right back, and changes the number by the same step. An error has the
    // right, the seat and the word where that was another.
    fn try_swap<'a>(
        &'a self,
        lent: Lent<'a, S, V>,
        seat: Seat,
        seen: u64,
        new: u64,
    ) -> Result<Held<'a, S, V>, (Lent<'a, S, V>, Seat, u64)>
        requires own { lent.name ≡ self.now.slot.name }
        requires seat { (seat.slot ≡ self.now.slot.name) × (seat.view ≡ nothing) }
        requires home { seen % 2 ≡ 0 }
        requires takes { Takes S.rules seen new × Passes S.rules 2 0 seen new }
        ensures ok { IfOk result (λ held. IsOf self.now.slot.name held
            × HasState (λ n q. (n ≡ number_of new) × S.rules.stands (number_of seen) q) held) }
        ensures err { IfErr result (λ again. (again.0.name ≡ self.now.slot.name)
            × (again.1.slot ≡ seat.slot) × (again.1.view ≡ seat.view)) }
        ensures shows { IfErr result (λ again. Shows S.rules 2 again.2) }
    {
        match self.turn_out(lent.claim(), seat, seen, new) {
            Ok(held) => Ok(held),
            Err((claim, seat, found)) => Err((claim.write(), seat, found)),
        }
    }
}

impl<'a, S: Kept, V> Held<'a, S, V> {
    // Changes the number with the state out, and takes the right to the value, if the word is as it was seen.
    fn lend(&mut self, seen: u64, new: u64) -> Option<Lent<'a, S, V>>
        requires state { HasState (λ _ _. ⊤) self.old }
        requires takes { Takes S.rules seen new × Passes S.rules 0 2 seen new }
        requires code { new % 4 ≡ seen % 4 }
        ensures of { self.new.word ≡ self.old.word }
        ensures state { self.new.claim.state ≡ self.old.claim.state }
        ensures changes { MatchOption result (self.new.seat.view ≡ self.old.seat.view)
            (λ _. self.new.seat.view.number ≡ Some (number_of new)) }
        ensures lends { IfSome result (λ lent. lent.name ≡ self.old.word.now.slot.name) }
    {
        let (made, claim) = self.turn(self.word.slot.claim(), seen, new);
        if made {
            return Some(claim.write());
        }
        claim.done();
        None
    }
}

impl<K, V> Word<Competing<OneValue<K>>, V> {
    /// Takes the right to the value, if no thread has it and newcomers may take it, and returns the right or `None`.
    ///
    /// The call costs one compare-exchange where no other thread changes the word meanwhile, and does not wait.
    #[inline(always)]
    pub fn try_value(&self) -> Option<Lent<'_, Competing<OneValue<K>>, V>>
        ensures { IfSome result (λ lent. lent.name ≡ self.now.slot.name) }
    {
        match self.lend_at(ONE, 0) {
            Ok(lent) => Some(lent),
            Err(found) if found < ONE || found >= CLOSED * ONE => None,
            Err(_) => self.try_value_again(),
        }
    }

    #[cold]
    #[inline(never)]
    fn try_value_again(&self) -> Option<Lent<'_, Competing<OneValue<K>>, V>>
        ensures { IfSome result (λ lent. lent.name ≡ self.now.slot.name) }
    {
        let (mut seen, mut seat) = self.look();
        for _ in 0..u64::MAX {
            if seen >= CLOSED * ONE || seen < ONE {
                return None;
            }
            if let Some(lent) = self.lend(&mut seat, seen, seen - ONE) {
                return Some(lent);
            }
            seen = self.look_again(&mut seat);
        }
        None
    }

    /// Gives the right to the value back, and notifies the first waiter, if there is one.
    ///
    /// The call costs one compare-exchange where no waiter has to be notified: where no thread waits, and while a waiter is
    /// notified already. The call does not wait for the state: a thread that has the state out notifies.
    #[inline(always)]
    pub fn give_value<'a, R: Wait>(&'a self, rt: &R, lent: Lent<'a, Competing<OneValue<K>>, V>)
        requires { lent.name ≡ self.now.slot.name }
    {
        if let Err((again, found, seat)) = self.give_back_at(lent, 0, ONE) {
            self.give_value_slowly(rt, again, found, seat);
        }
    }

    // The word says that a thread has the right, as long as a thread has it.
    #[cold]
    #[inline(never)]
    fn give_value_slowly<'a, R: Wait>(
        &'a self,
        rt: &R,
        lent: Lent<'a, Competing<OneValue<K>>, V>,
        found: u64,
        seat: Seat,
    )
        requires own { lent.name ≡ self.now.slot.name }
        requires seat { (seat.slot ≡ self.now.slot.name) × (seat.view ≡ nothing) }
        requires taken { unshut_of (number_of found) ≡ 0 }
    {
        let mut lent = lent;
        let (mut seen, mut seat) = (found, seat);
        for _ in rt.forever() {
            if seen % 4 == CROWDED {
                match self.try_swap(lent, seat, seen, seen + ONE - 1) {
                    Ok(held) => {
                        held.put_back(rt);
                        return;
                    }
                    Err((again, at, found)) => {
                        lent = again;
                        seat = at;
                        seen = found;
                    }
                }
            } else {
                match self.give_back(lent, &mut seat, seen, seen + ONE) {
                    Ok(()) => return,
                    Err((again, found)) => {
                        lent = again;
                        seen = found;
                    }
                }
            }
        }
        unreachable!()
    }
}

impl<'a, K, V> Held<'a, Competing<OneValue<K>>, V> {
    /// Takes the right to the value with the state at hand, and returns the right, or `None` if a thread has it.
    ///
    /// A contender that was notified (`notified`) takes the right also where newcomers may not; another contender gets `None`
    /// there. The state stays as it is.
    pub fn take_value<R: Wait>(
        &mut self,
        rt: &R,
        notified: bool,
    ) -> Option<Lent<'a, Competing<OneValue<K>>, V>>
        requires serves { HasState (λ n q. ServesWith (count notified) n q.line) self.old }
        ensures of { self.new.word ≡ self.old.word }
        ensures value { IfSome result (λ lent. lent.name ≡ self.old.word.now.slot.name) }
        ensures serves { HasState (λ n q. ServesTheStarving n q.line) self.new }
        ensures none { result ≡ None → HasState (λ n _. NoneFor notified n) self.new }
    {
        for _ in rt.forever() {
            let seen = self.look_serving(notified);
            if !may_take(seen, notified) {
                return None;
            }
            if let Some(lent) = self.lend(seen, seen - ONE) {
                return Some(lent);
            }
        }
        unreachable!()
    }
}

impl<K, V> Word<Competing<OneValue<K>>, V> {
    /// Parks: gives up the right to where the value lies, and returns the parked right. The number still says that the value is
    /// taken.
    ///
    /// The returned [`Parked`] is for [`unpark`](Word::unpark), or for [`Parked::unpark`] of a holder that shares the mutex.
    pub fn park<R: Wait>(&self, rt: &R, lent: Lent<'_, Competing<OneValue<K>>, V>) -> Parked
        requires { lent.name ≡ self.now.slot.name }
        ensures { result ≡ self.now.slot.name }
    {
        let (mut seen, claim, mut seat) = self.look_as(lent.claim());
        let mut lent = claim.write();
        for _ in rt.forever() {
            match self.give_back(lent, &mut seat, seen, seen + PARKED * ONE) {
                Ok(()) => return Parked::new(&seat),
                Err((again, found)) => {
                    lent = again;
                    seen = found;
                }
            }
        }
        unreachable!()
    }

    /// Takes the right to where the value lies again, and returns the right.
    ///
    /// The call blocks for no other thread, because the number says that the value is parked, and no other thread takes the right
    /// meanwhile.
    pub fn unpark<R: Wait>(&self, rt: &R, parked: Parked) -> Lent<'_, Competing<OneValue<K>>, V>
        requires { parked ≡ self.now.slot.name }
        ensures { result.name ≡ self.now.slot.name }
    {
        parked.end();
        let (mut seen, mut seat) = self.look();
        for _ in rt.forever() {
            if seen / ONE % SHUT == PARKED {
                if let Some(lent) = self.lend(&mut seat, seen, seen - PARKED * ONE) {
                    return lent;
                }
            }
            seen = self.look_again(&mut seat);
        }
        unreachable!()
    }
}
