//! Taking the state out from behind its word, and putting it back.
ghost use Rattle.std.specs.Prelude.{◌≡◌, ◌*◌, ◌%◌, ◌^◌, ◌<◌, ◌≤◌, None, false, true, IfErr, IfOk, MatchResult};
ghost use Rattle.event_word.specs.Held.{HasState, IsOf};
ghost use Rattle.event_word.specs.Word.{Stays, Takes, nothing, number_of, owes, owing};

use super::held::Held;
use super::kept::Kept;
use super::rule::{Change, Put, Sleep, Take, Wake};
use super::{AWAITED, CROWDED, ONE, OUT, Seat, Word};
use crate::wakes::Wakes;
use event_wait::{PAUSES, pause};
use std::sync::Wait;

// The number of times that a thread tries to put the state back before it shuts newcomers out for that.
const TRIES: u32 = 16;

// A thread parks on the low half of the word, where the code is.
const PARKED_BITS: u64 = 0x1_0000_0000;

impl<S: Kept, V> Word<S, V> {
    #[tactic(auto, using(crate::proofs::WordKeeps::takes_out, crate::proofs::WordKeeps::due_takes, crate::proofs::WordKeeps::stays_may, crate::proofs::WordKeeps::stays_none))]
    pub(super) fn take_step(&self, seat: Seat, seen: u64, new: u64) -> Result<Held<'_, S, V>, Seat>
        requires seat { (seat.slot ≡ self.now.slot.name) × (seat.view.number ≡ None) }
        requires home { seen % 2 ≡ 0 }
        requires takes { Takes S.rules seen new × Stays S.rules seen new }
        requires announced { owes seat.view ≡ true → new % 4 ≡ 3 }
        ensures ok { IfOk result (λ held. IsOf self.now.slot.name held
            × HasState (λ n q. (n ≡ number_of new) × S.rules.stands (number_of seen) q) held) }
        ensures err { IfErr result (λ again. (again.slot ≡ seat.slot) × (again.view ≡ seat.view)) }
        ensures same { MatchResult result (λ held. held.seat.id ≡ seat.id) (λ again. again.id ≡ seat.id) }
    {
        let mut seat = seat;
        let (found, claim) = self.slot.claim().exchange::<Take>(&mut seat, seen, new);
        if found == seen {
            return Ok(Held {
                word: self,
                claim,
                seat,
            });
        }
        claim.done();
        Err(seat)
    }

    /// Takes the state out, once no other thread has it, and returns the number at that moment and the state.
    ///
    /// While another thread has the state, the thread looks ever more seldom, and sleeps at last. Does not allocate.
    #[cold]
    #[inline(never)]
    #[tactic(auto, using(crate::proofs::WordKeeps::due_none))]
    pub fn take<R: Wait>(&self, rt: &R) -> (u64, Held<'_, S, V>)
        ensures held { IsOf self.now.slot.name result.1 }
        ensures stands { S.rules.fits result.0
            × HasState (λ n q. (n ≡ result.0) × S.rules.stands n q) result.1 }
    {
        let (mut seen, mut seat) = self.look();
        for pauses in PAUSES {
            if seen % 2 == 0 {
                match self.take_step(seat, seen, seen - seen % 4 + OUT) {
                    Ok(held) => return (seen / ONE, held),
                    Err(again) => seat = again,
                }
            }
            pause(pauses);
            seen = self.look_again(&mut seat);
        }
        self.sleep_to_take(rt, seat)
    }

    // A thread that slept can't know whether others sleep still, so it owes them a wake: it takes the state with the word marked,
    // and puts the state back by the same seat.
    #[tactic(auto, using(crate::proofs::WordKeeps::loud))]
    fn sleep_to_take<R: Wait>(&self, rt: &R, seat: Seat) -> (u64, Held<'_, S, V>)
        requires seat { (seat.slot ≡ self.now.slot.name) × (seat.view.number ≡ None) }
        ensures held { IsOf self.now.slot.name result.1 }
        ensures same { result.1.seat.id ≡ seat.id }
        ensures stands { S.rules.fits result.0
            × HasState (λ n q. (n ≡ result.0) × S.rules.stands n q) result.1 }
    {
        let mut seat = seat;
        for _ in rt.forever() {
            let seen = self.look_to_sleep(&mut seat);
            let awaited = seen - seen % 4 + AWAITED;
            if seen % 2 == 1 {
                if seen == awaited || self.await_step(&mut seat, seen, awaited) {
                    self.slot.park(rt, &seat, (awaited % PARKED_BITS) as u32);
                }
                continue;
            }
            match self.take_step(seat, seen, awaited) {
                Ok(held) => return (seen / ONE, held),
                Err(again) => seat = again,
            }
        }
        unreachable!()
    }

    // Looks at the word, after which the thread may sleep.
    #[tactic(auto, using(crate::proofs::WordKeeps::sleeps, crate::proofs::WordKeeps::due_sleeps))]
    fn look_to_sleep(&self, seat: &mut Seat) -> u64
        requires { (seat.old.slot ≡ self.now.slot.name) × (seat.old.view.number ≡ None) }
        ensures seat { (seat.new.slot ≡ seat.old.slot) × (seat.new.id ≡ seat.old.id)
            × (seat.new.view ≡ owing true) }
        ensures fits { S.rules.fits (number_of result) }
    {
        self.slot.load::<Sleep<S>>(seat)
    }

    // Marks the word, so that the thread that puts the state back wakes one that sleeps.
    #[tactic(auto, using(crate::proofs::WordKeeps::awaits, crate::proofs::WordKeeps::due_awaits, crate::proofs::WordKeeps::stays_put, crate::proofs::WordKeeps::stays_may, crate::proofs::WordKeeps::stays_none))]
    fn await_step(&self, seat: &mut Seat, seen: u64, awaited: u64) -> bool
        requires seat { seat.old.slot ≡ self.now.slot.name }
        requires away { (seen % 2 ≡ 1) × (awaited % 4 ≡ 3) × (number_of awaited ≡ number_of seen) }
        ensures { (seat.new.slot ≡ seat.old.slot) × (seat.new.id ≡ seat.old.id)
            × (seat.new.view ≡ seat.old.view) }
    {
        let (found, claim) = self.slot.claim().exchange::<Change>(seat, seen, awaited);
        claim.done();
        found == seen
    }
}

impl<'a, S: Kept, V> Held<'a, S, V> {
    /// Notifies the waiters of what is free by the number, puts the state back, and then wakes the notified tasks.
    ///
    /// The number may change before the state is back: then the call notifies again. Where more than a few tasks are to be woken,
    /// the call takes the state again for each few, for which it may block. Takes no memory.
    #[cold]
    #[inline(never)]
    pub fn put_back<R: Wait>(self, rt: &R)
        requires promised { HasState S.rules.promised self }
    {
        self.put_back_waking(rt, Wakes::new());
    }

    /// Puts the state back as `put_back` does, after a step that has notified already.
    pub(crate) fn put_back_waking<R: Wait>(self, rt: &R, waking: Wakes)
        requires promised { HasState S.rules.promised self }
    {
        let mut waking = waking;
        let word = self.word;
        self.put_home(rt, &mut waking);
        for _ in rt.forever() {
            if !waking.wake_few() {
                waking.end();
                return;
            }
            let (_, again) = word.take(rt);
            again.put_home(rt, &mut waking);
        }
        unreachable!()
    }

    // Puts the state back, and wakes no task yet.
    fn put_home<R: Wait>(self, rt: &R, waking: &mut Wakes)
        requires promised { HasState S.rules.promised self }
    {
        let mut held = self;
        for _ in 0..TRIES {
            match held.try_to_put_back(waking) {
                Ok(_) => return,
                Err(again) => held = again,
            }
        }
        held.put_home_shut(rt, waking);
    }

    // Puts the state back where the number changed again and again. Newcomers are shut out first, so a try fails only as often as
    // others give back what they have. At a read-write lock newcomers leave a word alone whose queues are out (`home` of
    // `Right::word_in`).
    #[cold]
    #[inline(never)]
    fn put_home_shut<R: Wait>(self, rt: &R, waking: &mut Wakes)
        requires promised { HasState S.rules.promised self }
    {
        let mut held = self;
        for _ in rt.forever() {
            held.shut_out();
            match held.try_to_put_back(waking) {
                Ok(_) => return,
                Err(again) => held = again,
            }
        }
        unreachable!()
    }

    // Gives the word the number by which newcomers leave it alone, if the word is as it was seen.
    fn shut_out(&mut self)
        requires promised { HasState S.rules.promised self.old }
        ensures of { self.new.word ≡ self.old.word }
        ensures promised { HasState S.rules.promised self.new }
    {
        let seen = self.see();
        let number = seen / ONE;
        let shut = S::shut(number);
        if shut != number {
            self.renumber(seen, shut * ONE + seen % 4);
        }
    }

    // Returns the seat that had the state, which owes no wake any more. An error has the state where the number changed
    // meanwhile.
    #[tactic(auto, using(crate::proofs::WordKeeps::quiet))]
    fn try_to_put_back(self, waking: &mut Wakes) -> Result<Seat, Self>
        requires promised { HasState S.rules.promised self }
        ensures pays { IfOk result (λ seat. (seat.id ≡ self.entry.seat.id) × (seat.view ≡ nothing)) }
        ensures again { IfErr result (λ again. (again.word ≡ self.entry.word)
            × HasState S.rules.promised again) }
    {
        let mut held = self;
        let seen = held.see();
        let number = seen / ONE;
        let aim = held.marked(number);
        if aim > number {
            held.renumber(seen, aim * ONE + seen % 4);
            return Err(held);
        }
        let is_owed = held.settle(number, aim, waking);
        let code = if is_owed { CROWDED } else { 0 };
        let Held {
            word,
            claim,
            mut seat,
        } = held;
        let (found, claim) = claim.exchange::<Put>(&mut seat, seen, aim * ONE + code);
        if found != seen {
            return Err(Held { word, claim, seat });
        }
        claim.done();
        if seen % 4 != AWAITED {
            return Ok(seat);
        }
        word.wake_one(&mut seat);
        Ok(seat)
    }
}

impl<S: Kept, V> Word<S, V> {
    // Wakes a thread that sleeps.
    #[tactic(auto, using(crate::proofs::WordKeeps::wakes))]
    fn wake_one(&self, seat: &mut Seat)
        requires { (seat.old.slot ≡ self.now.slot.name) × (seat.old.view.number ≡ None) }
        ensures { (seat.new.id ≡ seat.old.id) × (seat.new.view ≡ nothing) }
    {
        self.slot.wake_one::<Wake>(seat);
    }
}

impl<'a, S: Kept, V> Held<'a, S, V> {
    // Looks at the word with the state out, and remembers its number.
    fn see(&mut self) -> u64
        requires promised { HasState S.rules.promised self.old }
        ensures of { self.new.word ≡ self.old.word }
        ensures same { self.new.seat.id ≡ self.old.seat.id }
        ensures word { (result % 2 ≡ 1) × S.rules.fits (number_of result) }
        ensures promised { HasState (λ n q. (n ≡ number_of result) × S.rules.promised n q) self.new }
    {
        self.look()
    }

    // Returns the number that the word is to have before a waiter is notified.
    fn marked(&mut self, number: u64) -> u64
        requires number { (number < 2 ^ 62) × S.rules.fits number }
        requires promised { HasState (λ n q. (n ≡ number) × S.rules.promised n q) self.old }
        ensures of { self.new.word ≡ self.old.word }
        ensures same { self.new.seat.id ≡ self.old.seat.id }
        ensures number { (result < 2 ^ 62) × S.rules.fits result
            × Stays S.rules (number * 4) (result * 4) }
        ensures promised { HasState (λ n q. (n ≡ number) × S.rules.promised number q
            × S.rules.promised result q × S.rules.tells result q) self.new }
        ensures lowers { result ≤ number → (q : S) → S.rules.promised result q
            → S.rules.promised number q }
    {
        self.claim.state_mut().number(number)
    }

    // Gives the word this number, if the word is as it was seen.
    fn renumber(&mut self, seen: u64, new: u64)
        requires takes { Takes S.rules seen new × Stays S.rules seen new }
        requires code { new % 4 ≡ seen % 4 }
        requires promised { HasState (λ _ q. S.rules.promised (number_of seen) q
            × S.rules.promised (number_of new) q) self.old }
        requires number { HasState (λ n _. n ≡ number_of seen) self.old }
        ensures of { self.new.word ≡ self.old.word }
        ensures promised { HasState S.rules.promised self.new }
    {
        drop(self.change(seen, new));
    }

    // Notifies the waiters of what is free by the number that the word is to have; their tasks are woken later. The word may have
    // a higher number, by which newcomers are shut out. Returns whether a waiter has to be notified of what is given back next.
    fn settle(&mut self, number: u64, aim: u64, waking: &mut Wakes) -> bool
        requires number { (aim < 2 ^ 62) × S.rules.fits aim }
        requires promised { HasState (λ n q. (n ≡ number) × S.rules.promised aim q
            × S.rules.tells aim q) self.old }
        requires lowers { (q : S) → S.rules.promised aim q → S.rules.promised number q }
        ensures of { self.new.word ≡ self.old.word }
        ensures same { self.new.seat.id ≡ self.old.seat.id }
        ensures stands { HasState (λ n q. (n ≡ number) × S.rules.promised number q
            × S.rules.stands aim q × (result ≡ false → S.rules.quiet q)) self.new }
    {
        let _number = number;
        let state = self.claim.state_mut();
        state.swap_room(&mut waking.room);
        waking.refill();
        let is_owed = state.settle(aim, waking);
        state.swap_room(&mut waking.room);
        is_owed
    }
}
