//! How threads get and give back rights to read and to write: the steps on the word.
ghost use Rattle.std.specs.Prelude.{◌≡◌, ◌+◌, ◌-◌, ◌*◌, ◌<◌, ◌≤◌, ◌%◌, None, Some, IfSome, IfErr, IfOk, IsTrue, IsFalse, MatchResult, length};
ghost use Rattle.event_word.specs.Count.{IsCount, readers_of, writers_of};
ghost use Rattle.event_wait.specs.declared.lock.task.Task.{Task};
ghost use Rattle.event_word.specs.Leaving.{IfGoing, IfTaking, becomes};
ghost use Rattle.event_word.specs.Queues.{Admits, CountsAsReader, CountsAsWriter, CountsMore, CountsOne, IsExclusive, MayUpgrade, Recounts, RecountsAndTakes, given, if_any, lock_rules};
ghost use Rattle.event_word.specs.Held.{HasState};
ghost use Rattle.event_word.specs.Word.{EasesFrom, nothing, number_of};

use super::number::{self, Leaving, READER, WRITER};
use super::queues::Queues;
use super::reading::Reading;
use super::right::Right;
use super::share::{Grant, Out, Share};
use super::writing::Writing;
use crate::wakes::Wakes;
use crate::word::{Held, Kept, ONE, Seat, Word};
use event_wait::Task;
use std::sync::Wait;

impl<V> Word<Queues<Task>, V> {
    /// Attempts for a newcomer, and returns its right, or `None` if the newcomer may not be admitted now.
    ///
    /// The call costs one load and one compare-exchange where no thread waits and no other thread changes the word meanwhile, and
    /// no compare-exchange where the number shows that a holder is in the way. Otherwise the call may block until the queues are
    /// at home.
    #[inline(always)]
    pub fn attempt<K: Right<Task>, R: Wait>(&self, rt: &R) -> Option<Grant<'_, K, V>>
        ensures { IfSome result (λ grant. grant.claim.name ≡ self.now.slot.name) }
    {
        let (seen, mut seat) = self.look();
        if let Some(new) = K::word_in(seen) {
            if let Some(grant) = self.admit(&mut seat, seen, new) {
                return Some(grant);
            }
        }
        self.attempt_again(rt)
    }

    #[cold]
    #[inline(never)]
    fn attempt_again<K: Right<Task>, R: Wait>(&self, rt: &R) -> Option<Grant<'_, K, V>>
        ensures { IfSome result (λ grant. grant.claim.name ≡ self.now.slot.name) }
    {
        let (mut seen, mut seat) = self.look();
        for _ in rt.forever() {
            if K::is_barred(seen / ONE) {
                return None;
            }
            let Some(new) = K::word_in(seen) else {
                return self.attempt_slowly(rt);
            };
            if let Some(grant) = self.admit(&mut seat, seen, new) {
                return Some(grant);
            }
            seen = self.look_again(&mut seat);
        }
        unreachable!()
    }

    // Where there may be a waiter, the queues show whether a newcomer may be admitted.
    fn attempt_slowly<K: Right<Task>, R: Wait>(&self, rt: &R) -> Option<Grant<'_, K, V>>
        ensures { IfSome result (λ grant. grant.claim.name ≡ self.now.slot.name) }
    {
        let (_, mut held) = self.take(rt);
        let grant = held.count_newcomer(rt);
        held.put_back(rt);
        grant
    }

    // Admits a newcomer by this step, if the word is as it was seen.
    #[inline(always)]
    fn admit<K: Right<Task>>(&self, seat: &mut Seat, seen: u64, new: u64) -> Option<Grant<'_, K, V>>
        requires seat { seat.old.slot ≡ self.now.slot.name }
        requires step { Recounts 0 K.RIGHT seen new }
        ensures seat { (seat.new.slot ≡ seat.old.slot) × (seat.new.view ≡ seat.old.view) }
        ensures own { IfSome result (λ grant. grant.claim.name ≡ self.now.slot.name) }
    {
        let (found, claim) = self.turn(self.slot.claim(), seat, seen, new);
        if found == seen {
            return Some(Grant::new(claim));
        }
        claim.done();
        None
    }

    /// Ends a right, and lets in the waiters that are next.
    ///
    /// The last reader that leaves lets in the first writer; the writer that leaves lets in all readers that wait, or else the
    /// first writer. May block until the queues are at home only to wake more than a few tasks.
    #[inline(always)]
    pub fn end<'a, K: Right<Task>, R: Wait>(&'a self, rt: &R, grant: Grant<'a, K, V>)
        requires { grant.claim.name ≡ self.now.slot.name }
    {
        let (seen, grant, mut seat) = self.look_holding(grant);
        match K::word_out(seen) {
            Leaving::Going(new) => match self.dismiss(grant, &mut seat, seen, new) {
                Ok(()) => {}
                Err((again, found)) => self.end_slowly(rt, again, seat, found),
            },
            Leaving::Taking(_) => self.end_slowly(rt, grant, seat, seen),
        }
    }

    // Returns the word, which counts the holder, with its right and a new seat. The call costs one load.
    #[inline(always)]
    fn look_holding<'a, K: Right<Task>>(
        &self,
        grant: Grant<'a, K, V>,
    ) -> (u64, Grant<'a, K, V>, Seat)
        requires { grant.claim.name ≡ self.now.slot.name }
        ensures own { result.1.claim.name ≡ self.now.slot.name }
        ensures seat { (result.2.slot ≡ self.now.slot.name) × (result.2.view ≡ nothing) }
        ensures counts { CountsOne K.RIGHT result.0 }
    {
        let (seen, claim, seat) = self.look_as(grant.into_claim());
        (seen, Grant::new(claim), seat)
    }

    // The word counts a holder as long as it has its right, so each word found tells how it is once the holder has left.
    #[cold]
    #[inline(never)]
    fn end_slowly<'a, K: Right<Task>, R: Wait>(
        &'a self,
        rt: &R,
        grant: Grant<'a, K, V>,
        seat: Seat,
        word: u64,
    )
        requires own { grant.claim.name ≡ self.now.slot.name }
        requires seat { (seat.slot ≡ self.now.slot.name) × (seat.view ≡ nothing) }
        requires counts { CountsOne K.RIGHT word }
    {
        let mut grant = grant;
        let (mut seen, mut seat) = (word, seat);
        for _ in rt.forever() {
            match self.go(rt, grant, seat, seen, K::word_out(seen)) {
                Ok(()) => return,
                Err((again, at, found)) => {
                    grant = again;
                    seat = at;
                    seen = found;
                }
            }
        }
        unreachable!()
    }

    // Ends a right by this step, and lets in the waiters that are next if the step takes the queues out. An error has the
    // right, the seat and the word, where that is another.
    fn go<'a, K: Right<Task>, R: Wait>(
        &'a self,
        rt: &R,
        grant: Grant<'a, K, V>,
        mut seat: Seat,
        seen: u64,
        leaving: Leaving,
    ) -> Result<(), (Grant<'a, K, V>, Seat, u64)>
        requires own { grant.claim.name ≡ self.now.slot.name }
        requires seat { (seat.slot ≡ self.now.slot.name) × (seat.view ≡ nothing) }
        requires going { IfGoing leaving (Recounts K.RIGHT 0 seen) }
        requires taking { IfTaking leaving (RecountsAndTakes K.RIGHT 0 seen) }
        requires last { IfTaking leaving (λ new. number_of new ≡ 0) }
        requires ends { K.ends (number_of seen) (number_of (becomes leaving)) }
        ensures own { IfErr result (λ again. (again.0.claim.name ≡ self.now.slot.name)
            × (again.1.slot ≡ seat.slot) × (again.1.view ≡ nothing)) }
        ensures counts { IfErr result (λ again. CountsOne K.RIGHT again.2) }
    {
        match leaving {
            Leaving::Going(new) => match self.dismiss(grant, &mut seat, seen, new) {
                Ok(()) => Ok(()),
                Err((again, found)) => Err((again, seat, found)),
            },
            Leaving::Taking(new) => match self.turn_out(grant.into_claim(), seat, seen, new) {
                Ok(held) => {
                    held.put_back(rt);
                    Ok(())
                }
                Err((claim, seat, found)) => Err((Grant::new(claim), seat, found)),
            },
        }
    }

    // Ends a right by this step, and lets in no waiter. An error has the right and the word, where that is another.
    #[inline(always)]
    fn dismiss<'a, K: Right<Task>>(
        &self,
        grant: Grant<'a, K, V>,
        seat: &mut Seat,
        seen: u64,
        new: u64,
    ) -> Result<(), (Grant<'a, K, V>, u64)>
        requires own { grant.claim.name ≡ self.now.slot.name }
        requires seat { seat.old.slot ≡ self.now.slot.name }
        requires step { Recounts K.RIGHT 0 seen new }
        requires ends { K.ends (number_of seen) (number_of new) }
        ensures seat { (seat.new.slot ≡ seat.old.slot) × (seat.new.view ≡ seat.old.view) }
        ensures own { IfErr result (λ again. again.0.claim.name ≡ self.now.slot.name) }
        ensures counts { IfErr result (λ again. CountsOne K.RIGHT again.1) }
    {
        let (found, claim) = self.turn(grant.into_claim(), seat, seen, new);
        if found == seen {
            claim.done();
            return Ok(());
        }
        Err((Grant::new(claim), found))
    }

    /// Parks: gives up the right to where the value lies, and returns the parked right. The number still counts the holder.
    pub fn park<K: Right<Task>, R: Wait>(&self, rt: &R, grant: Grant<'_, K, V>) -> Share<K>
        requires { grant.claim.name ≡ self.now.slot.name }
        ensures { result ≡ self.now.slot.name }
    {
        let (mut seen, mut grant, mut seat) = self.look_holding(grant);
        for _ in rt.forever() {
            match self.park_at(grant, &mut seat, seen) {
                Ok(share) => return share,
                Err((again, found)) => {
                    grant = again;
                    seen = found;
                }
            }
        }
        unreachable!()
    }

    // Parks, if the word is as it was seen. An error has the right and the word, where that is another.
    fn park_at<'a, K: Right<Task>>(
        &self,
        grant: Grant<'a, K, V>,
        seat: &mut Seat,
        seen: u64,
    ) -> Result<Share<K>, (Grant<'a, K, V>, u64)>
        requires own { grant.claim.name ≡ self.now.slot.name }
        requires seat { seat.old.slot ≡ self.now.slot.name }
        requires counts { CountsOne K.RIGHT seen }
        ensures seat { (seat.new.slot ≡ seat.old.slot) × (seat.new.view ≡ seat.old.view) }
        ensures ok { IfOk result (λ share. share ≡ self.now.slot.name) }
        ensures err { IfErr result (λ again. again.0.claim.name ≡ self.now.slot.name) }
        ensures counts { IfErr result (λ again. CountsOne K.RIGHT again.1) }
    {
        let new = K::word_parked(seen);
        let (found, claim) = self.turn(grant.into_claim(), seat, seen, new);
        if found == seen {
            claim.done();
            return Ok(Share::new(seat));
        }
        Err((Grant::new(claim), found))
    }

    /// Takes the right of a parked holder again, and returns the right.
    ///
    /// The call blocks for no other thread, because the number counts the parked holder already.
    pub fn unpark<K: Right<Task>, R: Wait>(&self, rt: &R, share: Share<K>) -> Grant<'_, K, V>
        requires { share ≡ self.now.slot.name }
        ensures { result.claim.name ≡ self.now.slot.name }
    {
        share.end();
        self.take_parked(rt)
    }

    // The word counts a parked holder as long as there is its share.
    fn take_parked<K: Right<Task>, R: Wait>(&self, rt: &R) -> Grant<'_, K, V>
        ensures { result.claim.name ≡ self.now.slot.name }
    {
        let (mut seen, mut seat) = self.look();
        for _ in rt.forever() {
            if let Some(new) = K::word_unparked(seen) {
                if let Some(grant) = self.admit(&mut seat, seen, new) {
                    return grant;
                }
            }
            seen = self.look_again(&mut seat);
        }
        unreachable!()
    }
}

impl<'a, V> Held<'a, Queues<Task>, V> {
    /// Returns the word with the queues out. The call costs one load.
    pub fn look_alone(&mut self) -> u64
        requires alone { HasState IsExclusive self.old }
        ensures of { self.new.word ≡ self.old.word }
        ensures state { self.new.claim.state ≡ self.old.claim.state }
        ensures word { (result % 2 ≡ 1) × IsCount (number_of result) }
        ensures number { self.new.seat.view.number ≡ Some (number_of result) }
        ensures alone { HasState (λ n q. (n ≡ number_of result)
            × IsExclusive n q) self.new }
        ensures eases { EasesFrom (lock_rules {W = Task}) self.old.seat.view.number (number_of result) }
    {
        self.look()
    }

    // Looks as `look_alone` does, by a holder, which the word counts, and returns its right, too.
    fn look_alone_holding<'g, K: Right<Task>>(
        &mut self,
        grant: Grant<'g, K, V>,
    ) -> (u64, Grant<'g, K, V>)
        requires alone { HasState IsExclusive self.old }
        requires own { grant.claim.name ≡ self.old.word.now.slot.name }
        ensures of { self.new.word ≡ self.old.word }
        ensures state { self.new.claim.state ≡ self.old.claim.state }
        ensures word { (result.0 % 2 ≡ 1) × CountsOne K.RIGHT result.0 }
        ensures number { self.new.seat.view.number ≡ Some (number_of result.0) }
        ensures alone { HasState (λ n q. (n ≡ number_of result.0)
            × IsExclusive n q) self.new }
        ensures eases { EasesFrom (lock_rules {W = Task}) self.old.seat.view.number
            (number_of result.0) }
        ensures own { result.1.claim.name ≡ self.old.word.now.slot.name }
    {
        let (seen, claim) = self.look_as(grant.into_claim());
        (seen, Grant::new(claim))
    }

    // Returns whether a newcomer may be admitted.
    fn may_come<K: Right<Task>>(&mut self, seen: u64) -> bool
        requires alone { HasState (λ n q. (n ≡ number_of seen) × IsExclusive n q) self.old }
        ensures of { self.new.word ≡ self.old.word }
        ensures same { (self.new.claim.state ≡ self.old.claim.state)
            × (self.new.seat.view ≡ self.old.seat.view) }
        ensures yes { IsTrue result → HasState (λ n q. K.is_open n q × IsExclusive n q
            × Admits K.COUNTS n q) self.new }
        ensures no { IsFalse result
            → HasState (λ n q. K.is_open n q → K.is_full n q) self.new }
    {
        K::may_come(self.claim.state_mut(), seen / ONE)
    }

    // Returns whether the reader that asks may write from here on.
    fn may_upgrade(&mut self, seen: u64) -> bool
        requires alone { HasState (λ n q. (n ≡ number_of seen) × IsExclusive n q) self.old }
        ensures of { self.new.word ≡ self.old.word }
        ensures same { (self.new.claim.state ≡ self.old.claim.state)
            × (self.new.seat.view ≡ self.old.seat.view) }
        ensures yes { IsTrue result → HasState (λ n q. MayUpgrade n q × (number_of seen ≡ 2)
            × IsExclusive 1 q) self.new }
        ensures no { IsFalse result → HasState (λ n q. MayUpgrade n q → ⊥) self.new }
    {
        self.claim.state_mut().may_upgrade(seen / ONE)
    }

    /// Attempts for a newcomer with the queues out, and returns its right, or `None` if the newcomer may not be admitted now.
    pub fn count_newcomer<K: Right<Task>, R: Wait>(&mut self, rt: &R) -> Option<Grant<'a, K, V>>
        requires alone { HasState IsExclusive self.old }
        ensures of { self.new.word ≡ self.old.word }
        ensures state { self.new.claim.state ≡ self.old.claim.state }
        ensures alone { HasState IsExclusive self.new }
        ensures own { IfSome result (λ grant. grant.claim.name ≡ self.old.word.now.slot.name) }
        ensures counts { CountsMore (if_any (given result) K.COUNTS) self.old.seat.view
            self.new.seat.view }
        ensures refused { result ≡ None → HasState (λ n q. K.is_open n q
            → K.is_full n q) self.new }
    {
        match self.count_or_see(rt) {
            Ok(grant) => Some(grant),
            Err(_) => None,
        }
    }

    // Attempts for a newcomer with the queues out. An error is the word by which it may not be admitted.
    pub(super) fn count_or_see<K: Right<Task>, R: Wait>(
        &mut self,
        rt: &R,
    ) -> Result<Grant<'a, K, V>, u64>
        requires alone { HasState IsExclusive self.old }
        ensures of { self.new.word ≡ self.old.word }
        ensures state { self.new.claim.state ≡ self.old.claim.state }
        ensures alone { HasState IsExclusive self.new }
        ensures own { IfOk result (λ grant. grant.claim.name ≡ self.old.word.now.slot.name) }
        ensures counts { MatchResult result
            (λ _. CountsMore K.COUNTS self.old.seat.view self.new.seat.view)
            (λ _. CountsMore 0 self.old.seat.view self.new.seat.view) }
        ensures refused { IfErr result (λ seen. HasState (λ n q. (n ≡ number_of seen)
            × (K.is_open n q → K.is_full n q)) self.new) }
    {
        for _ in rt.forever() {
            let seen = self.look_alone();
            if !self.may_come::<K>(seen) {
                return Err(seen);
            }
            if let Some(grant) = self.admit_with(seen) {
                return Ok(grant);
            }
        }
        unreachable!()
    }

    // Admits a newcomer with the queues out, if the word is as it was seen.
    fn admit_with<K: Right<Task>>(&mut self, seen: u64) -> Option<Grant<'a, K, V>>
        requires word { (seen % 2 ≡ 1) × IsCount (number_of seen) }
        requires admits { HasState (λ n q. (n ≡ number_of seen) × Admits K.COUNTS n q) self.old }
        ensures of { self.new.word ≡ self.old.word }
        ensures state { self.new.claim.state ≡ self.old.claim.state }
        ensures alone { IfSome result (λ _. HasState IsExclusive self.new) }
        ensures own { IfSome result (λ grant. grant.claim.name ≡ self.old.word.now.slot.name) }
        ensures counts { IfSome result (λ _. self.new.seat.view.number
            ≡ Some (number_of seen + K.COUNTS)) }
        ensures none { result ≡ None → self.new.seat.view ≡ self.old.seat.view }
    {
        let new = K::word_with(seen);
        let (made, claim) = self.turn(self.word.slot.claim(), seen, new);
        if made {
            return Some(Grant::new(claim));
        }
        claim.done();
        None
    }

    // Looks at the word with the queues out, of which so many waiters were let in, and have left.
    fn look_letting_in(&mut self, more: u64) -> u64
        requires admits { HasState (Admits more) self.old }
        ensures of { self.new.word ≡ self.old.word }
        ensures state { self.new.claim.state ≡ self.old.claim.state }
        ensures word { (result % 2 ≡ 1) × IsCount (number_of result) }
        ensures number { self.new.seat.view.number ≡ Some (number_of result) }
        ensures admits { HasState (λ n q. (n ≡ number_of result)
            × Admits more (number_of result) q) self.new }
        ensures eases { EasesFrom (lock_rules {W = Task}) self.old.seat.view.number (number_of result) }
    {
        let _more = more;
        self.look()
    }

    /// Returns the right of a waiter that was let in, and has left its queue, and has the number count it.
    pub fn let_in<K: Right<Task>, R: Wait>(&mut self, rt: &R) -> Grant<'a, K, V>
        requires admits { HasState (Admits K.COUNTS) self.old }
        ensures of { self.new.word ≡ self.old.word }
        ensures state { self.new.claim.state ≡ self.old.claim.state }
        ensures alone { HasState IsExclusive self.new }
        ensures own { result.claim.name ≡ self.old.word.now.slot.name }
        ensures counts { CountsMore K.COUNTS self.old.seat.view self.new.seat.view }
    {
        for _ in rt.forever() {
            let seen = self.look_letting_in(K::COUNTS);
            if let Some(grant) = self.admit_with(seen) {
                return grant;
            }
        }
        unreachable!()
    }
}

impl<V> Word<Queues<Task>, V> {
    /// Turns the right of the only reader into a right to write, if no other reader was let in and no writer waits.
    ///
    /// An error has the right to read, which is unchanged. May block until the queues are at home, but not for other readers.
    pub fn try_upgrade<'a, R: Wait>(
        &self,
        rt: &R,
        grant: Grant<'a, Reading, V>,
    ) -> Result<Grant<'a, Writing, V>, Grant<'a, Reading, V>>
        requires { grant.claim.name ≡ self.now.slot.name }
        ensures { MatchResult result (λ writes. writes.claim.name ≡ self.now.slot.name)
            (λ reads. reads.claim.name ≡ self.now.slot.name) }
    {
        let mut grant = grant;
        let (seen, mut seat) = self.look();
        if let Some(new) = number::reader_writes(seen) {
            let (found, claim) = self.turn(grant.into_claim(), &mut seat, seen, new);
            if found == seen {
                return Ok(Grant::new(claim));
            }
            grant = Grant::new(claim);
        }
        let (_, mut held) = self.take(rt);
        let upgraded = held.upgrade(rt, grant);
        held.put_back(rt);
        upgraded
    }
}

impl<'a, V> Held<'a, Queues<Task>, V> {
    // Upgrades with the queues out.
    fn upgrade<'g, R: Wait>(
        &mut self,
        rt: &R,
        grant: Grant<'g, Reading, V>,
    ) -> Result<Grant<'g, Writing, V>, Grant<'g, Reading, V>>
        requires alone { HasState IsExclusive self.old }
        requires own { grant.claim.name ≡ self.old.word.now.slot.name }
        ensures of { self.new.word ≡ self.old.word }
        ensures state { self.new.claim.state ≡ self.old.claim.state }
        ensures alone { HasState IsExclusive self.new }
        ensures own { MatchResult result (λ writes. writes.claim.name ≡ self.old.word.now.slot.name)
            (λ reads. reads.claim.name ≡ self.old.word.now.slot.name) }
        ensures counts { MatchResult result
            (λ _. CountsAsWriter self.old.seat.view self.new.seat.view)
            (λ _. CountsMore 0 self.old.seat.view self.new.seat.view) }
        ensures passes_nobody { IfOk result (λ _. HasState (λ _ q.
            length q.write_line.waiting ≡ 0) self.new) }
        ensures refused { IfErr result (λ _. HasState (λ n q. MayUpgrade n q
            → ⊥) self.new) }
    {
        let mut grant = grant;
        for _ in rt.forever() {
            let seen = self.look_alone();
            if !self.may_upgrade(seen) {
                return Err(grant);
            }
            let new = seen - READER + WRITER;
            let (made, claim) = self.turn(grant.into_claim(), seen, new);
            if made {
                return Ok(Grant::new(claim));
            }
            grant = Grant::new(claim);
        }
        unreachable!()
    }
}

impl<V> Word<Queues<Task>, V> {
    /// Turns the right of the writer into a right to read, lets in all readers that wait, and returns the right to read.
    ///
    /// May block until the queues are at home.
    pub fn downgrade<'a, R: Wait>(
        &self,
        rt: &R,
        grant: Grant<'a, Writing, V>,
    ) -> Grant<'a, Reading, V>
        requires { grant.claim.name ≡ self.now.slot.name }
        ensures { result.claim.name ≡ self.now.slot.name }
    {
        let mut grant = grant;
        let (seen, mut seat) = self.look();
        if let Some(new) = number::writer_reads(seen) {
            let (found, claim) = self.turn(grant.into_claim(), &mut seat, seen, new);
            if found == seen {
                return Grant::new(claim);
            }
            grant = Grant::new(claim);
        }
        let (_, mut held) = self.take(rt);
        let mut waking = Wakes::new();
        let reads = held.count_as_reader(rt, grant);
        held.hand_to_readers(&mut waking);
        held.put_back_waking(rt, waking);
        reads
    }
}

impl<'a, V> Held<'a, Queues<Task>, V> {
    // Counts the writer as a reader. The word counts the writer as long as it has its right.
    fn count_as_reader<'g, R: Wait>(
        &mut self,
        rt: &R,
        grant: Grant<'g, Writing, V>,
    ) -> Grant<'g, Reading, V>
        requires alone { HasState IsExclusive self.old }
        requires own { grant.claim.name ≡ self.old.word.now.slot.name }
        ensures of { self.new.word ≡ self.old.word }
        ensures state { self.new.claim.state ≡ self.old.claim.state }
        ensures counts { CountsAsReader self.old.seat.view self.new.seat.view }
        ensures was { HasState (λ n q. (n ≡ 2) × IsExclusive 1 q) self.new }
        ensures own { result.claim.name ≡ self.old.word.now.slot.name }
    {
        let mut grant = grant;
        for _ in rt.forever() {
            let (seen, writes) = self.look_alone_holding(grant);
            let new = seen - WRITER + READER;
            let (made, claim) = self.turn(writes.into_claim(), seen, new);
            if made {
                return Grant::new(claim);
            }
            grant = Grant::new(claim);
        }
        unreachable!()
    }

    // Lets in all readers that wait, once the writer is counted as a reader.
    fn hand_to_readers(&mut self, waking: &mut Wakes)
        requires reads { HasState (λ n q. (n ≡ 2) × IsExclusive 1 q) self.old }
        ensures of { self.new.word ≡ self.old.word }
        ensures number { self.new.seat.view ≡ self.old.seat.view }
        ensures lets_in { HasState (λ n q. (n ≡ 2) × IsExclusive n q
            × (length q.read_line.waiting ≡ 0)) self.new }
    {
        let queues = self.claim.state_mut();
        queues.swap_room(&mut waking.room);
        queues.downgrade(waking);
        queues.swap_room(&mut waking.room);
    }
}
