//! Who has the value, or the tally.
ghost use Rattle.std.specs.Prelude.{◌≡◌, true, None, IsSome};

use crate::lock::{CLOSED, LOW_HALF, Lock, ONE, OUT};
use crate::rule::{Closes, Held, Puts, Stays, Tally, View};
use event_slot::{Claim, Mark, ONE_READER, PRESENT, TAKEN, Tied, Ties, Writing};
use std::ops::{Deref, DerefMut};
use std::sync::Wait;

/// The value, to be read.
pub struct Reading<'a, T, R: Wait> {
    rt: &'a R,
    lock: &'a Lock<T>,
    claim: Claim<'a, Held<T>, Tally>,
    mark: Mark<View>,
    ghost reads: { (claim.right ≡ 1) × (claim.state ≡ None) },
    ghost same: { mark.slot ≡ claim.name },
}

impl<'a, T, R: Wait> Reading<'a, T, R> {
    pub(crate) fn new(
        rt: &'a R,
        lock: &'a Lock<T>,
        claim: Claim<'a, Held<T>, Tally>,
        mark: Mark<View>,
    ) -> Self
        requires { (claim.right ≡ 1) × (claim.state ≡ None) × (mark.slot ≡ claim.name) }
    {
        Reading {
            rt,
            lock,
            claim,
            mark,
        }
    }

    /// The only reader becomes the writer, if nobody counts or counted.
    #[tactic(auto, using(crate::proofs::Closing::stays))]
    pub fn try_upgrade(self) -> Result<Changing<'a, T, R>, Self> {
        let Self {
            rt,
            lock,
            claim,
            mut mark,
        } = self;
        let (found, claim) = claim.exchange::<Stays>(&mut mark, PRESENT + ONE_READER, TAKEN);
        if found == PRESENT + ONE_READER {
            Ok(Changing::new(rt, lock, claim.write(), mark))
        } else {
            Err(Reading {
                rt,
                lock,
                claim,
                mark,
            })
        }
    }
}

impl<T, R: Wait> Deref for Reading<'_, T, R> {
    type Target = T;

    fn deref(&self) -> &T {
        &self.claim.get().value
    }
}

impl<T, R: Wait> Drop for Reading<'_, T, R> {
    #[tactic(auto, using(crate::proofs::Closing::stays))]
    fn drop(self) {
        let Self {
            rt,
            lock,
            mut claim,
            mut mark,
        } = self;
        for _ in rt.forever() {
            let seen = lock.slot.peek();
            if seen % 4 != PRESENT || seen % LOW_HALF < ONE_READER {
                continue;
            }
            let (found, left) = claim.exchange::<Stays>(&mut mark, seen, seen - ONE_READER);
            if found == seen {
                left.done();
                lock.wake_all();
                return;
            }
            claim = left;
        }
        unreachable!()
    }
}

/// What belongs to a writer.
pub struct Kept<'a, T, R: Wait> {
    rt: &'a R,
    lock: &'a Lock<T>,
    mark: Mark<View>,
}

impl<T, R: Wait> Ties for Kept<'_, T, R> {
    ghost ties = { λ kept name. kept.mark.slot ≡ name };
}

/// The value, to be changed where it is. A clause sees the name of its slot.
pub struct Changing<'a, T, R: Wait> {
    pub tied: Tied<'a, Held<T>, Tally, Kept<'a, T, R>>,
}

impl<'a, T, R: Wait> Changing<'a, T, R> {
    pub(crate) fn new(
        rt: &'a R,
        lock: &'a Lock<T>,
        writing: Writing<'a, Held<T>, Tally>,
        mark: Mark<View>,
    ) -> Self
        requires { mark.slot ≡ writing.name }
        ensures { result.tied.name ≡ writing.entry.name }
    {
        Changing {
            tied: writing.tie(Kept { rt, lock, mark }),
        }
    }

    /// The writer goes, and closes the lock: readers may still come, and no writer.
    #[tactic(auto, using(crate::proofs::Closing::closes))]
    pub fn close(self) -> Mark<View>
        ensures { (result.slot ≡ self.entry.tied.name) × (result.view.closed ≡ true) }
    {
        let Self { tied } = self;
        let (writing, kept) = tied.untie();
        let Kept { rt, lock, mut mark } = kept;
        let mut claim = writing.claim();
        for _ in rt.forever() {
            let seen = lock.slot.peek();
            let high = seen - seen % LOW_HALF;
            let new = if high / CLOSED % 2 == 1 {
                high + PRESENT
            } else {
                high + CLOSED + PRESENT
            };
            let (found, left) = claim.exchange::<Closes>(&mut mark, seen, new);
            if found == seen {
                left.done();
                lock.wake_all();
                return mark;
            }
            claim = left;
        }
        unreachable!()
    }
}

impl<T, R: Wait> Deref for Changing<'_, T, R> {
    type Target = T;

    fn deref(&self) -> &T {
        &self.tied.get().value
    }
}

impl<T, R: Wait> DerefMut for Changing<'_, T, R> {
    fn deref_mut(&mut self) -> &mut T {
        &mut self.tied.get_mut().value
    }
}

impl<T, R: Wait> Drop for Changing<'_, T, R> {
    #[tactic(auto, using(crate::proofs::Closing::stays))]
    fn drop(self) {
        let Self { tied } = self;
        let (writing, kept) = tied.untie();
        let Kept { rt, lock, mut mark } = kept;
        let mut claim = writing.claim();
        for _ in rt.forever() {
            let seen = lock.slot.peek();
            let new = seen - seen % LOW_HALF + PRESENT;
            let (found, left) = claim.exchange::<Stays>(&mut mark, seen, new);
            if found == seen {
                left.done();
                lock.wake_all();
                return;
            }
            claim = left;
        }
        unreachable!()
    }
}

/// The tally, which nobody else counts meanwhile.
pub struct Counting<'a, T, R: Wait> {
    rt: &'a R,
    lock: &'a Lock<T>,
    claim: Claim<'a, Held<T>, Tally>,
    mark: Mark<View>,
    ghost has: { (claim.right ≡ 0) × IsSome claim.state },
    ghost same: { mark.slot ≡ claim.name },
}

impl<'a, T, R: Wait> Counting<'a, T, R> {
    pub(crate) fn new(
        rt: &'a R,
        lock: &'a Lock<T>,
        claim: Claim<'a, Held<T>, Tally>,
        mark: Mark<View>,
    ) -> Self
        requires has { (claim.right ≡ 0) × IsSome claim.state }
        requires same { mark.slot ≡ claim.name }
    {
        Counting {
            rt,
            lock,
            claim,
            mark,
        }
    }

    /// Counts one more, and puts the tally back. Returns it.
    #[tactic(auto, using(crate::proofs::Closing::puts))]
    pub fn end(self) -> u64 {
        let Self {
            rt,
            lock,
            mut claim,
            mut mark,
        } = self;
        let tally = claim.state_mut();
        tally.count = (tally.count % 0x1000_0000 + 1) % 0x1000_0000;
        let count = tally.count;
        for _ in rt.forever() {
            let seen = lock.slot.peek();
            if seen / OUT % 2 == 0 {
                continue;
            }
            let (found, left) = claim.exchange::<Puts>(&mut mark, seen, seen % OUT + count * ONE);
            if found == seen {
                left.done();
                return count;
            }
            claim = left;
        }
        unreachable!()
    }
}
