//! Guards without a lifetime, which share their lock by an `Arc`.
ghost use Rattle.std.specs.Prelude.{◌≡◌, None, Some};

use crate::lock::{LOW_HALF, Lock};
use crate::rule::{Held, Stays, Tally, View};
use event_slot::{Inside, Mark, ONE_READER, Owned, PRESENT, Slot, TAKEN};
use std::alloc::Global;
use std::mem::replace;
use std::ops::{Deref, DerefMut};
use std::sync::{Arc, Wait};

impl<T> Inside<Held<T>, Tally> for Lock<T> {
    ghost finds = { λ lock. lock.slot };

    fn slot(&self) -> &Slot<Held<T>, Tally> {
        &self.slot
    }
}

// A mark of a lock, and a claim to nothing of its slot.
fn begin<T>(lock: Arc<Lock<T>, Global>) -> (Mark<View>, Owned<Lock<T>, Held<T>, Tally, Global>)
    ensures { (result.0.slot ≡ result.1.name) × (result.1.right ≡ 0) × (result.1.state ≡ None) }
{
    let mark = lock.mark();
    (mark, Owned::new(lock))
}

// Wakes who waits, once one has nothing of the slot any more.
fn leave<T: Drop>(owned: Owned<Lock<T>, Held<T>, Tally, Global>)
    requires { (owned.right ≡ 0) × (owned.state ≡ None) }
{
    let lock = owned.done();
    lock.wake_all();
}

/// The value, to be read.
pub struct Sharing<T: Drop, R: Wait + Drop> {
    rt: R,
    owned: Owned<Lock<T>, Held<T>, Tally, Global>,
    mark: Mark<View>,
    ghost reads: { (owned.right ≡ 1) × (owned.state ≡ None) },
    ghost same: { mark.slot ≡ owned.name },
}

impl<T: Drop, R: Wait + Drop> Sharing<T, R> {
    /// A reader comes, if nobody else is there. A lost race counts as somebody.
    #[tactic(auto, using(crate::proofs::Closing::stays))]
    pub fn first(rt: R, lock: Arc<Lock<T>, Global>) -> Option<Self> {
        let (mut mark, owned) = begin(lock);
        let (found, owned) = owned.exchange::<Stays>(&mut mark, PRESENT, PRESENT + ONE_READER);
        if found == PRESENT {
            Some(Sharing { rt, owned, mark })
        } else {
            leave(owned);
            None
        }
    }
}

impl<T: Drop, R: Wait + Drop> Deref for Sharing<T, R> {
    type Target = T;

    fn deref(&self) -> &T {
        &self.owned.get().value
    }
}

impl<T: Drop, R: Wait + Drop> Drop for Sharing<T, R> {
    #[tactic(auto, using(crate::proofs::Closing::stays))]
    fn drop(self) {
        let Self {
            rt,
            mut owned,
            mut mark,
        } = self;
        let mut seen = PRESENT + ONE_READER;
        for _ in rt.forever() {
            let (found, left) = owned.exchange::<Stays>(&mut mark, seen, seen - ONE_READER);
            if found == seen {
                leave(left);
                return;
            }
            owned = left;
            if found % 4 == PRESENT && found % LOW_HALF >= ONE_READER {
                seen = found;
            }
        }
        unreachable!()
    }
}

/// The value, to be changed where it is.
pub struct Owning<T: Drop, R: Wait + Drop> {
    rt: R,
    pub owned: Owned<Lock<T>, Held<T>, Tally, Global>,
    mark: Mark<View>,
    ghost writes: { (owned.right ≡ 2) × (owned.state ≡ None) },
    ghost same: { mark.slot ≡ owned.name },
}

impl<T: Drop, R: Wait + Drop> Owning<T, R> {
    /// The writer comes, if nobody is there, the lock is not closed and the tally is at home and 0.
    #[tactic(auto, using(crate::proofs::Closing::stays))]
    pub fn try_new(rt: R, lock: Arc<Lock<T>, Global>) -> Option<Self> {
        let (mut mark, owned) = begin(lock);
        let (found, owned) = owned.exchange::<Stays>(&mut mark, PRESENT, TAKEN);
        if found == PRESENT {
            Some(Owning { rt, owned, mark })
        } else {
            leave(owned);
            None
        }
    }

    /// Puts another value there. Returns the one that was there.
    pub fn replace(&mut self, value: T) -> T
        ensures found { self.old.owned.value ≡ Some (record { value = result }) }
        ensures left { self.new.owned.value ≡ Some (record { value = value }) }
    {
        replace(&mut self.owned.get_mut().value, value)
    }
}

impl<T: Drop, R: Wait + Drop> Deref for Owning<T, R> {
    type Target = T;

    fn deref(&self) -> &T {
        &self.owned.written().value
    }
}

impl<T: Drop, R: Wait + Drop> DerefMut for Owning<T, R> {
    fn deref_mut(&mut self) -> &mut T {
        &mut self.owned.get_mut().value
    }
}

impl<T: Drop, R: Wait + Drop> Drop for Owning<T, R> {
    #[tactic(auto, using(crate::proofs::Closing::stays))]
    fn drop(self) {
        let Self {
            rt,
            mut owned,
            mut mark,
        } = self;
        let mut seen = TAKEN;
        for _ in rt.forever() {
            let new = seen - seen % LOW_HALF + PRESENT;
            let (found, rest) = owned.exchange::<Stays>(&mut mark, seen, new);
            if found == seen {
                leave(rest);
                return;
            }
            owned = rest;
            seen = found;
        }
        unreachable!()
    }
}
