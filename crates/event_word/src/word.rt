//! A lock on one word.
ghost use Rattle.std.specs.Prelude.{◌≡◌, ◌^◌, ◌<◌};
ghost use Rattle.event_word.specs.Word.{Shows, nothing, number_of};

mod competing;
pub(crate) mod held;
mod inner;
mod inner_arc;
mod kept;
mod looks;
mod origin;
mod owned;
mod parked;
mod permit;
mod permits;
mod rule;
mod serving;
mod step;
mod take;
mod turn;
mod value;
mod writer;
mod writer_arc;

pub use self::held::Held;
pub use self::kept::Kept;
pub(crate) use self::origin::Origin;
pub use self::owned::{OwnedClaim, OwnedValue};
pub use self::parked::Parked;
pub use self::permit::Permit;
use self::rule::Look;
pub use self::rule::{Place, View};
pub(crate) use self::rule::{Change, Enter};
pub use self::step::Step;
pub use self::value::Lent;
pub use self::writer::Writer;
pub use self::writer_arc::WriterArc;
use event_slot::{Claim, Mark, Slot};

/// What a thread knows that makes steps on a lock's word. A seat has no bytes.
pub type Seat = Mark<View>;

/// What one more of the lock's number adds to the word: 4, because the low two bits are the code.
pub const ONE: u64 = 4;

/// The code while a thread has the state out.
pub const OUT: u64 = 1;

/// The code while the state is at home, and a waiter may have to be notified of what is given back.
pub const CROWDED: u64 = 2;

/// The code while a thread has the state out and others may sleep until the state is back.
const AWAITED: u64 = 3;

/// A lock on one word: a number with a code, the state behind the word, and the value that the lock lends.
pub struct Word<S: Kept, V> {
    pub slot: Slot<Place<V>, S>,
}

impl<S: Kept, V> Word<S, V> {
    /// Makes a lock with this number, this state and this value. Takes no memory.
    ///
    /// Requires that the number fits the rules of the lock and is less than 2^62 (because the code takes two bits of the word),
    /// and that nobody in the state has to be notified.
    pub fn new(number: u64, state: S, value: V) -> Self
        requires number { (number < 2 ^ 62) × S.rules.fits number }
        requires state { S.rules.stands number state × S.rules.quiet state }
    {
        let (slot, _seat) = Slot::new(Place { value }, state, number * ONE, &());
        Word { slot }
    }

    /// Borrows the value mutably where it lies. No thread shares the lock, as the `&mut` says.
    pub fn value_mut(&mut self) -> &mut V {
        &mut self.slot.get_mut().value
    }

    /// Returns the value, and drops the state. No thread shares the lock any more.
    pub fn into_inner(self) -> V
    where
        S: Drop,
    {
        let Word { slot } = self;
        let (place, state) = slot.into_inner();
        drop(state);
        place.value
    }

    /// Returns the number as it was a moment ago.
    #[inline(always)]
    pub fn number(&self) -> u64 {
        self.slot.peek() / ONE
    }

    /// Returns the word and a new seat. The call costs one load.
    #[inline(always)]
    #[tactic(auto, using(crate::proofs::WordKeeps::sits, crate::proofs::WordKeeps::due_enters))]
    pub fn look(&self) -> (u64, Seat)
        ensures seat { (result.1.slot ≡ self.now.slot.name) × (result.1.view ≡ nothing) }
        ensures fits { S.rules.fits (number_of result.0) }
    {
        self.slot.enter::<Enter<S>>()
    }

    // Returns the word, which shows the right of the thread that looks, with the claim and a new seat. The call costs one load.
    #[inline(always)]
    #[tactic(auto, using(crate::proofs::WordKeeps::sits, crate::proofs::WordKeeps::due_enters))]
    pub(crate) fn look_as<'a>(
        &self,
        claim: Claim<'a, Place<V>, S>,
    ) -> (u64, Claim<'a, Place<V>, S>, Seat)
        requires own { claim.name ≡ self.now.slot.name }
        ensures own { (result.1.name ≡ self.now.slot.name) × (result.1.right ≡ claim.entry.right)
            × (result.1.state ≡ claim.entry.state) }
        ensures seat { (result.2.slot ≡ self.now.slot.name) × (result.2.view ≡ nothing) }
        ensures shows { Shows S.rules claim.entry.right result.0 }
    {
        claim.enter::<Enter<S>>()
    }

    /// Returns the word as it is now. The call costs one load, and the seat knows as much as before.
    #[inline(always)]
    #[tactic(auto, using(crate::proofs::WordKeeps::looks, crate::proofs::WordKeeps::due_looks))]
    pub fn look_again(&self, seat: &mut Seat) -> u64
        requires { seat.old.slot ≡ self.now.slot.name }
        ensures seat { (seat.new.slot ≡ seat.old.slot) × (seat.new.view ≡ seat.old.view) }
        ensures fits { S.rules.fits (number_of result) }
    {
        self.slot.load::<Look<S>>(seat)
    }
}

impl<S: Kept + Drop, V: Drop> Drop for Word<S, V> {
    // This is a function of its own, so that a share that is not the last is given up in a few instructions.
    #[cold]
    #[inline(never)]
    fn drop(self) {
        let Word { slot } = self;
        drop(slot);
    }
}
