//! How one comes to the value, and to the tally behind it.
ghost use Rattle.std.specs.Prelude.{◌≡◌, ◌⊎◌, true, IfSome};

use crate::guard::{Changing, Counting, Reading};
use crate::rule::{Adds, Copies, Held, Looks, Stays, Takes, Tally, View};
use event_slot::{Mark, ONE_READER, PRESENT, Slot, TAKEN};
use std::sync::Wait;

// Where a word counts so many readers, one more is not let in.
const FULL: u64 = 0xffff_fff0;

// The states and the count, without the high half.
pub(crate) const LOW_HALF: u64 = 0x1_0000_0000;

// The bits of the high half: that the lock is closed, that the tally is out, and one of the tally.
pub(crate) const CLOSED: u64 = 0x1_0000_0000;

pub(crate) const OUT: u64 = 0x2_0000_0000;

pub(crate) const ONE: u64 = 0x4_0000_0000;

/// A value that many read or one writes, until it is closed, and a tally behind it. A clause sees the name of its slot.
#[derive(Drop)]
pub struct Lock<T> {
    pub slot: Slot<Held<T>, Tally>,
}

impl<T> Lock<T> {
    /// It allocates nothing.
    #[tactic(auto, using(crate::proofs::Closing::begins))]
    pub fn new(value: T) -> (Self, Mark<View>)
        ensures { result.1.slot ≡ result.0.slot.name }
    {
        let (slot, mark) = Slot::new(Held { value }, Tally { count: 0 }, PRESENT, &());
        (Lock { slot }, mark)
    }

    /// A reader comes, if no writer is there. A lost race counts as a writer.
    #[tactic(auto, using(crate::proofs::Closing::comes))]
    pub fn try_read<'a, R: Wait>(&'a self, rt: &'a R) -> Option<Reading<'a, T, R>> {
        let seen = self.slot.peek();
        if seen % 4 != PRESENT || seen % LOW_HALF >= FULL {
            return None;
        }
        let (found, claim, mark) = self.slot.claim().arrive::<Stays>(seen, seen + ONE_READER);
        if found == seen {
            Some(Reading::new(rt, self, claim, mark))
        } else {
            claim.done();
            None
        }
    }

    /// The writer comes, if nobody is there, the lock is not closed and the tally is at home and 0.
    #[tactic(auto, using(crate::proofs::Closing::writes))]
    pub fn try_write<'a, R: Wait>(&'a self, rt: &'a R) -> Option<Changing<'a, T, R>>
        ensures { IfSome result (λ it. it.tied.name ≡ self.now.slot.name) }
    {
        let (found, claim, mark) = self.slot.claim().arrive::<Stays>(PRESENT, TAKEN);
        if found == PRESENT {
            Some(Changing::new(rt, self, claim.write(), mark))
        } else {
            claim.done();
            None
        }
    }

    /// Waits until the writer may come. None does once the lock is closed, or somebody counts or counted.
    pub fn write<'a, R: Wait>(&'a self, rt: &'a R) -> Option<Changing<'a, T, R>>
        ensures { IfSome result (λ it. it.tied.name ≡ self.now.slot.name) }
    {
        for _ in rt.forever() {
            let writing = self.try_write(rt);
            if writing.is_some() {
                return writing;
            }
            let seen = self.slot.peek();
            if seen >= LOW_HALF {
                return None;
            }
            if seen != PRESENT {
                let mark = self.mark();
                self.slot.park(rt, &mark, seen as u32);
            }
        }
        unreachable!()
    }

    /// Takes the tally out, beside whoever reads or writes, if it is at home. It is what the word showed.
    #[tactic(auto, using(crate::proofs::Closing::takes))]
    pub fn try_count<'a, R: Wait>(&'a self, rt: &'a R) -> Option<Counting<'a, T, R>> {
        let seen = self.slot.peek();
        if seen / OUT % 2 == 1 {
            return None;
        }
        let (found, claim, mark) = self.slot.claim().arrive::<Takes>(seen, seen + OUT);
        if found == seen {
            Some(Counting::new(rt, self, claim, mark))
        } else {
            claim.done();
            None
        }
    }

    /// What the word shows of the tally.
    pub fn shown(&self) -> u64 {
        self.slot.peek() / ONE
    }

    /// Whether the lock is closed. Whoever knows that it is will see it.
    #[tactic(auto, using(crate::proofs::Closing::looks))]
    pub fn is_closed(&self, mark: &mut Mark<View>) -> bool
        requires { mark.old.slot ≡ self.now.slot.name }
        ensures told { mark.old.view.closed ≡ true → result ≡ true }
        ensures same { (mark.new.slot ≡ mark.old.slot) × (mark.new.view ≡ mark.old.view) }
    {
        self.slot.load::<Looks>(mark) / LOW_HALF % 2 == 1
    }

    /// A mark that knows nothing yet.
    pub fn mark(&self) -> Mark<View>
        ensures { result.slot ≡ self.now.slot.name }
    {
        self.slot.enter::<Looks>().1
    }

    // Wakes every thread that waits.
    #[tactic(auto, using(crate::proofs::Closing::looks))]
    pub(crate) fn wake_all(&self) {
        let mut mark = self.mark();
        self.slot.wake_all::<Looks>(&mut mark);
    }

    /// A mark that knows as much as this one.
    pub fn fork(&self, mark: &mut Mark<View>) -> Mark<View>
        requires { mark.old.slot ≡ self.now.slot.name }
        ensures same { (mark.new.slot ≡ mark.old.slot) × (mark.new.view ≡ mark.old.view) }
        ensures knows { (result.slot ≡ mark.old.slot) × (result.view ≡ mark.old.view) }
    {
        self.slot.split::<Copies>(mark)
    }

    /// Has a mark learn what another one knows.
    pub fn join(&self, mark: &mut Mark<View>, other: Mark<View>)
        requires { (mark.old.slot ≡ self.now.slot.name) × (other.slot ≡ self.now.slot.name) }
        ensures same { mark.new.slot ≡ mark.old.slot }
        ensures learns { (mark.old.view.closed ≡ true) ⊎ (other.view.closed ≡ true)
            → mark.new.view.closed ≡ true }
    {
        self.slot.join::<Adds>(mark, other);
    }

    /// The value and the tally, once nobody shares the lock.
    pub fn into_inner(self) -> (T, u64) {
        let Self { slot } = self;
        let (held, tally) = slot.into_inner();
        (held.value, tally.count)
    }
}
