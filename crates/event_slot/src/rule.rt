//! A rule over a word, the state behind it, and what its marks know.
ghost use Rattle.std.specs.Prelude.{◌≡◌, ℕ, Bool, List, [], ◌∷◌, Option};
ghost use Rattle.atomic_table.specs.Marked.{mark_owns};

use crate::rest::Rest;
use std::marker::{Model, PhantomData};

/// A value that lies in a [`Slot`](crate::Slot) with a state `S` behind it, and the rule of that slot.
pub trait Ruled<S> {
    /// What a mark knows: the mark's *view*.
    type View;

    /// What is given when a slot is made, and changed by no step.
    type Key;

    /// How a word counts the threads that have the value: the low two bits are a state, and the next 30 count the readers.
    ghost counts: { ℕ → ℕ };

    /// What holds of a slot with this key between any two steps: of the word, of the state while it is at home, and of the views
    /// of all marks, in the order in which the marks were made.
    ghost holds: { Self.Key → ℕ → Option S → List Self.View → Type 0 };

    // The view of the mark that a slot with this key is made with.
    ghost first: { Self.Key → Self.View };

    /// Whether a word says that threads may sleep beside its slot, by its low half alone, because a thread parks on that half. No
    /// thread sleeps at another word.
    ghost announces: { ℕ → Bool };

    /// Whether a thread with a mark of this view owes a wake to threads that sleep. A thread that sleeps owes a wake from then
    /// on: when it is woken, others may sleep still.
    ghost owes: { Self.View → Bool };

    /// Whether a thread with a mark of this view may sleep.
    ghost may_sleep: { Self.View → Type 0 };
}

/// What a load tells its caller: the view of the caller's mark afterwards, by the word found.
pub trait Tells<W> {
    // Of the view before, the word found and the view after.
    ghost then: { W → ℕ → W → Type 0 };
}

/// What a compare-exchange tells its caller: the view of the caller's mark and the state that is out with it afterwards, by the
/// word found.
pub trait Trades<W, S> {
    // Of the word expected, the word to write, the view and the state that is out before, the word found, and both afterwards.
    ghost then: { ℕ → ℕ → W → Option S → ℕ → W → Option S → Type 0 };
}

/// How the view of a mark is cut in two, for a mark and a new mark.
pub trait Splits<W> {
    // What the mark knows afterwards, of what it knew.
    ghost left: { W → W };

    // What the new mark knows.
    ghost right: { W → W };
}

/// How the views of two marks are made one, for the mark that stays.
pub trait Joins<W> {
    // What the mark knows afterwards, of what it knew and of what the other mark knew.
    ghost both: { W → W → W };

    // What is left of the other mark's view.
    ghost spent: { W };
}

/// The token that a step is made with. A mark knows a view, and has no bytes.
///
/// A mark that is dropped leaves its view among those that the rule speaks of.
pub struct Mark<W> {
    pub(crate) marker: PhantomData<W>,
    /// The slot that the mark is of.
    pub ghost slot: { ℕ },
    /// The mark's place among the marks of that slot.
    pub ghost id: { ℕ },
    /// What the mark knows.
    pub ghost view: { W },
}

impl<W> Model for Mark<W> {
    ghost also_owns = { λ m. mark_owns W.row.coded.code m.slot m.id m.view };
}

impl<W> Mark<W> {
    /// Puts the mark to rest. Does nothing at run time.
    #[inline(always)]
    pub fn rest(self) -> Rest<W>
        ensures { (result.slot ≡ self.slot) × (result.id ≡ self.id) × (result.views ≡ self.view ∷ []) }
    {
        let Self { marker: _ } = self;
        Rest {
            marker: PhantomData,
        }
    }
}

impl<W> Drop for Mark<W> {
    fn drop(self) {
        let Self { marker: _ } = self;
    }
}

unsafe impl<W> Send for Mark<W> {}

unsafe impl<W> Sync for Mark<W> {}
