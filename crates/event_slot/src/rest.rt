//! A mark while no step is made with it.
ghost use Rattle.std.specs.Prelude.{◌≡◌, ℕ, List, [], ◌∷◌};
ghost use Rattle.std.specs.Coded.{coded_list};
ghost use Rattle.event_slot.specs.Holding.{rest_owns};

use crate::rule::Mark;
use std::marker::{Model, PhantomData};

/// A mark at rest, or the empty place of a mark that was taken out. A rest has no bytes; an `Option` of a mark would have some.
pub struct Rest<W> {
    pub(crate) marker: PhantomData<W>,
    /// The slot that the mark is of.
    pub ghost slot: { ℕ },
    /// The mark's place among the marks of that slot.
    pub ghost id: { ℕ },
    /// What the mark knows: a list of one, which is empty while the mark is out.
    pub ghost views: { List W } by { coded_list W.code },
}

impl<W> Model for Rest<W> {
    ghost also_owns = { λ r. rest_owns W.row.coded.code r.slot r.id r.views };
}

impl<W> Rest<W> {
    /// Makes the empty place of a mark that is out. Does nothing at run time.
    #[inline(always)]
    pub fn empty() -> Rest<W>
        ensures { result.views ≡ [] }
    {
        Rest {
            marker: PhantomData,
        }
    }

    /// Returns the mark that rests here. Requires that a mark is there. Does nothing at run time.
    #[inline(always)]
    pub fn into_mark(self) -> Mark<W>
        requires { (w : W) × (self.views ≡ w ∷ []) }
        ensures { (result.slot ≡ self.slot) × (result.id ≡ self.id) × (self.views ≡ result.view ∷ []) }
    {
        let Self { marker: _ } = self;
        Mark {
            marker: PhantomData,
        }
    }
}

impl<W> Drop for Rest<W> {
    fn drop(self) {
        let Self { marker: _ } = self;
    }
}

unsafe impl<W> Send for Rest<W> {}

unsafe impl<W> Sync for Rest<W> {}
