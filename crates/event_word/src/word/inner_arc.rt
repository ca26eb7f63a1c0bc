//! What a writer without a lifetime lends. A clause names the row of the type that lends, which the file that declares the type
//! can't import: so these functions have a file of their own.
ghost use Rattle.std.specs.Prelude.{◌≡◌};
ghost use types.Logic.{sem};
ghost use denote.Follow.{follows};
ghost use Rattle.event_slot.specs.contracts.exclusive.Exclusive.{the_row as exclusive_row};
ghost use Rattle.event_word.specs.Writer.{writer_arc_with};
ghost use Rattle.event_word.specs.contracts.word.rule.Place.{the_row as place_row};
ghost use Rattle.event_word.specs.contracts.word.writer_arc.WriterArc.{the_row};

use super::kept::Kept;
use super::rule::Place;
use super::writer_arc::WriterArc;
use event_slot::{Exclusive, Inside};

impl<L: Inside<Place<Exclusive<T>>, S>, T, S: Kept> WriterArc<L, T, S> {
    /// Borrows the value.
    #[inline(always)]
    pub fn get(&self) -> &T
        ensures { result.now ≡ self.now.value }
    {
        unsafe { &*(&raw const (*self.slot).value as *const T) }
    }

    // Borrows the place of the value mutably.
    #[inline(always)]
    fn place_mut(&mut self) -> &mut Place<Exclusive<T>>
        ensures* writes_back { sem 𝓛
            (follows (the_row L.row T.row S.row (record { finds = L.finds }) S.Kept)
            (place_row (exclusive_row T.row)) self.entry.ghost_name result.ghost_name (λ place. writer_arc_with self.old place.value)) }
        ensures value { result.now.value ≡ self.old.value }
    {
        unsafe { &mut *(&raw const (*self.slot).value as *mut Place<Exclusive<T>>) }
    }

    /// Borrows the value mutably where it lies.
    #[inline(always)]
    pub fn get_mut(&mut self) -> &mut T
        ensures* writes_back { sem 𝓛
            (follows (the_row L.row T.row S.row (record { finds = L.finds }) S.Kept)
            T.row self.entry.ghost_name result.ghost_name (writer_arc_with self.old)) }
        ensures value { result.now ≡ self.old.value }
    {
        let place = self.place_mut();
        place.value.get_mut()
    }
}
