//! What a writer lends. A clause names the row of the type that lends, which the file that declares the type can't import: so these
//! functions have a file of their own.
ghost use Rattle.std.specs.Prelude.{◌≡◌, []};
ghost use mir.Syntax.{named};
ghost use types.Logic.{sem};
ghost use denote.Follow.{follows};
ghost use Rattle.event_slot.specs.contracts.exclusive.Exclusive.{the_row as exclusive_row};
ghost use Rattle.event_word.specs.Writer.{writer_with};
ghost use Rattle.event_word.specs.contracts.word.rule.Place.{the_row as place_row};
ghost use Rattle.event_word.specs.contracts.word.writer.Writer.{the_row};

use super::kept::Kept;
use super::rule::Place;
use super::writer::Writer;
use event_slot::{Exclusive, Ties};

impl<'a, T, S: Kept, L: Ties> Writer<'a, T, S, L> {
    /// Borrows the value.
    #[inline(always)]
    pub fn get(&self) -> &T
        ensures { result.now ≡ self.now.value }
    {
        unsafe { &*(&raw const (*self.slot).value as *const T) }
    }

    /// Borrows what belongs to the right.
    #[inline(always)]
    pub fn beside(&self) -> &L
        ensures { result.now ≡ self.now.beside }
    {
        &self.beside
    }

    // Borrows the place of the value mutably.
    #[inline(always)]
    fn place_mut(&mut self) -> &mut Place<Exclusive<T>>
        ensures* writes_back { sem 𝓛
            (follows (the_row (record { mir = named 1; lft = [] }) T.row S.row L.row S.Kept L.Ties)
            (place_row (exclusive_row T.row)) self.entry.ghost_name result.ghost_name (λ place. writer_with self.old place.value)) }
        ensures value { result.now.value ≡ self.old.value }
    {
        unsafe { &mut *(&raw const (*self.slot).value as *mut Place<Exclusive<T>>) }
    }

    /// Borrows the value mutably where it lies.
    #[inline(always)]
    pub fn get_mut(&mut self) -> &mut T
        ensures* writes_back { sem 𝓛
            (follows (the_row (record { mir = named 1; lft = [] }) T.row S.row L.row S.Kept L.Ties)
            T.row self.entry.ghost_name result.ghost_name (writer_with self.old)) }
        ensures value { result.now ≡ self.old.value }
    {
        let place = self.place_mut();
        place.value.get_mut()
    }
}
