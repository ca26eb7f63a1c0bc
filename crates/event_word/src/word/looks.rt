//! Looking at the word with the state out.
ghost use Rattle.std.specs.Prelude.{◌≡◌, ◌%◌, ⊤, Some};
ghost use Rattle.event_word.specs.Held.{HasState};
ghost use Rattle.event_word.specs.Word.{EasesFrom, Shows, number_of};

use super::Word;
use super::held::Held;
use super::kept::Kept;
use super::rule::{LookAgain, Place};
use event_slot::Claim;

impl<S: Kept, V> Held<'_, S, V> {
    /// Returns the word as it is while the state is out, and remembers its number.
    ///
    /// What was promised of any state at the number remembered before is so at the number now. The call costs one load.
    #[inline(always)]
    pub fn look(&mut self) -> u64
        requires state { HasState (λ _ _. ⊤) self.old }
        ensures of { self.new.word ≡ self.old.word }
        ensures same { self.new.seat.id ≡ self.old.seat.id }
        ensures state { (self.new.claim.state ≡ self.old.claim.state)
            × (self.new.seat.view.number ≡ Some (number_of result)) }
        ensures word { (result % 2 ≡ 1) × S.rules.fits (number_of result) }
        ensures eases { EasesFrom S.rules self.old.seat.view.number (number_of result) }
    {
        self.word.slot.load::<LookAgain<S>>(&mut self.seat)
    }

    // Looks as `look` does, by a thread that may have a right to the value, which the word shows.
    #[inline(always)]
    pub(crate) fn look_as<'b>(
        &mut self,
        claim: Claim<'b, Place<V>, S>,
    ) -> (u64, Claim<'b, Place<V>, S>)
        requires state { HasState (λ _ _. ⊤) self.old }
        requires own { claim.name ≡ self.old.word.now.slot.name }
        ensures of { self.new.word ≡ self.old.word }
        ensures state { (self.new.claim.state ≡ self.old.claim.state)
            × (self.new.seat.view.number ≡ Some (number_of result.0)) }
        ensures word { (result.0 % 2 ≡ 1) × Shows S.rules claim.entry.right result.0 }
        ensures eases { EasesFrom S.rules self.old.seat.view.number (number_of result.0) }
        ensures own { (result.1.name ≡ self.old.word.now.slot.name)
            × (result.1.right ≡ claim.entry.right) × (result.1.state ≡ claim.entry.state) }
    {
        claim.load::<LookAgain<S>>(&mut self.seat)
    }
}
