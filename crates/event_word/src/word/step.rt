//! Steps on the number of a word.
ghost use Rattle.std.specs.Prelude.{◌≡◌, ◌%◌, ⊤, None, Some, IfErr, IfOk, IfSome, MatchOption};
ghost use Rattle.event_word.specs.Held.{HasState, IsOf};
ghost use Rattle.event_word.specs.Word.{Changes, Stays, Takes, nothing, number_of};

use super::held::Held;
use super::kept::Kept;
use super::origin::Origin;
use super::rule::{Change, Move};
use super::{Seat, Word};

/// A step that changed the word of a lock, with the word before and after it. Only the calls that make such a step make one.
#[derive(Drop)]
pub struct Step {
    from: u64,
    to: u64,
    origin: Origin,
}

impl Step {
    #[inline(always)]
    pub(crate) fn into_origin(self) -> Origin
        ensures { result ≡ self.origin }
    {
        let Step {
            from: _,
            to: _,
            origin,
        } = self;
        origin
    }
}

impl<S: Kept, V> Word<S, V> {
    /// Changes the number from `seen` to `new` where no waiter has to be notified, and returns the step.
    ///
    /// Returns `None`, and changes nothing, if the word was not `seen` any more. The call costs one compare-exchange.
    #[inline(always)]
    #[tactic(auto, using(crate::proofs::WordKeeps::changes, crate::proofs::WordKeeps::due_changes, crate::proofs::WordKeeps::stays_may, crate::proofs::WordKeeps::stays_none))]
    pub fn change(&self, seat: &mut Seat, seen: u64, new: u64) -> Option<Step>
        requires seat { seat.old.slot ≡ self.now.slot.name }
        requires changes { Changes S.rules seen new × Stays S.rules seen new }
        ensures seat { (seat.new.slot ≡ seat.old.slot) × (seat.new.view ≡ seat.old.view) }
        ensures step { IfSome result (λ made. (made.from ≡ seen) × (made.to ≡ new)
            × (made.origin.name ≡ self.now.slot.name)) }
    {
        let (found, claim) = self.slot.claim().exchange::<Change>(seat, seen, new);
        claim.done();
        if found != seen {
            return None;
        }
        Some(Step {
            from: seen,
            to: new,
            origin: Origin::of(seat),
        })
    }

    /// Takes the state out, which is at home, changes the number by the same step, and returns the step and the state.
    ///
    /// Returns the seat as an error, and changes nothing, if the word was not `seen` any more. The call costs one
    /// compare-exchange.
    #[tactic(auto, using(crate::proofs::WordKeeps::due_none))]
    pub fn try_take(&self, seat: Seat, seen: u64, new: u64) -> Result<(Step, Held<'_, S, V>), Seat>
        requires seat { (seat.slot ≡ self.now.slot.name) × (seat.view ≡ nothing) }
        requires home { seen % 2 ≡ 0 }
        requires takes { Takes S.rules seen new × Stays S.rules seen new }
        ensures ok { IfOk result (λ taken. IsOf self.now.slot.name taken.1
            × HasState (λ n q. (n ≡ number_of new) × S.rules.stands (number_of seen) q) taken.1) }
        ensures step { IfOk result (λ taken. (taken.0.from ≡ seen) × (taken.0.to ≡ new)
            × (taken.0.origin.name ≡ self.now.slot.name)) }
        ensures err { IfErr result (λ again. (again.slot ≡ seat.slot) × (again.view ≡ seat.view)) }
    {
        let held = self.take_step(seat, seen, new)?;
        let step = Step {
            from: seen,
            to: new,
            origin: Origin::of(&held.seat),
        };
        Ok((step, held))
    }
}

impl<S: Kept, V> Held<'_, S, V> {
    /// Changes the number while the state is out, and returns the step.
    ///
    /// The thread that has the state out notifies waiters of the new number later. Returns `None`, and changes nothing, if the
    /// word was not `seen` any more.
    #[inline(always)]
    pub fn change(&mut self, seen: u64, new: u64) -> Option<Step>
        requires state { HasState (λ _ _. ⊤) self.old }
        requires takes { Takes S.rules seen new × Stays S.rules seen new }
        requires code { new % 4 ≡ seen % 4 }
        ensures of { self.new.word ≡ self.old.word }
        ensures state { self.new.claim.state ≡ self.old.claim.state }
        ensures changes { MatchOption result (self.new.seat.view ≡ self.old.seat.view)
            (λ made. self.new.seat.view.number ≡ Some (number_of new)) }
        ensures step { IfSome result (λ made. (made.from ≡ seen) × (made.to ≡ new)
            × (made.origin.name ≡ self.old.word.now.slot.name)) }
    {
        let (found, claim) = self
            .word
            .slot
            .claim()
            .exchange::<Move>(&mut self.seat, seen, new);
        claim.done();
        if found != seen {
            return None;
        }
        Some(Step {
            from: seen,
            to: new,
            origin: Origin::of(&self.seat),
        })
    }
}
