//! Steps on the number of a word by a thread that has, gets or gives up a right to the value.
ghost use Rattle.std.specs.Prelude.{◌≡◌, ◌≢◌, ◌%◌, ⊤, None, Some, false, true, IfErr, IfOk};
ghost use Rattle.event_slot.specs.Ruling.{Becomes, MayTurn};
ghost use Rattle.event_word.specs.Held.{HasState, IsOf};
ghost use Rattle.event_word.specs.Word.{Changes, Passes, Shows, Takes, counts_of, nothing, number_of};

use super::held::Held;
use super::kept::Kept;
use super::rule::{Change, Move, Place, Take};
use super::{Seat, Word};
use event_slot::Claim;

impl<S: Kept, V> Word<S, V> {
    // Changes the word, if it is as it was seen, and no waiter has to be notified. Returns the word as it was, and the claim then.
    #[inline(always)]
    #[tactic(auto, using(crate::proofs::WordKeeps::changes, crate::proofs::WordKeeps::due_changes))]
    pub(crate) fn turn<'a>(
        &self,
        claim: Claim<'a, Place<V>, S>,
        seat: &mut Seat,
        seen: u64,
        new: u64,
    ) -> (u64, Claim<'a, Place<V>, S>)
        requires own { (claim.name ≡ self.now.slot.name) × (claim.state ≡ None)
            × (seat.old.slot ≡ self.now.slot.name) }
        requires may { MayTurn claim.right (counts_of S.rules seen) (counts_of S.rules new) }
        requires changes { Changes S.rules seen new }
        ensures own { (result.1.name ≡ self.now.slot.name) × (result.1.state ≡ None) }
        ensures seat { (seat.new.slot ≡ seat.old.slot) × (seat.new.view ≡ seat.old.view) }
        ensures made { result.0 ≡ seen → Becomes claim.entry.right (counts_of S.rules seen)
            (counts_of S.rules new) result.1.right }
        ensures stays { result.0 ≢ seen → result.1.right ≡ claim.entry.right }
        ensures shows { Shows S.rules claim.entry.right result.0 }
    {
        claim.exchange::<Change>(seat, seen, new)
    }

    // Changes the word as `turn` does, by a step that makes a seat.
    #[inline(always)]
    #[tactic(auto, using(crate::proofs::WordKeeps::comes, crate::proofs::WordKeeps::due_changes))]
    pub(crate) fn turn_at<'a>(
        &self,
        claim: Claim<'a, Place<V>, S>,
        expected: u64,
        new: u64,
    ) -> (u64, Claim<'a, Place<V>, S>, Seat)
        requires own { (claim.name ≡ self.now.slot.name) × (claim.state ≡ None) }
        requires may { MayTurn claim.right (counts_of S.rules expected) (counts_of S.rules new) }
        requires changes { Changes S.rules expected new }
        ensures own { (result.1.name ≡ self.now.slot.name) × (result.1.state ≡ None) }
        ensures seat { (result.2.slot ≡ self.now.slot.name) × (result.2.view ≡ nothing) }
        ensures made { result.0 ≡ expected → Becomes claim.entry.right (counts_of S.rules expected)
            (counts_of S.rules new) result.1.right }
        ensures stays { result.0 ≢ expected → result.1.right ≡ claim.entry.right }
        ensures shows { Shows S.rules claim.entry.right result.0 }
    {
        claim.arrive::<Change>(expected, new)
    }

    // Changes the word as `turn` does, by a step that takes the state out where it is at home, and with which the right ends. An
    // error has the claim, the seat and the word where that was another.
    #[tactic(auto, using(crate::proofs::WordKeeps::takes_out, crate::proofs::WordKeeps::due_takes_none))]
    pub(crate) fn turn_out<'a>(
        &'a self,
        claim: Claim<'a, Place<V>, S>,
        seat: Seat,
        seen: u64,
        new: u64,
    ) -> Result<Held<'a, S, V>, (Claim<'a, Place<V>, S>, Seat, u64)>
        requires own { (claim.name ≡ self.now.slot.name) × (claim.state ≡ None) }
        requires seat { (seat.slot ≡ self.now.slot.name) × (seat.view ≡ nothing) }
        requires home { seen % 2 ≡ 0 }
        requires takes { Takes S.rules seen new × Passes S.rules claim.right 0 seen new }
        ensures ok { IfOk result (λ held. IsOf self.now.slot.name held
            × HasState (λ n q. (n ≡ number_of new) × S.rules.stands (number_of seen) q) held) }
        ensures err { IfErr result (λ again. (again.0.name ≡ self.now.slot.name)
            × (again.0.right ≡ claim.entry.right) × (again.0.state ≡ None)
            × (again.1.slot ≡ seat.slot) × (again.1.view ≡ seat.view)
            × Shows S.rules claim.entry.right again.2) }
    {
        let mut seat = seat;
        let (found, claim) = claim.exchange::<Take>(&mut seat, seen, new);
        if found == seen {
            return Ok(Held {
                word: self,
                claim,
                seat,
            });
        }
        Err((claim, seat, found))
    }
}

impl<S: Kept, V> Held<'_, S, V> {
    // Changes the word as `Word::turn` does while the state is out, and stays so.
    pub(crate) fn turn<'b>(
        &mut self,
        claim: Claim<'b, Place<V>, S>,
        seen: u64,
        new: u64,
    ) -> (bool, Claim<'b, Place<V>, S>)
        requires state { HasState (λ _ _. ⊤) self.old }
        requires takes { Takes S.rules seen new }
        requires code { new % 4 ≡ seen % 4 }
        requires own { (claim.name ≡ self.old.word.now.slot.name) × (claim.state ≡ None) }
        requires may { MayTurn claim.right (counts_of S.rules seen) (counts_of S.rules new) }
        ensures of { self.new.word ≡ self.old.word }
        ensures state { self.new.claim.state ≡ self.old.claim.state }
        ensures own { (result.1.name ≡ self.old.word.now.slot.name) × (result.1.state ≡ None) }
        ensures made { result.0 ≡ true → Becomes claim.entry.right (counts_of S.rules seen)
            (counts_of S.rules new) result.1.right
            × (self.new.seat.view.number ≡ Some (number_of new)) }
        ensures stays { result.0 ≡ false → (result.1.right ≡ claim.entry.right)
            × (self.new.seat.view ≡ self.old.seat.view) }
    {
        let (found, claim) = claim.exchange::<Move>(&mut self.seat, seen, new);
        (found == seen, claim)
    }
}
