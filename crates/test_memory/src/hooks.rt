//! Hooks that refuse memory to calls of texts.
use crate::budget::Budget;
use calls::{Hook, Request};

/// What makes calls, always the same, with a hook round each.
pub trait Calls {
    /// Makes the calls, and answers whether all was as it has to be.
    fn make(&self, hook: &mut Refusing) -> bool;
}

/// How far the calls have come, or what happened that must not.
#[derive(Clone, Copy, Debug, PartialEq, Eq)]
pub enum Stage {
    /// The call is still to come, after so many that may ask for memory.
    Before(usize),
    /// The call is made.
    During,
    /// The call was made, and not refused so far.
    Made,
    /// The call was refused memory, and all stood that has to.
    Refused,
    /// The reserve was too small for the budget.
    NoBudget,
    /// A call was refused memory though there was some.
    RefusedWithoutCause,
    /// What has to stand after a refusal did not.
    DoesNotStand(Request),
    /// A call gave another answer than it has to.
    OtherAnswer,
    /// The greatest budget was too small.
    NeverServed,
}

/// What must not happen, during the call after so many that may ask for memory, with so many bytes.
pub type Wrong = (Stage, usize, usize);

/// Refuses one request of calls after another.
#[derive(Drop)]
pub struct Refusing {
    budget: Budget,
    refusals: [usize; 10],
    is_made_again: bool,
    bytes: usize,
    stage: Stage,
}

impl Refusing {
    /// A hook that has refused nothing yet. Each call that it refuses is made again, with memory.
    pub fn new(budget: Budget) -> Self {
        Refusing {
            budget,
            refusals: [0; 10],
            is_made_again: true,
            bytes: 0,
            stage: Stage::Made,
        }
    }

    /// The same hook, but no refused call is made again.
    pub fn for_good(self) -> Self {
        Refusing {
            is_made_again: false,
            ..self
        }
    }

    /// Whether the calls that are made now were refused memory, and all stood that has to.
    pub fn has_refused(&self) -> bool {
        self.stage == Stage::Refused
    }

    /// How often this request was refused.
    pub fn refusals_of(&self, request: Request) -> usize {
        self.refusals.get(request as usize).copied().unwrap_or(0)
    }

    /// Makes the calls again and again, each time with the next request refused, until there are no more. Answers how many
    /// calls may ask for memory.
    pub fn each<C: Calls>(&mut self, calls: &C) -> Result<usize, Wrong> {
        for after in 0..1000 {
            if !self.refuse_during(after, calls)? {
                return Ok(after);
            }
        }
        Ok(1000)
    }

    // Refuses each request of that call, the first by the smallest budget. Answers whether there is such a call.
    fn refuse_during<C: Calls>(&mut self, after: usize, calls: &C) -> Result<bool, Wrong> {
        for bytes in (0..Budget::MOST).step_by(Budget::STEP) {
            self.bytes = bytes;
            self.stage = Stage::Before(after);
            let is_right = calls.make(self);
            match self.stage {
                Stage::Refused if is_right => {}
                Stage::Made if is_right => return Ok(true),
                Stage::Before(_) if is_right => return Ok(false),
                Stage::Refused | Stage::Made | Stage::Before(_) => {
                    return Err((Stage::OtherAnswer, after, bytes));
                }
                wrong => return Err((wrong, after, bytes)),
            }
        }
        Err((Stage::NeverServed, after, Budget::MOST))
    }
}

impl Hook for Refusing {
    fn before(&mut self, request: Option<Request>) {
        if request.is_some() {
            self.stage = match self.stage {
                Stage::Before(0) if self.budget.leave(self.bytes).is_err() => Stage::NoBudget,
                Stage::Before(0) => Stage::During,
                Stage::Before(calls) => Stage::Before(calls.saturating_sub(1)),
                stage => stage,
            };
        }
    }

    fn after(&mut self) {
        if self.stage == Stage::During {
            self.budget.give_back();
            self.stage = Stage::Made;
        }
    }

    fn refused(&mut self, request: Request, stands: bool) -> bool {
        if let Some(refusals) = self.refusals.get_mut(request as usize) {
            *refusals = refusals.wrapping_add(1);
        }
        self.stage = match self.stage {
            Stage::Made if stands => Stage::Refused,
            Stage::Made => Stage::DoesNotStand(request),
            _ => Stage::RefusedWithoutCause,
        };
        self.is_made_again
    }

    fn starve(&mut self) -> bool {
        self.budget.leave(0).is_ok()
    }

    fn feed(&mut self) {
        self.budget.give_back();
    }
}

/// Takes all memory during each call that is to take none, and during those that a text starves.
#[derive(Drop)]
pub struct Starving {
    budget: Budget,
    /// How many calls had no memory.
    pub starved: usize,
    /// How many may have asked for memory, which was there.
    pub served: usize,
}

impl Starving {
    /// A hook that no call has met yet.
    pub fn new(budget: Budget) -> Self {
        Starving {
            budget,
            starved: 0,
            served: 0,
        }
    }
}

impl Hook for Starving {
    fn before(&mut self, request: Option<Request>) {
        match request {
            Some(_) => self.served = self.served.wrapping_add(1),
            None => {
                self.starve();
            }
        }
    }

    fn after(&mut self) {
        self.feed();
    }

    fn starve(&mut self) -> bool {
        let is_taken = self.budget.leave(0).is_ok();
        self.starved = self.starved.wrapping_add(usize::from(is_taken));
        is_taken
    }

    fn feed(&mut self) {
        self.budget.give_back();
    }
}
