//! What a history is made of. No value of these types is made when a program runs.
ghost use Rattle.std.specs.Prelude.{List, []};

use std::collections::LinkedList;
use std::marker::Brand;

/// A type of states, with what each call does to a state.
pub trait Steps {
    /// A call, with what was asked and what was replied.
    type Call;

    /// What is given of the state before all calls, and known from then on; `()` if nothing is given.
    type Start;

    // What holds of the state before all calls, by what was given of it.
    ghost starts: { Self.Start → Self → Type 0 };

    // From which state a call leads to which state.
    ghost goes: { Self → Self.Call → Self → Type 0 };

    // On which earlier calls of the same hand a call rests: the hand has to have made these. By default on none.
    ghost rests: { Self.Call → List Self.Call } = { λ _. [] };

    // Whether a hand that made these calls may end. By default it may.
    ghost may_end: { List Self.Call → Type 0 } = { λ _. Unit {0} };
}

/// What is said of the call that was made while the state was out. The thread that gives the state back picks it.
pub trait Made<C> {
    ghost made: { C → Type 0 };
}

impl<C> Made<C> for Brand {
    ghost made = { λ _. ⊥ };
}

/// What is said of the call that a step is, by its answer. The caller that makes the step picks it, and may speak of all that the
/// step is given.
pub trait Named<A, C> {
    ghost named: { A → C → Type 0 };
}

impl<A, C> Named<A, C> for Brand {
    ghost named = { λ _ _. ⊥ };
}

/// A call of the history, and the number of the hand that made it.
pub struct Entry<C> {
    pub by: u64,
    pub call: C,
}

/// What is known of a hand that another hand took in: its number if it made a call, what it had seen, and its calls.
pub struct Met<C> {
    pub by: LinkedList<u64>,
    pub seen: LinkedList<Entry<C>>,
    pub mine: LinkedList<C>,
}

/// What a hand knows, and what it owes.
///
/// A hand knows its number once it made a call, the history that it has seen, its own calls in that history, the state that it
/// took out, the hands that it took in, and whether another hand took it in. A hand may owe others a wake: threads may sleep
/// until the state is given back, and the word of the lock may not say so.
pub struct View<S, C> {
    pub by: LinkedList<u64>,
    pub seen: LinkedList<Entry<C>>,
    pub mine: LinkedList<C>,
    pub out: LinkedList<S>,
    pub met: LinkedList<Met<C>>,
    pub spent: bool,
    pub owes: bool,
}
