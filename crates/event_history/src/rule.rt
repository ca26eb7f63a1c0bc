//! What holds between any two steps of any threads, and what each kind of step tells.
ghost use Rattle.std.specs.Prelude.{◌≡◌, ◌==◌, []};
ghost use Rattle.event_history.specs.History.{both_views, machine_from, machine_of, newcomer};
ghost use Rattle.event_history.specs.Rule.{Kept, arrived, awaited, entered, looked, put_awaited, put_back, spent_view, taken, taken_awaited, woke};

use crate::history::{Made, Steps, View};
use event_slot::{Joins, Ruled, Splits, Tells, Trades};
use std::marker::{Brand, PhantomData};

/// The rule of a slot whose word is a lock, and whose state is under that lock. A rule is what holds between any two steps of any
/// threads.
///
/// There is a history that leads from the start to the state. Each hand knows a beginning of the history and all its own calls in
/// it, and each call stands after the calls of its hand that it rests on. The slot has no value beside the word, so a rule has no
/// bytes.
#[derive(Drop)]
pub struct Rule;

impl<S: Steps> Ruled<S> for Rule {
    type View = View<S, S::Call>;

    type Key = S::Start;

    ghost counts = { λ _. 0 };

    ghost holds = { λ start. Kept (machine_of S.Steps start) };

    ghost first = { λ _. newcomer [] };

    ghost announces = { λ word. word == 2 };

    ghost owes = { λ v. v.owes };

    ghost may_sleep = { λ v. v.out ≡ [] };
}

// A new hand looks at the history.
pub(crate) struct Enter;

impl<S, C> Tells<View<S, C>> for Enter {
    ghost then = { entered };
}

// A new hand looks at the history, and takes the state out if it is at home.
pub(crate) struct Arrive;

impl<S, C> Trades<View<S, C>, S> for Arrive {
    ghost then = { arrived };
}

// A hand takes the state out, if it is at home.
pub(crate) struct Take;

impl<S, C> Trades<View<S, C>, S> for Take {
    ghost then = { taken };
}

// A hand that waited takes the state out, if it is at home, and the word says that others may sleep.
pub(crate) struct TakeAwaited;

impl<S, C> Trades<View<S, C>, S> for TakeAwaited {
    ghost then = { taken_awaited };
}

// A hand waits for the state.
pub(crate) struct Await;

impl<S, C> Trades<View<S, C>, S> for Await {
    ghost then = { awaited };
}

// A hand woke a thread that slept.
pub(crate) struct Wake;

impl<S, C> Tells<View<S, C>> for Wake {
    ghost then = { woke };
}

// What held of the state before all calls. The slot has it of its key, which no step can tell, so the caller that makes the step
// picks it.
pub(crate) trait Begins<S> {
    ghost begins: { S → Type 0 };
}

impl<S> Begins<S> for Brand {
    ghost begins = { λ _. ⊥ };
}

// A hand gives the state back, after the call that `K` picks, unless others may sleep.
pub(crate) struct PutBack<S, B, K> {
    of: PhantomData<(S, B, K)>,
}

impl<S: Steps, B: Begins<S>, K: Made<S::Call>> Trades<View<S, S::Call>, S> for PutBack<S, B, K> {
    ghost then = { put_back (machine_from S.Steps B.begins) K.made };
}

// A hand gives the state back, after the call that `K` picks, where others may sleep.
pub(crate) struct PutAwaited<S, B, K> {
    of: PhantomData<(S, B, K)>,
}

impl<S: Steps, B: Begins<S>, K: Made<S::Call>> Trades<View<S, S::Call>, S> for PutAwaited<S, B, K> {
    ghost then = { put_awaited (machine_from S.Steps B.begins) K.made };
}

// A hand looks at the history.
pub(crate) struct Look<S, B> {
    of: PhantomData<(S, B)>,
}

impl<S: Steps, B: Begins<S>> Tells<View<S, S::Call>> for Look<S, B> {
    ghost then = { looked (machine_from S.Steps B.begins) };
}

// A new hand has seen what another hand has seen.
pub(crate) struct Tell;

impl<S, C> Splits<View<S, C>> for Tell {
    ghost left = { λ v. v };

    ghost right = { λ v. newcomer v.seen };
}

// A hand learns what another hand saw and did, and the other hand ends.
pub(crate) struct Absorb;

impl<S, C> Joins<View<S, C>> for Absorb {
    ghost both = { both_views };

    ghost spent = { spent_view };
}
