//! What holds of a lock's word and state between any two steps of any threads, and what each kind of step tells.
ghost use Rattle.std.specs.Prelude.{◌≡◌, None};
ghost use Rattle.event_word.specs.Word.{Holds, announces, changed, counts_of, entered, looked, moved, nothing, owes, put, seen_again, slept, took, woke};

use super::kept::Kept;
use event_slot::{Ruled, Tells, Trades};
use std::marker::PhantomData;

/// What a seat knows.
///
/// While a seat has the state out, it knows the number that it saw or left last. While it has not, it knows whether it owes a
/// wake to threads that sleep.
pub struct View {
    pub number: Option<u64>,
    pub owes: bool,
}

/// The value of a lock, where it lies.
#[derive(Drop)]
pub struct Place<V> {
    pub value: V,
}

impl<S: Kept, V> Ruled<S> for Place<V> {
    type View = View;

    type Key = ();

    ghost counts = { counts_of S.rules };

    ghost holds = { λ _. Holds S.rules };

    ghost first = { λ _. nothing };

    ghost announces = { announces };

    ghost owes = { owes };

    ghost may_sleep = { λ v. v.number ≡ None };
}

// A new seat.
pub struct Enter<S> {
    of: PhantomData<S>,
}

impl<S: Kept> Tells<View> for Enter<S> {
    ghost then = { entered S.rules };
}

// A seat that has not the state out looks at the word.
pub struct Look<S> {
    of: PhantomData<S>,
}

impl<S: Kept> Tells<View> for Look<S> {
    ghost then = { looked S.rules };
}

// A seat that has the state out looks at the word.
pub struct LookAgain<S> {
    of: PhantomData<S>,
}

impl<S: Kept> Tells<View> for LookAgain<S> {
    ghost then = { seen_again S.rules };
}

// A seat looks at the word, and its thread sleeps maybe.
pub struct Sleep<S> {
    of: PhantomData<S>,
}

impl<S: Kept> Tells<View> for Sleep<S> {
    ghost then = { slept S.rules };
}

// A seat woke a thread that slept.
pub struct Wake;

impl Tells<View> for Wake {
    ghost then = { woke };
}

// The number changes.
pub struct Change;

impl<S: Kept> Trades<View, S> for Change {
    ghost then = { changed S.rules };
}

// The state is taken out.
pub struct Take;

impl<S: Kept> Trades<View, S> for Take {
    ghost then = { took S.rules };
}

// The number changes while the state is out with this seat.
pub struct Move;

impl<S> Trades<View, S> for Move {
    ghost then = { moved };
}

// The state is put back.
pub struct Put;

impl<S> Trades<View, S> for Put {
    ghost then = { put };
}
