//! The rule: whoever knows that the lock is closed is right, and the word shows whether the tally is at home, and what it is.
ghost use Rattle.std.specs.Prelude.{⊤, false, true};
ghost use Rattle.test_slot.specs.Closed.{Right, Stay, Look, Close, TakesOut, PutsBack, both, nothing};

use event_slot::{Joins, Ruled, Splits, Tells, Trades};

/// What a mark knows. No value of it is made.
pub struct View {
    pub closed: bool,
}

/// The value of a lock, as it lies there.
#[derive(Drop)]
pub struct Held<T> {
    pub value: T,
}

/// What lies behind the value, and is out with who counts.
#[derive(Drop)]
pub struct Tally {
    pub count: u64,
}

impl<T> Ruled<Tally> for Held<T> {
    type View = View;

    type Key = ();

    ghost counts = { λ n. n };

    ghost holds = { λ _. Right };

    ghost first = { λ _. record { closed = false } };

    // A thread may sleep at any word: whoever gives the value back wakes all, which no clause says.
    ghost announces = { λ _. true };

    ghost owes = { λ _. true };

    ghost may_sleep = { λ _. ⊤ };
}

/// A step that tells nothing, and neither takes the tally nor puts it back.
pub struct Stays;

impl Trades<View, Tally> for Stays {
    ghost then = { Stay };
}

/// A load that finds the lock closed, if the mark knew that it is.
pub struct Looks;

impl Tells<View> for Looks {
    ghost then = { Look };
}

/// A step after which the mark knows that the lock is closed.
pub struct Closes;

impl Trades<View, Tally> for Closes {
    ghost then = { Close };
}

/// A step that takes the tally out, which is what the word showed.
pub struct Takes;

impl Trades<View, Tally> for Takes {
    ghost then = { TakesOut };
}

/// A step that puts the tally back.
pub struct Puts;

impl Trades<View, Tally> for Puts {
    ghost then = { PutsBack };
}

/// Another mark knows as much as this one.
pub struct Copies;

impl Splits<View> for Copies {
    ghost left = { λ v. v };

    ghost right = { λ v. v };
}

/// What either of two marks knows.
pub struct Adds;

impl Joins<View> for Adds {
    ghost both = { both };

    ghost spent = { nothing };
}
