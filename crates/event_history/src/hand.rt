//! A caller's right to call.
ghost use Rattle.std.specs.Prelude.{◌≡◌, ◌∷◌, [], false, length, All};

use crate::history::{Steps, View};
use crate::identity::Identity;
use event_slot::{Mark, Rest};
use std::mem;

/// A caller's right to call, of no bytes, on a state of type `S` by calls of type `C`. A hand belongs to one
/// [`Traced`](crate::Traced) state, whose name it has.
///
/// A hand can't be dropped: it ends by [`Hand::end`], or another hand takes it in. So a hand does all that its calls ask for
/// before it ends.
///
/// In clauses `known_by` says what a hand knows, and `IsOf` of which lock the hand is. Between two calls a hand has no state out,
/// and owes nobody a wake, which means that no thread sleeps whom this hand has to wake.
pub struct Hand<S, C> {
    pub mark: Mark<View<S, C>>,
    // No other crate names this field, so no crate takes a hand apart, or puts another mark in the place of this one: a hand that
    // owes something could end as one that made no call.
    identity: Identity,
    ghost idle: { (mark.view.out ≡ []) × (mark.view.spent ≡ false) × (mark.view.owes ≡ false) },
    ghost same_mark: { (mark.slot ≡ identity.slot) × (mark.id ≡ identity.id) },
}

impl<S, C> Hand<S, C> {
    ghost use Rattle.event_history.specs.Hands.{known_by};

    /// Makes a hand of a mark that has no state out, is not spent and owes no wake. Does nothing at run time.
    #[doc(hidden)]
    #[inline(always)]
    pub fn of(mark: Mark<View<S, C>>) -> Hand<S, C>
        requires { (mark.view.out ≡ []) × (mark.view.spent ≡ false) × (mark.view.owes ≡ false) }
        ensures { result.mark ≡ mark }
    {
        let identity = Identity::of_mark(&mark);
        Hand { mark, identity }
    }

    // Returns the mark alone.
    #[inline(always)]
    pub(crate) fn into_mark(self) -> Mark<View<S, C>>
        ensures { result ≡ self.mark }
    {
        let Hand { mark, identity: _ } = self;
        mark
    }

    /// Puts the hand to rest, so that threads may share it or a listener may keep it. Does nothing at run time.
    #[inline(always)]
    pub fn rest(self) -> IdleHand<S, C>
        ensures { (result.rest.slot ≡ self.mark.slot) × (result.rest.views ≡ known_by self ∷ []) }
    {
        let rest = self.into_mark().rest();
        let identity = Identity::of_rest(&rest);
        IdleHand { rest, identity }
    }
}

impl<S: Steps> Hand<S, S::Call> {
    ghost use Rattle.event_history.specs.Hands.{known_by};

    /// Ends the hand, once it has made all calls that its earlier calls ask for.
    ///
    /// A hand of a queue may end once each listener that it inserted was taken out by another of its calls. Does nothing at run
    /// time.
    #[inline(always)]
    pub fn end(self)
        requires { S.may_end (known_by self).mine }
    {
        drop(self.into_mark());
    }
}

/// A hand while it makes no call, or the empty place of a hand that was taken out, of no bytes. A listener keeps its hand so. An
/// idle hand can't be dropped either.
///
/// `rest.views` is what the hand knows: a list of one, which is empty while the hand is out.
pub struct IdleHand<S, C> {
    pub rest: Rest<View<S, C>>,
    // No other crate names this field, so no crate puts another hand in the place of this one.
    identity: Identity,
    ghost idle: { All (λ v. (v.out ≡ []) × (v.spent ≡ false) × (v.owes ≡ false)) rest.views },
    ghost same_hand: { (rest.slot ≡ identity.slot) × (rest.id ≡ identity.id)
        × (length rest.views ≡ identity.hands) },
}

impl<S, C> IdleHand<S, C> {
    ghost use Rattle.event_history.specs.Hands.{IsOf, known_by};

    /// Takes the hand out of its place, for a call, and leaves the place empty. Requires that a hand is there.
    #[inline(always)]
    pub fn take(&mut self) -> Hand<S, C>
        requires { (v : View S C) × (self.old.rest.views ≡ v ∷ []) }
        ensures hand { IsOf self.old.rest.slot result
            × (self.old.rest.views ≡ known_by result ∷ []) }
        ensures left { self.new.rest.views ≡ [] }
    {
        let rest = mem::replace(&mut self.rest, Rest::empty());
        self.identity = Identity::of_rest(&self.rest);
        Hand::of(rest.into_mark())
    }

    /// Puts a hand into the empty place, after a call.
    #[inline(always)]
    pub fn put(&mut self, hand: Hand<S, C>)
        requires { self.old.rest.views ≡ [] }
        ensures { (self.new.rest.slot ≡ hand.mark.slot)
            × (self.new.rest.views ≡ known_by hand ∷ []) }
    {
        self.rest = hand.into_mark().rest();
        self.identity = Identity::of_rest(&self.rest);
    }

    /// Returns the hand that rests here. Requires that a hand is there.
    #[inline(always)]
    pub fn into_hand(self) -> Hand<S, C>
        requires { (v : View S C) × (self.rest.views ≡ v ∷ []) }
        ensures { IsOf self.rest.slot result × (self.rest.views ≡ known_by result ∷ []) }
    {
        let IdleHand { rest, identity: _ } = self;
        Hand::of(rest.into_mark())
    }
}
