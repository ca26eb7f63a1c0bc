//! What is lent to be changed. A clause names the row of the type that lends, which the file that declares the type can't import:
//! so these functions have a file of their own.
ghost use Rattle.std.specs.Prelude.{◌≡◌, [], None, Some, IsSome};
ghost use mir.Syntax.{named};
ghost use types.Logic.{sem};
ghost use denote.Follow.{follows};
ghost use Rattle.event_slot.specs.contracts.slot.Slot.{the_row as slot_row};
ghost use Rattle.event_slot.specs.contracts.exclusive.Exclusive.{the_row as exclusive_row};
ghost use Rattle.event_slot.specs.contracts.claim.Claim.{the_row as claim_row};
ghost use Rattle.event_slot.specs.contracts.writing.Writing.{the_row};
ghost use Rattle.event_slot.specs.contracts.tied.Tied.{the_row as tied_row};
ghost use Rattle.event_slot.specs.contracts.owned.Owned.{the_row as owned_row};
ghost use Rattle.event_slot.specs.Lent.{claim_with, writing_with, tied_with, owned_with, owned_with_state};

use crate::claim::Claim;
use crate::exclusive::Exclusive;
use crate::owned::Owned;
use crate::rule::Ruled;
use crate::slot::Slot;
use crate::tied::{Tied, Ties};
use crate::writing::Writing;
use std::alloc::Allocator;

impl<X: Ruled<S>, S> Slot<X, S> {
    /// Borrows the value mutably where it lies. No thread shares the slot, as the `&mut` says; the slot keeps its name and key.
    pub fn get_mut(&mut self) -> &mut X
        ensures* writes_back { sem 𝓛
            (follows (slot_row X.row S.row X.View.row X.Key.row
            (record { counts = X.counts; holds = X.holds; first = X.first; announces = X.announces; owes = X.owes; may_sleep = X.may_sleep })) X.row self.entry.ghost_name result.ghost_name (λ _. self.old)) }
    {
        &mut self.value
    }
}

impl<T> Exclusive<T> {
    /// Borrows the value mutably where it lies.
    #[inline(always)]
    pub fn get_mut(&mut self) -> &mut T
        ensures* writes_back { sem 𝓛
            (follows (exclusive_row T.row) T.row self.entry.ghost_name result.ghost_name (λ w. w)) }
        ensures value { result.now ≡ self.old }
    {
        &mut self.value
    }
}

impl<'a, X: Ruled<S>, S> Claim<'a, X, S> {
    /// Borrows the state mutably where it lies, if the state is out with this claim.
    pub fn state_mut(&mut self) -> &mut S
        requires { IsSome self.old.state }
        ensures* writes_back { sem 𝓛
            (follows (claim_row (record { mir = named 1; lft = [] }) X.row S.row X.View.row X.Key.row
            (record { counts = X.counts; holds = X.holds; first = X.first; announces = X.announces; owes = X.owes; may_sleep = X.may_sleep })) S.row self.entry.ghost_name result.ghost_name (claim_with self.old)) }
        ensures state { Some result.now ≡ self.old.state }
    {
        unsafe { &mut *(&raw const (*self.slot).state as *mut S) }
    }
}

impl<'a, X: Ruled<S>, S> Writing<'a, X, S> {
    /// Borrows the value.
    pub fn get(&self) -> &X
        ensures { result.now ≡ self.now.value }
    {
        unsafe { &(*self.slot).value }
    }

    /// Borrows the value mutably where it lies.
    pub fn get_mut(&mut self) -> &mut X
        ensures* writes_back { sem 𝓛
            (follows (the_row (record { mir = named 1; lft = [] }) X.row S.row X.View.row X.Key.row
            (record { counts = X.counts; holds = X.holds; first = X.first; announces = X.announces; owes = X.owes; may_sleep = X.may_sleep })) X.row self.entry.ghost_name result.ghost_name (writing_with self.old)) }
        ensures value { result.now ≡ self.old.value }
    {
        unsafe { &mut *(&raw const (*self.slot).value as *mut X) }
    }
}

impl<'a, X: Ruled<S>, S, L: Ties> Tied<'a, X, S, L> {
    /// Borrows the value.
    pub fn get(&self) -> &X
        ensures { result.now ≡ self.now.value }
    {
        unsafe { &(*self.slot).value }
    }

    /// Borrows the value mutably where it lies.
    pub fn get_mut(&mut self) -> &mut X
        ensures* writes_back { sem 𝓛
            (follows (tied_row (record { mir = named 1; lft = [] }) X.row S.row L.row X.View.row X.Key.row
            (record { counts = X.counts; holds = X.holds; first = X.first; announces = X.announces; owes = X.owes; may_sleep = X.may_sleep })
            (record { ties = L.ties })) X.row self.entry.ghost_name result.ghost_name
            (tied_with self.old)) }
        ensures value { result.now ≡ self.old.value }
    {
        unsafe { &mut *(&raw const (*self.slot).value as *mut X) }
    }
}

impl<T, X: Ruled<S>, S, A: Allocator> Owned<T, X, S, A> {
    /// Borrows the value, for a reader.
    pub fn get(&self) -> &X
        requires { self.now.right ≡ 1 }
        ensures { Some result.now ≡ self.now.value }
    {
        unsafe { &(*self.slot).value }
    }

    /// Borrows the value, for its writer.
    pub fn written(&self) -> &X
        requires { (self.now.right ≡ 2) × (self.now.state ≡ None) }
        ensures { Some result.now ≡ self.now.value }
    {
        unsafe { &(*self.slot).value }
    }

    /// Borrows the value mutably where it lies, for its writer.
    pub fn get_mut(&mut self) -> &mut X
        requires { (self.old.right ≡ 2) × (self.old.state ≡ None) }
        ensures* writes_back { sem 𝓛
            (follows (owned_row T.row X.row S.row A.row X.View.row X.Key.row
            (record { counts = X.counts; holds = X.holds; first = X.first; announces = X.announces; owes = X.owes; may_sleep = X.may_sleep }) A.Allocator) X.row self.entry.ghost_name result.ghost_name (owned_with self.old)) }
        ensures value { Some result.now ≡ self.old.value }
    {
        unsafe { &mut *(&raw const (*self.slot).value as *mut X) }
    }

    /// Borrows the state mutably where it lies, if the state is out with this claim.
    pub fn state_mut(&mut self) -> &mut S
        requires { IsSome self.old.state }
        ensures* writes_back { sem 𝓛
            (follows (owned_row T.row X.row S.row A.row X.View.row X.Key.row
            (record { counts = X.counts; holds = X.holds; first = X.first; announces = X.announces; owes = X.owes; may_sleep = X.may_sleep }) A.Allocator) S.row self.entry.ghost_name result.ghost_name (owned_with_state self.old)) }
        ensures state { Some result.now ≡ self.old.state }
    {
        unsafe { &mut *(&raw const (*self.slot).state as *mut S) }
    }
}
