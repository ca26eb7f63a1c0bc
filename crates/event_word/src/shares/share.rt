//! The rights to read and to write.
ghost use Rattle.std.specs.Prelude.{◌≡◌, None, Some};
ghost use Rattle.event_word.specs.Held.{placed};

use super::queues::Queues;
use super::reading::Reading;
use super::right::Right;
use super::writing::Writing;
use crate::word::{Held, Origin, Place, Seat};
use event_slot::{Claim, Writing as Writes};
use event_wait::Task;
use std::marker::{Model, PhantomData};

/// A right to the value of a lock where it lies, which the number counts.
///
/// The type is not `Drop`: a holder ends the right by [`Word::end`](crate::Word::end).
pub struct Grant<'a, K: Right<Task>, V> {
    pub(crate) claim: Claim<'a, Place<V>, Queues<Task>>,
    of: PhantomData<K>,
    ghost right: { (claim.right ≡ K.RIGHT) × (claim.state ≡ None) },
}

/// A right that the number counts, of a parked holder, which has the value, and no right to it where it lies.
///
/// The type has no lifetime and no bytes, and is not `Drop`; only parking makes one. A contract sees of which word it is.
pub struct Share<K> {
    origin: Origin,
    of: PhantomData<K>,
}

impl<K> Model for Share<K> {
    ghost use Rattle.std.specs.Prelude.{ℕ};

    ghost Value = { ℕ };

    ghost view = { λ share. share.origin.name };
}

/// The queues of a read-write lock, out with one thread.
pub type Out<'a, V> = Held<'a, Queues<Task>, V>;

impl<K> Share<K> {
    #[inline(always)]
    pub(crate) fn new(seat: &Seat) -> Self
        ensures { result ≡ seat.now.slot }
    {
        Share {
            origin: Origin::of(seat),
            of: PhantomData,
        }
    }

    #[inline(always)]
    pub(crate) fn end(self) {
        let Share { origin: _, of: _ } = self;
    }
}

impl<'a, K: Right<Task>, V> Grant<'a, K, V> {
    #[inline(always)]
    pub(crate) fn new(claim: Claim<'a, Place<V>, Queues<Task>>) -> Self
        requires { (claim.right ≡ K.RIGHT) × (claim.state ≡ None) }
        ensures { result.claim ≡ claim.entry }
    {
        Grant {
            claim,
            of: PhantomData,
        }
    }

    #[inline(always)]
    pub(crate) fn into_claim(self) -> Claim<'a, Place<V>, Queues<Task>>
        ensures claim { result ≡ self.entry.claim }
        ensures right { (result.right ≡ K.RIGHT) × (result.state ≡ None) }
    {
        let Grant { claim, of: _ } = self;
        claim
    }
}

impl<V> Grant<'_, Reading, V> {
    /// Borrows the value.
    #[inline(always)]
    pub fn get(&self) -> &V
        ensures { Some result.now ≡ placed self.now.claim.value }
    {
        &self.claim.get().value
    }
}

impl<'a, V> Grant<'a, Writing, V> {
    /// Returns the right to write as the slot knows it.
    #[inline(always)]
    pub fn write(self) -> Writes<'a, Place<V>, Queues<Task>>
        ensures { result.name ≡ self.entry.claim.name }
    {
        self.into_claim().write()
    }

    /// Makes a right of the lock of the slot's right to write, as [`write`](Grant::write) returned it.
    #[inline(always)]
    pub fn from_writing(writing: Writes<'a, Place<V>, Queues<Task>>) -> Self
        ensures { result.claim.name ≡ writing.entry.name }
    {
        Grant::new(writing.claim())
    }
}
