//! A value of which a `&` shows nothing.
ghost use Rattle.std.specs.Prelude.{◌≡◌};
ghost use base.Fml.{ftrue};

use std::marker::{Move, Owns};

/// A value that lies in place, and of which a `&` shows nothing.
///
/// Only a `&mut` leads to the value, so threads may share an `Exclusive` whatever its value is: it is `Sync` for each type, and `Send`
/// if the value is. A contract sees an `Exclusive` as the value.
pub struct Exclusive<T> {
    pub(crate) value: T,
}

impl<T> Owns for Exclusive<T> {
    ghost Value = { T };

    ghost coded = { T.code };

    ghost shr_at = { λ _ _ _. ftrue };
}

impl<T> Move for Exclusive<T> {
    ghost own_val = { λ x vs. Fields.own_val (record { value = x }) vs };
}

impl<T> Exclusive<T> {
    /// Makes an `Exclusive` of this value.
    #[inline(always)]
    pub fn new(value: T) -> Self
        ensures { result ≡ value }
    {
        Exclusive { value }
    }

    /// Returns the value.
    #[inline(always)]
    pub fn into_inner(self) -> T
        ensures { result ≡ self }
    {
        let Exclusive { value } = self;
        value
    }
}

impl<T: Drop> Drop for Exclusive<T> {
    fn drop(self) {
        drop(self.into_inner());
    }
}

unsafe impl<T: Send> Send for Exclusive<T> {}

unsafe impl<T> Sync for Exclusive<T> {}
