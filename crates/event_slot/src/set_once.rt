//! A value in place that is set at most once.
ghost use Rattle.std.specs.Prelude.{◌≡◌, IfSome, IfOk, IfErr};
ghost use Rattle.std.specs.Arc.{arc_value};

use crate::write_once::{EMPTY, Fits, SET, WriteOnce};
use std::marker::Model;
use std::sync::{Arc, Wait};

// How long a thread sleeps at most before it looks again, in nanoseconds.
const BETWEEN_LOOKS: u64 = 1_000_000;

impl<T: Fits> Fits for Option<T> {
    type Key = T::Key;

    ghost fits = { λ key value. IfSome value (T.fits key) };
}

impl<T: Fits> Fits for Arc<T> {
    type Key = T::Key;

    ghost fits = { λ key share. T.fits key (arc_value share) };
}

/// A value in place that is set at most once, and is shared from then on. A clause sees the key of the cell, and the value fits
/// the key.
///
/// Nothing is allocated. No thread is woken when the value is set: a thread that waits for the value looks once each millisecond.
#[derive(Drop)]
pub struct SetOnce<T: Fits> {
    cell: WriteOnce<Option<T>>,
}

impl<T: Fits> Model for SetOnce<T> {
    ghost Value = { T.Key };

    ghost coded = { T.Key.code };

    ghost view = { λ once. once.cell };
}

impl<T: Fits> SetOnce<T> {
    /// Makes a cell with this key, and no value yet. Allocates nothing.
    pub fn new(key: &T::Key) -> SetOnce<T>
        ensures { result ≡ key.now }
    {
        SetOnce {
            cell: WriteOnce::new(EMPTY, None, key),
        }
    }

    /// Makes a cell with this key that is set from the start. Requires that the value fits the key. Allocates nothing.
    pub fn with(value: T, key: &T::Key) -> SetOnce<T>
        requires { T.fits key.now value }
        ensures { result ≡ key.now }
    {
        SetOnce {
            cell: WriteOnce::new(SET, Some(value), key),
        }
    }

    /// Borrows the value, or returns `None` if it is not set yet. The call costs one load, and does not wait.
    #[inline(always)]
    pub fn get(&self) -> Option<&T>
        ensures { IfSome result (λ value. T.fits self.now value.now) }
    {
        let (found, hold) = self.cell.look();
        if found != SET {
            return None;
        }
        match hold.get() {
            Some(value) => Some(value),
            None => None,
        }
    }

    /// Sets the value, and borrows it from the cell.
    ///
    /// An error has the value back, where another thread has set one or is about to. Requires that the value fits the key. The
    /// call does not wait.
    pub fn try_set(&self, value: T) -> Result<&T, T>
        requires { T.fits self.now value }
        ensures ok { IfOk result (λ set. set.now ≡ value) }
        ensures err { IfErr result (λ back. back ≡ value) }
    {
        let (found, hold) = self.cell.seize();
        if found != EMPTY {
            return Err(value);
        }
        match hold.write(Some(value)).get() {
            Some(set) => Ok(set),
            None => unreachable!(),
        }
    }

    /// Blocks the thread until the value is set, and borrows the value.
    ///
    /// Until then the thread sleeps, and looks once each millisecond, because no thread is woken when the value is set. Takes no
    /// memory.
    pub fn wait<R: Wait>(&self, rt: &R) -> &T
        ensures { T.fits self.now result.now }
    {
        for _ in rt.forever() {
            let (found, hold) = self.cell.look();
            if found == SET {
                if let Some(value) = hold.get() {
                    return value;
                }
            }
            self.cell.sleep(rt, found, 0, BETWEEN_LOOKS);
        }
        unreachable!()
    }

    /// Returns the value, or `None` if it was not set. No thread shares the cell any more.
    pub fn into_inner(self) -> Option<T>
        ensures { IfSome result (T.fits self) }
    {
        let Self { cell } = self;
        cell.into_inner()
    }
}
