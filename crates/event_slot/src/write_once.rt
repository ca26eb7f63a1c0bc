//! A value beside one word, which one thread may write, once, and which all see from then on.
ghost use Rattle.std.specs.Prelude.{◌≡◌, ℕ, Option, Some};
ghost use Rattle.std.specs.Coded.{coded_option};
ghost use Rattle.event_slot.specs.Written.{cell_owns, cell_shares, hold_owns};

use atomic_table::exchange;
use std::marker::{Brand, Model, Move, Owns, PhantomData};
use std::sync::Wait;
use std::sync::atomic::Ordering::SeqCst;
use std::sync::atomic::raw;

/// A value of which a fact is known.
pub trait Fits {
    /// What the fact may speak of besides the value. The key is given when a cell is made, and nothing changes it.
    type Key;

    /// The fact.
    ghost fits: { Self.Key → Self → Type 0 };
}

/// No thread has written the value yet.
pub(crate) const EMPTY: u64 = 0;

/// A thread writes the value.
pub(crate) const SETTING: u64 = 1;

/// The value is written, and stays as it is.
pub(crate) const SET: u64 = 2;

/// A value beside one word, which one thread may write, once. A clause sees the key of the cell.
pub(crate) struct WriteOnce<X: Fits> {
    word: u64,
    value: X,
}

impl<X: Fits> Owns for WriteOnce<X> {
    ghost Value = { X.Key };

    ghost coded = { X.Key.code };

    ghost shr_at = { λ key p κ. cell_shares X.row (X.fits key) p κ };
}

impl<X: Fits> Move for WriteOnce<X> {
    ghost own_val = { λ key vs. cell_owns X.row (X.fits key) (λ n x. Fields.own_val (record { word = n; value = x }) vs) };
}

/// What a thread has of a cell: 0 is nothing, 1 to see the value for good, and 2 to write it.
pub(crate) struct Hold<'a, X: Fits> {
    cell: *const WriteOnce<X>,
    marker: PhantomData<&'a X>,
    pub ghost key: { X.Key } by { X.Key.code },
    pub ghost right: { ℕ },
    /// The value that is seen.
    pub ghost value: { Option X } by { coded_option X.code },
}

impl<'a, X: Fits> Model for Hold<'a, X> {
    ghost also_owns = { λ h. hold_owns 'a X.row (X.fits h.key) h.cell h.right h.value };
}

impl<X: Fits> WriteOnce<X> {
    /// Makes a cell with this word, this value and this key.
    pub(crate) fn new(word: u64, value: X, key: &X::Key) -> WriteOnce<X>
        requires { X.fits key.now value }
        ensures { result ≡ key.now }
    {
        WriteOnce { word, value }
    }

    /// Returns the word, by one load, and what the thread has of the cell: the value if it is written.
    pub(crate) fn look(&self) -> (u64, Hold<'_, X>)
        ensures { (result.0 ≡ 2 → result.1.right ≡ 1) × (result.1.key ≡ self.now) }
    {
        let found = unsafe { raw::load::<Brand>(&raw const self.word, SeqCst) };
        (
            found,
            Hold {
                cell: self,
                marker: PhantomData,
            },
        )
    }

    /// Returns the word, by one compare-exchange, and the right to write the value if no thread had that right yet.
    pub(crate) fn seize(&self) -> (u64, Hold<'_, X>)
        ensures { (result.0 ≡ 0 → result.1.right ≡ 2) × (result.1.key ≡ self.now) }
    {
        let found = unsafe { exchange::<Brand>(&raw const self.word, EMPTY, SETTING) };
        (
            found,
            Hold {
                cell: self,
                marker: PhantomData,
            },
        )
    }

    /// Sleeps while the word is `expected`, for no longer than the given time.
    pub(crate) fn sleep<R: Wait>(&self, rt: &R, expected: u64, secs: u64, nanos: u64) {
        unsafe { raw::park::<Brand, R>(rt, &raw const self.word, expected, secs, nanos) }
    }

    /// Returns the value. No thread shares the cell any more.
    pub(crate) fn into_inner(self) -> X
        ensures { X.fits self result }
    {
        let Self { word: _, value } = self;
        value
    }
}

impl<'a, X: Fits> Hold<'a, X> {
    /// Writes the value, and then says so by one store.
    pub(crate) fn write(self, value: X) -> Hold<'a, X>
        requires { (self.right ≡ 2) × X.fits self.key value }
        ensures { (result.right ≡ 1) × (result.value ≡ Some value) × (result.key ≡ self.entry.key) }
    {
        let Hold { cell, marker } = self;
        unsafe {
            std::ptr::write(&raw const (*cell).value as *mut X, value);
            raw::store::<Brand>(&raw const (*cell).word, SET, SeqCst);
        }
        Hold { cell, marker }
    }

    /// Borrows the value, for as long as the cell is shared.
    pub(crate) fn get(self) -> &'a X
        requires { self.right ≡ 1 }
        ensures { (Some result.now ≡ self.entry.value) × X.fits self.entry.key result.now }
    {
        let Hold { cell, marker: _ } = self;
        unsafe { &(*cell).value }
    }
}

impl<X: Fits> Drop for Hold<'_, X> {
    fn drop(self) {
        let Hold { cell: _, marker: _ } = self;
    }
}

impl<X: Fits + Drop> Drop for WriteOnce<X> {
    fn drop(self) {
        drop(self.into_inner());
    }
}

unsafe impl<X: Fits + Send> Send for WriteOnce<X> {}

unsafe impl<X: Fits + Send + Sync> Sync for WriteOnce<X> {}
