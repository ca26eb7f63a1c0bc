//! A read-write lock.
ghost use Rattle.std.specs.Prelude.{◌≡◌, ◌+◌, ◌<◌, ◌≤◌, IfSome};

mod guard;
mod requests;
mod waits;

use self::guard::HeldArc;
pub use self::guard::{RwLockReadGuard, RwLockReadGuardArc, RwLockWriteGuard, RwLockWriteGuardArc};
use self::requests::Place;
pub use self::waits::{Read, ReadArc, Write, WriteArc};
use crate::lending::Lending;
use event_wait::{Obtaining, Shared, Task, WakerSource};
use event_word::{Queues, Reading, Right, RwLockCounts, Share, Word, Writing, is_written, readers};
use std::alloc::{AllocError, Global};
use std::fmt;
use std::fmt::{Debug, Formatter};
use std::marker::Model;
use std::sync::{Arc, Wait};
use std::time::Clock;

/// A read-write lock round a value: several readers have it at once, or one writer alone, each by a guard.
///
/// A reader or a writer that enters or leaves while nobody waits makes one atomic step. Neither kind is passed over: while a
/// writer waits no reader enters or becomes a writer, and a writer that leaves or becomes a reader lets in all readers that
/// wait then; after these readers the next writer is let in.
///
/// A task doubles the value, and then reads it. The first `?` of each pair propagates an error of the executor, the second an
/// error of the wait:
///
/// ```rust
/// let mut writer = block_on(rt, value.write(rt, alloc))??;
/// *writer = writer.saturating_mul(2);
/// drop(writer);
/// Ok(*block_on(rt, value.read(rt, alloc))??)
/// ```
#[derive(Drop)]
pub struct RwLock<T> {
    word: Word<Queues<Task>, Hidden<T>>,
    source: WakerSource,
}

// The value of a read-write lock. The type is private: else any caller that has the lock could reach, by `Inside`, the slot in
// which the value lies.
#[derive(Drop)]
pub(crate) struct Hidden<T> {
    value: T,
}

impl<T> Model for Hidden<T> {
    ghost Value = { T };

    ghost view = { λ hidden. hidden.value };
}

impl<T> RwLock<T> {
    /// Makes a lock round `value`, which nobody has. This takes no memory; the queues take some from `alloc` once somebody
    /// waits.
    ///
    /// ```rust
    /// let cache = RwLock::new(alloc, Squares::new(alloc));
    /// let first = square(rt, alloc, &cache, 7)?;
    /// ```
    pub fn new(alloc: Global, value: T) -> Self {
        RwLock {
            word: Word::new(0, Queues::new(alloc), Hidden { value }),
            source: WakerSource::new(),
        }
    }

    /// Takes the value to read it, if no writer has it or waits for it. Returns `None` else.
    ///
    /// The call takes no memory and does not wait for the value. Where others wait it may block until the queues, which another
    /// thread may be using, are put back.
    ///
    /// The function returns the price, or `None` where it would have to wait for the right to read:
    ///
    /// ```rust
    /// let price = self.price.try_read(rt)?;
    /// Some(*price)
    /// ```
    #[must_use = "a guard that is dropped at once gives back what it holds"]
    #[inline(always)]
    pub fn try_read<'a, R: Wait + Clock>(&'a self, rt: &'a R) -> Option<RwLockReadGuard<'a, T, R>> {
        let grant = self.word.attempt(rt)?;
        Some(RwLockReadGuard::new(Lending::new(self, rt), grant))
    }

    /// Takes the value to write it, if nobody has it or waits for it. Returns `None` else.
    ///
    /// The call takes no memory and does not wait for the value. Where others wait it may block until the queues, which another
    /// thread may be using, are put back.
    #[must_use = "a guard that is dropped at once gives back what it holds"]
    #[inline(always)]
    pub fn try_write<'a, R: Wait + Clock>(
        &'a self,
        rt: &'a R,
    ) -> Option<RwLockWriteGuard<'a, T, R>> {
        let grant = self.word.attempt(rt)?;
        Some(RwLockWriteGuard::new(Lending::new(self, rt), grant))
    }

    /// Takes the value to read it, like [`try_read`](RwLock::try_read), by a guard that may go to another thread.
    ///
    /// The guard keeps the lock by a share of its `Arc`. An error says that no further share could be counted: then nothing was
    /// taken.
    #[must_use = "a guard that is dropped at once gives back what it holds"]
    pub fn try_read_arc<R: Wait + Clock + Drop>(
        this: &Arc<Self, Global>,
        rt: R,
    ) -> Result<Option<RwLockReadGuardArc<T, R>>, AllocError>
    where
        T: Drop,
    {
        let lock = Arc::try_clone(this)?;
        match HeldArc::come(Shared { lock, rt }) {
            Ok(held) => Ok(Some(RwLockReadGuardArc::of(held))),
            Err(hold) => {
                let share = hold.lock.try_share::<Reading, R>(&hold.rt);
                Ok(share.map(|share| RwLockReadGuardArc::new(hold, share)))
            }
        }
    }

    /// Takes the value to write it, like [`try_write`](RwLock::try_write), by a guard that may go to another thread.
    ///
    /// The guard keeps the lock by a share of its `Arc`. An error says that no further share could be counted: then nothing was
    /// taken.
    #[must_use = "a guard that is dropped at once gives back what it holds"]
    pub fn try_write_arc<R: Wait + Clock + Drop>(
        this: &Arc<Self, Global>,
        rt: R,
    ) -> Result<Option<RwLockWriteGuardArc<T, R>>, AllocError>
    where
        T: Drop,
    {
        let lock = Arc::try_clone(this)?;
        match HeldArc::come(Shared { lock, rt }) {
            Ok(held) => Ok(Some(RwLockWriteGuardArc::of(held))),
            Err(hold) => {
                let share = hold.lock.try_share::<Writing, R>(&hold.rt);
                Ok(share.map(|share| RwLockWriteGuardArc::new(hold, share)))
            }
        }
    }

    /// Asks for the value to read it, once the returned [`Read`] is waited on or polled. Until then nothing happens.
    ///
    /// A thread blocks by `read(rt, alloc).wait()` or with a time limit; a task awaits the `Read`. `alloc` gives the memory for
    /// a place in the queue, if the caller has to wait.
    ///
    /// ```rust
    /// let reader = cache.read(rt, alloc).wait()?;
    /// if let Some(square) = reader.get(number) {
    ///     return Ok(square);
    /// }
    /// drop(reader);
    /// ```
    #[inline(always)]
    pub fn read<'a, R: Wait + Clock>(&'a self, rt: &'a R, alloc: Global) -> Read<'a, T, R> {
        Read::new(Obtaining::new(Lending::new(self, rt), alloc, Place::default()))
    }

    /// Asks for the value to write it, once the returned [`Write`] is waited on or polled. Until then nothing happens.
    ///
    /// A thread blocks by `write(rt, alloc).wait()` or with a time limit; a task awaits the `Write`. `alloc` gives the memory
    /// for a place in the queue, if the caller has to wait.
    ///
    /// A caller that found nothing as a reader looks again as a writer, because another writer may have had the value in
    /// between:
    ///
    /// ```rust
    /// let mut writer = cache.write(rt, alloc).wait()?;
    /// // Another may have been here since.
    /// if let Some(square) = writer.get(number) {
    ///     return Ok(square);
    /// }
    /// Ok(writer.add(number)?)
    /// ```
    #[inline(always)]
    pub fn write<'a, R: Wait + Clock>(&'a self, rt: &'a R, alloc: Global) -> Write<'a, T, R> {
        Write::new(Obtaining::new(Lending::new(self, rt), alloc, Place::default()))
    }

    /// Asks for the value to read it by a guard that may go to another thread, once the returned [`ReadArc`] is waited on or
    /// polled.
    ///
    /// The wait and the guard keep the lock by a share of its `Arc`. An error says that no further share could be counted: then
    /// nothing is asked for.
    ///
    /// A sale keeps the right to read the price until the sale is done. The first `?` of a line propagates an `AllocError`, if
    /// no further share could be counted, and the second an error of the wait:
    ///
    /// ```rust
    /// let price = RwLock::read_arc(&self.price, rt, alloc)?.wait()?;
    /// let takings = Mutex::lock_arc(&self.takings, rt, alloc)?.wait()?;
    /// let sale = thread::spawn(&rt, move || sell(seats, price, takings))?;
    /// Ok(Some(sale))
    /// ```
    pub fn read_arc<R: Wait + Clock + Drop>(
        this: &Arc<Self, Global>,
        rt: R,
        alloc: Global,
    ) -> Result<ReadArc<T, R>, AllocError>
    where
        T: Drop,
    {
        let lock = Arc::try_clone(this)?;
        Ok(ReadArc::new(Obtaining::new(Shared { lock, rt }, alloc, Place::default())))
    }

    /// Asks for the value to write it by a guard that may go to another thread, once the returned [`WriteArc`] is waited on or
    /// polled.
    ///
    /// The wait and the guard keep the lock by a share of its `Arc`. An error says that no further share could be counted: then
    /// nothing is asked for.
    ///
    /// The right to write goes to a thread, so nobody finds the old price once that thread was started:
    ///
    /// ```rust
    /// let price = RwLock::write_arc(&self.price, rt, alloc)?.wait()?;
    /// let setter = thread::spawn(&rt, move || set(price, amount))?;
    /// Ok(setter)
    /// ```
    pub fn write_arc<R: Wait + Clock + Drop>(
        this: &Arc<Self, Global>,
        rt: R,
        alloc: Global,
    ) -> Result<WriteArc<T, R>, AllocError>
    where
        T: Drop,
    {
        let lock = Arc::try_clone(this)?;
        Ok(WriteArc::new(Obtaining::new(Shared { lock, rt }, alloc, Place::default())))
    }

    /// Returns how many readers and writers have the value, were let in and wait, all at one moment of this call.
    ///
    /// A waiter is let in by those that have the value, as they leave. The call takes no memory. It may block until the queues,
    /// which another thread may be using, are put back.
    pub fn counts<R: Wait>(&self, rt: &R) -> RwLockCounts
        ensures reader_waits { 0 < result.readers_waiting
            → 0 < result.writers + result.writers_let_in + result.writers_waiting }
        ensures writer_waits { 0 < result.writers_waiting
            → 0 < result.readers + result.readers_let_in + result.writers + result.writers_let_in }
        ensures exclusive { 0 < result.readers + result.readers_let_in
            → result.writers + result.writers_let_in ≡ 0 }
        ensures one_writer { result.writers + result.writers_let_in ≤ 1 }
    {
        let (number, mut held) = self.word.take(rt);
        let counts = held.counted(number);
        held.put_back(rt);
        counts
    }

    /// Returns whether a reader or a writer has the value at some moment of this call. Another thread may change that at once.
    ///
    /// The call is one load: it takes no lock and never blocks.
    pub fn is_locked(&self) -> bool {
        let number = self.word.number();
        is_written(number) || readers(number) > 0
    }

    /// Returns whether a writer has the value at some moment of this call. Another thread may change that at once.
    ///
    /// The call is one load: it takes no lock and never blocks.
    pub fn is_write_locked(&self) -> bool {
        is_written(self.word.number())
    }

    /// Returns a reference to the value without locking, since `&mut self` says that nobody else uses the lock.
    pub fn get_mut(&mut self) -> &mut T {
        &mut self.word.value_mut().value
    }

    /// Ends the lock and returns its value.
    ///
    /// ```rust
    /// let cache = RwLock::new(alloc, Squares::new(alloc));
    ///
    /// cache.into_inner().len()
    /// ```
    pub fn into_inner(self) -> T {
        let RwLock { word, source: _ } = self;
        let Hidden { value } = word.into_inner();
        value
    }

    // Takes a right for a guard that shares the lock, if the caller may have the right now, and parks the right. Returns `None`
    // else.
    fn try_share<K: Right<Task>, R: Wait>(&self, rt: &R) -> Option<Share<K>>
        ensures { IfSome result (λ share. share ≡ self.now.word.slot.name) }
    {
        let grant = self.word.attempt(rt)?;
        Some(self.word.park(rt, grant))
    }
}

impl<T> Debug for RwLock<T> {
    /// Shows how many readers have the value and whether a writer has it, and not the value.
    fn fmt<W: fmt::Write>(&self, f: &mut Formatter<W>) -> fmt::Result {
        let number = self.word.number();
        f.debug_struct("RwLock")
            .field("readers", &readers(number))
            .field("is_written", &is_written(number))
            .finish()
    }
}
