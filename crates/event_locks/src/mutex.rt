//! A mutex.
ghost use Rattle.std.specs.Prelude.{◌≡◌, ◌<◌, false, true};
ghost use Rattle.event_wait.specs.Attempted.{Attempts, OnDone, OnRefused, OnUndone, key_of};
ghost use Rattle.event_word.specs.Contender.{coming_of, losses_after};
ghost use Rattle.event_word.specs.declared.contender.Coming.TheVariants.{New, Notified};
ghost use Rattle.event_word.specs.Free.{NoneFor, ServesTheStarving, StandsIf, free_of};
ghost use Rattle.event_word.specs.Held.{HasState};

mod guard;
mod lender;
mod lock;

pub use self::guard::{MutexGuard, MutexGuardArc};
pub use self::lock::{Lock, LockArc};
use crate::lending::Lending;
use crate::taker::Taker;
use event_queue::{Key, TaskExchange};
use event_slot::{Exclusive, Inside, Slot};
use event_wait::{Attempted, LockError, Obtaining, Shared, Task, WakerSource};
use event_word::{Coming, Competing, Counts, Held, Lent, OneValue, Parked, Place, Word};
use std::alloc::{AllocError, Global};
use std::fmt;
use std::fmt::{Debug, Formatter};
use std::sync::{Arc, Wait};
use std::time::Clock;

/// A mutual-exclusion lock round a value: one thread or task at a time has the value, by a guard.
///
/// A free mutex is taken by one atomic step, and given back by another where no waiter has to be notified: one notified waiter is
/// enough, since one at a time can have the value. Threads and tasks wait in one queue.
/// They are notified in the order in which they joined it, and a notified waiter competes with newcomers: if the value is taken
/// again, that waiter rejoins the queue at its end. A waiter that loses so twice *starves*: newcomers are shut out until that
/// waiter has tried again, and then it finds the value.
///
/// Newcomers are shut out only for a while. A starving waiter that is neither polled, waited on nor dropped is struck off once 64
/// newcomers found the value free and were refused for its sake ([`FORBEARANCE`](crate::FORBEARANCE)), or twice as many after
/// each loss beyond the second, up to a million. Then it starves no more, the next waiter is notified in its place, and it waits
/// anew when it is polled. A newcomer that waits tries again and again meanwhile, and each of its tries counts.
///
/// Losses belong to one wait, so a caller that makes a new wait after each time limit may find nothing for ever.
///
/// The value lies in the mutex at all times, and a guard lends it there: a lock moves no value, and a guard that is forgotten
/// leaves the value in its place.
///
/// Threads share a mutex by an `Arc`. Here each thread that pays into a balance has a share of its own, and at the end one
/// thread reads the balance:
///
/// ```rust
/// let balance = Arc::new(alloc, Mutex::new(alloc, 0u64))?;
///
/// let balance = Arc::try_clone(&balance)?;
/// threads.push(thread::spawn(&rt, move || pay(&rt, alloc, &balance, amount))?)?;
///
/// let balance = balance.lock(&rt, alloc).wait()?;
/// Ok(*balance)
/// ```
#[derive(Drop)]
pub struct Mutex<T> {
    word: Word<Line, Exclusive<T>>,
    source: WakerSource,
}

/// The queue of a mutex.
pub(crate) type Line = Competing<OneValue<MutexSlot>>;

// What the type of a mutex's slot is made of. The type is private: else any caller that has the mutex could reach, by `Inside`, the
// slot in which the value lies.
pub(crate) struct MutexSlot {}

/// The right to the value of a mutex, where the value lies.
pub(crate) type Right<'a, T> = Lent<'a, Line, Exclusive<T>>;

// Finds, in a shared mutex, the slot to which a guard gives its right back.
impl<T> Inside<Place<Exclusive<T>>, Line> for Mutex<T> {
    ghost finds = { λ mutex. mutex.word.slot };

    fn slot(&self) -> &Slot<Place<Exclusive<T>>, Line> {
        &self.word.slot
    }
}

impl<T> Mutex<T> {
    /// Makes a mutex round `value`, which nobody has. This takes no memory; the queue takes some from `alloc` once somebody
    /// waits.
    ///
    /// ```rust
    /// let balance = Mutex::new(alloc, 10u64);
    /// ```
    pub fn new(alloc: Global, value: T) -> Self {
        let line = Competing::new(alloc);
        Mutex {
            word: Word::new(1, line, Exclusive::new(value)),
            source: WakerSource::new(),
        }
    }

    /// Returns how many waiters are notified, waiting and starving, and whether the value is free, all at one moment of this
    /// call.
    ///
    /// The count `free` is 1 while nobody has the value. The call may block until the queue, which another thread may be using,
    /// is put back.
    pub fn counts<R: Wait>(&self, rt: &R) -> Counts
        ensures nobody_waits_in_vain { result.notified < result.free → result.waiting ≡ 0 }
        ensures shuts { (0 < result.starving → result.is_shut ≡ true)
            × (result.is_shut ≡ true → 0 < result.starving) }
        ensures never_closed { result.is_closed ≡ false }
    {
        self.word.counts(rt)
    }

    /// Returns whether somebody has the value at some moment of this call. Another thread may change that at once.
    ///
    /// The call is one load: it takes no lock and never blocks.
    pub fn is_locked(&self) -> bool {
        self.word.free() == 0
    }

    /// Takes the value, if nobody has it and newcomers are not shut out. Returns `None` else.
    ///
    /// Newcomers are shut out while a waiter starves, and while a thread that tried sixteen times in vain puts the queue back. A
    /// call that finds nothing for the sake of a starving waiter counts against that waiter, as the description of the type
    /// says. The call takes no memory and never blocks.
    ///
    /// While the guard in `taken` is kept, another wait for the value ends at its limit without it, so `in_time` is `false`:
    ///
    /// ```rust
    /// let taken = balance.try_lock(rt);
    ///
    /// let limit = Duration::from_millis(20);
    /// let in_time = balance.lock(rt, alloc).wait_timeout(limit)?.is_some();
    /// drop(taken);
    /// ```
    #[must_use = "a guard that is dropped at once gives back what it holds"]
    #[inline(always)]
    pub fn try_lock<'a, R: Wait + Clock>(&'a self, rt: &'a R) -> Option<MutexGuard<'a, T, R>> {
        let Some(lent) = self.word.try_value() else {
            self.word.forbear(rt, 1);
            return None;
        };
        Some(MutexGuard::new(Lending::new(self, rt), lent))
    }

    /// Takes the value by a guard that may go to another thread, if nobody has the value and newcomers are not shut out.
    /// Returns `Ok(None)` else.
    ///
    /// The guard keeps the mutex by a share of its `Arc`. An error says that no further share could be counted: then nothing
    /// was taken.
    #[must_use = "a guard that is dropped at once gives back what it holds"]
    pub fn try_lock_arc<R: Wait + Clock + Drop>(
        this: &Arc<Self, Global>,
        rt: R,
    ) -> Result<Option<MutexGuardArc<T, R>>, AllocError>
    where
        T: Drop,
    {
        let lock = Arc::try_clone(this)?;
        match MutexGuardArc::come(Shared { lock, rt }) {
            Ok(guard) => Ok(Some(guard)),
            Err(hold) => {
                hold.lock.word.forbear(&hold.rt, 1);
                Ok(None)
            }
        }
    }

    /// Asks for the value, once the returned [`Lock`] is waited on or polled. Until then nothing happens.
    ///
    /// A thread blocks by `lock(rt, alloc).wait()` or with a time limit; a task awaits the `Lock`. `alloc` gives the memory for
    /// a place in the queue, if the caller has to wait.
    ///
    /// A task awaits the value. The first `?` propagates an error of the executor, the second an error of the wait:
    ///
    /// ```rust
    /// let mut balance = block_on(rt, balance.lock(rt, alloc))??;
    /// *balance = balance.saturating_add(amount);
    /// Ok(*balance)
    /// ```
    #[inline(always)]
    pub fn lock<'a, R: Wait + Clock>(&'a self, rt: &'a R, alloc: Global) -> Lock<'a, T, R> {
        Lock::new(Obtaining::new(Lending::new(self, rt), alloc, Taker::default()))
    }

    /// Asks for the value by a guard that may go to another thread, once the returned [`LockArc`] is waited on or polled.
    ///
    /// The wait and the guard keep the mutex by a share of its `Arc`. An error says that no further share could be counted:
    /// then nothing is asked for.
    ///
    /// A sale takes all its guards before its thread starts, and the thread owns them. The first `?` of a line propagates an
    /// `AllocError`, if no further share could be counted, and the second an error of the wait:
    ///
    /// ```rust
    /// let price = RwLock::read_arc(&self.price, rt, alloc)?.wait()?;
    /// let takings = Mutex::lock_arc(&self.takings, rt, alloc)?.wait()?;
    /// let sale = thread::spawn(&rt, move || sell(seats, price, takings))?;
    /// Ok(Some(sale))
    /// ```
    pub fn lock_arc<R: Wait + Clock + Drop>(
        this: &Arc<Self, Global>,
        rt: R,
        alloc: Global,
    ) -> Result<LockArc<T, R>, AllocError>
    where
        T: Drop,
    {
        let lock = Arc::try_clone(this)?;
        Ok(LockArc::new(Obtaining::new(Shared { lock, rt }, alloc, Taker::default())))
    }

    /// Returns a reference to the value without locking, since `&mut self` says that nobody else uses the mutex.
    ///
    /// While no other owner has a share of the mutex, the value is changed without a lock:
    ///
    /// ```rust
    /// let Some(takings) = Arc::get_mut(&mut self.takings) else {
    ///     return false;
    /// };
    /// let takings = takings.get_mut();
    /// *takings = takings.saturating_add(amount);
    /// true
    /// ```
    pub fn get_mut(&mut self) -> &mut T {
        self.word.value_mut().get_mut()
    }

    /// Ends the mutex and returns its value.
    ///
    /// Where no other owner has a share of the mutex any more, the value is taken out without a lock:
    ///
    /// ```rust
    /// let takings = Arc::into_inner(takings)?;
    /// Some(takings.into_inner())
    /// ```
    pub fn into_inner(self) -> T {
        let Mutex { word, source: _ } = self;
        word.into_inner().into_inner()
    }
}

// The steps of guards that share the mutex.
impl<T> Mutex<T> {
    // Gives a parked right back, and notifies the first waiter, unless one is notified already.
    fn give_parked<R: Wait>(&self, rt: &R, parked: Parked)
        requires { parked ≡ self.now.word.slot.name }
    {
        let lent = self.word.unpark(rt, parked);
        self.word.give_value(rt, lent);
    }
}

impl<T> Debug for Mutex<T> {
    /// Shows whether somebody has the value, and not the value.
    fn fmt<W: fmt::Write>(&self, f: &mut Formatter<W>) -> fmt::Result {
        f.debug_struct("Mutex")
            .field("is_locked", &(self.word.free() == 0))
            .finish()
    }
}

// Attempts for a contender with the queue out, and has a contender that finds nothing wait at the end of the queue. A newcomer
// that finds nothing only because newcomers are shut out is absent: it tries again.
fn attempt_held<'a, T, C, X: TaskExchange<Task, C>, R: Wait>(
    rt: &R,
    held: &mut Held<'a, Line, Exclusive<T>>,
    place: &mut Option<Key>,
    losses: &mut u32,
    exchange: &X,
    on: &mut C,
) -> Attempted<Right<'a, T>, LockError>
    requires stands { HasState (λ n q. StandsIf false n q.line) held.old }
    ensures of { held.new.word ≡ held.old.word }
    ensures value { OnDone result (λ lent. lent.name ≡ held.old.word.now.slot.name) }
    ensures serves { HasState (λ n q. ServesTheStarving n q.line) held.new }
    ensures place { place.new ≡ key_of result }
    ensures done { OnDone result (λ _. losses.new ≡ losses.old) }
    ensures loses { OnUndone result (HasState (λ _ q. losses.new
        ≡ losses_after losses.old (coming_of place.old q.line)) held.old) }
    ensures none { OnUndone result
        (HasState (λ _ q. coming_of place.old q.line ≡ Notified) held.old
        → HasState (λ n _. free_of n ≡ 0) held.new) }
    ensures waits { OnUndone result
        (HasState (λ _ q. coming_of place.old q.line ≡ New) held.old
        → HasState (λ n _. NoneFor false n) held.new) }
    ensures refused { OnRefused result (losses.new ≡ losses.old) }
    ensures exchanged { Attempts (X.exchanged exchange.now) on.old result on.new }
{
    let arrival = held.come(place, exchange, on);
    let coming = arrival.coming();
    if let Coming::Waits(key) = coming {
        return Attempted::Waits(key);
    }
    match held.take_value(rt, coming.is_notified()) {
        Some(lent) => Attempted::Done(lent),
        None if !coming.is_notified() && held.forbear() => Attempted::Absent,
        None => match held.lose(place, losses, arrival, exchange, on) {
            Ok(key) => Attempted::Waits(key),
            Err(error) => Attempted::Refused(error),
        },
    }
}
