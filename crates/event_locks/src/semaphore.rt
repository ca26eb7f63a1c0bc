//! A semaphore.
ghost use Rattle.std.specs.Prelude.{false, ◌≡◌, ◌+◌, ◌<◌, ◌≤◌, true, Ok, IfErr, IfOk, IfSome};
ghost use Rattle.event_wait.specs.Rounds.{gives_what, tries_for};
ghost use Rattle.event_wait.specs.Attempted.{Attempts, OnDone, OnRefused, OnUndone, key_of};
ghost use Rattle.event_locks.specs.Losses.{LosesOnceAtMost};
ghost use Rattle.event_word.specs.Contender.{coming_of, losses_after};
ghost use Rattle.event_word.specs.declared.contender.Coming.TheVariants.{New, Notified};
ghost use Rattle.event_word.specs.Free.{IsClosed, NoneFor, ServesTheStarving, Stands, free_of};
ghost use Rattle.event_word.specs.Held.{HasState};
ghost use Rattle.event_word.specs.Permit.{IsOne};

mod acquire;
mod error;
mod guard;

pub use self::acquire::{Acquire, AcquireArc};
pub use self::error::AcquireError;
pub use self::guard::{SemaphoreGuard, SemaphoreGuardArc};
use crate::taker::Taker;
use event_queue::{Key, TaskExchange};
use event_wait::{
    Attempted, Borrowed, LockError, Obtainable, Obtaining, Shared, TakesAny, Task, Waitable,
    WakerSource,
};
use event_word::{
    Coming, Competing, Contender, Counts, Held, Permit, Permits, TryAcquireError, Word,
};
use std::alloc::{AllocError, Global};
use std::fmt;
use std::fmt::{Debug, Formatter};
use std::sync::{Arc, Wait};
use std::time::Clock;

/// A counting semaphore: permits that threads and tasks share, each of which one owner at a time has.
///
/// A free permit is taken by one atomic step, and given back by another where nobody waits. Threads and tasks wait in one
/// queue. They are notified in the order in which they joined it, and a notified waiter competes with newcomers: if it finds no
/// permit, it rejoins the queue at its end. A waiter that loses so twice *starves*: newcomers are shut out until that waiter
/// has tried again, and then it finds a permit.
///
/// Newcomers are shut out only for a while. A starving waiter that is neither polled, waited on nor dropped is struck off once 64
/// newcomers were refused for its sake though a permit was free ([`FORBEARANCE`](crate::FORBEARANCE)), or twice as many after
/// each loss beyond the second, up to a million. Then it starves no more, the next waiter is notified in its place, and it waits
/// anew when it is polled. A newcomer that waits tries again and again meanwhile, and each of its tries counts.
///
/// Losses belong to one wait, so a caller that makes a new wait after each time limit may find nothing for ever.
///
/// [`acquire`](Semaphore::acquire) shows what each job does. Here two jobs at most run at once, because the semaphore has two
/// permits:
///
/// ```rust
/// let permits = Semaphore::new(rt.alloc(), 2);
/// let squares = square_each(rt, rt.alloc(), &permits, &[1, 2, 3])?;
/// println!(rt; "jobs: {squares:?}, {} free", permits.available())?;
/// ```
#[derive(Drop)]
pub struct Semaphore {
    word: Word<Competing<Permits>, ()>,
    source: WakerSource,
}

impl Semaphore {
    /// The most permits that may be free at once, because the word of a semaphore has 60 bits for their number.
    pub const MAX_PERMITS: usize = 0x0fff_ffff_ffff_ffff;

    /// Makes a semaphore with so many permits, all of them free. More than [`MAX_PERMITS`](Semaphore::MAX_PERMITS) count as
    /// that many.
    ///
    /// This takes no memory; the queue takes some from `alloc` once somebody waits.
    ///
    /// ```rust
    /// let permits = Arc::new(alloc, Semaphore::new(alloc, 2))?;
    /// ```
    pub fn new(alloc: Global, permits: usize) -> Self {
        let line = Competing::new(alloc);
        Semaphore {
            word: Word::new(permits.min(Self::MAX_PERMITS) as u64, line, ()),
            source: WakerSource::new(),
        }
    }

    /// Returns how many permits are free at some moment of this call. Another thread may take one at once.
    ///
    /// At a closed semaphore the permits that were given back are counted, though nobody gets them. The call takes no lock and
    /// never blocks.
    ///
    /// Here two guards are kept while the free permits are counted:
    ///
    /// ```rust
    /// let held = (first?, second?);
    /// let free = permits.available();
    /// drop(held);
    /// Ok(free)
    /// ```
    pub fn available(&self) -> usize {
        self.word.free() as usize
    }

    /// Closes the semaphore for good: from here on nobody gets a permit.
    ///
    /// Every waiter is woken, and its wait ends with [`AcquireError::Closed`], as each new one does. Permits that are out may
    /// still be given back, and are counted as free. A semaphore that is closed already stays as it is. The call may block
    /// until the queue, which another thread may be using, is put back.
    ///
    /// Here `office.close` closes the semaphore. Before that `ask` finds no free permit, and after that `ask` finds the
    /// semaphore closed. The wait of the thread `visitor` ends by the close, with an error:
    ///
    /// ```rust
    /// let visitor = office.visit_later(rt, alloc)?;
    /// let none_left = office.ask(&rt);
    /// office.close(&rt);
    /// let closed = office.ask(&rt);
    /// let refused = visitor.join(&rt);
    /// ```
    pub fn close<R: Wait>(&self, rt: &R) {
        self.word.close(rt);
    }

    /// Returns whether the semaphore is closed. A closed one stays closed. The call takes no lock and never blocks.
    pub fn is_closed(&self) -> bool {
        self.word.is_closed()
    }

    /// Returns how many permits are free, and how many waiters are notified, waiting and starving, all at one moment of this
    /// call.
    ///
    /// Nobody waits at a closed semaphore. The call may block until the queue, which another thread may be using, is put back.
    pub fn counts<R: Wait>(&self, rt: &R) -> Counts
        ensures nobody_waits_in_vain { result.notified < result.free → result.waiting ≡ 0 }
        ensures shuts { (0 < result.starving → result.is_shut ≡ true)
            × (result.is_shut ≡ true → 0 < result.starving) }
        ensures closed { result.is_closed ≡ true
            → result.notified + result.waiting + result.starving ≡ 0 }
    {
        self.word.counts(rt)
    }

    /// Takes one permit, if one is free, the semaphore is open and newcomers are not shut out. The error says which of these
    /// failed.
    ///
    /// Newcomers are shut out while a waiter starves, and while a thread that tried sixteen times in vain puts the queue back. The
    /// call takes no memory. It blocks only where newcomers are shut out for a waiter that starves, to wake more than eight
    /// waiters.
    ///
    /// A permit that is taken here is given back where the function returns:
    ///
    /// ```rust
    /// let _seat = self.seats.try_acquire(rt)?;
    /// Ok(())
    /// ```
    #[must_use = "a guard that is dropped at once gives back what it holds"]
    #[inline(always)]
    pub fn try_acquire<'a, R: Wait + Clock>(
        &'a self,
        rt: &'a R,
    ) -> Result<SemaphoreGuard<'a, R>, TryAcquireError>
        ensures one { IfOk result (λ guard. guard ≡ 1) }
    {
        match self.word.try_permit() {
            Ok(permit) => Ok(SemaphoreGuard::new(Borrowed { lock: self, rt }, permit)),
            Err(error) => {
                self.word.forbear(rt, 1);
                Err(error)
            }
        }
    }

    /// Takes one permit, like [`try_acquire`](Semaphore::try_acquire), by a guard that may go to another thread.
    ///
    /// The guard keeps the semaphore by a share of its `Arc`. The outer error says that no further share could be counted: then
    /// nothing was taken.
    #[must_use = "a guard that is dropped at once gives back what it holds"]
    pub fn try_acquire_arc<R: Wait + Clock + Drop>(
        this: &Arc<Self, Global>,
        rt: R,
    ) -> Result<Result<SemaphoreGuardArc<R>, TryAcquireError>, AllocError>
        ensures one { IfOk result (λ answer. IfOk answer (λ guard. guard ≡ 1)) }
    {
        let lock = Arc::try_clone(this)?;
        match lock.word.try_permit() {
            Ok(permit) => Ok(Ok(SemaphoreGuardArc::new(Shared { lock, rt }, permit))),
            Err(error) => {
                lock.word.forbear(&rt, 1);
                Ok(Err(error))
            }
        }
    }

    /// Takes `n` permits at once by one guard, if as many are free, the semaphore is open and newcomers are not shut out. Else
    /// takes none.
    ///
    /// The call takes no memory, and blocks only as `try_acquire` does. No wait asks for more than one permit, because the queue
    /// counts one for each waiter. Do not wait for several one after another: two callers that each have some of them would wait
    /// for each other.
    #[must_use = "a guard that is dropped at once gives back what it holds"]
    pub fn try_acquire_many<'a, R: Wait + Clock>(
        &'a self,
        rt: &'a R,
        n: usize,
    ) -> Result<SemaphoreGuard<'a, R>, TryAcquireError>
        ensures all { IfOk result (λ guard. guard ≡ n) }
    {
        match self.word.try_permits(n as u64) {
            Ok(permit) => Ok(SemaphoreGuard::new(Borrowed { lock: self, rt }, permit)),
            Err(error) => {
                self.word.forbear(rt, n as u64);
                Err(error)
            }
        }
    }

    /// Takes `n` permits at once, like [`try_acquire_many`](Semaphore::try_acquire_many), by one guard that may go to another
    /// thread.
    ///
    /// The guard keeps the semaphore by a share of its `Arc`. The outer error says that no further share could be counted: then
    /// nothing was taken.
    ///
    /// A group gets all its seats or none. The `?` propagates an `AllocError`; the `else` is taken where too few permits are
    /// free for newcomers, or the semaphore is closed:
    ///
    /// ```rust
    /// let Ok(seats) = Semaphore::try_acquire_many_arc(&self.seats, rt, group)? else {
    ///     return Ok(None);
    /// };
    /// ```
    #[must_use = "a guard that is dropped at once gives back what it holds"]
    pub fn try_acquire_many_arc<R: Wait + Clock + Drop>(
        this: &Arc<Self, Global>,
        rt: R,
        n: usize,
    ) -> Result<Result<SemaphoreGuardArc<R>, TryAcquireError>, AllocError>
        ensures all { IfOk result (λ answer. IfOk answer (λ guard. guard ≡ n)) }
    {
        let lock = Arc::try_clone(this)?;
        match lock.word.try_permits(n as u64) {
            Ok(permit) => Ok(Ok(SemaphoreGuardArc::new(Shared { lock, rt }, permit))),
            Err(error) => {
                lock.word.forbear(&rt, n as u64);
                Ok(Err(error))
            }
        }
    }

    /// Asks for one permit, once the returned [`Acquire`] is waited on or polled. Until then nothing happens.
    ///
    /// A thread blocks by `acquire(rt, alloc).wait()` or with a time limit; a task awaits the `Acquire`. `alloc` gives the
    /// memory for a place in the queue, if the caller has to wait.
    ///
    /// A job keeps its permit until it returns. A job that could not wait, or that finds the semaphore closed, returns `None`:
    ///
    /// ```rust
    /// let _permit = permits.acquire(rt, alloc).wait().ok()?;
    /// Some(u64::from(*number) * u64::from(*number))
    /// ```
    #[inline(always)]
    pub fn acquire<'a, R: Wait + Clock>(&'a self, rt: &'a R, alloc: Global) -> Acquire<'a, R> {
        Acquire::new(Obtaining::new(Borrowed { lock: self, rt }, alloc, Taker::default()))
    }

    /// Asks for one permit by a guard that may go to another thread, once the returned [`AcquireArc`] is waited on or polled.
    ///
    /// The wait and the guard keep the semaphore by a share of its `Arc`. An error says that no further share could be counted:
    /// then nothing is asked for.
    ///
    /// The guard goes to a new thread, which gives the permit back after its job. The first `?` propagates an `AllocError`, if
    /// no further share could be counted, and the second an error of the wait:
    ///
    /// ```rust
    /// let permit = Semaphore::acquire_arc(permits, rt, alloc)?.wait()?;
    ///
    /// let answer = job();
    /// drop(permit);
    /// answer
    /// ```
    pub fn acquire_arc<R: Wait + Clock + Drop>(
        this: &Arc<Self, Global>,
        rt: R,
        alloc: Global,
    ) -> Result<AcquireArc<R>, AllocError> {
        let lock = Arc::try_clone(this)?;
        Ok(AcquireArc::new(Obtaining::new(Shared { lock, rt }, alloc, Taker::default())))
    }

    /// Adds `n` permits, all free at once, and notifies as many of the first waiters. No more than
    /// [`MAX_PERMITS`](Semaphore::MAX_PERMITS) become free.
    ///
    /// Where another thread has the queue, that thread notifies. The call may block for the queue only to wake more than eight
    /// waiters.
    ///
    /// Here the semaphore has one permit, and `take_two` waits until another thread has added the second:
    ///
    /// ```rust
    /// let shared = Arc::try_clone(&permits)?;
    /// let other = thread::spawn(&rt, move || {
    ///     thread::sleep(&rt, Duration::from_millis(20));
    ///     shared.add_permits(&rt, 1);
    /// })?;
    /// let free = take_two(&rt, alloc, &permits)?;
    /// ```
    pub fn add_permits<R: Wait>(&self, rt: &R, n: usize) {
        self.word.add(rt, n as u64);
    }

    /// Takes at most `n` of the free permits away for good, and returns how many it took.
    ///
    /// While a waiter starves the call takes none, because what is free then is for the waiters; nor does it at a closed
    /// semaphore. It takes no memory and never blocks.
    ///
    /// The clause of a caller may say how many are taken at most:
    ///
    /// ```rust
    /// pub fn take_off_sale(&self, seats: usize) -> usize
    ///     ensures { result ≤ seats }
    /// {
    ///     self.seats.forget_permits(seats)
    /// }
    /// ```
    pub fn forget_permits(&self, n: usize) -> usize
        ensures at_most { result ≤ n }
    {
        match self.word.try_up_to(n as u64) {
            Some(permit) => permit.forget() as usize,
            None => 0,
        }
    }

    #[inline(always)]
    fn give_back<R: Wait>(&self, rt: &R, permit: Permit)
        requires { permit.origin ≡ self.now.word.slot.name }
    {
        self.word.give_permit(rt, permit);
    }
}

impl Waitable<Taker> for Semaphore {
    type Output = Result<Permit, AcquireError>;

    type Refusal = LockError;

    ghost rules = { λ semaphore.
        gives_what (λ granted. IfOk granted (IsOne semaphore.word.slot.name))
        (λ before after. LosesOnceAtMost before.contender after.contender) };

    ghost source = { λ semaphore. semaphore.source };

    #[inline(always)]
    fn waker_source(&self) -> &WakerSource {
        &self.source
    }

    fn attempt_or_wait<C, X: TaskExchange<Task, C>, R: Wait>(
        &self,
        rt: &R,
        request: &mut Taker,
        exchange: &X,
        on: &mut C,
    ) -> Attempted<Result<Permit, AcquireError>, LockError> {
        let (_, mut held) = self.word.take(rt);
        let Contender { place, losses } = &mut request.contender;
        let attempted = attempt_held(rt, &mut held, place, losses, exchange, on);
        held.put_back(rt);
        attempted
    }

    fn leave<R: Wait>(
        &self,
        rt: &R,
        request: &mut Taker,
    ) -> Result<Option<Result<Permit, AcquireError>>, LockError> {
        let (_, mut held) = self.word.take(rt);
        let coming = held.leave(&mut request.contender.place).coming();
        let permit = held.take_permit(rt, coming.is_notified());
        held.put_back(rt);
        Ok(granted(permit))
    }
}

impl Obtainable<Taker> for Semaphore {
    ghost trying = { λ semaphore.
        tries_for (λ granted. IfOk granted (IsOne semaphore.word.slot.name)) };

    #[inline(always)]
    fn is_waiting(&self, request: &Taker) -> bool {
        request.is_waiting()
    }

    #[inline(always)]
    fn attempt<R: Wait>(
        &self,
        _rt: &R,
        _request: &mut Taker,
    ) -> Option<Result<Permit, AcquireError>> {
        granted(self.word.try_permit())
    }

    fn give_up<R: Wait>(&self, rt: &R, request: &mut Taker) {
        if request.is_waiting() {
            let (_, mut held) = self.word.take(rt);
            held.leave(&mut request.contender.place);
            held.put_back(rt);
        }
    }
}

impl TakesAny<Taker> for Semaphore {
    ghost all_fit = { λ _ _. tt };
}

impl Debug for Semaphore {
    /// Shows how many permits are free.
    fn fmt<W: fmt::Write>(&self, f: &mut Formatter<W>) -> fmt::Result {
        f.debug_struct("Semaphore")
            .field("available", &self.available())
            .finish()
    }
}

// Returns the answer with which an attempt ends the wait: the permits that the attempt took, or the error that the semaphore is
// closed, so that there never will be a permit. Returns `None` if there was no permit for the waiter: the wait goes on.
#[inline(always)]
fn granted(taken: Result<Permit, TryAcquireError>) -> Option<Result<Permit, AcquireError>>
    ensures same { IfSome result (λ granted. IfOk granted (λ permit. taken ≡ Ok permit)) }
{
    match taken {
        Ok(permit) => Some(Ok(permit)),
        Err(TryAcquireError::Closed) => Some(Err(AcquireError::Closed)),
        Err(TryAcquireError::NoPermits) => None,
    }
}

// Attempts for a contender with the queue out, and has a contender that finds no permit wait at the end of the queue. A newcomer
// that finds none only because newcomers are shut out is absent: it tries again.
fn attempt_held<C, X: TaskExchange<Task, C>, R: Wait>(
    rt: &R,
    held: &mut Held<'_, Competing<Permits>, ()>,
    place: &mut Option<Key>,
    losses: &mut u32,
    exchange: &X,
    on: &mut C,
) -> Attempted<Result<Permit, AcquireError>, LockError>
    requires stands { HasState (λ n q. Stands n q.line) held.old }
    ensures of { held.new.word ≡ held.old.word }
    ensures own { OnDone result (λ granted. IfOk granted (IsOne held.old.word.now.slot.name)) }
    ensures closed { OnDone result (λ granted. IfErr granted (λ error. (error ≡ AcquireError.Closed)
        × HasState (λ n _. IsClosed n) held.new)) }
    ensures serves { HasState (λ n q. ServesTheStarving n q.line) held.new }
    ensures place { place.new ≡ key_of result }
    ensures done { OnDone result (λ _. losses.new ≡ losses.old) }
    ensures loses { OnUndone result (HasState (λ _ q. losses.new
        ≡ losses_after losses.old (coming_of place.old q.line)) held.old) }
    ensures none { OnUndone result
        (HasState (λ _ q. coming_of place.old q.line ≡ Notified) held.old
        → HasState (λ n _. free_of n ≡ 0) held.new) }
    ensures waits { OnUndone result
        (HasState (λ _ q. coming_of place.old q.line ≡ New) held.old
        → HasState (λ n _. NoneFor false n) held.new) }
    ensures refused { OnRefused result (losses.new ≡ losses.old) }
    ensures exchanged { Attempts (X.exchanged exchange.now) on.old result on.new }
{
    let arrival = held.come(place, exchange, on);
    let coming = arrival.coming();
    if let Coming::Waits(key) = coming {
        return Attempted::Waits(key);
    }
    match held.take_permit(rt, coming.is_notified()) {
        Ok(permit) => Attempted::Done(Ok(permit)),
        Err(TryAcquireError::Closed) => Attempted::Done(Err(AcquireError::Closed)),
        Err(TryAcquireError::NoPermits) if !coming.is_notified() && held.forbear() => {
            Attempted::Absent
        }
        Err(TryAcquireError::NoPermits) => match held.lose(place, losses, arrival, exchange, on) {
            Ok(key) => Attempted::Waits(key),
            Err(error) => Attempted::Refused(error),
        },
    }
}
