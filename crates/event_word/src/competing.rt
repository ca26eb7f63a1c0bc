//! Threads and tasks that compete for what a lock's number counts.
ghost use Rattle.std.specs.Prelude.{◌≡◌, ◌==◌, ◌^◌, ℕ, ◌<◌, ◌≤◌, Bool, false, true, Some, None, IfOk, OnErr};
ghost use Rattle.std.specs.List.{FoldsTo};
ghost use Rattle.event_wait.specs.Attempted.{Stores};
ghost use Rattle.event_word.specs.Contender.{Comes, Loses, NobodyIsBy, coming_of, count_of, losses_after};
ghost use Rattle.event_word.specs.Free.{Closes, IsClosed, IsOpen, NobodyIsOwed, NobodyIsThere, ServesTheStarving, ServesWith, Stands, StandsIf, all_tasks, free_of, one_starving_is_told};
ghost use Rattle.event_word.specs.Competing.{rules_of};
ghost use Rattle.event_wait.specs.FairQueue.{Forbears, State};

use crate::contender::{Coming, forborne};
use crate::wakes::Room;
use crate::word::Kept;
use event_queue::{Key, RegisterResult, TaskExchange, WakeSink};
use event_wait::{FairQueue, LockError, Task};
use std::alloc::{AllocError, Global};
use std::marker::PhantomData;
use std::mem;

/// The bit of a lock's number that shuts newcomers out.
pub const SHUT: u64 = 0x2000_0000_0000_0000;

/// The bit of a lock's number that says that the lock is closed, or of a mutex that its value is parked. A number below it is
/// open to newcomers.
pub const CLOSED: u64 = 0x1000_0000_0000_0000;

/// Returns how many of the permits or values that threads compete for are free by this number.
pub fn free(number: u64) -> u64
    ensures { result ≡ free_of number }
{
    number % CLOSED
}

/// Returns whether a lock with this number is closed.
pub fn is_closed(number: u64) -> bool
    ensures closed { result ≡ true → IsClosed number }
    ensures open { result ≡ false → IsClosed number → ⊥ }
{
    CLOSED <= number && number < SHUT
}

/// What threads compete for: how many there may be, and whether a thread has the right to a value.
pub trait Counted {
    // What holds of the number, without the bit that shuts newcomers out.
    ghost fits: { ℕ → Type 0 };

    // Whether a thread has the right to the value, by the same number.
    ghost taken: { ℕ → Bool };

    /// Whether more than one may be free at a time, so that more than one waiter may have to be notified.
    const ARE_MANY: bool;

    ghost ARE_MANY: { Bool };

    /// Whether the lock may be closed.
    const CLOSES: bool;

    ghost CLOSES: { Bool };
}

/// Returns whether a lock with this number is closed, if it is a lock that may be.
pub(crate) fn is_closed_for<C: Counted>(number: u64) -> bool
    ensures closed { result ≡ true → Closes C.CLOSES number }
    ensures open { result ≡ false → Closes C.CLOSES number → ⊥ }
{
    C::CLOSES && is_closed(number)
}

/// Any number of permits, up to what the number holds.
pub struct Permits {}

impl Counted for Permits {
    ghost fits = { λ _. Unit {0} };

    ghost taken = { λ _. false };

    const ARE_MANY: bool = true;

    ghost ARE_MANY = { true };

    const CLOSES: bool = true;

    ghost CLOSES = { true };
}

/// One value. The number is 1 while no thread has it, 0 while a thread has the right to it, and [`CLOSED`] while it is parked,
/// which means that the value is a thread's that has not the right to it for a moment.
///
/// `K` is any type. A lock whose crate keeps that type private has a slot that no other crate can name.
pub struct OneValue<K> {
    of: PhantomData<K>,
}

impl<K> Counted for OneValue<K> {
    ghost fits = { λ number. (free_of number ≤ 1) × (number ≤ 2 ^ 60) };

    ghost taken = { λ number. number == 0 };

    const ARE_MANY: bool = false;

    ghost ARE_MANY = { false };

    const CLOSES: bool = false;

    ghost CLOSES = { false };
}

/// The queue of the waiters that compete for what `C` says, with room for their tasks.
#[derive(Drop)]
pub struct Competing<C> {
    pub line: FairQueue<Task>,
    room: Room,
    alloc: Global,
    of: PhantomData<C>,
}

impl<C> Competing<C> {
    /// Makes an empty queue, for a lock whose number is open to newcomers. Takes no memory.
    pub fn new(alloc: Global) -> Self
        ensures stands { (closes : Bool) (number : ℕ) → IsOpen number
            → StandsIf closes number result.line }
        ensures quiet { (many : Bool) → NobodyIsOwed many result.line }
    {
        Competing {
            line: FairQueue::new(alloc),
            room: Room::new(),
            alloc,
            of: PhantomData,
        }
    }
}

impl<C> Competing<C> {
    /// Looks how a contender starts an attempt, and returns that.
    ///
    /// A notified contender leaves the queue; a contender that is not notified stores its task and waits on; a contender without
    /// a place, or that is in the queue no more, is new. Takes memory only if the exchange does.
    pub fn come<O, X: TaskExchange<Task, O>>(
        &mut self,
        place: &mut Option<Key>,
        exchange: &X,
        on: &mut O,
    ) -> Coming
        ensures came { result ≡ coming_of place.old self.old.line }
        ensures comes { Comes (X.exchanged exchange.now) place.old on.old result self.new.line
            place.new on.new }
        ensures serves { (n : ℕ) → ServesTheStarving n self.old.line
            → ServesWith (count_of result) n self.new.line }
    {
        let Some(key) = *place else {
            return Coming::New;
        };
        match self.line.look(key, exchange, on) {
            RegisterResult::Notified(()) => {
                *place = None;
                Coming::Notified
            }
            RegisterResult::Registered => Coming::Waits(key),
            RegisterResult::NeverInserted => {
                *place = None;
                Coming::New
            }
        }
    }

    /// Has a contender whose attempt found nothing wait at the end of the queue, and returns its key.
    ///
    /// A contender that was notified has lost once more, and starves once it has lost [`PATIENCE`](event_wait::starving::PATIENCE)
    /// times. Returns [`LockError::Listen`] if memory runs out or the queue has given out all its serial numbers; an error leaves
    /// the queue, the place and the losses as they were. May allocate.
    pub fn lose<O, X: TaskExchange<Task, O>>(
        &mut self,
        place: &mut Option<Key>,
        losses: &mut u32,
        coming: Coming,
        exchange: &X,
        on: &mut O,
    ) -> Result<Key, LockError>
        ensures place { IfOk result (λ key. place.new ≡ Some key) }
        ensures losses { IfOk result (λ _. losses.new ≡ losses_after losses.old coming) }
        ensures rises { losses.old ≤ losses.new }
        ensures loses { IfOk result (λ key.
            Loses (X.exchanged exchange.now) coming losses.new key self.old.line on.old
            self.new.line on.new) }
        ensures stores { IfOk result (λ _. Stores (X.exchanged exchange.now) on.old on.new) }
        ensures serves { (n : ℕ) → ServesTheStarving n self.old.line
            → ServesTheStarving n self.new.line }
        ensures refused { OnErr result ((place.new ≡ place.old) × (losses.new ≡ losses.old)
            × (self.new.line ≡ self.old.line) × (on.new ≡ on.old)) }
    {
        let lost = if coming.is_notified() {
            losses.saturating_add(1)
        } else {
            *losses
        };
        match self.line.join(exchange, on, forborne(coming, lost)) {
            Ok(key) => {
                *place = Some(key);
                *losses = lost;
                Ok(key)
            }
            Err(error) => Err(LockError::Listen(error)),
        }
    }

    /// Removes a contender from the queue, if it is there, and returns how it would have started an attempt: notified, or else
    /// new.
    pub fn leave(&mut self, place: &mut Option<Key>) -> Coming
        ensures left { NobodyIsBy place.old self.new.line }
        ensures place { place.new ≡ None }
        ensures serves { (n : ℕ) → ServesTheStarving n self.old.line
            → ServesWith (count_of result) n self.new.line }
    {
        let Some(key) = place.take() else {
            return Coming::New;
        };
        if self.line.leave(key) {
            return Coming::Notified;
        }
        Coming::New
    }

    /// Counts a newcomer that is refused for the sake of the first waiter that starves, and strikes that waiter off if the
    /// newcomer is the last to be refused for it, as [`FairQueue::forbear`] does.
    pub fn forbear(&mut self)
        ensures forbears { Forbears self.old.line self.new.line }
        ensures serves { (n : ℕ) → ServesTheStarving n self.old.line
            → ServesTheStarving n self.new.line }
    {
        self.line.forbear();
    }

    /// Notifies all waiters, and leaves an empty queue, so that no contender has a place any more. The tasks go to `sink`.
    pub fn close<K: WakeSink<Task>>(&mut self, sink: &mut K)
        ensures wakes { FoldsTo K.woke sink.old (all_tasks self.old.line) sink.new }
        ensures nobody { NobodyIsThere self.new.line }
    {
        self.line.tell(usize::MAX, sink);
        self.line = FairQueue::new(self.alloc);
    }
}

impl<C: Counted> Competing<C> {
    // Makes room for the task of one more waiter.
    pub(crate) fn make_room(&mut self) -> Result<(), AllocError>
        ensures { self.new ≡ self.old }
    {
        if !C::ARE_MANY {
            return Ok(());
        }
        let waiting = self.line.waiting();
        self.room.make(self.alloc, waiting.saturating_add(1))
    }

    // Returns whether a waiter has to be notified of the next that becomes free. Where at most one is free at a time, one
    // notified waiter is enough for it: until that waiter has come, what is given back needs no look at the queue.
    fn is_owed(&self) -> bool
        ensures none { result ≡ false → NobodyIsOwed C.ARE_MANY self.now.line }
        ensures some { result ≡ true → NobodyIsOwed C.ARE_MANY self.now.line → ⊥ }
    {
        self.line.waiting() > 0 && (C::ARE_MANY || self.line.told() == 0)
    }
}

impl<C: Counted> Kept for Competing<C> {
    ghost rules = { rules_of C.fits C.taken C.CLOSES C.ARE_MANY };

    fn number(&self, number: u64) -> u64 {
        if is_closed_for::<C>(number) {
            return number;
        }
        let unshut = number % SHUT;
        if self.line.starving() > 0 {
            unshut + SHUT
        } else {
            unshut
        }
    }

    fn shut(number: u64) -> u64 {
        if number >= CLOSED {
            return number;
        }
        number + SHUT
    }

    fn settle<K: WakeSink<Task>>(&mut self, number: u64, sink: &mut K) -> bool {
        if is_closed_for::<C>(number) {
            self.close(sink);
            return false;
        }
        self.line.tell(free(number) as usize, sink);
        self.is_owed()
    }

    fn swap_room(&mut self, room: &mut Room)
        ensures { self.new ≡ self.old }
    {
        mem::swap(&mut self.room, room);
    }

    ghost promises = { λ number state stands. stands.serves };
}

/// Proves that a waiter that starves and is notified finds something free, while the state is at home. Does nothing at run time.
pub fn the_starving_find_one<W>()
    ensures { (number : ℕ) (line : State W) → Stands number line → one_starving_is_told line ≡ true
        → 0 < free_of number }
{}
