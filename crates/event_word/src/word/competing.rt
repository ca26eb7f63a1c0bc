//! What contenders for a lock do with its state out.
ghost use Rattle.std.specs.Prelude.{◌≡◌, ◌+◌, ◌<◌, ◌≤◌, false, true, Some, None, IfOk, OnErr};
ghost use Rattle.event_word.specs.Contender.{Comes, Loses, NobodyIsBy, coming_of, count_of, losses_after};
ghost use Rattle.event_word.specs.Free.{ServesTheStarving, ServesWith, StandsIf, free_of, IsClosed, IsShut};
ghost use Rattle.event_word.specs.Held.{HasState};
ghost use Rattle.event_wait.specs.Attempted.{Stores};
ghost use Rattle.event_wait.specs.FairQueue.{Forbears};

use super::held::Held;
use super::{OUT, Word};
use crate::competing::{Competing, Counted, SHUT, free, is_closed_for};
use crate::contender::Arrival;
use crate::counts::Counts;
use event_queue::{Key, ListenError, TaskExchange};
use event_wait::{LockError, Task};
use std::alloc::AllocError;
use std::sync::Wait;

impl<C: Counted, V> Word<Competing<C>, V> {
    /// Returns how many permits or values were free a moment ago.
    #[inline(always)]
    pub fn free(&self) -> u64 {
        free(self.number())
    }

    /// Returns the counts of the lock, all at one moment of this call.
    ///
    /// The call takes the state out for that. May block until the state is at home. Allocates nothing.
    pub fn counts<R: Wait>(&self, rt: &R) -> Counts
        ensures nobody { result.notified < result.free → result.waiting ≡ 0 }
        ensures shuts { (0 < result.starving → result.is_shut ≡ true)
            × (result.is_shut ≡ true → 0 < result.starving) }
        ensures closed { result.is_closed ≡ true
            → result.notified + result.waiting + result.starving ≡ 0 }
        ensures closes { result.is_closed ≡ true → C.CLOSES ≡ true }
    {
        let (number, mut held) = self.take(rt);
        let counts = held.counted(number);
        held.put_back(rt);
        counts
    }
}

impl<C: Counted, V> Word<Competing<C>, V> {
    /// Counts a newcomer whose attempt found nothing, as [`Held::forbear`] does, where the state is at home. Does nothing where
    /// something else than a waiter that starves kept the newcomer from it.
    ///
    /// The attempt asked for `wanted` permits or values. The call costs one load where newcomers are not shut out. Where they are,
    /// it takes the state and puts it back, for which it may block only to wake more than a few tasks. Takes no memory.
    #[inline(always)]
    pub fn forbear<R: Wait>(&self, rt: &R, wanted: u64) {
        if shuts_out_alone(self.number(), wanted) {
            self.forbear_at_home(rt);
        }
    }

    #[cold]
    #[inline(never)]
    fn forbear_at_home<R: Wait>(&self, rt: &R) {
        let (seen, seat) = self.look();
        if seen % 2 == 1 {
            return;
        }
        if let Ok(mut held) = self.take_step(seat, seen, seen - seen % 4 + OUT) {
            held.forbear();
            held.put_back(rt);
        }
    }
}

// Returns whether a newcomer that wants so many gets none by this number only because newcomers are shut out.
fn shuts_out_alone(number: u64, wanted: u64) -> bool {
    number >= SHUT && free(number) >= wanted
}

impl<'a, C: Counted, V> Held<'a, Competing<C>, V> {
    fn counted(&mut self, number: u64) -> Counts
        requires stands { HasState (λ n q. (n ≡ number) × StandsIf C.CLOSES n q.line) self.old }
        ensures of { self.new.word ≡ self.old.word }
        ensures serves { HasState (λ n q. ServesTheStarving n q.line) self.new }
        ensures nobody { result.notified < result.free → result.waiting ≡ 0 }
        ensures shuts { (0 < result.starving → result.is_shut ≡ true)
            × (result.is_shut ≡ true → 0 < result.starving) }
        ensures closed { result.is_closed ≡ true
            → result.notified + result.waiting + result.starving ≡ 0 }
        ensures closes { result.is_closed ≡ true → C.CLOSES ≡ true }
    {
        let line = &self.claim.state_mut().line;
        Counts {
            free: free(number),
            notified: line.told(),
            waiting: line.waiting(),
            starving: line.starving(),
            is_shut: number >= SHUT,
            is_closed: is_closed_for::<C>(number),
        }
    }

    /// Looks how a contender starts an attempt, by its place in the queue if it has one, and returns that.
    ///
    /// A notified contender leaves the queue; a contender that is not notified stores the task that the exchange makes and waits
    /// on.
    pub fn come<O, X: TaskExchange<Task, O>>(
        &mut self,
        place: &mut Option<Key>,
        exchange: &X,
        on: &mut O,
    ) -> Arrival
        requires stands { HasState (λ n q. StandsIf C.CLOSES n q.line) self.old }
        ensures of { self.new.word ≡ self.old.word }
        ensures serves { HasState (λ n q. ServesWith (count_of result) n q.line) self.new }
        ensures number { self.new.seat.view.number ≡ self.old.seat.view.number }
        ensures came { HasState (λ _ q. result ≡ coming_of place.old q.line) self.old }
        ensures comes { HasState (λ _ q.
            Comes (X.exchanged exchange.now) place.old on.old result q.line place.new on.new)
            self.new }
    {
        Arrival::new(self.claim.state_mut().come(place, exchange, on))
    }

    /// Has a contender whose attempt found nothing wait at the end of the queue, and returns its key.
    ///
    /// `losses` says how often the contender has lost then. Returns [`LockError::Listen`] if memory runs out or the queue has
    /// given out all its serial numbers; an error leaves the place and the losses as they were. May allocate.
    pub fn lose<O, X: TaskExchange<Task, O>>(
        &mut self,
        place: &mut Option<Key>,
        losses: &mut u32,
        arrival: Arrival,
        exchange: &X,
        on: &mut O,
    ) -> Result<Key, LockError>
        requires serves { HasState (λ n q. ServesTheStarving n q.line) self.old }
        ensures of { self.new.word ≡ self.old.word }
        ensures serves { HasState (λ n q. ServesTheStarving n q.line) self.new }
        ensures number { self.new.seat.view.number ≡ self.old.seat.view.number }
        ensures place { IfOk result (λ key. place.new ≡ Some key) }
        ensures losses { IfOk result (λ _. losses.new ≡ losses_after losses.old arrival) }
        ensures loses { IfOk result (λ key. HasState (λ _ before. HasState (λ _ after.
            Loses (X.exchanged exchange.now) arrival losses.new key before.line on.old after.line
            on.new) self.new) self.old) }
        ensures waits { IfOk result (λ _. Stores (X.exchanged exchange.now) on.old on.new) }
        ensures refused { OnErr result ((place.new ≡ place.old) × (losses.new ≡ losses.old)
            × (on.new ≡ on.old)) }
    {
        let state = self.claim.state_mut();
        if let Err(AllocError) = state.make_room() {
            return Err(LockError::Listen(ListenError::Memory));
        }
        state.lose(place, losses, arrival.coming(), exchange, on)
    }

    /// Counts a newcomer that found nothing, if it found nothing only because newcomers are shut out, and returns whether that is
    /// so: then the newcomer tries again, and joins no queue.
    ///
    /// The newcomer is refused for the sake of the first waiter that starves. That waiter is struck off if the newcomer is the
    /// last to be refused for it: it starves no more, and leaves the queue if it was notified. So newcomers are shut out only for
    /// a while by a waiter that does not come.
    pub fn forbear(&mut self) -> bool
        requires serves { HasState (λ n q. ServesTheStarving n q.line) self.old }
        ensures of { self.new.word ≡ self.old.word }
        ensures serves { HasState (λ n q. ServesTheStarving n q.line) self.new }
        ensures number { self.new.seat.view.number ≡ self.old.seat.view.number }
        ensures state { result ≡ false → self.new.claim.state ≡ self.old.claim.state }
        ensures forbears { result ≡ true → HasState (λ _ before. HasState (λ _ after.
            Forbears before.line after.line) self.new) self.old }
    {
        if !shuts_out_alone(self.word.number(), 1) {
            return false;
        }
        self.claim.state_mut().forbear();
        true
    }

    /// Removes a contender from the queue, if it is there, and returns how it would have started an attempt: notified, or else
    /// new.
    pub fn leave(&mut self, place: &mut Option<Key>) -> Arrival
        requires stands { HasState (λ n q. StandsIf C.CLOSES n q.line) self.old }
        ensures of { self.new.word ≡ self.old.word }
        ensures serves { HasState (λ n q. ServesWith (count_of result) n q.line) self.new }
        ensures left { HasState (λ _ q. NobodyIsBy place.old q.line) self.new }
        ensures place { place.new ≡ None }
    {
        Arrival::new(self.claim.state_mut().leave(place))
    }
}
