//! The state of a cell that is set once.
ghost use Rattle.std.specs.Prelude.{◌≡◌, ◌+◌, ◌<◌, ◌≤◌, ◌++◌, true, false, [], is_some, length, None, IfSome, MatchOption, Err};
ghost use Rattle.std.specs.List.{FoldsTo};
ghost use Rattle.event_queue.specs.Insert.{Inserts};
ghost use Rattle.event_queue.specs.Queue.{tasks_of};
ghost use Rattle.event_queue.specs.Exchange.{RegistersWith};
ghost use Rattle.event_queue.specs.Key.{without};
ghost use Rattle.event_queue.specs.Queue.{order_of};
ghost use Rattle.event_wait.specs.Attempted.{OnDone, OnRefused, OnWaits};
ghost use Rattle.event_wait.specs.Joining.{Comes, IfRefused};
ghost use Rattle.event_wait.specs.Line.{HandsOut, Looked, OnGranted, TellsAll, as_told, is_granted, left_by};
ghost use Rattle.event_monitor.specs.Once.{MakersStay, NobodyWaitsInVain, making_at, making_by, turn_at, turns};

use crate::lock::Waited;
use crate::ticket::waiting;
use event_queue::{Key, List, ListenError, RegisterResult, TaskExchange, WakeSink};
use event_wait::waiters::{hand_all, hand_out, join_line, leave_line, look_for};
use event_wait::{Attempted, Task};
use std::alloc::Global;
use std::marker::Model;

/// A proof that the value is set. Only a step of the state below makes an `IsSet`.
#[derive(Clone, Copy)]
pub struct IsSet(());

/// What a caller is to do that would make the value.
#[derive(Clone, Copy)]
pub enum Turn {
    /// Make the value.
    Make,
    /// Nothing more: the caller has made the value.
    Made,
    /// Use the value: it is set.
    Use,
}

/// Whether somebody makes the value, whether the value is set, the queue of the waiters that would make it, and the queue of
/// the waiters that would use it.
#[derive(Drop)]
pub struct Once<W> {
    making: usize,
    is_set: bool,
    makers: List<(), W>,
    readers: List<(), W>,
}

impl<W> Model for Once<W> {
    ghost use Rattle.event_monitor.specs.Once.{State, NobodyWaitsInVain};

    ghost Value = { State W };

    ghost view = { λ s. record {
      making = s.making;
      is_set = s.is_set;
      makers = s.makers;
      readers = s.readers;
    } };

    ghost invariant = { λ s. NobodyWaitsInVain
        (record { making = s.making; is_set = s.is_set; makers = s.makers; readers = s.readers }) };
}

impl<W> Once<W> {
    /// Makes the state of a cell whose value nobody makes yet.
    pub fn new(alloc: Global) -> Self
        ensures unset { result.is_set ≡ false }
        ensures idle { result.making ≡ 0 }
    {
        Once {
            making: 0,
            is_set: false,
            makers: List::new(alloc),
            readers: List::new(alloc),
        }
    }

    /// Returns the turn of a newcomer that would make the value, unless another caller makes it or is notified to make it.
    pub fn try_make(&mut self) -> Option<Turn>
        ensures kept { self.new.is_set ≡ self.old.is_set }
        ensures turn { IfSome result (λ turn. turn ≡ turn_at self.old) }
        ensures takes { IfSome result (λ _. self.new.making ≡ making_at self.old) }
        ensures none { result ≡ None → (self.new ≡ self.old) × (self.old.is_set ≡ false)
            × (0 < turns self.old) }
        ensures queues { (self.new.makers ≡ self.old.makers)
            × (self.new.readers ≡ self.old.readers) }
    {
        if self.is_set {
            return Some(Turn::Use);
        }
        if self.making > 0 || self.makers.is_notified() {
            return None;
        }
        self.making = 1;
        Some(Turn::Make)
    }

    /// Returns whether the value is set, for a newcomer that would use it.
    pub fn try_use(&self) -> Option<IsSet>
        ensures { MatchOption result (self.now.is_set ≡ false) (λ _. self.now.is_set ≡ true) }
    {
        if self.is_set {
            return Some(IsSet(()));
        }
        None
    }

    /// Returns the turn of a newcomer that would make the value. The newcomer waits while another caller makes the value, with
    /// the task that the exchange makes.
    pub fn come_to_make<C, X: TaskExchange<W, C>>(
        &mut self,
        exchange: &X,
        on: &mut C,
    ) -> Attempted<Turn, ListenError>
        ensures kept { self.new.is_set ≡ self.old.is_set }
        ensures turn { OnDone result (λ turn. turn ≡ turn_at self.old) }
        ensures takes { OnDone result (λ _. (self.new.making ≡ making_at self.old)
            × (self.new.makers ≡ self.old.makers)) }
        ensures joins { Comes (X.exchanged exchange.now) self.old.makers on.old result
            self.new.makers on.new }
        ensures waits { OnWaits result ((self.new.making ≡ self.old.making)
            × (0 < turns self.old)) }
        ensures refused { OnRefused result (self.new ≡ self.old) }
        ensures reason { IfRefused result (λ error. Inserts self.old.makers (Err error) self.new.makers
            × (0 < turns self.old)) }
        ensures readers { self.new.readers ≡ self.old.readers }
    {
        if let Some(turn) = self.try_make() {
            return Attempted::Done(turn);
        }
        waiting(join_line(&mut self.makers, exchange, on))
    }

    /// Returns that the value is set, to a newcomer that would use it. The newcomer waits until the value is set, with the task
    /// that the exchange makes.
    pub fn come_to_use<C, X: TaskExchange<W, C>>(
        &mut self,
        exchange: &X,
        on: &mut C,
    ) -> Attempted<IsSet, ListenError>
        ensures kept { self.new.is_set ≡ self.old.is_set }
        ensures set { OnDone result (λ _. (self.old.is_set ≡ true) × (self.new ≡ self.old)) }
        ensures joins { Comes (X.exchanged exchange.now) self.old.readers on.old result
            self.new.readers on.new }
        ensures waits { OnWaits result (self.old.is_set ≡ false) }
        ensures refused { OnRefused result (self.new ≡ self.old) }
        ensures reason { IfRefused result (λ error.
            Inserts self.old.readers (Err error) self.new.readers × (self.old.is_set ≡ false)) }
        ensures makers { MakersStay self.old self.new }
    {
        if self.is_set {
            return Attempted::Done(IsSet(()));
        }
        waiting(join_line(&mut self.readers, exchange, on))
    }

    /// Returns what this waiter is to do, if it is the waiter's turn: then the waiter leaves the queue.
    pub fn look_to_make<C, X: TaskExchange<W, C>>(
        &mut self,
        key: Key,
        exchange: &X,
        on: &mut C,
    ) -> RegisterResult<Turn>
        ensures step { RegistersWith (X.exchanged exchange.now) self.old.makers key on.old
            (as_told result) self.new.makers on.new }
        ensures looked { Looked (X.exchanged exchange.now) on.old result on.new }
        ensures turn { OnGranted result (λ turn. turn ≡ turn_at self.old) }
        ensures making { self.new.making ≡ making_by (is_granted result) self.old }
        ensures kept { self.new.is_set ≡ self.old.is_set }
        ensures readers { self.new.readers ≡ self.old.readers }
    {
        match look_for(&mut self.makers, key, exchange, on) {
            RegisterResult::Notified(()) => {
                if self.is_set {
                    return RegisterResult::Notified(Turn::Use);
                }
                self.making = 1;
                RegisterResult::Notified(Turn::Make)
            }
            RegisterResult::Registered => RegisterResult::Registered,
            RegisterResult::NeverInserted => RegisterResult::NeverInserted,
        }
    }

    /// Returns whether the value is set, for a waiter that would use it: then the waiter leaves the queue.
    pub fn look_to_use<C, X: TaskExchange<W, C>>(
        &mut self,
        key: Key,
        exchange: &X,
        on: &mut C,
    ) -> RegisterResult<IsSet>
        ensures step { RegistersWith (X.exchanged exchange.now) self.old.readers key on.old
            (as_told result) self.new.readers on.new }
        ensures looked { Looked (X.exchanged exchange.now) on.old result on.new }
        ensures kept { self.new.is_set ≡ self.old.is_set }
        ensures makers { MakersStay self.old self.new }
    {
        match look_for(&mut self.readers, key, exchange, on) {
            RegisterResult::Notified(()) => RegisterResult::Notified(IsSet(())),
            RegisterResult::Registered => RegisterResult::Registered,
            RegisterResult::NeverInserted => RegisterResult::NeverInserted,
        }
    }

    /// Takes a waiter that would make the value out of its queue, and returns its turn if the waiter was notified.
    pub fn leave_making(&mut self, key: Key) -> Option<Turn>
    where
        W: Drop,
        ensures has { MatchOption result (length self.new.makers.told ≡ length self.old.makers.told)
            (λ _. length self.new.makers.told + 1 ≡ length self.old.makers.told) }
        ensures turn { IfSome result (λ turn. turn ≡ turn_at self.old) }
        ensures making { self.new.making ≡ making_by (is_some result) self.old }
        ensures kept { self.new.is_set ≡ self.old.is_set }
        ensures others { order_of self.new.makers ≡ without key (order_of self.old.makers) }
        ensures readers { self.new.readers ≡ self.old.readers }
    {
        if !leave_line(&mut self.makers, key).was_told() {
            return None;
        }
        if self.is_set {
            return Some(Turn::Use);
        }
        self.making = 1;
        Some(Turn::Make)
    }

    /// Takes a waiter that would use the value out of its queue. Returns that the value is set, if the waiter was notified.
    pub fn leave_using(&mut self, key: Key) -> Option<IsSet>
    where
        W: Drop,
        ensures has { MatchOption result
            (length self.new.readers.told ≡ length self.old.readers.told)
            (λ _. length self.new.readers.told + 1 ≡ length self.old.readers.told) }
        ensures kept { self.new.is_set ≡ self.old.is_set }
        ensures others { order_of self.new.readers ≡ without key (order_of self.old.readers) }
        ensures makers { MakersStay self.old self.new }
    {
        if leave_line(&mut self.readers, key).was_told() {
            return Some(IsSet(()));
        }
        None
    }

    /// Gives the turn up, and hands it to the next waiter that would make the value.
    pub fn give_up<S: WakeSink<W>>(&mut self, sink: &mut S)
        ensures kept { self.new.is_set ≡ self.old.is_set }
        ensures next { 0 < self.old.making → (self.new.making ≡ 0)
            × HandsOut S.woke 1 self.old.makers self.new.makers sink.old sink.new }
        ensures others { self.new.readers ≡ self.old.readers }
        ensures unchanged { self.old.making ≡ 0 → (self.new ≡ self.old) × (sink.new ≡ sink.old) }
    {
        if self.making == 0 {
            return;
        }
        self.making = 0;
        hand_out(&mut self.makers, 1, sink);
    }

    /// Notes that the value is set, and notifies all waiters: nobody waits any more.
    pub fn set<S: WakeSink<W>>(&mut self, sink: &mut S)
        ensures set { (self.new.is_set ≡ true) × (self.new.making ≡ 0) }
        ensures makers { TellsAll self.old.makers self.new.makers }
        ensures readers { TellsAll self.old.readers self.new.readers }
        ensures wakes { FoldsTo S.woke sink.old
            (tasks_of (length self.old.makers.waiting) self.old.makers ++ tasks_of
            (length self.old.readers.waiting) self.old.readers) sink.new }
    {
        self.making = 0;
        self.is_set = true;
        hand_all(&mut self.makers, sink);
        hand_all(&mut self.readers, sink);
    }

    /// States that nobody waits in vain: while the value is not set, a caller makes it or is notified to make it, or nobody
    /// waits to make it; once the value is set, nobody waits.
    pub fn nobody_waits_in_vain(&self)
        ensures { NobodyWaitsInVain self.now }
    {
        let _ = &self.making;
    }
}

impl Once<Task> {
    /// Takes a turn back: what was made is set, and a turn that was given up goes to the next.
    pub(crate) fn give_back<K: WakeSink<Task>>(&mut self, turn: Turn, sink: &mut K) {
        match turn {
            Turn::Make => self.give_up(sink),
            Turn::Made => self.set(sink),
            Turn::Use => {}
        }
    }
}

impl<W> Waited for Once<W> {
    fn waiting(&self) -> usize {
        let makers = self.makers.total_listeners() - self.makers.listeners_notified();
        let readers = self.readers.total_listeners() - self.readers.listeners_notified();
        makers.saturating_add(readers)
    }
}
