//! The state of a barrier.
ghost use Rattle.std.specs.Prelude.{◌≡◌, ◌+◌, ◌<◌, ◌≤◌, max, [], length, true, false, None, Err, IfSome};
ghost use Rattle.event_queue.specs.Exchange.{RegistersWith};
ghost use Rattle.event_queue.specs.Insert.{Inserts};
ghost use Rattle.event_queue.specs.Key.{without};
ghost use Rattle.event_queue.specs.Queue.{order_of};
ghost use Rattle.event_wait.specs.Attempted.{OnDone, OnRefused, OnWaits};
ghost use Rattle.event_wait.specs.Joining.{Comes, IfRefused};
ghost use Rattle.event_wait.specs.Line.{HandsOut, Looked, OnGranted, as_told, left_by};
ghost use Rattle.event_monitor.specs.Rounds.{NobodyWaitsInVain};

use crate::lock::Waited;
use event_queue::{Key, List, ListenError, RegisterResult, TaskExchange, WakeSink};
use event_wait::waiters::{Left, hand_all, join_line, leave_line, look_for};
use event_wait::{Attempted, Task};
use std::alloc::Global;
use std::marker::Model;

/// The end of a round, for one caller. A contract sees whether the caller was the last to arrive. Only a step of the state
/// below makes an `Ended`.
#[derive(Drop)]
pub struct Ended {
    is_leader: bool,
}

impl Model for Ended {
    ghost use Rattle.std.specs.Prelude.{Bool};

    ghost Value = { Bool };

    ghost view = { λ ended. ended.is_leader };
}

impl Ended {
    /// Returns whether the caller was the last to arrive.
    pub fn is_leader(&self) -> bool
        ensures { result ≡ self.now }
    {
        self.is_leader
    }
}

/// For how many the barrier is, how many have arrived in this round, and their queue.
#[derive(Drop)]
pub struct Rounds<W> {
    parties: usize,
    arrived: usize,
    line: List<(), W>,
}

impl<W> Model for Rounds<W> {
    ghost use Rattle.event_monitor.specs.Rounds.{State, NobodyWaitsInVain};

    ghost Value = { State W };

    ghost view = { λ s. record { parties = s.parties; arrived = s.arrived; line = s.line } };

    ghost invariant = { λ s. NobodyWaitsInVain
        (record { parties = s.parties; arrived = s.arrived; line = s.line }) };
}

impl<W> Rounds<W> {
    /// Makes the state of a barrier at which nobody has arrived.
    pub fn new(alloc: Global, parties: usize) -> Self
        ensures parties { result.parties ≡ parties }
        ensures arrived { result.arrived ≡ 0 }
    {
        Rounds {
            parties,
            arrived: 0,
            line: List::new(alloc),
        }
    }

    /// Ends the round if all others have arrived, and wakes them.
    pub fn try_end<S: WakeSink<W>>(&mut self, sink: &mut S) -> Option<Ended>
        ensures ends { IfSome result (λ is_leader. (is_leader ≡ true)
            × (self.old.parties ≤ self.old.arrived + 1) × (self.new.arrived ≡ 0)
            × HandsOut S.woke (length self.old.line.waiting) self.old.line self.new.line
            sink.old sink.new) }
        ensures early { result ≡ None → (self.old.arrived + 1 < self.old.parties)
            × (self.new ≡ self.old) × (sink.new ≡ sink.old) }
        ensures parties { self.new.parties ≡ self.old.parties }
    {
        if self.arrived + 1 < self.parties {
            return None;
        }
        hand_all(&mut self.line, sink);
        self.arrived = 0;
        Some(Ended { is_leader: true })
    }

    /// Arrives: the last caller ends the round, and wakes all waiters; the other callers wait, with the task that the exchange
    /// makes.
    pub fn arrive<C, X: TaskExchange<W, C>, S: WakeSink<W>>(
        &mut self,
        exchange: &X,
        on: &mut C,
        sink: &mut S,
    ) -> Attempted<Ended, ListenError>
        ensures ends { OnDone result (λ is_leader. (is_leader ≡ true)
            × (self.old.parties ≤ self.old.arrived + 1) × (self.new.arrived ≡ 0)
            × HandsOut S.woke (length self.old.line.waiting) self.old.line self.new.line
            sink.old sink.new) }
        ensures joins { Comes (X.exchanged exchange.now) self.old.line on.old result
            self.new.line on.new }
        ensures arrives { OnWaits result ((self.new.arrived ≡ self.old.arrived + 1)
            × (sink.new ≡ sink.old)) }
        ensures parties { self.new.parties ≡ self.old.parties }
        ensures refused { OnRefused result ((self.new ≡ self.old) × (sink.new ≡ sink.old)) }
        ensures reason { IfRefused result (λ error. Inserts self.old.line (Err error) self.new.line
            × (self.old.arrived + 1 < self.old.parties)) }
    {
        if let Some(ended) = self.try_end(sink) {
            return Attempted::Done(ended);
        }
        match join_line(&mut self.line, exchange, on) {
            Ok(key) => {
                self.arrived += 1;
                Attempted::Waits(key)
            }
            Err(error) => Attempted::Refused(error),
        }
    }

    /// Returns whether the round of this waiter has ended: then the waiter leaves the queue.
    pub fn look_for_end<C, X: TaskExchange<W, C>>(
        &mut self,
        key: Key,
        exchange: &X,
        on: &mut C,
    ) -> RegisterResult<Ended>
        ensures looked { Looked (X.exchanged exchange.now) on.old result on.new }
        ensures parties { self.new.parties ≡ self.old.parties }
        ensures arrived { self.new.arrived ≡ self.old.arrived }
        ensures told { length self.new.line.told + left_by result ≡ length self.old.line.told }
        ensures follows { OnGranted result (λ is_leader. is_leader ≡ false) }
        ensures step { RegistersWith (X.exchanged exchange.now) self.old.line key on.old
            (as_told result) self.new.line on.new }
    {
        match look_for(&mut self.line, key, exchange, on) {
            RegisterResult::Notified(()) => RegisterResult::Notified(Ended { is_leader: false }),
            RegisterResult::Registered => RegisterResult::Registered,
            RegisterResult::NeverInserted => RegisterResult::NeverInserted,
        }
    }

    /// Takes this waiter out of the queue. If its round has not ended, the waiter counts as a caller that has not arrived.
    pub fn leave_round(&mut self, key: Key) -> Option<Ended>
    where
        W: Drop,
        ensures ended { IfSome result (λ is_leader. (is_leader ≡ false)
            × (length self.new.line.told + 1 ≡ length self.old.line.told)
            × (self.new.arrived ≡ self.old.arrived)) }
        ensures early { result ≡ None → length self.new.line.told ≡ length self.old.line.told }
        ensures untold { self.old.arrived ≤ self.new.arrived + 1 }
        ensures parties { self.new.parties ≡ self.old.parties }
        ensures others { order_of self.new.line ≡ without key (order_of self.old.line) }
    {
        match leave_line(&mut self.line, key) {
            Left::Told => Some(Ended { is_leader: false }),
            Left::Waited => {
                self.arrived -= 1;
                None
            }
            Left::Absent => None,
        }
    }

    /// States that nobody waits in vain: just the callers wait that have arrived in this round, and at least one party has not
    /// arrived.
    pub fn nobody_waits_in_vain(&self)
        ensures { NobodyWaitsInVain self.now }
    {
        let _ = &self.parties;
    }
}

impl<W> Waited for Rounds<W> {
    fn waiting(&self) -> usize
        ensures { result ≡ length self.now.line.waiting }
    {
        self.line.total_listeners() - self.line.listeners_notified()
    }
}
