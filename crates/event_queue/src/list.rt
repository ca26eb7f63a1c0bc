//! The queue: listeners in the order in which they were inserted, of which a front is notified and the others wait.
ghost use Rattle.std.specs.Prelude.{◌≡◌, ◌+◌, ◌<◌, ◌≤◌, ◌↔◌, [], ◌∷◌, length, take, IsTrue, IsFalse, IsOk, IsSome, OnOk, OnErr, IfOk, IfErr, Err};
ghost use Rattle.std.specs.List.{FoldsTo};
ghost use Rattle.std.specs.Map.{keys_of, lookup};
ghost use Rattle.event_queue.specs.Key.{is_key};
ghost use Rattle.event_queue.specs.Queue.{IsQueue, how_many, after_telling, tasks_of};
ghost use Rattle.event_queue.specs.Insert.{HasSerialLeft, JoinsStoring, Inserts, IsInsertion, IsInsertionBy};
ghost use Rattle.event_queue.specs.Register.{Registers, IsRegistration};
ghost use Rattle.event_queue.specs.Exchange.{RegistersWith, InsertsWith};
ghost use Rattle.event_queue.specs.StoredTask.{answer_of};
ghost use Rattle.event_queue.specs.Remove.{PassedAs, woken_by_passing, after_passing, IsRemoval};
ghost use Rattle.event_queue.specs.Notify.{told_by, IsNotification};
ghost use Rattle.event_queue.specs.Counts.{counted_on};
ghost use Rattle.event_queue.specs.Nodes.{visits_of_change};
ghost use Rattle.event_queue.specs.Visits.{visits_of_insertion, visits_of_registration, visits_of_removal};

use crate::exchange::TaskExchange;
use crate::key::Key;
use crate::node::{Chain, Count, Side, Steps};
use crate::notice::Notice;
use crate::notify::Notification;
use crate::reply::{ListenError, NotifyError, RegisterResult, State};
use crate::stored_task::{Exchanging, Storing};
use crate::wake::WakeSink;
use std::alloc::{AllocError, Global};
use std::marker::Model;
use std::sync::ledger::Ledger;

/// A queue of listeners, of which a front is *notified* (`told` in the clauses), and the others *wait*.
///
/// A notification picks the first listeners that wait. Each listener that is notified keeps a tag, a value of type `T`, until
/// the tag is taken or the listener is removed. A listener that waits may store a task, a value of type `W`, which a
/// notification wakes. Each listener is named by a [`Key`]. No call takes a lock, blocks or panics, unless a sink, an
/// exchange or a notification of the caller does.
///
/// Seven calls count in [`Steps`] how many nodes of other listeners they visit, and how often they look up a key. Each of
/// these has a namesake that counts nothing, for example [`insert_uncounted`](List::insert_uncounted), for callers that need
/// no counts.
#[derive(Drop)]
pub struct List<T, W> {
    pub(crate) chain: Chain<Notice<T>, W>,
    next_serial: u64,
}

impl<T, W> Model for List<T, W> {
    ghost use Rattle.event_queue.specs.Queue.{Queue, IsQueue};

    ghost Value = { Queue T W };

    ghost view = { λ list. record {
      told = list.chain.before;
      waiting = list.chain.after;
      next_serial = list.next_serial;
      spare = list.chain.spare;
    } };

    ghost invariant = { λ list. IsQueue (record {
      told = list.chain.before;
      waiting = list.chain.after;
      next_serial = list.next_serial;
      spare = list.chain.spare;
    }) };
}

// Returns the answer of a registration that found this.
#[inline(always)]
pub(crate) fn answer<T>(found: Option<Side<Notice<T>, ()>>) -> RegisterResult<T>
    ensures value { result ≡ answer_of found }
    ensures visits { visits_of_registration result ≡ visits_of_change found }
{
    match found {
        Some(Side::Before(notice)) => {
            let Notice { additional: _, tag } = notice;
            RegisterResult::Notified(tag)
        }
        Some(Side::After(())) => RegisterResult::Registered,
        None => RegisterResult::NeverInserted,
    }
}

impl<T, W> List<T, W> {
    /// Makes an empty queue, whose first listener gets the serial number 0. Takes no memory.
    pub fn new(alloc: Global) -> Self
        ensures empty { result ≡ record { told = []; waiting = []; next_serial = 0; spare = 0 } }
        ensures queue { IsQueue result }
    {
        Self::starting_at(alloc, 0)
    }

    /// Makes an empty queue, whose first listener gets the serial number `first`. Takes no memory.
    ///
    /// The serial numbers rise by one with each insertion, and no listener gets `u64::MAX`. So a queue that starts at a
    /// greater number has fewer serial numbers to give.
    pub fn starting_at(alloc: Global, first: u64) -> Self
        ensures empty { result ≡ record {
          told = [];
          waiting = [];
          next_serial = first;
          spare = 0;
        } }
        ensures queue { IsQueue result }
    {
        List {
            chain: Chain::new(alloc),
            next_serial: first,
        }
    }

    /// Makes room for `n` more listeners, so that the next `n` insertions take no memory.
    ///
    /// Takes memory only if fewer than `n` slots are *spare*, which means made and free for a new listener. The call works
    /// also if the serial numbers are used up. The call returns an error if there is no memory, or if the queue would have
    /// more than 2^32 slots, because a key has 32 bits for its slot. After an error fewer than `n` slots are spare, but no
    /// fewer than before, because slots that were made stay. An error leaves the listeners and the next serial number as they
    /// were.
    pub fn reserve(&mut self, n: usize) -> Result<(), AllocError>
        ensures room { OnOk result (n ≤ self.new.spare) }
        ensures listeners { self.new ≡ record self.old { spare = self.new.spare } }
        ensures kept { self.old.spare ≤ self.new.spare }
        ensures succeeds { n ≤ self.old.spare → IsOk result }
        ensures too_few { OnErr result (self.new.spare < n) }
        ensures queue { IsQueue self.new }
    {
        self.chain.reserve(n)
    }

    /// Inserts a listener at the end of the queue, which waits with no task stored, and returns its key.
    ///
    /// Returns [`ListenError::SerialsUsedUp`] if the queue has given out all its serial numbers, and [`ListenError::Memory`]
    /// if there is no memory. Both errors leave the queue as it was. Takes memory only if [`spare`](List::spare) is 0. Adds
    /// its visits of other listeners' nodes to `steps`, three at most, and looks up no key.
    #[inline(always)]
    pub fn insert<L: Ledger>(&mut self, steps: &mut Steps<L>) -> Result<Key, ListenError>
        ensures law { IsInsertion self.old result self.new }
        ensures visits { steps.new.visits ≤ steps.old.visits + 3 }
        ensures counted { steps.new.visits ≡ steps.old.visits + visits_of_insertion result }
        ensures looks { steps.new.looks ≡ steps.old.looks }
    {
        let serial = self.make_room()?;
        Ok(self.join(serial, None, steps))
    }

    /// Inserts a listener at the end of the queue, which waits with a task stored that the exchange makes, and returns its
    /// key.
    ///
    /// The exchange is called, with no stored task, only if the insertion is not refused. The errors are those of
    /// [`insert`](List::insert), and leave `on` as it was, too. Takes memory as `insert` does, or if the exchange does, and
    /// blocks only if the exchange does. No task is dropped. Adds its visits to `steps`, three at most, and looks up no key.
    #[inline(always)]
    pub fn insert_with<C, X: TaskExchange<W, C>, L: Ledger>(
        &mut self,
        exchange: &X,
        on: &mut C,
        steps: &mut Steps<L>,
    ) -> Result<Key, ListenError>
        ensures law { IsInsertionBy (InsertsWith (X.exchanged exchange.now) self.old on.old result
            self.new on.new) self.old result self.new }
        ensures visits { steps.new.visits ≤ steps.old.visits + 3 }
        ensures counted { steps.new.visits ≡ steps.old.visits + visits_of_insertion result }
        ensures looks { steps.new.looks ≡ steps.old.looks }
    {
        let serial = self.make_room()?;
        let task = exchange.exchange(on, None);
        Ok(self.join(serial, Some(task), steps))
    }

    // Makes sure that one more listener can be inserted: that a serial number is left and a slot spare, for which it may take
    // memory. Returns the serial number, so that this is read once.
    #[inline(always)]
    pub(crate) fn make_room(&mut self) -> Result<u64, ListenError>
        ensures serial { IfOk result (λ serial. serial ≡ self.new.next_serial) }
        ensures left { OnOk result (HasSerialLeft self.new) }
        ensures slot { OnOk result (0 < self.new.spare) }
        ensures listeners { self.new ≡ record self.old { spare = self.new.spare } }
        ensures enough { 0 < self.old.spare → self.new ≡ self.old }
        ensures refused { IfErr result (λ error. Inserts self.old (Err error) self.new) }
        ensures queue { IsQueue self.new }
    {
        if self.next_serial == u64::MAX {
            return Err(ListenError::SerialsUsedUp);
        }
        let serial = self.next_serial;
        match self.chain.reserve(1) {
            Ok(()) => Ok(serial),
            Err(AllocError) => Err(ListenError::Memory),
        }
    }

    // Inserts a listener at the end of the queue, which has the next serial number and stores this. The insertion can't be
    // refused.
    #[inline(always)]
    pub(crate) fn join<K: Count>(&mut self, serial: u64, stored: Option<W>, steps: &mut K) -> Key
        requires serial { serial ≡ self.old.next_serial }
        requires left { HasSerialLeft self.old }
        requires slot { 0 < self.old.spare }
        ensures joins { JoinsStoring stored self.old result self.new }
        ensures queue { IsQueue self.new }
        ensures visits { K.visits steps.new ≡ K.visits steps.old + 1 }
        ensures looks { K.looks steps.new ≡ K.looks steps.old }
    {
        let key = self.chain.push_spare(serial, stored, steps);
        self.next_serial += 1;
        key
    }

    /// Registers a listener with a task: takes the tag of a notified listener, which leaves the queue, or stores the task of
    /// a waiting listener.
    ///
    /// The task replaces any task that the listener stored before. A task that is replaced or not stored is dropped. Returns
    /// [`RegisterResult::NeverInserted`] if no listener has that key. Takes no memory. Adds its visits to `steps`, three at
    /// most, and one look by key.
    #[inline(always)]
    pub fn register<L: Ledger>(
        &mut self,
        key: Key,
        task: W,
        steps: &mut Steps<L>,
    ) -> RegisterResult<T>
    where
        W: Drop,
        ensures law { IsRegistration (Registers self.old key task result self.new) self.old
            key result self.new }
        ensures visits { steps.new.visits ≤ steps.old.visits + 3 }
        ensures counted { steps.new.visits ≡ steps.old.visits + visits_of_registration result }
        ensures looks { steps.new.looks ≤ steps.old.looks + 1 }
        ensures looked { steps.new.looks ≡ counted_on steps.old.looks 1 }
    {
        let change = Storing { task };
        answer(self.chain.take_or_change(key, change, &mut None, steps))
    }

    /// Registers a listener with an exchange: takes the tag of a notified listener, which leaves the queue, or exchanges the
    /// stored task of a waiting listener.
    ///
    /// The exchange is called only for a listener that waits. The exchange is given the task that the listener stored, if
    /// any, and the task that the exchange returns is stored. So the call itself drops no task. Returns
    /// [`RegisterResult::NeverInserted`] if no listener has that key. Takes memory or blocks only if the exchange does. Adds
    /// its visits to `steps`, three at most, and one look by key.
    pub fn register_with<C, X: TaskExchange<W, C>, L: Ledger>(
        &mut self,
        key: Key,
        exchange: &X,
        on: &mut C,
        steps: &mut Steps<L>,
    ) -> RegisterResult<T>
        ensures law { IsRegistration
            (RegistersWith (X.exchanged exchange.now) self.old key on.old result self.new on.new)
            self.old key result self.new }
        ensures visits { steps.new.visits ≤ steps.old.visits + 3 }
        ensures counted { steps.new.visits ≡ steps.old.visits + visits_of_registration result }
        ensures looks { steps.new.looks ≤ steps.old.looks + 1 }
        ensures looked { steps.new.looks ≡ counted_on steps.old.looks 1 }
    {
        let change = Exchanging { exchange };
        answer(self.chain.take_or_change(key, change, on, steps))
    }

    /// Removes a listener from the queue, and returns what the listener was, or `None` if no listener has that key.
    ///
    /// With `propagate` the notification of a listener that was notified is *propagated*: the queue is notified of one, of
    /// the same kind and with the same tag. The answer is then [`State::Passed`], which names the listener that was notified
    /// by it, or [`State::Lost`], which returns the tag. So a default notification is lost while another listener stays
    /// notified, and an additional one only if no listener waits. The task that a propagation wakes is given to `sink`.
    ///
    /// Takes no memory, and neither clones nor drops a tag. Adds its visits to `steps`, three at most, and one look by key.
    #[inline(always)]
    pub fn remove<S: WakeSink<W>, L: Ledger>(
        &mut self,
        key: Key,
        propagate: bool,
        sink: &mut S,
        steps: &mut Steps<L>,
    ) -> Option<State<T, W>>
        ensures law { IsRemoval S.woke self.old key propagate sink.old result self.new sink.new }
        ensures visits { steps.new.visits ≤ steps.old.visits + 3 }
        ensures counted { steps.new.visits
            ≡ steps.old.visits + visits_of_removal result key self.old }
        ensures looks { steps.new.looks ≤ steps.old.looks + 1 }
        ensures looked { steps.new.looks ≡ counted_on steps.old.looks 1 }
    {
        self.remove_by(key, propagate, sink, steps)
    }

    // Removes a listener, and counts the steps of that in `steps`.
    #[inline(always)]
    pub(crate) fn remove_by<S: WakeSink<W>, K: Count>(
        &mut self,
        key: Key,
        propagate: bool,
        sink: &mut S,
        steps: &mut K,
    ) -> Option<State<T, W>>
        ensures law { IsRemoval S.woke self.old key propagate sink.old result self.new sink.new }
        ensures visits { K.visits steps.new ≤ K.visits steps.old + 3 }
        ensures counted { K.visits steps.new
            ≡ K.visits steps.old + visits_of_removal result key self.old }
        ensures looked { K.looks steps.new ≡ counted_on (K.looks steps.old) 1 }
    {
        match self.chain.take(key, steps)? {
            Side::After(stored) => Some(match stored {
                Some(task) => State::Task(task),
                None => State::Created,
            }),
            Side::Before(notice) => {
                if propagate {
                    return Some(self.pass_on(notice, sink, steps));
                }
                let Notice { additional, tag } = notice;
                Some(State::Notified { additional, tag })
            }
        }
    }

    // Propagates a notification: notifies one listener, with that kind and tag. Returns which listener, or the kind and the
    // tag if no listener was notified. The function is never inlined, so that the drop of a listener, which is inlined in
    // many places, stays short.
    #[cold]
    #[inline(never)]
    fn pass_on<S: WakeSink<W>, K: Count>(
        &mut self,
        notice: Notice<T>,
        sink: &mut S,
        steps: &mut K,
    ) -> State<T, W>
        ensures answer { PassedAs notice self.old result }
        ensures passed { self.new ≡ after_passing notice self.old }
        ensures wakes { FoldsTo S.woke sink.old (woken_by_passing notice self.old) sink.new }
        ensures queue { IsQueue self.new }
        ensures visits { K.visits steps.new
            ≡ K.visits steps.old + how_many 1 notice.additional self.old }
        ensures looks { K.looks steps.new ≡ K.looks steps.old }
    {
        if self.how_many(1, notice.additional) == 0 {
            let Notice { additional, tag } = notice;
            return State::Lost { additional, tag };
        }
        let (to, task) = self.tell_next(notice, steps);
        if let Some(task) = task {
            sink.wake(task);
        }
        State::Passed { to }
    }

    /// Notifies the first listeners that wait, as many as the notification is for, and returns how many were notified.
    ///
    /// A default notification counts the listeners that are notified already, so it notifies its count less those; an
    /// additional one does not. If fewer listeners wait, all of these are notified. Each notified listener, in order, gets
    /// the next tag of the notification, and the task that the listener stored, if any, is given to `sink`. A notification
    /// that finds no listener waiting is not kept for a later listener.
    ///
    /// Returns a [`NotifyError`] if the notification refuses a tag: the listeners notified until then stay notified, and are
    /// the first that waited. Takes memory only if the notification does so to make a tag. Adds one visit to `steps` for each
    /// listener notified, and looks up no key.
    #[inline(always)]
    pub fn notify<N: Notification<Tag = T>, S: WakeSink<W>, L: Ledger>(
        &mut self,
        n: &mut N,
        sink: &mut S,
        steps: &mut Steps<L>,
    ) -> Result<usize, NotifyError>
        requires { N.can_tag n.old }
        ensures law { IsNotification N.tag_gives S.woke (N.count n.old) (N.is_additional n.old)
            self.old n.old sink.old result self.new n.new sink.new }

        // One visit for each listener notified, even if a tag is refused.
        ensures visits { steps.new.visits ≡ steps.old.visits + told_by result }
        ensures looks { steps.new.looks ≡ steps.old.looks }
    {
        self.notify_by(n, sink, steps)
    }

    // Notifies the first listeners that wait, and counts the steps of that in `steps`.
    #[inline(always)]
    pub(crate) fn notify_by<N: Notification<Tag = T>, S: WakeSink<W>, K: Count>(
        &mut self,
        n: &mut N,
        sink: &mut S,
        steps: &mut K,
    ) -> Result<usize, NotifyError>
        requires { N.can_tag n.old }
        ensures law { IsNotification N.tag_gives S.woke (N.count n.old) (N.is_additional n.old)
            self.old n.old sink.old result self.new n.new sink.new }
        ensures visits { K.visits steps.new ≡ K.visits steps.old + told_by result }
        ensures looks { K.looks steps.new ≡ K.looks steps.old }
    {
        let additional = n.is_additional();
        let count = self.how_many(n.count(), additional);
        for told in 0..count {
            let Ok(tag) = n.next_tag() else {
                return Err(NotifyError { told });
            };
            if let (_, Some(task)) = self.tell_next(Notice { additional, tag }, steps) {
                sink.wake(task);
            }
        }
        Ok(count)
    }

    // Returns how many listeners a notification of that count and kind notifies.
    #[inline(always)]
    fn how_many(&self, count: usize, additional: bool) -> usize
        ensures value { result ≡ how_many count additional self.now }
        ensures queue { IsQueue self.now }
    {
        let wanted = if additional {
            count
        } else {
            count.saturating_sub(self.chain.before_len())
        };
        wanted.min(self.chain.after_len())
    }

    // Notifies the first listener that waits, and returns its key, and the task to wake if the listener stored one.
    #[inline(always)]
    fn tell_next<K: Count>(&mut self, notice: Notice<T>, steps: &mut K) -> (Key, Option<W>)
        requires { 0 < length self.old.waiting }
        ensures first { take 1 self.old.waiting ≡ result ∷ [] }
        ensures told { self.new ≡ after_telling notice.additional (notice.tag ∷ []) self.old }
        ensures queue { IsQueue self.new }
        ensures visits { K.visits steps.new ≡ K.visits steps.old + 1 }
        ensures looks { K.looks steps.new ≡ K.looks steps.old }
    {
        self.chain.advance(notice, steps)
    }

    // Shows to a caller that reads no field that this value fulfills `IsQueue`.
    pub(crate) fn invariant_holds(&self)
        ensures { IsQueue self.now }
    {
        let _chain = &self.chain;
    }

    /// Returns how many slots are spare: that many more insertions take no memory. Takes no memory.
    pub fn spare(&self) -> usize
        ensures value { result ≡ self.now.spare }
        ensures queue { IsQueue self.now }
    {
        self.chain.spare()
    }

    /// Returns how many listeners are in the queue, notified or waiting. Takes no memory.
    pub fn total_listeners(&self) -> usize
        ensures value { result ≡ length self.now.told + length self.now.waiting }
        ensures queue { IsQueue self.now }
    {
        self.chain.len()
    }

    /// Returns whether some listener is notified. Takes no memory.
    pub fn is_notified(&self) -> bool
        ensures value { IsTrue result ↔ (0 < length self.now.told) }
        ensures queue { IsQueue self.now }
    {
        self.chain.before_len() > 0
    }

    /// Returns how many listeners are notified. Takes no memory.
    pub fn listeners_notified(&self) -> usize
        ensures value { result ≡ length self.now.told }
        ensures queue { IsQueue self.now }
    {
        self.chain.before_len()
    }

    /// Returns whether the listener of that key is notified; `false` also if no listener has that key.
    ///
    /// Takes no memory. Adds no visit to `steps`, and one look by key.
    #[inline(always)]
    pub fn is_told<L: Ledger>(&self, key: Key, steps: &mut Steps<L>) -> bool
        ensures value { IsTrue result ↔ IsSome (lookup (is_key key) self.now.told) }
        ensures queue { IsQueue self.now }
        ensures visits { steps.new.visits ≡ steps.old.visits }
        ensures looks { steps.new.looks ≤ steps.old.looks + 1 }
        ensures looked { steps.new.looks ≡ counted_on steps.old.looks 1 }
    {
        self.chain.is_before(key, steps)
    }
}
