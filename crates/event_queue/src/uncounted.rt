//! The calls of a queue for callers that count no visits. Each does what the counted call does, with counts that exist in
//! proofs alone.
ghost use Rattle.std.specs.Prelude.{◌-◌, ◌^◌, ◌↔◌, min, IsTrue, IsSome};
ghost use Rattle.std.specs.Map.{lookup};
ghost use Rattle.event_queue.specs.Key.{is_key};
ghost use Rattle.event_queue.specs.Queue.{IsQueue};
ghost use Rattle.event_queue.specs.Insert.{IsInsertion, IsInsertionBy};
ghost use Rattle.event_queue.specs.Register.{Registers, IsRegistration};
ghost use Rattle.event_queue.specs.Exchange.{RegistersWith, InsertsWith};
ghost use Rattle.event_queue.specs.Remove.{IsRemoval};
ghost use Rattle.event_queue.specs.Notify.{IsNotification};

use crate::exchange::TaskExchange;
use crate::key::Key;
use crate::list::{List, answer};
use crate::node::{Count, Number};
use crate::notify::Notification;
use crate::reply::{ListenError, NotifyError, RegisterResult, State};
use crate::stored_task::{Exchanging, Storing};
use crate::wake::WakeSink;

// Counts that only proofs read. Only the calls below make them, so what a counted call looks at is counted in its `steps`.
#[derive(Drop)]
struct Uncounted {
    visits: Number,
    looks: Number,
}

impl Uncounted {
    // Counts of 0.
    #[inline(always)]
    fn new() -> Self {
        Uncounted {
            visits: Number::new(&0),
            looks: Number::new(&0),
        }
    }
}

impl Count for Uncounted {
    ghost visits = { λ steps. steps.visits.number };

    ghost looks = { λ steps. min steps.looks.number (2 ^ 64 - 1) };

    #[inline(always)]
    fn add_visit(&mut self) {
        self.visits = Number::after(&self.visits);
    }

    #[inline(always)]
    fn add_look(&mut self) {
        self.looks = Number::after(&self.looks);
    }
}

impl<T, W> List<T, W> {
    /// Inserts a listener at the end of the queue, which waits with no task stored, and returns its key.
    ///
    /// The call does what [`insert`](List::insert) does, with its errors, and counts no visits.
    #[inline(always)]
    pub fn insert_uncounted(&mut self) -> Result<Key, ListenError>
        ensures { IsInsertion self.old result self.new }
    {
        let serial = self.make_room()?;
        Ok(self.join(serial, None, &mut Uncounted::new()))
    }

    /// Inserts a listener at the end of the queue, which waits with a task stored that the exchange makes, and returns its
    /// key.
    ///
    /// The call does what [`insert_with`](List::insert_with) does, with its errors, and counts no visits.
    #[inline(always)]
    pub fn insert_with_uncounted<C, X: TaskExchange<W, C>>(
        &mut self,
        exchange: &X,
        on: &mut C,
    ) -> Result<Key, ListenError>
        ensures { IsInsertionBy (InsertsWith (X.exchanged exchange.now) self.old on.old result
            self.new on.new) self.old result self.new }
    {
        let serial = self.make_room()?;
        let task = exchange.exchange(on, None);
        Ok(self.join(serial, Some(task), &mut Uncounted::new()))
    }

    /// Registers a listener with a task: takes the tag of a notified listener, which leaves the queue, or stores the task of
    /// a waiting listener.
    ///
    /// The call does what [`register`](List::register) does, and counts no visits.
    #[inline(always)]
    pub fn register_uncounted(&mut self, key: Key, task: W) -> RegisterResult<T>
    where
        W: Drop,
        ensures { IsRegistration (Registers self.old key task result self.new) self.old
            key result self.new }
    {
        let steps = &mut Uncounted::new();
        let change = Storing { task };
        answer(self.chain.take_or_change(key, change, &mut None, steps))
    }

    /// Registers a listener with an exchange: takes the tag of a notified listener, which leaves the queue, or exchanges the
    /// stored task of a waiting listener.
    ///
    /// The call does what [`register_with`](List::register_with) does, and counts no visits.
    pub fn register_with_uncounted<C, X: TaskExchange<W, C>>(
        &mut self,
        key: Key,
        exchange: &X,
        on: &mut C,
    ) -> RegisterResult<T>
        ensures { IsRegistration
            (RegistersWith (X.exchanged exchange.now) self.old key on.old result self.new on.new)
            self.old key result self.new }
    {
        let steps = &mut Uncounted::new();
        let change = Exchanging { exchange };
        answer(self.chain.take_or_change(key, change, on, steps))
    }

    /// Removes a listener from the queue, and returns what the listener was, or `None` if no listener has that key.
    ///
    /// The call does what [`remove`](List::remove) does, also with `propagate`, and counts no visits.
    #[inline(always)]
    pub fn remove_uncounted<S: WakeSink<W>>(
        &mut self,
        key: Key,
        propagate: bool,
        sink: &mut S,
    ) -> Option<State<T, W>>
        ensures { IsRemoval S.woke self.old key propagate sink.old result self.new sink.new }
    {
        self.remove_by(key, propagate, sink, &mut Uncounted::new())
    }

    /// Notifies the first listeners that wait, as many as the notification is for, and returns how many were notified.
    ///
    /// The call does what [`notify`](List::notify) does, with its error, and counts no visits.
    #[inline(always)]
    pub fn notify_uncounted<N: Notification<Tag = T>, S: WakeSink<W>>(
        &mut self,
        n: &mut N,
        sink: &mut S,
    ) -> Result<usize, NotifyError>
        requires { N.can_tag n.old }
        ensures { IsNotification N.tag_gives S.woke (N.count n.old) (N.is_additional n.old) self.old
            n.old sink.old result self.new n.new sink.new }
    {
        self.notify_by(n, sink, &mut Uncounted::new())
    }

    /// Returns whether the listener of that key is notified; `false` also if no listener has that key.
    ///
    /// The call does what [`is_told`](List::is_told) does, and counts no looks by key.
    pub fn is_told_uncounted(&self, key: Key) -> bool
        ensures value { IsTrue result ↔ IsSome (lookup (is_key key) self.now.told) }
        ensures queue { IsQueue self.now }
    {
        self.chain.is_before(key, &mut Uncounted::new())
    }
}
