//! The line of a world's clients: a queue of listeners, and the key of each client in it.
ghost use Rattle.std.specs.Prelude.{◌≡◌, ◌<◌, [], length, if◌then◌else◌, IsFalse, IfOk};
ghost use Rattle.event_worlds.specs.Line.{Line, IsLine, Leaves, empty_line, everybody, is_told, is_in_line, has_wake, has_serial_left, joined, registered, told_left, waiting_left, wake_lost, notified, dropped};

use super::wakes::Wakes;
use event_queue::{IntoNotification, Key, List, RegisterResult};
use std::alloc::{AllocError, Global};
use std::marker::Model;

/// A line of clients, by their numbers, whose notifications are all of one kind. After [`new`](ClientLine::new) no call
/// allocates.
#[derive(Drop)]
pub(super) struct ClientLine {
    list: List<(), usize>,
    keys: Vec<Option<Key>>,
    wakes: Wakes,
    additional: bool,
}

impl Model for ClientLine {
    ghost use Rattle.event_worlds.specs.Line.{Line};
    ghost use Rattle.event_worlds.specs.LineKeys.{line_of, IsTied};

    ghost Value = { Line };

    ghost view = { λ line. line_of line.additional line.list line.keys.items line.wakes };

    ghost invariant = { λ line. IsTied line.additional line.list line.keys.items line.wakes };
}

impl ClientLine {
    /// Makes an empty line with room for that many clients; the first client that joins gets the serial number `first`. The
    /// notifications of the line are additional or default.
    pub(super) fn new(
        alloc: Global,
        additional: bool,
        clients: usize,
        first: u64,
    ) -> Result<Self, AllocError>
        ensures empty { IfOk result (λ line. line ≡ empty_line additional clients first) }
    {
        let mut list = List::starting_at(alloc, first);
        list.reserve(clients)?;
        Ok(ClientLine {
            list,
            keys: vec![in alloc; None; clients]?,
            wakes: Wakes::new(alloc, clients)?,
            additional,
        })
    }

    /// Returns whether the client is notified.
    pub(super) fn is_told(&self, client: usize) -> bool
        requires client { client < length self.now.awake }
        ensures value { result ≡ is_told client self.now }
    {
        match self.keys[client] {
            Some(key) => self.list.is_told_uncounted(key),
            None => false,
        }
    }

    /// Returns whether the client has a wake-up.
    pub(super) fn has_wake(&self, client: usize) -> bool
        requires client { client < length self.now.awake }
        ensures value { result ≡ has_wake client self.now }
    {
        self.wakes.has(client)
    }

    /// Has the client join the end of the line, and lose its wake-up, and returns `true`. If the serial numbers are used up,
    /// changes nothing and returns `false`.
    pub(super) fn join(&mut self, client: usize) -> bool
        requires client { client < length self.old.awake }
        requires absent { IsFalse (is_in_line client self.old) }
        ensures leaves { Leaves (has_serial_left self.old)
            (if has_serial_left self.old then joined client self.old else
            self.old) result self.new }
    {
        let Ok(key) = self.list.insert_uncounted() else {
            return false;
        };
        self.keys[client] = Some(key);
        self.wakes.clear(client);
        true
    }

    /// Has a notified client leave the line, or registers a client that waits. Returns whether the client was notified.
    pub(super) fn register(&mut self, client: usize) -> bool
        requires client { client < length self.old.awake }
        ensures leaves { Leaves (is_told client self.old)
            (if is_told client self.old then told_left client self.old else registered client
            self.old) result self.new }
    {
        let Some(key) = self.keys[client] else {
            return false;
        };
        match self.list.register_uncounted(key, client) {
            RegisterResult::Notified(()) => {
                self.keys[client] = None;
                true
            }
            RegisterResult::Registered => false,
            RegisterResult::NeverInserted => false,
        }
    }

    /// Has the client leave the line, and propagates nothing. Returns whether the client was notified.
    pub(super) fn leave(&mut self, client: usize) -> bool
        requires client { client < length self.old.awake }
        ensures leaves { Leaves (is_told client self.old)
            (if is_told client self.old then told_left client self.old else waiting_left client
            self.old) result self.new }
    {
        let Some(key) = self.keys[client] else {
            return false;
        };
        let told = self.list.is_told_uncounted(key);
        self.keys[client] = None;
        let _left = self.list.remove_uncounted(key, false, &mut self.wakes);
        told
    }

    /// Has the client leave the line. If the client was notified, its notification is propagated.
    pub(super) fn drop_out(&mut self, client: usize)
        requires client { client < length self.old.awake }
        ensures changed { self.new ≡ dropped client self.old }
    {
        let Some(key) = self.keys[client] else {
            return;
        };
        self.keys[client] = None;
        let _left = self.list.remove_uncounted(key, true, &mut self.wakes);
    }

    /// Takes the client's wake-up away, if it has one.
    pub(super) fn lose_wake(&mut self, client: usize)
        requires client { client < length self.old.awake }
        ensures changed { self.new ≡ wake_lost client self.old }
    {
        self.wakes.clear(client);
    }

    /// Notifies that many clients of the line. If the notifications of the line are default, the clients notified already count.
    pub(super) fn notify(&mut self, count: usize)
        ensures changed { self.new ≡ notified count self.old }
    {
        if self.additional {
            let mut notification = count.additional();
            let _told = self
                .list
                .notify_uncounted(&mut notification, &mut self.wakes);
        } else {
            let mut notification = count.into_notification();
            let _told = self
                .list
                .notify_uncounted(&mut notification, &mut self.wakes);
        }
    }
    /// Notifies all clients of the line.
    pub(super) fn notify_all(&mut self)
        ensures changed { self.new ≡ notified everybody self.old }
        ensures nobody_waits { self.new.waiting ≡ [] }
    {
        self.reveal_invariant();
        self.notify(usize::MAX);
    }

    // Shows what follows from what the type keeps, which is known where a field is read.
    fn reveal_invariant(&self)
        ensures line { IsLine self.now }
    {
        let _list = &self.list;
    }
}
