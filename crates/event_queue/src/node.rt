//! A sequence with a cursor: nodes on the heap with raw links, and a table that leads from a key to its node.
ghost use Rattle.std.specs.Prelude.{◌≡◌, ◌≢◌, ◌+◌, ◌-◌, ◌<◌, ◌≤◌, ◌^◌, ◌↔◌, [], ◌∷◌, ◌++◌, length, All, IsTrue, IsOk, IsSome, OnOk, OnErr};
ghost use Rattle.std.specs.Map.{lookup};
ghost use Rattle.event_queue.specs.Key.{is_key};
ghost use Rattle.event_queue.specs.Counts.{counted_on};
ghost use Rattle.event_queue.specs.Nodes.{nodes_of, IsStarted, Takes, TakesOrChanges, visits_of_taking, visits_of_change};

use crate::key::Key;
use crate::node::entries::Entries;
use crate::node::granted::Blocks;
use crate::node::table::Table;
use std::alloc::{AllocError, Global};
use std::marker::Model;
use std::mem;

mod change;
mod entries;
mod granted;
mod number;
mod ring;
mod table;

pub use change::Change;
pub(crate) use number::Number;
pub use ring::{Count, Steps};

/// What is known of an entry, by the side of the cursor that it is on.
#[derive(Drop)]
pub enum Side<A, B> {
    Before(A),
    After(B),
}

/// Entries in the order in which they were pushed, each under a key that the chain gives it, and a cursor between two of
/// them: the entries before the cursor carry an `A`, the entries after the cursor a `B` or nothing.
///
/// An entry that leaves makes its node spare, and a push uses a spare node, so a push takes no memory.
#[derive(Drop)]
pub struct Chain<A, B> {
    // Made with the first node.
    entries: Option<Entries<A, B>>,
    table: Table<A, B>,
    // How many entries are before the cursor, and how many after it.
    before_len: usize,
    after_len: usize,
}

impl<A, B> Model for Chain<A, B> {
    ghost use Rattle.std.specs.Prelude.{Option, length, filter_map};
    ghost use Rattle.event_queue.specs.Nodes.{Sequence};

    ghost Value = { Sequence A (Option B) };

    ghost use Rattle.event_queue.specs.Nodes.{nodes_of, entry_before, entry_after, shown_in, IsSound};

    ghost view = { λ chain. record {
      before = filter_map entry_before (nodes_of chain.entries);
      after = filter_map entry_after (nodes_of chain.entries);
      spare = length chain.table.spares;
    } };

    ghost invariant = { λ chain. IsSound chain.entries (shown_in chain.table.slots.items)
        chain.table.spares chain.before_len chain.after_len };
}

// Makes the ring with no entry, and a table for `n` nodes, where there is none.
fn start<A, B>(
    entries: &mut Option<Entries<A, B>>,
    table: &mut Table<A, B>,
    n: usize,
) -> Result<(), AllocError>
    ensures nodes { nodes_of entries.new ≡ nodes_of entries.old }
    ensures started { OnOk result (IsStarted entries.old entries.new) }
    ensures err { OnErr result (entries.new ≡ entries.old) }
    ensures slots { table.new.slots.items ≡ table.old.slots.items }
    ensures spares { table.new.spares ≡ table.old.spares }
{
    if entries.is_some() {
        return Ok(());
    }
    table.begin(n)?;
    let new = Entries::new(table.allocator())?;
    match mem::replace(entries, Some(new)) {
        None => Ok(()),
        Some(_) => unreachable!(),
    }
}

impl<A, B> Chain<A, B> {
    /// Makes a chain with no entry and no room. Takes no memory.
    pub fn new(alloc: Global) -> Self
        ensures { result ≡ record { before = []; after = []; spare = 0 } }
    {
        Chain {
            entries: None,
            table: Table::new(alloc),
            before_len: 0,
            after_len: 0,
        }
    }

    /// Returns how many more entries fit without more memory.
    pub fn spare(&self) -> usize
        ensures value { result ≡ self.now.spare }
        ensures slots_fit { length self.now.before + length
            self.now.after + self.now.spare < 2 ^ 64 }
    {
        self.table.spare()
    }

    /// Makes room for `n` more entries. Takes memory if fewer than `n` nodes are spare. A call that fails loses no room. More
    /// than 2^32 nodes, in use or spare, are refused as memory is, because a key has 32 bits for its slot.
    #[inline(always)]
    pub fn reserve(&mut self, n: usize) -> Result<(), AllocError>
        ensures room { OnOk result (n ≤ self.new.spare) }
        ensures entries { self.new ≡ record self.old { spare = self.new.spare } }
        ensures kept { self.old.spare ≤ self.new.spare }
        ensures succeeds { n ≤ self.old.spare → IsOk result }
        ensures enough { n ≤ self.old.spare → self.new ≡ self.old }
        ensures too_few { OnErr result (self.new.spare < n) }
        ensures slots_fit { length self.new.before + length
            self.new.after + self.new.spare < 2 ^ 64 }
    {
        let spare = self.table.spare();
        if n <= spare {
            return Ok(());
        }
        self.grow(n - spare)
    }

    // Makes `n` more spare nodes. A call that fails keeps the nodes that it made.
    fn grow(&mut self, n: usize) -> Result<(), AllocError>
        requires { 0 < n }
        ensures ok { OnOk result (self.new.spare ≡ self.old.spare + n) }
        ensures err { OnErr result (self.new.spare < self.old.spare + n) }
        ensures entries { self.new ≡ record self.old { spare = self.new.spare } }
        ensures kept { self.old.spare ≤ self.new.spare }
        ensures slots_fit { length self.new.before + length
            self.new.after + self.new.spare < 2 ^ 64 }
    {
        start(&mut self.entries, &mut self.table, n)?;
        let mut blocks = Blocks::of(self.table.allocator());
        self.table.grow(n, &mut blocks)
    }

    /// Returns how many entries there are.
    pub fn len(&self) -> usize
        ensures { result ≡ length self.now.before + length self.now.after }
    {
        self.before_len + self.after_len
    }

    /// Returns how many entries are before the cursor.
    pub fn before_len(&self) -> usize
        ensures { result ≡ length self.now.before }
    {
        self.before_len
    }

    /// Returns how many entries are after the cursor.
    pub fn after_len(&self) -> usize
        ensures { result ≡ length self.now.after }
    {
        self.after_len
    }

    /// Returns whether the entry of that key is before the cursor.
    #[inline(always)]
    pub fn is_before<K: Count>(&self, key: Key, steps: &mut K) -> bool
        ensures value { IsTrue result ↔ IsSome (lookup (is_key key) self.now.before) }
        ensures visits { K.visits steps.new ≡ K.visits steps.old }
        ensures looks { K.looks steps.new ≡ counted_on (K.looks steps.old) 1 }
    {
        let own = self.table.find(key, steps);
        let (Some(entries), Some(own)) = (&self.entries, own) else {
            return false;
        };
        entries.is_before(&own)
    }

    /// Appends an entry, whose serial number is below `u64::MAX`, on a spare node, and returns its key.
    #[inline(always)]
    pub fn push_spare<K: Count>(&mut self, serial: u64, value: Option<B>, steps: &mut K) -> Key
        requires spare { 0 < self.old.spare }
        requires serial { serial < 2 ^ 64 - 1 }
        ensures serial { result.serial ≡ serial }
        ensures before { self.new.before ≡ self.old.before }
        ensures after { self.new.after ≡ self.old.after ++ (result, value) ∷ [] }

        // No other entry has its slot.
        ensures slot_before { All (λ entry. entry.0.slot ≢ result.slot) self.old.before }
        ensures slot_after { All (λ entry. entry.0.slot ≢ result.slot) self.old.after }

        ensures spare { self.new.spare + 1 ≡ self.old.spare }
        ensures slots_fit { length self.new.before + length
            self.new.after + self.new.spare < 2 ^ 64 }
        ensures visits { K.visits steps.new ≡ K.visits steps.old + 1 }
        ensures looks { K.looks steps.new ≡ K.looks steps.old }
    {
        let entries = self.entries.as_mut().unwrap();
        let node = self.table.take_spare().unwrap();
        let (slot, own) = entries.append(node, serial, value, self.after_len == 0, steps);
        let key = Key { slot, serial };
        self.table.fill(key, &own);
        self.after_len += 1;
        key
    }

    /// Takes the entry of that key out, and returns its value, if an entry has the key.
    #[inline(always)]
    pub fn take<K: Count>(&mut self, key: Key, steps: &mut K) -> Option<Side<A, Option<B>>>
        ensures step { Takes self.old key result self.new }
        ensures visits { K.visits steps.new ≡ K.visits steps.old + visits_of_taking result }
        ensures looks { K.looks steps.new ≡ counted_on (K.looks steps.old) 1 }
    {
        let own = self.table.find(key, steps)?;
        let entries = self.entries.as_mut().unwrap();
        if entries.is_after(&own) {
            let (value, room) = entries.take_after(own, key.slot, steps);
            self.table.recycle(key.slot, room);
            self.after_len -= 1;
            return Some(Side::After(value));
        }
        let (value, room) = entries.take_before(own, steps);
        self.table.recycle(key.slot, room);
        self.before_len -= 1;
        Some(Side::Before(value))
    }

    /// Takes the entry of that key out, if it is before the cursor. If it is after the cursor, gives the entry the value that
    /// `change` makes of the value that the entry has.
    #[inline(always)]
    pub fn take_or_change<C, M: Change<Option<B>, C>, K: Count>(
        &mut self,
        key: Key,
        change: M,
        on: &mut C,
        steps: &mut K,
    ) -> Option<Side<A, ()>>
    where
        M: Drop,
        ensures step { TakesOrChanges (M.changes change) self.old key on.old
            result self.new on.new }
        ensures visits { K.visits steps.new ≡ K.visits steps.old + visits_of_change result }
        ensures looks { K.looks steps.new ≡ counted_on (K.looks steps.old) 1 }
    {
        let own = self.table.find(key, steps)?;
        let entries = self.entries.as_mut().unwrap();
        if entries.is_after(&own) {
            let value = change.change(on, entries.hand_out(&own));
            entries.hand_in(&own, key, value);
            return Some(Side::After(()));
        }
        let (value, room) = entries.take_before(own, steps);
        self.table.recycle(key.slot, room);
        self.before_len -= 1;
        Some(Side::Before(value))
    }

    /// Moves the cursor past the first entry after it, which gets this value. Returns the key of that entry and the value
    /// that it had.
    #[inline(always)]
    pub fn advance<K: Count>(&mut self, value: A, steps: &mut K) -> (Key, Option<B>)
        requires { 0 < length self.old.after }
        ensures first { self.old.after ≡ result ∷ self.new.after }
        ensures told { self.new.before ≡ self.old.before ++ (result.0, value) ∷ [] }
        ensures spare { self.new.spare ≡ self.old.spare }
        ensures visits { K.visits steps.new ≡ K.visits steps.old + 1 }
        ensures looks { K.looks steps.new ≡ K.looks steps.old }
    {
        let entries = self.entries.as_mut().unwrap();
        let (first, slot) = entries.first(steps);
        let key = Key {
            slot,
            serial: self.table.serial_in(slot),
        };
        self.before_len += 1;
        self.after_len -= 1;
        (key, entries.advance(first, key, value))
    }
}
