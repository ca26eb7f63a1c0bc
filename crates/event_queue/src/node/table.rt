//! The table of slots, which leads from a key to its node, and the spare nodes.
ghost use Rattle.std.specs.Prelude.{◌≡◌, ◌-◌, ◌+◌, ◌^◌, ◌<◌, ◌≤◌, ◌==◌, [], ◌∷◌, ◌++◌, length, Option, MatchOption, OnOk, OnErr, IfSome, IsSome, option_and_then, option_map, slice_get, slice_set, vec_capacity, vec_len};
ghost use Rattle.event_queue.specs.Ring.{placed};
ghost use Rattle.event_queue.specs.Counts.{counted_on};
ghost use Rattle.event_queue.specs.Nodes.{place_of, shown, shown_in, node_at, spare_entry, GrowsTo};

use super::entries::Entry;
use super::granted::Blocks;
use super::ring::{Count, NodePtr, NodeRef, Ring, Room, Spares};
use crate::key::Key;
use std::alloc::{AllocError, Global};

// How many slots a table has at first, at least.
const FIRST_SLOTS: usize = 4;

/// A slot: the serial number of the entry that uses the slot, and the place of its node. While the node is spare the serial
/// number is `u64::MAX`, which no entry gets, so no key leads to the place.
#[derive(Drop)]
pub(super) struct Slot<A, B> {
    serial: u64,
    place: NodePtr<Entry<A, B>>,
}

impl<A, B> Slot<A, B> {
    // Returns the place of the node, if the entry of that serial number uses the slot.
    #[inline(always)]
    fn place_of(&self, serial: u64) -> Option<NodePtr<Entry<A, B>>>
        ensures { result ≡ option_and_then (place_of serial) (shown self.now) }
    {
        if self.serial == serial && serial != u64::MAX {
            Some(self.place)
        } else {
            None
        }
    }
}

/// A slot for each node but the root, and the nodes that no entry uses.
///
/// A node keeps its slot for ever. While an entry uses the slot, the slot has the entry's serial number too, so that a key of
/// no listener is recognized without a look at any node.
#[derive(Drop)]
pub(super) struct Table<A, B> {
    slots: Vec<Slot<A, B>>,
    spares: Spares<Entry<A, B>>,
    ghost counted: { length spares ≤ vec_len slots },
}

impl<A, B> Table<A, B> {
    /// Makes a table with no slot. Takes no memory.
    pub(super) fn new(alloc: Global) -> Self
        ensures slots { result.slots.items ≡ [] }
        ensures spares { result.spares ≡ [] }
    {
        Table {
            slots: Vec::new(alloc),
            spares: Spares::new(alloc),
        }
    }

    /// Makes room for the first `n` slots, and for at least a few, because it costs more to let a table grow that has no
    /// block yet.
    pub(super) fn begin(&mut self, n: usize) -> Result<(), AllocError>
        ensures slots { self.new.slots.items ≡ self.old.slots.items }
        ensures spares { self.new.spares ≡ self.old.spares }
    {
        self.slots.reserve_exact(n.max(FIRST_SLOTS))
    }

    /// Returns the allocator that the table was made with.
    pub(super) fn allocator(&self) -> Global {
        *self.slots.allocator()
    }

    /// Returns how many nodes are spare.
    #[inline(always)]
    pub(super) fn spare(&self) -> usize
        ensures { result ≡ length self.now.spares }
    {
        self.spares.len()
    }

    /// Returns the node of the key's entry, which is that of the call's own listener, if an entry has the key. That is one
    /// look by key. Without such an entry no node is reached, because the table has the serial numbers too, and the look is
    /// counted all the same.
    #[inline(always)]
    pub(super) fn find<K: Count>(&self, key: Key, steps: &mut K) -> Option<NodeRef<Entry<A, B>>>
        ensures node { MatchOption result
            (node_at (shown_in self.now.slots.items) key ≡ Option.None)
            (λ node. node_at (shown_in self.now.slots.items) key
            ≡ Option.Some (record { ptr = node.ptr })) }
        ensures visits { K.visits steps.new ≡ K.visits steps.old }
        ensures looks { K.looks steps.new ≡ counted_on (K.looks steps.old) 1 }
    {
        NodeRef::looked_up(self.place_of(key), steps)
    }

    // Returns the place of the node of the key's entry, if an entry has the key.
    #[inline(always)]
    fn place_of(&self, key: Key) -> Option<NodePtr<Entry<A, B>>>
        ensures { result ≡ node_at (shown_in self.now.slots.items) key }
    {
        match self.slots.as_slice().get(key.slot as usize) {
            Some(slot) => slot.place_of(key.serial),
            None => None,
        }
    }

    /// Returns the serial number in a slot.
    #[inline(always)]
    pub(super) fn serial_in(&self, slot: u32) -> u64
        requires { slot < length (shown_in self.now.slots.items) }
        ensures { option_map (λ found. found.serial) (slice_get self.now.slots.items slot)
            ≡ Option.Some result }
    {
        self.slots[slot as usize].serial
    }

    /// Takes a spare node.
    #[inline(always)]
    pub(super) fn take_spare(&mut self) -> Option<Ring<Entry<A, B>>>
        ensures slots { self.new.slots ≡ self.old.slots }
        ensures alone { IfSome result (λ node. node.nodes ≡ []) }
        ensures spares { MatchOption result (self.old.spares ≡ [])
            (λ node. self.old.spares ≡ self.new.spares ++ placed node.at node.entry ∷ []) }
    {
        self.spares.pop()
    }

    /// Writes the serial number of an entry and the place of its node, which was spare, into the key's slot.
    #[inline(always)]
    pub(super) fn fill(&mut self, key: Key, node: &NodeRef<Entry<A, B>>)
        requires slot { key.slot < length (shown_in self.old.slots.items) }
        requires serial { key.serial < 2 ^ 64 - 1 }
        ensures slots { shown_in self.new.slots.items ≡ slice_set (shown_in self.old.slots.items)
            key.slot (Option.Some (key.serial, record { ptr = node.now.ptr })) }
        ensures spares { self.new.spares ≡ self.old.spares }
    {
        self.slots[key.slot as usize] = Slot {
            serial: key.serial,
            place: node.place(),
        };
    }

    /// Makes a spare node in that room, whose slot this is. Takes no memory.
    #[inline(always)]
    pub(super) fn recycle(&mut self, slot: u32, room: Room<Entry<A, B>>)
        requires slot { slot < length (shown_in self.old.slots.items) }
        requires room { length self.old.spares < length (shown_in self.old.slots.items) }
        ensures slots { shown_in self.new.slots.items
            ≡ slice_set (shown_in self.old.slots.items) slot Option.None }
        ensures spares { self.new.spares
            ≡ self.old.spares ++ placed room.ptr (spare_entry slot) ∷ [] }
    {
        self.slots[slot as usize].serial = u64::MAX;
        self.spares.push(room, Entry::spare(slot));
    }

    /// Makes `n` more spare nodes. A call that fails keeps the nodes that it made.
    pub(super) fn grow(&mut self, n: usize, blocks: &mut Blocks) -> Result<(), AllocError>
        requires { blocks.old.granted + n < 2 ^ 64 }
        ensures grows { GrowsTo (shown_in self.old.slots.items) self.old.spares
            (shown_in self.new.slots.items) self.new.spares }
        ensures kept { length self.old.spares ≤ length self.new.spares }
        ensures ok { OnOk result (length self.new.spares ≡ length self.old.spares + n) }
        ensures err { OnErr result (length self.new.spares < length self.old.spares + n) }
        ensures keeps_what_was_granted { length self.new.spares + blocks.old.granted
            ≡ length self.old.spares + blocks.new.granted }
    {
        self.slots.reserve(n)?;
        for _ in 0..n {
            self.make_spare(blocks)?;
        }
        Ok(())
    }

    // Makes one more spare node, with a slot of its own at the end of the table. A table of 2^32 slots gets no more, because
    // a key has 32 bits for its slot.
    fn make_spare(&mut self, blocks: &mut Blocks) -> Result<(), AllocError>
        requires slots_room { vec_len self.old.slots < vec_capacity self.old.slots }
        requires count { blocks.old.granted + 1 < 2 ^ 64 }
        ensures grows { GrowsTo (shown_in self.old.slots.items) self.old.spares
            (shown_in self.new.slots.items) self.new.spares }
        ensures slots { OnOk result (vec_len self.new.slots ≡ vec_len self.old.slots + 1) }
        ensures spares { OnOk result (length self.new.spares ≡ length self.old.spares + 1) }
        ensures err { OnErr result (self.new ≡ self.old) }
        ensures slots_capacity { vec_capacity self.new.slots ≡ vec_capacity self.old.slots }
        ensures granted { OnOk result (blocks.new.granted ≡ blocks.old.granted + 1) }
        ensures refused { OnErr result (blocks.new.granted ≡ blocks.old.granted) }
    {
        let len = self.slots.len();
        if len > u32::MAX as usize {
            return Err(AllocError);
        }
        let slot = len as u32;
        let room = blocks.take()?;
        let place = self.spares.push(room, Entry::spare(slot));
        self.slots.push_reserved(Slot {
            serial: u64::MAX,
            place,
        });
        Ok(())
    }
}
