//! The entries of a chain in order, each on a node of one ring, and the cursor.
ghost use Rattle.std.specs.Prelude.{◌≡◌, ◌+◌, [], ◌∷◌, ◌++◌, if◌then◌else◌, ◌↔◌, eqb, IsTrue, IsSome, IfOk};
ghost use Rattle.event_queue.specs.Ring.{placed, first_place, IsAt, AtNode};
ghost use Rattle.event_queue.specs.Entry.{Nothing, Before};
ghost use Rattle.event_queue.specs.Nodes.{value_before, value_after, held_after, spare_entry, IsSpareAt, IsBeforeAt, IsAfterAt, HandsOut, HandsIn, TakesOut, Advances};

use super::number::Number;
use super::ring::{Count, NodePtr, NodeRef, Ring, Room};
use crate::key::Key;
use std::alloc::{AllocError, Global};
use std::marker::Model;
use std_alloc::room::Vacant;

/// What a node carries: the slot that the node keeps, and an entry's value. The slot has the entry's serial number, which is
/// here for proofs alone.
#[derive(Drop)]
pub(super) struct Entry<A, B> {
    packed: Packed<A, B>,
    serial: Number,
}

/// A slot, and a value before the cursor, or a value after the cursor, which may be absent. The root and a spare node hold no
/// value.
///
/// This is one enum, and not a value with an `Option` in it beside the slot, because the tag of an enum takes 8 bytes of
/// every node unless a field of 4 bytes stands behind the tag: so each variant has the slot, as its first field.
#[derive(Drop)]
pub(super) enum Packed<A, B> {
    Spare(u32),
    Before(u32, A),
    After(u32, B),
    AfterWithout(u32),
}

impl<A, B> Model for Entry<A, B> {
    ghost use Rattle.event_queue.specs.Entry.{Payload, slot_of, held_of};

    ghost Value = { Payload A B };

    ghost view = { λ entry. record {
      slot = slot_of entry.packed;
      serial = entry.serial.number;
      held = held_of entry.packed;
    } };
}

impl<A, B> Entry<A, B> {
    /// Makes the payload of a spare node with that slot.
    #[inline(always)]
    pub(super) fn spare(slot: u32) -> Self
        ensures { result ≡ spare_entry slot }
    {
        Entry {
            packed: Packed::Spare(slot),
            serial: Number::new(&0),
        }
    }

    // Makes the payload of the node of that key, whose entry is before the cursor.
    #[inline(always)]
    fn before(key: Key, value: A) -> Self
        ensures { result ≡ record { slot = key.slot; serial = key.serial; held = Before value } }
    {
        Entry {
            packed: Packed::Before(key.slot, value),
            serial: Number::new(&key.serial),
        }
    }

    // Makes the payload of the node of that key, whose entry is after the cursor.
    #[inline(always)]
    fn after(key: Key, value: Option<B>) -> Self
        ensures { result ≡ record {
          slot = key.slot;
          serial = key.serial;
          held = held_after value;
        } }
    {
        let packed = match value {
            Some(value) => Packed::After(key.slot, value),
            None => Packed::AfterWithout(key.slot),
        };
        Entry {
            packed,
            serial: Number::new(&key.serial),
        }
    }

    /// Returns the slot that the node keeps.
    #[inline(always)]
    pub(super) fn slot(&self) -> u32
        ensures { result ≡ self.now.slot }
    {
        let (Packed::Spare(slot)
        | Packed::Before(slot, _)
        | Packed::AfterWithout(slot)
        | Packed::After(slot, _)) = &self.packed;
        *slot
    }

    // Returns the slot of a spare node: with no other case to look at, the slot is found in fewer instructions.
    #[inline(always)]
    fn slot_of_spare(&self) -> u32
        requires { self.now.held ≡ Nothing }
        ensures { result ≡ self.now.slot }
    {
        match &self.packed {
            Packed::Spare(slot) => *slot,
            _ => unreachable!(),
        }
    }

    // Returns whether the node has an entry before the cursor.
    #[inline(always)]
    fn is_before(&self) -> bool
        ensures { IsTrue result ↔ IsSome (value_before self.now.held) }
    {
        matches!(self.packed, Packed::Before(_, _))
    }

    // Returns whether the node has an entry after the cursor.
    #[inline(always)]
    fn is_after(&self) -> bool
        ensures { IsTrue result ↔ IsSome (value_after self.now.held) }
    {
        matches!(self.packed, Packed::After(_, _) | Packed::AfterWithout(_))
    }

    // Returns the value of an entry before the cursor.
    #[inline(always)]
    fn into_before(self) -> A
        requires { IsSome (value_before self.held) }
        ensures { self.held ≡ Before result }
    {
        let Entry { packed, serial: _ } = self;
        match packed {
            Packed::Before(_, value) => value,
            _ => unreachable!(),
        }
    }

    // Returns the value of an entry after the cursor.
    #[inline(always)]
    fn into_after(self) -> Option<B>
        requires { IsSome (value_after self.held) }
        ensures { self.held ≡ held_after result }
    {
        let Entry { packed, serial: _ } = self;
        match packed {
            Packed::After(_, value) => Some(value),
            Packed::AfterWithout(_) => None,
            _ => unreachable!(),
        }
    }

    /// Drops what a spare node carries.
    #[inline(always)]
    pub(super) fn drop_spare(self)
        requires { self.held ≡ Nothing }
    {
        let Entry { packed, serial: _ } = self;
        match packed {
            Packed::Spare(_) => {}
            _ => unreachable!(),
        }
    }
}

/// Nodes in order, and the first node after the cursor, or the root if no node is after the cursor.
#[derive(Drop)]
pub(super) struct Entries<A, B> {
    ring: Ring<Entry<A, B>>,
    cursor: NodePtr<Entry<A, B>>,
}

impl<A, B> Entries<A, B> {
    /// Makes a ring with no entry.
    pub(super) fn new(alloc: Global) -> Result<Self, AllocError>
        ensures nodes { IfOk result (λ entries. entries.ring.nodes ≡ []) }
        ensures cursor { IfOk result (λ entries. entries.cursor.ptr ≡ entries.ring.at) }
    {
        let Ok(room) = Vacant::take(alloc) else {
            return Err(AllocError);
        };
        let (ring, cursor) = Ring::alone(alloc, room, Entry::spare(0));
        Ok(Entries { ring, cursor })
    }

    /// Returns whether the node's entry is before the cursor.
    #[inline(always)]
    pub(super) fn is_before(&self, own: &NodeRef<Entry<A, B>>) -> bool
        requires { IsAt self.now.ring.nodes own.now.ptr }
        ensures { AtNode self.now.ring.nodes own.now.ptr (λ _ n _. IsTrue result
            ↔ IsSome (value_before n.entry.held)) }
    {
        let (entry, _) = self.ring.look(own);
        entry.is_before()
    }

    /// Returns whether the node's entry is after the cursor.
    #[inline(always)]
    pub(super) fn is_after(&self, own: &NodeRef<Entry<A, B>>) -> bool
        requires { IsAt self.now.ring.nodes own.now.ptr }
        ensures { AtNode self.now.ring.nodes own.now.ptr (λ _ n _. IsTrue result
            ↔ IsSome (value_after n.entry.held)) }
    {
        let (entry, _) = self.ring.look(own);
        entry.is_after()
    }

    /// Links a spare node in at the end, with an entry after the cursor, and returns its slot and the node.
    ///
    /// If no other entry is after the cursor, the cursor moves to the new entry.
    #[inline(always)]
    pub(super) fn append<K: Count>(
        &mut self,
        node: Ring<Entry<A, B>>,
        serial: u64,
        value: Option<B>,
        is_first: bool,
        steps: &mut K,
    ) -> (u32, NodeRef<Entry<A, B>>)
        requires alone { node.nodes ≡ [] }
        requires spare { node.entry.held ≡ Nothing }
        ensures slot { result.0 ≡ node.entry.slot }
        ensures place { result.1.ptr ≡ node.at }
        ensures root { self.new.ring.at ≡ self.old.ring.at }
        ensures nodes { self.new.ring.nodes
            ≡ self.old.ring.nodes ++ placed node.at (record {
              slot = node.entry.slot;
              serial = serial;
              held = held_after value;
            }) ∷ [] }
        ensures cursor { self.new.cursor.ptr ≡ if is_first then node.at else self.old.cursor.ptr }
        ensures visits { K.visits steps.new ≡ K.visits steps.old + 1 }
        ensures looks { K.looks steps.new ≡ K.looks steps.old }
    {
        let own = self.ring.append(node, steps);
        let (spare, _) = self.ring.look(&own);
        let slot = spare.slot_of_spare();
        let entry = Entry::after(Key { slot, serial }, value);
        self.ring.replace(&own, entry).drop_spare();
        if is_first {
            self.cursor = own.place();
        }
        (slot, own)
    }

    /// Takes the value of an entry after the cursor off its node, which then carries what a spare node carries.
    #[inline(always)]
    pub(super) fn hand_out(&mut self, own: &NodeRef<Entry<A, B>>) -> Option<B>
        requires { IsAfterAt self.old.ring.nodes own.now.ptr }
        ensures { HandsOut self.old own.now.ptr result self.new }
    {
        let (entry, _) = self.ring.look(own);
        let slot = entry.slot();
        let entry = self.ring.replace(own, Entry::spare(slot));
        entry.into_after()
    }

    /// Gives an entry after the cursor to a node that carries what a spare node carries.
    #[inline(always)]
    pub(super) fn hand_in(&mut self, own: &NodeRef<Entry<A, B>>, key: Key, value: Option<B>)
        requires { IsSpareAt self.old.ring.nodes own.now.ptr }
        ensures { HandsIn self.old own.now.ptr key value self.new }
    {
        let entry = Entry::after(key, value);
        self.ring.replace(own, entry).drop_spare();
    }

    /// Takes a node out whose entry is before the cursor, and returns its value and its block.
    #[inline(always)]
    pub(super) fn take_before<K: Count>(
        &mut self,
        own: NodeRef<Entry<A, B>>,
        steps: &mut K,
    ) -> (A, Room<Entry<A, B>>)
        requires { IsBeforeAt self.old.ring.nodes own.ptr }
        ensures taken { TakesOut self.old own.ptr self.new }
        ensures value { AtNode self.old.ring.nodes own.ptr
            (λ _ n _. n.entry.held ≡ Before result.0) }
        ensures cursor { self.new.cursor ≡ self.old.cursor }
        ensures visits { K.visits steps.new ≡ K.visits steps.old + 2 }
        ensures looks { K.looks steps.new ≡ K.looks steps.old }
    {
        let (entry, room) = self.ring.take(own, steps);
        (entry.into_before(), room)
    }

    /// Takes a node out whose entry is after the cursor, and returns its value, if it has one, and its block. If `slot` is
    /// that of the first node after the cursor, the cursor moves behind this node.
    #[inline(always)]
    pub(super) fn take_after<K: Count>(
        &mut self,
        own: NodeRef<Entry<A, B>>,
        slot: u32,
        steps: &mut K,
    ) -> (Option<B>, Room<Entry<A, B>>)
        requires node { IsAfterAt self.old.ring.nodes own.ptr }
        requires cursor { IsAt self.old.ring.nodes self.old.cursor.ptr }
        ensures taken { TakesOut self.old own.ptr self.new }
        ensures value { AtNode self.old.ring.nodes own.ptr
            (λ _ n _. n.entry.held ≡ held_after result.0) }
        ensures cursor { AtNode self.old.ring.nodes own.ptr (λ _ _ ys.
            AtNode self.old.ring.nodes self.old.cursor.ptr (λ _ first _.
            self.new.cursor.ptr ≡ if eqb first.entry.slot slot
            then first_place ys self.old.ring.at
            else self.old.cursor.ptr)) }
        ensures visits { K.visits steps.new ≡ K.visits steps.old + 3 }
        ensures looks { K.looks steps.new ≡ K.looks steps.old }
    {
        let cursor = self.ring.visit(self.cursor, steps);
        let (first, _) = self.ring.look(&cursor);
        let is_at_cursor = first.slot() == slot;
        let (_, next) = self.ring.look(&own);
        let (entry, room) = self.ring.take(own, steps);
        if is_at_cursor {
            self.cursor = next;
        }
        (entry.into_after(), room)
    }

    /// Visits the first node after the cursor, and returns the node and its slot.
    #[inline(always)]
    pub(super) fn first<K: Count>(&self, steps: &mut K) -> (NodeRef<Entry<A, B>>, u32)
        requires { IsAt self.now.ring.nodes self.now.cursor.ptr }
        ensures place { result.0.ptr ≡ self.now.cursor.ptr }
        ensures slot { AtNode self.now.ring.nodes self.now.cursor.ptr
            (λ _ n _. result.1 ≡ n.entry.slot) }
        ensures visits { K.visits steps.new ≡ K.visits steps.old + 1 }
        ensures looks { K.looks steps.new ≡ K.looks steps.old }
    {
        let first = self.ring.visit(self.cursor, steps);
        let (entry, _) = self.ring.look(&first);
        (first, entry.slot())
    }

    /// Moves the cursor past the first node after it, whose entry has this key and gets this value. Returns the value that
    /// the entry had.
    #[inline(always)]
    pub(super) fn advance(&mut self, first: NodeRef<Entry<A, B>>, key: Key, value: A) -> Option<B>
        requires node { IsAfterAt self.old.ring.nodes self.old.cursor.ptr }
        requires place { first.ptr ≡ self.old.cursor.ptr }
        ensures { Advances self.old key value result self.new }
    {
        let entry = Entry::before(key, value);
        let (_, next) = self.ring.look(&first);
        let told = self.ring.replace(&first, entry);
        self.cursor = next;
        told.into_after()
    }
}
