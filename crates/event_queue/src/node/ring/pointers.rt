//! Nodes on the heap, linked by raw pointers: in a ring, or in a pile while they are spare. Every raw pointer of the
//! crate is made and followed here, by eight functions: those with `unsafe`, and `Pile::new`.
ghost use base.Fml.{ftrue};
ghost use Rattle.std.specs.Prelude.{◌≡◌, ◌<◌, ⊤, List, [], ◌∷◌, ◌++◌, length};
ghost use Rattle.std.specs.Coded.{prop_coded};
ghost use Rattle.event_queue.specs.Ring.{Placed, placed, places, first_place, IsApart, IsApart-prop, IsAt, AtNode};
ghost use Rattle.event_queue.specs.RingMemory.{ring_owns, ring_lent, pile_owns};

use std::alloc::{AllocError, Global};
use std::marker::{Model, Send, Sync};
use std::ptr;
use std_alloc::room::Vacant;

/// A node of a ring. The last node leads back to the root, and the root's previous node is the last.
pub struct Node<E> {
    next: *mut Node<E>,
    previous: *mut Node<E>,
    entry: E,
}

/// A node's block with nothing in it.
pub type Room<E> = Vacant<Node<E>, Global>;

/// The place of a node, which owns nothing.
pub struct NodePtr<E> {
    pub(super) ptr: *mut Node<E>,
}

impl<E> Clone for NodePtr<E> {
    ghost is_clone = { λ x y. y ≡ x };

    ghost is_infallible = { λ _. ⊤ };

    fn clone(&self) -> Result<NodePtr<E>, AllocError> {
        Ok(*self)
    }
}

impl<E> Copy for NodePtr<E> {}

unsafe impl<E> Send for NodePtr<E> {}

unsafe impl<E> Sync for NodePtr<E> {}

/// A root node and the nodes linked behind it, in order, back to the root.
///
/// A ring of one is a node that is in no other ring.
pub struct Ring<E> {
    pub(super) at: *mut Node<E>,
    alloc: Global,
    pub(super) ghost entry: { E },
    pub(super) ghost nodes: { List (Placed E) },
    ghost apart: { IsApart (at ∷ places nodes) } by { prop_coded (IsApart-prop (at ∷ places nodes)) },
}

impl<E> Model for Ring<E> {
    ghost also_owns = { λ r. ring_owns E.row r.alloc r.at r.entry r.nodes };

    ghost also_shares = { λ r _ κ. ring_lent E.row r.at r.entry r.nodes κ };
}

unsafe impl<E: Send> Send for Ring<E> {}

unsafe impl<E: Sync> Sync for Ring<E> {}

impl<E> Ring<E> {
    /// Returns what the node carries, and the place of the node behind it: behind the last node, that of the root.
    #[inline(always)]
    pub(super) fn look_at(&self, node: NodePtr<E>) -> (&E, NodePtr<E>)
        requires { IsAt self.now.nodes node.ptr }
        ensures entry { AtNode self.now.nodes node.ptr (λ _ n _. result.0.now ≡ n.entry) }
        ensures next { AtNode self.now.nodes node.ptr
            (λ _ _ ys. result.1.ptr ≡ first_place ys self.now.at) }
    {
        unsafe {
            (
                &(*node.ptr).entry,
                NodePtr {
                    ptr: (*node.ptr).next,
                },
            )
        }
    }

    /// Gives the node something else to carry, and returns what it had.
    #[inline(always)]
    pub(super) fn replace_at(&mut self, node: NodePtr<E>, entry: E) -> E
        requires { IsAt self.old.nodes node.ptr }
        ensures root { (self.new.at ≡ self.old.at) × (self.new.entry ≡ self.old.entry) }
        ensures nodes { AtNode self.old.nodes node.ptr
            (λ xs n ys. (self.new.nodes ≡ xs ++ placed n.at entry ∷ ys) × (result ≡ n.entry)) }
    {
        unsafe {
            let place = &raw mut (*node.ptr).entry;
            let had = place.read();
            place.write(entry);
            had
        }
    }

    /// Links a lone node in behind the last node, and returns its place.
    #[inline(always)]
    pub(super) fn link_last(&mut self, node: Ring<E>) -> NodePtr<E>
        requires { node.nodes ≡ [] }
        ensures place { result.ptr ≡ node.at }
        ensures root { (self.new.at ≡ self.old.at) × (self.new.entry ≡ self.old.entry) }
        ensures nodes { self.new.nodes ≡ self.old.nodes ++ placed node.at node.entry ∷ [] }
    {
        let root = self.at;
        let Ring { at: node, alloc: _ } = node;
        unsafe {
            (*node).next = root;
            (*node).previous = (*root).previous;
            (*root).previous = node;
            (*(*node).previous).next = node;
        }
        NodePtr { ptr: node }
    }

    /// Takes the node out of the ring, and returns what the node carries, and its block with nothing in it.
    #[inline(always)]
    pub(super) fn unlink(&mut self, node: NodePtr<E>) -> (E, Room<E>)
        requires { IsAt self.old.nodes node.ptr }
        ensures place { result.1.ptr ≡ node.ptr }
        ensures root { (self.new.at ≡ self.old.at) × (self.new.entry ≡ self.old.entry) }
        ensures nodes { AtNode self.old.nodes node.ptr (λ xs n ys. (self.new.nodes ≡ xs ++ ys)
            × (result.0 ≡ n.entry)) }
    {
        let node = node.ptr;
        unsafe {
            let entry = (&raw const (*node).entry).read();
            (*(*node).previous).next = (*node).next;
            (*(*node).next).previous = (*node).previous;
            (
                entry,
                Vacant {
                    ptr: node,
                    alloc: self.alloc,
                },
            )
        }
    }

    /// Makes a lone node in that room, and returns the node and its place.
    pub fn alone(alloc: Global, room: Room<E>, entry: E) -> (Ring<E>, NodePtr<E>)
        ensures alone { (result.0.entry ≡ entry) × (result.0.nodes ≡ []) }
        ensures place { result.1.ptr ≡ result.0.at }
    {
        let mut pile = Pile::new(alloc);
        let place = pile.fill(room, entry);
        (pile.take(), place)
    }

    // Gives a block back, and drops what a node there carried.
    fn free(entry: E, room: Room<E>)
    where
        E: Drop,
    {
        room.free();
        drop(entry);
    }

    // Gives every node's block back, and drops what the node carried. The walk ends at the last node, whose link to the root
    // is cut first: addresses in different blocks may not be compared.
    fn free_all(self)
    where
        E: Drop,
    {
        let Ring { at: root, alloc } = self;
        unsafe {
            (*(*root).previous).next = ptr::null_mut();
            let mut at = root;
            while !ptr::eq(at, ptr::null_mut()) {
                let next = (*at).next;
                let entry = (&raw const (*at).entry).read();
                Ring::free(entry, Vacant { ptr: at, alloc });
                at = next;
            }
        }
    }
}

impl<E: Drop> Drop for Ring<E> {
    fn drop(self) {
        self.free_all();
    }
}

/// Nodes that are in no ring, each linked to the node that was put on the pile before it.
///
/// The drop of a pile frees no node: the owner of the pile takes every node off first.
#[derive(Drop)]
pub struct Pile<E> {
    top: *mut Node<E>,
    alloc: Global,
    pub(super) ghost nodes: { List (Placed E) },
}

impl<E> Model for Pile<E> {
    ghost also_owns = { λ p. pile_owns E.row p.alloc p.top p.nodes };

    // Nothing reads a pile through a `&`.
    ghost also_shares = { λ _ _ _. ftrue };
}

unsafe impl<E: Send> Send for Pile<E> {}

unsafe impl<E: Sync> Sync for Pile<E> {}

impl<E> Pile<E> {
    /// Makes a pile without nodes.
    pub(super) fn new(alloc: Global) -> Pile<E>
        ensures { result.nodes ≡ [] }
    {
        Pile {
            top: ptr::null_mut(),
            alloc,
        }
    }

    /// Makes a node in the room, on top of the pile, and returns its place.
    #[inline(always)]
    pub(super) fn fill(&mut self, room: Room<E>, entry: E) -> NodePtr<E>
        ensures place { result.ptr ≡ room.ptr }
        ensures nodes { self.new.nodes ≡ placed room.ptr entry ∷ self.old.nodes }
    {
        let Vacant {
            ptr: node,
            alloc: _,
        } = room;
        unsafe {
            (*node).next = self.top;
            (&raw mut (*node).entry).write(entry);
        }
        self.top = node;
        NodePtr { ptr: node }
    }

    /// Takes off the node on top of the pile.
    #[inline(always)]
    pub(super) fn take(&mut self) -> Ring<E>
        requires { 0 < length self.old.nodes }
        ensures alone { result.nodes ≡ [] }
        ensures nodes { self.old.nodes ≡ placed result.at result.entry ∷ self.new.nodes }
    {
        let node = self.top;
        unsafe {
            self.top = (*node).next;
            (*node).next = node;
            (*node).previous = node;
        }
        Ring {
            at: node,
            alloc: self.alloc,
        }
    }
}
