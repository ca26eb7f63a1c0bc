//! Nodes that no entry uses.
ghost use Rattle.std.specs.Prelude.{◌≡◌, ◌+◌, ◌<◌, ◌^◌, [], ◌∷◌, ◌++◌, length, MatchOption};
ghost use Rattle.event_queue.specs.Ring.{placed};

use super::pointers::{NodePtr, Pile, Ring, Room};
use std::alloc::Global;
use std::marker::Model;

/// Spare nodes. The node that became spare last is taken first, because it is the likeliest to be in a cache.
///
/// Each node leads to the node that became spare before it, so a node that becomes spare needs no memory. No listener is on a
/// spare node, so looks at spare nodes are no visits: a call takes the last node or adds a node, and looks at no other.
pub struct Spares<E> {
    pile: Pile<E>,
    len: usize,
}

impl<E> Model for Spares<E> {
    ghost use Rattle.std.specs.Prelude.{◌≡◌, List, length, reverse};
    ghost use Rattle.event_queue.specs.Ring.{Placed};

    ghost Value = { List (Placed E) };

    ghost view = { λ spares. reverse spares.pile.nodes };

    ghost invariant = { λ spares. spares.len ≡ length spares.pile.nodes };
}

impl<E> Spares<E> {
    /// Makes a store without nodes.
    pub fn new(alloc: Global) -> Self
        ensures { result ≡ [] }
    {
        Spares {
            pile: Pile::new(alloc),
            len: 0,
        }
    }

    /// Returns how many nodes are spare.
    #[inline(always)]
    pub fn len(&self) -> usize
        ensures { result ≡ length self.now }
    {
        self.len
    }

    /// Takes the node that became spare last.
    #[inline(always)]
    pub fn pop(&mut self) -> Option<Ring<E>>
        ensures { MatchOption result ((self.old ≡ []) × (self.new ≡ [])) (λ node. (node.nodes ≡ [])
            × (self.old ≡ self.new ++ placed node.at node.entry ∷ [])) }
    {
        if self.len == 0 {
            return None;
        }
        self.len -= 1;
        Some(self.pile.take())
    }

    /// Makes a node in that room, adds the node, and returns its place.
    #[inline(always)]
    pub fn push(&mut self, room: Room<E>, entry: E) -> NodePtr<E>
        requires { length self.old + 1 < 2 ^ 64 }
        ensures place { result.ptr ≡ room.ptr }
        ensures nodes { self.new ≡ self.old ++ placed room.ptr entry ∷ [] }
    {
        self.len += 1;
        self.pile.fill(room, entry)
    }
}

impl<E: Drop> Drop for Spares<E> {
    fn drop(mut self) {
        for _ in 0..self.len {
            if let Some(node) = self.pop() {
                drop(node);
            }
        }
        // No node is left on the pile.
        let Self { pile: _, len: _ } = self;
    }
}
