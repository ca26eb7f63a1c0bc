//! The ways to a node of a ring: a look by key, which leads to the call's own node, and a visit of another node. Each is
//! counted.
ghost use Rattle.std.specs.Prelude.{◌≡◌, ◌+◌, [], ◌∷◌, ◌++◌, MatchOption};
ghost use Rattle.event_queue.specs.Ring.{placed, first_place, IsAt, AtNode};
ghost use Rattle.event_queue.specs.Counts.{counted_on};

use self::pointers::Node;
pub(super) use self::pointers::{NodePtr, Ring, Room};
pub(super) use self::spares::Spares;
pub use self::steps::{Count, Steps};

mod pointers;
mod spares;
mod steps;

/// A node that a call may look at: the node that a look by key led to, once that look was counted, or another node, once its
/// visit was counted.
///
/// A [`NodePtr`] only says where a node is: the functions that follow a place are reached from this module alone. So a call
/// gets to a node by [`NodeRef::looked_up`] or by [`Ring::visit`], and keeps no node for the next call.
#[derive(Drop)]
pub(super) struct NodeRef<E> {
    ptr: *mut Node<E>,
}

impl<E> NodeRef<E> {
    /// Returns the node that a look by key led to, which is the call's own node. The look is counted even if it led nowhere.
    #[inline(always)]
    pub(super) fn looked_up<K: Count>(place: Option<NodePtr<E>>, steps: &mut K) -> Option<Self>
        ensures node { MatchOption result (place ≡ None)
            (λ node. place ≡ Some (record { ptr = node.ptr })) }
        ensures visits { K.visits steps.new ≡ K.visits steps.old }
        ensures looks { K.looks steps.new ≡ counted_on (K.looks steps.old) 1 }
    {
        steps.add_look();
        match place {
            Some(place) => Some(NodeRef { ptr: place.ptr }),
            None => None,
        }
    }

    /// Returns the place of the node.
    #[inline(always)]
    pub(super) fn place(&self) -> NodePtr<E>
        ensures { result.ptr ≡ self.now.ptr }
    {
        NodePtr { ptr: self.ptr }
    }
}

impl<E> Ring<E> {
    /// Visits another node than the call's own node, and counts one visit.
    #[inline(always)]
    pub(super) fn visit<K: Count>(&self, node: NodePtr<E>, steps: &mut K) -> NodeRef<E>
        ensures place { result.ptr ≡ node.ptr }
        ensures visits { K.visits steps.new ≡ K.visits steps.old + 1 }
        ensures looks { K.looks steps.new ≡ K.looks steps.old }
    {
        steps.add_visit();
        NodeRef { ptr: node.ptr }
    }

    /// Returns what the node carries, and the place of the node behind it: behind the last node, that of the root.
    #[inline(always)]
    pub(super) fn look(&self, node: &NodeRef<E>) -> (&E, NodePtr<E>)
        requires { IsAt self.now.nodes node.now.ptr }
        ensures entry { AtNode self.now.nodes node.now.ptr (λ _ n _. result.0.now ≡ n.entry) }
        ensures next { AtNode self.now.nodes node.now.ptr
            (λ _ _ ys. result.1.ptr ≡ first_place ys self.now.at) }
    {
        self.look_at(NodePtr { ptr: node.ptr })
    }

    /// Gives the node something else to carry, and returns what it had.
    #[inline(always)]
    pub(super) fn replace(&mut self, node: &NodeRef<E>, entry: E) -> E
        requires { IsAt self.old.nodes node.now.ptr }
        ensures root { (self.new.at ≡ self.old.at) × (self.new.entry ≡ self.old.entry) }
        ensures nodes { AtNode self.old.nodes node.now.ptr
            (λ xs n ys. (self.new.nodes ≡ xs ++ placed n.at entry ∷ ys) × (result ≡ n.entry)) }
    {
        self.replace_at(NodePtr { ptr: node.ptr }, entry)
    }

    /// Links the call's own node in behind the last node, and counts one visit, of that node.
    #[inline(always)]
    pub(super) fn append<K: Count>(&mut self, node: Ring<E>, steps: &mut K) -> NodeRef<E>
        requires { node.nodes ≡ [] }
        ensures place { result.ptr ≡ node.at }
        ensures root { (self.new.at ≡ self.old.at) × (self.new.entry ≡ self.old.entry) }
        ensures nodes { self.new.nodes ≡ self.old.nodes ++ placed node.at node.entry ∷ [] }
        ensures visits { K.visits steps.new ≡ K.visits steps.old + 1 }
        ensures looks { K.looks steps.new ≡ K.looks steps.old }
    {
        steps.add_visit();
        let place = self.link_last(node);
        NodeRef { ptr: place.ptr }
    }

    /// Takes the call's own node out of the ring, and returns what the node carries, and its block with nothing in it. Counts
    /// two visits, of its two neighbors.
    #[inline(always)]
    pub(super) fn take<K: Count>(&mut self, node: NodeRef<E>, steps: &mut K) -> (E, Room<E>)
        requires { IsAt self.old.nodes node.ptr }
        ensures root { (self.new.at ≡ self.old.at) × (self.new.entry ≡ self.old.entry) }
        ensures place { result.1.ptr ≡ node.ptr }
        ensures nodes { AtNode self.old.nodes node.ptr (λ xs n ys. (self.new.nodes ≡ xs ++ ys)
            × (result.0 ≡ n.entry)) }
        ensures visits { K.visits steps.new ≡ K.visits steps.old + 2 }
        ensures looks { K.looks steps.new ≡ K.looks steps.old }
    {
        steps.add_visit();
        steps.add_visit();
        self.unlink(NodePtr { ptr: node.ptr })
    }
}
