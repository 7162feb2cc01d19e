//! A set of nodes, such as those that sent a promise or a vote.

ghost use Rattle.std.specs.Prelude.{◌≡◌, ◌≤◌, [], length, nat_eq};
ghost use Rattle.rp_base.specs.Sets.{SameMembers, with_member};
ghost use Rattle.rp_base.specs.Majority.{AreNodes, nodes_among};
ghost use Rattle.rp_base.specs.Masks.{low_bits};

use crate::number::{MOST_NODES, NodeId};
use std::marker::Model;

/// A set of nodes, at most 7: a mask in one byte, whose bit k is set where node k is in the set.
#[derive(Debug, Drop)]
pub struct Senders {
    mask: u8,
}

impl Model for Senders {
    ghost use Rattle.std.specs.Prelude.{◌≡◌, ◌%◌, ℕ, List};
    ghost use Rattle.rp_base.specs.Masks.{nodes_in};

    ghost Value = { List ℕ };

    ghost view = { λ s. nodes_in s.mask };

    ghost invariant = { λ s. s.mask % 2 ≡ 0 };
}

impl Senders {
    /// No node yet.
    pub fn new() -> Senders
        ensures { result ≡ [] }
    {
        Senders { mask: 0 }
    }

    /// How many nodes there are, at most 7.
    pub fn len(&self) -> usize
        ensures value { result ≡ length self.now }
        ensures nodes { AreNodes 7 self.now }
    {
        self.mask.count_ones() as usize
    }

    /// How many of them are among the nodes 1 to `nodes`, at most 7.
    pub fn len_within(&self, nodes: u8) -> usize
        requires { nodes ≤ 7 }
        ensures value { result ≡ length (nodes_among nodes self.now) }
        ensures nodes { AreNodes 7 self.now }
    {
        (self.mask & bits_up_to(nodes)).count_ones() as usize
    }

    /// How many of them and one more are among the nodes 1 to `nodes`, at most 7.
    pub fn len_with(&self, node: NodeId, nodes: u8) -> usize
        requires { nodes ≤ 7 }
        ensures value { result ≡ length (nodes_among nodes (with_member nat_eq self.now node)) }
        ensures nodes { AreNodes 7 self.now }
    {
        ((self.mask | 1 << node.get()) & bits_up_to(nodes)).count_ones() as usize
    }

    /// Adds a node, unless it is there.
    pub fn insert(&mut self, node: NodeId)
        ensures { SameMembers self.new (with_member nat_eq self.old node) }
    {
        self.mask |= 1 << node.get();
    }
}

/// The bits 0 to `nodes`.
fn bits_up_to(nodes: u8) -> u8
    requires { nodes ≤ 7 }
    ensures { result ≡ low_bits nodes }
{
    u8::MAX >> (MOST_NODES - nodes)
}
