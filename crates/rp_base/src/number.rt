//! The numbers that name nodes, tasks and positions of the log.

ghost use Rattle.std.specs.Prelude.{◌≡◌, ◌≤◌, ℕ, ◌↔◌, IsSome, IfSome};
ghost use Rattle.rp_base.specs.Number.{IsUpTo, IsPosition};

use std::marker::Model;

/// The most nodes that a cluster has.
pub const MOST_NODES: u8 = 7;

/// The most tasks that a program has.
pub const MOST_TASKS: u8 = 8;

/// At how many positions, from the first unlearned one on, a node leads and counts votes.
pub const WINDOW: u32 = 64;

/// A number from 1 to `MOST`: the names of nodes and of tasks.
#[derive(Clone, Copy, Debug, PartialEq, Eq, PartialOrd, Ord, Hash)]
pub struct Id<const MOST: u8> {
    number: u8,
}

/// A node of the cluster, 1 to 7.
pub type NodeId = Id<MOST_NODES>;

/// A task of the program, 1 to 8 in the order of the deck.
pub type TaskId = Id<MOST_TASKS>;

impl<const MOST: u8> Model for Id<MOST> {
    ghost Value = { ℕ };

    ghost view = { λ id. id.number };

    ghost invariant = { λ id. IsUpTo MOST id.number };

    ghost inverse = { λ n. record { number = n } };
}

impl<const MOST: u8> Id<MOST> {
    /// The first of them.
    pub fn first() -> Self
        requires { 1 ≤ MOST }
        ensures { result ≡ 1 }
    {
        Id { number: 1 }
    }

    /// The one of this number, or `None` outside 1 to `MOST`.
    pub fn new(number: u8) -> Option<Self>
        // claim: Node, task and position numbers exist exactly in their ranges
        ensures valid { IsSome result ↔ IsUpTo MOST number }
        ensures value { IfSome result (λ id. id ≡ number) }
    {
        if (1..=MOST).contains(&number) {
            Some(Id { number })
        } else {
            None
        }
    }

    /// Its number, 1 to `MOST`.
    pub fn get(self) -> u8
        ensures value { result ≡ self.entry }
        ensures in_range { IsUpTo MOST self.entry }
    {
        self.number
    }
}

/// A position of the log, 1 to 65,535. Each is decided by an instance of its own (Lamport,
/// "Paxos Made Simple", section 3).
#[derive(Clone, Copy, Debug, PartialEq, Eq, PartialOrd, Ord, Hash)]
pub struct Position {
    number: u16,
}

impl Model for Position {
    ghost Value = { ℕ };

    ghost view = { λ p. p.number };

    ghost invariant = { λ p. IsPosition p.number };

    ghost inverse = { λ n. record { number = n } };
}

impl Position {
    /// The first position of the log.
    pub fn first() -> Self
        ensures { result ≡ 1 }
    {
        Position { number: 1 }
    }

    /// The position of this number, or `None` at 0.
    pub fn new(number: u16) -> Option<Self>
        // claim as Id::new
        ensures valid { IsSome result ↔ IsPosition number }
        ensures value { IfSome result (λ position. position ≡ number) }
    {
        if number == 0 {
            None
        } else {
            Some(Position { number })
        }
    }

    /// Its number, 1 to 65,535.
    pub fn get(self) -> u16
        ensures value { result ≡ self }
        ensures in_range { IsPosition self }
    {
        self.number
    }
}
