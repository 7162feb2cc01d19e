//! The packets that nodes and tasks send to one another.

ghost use Rattle.std.specs.Prelude.{◌≡◌};

use crate::items::{Actions, Votes};
use crate::rules;
use rp_base::{Action, Ballot, NodeId, Position, PositionRange, TaskId, Vote};
use std::marker::Model;

/// A sender or a receiver of packets.
#[derive(Clone, Copy, PartialEq, Eq)]
pub enum Party {
    Node(NodeId),
    Task(TaskId),
    /// The audit, which receives what the nodes have applied.
    Audit,
}

/// What a packet says (Lamport, "Paxos Made Simple", section 2.2, where `Prepare` to `Accepted` are
/// the requests of its two phases and their responses).
#[derive(PartialEq, Eq, Drop)]
pub enum Body {
    /// A task calls.
    Call {
        action: Action,
    },
    /// A leader asks for promises at the position.
    Prepare {
        position: Position,
        ballot: Ballot,
    },
    /// The node takes no part in lower ballots, and this is its last vote below this one.
    Promise {
        position: Position,
        ballot: Ballot,
        last: Option<Vote>,
    },
    /// A leader asks for votes for the action.
    Accept {
        position: Position,
        ballot: Ballot,
        action: Action,
    },
    /// The node has voted.
    Accepted {
        position: Position,
        ballot: Ballot,
        action: Action,
    },
    /// The action is decided at the position.
    Decided {
        position: Position,
        action: Action,
    },
    /// What is decided at the position?
    Ask {
        position: Position,
    },
    /// The ballot is refused, since the node has promised `bound`, which is above it.
    Nack {
        position: Position,
        ballot: Ballot,
        bound: Ballot,
    },
    /// The task's call of this number, 1 to 2^32 - 1, is answered.
    Reply {
        number: u32,
        reply: rp_base::Reply,
    },
    /// The node has applied the actions of the positions up to `applied`, and these are those from
    /// `first` on, as many as `report_len` says. `applied` is 0 where it has applied none.
    Report {
        first: Position,
        applied: u16,
        actions: Actions,
    },
    /// A leader asks for promises at each position of the range.
    PrepareRange {
        range: PositionRange,
        ballot: Ballot,
    },
    /// The node takes no part in lower ballots at each position of the range, and these are its
    /// last votes there, by rising position.
    PromiseRange {
        range: PositionRange,
        ballot: Ballot,
        votes: Votes,
    },
}

/// A body with its sender and its receiver, by the rules: a task calls a node, in a call of its
/// own; a node replies to a task and reports to the audit; all else goes from node to node. Actions
/// are right, a promise's votes are in lower ballots, those for a range at positions of it that
/// rise, the bound of a `Nack` is above its ballot, and a report has as many actions as
/// `report_len` says.
#[derive(PartialEq, Eq)]
pub struct Packet {
    from: Party,
    to: Party,
    body: Body,
}

// Not derived, so that to drop it is one step of a proof and not one for each of its parts.
impl Drop for Packet {
    fn drop(self) {
        let Packet {
            from: _,
            to: _,
            body: _,
        } = self;
    }
}

impl Model for Packet {
    ghost use Rattle.rp_codec.specs.Message.{Message, IsPacket};

    ghost Value = { Message };

    ghost view = { λ p. record { from = p.from; to = p.to; body = p.body } };

    ghost invariant = { λ p. IsPacket (record { from = p.from; to = p.to; body = p.body }) };

    ghost inverse = { λ m. record { from = m.from; to = m.to; body = m.body } };
}

impl Packet {
    ghost use Rattle.rp_codec.specs.Message.{IsPacket, KeepsRules};

    /// The packet of this body, which keeps the rules.
    pub fn new(from: Party, to: Party, body: Body) -> Self
        requires { KeepsRules (record { from = from; to = to; body = body }) }
        ensures { result ≡ record { from = from; to = to; body = body } }
    {
        rules::party_in_range(&from);
        rules::party_in_range(&to);
        rules::body_in_range(&body);
        Packet { from, to, body }
    }

    /// The sender.
    pub fn from(&self) -> Party
        ensures { result ≡ self.now.from }
    {
        self.from
    }

    /// The receiver.
    pub fn to(&self) -> Party
        ensures { result ≡ self.now.to }
    {
        self.to
    }

    /// What it says.
    pub fn body(&self) -> &Body
        ensures value { result.now ≡ self.now.body }
        ensures packet { IsPacket self.now }
    {
        &self.body
    }
}
