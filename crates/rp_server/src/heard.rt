//! The votes that were heard, which memory does not hold.

ghost use Rattle.std.specs.Prelude.{◌≡◌, []};
ghost use Rattle.rp_base.specs.Sets.{with_member};
ghost use Rattle.rp_base.specs.Promises.{same_heard, heard_elsewhere};

use rp_base::{Action, Ballot, History, NodeId, Position, Vote};
use std::marker::Model;

/// What a learner noted.
#[derive(Drop)]
pub(crate) enum Note {
    /// A node's vote at a position.
    Heard(NodeId, Position, Ballot, Action),
    /// The action decided at a position.
    Settled(Position, Action),
}

/// The votes heard at positions that are not settled, in order of arrival, each once.
#[derive(Drop)]
pub(crate) struct Heard {
    notes: History<Note>,
}

impl Model for Heard {
    ghost use Rattle.std.specs.Prelude.{List};
    ghost use Rattle.rp_base.specs.Promises.{HeardVote};
    ghost use Rattle.rp_server.specs.Notes.{heard_of};

    ghost Value = { List HeardVote };

    ghost view = { λ h. heard_of h.notes };
}

impl Heard {
    /// No vote was heard.
    pub(crate) fn new() -> Self
        ensures { result ≡ [] }
    {
        Heard {
            notes: History::new(),
        }
    }

    /// One vote more, unless it was heard.
    pub(crate) fn hear(&mut self, from: NodeId, position: Position, vote: Vote)
        ensures { self.new ≡ with_member same_heard self.old (from, position, vote) }
    {
        self.notes
            .push(&Note::Heard(from, position, vote.ballot, vote.action));
    }

    /// The votes heard at the position are let go.
    pub(crate) fn settle(&mut self, position: Position, action: Action)
        ensures { self.new ≡ heard_elsewhere self.old position }
    {
        self.notes.push(&Note::Settled(position, action));
    }
}
