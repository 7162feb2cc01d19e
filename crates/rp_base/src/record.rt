//! What a node writes before it sends.

ghost use Rattle.std.specs.Prelude.{◌≡◌, ◌++◌, option_to_list};
ghost use Rattle.rp_base.specs.Records.{highest};

use crate::action::Action;
use crate::ballot::Ballot;
use crate::number::Position;
use crate::range::PositionRange;

/// A vote for an action in a ballot.
#[derive(Clone, Copy, Debug, PartialEq, Eq, Hash)]
pub struct Vote {
    pub ballot: Ballot,
    pub action: Action,
}

impl Vote {
    /// The vote of the greater ballot, the first of two in one ballot.
    pub fn higher(first: Option<Vote>, second: Option<Vote>) -> Option<Vote>
        ensures { result ≡ highest (option_to_list first ++ option_to_list second) }
    {
        match second {
            None => first,
            Some(vote) => match first {
                Some(other) if other.ballot.get() >= vote.ballot.get() => Some(other),
                _ => Some(vote),
            },
        }
    }
}

/// A record of a node's stable store (Lamport, "Paxos Made Simple", section 2.5: an acceptor
/// records its response before it sends it).
#[derive(Clone, Copy, Debug, PartialEq, Eq, Hash)]
pub enum Rec {
    /// The node leads in this ballot.
    Started(Ballot),
    /// It promised to take no part at the position in a lower ballot.
    Promised(Position, Ballot),
    /// It voted for the action at the position in this ballot.
    Voted(Position, Ballot, Action),
    /// It learned that the action is decided at the position.
    Learned(Position, Action),
    /// It promised to take no part at each position of the range in a lower ballot.
    PromisedRange(PositionRange, Ballot),
}
