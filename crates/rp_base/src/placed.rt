//! Votes with their positions, such as a promise for a range reports.

ghost use Rattle.std.specs.Prelude.{◌≡◌, []};
ghost use Rattle.rp_base.specs.PlacedVotes.{placed_at};

use crate::action::Action;
use crate::ballot::Ballot;
use crate::fixed_list::FixedList;
use crate::number::{NodeId, Position};
use crate::range::MOST_COVERED;
use crate::record::Vote;

/// The most votes that one promise reports, one for each position of a range.
const MOST_VOTES: usize = MOST_COVERED as usize;

/// A vote and the position that it is for.
#[derive(Clone, Copy, Debug, PartialEq, Eq, Hash)]
pub struct PlacedVote {
    pub position: Position,
    pub vote: Vote,
}

impl PlacedVote {
    /// The vote at a position, the first of several.
    pub fn find(votes: &[PlacedVote], position: Position) -> Option<Vote>
        ensures { result ≡ placed_at votes.now position }
    {
        votes
            .iter()
            .find(|placed| placed.position == position)
            .map(|placed| placed.vote)
    }
}

/// The votes that an acceptor reports for a range, by rising position: at most 64, in place, so
/// that the answer takes no memory.
pub type RangeVotes = FixedList<PlacedVote, MOST_VOTES>;

impl FixedList<PlacedVote, MOST_VOTES> {
    /// No vote yet.
    pub fn new() -> Self
        ensures { result ≡ [] }
    {
        FixedList::of(PlacedVote {
            position: Position::first(),
            vote: Vote {
                ballot: Ballot::of(1, NodeId::first()),
                action: Action::Noop,
            },
        })
    }
}
