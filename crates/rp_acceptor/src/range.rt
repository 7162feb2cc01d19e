//! The acceptor's questions for a range of positions.

ghost use Rattle.std.specs.Prelude.{◌≡◌, [], IfOk, OnErr};
ghost use Rattle.rp_base.specs.PlacedVotes.{last_votes};
ghost use Rattle.rp_base.specs.Ranges.{positions_of};
ghost use Rattle.rp_base.specs.Records.{bound_at};
ghost use Rattle.rp_base.specs.Voting.{range_answer};
ghost use Rattle.rp_acceptor.specs.Comparing.{compared};
ghost use Rattle.rp_acceptor.specs.Slots.{AreBoundsOf};

use crate::acceptor::Acceptor;
use crate::comparison::Comparison;
use crate::places::Places;
use rp_base::{Ballot, PlacedVote, PositionRange, RangeAnswer, RangeVotes, Rec};
use std::alloc::{AllocError, Global};

impl Acceptor {
    /// What is answered to a `PrepareRange` of the ballot for the range (sections 2.2 and 3, phase
    /// 1b for many instances). The promise counts once the record that it comes with is written and
    /// noted.
    #[tactic(auto, using(crate::proofs::Answering::answered))]
    pub fn prepare_range(&self, range: PositionRange, ballot: Ballot) -> RangeAnswer
        ensures answer { result ≡ range_answer self.now.records range ballot }
    {
        match self.compare(range, ballot) {
            Comparison::Above => RangeAnswer::Promise {
                votes: self.last_votes(range),
                rec: Rec::PromisedRange(range, ballot),
            },
            Comparison::Below(position, bound) => RangeAnswer::Nack(position, bound),
            Comparison::Equal => RangeAnswer::Silent,
        }
    }

    /// How the ballot compares with the bounds at the positions of the range. Each level and each
    /// place is read once.
    pub fn compare(&self, range: PositionRange, ballot: Ballot) -> Comparison
        // claim: A ballot is compared with the bounds of a range exactly
        ensures { result ≡ compared (bound_at self.now.records) ballot (positions_of range) }
    {
        let single = self.places(range).compare(ballot);
        self.levels.compare(range, ballot).combined(single)
    }

    /// The last votes at the positions of the range, in a vector, which takes no memory if there
    /// are none.
    pub fn list_last_votes(
        &self,
        alloc: Global,
        range: PositionRange,
    ) -> Result<Vec<PlacedVote>, AllocError>
        // claim: The last votes of a range are returned; memory may run out only if there is one
        ensures votes { IfOk result (λ votes. votes.items ≡ last_votes self.now.records range) }
        ensures full { OnErr result (¬ (last_votes self.now.records range ≡ [])) }
    {
        self.places(range).to_vec(alloc)
    }

    /// The last votes at the positions of the range.
    fn last_votes(&self, range: PositionRange) -> RangeVotes
        ensures { result ≡ last_votes self.now.records range }
    {
        self.places(range).votes()
    }

    /// The places of the positions of the range.
    fn places(&self, range: PositionRange) -> Places<'_>
        ensures votes { result.votes ≡ last_votes self.now.records range }
        ensures bounds { AreBoundsOf result.bounds self.now.records range }
    {
        Places::of(&self.pages, range)
    }
}
