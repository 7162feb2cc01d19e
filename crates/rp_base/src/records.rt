//! What one more record changes, and what the last vote is.

ghost use Rattle.std.specs.Prelude.{◌≡◌, ◌<◌, ◌++◌, [], ◌∷◌, ℕ, max, true, false, List, Some, None, option_to_list};
ghost use Rattle.std.specs.List.{AllByRecursion};
ghost use Rattle.rp_base.specs.declared.record.Rec.{Rec};
ghost use Rattle.rp_base.specs.declared.record.Vote.{Vote};
ghost use Rattle.rp_base.specs.Right.{IsRightRecord, IsRightVote};
ghost use Rattle.rp_base.specs.Ranges.{Range, is_covered};
ghost use Rattle.rp_base.specs.PlacedVotes.{placed_at, last_votes, AreReported};
ghost use Rattle.rp_base.specs.Voting.{is_above_bounds};
ghost use Rattle.rp_base.specs.Records.{started_in, started_of, bound_in, bound_at, highest, vote_in, last_vote_at, learned_in, learned_at, or_else};

/// What one more record changes.
pub fn one_more_record()
    ensures started { (records : List Rec) (rec : Rec)
        → started_of (records ++ rec ∷ []) ≡ max (started_of records) (started_in rec) }
    ensures bound { (records : List Rec) (rec : Rec) (i : ℕ)
        → bound_at (records ++ rec ∷ []) i ≡ max (bound_at records i) (bound_in i rec) }
    ensures last_vote { (records : List Rec) (rec : Rec) (i : ℕ)
        → last_vote_at (records ++ rec ∷ []) i
        ≡ highest (option_to_list (last_vote_at records i) ++ option_to_list (vote_in i rec)) }
    ensures learned { (records : List Rec) (rec : Rec) (i : ℕ)
        → learned_at (records ++ rec ∷ []) i ≡ or_else (learned_at records i) (learned_in i rec) }
{}

/// The vote that a promise reports lies below the promised ballot, and is right if the records
/// are (Lamport, "Paxos Made Simple", section 2.2).
pub fn last_votes_lie_below()
    // claim: A vote that is the last one below a ballot in some records is below it, and is right
    //   if they are
    ensures below { (records : List Rec) (i b : ℕ) (vote : Vote)
        → last_vote_at records i ≡ Some vote
        → bound_at records i < b → vote.ballot < b }
    ensures right { (records : List Rec) (i : ℕ) (vote : Vote)
        → AllByRecursion IsRightRecord records
        → last_vote_at records i ≡ Some vote → IsRightVote vote }
{}

/// The votes that a promise for a range reports: at each of its positions the last vote, if there
/// is one, and none elsewhere; by rising position, in ballots below the promised one, and right if
/// the records are (Lamport, "Paxos Made Simple", sections 2.2 and 3).
pub fn range_votes_are_reported()
    // claim: The votes that a promise for a range reports are the last votes of its positions and
    //   no others, by rising position, in lower ballots, and right if the records are
    ensures covered { (records : List Rec) (range : Range) (i : ℕ) → is_covered range i ≡ true
        → placed_at (last_votes records range) i ≡ last_vote_at records i }
    ensures elsewhere { (records : List Rec) (range : Range) (i : ℕ) → is_covered range i ≡ false
        → placed_at (last_votes records range) i ≡ None }
    ensures reported { (records : List Rec) (range : Range) (b : ℕ)
        → AllByRecursion IsRightRecord records → is_above_bounds records range b ≡ true
        → AreReported range b (last_votes records range) }
{}
