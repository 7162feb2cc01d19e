//! What follows from the definition of the least free position.

ghost use Rattle.std.specs.Prelude.{◌≡◌, ◌<◌, ◌≤◌, ℕ, List, true, false};
ghost use Rattle.rp_base.specs.Proposals.{Proposal};
ghost use Rattle.rp_base.specs.declared.record.Rec.{Rec};
ghost use Rattle.rp_model.specs.Leader.{is_free_position, least_free};

/// The least free position is free, and none below it is: so a leader that is given no position
/// fills each gap in what is learned.
pub fn the_least_free_position_is_least()
    // claim: The least free position is free, and no position below it is
    ensures free { (nodes : ℕ) (records : List Rec) (proposals : List Proposal)
        → is_free_position nodes records proposals (least_free nodes records proposals) ≡ true }
    ensures first { (nodes : ℕ) (records : List Rec) (proposals : List Proposal)
        → 1 ≤ least_free nodes records proposals }
    ensures least { (nodes : ℕ) (records : List Rec) (proposals : List Proposal) (i : ℕ)
        → 1 ≤ i → i < least_free nodes records proposals
        → is_free_position nodes records proposals i ≡ false }
{}
