//! What is offered in one ballot, and above a decided one.

ghost use Rattle.std.specs.Prelude.{◌≡◌, ◌<◌, ℕ, List};
ghost use Rattle.rp_base.specs.declared.action.Action.{Action};
ghost use Rattle.rp_codec.specs.Message.{Message};
ghost use Rattle.rp_model.specs.Facts.{IsOffered};
ghost use Rattle.rp_model.specs.Parts.{NodePart};
ghost use Rattle.rp_agreement.specs.Decided.{IsCast};
ghost use Rattle.rp_agreement.specs.Sound.{IsSound};

/// In one ballot one action is offered at a position (Lamport, "Paxos Made Simple", section 2.2).
pub fn offers_are_one()
    // claim: In one ballot one action is offered at a position, and above a decided ballot only its
    //   action
    ensures { (nodes : ℕ) (node : ℕ → NodePart) (sent : List Message) → IsSound nodes node sent
        → (i b : ℕ) (v w : Action) → IsOffered sent i b v → IsOffered sent i b w → v ≡ w }
{}

/// Above a ballot in which a majority voted for an action it alone is offered at the position
/// (Lamport, section 2.2, P2b).
pub fn offers_follow_decisions()
    // claim as offers_are_one
    ensures { (nodes : ℕ) (node : ℕ → NodePart) (sent : List Message) → IsSound nodes node sent
        → (i b c : ℕ) (v w : Action) → IsCast nodes node i b v → b < c
        → IsOffered sent i c w → w ≡ v }
{}
