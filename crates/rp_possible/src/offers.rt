//! What a node offers that leads, in every state.

ghost use Rattle.std.specs.Prelude.{◌≡◌, ℕ, Ok, Some, List};
ghost use Rattle.rp_base.specs.Proposals.{new_proposal, proposal_at};
ghost use Rattle.rp_base.specs.Sets.{Has};
ghost use Rattle.rp_base.specs.declared.action.Action.{Action};
ghost use Rattle.rp_base.specs.declared.action.Action.TheVariants.{Noop};
ghost use Rattle.rp_base.specs.declared.record.Rec.{Rec};
ghost use Rattle.rp_base.specs.declared.record.Rec.TheVariants.{Started};
ghost use Rattle.rp_model.specs.Effect.{Setting, Lead, running_effect};
ghost use Rattle.rp_model.specs.Parts.{Running, Turn};
ghost use Rattle.rp_possible.specs.Offers.{IsFirstFree, IsFree};
ghost use Rattle.rp_possible.specs.Rounds.{kept_after};

use rp_machine::Machine;

/// A node that begins a proposal takes its first pending item that is free as the action of its own:
/// whichever item it is, at whichever position and in whichever ballot. An item is free if it is
/// above all of its task or source that counted, and no proposal at another position has it.
pub fn the_first_free_item_is_offered<M: Machine>()
    // claim (first, none): The own action of a proposal that begins is the node's first pending item
    //   that did not count and that no proposal at another position has, whatever its task, its
    //   number or its source, the position and the ballot; and nothing if there is none
    ensures first { (setting : Setting M) (me i b : ℕ) (records : List Rec) (running : Running)
        (turn : Turn) (item : Action)
        → running_effect setting me records running (Lead (Some i)) ≡ Ok turn
        → turn.written ≡ Some (Started b)
        → IsFirstFree (kept_after setting records) running.proposals i running.pending item
        → proposal_at turn.running.proposals i ≡ Some (new_proposal i b (Some item)) }
    ensures none { (setting : Setting M) (me i b : ℕ) (records : List Rec) (running : Running)
        (turn : Turn)
        → running_effect setting me records running (Lead (Some i)) ≡ Ok turn
        → turn.written ≡ Some (Started b)
        → ((item : Action) → Has item running.pending
        → ¬ IsFree (kept_after setting records) running.proposals i item)
        → proposal_at turn.running.proposals i ≡ Some (new_proposal i b (Some Noop)) }
{}
