//! What a node by handle has pending can count, or is over: so no lead for it uses up a position of
//! the log in vain.

ghost use Rattle.std.specs.Prelude.{◌≡◌, ℕ, Option, Result, List};
ghost use Rattle.rp_base.specs.declared.config.Config.{Config};
ghost use Rattle.rp_requests.specs.Nodes.{NodeState, RequestAnswers};
ghost use Rattle.rp_requests.specs.Opening.{IsOpenedNode};
ghost use Rattle.rp_requests.specs.Requests.{Asked};
ghost use Rattle.rp_requests.specs.declared.buffer.Lengths.{Lengths};
ghost use Rattle.rp_requests.specs.declared.refusal.Refusal.{Refusal};
ghost use Rattle.rp_installations.specs.Countable.{PendingCounts};

use rp_machine::Machine;

/// Whatever a node by handle is asked, by whomever and with whatever bytes, what it has pending
/// counts if it is applied next at this node, or is over: it or one above it counted. It begins
/// with nothing pending.
pub fn what_is_pending_can_count<M: Machine>()
    // claim: What a node by handle has pending would count if it were applied next, or is over:
    //   it counted, or one above it did
    ensures opened { (me : ℕ) (config : Config) (begin : M) (bytes : List ℕ) (node : NodeState M)
        (records kept : ℕ)
        → IsOpenedNode me config begin bytes node records kept
        → PendingCounts M.next M.answers node }
    ensures stays { (asked : Option Asked) (old new : NodeState M) (before after : List ℕ)
        (result : Result Lengths Refusal)
        → RequestAnswers M.next M.answers M.image asked old new before after result
        → PendingCounts M.next M.answers old → PendingCounts M.next M.answers new }
{}
