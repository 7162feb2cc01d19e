//! What the audit knows of a node, and the boxes.

ghost use Rattle.std.specs.Prelude.{◌≡◌, ◌↔◌, ◌+◌, ◌-◌, ◌<◌, ◌≤◌, ◌++◌, ℕ, max, List, length, take, drop};
ghost use Rattle.std.specs.List.{AllZip};
ghost use Rattle.rp_threads.specs.rp_base.specs.declared.action.Action.{Action};
ghost use Rattle.rp_threads.specs.rp_codec.specs.Message.{IsParty};
ghost use Rattle.rp_threads.specs.rp_codec.specs.declared.packet.Party.{Party};
ghost use Rattle.rp_threads.specs.rp_board.specs.Parts.{actor_of, box_of};
ghost use Rattle.rp_threads.specs.rp_boxes.specs.Audits.{with_reported};
ghost use Rattle.rp_live.specs.LiveOutcome.{KnowsAll};
ghost use Rattle.rp_thread_laws.specs.Audits.{IsKnown};

/// The audit that knows the first m actions of an order, and gets n of them from position `first`
/// on, knows all that it knew and all that was reported.
pub fn reports_add_up()
    // claim: An audit that knows the first m actions of a node's log, and gets a report that leaves
    //   no gap, knows the first m or, if those are more, all up to the last that was reported
    ensures { (order : List Action) (m n first : ℕ)
        → m ≤ length order → 1 ≤ first → first ≤ m + 1 → first - 1 + n ≤ length order
        → with_reported (take m order) first (take n (drop (first - 1) order))
        ≡ take (max m (first - 1 + n)) order }
{}

/// An audit knows all if of each node it knows as many actions as the node has applied: it is then
/// that a live run prints that the logs agree.
pub fn all_is_known_of_each_node()
    // claim: An audit knows all exactly if it knows of each node as many actions as it has applied
    ensures { (known others : List (List Action)) (applied : List ℕ)
        → length known ≡ length applied
        → KnowsAll (known ++ others) applied ↔ AllZip IsKnown known applied }
{}

/// A packet from one party to another lies in a box of their own.
pub fn boxes_are_apart()
    // claim: Different pairs of a sender and a receiver have different boxes
    ensures { (from to other_from other_to : Party)
        → IsParty from → IsParty to → IsParty other_from → IsParty other_to
        → box_of (actor_of from) (actor_of to) ≡ box_of (actor_of other_from) (actor_of other_to)
        → (from ≡ other_from) × (to ≡ other_to) }
{}
