//! What is applied, and where that leads a machine.

ghost use Rattle.std.specs.Prelude.{◌≡◌, ℕ, List, length};
ghost use Rattle.rp_base.specs.Records.{applied_of};
ghost use Rattle.rp_base.specs.declared.action.Action.{Action};
ghost use Rattle.rp_codec.specs.Message.{Message};
ghost use Rattle.rp_codec.specs.declared.packet.Body.TheVariants.{Report};
ghost use Rattle.rp_machine.specs.Replay.{replay_of};
ghost use Rattle.rp_model.specs.Facts.{IsOrder};
ghost use Rattle.rp_model.specs.Parts.{NodePart};
ghost use Rattle.rp_agreement.specs.Computed.{order_of};
ghost use Rattle.rp_agreement.specs.Order.{IsPrefix, AreAlike, AllSent};
ghost use Rattle.rp_agreement.specs.Sound.{IsReported, IsSound};
ghost use Rattle.rp_agreement.specs.Asked.{Says};

use rp_machine::Machine;

/// There is an order: it can be read off the packets.
pub fn the_order_exists()
    // claim: There is one order, which only grows
    ensures { (nodes : ℕ) (sent : List Message) → IsOrder nodes sent (order_of nodes sent) }
{}

/// There is one order at most.
pub fn the_order_is_one()
    // claim as the_order_exists
    ensures { (nodes : ℕ) (node : ℕ → NodePart) (sent : List Message) → IsSound nodes node sent
        → (order other : List Action)
        → IsOrder nodes sent order → IsOrder nodes sent other → order ≡ other }
{}

/// The order only grows, at its end.
pub fn the_order_grows()
    // claim as the_order_exists
    ensures { (nodes : ℕ) (sent later : List Message) (after : ℕ → NodePart)
        → IsSound nodes after later → AllSent sent later
        → (order longer : List Action)
        → IsOrder nodes sent order → IsOrder nodes later longer → IsPrefix order longer }
{}

/// What a node has applied is a prefix of the order, with none left out.
pub fn applied_lists_are_prefixes()
    // claim: What a node has applied is a prefix of the order, none left out; of two nodes' applied
    //   lists one is a prefix of the other
    ensures { (nodes : ℕ) (node : ℕ → NodePart) (sent : List Message) → IsSound nodes node sent
        → (order : List Action) → IsOrder nodes sent order
        → (x : ℕ) → IsPrefix (applied_of (node x).records) order }
{}

/// Of what two nodes have applied one is a prefix of the other, also if one is seen at a later
/// moment.
pub fn applied_lists_are_alike()
    // claim as applied_lists_are_prefixes
    ensures { (nodes : ℕ) (node after : ℕ → NodePart) (sent later : List Message)
        → IsSound nodes node sent → IsSound nodes after later → AllSent sent later
        → (x y : ℕ) → AreAlike (applied_of (node x).records) (applied_of (after y).records) }
{}

/// Nodes that have applied equally many actions are in one state, with the same answers given, also
/// if one is seen at a later moment.
pub fn states_are_alike<M: Machine>()
    // claim: Nodes that have applied equally many actions are in one state, with the same answers
    //   given
    ensures { (begin : M) (nodes : ℕ) (node after : ℕ → NodePart) (sent later : List Message)
        → IsSound nodes node sent → IsSound nodes after later → AllSent sent later
        → (x y : ℕ) → length (applied_of (node x).records) ≡ length (applied_of (after y).records)
        → replay_of M.next M.answers begin (applied_of (node x).records)
        ≡ replay_of M.next M.answers begin (applied_of (after y).records) }
{}

/// What a node reports is what the order holds at those positions.
pub fn reports_follow_the_order()
    // claim: A report is a part of the order
    ensures { (nodes : ℕ) (node : ℕ → NodePart) (sent : List Message) → IsSound nodes node sent
        → (order : List Action) → IsOrder nodes sent order
        → (x first applied : ℕ) (actions : List Action)
        → Says sent x (Report first applied actions) → IsReported order first applied actions }
{}
