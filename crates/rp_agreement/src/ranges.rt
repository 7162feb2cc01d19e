//! Numbers stay within their ranges in every history, and each packet is a right one.

ghost use Rattle.std.specs.Prelude.{◌≡◌, ℕ, ◌-◌, ◌^◌, ◌≤◌, ◌<◌, true, Some, Result, Ok, List, length};
ghost use Rattle.rp_base.specs.Config.{IsRightConfig};
ghost use Rattle.rp_base.specs.Records.{applied_of};
ghost use Rattle.rp_base.specs.Sets.{Has};
ghost use Rattle.rp_base.specs.declared.config.Config.{Config};
ghost use Rattle.rp_base.specs.declared.fault.Fault.{Fault};
ghost use Rattle.rp_base.specs.declared.record.Rec.{Rec};
ghost use Rattle.rp_codec.specs.Message.{Message, IsPacket};
ghost use Rattle.rp_model.specs.Answers.{Steps};
ghost use Rattle.rp_model.specs.declared.effect.Effect.{Effect};
ghost use Rattle.rp_model.specs.Effect.{Setting};
ghost use Rattle.rp_model.specs.Events.{Event, IsRightEvent};
ghost use Rattle.rp_model.specs.Parts.{is_in_log};
ghost use Rattle.rp_model.specs.World.{World, Transition, opening_world, part_at, event_effect};
ghost use Rattle.rp_model.specs.Parts.{NodePart};
ghost use Rattle.rp_agreement.specs.Answered.{setting_for};
ghost use Rattle.rp_agreement.specs.History.{IsHistory};
ghost use Rattle.rp_agreement.specs.Ranges.{IsRangedWorld, AreVotesNear};

use crate::opening::the_opening_is_sound;
use rp_machine::{Machine, answers_are_few, replies_fit};

/// In every history each record of a node is at a position of the log, or at none; so no node has
/// applied more actions than the log has positions.
pub fn records_stay_in_the_log<M: Machine>()
    // claim: In every history a node's records are at positions of the log, and it has applied no
    //   more actions than the log has
    ensures records { (setting : Setting M) (events : List Event) (world : World)
        → IsHistory setting events world
        → (x : ℕ) (part : NodePart) → part_at world.nodes x ≡ Some part
        → (rec : Rec) → Has rec part.records
        → is_in_log setting.config.max_positions rec ≡ true }
    ensures applied { (setting : Setting M) (events : List Event) (world : World)
        → IsHistory setting events world
        → (x : ℕ) (part : NodePart) → part_at world.nodes x ≡ Some part
        → length (applied_of part.records) ≤ setting.config.max_positions }
{}

/// In every history a vote is sent only for a position less than 64 above the first unlearned one
/// of the node that it is sent to; so a node leaves out no vote.
pub fn votes_are_in_the_window<M: Machine>()
    // claim: In every history a vote is sent only for a position less than 64 above the first
    //   unlearned one of the node that it is sent to, so that no node leaves one out
    ensures { (setting : Setting M) (events : List Event) (world : World)
        → IsHistory setting events world → AreVotesNear world }
{}

/// After any history an event sends fewer than 2^32 - 1 packets, so that a `u32` numbers them: a
/// task sends one at most, a node at most one to each node, one question, and as many answers as it
/// has applied actions.
pub fn few_packets_are_sent<M: Machine>()
    // claim: After any history an event sends fewer than 2^32 - 1 packets
    ensures { (config : Config) (program : M.Program) (events : List Event) (world : World)
        (event : Event) (transition : Transition)
        → let setting = setting_for M.next M.answers M.begin config program in
        IsHistory setting events world → IsRightEvent event
        → event_effect setting world event ≡ Ok transition
        → length transition.sends < 2 ^ 32 - 1 }
{
    the_opening_is_sound();
    answers_are_few::<M>();
}

/// Every packet that is sent in a history is a right one: its numbers are within their ranges, and
/// its sender may say it to its receiver.
pub fn packets_are_right<M: Machine>()
    // claim: Every packet that is sent in a history is a right one: its numbers are within their
    //   ranges, and its sender may send it to its receiver
    ensures { (config : Config) (program : M.Program) (events : List Event) (world : World)
        → let setting = setting_for M.next M.answers M.begin config program in
        IsHistory setting events world
        → (m : Message) → Has m world.sent → IsPacket m }
{
    the_opening_is_sound();
    replies_fit::<M>();
}

/// What an event of a world leads to keeps every number within its range, and so does the world
/// that a step leaves whatever it answers. The opening world does.
pub fn events_keep_ranges<M: Machine>()
    // claim: Every event keeps each number within its range, whatever a step returns; the opening
    //   world does
    ensures opening { (nodes : ℕ) → IsRangedWorld nodes (opening_world nodes) }
    ensures effect { (config : Config) (program : M.Program) (world : World) (event : Event)
        (transition : Transition)
        → let setting = setting_for M.next M.answers M.begin config program in
        IsRightConfig config → IsRangedWorld config.nodes world → IsRightEvent event
        → event_effect setting world event ≡ Ok transition
        → IsRangedWorld config.nodes transition.world }
    ensures answer { (config : Config) (program : M.Program) (world after : World) (event : Event)
        (answer : Result Effect Fault)
        → let setting = setting_for M.next M.answers M.begin config program in
        IsRightConfig config → IsRangedWorld config.nodes world → IsRightEvent event
        → Steps setting world event after answer
        → IsRangedWorld config.nodes after }
{
    the_opening_is_sound();
    replies_fit::<M>();
}
