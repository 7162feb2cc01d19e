//! What one actor sends: right packets of its own.

ghost use Rattle.std.specs.Prelude.{◌≡◌, ℕ, Ok, List};
ghost use Rattle.rp_base.specs.Config.{IsRightConfig};
ghost use Rattle.rp_base.specs.Sets.{Has};
ghost use Rattle.rp_base.specs.declared.config.Config.{Config};
ghost use Rattle.rp_codec.specs.Message.{Message, IsPacket};
ghost use Rattle.rp_codec.specs.declared.packet.Party.TheVariants.{Task};
ghost use Rattle.rp_model.specs.Effect.{Done, NodeInput, node_effect, cut_effect};
ghost use Rattle.rp_model.specs.Parts.{NodePart};
ghost use Rattle.rp_model.specs.Parts.{TaskPart};
ghost use Rattle.rp_model.specs.Tasks.{TaskInput, task_effect};
ghost use Rattle.rp_agreement.specs.Answered.{setting_for};
ghost use Rattle.rp_agreement.specs.Inputs.{IsInput, IsTaskInput, WaitsForOwn};
ghost use Rattle.rp_agreement.specs.Ranges.{IsRangedPart, IsRangedStep};
ghost use Rattle.rp_agreement.specs.Sound.{IsMember, IsSound};

use rp_machine::{Machine, replies_fit};

/// The result of an input at a node keeps the node's numbers within their ranges, and each packet
/// that it sends is a right one of its own; so does a stop within that step.
pub fn nodes_send_right_packets<M: Machine>()
    // claim: What a node sends in an event, whole or cut, is right packets from it, and its numbers
    //   stay within their ranges
    ensures input { (config : Config) (program : M.Program) (x : ℕ) (input : NodeInput)
        (done : Done NodePart) (node : ℕ → NodePart) (sent : List Message)
        → let setting = setting_for M.next M.answers M.begin config program in
        IsRightConfig config → IsMember config.nodes x
        → IsSound config.nodes node sent → IsRangedPart (node x)
        → ((m : Message) → Has m sent → IsPacket m) → IsInput sent input
        → node_effect setting x (node x) input ≡ Ok done
        → IsRangedStep x done }
    ensures cut { (config : Config) (program : M.Program) (x kept : ℕ) (input : NodeInput)
        (done : Done NodePart) (node : ℕ → NodePart) (sent : List Message)
        → let setting = setting_for M.next M.answers M.begin config program in
        IsRightConfig config → IsMember config.nodes x
        → IsSound config.nodes node sent → IsRangedPart (node x)
        → ((m : Message) → Has m sent → IsPacket m) → IsInput sent input
        → cut_effect setting x (node x) input kept ≡ Ok done
        → IsRangedStep x done }
{
    replies_fit::<M>();
}

/// Each packet that an input results in at a task is a right one of its own.
pub fn tasks_send_right_packets()
    // claim: What a task sends in an event is right packets from it
    ensures { (config : Config) (t : ℕ) (input : TaskInput) (part : TaskPart)
        (done : Done TaskPart) (sent : List Message)
        → WaitsForOwn t part → IsTaskInput sent t input
        → task_effect config t part input ≡ Ok done
        → (m : Message) → Has m done.sends → IsPacket m × (m.from ≡ Task t) }
{}
