//! How the calls of a replica are related to the definitions of worlds.

ghost use Rattle.std.specs.Prelude.{◌≡◌, ℕ, Some, None, Ok, Err, length};
ghost use Rattle.rp_base.specs.declared.config.Config.{Config};
ghost use Rattle.rp_base.specs.declared.fault.Fault.{Fault};
ghost use Rattle.rp_codec.specs.Message.{Message, IsPacket};
ghost use Rattle.rp_codec.specs.Reading.{all_of};
ghost use Rattle.rp_codec.specs.Text.{text_of};
ghost use Rattle.rp_store.specs.Disk.{Disk};
ghost use Rattle.rp_model.specs.Effect.{NodeInput, node_effect, turn_done, goes_on_as, restart_part};
ghost use Rattle.rp_model.specs.Parts.{NodePart};
ghost use Rattle.rp_model.specs.Parts.{Turn};
ghost use Rattle.rp_replica.specs.State.{ReplicaState, setting_of, part_of};
ghost use Rattle.rp_rules.specs.Inputs.{packet_given};
ghost use Rattle.rp_replica.specs.Inputs.{replica_effect};
ghost use Rattle.rp_replica.specs.Kept.{HoldsPart, HoldsOnly};
ghost use Rattle.rp_replica.specs.Opening.{Opens};
ghost use Rattle.rp_replica.specs.Turning.{Turns};
ghost use Rattle.rp_replica.specs.declared.sent.Sent.{Sent};

use rp_machine::Machine;

/// A call that takes effect is the effect of its input on the node's part of a world; one that is
/// refused for its input is refused there too.
pub fn turns_are_effects<M: Machine>()
    // claim: A replica's call has the node's effect in a world
    ensures effect { (old : ReplicaState M) (input : NodeInput) (turn : Turn)
        → replica_effect M.next M.answers old input ≡ Ok turn
        → node_effect (setting_of M.next M.answers old) old.me (part_of old) input
        ≡ Ok (turn_done (part_of old) turn) }
    ensures part { (old new : ReplicaState M) (turn : Turn) (sent : Sent)
        → Turns turn old new sent → part_of new ≡ (turn_done (part_of old) turn).part }
    ensures refusal { (old : ReplicaState M) (input : NodeInput) (fault : Fault)
        → replica_effect M.next M.answers old input ≡ Err fault
        → node_effect (setting_of M.next M.answers old) old.me (part_of old) input ≡ Err fault }
{}

/// The text of a packet is received as that packet.
pub fn texts_are_packets()
    ensures { (m : Message) → IsPacket m
        → packet_given (all_of (text_of m)) ≡ Ok (NodeInput.Receive m) }
{}

/// What is opened over a device is what a restart makes of the stopped part that the device keeps;
/// and if it holds no other records, it reports how many the part has.
pub fn opening_is_a_restart<M: Machine>()
    // claim: What is opened is what a restart makes of what the device keeps, in whichever versions
    //   it holds it; the count of records is the part's where the device holds no others
    ensures part { (me : ℕ) (config : Config) (begin : M) (disk : Disk) (replica : ReplicaState M)
        (count cut_bytes : ℕ) (part : NodePart) → HoldsPart config.max_positions disk part
        → part.running ≡ None → Opens me config begin disk replica count cut_bytes
        → restart_part part
        ≡ record (goes_on_as (part_of replica))
        { opened = Some (length replica.records, cut_bytes) } }
    ensures count { (me : ℕ) (config : Config) (begin : M) (disk : Disk) (replica : ReplicaState M)
        (count cut_bytes : ℕ) (part : NodePart) → HoldsOnly disk part
        → Opens me config begin disk replica count cut_bytes → count ≡ length part.records }
{}
