//! A node: a replica that runs, or a device that rests.

ghost use Rattle.std.specs.Prelude.{◌≡◌, ◌⊎◌, ◌≤◌, ◌<◌, ℕ, [], false, min, length, slice_get, ◌↔◌, All, Ok, Some, None, IfOk, IfErr, IfSome, IfNone, OnErr, IsErrOf, IsOk, IsSome, IsTrue};
ghost use Rattle.rp_base.specs.Config.{IsRightConfig};
ghost use Rattle.rp_codec.specs.Decoding.{IsLongBody};
ghost use Rattle.rp_codec.specs.Message.{Message};
ghost use Rattle.rp_replica.specs.rp_rules.specs.Inputs.{IsLong, IsRightInput, given_by};
ghost use Rattle.rp_base.specs.declared.fault.Fault.TheVariants as faults;
ghost use Rattle.rp_model.specs.Effect.{NodeInput, stop_effect, restart_part};
ghost use Rattle.rp_model.specs.Parts.{fresh_node};
ghost use Rattle.rp_model.specs.Parts.{NodePart};
ghost use Rattle.rp_actors.specs.Failures.{SomeHasFailed};
ghost use Rattle.rp_actors.specs.Nodes.{Member, member_of, RunsAs, RestsAs, Represents, GoesBy, IsCutBy, IsLight, IsNotStarted, IsResting, RefusedBy, IsLeftTorn, NotTaken, DescribesNothing, DescribesOpened, DescribesSending, failures_in, node_step, stored_length};

use rp_base::{Config, Fault, NodeId};
use rp_machine::Machine;
use rp_model::Dropped;
use rp_outbox::Outbox;
use rp_replica::{Input, NotCut, Replica};
use rp_store::{CutDevice, Device, InfallibleDevice};
use std::alloc::Global;

/// What a node is between its steps.
#[derive(Drop)]
pub enum ClusterNode<M: Machine, D: CutDevice> {
    Running(Replica<M, D>),
    Stopped(D),
}

impl<M: Machine, D: CutDevice> ClusterNode<M, D> {
    /// A node over an empty device. `OutOfMemory`, or `Device` where the device failed.
    pub fn open(
        alloc: Global,
        me: NodeId,
        config: Config,
        program: &M::Program,
        device: D,
    ) -> Result<Self, Fault>
        requires config { IsRightConfig config }
        requires member { me ≤ config.nodes }
        requires empty { (D.disk device).contents ≡ [] }
        ensures ok { IfOk result (λ node. Represents D.disk
            (member_of me config (M.begin program.now)) node fresh_node) }
        ensures failures { IfOk result (λ node. failures_in D.disk node
            ≡ (D.disk device).failures) }
        ensures only { IfErr result (λ fault. (fault ≡ faults.OutOfMemory) ⊎ (fault
            ≡ faults.Device)) }
        ensures cause { IsErrOf result faults.Device → SomeHasFailed D.disk }
    {
        match Replica::open(alloc, me, config, program, device) {
            Ok(opening) => Ok(ClusterNode::Running(opening.replica)),
            Err((fault, _)) => Err(fault),
        }
    }

    /// Whether the node runs: one whose device failed does not.
    pub fn is_running(&self) -> bool
        ensures runs { IsTrue result → (member : Member M) (part : NodePart)
            → Represents D.disk member self.now part → IsSome part.running }
        ensures rests { result ≡ false → (member : Member M) (part : NodePart)
            → Represents D.disk member self.now part → part.running ≡ None }
    {
        match self {
            ClusterNode::Running(replica) => !replica.has_failed(),
            ClusterNode::Stopped(_) => false,
        }
    }

    /// The replica of a node that runs.
    pub fn replica(&self) -> Option<&Replica<M, D>>
        ensures runs { IfSome result (λ replica. (member : Member M) (part : NodePart)
            → Represents D.disk member self.now part → RunsAs member replica.now part) }
        ensures rests { IfNone result ((member : Member M) (part : NodePart)
            → Represents D.disk member self.now part → part.running ≡ None) }
    {
        match self {
            ClusterNode::Running(replica) => {
                if replica.has_failed() {
                    None
                } else {
                    Some(replica)
                }
            }
            ClusterNode::Stopped(_) => None,
        }
    }

    /// How many bytes the node's device holds.
    pub fn stored(&self) -> u64
        ensures { (member : Member M) (part : NodePart) → Represents D.disk member self.now part
            → result ≡ stored_length part }
    {
        match self {
            ClusterNode::Running(replica) => replica.stored(),
            ClusterNode::Stopped(device) => device.len(),
        }
    }

    /// The node stops. `NotRunning` where it is stopped already.
    pub fn stop(self) -> (Self, Result<(), Fault>)
        ensures ok { IfOk result.1 (λ done. (member : Member M) → GoesBy D.disk member
            self result.0 stop_effect DescribesNothing done) }
        ensures err { IfErr result.1 (λ fault. (member : Member M) → RefusedBy D.disk member
            self result.0 stop_effect fault) }
    {
        match self {
            ClusterNode::Running(replica) => {
                if replica.has_failed() {
                    return (ClusterNode::Running(replica), Err(Fault::NotRunning));
                }
                (ClusterNode::Stopped(replica.close()), Ok(()))
            }
            ClusterNode::Stopped(device) => (ClusterNode::Stopped(device), Err(Fault::NotRunning)),
        }
    }

    /// The node starts again, by its records alone; one that runs goes on. It returns how many
    /// records and how many torn bytes it found. `OutOfMemory`, or `Device` where the device
    /// failed: then it stays stopped, and some of its torn bytes may be gone.
    pub fn restart(
        self,
        alloc: Global,
        me: NodeId,
        config: Config,
        program: &M::Program,
    ) -> (Self, Result<Option<(u64, u64)>, Fault>)
        requires config { IsRightConfig config }
        requires member { me ≤ config.nodes }
        ensures ok { IfOk result.1 (λ opened. GoesBy D.disk
            (member_of me config (M.begin program.now))
            self result.0 (λ part. Ok (restart_part part)) DescribesOpened opened) }
        ensures err { IfErr result.1 (λ fault. IsLeftTorn D.disk
            (member_of me config (M.begin program.now)) self result.0) }
        ensures rests { IfErr result.1 (λ fault. IsResting D.disk
            (member_of me config (M.begin program.now)) self) }
        ensures why { IfErr result.1 (IsNotStarted (failures_in D.disk self)
            (failures_in D.disk result.0)) }
    {
        match self {
            ClusterNode::Running(replica) => {
                if replica.has_failed() {
                    return starts(alloc, me, config, program, replica.close());
                }
                (ClusterNode::Running(replica), Ok(None))
            }
            ClusterNode::Stopped(device) => starts(alloc, me, config, program, device),
        }
    }

    /// The node makes the step of an input, whose packets are put after the others. `NotRunning` if
    /// it is stopped, and otherwise as the replica says; if its device failed it is stopped within
    /// the step. A step that takes no memory takes effect.
    #[inline(always)]
    pub fn turn(
        &mut self,
        alloc: Global,
        messages: &mut Outbox,
        input: &Input,
    ) -> Result<Dropped, Fault>
        requires right { IsRightInput input.now }
        ensures ok { IfOk result (λ dropped. (member : Member M) (given : NodeInput)
            → given_by input.now ≡ Ok given → GoesBy D.disk member self.old self.new
            (node_step M.next M.answers member given)
            (DescribesSending messages.old.sent messages.new.sent) dropped) }
        ensures err { IfErr result (λ fault. (member : Member M) (given : NodeInput)
            → given_by input.now ≡ Ok given → NotTaken D.disk member self.old self.new
            (node_step M.next M.answers member given) fault) }
        ensures unsent { OnErr result (messages.new.sent ≡ messages.old.sent) }
        ensures certain { (member : Member M) (part : NodePart) (given : NodeInput)
            → Represents D.disk member self.old part → given_by input.now ≡ Ok given
            → (¬ IsLong input.now) → IsLight part (node_step M.next M.answers member given part)
            → IsOk result }
    {
        match self {
            ClusterNode::Running(replica) => {
                if replica.has_failed() {
                    return Err(Fault::NotRunning);
                }
                replica.turn_into(alloc, messages, input)
            }
            ClusterNode::Stopped(_) => Err(Fault::NotRunning),
        }
    }

    /// The same, for the packet of a place among the messages, from 0.
    #[inline(always)]
    pub fn hear(
        &mut self,
        alloc: Global,
        messages: &mut Outbox,
        place: usize,
    ) -> Result<Dropped, Fault>
        requires place { place < length messages.old.sent }
        ensures ok { IfOk result (λ dropped. (member : Member M) (m : Message)
            → slice_get messages.old.sent place ≡ Some m → GoesBy D.disk member self.old self.new
            (node_step M.next M.answers member (NodeInput.Receive m))
            (DescribesSending messages.old.sent messages.new.sent) dropped) }
        ensures err { IfErr result (λ fault. (member : Member M) (m : Message)
            → slice_get messages.old.sent place ≡ Some m → NotTaken D.disk member self.old self.new
            (node_step M.next M.answers member (NodeInput.Receive m)) fault) }
        ensures unsent { OnErr result (messages.new.sent ≡ messages.old.sent) }
        ensures certain { (member : Member M) (part : NodePart) (m : Message)
            → Represents D.disk member self.old part → slice_get messages.old.sent place ≡ Some m
            → (¬ IsLongBody m.body)
            → IsLight part (node_step M.next M.answers member (NodeInput.Receive m) part)
            → IsOk result }
    {
        match self {
            ClusterNode::Running(replica) => {
                if replica.has_failed() {
                    return Err(Fault::NotRunning);
                }
                replica.deliver(alloc, messages, place)
            }
            ClusterNode::Stopped(_) => Err(Fault::NotRunning),
        }
    }

    /// The node stops within the step of an input, where n bytes of the step's record are kept.
    /// `NotRunning` where it is stopped already, and else as the replica refuses the step; where
    /// its device failed some bytes of the record are kept.
    pub fn cut(self, alloc: Global, input: &Input, kept: u64) -> (Self, Result<(), Fault>)
        requires right { IsRightInput input.now }
        ensures ok { IfOk result.1 (λ done. (member : Member M) (given : NodeInput)
            → given_by input.now ≡ Ok given → IsCutBy D.disk member self result.0 kept
            (node_step M.next M.answers member given)) }
        ensures err { IfErr result.1 (λ fault. (member : Member M) (given : NodeInput)
            → given_by input.now ≡ Ok given → NotTaken D.disk member self result.0
            (node_step M.next M.answers member given) fault) }
    {
        match self {
            ClusterNode::Running(replica) => {
                if replica.has_failed() {
                    return (ClusterNode::Running(replica), Err(Fault::NotRunning));
                }
                match replica.torn(alloc, input, kept) {
                    Ok(device) => (ClusterNode::Stopped(device), Ok(())),
                    Err(NotCut::Failed(device)) => (
                        ClusterNode::Stopped(device),
                        Err(Fault::Device),
                    ),
                    Err(NotCut::Refused(fault, replica)) => (
                        ClusterNode::Running(replica),
                        Err(fault),
                    ),
                }
            }
            ClusterNode::Stopped(device) => (ClusterNode::Stopped(device), Err(Fault::NotRunning)),
        }
    }
}

impl<M: Machine, D: CutDevice + InfallibleDevice> ClusterNode<M, D> {
    /// The node's device has not failed, where such a device never does.
    pub fn never_failed(&self)
        ensures { failures_in D.disk self.now ≡ 0 }
    {
        match self {
            ClusterNode::Running(replica) => replica.never_failed(),
            ClusterNode::Stopped(_) => {}
        }
    }
}

/// Whether each device is empty.
pub fn are_empty<D: Device>(devices: &[D]) -> bool
    ensures { IsTrue result ↔ All (λ device. (D.disk device).contents ≡ []) devices.now }
{
    devices.iter().all(|device| device.len() == 0)
}

/// A node starts over a device.
fn starts<M: Machine, D: CutDevice>(
    alloc: Global,
    me: NodeId,
    config: Config,
    program: &M::Program,
    device: D,
) -> (ClusterNode<M, D>, Result<Option<(u64, u64)>, Fault>)
    requires config { IsRightConfig config }
    requires member { me ≤ config.nodes }
    ensures ok { IfOk result.1 (λ opened. (part : NodePart)
        → RestsAs config.max_positions (D.disk device) part
        → Represents D.disk (member_of me config (M.begin program.now)) result.0
        (restart_part part).part × DescribesOpened opened (restart_part part)
        × (failures_in D.disk result.0 ≡ (D.disk device).failures)) }
    ensures err { IfErr result.1 (λ fault. (part : NodePart)
        → RestsAs config.max_positions (D.disk device) part
        → (kept : ℕ) × Represents D.disk (member_of me config (M.begin program.now)) result.0
        (record part { torn = min kept part.torn })) }
    ensures why { IfErr result.1 (IsNotStarted (D.disk device).failures
        (failures_in D.disk result.0)) }
{
    match Replica::open(alloc, me, config, program, device) {
        Ok(opening) => (
            ClusterNode::Running(opening.replica),
            Ok(Some((opening.records, opening.cut_bytes))),
        ),
        Err((fault, device)) => (ClusterNode::Stopped(device), Err(fault)),
    }
}
