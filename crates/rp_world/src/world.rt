//! A world as it lies in memory: the nodes, the tasks, and the messages.

ghost use Rattle.std.specs.Prelude.{◌≡◌, ℕ, slice_get, ◌<◌, ◌≤◌, ◌⊎◌, ◌-◌, ◌^◌, min, length, map, All, [], IfOk, IfErr, IfSome, IsErrOf, insert, option_copied, option_map, vec_len, vec_capacity};
ghost use Rattle.rp_base.specs.Config.{IsRightConfig};
ghost use Rattle.rp_base.specs.declared.fault.Fault.TheVariants as faults;
ghost use Rattle.rp_codec.specs.Text.{text_of};
ghost use Rattle.rp_model.specs.Parts.{TaskPart};
ghost use Rattle.rp_model.specs.World.{opening_world, part_at};
ghost use Rattle.rp_actors.specs.Failures.{SomeHasFailed};
ghost use Rattle.rp_actors.specs.Nodes.{failures_in};
ghost use Rattle.rp_actors.specs.Shape.{AreFresh, AreFreshTasks};
ghost use Rattle.rp_actors.specs.Steps.{IsStored, IsQueryAnswer, IsQueryAnswerUnlessMemory, IsReplicaOf, IsServerOf};
ghost use Rattle.rp_base.specs.Records.{applied_of};
ghost use Rattle.rp_model.specs.rp_machine.specs.Replay.{replay_state};

use crate::steps::text_of_number;
use rp_actors::{ClusterNode, Task};
use rp_base::{Action, Answer, Config, Fault, NodeId, TaskId};
use rp_machine::Machine;
use rp_outbox::Outbox;
use rp_replica::Replica;
use rp_server::Roles;
use rp_store::{CutDevice, InfallibleDevice};
use std::alloc::{AllocError, Global};
use std::marker::Model;

/// The nodes, the eight tasks, and every message that was sent.
pub(crate) struct World<M: Machine, D: CutDevice> {
    pub(crate) config: Config,
    pub(crate) program: M::Program,
    pub(crate) nodes: Vec<ClusterNode<M, D>>,
    pub(crate) tasks: Vec<Task>,
    pub(crate) messages: Outbox,
}

// Not derived, so that to drop it is one step of a proof and not one for each of its parts.
impl<M: Machine, D: CutDevice> Drop for World<M, D> {
    fn drop(self) {
        let World {
            config: _,
            program: _,
            nodes: _,
            tasks: _,
            messages: _,
        } = self;
    }
}

impl<M: Machine, D: CutDevice> Model for World<M, D> {
    ghost use Rattle.rp_actors.specs.Steps.{ClusterState};
    ghost use Rattle.rp_actors.specs.Shape.{world_of, IsWorld};
    ghost use Rattle.rp_actors.specs.Nodes.{failures_in};
    ghost use Rattle.std.specs.Prelude.{map};

    ghost Value = { ClusterState M.Program };

    ghost view = { λ w. record {
      setup = record { config = w.config; program = w.program };
      world = world_of D.disk w.config.max_positions w.nodes.items w.tasks.items w.messages;
      failures = map (failures_in D.disk) w.nodes.items;
    } };

    ghost invariant = { λ w. IsWorld D.disk w.config
        (M.begin w.program) w.nodes.items w.tasks.items };
}

/// A node over each of these devices, which are empty.
fn opened<M: Machine, D: CutDevice>(
    alloc: Global,
    config: Config,
    program: &M::Program,
    devices: Vec<D>,
) -> Result<Vec<ClusterNode<M, D>>, Fault>
    requires config { IsRightConfig config }
    requires count { length devices.items ≡ config.nodes }
    requires empty { All (λ device. (D.disk device).contents ≡ []) devices.items }
    ensures nodes { IfOk result
        (λ nodes. AreFresh D.disk config (M.begin program.now) nodes.items) }
    ensures failures { IfOk result (λ nodes. map (failures_in D.disk) nodes.items
        ≡ map (λ device. (D.disk device).failures) devices.items) }
    ensures only { IfErr result (λ fault. (fault ≡ faults.OutOfMemory) ⊎ (fault
        ≡ faults.Device)) }
    ensures cause { IsErrOf result faults.Device → SomeHasFailed D.disk }
{
    let mut nodes = Vec::new(alloc);
    for device in devices {
        let node = NodeId::new(nodes.len() as u8 + 1).unwrap();
        nodes.push(ClusterNode::open(alloc, node, config, program, device)?)?;
    }
    Ok(nodes)
}

/// The eight tasks, which called nothing.
fn fresh_tasks(alloc: Global) -> Result<Vec<Task>, AllocError>
    ensures { IfOk result (λ tasks. AreFreshTasks tasks.items) }
{
    let mut tasks = Vec::new(alloc);
    for number in 1..=8u8 {
        let task = TaskId::new(number).unwrap();
        tasks.push(Task::new(alloc, task))?;
    }
    Ok(tasks)
}

/// Puts a node back to its place, which it was taken from.
pub(crate) fn put_back<M: Machine, D: CutDevice>(
    nodes: &mut Vec<ClusterNode<M, D>>,
    place: usize,
    node: ClusterNode<M, D>,
)
    requires place { place ≤ vec_len nodes.old }
    requires room { vec_len nodes.old < vec_capacity nodes.old }
    ensures { nodes.new.items ≡ insert nodes.old.items place node }
{
    nodes.insert(place, node).unwrap();
}

impl<M: Machine, D: CutDevice> World<M, D> {
    /// All nodes run, and nothing was called or sent.
    pub(crate) fn new(
        alloc: Global,
        config: Config,
        program: M::Program,
        devices: Vec<D>,
    ) -> Result<Self, Fault>
        requires config { IsRightConfig config }
        requires count { length devices.items ≡ config.nodes }
        requires empty { All (λ device. (D.disk device).contents ≡ []) devices.items }
        ensures opened { IfOk result (λ w. w ≡ record {
          setup = record { config = config; program = program };
          world = opening_world config.nodes;
          failures = map (λ device. (D.disk device).failures) devices.items;
        }) }
        ensures only { IfErr result (λ fault. (fault ≡ faults.OutOfMemory) ⊎ (fault
            ≡ faults.Device)) }
        ensures cause { IsErrOf result faults.Device → SomeHasFailed D.disk }
    {
        let nodes = opened(alloc, config, &program, devices)?;
        let tasks = fresh_tasks(alloc)?;
        Ok(World {
            config,
            program,
            nodes,
            tasks,
            messages: Outbox::new(alloc),
        })
    }

    /// How many messages were sent.
    #[inline(always)]
    pub(crate) fn messages(&self) -> u64
        ensures value { result ≡ length self.now.world.sent }
        ensures few { result < 2 ^ 63 }
    {
        self.messages.count() as u64
    }

    /// The text of the message of this number, from 1.
    #[inline(always)]
    pub(crate) fn text(&self, number: u64) -> Option<&[u8]>
        ensures { option_copied result ≡ option_map text_of (part_at self.now.world.sent number) }
    {
        text_of_number(&self.messages, number)
    }

    /// The replies that a task got, in order.
    pub(crate) fn replies(&self, task: TaskId) -> &[Answer]
        ensures { (part : TaskPart) × (part_at self.now.world.tasks task ≡ Some part)
            × (result.now ≡ part.replies) }
    {
        self.tasks[usize::from(task.get()) - 1].replies()
    }

    /// The call that a task waits for.
    pub(crate) fn outstanding(&self, task: TaskId) -> Option<Action>
        ensures { (part : TaskPart) × (part_at self.now.world.tasks task ≡ Some part)
            × (result ≡ part.outstanding) }
    {
        self.tasks[usize::from(task.get()) - 1].outstanding()
    }

    /// How many actions a node has applied. `NotRunning` where it is stopped, `BadConfig` above the
    /// last node.
    pub(crate) fn applied(&self, node: NodeId) -> Result<u16, Fault>
        ensures { IsQueryAnswer result (λ count records. count
            ≡ min (length (applied_of records)) (2 ^ 16 - 1)) (part_at self.now.world.nodes node) }
    {
        let replica = self.replica(node)?;
        Ok(u16::try_from(replica.applied()).unwrap_or(u16::MAX))
    }

    /// The lines that show a node's machine. `NotRunning` if the node is stopped, `BadConfig` above
    /// the last node.
    pub(crate) fn image(&self, alloc: Global, node: NodeId) -> Result<Vec<u8>, Fault>
        ensures { IsQueryAnswerUnlessMemory result (λ text records.
            text.items ≡ M.image (replay_state M.next M.answers (M.begin self.now.setup.program)
            (applied_of records))) (part_at self.now.world.nodes node) }
    {
        let replica = self.replica(node)?;
        replica.image(alloc)
    }

    /// The replica of a node that runs.
    fn replica(&self, node: NodeId) -> Result<&Replica<M, D>, Fault>
        ensures { IsReplicaOf self.now.setup.config (M.begin self.now.setup.program) result
            (part_at self.now.world.nodes node) }
    {
        let Some(node) = self.nodes.get(usize::from(node.get()) - 1) else {
            return Err(Fault::BadConfig);
        };
        node.replica().ok_or(Fault::NotRunning)
    }

    /// The server of a node that runs. `NotRunning` where it is stopped, `BadConfig` above the last
    /// node.
    pub(crate) fn server(&self, node: NodeId) -> Result<&Roles<M>, Fault>
        ensures { IsServerOf self.now.setup.config result (part_at self.now.world.nodes node) }
    {
        let Some(node) = self.nodes.get(usize::from(node.get()) - 1) else {
            return Err(Fault::BadConfig);
        };
        match node.replica() {
            Some(replica) => Ok(replica.server()),
            None => Err(Fault::NotRunning),
        }
    }

    /// How many bytes a node's device holds. `BadConfig` above the last node.
    pub(crate) fn stored(&self, node: NodeId) -> Result<u64, Fault>
        ensures { IsStored result (part_at self.now.world.nodes node) }
    {
        match self.nodes.get(usize::from(node.get()) - 1) {
            Some(node) => Ok(node.stored()),
            None => Err(Fault::BadConfig),
        }
    }
}

/// None of these nodes' devices has failed, where such devices never do.
fn none_failed<M: Machine, D: CutDevice + InfallibleDevice>(nodes: &[ClusterNode<M, D>])
    ensures { (k : ℕ) → IfSome (slice_get nodes.now k) (λ node. failures_in D.disk node ≡ 0) }
{
    for node in nodes {
        node.never_failed();
    }
}

impl<M: Machine, D: CutDevice + InfallibleDevice> World<M, D> {
    /// No device has failed, where such devices never do.
    pub(crate) fn never_failed(&self)
        ensures { All (λ count. count ≡ 0) self.now.failures }
    {
        none_failed(&self.nodes);
    }
}
