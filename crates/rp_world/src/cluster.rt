//! The cluster: all nodes and tasks, and every message that was sent.

ghost use Rattle.std.specs.Prelude.{◌≡◌, ◌<◌, ◌-◌, ◌^◌, ℕ, min, ◌↔◌, ◌⊎◌, length, map, All, List, [], Option, None, Some, IfOk, IfErr, IfSome, IsErrOf, IsOk};
ghost use Rattle.rp_base.specs.Config.{IsRightConfig};
ghost use Rattle.rp_base.specs.Records.{applied_of};
ghost use Rattle.rp_codec.specs.Message.{IsPacket};
ghost use Rattle.rp_codec.specs.Text.{text_of};
ghost use Rattle.rp_model.specs.rp_machine.specs.Replay.{replay_state};
ghost use Rattle.rp_base.specs.declared.action.Action.{Action};
ghost use Rattle.rp_base.specs.declared.record.Rec.TheVariants as records;
ghost use Rattle.rp_base.specs.declared.record.Vote.{Vote};
ghost use Rattle.rp_codec.specs.declared.packet.Body.{Body};
ghost use Rattle.rp_codec.specs.declared.packet.Body.TheVariants.{Decided};
ghost use Rattle.rp_model.specs.Events as events;
ghost use Rattle.rp_model.specs.Events.{event_of};
ghost use Rattle.rp_model.specs.Facts.{HasPromised, HasVoted, IsOffered, IsDecided, IsOrder};
ghost use Rattle.rp_model.specs.Parts.{NodePart, TaskPart};
ghost use Rattle.rp_model.specs.World.{opening_world, part_at};
ghost use Rattle.rp_model.specs.declared.event.Event.TheVariants.{Node};
ghost use Rattle.rp_model.specs.declared.event.Step.TheVariants.{Deliver};
ghost use Rattle.rp_agreement.specs.Decided.{IsCast};
ghost use Rattle.rp_agreement.specs.Justified.{IsJustified};
ghost use Rattle.rp_agreement.specs.Order.{AllSent, IsPrefix};
ghost use Rattle.rp_agreement.specs.Asked.{Says};
ghost use Rattle.rp_agreement.specs.Worlds.{node_in};
ghost use Rattle.rp_world.specs.Agreeing.{Agree, IsOrdered};
ghost use Rattle.rp_world.specs.Written.{AsksIn, HasReported, HasWritten, HasWrittenPromise};
ghost use Rattle.rp_actors.specs.Deliveries.{delivery_answer};
ghost use Rattle.rp_actors.specs.Failures.{SomeHasFailed};
ghost use Rattle.rp_actors.specs.Going.{stated};
ghost use Rattle.rp_world.specs.Runs.{IsRun};
ghost use Rattle.rp_actors.specs.Shape.{IsCluster};
ghost use Rattle.rp_actors.specs.Steps.{IsLightStep, IsStep, IsStored, IsQueryAnswer, IsQueryAnswerUnlessMemory, IsServerOf, cluster_setting};

use crate::effect::{Refused, no_effect};
use crate::world::World;
use rp_actors::are_empty;
use rp_agreement::{
    applied_lists_are_alike, applied_lists_are_prefixes, calls_count_in_order, decisions_are_one,
    decisions_stay, events_keep_ranges, events_keep_replies, offers_are_one,
    offers_follow_decisions, only_made_calls_count, packets_say_so,
    replies_answer_calls_that_count, replies_follow_the_order, states_are_alike, the_order_exists,
};
use rp_base::{Action, Answer, Config, Fault, NodeId, TaskId};
use rp_machine::{Machine, a_call_has_one_place};
use rp_model::{Effect, Event, worlds_grow};
use rp_server::Roles;
use rp_store::{CutDevice, InfallibleDevice};
use std::alloc::Global;
use std::marker::Model;

/// Nodes that replicate a machine, each over its own device, eight tasks that call it, and the
/// messages between them. A message that was sent is kept, so it may be delivered late, again or
/// never.
#[derive(Drop)]
pub struct Cluster<M: Machine, D: CutDevice> {
    world: World<M, D>,
}

impl<M: Machine, D: CutDevice> Model for Cluster<M, D> {
    ghost use Rattle.rp_actors.specs.Steps.{ClusterState, cluster_setting};
    ghost use Rattle.rp_actors.specs.Shape.{IsCluster};

    ghost Value = { ClusterState M.Program };

    ghost view = { λ c. c.world };

    ghost invariant = { λ c. IsCluster (cluster_setting M.next M.answers M.begin c.world)
        c.world.world };
}

impl<M: Machine, D: CutDevice> Cluster<M, D> {
    /// The opening world: all nodes run, and nothing was called or sent. `BadConfig` if a number is
    /// outside its limits, if there are not as many devices as nodes, or if one is not empty.
    /// Refused, the program and the devices are dropped.
    pub fn new(
        alloc: Global,
        config: Config,
        program: M::Program,
        devices: Vec<D>,
    ) -> Result<Self, Fault>
        // claim (opened, refused, only): A cluster opens in the opening world, or is refused
        //   exactly if a number is outside its limits, there are not as many devices as nodes, or
        //   one is not empty
        ensures opened { IfOk result (λ c. c ≡ record {
          setup = record { config = config; program = program };
          world = opening_world config.nodes;
          failures = map (λ device. (D.disk device).failures) devices.items;
        }) }
        ensures refused { IsErrOf result Fault.BadConfig
            ↔ (¬ (IsRightConfig config × (length devices.items ≡ config.nodes)
            × All (λ device. (D.disk device).contents ≡ []) devices.items)) }
        ensures only { IfErr result (λ fault. (fault ≡ Fault.BadConfig) ⊎ ((fault
            ≡ Fault.OutOfMemory) ⊎ (fault ≡ Fault.Device))) }
        // claim (cause): A new cluster is refused by `Device` only if some device of its kind has
        //   counted a failure
        ensures cause { IsErrOf result Fault.Device → SomeHasFailed D.disk }
    {
        if !config.is_right()
            || devices.len() != usize::from(config.nodes)
            || !are_empty(&devices)
        {
            return Err(Fault::BadConfig);
        }
        replies_follow_the_order::<M>();
        events_keep_ranges::<M>();
        Ok(Cluster {
            world: World::new(alloc, config, program, devices)?,
        })
    }

    /// One step of one actor, a stop or a restart, with its effect. Refused as `step_into` is.
    pub fn step(&mut self, alloc: Global, event: &Event) -> Result<Effect, Fault>
        // claim as Cluster::step_into
        ensures step { IsStep M.next M.answers M.begin self.old event.now self.new result }
        ensures certain { (step : events.Step) → event_of event.now ≡ events.Makes step
            → IsLightStep (cluster_setting M.next M.answers M.begin self.old) self.old.world step
            → IsOk result }
    {
        let mut effect = no_effect(0);
        self.step_into(alloc, event, &mut effect)?;
        Ok(effect)
    }

    /// The same, but writes the effect to `effect`, so that none is copied; if the step is refused,
    /// its content is unspecified. Refused, it changes nothing: `NotRunning` for a stopped node, or
    /// if a cut delivery goes to no running node, `NoSuchMessage` for a number above the last,
    /// `TaskBusy` while the task's last call has no answer, `LogFull` and `BallotsSpent` for a
    /// leader, `NumbersSpent` for a task's last number, `BadConfig` for a node above the last, a
    /// call that is not right or a range that is not of 1 to 64 positions, and `OutOfMemory`.
    /// `Device` if a node's device fails: then the node is stopped within the step; one that was to
    /// start again stays stopped, and some of its torn bytes may be gone, as they may be after
    /// `OutOfMemory`.
    #[inline(always)]
    pub fn step_into(
        &mut self,
        alloc: Global,
        event: &Event,
        effect: &mut Effect,
    ) -> Result<(), Fault>
        // claim: Each step of a cluster, whatever the event, has exactly the effect that the
        //   definitions give, or is refused as they say and changes nothing, or is out of memory,
        //   which a stop never is, and changes nothing; a restart of a stopped node that is refused
        //   for memory or by its device may lose torn bytes. A fault of a device comes only from a
        //   step that writes a record, or from such a restart, and only if the failure count of
        //   that node's device rose, and no other count changes; the step is then cut
        ensures step { IsStep M.next M.answers M.begin self.old event.now self.new
            (stated result effect.new) }
        // claim: A step that sends no packet, writes no record and counts no vote takes no memory:
        //   at a node that runs it takes effect, unless a long packet is delivered by it
        ensures certain { (step : events.Step) → event_of event.now ≡ events.Makes step
            → IsLightStep (cluster_setting M.next M.answers M.begin self.old) self.old.world step
            → IsOk result }
    {
        event.keeps_ranges();
        events_keep_replies::<M>();
        events_keep_ranges::<M>();
        self.world.step_into(alloc, event, effect)
    }

    /// The step that delivers a message, by its number: by far the most frequent step, so the
    /// shortest way. Whether there is more to report of it than what it sent, and then `reported` is
    /// what `step` would return. If not, it took effect, no item was dropped and no task took a
    /// reply; the messages that it sent are the last ones, `messages` says how many there are, and
    /// the content of `reported` is unspecified.
    #[inline(never)]
    pub fn step_by_delivery(
        &mut self,
        alloc: Global,
        number: u64,
        reported: &mut Result<Effect, Fault>,
    ) -> bool
        // claim as Cluster::step_into
        ensures step { IsStep M.next M.answers M.begin self.old (Node (Deliver number)) self.new
            (delivery_answer self.old.world self.new.world result reported.new) }
        ensures certain { IsLightStep (cluster_setting M.next M.answers M.begin self.old) self.old.world
            (events.Deliver number)
            → IsOk (delivery_answer self.old.world self.new.world result reported.new) }
    {
        events_keep_replies::<M>();
        events_keep_ranges::<M>();
        self.world.deliver(alloc, number, reported)
    }

    /// The steps of these events one after another, up to the first that is refused. Whatever they
    /// are, nodes agree, before the run and after it, and what each has applied is a prefix of one
    /// order: the calls of a task that count in it are those that the task made, in order, each
    /// reply that a task got is the answer to its call. A call takes effect at exactly one place if
    /// its reply was got, and otherwise at one at most. What was decided before the run is decided
    /// after it.
    pub fn run(&mut self, alloc: Global, events: &[Event]) -> Result<(), Refused>
        // claim (run): A run makes its steps one after another, and returns the place of the first
        //   that was refused; failure counts stay but for a device that failed there
        ensures run { IsRun M.next M.answers M.begin self.old events.now self.new result }
        // claim (agree): Whatever a run's events are, of the log that one node applied before it
        //   and the log that another applied after it, one is a prefix of the other; and equally
        //   many actions lead to one state and one image
        ensures agree { Agree M.next M.answers M.image (M.begin self.old.setup.program)
            self.old.world self.new.world }
        // claim (ordered): After a run there is one order: each node's applied list is a prefix of
        //   it; the calls of a task that count in it are those that the task made, in order (all,
        //   or all but the one that it waits for); each reply that a task got is its answer to the
        //   call of that number; a call takes effect at exactly one place if its reply was got, at
        //   one at most otherwise, and no call does that its task did not make
        ensures ordered { IsOrdered M.next M.answers (M.begin self.old.setup.program)
            self.old.setup.config.nodes self.new.world }
        // claim: What is decided before a run is decided after it
        ensures decided { (i : ℕ) (v : Action)
            → IsDecided self.old.setup.config.nodes self.old.world.sent i v
            → IsDecided self.old.setup.config.nodes self.new.world.sent i v }
    {
        self.is_kept();
        let ran = self.run_all(alloc, events);
        self.is_kept();
        applied_lists_are_alike();
        states_are_alike::<M>();
        the_order_exists();
        applied_lists_are_prefixes();
        calls_count_in_order::<M>();
        replies_answer_calls_that_count::<M>();
        only_made_calls_count::<M>();
        decisions_stay();
        a_call_has_one_place::<M>();
        ran
    }

    /// The same, without `agree` and `ordered`; what was sent before the run is sent after it.
    fn run_all(&mut self, alloc: Global, events: &[Event]) -> Result<(), Refused>
        ensures run { IsRun M.next M.answers M.begin self.old events.now self.new result }
        ensures sent { AllSent self.old.world.sent self.new.world.sent }
    {
        worlds_grow::<M>();
        for (place, event) in events.iter().enumerate() {
            if let Err(fault) = self.step(alloc, event) {
                return Err(Refused { place, fault });
            }
        }
        Ok(())
    }

    /// The cluster's world satisfies the invariant from which agreement and the replies follow. It
    /// does nothing: its contract is for the callers' proofs.
    fn is_kept(&self)
        ensures { IsCluster (cluster_setting M.next M.answers M.begin self.now) self.now.world }
    {
        let _ = self.world.messages();
    }

    /// What holds of every cluster, whatever happened to it: at most one action is decided at a
    /// position, whether votes are counted in what was sent or in what nodes wrote; in one ballot
    /// at most one action is offered at a position; above a ballot in which an action was decided
    /// only that action is (P2b), and each offer is justified by the promises of a majority (P2c);
    /// what a node has applied is a prefix of the order; and a node has written the ballot, the
    /// promise, the vote and the decision that it sent, and its last vote was what it reported. It
    /// does nothing: its contract is for the callers' proofs. Lamport, "Paxos Made Simple", section
    /// 2.2.
    pub fn agrees(&self)
        // claim: Of every cluster, at any moment: at a position one action at most is decided,
        //   counted in packets or in records, and in one ballot one is offered; above a ballot in
        //   which an action is decided it alone is; each offer is justified by the promises of a
        //   majority; each node applied a prefix of the order; a node has the record of the ballot
        //   of each proposal, of each promise, vote and decision that it sent, and a promise
        //   reports its last vote
        ensures decided { (i : ℕ) (v w : Action)
            → IsDecided self.now.setup.config.nodes self.now.world.sent i v
            → IsDecided self.now.setup.config.nodes self.now.world.sent i w → v ≡ w }
        ensures cast { let node = node_in self.now.world.nodes in (i b c : ℕ) (v w : Action)
            → IsCast self.now.setup.config.nodes node i b v
            → IsCast self.now.setup.config.nodes node i c w → v ≡ w }
        ensures offered { (i b : ℕ) (v w : Action) → IsOffered self.now.world.sent i b v
            → IsOffered self.now.world.sent i b w → v ≡ w }
        ensures follows { let node = node_in self.now.world.nodes in (i b c : ℕ) (v w : Action)
            → IsCast self.now.setup.config.nodes node i b v → b < c
            → IsOffered self.now.world.sent i c w → w ≡ v }
        ensures justified { (i b : ℕ) (v : Action) → IsOffered self.now.world.sent i b v
            → IsJustified self.now.setup.config.nodes self.now.world.sent i b v }
        ensures applied { (order : List Action)
            → IsOrder self.now.setup.config.nodes self.now.world.sent order
            → (x : ℕ) (part : NodePart) → part_at self.now.world.nodes x ≡ Some part
            → IsPrefix (applied_of part.records) order }
        ensures started { (x b : ℕ) (body : Body) → Says self.now.world.sent x body
            → AsksIn b body → HasWritten self.now.world x (records.Started b) }
        ensures promised { (x i b : ℕ) (last : Option Vote)
            → HasPromised self.now.world.sent x i b last
            → HasWrittenPromise self.now.world x i b }
        ensures reported { (x i b : ℕ) (last : Option Vote)
            → HasPromised self.now.world.sent x i b last
            → HasReported self.now.world x i b last }
        ensures voted { (x i b : ℕ) (v : Action) → HasVoted self.now.world.sent x i b v
            → HasWritten self.now.world x (records.Voted i b v) }
        ensures learned { (x i : ℕ) (v : Action)
            → Says self.now.world.sent x (Decided i v)
            → HasWritten self.now.world x (records.Learned i v) }
    {
        self.is_kept();
        decisions_are_one();
        offers_are_one();
        offers_follow_decisions();
        applied_lists_are_prefixes();
        packets_say_so();
    }

    /// How many messages were sent.
    pub fn messages(&self) -> u64
        ensures value { result ≡ length self.now.world.sent }
        ensures few { result < 2 ^ 63 }
    {
        self.world.messages()
    }

    /// The text of the message of this number, from 1, which `decode` reads back. `NoSuchMessage`
    /// if there is none.
    pub fn message(&self, alloc: Global, number: u64) -> Result<Vec<u8>, Fault>
        // claim: A message is returned as its text
        ensures text { IfOk result (λ text. IfSome (part_at self.now.world.sent number)
            (λ m. (text.items ≡ text_of m) × IsPacket m)) }
        ensures none { IsErrOf result Fault.NoSuchMessage
            ↔ (part_at self.now.world.sent number ≡ None) }
        ensures only { IfErr result (λ fault. (fault ≡ Fault.NoSuchMessage) ⊎ (fault
            ≡ Fault.OutOfMemory)) }
    {
        let Some(text) = self.world.text(number) else {
            return Err(Fault::NoSuchMessage);
        };
        Ok(Vec::from_slice(alloc, text)?)
    }

    /// The replies that a task got, in order.
    pub fn replies(&self, task: TaskId) -> &[Answer]
        // claim: The replies that a task got are returned, in order
        ensures { (part : TaskPart) × (part_at self.now.world.tasks task ≡ Some part)
            × (result.now ≡ part.replies) }
    {
        self.world.replies(task)
    }

    /// The call that a task waits for, if it waits.
    pub fn outstanding(&self, task: TaskId) -> Option<Action>
        // claim: The call that a task waits for is returned
        ensures { (part : TaskPart) × (part_at self.now.world.tasks task ≡ Some part)
            × (result ≡ part.outstanding) }
    {
        self.world.outstanding(task)
    }

    /// The server of a node that runs, which answers what it promised and voted and what is pending.
    /// `NotRunning` where the node is stopped, `BadConfig` above the last node.
    pub fn server(&self, node: NodeId) -> Result<&Roles<M>, Fault>
        // claim: The server of a node that runs is returned: its configuration, its records, and
        //   what it knows
        ensures { IsServerOf self.now.setup.config result (part_at self.now.world.nodes node) }
    {
        self.world.server(node)
    }

    /// How many actions a node has applied. `NotRunning` where it is stopped, `BadConfig` above the
    /// last node.
    pub fn applied(&self, node: NodeId) -> Result<u16, Fault>
        // claim: How many actions a node has applied is returned; refused exactly at a stopped node
        //   and above the last
        ensures { IsQueryAnswer result (λ count records. count
            ≡ min (length (applied_of records)) (2 ^ 16 - 1)) (part_at self.now.world.nodes node) }
    {
        self.world.applied(node)
    }

    /// The lines that show a node's machine. `NotRunning` if the node is stopped, `BadConfig` above
    /// the last node.
    pub fn image(&self, alloc: Global, node: NodeId) -> Result<Vec<u8>, Fault>
        // claim: A node shows the image of the state that its applied list leads to; it is refused
        //   as `Cluster::applied` is, and out of memory only if it runs
        ensures { IsQueryAnswerUnlessMemory result (λ text records.
            text.items ≡ M.image (replay_state M.next M.answers (M.begin self.now.setup.program)
            (applied_of records))) (part_at self.now.world.nodes node) }
    {
        self.world.image(alloc, node)
    }

    /// How many bytes a node's device holds. `BadConfig` above the last node.
    pub fn stored(&self, node: NodeId) -> Result<u64, Fault>
        // claim: How many bytes a node's device holds is exactly the length of its records' texts
        //   and its torn bytes, whether it runs or is stopped
        ensures { IsStored result (part_at self.now.world.nodes node) }
    {
        self.world.stored(node)
    }
}

impl<M: Machine, D: CutDevice + InfallibleDevice> Cluster<M, D> {
    /// No device has failed, since such devices never do. Its contract is for the callers' proofs.
    pub fn never_failed(&self)
        // claim: Over devices that never fail, as memory is, no failure is counted, so no step
        //   returns `Device`
        ensures { All (λ count. count ≡ 0) self.now.failures }
    {
        self.world.never_failed();
    }
}
