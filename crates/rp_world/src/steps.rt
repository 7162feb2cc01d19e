//! The steps of nodes, whole or cut, and the function that makes the step of each event.

ghost use Rattle.std.specs.Prelude.{◌≡◌, Ok, Some, IfOk, IfErr, IsOk, option_copied, option_map};
ghost use Rattle.std.specs.List.{AllByRecursion};
ghost use Rattle.rp_base.specs.Config.{IsRightConfig};
ghost use Rattle.rp_base.specs.Sets.{Has};
ghost use Rattle.rp_codec.specs.Message.{Message, IsPacket};
ghost use Rattle.rp_codec.specs.declared.packet.Party.TheVariants.{Node, Task};
ghost use Rattle.rp_codec.specs.Text.{text_of};
ghost use Rattle.rp_model.specs.Effect.{Done, NodeInput, Setting, node_effect};
ghost use Rattle.rp_model.specs.Parts.{NodePart};
ghost use Rattle.rp_model.specs.Events as events;
ghost use Rattle.rp_model.specs.Events.{IsRightEvent, event_of, step_of};
ghost use Rattle.rp_model.specs.World as worlds;
ghost use Rattle.rp_model.specs.World.{part_at, commanded};
ghost use Rattle.rp_agreement.specs.Ranges.{IsRangedWorld};
ghost use Rattle.rp_replica.specs.rp_rules.specs.Inputs.{IsLong, IsRightInput, given_by};
ghost use Rattle.rp_world.specs.Choosing.{AreNodesOf, IsMaker, IsStepRefused};
ghost use Rattle.rp_actors.specs.Deliveries.{delivery_answer};
ghost use Rattle.rp_actors.specs.Going.{Answers, cut_meant, meant_by, stated, step_meant};
ghost use Rattle.rp_actors.specs.Nodes.{IsLight};
ghost use Rattle.rp_actors.specs.Steps.{IsLightStep, IsStep, cluster_setting};

use crate::effect::{no_effect, of_step, taken};
use crate::world::{World, put_back};
use rp_actors::decode_reply;
use rp_agreement::events_keep_ranges;
use rp_base::{Fault, NodeId, Position, PositionRange, TaskId};
use rp_codec::{Party, receiver_of};
use rp_machine::Machine;
use rp_model::{Dropped, Effect, Event, Interrupt, Step};
use rp_outbox::Outbox;
use rp_replica::{Input, texts_are_packets};
use rp_store::CutDevice;
use std::alloc::Global;

/// The text of the message of this number, from 1.
#[inline(always)]
pub(crate) fn text_of_number(messages: &Outbox, number: u64) -> Option<&[u8]>
    ensures { option_copied result ≡ option_map text_of (part_at messages.now.sent number) }
{
    if number == 0 {
        return None;
    }
    messages.text((number - 1) as usize)
}

impl<M: Machine, D: CutDevice> World<M, D> {
    /// Makes the step of an event, and writes its effect to `effect`.
    #[inline(never)]
    pub(crate) fn step_into(
        &mut self,
        alloc: Global,
        event: &Event,
        effect: &mut Effect,
    ) -> Result<(), Fault>
        requires config { IsRightConfig self.old.setup.config }
        requires ranged { IsRangedWorld self.old.setup.config.nodes self.old.world }
        requires event { IsRightEvent (event_of event.now) }
        ensures step { IsStep M.next M.answers M.begin self.old event.now self.new
            (stated result effect.new) }
        ensures certain { (step : events.Step) → event_of event.now ≡ events.Makes step
            → IsLightStep (cluster_setting M.next M.answers M.begin self.old) self.old.world step
            → IsOk result }
    {
        let answer = match *event {
            Event::Node(step) => return self.make_step(alloc, step, effect),
            Event::Submit {
                task,
                node,
                object,
                operation,
                arg,
            } => self.submit(task, node, object, operation, arg),
            Event::Again { task, node } => self.again(task, node),
            Event::Cut { step, kept } => self.make_cut(alloc, step, kept),
            Event::Stop(node) => self.stop(node),
            Event::Restart(node) => self.restart(alloc, node),
        };
        write_effect(answer, effect)
    }
}

/// Writes an effect that was returned to `effect`.
#[inline(always)]
fn write_effect(answer: Result<Effect, Fault>, effect: &mut Effect) -> Result<(), Fault>
    ensures { stated result effect.new ≡ answer }
{
    match answer {
        Ok(made) => {
            *effect = made;
            Ok(())
        }
        Err(fault) => Err(fault),
    }
}

/// An interrupt as the input of a node.
fn input_of(interrupt: Interrupt) -> Input<'static>
    ensures right { IsRightInput result }
    ensures given { given_by result
        ≡ Ok (NodeInput.Interrupt interrupt.source interrupt.occurrence) }
{
    Input::Interrupt {
        source: interrupt.source,
        occurrence: interrupt.occurrence,
    }
}

impl<M: Machine, D: CutDevice> World<M, D> {
    /// A node makes a step. Refused as `deliver` is, or as `give_input`.
    fn make_step(&mut self, alloc: Global, step: Step, effect: &mut Effect) -> Result<(), Fault>
        requires config { IsRightConfig self.old.setup.config }
        requires ranged { IsRangedWorld self.old.setup.config.nodes self.old.world }
        requires step { events.IsRightStep (step_of step) }
        ensures answer { let setting = cluster_setting M.next M.answers M.begin self.old in
            Answers self.old (step_meant setting self.old.world (step_of step)) self.new
            (stated result effect.new) }
        ensures certain { IsLightStep (cluster_setting M.next M.answers M.begin self.old) self.old.world
            (step_of step) → IsOk result }
    {
        events_keep_ranges::<M>();
        match step {
            Step::Deliver(number) => self.deliver_into(alloc, number, effect),
            Step::Lead { node, position } => self.give_input(
                alloc,
                node,
                &Input::Lead(position),
                effect,
            ),
            Step::LeadRange { node, first, count } => {
                match Self::range_for(&self.nodes, node, first, count) {
                    Ok(range) => self.give_input(alloc, node, &Input::LeadRange(range), effect),
                    Err(fault) => Err(fault),
                }
            }
            Step::Interrupt { node, interrupt } => {
                self.give_input(alloc, node, &input_of(interrupt), effect)
            }
            Step::Tick { node, now } => self.give_input(alloc, node, &Input::Tick { now }, effect),
            Step::Report { node, first } => self.give_input(
                alloc,
                node,
                &Input::Report(first),
                effect,
            ),
            Step::Ask { node, to } => self.give_input(alloc, node, &Input::Ask(to), effect),
        }
    }

    /// A node stops within a step, and n bytes of the step's record are kept. Refused as the step
    /// itself, or with `NotRunning` for a delivery to no running node; `Device` if the device fails
    /// within the step.
    #[inline(never)]
    pub(crate) fn make_cut(&mut self, alloc: Global, step: Step, kept: u64) -> Result<Effect, Fault>
        requires ranged { IsRangedWorld self.old.setup.config.nodes self.old.world }
        ensures answer { let setting = cluster_setting M.next M.answers M.begin self.old in
            Answers self.old (cut_meant setting self.old.world (step_of step) kept) self.new
            result }
    {
        let first = self.messages() + 1;
        let (node, input) = match Self::step_to_cut(&self.messages, &self.nodes, step) {
            Ok(maker) => maker,
            Err(fault) => return Err(fault),
        };
        let place = usize::from(node.get()) - 1;
        let (node, answer) = self.nodes.remove(place).cut(alloc, &input, kept);
        put_back(&mut self.nodes, place, node);
        match answer {
            Ok(()) => Ok(no_effect(first)),
            Err(fault) => Err(fault),
        }
    }

    /// Which of these nodes makes a step, and the input of the step. `NoSuchMessage` above the last
    /// message, `NotRunning` for a message to none of these nodes, `BadConfig` above the last node,
    /// and as `range_for` if there is no range to lead at.
    fn step_to_cut<'a>(
        messages: &'a Outbox,
        nodes: &[rp_actors::ClusterNode<M, D>],
        step: Step,
    ) -> Result<(NodeId, Input<'a>), Fault>
        requires packets { (m : Message) → Has m messages.now.sent → IsPacket m }
        ensures right { IfOk result (λ maker. IsRightInput maker.1) }
        ensures maker { (setting : Setting M) (w : worlds.World) → w.sent ≡ messages.now.sent
            → AreNodesOf D.disk setting.begin nodes.now w → IsMaker setting w (step_of step) result }
    {
        let (node, input) = match step {
            Step::Deliver(number) => {
                texts_are_packets();
                let Some(text) = text_of_number(messages, number) else {
                    return Err(Fault::NoSuchMessage);
                };
                let Party::Node(node) = receiver_of(text) else {
                    return Err(Fault::NotRunning);
                };
                if usize::from(node.get()) > nodes.len() {
                    return Err(Fault::NotRunning);
                }
                return Ok((node, Input::Receive(text)));
            }
            Step::Lead { node, position } => (node, Input::Lead(position)),
            Step::LeadRange { node, first, count } => {
                match Self::range_for(nodes, node, first, count) {
                    Ok(range) => (node, Input::LeadRange(range)),
                    Err(fault) => return Err(fault),
                }
            }
            Step::Interrupt { node, interrupt } => (node, input_of(interrupt)),
            Step::Tick { node, now } => (node, Input::Tick { now }),
            Step::Report { node, first } => (node, Input::Report(first)),
            Step::Ask { node, to } => (node, Input::Ask(to)),
        };
        if usize::from(node.get()) > nodes.len() {
            return Err(Fault::BadConfig);
        }
        Ok((node, input))
    }

    /// The range at which one of these nodes is to lead. `BadConfig` above the last node,
    /// `NotRunning` if the node is stopped; then `BadConfig` unless the count is 1 to 64, and
    /// `LogFull` if the last position would be above 65,535.
    fn range_for(
        nodes: &[rp_actors::ClusterNode<M, D>],
        node: NodeId,
        first: Position,
        count: u8,
    ) -> Result<PositionRange, Fault>
        ensures ok { IfOk result (λ range. given_by (Input.LeadRange range)
            ≡ Ok (NodeInput.LeadRange first count)) }
        ensures err { IfErr result (λ fault. (setting : Setting M) (w : worlds.World)
            → AreNodesOf D.disk setting.begin nodes.now w
            → IsStepRefused setting w (events.LeadRange node first count) fault) }
    {
        match nodes.get(usize::from(node.get()) - 1) {
            Some(node) => {
                if node.is_running() {
                    PositionRange::new(first, count)
                } else {
                    Err(Fault::NotRunning)
                }
            }
            None => Err(Fault::BadConfig),
        }
    }

    /// A node is given an input that comes from no message. `BadConfig` above the last node,
    /// `NotRunning` if the node is stopped, `LogFull` or `BallotsSpent` if it cannot lead, or out
    /// of memory: nothing changes. `Device` if its device fails: then it is stopped.
    #[inline(always)]
    fn give_input(
        &mut self,
        alloc: Global,
        node: NodeId,
        input: &Input<'_>,
        effect: &mut Effect,
    ) -> Result<(), Fault>
        requires right { IsRightInput input.now }
        requires given { (given : NodeInput) × (given_by input.now ≡ Ok given) }
        requires sends { (given : NodeInput) (part : NodePart) (done : Done NodePart)
            → given_by input.now ≡ Ok given → part_at self.old.world.nodes node ≡ Some part
            → node_effect (cluster_setting M.next M.answers M.begin self.old) node part given ≡ Ok done
            → AllByRecursion IsPacket done.sends }
        ensures answer { (given : NodeInput) → given_by input.now ≡ Ok given
            → let setting = cluster_setting M.next M.answers M.begin self.old in
            let chosen = commanded node given (part_at self.old.world.nodes node) in
            Answers self.old (meant_by setting self.old.world chosen) self.new
            (stated result effect.new) }
        ensures certain { (given : NodeInput) (part : NodePart) → given_by input.now ≡ Ok given
            → (¬ IsLong input.now) → part_at self.old.world.nodes node ≡ Some part
            → IsLight part (node_effect (cluster_setting M.next M.answers M.begin self.old) node
            part given) → IsOk result }
    {
        let first = self.messages() + 1;
        let Some(node) = self.nodes.get_mut(usize::from(node.get()) - 1) else {
            return Err(Fault::BadConfig);
        };
        let dropped = node.turn(alloc, &mut self.messages, input)?;
        *effect = of_step(first, self.messages(), dropped);
        Ok(())
    }

    /// The receiver of the message of this number, from 1.
    #[inline(always)]
    fn receiver_of_number(&self, number: u64) -> Option<Party>
        requires ranged { IsRangedWorld self.now.setup.config.nodes self.now.world }
        ensures { result ≡ option_map (λ m. m.to) (part_at self.now.world.sent number) }
    {
        let text = self.text(number)?;
        Some(receiver_of(text))
    }

    /// A message is taken by its receiver, or by nobody if that is no running node and no task.
    /// Whether more than what was sent is reported, and then what, as `Cluster::step_by_delivery`
    /// says. `NoSuchMessage` above the last one, or out of memory: nothing changes. `Device` if the
    /// device of its node fails: then the node is stopped.
    #[inline(always)]
    pub(crate) fn deliver(
        &mut self,
        alloc: Global,
        number: u64,
        reported: &mut Result<Effect, Fault>,
    ) -> bool
        requires ranged { IsRangedWorld self.old.setup.config.nodes self.old.world }
        ensures answer { let setting = cluster_setting M.next M.answers M.begin self.old in
            Answers self.old (step_meant setting self.old.world (events.Deliver number)) self.new
            (delivery_answer self.old.world self.new.world result reported.new) }
        ensures certain { IsLightStep (cluster_setting M.next M.answers M.begin self.old) self.old.world
            (events.Deliver number)
            → IsOk (delivery_answer self.old.world self.new.world result reported.new) }
    {
        let Some(receiver) = self.receiver_of_number(number) else {
            *reported = Err(Fault::NoSuchMessage);
            return true;
        };
        let node = match receiver {
            Party::Node(node) => node,
            Party::Task(task) => return self.give_to_task(alloc, number, task, reported),
            Party::Audit => return false,
        };
        let first = self.messages() + 1;
        let Some(node) = self.nodes.get_mut(usize::from(node.get()) - 1) else {
            return false;
        };
        if !node.is_running() {
            return false;
        }
        let place = (number - 1) as usize;
        match node.hear(alloc, &mut self.messages, place) {
            Ok(Dropped::No) => false,
            Ok(dropped) => {
                *reported = Ok(of_step(first, self.messages(), dropped));
                true
            }
            Err(fault) => {
                *reported = Err(fault);
                true
            }
        }
    }

    /// The same, with the effect written to `effect`, also that of a delivery that only sent.
    fn deliver_into(&mut self, alloc: Global, number: u64, effect: &mut Effect) -> Result<(), Fault>
        requires ranged { IsRangedWorld self.old.setup.config.nodes self.old.world }
        ensures answer { let setting = cluster_setting M.next M.answers M.begin self.old in
            Answers self.old (step_meant setting self.old.world (events.Deliver number)) self.new
            (stated result effect.new) }
        ensures certain { IsLightStep (cluster_setting M.next M.answers M.begin self.old) self.old.world
            (events.Deliver number) → IsOk result }
    {
        let first = self.messages() + 1;
        let mut reported = Ok(no_effect(first));
        if self.deliver(alloc, number, &mut reported) {
            write_effect(reported, effect)
        } else {
            *effect = of_step(first, self.messages(), Dropped::No);
            Ok(())
        }
    }

    /// A message arrives at its task, which takes a reply to the call that it waits for. It is
    /// reported as `deliver` says.
    #[inline(never)]
    fn give_to_task(
        &mut self,
        alloc: Global,
        number: u64,
        task: TaskId,
        reported: &mut Result<Effect, Fault>,
    ) -> bool
        requires ranged { IsRangedWorld self.old.setup.config.nodes self.old.world }
        requires to { (m : Message) × (part_at self.old.world.sent number ≡ Some m)
            × (m.to ≡ Task task) }
        ensures answer { let setting = cluster_setting M.next M.answers M.begin self.old in
            Answers self.old (step_meant setting self.old.world (events.Deliver number)) self.new
            (delivery_answer self.old.world self.new.world result reported.new) }
    {
        let first = self.messages() + 1;
        let text = self.text(number).unwrap();
        let Ok(reply) = decode_reply(alloc, text) else {
            *reported = Err(Fault::OutOfMemory);
            return true;
        };
        let Some((number, reply)) = reply else {
            return false;
        };
        match self.tasks[usize::from(task.get()) - 1].take(number, reply) {
            Ok(Some(answer)) => {
                *reported = Ok(taken(first, answer));
                true
            }
            Ok(None) => false,
            Err(_) => {
                *reported = Err(Fault::OutOfMemory);
                true
            }
        }
    }
}
