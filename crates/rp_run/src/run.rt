//! Runs the lines of a script, at any machine and over any devices that never fail.

ghost use Rattle.std.specs.Prelude.{◌≡◌, ◌≤◌, ◌<◌, ◌^◌, ◌||◌, ℕ, [], length, All, Ok, Err, IfErr, IfOk, OnOk};
ghost use Rattle.rp_model.specs.World.{part_at};
ghost use Rattle.rp_model.specs.declared.event.Event.{Event as EventOf};
ghost use Rattle.rp_model.specs.declared.event.Event.TheVariants.{Node};
ghost use Rattle.rp_model.specs.declared.event.Step.TheVariants.{Deliver};
ghost use Rattle.rp_world.specs.rp_actors.specs.Steps.{ClusterState, IsStep};
ghost use Rattle.rp_deck.specs.Script.{FitsIn, IsEventWithin, IsMessage};
ghost use Rattle.rp_run.specs.GoingOn.{RunGoesOn};
ghost use Rattle.rp_run.specs.Items.{items_text};
ghost use Rattle.rp_run.specs.Output.{Play, event_said, lost, drained, part_items, nodes_items, command_said, run_said, text_of_said, is_restart, is_full};
ghost use Rattle.rp_run.specs.Runs.{run_setting, opening_cluster, printed_text, HasParts, Follows, Says};
ghost use Rattle.rp_run.specs.declared.options.RunOptions.{RunOptions as RunOptionsOf};
ghost use Rattle.rp_output.specs.Stream.{Writes};
ghost use Rattle.rp_run.specs.Faults.{IsDeviceRunFault};
ghost use Rattle.rp_output.specs.Faults.{IsRunFault};

use crate::effects::{is_restart, print_dropped, print_restart, print_taken, print_trace};
use crate::options::RunOptions;
use crate::settled::Settled;
use crate::settled_message::settled_by;
use rp_base::{Fault, NodeId};
use rp_deck::{Command, Line};
use rp_machine::Machine;
use rp_model::{Dropped, Effect, Event, Step, worlds_grow};
use rp_output::{DrainLimitLine, NodeLine, NodeState, RefusedLine, is_refusal, print, write_whole};
use rp_store::{CutDevice, InfallibleDevice};
use rp_world::{Cluster, no_effect};
use std::alloc::Global;
use std::io::Write;

/// Runs the lines of a script over a cluster of new devices that never fail, and writes what they
/// print. A fault ends the run at once, and then a prefix of that is written. It is `OutOfMemory` or
/// `Io`.
pub fn run_lines<M: Machine, D: CutDevice + InfallibleDevice, W: Write>(
    alloc: Global,
    options: &RunOptions<'_>,
    program: M::Program,
    devices: Vec<D>,
    writer: &mut W,
) -> Result<(), Fault>
    requires devices { length devices.items ≡ options.now.config.nodes }
    requires empty { All (λ d. (D.disk d).contents ≡ []) devices.items }
    requires lines { All (λ line. FitsIn options.now.config.nodes 8 8 line.command)
        options.now.lines.now }
    // claim: What a run prints is the stated output of its deck, with its packets if this is asked
    //   for; if a fault ends the run, it is a prefix of that, for every machine and over any
    //   devices that never fail. If a fault ends such a run, it is `OutOfMemory` or `Io`: a run in
    //   memory never returns `Device`
    ensures output { Writes (W.contents writer.old) (W.contents writer.new)
        (text_of_said (run_said (run_setting M.next M.answers M.begin M.image
        (opening_cluster options.now.config program) options.now)
        options.now.most options.now.lines.now)) result }
    ensures fault { IfErr result IsRunFault }
{
    let mut run = Run {
        alloc,
        cluster: Cluster::<M, D>::new(alloc, options.config, program, devices)?,
        settled: Settled::new(alloc),
    };
    for line in options.lines {
        let taken = run.take(options, line, writer);
        run.cluster.never_failed();
        taken?;
    }
    Ok(())
}

/// Whether an event with this effect prints more than the reply that a task takes.
#[inline(always)]
fn prints_more(options: &RunOptions<'_>, event: &Event, effect: &Effect) -> bool
    ensures { result
        ≡ (options.now.traced || (is_restart event.now || is_full effect.now.dropped)) }
{
    options.traced || is_restart(event) || matches!(effect.dropped, Dropped::Full)
}

/// A run of a script.
struct Run<M: Machine, D: CutDevice> {
    alloc: Global,
    cluster: Cluster<M, D>,
    settled: Settled,
}

// Not derived, so that to drop it is one step of a proof and not one for each of its parts.
impl<M: Machine, D: CutDevice> Drop for Run<M, D> {
    fn drop(self) {
        let Run {
            alloc: _,
            cluster: _,
            settled: _,
        } = self;
    }
}

impl<M: Machine, D: CutDevice> Run<M, D> {
    /// Does what a line asks for.
    fn take<W: Write>(
        &mut self,
        options: &RunOptions<'_>,
        line: &Line,
        writer: &mut W,
    ) -> Result<(), Fault>
        requires parts { HasParts options.now.config.nodes self.old.cluster }
        requires line { FitsIn options.now.config.nodes 8 8 line.now.command }
        ensures parts { OnOk result (HasParts options.now.config.nodes self.new.cluster) }
        ensures setup { self.new.cluster.setup ≡ self.old.cluster.setup }
        ensures counts { OnOk result (self.new.cluster.failures ≡ self.old.cluster.failures) }
        ensures printed { (play : Play) → Follows self.old.cluster.world self.old.settled play
            → Says self.new.cluster.world self.new.settled
            (W.contents writer.old) (W.contents writer.new)
            (command_said (run_setting M.next M.answers M.begin M.image self.old.cluster
            options.now)
            options.now.most line.now.number play line.now.command) result }
        ensures fault { IfErr result (IsDeviceRunFault self.old.cluster.failures
            self.new.cluster.failures) }
    {
        let number = line.number;
        match &line.command {
            Command::Take(event) => self.step(options, number, event, writer),
            Command::Lose { first, last } => self.lose(number, *first, *last, writer),
            Command::Drain => self.drain(options, number, writer),
            Command::Show => self.show(options, writer),
        }
    }

    /// Takes a step, and reports it.
    fn step<W: Write>(
        &mut self,
        options: &RunOptions<'_>,
        line: u32,
        event: &Event,
        writer: &mut W,
    ) -> Result<(), Fault>
        requires parts { HasParts options.now.config.nodes self.old.cluster }
        requires event { IsEventWithin options.now.config.nodes 8 8 event.now }
        ensures parts { OnOk result (HasParts options.now.config.nodes self.new.cluster) }
        ensures setup { self.new.cluster.setup ≡ self.old.cluster.setup }
        ensures counts { OnOk result (self.new.cluster.failures ≡ self.old.cluster.failures) }
        ensures printed { (play : Play) → Follows self.old.cluster.world self.old.settled play
            → Says self.new.cluster.world self.new.settled
            (W.contents writer.old) (W.contents writer.new)
            (event_said (run_setting M.next M.answers M.begin M.image self.old.cluster options.now)
            line play event.now) result }
        ensures fault { IfErr result (IsDeviceRunFault self.old.cluster.failures
            self.new.cluster.failures) }
    {
        let mut effect = no_effect(0);
        match self.cluster.step_into(self.alloc, event, &mut effect) {
            Ok(()) => self.report_effect(options, event, &effect, writer),
            Err(fault) => self.report_refusal(line, fault, writer),
        }
    }

    /// Takes the delivery of a message. Mostly it only sends messages, and if these are not printed
    /// there is nothing to report: then the message is settled, at once. What there is to report is
    /// put into `reported`, whose content is unspecified after it.
    #[inline(always)]
    fn deliver<W: Write>(
        &mut self,
        options: &RunOptions<'_>,
        line: u32,
        message: u64,
        reported: &mut Result<Effect, Fault>,
        writer: &mut W,
    ) -> Result<(), Fault>
        requires parts { HasParts options.now.config.nodes self.old.cluster }
        requires message { IsMessage message }
        ensures parts { OnOk result (HasParts options.now.config.nodes self.new.cluster) }
        ensures setup { self.new.cluster.setup ≡ self.old.cluster.setup }
        ensures counts { OnOk result (self.new.cluster.failures ≡ self.old.cluster.failures) }
        ensures printed { (play : Play) → Follows self.old.cluster.world self.old.settled play
            → Says self.new.cluster.world self.new.settled
            (W.contents writer.old) (W.contents writer.new)
            (event_said (run_setting M.next M.answers M.begin M.image self.old.cluster options.now)
            line play (Node (Deliver message))) result }
        ensures fault { IfErr result (IsDeviceRunFault self.old.cluster.failures
            self.new.cluster.failures) }
    {
        worlds_grow::<M>();
        if options.traced {
            return self.deliver_traced(options, line, message, writer);
        }
        if self.cluster.step_by_delivery(self.alloc, message, reported) {
            return self.report_delivery(options, line, message, reported, writer);
        }
        Ok(self.settled.settle(message)?)
    }

    /// Takes the delivery of a message as any event, since its packets are printed.
    #[inline(never)]
    fn deliver_traced<W: Write>(
        &mut self,
        options: &RunOptions<'_>,
        line: u32,
        message: u64,
        writer: &mut W,
    ) -> Result<(), Fault>
        requires parts { HasParts options.now.config.nodes self.old.cluster }
        requires message { IsMessage message }
        ensures parts { OnOk result (HasParts options.now.config.nodes self.new.cluster) }
        ensures setup { self.new.cluster.setup ≡ self.old.cluster.setup }
        ensures counts { OnOk result (self.new.cluster.failures ≡ self.old.cluster.failures) }
        ensures printed { (play : Play) → Follows self.old.cluster.world self.old.settled play
            → Says self.new.cluster.world self.new.settled
            (W.contents writer.old) (W.contents writer.new)
            (event_said (run_setting M.next M.answers M.begin M.image self.old.cluster options.now)
            line play (Node (Deliver message))) result }
        ensures fault { IfErr result (IsDeviceRunFault self.old.cluster.failures
            self.new.cluster.failures) }
    {
        let event = Event::Node(Step::Deliver(message));
        self.step(options, line, &event, writer)
    }

    /// Reports the delivery of a message. The event is made here, so that `drain` has no place for
    /// it to clear before each message.
    #[inline(never)]
    fn report_delivery<W: Write>(
        &mut self,
        options: &RunOptions<'_>,
        line: u32,
        message: u64,
        reported: &Result<Effect, Fault>,
        writer: &mut W,
    ) -> Result<(), Fault>
        requires message { IsMessage message }
        requires first { IfOk reported.now (λ effect. 1 ≤ effect.first) }
        ensures cluster { self.new.cluster ≡ self.old.cluster }
        ensures goes_on { (before : ClusterState M.Program)
            → HasParts options.now.config.nodes before
            → IsStep M.next M.answers M.begin before (Node (Deliver message)) self.old.cluster
            reported.now
            → RunGoesOn options.now.config.nodes before self.new.cluster result }
        ensures printed { (before : ClusterState M.Program) (play : Play)
            → IsStep M.next M.answers M.begin before (Node (Deliver message)) self.old.cluster
            reported.now
            → Follows before.world self.old.settled play
            → Says self.new.cluster.world self.new.settled
            (W.contents writer.old) (W.contents writer.new)
            (event_said (run_setting M.next M.answers M.begin M.image before options.now)
            line play (Node (Deliver message))) result }
    {
        let event = Event::Node(Step::Deliver(message));
        match reported {
            Ok(effect) => self.report_effect(options, &event, effect, writer),
            Err(fault) => self.report_refusal(line, *fault, writer),
        }
    }

    /// Reports an event that took effect: settles its messages, and prints its effect.
    #[inline(always)]
    fn report_effect<W: Write>(
        &mut self,
        options: &RunOptions<'_>,
        event: &Event,
        effect: &Effect,
        writer: &mut W,
    ) -> Result<(), Fault>
        requires event { IsEventWithin options.now.config.nodes 8 8 event.now }
        requires first { 1 ≤ effect.now.first }
        ensures cluster { self.new.cluster ≡ self.old.cluster }
        ensures goes_on { (before : ClusterState M.Program)
            → HasParts options.now.config.nodes before
            → IsStep M.next M.answers M.begin before event.now self.old.cluster (Ok effect.now)
            → RunGoesOn options.now.config.nodes before self.new.cluster result }
        ensures printed { (line : ℕ) (before : ClusterState M.Program) (play : Play)
            → IsStep M.next M.answers M.begin before event.now self.old.cluster (Ok effect.now)
            → Follows before.world self.old.settled play
            → Says self.new.cluster.world self.new.settled
            (W.contents writer.old) (W.contents writer.new)
            (event_said (run_setting M.next M.answers M.begin M.image before options.now)
            line play event.now) result }
    {
        worlds_grow::<M>();
        self.settled.settle_any(settled_by(event))?;
        self.print_effect(options, event, effect, writer)
    }

    /// Reports an event that did not take effect: prints that it was refused, or ends the run.
    #[inline(never)]
    fn report_refusal<W: Write>(&self, line: u32, fault: Fault, writer: &mut W) -> Result<(), Fault>
        ensures goes_on { (nodes : ℕ) (before : ClusterState M.Program) (event : EventOf)
            → HasParts nodes before → IsEventWithin nodes 8 8 event
            → IsStep M.next M.answers M.begin before event self.now.cluster (Err fault)
            → RunGoesOn nodes before self.now.cluster result }
        ensures printed { (options : RunOptionsOf) (before : ClusterState M.Program)
            (event : EventOf) (play : Play)
            → IsStep M.next M.answers M.begin before event self.now.cluster (Err fault)
            → Follows before.world self.now.settled play
            → Says self.now.cluster.world self.now.settled
            (W.contents writer.old) (W.contents writer.new)
            (event_said (run_setting M.next M.answers M.begin M.image before options)
            line play event) result }
    {
        if is_refusal(&fault) {
            return print(self.alloc, writer, RefusedLine { line, fault });
        }
        Err(fault)
    }

    /// Prints the effect of an event: usually only the reply that a task takes.
    #[inline(always)]
    fn print_effect<W: Write>(
        &self,
        options: &RunOptions<'_>,
        event: &Event,
        effect: &Effect,
        writer: &mut W,
    ) -> Result<(), Fault>
        requires { 1 ≤ effect.now.first }
        ensures printed { Writes (W.contents writer.old) (W.contents writer.new)
            (printed_text options.now self.now.cluster.world event.now effect.now) result }
        ensures fault { IfErr result IsRunFault }
    {
        if prints_more(options, event, effect) {
            self.print_whole_effect(options, event, effect, writer)
        } else {
            print_taken(self.alloc, options.tasks, effect.taken, writer)
        }
    }

    /// Prints the effect of an event: its packets, if they are printed, the line of a restart, a
    /// pending item that was dropped, and the reply that a task takes.
    #[inline(never)]
    fn print_whole_effect<W: Write>(
        &self,
        options: &RunOptions<'_>,
        event: &Event,
        effect: &Effect,
        writer: &mut W,
    ) -> Result<(), Fault>
        requires { 1 ≤ effect.now.first }
        ensures printed { Writes (W.contents writer.old) (W.contents writer.new)
            (printed_text options.now self.now.cluster.world event.now effect.now) result }
        ensures fault { IfErr result IsRunFault }
    {
        print_trace(self.alloc, &self.cluster, options, effect.first, writer)?;
        print_restart(self.alloc, event, effect.opened, writer)?;
        print_dropped(self.alloc, &self.cluster, event, effect.dropped, writer)?;
        print_taken(self.alloc, options.tasks, effect.taken, writer)
    }

    /// The messages from the first to the last count as settled, if all of them were sent.
    fn lose<W: Write>(
        &mut self,
        line: u32,
        first: u64,
        last: u64,
        writer: &mut W,
    ) -> Result<(), Fault>
        requires first { 1 ≤ first }
        requires last { last < 2 ^ 63 }
        ensures cluster { self.new.cluster ≡ self.old.cluster }
        ensures printed { (play : Play) → Follows self.old.cluster.world self.old.settled play
            → Says self.new.cluster.world self.new.settled
            (W.contents writer.old) (W.contents writer.new) (lost line play first last) result }
        ensures fault { IfErr result IsRunFault }
    {
        let sent = self.cluster.messages();
        if first > sent || last > sent {
            let fault = Fault::NoSuchMessage;
            return print(self.alloc, writer, RefusedLine { line, fault });
        }
        Ok(self.settled.settle_all(first, last)?)
    }

    /// Delivers the least message that is not settled, until none is left or n were delivered.
    fn drain<W: Write>(
        &mut self,
        options: &RunOptions<'_>,
        line: u32,
        writer: &mut W,
    ) -> Result<(), Fault>
        requires parts { HasParts options.now.config.nodes self.old.cluster }
        ensures parts { OnOk result (HasParts options.now.config.nodes self.new.cluster) }
        ensures setup { self.new.cluster.setup ≡ self.old.cluster.setup }
        ensures counts { OnOk result (self.new.cluster.failures ≡ self.old.cluster.failures) }
        ensures printed { (play : Play) → Follows self.old.cluster.world self.old.settled play
            → Says self.new.cluster.world self.new.settled
            (W.contents writer.old) (W.contents writer.new)
            (drained (run_setting M.next M.answers M.begin M.image self.old.cluster options.now)
            line options.now.most play) result }
        ensures fault { IfErr result (IsDeviceRunFault self.old.cluster.failures
            self.new.cluster.failures) }
    {
        let mut reported = Ok(no_effect(0));
        for delivered in 0..options.most {
            let message = self.settled.least();
            if message > self.cluster.messages() {
                return Ok(());
            }
            self.deliver(options, line, message, &mut reported, writer)?;
        }
        if self.settled.least() > self.cluster.messages() {
            return Ok(());
        }
        print(self.alloc, writer, DrainLimitLine { line })
    }

    /// Prints every node's state.
    fn show<W: Write>(&self, options: &RunOptions<'_>, writer: &mut W) -> Result<(), Fault>
        requires { HasParts options.now.config.nodes self.now.cluster }
        ensures shown { Writes (W.contents writer.old) (W.contents writer.new)
            (items_text (nodes_items
            (run_setting M.next M.answers M.begin M.image self.now.cluster options.now)
            self.now.cluster.world options.now.config.nodes)) result }
        ensures fault { IfErr result IsRunFault }
    {
        for place in 0..options.config.nodes {
            let node = NodeId::new(place + 1).unwrap();
            self.show_node(options, node, writer)?;
        }
        Ok(())
    }

    /// Prints a node's state.
    fn show_node<W: Write>(
        &self,
        options: &RunOptions<'_>,
        node: NodeId,
        writer: &mut W,
    ) -> Result<(), Fault>
        requires parts { HasParts options.now.config.nodes self.now.cluster }
        requires node { node ≤ options.now.config.nodes }
        ensures shown { Writes (W.contents writer.old) (W.contents writer.new)
            (items_text (part_items
            (run_setting M.next M.answers M.begin M.image self.now.cluster options.now)
            node (part_at self.now.cluster.world.nodes node))) result }
        ensures fault { IfErr result IsRunFault }
    {
        match self.cluster.applied(node) {
            Ok(applied) => {
                let line = NodeLine {
                    node,
                    state: NodeState::Applied(u32::from(applied)),
                };
                print(self.alloc, writer, line)?;
                let image = self.cluster.image(self.alloc, node)?;
                write_whole(writer, &image)
            }
            Err(_) => {
                let state = NodeState::Stopped;
                print(self.alloc, writer, NodeLine { node, state })
            }
        }
    }
}
