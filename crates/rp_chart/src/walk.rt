//! Runs the lines of a script, and charts what happens from its events and their effects.

ghost use Rattle.std.specs.Prelude.{◌≡◌, ◌<◌, ◌≤◌, ◌^◌, false, [], ◌∷◌, length, map, option_map, All, IfOk, OnOk, string_bytes};
ghost use Rattle.rp_chart.specs.ScriptCharts.{Charts, ChartsPlay, HasWays, IsSettledAlike, Reaches};
ghost use Rattle.rp_chart.specs.ScriptHistory.{command_happens, drain_ended, drain_happens, drawn_run, event_happens, lose_happens, message_lost, lost_nothing, node_shown, nodes_shown, refused, script_happens, unsettled_in};
ghost use Rattle.rp_run.specs.rp_deck.specs.Script.{FitsIn, IsEventWithin};
ghost use Rattle.rp_history.specs.rp_drawing.specs.Ways.{IsEndingWithin};
ghost use Rattle.rp_history.specs.Histories.{label_text, lane_text, loss_of, lost_of};
ghost use Rattle.rp_history.specs.Pages.{IsDrawnAs};
ghost use Rattle.rp_run.specs.Output.{event_said, lost, drained, command_said, run_said};
ghost use Rattle.rp_run.specs.Runs.{run_setting, opening_cluster, HasParts};
ghost use Rattle.rp_run.specs.Settled.{is_settled};

use crate::labels::{applied_words, image_words, refusal_words, stopped_words};
use crate::prospect::{happened_after, packets_from, prospect_of};
use crate::scene::Scene;
use rp_base::{Fault, NodeId};
use rp_deck::{Command, Line};
use rp_drawing::{Label, Words};
use rp_history::{Chart, draw_as};
use rp_machine::Machine;
use rp_model::{Event, Step, worlds_grow};
use rp_output::is_refusal;
use rp_run::{Settled, sent_packet, settled_by};
use rp_store::CutDevice;
use rp_world::Cluster;
use std::alloc::Global;

/// The drawing of the lines of a script, over a cluster of new devices, or its page; `None` if the
/// drawing has more than 2,000 lines and no part of the run is chosen.
pub fn draw_lines<M: Machine, D: CutDevice>(
    alloc: Global,
    scene: &Scene<'_>,
    program: M::Program,
    devices: Vec<D>,
) -> Result<Option<String>, Fault>
    requires devices { length devices.items ≡ scene.now.options.now.config.nodes }
    requires empty { All (λ d. (D.disk d).contents ≡ []) devices.items }
    requires lines { All (λ line. FitsIn scene.now.options.now.config.nodes 8 8 line.command)
        scene.now.options.now.lines.now }
    requires lanes { length scene.now.lanes.now ≤ 16 }
    // claim: The drawing of a script is to the byte the page of a sketch of its run under the lanes
    //   that are given. Its arrows, and it has no other, are the messages of the run, each from where it
    //   was sent down to where it was settled, in the history in which its lines happen in order: each
    //   event of a line that is not refused, each delivery of a `drain`, and the loss of each message that
    //   a line loses and that was not settled. No other message is drawn as lost. Each moment of that
    //   history has the texts and the mark that the run gives it: what was delivered or the line of the
    //   deck, and what the actor did, why a line was refused, that a line lost nothing, or the state of a
    //   node. There is none exactly if it is too long. A page has this drawing, and the section of
    //   each event says the packet that it delivered and those that it sent, and the state of each
    //   node and task, as `rp_details` says it of the world after the event
    ensures drawing { IfOk result (λ page. let options = scene.now.options.now in
        let d = drawn_run M.next M.answers M.begin M.image
        (opening_cluster options.config program) scene.now in
        IsDrawnAs scene.now.form d.run.setting scene.now.stage (map lane_text scene.now.lanes.now)
        (script_happens d options.most options.lines.now)
        (run_said d.run options.most options.lines.now).play.world
        (option_map string_bytes page)) }
{
    let mut walk = Walk {
        alloc,
        cluster: Cluster::<M, D>::new(alloc, scene.options.config, program, devices)?,
        settled: Settled::new(alloc),
        chart: Chart::new::<M>(alloc, scene.stage),
    };
    for line in scene.options.lines {
        walk.take(scene, line)?;
    }
    draw_as::<M>(alloc, &walk.chart, scene.lanes, scene.form)
}

/// A run of a script, and the chart of what happened in it.
struct Walk<M: Machine, D: CutDevice> {
    alloc: Global,
    cluster: Cluster<M, D>,
    settled: Settled,
    chart: Chart,
}

// Not derived, so that to drop it is one step of a proof and not one for each of its parts.
impl<M: Machine, D: CutDevice> Drop for Walk<M, D> {
    fn drop(self) {
        let Walk {
            alloc: _,
            cluster: _,
            settled: _,
            chart: _,
        } = self;
    }
}

impl<M: Machine, D: CutDevice> Walk<M, D> {
    /// Does what a line asks for.
    fn take(&mut self, scene: &Scene<'_>, line: &Line) -> Result<(), Fault>
        requires parts { HasParts scene.now.options.now.config.nodes self.old.cluster }
        requires line { FitsIn scene.now.options.now.config.nodes 8 8 line.now.command }
        requires ways { HasWays self.old.cluster self.old.chart }
        ensures parts { OnOk result (HasParts scene.now.options.now.config.nodes
            self.new.cluster) }
        ensures setup { self.new.cluster.setup ≡ self.old.cluster.setup }
        ensures stage { self.new.chart.stage ≡ self.old.chart.stage }
        ensures reached { let options = scene.now.options.now in
            let s = run_setting M.next M.answers M.begin M.image self.old.cluster options in
            Reaches self.old self.new result
            (λ play. (command_said s options.most line.now.number play line.now.command).play) }
        ensures ways { OnOk result (HasWays self.new.cluster self.new.chart) }
        ensures charted { let options = scene.now.options.now in
            let d = drawn_run M.next M.answers M.begin M.image self.old.cluster scene.now in
            ChartsPlay M.next M.answers M.begin self.old self.new result
            (λ play. command_happens d options.most line.now.number play line.now.command) }
    {
        let number = line.number;
        match line.command {
            Command::Take(event) => self.step(scene, number, &event),
            Command::Lose { first, last } => self.lose(scene, number, first, last),
            Command::Drain => self.drain(scene, number),
            Command::Show => self.show(scene),
        }
    }

    /// Takes a step, settles its messages and charts its effect; or charts that it was refused.
    fn step(&mut self, scene: &Scene<'_>, line: u32, event: &Event) -> Result<(), Fault>
        requires parts { HasParts scene.now.options.now.config.nodes self.old.cluster }
        requires event { IsEventWithin scene.now.options.now.config.nodes 8 8 event.now }
        requires ways { HasWays self.old.cluster self.old.chart }
        ensures parts { OnOk result (HasParts scene.now.options.now.config.nodes
            self.new.cluster) }
        ensures setup { self.new.cluster.setup ≡ self.old.cluster.setup }
        ensures stage { self.new.chart.stage ≡ self.old.chart.stage }
        ensures reached { let options = scene.now.options.now in
            let s = run_setting M.next M.answers M.begin M.image self.old.cluster options in
            Reaches self.old self.new result (λ play. (event_said s line play event.now).play) }
        ensures ways { OnOk result (HasWays self.new.cluster self.new.chart) }
        ensures charted { let d = drawn_run M.next M.answers M.begin M.image self.old.cluster scene.now in
            ChartsPlay M.next M.answers M.begin self.old self.new result
            (λ play. event_happens d line play event.now ∷ []) }
    {
        worlds_grow::<M>();
        let prospect = prospect_of(self.alloc, &self.cluster, event)?;
        match self.cluster.step(self.alloc, event) {
            Ok(effect) => {
                self.settled.settle_any(settled_by(event))?;
                let happened = happened_after(
                    self.alloc,
                    &self.cluster,
                    &prospect,
                    event,
                    &effect,
                )?;
                let details = scene.details(self.alloc, &self.cluster, event, effect.first)?;
                let label = scene.event_label(self.alloc, line, &happened, details)?;
                let packets = packets_from(self.alloc, &self.cluster, effect.first)?;
                self.chart
                    .happen::<M>(self.alloc, &packets, prospect.ending, label)
            }
            Err(fault) if is_refusal(&fault) => self.refuse(scene, line, fault),
            Err(fault) => Err(fault),
        }
    }

    /// Charts that a line was refused.
    fn refuse(&mut self, scene: &Scene<'_>, line: u32, fault: Fault) -> Result<(), Fault>
        requires ways { HasWays self.old.cluster self.old.chart }
        ensures cluster { self.new.cluster ≡ self.old.cluster }
        ensures settled { self.new.settled ≡ self.old.settled }
        ensures stage { self.new.chart.stage ≡ self.old.chart.stage }
        ensures ways { OnOk result (HasWays self.new.cluster self.new.chart) }
        ensures charted { let d = drawn_run M.next M.answers M.begin M.image self.old.cluster scene.now in
            Charts M.next M.answers M.begin self.old self.new result (refused d line fault ∷ []) }
    {
        let words = refusal_words(self.alloc, &fault)?;
        let label = scene.line_label(self.alloc, line, words, scene.shows_all())?;
        self.stay(None, label)
    }

    /// Charts a moment in which nothing happens, except that a message may be lost.
    fn stay(&mut self, lost: Option<u64>, label: Label) -> Result<(), Fault>
        requires lost { IsEndingWithin (length self.old.cluster.world.sent) (lost_of lost) }
        requires ways { HasWays self.old.cluster self.old.chart }
        ensures cluster { self.new.cluster ≡ self.old.cluster }
        ensures settled { self.new.settled ≡ self.old.settled }
        ensures stage { self.new.chart.stage ≡ self.old.chart.stage }
        ensures ways { OnOk result (HasWays self.new.cluster self.new.chart) }
        ensures charted { Charts M.next M.answers M.begin self.old self.new result
            (record { item = loss_of lost; label = label_text label } ∷ []) }
    {
        self.chart.stay::<M>(self.alloc, lost, label)
    }

    /// The messages from the first to the last count as settled, if all of them were sent. Those
    /// that were not settled before are lost.
    fn lose(&mut self, scene: &Scene<'_>, line: u32, first: u64, last: u64) -> Result<(), Fault>
        requires first { 1 ≤ first }
        requires last { last < 2 ^ 63 }
        requires ways { HasWays self.old.cluster self.old.chart }
        ensures cluster { self.new.cluster ≡ self.old.cluster }
        ensures stage { self.new.chart.stage ≡ self.old.chart.stage }
        ensures reached { Reaches self.old self.new result
            (λ play. (lost line play first last).play) }
        ensures ways { OnOk result (HasWays self.new.cluster self.new.chart) }
        ensures charted { let d = drawn_run M.next M.answers M.begin M.image self.old.cluster scene.now in
            ChartsPlay M.next M.answers M.begin self.old self.new result
            (λ play. lose_happens d line play first last) }
    {
        let sent = self.cluster.messages();
        if first > sent || last > sent {
            return self.refuse(scene, line, Fault::NoSuchMessage);
        }
        let least = self.settled.next_unsettled(first);
        if least > last {
            return self.lose_nothing(scene, line);
        }
        self.lose_from(scene, least, last)?;
        Ok(self.settled.settle_all(first, last)?)
    }

    /// Charts that the messages are lost that are not settled, from one of them to the last.
    fn lose_from(&mut self, scene: &Scene<'_>, first: u64, last: u64) -> Result<(), Fault>
        requires first { 1 ≤ first }
        requires unsettled { is_settled self.old.settled first ≡ false }
        requires within { first ≤ last }
        requires sent { last ≤ length self.old.cluster.world.sent }
        requires ways { HasWays self.old.cluster self.old.chart }
        ensures cluster { self.new.cluster ≡ self.old.cluster }
        ensures settled { IsSettledAlike self.old.settled self.new.settled }
        ensures stage { self.new.chart.stage ≡ self.old.chart.stage }
        ensures ways { OnOk result (HasWays self.new.cluster self.new.chart) }
        ensures charted { let d = drawn_run M.next M.answers M.begin M.image self.old.cluster scene.now in
            ChartsPlay M.next M.answers M.begin self.old self.new result
            (λ play. map (message_lost d play.world) (unsettled_in play first last)) }
    {
        let mut number = first;
        while number <= last {
            self.lose_one(scene, number)?;
            number = self.settled.next_unsettled(number + 1);
        }
        Ok(())
    }

    /// Charts that a message is lost.
    fn lose_one(&mut self, scene: &Scene<'_>, number: u64) -> Result<(), Fault>
        requires from_one { 1 ≤ number }
        requires sent { number ≤ length self.old.cluster.world.sent }
        requires ways { HasWays self.old.cluster self.old.chart }
        ensures cluster { self.new.cluster ≡ self.old.cluster }
        ensures settled { self.new.settled ≡ self.old.settled }
        ensures stage { self.new.chart.stage ≡ self.old.chart.stage }
        ensures ways { OnOk result (HasWays self.new.cluster self.new.chart) }
        ensures charted { let d = drawn_run M.next M.answers M.begin M.image self.old.cluster scene.now in
            Charts M.next M.answers M.begin self.old self.new result
            (message_lost d self.old.cluster.world number ∷ []) }
    {
        let Some(packet) = sent_packet(self.alloc, &self.cluster, number)? else {
            return Ok(());
        };
        let label = scene.lost_label(self.alloc, number, packet)?;
        self.stay(Some(number), label)
    }

    /// Charts that a line lost nothing.
    fn lose_nothing(&mut self, scene: &Scene<'_>, line: u32) -> Result<(), Fault>
        requires ways { HasWays self.old.cluster self.old.chart }
        ensures cluster { self.new.cluster ≡ self.old.cluster }
        ensures settled { self.new.settled ≡ self.old.settled }
        ensures stage { self.new.chart.stage ≡ self.old.chart.stage }
        ensures ways { OnOk result (HasWays self.new.cluster self.new.chart) }
        ensures charted { let d = drawn_run M.next M.answers M.begin M.image self.old.cluster scene.now in
            Charts M.next M.answers M.begin self.old self.new result (lost_nothing d line ∷ []) }
    {
        let effect = Words::whole(self.alloc, b"lost nothing".as_slice())?;
        let label = scene.line_label(self.alloc, line, effect, scene.shows_all())?;
        self.stay(None, label)
    }

    /// Delivers the least message that is not settled, until none is left or n were delivered.
    fn drain(&mut self, scene: &Scene<'_>, line: u32) -> Result<(), Fault>
        requires parts { HasParts scene.now.options.now.config.nodes self.old.cluster }
        requires ways { HasWays self.old.cluster self.old.chart }
        ensures parts { OnOk result (HasParts scene.now.options.now.config.nodes
            self.new.cluster) }
        ensures setup { self.new.cluster.setup ≡ self.old.cluster.setup }
        ensures stage { self.new.chart.stage ≡ self.old.chart.stage }
        ensures reached { let options = scene.now.options.now in
            let s = run_setting M.next M.answers M.begin M.image self.old.cluster options in
            Reaches self.old self.new result (λ play. (drained s line options.most play).play) }
        ensures ways { OnOk result (HasWays self.new.cluster self.new.chart) }
        ensures charted { let options = scene.now.options.now in
            let d = drawn_run M.next M.answers M.begin M.image self.old.cluster scene.now in
            ChartsPlay M.next M.answers M.begin self.old self.new result
            (λ play. drain_happens d line options.most play) }
    {
        for delivered in 0..scene.options.most {
            let message = self.settled.least();
            if message > self.cluster.messages() {
                return Ok(());
            }
            let event = Event::Node(Step::Deliver(message));
            self.step(scene, line, &event)?;
        }
        if self.settled.least() > self.cluster.messages() {
            return Ok(());
        }
        self.end_drain(scene, line)
    }

    /// Charts that a `drain` ended at its limit.
    fn end_drain(&mut self, scene: &Scene<'_>, line: u32) -> Result<(), Fault>
        requires ways { HasWays self.old.cluster self.old.chart }
        ensures cluster { self.new.cluster ≡ self.old.cluster }
        ensures settled { self.new.settled ≡ self.old.settled }
        ensures stage { self.new.chart.stage ≡ self.old.chart.stage }
        ensures ways { OnOk result (HasWays self.new.cluster self.new.chart) }
        ensures charted { let d = drawn_run M.next M.answers M.begin M.image self.old.cluster scene.now in
            Charts M.next M.answers M.begin self.old self.new result (drain_ended d line ∷ []) }
    {
        let effect = Words::whole(self.alloc, b"drain limit".as_slice())?;
        let label = scene.line_label(self.alloc, line, effect, true)?;
        self.stay(None, label)
    }

    /// Charts every node's state.
    fn show(&mut self, scene: &Scene<'_>) -> Result<(), Fault>
        requires ways { HasWays self.old.cluster self.old.chart }
        ensures cluster { self.new.cluster ≡ self.old.cluster }
        ensures settled { self.new.settled ≡ self.old.settled }
        ensures stage { self.new.chart.stage ≡ self.old.chart.stage }
        ensures ways { OnOk result (HasWays self.new.cluster self.new.chart) }
        ensures charted { let d = drawn_run M.next M.answers M.begin M.image self.old.cluster scene.now in
            Charts M.next M.answers M.begin self.old self.new result
            (nodes_shown d self.old.cluster.world scene.now.options.now.config.nodes) }
    {
        for place in 0..scene.options.config.nodes {
            let node = NodeId::new(place + 1).unwrap();
            self.show_node(scene, node)?;
        }
        Ok(())
    }

    /// Charts a node's state.
    fn show_node(&mut self, scene: &Scene<'_>, node: NodeId) -> Result<(), Fault>
        requires ways { HasWays self.old.cluster self.old.chart }
        ensures cluster { self.new.cluster ≡ self.old.cluster }
        ensures settled { self.new.settled ≡ self.old.settled }
        ensures stage { self.new.chart.stage ≡ self.old.chart.stage }
        ensures ways { OnOk result (HasWays self.new.cluster self.new.chart) }
        ensures charted { let d = drawn_run M.next M.answers M.begin M.image self.old.cluster scene.now in
            Charts M.next M.answers M.begin self.old self.new result
            (node_shown d self.old.cluster.world node ∷ []) }
    {
        let (cause, effect) = match self.cluster.applied(node) {
            Ok(applied) => {
                let image = self.cluster.image(self.alloc, node)?;
                (
                    applied_words(self.alloc, node, applied)?,
                    image_words(self.alloc, &image)?,
                )
            }
            Err(_) => (stopped_words(self.alloc, node)?, Words::none(self.alloc)),
        };
        self.stay(None, scene.shown_label(self.alloc, node, cause, effect))
    }
}
