//! The chart of the run so far.

ghost use Rattle.std.specs.Prelude.{◌≡◌, ◌≤◌, ◌+◌, List, [], ◌∷◌, ◌++◌, length, drop, map, option_map, IfErr, IfOk, OnOk, string_bytes};
ghost use Rattle.rp_history.specs.Histories.{ending_by, ending_within, EventHappened, Happening, HasMoment, IsDrawable, IsDrawnIfShort, is_next_within, is_too_long, IsSketchOf, label_text, label_within, lane_text, loss_of, lost_of};
ghost use Rattle.rp_drawing.specs.Ways.{IsEndingWithin};
ghost use Rattle.rp_model.specs.Answers.{ResultsIn};
ghost use Rattle.rp_model.specs.Effect.{Setting};
ghost use Rattle.rp_model.specs.Events.{event_of};
ghost use Rattle.rp_model.specs.World.{World, opening_world};
ghost use Rattle.rp_model.specs.declared.event.Event.{Event};

use crate::stage::Stage;
use rp_base::Fault;
use rp_codec::Packet;
use rp_drawing::{End, Ending, Label, Lane, Moment, Sketch, draw};
use rp_machine::Machine;
use rp_model::worlds_grow;
use std::alloc::Global;

/// The most lines of the drawing of a whole run.
const MOST_LINES: u64 = 2_000;

/// The chart of the run so far: its moments, and the ways of its messages.
#[derive(Drop)]
pub struct Chart {
    pub stage: Stage,
    pub sketch: Sketch,
}

impl Chart {
    /// The chart of the opening world: nothing has happened.
    pub fn new<M: Machine>(alloc: Global, stage: Stage) -> Self
        ensures stage { result.stage ≡ stage }
        ensures drawable { IsDrawable result.sketch }
        ensures opening { (s : Setting M) → IsSketchOf s result.stage result.sketch []
            (opening_world s.config.nodes) }
        ensures lines { result.sketch.lines ≡ 0 }
    {
        Chart {
            stage,
            sketch: Sketch::new(alloc),
        }
    }

    /// Adds a moment in which an event happened: these packets are sent, and the way of this
    /// message ends. Outside the part that is drawn none of this is. `OutOfMemory`: then the chart
    /// may lack the moment.
    pub fn happen<M: Machine>(
        &mut self,
        alloc: Global,
        packets: &[Packet],
        ending: Option<Ending>,
        label: Label,
    ) -> Result<(), Fault>
        requires drawable { IsDrawable self.old.sketch }
        requires ending { IsEndingWithin (length self.old.sketch.ways.items) ending }
        ensures stage { self.new.stage ≡ self.old.stage }
        ensures drawable { OnOk result (IsDrawable self.new.sketch) }
        // claim (moment, happened): An event that happened is the last moment of the chart of its
        //   run, under its label, and the last thing that happened in its history: the messages that
        //   it sent begin their ways there, and the one that it delivered ends there, taken or, at a
        //   stopped node, not heard. Outside the part that is drawn, the moment has no line, the
        //   messages that it sends are not drawn, and no way ends in it
        ensures moment { OnOk result (HasMoment self.old.stage self.old.sketch self.new.sketch
            packets.now ending label) }
        ensures happened { (s : Setting M) (so_far : List Happening) (before after : World)
            (event : Event) → IsSketchOf s self.old.stage self.old.sketch so_far before
            → ResultsIn s before (event_of event) after
            → packets.now ≡ drop (length before.sent) after.sent
            → ending ≡ ending_by before event
            → OnOk result (IsSketchOf s self.new.stage self.new.sketch
            (so_far ++ record { item = EventHappened event; label = label_text label } ∷ [])
            after) }
        ensures count { OnOk result (length self.new.sketch.ways.items
            ≡ length self.old.sketch.ways.items + length packets.now) }
        ensures fault { IfErr result (λ fault. fault ≡ Fault.OutOfMemory) }
    {
        worlds_grow::<M>();
        let is_within = self.is_next_within();
        let moment = Moment {
            before: self.messages(),
            sends: self.stage.sends_of(alloc, packets, is_within)?,
            ending: ending_within(is_within, ending),
        };
        self.sketch.add(moment, label_within(is_within, label))
    }

    /// Adds a moment in which nothing happened, except that a message may have been lost.
    /// `OutOfMemory`: then the chart may lack the moment.
    pub fn stay<M: Machine>(
        &mut self,
        alloc: Global,
        lost: Option<u64>,
        label: Label,
    ) -> Result<(), Fault>
        requires drawable { IsDrawable self.old.sketch }
        requires lost { IsEndingWithin (length self.old.sketch.ways.items) (lost_of lost) }
        ensures stage { self.new.stage ≡ self.old.stage }
        ensures drawable { OnOk result (IsDrawable self.new.sketch) }
        // claim (moment, stays): A line that was refused, a message that was lost and a node that
        //   was shown is the last moment of the chart, under its label, in which the world stays. The
        //   way of a message ends there exactly if it is the one that was lost, and its loss is then
        //   the last thing that happened in the history; else nothing is
        ensures moment { OnOk result (HasMoment self.old.stage self.old.sketch self.new.sketch
            [] (lost_of lost) label) }
        ensures stays { (s : Setting M) (so_far : List Happening) (world : World)
            → IsSketchOf s self.old.stage self.old.sketch so_far world
            → OnOk result (IsSketchOf s self.new.stage self.new.sketch
            (so_far ++ record { item = loss_of lost; label = label_text label } ∷ []) world) }
        ensures count { OnOk result (length self.new.sketch.ways.items
            ≡ length self.old.sketch.ways.items) }
        ensures fault { IfErr result (λ fault. fault ≡ Fault.OutOfMemory) }
    {
        let is_within = self.is_next_within();
        let moment = Moment {
            before: self.messages(),
            sends: Vec::new(alloc),
            ending: ending_within(is_within, lost_of(lost)),
        };
        self.sketch.add(moment, label_within(is_within, label))
    }

    /// How many lines the drawing has.
    fn lines(&self) -> u64
        ensures { result ≡ self.now.sketch.lines }
    {
        self.sketch.lines
    }

    /// Whether the next moment is in the part that is drawn.
    fn is_next_within(&self) -> bool
        ensures { result ≡ is_next_within self.now.stage self.now.sketch }
    {
        self.stage.view.is_within(self.sketch.rows.len() as u64 + 1)
    }

    /// How many messages were sent.
    fn messages(&self) -> u64
        ensures { result ≡ length self.now.sketch.ways.items }
    {
        self.sketch.ways.len() as u64
    }

    /// The drawing of the run; `None` if it is too long: if it has more than 2,000 lines and no part
    /// of the run is chosen. `OutOfMemory`.
    pub fn draw<M: Machine>(&self, alloc: Global, lanes: &[Lane]) -> Result<Option<String>, Fault>
        requires drawable { IsDrawable self.now.sketch }
        requires lanes { length lanes.now ≤ 16 }
        // claim: The arrows of a chart are the messages of its run's history, in which just that
        //   happened which the chart was given, in order: each from its sender's lane, where it was
        //   sent, down to its receiver's, where it was taken, not heard or lost; none goes upwards,
        //   there is no other arrow, and the drawing is short. It is to the byte the page of the
        //   chart, whose moments have the labels that they were given, under the lanes that were
        //   given. There is none exactly if it is too long. Only `OutOfMemory` is returned in its place
        ensures drawn { (s : Setting M) (happened : List Happening) (last : World)
            → IsSketchOf s self.now.stage self.now.sketch happened last
            → IfOk result (λ page. IsDrawnIfShort s self.now.stage (map lane_text lanes.now)
            happened last (option_map string_bytes page)) }
        ensures fault { IfErr result (λ fault. fault ≡ Fault.OutOfMemory) }
    {
        if self.is_too_long() {
            return Ok(None);
        }
        Ok(Some(draw(alloc, &self.sketch, lanes)?))
    }

    /// Whether the drawing has more than 2,000 lines, and no part of the run is chosen.
    pub fn is_too_long(&self) -> bool
        ensures { result ≡ is_too_long self.now.stage self.now.sketch }
    {
        !self.stage.view.is_part() && self.lines() > MOST_LINES
    }
}

/// How the way of a lost message ends, if one is lost.
fn lost_of(message: Option<u64>) -> Option<Ending>
    ensures { result ≡ lost_of message }
{
    match message {
        Some(message) => Some(Ending {
            message,
            end: End::Lost,
        }),
        None => None,
    }
}

/// The way that ends in a moment, if one does: none outside the part that is drawn.
fn ending_within(is_within: bool, ending: Option<Ending>) -> Option<Ending>
    ensures { result ≡ ending_within is_within ending }
{
    if is_within { ending } else { None }
}

/// The label of a moment, which is not drawn outside the part that is drawn.
fn label_within(is_within: bool, label: Label) -> Label
    ensures { result ≡ label_within is_within label }
{
    Label {
        is_drawn: is_within && label.is_drawn,
        ..label
    }
}
