//! How a script is run and drawn, and what is drawn beside each moment.

ghost use Rattle.std.specs.Prelude.{◌≡◌, ◌≤◌, Some, IfOk, string_bytes};
ghost use Rattle.rp_chart.specs.Causes.{line_text};
ghost use Rattle.rp_chart.specs.ScriptHistory.{deck_of, details_as, drawn_run, event_label, line_label, lost_label, shown_label};
ghost use Rattle.rp_history.specs.Histories.{label_text};
ghost use Rattle.rp_history.specs.Views.{shows_all};
ghost use Rattle.rp_run.specs.Output.{names_of};

use crate::labels::{cause_words, effect_words, line_at, message_words};
use rp_base::{Fault, NodeId};
use rp_codec::{Packet, Party};
use rp_details::{EventPackets, details};
use rp_drawing::{Kind, Label, Lane, Mark, Words};
use rp_history::{Form, Happened, Stage, delivered_by};
use rp_machine::Machine;
use rp_model::Event;
use rp_run::RunOptions;
use rp_store::CutDevice;
use rp_world::Cluster;
use std::alloc::{AllocError, Global};

/// How a script is run and drawn.
#[derive(Clone, Copy)]
pub struct Scene<'a> {
    pub options: &'a RunOptions<'a>,
    /// The lines of the deck.
    pub deck: &'a [&'a [u8]],
    pub stage: Stage,
    pub lanes: &'a [Lane],
    /// What is made of the run.
    pub form: Form,
}

impl Scene<'_> {
    /// The label of an event that happened.
    pub fn event_label(
        &self,
        alloc: Global,
        line: u32,
        happened: &Happened,
        details: Vec<u8>,
    ) -> Result<Label, AllocError>
        ensures { IfOk result (λ label. label_text label
            ≡ event_label (names_of self.now.options.now.tasks.now)
            (line_text (deck_of self.now) line) self.now.stage happened.now details.items) }
    {
        let text = line_at(self.deck, line);
        let cause = cause_words(alloc, self.options.tasks, text, happened)?;
        let effect = effect_words(alloc, happened)?;
        Ok(happened.label(&self.stage, cause, effect, details))
    }

    /// What a page says of an event, by the cluster after it; nothing for a drawing.
    pub fn details<M: Machine, D: CutDevice>(
        &self,
        alloc: Global,
        cluster: &Cluster<M, D>,
        event: &Event,
        first: u64,
    ) -> Result<Vec<u8>, Fault>
        requires first { 1 ≤ first }
        requires nodes { cluster.now.setup.config.nodes ≡ self.now.options.now.config.nodes }
        ensures { IfOk result (λ text. text.items
            ≡ details_as (drawn_run M.next M.answers M.begin M.image cluster.now self.now)
            self.now.form event.now first cluster.now.world) }
    {
        match self.form {
            Form::Drawing => Ok(Vec::new(alloc)),
            Form::Page | Form::Calls => {
                let packets = EventPackets {
                    tasks: self.stage.tasks,
                    delivered: delivered_by(event),
                    first,
                };
                details(alloc, cluster, self.options, &packets)
            }
        }
    }

    /// The label of a line of the deck in which nothing happened.
    pub fn line_label(
        &self,
        alloc: Global,
        line: u32,
        effect: Words,
        is_drawn: bool,
    ) -> Result<Label, AllocError>
        ensures { IfOk result (λ label. label_text label
            ≡ line_label (line_text (deck_of self.now) line) (string_bytes effect.text) is_drawn) }
    {
        Ok(Label {
            cause: Words::fitted(alloc, line_at(self.deck, line))?,
            effect,
            mark: None,
            is_drawn,
            details: Vec::new(alloc),
        })
    }

    /// The label of a message that is lost.
    pub fn lost_label(
        &self,
        alloc: Global,
        number: u64,
        packet: Packet,
    ) -> Result<Label, AllocError>
        ensures { IfOk result (λ label. label_text label
            ≡ lost_label (names_of self.now.options.now.tasks.now) self.now.stage number
            (Some packet)) }
    {
        Ok(Label {
            cause: message_words(alloc, self.options.tasks, number, &packet)?,
            effect: Words::whole(alloc, b"lost".as_slice())?,
            mark: None,
            is_drawn: self.stage.view.shows_event(&Some(packet)),
            details: Vec::new(alloc),
        })
    }

    /// The label of a node that is shown, with these words.
    pub fn shown_label(&self, alloc: Global, node: NodeId, cause: Words, effect: Words) -> Label
        ensures { label_text result ≡ shown_label self.now.stage node (string_bytes cause.text)
            (string_bytes effect.text) }
    {
        Label {
            cause,
            effect,
            mark: Some(Mark {
                lane: self.stage.lane_of(Party::Node(node)),
                colour: 0,
                kind: Kind::State,
            }),
            is_drawn: true,
            details: Vec::new(alloc),
        }
    }

    /// Whether a line in which nothing happened is drawn.
    pub fn shows_all(&self) -> bool
        ensures { result ≡ shows_all self.now.stage.view.position }
    {
        self.stage.view.shows_all()
    }
}
