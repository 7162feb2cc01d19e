//! What happened in an event: its effect, and its node's state before and after it.

ghost use Rattle.std.specs.Prelude.{◌≡◌};
ghost use Rattle.rp_history.specs.Histories.{delivered_by};
ghost use Rattle.rp_history.specs.Views.{actor_of, has_written, is_unheard, mark_kind_of, label_of, mark_of, packet_colour};

use crate::stage::Stage;
use crate::view::colour_of;
use rp_codec::{Packet, Party};
use rp_drawing::{Kind, Label, Mark, Words};
use rp_model::{Effect, Event, Step};

/// What is noted of a node before an event and after it.
#[derive(Clone, Copy)]
pub struct NodeState {
    /// How many bytes its device holds.
    pub stored: u64,
    /// How many actions it has applied, 0 if it is stopped.
    pub applied: u16,
    pub is_stopped: bool,
}

/// An event that happened, its effect, who acted, and that node's state before and after it. The
/// packet is the one that it delivered, or else the first one that it sent.
#[derive(Drop)]
pub struct Happened {
    pub event: Event,
    pub effect: Effect,
    pub actor: Option<Party>,
    pub before: NodeState,
    pub after: NodeState,
    pub packet: Option<Packet>,
}

/// The number of the message that an event delivers, whole or cut.
pub fn delivered_by(event: &Event) -> Option<u64>
    ensures { result ≡ delivered_by event.now }
{
    match *event {
        Event::Node(Step::Deliver(number))
        | Event::Cut {
            step: Step::Deliver(number),
            ..
        } => Some(number),
        _ => None,
    }
}

/// Who acts in an event; the receiver is that of the packet that it delivers, if it delivers one.
pub fn actor_of(event: &Event, receiver: Option<Party>) -> Option<Party>
    ensures { result ≡ actor_of event.now receiver }
{
    match *event {
        Event::Submit { task, .. } | Event::Again { task, .. } => Some(Party::Task(task)),
        Event::Stop(node) | Event::Restart(node) => Some(Party::Node(node)),
        Event::Node(step) | Event::Cut { step, .. } => match step {
            Step::Deliver(_) => receiver,
            Step::Lead { node, .. }
            | Step::LeadRange { node, .. }
            | Step::Interrupt { node, .. }
            | Step::Tick { node, .. }
            | Step::Report { node, .. }
            | Step::Ask { node, .. } => Some(Party::Node(node)),
        },
    }
}

impl Happened {
    /// Whether the event's node wrote a record, or a part of one.
    pub fn has_written(&self) -> bool
        ensures { result ≡ has_written self.now }
    {
        self.after.stored > self.before.stored
    }

    /// Whether a packet was delivered to a stopped node, which does not hear it.
    pub fn is_unheard(&self) -> bool
        ensures { result ≡ is_unheard self.now }
    {
        match self.event {
            Event::Node(_) => self.before.is_stopped,
            _ => false,
        }
    }

    /// The label that is drawn beside the ways of packets, with the words for the event and for
    /// what its actor then did, and with what a page says of it.
    pub fn label(&self, stage: &Stage, cause: Words, effect: Words, details: Vec<u8>) -> Label
        // claim: The label of an event has the words that it is given, and its mark is on the lane of
        //   who acted, in the colour of its packet's ballot. The mark is that of a record exactly if more
        //   bytes of the device are noted after a node's step than before it, and that of a torn one
        //   exactly if they are after a step within which the node was stopped. A packet that a stopped
        //   node does not hear and a restart of a running node have no mark. The label is drawn, also
        //   where no arrow is, exactly if no position is chosen or its packet names the one that is
        ensures { result ≡ label_of stage.now self.now cause effect details }
    {
        Label {
            cause,
            effect,
            mark: self.mark(stage),
            is_drawn: stage.view.shows_event(&self.packet),
            details,
        }
    }

    /// The mark of the event, if it has one.
    fn mark(&self, stage: &Stage) -> Option<Mark>
        ensures { result ≡ mark_of stage.now self.now }
    {
        let actor = self.actor?;
        let kind = self.kind()?;
        Some(Mark {
            lane: stage.lane_of(actor),
            colour: self.colour(),
            kind,
        })
    }

    /// The colour of the packet's ballot, 0 if there is no packet.
    fn colour(&self) -> u8
        ensures { result ≡ packet_colour self.now.packet }
    {
        match &self.packet {
            Some(packet) => colour_of(packet.body()),
            None => 0,
        }
    }

    /// The kind of the mark, or `None` if the event has no mark: nobody acts where a packet is not
    /// heard, or where a node that is to start again is running already.
    fn kind(&self) -> Option<Kind>
        ensures { result ≡ mark_kind_of self.now self.now.event }
    {
        match self.event {
            Event::Submit { .. } | Event::Again { .. } => Some(Kind::Act),
            Event::Node(_) if self.is_unheard() => None,
            Event::Node(_) if self.has_written() => Some(Kind::Record),
            Event::Node(_) => Some(Kind::Act),
            Event::Cut { .. } if self.has_written() => Some(Kind::Torn),
            Event::Cut { .. } | Event::Stop(_) => Some(Kind::Stop),
            Event::Restart(_) if self.effect.opened.is_some() => Some(Kind::Restart),
            Event::Restart(_) => None,
        }
    }
}
