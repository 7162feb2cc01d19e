//! Which part of a run is drawn.

ghost use Rattle.std.specs.Prelude.{◌≡◌};
ghost use Rattle.rp_history.specs.Views.{colour_of, is_about, is_event_drawn, is_from, is_this_node, is_part, is_to, is_to_itself, is_within, named_ballot, names_position, shows, shows_all};

use crate::page::Form;
use rp_base::{Ballot, NodeId, Position};
use rp_codec::{Body, Packet, Party};

/// Which part of a run is drawn.
#[derive(Clone, Copy)]
pub struct View {
    /// Only what names this position is drawn, if there is one.
    pub position: Option<Position>,
    /// Packets from a node to itself are not drawn.
    pub hides_self: bool,
    /// The number of the first moment that is drawn, from 1, if one is chosen.
    pub from: Option<u32>,
    /// That of the last one.
    pub to: Option<u32>,
}

/// What is made of a run: which part of it, and whether that is drawn or made a page.
#[derive(Clone, Copy)]
pub struct ChartRequest {
    pub view: View,
    pub form: Form,
}

impl View {
    /// Whether a packet's arrow is drawn.
    pub fn shows(&self, packet: &Packet) -> bool
        ensures { result ≡ shows self.now packet.now }
    {
        if self.hides_self && is_to_itself(packet.from(), packet.to()) {
            return false;
        }
        self.is_about(packet.body())
    }

    /// Whether a packet names the chosen position; every packet does if none is chosen.
    fn is_about(&self, body: &Body) -> bool
        ensures { result ≡ is_about self.now.position body.now }
    {
        match self.position {
            Some(position) => names_position(body, position),
            None => true,
        }
    }

    /// Whether the moment of an event is drawn, also where no packet's arrow is, by the packet that
    /// it delivers or loses, or else sends first.
    pub fn shows_event(&self, packet: &Option<Packet>) -> bool
        ensures { result ≡ is_event_drawn self.now.position packet.now }
    {
        match packet {
            Some(packet) => self.is_about(packet.body()),
            None => self.shows_all(),
        }
    }

    /// Whether the moment of this number, from 1, is in the part that is drawn.
    pub fn is_within(&self, moment: u64) -> bool
        ensures { result ≡ is_within self.now moment }
    {
        self.is_from(moment) && self.is_to(moment)
    }

    /// Whether a moment is not before the first one that is drawn.
    fn is_from(&self, moment: u64) -> bool
        ensures { result ≡ is_from self.now.from moment }
    {
        match self.from {
            Some(first) => u64::from(first) <= moment,
            None => true,
        }
    }

    /// Whether a moment is not after the last one that is drawn.
    fn is_to(&self, moment: u64) -> bool
        ensures { result ≡ is_to self.now.to moment }
    {
        match self.to {
            Some(last) => moment <= u64::from(last),
            None => true,
        }
    }

    /// Whether the first or the last moment that is drawn is chosen.
    pub fn is_part(&self) -> bool
        ensures { result ≡ is_part self.now }
    {
        self.from.is_some() || self.to.is_some()
    }

    /// Whether events that name no position, as calls, are drawn.
    pub fn shows_all(&self) -> bool
        ensures { result ≡ shows_all self.now.position }
    {
        self.position.is_none()
    }
}

/// Whether a packet is from a node to itself.
fn is_to_itself(from: Party, to: Party) -> bool
    ensures { result ≡ is_to_itself from to }
{
    match from {
        Party::Node(sender) => is_node(to, sender),
        Party::Task(_) | Party::Audit => false,
    }
}

/// Whether a party is this node.
fn is_node(party: Party, node: NodeId) -> bool
    ensures { result ≡ is_this_node party node }
{
    match party {
        Party::Node(other) => other.get() == node.get(),
        Party::Task(_) | Party::Audit => false,
    }
}

/// Whether a packet names a position.
fn names_position(body: &Body, at: Position) -> bool
    ensures { result ≡ names_position body.now at }
{
    match body {
        Body::Prepare { position, .. }
        | Body::Promise { position, .. }
        | Body::Accept { position, .. }
        | Body::Accepted { position, .. }
        | Body::Decided { position, .. }
        | Body::Ask { position }
        | Body::Nack { position, .. } => position.get() == at.get(),
        Body::PrepareRange { range, .. } | Body::PromiseRange { range, .. } => range.covers(at),
        Body::Call { .. } | Body::Reply { .. } | Body::Report { .. } => false,
    }
}

/// The ballot that a packet names, if it names one.
fn named_ballot(body: &Body) -> Option<Ballot>
    ensures { result ≡ named_ballot body.now }
{
    match body {
        Body::Prepare { ballot, .. }
        | Body::Promise { ballot, .. }
        | Body::Accept { ballot, .. }
        | Body::Accepted { ballot, .. }
        | Body::Nack { ballot, .. }
        | Body::PrepareRange { ballot, .. }
        | Body::PromiseRange { ballot, .. } => Some(*ballot),
        Body::Call { .. }
        | Body::Decided { .. }
        | Body::Ask { .. }
        | Body::Reply { .. }
        | Body::Report { .. } => None,
    }
}

/// The colour of the ballot that a packet names: that of the node that owns it, 1 to 7, plus 7 in
/// every other round; 0 if the packet names none.
pub fn colour_of(body: &Body) -> u8
    ensures { result ≡ colour_of body.now }
{
    match named_ballot(body) {
        Some(ballot) if ballot.round() % 2 == 1 => ballot.owner().get(),
        Some(ballot) => ballot.owner().get() + 7,
        None => 0,
    }
}
