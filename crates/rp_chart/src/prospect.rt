//! What is known before an event, and what happened in it.

ghost use Rattle.std.specs.Prelude.{◌≡◌, ◌+◌, ◌-◌, ◌≤◌, length, drop, IfOk};
ghost use Rattle.rp_chart.specs.Prospects.{actor_at, actor_state, node_state, packet_number, party_state, receiver_at};
ghost use Rattle.rp_history.specs.Histories.{delivered_by, ending_by, end_at};
ghost use Rattle.rp_run.specs.rp_model.specs.World.{part_at};

use rp_base::{Fault, NodeId};
use rp_codec::{Packet, Party};
use rp_drawing::{End, Ending};
use rp_history::{Happened, NodeState, actor_of, delivered_by};
use rp_machine::Machine;
use rp_model::{Effect, Event};
use rp_run::sent_packet;
use rp_store::CutDevice;
use rp_world::Cluster;
use std::alloc::Global;

/// What is known before an event: how the way of the message that it delivers ends, if it delivers
/// one that was sent; who acts; and the state of that node.
#[derive(Clone, Copy)]
pub struct Prospect {
    pub ending: Option<Ending>,
    actor: Option<Party>,
    before: NodeState,
}

/// Determines what is known before an event.
pub fn prospect_of<M: Machine, D: CutDevice>(
    alloc: Global,
    cluster: &Cluster<M, D>,
    event: &Event,
) -> Result<Prospect, Fault>
    ensures ending { IfOk result (λ prospect. prospect.ending
        ≡ ending_by cluster.now.world event.now) }
    ensures actor { IfOk result (λ prospect. prospect.actor
        ≡ actor_at cluster.now.world event.now) }
    ensures before { IfOk result (λ prospect. prospect.before
        ≡ actor_state cluster.now.world (actor_at cluster.now.world event.now)) }
{
    let ending = ending_of(alloc, cluster, event)?;
    let receiver = receiver_of_message(alloc, cluster, event)?;
    let mut prospect = Prospect {
        ending,
        actor: actor_of(event, receiver),
        before: NO_NODE,
    };
    prospect.before = actor_state(cluster, prospect.actor);
    Ok(prospect)
}

/// How the way of the message that an event delivers ends, if it delivers one that was sent.
fn ending_of<M: Machine, D: CutDevice>(
    alloc: Global,
    cluster: &Cluster<M, D>,
    event: &Event,
) -> Result<Option<Ending>, Fault>
    ensures { IfOk result (λ ending. ending ≡ ending_by cluster.now.world event.now) }
{
    let Some(message) = delivered_by(event) else {
        return Ok(None);
    };
    let Some(packet) = sent_packet(alloc, cluster, message)? else {
        return Ok(None);
    };
    let end = end_at(cluster, packet.to());
    Ok(Some(Ending { message, end }))
}

/// The receiver of the message that an event delivers, if it delivers one that was sent.
fn receiver_of_message<M: Machine, D: CutDevice>(
    alloc: Global,
    cluster: &Cluster<M, D>,
    event: &Event,
) -> Result<Option<Party>, Fault>
    ensures { IfOk result (λ receiver. receiver
        ≡ receiver_at cluster.now.world.sent (delivered_by event.now)) }
{
    let Some(message) = delivered_by(event) else {
        return Ok(None);
    };
    match sent_packet(alloc, cluster, message)? {
        Some(packet) => Ok(Some(packet.to())),
        None => Ok(None),
    }
}

/// How the way of a packet that is delivered to this party ends.
fn end_at<M: Machine, D: CutDevice>(cluster: &Cluster<M, D>, party: Party) -> End
    ensures { result ≡ end_at cluster.now.world party }
{
    let Party::Node(node) = party else {
        return End::Taken;
    };
    match cluster.applied(node) {
        Ok(_) => End::Taken,
        Err(_) => End::Unheard,
    }
}

/// The state of the actor of an event, or `NO_NODE` if that is no node.
fn actor_state<M: Machine, D: CutDevice>(cluster: &Cluster<M, D>, actor: Option<Party>) -> NodeState
    ensures { result ≡ actor_state cluster.now.world actor }
{
    match actor {
        Some(party) => party_state(cluster, party),
        None => NO_NODE,
    }
}

/// The state of a party, or `NO_NODE` if it is no node.
fn party_state<M: Machine, D: CutDevice>(cluster: &Cluster<M, D>, party: Party) -> NodeState
    ensures { result ≡ party_state cluster.now.world party }
{
    match party {
        Party::Node(node) => node_state(cluster, node),
        Party::Task(_) | Party::Audit => NO_NODE,
    }
}

/// The state of a node.
fn node_state<M: Machine, D: CutDevice>(cluster: &Cluster<M, D>, node: NodeId) -> NodeState
    ensures { result ≡ node_state (part_at cluster.now.world.nodes node) }
{
    let stored = cluster.stored(node).unwrap_or(0);
    match cluster.applied(node) {
        Ok(applied) => NodeState {
            stored,
            applied,
            is_stopped: false,
        },
        Err(_) => NodeState {
            stored,
            applied: 0,
            is_stopped: true,
        },
    }
}

/// The state that is noted if no node acts.
const NO_NODE: NodeState = NodeState {
    stored: 0,
    applied: 0,
    is_stopped: false,
};

/// What happened in an event, from what was known before it and the cluster after it.
pub fn happened_after<M: Machine, D: CutDevice>(
    alloc: Global,
    cluster: &Cluster<M, D>,
    prospect: &Prospect,
    event: &Event,
    effect: &Effect,
) -> Result<Happened, Fault>
    ensures { IfOk result (λ happened. happened ≡ record {
      event = event.now;
      effect = effect.now;
      actor = prospect.now.actor;
      before = prospect.now.before;
      after = actor_state cluster.now.world prospect.now.actor;
      packet = part_at cluster.now.world.sent
          (packet_number event.now effect.now.first);
    }) }
{
    let number = delivered_by(event).unwrap_or(effect.first);
    Ok(Happened {
        event: *event,
        effect: *effect,
        actor: prospect.actor,
        before: prospect.before,
        after: actor_state(cluster, prospect.actor),
        packet: sent_packet(alloc, cluster, number)?,
    })
}

/// The packets from a number on.
pub fn packets_from<M: Machine, D: CutDevice>(
    alloc: Global,
    cluster: &Cluster<M, D>,
    first: u64,
) -> Result<Vec<Packet>, Fault>
    requires low { 1 ≤ first }
    requires high { first ≤ length cluster.now.world.sent + 1 }
    ensures { IfOk result (λ packets. packets.items ≡ drop (first - 1) cluster.now.world.sent) }
{
    let mut packets = Vec::new(alloc);
    for number in first..cluster.messages() + 1 {
        let Some(packet) = sent_packet(alloc, cluster, number)? else {
            return Err(Fault::OutOfMemory);
        };
        packets.push(packet)?;
    }
    Ok(packets)
}
