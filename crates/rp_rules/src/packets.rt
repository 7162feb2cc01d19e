//! What a server decides of a packet.

ghost use Rattle.std.specs.Prelude.{◌≡◌, nat_eq, true, IfErr, OnOk};
ghost use Rattle.rp_base.specs.declared.fault.Fault.TheVariants as faults;
ghost use Rattle.rp_base.specs.Ballot.{owner_of};
ghost use Rattle.rp_model.specs.rp_codec.specs.Decoding.{IsLongBody};
ghost use Rattle.rp_model.specs.rp_codec.specs.Message.{IsNodeParty, IsPacket};
ghost use Rattle.rp_model.specs.rp_codec.specs.declared.packet.Party.TheVariants.{Node};
ghost use Rattle.rp_model.specs.Receiving.{is_for_node, is_allowed, is_range_within, is_node, is_no_node_above, sender_number, on_body, receives};
ghost use Rattle.rp_rules.specs.Inputs.{running_server};
ghost use Rattle.rp_rules.specs.Plans.{MayCommit};

use crate::acceptor::{on_accept, on_prepare, on_prepare_range};
use crate::arrivals::on_call;
use crate::leader::on_promise;
use crate::learner::{on_accepted, on_ask, on_decided};
use rp_base::{Ballot, Config, Fault, NodeId, PositionRange};
use rp_codec::{Body, Header, Packet, Party};
use rp_machine::Machine;
use rp_model::{CountedPromise, CountedRange, Dropped, Plan};
use rp_server::Roles;

/// A packet comes. Only a promise for a range takes memory: its votes are kept in the plan.
#[inline(always)]
pub(crate) fn on_packet<M: Machine>(
    server: &Roles<M>,
    packet: &Packet,
    plan: &mut Plan,
) -> Result<(), Fault>
    ensures plan { OnOk result
        (plan.new ≡ receives (running_server M.next M.answers server.now) packet.now) }
    ensures may { OnOk result (MayCommit server.now plan.new) }
    ensures memory { IfErr result (λ fault. (fault ≡ faults.OutOfMemory)
        × IsLongBody packet.now.body) }
{
    if !is_for_node(server.config(), server.me(), packet) {
        *plan = Plan::Pass(Dropped::Foreign);
        return Ok(());
    }
    match packet.from() {
        Party::Node(from) => on_node(server, from, packet, plan),
        Party::Task(_) | Party::Audit => {
            on_task(server, packet, plan);
            Ok(())
        }
    }
}

/// A packet comes from a node, for this one.
#[inline(always)]
fn on_node<M: Machine>(
    server: &Roles<M>,
    from: NodeId,
    packet: &Packet,
    plan: &mut Plan,
) -> Result<(), Fault>
    requires sender { packet.now.from ≡ Node from }
    requires right { is_for_node server.now.config server.now.me packet.now ≡ true }
    ensures plan { OnOk result
        (plan.new ≡ on_body (running_server M.next M.answers server.now) from packet.now.body) }
    ensures may { OnOk result (MayCommit server.now plan.new) }
    ensures memory { IfErr result (λ fault. (fault ≡ faults.OutOfMemory)
        × IsLongBody packet.now.body) }
{
    match *packet.body() {
        Body::Prepare { position, ballot } => on_prepare(server, from, position, ballot, plan),
        Body::PrepareRange { range, ballot } => {
            *plan = on_prepare_range(server, from, range, ballot);
        }
        Body::Promise {
            position,
            ballot,
            last,
        } => on_promise(
            server,
            CountedPromise {
                from,
                position,
                ballot,
                last,
            },
            plan,
        ),
        Body::PromiseRange {
            range,
            ballot,
            ref votes,
        } => *plan = Plan::CountRangePromise(CountedRange {
            from,
            range,
            ballot,
            votes: votes.clone()?,
        }),
        Body::Accept {
            position,
            ballot,
            ref action,
        } => {
            let header = Header {
                from,
                to: server.me(),
                position,
                ballot,
            };
            on_accept(server, &header, action, plan);
        }
        Body::Accepted {
            position,
            ballot,
            ref action,
        } => {
            let header = Header {
                from,
                to: server.me(),
                position,
                ballot,
            };
            on_accepted(server, &header, action, plan);
        }
        Body::Decided {
            position,
            ref action,
        } => on_decided(server, from, position, action, plan),
        Body::Ask { position } => *plan = on_ask(server, from, position),
        Body::Nack {
            position,
            ballot,
            bound,
        } => *plan = Plan::Yield {
            position,
            ballot,
            bound,
        },
        _ => *plan = Plan::Pass(Dropped::No),
    }
    Ok(())
}

/// A packet comes from a task, for this node.
#[inline(always)]
fn on_task<M: Machine>(server: &Roles<M>, packet: &Packet, plan: &mut Plan)
    requires sender { ¬ IsNodeParty packet.now.from }
    ensures plan { plan.new ≡ on_body (running_server M.next M.answers server.now)
        (sender_number packet.now.from) packet.now.body }
    ensures may { MayCommit server.now plan.new }
{
    match *packet.body() {
        Body::Call { action } => on_call(server, action, plan),
        _ => *plan = Plan::Pass(Dropped::No),
    }
}

/// Whether the party is this node.
#[inline(always)]
fn is_node(me: NodeId, party: Party) -> bool
    ensures { result ≡ is_node me party }
{
    match party {
        Party::Node(node) => node.get() == me.get(),
        Party::Task(_) | Party::Audit => false,
    }
}

/// Whether the party is no node above these.
#[inline(always)]
fn is_no_node_above(nodes: u8, party: Party) -> bool
    ensures { result ≡ is_no_node_above nodes party }
{
    match party {
        Party::Node(node) => node.get() <= nodes,
        Party::Task(_) | Party::Audit => true,
    }
}

/// Whether the position, or each of a range, is within the log, and who asks for a ballot owns it.
#[inline(always)]
fn is_allowed(max_positions: u16, from: Party, body: &Body) -> bool
    ensures { result ≡ is_allowed max_positions (sender_number from) body.now }
{
    match *body {
        Body::Call { .. } | Body::Reply { .. } | Body::Report { .. } => true,
        Body::Prepare { position, ballot }
        | Body::Accept {
            position,
            ballot,
            ..
        } => { position.get() <= max_positions && owns(from, ballot) }
        Body::Promise { position, .. }
        | Body::Accepted { position, .. }
        | Body::Decided { position, .. }
        | Body::Ask { position }
        | Body::Nack { position, .. } => position.get() <= max_positions,
        Body::PrepareRange { range, ballot } => {
            is_range_within(max_positions, range) && owns(from, ballot)
        }
        Body::PromiseRange { range, .. } => is_range_within(max_positions, range),
    }
}

/// Whether the range begins and ends within the log.
#[inline(always)]
fn is_range_within(max_positions: u16, range: PositionRange) -> bool
    ensures { result ≡ is_range_within max_positions range }
{
    range.first().get() <= max_positions && range.end() <= u32::from(max_positions) + 1
}

/// Whether the ballot is the party's own.
#[inline(always)]
fn owns(party: Party, ballot: Ballot) -> bool
    ensures { result ≡ nat_eq (owner_of ballot) (sender_number party) }
{
    let number = match party {
        Party::Node(node) => node.get(),
        Party::Task(task) => task.get(),
        Party::Audit => 0,
    };
    ballot.owner().get() == number
}

/// Whether the packet is for this node, and keeps to the configuration.
#[inline(always)]
fn is_for_node(config: Config, me: NodeId, packet: &Packet) -> bool
    ensures stated { result ≡ is_for_node config me packet.now }
    ensures packet { result ≡ true → IsPacket packet.now }
{
    is_node(me, packet.to())
        && is_no_node_above(config.nodes, packet.from())
        && is_allowed(config.max_positions, packet.from(), packet.body())
}
