//! What a server decides of a packet's text. Each usual kind has two functions: one reads the text
//! into fields, the other calls the rule with these. It returns whether the bytes are the text of
//! such a packet that this node takes; if they are not, it leaves the plan as it is.

ghost use Rattle.std.specs.Prelude.{◌≡◌, ◌≤◌, ◌&&◌, not, nat_lt, Ok, IfErr, IfSome, OnOk};
ghost use Rattle.rp_base.specs.Action.{IsRight};
ghost use Rattle.rp_base.specs.Number.{IsPosition};
ghost use Rattle.rp_model.specs.rp_codec.specs.Decoding.{IsDecoded, IsLongText};
ghost use Rattle.rp_model.specs.rp_codec.specs.Reading.{all_of};
ghost use Rattle.rp_model.specs.rp_codec.specs.Usual.{accept_at, accepted_at, decided_of};
ghost use Rattle.rp_model.specs.rp_codec.specs.declared.packet.Body.TheVariants.{Prepare};
ghost use Rattle.rp_model.specs.rp_codec.specs.declared.packet.Party.TheVariants.{Node};
ghost use Rattle.rp_server.specs.rp_learner.specs.Status.{vote_for};
ghost use Rattle.rp_model.specs.Acceptor.{on_accept, on_prepare};
ghost use Rattle.rp_model.specs.Arrivals.{on_call};
ghost use Rattle.rp_model.specs.Leader.{on_promise};
ghost use Rattle.rp_model.specs.Learner.{on_accepted, on_decided};
ghost use Rattle.rp_model.specs.Receiving.{is_for_node, is_node, is_no_node_above};
ghost use Rattle.rp_model.specs.Says.{says};
ghost use Rattle.rp_rules.specs.Inputs.{Refuses, running_server, packet_given, plan_if_given};
ghost use Rattle.rp_rules.specs.Plans.{Decides, IsPlanOf, MayCommit, MayCount};

use crate::acceptor::{on_accept, on_prepare};
use crate::arrivals::on_call;
use crate::leader::on_promise;
use crate::learner::{on_accepted, on_decided};
use crate::packets::on_packet;
use rp_base::{Action, Fault, NodeId, Position};
use rp_codec::{
    Header, Kind, SentDecision, decode, usual_accept, usual_accepted, usual_call, usual_decided,
    usual_prepare, usual_promise,
};
use rp_machine::Machine;
use rp_model::{CountedPromise, Plan};
use rp_server::Roles;
use std::alloc::Global;

/// Handles a packet, given as its text: `BadPacket` if the bytes are no packet's, or `OutOfMemory`
/// if a report or a promise for a range is read. Each usual kind has its function, in which reading
/// the packet and the rule for it are compiled for that kind alone.
#[inline(always)]
pub fn on_text<M: Machine>(
    server: &Roles<M>,
    alloc: Global,
    bytes: &[u8],
    plan: &mut Plan,
) -> Result<(), Fault>
    ensures ok { OnOk result (Ok plan.new
        ≡ plan_if_given M.next M.answers server.now (packet_given (all_of bytes.now))) }
    ensures may { OnOk result (MayCommit server.now plan.new) }
    ensures err { IfErr result (Refuses (IsLongText bytes.now)
        (plan_if_given M.next M.answers server.now (packet_given (all_of bytes.now)))) }
{
    let decided = match Kind::of_text(bytes) {
        Some(Kind::Call) => on_call_text(server, bytes, plan),
        Some(Kind::Prepare) => on_prepare_text(server, bytes, plan),
        Some(Kind::Promise) => on_promise_text(server, bytes, plan),
        Some(Kind::Accept) => on_accept_text(server, bytes, plan),
        Some(Kind::Accepted) => on_accepted_text(server, bytes, plan),
        Some(Kind::Decided) => on_decided_text(server, bytes, plan),
        _ => false,
    };
    if decided {
        return Ok(());
    }
    on_other_text(server, alloc, bytes, plan)
}

/// Whether a packet between these nodes, for a position, is for this node and keeps to the
/// configuration.
#[inline(always)]
fn takes<M: Machine>(server: &Roles<M>, from: NodeId, to: NodeId, position: Position) -> bool
    ensures { result ≡ (is_node server.now.me (Node to)
        && is_no_node_above server.now.config.nodes (Node from)
        && not (nat_lt server.now.config.max_positions position)) }
{
    to == server.me()
        && from.get() <= server.config().nodes
        && position.get() <= server.config().max_positions
}

/// The same, for a packet in a ballot that its sender must own.
#[inline(always)]
fn takes_from_owner<M: Machine>(server: &Roles<M>, header: &Header) -> bool
    ensures { result ≡ is_for_node server.now.config server.now.me
        (says header.now.from (Prepare header.now.position header.now.ballot) header.now.to) }
{
    takes(server, header.from, header.to, header.position) && header.ballot.owner() == header.from
}

/// A packet comes that no function of a usual kind reads.
#[inline(never)]
fn on_other_text<M: Machine>(
    server: &Roles<M>,
    alloc: Global,
    bytes: &[u8],
    plan: &mut Plan,
) -> Result<(), Fault>
    ensures ok { OnOk result (Ok plan.new
        ≡ plan_if_given M.next M.answers server.now (packet_given (all_of bytes.now))) }
    ensures may { OnOk result (MayCommit server.now plan.new) }
    ensures err { IfErr result (Refuses (IsLongText bytes.now)
        (plan_if_given M.next M.answers server.now (packet_given (all_of bytes.now)))) }
{
    let Ok(read) = decode(alloc, bytes) else {
        return Err(Fault::OutOfMemory);
    };
    match &read {
        Ok(packet) => on_packet(server, packet, plan),
        Err(reason) => Err(Fault::BadPacket(*reason)),
    }
}

/// The action of a task's call to this node, if these bytes are the text of one.
#[inline(always)]
pub fn call_for<M: Machine>(server: &Roles<M>, bytes: &[u8]) -> Option<Action>
    ensures right { IfSome result IsRight }
    ensures plan { IfSome result (λ action. IsPlanOf M.next M.answers server.now bytes.now
        (on_call (running_server M.next M.answers server.now) action)) }
{
    let call = usual_call(bytes).ok()?;
    if call.to == server.me() {
        Some(call.action)
    } else {
        None
    }
}

/// The header of a prepare to this node, which keeps to the configuration, if these bytes are the
/// text of one.
#[inline(always)]
pub fn prepare_for<M: Machine>(server: &Roles<M>, bytes: &[u8]) -> Option<Header>
    ensures place { IfSome result (λ header.
        header.position ≤ server.now.config.max_positions) }
    ensures plan { IfSome result (λ header. IsPlanOf M.next M.answers server.now bytes.now
        (on_prepare (running_server M.next M.answers server.now) header.from header.position
        header.ballot)) }
{
    let header = usual_prepare(bytes).ok()?;
    if takes_from_owner(server, &header) {
        Some(header)
    } else {
        None
    }
}

/// The same of a promise that reports no vote.
#[inline(always)]
pub fn promise_for<M: Machine>(server: &Roles<M>, bytes: &[u8]) -> Option<CountedPromise>
    ensures may { IfSome result (MayCount server.now) }
    ensures plan { IfSome result (λ promise. IsPlanOf M.next M.answers server.now bytes.now
        (on_promise (running_server M.next M.answers server.now) promise)) }
{
    let header = usual_promise(bytes).ok()?;
    if takes(server, header.from, header.to, header.position) {
        Some(CountedPromise {
            from: header.from,
            position: header.position,
            ballot: header.ballot,
            last: None,
        })
    } else {
        None
    }
}

/// The same of an accept, whose action is a call, with that action.
#[inline(always)]
pub fn accept_for<M: Machine>(server: &Roles<M>, bytes: &[u8]) -> Option<(Header, Action)>
    ensures decoded { IfSome result (λ vote.
        IsDecoded bytes.now (Ok (accept_at vote.0 vote.1))) }
    ensures place { IfSome result (λ vote.
        vote.0.position ≤ server.now.config.max_positions) }
    ensures right { IfSome result (λ vote. IsRight vote.1) }
    ensures plan { IfSome result (λ vote. IsPlanOf M.next M.answers server.now bytes.now
        (on_accept (running_server M.next M.answers server.now) vote.0.from vote.0.position
        vote.0.ballot vote.1)) }
{
    let Ok((header, action)) = usual_accept(bytes) else {
        return None;
    };
    if takes_from_owner(server, &header) {
        Some((header, action))
    } else {
        None
    }
}

/// The same of a vote for a call, with that call.
#[inline(always)]
pub fn accepted_for<M: Machine>(server: &Roles<M>, bytes: &[u8]) -> Option<(Header, Action)>
    ensures decoded { IfSome result (λ vote.
        IsDecoded bytes.now (Ok (accepted_at vote.0 vote.1))) }
    ensures sender { IfSome result (λ vote. vote.0.from ≤ server.now.config.nodes) }
    ensures place { IfSome result (λ vote. IsPosition vote.0.position
        × (vote.0.position ≤ server.now.config.max_positions)) }
    ensures right { IfSome result (λ vote. IsRight vote.1) }
    ensures plan { IfSome result (λ vote. IsPlanOf M.next M.answers server.now bytes.now
        (on_accepted (running_server M.next M.answers server.now) vote.0.from vote.0.position
        (vote_for vote.0.ballot vote.1))) }
{
    let Ok((header, action)) = usual_accepted(bytes) else {
        return None;
    };
    if takes(server, header.from, header.to, header.position) {
        Some((header, action))
    } else {
        None
    }
}

/// The same of a decided call.
#[inline(always)]
pub fn decided_for<M: Machine>(server: &Roles<M>, bytes: &[u8]) -> Option<SentDecision>
    ensures decoded { IfSome result (λ sent. IsDecoded bytes.now (Ok (decided_of sent))) }
    ensures place { IfSome result (λ sent.
        sent.position ≤ server.now.config.max_positions) }
    ensures right { IfSome result (λ sent. IsRight sent.action) }
    ensures plan { IfSome result (λ sent. IsPlanOf M.next M.answers server.now bytes.now
        (on_decided (running_server M.next M.answers server.now) sent.from sent.position
        sent.action)) }
{
    let sent = usual_decided(bytes).ok()?;
    if takes(server, sent.from, sent.to, sent.position) {
        Some(sent)
    } else {
        None
    }
}

/// A task's call comes.
#[inline(never)]
fn on_call_text<M: Machine>(server: &Roles<M>, bytes: &[u8], plan: &mut Plan) -> bool
    ensures { Decides M.next M.answers server.now bytes.now plan.old plan.new result }
{
    let Some(action) = call_for(server, bytes) else {
        return false;
    };
    on_call(server, action, plan);
    true
}

/// A prepare comes.
#[inline(never)]
fn on_prepare_text<M: Machine>(server: &Roles<M>, bytes: &[u8], plan: &mut Plan) -> bool
    ensures { Decides M.next M.answers server.now bytes.now plan.old plan.new result }
{
    let Some(header) = prepare_for(server, bytes) else {
        return false;
    };
    on_prepare(server, header.from, header.position, header.ballot, plan);
    true
}

/// A promise comes that reports no vote.
#[inline(never)]
fn on_promise_text<M: Machine>(server: &Roles<M>, bytes: &[u8], plan: &mut Plan) -> bool
    ensures { Decides M.next M.answers server.now bytes.now plan.old plan.new result }
{
    let Some(promise) = promise_for(server, bytes) else {
        return false;
    };
    on_promise(server, promise, plan);
    true
}

/// An accept comes, whose action is a call.
#[inline(never)]
fn on_accept_text<M: Machine>(server: &Roles<M>, bytes: &[u8], plan: &mut Plan) -> bool
    ensures { Decides M.next M.answers server.now bytes.now plan.old plan.new result }
{
    let Some((header, action)) = accept_for(server, bytes) else {
        return false;
    };
    on_accept(server, &header, &action, plan);
    true
}

/// A vote for a call comes.
#[inline(never)]
fn on_accepted_text<M: Machine>(server: &Roles<M>, bytes: &[u8], plan: &mut Plan) -> bool
    ensures { Decides M.next M.answers server.now bytes.now plan.old plan.new result }
{
    let Some((header, action)) = accepted_for(server, bytes) else {
        return false;
    };
    on_accepted(server, &header, &action, plan);
    true
}

/// A decided call comes.
#[inline(never)]
fn on_decided_text<M: Machine>(server: &Roles<M>, bytes: &[u8], plan: &mut Plan) -> bool
    ensures { Decides M.next M.answers server.now bytes.now plan.old plan.new result }
{
    let Some(sent) = decided_for(server, bytes) else {
        return false;
    };
    on_decided(server, sent.from, sent.position, &sent.action, plan);
    true
}
