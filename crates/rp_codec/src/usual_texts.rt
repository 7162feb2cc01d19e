//! Packets of the usual kinds: those between nodes whose action, if any, is a call, a task's call,
//! and a reply with a value, in texts of version 2. Each kind has a function, in which the readers
//! of its fields are compiled for texts of its one length.

ghost use Rattle.std.specs.Prelude.{◌≡◌, [], Ok, IfOk};
ghost use Rattle.rp_codec.specs.declared.packet.Party.TheVariants.{Node, Task};
ghost use Rattle.rp_codec.specs.Decoding.{IsDecoded};
ghost use Rattle.rp_codec.specs.Usual.{IsHead, IsVoteText, prepare_at, promise_at, accept_at, accepted_at, decided_of, call_sent, reply_sent};

use crate::action_text::{read_action, read_own_call, read_placed_vote};
use crate::body_text::read_last;
use crate::decoding::{read_from, read_kind, read_to, read_version};
use crate::fields::{read_count, read_place, read_position};
use crate::kind::Kind;
use crate::packet::Party;
use crate::reader::Reader;
use crate::reply_text::read_reply;
use crate::version::Version;
use rp_base::{Action, Ballot, NodeId, PacketReason, Position, Reply, TaskId};

/// The sender and the receiver of a packet, its position and its ballot: what most packets between
/// nodes have before the action.
#[derive(Clone, Copy)]
pub struct Header {
    pub from: NodeId,
    pub to: NodeId,
    pub position: Position,
    pub ballot: Ballot,
}

/// A decision that one node sends to another.
#[derive(Clone, Copy)]
pub struct SentDecision {
    pub from: NodeId,
    pub to: NodeId,
    pub position: Position,
    pub action: Action,
}

/// A reply that a node sends to a task.
#[derive(Clone, Copy)]
pub struct SentReply {
    pub from: NodeId,
    pub task: TaskId,
    pub number: u32,
    pub reply: Reply,
}

/// A call that a task sends to a node.
#[derive(Clone, Copy)]
pub struct SentCall {
    pub task: TaskId,
    pub to: NodeId,
    pub action: Action,
}

/// From whom a packet is and to whom, and the bytes after that.
#[derive(Drop)]
struct Head<'a> {
    from: Party,
    to: Party,
    body: Reader<'a>,
}

/// The same, from a node to a node.
#[derive(Drop)]
struct NodesHead<'a> {
    from: NodeId,
    to: NodeId,
    body: Reader<'a>,
}

/// The head of a text of version 2, of this kind and with n bytes.
#[inline(always)]
fn head_of<'a>(bytes: &'a [u8], kind: Kind, n: usize) -> Result<Head<'a>, PacketReason>
    ensures { IfOk result (λ head. IsHead bytes.now kind head.from head.to head.body) }
{
    if bytes.len() != n {
        return Err(PacketReason::Long);
    }
    let mut body = Reader::new(bytes);
    let version = read_version(&mut body)?;
    if version != Version::V2 {
        return Err(PacketReason::Version);
    }
    let found = read_kind(&mut body)?;
    if found != kind {
        return Err(PacketReason::Kind);
    }
    let from = read_from(&mut body, kind)?;
    let to = read_to(&mut body, kind)?;
    Ok(Head { from, to, body })
}

#[inline(always)]
fn node_of(party: Party) -> Result<NodeId, PacketReason>
    ensures { IfOk result (λ node. party ≡ Node node) }
{
    match party {
        Party::Node(node) => Ok(node),
        Party::Task(_) | Party::Audit => Err(PacketReason::Field),
    }
}

#[inline(always)]
fn task_of(party: Party) -> Result<TaskId, PacketReason>
    ensures { IfOk result (λ task. party ≡ Task task) }
{
    match party {
        Party::Task(task) => Ok(task),
        Party::Node(_) | Party::Audit => Err(PacketReason::Field),
    }
}

#[inline(always)]
fn nodes_head<'a>(bytes: &'a [u8], kind: Kind, n: usize) -> Result<NodesHead<'a>, PacketReason>
    ensures { IfOk result
        (λ head. IsHead bytes.now kind (Node head.from) (Node head.to) head.body) }
{
    let head = head_of(bytes, kind, n)?;
    let from = node_of(head.from)?;
    let to = node_of(head.to)?;
    Ok(NodesHead {
        from,
        to,
        body: head.body,
    })
}

/// Nothing is left to read.
#[inline(always)]
fn end(body: &Reader) -> Result<(), PacketReason>
    ensures { IfOk result (λ end. body.now ≡ []) }
{
    if !body.is_empty() {
        return Err(PacketReason::Long);
    }
    Ok(())
}

/// The header of a prepare of which the bytes are the text of version 2. An error is no answer
/// about the bytes, whatever its reason: `decode` reads those. There is such a function for each
/// usual kind, compiled into its caller, which so has the fields without a packet in memory. Which
/// packets are read so is a matter of speed alone, and no clause says it.
#[inline(always)]
pub fn usual_prepare(bytes: &[u8]) -> Result<Header, PacketReason>
    ensures { IfOk result (λ header. IsDecoded bytes.now (Ok (prepare_at header))) }
{
    let mut head = nodes_head(bytes, Kind::Prepare, 14)?;
    let (position, ballot) = read_place(&mut head.body)?;
    end(&head.body)?;
    Ok(Header {
        from: head.from,
        to: head.to,
        position,
        ballot,
    })
}

/// The same, of a promise that reports no vote.
#[inline(always)]
pub fn usual_promise(bytes: &[u8]) -> Result<Header, PacketReason>
    ensures { IfOk result (λ header. IsDecoded bytes.now (Ok (promise_at header))) }
{
    let mut head = nodes_head(bytes, Kind::Promise, 15)?;
    let (position, ballot) = read_place(&mut head.body)?;
    let Ok(None) = read_last(&mut head.body, Version::V2, ballot) else {
        return Err(PacketReason::Field);
    };
    end(&head.body)?;
    Ok(Header {
        from: head.from,
        to: head.to,
        position,
        ballot,
    })
}

/// The header and the action of an accept or of a vote, whose action is a call.
#[inline(always)]
fn usual_vote(bytes: &[u8], kind: Kind) -> Result<(Header, Action), PacketReason>
    ensures { IfOk result (λ vote. IsVoteText bytes.now kind vote.0 vote.1) }
{
    let mut head = nodes_head(bytes, kind, 31)?;
    let placed = read_placed_vote(&mut head.body, Version::V2)?;
    end(&head.body)?;
    let header = Header {
        from: head.from,
        to: head.to,
        position: placed.position,
        ballot: placed.vote.ballot,
    };
    Ok((header, placed.vote.action))
}

/// The same as `usual_prepare`, of an accept whose action is a call.
#[inline(always)]
pub fn usual_accept(bytes: &[u8]) -> Result<(Header, Action), PacketReason>
    ensures { IfOk result (λ vote. IsDecoded bytes.now (Ok (accept_at vote.0 vote.1))) }
{
    let (header, action) = usual_vote(bytes, Kind::Accept)?;
    Ok((header, action))
}

/// The same, of a vote for a call.
#[inline(always)]
pub fn usual_accepted(bytes: &[u8]) -> Result<(Header, Action), PacketReason>
    ensures { IfOk result (λ vote. IsDecoded bytes.now (Ok (accepted_at vote.0 vote.1))) }
{
    let (header, action) = usual_vote(bytes, Kind::Accepted)?;
    Ok((header, action))
}

/// The same, of a decided call.
#[inline(always)]
pub fn usual_decided(bytes: &[u8]) -> Result<SentDecision, PacketReason>
    ensures { IfOk result (λ decision. IsDecoded bytes.now (Ok (decided_of decision))) }
{
    let mut head = nodes_head(bytes, Kind::Decided, 23)?;
    let position = read_position(&mut head.body)?;
    let action = read_action(&mut head.body, Version::V2)?;
    end(&head.body)?;
    Ok(SentDecision {
        from: head.from,
        to: head.to,
        position,
        action,
    })
}

/// The same, of a task's call.
#[inline(always)]
pub fn usual_call(bytes: &[u8]) -> Result<SentCall, PacketReason>
    ensures { IfOk result (λ call. IsDecoded bytes.now (Ok (call_sent call))) }
{
    let Head { from, to, mut body } = head_of(bytes, Kind::Call, 21)?;
    let task = task_of(from)?;
    let node = node_of(to)?;
    let action = read_own_call(&mut body, Version::V2, &Party::Task(task))?;
    end(&body)?;
    Ok(SentCall {
        task,
        to: node,
        action,
    })
}

/// The same, of a reply with a value.
#[inline(always)]
pub fn usual_reply(bytes: &[u8]) -> Result<SentReply, PacketReason>
    ensures { IfOk result (λ sent. IsDecoded bytes.now (Ok (reply_sent sent))) }
{
    let Head { from, to, mut body } = head_of(bytes, Kind::Reply, 17)?;
    let node = node_of(from)?;
    let task = task_of(to)?;
    let number = read_count(&mut body)?;
    let reply = read_reply(&mut body)?;
    end(&body)?;
    Ok(SentReply {
        from: node,
        task,
        number,
        reply,
    })
}
