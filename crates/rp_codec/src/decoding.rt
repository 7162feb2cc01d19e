//! Bytes to packets.

ghost use Rattle.std.specs.Prelude.{◌≡◌, ◌↔◌, ℕ, List, length, Some, Ok, IsSome, IfSome, IfOk, OnErr};
ghost use Rattle.rp_codec.specs.Kind.{sender_role, receiver_role};
ghost use Rattle.rp_codec.specs.Message.{Message, IsPacket, MaySay};
ghost use Rattle.rp_codec.specs.declared.packet.Party.TheVariants.{Node};
ghost use Rattle.rp_codec.specs.Text.{text_of, IsTextBefore};
ghost use Rattle.rp_codec.specs.Usual.{between};
ghost use Rattle.rp_codec.specs.Reading.{Gives, node_at, task_at, audit_at, role_at, version_at, kind_at, packet_at, all_of};
ghost use Rattle.rp_codec.specs.Found.{Skips, FindsPacket, FindsWhole, KeepsRulesAt, IsListed, IsList};
ghost use Rattle.rp_codec.specs.Decoding.{IsDecoded, IsLongText, BeginsWithPacket};

use crate::body_text::read_content;
use crate::content::{Content, Found};
use crate::kind::Kind;
use crate::packet::{Body, Packet, Party};
use crate::party_text::{AUDIT, TASK_BASE};
use crate::reader::Reader;
use crate::report_text::list_actions;
use crate::version::Version;
use crate::votes_text::list_votes;
use rp_base::{NodeId, PacketReason, TaskId};
use std::alloc::{AllocError, Global};

#[inline(always)]
#[tactic(auto, unfolding(crate::specs::Reading::node_at))]
fn read_node(reader: &mut Reader) -> Result<Party, PacketReason>
    ensures { Gives result reader.new (node_at reader.old) }
{
    let number = reader.byte()?;
    match NodeId::new(number) {
        Some(node) => Ok(Party::Node(node)),
        None => Err(PacketReason::Field),
    }
}

/// Task t is 16 + t.
#[inline(always)]
#[tactic(auto, unfolding(crate::specs::Reading::task_at))]
fn read_task(reader: &mut Reader) -> Result<Party, PacketReason>
    ensures { Gives result reader.new (task_at reader.old) }
{
    let number = reader.byte()?;
    match TaskId::new(number.saturating_sub(TASK_BASE)) {
        Some(task) => Ok(Party::Task(task)),
        None => Err(PacketReason::Field),
    }
}

#[inline(always)]
#[tactic(auto, unfolding(crate::specs::Reading::audit_at))]
fn read_audit(reader: &mut Reader) -> Result<Party, PacketReason>
    ensures { Gives result reader.new (audit_at reader.old) }
{
    let number = reader.byte()?;
    if number != AUDIT {
        return Err(PacketReason::Field);
    }
    Ok(Party::Audit)
}

#[inline(always)]
#[tactic(auto, unfolding(crate::specs::Reading::role_at))]
pub(crate) fn read_from(reader: &mut Reader, kind: Kind) -> Result<Party, PacketReason>
    ensures { Gives result reader.new (role_at (sender_role kind) reader.old) }
{
    match kind {
        Kind::Call => read_task(reader),
        _ => read_node(reader),
    }
}

#[inline(always)]
#[tactic(auto, unfolding(crate::specs::Reading::role_at))]
pub(crate) fn read_to(reader: &mut Reader, kind: Kind) -> Result<Party, PacketReason>
    ensures { Gives result reader.new (role_at (receiver_role kind) reader.old) }
{
    match kind {
        Kind::Reply => read_task(reader),
        Kind::Report => read_audit(reader),
        _ => read_node(reader),
    }
}

#[inline(always)]
pub(crate) fn read_version(reader: &mut Reader) -> Result<Version, PacketReason>
    ensures { Gives result reader.new (version_at reader.old) }
{
    let number = reader.byte()?;
    match Version::of(number) {
        Some(version) => Ok(version),
        None => Err(PacketReason::Version),
    }
}

#[inline(always)]
pub(crate) fn read_kind(reader: &mut Reader) -> Result<Kind, PacketReason>
    ensures { Gives result reader.new (kind_at reader.old) }
{
    let number = reader.byte()?;
    match Kind::of(number) {
        Some(kind) => Ok(kind),
        None => Err(PacketReason::Kind),
    }
}

/// The packet that the bytes begin with.
#[inline(always)]
#[tactic(auto, unfolding(crate::specs::Reading::packet_at, crate::specs::Reading::said_at))]
fn read_packet<'a>(reader: &mut Reader<'a>) -> Result<Found<'a>, PacketReason>
    ensures { FindsPacket result reader.new (packet_at reader.old) }
{
    let version = read_version(reader)?;
    let kind = read_kind(reader)?;
    let from = read_from(reader, kind)?;
    let to = read_to(reader, kind)?;
    let content = read_content(reader, version, kind, &from)?;
    Ok(Found { from, to, content })
}

/// The packet whose text is all of the bytes.
#[inline(always)]
#[tactic(auto, unfolding(crate::specs::Reading::all_of))]
fn read_whole<'a>(bytes: &'a [u8]) -> Result<Found<'a>, PacketReason>
    ensures { FindsWhole result (all_of bytes.now) }
{
    let mut reader = Reader::new(bytes);
    let found = read_packet(&mut reader)?;
    if !reader.is_empty() {
        return Err(PacketReason::Long);
    }
    Ok(found)
}

/// Takes memory for a report's actions or a promise's votes, and for nothing else.
#[inline(always)]
fn listed(alloc: Global, found: Found) -> Result<Packet, AllocError>
    requires { KeepsRulesAt found }
    ensures packet { IfOk result (λ packet. IsListed packet found.entry) }
    ensures memory { OnErr result (IsList found.entry.content) }
{
    let Found { from, to, content } = found;
    let body = match content {
        Content::Whole(body) => body,
        Content::Listed {
            version,
            first,
            applied,
            count,
            actions,
        } => {
            let actions = list_actions(alloc, actions, version, count)?;
            Body::Report {
                first,
                applied,
                actions,
            }
        }
        Content::Voted {
            version,
            range,
            ballot,
            votes,
        } => {
            let votes = list_votes(alloc, votes, version, range, ballot)?;
            Body::PromiseRange {
                range,
                ballot,
                votes,
            }
        }
    };
    Ok(Packet::new(from, to, body))
}

/// The packet of which the bytes are a text, of version 1 or 2, all of the bytes. Where they are no
/// packet's text, the reason is the first fault from left to right, by the version that the first
/// byte says: `Version` where it says neither. Only a report's actions and the votes of a promise
/// for a range take memory.
#[inline(never)]
pub fn decode(alloc: Global, bytes: &[u8]) -> Result<Result<Packet, PacketReason>, AllocError>
    // claim: `decode` gives a packet exactly if the bytes are its text of version 1 or 2, else the
    //   first reason in reading from left to right, by the version that the first byte says; it is
    //   out of memory only for a report and for a promise for a range
    ensures answer { IfOk result (λ answer. IsDecoded bytes.now answer) }
    ensures memory { OnErr result (IsLongText bytes.now) }
{
    match read_whole(bytes) {
        Ok(found) => {
            let packet = listed(alloc, found)?;
            Ok(Ok(packet))
        }
        Err(reason) => Ok(Err(reason)),
    }
}

/// Reads a packet, and keeps nothing of it.
fn skip_packet(reader: &mut Reader) -> Result<(), PacketReason>
    ensures { Skips result reader.new (packet_at reader.old) }
{
    let _found = read_packet(reader)?;
    Ok(())
}

/// How many bytes the packet's text has, of version 1 or 2, that the bytes begin with. Any bytes
/// may follow it. `None` where they begin with no packet's text. It takes no memory.
pub fn packet_len(bytes: &[u8]) -> Option<usize>
    // Where there is one.
    // claim: The length of the packet text, of version 1 or 2, that is a prefix of the bytes is
    //   returned exactly if there is one
    ensures valid { IsSome result ↔ BeginsWithPacket bytes.now }
    // How long it is.
    ensures value { (p : Message) (rest : List ℕ) → IsPacket p → IsTextBefore p rest bytes.now
        → result ≡ Some (length (text_of p)) }
{
    let mut reader = Reader::new(bytes);
    match skip_packet(&mut reader) {
        Ok(()) => Some(bytes.len() - reader.len()),
        Err(_) => None,
    }
}
