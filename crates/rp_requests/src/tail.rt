//! What a device holds after its whole records.

ghost use Rattle.std.specs.Prelude.{◌≡◌, ◌∷◌, IfOk, is_some, true};
ghost use Rattle.rp_codec.specs.Reading.{all_of, ballot_at};
ghost use Rattle.rp_codec.specs.RecordReading.{record_at};
ghost use Rattle.rp_codec.specs.Version.{version_of};
ghost use Rattle.rp_requests.specs.Tails.{is_short, tail_of};

use rp_base::PacketReason;
use rp_codec::decode;
use std::alloc::{AllocError, Global};

/// What a device holds after its whole records.
#[derive(Clone, Copy, Debug, PartialEq, Eq)]
pub enum Tail {
    /// Nothing.
    Nothing,
    /// The beginning of a record, as a stop leaves it that tears a record.
    Torn,
    /// Bytes that begin no record, or none that goes on: something has changed the device.
    Damaged,
}

/// What bytes are that begin with no whole record.
pub(crate) fn tail_of(alloc: Global, bytes: &[u8]) -> Result<Tail, AllocError>
    ensures { IfOk result (λ tail. tail ≡ tail_of bytes.now) }
{
    if bytes.is_empty() {
        return Ok(Tail::Nothing);
    }
    if begins_record(alloc, bytes)? {
        Ok(Tail::Torn)
    } else {
        Ok(Tail::Damaged)
    }
}

/// Whether the bytes are the beginning of a record's text, and not all of it.
#[tactic(auto, unfolding(rp_codec::specs::RecordReading::record_at))]
fn begins_record(alloc: Global, bytes: &[u8]) -> Result<bool, AllocError>
    ensures { IfOk result (λ torn. torn ≡ is_short (record_at bytes.now)) }
{
    let Some((version, rest)) = bytes.split_first() else {
        return Ok(true);
    };
    if !is_version(*version) {
        return Ok(false);
    }
    let Some((kind, fields)) = rest.split_first() else {
        return Ok(true);
    };
    begins_fields(alloc, *version, *kind, fields)
}

/// Whether these are the beginning of the fields of a record of this kind, and not all of them. They
/// are those of a packet: so a packet is made of them, unless there is but one.
#[tactic(auto, unfolding(rp_codec::specs::RecordReading::record_at, rp_codec::specs::RecordReading::started_at))]
fn begins_fields(alloc: Global, version: u8, kind: u8, fields: &[u8]) -> Result<bool, AllocError>
    requires { is_some (version_of version) ≡ true }
    ensures { IfOk result (λ torn. torn
        ≡ is_short (record_at (version ∷ kind ∷ fields.now))) }
{
    match kind {
        1 => Ok(begins_ballot(fields)),
        2 => begins_packet(alloc, version, PREPARE, fields),
        3 => begins_packet(alloc, version, ACCEPT, fields),
        4 => begins_packet(alloc, version, DECIDED, fields),
        5 => begins_packet(alloc, version, PREPARE_RANGE, fields),
        _ => Ok(false),
    }
}

/// The kinds of packets that have the fields of a promise, of a vote, of what is learned and of a
/// promise for a range.
const PREPARE: u8 = 2;

const ACCEPT: u8 = 4;

const DECIDED: u8 = 6;

const PREPARE_RANGE: u8 = 12;

/// Whether texts of a version begin with the byte.
fn is_version(byte: u8) -> bool
    ensures { result ≡ is_some (version_of byte) }
{
    matches!(byte, 1 | 2)
}

/// Whether the bytes are the beginning of a ballot, and not all of it.
#[tactic(auto, unfolding(rp_codec::specs::Reading::ballot_at, rp_codec::specs::Reading::number_at))]
fn begins_ballot(bytes: &[u8]) -> bool
    ensures { result ≡ is_short (ballot_at bytes.now) }
{
    bytes.len() < 8
}

/// Whether these are the beginning of the fields of a packet of this kind, from node 1 to node 1, and
/// not all of them.
fn begins_packet(alloc: Global, version: u8, kind: u8, fields: &[u8]) -> Result<bool, AllocError>
    ensures { IfOk result (λ torn. torn
        ≡ is_short (all_of (version ∷ kind ∷ 1 ∷ 1 ∷ fields.now))) }
{
    let mut text = Vec::from_slice(alloc, &[version, kind, 1, 1])?;
    text.extend_from_slice(fields)?;
    match decode(alloc, &text)? {
        Err(PacketReason::Short) => Ok(true),
        _ => Ok(false),
    }
}
