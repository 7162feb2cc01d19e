//! The header of a device, which says whose it is.

ghost use Rattle.std.specs.Prelude.{◌≡◌, ◌<◌, ◌+◌, ◌^◌, drop, length, IfOk, IfErr, OnErr};
ghost use Rattle.rp_requests.specs.Tails.{tail_of};
ghost use Rattle.rp_handles.specs.DeckNodes.{OpensNoNode};
ghost use Rattle.rp_handles.specs.Devices.{HasHeader, OpensDevice, OpensNoDevice, has_objects, header_bytes, header_text};

use crate::calls::{Found, open_node};
use crate::deck_nodes::{deck_of, node_of};
use crate::declared::declared_part;
use crate::handle::Handle;
use rp_base::{Config, NodeId};
use rp_deck::{Deck, DeckProgram};
use rp_requests::Refusal;
use sha2::{Digest, Sha256};
use std::alloc::Global;

/// How many bytes the header of a device has.
pub const HEADER_BYTES: usize = 40;

/// The header of the device of a node of a deck, which a caller puts at the front of a fresh device,
/// before the records. Refused as `open_node`.
pub fn device_header(alloc: Global, deck: &[u8], number: u8) -> Result<[u8; HEADER_BYTES], Refusal>
    requires { length deck.now + 1 < 2 ^ 32 }
    // claim (ok): The header of a device names its node, how many nodes and positions its deck has, and
    //   the SHA-256 digest of the deck's text up to its script
    ensures ok { IfOk result (HasHeader deck.now number) }
    // claim (err): A node of a deck has no header for the one reason for which it is not opened
    ensures err { IfErr result (OpensNoNode deck.now number) }
{
    let Deck {
        config,
        program,
        ..
    } = deck_of(alloc, deck)?;
    let node = node_of(config.nodes, number)?;
    if !has_objects(&program) {
        return Err(Refusal::NoObjects);
    }
    Ok(header_of(node, config, deck))
}

/// Whether the program is one of protected objects.
fn has_objects(program: &DeckProgram) -> bool
    ensures { result ≡ has_objects program.now }
{
    match program {
        DeckProgram::Objects(_) => true,
        DeckProgram::Tally(_) => false,
    }
}

/// Opens a node of a deck over its device: the records that are after the header. `found` counts the
/// bytes after the header alone. Refused with `WrongDevice` if the device begins with no header or
/// with another, and otherwise as `open_node`.
pub fn open_device(
    alloc: Global,
    deck: &[u8],
    number: u8,
    device: &[u8],
    handle: &mut Handle,
) -> Result<Found, Refusal>
    requires { length deck.now + 1 < 2 ^ 32 }
    // claim (ok): A node is opened over a device that begins with its header, by the records after that
    ensures ok { IfOk result (λ found. OpensDevice deck.now number device.now handle.new.kept
        found.records found.kept) }
    ensures tail { IfOk result (λ found. found.tail
        ≡ tail_of (drop found.kept (drop header_bytes device.now))) }
    // claim (err): A device that begins with another header, or with none, is refused as that
    ensures err { IfErr result (OpensNoDevice deck.now number device.now) }
    // claim as open_node (same)
    ensures same { OnErr result (handle.new.kept ≡ handle.old.kept) }
{
    let header = device_header(alloc, deck, number)?;
    if !device.starts_with(&header) {
        return Err(Refusal::WrongDevice);
    }
    let (_, records) = device.split_at(HEADER_BYTES);
    open_node(alloc, deck, number, records, handle)
}

/// The header of the device of this node of a deck of this configuration and text.
fn header_of(node: NodeId, config: Config, deck: &[u8]) -> [u8; HEADER_BYTES]
    ensures { result ≡ header_text node config deck.now }
{
    let fingerprint = Sha256::digest(declared_part(deck));
    let [high, low] = config.max_positions.to_be_bytes();
    let mut header = [0; HEADER_BYTES];
    header[..8].copy_from_slice(&[82, 80, 68, 1, node.get(), config.nodes, high, low]);
    header[8..].copy_from_slice(&fingerprint);
    header
}
