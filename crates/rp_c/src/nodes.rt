//! Opens a node of a deck by its handle.

ghost use Rattle.std.specs.Prelude.{◌≡◌, ◌<◌, ◌≤◌, ◌++◌, drop, length, IfSome, IfNone, Option};
ghost use Rattle.rp_script.specs.rp_base.specs.declared.fault.Fault.TheVariants as faults;
ghost use Rattle.rp_handles.specs.Devices.{header_bytes};
ghost use Rattle.rp_requests.specs.declared.refusal.Refusal.TheVariants as refusals;
ghost use Rattle.rp_script.specs.Given.{most_bytes};
ghost use Rattle.rp_requests.specs.declared.refusal.Refusal.{Refusal as RefusalOf};
ghost use Rattle.rp_c.specs.Handles.{OpensByHandle, OpensDeviceByHandle, PutsHeader, opening_code, tail_code, with_bad_line};

use crate::answer::code_of_opening;
use crate::status::deck_reason_number;
use rp_base::Fault;
use rp_handles::{Found, HEADER_BYTES, Handle, device_header, open_device, open_node};
use rp_requests::{Refusal, Tail};
use rp_script::MOST_BYTES;
use std::alloc::Global;

/// What a node found on its device, or why its deck is bad, in the layout that a C caller reads.
#[repr(C)]
#[derive(Clone, Copy)]
pub struct NodeFound {
    /// How many records the device holds.
    pub records: usize,
    /// How many bytes of the device are whole records.
    pub kept: usize,
    /// What is after them, by its number (`tail_number`).
    pub tail: u8,
    /// The number of the first reason for which the deck is bad (`deck_reason_number`), or 0.
    pub reason: u8,
    /// The first bad line of the deck, from 1; 0 if it is not bad.
    pub line: u32,
}

/// Opens a node of a deck over the bytes of its device, which are copied; what the handle kept
/// before is closed. The deck's script is not run. `found` is what the device holds: the caller
/// truncates its device to `kept` bytes before the node's first step. A refusal changes nothing, but
/// that `BadDeck` writes the line and the reason into `found`.
#[unsafe(no_mangle)]
pub extern "C" fn rp_node_open(
    alloc: Global,
    deck: &[u8],
    number: u8,
    device: &[u8],
    node: &mut Handle,
    found: &mut NodeFound,
) -> u8
    // claim: A C caller gets a handle of the node of its deck, of at most 1,048,576 bytes, over its
    //   device's bytes; or the number of the one reason for which there is none, with the first bad
    //   line of a bad deck and its first reason, and then nothing else has changed
    ensures { (refusal : Option RefusalOf) × (result ≡ opening_code refusal)
        × OpensByHandle deck.now number device.now node.old.kept node.new.kept
        found.old found.new refusal }
{
    let asked = DeckNode {
        deck,
        number,
        device,
    };
    code_of_opening(opened(alloc, asked, node, found))
}

/// As `rp_node_open`, over a device that begins with the node's header (`rp_device_header`):
/// `WrongDevice` if it begins with another header, or with none. `found` counts the bytes after the
/// header alone.
#[unsafe(no_mangle)]
pub extern "C" fn rp_device_open(
    alloc: Global,
    deck: &[u8],
    number: u8,
    device: &[u8],
    node: &mut Handle,
    found: &mut NodeFound,
) -> u8
    // claim: A C caller gets a handle of a node over a device that begins with its header, by the records
    //   after that; a device that begins with another header, or with none, is refused as that, and
    //   then nothing has changed
    ensures { (refusal : Option RefusalOf) × (result ≡ opening_code refusal)
        × OpensDeviceByHandle deck.now number device.now node.old.kept node.new.kept
        found.old found.new refusal }
{
    let asked = DeckNode {
        deck,
        number,
        device,
    };
    code_of_opening(device_opened(alloc, asked, node, found))
}

/// Puts the header of a node's device into the answer, of which it is the first 40 bytes.
/// `ShortAnswer` if there are fewer, and otherwise as `rp_node_open`; a refusal changes nothing.
#[unsafe(no_mangle)]
pub extern "C" fn rp_device_header(alloc: Global, deck: &[u8], number: u8, header: &mut [u8]) -> u8
    // claim: A C caller gets the header of its node's device, or the number of the one reason for which
    //   there is none, and then nothing has changed
    ensures { (refusal : Option RefusalOf) × (result ≡ opening_code refusal)
        × PutsHeader deck.now number header.old header.new refusal }
{
    code_of_opening(put_header(alloc, deck, number, header))
}

/// A node of a deck, by its number, over the bytes of its device.
#[derive(Clone, Copy)]
struct DeckNode<'a> {
    deck: &'a [u8],
    number: u8,
    device: &'a [u8],
}

/// Opens a node, or returns the refusal.
fn opened(
    alloc: Global,
    asked: DeckNode<'_>,
    node: &mut Handle,
    found: &mut NodeFound,
) -> Option<Refusal>
    ensures { OpensByHandle asked.entry.deck.now asked.entry.number asked.entry.device.now
        node.old.kept node.new.kept found.old found.new result }
{
    if let Some(refusal) = too_long(asked.deck) {
        return Some(refusal);
    }
    match open_node(alloc, asked.deck, asked.number, asked.device, node) {
        Ok(there) => {
            *found = written(there);
            None
        }
        Err(refusal) => {
            write_bad_line(refusal, found);
            Some(refusal)
        }
    }
}

/// Opens a node over a device that begins with its header, or returns the refusal.
fn device_opened(
    alloc: Global,
    asked: DeckNode<'_>,
    node: &mut Handle,
    found: &mut NodeFound,
) -> Option<Refusal>
    ensures { OpensDeviceByHandle asked.entry.deck.now asked.entry.number asked.entry.device.now
        node.old.kept node.new.kept found.old found.new result }
{
    if let Some(refusal) = too_long(asked.deck) {
        return Some(refusal);
    }
    match open_device(alloc, asked.deck, asked.number, asked.device, node) {
        Ok(there) => {
            *found = written(there);
            None
        }
        Err(refusal) => {
            write_bad_line(refusal, found);
            Some(refusal)
        }
    }
}

/// Puts the header of a node's device at the front of the buffer, or returns the refusal.
fn put_header(alloc: Global, deck: &[u8], number: u8, buffer: &mut [u8]) -> Option<Refusal>
    ensures { PutsHeader deck.now number buffer.old buffer.new result }
{
    if buffer.len() < HEADER_BYTES {
        return Some(Refusal::ShortAnswer(HEADER_BYTES));
    }
    if let Some(refusal) = too_long(deck) {
        return Some(refusal);
    }
    match device_header(alloc, deck, number) {
        Ok(header) => {
            copy_header(&header, buffer);
            None
        }
        Err(refusal) => Some(refusal),
    }
}

/// Puts a header at the front of the buffer, which is long enough.
fn copy_header(header: &[u8; HEADER_BYTES], buffer: &mut [u8])
    requires { header_bytes ≤ length buffer.old }
    ensures { buffer.new ≡ header.now ++ drop header_bytes buffer.old }
{
    buffer[..HEADER_BYTES].copy_from_slice(header);
}

/// The refusal of a deck that has too many bytes, or `None`.
fn too_long(deck: &[u8]) -> Option<Refusal>
    ensures some { IfSome result (λ refusal. (refusal ≡ refusals.Fault faults.Io)
        × (most_bytes < length deck.now)) }
    ensures none { IfNone result (length deck.now ≤ most_bytes) }
{
    if deck.len() > MOST_BYTES {
        Some(Refusal::Fault(Fault::Io))
    } else {
        None
    }
}

/// What a node found on its device, as it is written: with no bad line.
fn written(found: Found) -> NodeFound
    ensures { result ≡ record {
      records = found.records;
      kept = found.kept;
      tail = tail_code found.tail;
      reason = 0;
      line = 0;
    } }
{
    NodeFound {
        records: found.records,
        kept: found.kept,
        tail: tail_number(found.tail),
        reason: 0,
        line: 0,
    }
}

/// Writes the first bad line of a bad deck and the number of its reason.
fn write_bad_line(refusal: Refusal, found: &mut NodeFound)
    ensures { found.new ≡ with_bad_line refusal found.old }
{
    if let Refusal::Fault(Fault::BadDeck { line, reason }) = refusal {
        found.line = line;
        found.reason = deck_reason_number(reason);
    }
}

/// The number of what is after the whole records of a device: 0 is nothing.
fn tail_number(tail: Tail) -> u8
    ensures { result ≡ tail_code tail }
{
    match tail {
        Tail::Nothing => 0,
        Tail::Torn => 1,
        Tail::Damaged => 2,
    }
}
