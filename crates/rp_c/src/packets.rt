//! How long a packet is, and whether bytes are one.

ghost use Rattle.std.specs.Prelude.{◌≡◌};
ghost use Rattle.rp_c.specs.Packets.{ChecksPacket, PutsLength};
ghost use Rattle.rp_c.specs.Status.{status_code};

use crate::status::{Status, reason_number};
use rp_codec::{decode, packet_len};
use std::alloc::Global;

/// Writes the length of the packet that the bytes begin with; any bytes may follow it. `BadPacket`
/// if they begin with none: then nothing is written.
#[unsafe(no_mangle)]
pub extern "C" fn rp_packet_length(bytes: &[u8], count: &mut usize) -> u8
    // claim: A C caller gets the length of the packet that its bytes begin with, or that they begin
    //   with none
    ensures { (status : Status) × (result ≡ status_code status)
        × PutsLength bytes.now count.old count.new status }
{
    put_length(bytes, count).code()
}

/// As `rp_packet_length`, but returns its status by name.
fn put_length(bytes: &[u8], count: &mut usize) -> Status
    ensures { PutsLength bytes.now count.old count.new result }
{
    match packet_len(bytes) {
        Some(found) => {
            *count = found;
            Status::Done
        }
        None => Status::BadPacket,
    }
}

/// Whether the bytes are exactly one packet. `BadPacket` if they are not: then the number of the
/// reason is written (`reason_number`). `OutOfMemory` only for a report or a promise for a range,
/// whose lists take memory. Otherwise nothing is written.
#[unsafe(no_mangle)]
pub extern "C" fn rp_packet_check(alloc: Global, bytes: &[u8], reason: &mut u8) -> u8
    // claim: A C caller learns whether its bytes are one packet, and else the one reason
    ensures { (status : Status) × (result ≡ status_code status)
        × ChecksPacket bytes.now reason.old reason.new status }
{
    check(alloc, bytes, reason).code()
}

/// As `rp_packet_check`, but returns its status by name.
fn check(alloc: Global, bytes: &[u8], reason: &mut u8) -> Status
    ensures { ChecksPacket bytes.now reason.old reason.new result }
{
    match decode(alloc, bytes) {
        Ok(Ok(_)) => Status::Done,
        Ok(Err(why)) => {
            *reason = reason_number(why);
            Status::BadPacket
        }
        Err(_) => Status::OutOfMemory,
    }
}
