//! Buffers that a seat keeps for later packets, so that these need no new memory. A seat that takes
//! a packet out of a box leaves an empty buffer there, which the sender takes when it puts its next
//! packet.

ghost use Rattle.std.specs.Prelude.{◌≡◌, ◌≤◌, [], IfOk, vec_capacity, vec_len};
ghost use Rattle.rp_board.specs.Rule.{IsVacant};

use std::alloc::{AllocError, Global};

/// At most how many buffers a seat keeps: a step sends at most seven packets.
const MOST_SPARES: usize = 8;

/// Room for the buffers of a seat, which then takes no memory to keep one.
pub fn spare_room(alloc: Global) -> Result<Vec<Vec<u8>>, AllocError>
    // claim: A seat has room for its buffers from the start, and keeps none yet
    ensures { IfOk result (λ spares. spares.items ≡ []) }
{
    Vec::with_capacity(alloc, MOST_SPARES)
}

/// Keeps a buffer, if there is room for one more. Its contents are discarded. This takes no memory.
#[inline(always)]
pub(crate) fn keep(spares: &mut Vec<Vec<u8>>, buffer: Vec<u8>)
    ensures { vec_len spares.old ≤ vec_capacity spares.old
        → vec_len spares.new ≤ vec_capacity spares.old }
{
    if spares.len() < spares.capacity() {
        let _kept = spares.push(buffer);
    }
}

/// Keeps a buffer, if there is one.
pub(crate) fn keep_left(spares: &mut Vec<Vec<u8>>, left: Option<Vec<u8>>) {
    if let Some(buffer) = left {
        keep(spares, buffer);
    }
}

/// Takes out the last of these buffers, cleared, if there is one.
pub(crate) fn spare(spares: &mut Vec<Vec<u8>>) -> Option<Vec<u8>>
    ensures { IsVacant result }
{
    let mut buffer = spares.pop()?;
    buffer.clear();
    Some(buffer)
}

/// Takes out the last of these buffers, cleared, or else makes one that has no memory yet.
pub(crate) fn spare_buffer(spares: &mut Vec<Vec<u8>>, alloc: Global) -> Vec<u8>
    ensures { result.items ≡ [] }
{
    match spare(spares) {
        Some(buffer) => buffer,
        None => Vec::new(alloc),
    }
}
