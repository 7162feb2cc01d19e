//! Where a packet's text ends, without reading it.

ghost use Rattle.std.specs.Prelude.{◌≡◌, ℕ, List, length};
ghost use Rattle.rp_codec.specs.Decoding.{BeginsWithPacket};
ghost use Rattle.rp_codec.specs.Length.{action_length, reply_length};
ghost use Rattle.rp_codec.specs.Message.{Message, IsPacket};
ghost use Rattle.rp_codec.specs.Text.{text_of, IsTextBefore};

use crate::decoding::packet_len;

#[inline(always)]
fn action_len(tag: u8) -> usize
    ensures { result ≡ action_length tag }
{
    match tag {
        0 => 1,
        1 => 17,
        2 => 6,
        _ => 5,
    }
}

#[inline(always)]
fn reply_len(tag: u8) -> usize
    ensures { result ≡ reply_length tag }
{
    match tag {
        1 => 9,
        2 => 2,
        _ => 1,
    }
}

/// How many bytes the packet's text has, of version 1 or 2, that the bytes begin with. Any bytes
/// may follow it. It reads three bytes at most, but for a report and a promise for a range, which
/// it reads whole. It takes no memory.
#[inline(always)]
pub fn text_len(bytes: &[u8]) -> usize
    requires { BeginsWithPacket bytes.now }
    // claim: The length of the packet text that bytes are known to begin with is returned without
    //   decoding them
    ensures { (p : Message) (rest : List ℕ) → IsPacket p → IsTextBefore p rest bytes.now
        → result ≡ length (text_of p) }
{
    match bytes[1] {
        1 => 21,
        2 => 14,
        3 if bytes[14] == 0 => 15,
        3 => 23 + action_len(bytes[23]),
        4 => 14 + action_len(bytes[14]),
        5 => 14 + action_len(bytes[14]),
        6 => 6 + action_len(bytes[6]),
        7 => 6,
        8 => 22,
        9 => 8 + reply_len(bytes[8]),
        12 => 15,
        _ => packet_len(bytes).unwrap(),
    }
}
