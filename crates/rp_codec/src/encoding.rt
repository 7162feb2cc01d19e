//! Packets to bytes.

ghost use Rattle.std.specs.Prelude.{◌≡◌, ℕ, List, ◌++◌, length, IfOk, OnOk, OnErr};
ghost use Rattle.rp_codec.specs.Message.{Message, IsPacket};
ghost use Rattle.rp_codec.specs.Decoding.{IsLongBody};
ghost use Rattle.rp_codec.specs.declared.version.Version.{Version};
ghost use Rattle.rp_codec.specs.Text.{head_text, text_at, text_of, HasText};

use crate::body_text::put_body;
use crate::fields::VERSION;
use crate::kind::Kind;
use crate::list_text::put_list;
use crate::packet::{Body, Packet};
use crate::party_text::party_number;
use crate::short_text::{LONGEST_TEXT, ShortText};
use std::alloc::{AllocError, Global};

/// What is before the body.
#[inline(always)]
fn head_of(packet: &Packet) -> [u8; 4]
    ensures { result ≡ head_text packet.now }
{
    let kind = Kind::of_body(packet.body());
    [
        VERSION,
        kind.number(),
        party_number(packet.from()),
        party_number(packet.to()),
    ]
}

/// The one text of version 2 of a packet that is neither a report nor a promise for a range. It
/// takes no memory.
#[inline(always)]
pub fn text_of_packet(packet: &Packet) -> ShortText
    requires { ¬ IsLongBody packet.now.body }
    // claim: A packet that is neither a report nor a promise for a range is encoded in version 2
    //   without taking memory
    ensures { result ≡ text_of packet.now }
{
    let mut text = ShortText::starting_with(&head_of(packet));
    put_body(&mut text, packet.body());
    text
}

/// Puts the packet's one text of version 2 after the bytes. Where memory is refused, the bytes
/// stay.
#[inline(always)]
pub fn encode_onto(packet: &Packet, out: &mut Vec<u8>) -> Result<(), AllocError>
    // claim: `encode` gives the packet's one text of version 2, and `encode_onto` appends it to
    //   other bytes, or leaves them as they were
    ensures ok { OnOk result (out.new.items ≡ out.old.items ++ text_of packet.now) }
    ensures err { OnErr result (out.new.items ≡ out.old.items) }
{
    let mut front = ShortText::starting_with(&head_of(packet));
    put_body(&mut front, packet.body());
    match packet.body() {
        Body::Report { actions, .. } => put_list(out, &front, actions.as_slice()),
        Body::PromiseRange { votes, .. } => put_list(out, &front, votes.as_slice()),
        _ => out.extend_from_slice(front.as_slice()),
    }
}

/// The packet's one text of version 2.
pub fn encode(alloc: Global, packet: &Packet) -> Result<Vec<u8>, AllocError>
    ensures { IfOk result (λ v. v.items ≡ text_of packet.now) }
{
    let mut out = Vec::with_capacity(alloc, LONGEST_TEXT)?;
    encode_onto(packet, &mut out)?;
    Ok(out)
}

/// No packet's text of version 2 begins another's, whatever is after the two.
pub fn one_text()
    // claim: No packet's text of version 2 is a prefix of another's, and no record's
    ensures { (p q : Message) (x y : List ℕ) → IsPacket p → IsPacket q
        → text_of p ++ x ≡ text_of q ++ y → (p ≡ q) × (x ≡ y) }
{}

/// No packet's text of one version or the other begins another's, so none is of both, and a packet
/// has at most two. The two have one length.
pub fn two_texts()
    // claim: No text of either version is a prefix of another, so none is of both versions and a
    //   packet or record has two at most; the two have one length
    ensures apart { (v w : Version) (p q : Message) (x y : List ℕ) → IsPacket p → IsPacket q
        → HasText v p → HasText w q → text_at v p ++ x ≡ text_at w q ++ y
        → (v ≡ w) × (p ≡ q) × (x ≡ y) }
    ensures len { (v : Version) (p : Message) → length (text_at v p) ≡ length (text_of p) }
{}
