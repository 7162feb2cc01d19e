//! The byte by which a packet names a party: node k is k, task t is 16 + t, the audit is 32.

ghost use Rattle.std.specs.Prelude.{◌≡◌, ◌≢◌};
ghost use Rattle.rp_codec.specs.Message.{Message, IsPacket, IsParty};
ghost use Rattle.rp_codec.specs.declared.packet.Party.{Party as PartyOf};
ghost use Rattle.rp_codec.specs.Text.{party_number, text_of};

use crate::packet::Party;
use rp_base::{NodeId, TaskId};

/// Task t is named by `TASK_BASE` + t.
pub(crate) const TASK_BASE: u8 = 16;

/// The byte that names the audit.
pub(crate) const AUDIT: u8 = 32;

/// The place of a text, in either version, at which the byte of its receiver is, from 0.
pub const RECEIVER: usize = 3;

/// The byte that names a party.
#[inline(always)]
pub fn party_number(party: Party) -> u8
    // claim: A packet names a party by one byte
    ensures { result ≡ party_number party }
{
    match party {
        Party::Node(node) => node.get(),
        Party::Task(task) => TASK_BASE + task.get(),
        Party::Audit => AUDIT,
    }
}

/// The party that a byte names, or the audit if it names none.
#[inline(always)]
pub fn party_of(byte: u8) -> Party
    // claim: The party that a byte names is found by it
    ensures named { (party : PartyOf) → IsParty party → party_number party ≡ byte
        → result ≡ party }
    ensures none { ((party : PartyOf) → IsParty party → party_number party ≢ byte)
        → result ≡ PartyOf.Audit }
{
    if let Some(node) = NodeId::new(byte) {
        return Party::Node(node);
    }
    match TaskId::new(byte.wrapping_sub(TASK_BASE)) {
        Some(task) => Party::Task(task),
        None => Party::Audit,
    }
}

/// To whom a packet is, by its text.
#[inline(always)]
pub fn receiver_of(text: &[u8]) -> Party
    requires { (m : Message) × IsPacket m × (text.now ≡ text_of m) }
    // claim: The receiver of a packet is the party that its text names
    ensures { (m : Message) → IsPacket m → text.now ≡ text_of m → result ≡ m.to }
{
    party_of(text[RECEIVER])
}
