//! Puts the packets of a step into their boxes.

ghost use Rattle.std.specs.Prelude.{◌≡◌, ◌≤◌, false};
ghost use Rattle.rp_codec.specs.declared.packet.Party.TheVariants.{Node};
ghost use Rattle.rp_board.specs.Seats.{IsSentText};
ghost use Rattle.rp_threads.specs.Turns.{AreSent, AreSentTexts, AreTextsOffered, HasFate, IsAllOffered, is_lost, is_uncopied};

use rp_boxes::{NodeSeat, Put};
use rp_codec::{one_text, text_len};
use rp_machine::Machine;
use rp_replica::Sent;
use rp_store::Device;
use std::alloc::Global;

/// What became of a packet that a node sent.
#[derive(Clone, Copy)]
pub(crate) enum Fate {
    /// It went into its box.
    Put,
    /// It is lost, because its box was not empty.
    InUse,
    /// It is lost, because there was no memory for a copy of it.
    NoMemory,
}

impl Fate {
    /// Whether the packet is lost.
    fn is_lost(self) -> bool
        ensures { result ≡ is_lost self }
    {
        !matches!(self, Fate::Put)
    }

    /// Whether it is lost because there was no memory for a copy of it.
    fn is_uncopied(self) -> bool
        ensures { result ≡ is_uncopied self }
    {
        matches!(self, Fate::NoMemory)
    }
}

/// How many packets of a step are lost, and how many of these because there was no memory for a copy
/// of them.
#[derive(Clone, Copy)]
pub(crate) struct Losses {
    pub(crate) lost: usize,
    pub(crate) uncopied: usize,
}

/// Puts a packet that the node sent into its box. If the box is not empty, the packet is lost, and
/// the seat keeps its buffer.
fn put_text<M: Machine, D: Device>(seat: &mut NodeSeat<M, D>, packet: Vec<u8>) -> Fate
    requires { IsSentText seat.old.part packet.items }
    ensures fate { HasFate M.next M.answers M.begin (Node seat.old.setup.number) packet.items
        seat.old seat.new result }
    ensures copied { is_uncopied result ≡ false }
{
    match seat.put(packet) {
        Ok(()) => Fate::Put,
        Err(packet) => {
            seat.lend(packet);
            Fate::InUse
        }
    }
}

/// Puts a copy of a packet that the node sent into its box, as `put_text` does. If there is no
/// memory for the copy, the packet is lost.
fn put_copy<M: Machine, D: Device>(seat: &mut NodeSeat<M, D>, alloc: Global, text: &[u8]) -> Fate
    requires { IsSentText seat.old.part text.now }
    ensures { HasFate M.next M.answers M.begin (Node seat.old.setup.number) text.now
        seat.old seat.new result }
{
    let mut packet = seat.buffer(alloc);
    match packet.extend_from_slice(text) {
        Ok(()) => put_text(seat, packet),
        Err(_) => Fate::NoMemory,
    }
}

/// Puts the packets of a step, one by one, as `put_text` does. A single packet is put as it is;
/// several are copied one by one. Returns how many are lost.
pub(crate) fn put_all<M: Machine, D: Device>(
    seat: &mut NodeSeat<M, D>,
    alloc: Global,
    sent: Sent,
) -> Losses
    requires { AreSent seat.old.part sent }
    ensures offered { IsAllOffered M.next M.answers M.begin (Node seat.old.setup.number)
        sent seat.old seat.new result.lost result.uncopied }
    ensures alone { sent.packets ≤ 1 → result.uncopied ≡ 0 }
{
    if sent.packets == 0 {
        seat.lend(sent.bytes);
        return Losses {
            lost: 0,
            uncopied: 0,
        };
    }
    one_text();
    seat.sends_packets();
    if sent.packets == 1 {
        let fate = put_text(seat, sent.bytes);
        return Losses {
            lost: usize::from(fate.is_lost()),
            uncopied: 0,
        };
    }
    let losses = put_each(seat, alloc, sent.bytes.as_slice());
    seat.lend(sent.bytes);
    losses
}

/// Puts copies of packets that the node sent, one by one. Returns how many are lost.
fn put_each<M: Machine, D: Device>(seat: &mut NodeSeat<M, D>, alloc: Global, texts: &[u8]) -> Losses
    requires { AreSentTexts seat.old.part texts.now }
    ensures { AreTextsOffered M.next M.answers M.begin (Node seat.old.setup.number) texts.now
        seat.old seat.new result.lost result.uncopied }
{
    seat.sends_packets();
    let mut rest = texts;
    let mut lost = 0;
    let mut uncopied = 0;
    'packets: while !rest.is_empty() {
        let (text, others) = rest.split_at(text_len(rest));
        let fate = put_copy(seat, alloc, text);
        lost += usize::from(fate.is_lost());
        uncopied += usize::from(fate.is_uncopied());
        rest = others;
    }
    Losses { lost, uncopied }
}
