//! A node's turn.

ghost use Rattle.std.specs.Prelude.{◌≡◌, ◌⊎◌, IfOk, OnOk, IfErr, OnErr, IsSome, Bool, option_map};
ghost use Rattle.rp_base.specs.declared.fault.Fault.TheVariants.{OutOfMemory};
ghost use Rattle.rp_codec.specs.declared.packet.Party.TheVariants.{Node};
ghost use Rattle.rp_replica.specs.rp_rules.specs.Inputs.{IsRightInput};
ghost use Rattle.rp_boxes.specs.NodeSeats.{IsGot, IsTurn, IsCutTurn, IsNoTurn};
ghost use Rattle.rp_threads.specs.Lines.{HoldsTextsOf, given_on, line_after, line_with};
ghost use Rattle.rp_threads.specs.Turns.{IsLost, turn_of, Works, Fails, IsEventBy, IsStopBy, IsNodeTurn, IsStoppedTurn};

use crate::sends::put_all;
use rp_base::Fault;
use rp_boxes::{Fetch, NodeSeat, Put};
use rp_codec::Party;
use rp_machine::Machine;
use rp_replica::Input;
use rp_store::Device;
use rp_tasks::{FaultLine, gives_what_it_took};
use std::alloc::Global;

/// What a node does in a turn.
#[derive(Clone, Copy, Debug, PartialEq, Eq)]
pub enum Turn {
    /// It receives a packet.
    Received,
    /// It leads.
    Led,
    /// Nothing.
    Idle,
}

/// What happened to the packets of a step.
#[derive(Clone, Copy, Debug, PartialEq, Eq)]
pub struct PacketCounts {
    /// How many the step sent.
    pub sent: usize,
    /// How many of them are lost: their boxes were not empty, or there was no memory for a copy.
    pub lost: usize,
    /// How many of these are lost because there was no memory for a copy. A single packet needs none.
    pub uncopied: usize,
}

/// A turn that was made, and the packets that the node sent in it.
#[derive(Clone, Copy, Debug, PartialEq, Eq)]
pub struct TurnResult {
    pub turn: Turn,
    pub packets: PacketCounts,
}

/// The link takes the packet that was fetched, if one was. At `OutOfMemory` that packet is lost.
pub(crate) fn take_fetched(
    line: &mut FaultLine,
    alloc: Global,
    fetched: Option<Vec<u8>>,
) -> Result<(), Fault>
    ensures ok { OnOk result (line.new
        ≡ line_with (option_map (λ packet. packet.items) fetched) line.old) }
    ensures err { OnErr result (line.new ≡ line.old) }
    ensures fetched { OnErr result (IsSome fetched) }
    ensures only { IfErr result (λ fault. fault ≡ OutOfMemory) }
{
    match fetched {
        Some(packet) => line.take(alloc, packet),
        None => Ok(()),
    }
}

/// Makes one step of a node, with a packet that its seat got or with another input, and puts the
/// packets that it sends into their boxes. A packet whose box is not empty is lost, and so is one
/// for whose copy there is no memory: the others are put all the same. Returns how many packets
/// were sent and how many of them were lost. Refused as `NodeSeat::turn` is, which says what that
/// leaves.
pub fn node_step<M: Machine, D: Device>(
    seat: &mut NodeSeat<M, D>,
    alloc: Global,
    input: &Input,
) -> Result<PacketCounts, Fault>
    requires right { IsRightInput input.now }
    requires got { IsGot seat.old.part input.now }
    // claim: A step of a node's seat is one event, and then each packet that it sent went into its
    //   box, or found it in use, or found no memory for its copy, and is counted as lost in the last
    //   two cases; or it is the turn's refusal
    ensures got { seat.new.part.got ≡ seat.old.part.got }
    ensures ok { IfOk result (IsEventBy M.next M.answers M.begin
        (λ given. given ≡ input.now) seat.old seat.new) }
    ensures err { IfErr result (λ fault. IsStopBy M.next M.answers M.begin
        (λ given. given ≡ input.now) seat.old seat.new fault) }
{
    let sent = seat.turn(alloc, input)?;
    let packets = sent.packets;
    let losses = put_all(seat, alloc, sent);
    Ok(PacketCounts {
        sent: packets,
        lost: losses.lost,
        uncopied: losses.uncopied,
    })
}

/// The node receives the packet that the link passes on. If there is none, it leads if it is to.
fn work<M: Machine, D: Device>(
    seat: &mut NodeSeat<M, D>,
    line: &mut FaultLine,
    alloc: Global,
    lead: bool,
) -> Result<TurnResult, Fault>
    requires held { HoldsTextsOf seat.old.part.got line.old }
    ensures held { HoldsTextsOf seat.new.part.got line.new }
    ensures line { line.new ≡ line_after line.old }
    ensures turn { IfOk result (λ turned. turned.turn ≡ turn_of (given_on line.old) lead) }
    ensures ok { IfOk result (λ turned. Works M.next M.answers M.begin
        (given_on line.old) lead seat.old seat.new turned.packets) }
    ensures err { IfErr result (λ fault. Fails M.next M.answers M.begin
        (given_on line.old) lead seat.old seat.new fault) }
{
    gives_what_it_took();
    match line.release() {
        Some(packet) => {
            let packets = node_step(seat, alloc, &Input::Receive(packet.as_slice()))?;
            seat.lend(packet);
            Ok(TurnResult {
                turn: Turn::Received,
                packets,
            })
        }
        None if lead => {
            let packets = node_step(seat, alloc, &Input::Lead(None))?;
            Ok(TurnResult {
                turn: Turn::Led,
                packets,
            })
        }
        None => Ok(TurnResult {
            turn: Turn::Idle,
            packets: PacketCounts {
                sent: 0,
                lost: 0,
                uncopied: 0,
            },
        }),
    }
}

/// A turn of a node. The link takes the packet in the box from a party, if there is one, and the
/// node receives the packet that the link then passes on. If the link is empty, the node leads if
/// it is to, and idles otherwise. The packets that it sends go into their boxes; one whose box is
/// not empty, or for whose copy there is no memory, is lost. At a fault the packet that was fetched
/// is lost if memory ran out for it, and otherwise the packet that the link passed on.
pub fn node_turn<M: Machine, D: Device>(
    seat: &mut NodeSeat<M, D>,
    line: &mut FaultLine,
    alloc: Global,
    from: Party,
    lead: bool,
) -> Result<TurnResult, Fault>
    requires held { HoldsTextsOf seat.old.part.got line.old }
    // claim (ok, err, held): A turn of a node is one event or none: its link takes what is fetched,
    //   and the node receives what the link then passes on; if the link is empty the node leads
    //   when it is its turn, and idles otherwise
    ensures held { HoldsTextsOf seat.new.part.got line.new }
    ensures ok { IfOk result (λ turned. IsNodeTurn M.next M.answers M.begin
        from lead seat.old seat.new line.old line.new turned) }
    ensures err { IfErr result (λ fault. IsLost from (Node seat.old.setup.number)
        seat.old seat.new line.old line.new fault
        ⊎ IsStoppedTurn M.next M.answers M.begin
        from lead seat.old seat.new line.old line.new fault) }
{
    gives_what_it_took();
    let fetched = seat.fetch(from);
    take_fetched(line, alloc, fetched)?;
    work(seat, line, alloc, lead)
}
