//! The seat of a node.

ghost use Rattle.std.specs.Prelude.{◌≡◌, ◌⊎◌, nat_lt, length, false, IfOk, IfErr, IsOk, IsOkUnless, IsTrue};
ghost use Rattle.rp_base.specs.Sets.{Has};
ghost use Rattle.rp_base.specs.declared.fault.Fault.TheVariants as faults;
ghost use Rattle.rp_codec.specs.Message.{Message, IsPacket};
ghost use Rattle.rp_codec.specs.declared.packet.Party.TheVariants.{Node};
ghost use Rattle.rp_model.specs.Parts.{Running};
ghost use Rattle.rp_actors.specs.rp_rules.specs.Inputs.{IsRightInput};
ghost use Rattle.rp_actors.specs.rp_rules.specs.declared.input.Input.TheVariants.{Report};
ghost use Rattle.rp_boxes.specs.NodeSeats.{IsGot, IsTurn, IsCutTurn, IsLightTurn, IsNoTurn, HasApplied, HasUncounted, IsRunning, IsStopped, IsReport};

use crate::input::keeps_ranges;
use rp_base::{Fault, NodeId, Position};
use rp_board::{Fetch, Put, Seat};
use rp_codec::Party;
use rp_machine::Machine;
use rp_replica::{Input, Replica, Sent, texts_are_packets};
use rp_store::{Device, InfallibleDevice};
use std::alloc::Global;
use std::marker::{Brand, Model};

/// The seat of a node: the node itself, and its seat at the table that all share. It may be moved to
/// another thread, and none of its calls blocks.
#[derive(Drop)]
pub struct NodeSeat<M: Machine, D: Device> {
    pub(crate) replica: Replica<M, D>,
    pub(crate) seat: Seat<M, NodeId>,
    /// A buffer for the offsets at which the packets of a step end.
    pub(crate) ends: Vec<usize>,
}

impl<M: Machine, D: Device> Model for NodeSeat<M, D> {
    ghost use Rattle.rp_board.specs.Seats.{SeatState};
    ghost use Rattle.rp_boxes.specs.NodeSeats.{IsNodeAt};

    ghost Value = { SeatState M.Program };

    ghost view = { λ s. record s.seat { failures = s.replica.disk.failures } };

    ghost invariant = { λ s. IsNodeAt M.begin s.replica s.seat.setup s.seat.part.role };
}

impl<M: Machine, D: Device> NodeSeat<M, D> {
    /// Makes one step of the node, with a packet that the seat got or with another input. It is one
    /// event, and the result is the packets that the node sends. `OutOfMemory`, `Failed` once the
    /// device has failed, or `BallotsSpent` or `LogFull` if the node cannot lead: then nothing has
    /// happened. `Device` if the device fails: then the node stops within the step.
    #[inline(always)]
    pub fn turn(&mut self, alloc: Global, input: &Input) -> Result<Sent, Fault>
        requires right { IsRightInput input.now }
        requires got { IsGot self.old.part input.now }
        // claim: A turn of a node's seat is exactly one event of its part, and its bytes are the
        //   event's packets. A fault of the device is returned only if a call of the device failed
        //   in that turn, while the step wrote its record; it is a cut of that event. Otherwise
        //   nothing changes: `Failed` if the node is stopped; if it runs, the step's refusal, or
        //   out of memory if the step has none
        ensures ok { IfOk result (λ sent. IsTurn M.next M.answers M.begin
            self.old input.now self.new sent) }
        ensures err { IfErr result (λ fault. IsCutTurn M.next M.answers M.begin
            self.old input.now self.new fault
            ⊎ IsNoTurn M.next M.answers M.begin self.old input.now self.new fault) }
        // claim: A turn of a node's seat that sends no packet, writes no record and counts no vote
        //   takes no memory: at a node that runs it is made, unless a long packet is read for it
        ensures certain { IsLightTurn M.next M.answers M.begin self.old input.now → IsOk result }
    {
        keeps_ranges(input);
        texts_are_packets();
        self.seat.packets_are_right();
        if self.replica.has_failed() {
            return Err(Fault::Failed);
        }
        let buffer = self.seat.buffer(alloc);
        match self.replica.turn_with(alloc, buffer, &mut self.ends, input) {
            Ok(sent) => {
                let event = (&self.replica, input, &sent);
                self.seat.note::<_, Brand>(&event);
                Ok(sent)
            }
            Err(fault) => {
                if !self.replica.has_failed() {
                    return Err(fault);
                }
                let event = (&self.replica, input);
                self.seat.note::<_, Brand>(&event);
                Err(fault)
            }
        }
    }

    /// The number of the node.
    pub fn number(&self) -> NodeId
        ensures { result ≡ self.now.setup.number }
    {
        self.seat.number()
    }

    /// All packets that the seat sent are right. It does nothing: its contract is for the callers'
    /// proofs.
    pub fn sends_packets(&self)
        ensures { (m : Message) → Has m self.now.part.sent → IsPacket m }
    {
        self.seat.packets_are_right();
    }

    /// How many actions the node has applied. `Failed` once its device has failed: then the node is
    /// stopped.
    pub fn applied(&self) -> Result<u32, Fault>
        // claim as NodeSeat::report
        ensures ok { IfOk result (λ count. HasApplied self.now.part count) }
        // claim (stopped, only): How many actions a node has applied is refused only if it is
        //   stopped
        ensures only { IsOkUnless result faults.Failed }
        ensures stopped { IfErr result (λ fault. IsStopped self.now.part) }
    {
        if self.replica.has_failed() {
            return Err(Fault::Failed);
        }
        Ok(self.replica.applied())
    }

    /// Whether something is pending at the node, to be proposed or decided: a call, an interrupt or
    /// a tick. Nothing is pending once its device has failed.
    pub fn has_pending(&self) -> bool
        // claim: Whether something is pending at a node is returned; if the node is stopped,
        //   nothing is
        ensures runs { (running : Running) → IsRunning self.now.part running
            → result ≡ nat_lt 0 (length running.pending) }
        ensures stopped { IsStopped self.now.part → result ≡ false }
    {
        !self.replica.has_failed() && self.replica.has_pending()
    }

    /// Whether something is pending at the node that did not count yet. A call that waits at a closed
    /// entry counted. Nothing is pending once its device has failed.
    pub fn has_uncounted(&self) -> bool
        // claim: Whether something is pending at a node that did not count yet is returned; if the
        //   node is stopped, nothing is
        ensures some { IsTrue result → HasUncounted M.next M.answers M.begin self.now }
        ensures none { result ≡ false → ¬ HasUncounted M.next M.answers M.begin self.now }
    {
        !self.replica.has_failed() && self.replica.has_uncounted()
    }

    /// Makes a step as `turn` does, in which the node sends a report to the audit: the actions that
    /// it has applied at the positions from `first` on.
    pub fn report(&mut self, alloc: Global, first: Position) -> Result<Sent, Fault>
        // claim (ok): A report of a seat has exactly the actions that its node had applied, from a
        //   position on; their number is returned too
        ensures ok { IfOk result (λ sent. IsReport first self.old self.new sent) }
        ensures err { IfErr result (λ fault. IsCutTurn M.next M.answers M.begin
            self.old (Report first) self.new fault
            ⊎ IsNoTurn M.next M.answers M.begin self.old (Report first) self.new fault) }
    {
        self.turn(alloc, &Input::Report(first))
    }
}

impl<M: Machine, D: Device> Fetch<M> for NodeSeat<M, D> {
    ghost use Rattle.rp_codec.specs.declared.packet.Party.TheVariants.{Node};

    ghost state = { λ seat. seat };

    ghost party = { Node };

    fn fetch(&mut self, from: Party) -> Option<Vec<u8>> {
        self.seat.fetch(from)
    }
}

impl<M: Machine, D: Device> Put<M> for NodeSeat<M, D> {
    ghost use Rattle.rp_codec.specs.declared.packet.Party.TheVariants.{Node};

    ghost state = { λ seat. seat };

    ghost party = { Node };

    fn put(&mut self, packet: Vec<u8>) -> Result<(), Vec<u8>> {
        self.seat.put(packet)
    }

    fn lend(&mut self, buffer: Vec<u8>) {
        self.seat.lend(buffer);
    }

    fn buffer(&mut self, alloc: Global) -> Vec<u8> {
        self.seat.buffer(alloc)
    }
}

impl<M: Machine, D: InfallibleDevice> NodeSeat<M, D> {
    /// No call of the device has failed, since such a device never fails. It does nothing: its
    /// contract is for the callers' proofs.
    pub fn never_failed(&self)
        // claim: A node's seat over a device that never fails has no failure
        ensures { self.now.failures ≡ 0 }
    {
        self.replica.never_failed();
    }
}
