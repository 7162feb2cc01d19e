//! A node's turns, one after the other.

ghost use Rattle.std.specs.Prelude.{◌≡◌, ◌+◌, ◌^◌, ◌<◌, ◌≤◌, Bool, false, true, if◌then◌else◌, [], None, IfOk, IfErr, IfSome, IfNone, OnSome};
ghost use Rattle.rp_threads.specs.Lines.{HoldsTextsOf};
ghost use Rattle.rp_threads.specs.Loops.{is_refusal, is_idle, is_uneventful, counted, total_of, with_turn};
ghost use Rattle.rp_threads.specs.Rounds.{IsToLeadAt, HasWaited, NeedNotLead, CountsQuiet, IsLeadAnew, IsMade, IsUnmade, IsTurnOf, IsTurnUnmade, RestsAfter, node_state, worker_at};
ghost use Rattle.rp_threads.specs.Threads.{IsLooped, end_of};
ghost use Rattle.rp_threads.specs.Turns.{IsEventBy, IsStopBy};

use crate::actor::{Actor, run_turns};
use crate::ending::Ending;
use crate::gate::Gate;
use crate::options::LoopOptions;
use crate::rotation::{is_to_lead, sender};
use crate::turns::{Turn, TurnResult, node_step, node_turn};
use rp_base::{Fault, Position};
use rp_boxes::NodeSeat;
use rp_codec::Party;
use rp_machine::Machine;
use rp_patience::Patience;
use rp_replica::Input;
use rp_store::Device;
use rp_tasks::FaultLine;
use std::alloc::Global;

/// The end of a node's loop.
#[derive(Drop)]
pub struct NodeEnd<M: Machine, D: Device> {
    pub seat: NodeSeat<M, D>,
    /// The number of lost packets in it includes those that were lost on the node's link since the
    /// link was made.
    pub counts: Counts,
    /// The fault that ended the loop, if one did: its own, or one by which the run was stopped.
    pub fault: Option<Fault>,
}

/// How many turns there were of each kind, and how many packets were lost in them. A turn is
/// skipped if the gate does not let it pass, or if the node is refused to lead.
#[derive(Clone, Copy, Debug)]
pub struct Counts {
    pub received: u64,
    pub led: u64,
    pub idle: u64,
    pub skipped: u64,
    /// At boxes that were not empty, or for want of memory for a copy, in the turns that were made.
    /// The count saturates at `u64::MAX`.
    pub lost: u64,
}

impl Counts {
    /// Counts a turn that was made or skipped.
    fn count(&mut self, made: Option<TurnResult>)
        requires { total_of self.old + 1 < 2 ^ 64 }
        ensures { self.new ≡ counted made self.old }
    {
        match made {
            Some(turned) => {
                self.add(turned.turn);
                self.lost = self.lost.saturating_add(turned.packets.lost as u64);
            }
            None => self.skipped += 1,
        }
    }

    /// Counts one more turn of this kind.
    fn add(&mut self, turn: Turn)
        requires { total_of self.old + 1 < 2 ^ 64 }
        ensures { self.new ≡ with_turn turn self.old }
    {
        match turn {
            Turn::Received => self.received += 1,
            Turn::Led => self.led += 1,
            Turn::Idle => self.idle += 1,
        }
    }
}

/// Whether a fault only means that the node cannot lead.
fn refuses_to_lead(fault: Fault) -> bool
    ensures { result ≡ is_refusal fault }
{
    matches!(fault, Fault::BallotsSpent | Fault::LogFull)
}

/// A node that makes turns: its seat, the link that delivers its packets, and its patience.
#[derive(Drop)]
struct Worker<M: Machine, D: Device> {
    seat: NodeSeat<M, D>,
    link: FaultLine,
    patience: Patience,
}

/// Whether a turn was idle.
fn is_idle(turn: Turn) -> bool
    ensures { result ≡ is_idle turn }
{
    matches!(turn, Turn::Idle)
}

/// Whether nothing happened in a turn: it was idle, or skipped.
fn is_uneventful(made: Option<TurnResult>) -> bool
    ensures { result ≡ is_uneventful made }
{
    match made {
        Some(turned) => is_idle(turned.turn),
        None => true,
    }
}

/// The position after n, if there is one.
fn position_after(applied: u32) -> Option<Position>
    ensures some { IfSome result (λ position. position ≡ applied + 1) }
    ensures none { result ≡ None → 65535 ≤ applied }
{
    Position::new(u16::try_from(applied).ok()?.checked_add(1)?)
}

/// The position at which a node leads with a new ballot after an idle turn: the first position that
/// it has not applied, if something is pending at the node that did not count yet and its patience is
/// over. The patience counts the turn if something is. For a call that waits at a closed entry, which
/// counted, nobody leads.
fn position_to_lead<M: Machine, D: Device>(
    seat: &NodeSeat<M, D>,
    patience: &mut Patience,
) -> Option<Position>
    ensures some { IfSome result (IsToLeadAt M.next M.answers M.begin seat.now) }
    ensures waited { OnSome result (HasWaited seat.now patience.old) }
    ensures none { IfNone result (NeedNotLead M.next M.answers M.begin seat.now patience.old) }
    ensures counts { CountsQuiet M.next M.answers M.begin seat.now patience.old patience.new }
{
    let Ok(applied) = seat.applied() else {
        return None;
    };
    if !seat.has_uncounted() {
        return None;
    }
    if !patience.is_over(seat.number(), applied, 1) {
        return None;
    }
    position_after(applied)
}

/// The node leads at a position, with a new ballot.
fn lead_at<M: Machine, D: Device>(
    seat: &mut NodeSeat<M, D>,
    alloc: Global,
    position: Position,
) -> Result<TurnResult, Fault>
    requires { IsToLeadAt M.next M.answers M.begin seat.old position }
    ensures got { seat.new.part.got ≡ seat.old.part.got }
    ensures ok { IfOk result (λ turned. (turned.turn ≡ Turn.Led)
        × IsEventBy M.next M.answers M.begin
        (IsLeadAnew M.next M.answers M.begin seat.old) seat.old seat.new turned.packets) }
    ensures err { IfErr result (λ fault. IsStopBy M.next M.answers M.begin
        (IsLeadAnew M.next M.answers M.begin seat.old) seat.old seat.new fault) }
{
    let packets = node_step(seat, alloc, &Input::Lead(Some(position)))?;
    Ok(TurnResult {
        turn: Turn::Led,
        packets,
    })
}

impl<M: Machine, D: Device> Worker<M, D> {
    /// A turn of the node. If it was idle and the node's patience is over, the node leads with a
    /// new ballot.
    fn work(&mut self, alloc: Global, from: Party, lead: bool) -> Result<TurnResult, Fault>
        requires held { HoldsTextsOf self.old.seat.part.got self.old.link }
        ensures held { HoldsTextsOf self.new.seat.part.got self.new.link }
        ensures ok { IfOk result (IsMade M.next M.answers M.begin from lead
            (worker_at self.old) (worker_at self.new)) }
        ensures err { IfErr result (IsUnmade M.next M.answers M.begin from lead
            (worker_at self.old) (worker_at self.new)) }
    {
        let turned = node_turn(&mut self.seat, &mut self.link, alloc, from, lead)?;
        if !is_idle(turned.turn) {
            return Ok(turned);
        }
        match position_to_lead(&self.seat, &mut self.patience) {
            Some(position) => lead_at(&mut self.seat, alloc, position),
            None => Ok(turned),
        }
    }

    /// Whether the node rests after a turn: nothing happened in it, and nothing is pending.
    fn rests(&self, made: Option<TurnResult>) -> bool
        ensures { RestsAfter made self.now.seat.part result }
    {
        if self.seat.has_pending() {
            return false;
        }
        is_uneventful(made)
    }

    /// One turn of a loop. `None` if it is skipped.
    fn turn<G: Gate>(
        &mut self,
        alloc: Global,
        nodes: u8,
        gate: &G,
        turn: u64,
    ) -> Result<Option<TurnResult>, Fault>
        requires nodes { nodes ≤ 7 }
        requires held { HoldsTextsOf self.old.seat.part.got self.old.link }
        ensures held { HoldsTextsOf self.new.seat.part.got self.new.link }
        ensures ok { IfOk result (IsTurnOf M.next M.answers M.begin G.lets G.heard nodes turn
            (worker_at self.old) (worker_at self.new)) }
        ensures err { IfErr result (λ fault. (is_refusal fault ≡ false)
            × IsTurnUnmade M.next M.answers M.begin G.lets G.heard nodes turn
            (worker_at self.old) (worker_at self.new) fault) }
    {
        let node = self.seat.number();
        if !gate.before(node, turn) {
            return Ok(None);
        }
        let lead = is_to_lead(node, turn);
        match self.work(alloc, sender(nodes, turn), lead) {
            Ok(turned) => {
                gate.after(node, turn, turned.packets.sent);
                Ok(Some(turned))
            }
            Err(fault) if refuses_to_lead(fault) => {
                gate.after(node, turn, 0);
                Ok(None)
            }
            Err(fault) => Err(fault),
        }
    }
}

/// A node in its loop, among n nodes: how many turns it made, and the last after which it did not
/// rest.
#[derive(Drop)]
struct NodeLoop<M: Machine, D: Device> {
    worker: Worker<M, D>,
    counts: Counts,
    stirred: u64,
    nodes: u8,
}

impl<M: Machine, D: Device> NodeLoop<M, D> {
    /// The last turn after which the node did not rest, once it made the turn of this number.
    fn last_stirred(&self, made: Option<TurnResult>, turn: u64) -> u64
        ensures { (rests : Bool) × RestsAfter made self.now.worker.seat.part rests
            × (result ≡ (if rests then self.now.stirred else turn)) }
    {
        if self.worker.rests(made) {
            self.stirred
        } else {
            turn
        }
    }

    /// The end of the loop.
    fn ended(self, fault: Option<Fault>) -> NodeEnd<M, D>
        ensures { result ≡ end_of (node_state self) fault }
    {
        let counts = self.counts;
        let worker = self.worker;
        let lost = counts.lost.saturating_add(worker.link.lost());
        NodeEnd {
            seat: worker.seat,
            counts: Counts { lost, ..counts },
            fault,
        }
    }
}

impl<M: Machine, D: Device, G: Gate> Actor<G> for NodeLoop<M, D> {
    ghost use Rattle.std.specs.Prelude.{◌≡◌, ◌+◌, ◌-◌, ◌≤◌};
    ghost use Rattle.rp_codec.specs.declared.packet.Party.TheVariants.{Node};
    ghost use Rattle.rp_threads.specs.Lines.{HoldsTextsOf};
    ghost use Rattle.rp_threads.specs.Loops.{total_of};
    ghost use Rattle.rp_threads.specs.Rounds.{IsCountedTurn, IsUncountedTurn, node_state};

    ghost party = { λ node. Node node.worker.seat.setup.number };

    ghost rested = { λ done node. done - node.stirred };

    ghost ready = { λ turn node. (node.nodes ≤ 7)
        × HoldsTextsOf node.worker.seat.part.got node.worker.link
        × (total_of node.counts + 1 ≡ turn) };

    ghost turned = { λ turn old new. (new.nodes ≡ old.nodes)
        × IsCountedTurn M.next M.answers M.begin G.lets G.heard old.nodes turn (node_state old)
        (node_state new) };

    ghost unmade = { λ turn old new fault.
        IsUncountedTurn M.next M.answers M.begin G.lets G.heard old.nodes turn (node_state old)
        (node_state new) fault };

    fn party(&self) -> Party {
        Party::Node(self.worker.seat.number())
    }

    fn rested(&self, done: u64) -> u64 {
        done.saturating_sub(self.stirred)
    }

    fn turn(&mut self, alloc: Global, gate: &G, turn: u64) -> Result<(), Fault> {
        let made = self.worker.turn(alloc, self.nodes, gate, turn)?;
        self.counts.count(made);
        self.stirred = self.last_stirred(made, turn);
        Ok(())
    }
}

/// Makes the turns of a node, as many as the options say, or those before the run is over. They empty the boxes of the nodes 1 to `nodes` and of the tasks, in rotation. Node n is to lead in the turns whose number is divisible
/// by 8 + n. If a turn is idle while something is pending that did not count yet, the node leads with
/// a new ballot at the first position that it has not applied, once it has waited long enough
/// (`Patience`). A fault
/// ends the loop, unless it only means that the node cannot lead: `OutOfMemory`, `Device` if its
/// device failed, or `Failed` if it had failed before the first turn; and so does one by which the
/// run is stopped. The loop never blocks, unless the gate or the ending does.
pub fn node_loop<M: Machine, D: Device, G: Gate, E: Ending>(
    seat: NodeSeat<M, D>,
    line: FaultLine,
    nodes: u8,
    options: LoopOptions<'_, G, E>,
) -> NodeEnd<M, D>
    requires nodes { nodes ≤ 7 }
    requires line { line.held ≡ [] }
    // claim (result): A node's loop makes its turns from 1 on, one after the other: each empties
    //   the box of that turn's sender and is the turn of the node, or one in which it leads with a
    //   new ballot at the first position that it has not applied; a turn is skipped if the gate
    //   says so, or if the node is refused to lead
    // claim (result): After an idle turn a node leads with a new ballot exactly if something is
    //   pending that did not count yet, it has waited as many quiet turns as its patience says, and a
    //   position is left. A turn is quiet if it is idle and something is pending that did not count
    // claim (result): The gate is called after each turn of a node that it lets pass, with that
    //   node, that turn and the number of packets sent in it, 0 if the node was refused to lead
    // claim (result): Before each turn of a node it is asked whether the run is over, with that turn
    //   and for how many turns the node has rested: they were uneventful, and nothing was pending at
    //   it after them. A turn is made only if the answer is no
    // claim (result): Without a fault a node's loop makes exactly the turns that it was asked for, if
    //   no run is ever over, and otherwise all of them or those before the answer that the run is
    //   over. It counts those that it made, its seat had one event for each that was received or
    //   led, and only turns in which it was not to lead are idle; failures of the device are counted
    //   only if it ends by `Device`
    // claim (result): It is notified that a node's loop ended, and by which fault
    // claim (result): The packets that a node's loop counts as lost are those of its turns that
    //   found their boxes in use or no memory for a copy, and the copies that its link lost
    // claim (result): A node's loop ends by the fault of a turn that was not made, after turns that
    //   were: out of memory, `Device` if a call of the device failed, or `Failed` if the node was
    //   stopped from the start; or by the fault that was the answer whether the run is over
    ensures { IsLooped M.next M.answers M.begin G.lets G.heard E.over E.ended nodes
        options.entry.turns seat line result }
{
    let worker = Worker {
        seat,
        link: line,
        patience: Patience::new(),
    };
    let counts = Counts {
        received: 0,
        led: 0,
        idle: 0,
        skipped: 0,
        lost: 0,
    };
    let mut node = NodeLoop {
        worker,
        counts,
        stirred: 0,
        nodes,
    };
    let fault = run_turns(&mut node, options);
    node.ended(fault)
}
