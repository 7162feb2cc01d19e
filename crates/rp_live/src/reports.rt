//! The audit reads the logs of the nodes.

ghost use Rattle.std.specs.Prelude.{◌≡◌, ℕ, ◌↔◌, ◌+◌, ◌<◌, ◌≤◌, ◌^◌, All, Bool, None, length, IsTrue, IfSome, IfOk, OnOk, IsOkUnless};
ghost use Rattle.std.specs.List.{AllZip};
ghost use Rattle.rp_board.specs.Seats.{IsSentText};
ghost use Rattle.rp_boxes.specs.Audits.{known_of};
ghost use Rattle.rp_boxes.specs.NodeSeats.{HasApplied, IsReport};
ghost use Rattle.rp_threads.specs.rp_codec.specs.declared.packet.Party.TheVariants.{Node};
ghost use Rattle.rp_threads.specs.Turns.{IsOfferedToBox};
ghost use Rattle.rp_live.specs.Ends.{HadNoFault};
ghost use Rattle.rp_live.specs.LiveOutcome.{KnowsAll};
ghost use Rattle.rp_live.specs.Seats.{AreNumbered, HasAppliedAt, HasOnlyReported, HasReportedSince, IsEndOfRun, IsRead, IsReadFrom, KnowsMore, KnowsNothingAbove, KnowsSameBut, Reports, StillRuns};
ghost use Rattle.rp_threads.specs.Rounds.{Runs};

use crate::ends::node_ended;
use rp_base::{Fault, NodeId, Position};
use rp_boxes::{Audit, NodeSeat, Put};
use rp_codec::{Party, one_text};
use rp_machine::Machine;
use rp_replica::Sent;
use rp_store::InfallibleDevice;
use rp_threads::NodeEnd;
use std::alloc::Global;

/// The node makes a report of the actions that it has applied, from a position on.
fn report_from<M: Machine, D: InfallibleDevice>(
    seat: &mut NodeSeat<M, D>,
    alloc: Global,
    first: Position,
) -> Result<Sent, Fault>
    requires runs { Runs seat.old.part }
    ensures ok { IfOk result (λ sent. IsReport first seat.old seat.new sent) }
    ensures only { IsOkUnless result Fault.OutOfMemory }
{
    let report = seat.report(alloc, first);
    seat.never_failed();
    report
}

/// Puts a report that the node sent into its box. If the box is in use, the report is lost.
fn put_report<M: Machine, D: InfallibleDevice>(seat: &mut NodeSeat<M, D>, report: Vec<u8>)
    requires { IsSentText seat.old.part report.items }
    ensures { (is_lost : Bool) × IsOfferedToBox M.next M.answers M.begin (Node seat.old.setup.number)
        report.items seat.old seat.new is_lost }
{
    let _given_back = seat.put(report);
}

/// The node makes a report from a position on, and the report goes into its box.
fn send_report<M: Machine, D: InfallibleDevice>(
    seat: &mut NodeSeat<M, D>,
    alloc: Global,
    first: Position,
) -> Result<(), Fault>
    requires runs { Runs seat.old.part }
    ensures reported { OnOk result (Reports M.next M.answers M.begin
        first seat.old seat.new) }
    ensures only { IsOkUnless result Fault.OutOfMemory }
{
    let report = report_from(seat, alloc, first)?;
    put_report(seat, report.bytes);
    Ok(())
}

/// The node reports once, from a position on. The report goes through its box to the audit, which
/// adds it. It is lost if the box is not empty.
fn report_once<M: Machine, D: InfallibleDevice>(
    audit: &mut Audit<M>,
    seat: &mut NodeSeat<M, D>,
    alloc: Global,
    first: Position,
) -> Result<(), Fault>
    requires runs { Runs seat.old.part }
    ensures same { OnOk result (audit.new.seat.setup ≡ audit.old.seat.setup) }
    ensures reported { OnOk result (Reports M.next M.answers M.begin
        first seat.old seat.new) }
    ensures more { OnOk result (KnowsMore audit.old.known audit.new.known) }
    ensures others { OnOk result (KnowsSameBut seat.old.setup.number
        audit.old.known audit.new.known) }
    ensures only { IsOkUnless result Fault.OutOfMemory }
{
    one_text();
    send_report(seat, alloc, first)?;
    if let Some(packet) = audit.fetch(Party::Node(seat.number())) {
        audit.add(alloc, packet.as_slice())?;
    }
    Ok(())
}

/// The position after n actions, if a log can have it.
fn position_after(known: usize) -> Option<Position>
    requires { known < 2 ^ 32 }
    ensures some { IfSome result (λ position. position ≡ known + 1) }
    ensures none { result ≡ None → 65535 ≤ known }
{
    Position::new(u16::try_from(known + 1).ok()?)
}

/// The node reports until the audit knows all that the node has applied, or a report adds nothing.
/// Returns how many actions the node has applied.
fn read_log<M: Machine, D: InfallibleDevice>(
    audit: &mut Audit<M>,
    seat: &mut NodeSeat<M, D>,
    alloc: Global,
) -> Result<u32, Fault>
    requires { Runs seat.old.part }
    ensures same { OnOk result (audit.new.seat.setup ≡ audit.old.seat.setup) }
    ensures reported { OnOk result (HasOnlyReported seat.old seat.new) }
    ensures others { OnOk result (KnowsSameBut seat.old.setup.number
        audit.old.known audit.new.known) }
    ensures applied { IfOk result (λ count. HasApplied seat.new.part count) }
    ensures read { OnOk result (IsRead M.next M.answers M.begin
        (length (known_of audit.old.known seat.old.setup.number)) seat.old seat.new
        (length (known_of audit.new.known seat.old.setup.number))) }
    ensures only { IsOkUnless result Fault.OutOfMemory }
{
    let node = seat.number();
    let applied = seat.applied()?;
    let mut known = audit.known(node).len();
    while known < applied as usize {
        let Some(first) = position_after(known) else {
            return Ok(applied);
        };
        report_once(audit, seat, alloc, first)?;
        let now_known = audit.known(node).len();
        if now_known <= known {
            return Ok(applied);
        }
        known = now_known;
    }
    Ok(applied)
}

/// Reads the log of a node whose thread ended, as `read_log` does. Returns its seat, and how many
/// actions it has applied.
fn read_end<M: Machine, D: InfallibleDevice>(
    audit: &mut Audit<M>,
    end: NodeEnd<M, D>,
    alloc: Global,
) -> Result<(NodeSeat<M, D>, u32), Fault>
    requires ended { IsEndOfRun end }
    requires still { StillRuns end }
    ensures none { OnOk result (HadNoFault end) }
    ensures same { OnOk result (audit.new.seat.setup ≡ audit.old.seat.setup) }
    ensures reported { IfOk result (λ read. HasOnlyReported end.seat read.0) }
    ensures others { OnOk result (KnowsSameBut end.seat.setup.number
        audit.old.known audit.new.known) }
    ensures applied { IfOk result (λ read. HasApplied read.0.part read.1) }
    ensures read { IfOk result (λ read. IsRead M.next M.answers M.begin
        (length (known_of audit.old.known end.seat.setup.number)) end.seat read.0
        (length (known_of audit.new.known end.seat.setup.number))) }
    ensures only { IsOkUnless result Fault.OutOfMemory }
{
    let mut seat = node_ended(end)?;
    let applied = read_log(audit, &mut seat, alloc)?;
    Ok((seat, applied))
}

/// The nodes report one after the other. They are those of the numbers from 1 on, and the audit
/// knows nothing of them yet. Returns their seats, and how many actions each has applied.
pub(crate) fn read_logs<M: Machine, D: InfallibleDevice>(
    audit: &mut Audit<M>,
    nodes: Vec<NodeEnd<M, D>>,
    alloc: Global,
) -> Result<(Vec<NodeSeat<M, D>>, Vec<u32>), Fault>
    requires ended { All IsEndOfRun nodes.items }
    requires still { All StillRuns nodes.items }
    requires numbers { AreNumbered 0 nodes.items }
    requires unread { KnowsNothingAbove 0 audit.old.known }
    ensures none { OnOk result (All HadNoFault nodes.items) }
    ensures same { OnOk result (audit.new.seat.setup ≡ audit.old.seat.setup) }
    ensures reported { IfOk result (λ read. AllZip HasReportedSince nodes.items read.0.items) }
    ensures applied { IfOk result (λ read. AllZip HasAppliedAt read.0.items read.1.items) }
    ensures read { IfOk result (λ read. AllZip (IsReadFrom M.next M.answers M.begin
        audit.new.known) nodes.items read.0.items) }
    ensures only { IsOkUnless result Fault.OutOfMemory }
{
    let mut seats = Vec::new(alloc);
    let mut applied = Vec::new(alloc);
    for end in nodes {
        let (seat, count) = read_end(audit, end, alloc)?;
        seats.push(seat)?;
        applied.push(count)?;
    }
    Ok((seats, applied))
}

/// Whether the audit knows as many actions of each node as that node has applied.
pub(crate) fn knows_all<M: Machine>(audit: &Audit<M>, applied: &[u32]) -> bool
    requires { length applied.now ≤ 7 }
    ensures { IsTrue result ↔ KnowsAll audit.now.known applied.now }
{
    let mut number = 0;
    for count in applied {
        number += 1;
        let node = NodeId::new(number).unwrap();
        if audit.known(node).len() != *count as usize {
            return false;
        }
    }
    true
}
