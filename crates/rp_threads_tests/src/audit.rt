ghost use Rattle.std.specs.Prelude.{List, ℕ};
ghost use Rattle.rp_threads.specs.rp_boxes.specs.Audits.{IsGotReport};

use crate::setup::{all_seats, empty_devices, expect_eq, node, one_tally, receive_each};
use rp_base::{Action, NodeId, Position};
use rp_boxes::{Added, AllSeats, Audit, NodeSeat, Put};
use rp_codec::Party;
use rp_machine::{Machine, Tally};
use rp_replica::Input;
use rp_store::{Device, MemDevice};
use rp_threads::node_step;
use std::alloc::Global;
use std::process::Abort;

/// Each node receives the packets in its boxes from the nodes, one from each.
fn go_round<M: Machine, D: Device>(rt: &impl Abort, nodes: &mut [NodeSeat<M, D>], alloc: Global) {
    for seat in nodes.iter_mut() {
        receive_each(rt, seat, alloc);
    }
}

/// Node 1 takes a tick and leads, and all nodes receive their packets until each has applied the
/// tick.
fn tick<M: Machine, D: Device>(
    rt: &impl Abort,
    alloc: Global,
    nodes: &mut [NodeSeat<M, D>],
    now: u32,
) {
    let leader = nodes.first_mut().expect(rt, "node 1");
    node_step(leader, alloc, &Input::Tick { now }).expect(rt, "a tick");
    node_step(leader, alloc, &Input::Lead(None)).expect(rt, "node 1 leads");
    for _ in 0..8 {
        go_round(rt, nodes, alloc);
    }
}

/// The audit gets a report of the first node from a position on, and returns its text.
fn reported<M: Machine, D: Device>(
    rt: &impl Abort,
    alloc: Global,
    nodes: &mut [NodeSeat<M, D>],
    audit: &mut Audit<M>,
    first: u16,
) -> Vec<u8>
    ensures got { IsGotReport audit.new.seat.part result.items }
    ensures kept { (text : List ℕ) → IsGotReport audit.old.seat.part text
        → IsGotReport audit.new.seat.part text }
{
    let first = Position::new(first).expect(rt, "a position");
    let seat = nodes.first_mut().expect(rt, "node 1");
    let report = seat.report(alloc, first).expect(rt, "a report");
    seat.put(report.bytes).ok().expect(rt, "an empty box");
    let text = audit.fetch(Party::Node(seat.number()));
    text.expect(rt, "the report")
}

/// The audit adds a report, and keeps all reports that it got before.
fn adds<M: Machine>(rt: &impl Abort, audit: &mut Audit<M>, alloc: Global, report: &[u8]) -> Added
    requires { IsGotReport audit.old.seat.part report.now }
    ensures kept { (text : List ℕ) → IsGotReport audit.old.seat.part text
        → IsGotReport audit.new.seat.part text }
{
    audit.add(alloc, report).expect(rt, "memory for the report")
}

/// A report of the first node from a position on is added.
fn adds_next<M: Machine, D: Device>(
    rt: &impl Abort,
    alloc: Global,
    nodes: &mut [NodeSeat<M, D>],
    audit: &mut Audit<M>,
    first: u16,
) -> Added {
    let report = reported(rt, alloc, nodes, audit, first);
    adds(rt, audit, alloc, report.as_slice())
}

/// The nodes have applied one action, and report it; after they have applied one more, the report
/// of both is added, and then that of the first.
fn adds_late<M: Machine, D: Device>(
    rt: &impl Abort,
    alloc: Global,
    nodes: &mut [NodeSeat<M, D>],
    audit: &mut Audit<M>,
) -> [Added; 2] {
    let one = reported(rt, alloc, nodes, audit, 1);
    tick(rt, alloc, nodes, 2);
    let two = reported(rt, alloc, nodes, audit, 1);
    let second = adds(rt, audit, alloc, two.as_slice());
    [second, adds(rt, audit, alloc, one.as_slice())]
}

/// The actions that are known of node 1.
fn known_of<M: Machine>(rt: &impl Abort, audit: &Audit<M>, alloc: Global) -> Vec<Action> {
    let known = audit.known(NodeId::first());
    Vec::from_slice(alloc, known).expect(rt, "memory for the actions")
}

/// The results of adding reports of the first node, and the actions then known of it.
#[derive(Drop)]
struct Heard {
    outcomes: [Added; 4],
    known: Vec<Action>,
}

/// Node 1 reports before it has applied anything, and after one action, two and three. The report
/// of one is added after that of two.
fn heard_by<M: Machine, D: Device>(
    rt: &impl Abort,
    alloc: Global,
    nodes: &mut [NodeSeat<M, D>],
    audit: &mut Audit<M>,
) -> Heard {
    let gap = adds_next(rt, alloc, nodes, audit, 3);
    tick(rt, alloc, nodes, 1);
    let [second, following] = adds_late(rt, alloc, nodes, audit);
    tick(rt, alloc, nodes, 3);
    let third = adds_next(rt, alloc, nodes, audit, 3);
    Heard {
        outcomes: [gap, second, following, third],
        known: known_of(rt, audit, alloc),
    }
}

/// What the audit of a cluster hears of the first node.
fn hear<R: Abort, M: Machine, D: Device>(
    rt: &R,
    alloc: Global,
    program: &M::Program,
    devices: Vec<D>,
) -> Heard {
    let AllSeats {
        nodes,
        tasks,
        audit,
    } = all_seats::<R, M, D>(rt, alloc, program, devices);
    drop(tasks);
    let mut nodes = nodes;
    let mut audit = Audit::new(alloc, audit);
    let heard = heard_by(rt, alloc, nodes.as_mut_slice(), &mut audit);
    drop(audit);
    drop(nodes);
    heard
}

#[test]
fn an_audit_knows_what_was_reported_without_a_gap(rt: HostRuntime) {
    let alloc = rt.alloc();
    let devices = empty_devices(&rt, alloc);
    let heard = hear::<_, Tally, MemDevice>(&rt, alloc, &one_tally(&rt), devices);
    let node = node(&rt, 1);
    let outcomes = [
        Added::Gap { node, known: 0 },
        Added::Added { node, known: 2 },
        Added::Added { node, known: 2 },
        Added::Added { node, known: 3 },
    ];
    expect_eq(&rt, heard.outcomes.as_slice(), outcomes.as_slice());
    let ticks = [
        Action::Tick { now: 1 },
        Action::Tick { now: 2 },
        Action::Tick { now: 3 },
    ];
    expect_eq(&rt, heard.known.as_slice(), ticks.as_slice());
}
