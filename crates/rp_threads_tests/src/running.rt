//! Nodes and a task run, each in a thread.

ghost use Rattle.std.specs.Prelude.{◌≡◌, ◌<◌, [], All, IfSome, length, slice_get};
ghost use Rattle.rp_threads.specs.rp_board.specs.Parts.{fresh_part, OfTask};
ghost use Rattle.rp_threads.specs.rp_model.specs.Parts.{fresh_task};

use crate::setup::{all_seats, empty_devices, expect_eq, node, one_tally};
use rp_base::{Fault, NodeId, Operation, Position};
use rp_boxes::{Added, Audit, NodeSeat, TaskSeat};
use rp_codec::{Body, Party, decode, packet_len};
use rp_machine::{Machine, Tally};
use rp_replica::Input;
use rp_store::{Device, MemDevice};
use rp_tasks::FaultLine;
use rp_threads::{
    Gate, LoopOptions, NeverOver, NodeEnd, NodeStart, TaskCall, TaskEnd, TaskStart, node_step,
    run_threads,
};
use std::alloc::Global;
use std::process::Abort;
use std::sync::Wait;
use std::sync::atomic::{AtomicU64, Ordering};
use std::thread::Threads;

/// How many turns each node and each task makes.
const TURNS: u64 = 400;

/// How often a node polls before it gives up.
const LOOKS: u64 = 100_000_000;

/// Holds all nodes except the first until that one leads, and then holds the first until the second
/// has sent a packet. If one thread made all turns, no order of them would pass.
#[derive(Drop)]
struct InStep {
    led: AtomicU64,
    answered: AtomicU64,
    /// Set once a node has polled for too long.
    late: AtomicU64,
}

impl InStep {
    fn new() -> Self {
        InStep {
            led: AtomicU64::new(0),
            answered: AtomicU64::new(0),
            late: AtomicU64::new(0),
        }
    }

    /// Polls until the flag is set.
    fn look_for(&self, flag: &AtomicU64) {
        if self.late.load(Ordering::SeqCst) != 0 {
            return;
        }
        for _ in 0..LOOKS {
            if flag.load(Ordering::SeqCst) != 0 {
                return;
            }
        }
        self.late.store(1, Ordering::SeqCst);
    }
}

impl Gate for InStep {
    ghost use Rattle.std.specs.Prelude.{◌≡◌, true};

    ghost lets = { λ node turn passes. passes ≡ true };

    ghost heard = { λ node turn sent. Unit {0} };

    fn before(&self, node: NodeId, _turn: u64) -> bool {
        if node.get() != 1 {
            self.look_for(&self.led);
        } else if self.led.load(Ordering::SeqCst) != 0 {
            self.look_for(&self.answered);
        }
        true
    }

    fn after(&self, node: NodeId, _turn: u64, sent: usize) {
        if sent == 0 {
            return;
        }
        match node.get() {
            1 => self.led.store(1, Ordering::SeqCst),
            2 => self.answered.store(1, Ordering::SeqCst),
            _ => {}
        }
    }
}

/// A node that is to start, whose link draws its random words from this seed.
fn node_start<M: Machine, D: Device>(
    rt: &impl Abort,
    alloc: Global,
    seat: NodeSeat<M, D>,
    seed: u8,
) -> NodeStart<M, D>
    ensures { result.line.held ≡ [] }
{
    let line = FaultLine::new(alloc, [seed; 32]).expect(rt, "memory for the link");
    NodeStart { seat, line }
}

/// The nodes that are to start.
fn node_starts<M: Machine, D: Device>(
    rt: &impl Abort,
    alloc: Global,
    seats: Vec<NodeSeat<M, D>>,
) -> Vec<NodeStart<M, D>>
    ensures count { length result.items ≡ length seats.items }
    ensures lines { All (λ start. start.line.held ≡ []) result.items }
{
    let mut starts = Vec::new(alloc);
    for seat in seats {
        let seed = seat.number().get();
        let start = node_start(rt, alloc, seat, seed);
        let Ok(()) = starts.push(start) else {
            rt.panic("memory for the start");
        };
    }
    starts
}

/// A task that is to start: it calls procedure 1 of object 1 with 5, through node 1 first.
fn task_start<M: Machine>(rt: &impl Abort, alloc: Global, seat: TaskSeat<M>) -> TaskStart<M>
    ensures seat { result.seat ≡ seat }
    ensures line { result.line.held ≡ [] }
{
    let call = TaskCall {
        node: NodeId::first(),
        object: 1,
        operation: Operation::Procedure(1),
        arg: 5,
    };
    TaskStart {
        seat,
        calls: Vec::from_slice(alloc, &[call]).expect(rt, "memory for the call"),
        line: FaultLine::new(alloc, [0; 32]).expect(rt, "memory for the link"),
    }
}

/// The list of only the first task, which is to start.
fn task_starts<M: Machine>(
    rt: &impl Abort,
    alloc: Global,
    seats: Vec<TaskSeat<M>>,
) -> Vec<TaskStart<M>>
    requires some { 0 < length seats.items }
    requires fresh { IfSome (slice_get seats.items 0) (λ seat.
        seat.part ≡ fresh_part (OfTask fresh_task)) }
    ensures lines { All (λ start. start.line.held ≡ []) result.items }
    ensures fresh { All (λ start. start.seat.part ≡ fresh_part (OfTask fresh_task)) result.items }
{
    let mut seats = seats;
    let first = task_start(rt, alloc, seats.remove(0));
    drop(seats);
    let mut starts = Vec::new(alloc);
    let Ok(()) = starts.push(first) else {
        rt.panic("memory for the start");
    };
    starts
}

/// The audit fetches the report of a node, and adds it. Returns how many actions of the node are
/// then known.
fn hear<M: Machine>(rt: &impl Abort, audit: &mut Audit<M>, alloc: Global, node: NodeId) -> u32 {
    let report = audit.fetch(Party::Node(node)).expect(rt, "a report");
    match audit
        .add(alloc, report.as_slice())
        .expect(rt, "memory for the report")
    {
        Added::Added { known, .. } => known,
        Added::Gap { .. } => rt.panic("the report leaves a gap"),
    }
}

/// The ballot in which a node leads at a position, from the first packet of that step.
fn led_in<M: Machine, D: Device>(
    rt: &impl Abort,
    seat: &mut NodeSeat<M, D>,
    alloc: Global,
    position: u32,
) -> u64 {
    let position = u16::try_from(position).ok().expect(rt, "a position");
    let sent = seat.turn(alloc, &Input::Lead(Position::new(position)));
    ballot_of(
        rt,
        alloc,
        sent.expect(rt, "the node leads").bytes.as_slice(),
    )
}

/// The ballot of the first of these packets.
fn ballot_of(rt: &impl Abort, alloc: Global, bytes: &[u8]) -> u64 {
    let len = packet_len(bytes).expect(rt, "a packet");
    let first = bytes.get(..len).expect(rt, "the first packet");
    let packet = decode(alloc, first).expect(rt, "memory for the packet");
    match packet.ok().expect(rt, "a valid packet").body() {
        Body::Prepare { ballot, .. } => ballot.get(),
        _ => rt.panic("the packet asks for no promise"),
    }
}

/// What a node reports after its turns, and how many of its actions are known from its report.
#[derive(Clone, Copy)]
struct NodeOutcome {
    received: u64,
    skipped: u64,
    applied: u32,
    known: u32,
}

/// A node reports to the audit.
fn outcome_at<M: Machine, D: Device>(
    rt: &impl Abort,
    end: &mut NodeEnd<M, D>,
    audit: &mut Audit<M>,
    alloc: Global,
) -> NodeOutcome {
    expect_eq(rt, end.fault, None);
    let applied = end.seat.applied().expect(rt, "a node that runs");
    let report = node_step(&mut end.seat, alloc, &Input::Report(Position::first()));
    report.expect(rt, "a report");
    NodeOutcome {
        received: end.counts.received,
        skipped: end.counts.skipped,
        applied,
        known: hear(rt, audit, alloc, end.seat.number()),
    }
}

/// All nodes report to the audit.
fn outcomes<M: Machine, D: Device>(
    rt: &impl Abort,
    ends: &mut [NodeEnd<M, D>],
    audit: &mut Audit<M>,
    alloc: Global,
) -> Vec<NodeOutcome> {
    let mut stated = Vec::new(alloc);
    for end in ends.iter_mut() {
        let outcome = outcome_at(rt, end, audit, alloc);
        stated.push(outcome).expect(rt, "memory for an outcome");
    }
    stated
}

/// Whether the actions known of one node are a prefix of those of the other.
fn begin<M: Machine>(rt: &impl Abort, audit: &Audit<M>, one: u8, other: u8) -> bool {
    let one = audit.known(node(rt, one));
    let other = audit.known(node(rt, other));
    let mut pairs = one.iter().zip(other.iter());
    pairs.all(|(mine, theirs)| mine == theirs)
}

/// Whether the task has a reply, or still waits for it.
fn asked<M: Machine>(task: &mut TaskSeat<M>, alloc: Global) -> bool {
    if !task.replies().is_empty() {
        return true;
    }
    let further = task.call(alloc, NodeId::first(), 1, Operation::Procedure(1), 5);
    matches!(further, Err(Fault::TaskBusy))
}

/// How many calls the task made, and whether the last has a reply or waits for it.
fn asked_by<M: Machine>(rt: &impl Abort, ends: &mut [TaskEnd<M>], alloc: Global) -> (usize, bool) {
    let end = ends.first_mut().expect(rt, "task 1");
    expect_eq(rt, end.fault, None);
    (end.made, asked(&mut end.seat, alloc))
}

/// The ballot in which node 1 leads at the position after those that it has applied.
fn next_ballot<M: Machine, D: Device>(
    rt: &impl Abort,
    ends: &mut [NodeEnd<M, D>],
    alloc: Global,
) -> u64 {
    let leader = ends.first_mut().expect(rt, "node 1");
    let applied = leader.seat.applied().expect(rt, "a node that runs");
    led_in(rt, &mut leader.seat, alloc, applied.wrapping_add(1))
}

/// The results after all threads have ended.
#[derive(Drop)]
struct Outcome {
    nodes: Vec<NodeOutcome>,
    agree: bool,
    made: usize,
    asked: bool,
    ballot: u64,
}

/// What nodes and the task report after their turns.
fn outcome_of<M: Machine, D: Device>(
    rt: &impl Abort,
    alloc: Global,
    nodes: &mut [NodeEnd<M, D>],
    tasks: &mut [TaskEnd<M>],
    audit: &mut Audit<M>,
) -> Outcome {
    let stated = outcomes(rt, nodes, audit, alloc);
    audit.look();
    let (made, asked) = asked_by(rt, tasks, alloc);
    Outcome {
        nodes: stated,
        agree: begin(rt, audit, 1, 2) && begin(rt, audit, 2, 3) && begin(rt, audit, 1, 3),
        made,
        asked,
        ballot: next_ballot(rt, nodes, alloc),
    }
}

/// Three nodes and the first task run in threads, and then report to the audit.
fn run_three<R: Threads + Wait + Abort, M: Machine + Send, D: Device + Send, G: Gate + Sync>(
    rt: &R,
    alloc: Global,
    program: &M::Program,
    devices: Vec<D>,
    gate: &G,
) -> Outcome
where
    M::Program: Send,
{
    let all = all_seats::<R, M, D>(rt, alloc, program, devices);
    let nodes = node_starts(rt, alloc, all.nodes);
    let tasks = task_starts(rt, alloc, all.tasks);
    let options = LoopOptions {
        alloc,
        gate,
        ending: &NeverOver,
        turns: TURNS,
    };
    let ends = run_threads(rt, nodes, tasks, options);
    let (mut nodes, mut tasks) = ends.ok().expect(rt, "threads");
    let mut audit = Audit::new(alloc, all.audit);
    let outcome = outcome_of(
        rt,
        alloc,
        nodes.as_mut_slice(),
        tasks.as_mut_slice(),
        &mut audit,
    );
    drop(nodes);
    drop(tasks);
    drop(audit);
    outcome
}

/// Each node received packets, skipped no turn, and reported all that it had applied.
fn expect_reported(rt: &impl Abort, nodes: &[NodeOutcome]) {
    expect_eq(rt, nodes.len(), 3);
    for node in nodes {
        let whole = node.received > 0 && node.known >= node.applied;
        expect_eq(rt, (node.skipped, whole), (0, true));
    }
}

#[test]
fn three_nodes_and_a_task_run_in_threads(rt: HostRuntime) {
    let alloc = rt.alloc();
    let gate = InStep::new();
    let devices = empty_devices(&rt, alloc);
    let program = one_tally(&rt);
    let stated = run_three::<_, Tally, MemDevice, _>(&rt, alloc, &program, devices, &gate);
    expect_eq(&rt, gate.late.load(Ordering::SeqCst), 0);
    expect_reported(&rt, stated.nodes.as_slice());
    expect_eq(&rt, (stated.agree, stated.asked), (true, true));
    expect_eq(&rt, stated.made, 1);
    expect_eq(&rt, stated.ballot > 9, true);
}
