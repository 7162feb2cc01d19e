use crate::compare::expect_eq;
use rp_base::{Config, Fault, NodeId, Operation, Position, Reply, TaskId};
use rp_machine::{Machine, Tally, TallyProgram};
use rp_model::{Event, Step};
use rp_store::{CutDevice, MemDevice};
use rp_world::*;
use std::alloc::Global;
use std::process::Abort;

/// A line of a script, as in a deck: nodes and tasks by their numbers.
#[derive(Clone, Copy)]
enum Line {
    /// A task calls a node, with this argument.
    Call(u8, u8, i64),
    /// A task asks a node again.
    Again(u8, u8),
    Lead(u8),
    /// A node leads at this many positions from the first on.
    Range(u8, u8),
    Deliver(u64),
    /// A message is never delivered.
    Lose(u64),
    /// A node stops within the delivery of a message, and this many bytes of its record are kept.
    Cut(u64, u64),
    Stop(u8),
    Restart(u8),
    /// Delivers each message that was neither delivered nor lost, in order.
    Drain,
}

use Line::{Again, Call, Cut, Deliver, Drain, Lead, Lose, Range, Restart, Stop};

/// The end of a run: how many messages there are, how many actions each node has applied, and the
/// last replies of tasks 1 and 2.
type End = (u64, [u16; 3], Option<Reply>, Option<Reply>);

/// Whether each message, by its number, was delivered or lost.
type Settled = [bool; 64];

/// A step, retried once if memory ran out and no message was sent.
fn step<M: Machine, D: CutDevice>(
    rt: &impl Abort,
    cluster: &mut Cluster<M, D>,
    alloc: Global,
    event: &Event,
) {
    let messages = cluster.messages();
    let answer = match cluster.step(alloc, event) {
        Err(Fault::OutOfMemory) if cluster.messages() == messages => cluster.step(alloc, event),
        answer => answer,
    };
    expect_eq(rt, answer.err(), None);
}

/// Notes that a message was delivered or lost.
fn settle(settled: &mut Settled, number: u64) {
    if let Some(place) = settled.get_mut(number as usize) {
        *place = true;
    }
}

/// Delivers each message that was neither delivered nor lost, in order.
fn drain<M: Machine, D: CutDevice>(
    rt: &impl Abort,
    cluster: &mut Cluster<M, D>,
    alloc: Global,
    settled: &mut Settled,
) {
    for number in 1..64 {
        if number > cluster.messages() {
            break;
        }
        if !settled[number as usize] {
            settle(settled, number);
            step(rt, cluster, alloc, &Event::Node(Step::Deliver(number)));
        }
    }
}

fn node(rt: &impl Abort, number: u8) -> NodeId {
    NodeId::new(number).expect(rt, "a node")
}

fn task(rt: &impl Abort, number: u8) -> TaskId {
    TaskId::new(number).expect(rt, "a task")
}

/// The event that a line asks for, if it asks for one.
fn event_of(rt: &impl Abort, line: Line) -> Option<Event> {
    let event = match line {
        Line::Call(caller, number, arg) => Event::Submit {
            task: task(rt, caller),
            node: node(rt, number),
            object: 1,
            operation: Operation::Procedure(1),
            arg,
        },
        Line::Again(caller, number) => Event::Again {
            task: task(rt, caller),
            node: node(rt, number),
        },
        Line::Lead(number) => Event::Node(Step::Lead {
            node: node(rt, number),
            position: None,
        }),
        Line::Range(number, count) => Event::Node(Step::LeadRange {
            node: node(rt, number),
            first: Position::first(),
            count,
        }),
        Line::Deliver(number) => Event::Node(Step::Deliver(number)),
        Line::Cut(kept, number) => Event::Cut {
            step: Step::Deliver(number),
            kept,
        },
        Line::Stop(number) => Event::Stop(node(rt, number)),
        Line::Restart(number) => Event::Restart(node(rt, number)),
        Line::Lose(_) | Line::Drain => return None,
    };
    Some(event)
}

/// Does what a line says.
fn follow<M: Machine, D: CutDevice>(
    rt: &impl Abort,
    cluster: &mut Cluster<M, D>,
    alloc: Global,
    settled: &mut Settled,
    line: Line,
) {
    if let Some(event) = event_of(rt, line) {
        step(rt, cluster, alloc, &event);
    }
    match line {
        Line::Deliver(number) | Line::Cut(_, number) | Line::Lose(number) => {
            settle(settled, number);
        }
        Line::Drain => drain(rt, cluster, alloc, settled),
        _ => {}
    }
}

/// How many actions a node has applied.
fn applied<M: Machine, D: CutDevice>(rt: &impl Abort, cluster: &Cluster<M, D>, number: u8) -> u16 {
    cluster.applied(node(rt, number)).expect(rt, "a node")
}

/// The last reply of a task.
fn last<M: Machine, D: CutDevice>(
    rt: &impl Abort,
    cluster: &Cluster<M, D>,
    number: u8,
) -> Option<Reply> {
    let answer = cluster.replies(task(rt, number)).last()?;
    Some(answer.reply)
}

/// The end of a run.
fn end_of<M: Machine, D: CutDevice>(rt: &impl Abort, cluster: &Cluster<M, D>) -> End {
    let first = applied(rt, cluster, 1);
    let second = applied(rt, cluster, 2);
    let third = applied(rt, cluster, 3);
    let nodes = [first, second, third];
    let replies = (last(rt, cluster, 1), last(rt, cluster, 2));
    (cluster.messages(), nodes, replies.0, replies.1)
}

/// Runs a script on a cluster.
fn end_after<M: Machine, D: CutDevice>(
    rt: &impl Abort,
    cluster: &mut Cluster<M, D>,
    alloc: Global,
    script: &[Line],
) -> End {
    let mut settled = [false; 64];
    for line in script {
        follow(rt, cluster, alloc, &mut settled, *line);
    }
    end_of(rt, cluster)
}

/// Runs a script on three nodes. Returns the end, or why the cluster does not open.
fn run<M: Machine, D: CutDevice>(
    rt: &impl Abort,
    alloc: Global,
    program: M::Program,
    devices: Vec<D>,
    script: &[Line],
) -> Result<End, Fault> {
    let config = Config {
        nodes: 3,
        max_positions: 4,
    };
    match Cluster::<M, D>::new(alloc, config, program, devices) {
        Ok(cluster) => {
            let mut cluster = cluster;
            let end = end_after(rt, &mut cluster, alloc, script);
            drop(cluster);
            Ok(end)
        }
        Err(fault) => Err(fault),
    }
}

/// Three empty devices, retried once if memory ran out.
fn devices(rt: &impl Abort, alloc: Global) -> Vec<MemDevice> {
    let mut devices = Vec::new(alloc);
    for _ in 0..3 {
        if devices.push(MemDevice::new(alloc)).is_err() {
            let pushed = devices.push(MemDevice::new(alloc));
            expect_eq(rt, pushed.is_ok(), true);
        }
    }
    devices
}

/// Runs a script on a tally.
fn run_once(rt: &impl Abort, alloc: Global, script: &[Line]) -> Result<End, Fault> {
    let program = TallyProgram::new(1).expect(rt, "one object");
    run::<Tally, MemDevice>(rt, alloc, program, devices(rt, alloc), script)
}

/// A run of a script on a tally has this end. It is run once more if memory ran out before the
/// cluster was opened.
fn expect_end(rt: &impl Abort, alloc: Global, script: &[Line], end: End) {
    let found = match run_once(rt, alloc, script) {
        Err(Fault::OutOfMemory) => run_once(rt, alloc, script),
        found => found,
    };
    expect_eq(rt, found, Ok(end));
}

/// One call, and a restart.
const ONE_CALL: [Line; 6] = [Call(1, 1, 5), Drain, Lead(1), Stop(2), Restart(2), Drain];

/// A caller that repeats its call, also to another node.
const ASKING_AGAIN: [Line; 12] = [
    Call(1, 1, 5),
    Again(1, 1),
    Again(1, 1),
    Drain,
    Lead(1),
    Drain,
    Call(1, 2, 5),
    Drain,
    Again(1, 3),
    Again(1, 2),
    Lead(2),
    Drain,
];

/// Two calls after a range.
const RANGE: [Line; 10] = [
    Range(1, 4),
    Drain,
    Call(1, 1, 5),
    Drain,
    Lead(1),
    Drain,
    Call(2, 1, 2),
    Drain,
    Lead(1),
    Drain,
];

/// Two callers: the leader of the first one's call gets only the vote of node 3; then node 2 leads,
/// and a packet is lost: with packet 12 node 2 hears of the vote, with packet 14 it does not.
fn late_vote(lost: u64) -> [Line; 16] {
    [
        Call(1, 1, 5),
        Call(2, 2, 2),
        Drain,
        Lead(1),
        Deliver(3),
        Deliver(4),
        Deliver(6),
        Deliver(7),
        Deliver(10),
        Lose(5),
        Lose(8),
        Lose(9),
        Lose(11),
        Lead(2),
        Lose(lost),
        Drain,
    ]
}

/// The vote of node 3 is cut, and its reply is not sent: then the call through node 2 is decided.
const CUT_VOTE: [Line; 16] = [
    Call(1, 1, 5),
    Call(2, 2, 2),
    Drain,
    Lead(1),
    Deliver(3),
    Deliver(4),
    Deliver(6),
    Deliver(7),
    Cut(28, 10),
    Restart(3),
    Lose(5),
    Lose(8),
    Lose(9),
    Lead(2),
    Lose(11),
    Drain,
];

#[test]
fn each_script_ends_the_same(rt: HostRuntime) {
    let alloc = rt.alloc();
    let two = Some(Reply::Value(2));
    let five = Some(Reply::Value(5));
    let ten = Some(Reply::Value(10));
    let seven = Some(Reply::Value(7));
    expect_end(&rt, alloc, &ONE_CALL, (16, [1; 3], five, None));
    expect_end(&rt, alloc, &ASKING_AGAIN, (37, [2; 3], ten, None));
    expect_end(&rt, alloc, &RANGE, (26, [2; 3], five, seven));
    expect_end(&rt, alloc, &late_vote(12), (25, [1; 3], five, None));
    expect_end(&rt, alloc, &late_vote(14), (25, [1; 3], None, two));
    expect_end(&rt, alloc, &CUT_VOTE, (24, [1; 3], None, two));
}
