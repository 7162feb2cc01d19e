use crate::compare::{expect_eq, expect_text};
use rp_base::{Config, Fault, NodeId, Operation, Reply, TaskId};
use rp_machine::{Machine, Tally, TallyProgram};
use rp_model::{Event, Step};
use rp_store::{CutDevice, MemDevice};
use rp_world::*;
use std::alloc::Global;
use std::process::Abort;

/// Three nodes over these devices.
fn opened<M: Machine, D: CutDevice>(
    rt: &impl Abort,
    alloc: Global,
    program: M::Program,
    devices: Vec<D>,
    max_positions: u16,
) -> Cluster<M, D> {
    let config = Config {
        nodes: 3,
        max_positions,
    };
    Cluster::new(alloc, config, program, devices).expect(rt, "the cluster")
}

pub(crate) fn node(rt: &impl Abort, number: u8) -> NodeId {
    NodeId::new(number).expect(rt, "a node")
}

/// A task calls a node: procedure 1 of object 1.
pub(crate) fn call(rt: &impl Abort, task: u8, to: u8, arg: i64) -> Event {
    Event::Submit {
        task: TaskId::new(task).expect(rt, "a task"),
        node: node(rt, to),
        object: 1,
        operation: Operation::Procedure(1),
        arg,
    }
}

/// A node is to lead at its next position.
pub(crate) fn lead(rt: &impl Abort, leader: u8) -> Event {
    Event::Node(Step::Lead {
        node: node(rt, leader),
        position: None,
    })
}

/// A step of the cluster, which must not be refused.
fn step<M: Machine, D: CutDevice>(
    rt: &impl Abort,
    cluster: &mut Cluster<M, D>,
    alloc: Global,
    event: &Event,
) {
    let answer = cluster.step(alloc, event);
    expect_eq(rt, answer.err(), None);
}

/// Delivers a message.
fn deliver<M: Machine, D: CutDevice>(
    rt: &impl Abort,
    cluster: &mut Cluster<M, D>,
    alloc: Global,
    number: u64,
) {
    step(rt, cluster, alloc, &Event::Node(Step::Deliver(number)));
}

/// Delivers the messages in order, from a number on, until none is left. Returns the number of the
/// next one.
fn deliver_from<M: Machine, D: CutDevice>(
    rt: &impl Abort,
    cluster: &mut Cluster<M, D>,
    alloc: Global,
    first: u64,
) -> u64 {
    let mut next = first;
    for _ in 0..100 {
        if next > cluster.messages() {
            break;
        }
        deliver(rt, cluster, alloc, next);
        next = next.saturating_add(1);
    }
    next
}

/// Delivers the messages above one number, up to another, from the highest down, each three times.
fn deliver_thrice<M: Machine, D: CutDevice>(
    rt: &impl Abort,
    cluster: &mut Cluster<M, D>,
    alloc: Global,
    above: u64,
    last: u64,
) {
    for number in (above.saturating_add(1)..=last).rev() {
        for _ in 0..3 {
            deliver(rt, cluster, alloc, number);
        }
    }
}

/// In rounds, delivers the messages that were sent since the last round, until a round sends none.
fn deliver_in_rounds<M: Machine, D: CutDevice>(
    rt: &impl Abort,
    cluster: &mut Cluster<M, D>,
    alloc: Global,
    delivered: u64,
) -> u64 {
    let mut above = delivered;
    for _ in 0..100 {
        let last = cluster.messages();
        if last <= above {
            break;
        }
        deliver_thrice(rt, cluster, alloc, above, last);
        above = last;
    }
    above
}

/// Which messages are delivered after an event.
#[derive(Clone, Copy)]
pub(crate) enum Delivery {
    /// None: all that were sent up to now are lost.
    Lost,
    /// In order, each once: those above this number that were not delivered or lost before.
    Above(u64),
    /// In rounds: those that were sent since the last round, from the highest down, each three
    /// times.
    InRounds,
}

/// Delivers the messages above this number until none is left. Returns the number of the last one.
fn deliver_all<M: Machine, D: CutDevice>(
    rt: &impl Abort,
    cluster: &mut Cluster<M, D>,
    alloc: Global,
    delivered: u64,
    how: Delivery,
) -> u64 {
    match how {
        Delivery::Lost => cluster.messages(),
        Delivery::Above(lost) => {
            let first = delivered.max(lost).saturating_add(1);
            let next = deliver_from(rt, cluster, alloc, first);
            next.saturating_sub(1)
        }
        Delivery::InRounds => deliver_in_rounds(rt, cluster, alloc, delivered),
    }
}

/// The state after a run: how many messages there are, how many bytes each node stored, how many
/// actions each has applied, the image that all of them show, and some of the messages' texts by
/// their numbers.
#[derive(Drop)]
pub(crate) struct Left {
    pub(crate) messages: u64,
    pub(crate) stored: [u64; 3],
    pub(crate) applied: u16,
    pub(crate) image: &'static [u8],
    pub(crate) texts: &'static [(u64, &'static [u8])],
}

/// The message of this number has this text.
fn expect_message<M: Machine, D: CutDevice>(
    rt: &impl Abort,
    alloc: Global,
    cluster: &Cluster<M, D>,
    number: u64,
    text: &[u8],
) {
    let found = cluster.message(alloc, number).expect(rt, "a message");
    expect_text(rt, &found, text);
}

/// A node stored this many bytes, has applied this many actions and shows this image.
fn expect_node<M: Machine, D: CutDevice>(
    rt: &impl Abort,
    alloc: Global,
    cluster: &Cluster<M, D>,
    at: (NodeId, u64),
    left: &Left,
) {
    let (node, stored) = at;
    expect_eq(rt, cluster.stored(node), Ok(stored));
    expect_eq(rt, cluster.applied(node), Ok(left.applied));
    let image = cluster.image(alloc, node).expect(rt, "an image");
    expect_text(rt, &image, left.image);
}

/// The cluster is in this state, and task 1 has exactly one reply, 5.
fn expect_left<M: Machine, D: CutDevice>(
    rt: &impl Abort,
    alloc: Global,
    cluster: &Cluster<M, D>,
    left: &Left,
) {
    expect_eq(rt, cluster.messages(), left.messages);
    for (number, stored) in (1..=3).zip(left.stored) {
        expect_node(rt, alloc, cluster, (node(rt, number), stored), left);
    }
    for (number, text) in left.texts {
        expect_message(rt, alloc, cluster, *number, text);
    }
    let replies = cluster.replies(TaskId::first());
    expect_eq(rt, replies.len(), 1);
    let reply = replies.first().expect(rt, "a reply").reply;
    expect_eq(rt, reply, Reply::Value(5));
}

/// A run over three nodes with a log of this many positions: events, with the messages that are
/// delivered after each, and what they leave.
#[derive(Drop)]
pub(crate) struct Run<'a> {
    pub(crate) max_positions: u16,
    pub(crate) events: &'a [(Event, Delivery)],
    pub(crate) left: Left,
}

/// Makes the steps of a run.
fn follow<M: Machine, D: CutDevice>(
    rt: &impl Abort,
    cluster: &mut Cluster<M, D>,
    alloc: Global,
    events: &[(Event, Delivery)],
) {
    let mut delivered = 0;
    for (event, how) in events {
        step(rt, cluster, alloc, event);
        delivered = deliver_all(rt, cluster, alloc, delivered, *how);
    }
}

/// A run leaves the stated result.
fn expect_run<M: Machine, D: CutDevice>(
    rt: &impl Abort,
    alloc: Global,
    program: M::Program,
    devices: Vec<D>,
    run: &Run,
) {
    let mut cluster: Cluster<M, D> = opened(rt, alloc, program, devices, run.max_positions);
    follow(rt, &mut cluster, alloc, run.events);
    expect_left(rt, alloc, &cluster, &run.left);
    drop(cluster);
}

/// A run over three nodes with empty devices leaves the stated result.
pub(crate) fn expect_tally(rt: &impl Abort, alloc: Global, run: &Run) {
    let devices = devices(rt, alloc);
    expect_run::<Tally, MemDevice>(rt, alloc, program(rt), devices, run);
}

/// A program of one object.
pub(crate) fn program(rt: &impl Abort) -> TallyProgram {
    TallyProgram::new(1).expect(rt, "one object")
}

/// Three empty devices.
pub(crate) fn devices(rt: &impl Abort, alloc: Global) -> Vec<MemDevice> {
    match MemDevice::several(alloc, 3) {
        Ok(devices) => devices,
        Err(_) => panic!(rt; "memory is refused"),
    }
}

/// The event at which a run of these events stops, and how many messages there are then.
fn run_of<M: Machine, D: CutDevice>(
    rt: &impl Abort,
    alloc: Global,
    program: M::Program,
    devices: Vec<D>,
    events: &[Event],
) -> (Option<Refused>, u64) {
    let mut cluster: Cluster<M, D> = opened(rt, alloc, program, devices, 1);
    let stopped = cluster.run(alloc, events).err();
    let messages = cluster.messages();
    drop(cluster);
    (stopped, messages)
}

#[test]
fn a_run_stops_at_the_first_refusal(rt: HostRuntime) {
    let alloc = rt.alloc();
    let events = [
        call(&rt, 1, 1, 5),
        Event::Node(Step::Deliver(1)),
        call(&rt, 1, 1, 1),
        lead(&rt, 1),
    ];
    let busy = Refused {
        place: 2,
        fault: Fault::TaskBusy,
    };
    let devices = devices(&rt, alloc);
    let stopped = run_of::<Tally, MemDevice>(&rt, alloc, program(&rt), devices, &events);
    expect_eq(&rt, stopped, (Some(busy), 1));
}
