ghost use Rattle.rp_threads.specs.rp_board.specs.Seats.{IsSentText};

use crate::setup::{
    all_seats, empty_devices, expect_eq, expect_packet, one_tally, receive, receive_each,
};
use rp_base::{NodeId, Operation, Position, TaskId};
use rp_boxes::{Fetch, NodeSeat, Put, TaskSeat};
use rp_codec::Party;
use rp_machine::{Machine, Tally};
use rp_replica::Input;
use rp_store::{Device, MemDevice};
use rp_threads::node_step;
use std::alloc::Global;
use std::process::Abort;

/// Task 1 calls node 1 for the first time: procedure 1 of object 1 with 5.
const CALL: [u8; 21] = [
    2, 1, 17, 1, 1, 1, 0, 0, 0, 1, 1, 2, 1, 0, 0, 0, 0, 0, 0, 0, 5,
];

/// The packet of the first task's first call, to node 1.
fn first_call<M: Machine>(rt: &impl Abort, task: &mut TaskSeat<M>, alloc: Global) -> Vec<u8>
    ensures { IsSentText task.new.part result.items }
{
    let sent = task.call(alloc, NodeId::first(), 1, Operation::Procedure(1), 5);
    sent.expect(rt, "the first call").bytes
}

/// The first task puts its first call into the box to node 1, and the packet once more. Returns
/// what the second put gives back.
fn put_both<M: Machine>(rt: &impl Abort, task: &mut TaskSeat<M>, alloc: Global) -> Option<Vec<u8>> {
    let packet = first_call(rt, task, alloc);
    let copy = packet.clone().expect(rt, "memory for the copy");
    task.put(packet).ok().expect(rt, "an empty box");
    task.put(copy).err()
}

/// What was found of the box from the task to node 1.
#[derive(Drop)]
struct Boxed {
    /// The packet that was returned by the second put.
    back: Option<Vec<u8>>,
    first: Option<Vec<u8>>,
    second: Option<Vec<u8>>,
}

/// A packet is put twice into one box, which is then emptied twice.
fn put_twice<R: Abort, M: Machine, D: Device>(
    rt: &R,
    alloc: Global,
    program: &M::Program,
    devices: Vec<D>,
) -> Boxed {
    let mut all = all_seats::<R, M, D>(rt, alloc, program, devices);
    let back = put_both(rt, all.tasks.first_mut().expect(rt, "task 1"), alloc);
    let node = all.nodes.first_mut().expect(rt, "node 1");
    let first = node.fetch(Party::Task(TaskId::first()));
    let second = node.fetch(Party::Task(TaskId::first()));
    drop(all);
    Boxed {
        back,
        first,
        second,
    }
}

#[test]
fn a_full_box_gives_a_packet_back(rt: HostRuntime) {
    let alloc = rt.alloc();
    let devices = empty_devices(&rt, alloc);
    let boxed = put_twice::<_, Tally, MemDevice>(&rt, alloc, &one_tally(&rt), devices);
    expect_packet(&rt, boxed.back, &CALL);
    expect_packet(&rt, boxed.first, &CALL);
    assert!(rt; boxed.second.is_none());
}

/// The node receives the packets in its boxes from the first task and from the nodes, one from
/// each.
fn receive_all<M: Machine, D: Device>(rt: &impl Abort, seat: &mut NodeSeat<M, D>, alloc: Global) {
    receive(rt, seat, alloc, Party::Task(TaskId::first()));
    receive_each(rt, seat, alloc);
}

/// The first task's first call goes into the box to node 1.
fn calls<M: Machine>(rt: &impl Abort, task: &mut TaskSeat<M>, alloc: Global) {
    let packet = first_call(rt, task, alloc);
    task.put(packet).ok().expect(rt, "an empty box");
}

/// Each node receives the packets in its boxes.
fn go_round<M: Machine, D: Device>(rt: &impl Abort, nodes: &mut [NodeSeat<M, D>], alloc: Global) {
    for seat in nodes.iter_mut() {
        receive_all(rt, seat, alloc);
    }
}

/// Node 1 receives the call and leads, and all nodes receive their packets until none is left.
fn decide<M: Machine, D: Device>(rt: &impl Abort, nodes: &mut [NodeSeat<M, D>], alloc: Global) {
    let leader = nodes.first_mut().expect(rt, "node 1");
    receive_all(rt, leader, alloc);
    node_step(leader, alloc, &Input::Lead(None)).expect(rt, "node 1 leads");
    for _ in 0..8 {
        go_round(rt, nodes, alloc);
    }
}

/// How many actions each node has applied.
fn applied_by<M: Machine, D: Device>(
    rt: &impl Abort,
    nodes: &[NodeSeat<M, D>],
    alloc: Global,
) -> Vec<u32> {
    let mut applied = Vec::new(alloc);
    for seat in nodes {
        let count = seat.applied().expect(rt, "a node that runs");
        applied.push(count).expect(rt, "memory for a number");
    }
    applied
}

/// What node 1 reports.
fn report_of<M: Machine, D: Device>(
    rt: &impl Abort,
    nodes: &mut [NodeSeat<M, D>],
    alloc: Global,
) -> Vec<u8> {
    let leader = nodes.first_mut().expect(rt, "node 1");
    let sent = leader.report(alloc, Position::first());
    sent.expect(rt, "a report").bytes
}

/// What the seats report after one call.
#[derive(Drop)]
struct Outcome {
    reply: Option<Vec<u8>>,
    report: Vec<u8>,
    applied: Vec<u32>,
}

/// The first task calls node 1, which leads. All packets go through boxes, on one thread.
fn one_call<R: Abort, M: Machine, D: Device>(
    rt: &R,
    alloc: Global,
    program: &M::Program,
    devices: Vec<D>,
) -> Outcome {
    let mut all = all_seats::<R, M, D>(rt, alloc, program, devices);
    let task = all.tasks.first_mut().expect(rt, "task 1");
    calls(rt, task, alloc);
    decide(rt, all.nodes.as_mut_slice(), alloc);
    let applied = applied_by(rt, all.nodes.as_slice(), alloc);
    let task = all.tasks.first_mut().expect(rt, "task 1");
    let reply = task.fetch(Party::Node(NodeId::first()));
    let report = report_of(rt, all.nodes.as_mut_slice(), alloc);
    drop(all);
    Outcome {
        reply,
        report,
        applied,
    }
}

#[test]
fn one_call_is_decided_by_seats(rt: HostRuntime) {
    let alloc = rt.alloc();
    let devices = empty_devices(&rt, alloc);
    let stated = one_call::<_, Tally, MemDevice>(&rt, alloc, &one_tally(&rt), devices);
    expect_eq(&rt, stated.applied.as_slice(), [1, 1, 1].as_slice());
    expect_packet(
        &rt,
        stated.reply,
        b"\x02\x09\x01\x11\0\0\0\x01\x01\0\0\0\0\0\0\0\x05",
    );
    expect_packet(
        &rt,
        Some(stated.report),
        b"\x02\x0a\x01\x20\0\x01\0\x01\x01\x01\x01\0\0\0\x01\x01\x02\x01\0\0\0\0\0\0\0\x05",
    );
}
