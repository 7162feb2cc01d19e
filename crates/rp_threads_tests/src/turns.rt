ghost use Rattle.std.specs.Prelude.{◌≡◌, []};
ghost use Rattle.rp_threads.specs.rp_board.specs.Parts.{fresh_part, OfTask};
ghost use Rattle.rp_threads.specs.rp_model.specs.Parts.{fresh_task};

use crate::setup::{all_seats, empty_devices, expect_eq, expect_packet, node, one_tally};
use rp_base::{Fault, NodeId, Operation, TaskId};
use rp_boxes::{Fetch, NodeSeat, TaskSeat};
use rp_codec::Party;
use rp_machine::{Machine, Tally};
use rp_replica::Input;
use rp_store::{Device, MemDevice};
use rp_tasks::FaultLine;
use rp_threads::{
    Ending, LoopOptions, NeverOver, Open, PacketCounts, TaskCall, Turn, node_loop, node_step,
    node_turn, task_loop,
};
use std::alloc::Global;
use std::process::Abort;
use std::sync::atomic::{AtomicU64, Ordering};

/// A link that holds nothing.
fn empty_link(rt: &impl Abort, alloc: Global) -> FaultLine
    ensures { result.held ≡ [] }
{
    FaultLine::new(alloc, [0; 32]).expect(rt, "memory for the link")
}

/// The result of a turn of a node, and the packet that is then in its box from itself.
#[derive(Drop)]
struct Made {
    turn: Turn,
    sent: usize,
    packet: Option<Vec<u8>>,
}

/// Node 1 makes a turn in which it is to lead, on an empty link.
fn leads<M: Machine, D: Device>(rt: &impl Abort, seat: &mut NodeSeat<M, D>, alloc: Global) -> Made {
    let mut link = empty_link(rt, alloc);
    let from = node(rt, 1);
    let turned = node_turn(seat, &mut link, alloc, Party::Node(from), true).expect(rt, "a turn");
    drop(link);
    Made {
        turn: turned.turn,
        sent: turned.packets.sent,
        packet: seat.fetch(Party::Node(from)),
    }
}

/// Node 1 of a cluster leads.
fn first_leads<R: Abort, M: Machine, D: Device>(
    rt: &R,
    alloc: Global,
    program: &M::Program,
    devices: Vec<D>,
) -> Made {
    let mut all = all_seats::<R, M, D>(rt, alloc, program, devices);
    let made = leads(rt, all.nodes.first_mut().expect(rt, "node 1"), alloc);
    drop(all);
    made
}

#[test]
fn an_empty_line_lets_a_node_lead(rt: HostRuntime) {
    let alloc = rt.alloc();
    let devices = empty_devices(&rt, alloc);
    let made = first_leads::<_, Tally, MemDevice>(&rt, alloc, &one_tally(&rt), devices);
    expect_eq(&rt, made.turn, Turn::Led);
    expect_eq(&rt, made.sent, 3);
    expect_packet(
        &rt,
        made.packet,
        b"\x02\x02\x01\x01\0\x01\0\0\0\0\0\0\0\x09",
    );
}

/// The task makes one turn, with one call of node 1: how many calls it made.
fn makes_a_call<M: Machine>(rt: &impl Abort, task: TaskSeat<M>, alloc: Global) -> usize
    requires { task.part ≡ fresh_part (OfTask fresh_task) }
{
    let call = TaskCall {
        node: NodeId::first(),
        object: 1,
        operation: Operation::Procedure(1),
        arg: 5,
    };
    let options = LoopOptions {
        alloc,
        gate: &Open,
        ending: &NeverOver,
        turns: 1,
    };
    let end = task_loop(task, &[call], empty_link(rt, alloc), 3, options);
    let made = end.made;
    drop(end);
    made
}

/// The first task of a cluster makes one turn: how many calls it made, and the packet that is then
/// in its box to node 1.
fn calls<R: Abort, M: Machine, D: Device>(
    rt: &R,
    alloc: Global,
    program: &M::Program,
    devices: Vec<D>,
) -> (usize, Option<Vec<u8>>) {
    let mut all = all_seats::<R, M, D>(rt, alloc, program, devices);
    let made = makes_a_call(rt, all.tasks.swap_remove(0), alloc);
    let node = all.nodes.first_mut().expect(rt, "node 1");
    let packet = node.fetch(Party::Task(TaskId::first()));
    drop(all);
    (made, packet)
}

#[test]
fn a_task_makes_its_first_call_in_its_first_turn(rt: HostRuntime) {
    let alloc = rt.alloc();
    let devices = empty_devices(&rt, alloc);
    let (made, packet) = calls::<_, Tally, MemDevice>(&rt, alloc, &one_tally(&rt), devices);
    expect_eq(&rt, made, 1);
    expect_packet(
        &rt,
        packet,
        b"\x02\x01\x11\x01\x01\x01\0\0\0\x01\x01\x02\x01\0\0\0\0\0\0\0\x05",
    );
}

/// Says from its fourth turn on that the run is over, and counts the loops that ended.
#[derive(Drop)]
struct ThreeTurns {
    ended: AtomicU64,
}

impl Ending for ThreeTurns {
    ghost over = { λ actor turn rested answer. Unit {0} };

    ghost ended = { λ actor fault. Unit {0} };

    ghost stopped = { λ _. Unit {0} };

    fn is_over(&self, _actor: Party, turn: u64, _rested: u64) -> Result<bool, Fault> {
        Ok(turn > 3)
    }

    fn end(&self, _actor: Party, fault: Option<Fault>) {
        if fault.is_none() {
            self.ended.fetch_add(1, Ordering::SeqCst);
        }
    }

    fn stop(&self) {}
}

/// The last node makes at most ten turns, with nothing to do: how many were idle.
fn idles<R: Abort, M: Machine, D: Device>(
    rt: &R,
    alloc: Global,
    program: &M::Program,
    devices: Vec<D>,
    ending: &ThreeTurns,
) -> u64 {
    let mut all = all_seats::<R, M, D>(rt, alloc, program, devices);
    let node = all.nodes.pop().expect(rt, "node 3");
    let options = LoopOptions {
        alloc,
        gate: &Open,
        ending,
        turns: 10,
    };
    let end = node_loop(node, empty_link(rt, alloc), 3, options);
    let idle = end.counts.idle;
    drop(end);
    drop(all);
    idle
}

#[test]
fn a_loop_ends_once_the_run_is_over(rt: HostRuntime) {
    let alloc = rt.alloc();
    let ending = ThreeTurns {
        ended: AtomicU64::new(0),
    };
    let devices = empty_devices(&rt, alloc);
    let idle = idles::<_, Tally, MemDevice>(&rt, alloc, &one_tally(&rt), devices, &ending);
    expect_eq(&rt, idle, 3);
    expect_eq(&rt, ending.ended.load(Ordering::SeqCst), 1);
}

/// The node leads: how many of its packets are put into boxes, and how many are lost.
fn step<M: Machine, D: Device>(
    rt: &impl Abort,
    seat: &mut NodeSeat<M, D>,
    alloc: Global,
) -> PacketCounts {
    node_step(seat, alloc, &Input::Lead(None)).expect(rt, "the node leads")
}

/// How many of the nodes find a packet in their boxes from node 1.
fn boxed_at<M: Machine, D: Device>(nodes: &mut [NodeSeat<M, D>]) -> usize {
    let mut boxed: usize = 0;
    for seat in nodes.iter_mut() {
        if seat.fetch(Party::Node(NodeId::first())).is_some() {
            boxed = boxed.saturating_add(1);
        }
    }
    boxed
}

/// Node 1 leads twice, and no node empties its box: how many packets of each step are sent and
/// lost, and how many are then found in the boxes from node 1.
fn leads_twice<R: Abort, M: Machine, D: Device>(
    rt: &R,
    alloc: Global,
    program: &M::Program,
    devices: Vec<D>,
) -> ([PacketCounts; 2], [usize; 2]) {
    let mut all = all_seats::<R, M, D>(rt, alloc, program, devices);
    let leader = all.nodes.first_mut().expect(rt, "node 1");
    let first = step(rt, leader, alloc);
    let second = step(rt, leader, alloc);
    let boxed = boxed_at(all.nodes.as_mut_slice());
    let left = boxed_at(all.nodes.as_mut_slice());
    drop(all);
    ([first, second], [boxed, left])
}

/// A packet whose box is in use is counted as lost.
#[test]
fn each_packet_of_a_step_is_put_into_its_box(rt: HostRuntime) {
    let alloc = rt.alloc();
    let devices = empty_devices(&rt, alloc);
    let (counts, boxed) = leads_twice::<_, Tally, MemDevice>(&rt, alloc, &one_tally(&rt), devices);
    let expected = [
        PacketCounts {
            sent: 3,
            lost: 0,
            uncopied: 0,
        },
        PacketCounts {
            sent: 3,
            lost: 3,
            uncopied: 0,
        },
    ];
    expect_eq(&rt, counts.as_slice(), expected.as_slice());
    expect_eq(&rt, boxed.as_slice(), [3, 0].as_slice());
}
