ghost use Rattle.std.specs.Prelude.{◌≡◌, ◌≤◌};

use crate::compare::{expect_at, expect_eq, expect_text, push};
use crate::world::{devices, program};
use rp_base::{Config, Fault, NodeId, PacketReason, Position};
use rp_codec::{decode_front, packet_len};
use rp_machine::{Machine, Tally};
use rp_model::Dropped;
use rp_replica::*;
use rp_store::{Device, MemDevice};
use std::alloc::Global;
use std::process::Abort;

/// Task 1 calls node 1 for the first time: procedure 1 of object 1 with 5.
const CALL: [u8; 21] = [
    2, 1, 17, 1, 1, 1, 0, 0, 0, 1, 1, 2, 1, 0, 0, 0, 0, 0, 0, 0, 5,
];

/// The second call of task 1, with 7, in a text of version 1.
const OLD_CALL: [u8; 21] = [
    1, 1, 17, 1, 1, 1, 0, 0, 0, 2, 1, 2, 1, 0, 0, 0, 0, 0, 0, 0, 7,
];

/// Node 1 asks node 3 to vote for that call at position 1 in ballot 9.
const ACCEPT: [u8; 31] = [
    2, 4, 1, 3, 0, 1, 0, 0, 0, 0, 0, 0, 0, 9, 1, 1, 0, 0, 0, 1, 1, 2, 1, 0, 0, 0, 0, 0, 0, 0, 5,
];

/// Two votes in ballot 9 at position 1, for nothing and for tick 7.
const VOTES: [u8; 30] = [
    2, 3, 0, 1, 0, 0, 0, 0, 0, 0, 0, 9, 0, 2, 3, 0, 1, 0, 0, 0, 0, 0, 0, 0, 9, 3, 0, 0, 0, 7,
];

/// The device with these bytes, all of them stable.
pub(crate) fn holding<D: Device>(rt: &impl Abort, device: D, bytes: &[u8]) -> D {
    let mut device = device;
    device.append(bytes).expect(rt, "memory for the bytes");
    device.sync().expect(rt, "a sync");
    device
}

/// One of three nodes.
fn node(rt: &impl Abort, number: u8) -> NodeId
    ensures { result ≤ 3 }
{
    let node = NodeId::new(number).expect(rt, "a node");
    if node.get() > 3 {
        panic!(rt; "one of three");
    }
    node
}

/// Three nodes with a log of this many positions.
fn config(rt: &impl Abort, max_positions: u16) -> Config
    ensures { (result.nodes ≡ 3) × (1 ≤ result.max_positions) }
{
    if max_positions == 0 {
        panic!(rt; "a log of no position");
    }
    Config {
        nodes: 3,
        max_positions,
    }
}

/// A node of three with a log of n positions, over the device.
fn opened<M: Machine, D: Device>(
    rt: &impl Abort,
    alloc: Global,
    at: (u8, u16),
    program: &M::Program,
    device: D,
) -> Opening<M, D> {
    let (number, max_positions) = at;
    let node = node(rt, number);
    let config = config(rt, max_positions);
    let opening = Replica::open(alloc, node, config, program, device);
    opening.ok().expect(rt, "it opens")
}

/// The node that opening returns, without the counts. A caller that keeps it to its end gives it to
/// `drop`: where a function lets a node go by itself, the prover goes through all of its fields.
fn node_over<M: Machine, D: Device>(
    rt: &impl Abort,
    alloc: Global,
    at: (u8, u16),
    program: &M::Program,
    device: D,
) -> Replica<M, D> {
    opened::<M, D>(rt, alloc, at, program, device).replica
}

/// Takes a step, which must not be refused.
fn turn<M: Machine, D: Device>(
    rt: &impl Abort,
    alloc: Global,
    node: &mut Replica<M, D>,
    text: &[u8],
) -> Sent {
    let sent = node.turn(alloc, &Input::Receive(text));
    sent.expect(rt, "the step")
}

/// Appends a text to the others.
fn push_text(rt: &impl Abort, alloc: Global, texts: &mut Vec<Vec<u8>>, text: &[u8]) {
    let text = text.to_vec(alloc).expect(rt, "memory for a text");
    push(rt, texts, text);
}

/// Appends the texts of a step's packets to the others.
fn take_texts(rt: &impl Abort, alloc: Global, sent: &Sent, texts: &mut Vec<Vec<u8>>) {
    let mut rest = sent.bytes.as_slice();
    for _ in 0..sent.packets {
        let len = packet_len(rest).expect(rt, "a packet");
        push_text(rt, alloc, texts, rest.get(..len).expect(rt, "its text"));
        rest = rest.get(len..).expect(rt, "the rest");
    }
}

/// Appends the first record of these bytes to the others, as a text of version 1. Returns the bytes
/// after it.
fn push_old<'a>(rt: &impl Abort, old: &mut Vec<u8>, bytes: &'a [u8]) -> &'a [u8] {
    let (_, len) = decode_front(bytes).expect(rt, "a record");
    old.push(1).expect(rt, "memory for a byte");
    let text = bytes.get(1..len).expect(rt, "its text");
    old.extend_from_slice(text).expect(rt, "memory for it");
    bytes.get(len..).expect(rt, "the rest")
}

/// The texts of the records in these bytes, in version 1.
fn in_version_1(rt: &impl Abort, alloc: Global, bytes: &[u8]) -> Vec<u8> {
    let mut old = Vec::new(alloc);
    let mut rest = bytes;
    for _ in 0..100 {
        if rest.is_empty() {
            break;
        }
        rest = push_old(rt, &mut old, rest);
    }
    old
}

/// Three nodes, and the texts of all packets that were sent.
#[derive(Drop)]
struct Nodes<M: Machine, D: Device> {
    nodes: Vec<Replica<M, D>>,
    texts: Vec<Vec<u8>>,
    delivered: usize,
}

/// Opens a node and appends it to the others. Its log has 1000 positions.
fn push_node<M: Machine, D: Device>(
    rt: &impl Abort,
    alloc: Global,
    program: &M::Program,
    nodes: &mut Vec<Replica<M, D>>,
    device: D,
) {
    let number = u8::try_from(nodes.len().saturating_add(1));
    let number = number.expect(rt, "the number of a node");
    let node = node_over::<M, D>(rt, alloc, (number, 1000), program, device);
    push(rt, nodes, node);
}

/// Closes the device, and puts its records in version 1 on another device.
fn onto_version_1<D: Device>(rt: &impl Abort, alloc: Global, device: D, other: D) -> D {
    let mut device = device;
    let bytes = device.read(alloc).expect(rt, "the bytes");
    let old = in_version_1(rt, alloc, &bytes);
    holding(rt, other, &old)
}

impl<M: Machine, D: Device> Nodes<M, D> {
    fn new(rt: &impl Abort, alloc: Global, program: &M::Program, devices: Vec<D>) -> Self {
        let mut nodes = Vec::new(alloc);
        for device in devices {
            push_node(rt, alloc, program, &mut nodes, device);
        }
        Nodes {
            nodes,
            texts: Vec::new(alloc),
            delivered: 0,
        }
    }

    /// Gives a text to its receiver.
    fn give(&mut self, rt: &impl Abort, alloc: Global, text: &[u8]) {
        let to = usize::from(text.get(3).copied().unwrap_or(0));
        if let Some(node) = self.nodes.get_mut(to.saturating_sub(1)) {
            let sent = turn(rt, alloc, node, text);
            take_texts(rt, alloc, &sent, &mut self.texts);
        }
    }

    /// Gives each text that was not yet delivered to its receiver, in order, and so on with the
    /// texts that result.
    fn deliver(&mut self, rt: &impl Abort, alloc: Global) {
        for _ in 0..100 {
            let Some(text) = self.texts.get(self.delivered) else {
                break;
            };
            let text = text.clone().expect(rt, "memory for a text");
            self.delivered = self.delivered.saturating_add(1);
            self.give(rt, alloc, &text);
        }
    }

    /// Node 1 leads.
    fn lead(&mut self, rt: &impl Abort, alloc: Global) {
        let leader = self.nodes.first_mut().expect(rt, "node 1");
        let sent = leader.turn(alloc, &Input::Lead(None));
        let sent = sent.expect(rt, "the step");
        take_texts(rt, alloc, &sent, &mut self.texts);
    }

    /// A call arrives at node 1, which then leads, and all is delivered.
    fn decide(&mut self, rt: &impl Abort, alloc: Global, call: &[u8]) {
        push_text(rt, alloc, &mut self.texts, call);
        self.deliver(rt, alloc);
        self.lead(rt, alloc);
        self.deliver(rt, alloc);
    }

    /// Each of the three nodes shows this text.
    fn expect_images(&self, rt: &impl Abort, alloc: Global, text: &[u8]) {
        expect_eq(rt, self.nodes.len(), 3);
        for node in &self.nodes {
            let image = node.image(alloc).expect(rt, "an image");
            expect_text(rt, &image, text);
        }
    }

    /// Each of the three nodes stored this many bytes, and has applied one action.
    fn expect_stored(&self, rt: &impl Abort, stored: [u64; 3]) {
        for (node, stored) in self.nodes.iter().zip(stored) {
            expect_eq(rt, (node.stored(), node.applied()), (stored, 1));
        }
    }

    /// Node 2 sends a report with this text.
    fn expect_report(&mut self, rt: &impl Abort, alloc: Global, text: &[u8]) {
        let second = self.nodes.get_mut(1).expect(rt, "node 2");
        let report = second.report(alloc, Position::first());
        expect_text(rt, &report.expect(rt, "the report").bytes, text);
    }

    /// Closes the nodes, and opens them over their records in version 1 on other devices.
    fn reopened(
        self,
        rt: &impl Abort,
        alloc: Global,
        program: &M::Program,
        others: Vec<D>,
    ) -> Self {
        let mut devices = Vec::new(alloc);
        for (node, other) in self.nodes.into_iter().zip(others) {
            let device = onto_version_1(rt, alloc, node.close(), other);
            push(rt, &mut devices, device);
        }
        Nodes::new(rt, alloc, program, devices)
    }
}

/// The node asks for a vote in the tenth packet, and the task has its reply in the last.
fn expect_texts(rt: &impl Abort, texts: &[Vec<u8>]) {
    expect_eq(rt, texts.len(), 16);
    let accept = texts.get(9).expect(rt, "ten packets");
    expect_text(rt, accept, &ACCEPT);
    let reply = texts.last().expect(rt, "sixteen packets");
    let expected = b"\x02\x09\x01\x11\0\0\0\x01\x01\0\0\0\0\0\0\0\x05";
    expect_text(rt, reply, expected);
}

/// The report of node 2 after the first call.
const REPORT: &[u8] =
    b"\x02\x0a\x02\x20\0\x01\0\x01\x01\x01\x01\0\0\0\x01\x01\x02\x01\0\0\0\0\0\0\0\x05";

/// The nodes after the first call, which has these packets and records and this report.
fn after_one_call<M: Machine, D: Device>(
    rt: &impl Abort,
    alloc: Global,
    program: &M::Program,
    devices: Vec<D>,
) -> Nodes<M, D> {
    let mut run: Nodes<M, D> = Nodes::new(rt, alloc, program, devices);
    run.decide(rt, alloc, &CALL);
    expect_texts(rt, &run.texts);
    run.expect_stored(rt, [72, 62, 62]);
    run.expect_images(rt, alloc, b"tally o1=5\n");
    run.expect_report(rt, alloc, REPORT);
    run
}

/// The nodes decide the first call, and continue over their records in version 1 with a second
/// call, in a text of version 1.
fn expect_two_calls<M: Machine, D: Device>(
    rt: &impl Abort,
    alloc: Global,
    program: &M::Program,
    devices: Vec<D>,
    others: Vec<D>,
) {
    let first: Nodes<M, D> = after_one_call(rt, alloc, program, devices);
    let mut run = first.reopened(rt, alloc, program, others);
    run.expect_images(rt, alloc, b"tally o1=5\n");
    run.decide(rt, alloc, &OLD_CALL);
    run.expect_images(rt, alloc, b"tally o1=12\n");
    drop(run);
}

#[test]
fn three_replicas_decide_and_go_on_from_records_of_version_1(rt: HostRuntime) {
    let alloc = rt.alloc();
    let first = devices(&rt, alloc);
    let second = devices(&rt, alloc);
    expect_two_calls::<Tally, MemDevice>(&rt, alloc, &program(&rt), first, second);
}

/// What a step dropped and how many packets it sent, beside how many bytes the device then holds.
fn effect(sent: Result<Sent, Fault>, stored: u64) -> Result<(Dropped, usize, u64), Fault> {
    let sent = sent?;
    Ok((sent.dropped, sent.packets, stored))
}

/// The effect of a packet on a node of three with a log of n positions: what it drops, how many
/// packets it sends, and how many bytes its device then holds.
pub(crate) fn hears<M: Machine, D: Device>(
    rt: &impl Abort,
    alloc: Global,
    at: (u8, u16),
    given: (&M::Program, &[u8]),
    device: D,
) -> Result<(Dropped, usize, u64), Fault> {
    let (program, text) = given;
    let mut node = node_over::<M, D>(rt, alloc, at, program, device);
    let sent = node.receive(alloc, text);
    let stored = node.stored();
    drop(node);
    effect(sent, stored)
}

/// Packets that change nothing: the node and the length of its log, and the packet.
const FOREIGN: [(&str, u8, u16, &[u8]); 10] = [
    (
        "for another node",
        3,
        1,
        b"\x02\x02\x01\x02\0\x01\0\0\0\0\0\0\0\x09",
    ),
    (
        "from a node above 3",
        3,
        1,
        b"\x02\x02\x04\x03\0\x01\0\0\0\0\0\0\0\x0c",
    ),
    (
        "above the log",
        3,
        1,
        b"\x02\x02\x01\x03\0\x02\0\0\0\0\0\0\0\x09",
    ),
    (
        "in another's ballot",
        3,
        1,
        b"\x02\x02\x01\x03\0\x01\0\0\0\0\0\0\0\x0a",
    ),
    ("asked above the log", 3, 1, b"\x02\x07\x01\x03\0\x02"),
    (
        "a reply",
        3,
        1,
        b"\x02\x09\x01\x11\0\0\0\x01\x01\0\0\0\0\0\0\0\x05",
    ),
    (
        "in version 1, for another node",
        1,
        1000,
        b"\x01\x02\x02\x02\0\x01\0\0\0\0\0\0\0\x0a",
    ),
    (
        "in version 1, from a node above 3",
        1,
        1000,
        b"\x01\x02\x04\x01\0\x01\0\0\0\0\0\0\0\x0c",
    ),
    (
        "in version 1, in another's ballot",
        1,
        1000,
        b"\x01\x02\x02\x01\0\x01\0\0\0\0\0\0\0\x09",
    ),
    (
        "in version 1, at position 1001",
        1,
        1000,
        b"\x01\x02\x02\x01\x03\xe9\0\0\0\0\0\0\0\x0a",
    ),
];

/// The effect of a packet on a node over an empty device.
fn heard_by(
    rt: &impl Abort,
    alloc: Global,
    at: (u8, u16),
    text: &[u8],
) -> Result<(Dropped, usize, u64), Fault> {
    hears::<Tally, MemDevice>(rt, alloc, at, (&program(rt), text), MemDevice::new(alloc))
}

#[test]
fn what_is_foreign_changes_nothing(rt: HostRuntime) {
    let alloc = rt.alloc();
    for (name, node, max_positions, text) in FOREIGN {
        let heard = heard_by(&rt, alloc, (node, max_positions), text);
        expect_at(&rt, &name, heard, Ok((Dropped::Foreign, 0, 0)));
    }
    let unknown = heard_by(&rt, alloc, (3, 1), b"\x02\x0b");
    let kind = Fault::BadPacket(PacketReason::Kind);
    expect_eq(&rt, unknown, Err(kind));
}

/// How many records of the device count for node 3, and how many bytes it truncates.
fn found<M: Machine, D: Device>(
    rt: &impl Abort,
    alloc: Global,
    program: &M::Program,
    device: D,
) -> (u64, u64) {
    let opening = opened::<M, D>(rt, alloc, (3, 1), program, device);
    let counts = (opening.records, opening.cut_bytes);
    drop(opening);
    counts
}

/// A device in memory with these bytes.
fn memory(rt: &impl Abort, alloc: Global, bytes: &[u8]) -> MemDevice {
    holding(rt, MemDevice::new(alloc), bytes)
}

#[test]
fn a_replica_opens_over_what_its_device_holds(rt: HostRuntime) {
    let torn_promise = b"\x02\x01\0\0\0\0\0\0\0\x09\x02\x02\0\x01";
    let above_the_log = b"\x02\x04\0\x02\x00\x02\x04\0\x01\x00";
    let cases: [(&[u8], (u64, u64)); 3] = [
        (torn_promise, (1, 4)),
        (above_the_log, (2, 0)),
        (&VOTES, (2, 0)),
    ];
    for (bytes, counts) in cases {
        let device = memory(&rt, rt.alloc(), bytes);
        let found = found::<Tally, MemDevice>(&rt, rt.alloc(), &program(&rt), device);
        expect_eq(&rt, found, counts);
    }
}

/// The answer of node 3 to a packet.
fn answer<M: Machine, D: Device>(
    rt: &impl Abort,
    alloc: Global,
    program: &M::Program,
    device: D,
    text: &[u8],
) -> Vec<u8> {
    let mut node = node_over::<M, D>(rt, alloc, (3, 1), program, device);
    let sent = node.receive(alloc, text);
    drop(node);
    sent.expect(rt, "the node hears").bytes
}

#[test]
fn of_two_votes_in_a_ballot_the_first_is_reported(rt: HostRuntime) {
    let prepare = b"\x02\x02\x02\x03\0\x01\0\0\0\0\0\0\0\x0a";
    let promise = b"\x02\x03\x03\x02\0\x01\0\0\0\0\0\0\0\x0a\x01\0\0\0\0\0\0\0\x09\x00";
    let device = memory(&rt, rt.alloc(), &VOTES);
    let answer = answer::<Tally, MemDevice>(&rt, rt.alloc(), &program(&rt), device, prepare);
    expect_text(&rt, &answer, promise);
}

/// The node leads at these positions one after another, and is then refused because its log is full.
fn leads_at<M: Machine, D: Device>(
    rt: &impl Abort,
    alloc: Global,
    node: &mut Replica<M, D>,
    positions: &[u8],
) {
    for position in positions {
        let sent = node.lead(alloc, None).expect(rt, "a position");
        expect_eq(rt, sent.bytes.get(5).copied(), Some(*position));
    }
    let full = node.lead(alloc, None).err();
    expect_eq(rt, full, Some(Fault::LogFull));
}

/// Node 1 leads at these positions until its log is full.
fn expect_led<M: Machine, D: Device>(
    rt: &impl Abort,
    alloc: Global,
    program: &M::Program,
    device: D,
    positions: &[u8],
) {
    let mut node = node_over::<M, D>(rt, alloc, (1, 3), program, device);
    leads_at(rt, alloc, &mut node, positions);
    drop(node);
}

#[test]
fn the_least_free_position_is_led_until_the_log_is_full(rt: HostRuntime) {
    // position 2 is learned
    let device = memory(&rt, rt.alloc(), b"\x02\x04\0\x02\x00");
    expect_led::<Tally, MemDevice>(&rt, rt.alloc(), &program(&rt), device, &[1, 3]);
}
