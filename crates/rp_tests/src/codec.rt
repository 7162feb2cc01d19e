use crate::compare::{expect_at, expect_eq, expect_text};
use crate::values::{ballot, call, node, position};
use rp_base::{
    Action, Operation, PacketReason, PlacedVote, Position, PositionRange, Rec, Reply, TaskId, Vote,
};
use rp_codec::*;
use std::alloc::Global;
use std::process::Abort;

static CALL: [u8; 21] = [
    2, 1, 17, 1, 1, 1, 0, 0, 0, 1, 1, 2, 1, 0, 0, 0, 0, 0, 0, 0, 5,
];

static PREPARE: [u8; 14] = [2, 2, 1, 1, 0, 1, 0, 0, 0, 0, 0, 0, 0, 9];

static PROMISE: [u8; 15] = [2, 3, 2, 1, 0, 1, 0, 0, 0, 0, 0, 0, 0, 9, 0];

static PROMISE_WITH_VOTE: [u8; 40] = [
    2, 3, 2, 1, 0, 1, 0, 0, 0, 0, 0, 0, 0, 10, 1, 0, 0, 0, 0, 0, 0, 0, 9, 1, 1, 0, 0, 0, 1, 1, 2,
    1, 0, 0, 0, 0, 0, 0, 0, 5,
];

static ACCEPT: [u8; 31] = [
    2, 4, 1, 2, 0, 1, 0, 0, 0, 0, 0, 0, 0, 9, 1, 1, 0, 0, 0, 1, 1, 2, 1, 0, 0, 0, 0, 0, 0, 0, 5,
];

static ACCEPTED: [u8; 31] = [
    2, 5, 2, 1, 0, 1, 0, 0, 0, 0, 0, 0, 0, 9, 1, 1, 0, 0, 0, 1, 1, 2, 1, 0, 0, 0, 0, 0, 0, 0, 5,
];

static DECIDED: [u8; 23] = [
    2, 6, 1, 2, 0, 1, 1, 1, 0, 0, 0, 1, 1, 2, 1, 0, 0, 0, 0, 0, 0, 0, 5,
];

static NACK: [u8; 22] = [
    2, 8, 3, 1, 0, 1, 0, 0, 0, 0, 0, 0, 0, 9, 0, 0, 0, 0, 0, 0, 0, 10,
];

static REPLY: [u8; 17] = [2, 9, 1, 17, 0, 0, 0, 1, 1, 0, 0, 0, 0, 0, 0, 0, 5];

/// The text of task 1's second call, of object 8 with -5.
static OTHER_CALL: [u8; 21] = [
    2, 1, 17, 1, 1, 1, 0, 0, 0, 2, 8, 2, 2, 255, 255, 255, 255, 255, 255, 255, 251,
];

/// The party of this number in texts: a node by its own, a task by 16 more, the audit by 32.
fn party(rt: &impl Abort, number: u8) -> Party {
    match number {
        32 => Party::Audit,
        0..=15 => Party::Node(node(rt, number)),
        _ => Party::Task(TaskId::new(number - 16).expect(rt, "a task")),
    }
}

/// What is read from these bytes.
fn decoded(rt: &impl Abort, alloc: Global, bytes: &[u8]) -> Result<Packet, PacketReason> {
    decode(alloc, bytes).expect(rt, "memory for the packet")
}

/// The packet that is read from these bytes, which has these parts.
fn packet(rt: &impl Abort, alloc: Global, bytes: &[u8], parties: (u8, u8), body: &Body) -> Packet {
    let found = decoded(rt, alloc, bytes).expect(rt, "a packet");
    let (from, to) = (party(rt, parties.0), party(rt, parties.1));
    let same = found.from() == from && found.to() == to && *found.body() == *body;
    expect_at(rt, &bytes, same, true);
    found
}

/// The bytes are refused for a reason.
fn expect_reason(rt: &impl Abort, alloc: Global, bytes: &[u8], reason: PacketReason) {
    let found = decoded(rt, alloc, bytes).err();
    expect_at(rt, &bytes, found, Some(reason));
}

fn expect_reasons(rt: &impl Abort, alloc: Global, cases: &[(&[u8], PacketReason)]) {
    for (bytes, reason) in cases {
        expect_reason(rt, alloc, bytes, *reason);
    }
}

/// The packet is read from these bytes.
fn expect_packet(rt: &impl Abort, alloc: Global, bytes: &[u8], packet: &Packet) {
    let found = decoded(rt, alloc, bytes).expect(rt, "a packet");
    expect_at(rt, &bytes, found == *packet, true);
}

/// No proper front of the bytes is a packet.
fn expect_no_front(rt: &impl Abort, alloc: Global, bytes: &[u8]) {
    for end in 0..bytes.len() {
        let front = bytes.get(..end).expect(rt, "a front");
        expect_reason(rt, alloc, front, PacketReason::Short);
        expect_eq(rt, packet_len(front), None);
    }
}

/// The bytes, said to be of this version, are at the front of more bytes, and the packet is read
/// from them.
fn expect_version(rt: &impl Abort, alloc: Global, packet: &Packet, bytes: &[u8], version: u8) {
    let mut run = Vec::from_slice(alloc, bytes).expect(rt, "memory for the bytes");
    if let Some(first) = run.first_mut() {
        *first = version;
    }
    expect_packet(rt, alloc, &run, packet);
    run.push(0).expect(rt, "memory for one more");
    expect_eq(rt, packet_len(&run), Some(bytes.len()));
}

/// The packet has these bytes.
fn expect_encoded(rt: &impl Abort, alloc: Global, packet: &Packet, bytes: &[u8]) {
    let text = encode(alloc, packet).expect(rt, "memory for the text");
    expect_text(rt, &text, bytes);
}

/// The packet of these parts is read from these bytes, and from no proper front of them, and is
/// written as they are. In version 1 it has the same but for the first.
fn both_ways(rt: &impl Abort, alloc: Global, bytes: &[u8], parties: (u8, u8), body: Body) {
    let packet = packet(rt, alloc, bytes, parties, &body);
    expect_encoded(rt, alloc, &packet, bytes);
    expect_version(rt, alloc, &packet, bytes, 2);
    expect_version(rt, alloc, &packet, bytes, 1);
    expect_no_front(rt, alloc, bytes);
    drop(packet);
    drop(body);
}

#[test]
fn a_task_calls_and_is_answered(rt: HostRuntime) {
    let alloc = rt.alloc();
    let calls = Body::Call { action: call(5) };
    both_ways(&rt, alloc, &CALL, (17, 1), calls);
    let other = Action::Call {
        task: TaskId::first(),
        number: 2,
        object: 8,
        operation: Operation::Procedure(2),
        arg: -5,
    };
    both_ways(
        &rt,
        alloc,
        &OTHER_CALL,
        (17, 1),
        Body::Call { action: other },
    );
    let replies = Body::Reply {
        number: 1,
        reply: Reply::Value(5),
    };
    both_ways(&rt, alloc, &REPLY, (1, 17), replies);
}

fn promise(rt: &impl Abort, number: u64, last: Option<Vote>) -> Body {
    Body::Promise {
        position: Position::first(),
        ballot: ballot(rt, number),
        last,
    }
}

#[test]
fn a_leader_prepares_and_is_promised(rt: HostRuntime) {
    let alloc = rt.alloc();
    let position = Position::first();
    let ballot = ballot(&rt, 9);
    let prepare = Body::Prepare { position, ballot };
    both_ways(&rt, alloc, &PREPARE, (1, 1), prepare);
    both_ways(&rt, alloc, &PROMISE, (2, 1), promise(&rt, 9, None));
    let vote = Vote {
        ballot,
        action: call(5),
    };
    let promise = promise(&rt, 10, Some(vote));
    both_ways(&rt, alloc, &PROMISE_WITH_VOTE, (2, 1), promise);
}

#[test]
fn a_node_refuses_a_ballot(rt: HostRuntime) {
    let nack = Body::Nack {
        position: Position::first(),
        ballot: ballot(&rt, 9),
        bound: ballot(&rt, 10),
    };
    both_ways(&rt, rt.alloc(), &NACK, (3, 1), nack);
}

#[test]
fn nodes_vote_and_learn(rt: HostRuntime) {
    let alloc = rt.alloc();
    let position = Position::first();
    let ballot = ballot(&rt, 9);
    let accept = Body::Accept {
        position,
        ballot,
        action: call(5),
    };
    both_ways(&rt, alloc, &ACCEPT, (1, 2), accept);
    let accepted = Body::Accepted {
        position,
        ballot,
        action: call(5),
    };
    both_ways(&rt, alloc, &ACCEPTED, (2, 1), accepted);
    let decided = Body::Decided {
        position,
        action: call(5),
    };
    both_ways(&rt, alloc, &DECIDED, (1, 2), decided);
}

static SPOILED_PREPARES: [(&[u8], PacketReason); 7] = [
    (
        &[2, 2, 1, 1, 0, 1, 0, 0, 0, 0, 0, 0, 0],
        PacketReason::Short,
    ),
    (
        &[2, 2, 1, 1, 0, 1, 0, 0, 0, 0, 0, 0, 0, 9, 0],
        PacketReason::Long,
    ),
    (
        &[3, 2, 1, 1, 0, 1, 0, 0, 0, 0, 0, 0, 0, 9],
        PacketReason::Version,
    ),
    (
        &[2, 11, 1, 1, 0, 1, 0, 0, 0, 0, 0, 0, 0, 9],
        PacketReason::Kind,
    ),
    (
        &[2, 2, 1, 1, 0, 1, 0, 0, 0, 0, 0, 0, 0, 8],
        PacketReason::Field,
    ),
    (
        &[2, 2, 1, 1, 0, 1, 0, 0, 0, 0, 0, 0, 0, 16],
        PacketReason::Field,
    ),
    (&[], PacketReason::Short),
];

/// The text of this version in which task 1 calls an entry, by this byte.
fn entry_call(version: u8, index: u8) -> [u8; 21] {
    [
        version, 1, 17, 1, 1, 1, 0, 0, 0, 1, 1, 3, index, 0, 0, 0, 0, 0, 0, 0, 0,
    ]
}

/// The text of this version with this byte calls this entry.
fn expect_entry(rt: &impl Abort, alloc: Global, version: u8, index: u8, entry: u8) {
    let action = Action::Call {
        task: TaskId::first(),
        number: 1,
        object: 1,
        operation: Operation::Entry(entry),
        arg: 0,
    };
    let body = Body::Call { action };
    let found = packet(rt, alloc, &entry_call(version, index), (17, 1), &body);
    drop(found);
    drop(body);
}

/// The text of this version with this byte is no packet.
fn expect_no_entry(rt: &impl Abort, alloc: Global, version: u8, index: u8, reason: PacketReason) {
    expect_reason(rt, alloc, &entry_call(version, index), reason);
}

#[test]
fn an_entry_is_read_by_the_version_of_its_text(rt: HostRuntime) {
    let alloc = rt.alloc();
    expect_entry(&rt, alloc, 1, 0, 1);
    expect_entry(&rt, alloc, 2, 1, 1);
    expect_entry(&rt, alloc, 2, 2, 2);
    expect_no_entry(&rt, alloc, 1, 2, PacketReason::Field);
    expect_no_entry(&rt, alloc, 2, 0, PacketReason::Field);
    expect_no_entry(&rt, alloc, 2, 5, PacketReason::Field);
    expect_no_entry(&rt, alloc, 3, 1, PacketReason::Version);
}

static ASK: [u8; 6] = [2, 7, 2, 1, 0, 2];

static REPORT: [u8; 26] = [
    2, 10, 1, 32, 0, 1, 0, 1, 1, 1, 1, 0, 0, 0, 1, 1, 2, 1, 0, 0, 0, 0, 0, 0, 0, 5,
];

static REPORT_OF_NONE: [u8; 9] = [2, 10, 1, 32, 0, 2, 0, 1, 0];

fn report(rt: &impl Abort, alloc: Global, first: u16, applied: u16, stated: &[Action]) -> Body {
    let actions = Vec::from_slice(alloc, stated).expect(rt, "memory for the actions");
    Body::Report {
        first: position(rt, first),
        applied,
        actions: Actions::from_vec(actions),
    }
}

#[test]
fn a_node_asks_and_reports(rt: HostRuntime) {
    let alloc = rt.alloc();
    let ask = Body::Ask {
        position: position(&rt, 2),
    };
    both_ways(&rt, alloc, &ASK, (2, 1), ask);
    let one = report(&rt, alloc, 1, 1, &[call(5)]);
    both_ways(&rt, alloc, &REPORT, (1, 32), one);
    let none = report(&rt, alloc, 2, 1, &[]);
    both_ways(&rt, alloc, &REPORT_OF_NONE, (1, 32), none);
}

/// Puts the bytes after a text.
fn put(rt: &impl Abort, text: &mut Vec<u8>, bytes: &[u8]) {
    text.extend_from_slice(bytes)
        .expect(rt, "memory for the text");
}

/// Puts the text of the call after a text: all that is after the parties in that of its packet.
fn put_call(rt: &impl Abort, text: &mut Vec<u8>) {
    put(rt, text, CALL.get(4..).expect(rt, "the call"));
}

/// The text of node 1's report of `count` calls, of 300 that it has applied.
fn long_report(rt: &impl Abort, alloc: Global, count: u8) -> Vec<u8> {
    let mut text = Vec::new(alloc);
    put(rt, &mut text, &[2, 10, 1, 32, 0, 1, 1, 44, count]);
    for _ in 0..count {
        put_call(rt, &mut text);
    }
    text
}

/// A long text is that of node 1's packet of these parts.
fn expect_long(rt: &impl Abort, alloc: Global, text: &[u8], to: u8, body: Body) {
    let sent = packet(rt, alloc, text, (1, to), &body);
    expect_encoded(rt, alloc, &sent, text);
    drop(sent);
    drop(body);
}

#[test]
fn a_report_has_at_most_200_actions(rt: HostRuntime) {
    let alloc = rt.alloc();
    let text = long_report(&rt, alloc, 200);
    let most = report(&rt, alloc, 1, 300, &[call(5); 200]);
    expect_long(&rt, alloc, &text, 32, most);
    expect_eq(&rt, text.len(), 3409);
    let more = long_report(&rt, alloc, 201);
    expect_reason(&rt, alloc, &more, PacketReason::Field);
}

static SPOILED_ASKS_AND_REPORTS: [(&[u8], PacketReason); 11] = [
    (&[2, 7, 2, 1, 0], PacketReason::Short),
    (&[2, 7, 2, 1, 0, 2, 0], PacketReason::Long),
    (&[0, 7, 2, 1, 0, 2], PacketReason::Version),
    (&[2, 7, 2, 1, 0, 0], PacketReason::Field),
    (&[2, 7, 2, 17, 0, 2], PacketReason::Field),
    (&[2, 10, 1, 32, 0, 2, 0, 2, 1], PacketReason::Short),
    (&[2, 10, 1, 32, 0, 2, 0, 1, 0, 0], PacketReason::Long),
    (&[3, 10, 1, 32, 0, 2, 0, 1, 0], PacketReason::Version),
    (&[2, 11, 1, 32, 0, 2, 0, 1, 0], PacketReason::Kind),
    (&[2, 10, 1, 32, 0, 2, 0, 1, 1, 0], PacketReason::Field),
    (&[2, 10, 1, 32, 0, 2, 0, 2, 1, 4], PacketReason::Field),
];

static PREPARE_RANGE: [u8; 15] = [2, 12, 1, 2, 0, 1, 4, 0, 0, 0, 0, 0, 0, 0, 9];

static PROMISE_RANGE: [u8; 27] = [
    2, 13, 3, 2, 0, 1, 2, 0, 0, 0, 0, 0, 0, 0, 10, 1, 0, 1, 0, 0, 0, 0, 0, 0, 0, 9, 0,
];

static PROMISE_RANGE_OF_INTERRUPT: [u8; 32] = [
    2, 13, 3, 2, 0, 1, 2, 0, 0, 0, 0, 0, 0, 0, 10, 1, 0, 1, 0, 0, 0, 0, 0, 0, 0, 9, 2, 1, 0, 0, 0,
    1,
];

static PROMISE_RANGE_OF_NONE: [u8; 16] = [2, 13, 3, 2, 255, 255, 1, 0, 0, 0, 0, 0, 0, 0, 10, 0];

const INTERRUPT: Action = Action::Interrupt {
    source: 1,
    occurrence: 1,
};

fn range(rt: &impl Abort, first: u16, count: u8) -> PositionRange {
    PositionRange::new(position(rt, first), count).expect(rt, "a range")
}

fn placed(rt: &impl Abort, at: u16, number: u64, action: Action) -> PlacedVote {
    PlacedVote {
        position: position(rt, at),
        vote: Vote {
            ballot: ballot(rt, number),
            action,
        },
    }
}

fn promise_range(
    rt: &impl Abort,
    alloc: Global,
    range: PositionRange,
    votes: &[PlacedVote],
) -> Body {
    let votes = Vec::from_slice(alloc, votes).expect(rt, "memory for the votes");
    Body::PromiseRange {
        range,
        ballot: ballot(rt, 10),
        votes: Votes::from_vec(votes),
    }
}

#[test]
fn a_leader_prepares_a_range_and_is_promised(rt: HostRuntime) {
    let alloc = rt.alloc();
    let prepare = Body::PrepareRange {
        range: range(&rt, 1, 4),
        ballot: ballot(&rt, 9),
    };
    both_ways(&rt, alloc, &PREPARE_RANGE, (1, 2), prepare);
    let votes = [placed(&rt, 1, 9, Action::Noop)];
    let promise = promise_range(&rt, alloc, range(&rt, 1, 2), &votes);
    both_ways(&rt, alloc, &PROMISE_RANGE, (3, 2), promise);
    let votes = [placed(&rt, 1, 9, INTERRUPT)];
    let promise = promise_range(&rt, alloc, range(&rt, 1, 2), &votes);
    both_ways(&rt, alloc, &PROMISE_RANGE_OF_INTERRUPT, (3, 2), promise);
    let promise = promise_range(&rt, alloc, range(&rt, 65535, 1), &[]);
    both_ways(&rt, alloc, &PROMISE_RANGE_OF_NONE, (3, 2), promise);
}

/// A promise for the last 64 positions that reports a vote at each.
fn longest_promise(rt: &impl Abort, alloc: Global) -> Body {
    let mut votes = Vec::new(alloc);
    for position in 65472..=65535 {
        let vote = placed(rt, position, 9, call(5));
        votes.push(vote).expect(rt, "memory for a vote");
    }
    promise_range(rt, alloc, range(rt, 65472, 64), &votes)
}

/// The text of node 1's promise to node 2 for the last 64 positions, with a vote at each.
fn longest_promise_text(rt: &impl Abort, alloc: Global) -> Vec<u8> {
    let mut text = Vec::new(alloc);
    put(rt, &mut text, &[2, 13, 1, 2, 255, 192, 64]);
    put(rt, &mut text, &[0, 0, 0, 0, 0, 0, 0, 10, 64]);
    for low in 192..=255u8 {
        put(rt, &mut text, &[255, low, 0, 0, 0, 0, 0, 0, 0, 9]);
        put_call(rt, &mut text);
    }
    text
}

#[test]
fn a_promise_for_a_range_reports_at_most_64_votes(rt: HostRuntime) {
    let alloc = rt.alloc();
    let text = longest_promise_text(&rt, alloc);
    let most = longest_promise(&rt, alloc);
    expect_long(&rt, alloc, &text, 2, most);
    expect_eq(&rt, text.len(), 1744);
}

static SPOILED_RANGES: [(&[u8], PacketReason); 9] = [
    (&[2, 12, 1, 2, 0, 1], PacketReason::Short),
    (
        &[2, 12, 1, 2, 0, 0, 4, 0, 0, 0, 0, 0, 0, 0, 9],
        PacketReason::Field,
    ),
    (
        &[2, 12, 1, 2, 0, 1, 0, 0, 0, 0, 0, 0, 0, 0, 9],
        PacketReason::Field,
    ),
    (
        &[2, 12, 1, 2, 0, 1, 65, 0, 0, 0, 0, 0, 0, 0, 9],
        PacketReason::Field,
    ),
    (&[2, 12, 1, 2, 255, 255, 2], PacketReason::Field),
    (&[2, 12, 1, 17, 0, 1], PacketReason::Field),
    (
        &[2, 11, 1, 2, 0, 1, 4, 0, 0, 0, 0, 0, 0, 0, 9],
        PacketReason::Kind,
    ),
    (
        &[2, 14, 1, 2, 0, 1, 4, 0, 0, 0, 0, 0, 0, 0, 9],
        PacketReason::Kind,
    ),
    (
        &[2, 12, 1, 2, 0, 1, 4, 0, 0, 0, 0, 0, 0, 0, 9, 0],
        PacketReason::Long,
    ),
];

/// A task prepares or promises, or makes another's call; a vote is below the range; an interrupt is
/// of source 0.
static WRONG_FIELDS: [(&[u8], PacketReason); 5] = [
    (
        &[2, 2, 17, 1, 0, 1, 0, 0, 0, 0, 0, 0, 0, 9],
        PacketReason::Field,
    ),
    (
        &[
            2, 13, 17, 2, 0, 1, 2, 0, 0, 0, 0, 0, 0, 0, 10, 1, 0, 1, 0, 0, 0, 0, 0, 0, 0, 9, 0,
        ],
        PacketReason::Field,
    ),
    (
        &[
            2, 1, 18, 1, 1, 1, 0, 0, 0, 1, 1, 2, 1, 0, 0, 0, 0, 0, 0, 0, 5,
        ],
        PacketReason::Field,
    ),
    (
        &[
            2, 13, 3, 2, 0, 2, 2, 0, 0, 0, 0, 0, 0, 0, 10, 1, 0, 1, 0, 0, 0, 0, 0, 0, 0, 9, 0,
        ],
        PacketReason::Field,
    ),
    (
        &[
            2, 13, 3, 2, 0, 1, 2, 0, 0, 0, 0, 0, 0, 0, 10, 1, 0, 1, 0, 0, 0, 0, 0, 0, 0, 9, 2, 0,
            0, 0, 0, 1,
        ],
        PacketReason::Field,
    ),
];

#[test]
fn each_spoiled_packet_has_its_reason(rt: HostRuntime) {
    let alloc = rt.alloc();
    expect_reasons(&rt, alloc, &SPOILED_PREPARES);
    expect_reasons(&rt, alloc, &SPOILED_ASKS_AND_REPORTS);
    expect_reasons(&rt, alloc, &SPOILED_RANGES);
    expect_reasons(&rt, alloc, &WRONG_FIELDS);
}

/// A promise of node 3 for positions 1 and 2 in ballot 10 that says this count, and two votes.
fn two_votes(count: u8, first: u8, second: u8, ballot: u8) -> [u8; 38] {
    [
        2, 13, 3, 2, 0, 1, 2, 0, 0, 0, 0, 0, 0, 0, 10, count, 0, first, 0, 0, 0, 0, 0, 0, 0, 9, 0,
        0, second, 0, 0, 0, 0, 0, 0, 0, ballot, 0,
    ]
}

/// What two votes cannot be: the count, their positions and the ballot of the second.
static SPOILED_VOTES: [([u8; 4], PacketReason); 7] = [
    ([3, 1, 2, 9], PacketReason::Field),
    ([1, 1, 2, 9], PacketReason::Long),
    ([2, 2, 1, 9], PacketReason::Field),
    ([2, 1, 1, 9], PacketReason::Field),
    ([2, 1, 3, 9], PacketReason::Field),
    ([2, 0, 2, 9], PacketReason::Field),
    ([2, 1, 2, 10], PacketReason::Field),
];

/// Two votes with this count, at these positions, the second in this ballot, are no packet.
fn expect_spoiled_votes(rt: &impl Abort, alloc: Global, votes: [u8; 4], reason: PacketReason) {
    let [count, first, second, ballot] = votes;
    let bytes = two_votes(count, first, second, ballot);
    expect_reason(rt, alloc, &bytes, reason);
}

/// Two votes as they have to be are a packet, and no longer one without its last byte.
fn expect_two_votes(rt: &impl Abort, alloc: Global) {
    let right = two_votes(2, 1, 2, 9);
    let found = decoded(rt, alloc, &right).is_ok();
    expect_eq(rt, found, true);
    let short = right.get(..37).expect(rt, "all bytes but the last");
    expect_reason(rt, alloc, short, PacketReason::Short);
}

#[test]
fn each_spoiled_promise_for_a_range_has_its_reason(rt: HostRuntime) {
    expect_two_votes(&rt, rt.alloc());
    for (votes, reason) in &SPOILED_VOTES {
        expect_spoiled_votes(&rt, rt.alloc(), *votes, *reason);
    }
}

static STARTED: [u8; 10] = [2, 1, 0, 0, 0, 0, 0, 0, 0, 9];

static PROMISED: [u8; 12] = [2, 2, 0, 1, 0, 0, 0, 0, 0, 0, 0, 9];

static PROMISED_RANGE: [u8; 13] = [2, 5, 0, 1, 4, 0, 0, 0, 0, 0, 0, 0, 9];

static VOTED: [u8; 29] = [
    2, 3, 0, 1, 0, 0, 0, 0, 0, 0, 0, 9, 1, 1, 0, 0, 0, 1, 1, 2, 1, 0, 0, 0, 0, 0, 0, 0, 5,
];

static LEARNED: [u8; 21] = [
    2, 4, 0, 1, 1, 1, 0, 0, 0, 1, 1, 2, 1, 0, 0, 0, 0, 0, 0, 0, 5,
];

/// No record is read from these bytes.
fn expect_no_record(rt: &impl Abort, bytes: &[u8]) {
    expect_at(rt, &bytes, decode_front(bytes).is_none(), true);
}

/// No record is read from a proper front of these bytes.
fn expect_no_record_front(rt: &impl Abort, text: &[u8]) {
    for end in 0..text.len() {
        expect_no_record(rt, text.get(..end).expect(rt, "a front"));
    }
}

/// These bytes, but for the first one, in a text of this version, and more after them.
fn with_more(rt: &impl Abort, alloc: Global, text: &[u8], version: u8) -> Vec<u8> {
    let mut bytes = Vec::new(alloc);
    put(rt, &mut bytes, text);
    put(rt, &mut bytes, &STARTED);
    if let Some(first) = bytes.first_mut() {
        *first = version;
    }
    bytes
}

/// The record of this length is read from the front of these bytes.
fn expect_front(rt: &impl Abort, bytes: &[u8], rec: &Rec, len: usize) {
    expect_eq(rt, decode_front(bytes), Some((*rec, len)));
}

/// The record is read from the front of its text of this version and more bytes.
fn expect_read(rt: &impl Abort, alloc: Global, rec: &Rec, text: &[u8], version: u8) {
    let bytes = with_more(rt, alloc, text, version);
    expect_front(rt, &bytes, rec, text.len());
}

/// The record has these bytes, is read from the front of them and more, of either version, and from
/// no proper front of them.
fn expect_record(rt: &impl Abort, alloc: Global, rec: &Rec, text: &[u8]) {
    expect_text(rt, text_of_record(rec).as_slice(), text);
    expect_read(rt, alloc, rec, text, 2);
    expect_read(rt, alloc, rec, text, 1);
    expect_no_record_front(rt, text);
}

#[test]
fn each_record_has_its_text_and_is_read_from_its_front(rt: HostRuntime) {
    let alloc = rt.alloc();
    let position = Position::first();
    let ballot = ballot(&rt, 9);
    let range = Rec::PromisedRange(range(&rt, 1, 4), ballot);
    let voted = Rec::Voted(position, ballot, call(5));
    let learned = Rec::Learned(position, call(5));
    expect_record(&rt, alloc, &Rec::Started(ballot), &STARTED);
    expect_record(&rt, alloc, &Rec::Promised(position, ballot), &PROMISED);
    expect_record(&rt, alloc, &voted, &VOTED);
    expect_record(&rt, alloc, &learned, &LEARNED);
    expect_record(&rt, alloc, &range, &PROMISED_RANGE);
}

static NO_RECORDS: [&[u8]; 9] = [
    &[],
    &[3, 1, 0, 0, 0, 0, 0, 0, 0, 9],
    &[2, 0, 0, 0, 0, 0, 0, 0, 0, 9],
    &[2, 6, 0, 0, 0, 0, 0, 0, 0, 9],
    &[2, 5, 0, 1, 0, 0, 0, 0, 0, 0, 0, 0, 9],
    &[2, 5, 0, 1, 65, 0, 0, 0, 0, 0, 0, 0, 9],
    &[2, 5, 255, 255, 2, 0, 0, 0, 0, 0, 0, 0, 9],
    &[2, 1, 0, 0, 0, 0, 0, 0, 0, 16],
    &[2, 2, 0, 1, 0, 0, 0, 0, 0, 0, 0, 0],
];

#[test]
fn no_record_is_read_where_none_begins(rt: HostRuntime) {
    for bytes in &NO_RECORDS {
        expect_no_record(&rt, bytes);
    }
}
