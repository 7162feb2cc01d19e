ghost use Rattle.std.specs.Prelude.{◌≡◌, true};
ghost use Rattle.rp_world.specs.rp_rules.specs.Inputs.{IsRightInput};

use crate::compare::{expect_at, expect_eq, expect_text};
use crate::failing::{Call, FailingDevice};
use crate::learner::node_of;
use rp_base::{Config, Fault, Position};
use rp_machine::{Machine, Tally, TallyProgram};
use rp_replica::*;
use rp_store::{CutDevice, Device, MemDevice};
use std::alloc::Global;
use std::process::Abort;

/// A node's input, how many packets the node then sends, and how many bytes its device then holds.
type Case = (&'static str, Input<'static>, usize, u64);

/// The effect of each kind of input on node 1 of three. Its ballot at position 1 is 9.
const CASES: [Case; 15] = [
    (
        "the first call of task 1, procedure 1 of object 1 with 5",
        Input::Receive(b"\x02\x01\x11\x01\x01\x01\0\0\0\x01\x01\x02\x01\0\0\0\0\0\0\0\x05"),
        0,
        0,
    ),
    ("the word to lead", Input::Lead(None), 3, 10),
    (
        "its own Prepare",
        Input::Receive(b"\x02\x02\x01\x01\0\x01\0\0\0\0\0\0\0\x09"),
        1,
        22,
    ),
    (
        "a promise",
        Input::Receive(b"\x02\x03\x02\x01\0\x01\0\0\0\0\0\0\0\x09\0"),
        0,
        22,
    ),
    (
        "the second promise",
        Input::Receive(b"\x02\x03\x03\x01\0\x01\0\0\0\0\0\0\0\x09\0"),
        3,
        22,
    ),
    (
        "its own Accept",
        Input::Receive(
            b"\x02\x04\x01\x01\0\x01\0\0\0\0\0\0\0\x09\x01\x01\0\0\0\x01\x01\x02\x01\0\0\0\0\0\0\0\x05",
        ),
        1,
        51,
    ),
    (
        "a vote",
        Input::Receive(
            b"\x02\x05\x02\x01\0\x01\0\0\0\0\0\0\0\x09\x01\x01\0\0\0\x01\x01\x02\x01\0\0\0\0\0\0\0\x05",
        ),
        0,
        51,
    ),
    (
        "the second vote",
        Input::Receive(
            b"\x02\x05\x03\x01\0\x01\0\0\0\0\0\0\0\x09\x01\x01\0\0\0\x01\x01\x02\x01\0\0\0\0\0\0\0\x05",
        ),
        3,
        72,
    ),
    (
        "a question",
        Input::Receive(b"\x02\x07\x02\x01\0\x01"),
        1,
        72,
    ),
    (
        "a decision",
        Input::Receive(b"\x02\x06\x02\x01\0\x02\0"),
        0,
        77,
    ),
    (
        "a Prepare in a higher ballot",
        Input::Receive(b"\x02\x02\x03\x01\0\x01\0\0\0\0\0\0\0\x0b"),
        1,
        89,
    ),
    (
        "a Prepare below it",
        Input::Receive(b"\x02\x02\x02\x01\0\x01\0\0\0\0\0\0\0\x0a"),
        1,
        89,
    ),
    (
        "a Nack",
        Input::Receive(b"\x02\x08\x02\x01\0\x01\0\0\0\0\0\0\0\x09\0\0\0\0\0\0\0\x0a"),
        0,
        89,
    ),
    (
        "an interrupt",
        Input::Interrupt {
            source: 8,
            occurrence: 2,
        },
        0,
        89,
    ),
    ("a tick", Input::Tick { now: 7 }, 0, 89),
];

/// A node of three over the device, opened once.
fn opened_once<M: Machine, D: Device>(
    rt: &impl Abort,
    alloc: Global,
    number: u8,
    program: &M::Program,
    device: D,
) -> Result<Replica<M, D>, (Fault, D)> {
    let config = Config {
        nodes: 3,
        max_positions: 9,
    };
    let node = node_of(rt, number, 3);
    match Replica::open(alloc, node, config, program, device) {
        Ok(opening) => Ok(opening.replica),
        Err(refused) => Err(refused),
    }
}

/// A node of three over the device, opened once more if memory ran out.
fn opened<M: Machine, D: Device>(
    rt: &impl Abort,
    alloc: Global,
    number: u8,
    program: &M::Program,
    device: D,
) -> Result<Replica<M, D>, (Fault, D)> {
    match opened_once::<M, D>(rt, alloc, number, program, device) {
        Err((Fault::OutOfMemory, device)) => {
            opened_once::<M, D>(rt, alloc, number, program, device)
        }
        answer => answer,
    }
}

/// Node 1 of three over the device, which does not fail.
fn first_node<M: Machine, D: Device>(
    rt: &impl Abort,
    alloc: Global,
    program: &M::Program,
    device: D,
) -> Replica<M, D> {
    let opened = opened::<M, D>(rt, alloc, 1, program, device);
    opened.ok().expect(rt, "it opens")
}

/// Whether an interrupt has its source and its occurrence.
fn is_right(input: &Input) -> bool
    ensures { result ≡ true → IsRightInput input.now }
{
    match *input {
        Input::Interrupt { source, occurrence } => { 1 <= source && source <= 8 && 1 <= occurrence }
        _ => true,
    }
}

/// A step, retried once if memory ran out and nothing has changed.
fn step<M: Machine, D: Device>(
    rt: &impl Abort,
    alloc: Global,
    node: &mut Replica<M, D>,
    input: &Input,
) -> Result<Sent, Fault> {
    if !is_right(input) {
        panic!(rt; "an interrupt of a source that there is not");
    }
    let stored = node.stored();
    match node.turn(alloc, input) {
        Err(Fault::OutOfMemory) if node.stored() == stored => node.turn(alloc, input),
        answer => answer,
    }
}

/// The node sends this many packets for an input, and its device then holds this many bytes.
fn expect_step<M: Machine, D: Device>(
    rt: &impl Abort,
    alloc: Global,
    node: &mut Replica<M, D>,
    case: &Case,
) {
    let (name, input, packets, stored) = case;
    let sent = step(rt, alloc, node, input).expect(rt, name);
    expect_at(rt, name, (sent.packets, node.stored()), (*packets, *stored));
}

/// Node 1 takes the input of each case with the stated effect, and then reports in one packet.
fn expect_steps<M: Machine, D: Device>(
    rt: &impl Abort,
    alloc: Global,
    program: &M::Program,
    device: D,
    cases: &[Case],
) {
    let mut node = first_node::<M, D>(rt, alloc, program, device);
    for case in cases {
        expect_step(rt, alloc, &mut node, case);
    }
    let stored = node.stored();
    let report = Input::Report(Position::first());
    let case = ("the wish for a report", report, 1, stored);
    expect_step(rt, alloc, &mut node, &case);
    drop(node);
}

fn program(rt: &impl Abort) -> TallyProgram {
    TallyProgram::new(1).expect(rt, "one object")
}

#[test]
fn a_step_that_memory_refused_has_the_same_result_later(rt: HostRuntime) {
    let device = MemDevice::new(rt.alloc());
    expect_steps::<Tally, MemDevice>(&rt, rt.alloc(), &program(&rt), device, &CASES);
}

/// How many bytes are left if a node stops within its first step, retried once if memory ran out.
fn left_by_a_cut<M: Machine, D: CutDevice>(
    rt: &impl Abort,
    alloc: Global,
    program: &M::Program,
    device: D,
    kept: u64,
) -> u64 {
    let node = first_node::<M, D>(rt, alloc, program, device);
    let answer = match node.torn(alloc, &Input::Lead(None), kept) {
        Err(NotCut::Refused(Fault::OutOfMemory, node)) => {
            node.torn(alloc, &Input::Lead(None), kept)
        }
        answer => answer,
    };
    answer.ok().expect(rt, "it is cut").len()
}

#[test]
fn a_cut_that_memory_refused_gives_the_node_back(rt: HostRuntime) {
    let device = MemDevice::new(rt.alloc());
    let left = left_by_a_cut::<Tally, MemDevice>(&rt, rt.alloc(), &program(&rt), device, 9);
    expect_eq(&rt, left, 9);
}

/// What node 3 hears about ballot 9 at position 1 from node 1: a Prepare, an Accept and a decision.
const HEARD: [&[u8]; 3] = [
    b"\x02\x02\x01\x03\0\x01\0\0\0\0\0\0\0\x09",
    b"\x02\x04\x01\x03\0\x01\0\0\0\0\0\0\0\x09\x01\x01\0\0\0\x01\x01\x02\x01\0\0\0\0\0\0\0\x05",
    b"\x02\x06\x01\x03\0\x01\x01\x01\0\0\0\x01\x01\x02\x01\0\0\0\0\0\0\0\x05",
];

/// The node's answers: a promise and a vote.
const ANSWERS: &[u8] =
    b"\x02\x03\x03\x01\0\x01\0\0\0\0\0\0\0\x09\0\x02\x05\x03\x01\0\x01\0\0\0\0\0\0\0\x09\x01\x01\0\0\0\x01\x01\x02\x01\0\0\0\0\0\0\0\x05";

/// The result of the packets that a node hears, opened again whenever its device fails.
#[derive(Drop)]
struct Heard {
    /// The texts of the packets that the node sends.
    sent: Vec<u8>,
    openings: u32,
    stored: u64,
    image: Vec<u8>,
}

/// The node opens, after a few attempts if its device fails.
fn opens_at_last<M: Machine, D: Device>(
    rt: &impl Abort,
    alloc: Global,
    program: &M::Program,
    device: D,
    openings: &mut u32,
) -> Replica<M, D> {
    let mut device = device;
    for _ in 0..9 {
        *openings = openings.saturating_add(1);
        match opened::<M, D>(rt, alloc, 3, program, device) {
            Ok(node) => return node,
            Err((fault, again)) => {
                expect_eq(rt, fault, Fault::Device);
                device = again;
            }
        }
    }
    panic!(rt; "it does not open")
}

/// The node whose device failed refuses each step until it is opened again.
fn reopens<M: Machine, D: Device>(
    rt: &impl Abort,
    alloc: Global,
    program: &M::Program,
    mut node: Replica<M, D>,
    heard: (&Input, &mut u32),
) -> Replica<M, D> {
    let (input, openings) = heard;
    let silent = step(rt, alloc, &mut node, input);
    expect_eq(rt, silent.err(), Some(Fault::Failed));
    opens_at_last::<M, D>(rt, alloc, program, node.close(), openings)
}

/// Node 3 hears a packet. If its device fails it is opened again, and then hears the same packet
/// again.
fn hears<M: Machine, D: Device>(
    rt: &impl Abort,
    alloc: Global,
    program: &M::Program,
    mut node: Replica<M, D>,
    heard: (&[u8], &mut Heard),
) -> Replica<M, D> {
    let (text, heard) = heard;
    let input = Input::Receive(text);
    match step(rt, alloc, &mut node, &input) {
        Err(Fault::Device) => {
            let openings = (&input, &mut heard.openings);
            let mut node = reopens::<M, D>(rt, alloc, program, node, openings);
            let answer = step(rt, alloc, &mut node, &input);
            extends(rt, &mut heard.sent, answer);
            node
        }
        answer => {
            extends(rt, &mut heard.sent, answer);
            node
        }
    }
}

/// Node 3 hears the packets.
fn hears_all<M: Machine, D: Device>(
    rt: &impl Abort,
    alloc: Global,
    program: &M::Program,
    device: D,
    texts: &[&[u8]],
) -> Heard {
    let mut heard = Heard {
        sent: Vec::new(alloc),
        openings: 0,
        stored: 0,
        image: Vec::new(alloc),
    };
    let mut node = opens_at_last::<M, D>(rt, alloc, program, device, &mut heard.openings);
    for text in texts {
        node = hears::<M, D>(rt, alloc, program, node, (text, &mut heard));
    }
    heard.stored = node.stored();
    heard.image = image_of(rt, alloc, &node);
    drop(node);
    heard
}

/// Appends the texts of a step to the others, and retries once if memory ran out.
fn extends(rt: &impl Abort, all: &mut Vec<u8>, answer: Result<Sent, Fault>) {
    let sent = answer.expect(rt, "the step");
    if all.extend_from_slice(&sent.bytes).is_err() {
        let again = all.extend_from_slice(&sent.bytes);
        expect_eq(rt, again.is_ok(), true);
    }
}

/// The node's image, requested once more if memory ran out.
fn image_of<M: Machine, D: Device>(
    rt: &impl Abort,
    alloc: Global,
    node: &Replica<M, D>,
) -> Vec<u8> {
    match node.image(alloc) {
        Ok(image) => image,
        Err(_) => node.image(alloc).expect(rt, "the image"),
    }
}

/// The call that fails and the bytes that the device then holds; how often the node is opened; and
/// how many bytes of its answers are never sent.
type Failure = (Option<(Call, u64)>, u32, usize);

/// A promise that was written but not sent is not sent later.
const FAILURES: [Failure; 9] = [
    (Some((Call::Read, 0)), 2, 0),
    (Some((Call::Sync, 0)), 2, 0),
    (Some((Call::Append, 0)), 2, 0),
    (Some((Call::Sync, 12)), 2, 15),
    (Some((Call::Append, 12)), 2, 0),
    (Some((Call::Sync, 41)), 2, 0),
    (Some((Call::Append, 41)), 2, 0),
    (Some((Call::Sync, 62)), 2, 0),
    (None, 1, 0),
];

/// A node whose device fails in this way still gives the answers and stores the records.
fn expect_heard(rt: &impl Abort, heard: &Heard, failure: &Failure) {
    let (_, openings, unsent) = *failure;
    expect_at(rt, failure, (heard.openings, heard.stored), (openings, 62));
    let answers = ANSWERS.get(unsent..).expect(rt, "an answer's start");
    expect_text(rt, &heard.sent, answers);
    expect_text(rt, &heard.image, b"tally o1=5\n");
}

#[test]
fn a_device_that_fails_once_loses_no_vote(rt: HostRuntime) {
    let program = program(&rt);
    for failure in FAILURES {
        let device = FailingDevice::new(rt.alloc(), failure.0);
        let heard = hears_all::<Tally, FailingDevice>(&rt, rt.alloc(), &program, device, &HEARD);
        expect_heard(&rt, &heard, &failure);
    }
}
