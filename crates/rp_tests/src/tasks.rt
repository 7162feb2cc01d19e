use crate::compare::{expect_at, expect_eq, expect_text};
use rp_base::{Action, Fault, Operation, Reply, TaskId};
use rp_tasks::*;
use std::alloc::Global;
use std::process::Abort;

/// The first task's call of this number, as all stubs here make it.
fn call(number: u32) -> Action {
    Action::Call {
        task: TaskId::first(),
        number,
        object: 8,
        operation: Operation::Procedure(2),
        arg: -5,
    }
}

fn call_by(stub: &mut Stub) -> Result<Action, Fault> {
    stub.call(8, Operation::Procedure(2), -5)
}

/// The stub calls for the first time, or again, by this number, and waits for the reply to it.
fn expect_call(rt: &impl Abort, stub: &mut Stub, number: u32) {
    expect_eq(rt, call_by(stub), Ok(call(number)));
    expect_eq(rt, call_by(stub), Err(Fault::TaskBusy));
    expect_eq(rt, stub.refusal(), Some(Fault::TaskBusy));
}

/// A reply to the call of this number ends what the stub waits for, or does not.
fn expect_reply(rt: &impl Abort, stub: &mut Stub, number: u32, ends: bool) {
    expect_eq(rt, stub.reply(number, Reply::Value(0)), ends);
}

#[test]
fn calls_are_numbered_in_order_and_end_by_their_own_reply(rt: HostRuntime) {
    let mut stub = Stub::new(TaskId::first());
    expect_eq(&rt, stub.retry(), None);
    for number in 1..=3 {
        expect_call(&rt, &mut stub, number);
        expect_reply(&rt, &mut stub, number - 1, false);
        expect_reply(&rt, &mut stub, number + 1, false);
        expect_eq(&rt, stub.retry(), Some(call(number)));
        expect_reply(&rt, &mut stub, number, true);
        expect_reply(&rt, &mut stub, number, false);
        expect_eq(&rt, stub.retry(), None);
    }
}

static P: [u8; 3] = [1, 2, 3];

static Q: [u8; 1] = [4];

/// A line whose words are those of the seed of zeros.
fn empty_line(rt: &impl Abort, alloc: Global) -> FaultLine {
    FaultLine::new(alloc, [0; 32]).expect(rt, "memory for the line")
}

/// The line takes a packet by a word.
fn accept(rt: &impl Abort, line: &mut FaultLine, alloc: Global, word: u32, packet: &[u8]) {
    let taken = line.accept_by(alloc, word, packet);
    taken.expect(rt, "memory for the packet");
}

/// The line gives this packet on by a word.
fn expect_release(rt: &impl Abort, line: &mut FaultLine, word: u32, packet: &[u8]) {
    expect_packet(rt, line.release_by(word), packet);
}

/// Ends the test unless this packet was given on.
fn expect_packet(rt: &impl Abort, found: Option<Vec<u8>>, packet: &[u8]) {
    expect_text(rt, &found.expect(rt, "a packet"), packet);
}

/// The line gives on this many packets, and then none.
fn expect_copies(rt: &impl Abort, line: &mut FaultLine, copies: usize) {
    let mut count = 0usize;
    for _ in 0..20 {
        if line.release_by(0).is_some() {
            count = count.saturating_add(1);
        }
    }
    expect_eq(rt, count, copies);
}

/// Words that lose a packet, double it, or hold it once, with how many copies are given on.
const WORDS: [(u32, usize); 9] = [
    (0, 0),
    (1, 0),
    (2, 2),
    (3, 2),
    (4, 1),
    (15, 1),
    (16, 0),
    (18, 2),
    (u32::MAX, 1),
];

#[test]
fn a_word_loses_doubles_or_holds_the_packet(rt: HostRuntime) {
    let mut line = empty_line(&rt, rt.alloc());
    for (word, copies) in WORDS {
        accept(&rt, &mut line, rt.alloc(), word, &P);
        expect_copies(&rt, &mut line, copies);
    }
    drop(line);
}

#[test]
fn a_word_picks_among_the_held_packets(rt: HostRuntime) {
    let alloc = rt.alloc();
    let mut line = empty_line(&rt, alloc);
    accept(&rt, &mut line, alloc, 18, &P);
    accept(&rt, &mut line, alloc, 5, &Q);
    expect_release(&rt, &mut line, 4, &P);
    expect_release(&rt, &mut line, 5, &Q);
    expect_release(&rt, &mut line, u32::MAX, &P);
    expect_copies(&rt, &mut line, 0);
    drop(line);
}

#[test]
fn the_seventeenth_copy_is_lost(rt: HostRuntime) {
    let alloc = rt.alloc();
    let mut line = empty_line(&rt, alloc);
    for _ in 0..15 {
        accept(&rt, &mut line, alloc, 4, &P);
    }
    accept(&rt, &mut line, alloc, 2, &Q);
    accept(&rt, &mut line, alloc, 4, &P);
    expect_release(&rt, &mut line, 15, &Q);
    expect_copies(&rt, &mut line, 15);
    drop(line);
}

/// The line takes the packets 0 to 3, by its own words.
fn accept_four(rt: &impl Abort, line: &mut FaultLine, alloc: Global) {
    for number in 0..4 {
        let taken = line.accept(alloc, &[number]);
        taken.expect(rt, "memory for the packet");
    }
}

/// The words of the zero seed are those of RFC 8439, appendix A.1, test vector 1.
#[test]
fn the_stream_says_what_is_lost_and_given_on(rt: HostRuntime) {
    let mut line = empty_line(&rt, rt.alloc());
    let none = line.release().is_none();
    accept_four(&rt, &mut line, rt.alloc());
    // The words 0xade0b876, 0x903df1a0, 0xe56a5d40 and 0x28bd8653: 0 is held once, 3 twice.
    expect_packet(&rt, line.release(), &[3]);
    expect_packet(&rt, line.release(), &[0]);
    let word = line.next_word();
    drop(line);
    expect_eq(&rt, (none, word), (true, 0xccef36a8));
    gives_what_it_took();
}
