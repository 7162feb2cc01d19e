ghost use Rattle.std.specs.Prelude.{◌≡◌};
ghost use Rattle.rp_store.specs.Disk.{empty_disk};

use crate::building::{expect_eq, expect_image};
use rp_base::{Action, Answers, Ballot, Operation, Rec, Reply, TaskId};
use rp_examples::{BoundedCounter, CounterProgram, MirroredDevice};
use rp_machine::Machine;
use rp_store::{Device, DeviceCall, FailDevice, MemDevice, Store};
use std::alloc::Global;
use std::process::Abort;

/// A call of a procedure of the counter, and the reply to it.
fn reply(rt: &impl Abort, counter: &mut BoundedCounter, procedure: u8, arg: i64) -> Reply {
    let operation = Operation::Procedure(procedure);
    assert!(rt; operation.is_right());
    let call = Action::Call {
        task: TaskId::first(),
        number: 1,
        object: 1,
        operation,
        arg,
    };
    let mut answers = Answers::new();
    counter.apply(&call, &mut answers);
    answers.as_slice().first().expect(rt, "an answer").reply
}

/// Calls procedures of the counter one after another, and ends the test unless each has its reply.
fn expect_replies(rt: &impl Abort, counter: &mut BoundedCounter, calls: &[(u8, i64, Reply)]) {
    for (procedure, arg, expected) in calls {
        expect_eq(rt, reply(rt, counter, *procedure, *arg), *expected);
    }
}

/// Calls up to the bound of 10.
const COUNTED: [(u8, i64, Reply); 3] = [
    (1, 7, Reply::Value(7)),
    (1, 4, Reply::ConstraintError),
    (1, 3, Reply::Value(10)),
];

/// Calls that reset the counter, and of what there is not.
const RESET: [(u8, i64, Reply); 2] = [(2, 0, Reply::Value(0)), (3, 0, Reply::NoSuchOperation)];

#[test]
fn a_counter_stays_within_its_bound(rt: HostRuntime) {
    let program = CounterProgram::new(10);
    let started = BoundedCounter::start(rt.alloc(), &program);
    let mut counter = started.expect(&rt, "memory for the counter");
    expect_replies(&rt, &mut counter, &COUNTED);
    expect_image(&rt, rt.alloc(), &counter, "count 10\n");
    expect_replies(&rt, &mut counter, &RESET);
}

/// A call that fails: of which kind, and which of that kind, from 1, or 0 for none.
type Failing = (DeviceCall, u64);

const NONE: Failing = (DeviceCall::Append, 0);

const APPEND: Failing = (DeviceCall::Append, 1);

const SECOND_READ: Failing = (DeviceCall::Read, 2);

/// An empty device of which one call fails. An append that fails leaves three bytes.
fn device(alloc: Global, failing: Failing) -> FailDevice<MemDevice>
    ensures { result ≡ empty_disk }
{
    FailDevice::new(MemDevice::new(alloc), failing.0, failing.1, 3)
}

/// Puts the record of a ballot on a device, and opens it again: whether the put failed, and how many
/// records and torn bytes there are.
fn put_and_open<D: Device>(
    rt: &impl Abort,
    alloc: Global,
    device: D,
    ballot: Ballot,
) -> (bool, usize, u64) {
    let opened = Store::open(alloc, device).ok().expect(rt, "it opens");
    let mut store = opened.store;
    let failed = store.put(&Rec::Started(ballot)).is_err();
    let again = Store::open(alloc, store.close());
    let opened = again.ok().expect(rt, "it opens again");
    let found = (failed, opened.records.len(), opened.cut_bytes);
    drop(opened);
    found
}

/// The calls that fail of two copies, and what is then found.
const FAILURES: [(Failing, Failing, (bool, usize, u64)); 6] = [
    (NONE, NONE, (false, 1, 0)),
    (APPEND, NONE, (false, 1, 0)),
    (NONE, APPEND, (false, 1, 0)),
    (APPEND, APPEND, (true, 0, 3)),
    (SECOND_READ, NONE, (false, 1, 0)),
    (NONE, SECOND_READ, (false, 1, 0)),
];

/// What is found of two copies on which these calls fail.
fn found(rt: &impl Abort, alloc: Global, main: Failing, spare: Failing) -> (bool, usize, u64) {
    let ballot = Ballot::new(9).expect(rt, "a ballot");
    let mirrored = MirroredDevice::new(device(alloc, main), device(alloc, spare));
    put_and_open(rt, alloc, mirrored, ballot)
}

#[test]
fn a_record_is_whole_while_one_device_works(rt: HostRuntime) {
    for (main, spare, expected) in FAILURES {
        let found = found(&rt, rt.alloc(), main, spare);
        expect_eq(&rt, found, expected);
    }
}
