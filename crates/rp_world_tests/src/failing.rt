use crate::compare::{expect_at, expect_eq, push};
use crate::world::{call, lead, node, program};
use rp_base::{Config, Fault, Reply, TaskId};
use rp_machine::{Machine, Tally};
use rp_model::{Event, Step};
use rp_store::{CutDevice, DeviceCall, FailDevice, MemDevice};
use rp_world::*;
use std::alloc::Global;
use std::process::Abort;

/// The result of a call that task 1 makes through node 1, while a device of the three fails.
#[derive(Clone, Copy, Debug, PartialEq, Eq)]
struct Outcome {
    /// How many steps were answered with `Device`.
    failures: u32,
    /// How many records and torn bytes the restarted node found.
    opened: Option<(u64, u64)>,
    reply: Option<Reply>,
    /// How many actions nodes 1, 2 and 3 have applied.
    applied: [u16; 3],
}

/// Makes a step. A fault of a device is counted, and the run continues.
fn makes<M: Machine, D: CutDevice>(
    rt: &impl Abort,
    cluster: &mut Cluster<M, D>,
    alloc: Global,
    event: &Event,
    outcome: &mut Outcome,
) {
    match cluster.step(alloc, event) {
        Ok(effect) => outcome.opened = effect.opened.or(outcome.opened),
        Err(fault) => {
            expect_eq(rt, fault, Fault::Device);
            outcome.failures = outcome.failures.saturating_add(1);
        }
    }
}

/// Delivers each message above this number, in order. Returns the number of the last one.
fn delivers_above<M: Machine, D: CutDevice>(
    rt: &impl Abort,
    cluster: &mut Cluster<M, D>,
    alloc: Global,
    above: u64,
    outcome: &mut Outcome,
) -> u64 {
    let mut delivered = above;
    for _ in 0..100 {
        if delivered >= cluster.messages() {
            break;
        }
        delivered = delivered.saturating_add(1);
        let event = Event::Node(Step::Deliver(delivered));
        makes(rt, cluster, alloc, &event, outcome);
    }
    delivered
}

/// Makes these steps. After each that is paired with `true`, all messages are delivered.
fn makes_all<M: Machine, D: CutDevice>(
    rt: &impl Abort,
    cluster: &mut Cluster<M, D>,
    alloc: Global,
    events: &[(Event, bool)],
    outcome: &mut Outcome,
) {
    let mut delivered = 0;
    for (event, all) in events {
        makes(rt, cluster, alloc, event, outcome);
        if *all {
            delivered = delivers_above(rt, cluster, alloc, delivered, outcome);
        }
    }
}

/// How many actions a node has applied.
fn applied<M: Machine, D: CutDevice>(rt: &impl Abort, cluster: &Cluster<M, D>, number: u8) -> u16 {
    let applied = cluster.applied(node(rt, number));
    applied.expect(rt, "a node that runs")
}

/// The first reply of task 1.
fn first_reply<M: Machine, D: CutDevice>(cluster: &Cluster<M, D>) -> Option<Reply> {
    let answer = cluster.replies(TaskId::first()).first()?;
    Some(answer.reply)
}

/// The result of these events in a cluster.
fn outcome_after<M: Machine, D: CutDevice>(
    rt: &impl Abort,
    cluster: &mut Cluster<M, D>,
    alloc: Global,
    events: &[(Event, bool)],
) -> Outcome {
    let mut outcome = Outcome {
        failures: 0,
        opened: None,
        reply: None,
        applied: [0; 3],
    };
    makes_all(rt, cluster, alloc, events, &mut outcome);
    outcome.reply = first_reply(cluster);
    let first = applied(rt, cluster, 1);
    let second = applied(rt, cluster, 2);
    let third = applied(rt, cluster, 3);
    outcome.applied = [first, second, third];
    outcome
}

/// Task 1 calls node 1, which leads. Then the node at this place is restarted, a second time in
/// case its device fails at the first; the task repeats its call, and node 1 leads again. Each
/// event is paired with whether all messages are delivered after it.
fn events(rt: &impl Abort, place: usize) -> [(Event, bool); 6] {
    let restarted = [1, 2, 3].get(place).copied().expect(rt, "one of three");
    let restarted = node(rt, restarted);
    let again = Event::Again {
        task: TaskId::first(),
        node: node(rt, 1),
    };
    [
        (call(rt, 1, 1, 5), true),
        (lead(rt, 1), true),
        (Event::Restart(restarted), false),
        (Event::Restart(restarted), true),
        (again, true),
        (lead(rt, 1), true),
    ]
}

/// The result of these events, or why the cluster does not open.
fn one_call<M: Machine, D: CutDevice>(
    rt: &impl Abort,
    alloc: Global,
    program: M::Program,
    devices: Vec<D>,
    events: &[(Event, bool)],
) -> Result<Outcome, Fault> {
    let config = Config {
        nodes: 3,
        max_positions: 9,
    };
    match Cluster::<M, D>::new(alloc, config, program, devices) {
        Ok(cluster) => {
            let mut cluster = cluster;
            let outcome = outcome_after(rt, &mut cluster, alloc, events);
            drop(cluster);
            Ok(outcome)
        }
        Err(fault) => Err(fault),
    }
}

/// The call of a device that fails: its kind, its number from 1, and how many bytes of an append
/// are kept.
type Failing = (DeviceCall, u64, usize);

/// A call that never happens, so that none fails.
const NONE: Failing = (DeviceCall::Cut, 0, 0);

/// A device in memory with two failing calls.
type Device = FailDevice<FailDevice<MemDevice>>;

/// A device with these failing calls.
fn device(alloc: Global, first: Failing, second: Failing) -> Device {
    let inner = FailDevice::new(MemDevice::new(alloc), first.0, first.1, first.2);
    FailDevice::new(inner, second.0, second.1, second.2)
}

/// Three devices; these calls fail on the one at this place.
fn devices(
    rt: &impl Abort,
    alloc: Global,
    at: usize,
    first: Failing,
    second: Failing,
) -> Vec<Device> {
    let mut devices = Vec::new(alloc);
    for place in 0..3 {
        let (first, second) = if place == at {
            (first, second)
        } else {
            (NONE, NONE)
        };
        push(rt, &mut devices, device(alloc, first, second));
    }
    devices
}

/// The result of the call if these calls of a device fail.
fn outcome_of(
    rt: &impl Abort,
    alloc: Global,
    at: usize,
    first: Failing,
    second: Failing,
) -> Result<Outcome, Fault> {
    let devices = devices(rt, alloc, at, first, second);
    one_call::<Tally, Device>(rt, alloc, program(rt), devices, &events(rt, at))
}

/// The call is answered although one call of a device fails, and all nodes have applied equally
/// many actions.
fn expect_answered(rt: &impl Abort, alloc: Global, at: usize, fails: Failing) {
    let outcome = outcome_of(rt, alloc, at, fails, NONE).expect(rt, "the run");
    let [first, ..] = outcome.applied;
    let expected = Outcome {
        failures: 1,
        opened: outcome.opened,
        reply: Some(Reply::Value(5)),
        applied: [first; 3],
    };
    expect_at(rt, &(at, fails), outcome, expected);
    expect_at(rt, &(at, fails), first == 1 || first == 2, true);
}

#[test]
fn a_call_is_answered_though_an_append_or_a_sync_fails(rt: HostRuntime) {
    let alloc = rt.alloc();
    for at in 0..3 {
        let records = if at == 0 { 4 } else { 3 };
        for number in 1..=records {
            for left in [0, 9, 99] {
                expect_answered(&rt, alloc, at, (DeviceCall::Append, number, left));
            }
            expect_answered(&rt, alloc, at, (DeviceCall::Sync, number + 1, 0));
        }
    }
}

/// Node 1 finds this many records and torn bytes if these calls of its device fail.
fn expect_found(
    rt: &impl Abort,
    alloc: Global,
    first: Failing,
    second: Failing,
    opened: (u64, u64),
) {
    let expected = Outcome {
        failures: if second.1 == 0 { 1 } else { 2 },
        opened: Some(opened),
        reply: Some(Reply::Value(5)),
        applied: [1; 3],
    };
    let outcome = outcome_of(rt, alloc, 0, first, second);
    expect_eq(rt, outcome.expect(rt, "the run"), expected);
}

#[test]
fn a_node_finds_what_a_failing_device_left(rt: HostRuntime) {
    let cut = (DeviceCall::Append, 3, 28);
    for (first, second, opened) in [
        (cut, NONE, (2, 28)),
        ((DeviceCall::Append, 3, 29), NONE, (3, 0)),
        ((DeviceCall::Sync, 4, 0), NONE, (3, 0)),
        (cut, (DeviceCall::Read, 2, 0), (2, 28)),
        (cut, (DeviceCall::Cut, 1, 0), (2, 28)),
        (cut, (DeviceCall::Sync, 4, 0), (2, 0)),
    ] {
        expect_found(&rt, rt.alloc(), first, second, opened);
    }
}

#[test]
fn a_cluster_does_not_open_where_a_device_fails(rt: HostRuntime) {
    for kind in [DeviceCall::Read, DeviceCall::Sync] {
        for at in 0..3 {
            let outcome = outcome_of(&rt, rt.alloc(), at, (kind, 1, 0), NONE);
            expect_eq(&rt, outcome.err(), Some(Fault::Device));
        }
    }
}
