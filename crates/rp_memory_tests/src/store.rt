ghost use Rattle.rp_world.specs.rp_base.specs.Right.{IsRightRecord};

use crate::compare::{expect_eq, expect_text};
use rp_base::{Action, Ballot, Fault, Operation, Position, Rec, TaskId, WriteFault};
use rp_store::*;
use std::alloc::Global;
use std::process::Abort;

/// A `Started` of version 1.
const OLD_STARTED: [u8; 10] = [1, 1, 0, 0, 0, 0, 0, 0, 0, 9];

const STARTED: [u8; 10] = [2, 1, 0, 0, 0, 0, 0, 0, 0, 9];

/// A `Started` of version 1 and a `Promised`.
const GONE_ON: [u8; 22] = [
    1, 1, 0, 0, 0, 0, 0, 0, 0, 9, 2, 2, 0, 1, 0, 0, 0, 0, 0, 0, 0, 9,
];

/// A `Started` and a `Voted`.
const STARTED_AND_VOTED: [u8; 39] = [
    2, 1, 0, 0, 0, 0, 0, 0, 0, 9, 2, 3, 0, 1, 0, 0, 0, 0, 0, 0, 0, 9, 1, 1, 0, 0, 0, 1, 1, 2, 1, 0,
    0, 0, 0, 0, 0, 0, 5,
];

/// A `Started` and the first 11 bytes of a `Promised`.
const TORN: [u8; 21] = [
    2, 1, 0, 0, 0, 0, 0, 0, 0, 9, 2, 2, 0, 1, 0, 0, 0, 0, 0, 0, 0,
];

/// A `Started` and a `Promised` with ballot 0.
const WRONG: [u8; 22] = [
    2, 1, 0, 0, 0, 0, 0, 0, 0, 9, 2, 2, 0, 1, 0, 0, 0, 0, 0, 0, 0, 0,
];

fn nine(rt: &impl Abort) -> Ballot {
    Ballot::new(9).expect(rt, "a ballot")
}

fn started(rt: &impl Abort) -> Rec
    ensures { IsRightRecord result }
{
    Rec::Started(nine(rt))
}

fn promised(rt: &impl Abort) -> Rec
    ensures { IsRightRecord result }
{
    Rec::Promised(Position::first(), nine(rt))
}

/// A vote for the first call of task 1, of procedure 1 of object 1 with 5.
fn voted(rt: &impl Abort) -> Rec
    ensures { IsRightRecord result }
{
    let call = Action::Call {
        task: TaskId::first(),
        number: 1,
        object: 1,
        operation: Operation::Procedure(1),
        arg: 5,
    };
    Rec::Voted(Position::first(), nine(rt), call)
}

/// Appends the bytes, and retries once if memory ran out.
fn appends<D: Device>(rt: &impl Abort, device: &mut D, bytes: &[u8]) {
    let answer = match device.append(bytes) {
        Err(Fault::OutOfMemory) => device.append(bytes),
        answer => answer,
    };
    expect_eq(rt, answer, Ok(()));
}

/// The device with these bytes, none of them stable.
fn holding<D: Device>(rt: &impl Abort, device: D, bytes: &[u8]) -> D {
    let mut device = device;
    appends(rt, &mut device, bytes);
    device
}

/// The device holds these bytes. It is read once more if memory ran out.
fn expect_holds<D: Device>(rt: &impl Abort, alloc: Global, device: D, bytes: &[u8]) -> D {
    let mut device = device;
    let found = match device.read(alloc) {
        Ok(found) => found,
        Err(_) => device.read(alloc).expect(rt, "the bytes"),
    };
    expect_text(rt, &found, bytes);
    device
}

/// Opens the device, and retries once if memory ran out.
fn opened<D: Device>(rt: &impl Abort, alloc: Global, device: D) -> Opened<D> {
    match Store::open(alloc, device) {
        Ok(opened) => opened,
        Err((fault, device)) => {
            expect_eq(rt, fault, Fault::OutOfMemory);
            Store::open(alloc, device).ok().expect(rt, "it opens")
        }
    }
}

/// The store of a device whose opening finds these records and truncates this many bytes.
fn found<D: Device>(
    rt: &impl Abort,
    alloc: Global,
    device: D,
    records: &[Rec],
    cut_bytes: u64,
) -> Store<D> {
    let opened = opened(rt, alloc, device);
    expect_eq(rt, opened.records.as_slice(), records);
    expect_eq(rt, opened.cut_bytes, cut_bytes);
    opened.store
}

/// Opens the device, and then again, which truncates nothing.
fn opens<D: Device>(rt: &impl Abort, alloc: Global, device: D, records: &[Rec], cut_bytes: u64) {
    let store = found(rt, alloc, device, records, cut_bytes);
    drop(found(rt, alloc, store.close(), records, 0));
}

/// Puts the record, and retries once if memory ran out.
fn puts<D: Device>(rt: &impl Abort, store: &mut Store<D>, rec: &Rec)
    requires { IsRightRecord rec.now }
{
    if let Err(fault) = store.put(rec) {
        expect_eq(rt, fault, WriteFault::OutOfMemory);
        expect_eq(rt, store.put(rec), Ok(()));
    }
}

/// What a stop within the put of the record leaves, retried once if memory ran out.
fn torn<D: CutDevice>(rt: &impl Abort, store: Store<D>, rec: &Rec, kept: u64) -> D
    requires { IsRightRecord rec.now }
{
    let answer = match store.tear(rec, kept) {
        Err(NotTorn::Refused(Fault::OutOfMemory, store)) => store.tear(rec, kept),
        answer => answer,
    };
    answer.ok().expect(rt, "it is torn")
}

#[test]
fn whole_records_are_returned_and_the_rest_is_truncated(rt: HostRuntime) {
    let started = [started(&rt)];
    let cases: [(&[u8], &[Rec], u64); 4] = [
        (&[], &[], 0),
        (&STARTED, &started, 0),
        (&TORN, &started, 11),
        (&WRONG, &started, 12),
    ];
    for (bytes, records, cut_bytes) in &cases {
        let device = holding(&rt, MemDevice::new(rt.alloc()), bytes);
        opens(&rt, rt.alloc(), device, records, *cut_bytes);
    }
}

/// The device of a node that started in version 1 and promises in version 2.
fn goes_on<D: Device>(rt: &impl Abort, alloc: Global, device: D) -> D {
    let device = holding(rt, device, &OLD_STARTED);
    let mut store = found(rt, alloc, device, &[started(rt)], 0);
    puts(rt, &mut store, &promised(rt));
    store.close()
}

#[test]
fn a_device_of_version_1_goes_on_in_version_2(rt: HostRuntime) {
    let device = goes_on(&rt, rt.alloc(), MemDevice::new(rt.alloc()));
    let device = expect_holds(&rt, rt.alloc(), device, &GONE_ON);
    let records = [started(&rt), promised(&rt)];
    opens(&rt, rt.alloc(), device, &records, 0);
}

/// The store of a device that holds a `Started`.
fn starts<D: Device>(rt: &impl Abort, alloc: Global, device: D) -> Store<D> {
    let mut store = opened(rt, alloc, device).store;
    puts(rt, &mut store, &started(rt));
    store
}

/// What a stop within the put of a vote after a `Started` leaves.
fn stops_in_a_vote<D: CutDevice>(rt: &impl Abort, alloc: Global, device: D, kept: u64) -> D {
    let store = starts(rt, alloc, device);
    torn(rt, store, &voted(rt), kept)
}

#[test]
fn a_stop_keeps_what_was_put_and_a_whole_record_after_it(rt: HostRuntime) {
    let records = [started(&rt), voted(&rt)];
    let started = [started(&rt)];
    let cases: [(u64, &[Rec], u64); 4] = [
        (0, &started, 0),
        (28, &started, 28),
        (29, &records, 0),
        (1000, &records, 0),
    ];
    for (kept, records, cut_bytes) in &cases {
        let device = stops_in_a_vote(&rt, rt.alloc(), MemDevice::new(rt.alloc()), *kept);
        opens(&rt, rt.alloc(), device, records, *cut_bytes);
    }
}

/// The device after it was opened and closed, and after a stop that keeps only stable bytes.
fn stops_once_opened<D: CutDevice>(rt: &impl Abort, alloc: Global, device: D) -> D {
    let mut device = opened(rt, alloc, device).store.close();
    device.stop(0);
    device
}

#[test]
fn what_an_opening_read_stays_through_a_stop(rt: HostRuntime) {
    let device = holding(&rt, MemDevice::new(rt.alloc()), &TORN);
    let device = stops_once_opened(&rt, rt.alloc(), device);
    expect_eq(&rt, device.len(), 10);
    opens(&rt, rt.alloc(), device, &[started(&rt)], 0);
}

/// The device of a node that started and voted, after a stop that keeps only stable bytes.
fn stops_after_a_vote<D: CutDevice>(rt: &impl Abort, alloc: Global, device: D) -> D {
    let mut store = starts(rt, alloc, device);
    puts(rt, &mut store, &voted(rt));
    expect_eq(rt, store.stored(), 39);
    let mut device = store.close();
    device.stop(0);
    device
}

#[test]
fn a_put_refused_for_memory_writes_nothing(rt: HostRuntime) {
    let device = stops_after_a_vote(&rt, rt.alloc(), MemDevice::new(rt.alloc()));
    let device = expect_holds(&rt, rt.alloc(), device, &STARTED_AND_VOTED);
    let records = [started(&rt), voted(&rt)];
    drop(found(&rt, rt.alloc(), device, &records, 0));
}

/// A device in memory that holds these bytes, none of them stable, and whose sync of this number
/// fails.
fn failing(rt: &impl Abort, alloc: Global, bytes: &[u8], sync: u64) -> FailDevice<MemDevice> {
    let device = FailDevice::new(MemDevice::new(alloc), DeviceCall::Sync, sync, 0);
    holding(rt, device, bytes)
}

/// A put of the vote is refused with this fault. It is retried once if memory ran out.
fn expect_refused<D: Device>(rt: &impl Abort, store: &mut Store<D>, fault: WriteFault) {
    let voted = voted(rt);
    let answer = match store.put(&voted) {
        Err(WriteFault::OutOfMemory) => store.put(&voted),
        answer => answer,
    };
    expect_eq(rt, answer, Err(fault));
}

/// The device opens, and a put of the vote is then refused because the device fails.
fn fails_at_a_vote<D: Device>(rt: &impl Abort, alloc: Global, device: D) -> Store<D> {
    let mut store = opened(rt, alloc, device).store;
    expect_refused(rt, &mut store, WriteFault::Device);
    store
}

#[test]
fn an_opening_syncs_once_whatever_the_device_holds(rt: HostRuntime) {
    let cases: [&[u8]; 4] = [&[], &STARTED, &TORN, &WRONG];
    for bytes in &cases {
        let store = fails_at_a_vote(&rt, rt.alloc(), failing(&rt, rt.alloc(), bytes, 2));
        drop(store);
    }
}

/// The device after opening it fails. The opening is retried once if memory ran out.
fn not_opened<D: Device>(rt: &impl Abort, alloc: Global, device: D) -> D {
    let answer = match Store::open(alloc, device) {
        Err((Fault::OutOfMemory, device)) => Store::open(alloc, device),
        answer => answer,
    };
    answer.err().expect(rt, "it does not open").1
}

/// The device of a store that failed at the put of a vote, and then writes nothing more.
fn writes_no_more<D: Device>(rt: &impl Abort, alloc: Global, device: D) -> D {
    let mut store = fails_at_a_vote(rt, alloc, device);
    expect_refused(rt, &mut store, WriteFault::Failed);
    expect_eq(rt, store.has_failed(), true);
    store.close()
}

#[test]
fn a_failed_sync_is_reported_and_the_store_writes_no_more(rt: HostRuntime) {
    let device = failing(&rt, rt.alloc(), &STARTED, 2);
    let device = writes_no_more(&rt, rt.alloc(), device);
    let records = [started(&rt), voted(&rt)];
    opens(&rt, rt.alloc(), device, &records, 0);
}

#[test]
fn an_opening_whose_sync_fails_keeps_the_records(rt: HostRuntime) {
    let device = failing(&rt, rt.alloc(), &TORN, 1);
    let device = not_opened(&rt, rt.alloc(), device);
    expect_eq(&rt, device.len(), 10);
    opens(&rt, rt.alloc(), device, &[started(&rt)], 0);
}
