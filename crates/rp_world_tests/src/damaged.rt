use crate::compare::{expect_at, expect_eq};
use crate::replica::{hears, holding};
use crate::world::program;
use rp_base::{Fault, Rec};
use rp_codec::decode;
use rp_machine::{Machine, Tally, TallyProgram};
use rp_store::*;
use std::alloc::Global;
use std::process::Abort;

/// A `Started`, a `Promised`, a `Voted` and a `Learned` of the call of one task, as stored on a
/// device.
const RECORDS: [u8; 72] = [
    2, 1, 0, 0, 0, 0, 0, 0, 0, 9, 2, 2, 0, 1, 0, 0, 0, 0, 0, 0, 0, 9, 2, 3, 0, 1, 0, 0, 0, 0, 0, 0,
    0, 9, 1, 1, 0, 0, 0, 1, 1, 2, 1, 0, 0, 0, 0, 0, 0, 0, 5, 2, 4, 0, 1, 1, 1, 0, 0, 0, 1, 1, 2, 1,
    0, 0, 0, 0, 0, 0, 0, 5,
];

/// Where each of the records ends.
const ENDS: [usize; 4] = [10, 22, 51, 72];

/// How many of the records end before this byte.
fn records_before(place: usize) -> usize {
    ENDS.iter().filter(|end| **end <= place).count()
}

/// Where the n-th record ends, 0 if n is 0.
fn end_of(records: usize) -> usize {
    ENDS.get(records.wrapping_sub(1)).copied().unwrap_or(0)
}

/// The records that opening finds on a device with these bytes, and how many bytes it truncates.
fn found<D: Device>(rt: &impl Abort, alloc: Global, device: D, bytes: &[u8]) -> (Vec<Rec>, u64) {
    let device = holding(rt, device, bytes);
    let opened = Store::open(alloc, device).ok().expect(rt, "it opens");
    let Opened {
        store,
        records,
        cut_bytes,
    } = opened;
    drop(store);
    (records, cut_bytes)
}

/// A device with these bytes opens with at least this many of the records, unchanged.
fn expect_kept(rt: &impl Abort, alloc: Global, bytes: &[u8], all: &[Rec], least: usize) -> u64 {
    let (records, cut_bytes) = found(rt, alloc, MemDevice::new(alloc), bytes);
    let front = all.get(..least).expect(rt, "the least records");
    let same = records.get(..least) == Some(front);
    drop(records);
    expect_at(rt, &least, same, true);
    cut_bytes
}

/// If the device has only the records' bytes up to this one, the whole records among them are kept,
/// and the rest is truncated.
fn expect_front_kept(rt: &impl Abort, alloc: Global, all: &[Rec], end: usize) {
    let front = RECORDS.get(..end).expect(rt, "a front");
    let whole = records_before(end);
    let cut_bytes = expect_kept(rt, alloc, front, all, whole);
    expect_eq(rt, cut_bytes, end.saturating_sub(end_of(whole)) as u64);
}

/// If the byte at this place is set to any value, the records before it are kept.
fn expect_rest_kept(rt: &impl Abort, alloc: Global, all: &[Rec], place: usize) {
    let mut changed = RECORDS;
    for value in 0..=255u8 {
        if let Some(byte) = changed.get_mut(place) {
            *byte = value;
        }
        expect_kept(rt, alloc, &changed, all, records_before(place));
    }
}

/// The records themselves.
fn all_records(rt: &impl Abort, alloc: Global) -> Vec<Rec> {
    let (all, cut_bytes) = found(rt, alloc, MemDevice::new(alloc), &RECORDS);
    expect_eq(rt, (all.len(), cut_bytes), (4, 0));
    all
}

#[test]
fn each_damaged_byte_leaves_the_records_before_it(rt: HostRuntime) {
    let alloc = rt.alloc();
    let all = all_records(&rt, alloc);
    for place in 0..RECORDS.len() {
        expect_front_kept(&rt, alloc, &all, place);
        expect_rest_kept(&rt, alloc, &all, place);
    }
}

/// A packet of each kind for node 1 of three.
const PACKETS: [&[u8]; 11] = [
    b"\x02\x01\x11\x01\x01\x01\0\0\0\x01\x01\x02\x01\0\0\0\0\0\0\0\x05",
    b"\x02\x02\x02\x01\0\x01\0\0\0\0\0\0\0\x0a",
    b"\x02\x03\x02\x01\0\x01\0\0\0\0\0\0\0\x09\0",
    b"\x02\x03\x02\x01\0\x01\0\0\0\0\0\0\0\x11\x01\0\0\0\0\0\0\0\x09\x01\x01\0\0\0\x01\x01\x02\x01\0\0\0\0\0\0\0\x05",
    b"\x02\x04\x02\x01\0\x01\0\0\0\0\0\0\0\x0a\x01\x01\0\0\0\x01\x01\x02\x01\0\0\0\0\0\0\0\x05",
    b"\x02\x05\x02\x01\0\x01\0\0\0\0\0\0\0\x09\x01\x01\0\0\0\x01\x01\x02\x01\0\0\0\0\0\0\0\x05",
    b"\x02\x06\x02\x01\0\x01\x01\x01\0\0\0\x01\x01\x02\x01\0\0\0\0\0\0\0\x05",
    b"\x02\x07\x02\x01\0\x01",
    b"\x02\x08\x03\x01\0\x01\0\0\0\0\0\0\0\x09\0\0\0\0\0\0\0\x0a",
    b"\x02\x09\x02\x11\0\0\0\x01\x01\0\0\0\0\0\0\0\x05",
    b"\x02\x0a\x02\x20\0\x01\0\x01\x01\x01\x01\0\0\0\x01\x01\x02\x01\0\0\0\0\0\0\0\x05",
];

/// A node refuses a text that is no packet, with the decoder's reason, and refuses nothing else.
fn expect_heard<M: Machine, D: Device>(
    rt: &impl Abort,
    alloc: Global,
    program: &M::Program,
    device: D,
    text: &[u8],
) {
    let heard = hears::<M, D>(rt, alloc, (1, 9), (program, text), device);
    let decoded = decode(alloc, text).expect(rt, "memory for the packet");
    let reason = decoded.err();
    expect_eq(rt, heard.err(), reason.map(Fault::BadPacket));
}

/// A node hears the packet with the byte at this place set to each value.
fn hears_damaged(
    rt: &impl Abort,
    alloc: Global,
    program: &TallyProgram,
    text: &[u8],
    place: usize,
) {
    let mut changed = Vec::from_slice(alloc, text).expect(rt, "memory for the text");
    for value in 0..=255u8 {
        if let Some(byte) = changed.get_mut(place) {
            *byte = value;
        }
        expect_heard::<Tally, MemDevice>(rt, alloc, program, MemDevice::new(alloc), &changed);
    }
}

#[test]
fn a_damaged_packet_is_refused_for_the_reason_of_its_text(rt: HostRuntime) {
    let program = program(&rt);
    for text in PACKETS {
        for place in 0..text.len() {
            hears_damaged(&rt, rt.alloc(), &program, text, place);
        }
    }
}
