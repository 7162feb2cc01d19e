//! What the tests share. A test ends where one of these finds what it does not expect: so their
//! callers hold no results, which are long to prove. Whoever holds seats to its end gives them to
//! `drop`: where a function lets them go by itself, the prover goes through all of their fields.

ghost use Rattle.rp_threads.specs.rp_boxes.specs.FirstSeats.{AreSeats, failures_of};

use rp_base::{Config, NodeId};
use rp_boxes::{AllSeats, Fetch, NodeSeat, seats};
use rp_codec::Party;
use rp_machine::{Machine, TallyProgram};
use rp_replica::Input;
use rp_store::{Device, MemDevice};
use rp_threads::node_step;
use std::alloc::Global;
use std::fmt::Debug;
use std::process::Abort;

/// Three nodes with a log of 1,000 positions.
pub(crate) const CONFIG: Config = Config {
    nodes: 3,
    max_positions: 1000,
};

/// The program of one tally.
pub(crate) fn one_tally(rt: &impl Abort) -> TallyProgram {
    TallyProgram::new(1).expect(rt, "one object")
}

/// An empty device for each node.
pub(crate) fn empty_devices(rt: &impl Abort, alloc: Global) -> Vec<MemDevice> {
    MemDevice::several(alloc, CONFIG.nodes).expect(rt, "memory for the devices")
}

/// The seats of a cluster over these devices.
pub(crate) fn all_seats<R: Abort, M: Machine, D: Device>(
    rt: &R,
    alloc: Global,
    program: &M::Program,
    devices: Vec<D>,
) -> AllSeats<M, D>
    ensures { AreSeats (record { nodes = 3; max_positions = 1000 }) program.now
        (failures_of D.disk devices.items) result.nodes.items result.tasks.items result.audit }
{
    seats(alloc, CONFIG, program, devices).expect(rt, "seats")
}

/// The node of this number.
pub(crate) fn node(rt: &impl Abort, number: u8) -> NodeId {
    NodeId::new(number).expect(rt, "a node")
}

/// The node receives the packet in the box from a party, if there is one.
pub(crate) fn receive<M: Machine, D: Device>(
    rt: &impl Abort,
    seat: &mut NodeSeat<M, D>,
    alloc: Global,
    from: Party,
) {
    if let Some(packet) = seat.fetch(from) {
        node_step(seat, alloc, &Input::Receive(packet.as_slice())).expect(rt, "a step");
    }
}

/// The node receives the packets in its boxes from the nodes, one from each.
pub(crate) fn receive_each<M: Machine, D: Device>(
    rt: &impl Abort,
    seat: &mut NodeSeat<M, D>,
    alloc: Global,
) {
    for number in 1..4u8 {
        receive(rt, seat, alloc, Party::Node(node(rt, number)));
    }
}

/// Ends the test unless this is the packet of that text.
pub(crate) fn expect_packet(rt: &impl Abort, found: Option<Vec<u8>>, text: &[u8]) {
    let packet = found.expect(rt, "a packet");
    expect_eq(rt, packet.as_slice(), text);
}

/// Ends the test unless both values are equal. A call is shorter to prove than an `assert_eq!`.
pub(crate) fn expect_eq<T: PartialEq + Debug + Drop>(rt: &impl Abort, found: T, expected: T) {
    assert_eq!(rt; found, expected);
}
