use crate::world::{Delivery, Left, Run, call, expect_tally, lead, node};
use Delivery::{Above, InRounds, Lost};
use rp_base::Position;
use rp_model::{Event, Step};
use std::process::Abort;

/// All messages are delivered in order.
const ALL: Delivery = Above(0);

/// Some of the texts of these messages, by their numbers.
static TEXTS: [(u64, &[u8]); 6] = [
    (2, b"\x02\x02\x01\x01\x00\x01\0\0\0\0\0\0\0\x09"),
    (6, b"\x02\x03\x02\x01\x00\x01\0\0\0\0\0\0\0\x09\x00"),
    (
        9,
        b"\x02\x04\x01\x02\x00\x01\0\0\0\0\0\0\0\x09\x01\x01\0\0\0\x01\x01\x02\x01\0\0\0\0\0\0\0\x05",
    ),
    (
        12,
        b"\x02\x05\x02\x01\x00\x01\0\0\0\0\0\0\0\x09\x01\x01\0\0\0\x01\x01\x02\x01\0\0\0\0\0\0\0\x05",
    ),
    (
        14,
        b"\x02\x06\x01\x02\x00\x01\x01\x01\0\0\0\x01\x01\x02\x01\0\0\0\0\0\0\0\x05",
    ),
    (16, b"\x02\x09\x01\x11\0\0\0\x01\x01\0\0\0\0\0\0\0\x05"),
];

#[test]
fn each_message_has_its_text(rt: HostRuntime) {
    let events = [(call(&rt, 1, 1, 5), ALL), (lead(&rt, 1), ALL)];
    let left = Left {
        messages: 16,
        stored: [72, 62, 62],
        applied: 1,
        image: b"tally o1=5\n",
        texts: &TEXTS,
    };
    let run = Run {
        max_positions: 1,
        events: &events,
        left,
    };
    expect_tally(&rt, rt.alloc(), &run);
}

/// Node 2 reports from a position on.
fn report(rt: &impl Abort, first: u16) -> Event {
    Event::Node(Step::Report {
        node: node(rt, 2),
        first: Position::new(first).expect(rt, "a position"),
    })
}

/// The reports of the actions from position 1 on, and from position 2 on.
static REPORTS: [(u64, &[u8]); 2] = [
    (
        23,
        b"\x02\x0a\x02\x20\0\x01\0\x01\x01\x01\x01\0\0\0\x01\x01\x02\x01\0\0\0\0\0\0\0\x05",
    ),
    (24, b"\x02\x0a\x02\x20\0\x02\0\x01\0"),
];

#[test]
fn packets_delivered_three_times_from_the_last_down_change_no_reply(rt: HostRuntime) {
    let events = [
        (call(&rt, 1, 1, 5), InRounds),
        (lead(&rt, 1), InRounds),
        (report(&rt, 1), Lost),
        (report(&rt, 2), Lost),
    ];
    let left = Left {
        messages: 24,
        stored: [72, 62, 62],
        applied: 1,
        image: b"tally o1=5\n",
        texts: &REPORTS,
    };
    let run = Run {
        max_positions: 1,
        events: &events,
        left,
    };
    expect_tally(&rt, rt.alloc(), &run);
}

/// A node is to lead at this many positions, from position 1.
fn range(rt: &impl Abort, leader: u8, count: u8) -> Event {
    Event::Node(Step::LeadRange {
        node: node(rt, leader),
        first: Position::first(),
        count,
    })
}

/// No text is looked at.
static NONE: [(u64, &[u8]); 0] = [];

/// The state after two calls, of 5 and 2.
fn left_by_two(messages: u64, stored: [u64; 3]) -> Left {
    Left {
        messages,
        stored,
        applied: 2,
        image: b"tally o1=7\n",
        texts: &NONE,
    }
}

#[test]
fn a_range_is_asked_for_once_for_two_calls(rt: HostRuntime) {
    let events = [
        (range(&rt, 1, 4), ALL),
        (call(&rt, 1, 1, 5), ALL),
        (lead(&rt, 1), ALL),
        (call(&rt, 2, 1, 2), ALL),
        (lead(&rt, 1), ALL),
    ];
    let run = Run {
        max_positions: 1000,
        events: &events,
        left: left_by_two(26, [123, 113, 113]),
    };
    expect_tally(&rt, rt.alloc(), &run);
}

fn deliver(number: u64) -> Event {
    Event::Node(Step::Deliver(number))
}

#[test]
fn a_range_hears_of_a_vote_in_a_lower_ballot(rt: HostRuntime) {
    // Only node 3 votes in ballot 9. Message 12, to node 1, is lost.
    let events = [
        (call(&rt, 1, 1, 5), Lost),
        (call(&rt, 2, 2, 2), Lost),
        (deliver(1), Lost),
        (deliver(2), Lost),
        (lead(&rt, 1), Lost),
        (deliver(3), Lost),
        (deliver(4), Lost),
        (deliver(6), Lost),
        (deliver(7), Lost),
        (deliver(10), Lost),
        (range(&rt, 2, 2), Above(12)),
        (lead(&rt, 2), ALL),
        (lead(&rt, 2), ALL),
    ];
    let run = Run {
        max_positions: 1000,
        events: &events,
        left: left_by_two(34, [122, 135, 142]),
    };
    expect_tally(&rt, rt.alloc(), &run);
}

#[test]
fn a_node_that_was_stopped_asks_for_two_decisions(rt: HostRuntime) {
    let asks = Event::Node(Step::Ask {
        node: node(&rt, 3),
        to: node(&rt, 1),
    });
    // Node 3 sends 64 questions, and gets two answers.
    let events = [
        (Event::Stop(node(&rt, 3)), ALL),
        (call(&rt, 1, 1, 5), ALL),
        (lead(&rt, 1), ALL),
        (call(&rt, 2, 1, 2), ALL),
        (lead(&rt, 1), ALL),
        (Event::Restart(node(&rt, 3)), ALL),
        (asks, ALL),
    ];
    let run = Run {
        max_positions: 1000,
        events: &events,
        left: left_by_two(94, [144, 124, 42]),
    };
    expect_tally(&rt, rt.alloc(), &run);
}
