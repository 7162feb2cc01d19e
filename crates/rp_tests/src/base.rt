use crate::compare::{expect_at, expect_eq};
use crate::values::{ballot, node};
use rp_base::*;
use std::process::Abort;

/// The next ballot of a node above this number has this number.
fn expect_next(rt: &impl Abort, number: u8, above: u64, next: u64) {
    let found = Ballot::next_for(node(rt, number), Ballot::new(above));
    expect_at(rt, &(number, above), found, Ok(ballot(rt, next)));
}

#[test]
fn the_next_ballot_is_the_least_above(rt: HostRuntime) {
    for (number, above, next) in [
        (2, 0, 10),
        (2, 9, 10),
        (1, 9, 17),
        (2, 10, 18),
        (1, 10, 17),
        (7, 15, 23),
    ] {
        expect_next(&rt, number, above, next);
    }
    let last = Some(ballot(&rt, 34_359_738_367));
    let none = Ballot::next_for(node(&rt, 1), last);
    expect_eq(&rt, none, Err(Fault::BallotsSpent));
}

#[test]
fn the_greatest_ballot_is_the_last_one(rt: HostRuntime) {
    expect_eq(&rt, Ballot::of(1, node(&rt, 1)).get(), 9);
    let last = ballot(&rt, 34_359_738_367);
    let parts = (u64::from(last.round()), u64::from(last.owner().get()));
    expect_eq(&rt, parts, (4_294_967_295, 7));
    for number in [0, 8, 16, 34_359_738_368, 34_359_738_369] {
        expect_eq(&rt, Ballot::new(number).is_none(), true);
    }
}

#[test]
fn a_majority_is_more_than_half(rt: HostRuntime) {
    for (nodes, most) in [(3, 2), (4, 3), (5, 3), (6, 4), (7, 4)] {
        expect_eq(&rt, majority(nodes), most);
    }
}

#[test]
fn numbers_are_refused_outside_their_ranges(rt: HostRuntime) {
    for (number, node, task) in [
        (0, false, false),
        (1, true, true),
        (7, true, true),
        (8, false, true),
        (9, false, false),
    ] {
        let found = (NodeId::new(number).is_some(), TaskId::new(number).is_some());
        expect_at(&rt, &number, found, (node, task));
    }
    expect_eq(&rt, Position::new(0).is_none(), true);
    expect_eq(&rt, Position::new(1) == Some(Position::first()), true);
}

#[test]
fn sizes_are_refused_outside_their_ranges(rt: HostRuntime) {
    let sizes = [
        (2, 1, false),
        (3, 1, true),
        (7, 65535, true),
        (8, 1, false),
        (3, 0, false),
    ];
    for (nodes, max_positions, right) in sizes {
        let config = Config {
            nodes,
            max_positions,
        };
        expect_at(&rt, &(nodes, max_positions), config.is_right(), right);
    }
}

#[test]
fn an_action_is_right_within_its_ranges(rt: HostRuntime) {
    let task = TaskId::first();
    let cases = [
        (1, 1, Operation::Procedure(8), true),
        (0, 1, Operation::Procedure(8), false),
        (1, 9, Operation::Procedure(8), false),
        (1, 1, Operation::Procedure(9), false),
        (1, 1, Operation::Entry(4), true),
        (1, 1, Operation::Entry(5), false),
    ];
    for (number, object, operation, right) in cases {
        let call = Action::Call {
            task,
            number,
            object,
            operation,
            arg: 0,
        };
        expect_eq(&rt, call.is_right(), right);
    }
    let interrupt = Action::Interrupt {
        source: 9,
        occurrence: 1,
    };
    expect_eq(&rt, interrupt.is_right(), false);
    expect_eq(&rt, Action::Tick { now: 0 }.is_right(), true);
    expect_eq(&rt, Action::Noop.is_right(), true);
}
