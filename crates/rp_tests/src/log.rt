use crate::compare::{expect_at, expect_eq};
use crate::values::position;
use rp_base::{Action, Position};
use rp_log::*;
use std::alloc::Global;
use std::process::Abort;

/// An action of its own for each position.
fn action_of(number: u16) -> Action {
    Action::Tick {
        now: u32::from(number),
    }
}

/// Makes room for an action at a position, and learns it.
fn learns(rt: &impl Abort, log: &mut Log, position: Position, action: &Action) {
    log.reserve(position).expect(rt, "memory for a position");
    log.learn(position, action);
}

/// The log that learns at these positions, in this order, and then Noop at each, which changes
/// nothing. It has room at position 4 too.
fn log_of(rt: &impl Abort, alloc: Global, numbers: &[u16]) -> Log {
    let mut log = Log::new(alloc);
    for number in numbers {
        learns(rt, &mut log, position(rt, *number), &action_of(*number));
    }
    for number in numbers {
        learns(rt, &mut log, position(rt, *number), &Action::Noop);
    }
    let room = log.reserve(position(rt, 4));
    room.expect(rt, "memory for a position");
    log
}

/// Takes the action that is ready, if one is.
fn taken(log: &mut Log) -> Option<Action> {
    let action = *log.ready()?;
    log.take();
    Some(action)
}

/// This many actions, those of the first positions in their order, are ready and are taken.
fn expect_taken(rt: &impl Abort, log: &mut Log, count: u16) {
    for number in 1..=count {
        let held = log.get(position(rt, number));
        expect_eq(rt, held, Some(action_of(number)));
        expect_eq(rt, taken(log), Some(action_of(number)));
    }
    expect_eq(rt, taken(log), None);
    expect_eq(rt, log.get(position(rt, 4)), None);
}

/// How many actions are taken, the first unlearned position, and the highest learned one.
type Ends = (u16, u32, Option<u16>);

fn ends_of(log: &Log) -> Ends {
    let top = match log.top() {
        Some(top) => Some(top.get()),
        None => None,
    };
    (log.applied() as u16, log.next_unlearned(), top)
}

/// A log that learns at these positions lets its actions be taken up to these ends.
fn expect_log(rt: &impl Abort, alloc: Global, numbers: &[u16], ends: Ends) {
    let mut log = log_of(rt, alloc, numbers);
    expect_taken(rt, &mut log, ends.0);
    let found = ends_of(&log);
    drop(log);
    expect_at(rt, &numbers, found, ends);
}

/// Logs by the positions at which they learn.
static LOGS: [(&[u16], Ends); 7] = [
    (&[], (0, 1, None)),
    (&[1], (1, 2, Some(1))),
    (&[2], (0, 1, Some(2))),
    (&[1, 3], (1, 2, Some(3))),
    (&[3, 1, 2], (3, 4, Some(3))),
    (&[5, 2, 1], (2, 3, Some(5))),
    (&[65535], (0, 1, Some(65535))),
];

#[test]
fn what_is_learned_first_in_any_order_is_taken_in_order(rt: HostRuntime) {
    for (numbers, ends) in &LOGS {
        expect_log(&rt, rt.alloc(), numbers, *ends);
    }
    taken_as_recorded();
}

/// Learns Noop at each position, and then takes what was learned, in order.
fn fills(rt: &impl Abort, log: &mut Log) {
    for number in 1..=u16::MAX {
        learns(rt, log, position(rt, number), &Action::Noop);
    }
    for _ in 1..=u16::MAX {
        expect_eq(rt, taken(log), Some(Action::Noop));
    }
    expect_eq(rt, taken(log), None);
}

#[test]
fn a_full_log_has_no_next_position(rt: HostRuntime) {
    let mut log = Log::new(rt.alloc());
    fills(&rt, &mut log);
    let ends = ends_of(&log);
    drop(log);
    expect_eq(&rt, ends, (65_535, 65_536, Some(65_535)));
}
