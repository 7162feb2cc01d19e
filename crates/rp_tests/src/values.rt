//! Values of small types, without an error to pass on: a test ends where a number is out of range.

use rp_base::{Action, Ballot, NodeId, Operation, Position, TaskId};
use std::process::Abort;

pub(crate) fn node(rt: &impl Abort, number: u8) -> NodeId {
    NodeId::new(number).expect(rt, "a node")
}

pub(crate) fn ballot(rt: &impl Abort, number: u64) -> Ballot {
    Ballot::new(number).expect(rt, "a ballot")
}

pub(crate) fn position(rt: &impl Abort, number: u16) -> Position {
    Position::new(number).expect(rt, "a position")
}

/// Task 1 calls procedure 1 of object 1, its first call.
pub(crate) fn call(arg: i64) -> Action {
    Action::Call {
        task: TaskId::first(),
        number: 1,
        object: 1,
        operation: Operation::Procedure(1),
        arg,
    }
}
