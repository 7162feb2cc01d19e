//! The reply to a call.

use crate::number::TaskId;

/// The result of a call, or the exception that it raised.
#[derive(Clone, Copy, Debug, PartialEq, Eq, Hash)]
pub enum Reply {
    Value(i64),
    Truth(bool),
    ConstraintError,
    ProgramError,
    /// The task, object, operation or timing event is not declared.
    NoSuchOperation,
}

/// The reply to the `number`th call of a task.
#[derive(Clone, Copy, Debug, PartialEq, Eq, Hash)]
pub struct Answer {
    pub task: TaskId,
    pub number: u32,
    pub reply: Reply,
}
