//! What the log holds: calls, interrupts and ticks.

ghost use Rattle.std.specs.Prelude.{◌≡◌, ◌↔◌, IsTrue};
ghost use Rattle.rp_base.specs.Action.{IsRight, IsRightOperation, is_right_operation, is_right as right};

use crate::number::{MOST_TASKS, TaskId};

/// The most operations of a kind that an object has, entries aside.
pub const MOST_OPERATIONS: u8 = 8;

/// The most entries that an object has.
pub const MOST_ENTRIES: u8 = 4;

/// The most objects that a program has.
pub const MOST_OBJECTS: u8 = 8;

/// The most sources of interrupts.
pub const MOST_SOURCES: u8 = 8;

/// Which operation of an object is called, by its index from 1 in declared order. A `SetTimer`'s
/// argument is the time, and its reply is `Value(0)`.
#[derive(Clone, Copy, Debug, PartialEq, Eq, Hash)]
pub enum Operation {
    Function(u8),
    Procedure(u8),
    Entry(u8),
    SetTimer(u8),
    CancelTimer(u8),
}

impl Operation {
    /// Whether the index is within its range: 1 to 8, for an entry 1 to 4.
    pub fn is_right(self) -> bool
        ensures right { IsTrue result ↔ IsRightOperation self }
        ensures value { result ≡ is_right_operation self }
    {
        match self {
            Operation::Entry(index) => matches!(index, 1..=MOST_ENTRIES),
            Operation::Function(index)
            | Operation::Procedure(index)
            | Operation::SetTimer(index)
            | Operation::CancelTimer(index) => matches!(index, 1..=MOST_OPERATIONS),
        }
    }
}

/// One action of the log. A call is the `number`th of its task, and an interrupt the
/// `occurrence`th of its source.
#[derive(Clone, Copy, Debug, PartialEq, Eq, Hash)]
pub enum Action {
    /// Nothing, for a position that has to be filled.
    Noop,
    /// A task's call of an object's operation.
    Call {
        task: TaskId,
        number: u32,
        object: u8,
        operation: Operation,
        arg: i64,
    },
    /// An interrupt, whose handler is a procedure.
    Interrupt {
        source: u8,
        occurrence: u32,
    },
    /// The clock is at least `now`.
    Tick {
        now: u32,
    },
}

impl Action {
    /// Whether each number is within its range: call numbers and occurrences from 1, objects and
    /// sources 1 to 8, the operation's index as `Operation::is_right` says.
    pub fn is_right(self) -> bool
        // claim: An action is right exactly if each of its numbers is in its range
        ensures right { IsTrue result ↔ IsRight self }
        ensures value { result ≡ right self }
    {
        match self {
            Action::Noop => true,
            Action::Call {
                task,
                number,
                object,
                operation,
                arg: _,
            } => {
                matches!(task.get(), 1..=MOST_TASKS)
                    && number >= 1
                    && matches!(object, 1..=MOST_OBJECTS)
                    && operation.is_right()
            }
            Action::Interrupt { source, occurrence } => {
                matches!(source, 1..=MOST_SOURCES) && occurrence >= 1
            }
            Action::Tick { now: _ } => true,
        }
    }
}
