//! What can happen in a world.

ghost use Rattle.std.specs.Prelude.{◌<◌, ◌^◌, FitsSigned};
ghost use Rattle.std.specs.Int.{w64};
ghost use Rattle.rp_model.specs.Events.{IsOperation, IsRightStep, IsRightEvent, step_of, event_of};

use crate::interrupt::Interrupt;
use rp_base::{NodeId, Operation, Position, TaskId};

/// One step of a node, or the delivery of a message to a task.
#[derive(Clone, Copy)]
pub enum Step {
    /// A message that was sent, by its number from 1, is delivered to its receiver, a node or a
    /// task. A message may be delivered any number of times, or never.
    Deliver(u64),
    /// The node leads at a position, or at the least one that is free.
    Lead {
        node: NodeId,
        position: Option<Position>,
    },
    /// The node leads at this many positions from the first on: 1 to 64, the last at most 65,535.
    LeadRange {
        node: NodeId,
        first: Position,
        count: u8,
    },
    /// The node notes an interrupt of a source, to be proposed.
    Interrupt {
        node: NodeId,
        interrupt: Interrupt,
    },
    /// The node notes a tick, to be proposed.
    Tick {
        node: NodeId,
        now: u32,
    },
    /// The node reports to the audit what it has applied, from a position on.
    Report {
        node: NodeId,
        first: Position,
    },
    /// The node asks another one for each position of its window that it has not learned: of the
    /// 64 from its first unlearned one on, as far as the log goes.
    Ask {
        node: NodeId,
        to: NodeId,
    },
}

/// One step of one actor, or a stop or a restart of a node.
#[derive(Clone, Copy)]
pub enum Event {
    /// A task makes its next call, and asks a node.
    Submit {
        task: TaskId,
        node: NodeId,
        object: u8,
        operation: Operation,
        arg: i64,
    },
    /// A task asks a node once more for the call that it waits for.
    Again {
        task: TaskId,
        node: NodeId,
    },
    /// A node makes a step, or a message is delivered to a task.
    Node(Step),
    /// A node stops within a step: n bytes of the step's record are kept, or all if there are no
    /// more, and nothing is sent.
    Cut {
        step: Step,
        kept: u64,
    },
    /// A node stops.
    Stop(NodeId),
    /// A node starts again, by what it wrote.
    Restart(NodeId),
}

impl Event {
    /// The numbers of an event are within the ranges of their types. It does nothing: what it
    /// promises is for contracts.
    pub fn keeps_ranges(&self)
        // claim: The numbers of an event are within the ranges of their types
        ensures { IsRightEvent (event_of self.now) }
    {
        match *self {
            Event::Submit {
                task,
                node,
                object,
                operation,
                arg,
            } => {
                let _ = (task.get(), node.get(), operation_index(operation));
                call_keeps_ranges(object, arg);
            }
            Event::Again { task, node } => {
                let _ = (task.get(), node.get());
            }
            Event::Node(step) => step.keeps_ranges(),
            Event::Cut { step, kept } => {
                let _ = kept;
                step.keeps_ranges();
            }
            Event::Stop(node) | Event::Restart(node) => {
                let _ = node.get();
            }
        }
    }
}

impl Step {
    /// The same of a step.
    fn keeps_ranges(self)
        ensures { IsRightStep (step_of self) }
    {
        match self {
            Step::Deliver(_) => {}
            Step::Lead { node, position } => {
                let _ = (node.get(), position.map(Position::get));
            }
            Step::LeadRange { node, first, count } => {
                let _ = (node.get(), first.get());
                count_keeps_range(count);
            }
            Step::Interrupt { node, interrupt } => {
                let _ = (node.get(), interrupt.source, interrupt.occurrence);
            }
            Step::Tick { node, now } => {
                let _ = (node.get(), now);
            }
            Step::Report { node, first } => {
                let _ = (node.get(), first.get());
            }
            Step::Ask { node, to } => {
                let _ = (node.get(), to.get());
            }
        }
    }
}

/// The index of an operation, which is within its range.
fn operation_index(operation: Operation) -> u8
    ensures { IsOperation operation }
{
    match operation {
        Operation::Function(index) => index,
        Operation::Procedure(index) => index,
        Operation::Entry(index) => index,
        Operation::SetTimer(index) => index,
        Operation::CancelTimer(index) => index,
    }
}

/// An object and an argument are within their ranges.
fn call_keeps_ranges(object: u8, arg: i64)
    ensures object { object < 2 ^ 8 }
    ensures arg { FitsSigned w64 arg }
{}

/// A count is within its range.
fn count_keeps_range(count: u8)
    ensures { count < 2 ^ 8 }
{}
