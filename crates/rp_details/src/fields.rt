//! The fields of a packet, in words.

ghost use Rattle.std.specs.Prelude.{Some};
ghost use Rattle.rp_details.specs.Fields.{action_words, asked_words, ballot_words, bound_words, call_words, fields_words, last_vote_words, operation_words, position_words, range_words};

use rp_base::{Action, Ballot, Operation, Position, PositionRange, TaskId, Vote};
use rp_codec::Body;
use rp_output::ReplyText;
use std::fmt;

/// An operation of an object: `procedure 1`.
#[derive(Clone, Copy)]
struct OperationWords {
    operation: Operation,
}

impl fmt::Display for OperationWords {
    ghost output = { λ l. Some (operation_words l.operation) };

    fn fmt<W: fmt::Write>(&self, f: &mut fmt::Formatter<W>) -> fmt::Result {
        match self.operation {
            Operation::Function(index) => write!(f, "function {index}"),
            Operation::Procedure(index) => write!(f, "procedure {index}"),
            Operation::Entry(index) => write!(f, "entry {index}"),
            Operation::SetTimer(index) => write!(f, "setting of timer {index}"),
            Operation::CancelTimer(index) => write!(f, "cancelling of timer {index}"),
        }
    }
}

/// What a call asks for: `procedure 1 of object 1, argument 5`.
#[derive(Clone, Copy)]
pub struct AskedWords {
    pub object: u8,
    pub operation: Operation,
    pub arg: i64,
}

impl fmt::Display for AskedWords {
    ghost output = { λ l. Some (asked_words l.object l.operation l.arg) };

    fn fmt<W: fmt::Write>(&self, f: &mut fmt::Formatter<W>) -> fmt::Result {
        let operation = OperationWords {
            operation: self.operation,
        };
        let object = self.object;
        let arg = self.arg;
        write!(f, "{operation} of object {object}, argument {arg}")
    }
}

/// A call of a task: `call 1 of task 1`.
#[derive(Clone, Copy)]
struct CallWords {
    task: TaskId,
    number: u32,
}

impl fmt::Display for CallWords {
    ghost output = { λ l. Some (call_words l.task l.number) };

    fn fmt<W: fmt::Write>(&self, f: &mut fmt::Formatter<W>) -> fmt::Result {
        let task = self.task.get();
        let number = self.number;
        write!(f, "call {number} of task {task}")
    }
}

/// An action: `call 1 of task 1: procedure 1 of object 1, argument 5`.
#[derive(Clone, Copy)]
pub struct ActionWords {
    pub action: Action,
}

impl fmt::Display for ActionWords {
    ghost output = { λ l. Some (action_words l.action) };

    fn fmt<W: fmt::Write>(&self, f: &mut fmt::Formatter<W>) -> fmt::Result {
        match self.action {
            Action::Noop => write!(f, "no action"),
            Action::Call {
                task,
                number,
                object,
                operation,
                arg,
            } => {
                let call = CallWords { task, number };
                let asked = AskedWords {
                    object,
                    operation,
                    arg,
                };
                write!(f, "{call}: {asked}")
            }
            Action::Interrupt { source, occurrence } => {
                write!(f, "interrupt {source}, occurrence {occurrence}")
            }
            Action::Tick { now } => write!(f, "tick {now}"),
        }
    }
}

/// The vote that a promise reports, if there is one.
#[derive(Clone, Copy)]
struct LastVoteWords {
    last: Option<Vote>,
}

impl fmt::Display for LastVoteWords {
    ghost output = { λ l. Some (last_vote_words l.last) };

    fn fmt<W: fmt::Write>(&self, f: &mut fmt::Formatter<W>) -> fmt::Result {
        let Some(vote) = self.last else {
            return write!(f, "no vote before");
        };
        let ballot = vote.ballot.get();
        let action = ActionWords {
            action: vote.action,
        };
        write!(f, "last vote in ballot {ballot}, for {action}")
    }
}

/// A position: `position 1`.
#[derive(Clone, Copy)]
struct PositionWords {
    position: Position,
}

impl fmt::Display for PositionWords {
    ghost output = { λ l. Some (position_words l.position) };

    fn fmt<W: fmt::Write>(&self, f: &mut fmt::Formatter<W>) -> fmt::Result {
        let position = self.position.get();
        write!(f, "position {position}")
    }
}

/// The bound of a node at a position, and its last vote there: `position 1: bound 9, no vote before`.
#[derive(Clone, Copy)]
pub struct BoundWords {
    pub position: Position,
    pub bound: u64,
    pub last: Option<Vote>,
}

impl fmt::Display for BoundWords {
    ghost output = { λ l. Some (bound_words l.position l.bound l.last) };

    fn fmt<W: fmt::Write>(&self, f: &mut fmt::Formatter<W>) -> fmt::Result {
        let position = PositionWords {
            position: self.position,
        };
        let bound = self.bound;
        let last = LastVoteWords { last: self.last };
        write!(f, "{position}: bound {bound}, {last}")
    }
}

/// A position and a ballot: `position 1, ballot 9`.
#[derive(Clone, Copy)]
struct BallotWords {
    position: Position,
    ballot: Ballot,
}

impl fmt::Display for BallotWords {
    ghost output = { λ l. Some (ballot_words l.position l.ballot) };

    fn fmt<W: fmt::Write>(&self, f: &mut fmt::Formatter<W>) -> fmt::Result {
        let position = PositionWords {
            position: self.position,
        };
        let ballot = self.ballot.get();
        write!(f, "{position}, ballot {ballot}")
    }
}

/// Positions that follow one another, and a ballot: `positions 1 to 4, ballot 9`.
#[derive(Clone, Copy)]
struct RangeWords {
    range: PositionRange,
    ballot: Ballot,
}

impl fmt::Display for RangeWords {
    ghost output = { λ l. Some (range_words l.range l.ballot) };

    fn fmt<W: fmt::Write>(&self, f: &mut fmt::Formatter<W>) -> fmt::Result {
        let first = self.range.first().get();
        let last = self.range.end() - 1;
        let ballot = self.ballot.get();
        write!(f, "positions {first} to {last}, ballot {ballot}")
    }
}

/// The fields of a packet.
#[derive(Clone, Copy)]
pub struct FieldsWords<'a> {
    pub body: &'a Body,
}

impl fmt::Display for FieldsWords<'_> {
    ghost output = { λ l. Some (fields_words l.body.now) };

    fn fmt<W: fmt::Write>(&self, f: &mut fmt::Formatter<W>) -> fmt::Result {
        match *self.body {
            Body::Call { action } => {
                let action = ActionWords { action };
                write!(f, "{action}")
            }
            Body::Prepare { position, ballot } => {
                let ballot = BallotWords { position, ballot };
                write!(f, "{ballot}")
            }
            Body::Promise {
                position,
                ballot,
                last,
            } => {
                let ballot = BallotWords { position, ballot };
                let last = LastVoteWords { last };
                write!(f, "{ballot}, {last}")
            }
            Body::Accept {
                position,
                ballot,
                action,
            }
            | Body::Accepted {
                position,
                ballot,
                action,
            } => {
                let ballot = BallotWords { position, ballot };
                let action = ActionWords { action };
                write!(f, "{ballot}, {action}")
            }
            Body::Decided { position, action } => {
                let position = PositionWords { position };
                let action = ActionWords { action };
                write!(f, "{position}, {action}")
            }
            Body::Ask { position }
            | Body::Report {
                first: position,
                ..
            } => {
                let position = PositionWords { position };
                write!(f, "{position}")
            }
            Body::Nack {
                position,
                ballot,
                bound,
            } => {
                let ballot = BallotWords { position, ballot };
                let bound = bound.get();
                write!(f, "{ballot}, bound {bound}")
            }
            Body::Reply { number, reply } => {
                let reply = ReplyText { reply };
                write!(f, "call {number}, {reply}")
            }
            Body::PrepareRange { range, ballot } | Body::PromiseRange { range, ballot, .. } => {
                let range = RangeWords { range, ballot };
                write!(f, "{range}")
            }
        }
    }
}
