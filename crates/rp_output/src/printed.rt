//! The lines that a run prints. The caller ends each with a line feed.

ghost use Rattle.std.specs.Prelude.{Some};
ghost use Rattle.rp_output.specs.Printed.{reply_text_of, reply_line_of, refused_line_of, node_state_of, node_line_of, limit_line_of, agreed_line};

use rp_base::{Fault, NodeId, Reply};
use std::fmt;

/// The words for a reply, as `value 5`.
#[derive(Clone, Copy)]
pub struct ReplyText {
    pub reply: Reply,
}

impl fmt::Display for ReplyText {
    ghost output = { λ l. Some (reply_text_of l.reply) };

    fn fmt<W: fmt::Write>(&self, f: &mut fmt::Formatter<W>) -> fmt::Result {
        match self.reply {
            Reply::Value(value) => write!(f, "value {value}"),
            Reply::Truth(true) => write!(f, "truth true"),
            Reply::Truth(false) => write!(f, "truth false"),
            Reply::ConstraintError => write!(f, "Constraint_Error"),
            Reply::ProgramError => write!(f, "Program_Error"),
            Reply::NoSuchOperation => write!(f, "No_Such_Operation"),
        }
    }
}

/// A task takes the reply to one of its calls: `reply a 1 value 5`.
#[derive(Clone, Copy)]
pub struct ReplyLine<'a> {
    pub task: &'a str,
    pub number: u32,
    pub reply: Reply,
}

impl fmt::Display for ReplyLine<'_> {
    ghost output = { λ l. Some (reply_line_of l.task.now l.number l.reply) };

    fn fmt<W: fmt::Write>(&self, f: &mut fmt::Formatter<W>) -> fmt::Result {
        let task = self.task;
        let number = self.number;
        let text = ReplyText { reply: self.reply };
        write!(f, "reply {task} {number} {text}")
    }
}

/// A step of the script was refused: `line 11: refused 7 LogFull`.
#[derive(Clone, Copy)]
pub struct RefusedLine {
    pub line: u32,
    pub fault: Fault,
}

impl fmt::Display for RefusedLine {
    ghost output = { λ l. Some (refused_line_of l.line l.fault) };

    fn fmt<W: fmt::Write>(&self, f: &mut fmt::Formatter<W>) -> fmt::Result {
        let line = self.line;
        let code = self.fault.code();
        let name = self.fault.name();
        write!(f, "line {line}: refused {code} {name}")
    }
}

/// The state of a node, or what changed in it.
#[derive(Clone, Copy)]
pub enum NodeState {
    /// It was stopped and runs again: `open records 3 cut 5`. It found n records, and truncated the
    /// bytes after them.
    Opened { records: u64, bytes: u64 },
    /// It is to start again, and is running already: `already running`.
    Running,
    /// It has no place for one more pending item: `pending full`.
    Full,
    /// It has applied n actions: `applied 1`.
    Applied(u32),
    /// It is stopped: `stopped`.
    Stopped,
}

impl fmt::Display for NodeState {
    ghost output = { λ s. Some (node_state_of s) };

    fn fmt<W: fmt::Write>(&self, f: &mut fmt::Formatter<W>) -> fmt::Result {
        match *self {
            NodeState::Opened { records, bytes } => write!(f, "open records {records} cut {bytes}"),
            NodeState::Running => write!(f, "already running"),
            NodeState::Full => write!(f, "pending full"),
            NodeState::Applied(applied) => write!(f, "applied {applied}"),
            NodeState::Stopped => write!(f, "stopped"),
        }
    }
}

/// The line of a node: `node 2 stopped`.
#[derive(Clone, Copy)]
pub struct NodeLine {
    pub node: NodeId,
    pub state: NodeState,
}

impl fmt::Display for NodeLine {
    ghost output = { λ l. Some (node_line_of l.node l.state) };

    fn fmt<W: fmt::Write>(&self, f: &mut fmt::Formatter<W>) -> fmt::Result {
        let node = self.node.get();
        let state = &self.state;
        write!(f, "node {node} {state}")
    }
}

/// `drain` delivered as many messages as it may, and more are left: `line 8: drain limit`.
#[derive(Clone, Copy)]
pub struct DrainLimitLine {
    pub line: u32,
}

impl fmt::Display for DrainLimitLine {
    ghost output = { λ l. Some (limit_line_of l.line) };

    fn fmt<W: fmt::Write>(&self, f: &mut fmt::Formatter<W>) -> fmt::Result {
        let line = self.line;
        write!(f, "line {line}: drain limit")
    }
}

/// What each node has applied is a prefix of one order: `logs agree`.
#[derive(Clone, Copy)]
pub struct AgreedLine;

impl fmt::Display for AgreedLine {
    ghost output = { λ l. Some agreed_line };

    fn fmt<W: fmt::Write>(&self, f: &mut fmt::Formatter<W>) -> fmt::Result {
        write!(f, "logs agree")
    }
}
