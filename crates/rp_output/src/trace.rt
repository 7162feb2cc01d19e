//! The line of a trace for a packet. The caller ends it with a line feed.

ghost use Rattle.std.specs.Prelude.{◌≡◌, Some};
ghost use Rattle.rp_output.specs.Trace.{body_text_of, call_number, kind_name, trace_line_of};

use rp_base::{Action, Ballot, NodeId, Position, PositionRange};
use rp_codec::Body;
use std::fmt;

/// A node's number, a task's name, or the audit.
#[derive(Clone, Copy)]
pub enum PartyText<'a> {
    Node(NodeId),
    Task(&'a str),
    Audit,
}

impl fmt::Display for PartyText<'_> {
    ghost use Rattle.rp_output.specs.PartyText.{shown_party};

    ghost output = { λ p. Some (shown_party p) };

    fn fmt<W: fmt::Write>(&self, f: &mut fmt::Formatter<W>) -> fmt::Result {
        match *self {
            PartyText::Node(node) => {
                let node = node.get();
                write!(f, "{node}")
            }
            PartyText::Task(name) => write!(f, "{name}"),
            PartyText::Audit => write!(f, "audit"),
        }
    }
}

/// A position and a ballot: `1 9`.
#[derive(Clone, Copy)]
struct BallotText {
    position: Position,
    ballot: Ballot,
}

impl fmt::Display for BallotText {
    ghost use Rattle.rp_output.specs.Trace.{ballot_text_of};

    ghost output = { λ b. Some (ballot_text_of b.position b.ballot) };

    fn fmt<W: fmt::Write>(&self, f: &mut fmt::Formatter<W>) -> fmt::Result {
        let position = self.position.get();
        let ballot = self.ballot.get();
        write!(f, "{position} {ballot}")
    }
}

/// A range, as its first position and its count, and a ballot: `1 4 9`.
#[derive(Clone, Copy)]
struct RangeText {
    range: PositionRange,
    ballot: Ballot,
}

impl fmt::Display for RangeText {
    ghost use Rattle.rp_output.specs.Trace.{range_text_of};

    ghost output = { λ r. Some (range_text_of r.range r.ballot) };

    fn fmt<W: fmt::Write>(&self, f: &mut fmt::Formatter<W>) -> fmt::Result {
        let first = self.range.first().get();
        let count = self.range.count();
        let ballot = self.ballot.get();
        write!(f, "{first} {count} {ballot}")
    }
}

/// The kind of a packet, and what distinguishes it from others of its kind: `prepare 1 9`.
#[derive(Clone, Copy)]
pub struct BodyText<'a> {
    pub body: &'a Body,
}

impl fmt::Display for BodyText<'_> {
    ghost output = { λ l. Some (body_text_of l.body.now) };

    fn fmt<W: fmt::Write>(&self, f: &mut fmt::Formatter<W>) -> fmt::Result {
        let kind = kind_name(self.body);
        match *self.body {
            Body::Call { action } => {
                let number = call_number(action);
                write!(f, "{kind} {number}")
            }
            Body::Prepare { position, ballot }
            | Body::Promise {
                position,
                ballot,
                ..
            }
            | Body::Accept {
                position,
                ballot,
                ..
            }
            | Body::Accepted {
                position,
                ballot,
                ..
            }
            | Body::Nack {
                position,
                ballot,
                ..
            } => {
                let ballot = BallotText { position, ballot };
                write!(f, "{kind} {ballot}")
            }
            Body::Decided { position, .. } | Body::Ask { position } => {
                let position = position.get();
                write!(f, "{kind} {position}")
            }
            Body::PrepareRange { range, ballot } | Body::PromiseRange { range, ballot, .. } => {
                let range = RangeText { range, ballot };
                write!(f, "{kind} {range}")
            }
            Body::Reply { number, .. } => write!(f, "{kind} {number}"),
            Body::Report { first, .. } => {
                let first = first.get();
                write!(f, "{kind} {first}")
            }
        }
    }
}

/// The name of a packet's kind.
fn kind_name(body: &Body) -> &'static str
    ensures { result.now ≡ kind_name body.now }
{
    match body {
        Body::Call { .. } => "call",
        Body::Prepare { .. } => "prepare",
        Body::Promise { .. } => "promise",
        Body::Accept { .. } => "accept",
        Body::Accepted { .. } => "accepted",
        Body::Decided { .. } => "decided",
        Body::Ask { .. } => "ask",
        Body::Nack { .. } => "nack",
        Body::Reply { .. } => "reply",
        Body::Report { .. } => "report",
        Body::PrepareRange { .. } => "prepare_range",
        Body::PromiseRange { .. } => "promise_range",
    }
}

/// The number of the call, 0 for an action that is no call.
fn call_number(action: Action) -> u32
    ensures { result ≡ call_number action }
{
    match action {
        Action::Call { number, .. } => number,
        Action::Noop | Action::Interrupt { .. } | Action::Tick { .. } => 0,
    }
}

/// The line of the message of a number: `m2 1>3 prepare 1 9`.
#[derive(Clone, Copy)]
pub struct TraceLine<'a> {
    pub number: u64,
    pub from: PartyText<'a>,
    pub to: PartyText<'a>,
    pub body: BodyText<'a>,
}

impl fmt::Display for TraceLine<'_> {
    ghost use Rattle.rp_output.specs.PartyText.{shown_party};

    ghost output = { λ l. Some (trace_line_of l.number (shown_party l.from) (shown_party l.to)
        l.body.body.now) };

    fn fmt<W: fmt::Write>(&self, f: &mut fmt::Formatter<W>) -> fmt::Result {
        let number = self.number;
        let from = &self.from;
        let to = &self.to;
        let body = &self.body;
        write!(f, "m{number} {from}>{to} {body}")
    }
}
