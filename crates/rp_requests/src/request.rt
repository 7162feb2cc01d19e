//! A caller's request to a node, as bytes: one for the kind of request, and then its operands, with
//! numbers in big-endian order.

ghost use Rattle.std.specs.Prelude.{◌≡◌, ◌∷◌, [], Some, None, IfSome, IfNone, option_map};
ghost use Rattle.std.specs.Int.{w16, from_be_bytes};
ghost use Rattle.rp_base.specs.Number.{IsPosition};
ghost use Rattle.rp_requests.specs.Requests.{asked, asked_of, lead_asked, interrupt_asked, tick_asked, report_asked, range_asked, ask_asked, IsRightRequest, counted_asked, occurred_asked};

use rp_base::{MOST_SOURCES, NodeId, Position, PositionRange, TaskId};
use rp_replica::Input;

/// A caller's request to a node.
#[derive(Clone, Copy)]
pub(crate) enum Request<'a> {
    /// A step.
    Step(Input<'a>),
    /// How many actions the node has applied.
    Applied,
    /// Lines that show the state of the node's objects.
    Image,
    /// How many positions of the log are left.
    Left,
    /// How many pending items are free.
    Pending,
    /// The number of a task's last call that counted.
    Counted(TaskId),
    /// The last occurrence of a source, 1 to 8, that counted.
    Occurred(u8),
    /// The answer of the last step that was made.
    LastAnswer,
}

/// The request that the bytes are, or `None`.
#[tactic(auto, unfolding(crate::specs::Requests::asked_of, crate::specs::Requests::asked_of_kind))]
pub(crate) fn request_of(bytes: &[u8]) -> Option<Request<'_>>
    ensures asked { option_map asked result ≡ asked_of bytes.now }
    ensures right { IfSome result IsRightRequest }
{
    let (kind, operands) = bytes.split_first()?;
    match *kind {
        1 => Some(Request::Step(Input::Receive(operands))),
        2 => lead_of(operands),
        3 => interrupt_of(operands),
        4 => tick_of(operands),
        5 => report_of(operands),
        6 => range_of(operands),
        7 => ask_of(operands),
        16 if operands.is_empty() => Some(Request::Applied),
        17 if operands.is_empty() => Some(Request::Image),
        18 if operands.is_empty() => Some(Request::LastAnswer),
        19 if operands.is_empty() => Some(Request::Left),
        20 if operands.is_empty() => Some(Request::Pending),
        21 => last_counted_of(operands),
        22 => last_occurred_of(operands),
        _ => None,
    }
}

/// The command to lead, at a position of two bytes or at the lowest free one.
fn lead_of(operands: &[u8]) -> Option<Request<'static>>
    ensures asked { option_map asked result ≡ lead_asked operands.now }
    ensures right { IfSome result IsRightRequest }
{
    match operands {
        [] => Some(Request::Step(Input::Lead(None))),
        [high, low] => {
            let position = position_of(*high, *low)?;
            Some(Request::Step(Input::Lead(Some(position))))
        }
        _ => None,
    }
}

/// An interrupt: its source, 1 to 8, and the number of its occurrence, from 1, in four bytes.
fn interrupt_of(operands: &[u8]) -> Option<Request<'static>>
    ensures asked { option_map asked result ≡ interrupt_asked operands.now }
    ensures right { IfSome result IsRightRequest }
{
    let [source, a, b, c, d] = operands else {
        return None;
    };
    let occurrence = u32::from_be_bytes([*a, *b, *c, *d]);
    if *source < 1 || *source > MOST_SOURCES || occurrence < 1 {
        return None;
    }
    Some(Request::Step(Input::Interrupt {
        source: *source,
        occurrence,
    }))
}

/// A tick: the clock, in four bytes.
fn tick_of(operands: &[u8]) -> Option<Request<'static>>
    ensures asked { option_map asked result ≡ tick_asked operands.now }
    ensures right { IfSome result IsRightRequest }
{
    let [a, b, c, d] = operands else {
        return None;
    };
    let now = u32::from_be_bytes([*a, *b, *c, *d]);
    Some(Request::Step(Input::Tick { now }))
}

/// The request for a report: its first position, in two bytes.
fn report_of(operands: &[u8]) -> Option<Request<'static>>
    ensures asked { option_map asked result ≡ report_asked operands.now }
    ensures right { IfSome result IsRightRequest }
{
    let [high, low] = operands else {
        return None;
    };
    let first = position_of(*high, *low)?;
    Some(Request::Step(Input::Report(first)))
}

/// The command to lead in a range: its first position, in two bytes, and its count, in one byte.
fn range_of(operands: &[u8]) -> Option<Request<'static>>
    ensures asked { option_map asked result ≡ range_asked operands.now }
    ensures right { IfSome result IsRightRequest }
{
    let [high, low, count] = operands else {
        return None;
    };
    let first = position_of(*high, *low)?;
    match PositionRange::new(first, *count) {
        Ok(range) => Some(Request::Step(Input::LeadRange(range))),
        Err(_) => None,
    }
}

/// The command to ask a node for what is missing: the node, in one byte.
fn ask_of(operands: &[u8]) -> Option<Request<'static>>
    ensures asked { option_map asked result ≡ ask_asked operands.now }
    ensures right { IfSome result IsRightRequest }
{
    let [node] = operands else {
        return None;
    };
    let node = NodeId::new(*node)?;
    Some(Request::Step(Input::Ask(node)))
}

/// The question for a task's last call that counted: the task, 1 to 8, in one byte.
fn last_counted_of(operands: &[u8]) -> Option<Request<'static>>
    ensures asked { option_map asked result ≡ counted_asked operands.now }
    ensures right { IfSome result IsRightRequest }
{
    let [task] = operands else {
        return None;
    };
    let task = TaskId::new(*task)?;
    Some(Request::Counted(task))
}

/// The question for the last occurrence that counted: the source, 1 to 8, in one byte.
fn last_occurred_of(operands: &[u8]) -> Option<Request<'static>>
    ensures asked { option_map asked result ≡ occurred_asked operands.now }
    ensures right { IfSome result IsRightRequest }
{
    let [source] = operands else {
        return None;
    };
    if *source < 1 || *source > MOST_SOURCES {
        return None;
    }
    Some(Request::Occurred(*source))
}

/// The position in these two bytes.
fn position_of(high: u8, low: u8) -> Option<Position>
    ensures some { IfSome result (λ position. position ≡ from_be_bytes w16 (high ∷ low ∷ [])) }
    ensures right { IfSome result IsPosition }
    ensures none { IfNone result (¬ IsPosition (from_be_bytes w16 (high ∷ low ∷ []))) }
{
    Position::new(u16::from_be_bytes([high, low]))
}
