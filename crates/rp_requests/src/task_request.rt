//! A caller's request to a task, as bytes: one for the kind of request, and then its operands, with
//! numbers in big-endian order.

ghost use Rattle.std.specs.Prelude.{◌≡◌, ◌≤◌, IfSome, option_map};
ghost use Rattle.rp_base.specs.Action.{IsIndex, IsRightOperation};
ghost use Rattle.rp_requests.specs.TaskRequests.{task_asked, task_asked_of, arg_at, call_asked, again_asked, operation_numbered, IsRightTaskRequest};

use rp_base::{MOST_OBJECTS, NodeId, Operation};

/// A caller's request to a task.
#[derive(Drop)]
pub(crate) enum TaskRequest<'a> {
    /// The packet of its next call, through a node.
    Call {
        node: NodeId,
        object: u8,
        operation: Operation,
        arg: i64,
    },
    /// The packet of the outstanding call once more, through a node.
    Again(NodeId),
    /// The reply in a packet.
    Receive(&'a [u8]),
}

/// The request that the bytes are, or `None`.
#[tactic(auto, unfolding(crate::specs::TaskRequests::task_asked_of, crate::specs::TaskRequests::task_asked_by))]
pub(crate) fn task_request_of(bytes: &[u8]) -> Option<TaskRequest<'_>>
    ensures asked { option_map task_asked result ≡ task_asked_of bytes.now }
    ensures right { IfSome result IsRightTaskRequest }
{
    let (kind, operands) = bytes.split_first()?;
    match *kind {
        1 => call_of(operands),
        2 => again_of(operands),
        3 => Some(TaskRequest::Receive(operands)),
        _ => None,
    }
}

/// The outstanding call once more, through a node.
fn again_of(operands: &[u8]) -> Option<TaskRequest<'static>>
    ensures asked { option_map task_asked result ≡ again_asked operands.now }
    ensures right { IfSome result IsRightTaskRequest }
{
    let [node] = operands else {
        return None;
    };
    let node = NodeId::new(*node)?;
    Some(TaskRequest::Again(node))
}

/// A call: the node, the object, the kind of operation, its index, and the argument of eight bytes.
fn call_of(operands: &[u8]) -> Option<TaskRequest<'static>>
    ensures asked { option_map task_asked result ≡ call_asked operands.now }
    ensures right { IfSome result IsRightTaskRequest }
{
    let [node, object, kind, index, arg @ ..] = operands else {
        return None;
    };
    let node = NodeId::new(*node)?;
    let operation = operation_of(*kind, *index)?;
    let arg = arg_of(arg)?;
    if *object < 1 || *object > MOST_OBJECTS || !operation.is_right() {
        return None;
    }
    Some(TaskRequest::Call {
        node,
        object: *object,
        operation,
        arg,
    })
}

/// An argument: eight bytes.
fn arg_of(bytes: &[u8]) -> Option<i64>
    ensures { result ≡ arg_at bytes.now }
{
    let bytes = bytes.as_array::<8>()?;
    Some(i64::from_be_bytes(*bytes))
}

/// The operation of this kind and index.
fn operation_of(kind: u8, index: u8) -> Option<Operation>
    ensures { result ≡ operation_numbered kind index }
{
    match kind {
        1 => Some(Operation::Function(index)),
        2 => Some(Operation::Procedure(index)),
        3 => Some(Operation::Entry(index)),
        4 => Some(Operation::SetTimer(index)),
        5 => Some(Operation::CancelTimer(index)),
        _ => None,
    }
}
