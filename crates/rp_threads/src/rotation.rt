//! Whose box a loop empties in a turn, and whether a node is to lead in it.

ghost use Rattle.std.specs.Prelude.{◌≡◌, ◌+◌, ◌%◌, ◌≤◌};
ghost use Rattle.rp_threads.specs.Loops.{sender_at, node_at, is_to_lead};

use rp_base::{MOST_TASKS, NodeId, TaskId};
use rp_codec::Party;

/// Whose box a node empties in a turn: the boxes of all nodes in order, then that of one task, with
/// the tasks in rotation.
pub(crate) fn sender(nodes: u8, turn: u64) -> Party
    requires { nodes ≤ 7 }
    ensures { result ≡ sender_at nodes turn }
{
    let round = u64::from(nodes) + 1;
    let place = (turn % round) as u8;
    if place == 0 {
        let task = (turn / round % u64::from(MOST_TASKS)) as u8;
        Party::Task(TaskId::new(task + 1).unwrap())
    } else {
        Party::Node(NodeId::new(place).unwrap())
    }
}

/// Whether a node is to lead in a turn: node n leads in each turn whose number is divisible by 8 +
/// n.
pub fn is_to_lead(node: NodeId, turn: u64) -> bool
    ensures { result ≡ is_to_lead node turn }
{
    turn % (8 + u64::from(node.get())) == 0
}

/// The node that a task uses in a turn: all nodes in rotation.
pub(crate) fn node_in_turn(nodes: u8, turn: u64) -> NodeId
    requires { (1 ≤ nodes) × (nodes ≤ 7) }
    ensures { result ≡ node_at nodes turn }
{
    let place = (turn % u64::from(nodes)) as u8;
    NodeId::new(place + 1).unwrap()
}
