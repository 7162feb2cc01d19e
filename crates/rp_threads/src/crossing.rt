//! Seats may be moved to other threads.

ghost use Rattle.std.specs.Prelude.{◌≡◌};

use rp_boxes::{NodeSeat, TaskSeat};
use rp_machine::Machine;
use rp_store::Device;

/// Returns a value that may be moved to another thread, unchanged.
fn crossing<T: Send>(value: T) -> T
    ensures { result ≡ value }
{
    value
}

/// The seat of a node may be moved to another thread if its machine and its device may. It does
/// nothing: its only purpose is to be checked.
pub fn node_seat_crosses<M: Machine + Send, D: Device + Send>(
    seat: NodeSeat<M, D>,
) -> NodeSeat<M, D>
    // claim: The seat of a node, and that of a task, may cross to another thread if machine and
    //   device may
    ensures { result ≡ seat }
{
    crossing(seat)
}

/// The seat of a task may be moved to another thread if its machine may. It does nothing: its only
/// purpose is to be checked.
pub fn task_seat_crosses<M: Machine + Send>(seat: TaskSeat<M>) -> TaskSeat<M>
    // claim as node_seat_crosses
    ensures { result ≡ seat }
{
    crossing(seat)
}
