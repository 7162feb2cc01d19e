//! How a thread ended.

ghost use Rattle.std.specs.Prelude.{◌≡◌, IfOk, OnOk, IsOkUnless};
ghost use Rattle.rp_live.specs.Ends.{HadNoFault, HadMemory};
ghost use Rattle.rp_live.specs.Seats.{IsEndOfRun};

use rp_base::Fault;
use rp_boxes::{NodeSeat, TaskSeat};
use rp_machine::Machine;
use rp_store::InfallibleDevice;
use rp_threads::{NodeEnd, TaskEnd};

/// The seat of a node whose thread ended. `OutOfMemory` if its loop ended by a fault: no other
/// fault can end it, since its device never fails.
pub(crate) fn node_ended<M: Machine, D: InfallibleDevice>(
    end: NodeEnd<M, D>,
) -> Result<NodeSeat<M, D>, Fault>
    requires { IsEndOfRun end }
    ensures ok { IfOk result (λ seat. seat ≡ end.seat) }
    ensures none { OnOk result (HadNoFault end) }
    ensures only { IsOkUnless result Fault.OutOfMemory }
{
    end.seat.never_failed();
    match end.fault {
        Some(fault) => Err(fault),
        None => Ok(end.seat),
    }
}

/// The seat of a task whose thread ended. `OutOfMemory` if its loop ended by that; a task that
/// ended at a call that it may not make keeps the replies to the calls before.
pub(crate) fn task_ended<M: Machine>(end: TaskEnd<M>) -> Result<TaskSeat<M>, Fault>
    ensures ok { IfOk result (λ seat. seat ≡ end.seat) }
    ensures memory { OnOk result (HadMemory end) }
    ensures only { IsOkUnless result Fault.OutOfMemory }
{
    match end.fault {
        Some(Fault::OutOfMemory) => Err(Fault::OutOfMemory),
        _ => Ok(end.seat),
    }
}
