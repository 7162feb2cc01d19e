//! The replies of the tasks.

ghost use Rattle.std.specs.Prelude.{◌≡◌, map, flat_map, All, IfOk, OnOk, IsOkUnless};
ghost use Rattle.rp_live.specs.Ends.{HadMemory};
ghost use Rattle.rp_live.specs.LiveOutcome.{replies_at};

use crate::ends::task_ended;
use rp_base::{Answer, Fault};
use rp_boxes::TaskSeat;
use rp_machine::Machine;
use rp_threads::TaskEnd;
use std::alloc::Global;

/// The seats of the tasks whose threads ended, and their replies, in order of tasks and of calls.
pub(crate) fn replies_of<M: Machine>(
    tasks: Vec<TaskEnd<M>>,
    alloc: Global,
) -> Result<(Vec<TaskSeat<M>>, Vec<Answer>), Fault>
    ensures seats { IfOk result (λ found. found.0.items ≡ map (λ end. end.seat) tasks.items) }
    ensures replies { IfOk result (λ found. found.1.items ≡ flat_map replies_at tasks.items) }
    ensures memory { OnOk result (All HadMemory tasks.items) }
    ensures only { IsOkUnless result Fault.OutOfMemory }
{
    let mut seats = Vec::new(alloc);
    let mut replies = Vec::new(alloc);
    for end in tasks {
        let seat = task_ended(end)?;
        replies.extend_from_slice(seat.replies())?;
        seats.push(seat)?;
    }
    Ok((seats, replies))
}
