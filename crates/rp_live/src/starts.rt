//! Makes the seats, and makes those of nodes and tasks ready to run.

ghost use Rattle.std.specs.Prelude.{◌≡◌, ℕ, List, map, filter_map, All, IfOk, IsOkUnless};
ghost use Rattle.rp_threads.specs.rp_base.specs.Config.{IsRightConfig};
ghost use Rattle.rp_boxes.specs.FirstSeats.{AreSeats};
ghost use Rattle.rp_threads.specs.rp_codec.specs.declared.packet.Party.TheVariants as parties;
ghost use Rattle.rp_live.specs.Events.{call_by};
ghost use Rattle.rp_live.specs.Lines.{party_line};

use crate::calls::calls_of;
use crate::lines::line_for;
use rp_base::{Config, Fault};
use rp_boxes::{AllSeats, NodeSeat, TaskSeat, seats};
use rp_codec::Party;
use rp_machine::Machine;
use rp_model::Event;
use rp_store::{Device, MemDevice};
use rp_threads::{NodeStart, TaskStart};
use std::alloc::Global;

/// The seats of a program whose nodes write to memory; nothing has happened.
pub(crate) fn seats_in_memory<M: Machine>(
    alloc: Global,
    config: Config,
    program: &M::Program,
) -> Result<AllSeats<M, MemDevice>, Fault>
    requires { IsRightConfig config }
    ensures seats { IfOk result (λ all. (failures : List ℕ) × AreSeats config program.now failures
        all.nodes.items all.tasks.items all.audit) }
    ensures only { IsOkUnless result Fault.OutOfMemory }
{
    let devices = MemDevice::several(alloc, config.nodes)?;
    seats(alloc, config, program, devices)
}

/// Makes a node ready to run.
fn node_start<M: Machine, D: Device>(
    alloc: Global,
    seed: u32,
    seat: NodeSeat<M, D>,
) -> Result<NodeStart<M, D>, Fault>
    ensures seat { IfOk result (λ start. start.seat ≡ seat) }
    ensures line { IfOk result (λ start. start.line
        ≡ party_line seed (parties.Node seat.setup.number)) }
    ensures only { IsOkUnless result Fault.OutOfMemory }
{
    let line = line_for(alloc, seed, Party::Node(seat.number()))?;
    Ok(NodeStart { seat, line })
}

/// Makes the nodes ready to run.
pub(crate) fn node_starts<M: Machine, D: Device>(
    alloc: Global,
    seed: u32,
    seats: Vec<NodeSeat<M, D>>,
) -> Result<Vec<NodeStart<M, D>>, Fault>
    ensures seats { IfOk result (λ starts. map (λ start. start.seat) starts.items ≡ seats.items) }
    ensures lines { IfOk result (λ starts. All (λ start. start.line
        ≡ party_line seed (parties.Node start.seat.setup.number)) starts.items) }
    ensures only { IsOkUnless result Fault.OutOfMemory }
{
    let mut starts = Vec::new(alloc);
    for seat in seats {
        starts.push(node_start(alloc, seed, seat)?)?;
    }
    Ok(starts)
}

/// Makes a task ready to run, with its calls among the events.
fn task_start<M: Machine>(
    alloc: Global,
    seed: u32,
    events: &[Event],
    seat: TaskSeat<M>,
) -> Result<TaskStart<M>, Fault>
    ensures seat { IfOk result (λ start. start.seat ≡ seat) }
    ensures calls { IfOk result (λ start. start.calls.items
        ≡ filter_map (call_by seat.setup.number) events.now) }
    ensures line { IfOk result (λ start. start.line
        ≡ party_line seed (parties.Task seat.setup.number)) }
    ensures only { IsOkUnless result Fault.OutOfMemory }
{
    let task = seat.number();
    let calls = calls_of(alloc, events, task)?;
    let line = line_for(alloc, seed, Party::Task(task))?;
    Ok(TaskStart { seat, calls, line })
}

/// Makes the tasks ready to run, each with its calls among the events.
pub(crate) fn task_starts<M: Machine>(
    alloc: Global,
    seed: u32,
    events: &[Event],
    seats: Vec<TaskSeat<M>>,
) -> Result<Vec<TaskStart<M>>, Fault>
    ensures seats { IfOk result (λ starts. map (λ start. start.seat) starts.items ≡ seats.items) }
    ensures calls { IfOk result (λ starts. All (λ start. start.calls.items
        ≡ filter_map (call_by start.seat.setup.number) events.now) starts.items) }
    ensures lines { IfOk result (λ starts. All (λ start. start.line
        ≡ party_line seed (parties.Task start.seat.setup.number)) starts.items) }
    ensures only { IsOkUnless result Fault.OutOfMemory }
{
    let mut starts = Vec::new(alloc);
    for seat in seats {
        starts.push(task_start(alloc, seed, events, seat)?)?;
    }
    Ok(starts)
}
