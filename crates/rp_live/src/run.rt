//! A whole run.

ghost use Rattle.std.specs.Prelude.{◌≡◌, ◌≤◌, All, length, IfOk, IfErr, IsOkUnless};
ghost use Rattle.rp_threads.specs.rp_base.specs.Config.{IsRightConfig};
ghost use Rattle.rp_live.specs.Events.{IsLive};
ghost use Rattle.rp_live.specs.LiveOutcome.{IsLiveRun, IsAudited};
ghost use Rattle.rp_live.specs.Seats.{AreNumbered, IsEndOfRun, StillRuns};
ghost use Rattle.rp_live.specs.Faults.{IsLiveFault};

use crate::figures::Figures;
use crate::notes::note_all;
use crate::options::LiveOptions;
use crate::pace::Pace;
use crate::replies::replies_of;
use crate::reports::{knows_all, read_logs};
use crate::starts::{node_starts, seats_in_memory, task_starts};
use rp_base::{Answer, Fault};
use rp_boxes::{AllSeats, Audit, AuditSeat};
use rp_machine::Machine;
use rp_model::Event;
use rp_store::InfallibleDevice;
use rp_threads::{LoopOptions, NodeEnd, TaskEnd, run_threads};
use std::alloc::Global;
use std::sync::Wait;
use std::thread::Threads;
use std::time::Clock;

/// The result of a run.
#[derive(Debug, Drop)]
pub struct LiveOutcome {
    /// The replies of all tasks, in order of tasks and of their calls.
    pub replies: Vec<Answer>,
    /// How many actions each node has applied, in order of nodes.
    pub applied: Vec<u32>,
    /// Whether the audit knows all that each node has applied.
    pub agree: bool,
    /// How the run went, in numbers.
    pub figures: Figures,
}

/// The audit reads the logs of all nodes, and then all seats look at the table together.
fn audited<M: Machine, D: InfallibleDevice>(
    alloc: Global,
    seat: AuditSeat<M>,
    nodes: Vec<NodeEnd<M, D>>,
    tasks: Vec<TaskEnd<M>>,
) -> Result<LiveOutcome, Fault>
    requires few { length nodes.items ≤ 7 }
    requires ended { All IsEndOfRun nodes.items }
    requires still { All StillRuns nodes.items }
    requires nodes { All (λ end. end.seat.setup.table ≡ seat.setup.table) nodes.items }
    requires numbers { AreNumbered 0 nodes.items }
    requires tasks { All (λ end. end.seat.setup.table ≡ seat.setup.table) tasks.items }
    ensures stated { IfOk result (IsAudited M.next M.answers M.begin seat nodes.items tasks.items) }
    ensures only { IsOkUnless result Fault.OutOfMemory }
{
    let figures = Figures::of(nodes.as_slice(), tasks.as_slice());
    let mut audit = Audit::new(alloc, seat);
    let (nodes, applied) = read_logs(&mut audit, nodes, alloc)?;
    let (tasks, replies) = replies_of(tasks, alloc)?;
    let agree = knows_all(&audit, applied.as_slice());
    audit.look_together(nodes, tasks);
    Ok(LiveOutcome {
        replies,
        applied,
        agree,
        figures,
    })
}

/// Runs the nodes of a program, over devices in memory, and its eight tasks, each in its own
/// thread. Their links lose, duplicate and reorder packets, as determined by the seed. Before the
/// threads start, the nodes take the interrupts and the ticks among the events as inputs, in order;
/// the other events are the calls of the tasks. Afterwards the audit reads the logs of all nodes,
/// and all seats look at the table together. Which replies arrive, and how much is applied, differs
/// from run to run. The threads end before their last turn once nothing can happen any more.
/// `OutOfMemory` if an allocation failed, also within a thread, or a thread could not be started:
/// then all threads end before their next turn.
pub fn live<R: Threads + Wait + Clock + Sync, M: Machine + Send>(
    rt: &R,
    alloc: Global,
    program: &M::Program,
    events: &[Event],
    options: LiveOptions,
) -> Result<LiveOutcome, Fault>
where
    M::Program: Send + Sync,
    requires config { IsRightConfig options.config }
    requires events { All (IsLive options.config.nodes) events.now }
    // claim (outcome): In a run of a whole program in threads all nodes and tasks have their seats
    //   at one table; the nodes note the interrupts and ticks among the events, in order; each node
    //   and task makes its turns over the link that the seed gives to it, the tasks with the calls
    //   among the events: all turns that are asked for, or those before the run is over
    // claim (outcome): In a run with a result each task has made all its calls and has the replies to
    //   them, or its loop made all turns that were asked for, or it ended at a call that the task may
    //   not make; each node's loop made all turns that were asked for, or nothing had happened to
    //   the node for 128 turns
    // claim (outcome): After the loops each node reports to the audit what it has applied, first
    //   from position 1 and each time after that from the position after those that the audit knows
    //   of it by then, until all is known or a report adds nothing; then all look at the table as
    //   one
    // claim (outcome): After a run in threads there is one order, whose action at each position is
    //   decided there, and of which what is known of each node and what it has applied are
    //   prefixes; each printed count is what that node has applied; each reply is its task's and
    //   the answer to its call in that order, which takes effect at one place; the calls of a task
    //   that count there are the first of its calls among the events, all that it made, or all but
    //   the last; and no call takes effect there that no task of the run made
    // claim (outcome): The logs are reported to agree exactly if of each node as many actions are
    //   known as it has applied
    // claim (outcome): The figures of a run in threads are sums over the ends of the loops: calls
    //   made, replies, packets counted as lost and turns in which nodes led; and the greatest turn
    //   of a last reply
    // claim (outcome): A run in threads has a result only if no fault ended a node's loop, and no
    //   task's loop ran out of memory or was stopped
    // claim (only): The only fault that ends a run in threads is `OutOfMemory`
    ensures outcome { IfOk result (IsLiveRun M.next M.answers M.begin
        options.config program.now events.now options.seed options.turns) }
    ensures only { IfErr result IsLiveFault }
{
    let AllSeats {
        mut nodes,
        tasks,
        audit,
    } = seats_in_memory::<M>(alloc, options.config, program)?;
    note_all(&mut nodes, alloc, events)?;
    let nodes = node_starts(alloc, options.seed, nodes)?;
    let tasks = task_starts(alloc, options.seed, events, tasks)?;
    let pace = Pace::new(alloc, rt, options.config.nodes)?;
    let loops = LoopOptions {
        alloc,
        gate: &pace,
        ending: &pace,
        turns: options.turns,
    };
    let (nodes, tasks) = run_threads(rt, nodes, tasks, loops)?;
    audited(alloc, audit, nodes, tasks)
}
