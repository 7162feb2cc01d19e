//! What is said of an event.

ghost use Rattle.std.specs.Prelude.{◌≡◌, ◌≤◌, IfOk};
ghost use Rattle.rp_details.specs.Details.{details_text};
ghost use Rattle.rp_run.specs.Runs.{run_setting};

use crate::lines::add_line;
use crate::nodes::add_nodes;
use crate::packets::{add_delivered, add_packets};
use crate::tasks::add_tasks;
use rp_base::Fault;
use rp_machine::Machine;
use rp_run::RunOptions;
use rp_store::CutDevice;
use rp_world::Cluster;
use std::alloc::Global;

/// What an event did to the packets of a run with n tasks.
#[derive(Clone, Copy)]
pub struct EventPackets {
    /// How many tasks there are.
    pub tasks: u8,
    /// The number of the packet that it delivered, if it delivered one.
    pub delivered: Option<u64>,
    /// The number of the first packet that it sent, or would have sent.
    pub first: u64,
    ghost one: { 1 ≤ first },
}

/// What is said of an event, by the cluster after it: the packet that it delivered and those that
/// it sent, each with its fields, and the state of each node and of each task.
pub fn details<M: Machine, D: CutDevice>(
    alloc: Global,
    cluster: &Cluster<M, D>,
    options: &RunOptions<'_>,
    packets: &EventPackets,
) -> Result<Vec<u8>, Fault>
    requires { cluster.now.setup.config.nodes ≡ options.now.config.nodes }
    // claim: What a page says of an event is, line by line: the packet that was delivered and those
    //   that were sent, each by its line of the trace and by its fields; each node after the event: as
    //   `show` prints it, how many bytes its device holds and, where it runs, its bound and its last
    //   vote at each position of its window that has a bound, and each item that is pending; and for
    //   each task how many replies it got, the last one, and the call that it waits for
    ensures { IfOk result (λ text. text.items ≡ details_text
        (run_setting M.next M.answers M.begin M.image cluster.now options.now)
        packets.now.tasks packets.now.delivered packets.now.first cluster.now.world) }
{
    let mut text = Vec::new(alloc);
    add_delivered(alloc, &mut text, cluster, options.tasks, packets.delivered)?;
    add_line(&mut text, "sent:")?;
    add_packets(alloc, &mut text, cluster, options.tasks, packets.first)?;
    add_line(&mut text, "nodes:")?;
    add_nodes(alloc, &mut text, cluster, options)?;
    add_line(&mut text, "tasks:")?;
    add_tasks(alloc, &mut text, cluster, options.tasks, packets.tasks)?;
    Ok(text)
}
