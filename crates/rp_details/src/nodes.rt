//! The state of each node: as `show` prints it, and what it holds and knows.

ghost use Rattle.std.specs.Prelude.{◌≡◌, ◌++◌, OnOk};
ghost use Rattle.rp_details.specs.Details.{device_lines, node_lines, nodes_lines};
ghost use Rattle.rp_world.specs.rp_model.specs.World.{part_at};
ghost use Rattle.rp_run.specs.rp_output.specs.Printed.{node_line_of};
ghost use Rattle.rp_run.specs.rp_output.specs.FaultMessage.{with_line_feed};
ghost use Rattle.rp_run.specs.Items.{items_text};
ghost use Rattle.rp_run.specs.Output.{part_items};
ghost use Rattle.rp_run.specs.Runs.{run_setting};

use crate::known::add_known;
use crate::lines::add_line;
use rp_base::{Fault, NodeId};
use rp_machine::Machine;
use rp_output::{NodeLine, NodeState};
use rp_run::RunOptions;
use rp_store::CutDevice;
use rp_world::Cluster;
use std::alloc::{AllocError, Global};

/// Adds every node's state.
pub fn add_nodes<M: Machine, D: CutDevice>(
    alloc: Global,
    text: &mut Vec<u8>,
    cluster: &Cluster<M, D>,
    options: &RunOptions<'_>,
) -> Result<(), Fault>
    requires { cluster.now.setup.config.nodes ≡ options.now.config.nodes }
    ensures { OnOk result (text.new.items ≡ text.old.items
        ++ nodes_lines (run_setting M.next M.answers M.begin M.image cluster.now options.now)
        cluster.now.world cluster.now.setup.config.nodes) }
{
    for place in 0..options.config.nodes {
        let node = NodeId::new(place + 1).unwrap();
        add_node(alloc, text, cluster, options, node)?;
    }
    Ok(())
}

/// Adds a node's state.
fn add_node<M: Machine, D: CutDevice>(
    alloc: Global,
    text: &mut Vec<u8>,
    cluster: &Cluster<M, D>,
    options: &RunOptions<'_>,
    node: NodeId,
) -> Result<(), Fault>
    ensures { OnOk result (text.new.items ≡ text.old.items
        ++ node_lines (run_setting M.next M.answers M.begin M.image cluster.now options.now)
        node (part_at cluster.now.world.nodes node)) }
{
    add_shown(alloc, text, cluster, options, node)?;
    add_device(alloc, text, cluster, node)?;
    add_known(alloc, text, cluster, node)?;
    Ok(())
}

/// Adds a node as `show` prints it.
fn add_shown<M: Machine, D: CutDevice>(
    alloc: Global,
    text: &mut Vec<u8>,
    cluster: &Cluster<M, D>,
    options: &RunOptions<'_>,
    node: NodeId,
) -> Result<(), Fault>
    ensures { OnOk result (text.new.items ≡ text.old.items
        ++ items_text (part_items
        (run_setting M.next M.answers M.begin M.image cluster.now options.now)
        node (part_at cluster.now.world.nodes node))) }
{
    match cluster.applied(node) {
        Ok(applied) => {
            let image = cluster.image(alloc, node)?;
            add_node_line(alloc, text, node, NodeState::Applied(u32::from(applied)))?;
            Ok(text.extend_from_slice(&image)?)
        }
        Err(Fault::NotRunning) => Ok(add_node_line(alloc, text, node, NodeState::Stopped)?),
        Err(_) => Ok(()),
    }
}

/// Adds how many bytes a node's device holds.
fn add_device<M: Machine, D: CutDevice>(
    alloc: Global,
    text: &mut Vec<u8>,
    cluster: &Cluster<M, D>,
    node: NodeId,
) -> Result<(), AllocError>
    ensures { OnOk result (text.new.items ≡ text.old.items
        ++ device_lines (part_at cluster.now.world.nodes node)) }
{
    let Ok(bytes) = cluster.stored(node) else {
        return Ok(());
    };
    let line = format!(in alloc; "  device: {bytes} bytes")?;
    add_line(text, &line)
}

/// Adds a node's line.
fn add_node_line(
    alloc: Global,
    text: &mut Vec<u8>,
    node: NodeId,
    state: NodeState,
) -> Result<(), AllocError>
    ensures { OnOk result (text.new.items ≡ text.old.items
        ++ with_line_feed (node_line_of node state)) }
{
    let line = NodeLine { node, state };
    let line = format!(in alloc; "{line}")?;
    add_line(text, &line)
}
