//! What a node that runs knows: its bounds and votes in its window, and what is pending.

ghost use Rattle.std.specs.Prelude.{◌≡◌, ◌++◌, OnOk, flat_map};
ghost use Rattle.rp_details.specs.Details.{bound_line, known_lines, pending_line, window_lines};
ghost use Rattle.rp_world.specs.rp_model.specs.World.{part_at};
ghost use Rattle.rp_run.specs.rp_output.specs.FaultMessage.{with_line_feed};

use crate::fields::{ActionWords, BoundWords};
use crate::lines::add_line;
use rp_base::{Action, NodeId, Position};
use rp_machine::Machine;
use rp_model::RightAction;
use rp_server::Roles;
use rp_store::CutDevice;
use rp_world::Cluster;
use std::alloc::{AllocError, Global};

/// Adds what a node knows, if it runs.
pub fn add_known<M: Machine, D: CutDevice>(
    alloc: Global,
    text: &mut Vec<u8>,
    cluster: &Cluster<M, D>,
    node: NodeId,
) -> Result<(), AllocError>
    ensures { OnOk result (text.new.items ≡ text.old.items
        ++ known_lines cluster.now.setup.config.max_positions (part_at cluster.now.world.nodes node)) }
{
    let Ok(server) = cluster.server(node) else {
        return Ok(());
    };
    add_window(alloc, text, server)?;
    let (earlier, later) = server.pending();
    add_pending(alloc, text, earlier)?;
    add_pending(alloc, text, later)
}

/// Adds the positions of a server's window that have a bound.
fn add_window<M: Machine>(
    alloc: Global,
    text: &mut Vec<u8>,
    server: &Roles<M>,
) -> Result<(), AllocError>
    ensures { OnOk result (text.new.items ≡ text.old.items
        ++ window_lines server.now.config.max_positions server.now.records) }
{
    let Some(window) = server.window() else {
        return Ok(());
    };
    for index in 0..window.count() {
        add_position(alloc, text, server, window.at(index))?;
    }
    Ok(())
}

/// Adds the bound of a server at a position and its last vote there, if there is a bound.
fn add_position<M: Machine>(
    alloc: Global,
    text: &mut Vec<u8>,
    server: &Roles<M>,
    position: Position,
) -> Result<(), AllocError>
    ensures { OnOk result (text.new.items ≡ text.old.items
        ++ bound_line server.now.records position) }
{
    let Some(bound) = server.bound(position) else {
        return Ok(());
    };
    let words = BoundWords {
        position,
        bound: bound.get(),
        last: server.last_vote(position),
    };
    let line = format!(in alloc; "  {words}")?;
    add_line(text, &line)
}

/// Adds items that are pending.
fn add_pending(alloc: Global, text: &mut Vec<u8>, items: &[RightAction]) -> Result<(), AllocError>
    ensures { OnOk result (text.new.items ≡ text.old.items ++ flat_map pending_line items.now) }
{
    for item in items {
        add_item(alloc, text, item.get())?;
    }
    Ok(())
}

/// Adds an item that is pending.
fn add_item(alloc: Global, text: &mut Vec<u8>, action: Action) -> Result<(), AllocError>
    ensures { OnOk result (text.new.items ≡ text.old.items ++ pending_line action) }
{
    let action = ActionWords { action };
    let line = format!(in alloc; "  pending: {action}")?;
    add_line(text, &line)
}
