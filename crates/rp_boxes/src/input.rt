//! The numbers that a node or a task is given are within their ranges.

ghost use Rattle.std.specs.Prelude.{◌<◌, ◌^◌};
ghost use Rattle.rp_base.specs.Number.{IsNode};
ghost use Rattle.rp_boxes.specs.NodeSeats.{HasInputRanges};

use rp_base::{NodeId, Position};
use rp_replica::Input;

/// The numbers of an input are within the ranges of their types. It does nothing: its contract is
/// for the callers' proofs.
pub(crate) fn keeps_ranges(input: &Input)
    ensures { HasInputRanges input.now }
{
    match *input {
        Input::Receive(_) | Input::Interrupt { .. } => {}
        Input::Lead(choice) => {
            let _ = choice.map(Position::get);
        }
        Input::LeadRange(range) => {
            let _ = range.count();
        }
        Input::Tick { now } => tick_keeps_range(now),
        Input::Report(first) => {
            let _ = first.get();
        }
        Input::Ask(to) => {
            let _ = to.get();
        }
    }
}

/// A tick is within its range.
fn tick_keeps_range(now: u32)
    ensures { now < 2 ^ 32 }
{}

/// A node's number is within its range.
pub(crate) fn node_keeps_range(node: NodeId)
    ensures { IsNode node }
{
    let _ = node.get();
}
