//! What a node may be given.

use rp_base::{NodeId, Position, PositionRange};

/// What a node may be given: one of these makes one step.
#[derive(Clone, Copy)]
pub enum Input<'a> {
    /// The text of a packet, as it came.
    Receive(&'a [u8]),
    /// The command to lead at a position, or at the least one that is not learned and at which no
    /// proposal of the node runs but a prepared one.
    Lead(Option<Position>),
    /// The command to ask once for promises at all unlearned positions of a range.
    LeadRange(PositionRange),
    /// An occurrence, from 1, of an interrupt's source, 1 to 8.
    Interrupt { source: u8, occurrence: u32 },
    /// A tick of the clock.
    Tick { now: u32 },
    /// A request for a report to the audit, of the actions applied at the positions from this one
    /// on.
    Report(Position),
    /// The command to ask another node for each position that is missing in the window.
    Ask(NodeId),
}
