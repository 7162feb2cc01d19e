//! The size of a cluster.

ghost use Rattle.std.specs.Prelude.{◌↔◌, IsTrue};

use crate::number::MOST_NODES;

/// The fewest nodes that a cluster has.
const LEAST_NODES: u8 = 3;

/// How many nodes there are, and how long the log may get.
#[derive(Clone, Copy, Debug, PartialEq, Eq, Hash)]
pub struct Config {
    /// 3 to 7.
    pub nodes: u8,
    /// 1 to 65,535.
    pub max_positions: u16,
}

impl Config {
    ghost use Rattle.rp_base.specs.Config.{IsRightConfig};

    /// Whether both numbers are within their ranges.
    pub fn is_right(self) -> bool
        ensures { IsTrue result ↔ IsRightConfig self }
    {
        matches!(self.nodes, LEAST_NODES..=MOST_NODES) && self.max_positions >= 1
    }
}
