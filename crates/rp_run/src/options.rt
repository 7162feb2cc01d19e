//! A script, and how it is run.

ghost use Rattle.rp_base.specs.Config.{IsRightConfig};

use indexmap::IndexMap;
use rp_base::Config;
use rp_deck::{Line, Task};

/// A script, and how it is run.
#[derive(Clone, Copy)]
pub struct RunOptions<'a> {
    pub config: Config,
    pub tasks: &'a IndexMap<String, Task>,
    pub lines: &'a [Line],
    /// Whether packets are printed.
    pub traced: bool,
    /// The most messages that one `drain` delivers.
    pub most: u32,
    ghost right: { IsRightConfig config },
}
