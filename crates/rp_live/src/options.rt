//! How a program is run in threads.

use rp_base::Config;

/// How a program is run in threads.
#[derive(Clone, Copy, Debug)]
pub struct LiveOptions {
    pub config: Config,
    /// Determines which packets are lost, duplicated and reordered.
    pub seed: u32,
    /// How many turns each node and each task makes at most.
    pub turns: u64,
}
