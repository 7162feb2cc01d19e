//! The log of one node: what it learned at each position, taken in the order of the positions.
//!
//! In reading order:
//! - `log`: what a node learned, and how far it is taken
//! - `pages`: actions in pages, so that none is moved when one more is added
//! - `front`: the positions that a log has learned without a gap, and those ahead of them
//! - `recorded`: what a log takes, as the records of its node say
#![tactic(auto)]

mod front;
mod log;
mod pages;
mod recorded;

pub use log::Log;
pub use recorded::taken_as_recorded;
