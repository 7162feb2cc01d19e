//! Runs a deck in threads, and prints the result.
//!
//! In reading order:
//! - `live_run`: runs a deck in threads
//! - `figures`: the line of figures that such a run reports
//! - `live_output`: prints the result
#![tactic(auto)]

mod figures;
mod live_output;
mod live_run;

pub use figures::FiguresLine;
pub use live_run::{LiveRequest, run_live};
