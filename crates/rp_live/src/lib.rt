//! Live mode: the nodes and the tasks of a program run in their own threads, and afterwards an
//! audit reads the logs of all nodes.
//!
//! In reading order:
//! - `options`: how a program is run in threads
//! - `lines`: the faulty link of a node or a task
//! - `calls`: the calls of a task
//! - `starts`: makes the seats, and makes those of nodes and tasks ready to run
//! - `notes`: nodes record interrupts and ticks before they run
//! - `pace`: which turns a node makes, and how the threads keep pace
//! - `ends`: how a thread ended
//! - `reports`: the audit reads the logs of the nodes
//! - `replies`: the replies of the tasks
//! - `figures`: how a run went, in numbers for a reader
//! - `run`: a whole run
#![tactic(auto)]

mod calls;
mod ends;
mod figures;
mod lines;
mod notes;
mod options;
mod pace;
mod replies;
mod reports;
mod run;
mod starts;

pub use figures::Figures;
pub use options::LiveOptions;
pub use run::{LiveOutcome, live};
