//! Nodes and tasks in their own threads.
//!
//! In reading order:
//! - `gate`: decides which turns a node makes
//! - `ending`: decides when a run is over
//! - `options`: what the loops of a run share
//! - `actor`: the turns of a node or a task, one after the other: the one loop
//! - `sends`: puts the packets of a step into their boxes
//! - `turns`: a node's turn
//! - `rotation`: whose box a loop empties, and in which turns a node is to lead
//! - `loops`: a node in its loop
//! - `tasks`: a task in its loop
//! - `crossing`: seats may be moved to other threads
//! - `starts`: starts the loop of a node or a task in its own thread
//! - `threads`: runs all of them, and joins them
#![tactic(auto)]

mod actor;
mod crossing;
mod ending;
mod gate;
mod loops;
mod options;
mod rotation;
mod sends;
mod starts;
mod tasks;
mod threads;
mod turns;

pub use crossing::{node_seat_crosses, task_seat_crosses};
pub use ending::{Ending, NeverOver};
pub use gate::{Gate, Open};
pub use loops::{Counts, NodeEnd, node_loop};
pub use options::LoopOptions;
pub use rotation::is_to_lead;
pub use starts::{NodeStart, TaskStart};
pub use tasks::{TaskCall, TaskEnd, task_loop};
pub use threads::run_threads;
pub use turns::{PacketCounts, Turn, TurnResult, node_step, node_turn};
