//! The seats of nodes, of tasks and of the audit: every node and task may run in its own thread.
//!
//! In reading order:
//! - `input`: the numbers that a node or a task is given are within their ranges
//! - `node_seat`: the seat of a node
//! - `task_seat`: the seat of a task
//! - `audit`: what the audit knows of the nodes
//! - `together`: all seats look at the table together, for the last time
//! - `all_seats`: makes the seats
#![tactic(auto)]

mod all_seats;
mod audit;
mod input;
mod node_seat;
mod task_seat;
mod together;

pub use all_seats::{AllSeats, seats};
pub use audit::{Added, Audit};
pub use node_seat::NodeSeat;
pub use rp_board::{AuditSeat, Fetch, Put, Seat, Sits};
pub use task_seat::TaskSeat;
