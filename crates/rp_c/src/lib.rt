//! The interface for C and Ada: checks packets, runs decks, and has nodes and tasks by handle, with
//! bytes in and bytes out. `include/rp.h` declares it, with the obligations of each call.
//!
//! In reading order:
//! - `status`: how a call on packets or a deck ends, as a number
//! - `packets`: how long a packet is, and whether bytes are one
//! - `decks`: runs the script of a deck
//! - `answer`: the number that a call by a handle returns, and what else it writes
//! - `nodes`: opens a node of a deck by its handle
//! - `tasks`: opens a task's stub by its handle
//! - `handles`: calls and closes a node or a task by its handle
//! - `steps`: calls a node by its handle, and returns where the packets of its last step end
//! - `advice`: what a node is to do next, by its handle
//! - `next`: the deck with which a station goes on once the log of its node has ended
#![tactic(auto)]

mod advice;
mod answer;
mod decks;
mod handles;
mod next;
mod nodes;
mod packets;
mod status;
mod steps;
mod tasks;

pub use advice::{NodeAdvice, rp_node_advise};
pub use answer::AnswerLengths;
pub use decks::rp_run_deck;
pub use handles::{rp_handle_call, rp_handle_close};
pub use next::rp_next_deck;
pub use nodes::{NodeFound, rp_device_header, rp_device_open, rp_node_open};
pub use packets::{rp_packet_check, rp_packet_length};
pub use steps::{StepLengths, rp_node_receive, rp_node_step};
pub use tasks::{rp_task_open, rp_task_open_after, rp_task_receive};
