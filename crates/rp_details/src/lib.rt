//! What a page says of an event, in lines: its packets, and the state of each node and each task.
//!
//! In reading order:
//! - `event`: what is said of an event
//! - `packets`: packets, each with its fields
//! - `nodes`: the state of each node
//! - `known`: what a node that runs knows
//! - `tasks`: the state of each task
//! - `fields`: the fields of a packet, in words
//! - `lines`: one line more of a text
#![tactic(auto)]

mod event;
mod fields;
mod known;
mod lines;
mod nodes;
mod packets;
mod tasks;

pub use event::{EventPackets, details};
