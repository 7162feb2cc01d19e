//! A node and a task of a cluster: what each does with its own part.
//!
//! In reading order:
//! - `node`: a node: a replica that runs, or a device that rests
//! - `task`: a task: what it keeps of its calls, and the replies that it took
//! - `calls`: a call of a task as a packet, and the reply in a packet
#![tactic(auto)]

mod calls;
mod node;
mod task;

pub use calls::{asks, decode_reply};
pub use node::{ClusterNode, are_empty};
pub use task::Task;
