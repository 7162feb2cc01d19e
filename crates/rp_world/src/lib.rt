//! A cluster of nodes and tasks in memory.
//!
//! In reading order:
//! - `cluster`: the cluster: all nodes and tasks, and every message that was sent
//! - `headline`: the theorem over every history, with no cluster in it
//! - `world`: a world as it lies in memory: the nodes, the tasks, and the messages
//! - `steps`: makes the step of each event, whole or cut
//! - `calls`: what tasks ask for, and the replies to them
//! - `stops`: stops and restarts of nodes
//! - `effect`: the result of an event, as a step returns it
#![tactic(auto)]

mod calls;
mod cluster;
mod effect;
mod headline;
mod steps;
mod stops;
mod world;

pub use cluster::Cluster;
pub use effect::{Refused, no_effect};
pub use headline::histories_are_ordered;
pub use rp_actors::{Task, are_empty, asks, decode_reply};
pub use rp_model::{Dropped, Effect, Event, Interrupt, Step};
