//! One node as it runs: a server over a device.
//!
//! In reading order:
//! - `replica`: the replica
//! - `questions`: what it is asked about its pending items and its tasks
//! - `opening`: a replica that is opened over a device
//! - `turn`: a step: it decides by the rules (`rp_rules`), and commits
//! - `delivery`: a packet that is delivered, in which a usual one makes no plan
//! - `commit`: a plan, committed: it is written, takes effect and is sent
//! - `range_promise`, `proposal`, `decisions`, `report`: a promise for a range, plans of a leader,
//!   of a learner and for the audit, committed
//! - `missing`: questions for what is missing, committed
//! - `cut`: a node that stops within a step
//! - `sent`: what a step sends
//! - `infallible`: what a replica's device holds
//! - `laws`: how the calls are related to the definitions of worlds
#![tactic(auto)]

mod commit;
mod cut;
mod decisions;
mod delivery;
mod infallible;
mod laws;
mod missing;
mod opening;
mod proposal;
mod questions;
mod range_promise;
mod replica;
mod report;
mod sent;
mod turn;

pub use cut::NotCut;
pub use laws::{opening_is_a_restart, texts_are_packets, turns_are_effects};
pub use opening::Opening;
pub use replica::Replica;
pub use rp_rules::Input;
pub use sent::Sent;
