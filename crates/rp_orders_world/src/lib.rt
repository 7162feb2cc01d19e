//! What a closed list of orders says of every history of a cluster.
//!
//! In reading order:
//! - `histories`: each state and each reply of a history is that of an order
#![tactic(auto)]

mod histories;

pub use histories::histories_stay_within;
