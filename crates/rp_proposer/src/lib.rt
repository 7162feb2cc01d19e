//! A node as a proposer: which ballot it leads in next, and what it offers once a majority
//! promised.
//!
//! In reading order:
//! - `proposer`: a node as a proposer
//! - `proposal`: a proposal that runs
//! - `promise`: a promise that came
#![tactic(auto)]

mod promise;
mod proposal;
mod proposer;

pub use proposal::{Progress, one_offer_at_most};
pub use proposer::{Proposer, a_window_has_room};
pub use rp_base::Phase;
