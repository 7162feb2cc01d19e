//! When a node leads with a new ballot, or asks for positions that it misses. It is progress alone:
//! nodes agree whoever leads, and whenever.
//!
//! In reading order:
//! - `patience`: how long a node has waited
//! - `advice`: what a node is to do now
//! - `waiting`: waiting ends: a law
#![tactic(auto)]

mod advice;
mod patience;
mod waiting;

pub use advice::{Advice, Situation};
pub use patience::Patience;
pub use waiting::waiting_ends;
