//! A search over the orders in which the actions of a program may be decided.
//!
//! In reading order:
//! - `explored`: the search over every order, and what it found
//! - `property`: properties of states, and the first order after which one does not hold
//! - `search`: the orders that were found, and whether one more of them leads to a new state
//! - `findings`: what the orders that were found give
//! - `giver`: what gives a reply
//! - `key`: what tells the states of a program apart
//! - `pieces`: the lines of the states' images, each kept once
//! - `replays`: the machine after an order, and whether one action more counts
//! - `guarded`: what the guards of a program's calls let be decided next
//! - `branch`, `tree`: the orders that were found, as memory holds them
#![tactic(auto)]

mod branch;
mod explored;
mod findings;
mod giver;
mod guarded;
mod key;
mod pieces;
mod property;
mod replays;
mod search;
mod tree;

pub use explored::{Explored, explore};
pub use giver::Giver;
pub use property::{Property, first_broken};
pub use rp_orders::Guard;
