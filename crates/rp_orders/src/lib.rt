//! The orders in which the actions of a program may be decided, and what a list of them that is
//! closed under one action more says of all.
//!
//! In reading order:
//! - `guard`: on what replies a task makes its calls
//! - `laws`: a closed list of orders has the effect of every order
#![tactic(auto)]

mod guard;
mod laws;

pub use guard::Guard;
pub use laws::closed_orders_lead_to_all;
