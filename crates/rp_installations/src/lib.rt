//! Nodes and tasks by handle agree: what callers do with the handles of one configuration's nodes
//! and tasks is a history of the model. Laws, no code that runs.
//!
//! In reading order:
//! - `pending_steps`: steps of a node that a world does not have yet become events of its history
//! - `laws`: each installation has a history, and what follows of it
//! - `countable`: what a node has pending can count, or is over
//! - `callers`: callers who each break one rule, after which two nodes differ, and one who keeps all
//! - `deck_handles`: what callers do with handles is a history of the model, and what follows of it
#![tactic(auto)]

mod callers;
mod countable;
mod deck_handles;
mod laws;
mod pending_steps;

pub use callers::{no_rule_can_be_left_out, the_rules_can_be_kept};
pub use countable::what_is_pending_can_count;
pub use deck_handles::handles_agree;
pub use laws::{answers_give_the_step, installations_are_histories};
pub use pending_steps::{histories_keep_ranges, pending_steps_become_events};
