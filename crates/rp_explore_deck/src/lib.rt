//! Decks for a search over every order: a deck for live mode, with rules and guards.
//!
//! In reading order:
//! - `request`: what a search is asked for
//! - `reader`: reads a deck for a search
//! - `plan`: what such a deck asks for
//! - `added`: which lines are rules and guards, and the deck without them
//! - `rules`: reads the rules
//! - `actions`: the actions that the script asks for
//! - `guard_lines`: reads the guards, and finds the calls that they are for
//! - `replies`: reads a reply, as a run prints it
//! - `laws`: what follows from the definitions alone
#![tactic(auto)]

mod actions;
mod added;
mod guard_lines;
mod laws;
mod plan;
mod reader;
mod replies;
mod request;
mod rules;

pub use actions::PlannedAction;
pub use laws::{guards_are_for_calls, the_other_lines_keep_their_numbers};
pub use plan::Plan;
pub use reader::read_plan;
pub use request::ExploreRequest;
pub use rp_orders::Guard;
pub use rules::{PlacedRule, Rule, Truth};
