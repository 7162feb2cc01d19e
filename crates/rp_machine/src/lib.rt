//! The machines that a log of actions drives.
//!
//! In reading order:
//! - `machine`: the obligations of a machine to the log that drives it
//! - `replay`: what a log of actions leads to, at any machine
//! - `places`: where a call is in a log, and what it was answered
//! - `few_answers`: how many answers a log leads to
//! - `numbered`: a machine after a log: each call counts once
//! - `tally`: the least machine: a sum for each object
#![tactic(auto)]

mod few_answers;
mod machine;
mod numbered;
mod places;
mod replay;
mod tally;

pub use few_answers::answers_are_few;
pub use machine::Machine;
pub use numbered::{Numbered, calls_count_once, occurrences_count_once};
pub use places::{a_call_has_one_answer, a_call_has_one_place, an_answered_call_has_one_place};
pub use replay::{replay_goes_on, replay_may_go_on, replies_fit};
pub use tally::{Tally, TallyProgram};
