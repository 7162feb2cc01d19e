//! The learner: whether the votes that a node has heard decide a position.
//!
//! In reading order:
//! - `learner`: the learner of one node, over a window of 64 positions
//! - `position_state`: what is known of one position of the window
//! - `vote_counts`: the votes heard at one position
#![tactic(auto)]

mod learner;
mod position_state;
mod vote_counts;

pub use learner::{Decision, Learner, VoteStatus, same_learners_answer_alike};
