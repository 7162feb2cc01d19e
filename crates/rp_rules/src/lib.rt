//! The rules: what a server decides of an input. They change nothing of it, and give a plan (`Plan`
//! of `rp_model`) of all that the step does; the usual ones write it where the caller holds it, so
//! that none is copied.
//!
//! In reading order:
//! - `input`: what a node may be given
//! - `rules`: the rule of an input, by its kind
//! - `texts`: the rule for a packet's text, by the packet's kind
//! - `packets`: the rules for any packet
//! - `acceptor`: prepares and accepts
//! - `leader`: promises, and leading at a position
//! - `lead`: the command to lead at a position, or at the least free one
//! - `ranges`: the command to lead at a range
//! - `learner`: votes, decisions and questions for decisions
//! - `missing`: the command to ask another node for what is missing
//! - `arrivals`: calls, interrupts and ticks
#![tactic(auto)]

mod acceptor;
mod arrivals;
mod input;
mod lead;
mod leader;
mod learner;
mod missing;
mod packets;
mod ranges;
mod rules;
mod texts;

pub use input::Input;
pub use rules::decide;
pub use texts::{
    accept_for, accepted_for, call_for, decided_for, on_text, prepare_for, promise_for,
};
