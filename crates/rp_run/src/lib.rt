//! Runs the lines of a script over a cluster, and prints what happens.
//!
//! In reading order:
//! - `run`: runs the lines of a script, at any machine and over any devices that never fail
//! - `options`: a script, and how it is run
//! - `agreement`: at any two lines of a script nodes agree, and replies are those of one order
//! - `effects`: prints the result of an event
//! - `settled`: which messages of a run are settled
//! - `settled_message`: which message an event settles
#![tactic(auto)]

mod agreement;
mod effects;
mod options;
mod run;
mod settled;
mod settled_message;

pub use agreement::scripts_agree;
pub use effects::{node_of_event, party_text, print_reply, sent_packet};
pub use options::RunOptions;
pub use run::run_lines;
pub use settled::Settled;
pub use settled_message::settled_by;
