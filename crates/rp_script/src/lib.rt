//! Reads a deck, runs its script, and prints the result.
//!
//! In reading order:
//! - `deck_run`: runs the script of a deck
//! - `deck_read`: reads a deck from a reader
#![tactic(auto)]

mod deck_read;
mod deck_run;

pub use deck_read::{MOST_BYTES, read_given, read_whole};
pub use deck_run::{DRAIN_LIMIT, run_deck, run_script};
pub use rp_output::{
    BodyText, FaultMessage, NodeLine, NodeState, PartyText, RefusedLine, ReplyLine, ReplyText,
    TraceLine, is_refusal, print, tell, write_out, write_whole,
};
pub use rp_run::{RunOptions, Settled, node_of_event, party_text, run_lines, sent_packet};
