//! The command line of `rp_console`: what its words ask for, and what is done if they ask for no run.
//!
//! In reading order:
//! - `args`: what the words of the command line ask for
//! - `words`: refuses words that ask for no run
#![tactic(auto)]

mod args;
mod words;

pub use args::{Args, command, read_args};
pub use words::{given_words, refuse_unread, refuse_words};
