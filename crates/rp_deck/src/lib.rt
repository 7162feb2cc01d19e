//! Decks: what a deck declares and asks for, and how its text is read.
//!
//! In reading order:
//! - `reader`: reads a deck
//! - `script`: reads the script of a deck
//! - `verbs`: the first words of a script's lines
//! - `calls`: reads the lines of a script by which tasks call and interrupts occur
//! - `operands`: reads the words of a script's line that name nodes, tasks and positions
//! - `deck`: what a deck declares and asks for
#![tactic(auto)]

mod calls;
mod deck;
mod operands;
mod reader;
mod script;
mod verbs;

pub use deck::{Command, Deck, Line, Mode};
pub use reader::read_deck;
pub use rp_deck_declarations::{DeckProgram, Task};
