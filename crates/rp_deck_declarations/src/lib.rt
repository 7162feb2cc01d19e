//! Declarations of a deck: how its lines up to `script` are read.
//!
//! In reading order:
//! - `declarations`: reads the declarations of a deck
//! - `draft`: what a deck declares so far, and what each further line adds to it
//! - `program`: makes the program of what a deck declares
//! - `deck_program`: what the tasks of a deck call
#![tactic(auto)]

mod deck_program;
mod declarations;
mod draft;
mod program;

pub use deck_program::{DeckProgram, Task};
pub use declarations::{Declared, read_declarations};
pub use draft::MOST_POSITIONS;
