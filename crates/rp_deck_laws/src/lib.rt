//! What a deck's text means: each right deck has a text, which is read back; what it declares is said
//! by its names alone; and decks of one meaning behave alike. Laws, no code that runs.
//!
//! In reading order:
//! - `texts`: each right deck has a text, and reading it gives the deck back
//! - `meanings`: what each deck means, and the program that it declares, said by its names alone
//! - `readings`: what protected objects do depends on what their deck's text means alone
#![tactic(auto)]

mod meanings;
mod readings;
mod texts;

pub use meanings::{
    an_example_is_right, decks_mean_what_they_say, programs_are_as_declared,
    tallies_mean_what_they_say,
};
pub use readings::decks_of_one_meaning_behave_alike;
pub use texts::{
    commands_are_read_back, conditions_are_read_back, declarations_are_read_back,
    expressions_are_read_back, object_decks_are_read_back, objects_are_read_back,
    scripts_are_read_back, tally_decks_are_read_back,
};
