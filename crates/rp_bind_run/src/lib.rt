//! Prints packages for the deck that a reader holds.
//!
//! In reading order:
//! - `given`: reads a deck and prints its packages
#![tactic(auto)]

mod given;

pub use given::bind_deck;
