//! Which word of a bad deck is at fault, which word near it would do, and what to write there.
//!
//! In reading order:
//! - `places`: the lines of a text and the words of a line, by what is after them
//! - `reading`: for what a text is read
//! - `bad_deck`: a text that is bad at a line for a reason, and which word of the line is at fault
//! - `candidates`: the words that may be near
//! - `advice`: what to write in place of a word
//! - `tables`, `advice_of`: which advice is given
//! - `hint`: the word at fault and the near word, and the line that is printed for them
#![tactic(auto)]

mod advice;
mod advice_of;
mod bad_deck;
mod candidates;
mod hint;
mod places;
mod reading;
mod tables;

pub use advice::Advice;
pub use hint::{Hint, hint_for};
pub use reading::Reading;
