//! Lines, words, names and numbers: how a text is read from left to right, with the reason of what
//! is wrong.
//!
//! In reading order:
//! - `lines`: the lines of a text
//! - `words`: the words of a line, and the readers of them
//! - `names`: tables of names
//! - `line_error`: why a line was not read
#![tactic(auto)]

mod line_error;
mod lines;
mod names;
mod words;

pub use line_error::LineError;
pub use lines::{Lines, TextLine};
pub use names::{
    insert_in_map, insert_in_set, insert_string_in_map, map_has_name, map_index_of, set_index_of,
    take_name_new_to_map, take_name_new_to_set,
};
pub use words::{Words, is_word, named, read_dotted, read_name, read_number, truth_named};
