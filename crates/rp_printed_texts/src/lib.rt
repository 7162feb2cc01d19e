//! Each line that a run prints is read back, by a reader that is written from the list of these lines
//! and not from what prints them: laws, no code that runs.
//!
//! In reading order:
//! - `laws`: each printed line is read back
//! - `items`: the text of each item of a run is read back as that item
//! - `names`: whose name is printed
#![tactic(auto)]

mod items;
mod laws;
mod names;

pub use items::items_are_read_back;
pub use laws::{
    lines_of_nodes_are_read_back, lines_of_packets_are_read_back, lines_of_steps_are_read_back,
    replies_are_read_back,
};
pub use names::tasks_have_their_own_names;
