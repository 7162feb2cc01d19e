//! Protected objects of a deck: how the lines of one are read.
//!
//! In reading order:
//! - `objects`: reads the lines that belong to an object
//! - `names`: what the names of an object's operations denote
#![tactic(auto)]

mod names;
mod objects;

pub use names::{Index, OperationName, OperationNames};
pub use objects::ObjectDraft;
