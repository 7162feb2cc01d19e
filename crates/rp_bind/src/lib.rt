//! Packages of Ada and a header of C for what a deck declares.
//!
//! In reading order:
//! - `deck_binding`: packages for the deck of a text
//! - `names`: which names a package may have
//! - `packages`: the text of packages, by the names and the numbers of a deck
//! - `arguments`: the range of the arguments of an operation
//! - `lines`: the lines of packages
#![tactic(auto)]

mod arguments;
mod deck_binding;
mod lines;
mod names;
mod packages;

pub use deck_binding::{Binding, bind};
pub use lines::Language;
