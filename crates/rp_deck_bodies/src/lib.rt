//! Bodies of operations: how the lines of one are read, with their expressions and conditions.
//!
//! In reading order:
//! - `names`: what the names of an object's components denote
//! - `expressions`: reads expressions and conditions
//! - `statements`: reads the lines of a body
#![tactic(auto)]

mod expressions;
mod names;
mod statements;

pub use expressions::{bool_named, is_of_expressions, read_cond, read_expr};
pub use names::{Component, ComponentNames};
pub use statements::BodyDraft;
