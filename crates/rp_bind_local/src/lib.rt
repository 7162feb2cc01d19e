//! The body of a package of Ada in which the objects of a deck are protected objects on one machine.
//!
//! In reading order:
//! - `body`: the body of the package of what a deck declares
//! - `objects`: a protected object
//! - `calls`: which operation a call of a number is
//! - `operations`: the operation that a name denotes
//! - `statements`: the statements of a body
//! - `expressions`: expressions and conditions
#![tactic(auto)]

mod body;
mod calls;
mod expressions;
mod objects;
mod operations;
mod statements;

pub use body::local_body;
pub use operations::{Operation, operation_at};
