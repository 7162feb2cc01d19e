//! The language in which the bodies of protected operations are written.
//!
//! In reading order:
//! - `components`: the components of a protected object
//! - `expression`: expressions and conditions
//! - `statement`: statements, and the bodies that are made of them
//! - `laws`: what follows from the meaning of bodies alone
#![tactic(auto)]

mod components;
mod expression;
mod laws;
mod statement;

pub use components::{Components, Limits, MOST_OF_A_KIND, Ranged};
pub use expression::{Cond, Expr, MOST_EXPRESSION_NODES, truth, value};
pub use laws::{bodies_keep_booleans, bodies_keep_ranges};
pub use statement::{MOST_DEPTH, MOST_STATEMENTS, Outcome, Stmt, check, run};
