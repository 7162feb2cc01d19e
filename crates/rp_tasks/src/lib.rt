//! What a task keeps of its calls, and a link that loses packets.
//!
//! In reading order:
//! - `stub`: what a task keeps of its calls
//! - `line`: a link that loses packets, doubles them and changes their order
#![tactic(auto)]

mod line;
mod stub;

pub use line::{FaultLine, gives_what_it_took};
pub use stub::Stub;
