//! A machine and a device as a reader of this project may write them, each with the laws of its
//! trait proved (docs/BRING_YOUR_OWN.md).
//!
//! In reading order:
//! - `program`: what is declared of a counter
//! - `counter`: a machine, a counter with a bound and a reset
//! - `mirrored`: a device, two copies on two devices
#![tactic(auto)]

mod counter;
mod mirrored;
mod program;

pub use counter::BoundedCounter;
pub use mirrored::MirroredDevice;
pub use program::CounterProgram;
