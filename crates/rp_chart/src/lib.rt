//! A drawing of the run of a deck's script.
//!
//! In reading order:
//! - `walk`: runs the lines of a script, and charts what happens from its events and their effects
//! - `scene`: how a script is run and drawn, and what is drawn beside each moment
//! - `prospect`: what is known before an event, and what happened in it
//! - `labels`: the words of a drawing
//! - `chart`: draws the run of a deck
#![tactic(auto)]

mod chart;
mod labels;
mod prospect;
mod scene;
mod walk;

pub use chart::{Outcome, draw_script};
pub use scene::Scene;
pub use walk::draw_lines;
