//! Draws what happened in a run, moment by moment, as SVG.
//!
//! In reading order:
//! - `sketch`: the moments of a run, and the way of each packet through them
//! - `page`: where lanes and lines are on a page
//! - `words`: words within a drawing
//! - `elements`: the elements of a drawing, as text
//! - `style`: how the elements look
//! - `legend`: what the signs of a drawing mean
//! - `stops`: how the lane of a stopped node looks
//! - `drawing`: the drawing of a sketch
#![tactic(auto)]

mod drawing;
mod elements;
mod legend;
mod page;
mod sketch;
mod stops;
mod style;
mod words;

pub use drawing::{Lane, draw, moment_y};
pub use sketch::{Arrival, End, Ending, Kind, Label, Mark, Moment, Row, Sending, Sketch, Way};
pub use words::Words;
