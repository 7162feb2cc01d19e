//! The chart of a run: each event is a moment in it, and each message has its way through the
//! moments.
//!
//! In reading order:
//! - `chart`: the chart of the run so far, and its drawing
//! - `happened`: what happened in an event: its effect, and its node's state before and after it
//! - `stage`: on which lanes packets are drawn
//! - `view`: which packets are drawn, and in which colour
//! - `page`: the page of a chart, or its drawing alone
//! - `section`: what a page says of a moment
//! - `escape`: a text within HTML
//! - `frame`: what is constant in a page
#![tactic(auto)]

mod chart;
mod escape;
mod frame;
mod happened;
mod page;
mod section;
mod stage;
mod view;

pub use chart::Chart;
pub use happened::{Happened, NodeState, actor_of, delivered_by};
pub use page::{Form, draw_as};
pub use stage::Stage;
pub use view::{ChartRequest, View, colour_of};
