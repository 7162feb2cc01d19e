//! The lines that a run prints, and how they are written.
//!
//! In reading order:
//! - `printed`: the lines that a run prints
//! - `trace`: the line of a trace for a packet
//! - `fault_message`: the line that is printed for a fault
//! - `short_line`: short lines, put together in place
//! - `stream`: writes what a run prints
//! - `ending`: how a program ends, and what it reports
#![tactic(auto)]

mod ending;
mod fault_message;
mod printed;
mod short_line;
mod stream;
mod trace;

pub use ending::{Ending, NoRun, Streams, fail, refuse, status};
pub use fault_message::{FaultMessage, is_refusal, tell};
pub use printed::{
    AgreedLine, DrainLimitLine, NodeLine, NodeState, RefusedLine, ReplyLine, ReplyText,
};
pub use stream::{is_interrupted, print, print_reply_line, report, write_out, write_whole};
pub use trace::{BodyText, PartyText, TraceLine};
