//! Nodes and tasks for a caller in C or Ada: requests as bytes in, answers as bytes out. The caller
//! keeps the device and sends the packets.
//!
//! In reading order:
//! - `refusal`: why a request is refused
//! - `request`: a caller's request to a node, as bytes
//! - `buffer`: answers that are put into a caller's buffer
//! - `tail`: what a device holds after its whole records
//! - `opening`: a node that is opened over a caller's bytes
//! - `not_taken`: what a step of a node did not take
//! - `node`: a node that answers requests
//! - `timing`: calls that cannot count at a node yet, and interrupts that are over
//! - `questions`: what it answers about its pending items and its tasks, and what it is to do next
//! - `ended`: what a station asks of a node whose log has ended
//! - `task_request`: a caller's request to a task, as bytes
//! - `task`: a task that answers requests
//! - `request_texts`: each request has a text, and reading it gives the request back: laws
//! - `refused_texts`: bytes of another kind or length ask for nothing: laws
#![tactic(auto)]

mod buffer;
mod ended;
mod node;
mod not_taken;
mod opening;
mod questions;
mod refusal;
mod refused_texts;
mod request;
mod request_texts;
mod tail;
mod task;
mod task_request;
mod timing;

pub use buffer::Lengths;
pub use node::{HandleNode, STEP_BYTES};
pub use not_taken::NotTaken;
pub use opening::Opened;
pub use refusal::Refusal;
pub use refused_texts::{no_other_text_is_a_node_request, no_other_text_is_a_task_request};
pub use request_texts::{node_requests_are_read_back, task_requests_are_read_back};
pub use tail::Tail;
pub use task::{TASK_BYTES, Task};
