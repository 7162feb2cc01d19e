//! No installation is a dead end: whatever callers did with nodes and tasks by handle, by the rules,
//! a call that a task waits for can still be answered. Laws, no code that runs.
//!
//! In reading order:
//! - `calls`: a call that a task by handle waits for, or makes next, can count, and can be answered
#![tactic(auto)]

mod calls;

pub use calls::{
    a_call_by_handle_can_be_answered, a_call_by_handle_can_count, a_task_by_handle_can_go_on,
    devices_hold_records,
};
