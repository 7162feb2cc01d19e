//! No history is a dead end: from every world a call that a task waits for can still be answered.
//!
//! Each law is the contract of a function that does nothing.
//!
//! In reading order:
//! - `calls`: a call that a task waits for, or makes next, can count, and can be answered
#![tactic(auto)]

mod calls;

pub use calls::{
    a_call_counts_later_or_the_log_is_full, a_task_can_go_on, a_waiting_call_can_be_answered,
    a_waiting_call_can_count, what_goes_on_is_a_history,
};
