//! Tasks get replies: whatever the task, however many nodes there are, and whichever leads.
//!
//! Each law is the contract of a function that does nothing. They say what has to be possible, so
//! that a system in which nothing is ever decided or answered is refused.
//!
//! In reading order:
//! - `replies`: histories in which calls get their replies
//! - `tasks`: what a task can do, in every world
//! - `nodes`: what a node sends, in every state
//! - `offers`: what a node offers that leads, in every state
//! - `rounds`: what a leader with a bare majority can decide, in every world
#![tactic(auto)]

mod nodes;
mod offers;
mod replies;
mod rounds;
mod tasks;

pub use nodes::{
    a_refusal_ends_a_proposal, a_refused_node_leads_again, a_waiting_caller_is_answered,
    all_nodes_are_asked,
};
pub use offers::the_first_free_item_is_offered;
pub use replies::{a_served_caller_gets_its_reply, each_task_gets_its_replies};
pub use rounds::a_leader_decides_its_next_position;
pub use tasks::{a_task_asks_again, a_task_makes_its_next_call, a_task_takes_its_reply};
