//! Nodes agree, whatever stops: at each position one action at most is decided, and what each node
//! has applied is a prefix of one order.
//!
//! Each law is the contract of a function that does nothing. It speaks of the parts of the nodes 1
//! to `nodes`, `node`, and of all packets ever sent, `sent`, that satisfy the invariant `IsSound`.
//!
//! In reading order:
//! - `packets`: what a node says is in its records
//! - `offers`: what is offered in one ballot, and above a decided one
//! - `decisions`: what is decided, and what is learned
//! - `order`: what is applied, and where that leads a machine
//! - `opening`: the invariant holds where nothing has happened
//! - `invariant`: each event keeps it
//! - `histories`: nodes agree in every history
//! - `replies`: the replies to tasks
//! - `ranges`: numbers stay within their ranges
//! - `sends`: what one actor sends
//! - `responses`: what a node does with an input
//! - `real_time`: a call that is made after another's reply takes its place after it
#![tactic(auto)]

mod decisions;
mod histories;
mod invariant;
mod offers;
mod opening;
mod order;
mod packets;
mod ranges;
mod real_time;
mod replies;
mod responses;
mod sends;

pub use decisions::{
    decisions_are_one, decisions_stay, only_asked_actions_are_decided,
    only_decided_actions_are_learned,
};
pub use histories::{
    histories_agree, histories_are_sound, only_noted_actions_are_decided, some_history_catches_up,
    some_history_decides, some_history_leads_a_range, some_history_notes, some_history_replies,
    some_history_restarts, some_history_takes_over,
};
pub use invariant::{events_keep, histories_keep, node_events_keep, task_events_keep};
pub use offers::{offers_are_one, offers_follow_decisions};
pub use opening::the_opening_is_sound;
pub use order::{
    applied_lists_are_alike, applied_lists_are_prefixes, reports_follow_the_order,
    states_are_alike, the_order_exists, the_order_grows, the_order_is_one,
};
pub use packets::packets_say_so;
pub use ranges::{
    events_keep_ranges, few_packets_are_sent, packets_are_right, records_stay_in_the_log,
    votes_are_in_the_window,
};
pub use real_time::calls_keep_real_time;
pub use replies::{
    answers_are_one, calls_count_in_order, calls_count_where_they_first_occur, events_keep_replies,
    node_events_keep_replies, only_made_calls_count, replies_answer_calls_that_count,
    replies_follow_the_order, task_events_keep_replies,
};
pub use responses::{
    a_majority_is_offered, an_answered_call_is_answered_again,
    pending_items_stay_until_they_are_over,
};
pub use sends::{nodes_send_right_packets, tasks_send_right_packets};
