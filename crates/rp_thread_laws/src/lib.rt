//! Laws of a program in threads: whose box is emptied and who is asked in which turn, what a link
//! passes on, which calls, notes and figures a run has, and what the audit knows. No code that
//! runs.
//!
//! In reading order:
//! - `turns`: whose box is emptied, who is asked, and who leads in which turn
//! - `links`: what the link of a party holds and passes on
//! - `calls`: the calls of a task among the events of a run
//! - `notes`: the interrupts and ticks that nodes note before it
//! - `figures`: how a run went, in numbers
//! - `reports`: what the audit knows of a node, and the boxes
#![tactic(auto)]

mod calls;
mod figures;
mod links;
mod notes;
mod reports;
mod turns;

pub use calls::each_call_is_made_by_its_task;
pub use figures::figures_are_sums;
pub use links::{a_link_passes_on_what_it_holds, each_party_has_a_link_of_its_own};
pub use notes::notes_are_those_of_the_model;
pub use reports::{all_is_known_of_each_node, boxes_are_apart, reports_add_up};
pub use turns::{
    a_task_asks_every_node, each_node_leads_at_its_own_times, every_box_is_emptied,
    turns_count_by_their_kinds,
};
