//! What a world of nodes and tasks is, and what an event does to it: definitions, and laws of them.
//!
//! In reading order:
//! - `interrupt`: an occurrence of an interrupt
//! - `event`: what can happen in a world
//! - `effect`: the result of an event, as a step returns it
//! - `plan`: what a node decided for an input, before anything of it is done
//! - `right`: actions whose numbers are known to be within their ranges
//! - `laws`: what every event keeps, at any machine
#![tactic(auto)]

mod effect;
mod event;
mod interrupt;
mod laws;
mod plan;
mod right;

pub use effect::{Dropped, Effect};
pub use event::{Event, Step};
pub use interrupt::Interrupt;
pub use laws::{
    applied_grows, asks_for_what_is_missing, cuts_send_nothing, no_event_is_refused_by_a_device,
    nothing_is_decided_at_first, old_votes_change_nothing, restarts_begin_with_the_records,
    stops_leave_the_records, what_is_learned_is_answered, worlds_grow,
};
pub use plan::{CountedPromise, CountedRange, Plan, RangePromise};
pub use right::RightAction;
