//! One protected object of an Ada program: its components, its operations and its entry queues.
//!
//! In reading order:
//! - `operations`: the operations of a protected object
//! - `state`: the state of a protected object, and the servicing of its entry queues
//! - `object`: a protected object
//! - `laws`: what follows from the rules of a protected object alone
#![tactic(auto)]

mod laws;
mod object;
mod operations;
mod state;

pub use laws::{
    actions_account_for_callers, actions_are_their_results, actions_have_one_end,
    actions_keep_booleans, actions_keep_ranges, servicing_has_one_end,
};
pub use object::Object;
pub use operations::{Entry, Function, LONGEST_QUEUE, Operations, of_index};
pub use state::{CallOutcome, Done, Queue, Waiting};
