//! The rules of protected objects in the words of the Ada Reference Manual, as laws of the
//! definitions that the code meets, for every program and every state; and worked examples of these
//! rules. No code that runs.
//!
//! In reading order:
//! - `bodies`: what expressions, conditions and statements do
//! - `objects`: what one protected object does with calls, its entry queues and events
//! - `programs`: what a program does with calls, timing events and interrupts
//! - `counting`: which actions of a log count
//!
//! Worked examples:
//! - `gate`: an entry that waits for its barrier
//! - `gates`: two entries, and queues of several calls
//! - `handlers`: timing events and interrupts
//! - `numbered_calls`: actions that do not count
//! - `images`: the lines that show a state
//! - `numbers`: values beyond 64 signed bits
#![tactic(auto)]

mod bodies;
mod counting;
mod gate;
mod gates;
mod handlers;
mod images;
mod numbered_calls;
mod numbers;
mod objects;
mod programs;

pub use bodies::{
    assignments_keep_to_their_range, conditions_choose, conditions_mean_their_words,
    expressions_mean_their_words, statements_run_in_order,
};
pub use counting::{calls_count_in_turn, occurrences_count_upwards};
pub use gate::{
    a_barrier_left_true_by_an_exception_lets_the_caller_pass,
    a_caller_above_the_ceiling_is_refused, a_full_queue_refuses_a_further_call,
    a_served_caller_gets_its_own_exception, the_gate_opens_for_the_waiting_caller,
};
pub use gates::{a_queue_of_two_refuses_a_third, barriers_are_evaluated_again_for_each_caller};
pub use handlers::{
    a_handler_has_the_argument_zero, a_passed_time_fires_at_the_next_tick,
    an_interrupt_lets_the_waiting_caller_pass, events_fire_once_in_order, interrupts_count_upwards,
};
pub use images::{boxes_are_shown, gates_are_shown};
pub use numbered_calls::{calls_out_of_turn_change_nothing, occurrences_and_ticks_count};
pub use numbers::values_are_exact_until_they_are_returned;
pub use objects::{
    barriers_admit_or_queue, functions_change_nothing, handlers_run_without_a_caller,
    procedures_run_for_their_caller, the_first_caller_of_the_first_open_entry_is_served,
};
pub use programs::{
    ceilings_bound_the_callers, interrupts_run_their_handlers, profiles_bound_the_queues,
    timing_events_are_set_and_cancelled, what_is_not_declared_is_refused,
};
