//! All protected objects of an Ada program, with their tasks, interrupts and timing events, as a
//! machine that a log drives.
//!
//! In reading order:
//! - `program`: what is declared before anything runs
//! - `image`: the text that shows the state of a program
//! - `objects`: a program that runs
//! - `machine`: a program that runs, as a machine that a log drives
//! - `laws`: what follows from the rules of a program alone
#![tactic(auto)]

mod image;
mod laws;
mod machine;
mod objects;
mod program;

pub use laws::{
    a_tick_fires_what_is_due, actions_account_for_callers, logs_lead_to_states_of_the_program,
    the_clock_is_the_greatest_tick,
};
pub use objects::Objects;
pub use program::{
    Declarations, Handler, MOST_PRIORITY, MOST_TIMERS, ObjectDeclaration, Profile, Program,
    TimingEvent,
};
