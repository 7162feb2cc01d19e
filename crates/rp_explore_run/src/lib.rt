//! Explores every order of the program of a deck, and prints what it finds.
//!
//! In reading order:
//! - `explore`: explores every order of the program of a deck
//! - `judge`: whether the states that a search found keep the rules of a deck
//! - `answer`: what is printed of a search: the report, or the deck of an outcome
//! - `findings`: what a search and its rules have to report
//! - `shown`: what the deck of an outcome decides, and what its run has to print
//! - `trial`: runs the deck of an outcome in memory
//! - `demands`: what a rule asks of each state
//! - `report`: the text of a report
//! - `report_lines`: the lines of a report
//! - `script_of_order`: the deck of an order
//! - `wanted`: what the run of a deck has to print
//! - `order_lines`: the lines of a text
//! - `laws`: what rules mean, and which words say what was found
#![tactic(auto)]

mod answer;
mod demands;
mod explore;
mod findings;
mod judge;
mod laws;
mod order_lines;
mod report;
mod report_lines;
mod script_of_order;
mod shown;
mod trial;
mod wanted;

pub use answer::{Printed, Verdict, printed_of};
pub use demands::{AreNotAllTrue, AreTrue};
pub use explore::explore_deck;
pub use findings::{Found, Judged, found_of, order_at, report_on};
pub use judge::{judge_objects, judge_tally};
pub use laws::{a_broken_rule_is_told_first, reports_say_what_was_found, rules_mean_their_words};
pub use order_lines::lines_of;
pub use report::{Report, report_text, task_name};
pub use report_lines::{FiguresLine, HeldLine, Outcome, OutcomeText};
pub use script_of_order::{Source, order_deck};
pub use shown::{Searched, Shown, shown_by};
pub use wanted::{Wanted, is_shown};
