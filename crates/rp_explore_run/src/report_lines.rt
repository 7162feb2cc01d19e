//! The lines of a report. The caller ends each with a line feed.

ghost use Rattle.std.specs.Prelude.{◌≡◌, Some};
ghost use Rattle.rp_explore_run.specs.Reports.{extent_text, figures_line_of, held_line_of, outcome_text_of, reach_text};

use rp_base::{Answer, TaskId};
use rp_output::ReplyLine;
use std::fmt;

/// How far a search went: `states 219 steps 476 depth 6 complete`.
#[derive(Clone, Copy)]
pub struct FiguresLine {
    /// How many states were found.
    pub states: usize,
    /// How often an action that may happen was tried after one of the orders to them.
    pub steps: u64,
    /// The length of the longest of these orders.
    pub depth: usize,
    /// Whether they are all states that there are.
    pub is_whole: bool,
}

impl fmt::Display for FiguresLine {
    ghost output = { λ l. Some (figures_line_of l) };

    fn fmt<W: fmt::Write>(&self, f: &mut fmt::Formatter<W>) -> fmt::Result {
        let FiguresLine {
            states,
            steps,
            depth,
            is_whole,
        } = *self;
        let extent = extent(is_whole);
        write!(f, "states {states} steps {steps} depth {depth}{extent}")
    }
}

/// Whether a search found all states, after a blank.
fn extent(is_whole: bool) -> &'static str
    ensures { result.now ≡ extent_text is_whole }
{
    if is_whole { " complete" } else { " incomplete" }
}

/// What some order of what may happen leads to.
#[derive(Clone, Copy)]
pub enum Outcome {
    /// A task gets this reply to a call: `reply car 1 value 1`.
    Reply(Answer),
    /// The call of this number of a task waits where nothing is left to happen: `waits car 1`.
    Waits { task: TaskId, number: u32 },
    /// The rule of this line of the deck is broken: `line 27 broken`.
    Broken(u32),
}

/// The words for an outcome, with the name of its task.
#[derive(Clone, Copy)]
pub struct OutcomeText<'a> {
    pub task: &'a str,
    pub outcome: Outcome,
}

impl fmt::Display for OutcomeText<'_> {
    ghost output = { λ l. Some (outcome_text_of l.task.now l.outcome) };

    fn fmt<W: fmt::Write>(&self, f: &mut fmt::Formatter<W>) -> fmt::Result {
        let task = self.task;
        match self.outcome {
            Outcome::Reply(answer) => {
                let line = ReplyLine {
                    task,
                    number: answer.number,
                    reply: answer.reply,
                };
                write!(f, "{line}")
            }
            Outcome::Waits { number, .. } => write!(f, "waits {task} {number}"),
            Outcome::Broken(line) => write!(f, "line {line} broken"),
        }
    }
}

/// A rule of the deck that no state breaks: `line 27 holds`, or `line 27 holds so far` where the
/// search is not complete.
#[derive(Clone, Copy)]
pub struct HeldLine {
    pub line: u32,
    pub is_whole: bool,
}

impl fmt::Display for HeldLine {
    ghost output = { λ l. Some (held_line_of l.is_whole l.line) };

    fn fmt<W: fmt::Write>(&self, f: &mut fmt::Formatter<W>) -> fmt::Result {
        let line = self.line;
        let reach = reach(self.is_whole);
        write!(f, "line {line}{reach}")
    }
}

/// How far a rule holds that no state breaks, after a blank.
fn reach(is_whole: bool) -> &'static str
    ensures { result.now ≡ reach_text is_whole }
{
    if is_whole { " holds" } else { " holds so far" }
}
