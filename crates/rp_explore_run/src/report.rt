//! The text of a report.

ghost use Rattle.std.specs.Prelude.{◌≡◌, ◌++◌, IfOk, map, string_bytes};
ghost use Rattle.indexmap.specs.IndexMap.{keys};
ghost use Rattle.rp_output.specs.Trace.{task_name};
ghost use Rattle.rp_explore_run.specs.Reports.{held_text, name_for, outcome_line, outcomes_text, report_text_of};

use crate::report_lines::{FiguresLine, HeldLine, Outcome, OutcomeText};
use indexmap::IndexMap;
use rp_base::TaskId;
use std::alloc::{AllocError, Global};

/// What is printed of a search.
#[derive(Drop)]
pub struct Report {
    pub figures: FiguresLine,
    /// What some order leads to, numbered from 1.
    pub outcomes: Vec<Outcome>,
    /// The lines of the rules that no state breaks.
    pub held: Vec<u32>,
}

/// The text of a report on a program whose tasks have these names: the figures, each outcome after
/// its number, and each rule that is not broken.
pub fn report_text<T>(
    alloc: Global,
    tasks: &IndexMap<String, T>,
    report: &Report,
) -> Result<String, AllocError>
    // claim: What is printed of a search is its figures, each outcome on a line after its number,
    //   and each rule that is not broken: as one that holds where the search is complete, and as one
    //   that holds so far where it is not
    ensures { IfOk result (λ text. string_bytes text
        ≡ report_text_of (map string_bytes (keys tasks.now)) report.now) }
{
    let figures = report.figures;
    let mut text = String::new(alloc);
    writeln!(text, "{figures}")?;
    write_outcomes(&mut text, tasks, &report.outcomes)?;
    write_held(&mut text, figures.is_whole, &report.held)?;
    Ok(text)
}

/// Writes each outcome after its number.
fn write_outcomes<T>(
    text: &mut String,
    tasks: &IndexMap<String, T>,
    outcomes: &[Outcome],
) -> Result<(), AllocError>
    ensures { IfOk result (λ _. string_bytes text.new ≡ string_bytes text.old
        ++ outcomes_text (map string_bytes (keys tasks.now)) 1 outcomes.now) }
{
    for (place, outcome) in outcomes.iter().enumerate() {
        write_outcome(text, tasks, place + 1, outcome)?;
    }
    Ok(())
}

/// Writes an outcome after its number.
fn write_outcome<T>(
    text: &mut String,
    tasks: &IndexMap<String, T>,
    number: usize,
    outcome: &Outcome,
) -> Result<(), AllocError>
    ensures { IfOk result (λ _. string_bytes text.new ≡ string_bytes text.old
        ++ outcome_line (map string_bytes (keys tasks.now)) number outcome.now) }
{
    let task = name_for(tasks, outcome);
    let outcome = OutcomeText {
        task,
        outcome: *outcome,
    };
    writeln!(text, "{number} {outcome}")
}

/// The name of the task of an outcome, or an empty text.
fn name_for<'a, T>(tasks: &'a IndexMap<String, T>, outcome: &Outcome) -> &'a str
    ensures { result.now ≡ name_for (map string_bytes (keys tasks.now)) outcome.now }
{
    match *outcome {
        Outcome::Reply(answer) => task_name(tasks, answer.task),
        Outcome::Waits { task, .. } => task_name(tasks, task),
        Outcome::Broken(_) => "",
    }
}

/// The name of a task, or an empty text if there is none.
pub fn task_name<T>(tasks: &IndexMap<String, T>, task: TaskId) -> &str
    ensures { result.now ≡ task_name (map string_bytes (keys tasks.now)) task }
{
    match tasks.get_index(usize::from(task.get()) - 1) {
        Some((name, _)) => name.as_str(),
        None => "",
    }
}

/// Writes each rule that is not broken.
fn write_held(text: &mut String, is_whole: bool, lines: &[u32]) -> Result<(), AllocError>
    ensures { IfOk result (λ _. string_bytes text.new
        ≡ string_bytes text.old ++ held_text is_whole lines.now) }
{
    for line in lines {
        let held = HeldLine {
            line: *line,
            is_whole,
        };
        writeln!(text, "{held}")?;
    }
    Ok(())
}
