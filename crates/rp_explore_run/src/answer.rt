//! What is printed of a search: the report, or the deck of an outcome.

ghost use Rattle.std.specs.Prelude.{◌≡◌, [], length, is_some, IfErr, IfOk};
ghost use Rattle.std.specs.List.{list_any};
ghost use Rattle.rp_script.specs.rp_output.specs.Faults.{IsRunFault};
ghost use Rattle.rp_explore_run.specs.Answers.{IsAnswer, IsDeckAnswer, IsDeckOf, IsReportAnswer, explored_deck, verdict_of};
ghost use Rattle.rp_script.specs.rp_model.specs.World.{part_at};
ghost use Rattle.rp_script.specs.rp_run.specs.Output.{names_of};

use crate::findings::{Found, Judged, found_of, report_on};
use crate::shown::{Searched, shown_by};
use crate::trial::shows;
use crate::{Source, order_deck, report_text};
use rp_base::Fault;
use rp_machine::Machine;
use std::alloc::{AllocError, Global};

/// What became of a search.
#[derive(Clone, Copy)]
pub enum Verdict {
    /// It is complete, and no rule is broken.
    Complete,
    /// A rule is broken.
    Broken,
    /// It is not complete, and no rule is broken so far.
    Incomplete,
    /// The deck of the outcome is printed.
    Shown,
    /// No outcome has this number: nothing is printed.
    NoOutcome,
    /// The order of the outcome is longer than the log: nothing is printed.
    TooLong,
    /// The deck of the outcome does not show it: nothing is printed.
    NotShown,
}

/// What is printed of a search.
pub struct Printed {
    pub text: Vec<u8>,
    pub verdict: Verdict,
}

// Not derived, so that to drop it is one step of a proof and not one for each of its parts.
impl Drop for Printed {
    fn drop(self) {
        let Printed {
            text: _,
            verdict: _,
        } = self;
    }
}

impl Printed {
    /// Nothing is printed.
    fn nothing(alloc: Global, verdict: Verdict) -> Self
        ensures text { result.text.items ≡ [] }
        ensures verdict { result.verdict ≡ verdict }
    {
        Printed {
            text: Vec::new(alloc),
            verdict,
        }
    }
}

/// What is printed of a search, of which the rules were judged: the report, or the deck of the
/// outcome of this number.
pub fn printed_of<M: Machine>(
    alloc: Global,
    program: &M::Program,
    searched: &Searched<'_, '_>,
    judged: &[Judged],
    deck: Option<u32>,
) -> Result<Printed, Fault>
    requires { length searched.now.explored.now.givers
        ≡ length searched.now.explored.now.replies }
    ensures printed { IfOk result (IsAnswer M.next M.answers (M.begin program.now) M.image
        (explored_deck searched.now) deck judged.now) }
    ensures fault { IfErr result IsRunFault }
{
    match deck {
        None => Ok(report_answer(alloc, searched, judged)?),
        Some(number) => deck_answer::<M>(alloc, program, searched, judged, number),
    }
}

/// The report of a search, of which the rules were judged.
fn report_answer(
    alloc: Global,
    searched: &Searched<'_, '_>,
    judged: &[Judged],
) -> Result<Printed, AllocError>
    requires { length searched.now.explored.now.givers
        ≡ length searched.now.explored.now.replies }
    ensures { IfOk result (IsReportAnswer (names_of searched.now.tasks.now)
        searched.now.explored.now judged.now) }
{
    let found = found_of(alloc, searched.explored, judged)?;
    let report = report_on(alloc, searched.explored, judged, &found)?;
    let text = report_text(alloc, searched.tasks, &report)?;
    Ok(Printed {
        text: text.into_bytes(),
        verdict: verdict_of(searched.explored.is_whole(), judged),
    })
}

/// What the search found out: whether a rule is broken, or else whether it is complete.
fn verdict_of(is_whole: bool, judged: &[Judged]) -> Verdict
    ensures { result ≡ verdict_of is_whole judged.now }
{
    if is_broken(judged) {
        Verdict::Broken
    } else if is_whole {
        Verdict::Complete
    } else {
        Verdict::Incomplete
    }
}

/// Whether a rule is broken.
fn is_broken(judged: &[Judged]) -> bool
    ensures { result ≡ list_any (λ j. is_some j.broken) judged.now }
{
    judged.iter().any(|rule| rule.broken.is_some())
}

/// The deck of the outcome of this number, if its run shows the outcome.
fn deck_answer<M: Machine>(
    alloc: Global,
    program: &M::Program,
    searched: &Searched<'_, '_>,
    judged: &[Judged],
    number: u32,
) -> Result<Printed, Fault>
    requires { length searched.now.explored.now.givers
        ≡ length searched.now.explored.now.replies }
    ensures deck { IfOk result (IsDeckAnswer M.next M.answers (M.begin program.now) M.image
        (explored_deck searched.now) judged.now number) }
    ensures fault { IfErr result IsRunFault }
{
    let found = found_of(alloc, searched.explored, judged)?;
    match found_at(&found, number) {
        Some(found) => deck_of::<M>(alloc, program, searched, &found),
        None => Ok(Printed::nothing(alloc, Verdict::NoOutcome)),
    }
}

/// What was found of this number, from 1.
fn found_at(found: &[Found], number: u32) -> Option<Found>
    ensures { result ≡ part_at found.now number }
{
    let place = (number as usize).checked_sub(1)?;
    found.get(place).copied()
}

/// The deck of what was found, if its run shows it.
fn deck_of<M: Machine>(
    alloc: Global,
    program: &M::Program,
    searched: &Searched<'_, '_>,
    found: &Found,
) -> Result<Printed, Fault>
    ensures deck { IfOk result (IsDeckOf M.next M.answers (M.begin program.now) M.image
        (explored_deck searched.now) found.now) }
    ensures fault { IfErr result IsRunFault }
{
    let shown = shown_by::<M>(alloc, program, searched, found)?;
    if shown.order.len() > usize::from(searched.positions) {
        return Ok(Printed::nothing(alloc, Verdict::TooLong));
    }
    let text = order_deck(alloc, &searched.source, &shown.order)?;
    if shows(alloc, &text, &shown.wanted)? {
        Ok(Printed {
            text,
            verdict: Verdict::Shown,
        })
    } else {
        Ok(Printed::nothing(alloc, Verdict::NotShown))
    }
}
