//! Explores every order of the program of a deck.

ghost use Rattle.std.specs.Prelude.{◌≡◌, map, max, pos, replicate, IfErr, IfOk, OnErr};
ghost use Rattle.std.specs.Arc.{arc_value};
ghost use Rattle.rp_explore_run.specs.Answers.{explored_deck};
ghost use Rattle.rp_explore_run.specs.Explores.{ExploreBegins, Explores, FailsExplore, IsExplored, IsExploredFor, asked_deck, head_of};
ghost use Rattle.rp_explore_run.specs.Judging.{keeps, no_truths};
ghost use Rattle.rp_script.specs.rp_machine.specs.TallyRule.{tally_answers, tally_image, tally_next};
ghost use Rattle.rp_script.specs.rp_object.specs.Image.{objects_image};
ghost use Rattle.rp_script.specs.rp_object.specs.State.{first_state};
ghost use Rattle.rp_script.specs.rp_object.specs.Step.{objects_answers, objects_next};
ghost use Rattle.rp_explore.specs.rp_orders.specs.Orders.{AreRight};
ghost use Rattle.rp_script.specs.rp_output.specs.Faults.{IsRunFault};

use crate::answer::{Printed, Verdict, printed_of};
use crate::judge::{judge_objects, judge_tally};
use crate::shown::Searched;
use crate::{Source, lines_of};
use rp_base::{Action, Fault};
use rp_deck::{DeckProgram, Line};
use rp_explore::{Explored, explore};
use rp_explore_deck::{ExploreRequest, PlacedRule, Plan, PlannedAction, read_plan};
use rp_machine::{Tally, TallyProgram};
use rp_object::{Objects, Program};
use rp_script::{read_whole, write_out, write_whole};
use std::alloc::{AllocError, Global};
use std::io::{Read, Write};

/// Explores every order of the deck that the reader holds, and prints a report, or the deck of an
/// outcome. If its bytes mean no deck for a search, nothing is written, and the fault has the first
/// bad line and the first reason on it. Any other fault is `OutOfMemory` or `Io`, after which
/// nothing or a prefix of what is to be printed was written.
pub fn explore_deck<R: Read, W: Write>(
    alloc: Global,
    reader: &mut R,
    request: ExploreRequest,
    writer: &mut W,
) -> Result<Verdict, Fault>
    // claim (printed): What is printed of the search over the orders of a deck is of the deck that all
    //   bytes of the reader mean: the report, with exactly the replies that the orders that were found
    //   give, the tasks that wait for ever after one of them and the rules that are broken after one,
    //   and `complete` exactly if they lead to every state; or the deck of an outcome, whose own run
    //   prints the reply, or ends with the state in which the task waits or the rule is broken
    // claim (begun, fault): If the bytes mean no deck for a search, nothing is written, and the fault
    //   has the first bad line and the first reason on it. After every other fault nothing was
    //   written, or a prefix of what is to be printed
    ensures printed { IfOk result (Explores request (R.remaining reader.old)
        (W.contents writer.old) (W.contents writer.new)) }
    ensures begun { OnErr result (ExploreBegins request (R.remaining reader.old)
        (W.contents writer.old) (W.contents writer.new)) }
    ensures fault { IfErr result (FailsExplore (R.remaining reader.old)
        (W.contents writer.old) (W.contents writer.new)) }
{
    let text = read_whole(alloc, reader)?;
    let plan = read_plan(alloc, &text)?;
    let lines = lines_of(alloc, &text)?;
    let printed = explore_plan(alloc, &plan, &lines, request)?;
    write_whole(writer, &printed.text)?;
    write_out(writer)?;
    Ok(printed.verdict)
}

/// A deck, what may happen in it, and the request.
#[derive(Clone, Copy)]
struct Asked<'a> {
    plan: &'a Plan,
    may: &'a [Action],
    source: Source<'a>,
    request: ExploreRequest,
}

/// Explores every order of a deck of these lines.
fn explore_plan(
    alloc: Global,
    plan: &Plan,
    lines: &[&[u8]],
    request: ExploreRequest,
) -> Result<Printed, Fault>
    requires { AreRight (map (λ p. p.action) plan.now.actions.items) }
    ensures printed { IfOk result
        (IsExplored plan.now (map (λ line. line.now) lines.now) request) }
    ensures fault { IfErr result IsRunFault }
{
    let may = may_of(alloc, &plan.actions)?;
    let rules = rule_lines(alloc, &plan.rules)?;
    let source = Source {
        lines,
        head: head_of(lines.len(), &plan.deck.script),
        rules: &rules,
        planned: &plan.actions,
    };
    let asked = Asked {
        plan,
        may: &may,
        source,
        request,
    };
    match &plan.deck.program {
        DeckProgram::Tally(program) => explore_tally(alloc, program, &asked),
        DeckProgram::Objects(program) => explore_objects(alloc, program, &asked),
    }
}

/// Explores every order of a deck of a tally.
fn explore_tally(alloc: Global, program: &TallyProgram, asked: &Asked<'_>) -> Result<Printed, Fault>
    requires { AreRight asked.now.may.now }
    ensures printed { IfOk result (IsExploredFor tally_next tally_answers
        (replicate program.now (pos 0)) tally_image no_truths asked.now) }
    ensures fault { IfErr result IsRunFault }
{
    let explored = explore::<Tally>(
        alloc,
        program,
        asked.may,
        &asked.plan.guards,
        most_states(asked.request),
    )?;
    let judged = judge_tally::<Tally>(alloc, program, &explored, &asked.plan.rules)?;
    let searched = searched_of(asked, &explored);
    printed_of::<Tally>(alloc, program, &searched, &judged, asked.request.deck)
}

/// Explores every order of a deck of protected objects.
fn explore_objects(alloc: Global, program: &Program, asked: &Asked<'_>) -> Result<Printed, Fault>
    requires { AreRight asked.now.may.now }
    ensures printed { IfOk result (IsExploredFor objects_next objects_answers
        (first_state (arc_value program.now.declarations)) objects_image keeps asked.now) }
    ensures fault { IfErr result IsRunFault }
{
    let explored = explore::<Objects>(
        alloc,
        program,
        asked.may,
        &asked.plan.guards,
        most_states(asked.request),
    )?;
    let judged = judge_objects(alloc, program, &explored, &asked.plan.rules)?;
    let searched = searched_of(asked, &explored);
    printed_of::<Objects>(alloc, program, &searched, &judged, asked.request.deck)
}

/// The search over what was asked for.
fn searched_of<'a, 'e>(asked: &Asked<'a>, explored: &'e Explored) -> Searched<'a, 'e>
    ensures { explored_deck result ≡ asked_deck asked.now explored.now }
{
    Searched {
        tasks: &asked.plan.deck.tasks,
        may: asked.may,
        explored,
        source: asked.source,
        positions: asked.plan.deck.config.max_positions,
    }
}

/// At most how many states are found.
fn most_states(request: ExploreRequest) -> usize
    ensures { result ≡ max 1 request.states }
{
    if request.states == 0 {
        1
    } else {
        request.states as usize
    }
}

/// The actions that may happen.
fn may_of(alloc: Global, planned: &[PlannedAction]) -> Result<Vec<Action>, AllocError>
    ensures { IfOk result (λ may. may.items ≡ map (λ p. p.action) planned.now) }
{
    let mut may = Vec::new(alloc);
    for one in planned {
        may.push(one.action)?;
    }
    Ok(may)
}

/// The numbers of the lines of rules.
fn rule_lines(alloc: Global, rules: &[PlacedRule]) -> Result<Vec<u32>, AllocError>
    ensures { IfOk result (λ lines. lines.items ≡ map (λ placed. placed.line) rules.now) }
{
    let mut lines = Vec::new(alloc);
    for placed in rules {
        lines.push(placed.line)?;
    }
    Ok(lines)
}

/// How many lines there are before the first one of the script, or all of n.
fn head_of(count: usize, script: &[Line]) -> usize
    ensures { result ≡ head_of count script.now }
{
    match script.first() {
        Some(line) => (line.number as usize).saturating_sub(1),
        None => count,
    }
}
