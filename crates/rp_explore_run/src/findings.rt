//! What a search and its rules have to report.

ghost use Rattle.std.specs.Prelude.{◌≡◌, ◌++◌, [], ◌∷◌, IfOk, length, map, max};
ghost use Rattle.rp_explore.specs.rp_orders.specs.Orders.{AreRight};
ghost use Rattle.rp_script.specs.rp_machine.specs.Asked.{last_number};
ghost use Rattle.rp_explore.specs.Listed.{order_at};
ghost use Rattle.rp_explore_run.specs.Findings.{IsReportOf, broken_by, broken_of, found_of, given_of, held_by, held_of, waits_at, waits_of};

use crate::{FiguresLine, Outcome, Report};
use rp_base::{Action, MOST_TASKS, TaskId};
use rp_explore::Explored;
use std::alloc::{AllocError, Global};

/// A rule of the deck, by its line, and the place of the first order that breaks it, if one does.
#[derive(Clone, Copy)]
pub struct Judged {
    pub line: u32,
    pub broken: Option<usize>,
}

/// An outcome, and what leads to it.
#[derive(Clone, Copy)]
pub struct Found {
    pub outcome: Outcome,
    /// The place of the order.
    pub place: usize,
    /// The index of the action that gives the reply after it, at a reply.
    pub action: Option<usize>,
}

/// What is to be reported of a search and its rules: how far it went; each reply that is given, each
/// task that may wait for ever and each rule that is broken; and each rule that is not.
pub fn report_on(
    alloc: Global,
    explored: &Explored,
    judged: &[Judged],
    found: &[Found],
) -> Result<Report, AllocError>
    requires { found.now ≡ found_of explored.now judged.now }
    ensures { IfOk result (IsReportOf explored.now judged.now) }
{
    Ok(Report {
        figures: FiguresLine {
            states: explored.len(),
            steps: explored.steps(),
            depth: explored.depth(),
            is_whole: explored.is_whole(),
        },
        outcomes: outcomes_of(alloc, found)?,
        held: held_of(alloc, judged)?,
    })
}

/// The outcomes of what was found.
fn outcomes_of(alloc: Global, found: &[Found]) -> Result<Vec<Outcome>, AllocError>
    ensures { IfOk result (λ outcomes. outcomes.items ≡ map (λ f. f.outcome) found.now) }
{
    let mut outcomes = Vec::new(alloc);
    for one in found {
        outcomes.push(one.outcome)?;
    }
    Ok(outcomes)
}

/// What was found, in the order of the outcomes' numbers: the replies, the tasks that may wait for
/// ever, and the rules that are broken.
pub fn found_of(
    alloc: Global,
    explored: &Explored,
    judged: &[Judged],
) -> Result<Vec<Found>, AllocError>
    requires { length explored.now.givers ≡ length explored.now.replies }
    ensures { IfOk result (λ found. found.items ≡ found_of explored.now judged.now) }
{
    let mut found = Vec::new(alloc);
    push_replies(&mut found, explored)?;
    push_waits(alloc, &mut found, explored)?;
    push_broken(&mut found, judged)?;
    Ok(found)
}

/// Adds the replies.
fn push_replies(found: &mut Vec<Found>, explored: &Explored) -> Result<(), AllocError>
    requires { length explored.now.givers ≡ length explored.now.replies }
    ensures { IfOk result (λ _. found.new.items
        ≡ found.old.items ++ given_of explored.now.replies explored.now.givers) }
{
    let replies = explored.replies();
    for index in 0..replies.len() {
        let giver = explored.giver(index);
        let outcome = Outcome::Reply(replies[index]);
        let action = Some(giver.action);
        found.push(Found {
            outcome,
            place: giver.place,
            action,
        })?;
    }
    Ok(())
}

/// Adds the tasks that may wait for ever.
fn push_waits(alloc: Global, found: &mut Vec<Found>, explored: &Explored) -> Result<(), AllocError>
    ensures { IfOk result (λ _. found.new.items ≡ found.old.items ++ waits_of explored.now) }
{
    for index in 0..MOST_TASKS {
        if let Some(task) = TaskId::new(index + 1) {
            push_wait(alloc, found, explored, task)?;
        }
    }
    Ok(())
}

/// Adds a task, if it may wait for ever, with the number of its call that waits.
fn push_wait(
    alloc: Global,
    found: &mut Vec<Found>,
    explored: &Explored,
    task: TaskId,
) -> Result<(), AllocError>
    ensures { IfOk result (λ _. found.new.items
        ≡ found.old.items ++ waits_at explored.now task) }
{
    let Some(place) = explored.waits(task) else {
        return Ok(());
    };
    let order = order_at(alloc, explored, place)?;
    let number = last_number(&order, task);
    Ok(found.push(Found {
        outcome: Outcome::Waits { task, number },
        place,
        action: None,
    })?)
}

/// The order at a place, or the empty one if there is none.
pub fn order_at(alloc: Global, explored: &Explored, place: usize) -> Result<Vec<Action>, AllocError>
    ensures value { IfOk result (λ order. order.items ≡ order_at explored.now.orders place) }
    ensures right { IfOk result (λ order. AreRight order.items) }
{
    if place < explored.len() {
        explored.order(alloc, place)
    } else {
        Ok(Vec::new(alloc))
    }
}

/// The number of the last call of the task in an order, 0 if it makes none.
fn last_number(order: &[Action], task: TaskId) -> u32
    ensures { result ≡ last_number task order.now }
{
    let mut last = 0;
    for action in order {
        last = greater(last, number_by(action, task));
    }
    last
}

/// The greater of two numbers.
fn greater(one: u32, other: u32) -> u32
    ensures { result ≡ max one other }
{
    one.max(other)
}

/// The number of the call, if it is one of the task, or 0.
fn number_by(action: &Action, task: TaskId) -> u32
    ensures { result ≡ last_number task (action.now ∷ []) }
{
    match *action {
        Action::Call {
            task: caller,
            number,
            ..
        } if caller == task => number,
        _ => 0,
    }
}

/// Adds the rules that are broken.
fn push_broken(found: &mut Vec<Found>, judged: &[Judged]) -> Result<(), AllocError>
    ensures { IfOk result (λ _. found.new.items ≡ found.old.items ++ broken_of judged.now) }
{
    for rule in judged {
        push_if_broken(found, rule)?;
    }
    Ok(())
}

/// Adds the rule, if it is broken.
fn push_if_broken(found: &mut Vec<Found>, rule: &Judged) -> Result<(), AllocError>
    ensures { IfOk result (λ _. found.new.items ≡ found.old.items ++ broken_by rule.now) }
{
    if let Some(place) = rule.broken {
        found.push(Found {
            outcome: Outcome::Broken(rule.line),
            place,
            action: None,
        })?;
    }
    Ok(())
}

/// The lines of the rules that are not broken.
fn held_of(alloc: Global, judged: &[Judged]) -> Result<Vec<u32>, AllocError>
    ensures { IfOk result (λ lines. lines.items ≡ held_of judged.now) }
{
    let mut lines = Vec::new(alloc);
    for rule in judged {
        push_if_held(&mut lines, rule)?;
    }
    Ok(lines)
}

/// Adds the line of the rule, if it is not broken.
fn push_if_held(lines: &mut Vec<u32>, rule: &Judged) -> Result<(), AllocError>
    ensures { IfOk result (λ _. lines.new.items ≡ lines.old.items ++ held_by rule.now) }
{
    if rule.broken.is_none() {
        lines.push(rule.line)?;
    }
    Ok(())
}
