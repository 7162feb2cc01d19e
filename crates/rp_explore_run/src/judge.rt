//! Whether the states that a search found keep the rules of a deck.

ghost use Rattle.std.specs.Prelude.{◌≡◌, IfOk};
ghost use Rattle.std.specs.List.{AllZip};
ghost use Rattle.std.specs.Arc.{arc_value};
ghost use Rattle.rp_script.specs.rp_object.specs.State.{first_state};
ghost use Rattle.rp_script.specs.rp_object.specs.Step.{objects_answers, objects_next};
ghost use Rattle.rp_explore_run.specs.Judging.{IsJudged, IsJudgedBy, free_broken_by, keeps, no_truths};

use crate::findings::Judged;
use crate::{AreNotAllTrue, AreTrue};
use rp_explore::{Explored, first_broken};
use rp_explore_deck::{PlacedRule, Rule};
use rp_machine::Machine;
use rp_object::{Objects, Program};
use std::alloc::{AllocError, Global};

/// Judges the rules of a deck of protected objects.
pub fn judge_objects(
    alloc: Global,
    program: &Program,
    explored: &Explored,
    rules: &[PlacedRule],
) -> Result<Vec<Judged>, AllocError>
    // claim: Each rule of a deck is judged: it is broken exactly if it is after one of the orders that
    //   a search lists, for a `finally` rule one after which nothing is left to happen, and by the
    //   first of them
    ensures { IfOk result (λ judged. AllZip (IsJudged objects_next objects_answers
        (first_state (arc_value program.now.declarations)) keeps explored.now)
        rules.now judged.items) }
{
    let mut judged = Vec::new(alloc);
    for placed in rules {
        let broken = broken_by(alloc, program, explored, &placed.rule)?;
        judged.push(Judged {
            line: placed.line,
            broken,
        })?;
    }
    Ok(judged)
}

/// The place of the first order that breaks a rule, if one does.
fn broken_by(
    alloc: Global,
    program: &Program,
    explored: &Explored,
    rule: &Rule,
) -> Result<Option<usize>, AllocError>
    ensures { IfOk result (IsJudgedBy objects_next objects_answers
        (first_state (arc_value program.now.declarations)) keeps explored.now rule.now) }
{
    match rule {
        Rule::Never(truths) => {
            let property = AreNotAllTrue {
                truths: truths.as_slice(),
            };
            first_broken::<Objects, AreNotAllTrue<'_>>(alloc, program, explored, &property, false)
        }
        Rule::Always(truths) => {
            let property = AreTrue {
                truths: truths.as_slice(),
            };
            first_broken::<Objects, AreTrue<'_>>(alloc, program, explored, &property, false)
        }
        Rule::Finally(truths) => {
            let property = AreTrue {
                truths: truths.as_slice(),
            };
            first_broken::<Objects, AreTrue<'_>>(alloc, program, explored, &property, true)
        }
        Rule::Free(task) => Ok(explored.waits(*task)),
    }
}

/// Judges the rules of a deck of a tally, which has no functions: only that a task is free can be
/// asked of it.
pub fn judge_tally<M: Machine>(
    alloc: Global,
    program: &M::Program,
    explored: &Explored,
    rules: &[PlacedRule],
) -> Result<Vec<Judged>, AllocError>
    ensures { IfOk result (λ judged. AllZip (IsJudged M.next M.answers
        (M.begin program.now) no_truths explored.now) rules.now judged.items) }
{
    let mut judged = Vec::new(alloc);
    for placed in rules {
        judged.push(Judged {
            line: placed.line,
            broken: free_broken_by(explored, &placed.rule),
        })?;
    }
    Ok(judged)
}

/// The place of the first order after which the task of a rule waits for ever, if it is such a rule
/// and there is one.
fn free_broken_by(explored: &Explored, rule: &Rule) -> Option<usize>
    ensures { result ≡ free_broken_by explored.now rule.now }
{
    match *rule {
        Rule::Free(task) => explored.waits(task),
        Rule::Never(_) | Rule::Always(_) | Rule::Finally(_) => None,
    }
}
