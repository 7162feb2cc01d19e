//! Reads the guards of a deck, and finds the calls that they are for.

ghost use Rattle.std.specs.Prelude.{◌≡◌, ◌+◌, ◌^◌, ◌<◌, ◌≤◌, [], length, IfOk, IfErr};
ghost use Rattle.rp_deck.specs.Meaning.{texts_of};
ghost use Rattle.rp_deck_declarations.specs.Declarations.{IsComplete};
ghost use Rattle.rp_deck_declarations.specs.DeclaredViews.{names_of};
ghost use Rattle.rp_explore_deck.specs.AddedLines.{read_lines};
ghost use Rattle.rp_explore_deck.specs.GuardLines.{guard_line, calls_above, guard_of, guards_of};
ghost use Rattle.rp_words.specs.Ahead.{text_of};
ghost use Rattle.rp_words.specs.LineFaults.{IsDeckFault, Reads};
ghost use Rattle.rp_words.specs.Reading.{Gives};

use crate::actions::{PlannedAction, calls_among, is_call_of};
use crate::added::is_wanted_by;
use crate::replies::read_reply;
use crate::rules::read_task;
use indexmap::IndexSet;
use rp_base::{DeckReason, Fault, Reply, TaskId};
use rp_deck_declarations::Declared;
use rp_orders::Guard;
use rp_words::{Lines, TextLine};
use std::alloc::Global;

/// A guard, by the words of its line.
#[derive(Clone, Copy)]
pub struct GuardLine {
    pub line: u32,
    pub task: TaskId,
    pub reply: Reply,
    pub is_wanted: bool,
}

/// Reads the lines of these numbers as guards.
pub fn read_guards(
    alloc: Global,
    text: &[u8],
    numbers: &IndexSet<u32>,
    declared: &Declared,
) -> Result<Vec<GuardLine>, Fault>
    requires size { length text.now + 1 < 2 ^ 32 }
    requires complete { IsComplete declared.now }
    ensures read { Reads (λ guards. guards.items) result
        (read_lines numbers.now.keys (guard_line (names_of declared.now)) []
        (texts_of text.now)) }
    ensures fault { IfErr result IsDeckFault }
{
    let mut lines = Lines::new(text);
    let mut guards = Vec::new(alloc);
    while let Some(mut line) = lines.next() {
        let number = line.number;
        if numbers.contains(&number) {
            match read_guard(&mut line, declared) {
                Ok(guard) => guards.push(guard)?,
                Err(reason) => {
                    return Err(Fault::BadDeck {
                        line: number,
                        reason,
                    });
                }
            }
        }
    }
    Ok(guards)
}

/// Reads `when TASK REPLY` or `unless TASK REPLY`.
#[tactic(auto, unfolding(crate::specs::GuardLines::guard_line))]
fn read_guard(line: &mut TextLine<'_>, declared: &Declared) -> Result<GuardLine, DeckReason>
    requires { IsComplete declared.now }
    ensures { Gives (λ guard. guard) result
        (guard_line (names_of declared.now) (text_of line.old)) }
{
    let is_wanted = is_wanted_by(line.first).ok_or(DeckReason::UnknownWord)?;
    let task = read_task(&mut line.words, declared)?;
    let reply = read_reply(&mut line.words)?;
    line.words.end()?;
    Ok(GuardLine {
        line: line.number,
        task,
        reply,
        is_wanted,
    })
}

/// Finds the call that each guard is for, the next of its task.
pub fn place_guards(
    alloc: Global,
    planned: &[PlannedAction],
    guards: &[GuardLine],
) -> Result<Vec<Guard>, Fault>
    requires { length planned.now + 1 < 2 ^ 32 }
    ensures read { Reads (λ placed. placed.items) result
        (guards_of planned.now [] guards.now) }
    ensures fault { IfErr result IsDeckFault }
{
    let mut placed = Vec::new(alloc);
    for guard in guards {
        match place_guard(planned, guard) {
            Ok(guard) => placed.push(guard)?,
            Err(reason) => {
                return Err(Fault::BadDeck {
                    line: guard.line,
                    reason,
                });
            }
        }
    }
    Ok(placed)
}

/// Finds the call that the guard is for: the next of its task, which is not the first and is there.
#[tactic(auto, unfolding(crate::specs::GuardLines::guard_of))]
fn place_guard(planned: &[PlannedAction], guard: &GuardLine) -> Result<Guard, DeckReason>
    requires { length planned.now + 1 < 2 ^ 32 }
    ensures { Gives (λ guard. guard) result (guard_of planned.now guard.now) }
{
    let before = calls_above(guard.line, guard.task, planned);
    if before == 0 || before == calls_among(guard.task, planned) {
        return Err(DeckReason::UnknownWord);
    }
    Ok(Guard {
        task: guard.task,
        number: before + 1,
        reply: guard.reply,
        is_wanted: guard.is_wanted,
    })
}

/// How many of the actions are calls of the task on lines above this one.
fn calls_above(line: u32, task: TaskId, planned: &[PlannedAction]) -> u32
    requires { length planned.now < 2 ^ 32 }
    ensures value { result ≡ calls_above line task planned.now }
    ensures within { result ≤ length planned.now }
{
    planned
        .iter()
        .filter(|p| p.line < line && is_call_of(task, &p.action))
        .count() as u32
}
