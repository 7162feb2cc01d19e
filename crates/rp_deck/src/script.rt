//! Reads the script of a deck.

ghost use Rattle.std.specs.Prelude.{ℕ, ◌≡◌, ◌≤◌, true, All, IfOk, IfErr, map};
ghost use Rattle.rp_model.specs.Events.{event_of, step_of};
ghost use Rattle.rp_words.specs.Ahead.{ahead, text_of};
ghost use Rattle.rp_deck_declarations.specs.Declarations.{IsComplete};
ghost use Rattle.rp_words.specs.LineFaults.{IsDeckFault, Reads};
ghost use Rattle.rp_deck.specs.Live.{IsLiveCommand, IsTaken};
ghost use Rattle.rp_words.specs.Reading.{Gives};
ghost use Rattle.rp_deck.specs.Script.{IsRightCommand, IsRightLine, IsEventOfDeck, IsStepDeclared, IsStepWithin, IsEventDeclared, IsEventWithin, IsCommandDeclared, IsMessage, FitsIn};
ghost use Rattle.rp_deck.specs.ScriptLines.{script_of, command_line, command_at, is_live, lose_at, last_at, message_at, lead_at, range_at, deliver_at, position_at, step_from, again_at, cut_at};
ghost use Rattle.rp_deck_declarations.specs.DeclaredViews.{names_of};
ghost use Rattle.rp_deck.specs.DeckViews.{command_text, line_command};
ghost use Rattle.rp_words.specs.Words.{unread};
ghost use Rattle.rp_deck_declarations.specs.declared.deck_program.DeckProgram.{DeckProgram};

use crate::calls::{read_arm, read_call, read_disarm, read_interrupt, read_tick};
use crate::deck::{Command, Line, Mode};
use crate::operands::{read_node, read_position, read_task};
use crate::verbs::Verb;
use rp_base::{DeckReason, Fault, MOST_COVERED, Position};
use rp_deck_declarations::Declared;
use rp_model::{Event, Step};
use rp_words::{Lines, TextLine, Words};
use std::alloc::Global;

/// The most that a script's number of a message or of bytes may be.
const MOST: u64 = 0x7fff_ffff_ffff_ffff;

/// Reads the lines after `script`.
pub fn read_script(
    alloc: Global,
    lines: &mut Lines<'_>,
    declared: &Declared,
    mode: Mode,
) -> Result<Vec<Line>, Fault>
    requires { IsComplete declared.now }
    ensures read { Reads (λ script. map line_command script.items) result
        (script_of mode (names_of declared.now) (ahead lines.old)) }
    ensures script { IfOk result (λ script. All (IsRightLine declared.now) script.items) }
    ensures taken { IfOk result (λ script. All (λ line. IsTaken mode line.command) script.items) }
    ensures fault { IfErr result IsDeckFault }
{
    let mut script = Vec::new(alloc);
    while let Some(mut line) = lines.next() {
        let number = line.number;
        match read_command(&mut line, declared, mode) {
            Ok(command) => script.push(Line { number, command })?,
            Err(reason) => {
                return Err(Fault::BadDeck {
                    line: number,
                    reason,
                });
            }
        }
    }
    Ok(script)
}

/// Reads a line of the script.
#[tactic(auto, using(crate::proofs::ScriptLemmas::taken_by), unfolding(crate::specs::ScriptLines::command_line))]
fn read_command(
    line: &mut TextLine<'_>,
    declared: &Declared,
    mode: Mode,
) -> Result<Command, DeckReason>
    requires { IsComplete declared.now }
    ensures read { Gives command_text result
        (command_line mode (names_of declared.now) (text_of line.old)) }
    ensures right { IfOk result (IsRightCommand declared.now) }
    ensures taken { IfOk result (IsTaken mode) }
{
    let verb = Verb::named(line.first).ok_or(DeckReason::UnknownWord)?;
    if !mode.takes(verb) {
        return Err(DeckReason::NotInLive);
    }
    let command = command_of(verb, &mut line.words, declared)?;
    line.words.end()?;
    Ok(command)
}

/// Reads a command, after its first word.
fn command_of(verb: Verb, words: &mut Words<'_>, declared: &Declared) -> Result<Command, DeckReason>
    requires { IsComplete declared.now }
    ensures read { Gives (λ command. (command_text command, unread words.new)) result
        (command_at (names_of declared.now) verb (unread words.old)) }
    ensures right { IfOk result (IsRightCommand declared.now) }
    ensures live { IfOk result (λ command. is_live verb ≡ true → IsLiveCommand command) }
{
    match verb {
        Verb::Call => Ok(Command::Take(read_call(words, declared)?)),
        Verb::Arm => Ok(Command::Take(read_arm(words, declared)?)),
        Verb::Disarm => Ok(Command::Take(read_disarm(words, declared)?)),
        Verb::Again => Ok(Command::Take(read_again(words, declared)?)),
        Verb::Stop => Ok(Command::Take(Event::Stop(read_node(words, declared.nodes)?))),
        Verb::Restart => Ok(Command::Take(Event::Restart(read_node(words, declared.nodes)?))),
        Verb::Cut => Ok(Command::Take(read_cut(words, declared.nodes)?)),
        Verb::Lead => Ok(Command::Take(Event::Node(read_lead(words, declared.nodes)?))),
        Verb::Range => Ok(Command::Take(Event::Node(read_range(words, declared.nodes)?))),
        Verb::Deliver => Ok(Command::Take(Event::Node(read_deliver(words)?))),
        Verb::Interrupt => Ok(Command::Take(Event::Node(read_interrupt(words, declared)?))),
        Verb::Tick => Ok(Command::Take(Event::Node(read_tick(words, declared.nodes)?))),
        Verb::Lose => read_lose(words),
        Verb::Drain => Ok(Command::Drain),
        Verb::Show => Ok(Command::Show),
    }
}

/// Reads the rest of `again TASK NODE`.
#[tactic(auto, unfolding(crate::specs::ScriptLines::again_at))]
fn read_again(words: &mut Words<'_>, declared: &Declared) -> Result<Event, DeckReason>
    requires { IsComplete declared.now }
    ensures read { Gives (λ event. (event_of event, unread words.new)) result
        (again_at (names_of declared.now) (unread words.old)) }
    ensures right { IfOk result (IsEventOfDeck declared.now) }
{
    let task = read_task(words, declared)?;
    let node = read_node(words, declared.nodes)?;
    Ok(Event::Again { task, node })
}

/// Reads the rest of `cut KEPT lead NODE [POSITION]`, `cut KEPT range NODE FIRST COUNT` or
/// `cut KEPT deliver M`.
#[tactic(auto, unfolding(crate::specs::ScriptLines::cut_at))]
fn read_cut(words: &mut Words<'_>, nodes: u8) -> Result<Event, DeckReason>
    requires { nodes ≤ 7 }
    ensures read { Gives (λ event. (event_of event, unread words.new)) result
        (cut_at nodes (unread words.old)) }
    ensures within { IfOk result (λ event. (tasks objects : ℕ)
        → IsEventWithin nodes tasks objects event) }
    ensures declared { IfOk result (λ event. (program : DeckProgram) (interrupts : ℕ)
        → IsEventDeclared program interrupts event) }
{
    let kept = words.take_number(0, MOST)?;
    let verb = Verb::named(words.take()?).ok_or(DeckReason::UnknownWord)?;
    let step = read_step(verb, words, nodes)?;
    Ok(Event::Cut { step, kept })
}

/// Reads a step that may be cut, `lead NODE [POSITION]`, `range NODE FIRST COUNT` or `deliver M`,
/// after its first word.
fn read_step(verb: Verb, words: &mut Words<'_>, nodes: u8) -> Result<Step, DeckReason>
    requires { nodes ≤ 7 }
    ensures read { Gives (λ step. (step_of step, unread words.new)) result
        (step_from nodes verb (unread words.old)) }
    ensures within { IfOk result (IsStepWithin nodes) }
    ensures declared { IfOk result (λ step. (interrupts : ℕ) → IsStepDeclared interrupts step) }
{
    match verb {
        Verb::Lead => read_lead(words, nodes),
        Verb::Range => read_range(words, nodes),
        Verb::Deliver => read_deliver(words),
        _ => Err(DeckReason::UnknownWord),
    }
}

/// Reads the rest of `lead NODE [POSITION]`.
#[tactic(auto, unfolding(crate::specs::ScriptLines::lead_at))]
fn read_lead(words: &mut Words<'_>, nodes: u8) -> Result<Step, DeckReason>
    requires { nodes ≤ 7 }
    ensures read { Gives (λ step. (step_of step, unread words.new)) result
        (lead_at nodes (unread words.old)) }
    ensures within { IfOk result (IsStepWithin nodes) }
    ensures declared { IfOk result (λ step. (interrupts : ℕ) → IsStepDeclared interrupts step) }
{
    let node = read_node(words, nodes)?;
    let position = read_optional_position(words)?;
    Ok(Step::Lead { node, position })
}

/// Reads the rest of `range NODE FIRST COUNT`.
#[tactic(auto, unfolding(crate::specs::ScriptLines::range_at))]
fn read_range(words: &mut Words<'_>, nodes: u8) -> Result<Step, DeckReason>
    requires { nodes ≤ 7 }
    ensures read { Gives (λ step. (step_of step, unread words.new)) result
        (range_at nodes (unread words.old)) }
    ensures within { IfOk result (IsStepWithin nodes) }
    ensures declared { IfOk result (λ step. (interrupts : ℕ) → IsStepDeclared interrupts step) }
{
    let node = read_node(words, nodes)?;
    let first = read_position(words)?;
    let count = words.take_number(1, u64::from(MOST_COVERED))? as u8;
    Ok(Step::LeadRange { node, first, count })
}

/// Reads `[POSITION]`.
#[tactic(auto, unfolding(crate::specs::ScriptLines::position_at))]
fn read_optional_position(words: &mut Words<'_>) -> Result<Option<Position>, DeckReason>
    ensures { Gives (λ position. (position, unread words.new)) result
        (position_at (unread words.old)) }
{
    if words.is_at_end() {
        return Ok(None);
    }
    Ok(Some(read_position(words)?))
}

/// Reads the rest of `deliver M`.
#[tactic(auto, unfolding(crate::specs::ScriptLines::deliver_at))]
fn read_deliver(words: &mut Words<'_>) -> Result<Step, DeckReason>
    ensures read { Gives (λ step. (step_of step, unread words.new)) result
        (deliver_at (unread words.old)) }
    ensures within { IfOk result (λ step. (nodes : ℕ) → IsStepWithin nodes step) }
    ensures declared { IfOk result (λ step. (interrupts : ℕ) → IsStepDeclared interrupts step) }
{
    Ok(Step::Deliver(read_message(words)?))
}

/// Reads the number of a message.
#[tactic(auto, unfolding(crate::specs::ScriptLines::message_at))]
fn read_message(words: &mut Words<'_>) -> Result<u64, DeckReason>
    ensures read { Gives (λ message. (message, unread words.new)) result
        (message_at (unread words.old)) }
    ensures message { IfOk result IsMessage }
{
    words.take_number(1, MOST)
}

/// Reads the rest of `lose M [LAST]`.
#[tactic(auto, unfolding(crate::specs::ScriptLines::lose_at))]
fn read_lose(words: &mut Words<'_>) -> Result<Command, DeckReason>
    ensures read { Gives (λ command. (command_text command, unread words.new)) result
        (lose_at (unread words.old)) }
    ensures within { IfOk result (λ command. (nodes tasks objects : ℕ)
        → FitsIn nodes tasks objects command) }
    ensures declared { IfOk result (λ command. (program : DeckProgram) (interrupts : ℕ)
        → IsCommandDeclared program interrupts command) }
{
    let first = read_message(words)?;
    let last = read_last(words, first)?;
    Ok(Command::Lose { first, last })
}

/// Reads `[LAST]`, the first message if it is absent.
#[tactic(auto, unfolding(crate::specs::ScriptLines::last_at))]
fn read_last(words: &mut Words<'_>, first: u64) -> Result<u64, DeckReason>
    requires { IsMessage first }
    ensures read { Gives (λ last. (last, unread words.new)) result
        (last_at first (unread words.old)) }
    ensures message { IfOk result IsMessage }
{
    if words.is_at_end() {
        return Ok(first);
    }
    read_message(words)
}
