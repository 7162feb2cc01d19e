//! The deck whose script decides the actions of an order, one after another.

ghost use Rattle.std.specs.Prelude.{◌≡◌, ◌++◌, IfOk, map, nat_eq, option_map, take};
ghost use Rattle.rp_explore_run.specs.OrderDecks.{action_text, head_from, head_line, lead_text, line_at, order_deck_text, planned_for};
ghost use Rattle.std.specs.List.{list_any};
ghost use Rattle.rp_output.specs.rp_base.specs.Action.{same_action};
ghost use Rattle.rp_output.specs.FaultMessage.{with_line_feed};

use rp_base::{Action, NodeId};
use rp_explore_deck::PlannedAction;
use std::alloc::{AllocError, Global};

/// A deck, from which a script is made.
#[derive(Clone, Copy)]
pub struct Source<'a> {
    /// Its lines, without their ends.
    pub lines: &'a [&'a [u8]],
    /// How many of them there are before the first line of its script.
    pub head: usize,
    /// The numbers of those that are rules, which a script does not take.
    pub rules: &'a [u32],
    /// The actions that its script asks for.
    pub planned: &'a [PlannedAction],
}

/// The deck for `script` whose script decides the actions of an order: the lines of the deck before
/// its script, without the rules; for each action the line that asks for it, and then the lines with
/// which the node of that line leads; and `show`.
pub fn order_deck(
    alloc: Global,
    source: &Source<'_>,
    order: &[Action],
) -> Result<Vec<u8>, AllocError>
    // claim: The deck that is made for an order has the deck's own lines but for its rules and its
    //   script, then for each action of the order the line that asks for it, `drain`, `lead` at the
    //   node of that line and `drain`, and at the end `show`
    ensures { IfOk result (λ text. text.items
        ≡ order_deck_text source.now.head source.now.rules.now
        (map (λ line. line.now) source.now.lines.now) source.now.planned.now order.now) }
{
    let mut text = Vec::new(alloc);
    write_head(&mut text, source)?;
    for action in order {
        write_action(alloc, &mut text, source, action)?;
    }
    text.extend_from_slice(b"show\n")?;
    Ok(text)
}

/// Writes the lines before the script, but for the rules.
fn write_head(text: &mut Vec<u8>, source: &Source<'_>) -> Result<(), AllocError>
    ensures { IfOk result (λ _. text.new.items ≡ text.old.items
        ++ head_from source.now.rules.now 1
        (take source.now.head (map (λ line. line.now) source.now.lines.now))) }
{
    for place in 0..source.head.min(source.lines.len()) {
        let line = source.lines[place];
        write_head_line(text, source.rules, place + 1, line)?;
    }
    Ok(())
}

/// Writes the line of this number, unless it is a rule.
fn write_head_line(
    text: &mut Vec<u8>,
    rules: &[u32],
    number: usize,
    line: &[u8],
) -> Result<(), AllocError>
    ensures { IfOk result (λ _. text.new.items ≡ text.old.items
        ++ head_line rules.now number line.now) }
{
    if is_rule(rules, number) {
        return Ok(());
    }
    write_line(text, line)
}

/// Whether the line of this number is a rule.
fn is_rule(rules: &[u32], number: usize) -> bool
    ensures { result ≡ list_any (nat_eq number) rules.now }
{
    rules.iter().any(|line| *line as usize == number)
}

/// Writes a line and its end.
fn write_line(text: &mut Vec<u8>, line: &[u8]) -> Result<(), AllocError>
    ensures { IfOk result (λ _. text.new.items ≡ text.old.items ++ with_line_feed line.now) }
{
    text.extend_from_slice(line)?;
    Ok(text.push(b'\n')?)
}

/// Writes the lines with which an action is decided, if a line asks for it.
fn write_action(
    alloc: Global,
    text: &mut Vec<u8>,
    source: &Source<'_>,
    action: &Action,
) -> Result<(), AllocError>
    ensures { IfOk result (λ _. text.new.items ≡ text.old.items
        ++ action_text (map (λ line. line.now) source.now.lines.now)
        (planned_for source.now.planned.now action.now)) }
{
    let Some(planned) = planned_for(source.planned, action) else {
        return Ok(());
    };
    write_line_at(text, source.lines, planned.line)?;
    write_lead(alloc, text, planned.node)
}

/// What asks for an action.
fn planned_for<'a>(planned: &'a [PlannedAction], action: &Action) -> Option<&'a PlannedAction>
    ensures { option_map (λ p. p.now) result ≡ planned_for planned.now action.now }
{
    planned.iter().find(|p| is_same(&p.action, action))
}

/// Whether the actions are the same.
fn is_same(action: &Action, other: &Action) -> bool
    ensures { result ≡ same_action action.now other.now }
{
    action == other
}

/// Writes the line of this number, from 1, and its end.
fn write_line_at(text: &mut Vec<u8>, lines: &[&[u8]], number: u32) -> Result<(), AllocError>
    ensures { IfOk result (λ _. text.new.items ≡ text.old.items
        ++ with_line_feed (line_at (map (λ line. line.now) lines.now) number)) }
{
    let number = number as usize;
    if number == 0 || number > lines.len() {
        return Ok(text.push(b'\n')?);
    }
    let line = lines[number - 1];
    write_line(text, line)?;
    Ok(())
}

/// Writes the lines with which all packets are delivered, a node leads, and all packets are
/// delivered again.
fn write_lead(alloc: Global, text: &mut Vec<u8>, node: NodeId) -> Result<(), AllocError>
    ensures { IfOk result (λ _. text.new.items ≡ text.old.items ++ lead_text node) }
{
    let node = node.get();
    let lines = format!(in alloc; "drain\nlead {node}\ndrain")?;
    write_line(text, lines.as_bytes())?;
    Ok(())
}
