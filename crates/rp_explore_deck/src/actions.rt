//! The actions that the script of a deck asks for.

ghost use Rattle.std.specs.Prelude.{◌≡◌, ◌+◌, ◌^◌, ◌<◌, ◌≤◌, Some, [], All, length, map, IfOk, IfSome, OnOk};
ghost use Rattle.std.specs.List.{list_any};
ghost use Rattle.rp_deck.specs.rp_base.specs.Action.{IsRight, same_action};
ghost use Rattle.rp_deck.specs.DeckViews.{line_command, command_text};
ghost use Rattle.rp_orders.specs.Orders.{AreRight};
ghost use Rattle.rp_explore_deck.specs.PlannedActions.{is_call_of, calls_among, action_asked, AsksRight, with_planned, planned_after, actions_of};

use rp_base::{Action, NodeId, TaskId};
use rp_deck::{Command, Line};
use rp_model::{Event, Step};
use std::alloc::{AllocError, Global};

/// An action that a line of the script asks a node for.
#[derive(Clone, Copy)]
pub struct PlannedAction {
    pub action: Action,
    pub node: NodeId,
    /// The number of the line, counted from 1.
    pub line: u32,
}

/// The actions that the lines of a script ask for, each once: a call is the next of its task.
pub fn plan_actions(alloc: Global, script: &[Line]) -> Result<Vec<PlannedAction>, AllocError>
    requires size { length script.now + 1 < 2 ^ 32 }
    requires right { All (λ line. AsksRight (command_text line.command)) script.now }
    ensures planned { IfOk result (λ planned. planned.items
        ≡ planned_after [] (map line_command script.now)) }
    ensures few { IfOk result (λ planned. length planned.items ≤ length script.now) }
    ensures right { IfOk result (λ planned. AreRight (actions_of planned.items)) }
{
    let mut planned = Vec::new(alloc);
    for line in script {
        if let Some((action, node)) = action_asked(&planned, &line.command) {
            add_action(
                &mut planned,
                PlannedAction {
                    action,
                    node,
                    line: line.number,
                },
            )?;
        }
    }
    Ok(planned)
}

/// What a command asks for after these actions, and of which node.
fn action_asked(planned: &[PlannedAction], command: &Command) -> Option<(Action, NodeId)>
    requires size { length planned.now + 1 < 2 ^ 32 }
    requires right { AsksRight (command_text command.now) }
    ensures value { result ≡ action_asked planned.now (command_text command.now) }
    ensures right { IfSome result (λ asked. IsRight asked.0) }
{
    let Command::Take(event) = command else {
        return None;
    };
    event.keeps_ranges();
    match *event {
        Event::Submit {
            task,
            node,
            object,
            operation,
            arg,
        } => {
            let number = calls_among(task, planned) + 1;
            let action = Action::Call {
                task,
                number,
                object,
                operation,
                arg,
            };
            Some((action, node))
        }
        Event::Node(Step::Interrupt { node, interrupt }) => {
            let action = Action::Interrupt {
                source: interrupt.source,
                occurrence: interrupt.occurrence,
            };
            Some((action, node))
        }
        Event::Node(Step::Tick { node, now }) => Some((Action::Tick { now }, node)),
        _ => None,
    }
}

/// Adds an action that is not there yet.
fn add_action(planned: &mut Vec<PlannedAction>, more: PlannedAction) -> Result<(), AllocError>
    ensures added { OnOk result (planned.new.items
        ≡ with_planned planned.old.items more.line (Some (more.action, more.node))) }
    ensures few { OnOk result (length planned.new.items ≤ length planned.old.items + 1) }
    ensures right { OnOk result (AreRight (actions_of planned.old.items) → IsRight more.action
        → AreRight (actions_of planned.new.items)) }
{
    if !has_action(planned, &more.action) {
        planned.push(more)?;
    }
    Ok(())
}

/// Whether the action is there.
fn has_action(planned: &[PlannedAction], action: &Action) -> bool
    ensures { result ≡ list_any (λ p. same_action p.action action.now) planned.now }
{
    planned.iter().any(|p| is_same(&p.action, action))
}

/// Whether the actions are the same.
fn is_same(action: &Action, other: &Action) -> bool
    ensures { result ≡ same_action action.now other.now }
{
    action == other
}

/// How many of the actions are calls of the task.
pub fn calls_among(task: TaskId, planned: &[PlannedAction]) -> u32
    requires { length planned.now < 2 ^ 32 }
    ensures value { result ≡ calls_among task planned.now }
    ensures within { result ≤ length planned.now }
{
    planned
        .iter()
        .filter(|p| is_call_of(task, &p.action))
        .count() as u32
}

/// Whether the action is a call of the task.
pub fn is_call_of(task: TaskId, action: &Action) -> bool
    ensures { result ≡ is_call_of task action.now }
{
    match *action {
        Action::Call { task: caller, .. } => caller == task,
        _ => false,
    }
}
