//! What the deck of an outcome decides, and what its run has to print.

ghost use Rattle.std.specs.Prelude.{◌≡◌, ◌++◌, IfOk, slice_index_or};
ghost use Rattle.rp_script.specs.rp_base.specs.declared.action.Action.TheVariants.{Noop};
ghost use Rattle.rp_script.specs.rp_machine.specs.Replay.{replay_state};
ghost use Rattle.rp_explore.specs.rp_orders.specs.Orders.{AreRight};
ghost use Rattle.rp_script.specs.rp_run.specs.Output.{names_of};
ghost use Rattle.rp_explore_run.specs.Shown.{IsShownBy, IsWanted, after_of};

use crate::findings::{Found, order_at};
use crate::{Outcome, Source, Wanted, task_name};
use indexmap::IndexMap;
use rp_base::{Action, Answers};
use rp_deck::Task;
use rp_explore::Explored;
use rp_machine::{Machine, Numbered};
use rp_output::ReplyLine;
use std::alloc::{AllocError, Global};

/// A search, with what its deck says.
#[derive(Clone, Copy)]
pub struct Searched<'a, 'e> {
    pub tasks: &'a IndexMap<String, Task>,
    pub may: &'a [Action],
    pub explored: &'e Explored,
    /// The deck.
    pub source: Source<'a>,
    /// The length of its log.
    pub positions: u16,
}

/// What the deck of an outcome decides, and what its run has to print.
#[derive(Drop)]
pub struct Shown {
    pub order: Vec<Action>,
    pub wanted: Wanted,
}

/// The order that leads to what was found, and what shows it: the line of the reply, or the state
/// after the order.
pub fn shown_by<M: Machine>(
    alloc: Global,
    program: &M::Program,
    searched: &Searched<'_, '_>,
    found: &Found,
) -> Result<Shown, AllocError>
    ensures { IfOk result (λ shown. IsShownBy M.next M.answers (M.begin program.now) M.image
        (names_of searched.now.tasks.now) searched.now.may.now searched.now.explored.now
        found.now shown) }
{
    let mut order = order_at(alloc, searched.explored, found.place)?;
    let wanted = wanted_of::<M>(alloc, program, searched.tasks, &order, found.outcome)?;
    push_after(&mut order, searched.may, found.action)?;
    Ok(Shown { order, wanted })
}

/// What shows an outcome after an order.
fn wanted_of<M: Machine>(
    alloc: Global,
    program: &M::Program,
    tasks: &IndexMap<String, Task>,
    order: &[Action],
    outcome: Outcome,
) -> Result<Wanted, AllocError>
    requires { AreRight order.now }
    ensures { IfOk result (IsWanted (names_of tasks.now)
        (M.image (replay_state M.next M.answers (M.begin program.now) order.now)) outcome) }
{
    match outcome {
        Outcome::Reply(answer) => {
            let line = ReplyLine {
                task: task_name(tasks, answer.task),
                number: answer.number,
                reply: answer.reply,
            };
            Ok(Wanted::Line(format!(in alloc; "{line}")?))
        }
        Outcome::Waits { .. } | Outcome::Broken(_) => {
            Ok(Wanted::State(image_after::<M>(alloc, program, order)?))
        }
    }
}

/// The image of the state after an order.
fn image_after<M: Machine>(
    alloc: Global,
    program: &M::Program,
    order: &[Action],
) -> Result<Vec<u8>, AllocError>
    requires { AreRight order.now }
    ensures { IfOk result (λ image. image.items
        ≡ M.image (replay_state M.next M.answers (M.begin program.now) order.now)) }
{
    let mut state = Numbered::<M>::new(alloc, program)?;
    let mut answers = Answers::new();
    for action in order {
        state.apply(action, &mut answers);
    }
    state.machine().image(alloc)
}

/// Adds the action that gives the reply, if there is one.
fn push_after(
    order: &mut Vec<Action>,
    may: &[Action],
    action: Option<usize>,
) -> Result<(), AllocError>
    ensures { IfOk result (λ _. order.new.items ≡ order.old.items ++ after_of may.now action) }
{
    if let Some(index) = action {
        order.push(action_at(may, index))?;
    }
    Ok(())
}

/// The action with this index.
fn action_at(may: &[Action], index: usize) -> Action
    ensures { result ≡ slice_index_or may.now index Noop }
{
    match may.get(index) {
        Some(action) => *action,
        None => Action::Noop,
    }
}
