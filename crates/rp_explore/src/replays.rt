//! The machine after an order, and whether one action more counts.

ghost use Rattle.std.specs.Prelude.{◌≡◌, ◌≤◌, ◌+◌, ◌&&◌, not, nat_eq, IfOk};
ghost use Rattle.rp_base.specs.Action.{IsRight};
ghost use Rattle.rp_machine.specs.Replay.{counts as counted};
ghost use Rattle.rp_machine.specs.Asked.{last_number, waits};
ghost use Rattle.rp_machine.specs.Numbered.{outcome};
ghost use Rattle.rp_orders.specs.Orders.{AreRight};

use rp_base::{Action, Answers, TaskId};
use rp_machine::{Machine, Numbered};
use std::alloc::{AllocError, Global};

/// The program's start, to which the actions of an order were applied.
pub fn replayed<M: Machine>(
    alloc: Global,
    program: &M::Program,
    order: &[Action],
) -> Result<Numbered<M>, AllocError>
    requires { AreRight order.now }
    ensures { IfOk result (λ state. state
        ≡ record { begin = M.begin program.now; actions = order.now }) }
{
    let mut state = Numbered::<M>::new(alloc, program)?;
    let mut answers = Answers::new();
    for action in order {
        state.apply(action, &mut answers);
    }
    Ok(state)
}

/// Whether the action counts after those that were applied.
pub fn counts<M: Machine>(state: &Numbered<M>, action: &Action) -> bool
    requires { IsRight action.now }
    ensures { let r = outcome M.next M.answers state.now in result
        ≡ counted r.kept r.given action.now }
{
    match *action {
        Action::Noop => false,
        Action::Call { task, number, .. } => is_next(state, task, number),
        Action::Interrupt { source, occurrence } => state.last_occurrence(source) < occurrence,
        Action::Tick { .. } => true,
    }
}

/// Whether the call is the task's next and the task does not wait.
fn is_next<M: Machine>(state: &Numbered<M>, task: TaskId, number: u32) -> bool
    requires { 1 ≤ number }
    ensures { let r = outcome M.next M.answers state.now in result
        ≡ (nat_eq number (last_number task r.kept + 1) && not (waits task r.kept r.given)) }
{
    number - 1 == state.last(task) && !state.waits(task)
}
