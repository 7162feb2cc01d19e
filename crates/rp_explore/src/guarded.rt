//! What the guards of a program's calls let be decided next.

ghost use Rattle.std.specs.Prelude.{◌≡◌, ◌&&◌};
ghost use Rattle.rp_base.specs.Action.{IsRight};
ghost use Rattle.rp_machine.specs.Replay.{counts as counted};
ghost use Rattle.rp_machine.specs.Numbered.{outcome};
ghost use Rattle.rp_orders.specs.Guards.{is_of, holds, all_hold, last_reply, is_allowed as allowed, may_go_on as goes_on};

use crate::replays::counts;
use rp_base::{Action, Reply, TaskId};
use rp_machine::{Machine, Numbered};
use rp_orders::Guard;

/// Whether the action is taken after those that were applied: it counts, and the guards let it be
/// decided.
pub fn is_taken<M: Machine>(state: &Numbered<M>, guards: &[Guard], action: &Action) -> bool
    requires { IsRight action.now }
    ensures { let r = outcome M.next M.answers state.now in result
        ≡ (allowed guards.now r.kept r.given action.now && counted r.kept r.given action.now) }
{
    is_allowed(state, guards, action) && counts(state, action)
}

/// Whether the guards let the action be decided after those that were applied.
fn is_allowed<M: Machine>(state: &Numbered<M>, guards: &[Guard], action: &Action) -> bool
    ensures { let r = outcome M.next M.answers state.now in result
        ≡ allowed guards.now r.kept r.given action.now }
{
    match *action {
        Action::Call { task, number, .. } => {
            all_hold(guards, task, u64::from(number), last_reply(state, task))
        }
        Action::Noop | Action::Interrupt { .. } | Action::Tick { .. } => true,
    }
}

/// Whether the task's next call may be made, by its guards.
pub fn may_go_on<M: Machine>(state: &Numbered<M>, guards: &[Guard], task: TaskId) -> bool
    ensures { let r = outcome M.next M.answers state.now in result
        ≡ goes_on guards.now r.kept r.given task }
{
    let number = u64::from(state.last(task)) + 1;
    all_hold(guards, task, number, last_reply(state, task))
}

/// The reply to the task's last call, once there is one.
fn last_reply<M: Machine>(state: &Numbered<M>, task: TaskId) -> Option<Reply>
    ensures { let r = outcome M.next M.answers state.now in result
        ≡ last_reply task r.kept r.given }
{
    state.kept(task, state.last(task))
}

/// Whether each guard of this call holds, where this is the reply to the one before.
fn all_hold(guards: &[Guard], task: TaskId, number: u64, before: Option<Reply>) -> bool
    ensures { result ≡ all_hold guards.now task number before }
{
    guards.iter().all(|guard| !is_of(guard, task, number) || holds(guard, before))
}

/// Whether it is a guard of this call.
fn is_of(guard: &Guard, task: TaskId, number: u64) -> bool
    ensures { result ≡ is_of guard.now task number }
{
    guard.task == task && u64::from(guard.number) == number
}

/// Whether the call may be made where this is the reply to the one before; without one it may not.
fn holds(guard: &Guard, before: Option<Reply>) -> bool
    ensures { result ≡ holds guard.now before }
{
    match before {
        Some(reply) => guard.fits(reply),
        None => false,
    }
}
