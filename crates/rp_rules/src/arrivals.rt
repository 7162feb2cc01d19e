//! Calls, interrupts and ticks that come: what a server decides of them.

ghost use Rattle.std.specs.Prelude.{◌≡◌, None};
ghost use Rattle.rp_base.specs.Action.{IsRight};
ghost use Rattle.rp_base.specs.declared.action.Action.TheVariants as actions;
ghost use Rattle.rp_model.specs.Arrivals.{adds_pending, on_numbered, on_call, on_interrupt, on_tick};
ghost use Rattle.rp_rules.specs.Inputs.{running_server};
ghost use Rattle.rp_rules.specs.Plans.{MayCommit};

use rp_base::{Action, TaskId};
use rp_machine::Machine;
use rp_model::{Dropped, Plan, RightAction};
use rp_server::Roles;

/// The node notes an occurrence of an interrupt's source, 1 to 8 and from 1: it becomes pending
/// unless it or a higher one counted, and is dropped if 32 items are pending.
pub(crate) fn on_interrupt<M: Machine>(
    server: &Roles<M>,
    source: u8,
    occurrence: u32,
    plan: &mut Plan,
)
    requires right { IsRight (actions.Interrupt source occurrence) }
    ensures plan { plan.new
        ≡ on_interrupt (running_server M.next M.answers server.now) source occurrence }
    ensures may { MayCommit server.now plan.new }
{
    if server.last_occurrence(source) < occurrence {
        let item = RightAction::new(Action::Interrupt { source, occurrence });
        adds(server, item, plan);
    } else {
        *plan = Plan::Pass(Dropped::No);
    }
}

/// The node notes a tick of the clock: it becomes pending, and is dropped if 32 items are
/// pending.
pub(crate) fn on_tick<M: Machine>(server: &Roles<M>, now: u32, plan: &mut Plan)
    ensures plan { plan.new ≡ on_tick (running_server M.next M.answers server.now) now }
    ensures may { MayCommit server.now plan.new }
{
    adds(server, RightAction::new(Action::Tick { now }), plan);
}

/// A `Call` comes, with a right action.
#[inline(always)]
pub(crate) fn on_call<M: Machine>(server: &Roles<M>, action: Action, plan: &mut Plan)
    requires right { IsRight action }
    ensures plan { plan.new ≡ on_call (running_server M.next M.answers server.now) action }
    ensures may { MayCommit server.now plan.new }
{
    let Action::Call { task, number, .. } = action else {
        *plan = Plan::Pass(Dropped::No);
        return;
    };
    match server.kept_reply(task, number) {
        Some(reply) => *plan = Plan::Answer(task, number, reply),
        None => on_unanswered(server, task, number, action, plan),
    }
}

/// A call comes of which no reply is kept.
#[inline(always)]
fn on_unanswered<M: Machine>(
    server: &Roles<M>,
    task: TaskId,
    number: u32,
    call: Action,
    plan: &mut Plan,
)
    requires right { IsRight call }
    ensures plan { plan.new
        ≡ on_numbered (running_server M.next M.answers server.now) task number call None }
    ensures may { MayCommit server.now plan.new }
{
    if number < server.last_number(task) {
        *plan = Plan::Pass(Dropped::No);
        return;
    }
    adds(server, RightAction::new(call), plan);
}

/// An item becomes pending, unless it is a call that is, or 32 are.
#[inline(always)]
fn adds<M: Machine>(server: &Roles<M>, item: RightAction, plan: &mut Plan)
    ensures plan { plan.new ≡ adds_pending server.now.running.pending item }
    ensures may { MayCommit server.now plan.new }
{
    if server.is_pending(item.get()) {
        *plan = Plan::Pass(Dropped::No);
    } else if server.has_room() {
        *plan = Plan::Await(item);
    } else {
        *plan = Plan::Pass(Dropped::Full);
    }
}
