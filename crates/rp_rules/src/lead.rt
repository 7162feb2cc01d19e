//! The command to lead, at a position or at the least free one: what a server decides.

ghost use Rattle.std.specs.Prelude.{◌≡◌, ◌<◌, ◌≤◌, ◌^◌, true, IfNone, IfSome, IfErr, OnOk, Some, Ok, Err};
ghost use Rattle.rp_base.specs.declared.fault.Fault.TheVariants.{LogFull};
ghost use Rattle.rp_model.specs.Effect as inputs;
ghost use Rattle.rp_model.specs.Effect.{plan_of};
ghost use Rattle.rp_model.specs.Leader.{is_free_position, is_out_of_reach, least_free};
ghost use Rattle.rp_rules.specs.Inputs.{running_server};
ghost use Rattle.rp_rules.specs.Plans.{MayCommit};

use crate::leader::on_lead_at;
use rp_base::{Fault, Position};
use rp_machine::Machine;
use rp_model::Plan;
use rp_server::Roles;

/// The command to lead at a position, or with none at the least position that is not learned and at
/// which no proposal of this node runs but a prepared one. If the position is learned nothing
/// happens. It is refused with `LogFull` above the log or 64 positions above the first unlearned
/// one, with `BallotsSpent` if the node has no ballot left.
pub(crate) fn on_lead<M: Machine>(
    server: &Roles<M>,
    choice: Option<Position>,
    plan: &mut Plan,
) -> Result<(), Fault>
    ensures ok { OnOk result (Ok plan.new
        ≡ plan_of (running_server M.next M.answers server.now) (inputs.NodeInput.Lead choice)) }
    ensures may { OnOk result (MayCommit server.now plan.new) }
    ensures err { IfErr result (λ fault. Err fault
        ≡ plan_of (running_server M.next M.answers server.now) (inputs.NodeInput.Lead choice)) }
{
    match position_to_lead(server, choice) {
        Some(position) => on_lead_at(server, position, plan),
        None => Err(Fault::LogFull),
    }
}

/// The position that the command names, or else the least free one, if that is within reach.
#[inline(always)]
fn position_to_lead<M: Machine>(server: &Roles<M>, choice: Option<Position>) -> Option<Position>
    ensures some { IfSome result (λ position.
        plan_of (running_server M.next M.answers server.now) (inputs.NodeInput.Lead (Some position))
        ≡ plan_of (running_server M.next M.answers server.now) (inputs.NodeInput.Lead choice)) }
    ensures none { IfNone result (Err LogFull
        ≡ plan_of (running_server M.next M.answers server.now) (inputs.NodeInput.Lead choice)) }
{
    match choice {
        Some(position) => Some(position),
        None => server.least_free(),
    }
}
