//! The command to ask another node for what is missing.

ghost use Rattle.std.specs.Prelude.{◌≡◌, IfOk, IfErr, Ok, Err};
ghost use Rattle.rp_model.specs.Learner.{on_ask_missing};
ghost use Rattle.rp_rules.specs.Inputs.{running_server};
ghost use Rattle.rp_rules.specs.Plans.{MayCommit};

use rp_base::{Fault, NodeId};
use rp_machine::Machine;
use rp_model::Plan;
use rp_server::Roles;

/// The command to ask a node for each position that is missing in the window. It is refused with
/// `BadConfig` unless that is another one of the nodes.
pub(crate) fn on_ask_missing<M: Machine>(server: &Roles<M>, to: NodeId) -> Result<Plan, Fault>
    ensures ok { IfOk result (λ plan.
        Ok plan ≡ on_ask_missing (running_server M.next M.answers server.now) to) }
    ensures may { IfOk result (λ plan. MayCommit server.now plan) }
    ensures err { IfErr result (λ fault.
        Err fault ≡ on_ask_missing (running_server M.next M.answers server.now) to) }
{
    if to.get() > server.config().nodes || to == server.me() {
        return Err(Fault::BadConfig);
    }
    Ok(Plan::AskMissing(to))
}
