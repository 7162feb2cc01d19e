//! What a server decides as a leader at a range of positions (Lamport, "Paxos Made Simple", section
//! 3).

ghost use Rattle.std.specs.Prelude.{◌≡◌, nat_eq, length, IfOk, IfErr, Ok, Err};
ghost use Rattle.std.specs.List.{list_any};
ghost use Rattle.rp_base.specs.Ranges.{IsRange, positions_of};
ghost use Rattle.rp_model.specs.Effect as inputs;
ghost use Rattle.rp_model.specs.Effect.{plan_of};
ghost use Rattle.rp_model.specs.Leader.{is_out_of_reach, unlearned_in};
ghost use Rattle.rp_server.specs.rp_proposer.specs.Proposing.{unskipped};
ghost use Rattle.rp_rules.specs.Inputs.{running_server};
ghost use Rattle.rp_rules.specs.Plans.{MayCommit};

use rp_base::{Fault, PositionRange};
use rp_machine::Machine;
use rp_model::{Dropped, Plan};
use rp_server::Roles;

/// The command to lead at all unlearned positions of a range. If all are learned nothing
/// happens. It is refused with `LogFull` if one of its positions is above the log or 64
/// positions above the first unlearned one, with `BallotsSpent` if the node has no ballot left.
pub(crate) fn on_lead_range<M: Machine>(
    server: &Roles<M>,
    range: PositionRange,
) -> Result<Plan, Fault>
    ensures ok { IfOk result (λ plan. Ok plan ≡ plan_of (running_server M.next M.answers server.now)
        (inputs.NodeInput.LeadRange range.first range.count)) }
    ensures may { IfOk result (λ plan. MayCommit server.now plan) }
    ensures err { IfErr result (λ fault. Err fault ≡ plan_of (running_server M.next M.answers server.now)
        (inputs.NodeInput.LeadRange range.first range.count)) }
{
    if is_range_out_of_reach(server, range) {
        return Err(Fault::LogFull);
    }
    if is_all_learned(server, range) {
        return Ok(Plan::Pass(Dropped::No));
    }
    match server.next_ballot() {
        Some(ballot) => Ok(Plan::LeadRange(range, ballot)),
        None => Err(Fault::BallotsSpent),
    }
}

/// Whether a position of the range is above the log, or too far above the first unlearned one:
/// then its last position is.
fn is_range_out_of_reach<M: Machine>(server: &Roles<M>, range: PositionRange) -> bool
    ensures out { result ≡ list_any
        (is_out_of_reach server.now.config.max_positions server.now.records)
        (positions_of range) }
    ensures range { IsRange range }
{
    server.is_out_of_reach(range.at(range.count() - 1))
}

/// Whether an action is learned at each position of the range.
fn is_all_learned<M: Machine>(server: &Roles<M>, range: PositionRange) -> bool
    ensures { result ≡ nat_eq (length (unlearned_in server.now.records range)) 0 }
{
    for index in 0..range.count() {
        if !server.is_learned(range.at(index)) {
            return false;
        }
    }
    true
}
