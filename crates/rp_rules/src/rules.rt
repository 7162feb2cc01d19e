//! What a server decides of an input, by its kind.

ghost use Rattle.std.specs.Prelude.{◌≡◌, Ok, IfErr, OnOk};
ghost use Rattle.rp_rules.specs.Inputs.{IsLong, IsRightInput, Refuses, input_plan};
ghost use Rattle.rp_rules.specs.Plans.{MayCommit};

use crate::arrivals::{on_interrupt, on_tick};
use crate::input::Input;
use crate::lead::on_lead;
use crate::missing::on_ask_missing;
use crate::ranges::on_lead_range;
use crate::texts::on_text;
use rp_base::Fault;
use rp_machine::Machine;
use rp_model::Plan;
use rp_server::Roles;
use std::alloc::Global;

/// What the step of an input does, or why there is no step: `BadPacket` if the bytes are no
/// packet's text, `BallotsSpent` or `LogFull` if the node cannot lead, `BadConfig` if it is to ask
/// itself or no node, or `OutOfMemory` if a report or a promise for a range is read. It reads the
/// server alone, and writes the plan to `plan`, so that none is copied.
#[inline(always)]
pub fn decide<M: Machine>(
    server: &Roles<M>,
    alloc: Global,
    input: &Input,
    plan: &mut Plan,
) -> Result<(), Fault>
    requires right { IsRightInput input.now }
    ensures ok { OnOk result (Ok plan.new ≡ input_plan M.next M.answers server.now input.now) }
    ensures may { OnOk result (MayCommit server.now plan.new) }
    ensures err { IfErr result
        (Refuses (IsLong input.now) (input_plan M.next M.answers server.now input.now)) }
{
    match *input {
        Input::Receive(bytes) => return on_text(server, alloc, bytes, plan),
        Input::Lead(choice) => return on_lead(server, choice, plan),
        Input::LeadRange(range) => *plan = on_lead_range(server, range)?,
        Input::Interrupt { source, occurrence } => {
            on_interrupt(server, source, occurrence, plan);
        }
        Input::Tick { now } => on_tick(server, now, plan),
        Input::Report(first) => *plan = Plan::Report(first),
        Input::Ask(to) => *plan = on_ask_missing(server, to)?,
    }
    Ok(())
}
