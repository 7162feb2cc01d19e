//! What a server decides as a leader: how it leads at a position, and of promises (Lamport, "Paxos
//! Made Simple", section 2.2).

ghost use Rattle.std.specs.Prelude.{◌≡◌, ◌+◌, ◌^◌, ◌<◌, ◌≤◌, Some, is_some, unwrap_or, Ok, Err, IfNone, IfErr, IfSome, OnOk, false};
ghost use Rattle.rp_base.specs.Action.{IsRight};
ghost use Rattle.rp_base.specs.Ballot.{IsAbove, next_ballot, round_of};
ghost use Rattle.rp_base.specs.Records.{learned_at};
ghost use Rattle.rp_model.specs.Effect as inputs;
ghost use Rattle.rp_model.specs.Effect.{plan_of};
ghost use Rattle.rp_model.specs.Leader.{is_out_of_reach, starts_above, begins_if, on_promise};
ghost use Rattle.rp_model.specs.Node.{own_for};
ghost use Rattle.rp_rules.specs.Inputs.{running_server};
ghost use Rattle.rp_rules.specs.Plans.{MayCommit, MayCount};

use rp_base::{Action, Fault, Position};
use rp_machine::Machine;
use rp_model::{CountedPromise, Dropped, Plan};
use rp_proposer::Progress;
use rp_server::Roles;

/// The command to lead at a position. If it is learned nothing happens, and a prepared proposal
/// there offers its action. It is refused with `LogFull` above the log or 64 positions above the
/// first unlearned one, with `BallotsSpent` if the node has no ballot left.
#[inline(always)]
pub(crate) fn on_lead_at<M: Machine>(
    server: &Roles<M>,
    position: Position,
    plan: &mut Plan,
) -> Result<(), Fault>
    ensures ok { OnOk result (Ok plan.new
        ≡ plan_of (running_server M.next M.answers server.now) (inputs.NodeInput.Lead (Some position))) }
    ensures may { OnOk result (MayCommit server.now plan.new) }
    ensures err { IfErr result (λ fault. Err fault
        ≡ plan_of (running_server M.next M.answers server.now) (inputs.NodeInput.Lead (Some position))) }
{
    if server.is_learned(position) {
        *plan = Plan::Pass(Dropped::No);
        return Ok(());
    }
    if server.is_out_of_reach(position) {
        return Err(Fault::LogFull);
    }
    match server.prepared(position) {
        Some((ballot, reported)) => {
            let action = prepared_action(server, position, reported);
            *plan = Plan::OfferPrepared(position, ballot, action);
            Ok(())
        }
        None => on_lead_unprepared(server, position, plan),
    }
}

/// What a prepared proposal at the position offers: the action of the highest vote that its
/// promises report, or one of its own if they report none.
fn prepared_action<M: Machine>(
    server: &Roles<M>,
    position: Position,
    reported: Option<Action>,
) -> Action
    ensures action { result
        ≡ unwrap_or reported (own_for (running_server M.next M.answers server.now) position) }
    ensures right { IfSome reported IsRight → IsRight result }
{
    match reported {
        Some(action) => action,
        None => server.own_action(position).get(),
    }
}

/// The command to lead at a position within reach at which nothing is learned or prepared.
fn on_lead_unprepared<M: Machine>(
    server: &Roles<M>,
    position: Position,
    plan: &mut Plan,
) -> Result<(), Fault>
    requires unlearned { is_some (learned_at server.now.records position) ≡ false }
    requires reach { is_out_of_reach server.now.config.max_positions server.now.records position
        ≡ false }
    ensures ok { OnOk result (Ok plan.new
        ≡ begins_if (running_server M.next M.answers server.now) position) }
    ensures may { OnOk result (MayCommit server.now plan.new) }
    ensures err { IfErr result (λ fault. Err fault
        ≡ begins_if (running_server M.next M.answers server.now) position) }
{
    match server.next_ballot() {
        Some(ballot) => {
            let own = server.own_action(position).get();
            *plan = Plan::Lead(position, ballot, own);
            Ok(())
        }
        None => Err(Fault::BallotsSpent),
    }
}

/// A `Promise` comes from one of the nodes, with a right vote.
#[inline(always)]
pub(crate) fn on_promise<M: Machine>(server: &Roles<M>, promise: CountedPromise, plan: &mut Plan)
    requires may { MayCount server.now promise }
    ensures plan { plan.new ≡ on_promise (running_server M.next M.answers server.now) promise }
    ensures may { MayCommit server.now plan.new }
{
    let CountedPromise {
        from,
        position,
        ballot,
        last,
    } = promise;
    match server.promise(from, position, ballot, last) {
        Progress::Offer(action) => *plan = Plan::Offer(promise, action),
        Progress::Waiting if server.is_preparing(position) => *plan = Plan::CountPromise(promise),
        Progress::Waiting | Progress::Stale => *plan = Plan::Pass(Dropped::No),
    }
}
