//! What a server decides of a question for a promise or a vote (Lamport, "Paxos Made Simple",
//! section 2.2).

ghost use Rattle.std.specs.Prelude.{◌≡◌, ◌≤◌, true};
ghost use Rattle.rp_base.specs.Action.{IsRight};
ghost use Rattle.rp_model.specs.Acceptor.{on_prepare, on_prepare_range, on_accept};
ghost use Rattle.rp_model.specs.Receiving.{is_range_within};
ghost use Rattle.rp_rules.specs.Inputs.{running_server};
ghost use Rattle.rp_rules.specs.Plans.{MayCommit};

use rp_acceptor::Comparison;
use rp_base::{
    AcceptAnswer, Action, Ballot, NodeId, Position, PositionRange, PrepareAnswer,
    last_votes_lie_below, range_votes_are_reported,
};
use rp_codec::Header;
use rp_machine::Machine;
use rp_model::{Dropped, Plan, RangePromise};
use rp_server::Roles;

/// A `Prepare` comes.
#[inline(always)]
pub(crate) fn on_prepare<M: Machine>(
    server: &Roles<M>,
    from: NodeId,
    position: Position,
    ballot: Ballot,
    plan: &mut Plan,
)
    requires place { position ≤ server.now.config.max_positions }
    ensures plan { plan.new ≡ on_prepare (running_server M.next M.answers server.now) from position ballot }
    ensures may { MayCommit server.now plan.new }
{
    last_votes_lie_below();
    server.has_right_records();
    match server.prepare(position, ballot) {
        PrepareAnswer::Promise { last, rec: _ } => {
            *plan = Plan::Promise(server.header_to(from, position, ballot), last);
        }
        PrepareAnswer::Nack(bound) => *plan = Plan::Refuse {
            to: from,
            position,
            ballot,
            bound,
        },
        PrepareAnswer::Silent => *plan = Plan::Pass(Dropped::No),
    }
}

/// A `PrepareRange` comes.
#[inline(never)]
pub(crate) fn on_prepare_range<M: Machine>(
    server: &Roles<M>,
    from: NodeId,
    range: PositionRange,
    ballot: Ballot,
) -> Plan
    requires place { is_range_within server.now.config.max_positions range ≡ true }
    ensures plan { result
        ≡ on_prepare_range (running_server M.next M.answers server.now) from range ballot }
    ensures may { MayCommit server.now result }
{
    range_votes_are_reported();
    server.has_right_records();
    match server.compare(range, ballot) {
        Comparison::Above => Plan::PromiseRange(RangePromise {
            to: from,
            range,
            ballot,
        }),
        Comparison::Below(position, bound) => Plan::Refuse {
            to: from,
            position,
            ballot,
            bound,
        },
        Comparison::Equal => Plan::Pass(Dropped::No),
    }
}

/// An `Accept` comes, with a right action.
#[inline(always)]
pub(crate) fn on_accept<M: Machine>(
    server: &Roles<M>,
    header: &Header,
    action: &Action,
    plan: &mut Plan,
)
    requires place { header.now.position ≤ server.now.config.max_positions }
    requires right { IsRight action.now }
    ensures plan { plan.new ≡ on_accept (running_server M.next M.answers server.now) header.now.from
        header.now.position header.now.ballot action.now }
    ensures may { MayCommit server.now plan.new }
{
    match server.accept(header.position, header.ballot, action) {
        AcceptAnswer::Vote { rec: _vote } => {
            let answer = server.header_to(header.from, header.position, header.ballot);
            *plan = Plan::Vote(answer, *action);
        }
        AcceptAnswer::Again => {
            *plan = Plan::Repeat(header.from, header.position, header.ballot, *action);
        }
        AcceptAnswer::Nack(bound) => *plan = Plan::Refuse {
            to: header.from,
            position: header.position,
            ballot: header.ballot,
            bound,
        },
        AcceptAnswer::Silent => *plan = Plan::Pass(Dropped::No),
    }
}
