//! What a server decides of votes, of decisions and of questions for decisions (Lamport, "Paxos
//! Made Simple", section 2.3).

ghost use Rattle.std.specs.Prelude.{◌≡◌, ◌≤◌};
ghost use Rattle.rp_base.specs.Action.{IsRight};
ghost use Rattle.rp_base.specs.Number.{IsPosition};
ghost use Rattle.rp_server.specs.rp_learner.specs.Status.{vote_for};
ghost use Rattle.rp_model.specs.Learner.{on_ask, on_accepted, on_decided};
ghost use Rattle.rp_rules.specs.Inputs.{running_server};
ghost use Rattle.rp_rules.specs.Plans.{MayCommit};
ghost use Rattle.rp_server.specs.Status.{status_of};

use rp_base::{Action, NodeId, Position, Vote};
use rp_codec::Header;
use rp_learner::VoteStatus;
use rp_machine::Machine;
use rp_model::{Dropped, Plan};
use rp_server::Roles;

/// An `Ask` comes.
pub(crate) fn on_ask<M: Machine>(server: &Roles<M>, from: NodeId, position: Position) -> Plan
    ensures plan { result ≡ on_ask (running_server M.next M.answers server.now) from position }
    ensures may { MayCommit server.now result }
{
    match server.learned(position) {
        Some(action) => Plan::Inform(from, position, action),
        None => Plan::Pass(Dropped::No),
    }
}

/// An `Accepted` comes from one of the nodes, with a right action.
#[inline(always)]
pub(crate) fn on_accepted<M: Machine>(
    server: &Roles<M>,
    header: &Header,
    action: &Action,
    plan: &mut Plan,
)
    requires sender { header.now.from ≤ server.now.config.nodes }
    requires place { IsPosition header.now.position
        × (header.now.position ≤ server.now.config.max_positions) }
    requires right { IsRight action.now }
    ensures plan { plan.new ≡ on_accepted (running_server M.next M.answers server.now) header.now.from
        header.now.position (vote_for header.now.ballot action.now) }
    ensures may { MayCommit server.now plan.new }
{
    match server.status(header.from, header.position, header.ballot, action) {
        VoteStatus::Known | VoteStatus::Beyond => *plan = Plan::Pass(Dropped::No),
        VoteStatus::Counting => {
            let vote = Vote {
                ballot: header.ballot,
                action: *action,
            };
            *plan = Plan::CountVote(header.from, header.position, vote);
        }
        VoteStatus::Learned => *plan = Plan::Learn(header.position, *action),
    }
}

/// A `Decided` comes, with a right action.
#[inline(always)]
pub(crate) fn on_decided<M: Machine>(
    server: &Roles<M>,
    from: NodeId,
    position: Position,
    action: &Action,
    plan: &mut Plan,
)
    requires place { position ≤ server.now.config.max_positions }
    requires right { IsRight action.now }
    ensures plan { plan.new
        ≡ on_decided (running_server M.next M.answers server.now) from position action.now }
    ensures may { MayCommit server.now plan.new }
{
    if server.is_learned(position) {
        *plan = Plan::Pass(Dropped::No);
    } else {
        *plan = Plan::Follow(from, position, *action);
    }
}
