//! Which packets may go from whom to whom.

ghost use Rattle.std.specs.Prelude.{◌≡◌, ◌↔◌, ◌<◌, ◌^◌, All, IsTrue};
ghost use Rattle.rp_base.specs.Right.{IsReply};
ghost use Rattle.rp_codec.specs.Message.{IsParty, IsBody, IsCallBy, IsCallOf, report_len};
ghost use Rattle.rp_base.specs.Ballot.{IsBallot};
ghost use Rattle.rp_base.specs.Ranges.{IsRange};

use crate::packet::{Body, Party};
use rp_base::{Action, PlacedVote, Position, PositionRange, Reply, TaskId};

/// How many actions the longest report has.
const MOST_ACTIONS: u32 = 200;

/// Shows that a party's number is within its range.
pub(crate) fn party_in_range(party: &Party)
    ensures { IsParty party.now }
{
    match party {
        Party::Node(node) => {
            let _number = node.get();
        }
        Party::Task(task) => {
            let _number = task.get();
        }
        Party::Audit => {}
    }
}

fn reply_in_range(reply: Reply)
    ensures { IsReply reply }
{
    if let Reply::Value(value) = reply {
        let _value = value;
    }
}

fn applied_in_range(applied: u16)
    ensures { applied < 2 ^ 16 }
{}

fn range_in_range(range: PositionRange)
    ensures { IsRange range }
{
    let _first = range.first();
}

/// Shows that each ballot of the votes is one.
fn votes_in_range(votes: &[PlacedVote])
    ensures { All (λ placed. IsBallot placed.vote.ballot) votes.now }
{
    for placed in votes {
        let _number = placed.vote.ballot.get();
    }
}

/// Shows that each position and each ballot of a body is within its range.
pub(crate) fn body_in_range(body: &Body)
    ensures { IsBody body.now }
{
    match body {
        Body::Call { action: _ } => {}
        Body::Prepare { position, ballot }
        | Body::Accept {
            position,
            ballot,
            action: _,
        }
        | Body::Accepted {
            position,
            ballot,
            action: _,
        } => {
            let _numbers = (position.get(), ballot.get());
        }
        Body::Promise {
            position,
            ballot,
            last,
        } => {
            let _numbers = (position.get(), ballot.get());
            if let Some(vote) = last {
                let _number = vote.ballot.get();
            }
        }
        Body::Decided {
            position,
            action: _,
        }
        | Body::Ask { position } => {
            let _number = position.get();
        }
        Body::Nack {
            position,
            ballot,
            bound,
        } => {
            let _numbers = (position.get(), ballot.get(), bound.get());
        }
        Body::Reply { number: _, reply } => reply_in_range(*reply),
        Body::Report { first, applied, .. } => {
            let _number = first.get();
            applied_in_range(*applied);
        }
        Body::PrepareRange { range, ballot } => {
            range_in_range(*range);
            let _number = ballot.get();
        }
        Body::PromiseRange {
            range,
            ballot,
            votes,
        } => {
            range_in_range(*range);
            let _number = ballot.get();
            votes_in_range(votes.as_slice());
        }
    }
}

fn is_call_by(task: TaskId, action: Action) -> bool
    ensures { IsTrue result ↔ IsCallBy task action }
{
    match action {
        Action::Call { task: caller, .. } => caller.get() == task.get(),
        Action::Noop | Action::Interrupt { .. } | Action::Tick { .. } => false,
    }
}

#[inline(always)]
pub(crate) fn is_call_of(party: &Party, action: &Action) -> bool
    ensures { IsTrue result ↔ IsCallOf party.now action.now }
{
    match party {
        Party::Task(task) => is_call_by(*task, *action),
        Party::Node(_) | Party::Audit => false,
    }
}

/// How many actions a report from this position on has, where the actions up to the position
/// `applied` are applied: those that there are, and at most 200.
pub fn report_len(first: Position, applied: u16) -> u8
    ensures { result ≡ report_len first applied }
{
    let from_first = (u32::from(applied) + 1).saturating_sub(u32::from(first.get()));
    from_first.min(MOST_ACTIONS) as u8
}
