ghost use Rattle.std.specs.Prelude.{◌≡◌, ◌≤◌};

use crate::compare::{expect_at, expect_eq};
use crate::values::{ballot, position};
use rp_base::{Action, Ballot, Fault, NodeId, Position, Rec, Vote};
use rp_proposer::*;
use std::alloc::Global;
use std::process::Abort;

/// One of three nodes.
fn node(rt: &impl Abort, number: u8) -> NodeId
    ensures { result ≤ 3 }
{
    let node = NodeId::new(number).expect(rt, "a node");
    assert!(rt; node.get() <= 3, "one of three");
    node
}

fn vote(rt: &impl Abort, number: u64, action: Action) -> Option<Vote> {
    Some(Vote {
        ballot: ballot(rt, number),
        action,
    })
}

const A: Action = Action::Tick { now: 1 };

const B: Action = Action::Tick { now: 2 };

/// The proposer of one of three nodes, which wrote these records.
fn restored(rt: &impl Abort, alloc: Global, number: u8, records: &[Rec]) -> Proposer
    ensures { result.nodes ≡ 3 }
{
    match Proposer::restore(alloc, node(rt, number), 3, records) {
        Ok(proposer) => proposer,
        Err(fault) => panic!(rt; "{fault:?}"),
    }
}

/// Leads at a position in the next ballot.
fn lead(rt: &impl Abort, proposer: &mut Proposer, position: Position, own: Action) -> Ballot
    ensures { proposer.new.nodes ≡ proposer.old.nodes }
{
    if !proposer.has_room(position) {
        panic!(rt; "no room");
    }
    match proposer.ballot() {
        Ok(ballot) => {
            proposer.begin(position, ballot, Some(own));
            ballot
        }
        Err(fault) => panic!(rt; "{fault:?}"),
    }
}

/// A proposer of node 1 of 3 that leads at position 1 in ballot 9, with `A` of its own.
fn leader(rt: &impl Abort, alloc: Global) -> Proposer
    ensures { result.nodes ≡ 3 }
{
    let mut proposer = restored(rt, alloc, 1, &[]);
    lead(rt, &mut proposer, Position::first(), A);
    proposer
}

/// What a promise for position 1 makes of its proposal.
fn progress(
    rt: &impl Abort,
    proposer: &Proposer,
    sender: u8,
    ballot: Ballot,
    last: Option<Vote>,
) -> Progress
    requires { proposer.now.nodes ≡ 3 }
{
    proposer.promise(node(rt, sender), Position::first(), ballot, last)
}

/// What a promise for position 1 makes of its proposal; it is noted.
fn promised(
    rt: &impl Abort,
    proposer: &mut Proposer,
    sender: u8,
    ballot: Ballot,
    last: &Option<Vote>,
) -> Progress
    requires { proposer.old.nodes ≡ 3 }
    ensures { proposer.new.nodes ≡ 3 }
{
    let sender = node(rt, sender);
    let progress = proposer.promise(sender, Position::first(), ballot, *last);
    proposer.note_promise(sender, Position::first(), ballot, *last);
    progress
}

/// A proposer of node 2 of 3, which started ballot 10 and leads at position 1 in ballot 18.
fn later_leader(rt: &impl Abort, alloc: Global) -> Proposer
    ensures { result.nodes ≡ 3 }
{
    let mut proposer = restored(rt, alloc, 2, &[Rec::Started(ballot(rt, 10))]);
    let leading = ballot(rt, 18);
    expect_eq(rt, proposer.ballot(), Ok(leading));
    let led = lead(rt, &mut proposer, Position::first(), Action::Noop);
    expect_eq(rt, led, leading);
    proposer
}

/// Ends the test unless a promise makes this of its proposal.
fn expect_progress(rt: &impl Abort, found: Progress, expected: Progress) {
    expect_eq(rt, found, expected);
}

/// The proposer's next ballot, and the ballot of the proposal at position 1, are these.
fn expect_ballots(rt: &impl Abort, proposer: &Proposer, next: u64, running: Option<u64>) {
    let found = match proposer.ballot() {
        Ok(ballot) => ballot.get(),
        Err(_) => 0,
    };
    let runs = match proposer.runs(Position::first()) {
        Some(ballot) => Some(ballot.get()),
        None => None,
    };
    expect_eq(rt, (found, runs), (next, running));
}

#[test]
fn a_majority_offers_the_highest_vote(rt: HostRuntime) {
    let mut proposer = later_leader(&rt, rt.alloc());
    let leading = ballot(&rt, 18);
    expect_ballots(&rt, &proposer, 26, Some(18));
    let low = vote(&rt, 9, A);
    let first = promised(&rt, &mut proposer, 1, leading, &low);
    expect_progress(&rt, first, Progress::Waiting);
    let again = promised(&rt, &mut proposer, 1, leading, &low);
    expect_progress(&rt, again, Progress::Waiting);
    let majority = progress(&rt, &proposer, 3, leading, vote(&rt, 10, B));
    let stale = progress(&rt, &proposer, 3, ballot(&rt, 17), None);
    proposer.nack(Position::first(), leading, ballot(&rt, 27));
    let refused = progress(&rt, &proposer, 3, leading, None);
    expect_ballots(&rt, &proposer, 34, None);
    drop(proposer);
    expect_progress(&rt, majority, Progress::Offer(B));
    expect_progress(&rt, stale, Progress::Stale);
    expect_progress(&rt, refused, Progress::Stale);
}

#[test]
fn the_own_action_is_offered_once_where_no_vote_is_reported(rt: HostRuntime) {
    one_offer_at_most();
    let mut proposer = leader(&rt, rt.alloc());
    let leading = ballot(&rt, 9);
    let other = promised(&rt, &mut proposer, 2, leading, &None);
    let own = promised(&rt, &mut proposer, 1, leading, &None);
    let last = promised(&rt, &mut proposer, 3, leading, &None);
    drop(proposer);
    expect_progress(&rt, other, Progress::Waiting);
    expect_progress(&rt, own, Progress::Offer(A));
    expect_progress(&rt, last, Progress::Waiting);
}

/// The proposal of a leader is refused in another ballot, and then in its own.
fn refuses(rt: &impl Abort, proposer: &mut Proposer) {
    let first = Position::first();
    let ten = ballot(rt, 10);
    proposer.nack(first, ten, ballot(rt, 18));
    expect_ballots(rt, proposer, 17, Some(9));
    proposer.nack(first, ballot(rt, 9), ten);
    expect_ballots(rt, proposer, 17, None);
}

/// A leader that leads again, with `B` of its own.
fn replaces(rt: &impl Abort, proposer: &mut Proposer)
    ensures { proposer.new.nodes ≡ proposer.old.nodes }
{
    let first = Position::first();
    lead(rt, proposer, first, B);
    expect_ballots(rt, proposer, 25, Some(17));
    let second = position(rt, 2);
    let own = (
        proposer.is_own_elsewhere(first, &B),
        proposer.is_own_elsewhere(second, &B),
    );
    expect_eq(rt, own, (false, true));
    let before = (
        proposer.is_own_elsewhere(first, &A),
        proposer.is_own_elsewhere(second, &A),
    );
    expect_eq(rt, before, (false, false));
}

#[test]
fn a_proposal_runs_until_it_is_replaced_or_settled(rt: HostRuntime) {
    let mut proposer = leader(&rt, rt.alloc());
    replaces(&rt, &mut proposer);
    proposer.settled(Position::first());
    expect_ballots(&rt, &proposer, 25, None);
    drop(proposer);
}

#[test]
fn a_proposal_runs_until_it_is_refused(rt: HostRuntime) {
    let mut proposer = leader(&rt, rt.alloc());
    refuses(&rt, &mut proposer);
    drop(proposer);
}

/// The next ballot of a node that started the last round's ballot of node 1.
fn expect_next(rt: &impl Abort, alloc: Global, number: u8, next: &Result<Ballot, Fault>) {
    let last = Rec::Started(ballot(rt, 34_359_738_361));
    let proposer = restored(rt, alloc, number, &[last]);
    let found = proposer.ballot();
    drop(proposer);
    expect_eq(rt, found, *next);
}

#[test]
fn the_last_ballot_of_a_node_is_refused(rt: HostRuntime) {
    expect_next(&rt, rt.alloc(), 1, &Err(Fault::BallotsSpent));
    let next = ballot(&rt, 34_359_738_362);
    expect_next(&rt, rt.alloc(), 2, &Ok(next));
}

/// Leads at a position where there is room. Whether a proposal then runs there.
fn leads_where_there_is_room(rt: &impl Abort, proposer: &mut Proposer, number: u16) -> bool {
    let position = position(rt, number);
    if proposer.has_room(position) {
        lead(rt, proposer, position, A);
    }
    proposer.runs(position).is_some()
}

/// At each of 64 positions a proposal runs, at no other, and one may begin again at the first.
fn fills(rt: &impl Abort, proposer: &mut Proposer) {
    for number in 1..=65 {
        let running = leads_where_there_is_room(rt, proposer, number);
        expect_at(rt, &number, running, number <= 64);
    }
    expect_eq(rt, proposer.has_room(Position::first()), true);
}

#[test]
fn at_most_64_proposals_run(rt: HostRuntime) {
    a_window_has_room();
    let mut proposer = restored(&rt, rt.alloc(), 1, &[]);
    fills(&rt, &mut proposer);
    drop(proposer);
}
