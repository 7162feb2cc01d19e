ghost use Rattle.std.specs.Prelude.{◌≡◌, ◌≤◌};
ghost use Rattle.rp_learner.specs.Status.{SameSizes, fresh};

use crate::compare::expect_eq;
use rp_base::{Action, Ballot, NodeId, Position};
use rp_learner::*;
use std::alloc::Global;
use std::process::Abort;

/// The node of this number, which is one of the learner's nodes.
pub(crate) fn node_of(rt: &impl Abort, number: u8, nodes: u8) -> NodeId
    ensures { result ≤ nodes }
{
    let node = NodeId::new(number).expect(rt, "a node");
    if node.get() > nodes {
        panic!(rt; "a node of the learner");
    }
    node
}

fn ballot(rt: &impl Abort, number: u64) -> Ballot {
    Ballot::new(number).expect(rt, "a ballot")
}

/// A node's vote for Noop at position 1 in the ballot would have this status once it is counted.
fn expect_noop(rt: &impl Abort, learner: &Learner, from: NodeId, ballot: Ballot, status: VoteStatus)
    requires { from ≤ learner.now.nodes }
{
    let found = learner.vote(from, Position::first(), ballot, &Action::Noop);
    expect_eq(rt, found, status);
}

/// Notes a vote of a node in a ballot for Noop at position 1, and compares the status that it has
/// once it is counted. If memory runs out, this status does not change, and the vote is noted
/// again.
fn note_noop(
    rt: &impl Abort,
    learner: &mut Learner,
    alloc: Global,
    from: NodeId,
    vote: (u64, VoteStatus),
)
    requires { from ≤ learner.old.nodes }
    ensures { SameSizes learner.new learner.old }
{
    let (number, status) = vote;
    let ballot = ballot(rt, number);
    let first = Position::first();
    expect_noop(rt, learner, from, ballot, status);
    if learner
        .note_vote(alloc, from, first, ballot, &Action::Noop)
        .is_err()
    {
        expect_noop(rt, learner, from, ballot, status);
        let noted = learner.note_vote(alloc, from, first, ballot, &Action::Noop);
        noted.expect(rt, "memory for the vote");
    }
}

/// A learner of this many nodes notes the votes in turn.
fn note_all(
    rt: &impl Abort,
    alloc: Global,
    nodes: u8,
    max_positions: u16,
    votes: &[(u8, u64, VoteStatus)],
)
    requires { (3 ≤ nodes) × (nodes ≤ 7) × (1 ≤ max_positions) }
{
    let mut learner = new_learner(rt, alloc, nodes, max_positions);
    for (from, ballot, status) in votes.iter().copied() {
        let from = node_of(rt, from, nodes);
        note_noop(rt, &mut learner, alloc, from, (ballot, status));
    }
    drop(learner);
}

/// A new learner, tried again if memory ran out once.
fn new_learner(rt: &impl Abort, alloc: Global, nodes: u8, max_positions: u16) -> Learner
    requires { (3 ≤ nodes) × (nodes ≤ 7) }
    ensures { result ≡ fresh nodes max_positions }
{
    match Learner::new(alloc, nodes, max_positions) {
        Ok(learner) => learner,
        Err(_) => Learner::new(alloc, nodes, max_positions).expect(rt, "memory for the learner"),
    }
}

/// Votes of four nodes, of whom three are a majority, and the statuses that result from them.
const OF_FOUR: [(u8, u64, VoteStatus); 6] = [
    (1, 9, VoteStatus::Counting),
    (2, 9, VoteStatus::Counting),
    (2, 9, VoteStatus::Counting),
    (3, 18, VoteStatus::Counting),
    (3, 9, VoteStatus::Learned),
    (4, 9, VoteStatus::Known),
];

/// Votes of seven nodes, of whom four are a majority, and the statuses that result from them.
const OF_SEVEN: [(u8, u64, VoteStatus); 7] = [
    (1, 9, VoteStatus::Counting),
    (2, 9, VoteStatus::Counting),
    (2, 9, VoteStatus::Counting),
    (3, 18, VoteStatus::Counting),
    (3, 9, VoteStatus::Counting),
    (4, 9, VoteStatus::Learned),
    (5, 9, VoteStatus::Known),
];

#[test]
fn a_majority_is_of_one_ballot_and_of_different_nodes(rt: HostRuntime) {
    note_all(&rt, rt.alloc(), 4, 1, &OF_FOUR);
    note_all(&rt, rt.alloc(), 7, 65_535, &OF_SEVEN);
}

fn position(rt: &impl Abort, number: u16) -> Position {
    Position::new(number).expect(rt, "a position")
}

/// A learner of three nodes whose window begins at position 1.
fn learner_of_three(rt: &impl Abort, alloc: Global, max_positions: u16) -> Learner
    ensures { (result.nodes ≡ 3) × (result.first ≡ 1) }
{
    new_learner(rt, alloc, 3, max_positions)
}

/// A vote of a node in ballot 9 would have this status once it is counted.
fn expect_status(
    rt: &impl Abort,
    learner: &Learner,
    cast: (u8, u16),
    action: &Action,
    status: VoteStatus,
)
    requires { learner.now.nodes ≡ 3 }
{
    let (from, at) = cast;
    let found = learner.vote(
        node_of(rt, from, 3),
        position(rt, at),
        ballot(rt, 9),
        action,
    );
    expect_eq(rt, found, status);
}

/// Notes a vote of a node in ballot 9, and retries once if memory ran out.
fn note(rt: &impl Abort, learner: &mut Learner, alloc: Global, cast: (u8, u16), action: &Action)
    requires { learner.old.nodes ≡ 3 }
    ensures { SameSizes learner.new learner.old }
{
    let (from, at) = cast;
    let from = node_of(rt, from, 3);
    let at = position(rt, at);
    if learner
        .note_vote(alloc, from, at, ballot(rt, 9), action)
        .is_err()
    {
        let noted = learner.note_vote(alloc, from, at, ballot(rt, 9), action);
        noted.expect(rt, "memory for the vote");
    }
}

#[test]
fn a_majority_is_for_one_action(rt: HostRuntime) {
    let mut learner = learner_of_three(&rt, rt.alloc(), 2);
    let tick = Action::Tick { now: 5 };
    note(&rt, &mut learner, rt.alloc(), (1, 2), &tick);
    note(&rt, &mut learner, rt.alloc(), (2, 2), &Action::Noop);
    expect_status(&rt, &learner, (2, 2), &Action::Noop, VoteStatus::Counting);
    expect_status(&rt, &learner, (2, 1), &tick, VoteStatus::Counting);
    expect_status(&rt, &learner, (2, 2), &tick, VoteStatus::Learned);
    drop(learner);
}

/// The learner has this decision at a position.
fn expect_decided(rt: &impl Abort, learner: &Learner, at: u16, decision: Decision) {
    expect_eq(rt, learner.decided(position(rt, at)), decision);
}

#[test]
fn a_settled_position_is_known_and_no_other(rt: HostRuntime) {
    same_learners_answer_alike();
    let noop = Action::Noop;
    let mut learner = learner_of_three(&rt, rt.alloc(), 2);
    learner.settled(Position::first());
    learner.settled(Position::first());
    expect_decided(&rt, &learner, 1, Decision::Known);
    expect_decided(&rt, &learner, 2, Decision::Learned);
    expect_decided(&rt, &learner, 3, Decision::Learned);
    expect_status(&rt, &learner, (1, 1), &noop, VoteStatus::Known);
    expect_status(&rt, &learner, (1, 2), &noop, VoteStatus::Counting);
    expect_status(&rt, &learner, (1, 3), &noop, VoteStatus::Counting);
    drop(learner);
}

/// Node 1 votes at positions 64 and 65, of which only the first is in the window.
fn vote_at_the_window_s_end(rt: &impl Abort, learner: &mut Learner, alloc: Global)
    requires { learner.old.nodes ≡ 3 }
    ensures { SameSizes learner.new learner.old }
{
    let noop = Action::Noop;
    expect_status(rt, learner, (1, 64), &noop, VoteStatus::Counting);
    note(rt, learner, alloc, (1, 64), &noop);
    expect_status(rt, learner, (1, 65), &noop, VoteStatus::Beyond);
    note(rt, learner, alloc, (1, 65), &noop);
    expect_decided(rt, learner, 65, Decision::Beyond);
    learner.settled(position(rt, 65));
    learner.settled(Position::first());
}

/// Once the window begins at position 2, the vote at 64 still counts.
fn expect_moved_by_one(rt: &impl Abort, learner: &Learner)
    requires { learner.now.nodes ≡ 3 }
{
    let noop = Action::Noop;
    expect_status(rt, learner, (1, 65), &noop, VoteStatus::Counting);
    expect_status(rt, learner, (2, 65), &noop, VoteStatus::Counting);
    expect_status(rt, learner, (2, 64), &noop, VoteStatus::Learned);
    expect_status(rt, learner, (1, 1), &noop, VoteStatus::Known);
    expect_decided(rt, learner, 1, Decision::Known);
    expect_decided(rt, learner, 64, Decision::Learned);
    expect_decided(rt, learner, 65, Decision::Learned);
    expect_decided(rt, learner, 66, Decision::Beyond);
}

#[test]
fn votes_are_counted_in_a_window_that_moves_on(rt: HostRuntime) {
    let noop = Action::Noop;
    let mut learner = learner_of_three(&rt, rt.alloc(), 1000);
    vote_at_the_window_s_end(&rt, &mut learner, rt.alloc());
    learner.advance(2, 0);
    expect_moved_by_one(&rt, &learner);
    learner.advance(3, 1 << 63);
    expect_decided(&rt, &learner, 65, Decision::Learned);
    expect_decided(&rt, &learner, 66, Decision::Known);
    expect_status(&rt, &learner, (2, 64), &noop, VoteStatus::Learned);
    learner.advance(200, 1);
    expect_decided(&rt, &learner, 66, Decision::Known);
    expect_status(&rt, &learner, (1, 200), &noop, VoteStatus::Known);
    drop(learner);
}
