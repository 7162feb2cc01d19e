ghost use Rattle.std.specs.Prelude.{◌≡◌, ◌∷◌, []};
ghost use Rattle.rp_acceptor.specs.Noted.{places_in, ranges_in};

use crate::compare::expect_eq;
use crate::values::{ballot, call, position};
use rp_acceptor::*;
use rp_base::{Ballot, Position, Rec, Vote};
use std::alloc::Global;
use std::process::Abort;

/// The acceptor of these records.
fn restored(rt: &impl Abort, alloc: Global, records: &[Rec]) -> Acceptor {
    Acceptor::restore(alloc, records).expect(rt, "memory for the records")
}

/// Ends the test unless a `Prepare` is answered so.
fn expect_prepare(
    rt: &impl Abort,
    acceptor: &Acceptor,
    at: Position,
    ballot: Ballot,
    expected: PrepareAnswer,
) {
    expect_eq(rt, acceptor.prepare(at, ballot), expected);
}

/// Ends the test unless an `Accept` of the call with this argument is answered so.
fn expect_accept(
    rt: &impl Abort,
    acceptor: &Acceptor,
    at: Position,
    (ballot, arg): (Ballot, i64),
    expected: AcceptAnswer,
) {
    let found = acceptor.accept(at, ballot, &call(arg));
    expect_eq(rt, found, expected);
}

/// An `Accept` of the call with this argument gets a vote.
fn expect_vote(rt: &impl Abort, acceptor: &Acceptor, at: Position, ballot: Ballot, arg: i64) {
    let rec = Rec::Voted(at, ballot, call(arg));
    expect_accept(rt, acceptor, at, (ballot, arg), AcceptAnswer::Vote { rec });
}

/// The acceptor promises the ballot at a position, and reports this vote.
fn expect_promise(
    rt: &impl Abort,
    acceptor: &Acceptor,
    at: Position,
    ballot: Ballot,
    last: Option<Vote>,
) {
    let rec = Rec::Promised(at, ballot);
    expect_prepare(
        rt,
        acceptor,
        at,
        ballot,
        PrepareAnswer::Promise { last, rec },
    );
}

/// Makes room for a record at a position, which is a promise or a vote there, and notes it.
fn write(rt: &impl Abort, acceptor: &mut Acceptor, position: Position, rec: &Rec)
    requires place { places_in rec.now ≡ position ∷ [] }
    requires no_range { ranges_in rec.now ≡ [] }
{
    acceptor
        .reserve(position)
        .expect(rt, "memory for the record");
    acceptor.note(rec);
}

/// An acceptor that has promised ballot 10 at position 1.
#[test]
fn a_promise_refuses_lower_ballots_at_its_position_alone(rt: HostRuntime) {
    let first = Position::first();
    let nine = ballot(&rt, 9);
    let ten = ballot(&rt, 10);
    let acceptor = restored(&rt, rt.alloc(), &[Rec::Promised(first, ten)]);
    expect_prepare(&rt, &acceptor, first, nine, PrepareAnswer::Nack(ten));
    expect_prepare(&rt, &acceptor, first, ten, PrepareAnswer::Silent);
    expect_accept(&rt, &acceptor, first, (nine, 5), AcceptAnswer::Nack(ten));
    expect_vote(&rt, &acceptor, first, ten, 5);
    expect_vote(&rt, &acceptor, position(&rt, 2), nine, 2);
}

/// An acceptor that has voted for the call with 5 in ballot 10 at position 1.
#[test]
fn a_ballot_gets_one_vote_of_which_a_higher_one_hears(rt: HostRuntime) {
    let first = Position::first();
    let ten = ballot(&rt, 10);
    let higher = ballot(&rt, 18);
    let vote = Rec::Voted(first, ten, call(5));
    let mut acceptor = restored(&rt, rt.alloc(), &[vote]);
    expect_accept(&rt, &acceptor, first, (ten, 5), AcceptAnswer::Again);
    expect_accept(&rt, &acceptor, first, (ten, 2), AcceptAnswer::Silent);
    expect_promise(&rt, &acceptor, first, higher, voted(ten));
    write(&rt, &mut acceptor, first, &Rec::Promised(first, higher));
    expect_accept(&rt, &acceptor, first, (ten, 5), AcceptAnswer::Nack(higher));
}

/// A vote for the call with 5.
fn voted(ballot: Ballot) -> Option<Vote> {
    Some(Vote {
        ballot,
        action: call(5),
    })
}

/// Records at positions 1, 3 and 100. The first vote at position 3 is the one that counts.
fn several_records(rt: &impl Abort) -> [Rec; 7] {
    let first = Position::first();
    let third = position(rt, 3);
    let ten = ballot(rt, 10);
    let eighteen = ballot(rt, 18);
    [
        Rec::Started(ballot(rt, 9)),
        Rec::Voted(third, eighteen, call(5)),
        Rec::Promised(first, ten),
        Rec::Voted(third, eighteen, call(2)),
        Rec::Voted(third, ten, call(1)),
        Rec::Learned(third, call(5)),
        Rec::Promised(position(rt, 100), ten),
    ]
}

#[test]
fn restored_records_count_in_their_order(rt: HostRuntime) {
    let acceptor = restored(&rt, rt.alloc(), &several_records(&rt));
    let last = ballot(&rt, 26);
    for number in [1, 2, 4, 100] {
        expect_promise(&rt, &acceptor, position(&rt, number), last, None);
    }
    let ten = ballot(&rt, 10);
    let far = position(&rt, 100);
    expect_promise(
        &rt,
        &acceptor,
        position(&rt, 3),
        last,
        voted(ballot(&rt, 18)),
    );
    expect_prepare(
        &rt,
        &acceptor,
        Position::first(),
        ten,
        PrepareAnswer::Silent,
    );
    expect_prepare(&rt, &acceptor, far, ten, PrepareAnswer::Silent);
}
