//! What the records say of a position, and what a record adds.

ghost use Rattle.std.specs.Prelude.{◌≡◌, ◌+◌, ◌<◌, IfSome};
ghost use Rattle.rp_base.specs.Ballot.{number_of};
ghost use Rattle.rp_acceptor.specs.Slots.{stretch_in};
ghost use Rattle.rp_acceptor.specs.Levels.{IsPromised};

use rp_base::{Ballot, Position, Rec, Vote};
use std::marker::Model;

/// The number of the bound at a position, 0 if there is none, and the last vote there.
#[derive(Clone, Copy)]
pub struct Slot<'a> {
    pub bound: u64,
    pub last: Option<&'a Vote>,
}

/// A promise: its ballot, from a position on and below another.
#[derive(Clone, Copy)]
pub struct Stretch {
    pub first: usize,
    pub end: usize,
    pub ballot: Ballot,
}

impl Model for Stretch {
    ghost use Rattle.rp_acceptor.specs.Slots as slots;

    ghost Value = { slots.Stretch };

    ghost view = { λ s. record { first = s.first; end = s.end; ballot = s.ballot } };

    ghost inverse = { λ s. record { first = s.first; end = s.end; ballot = s.ballot } };
}

/// The promise for a range that a record is, if it is one.
#[inline(always)]
pub fn stretch_in(rec: &Rec) -> Option<Stretch>
    ensures stretch { result ≡ stretch_in rec.now }
    ensures rises { IfSome result (λ stretch. stretch.first < stretch.end) }
{
    match rec {
        Rec::PromisedRange(range, ballot) => Some(Stretch {
            first: usize::from(range.first().get()),
            end: range.end() as usize,
            ballot: *ballot,
        }),
        Rec::Started(_) | Rec::Promised(_, _) | Rec::Voted(_, _, _) | Rec::Learned(_, _) => None,
    }
}

/// The ballot of this number, or none if it is 0.
#[inline(always)]
pub fn ballot_of(number: u64) -> Option<Ballot>
    requires { IsPromised number }
    ensures { number_of result ≡ number }
{
    Ballot::new(number)
}

/// The index of a position's place.
pub fn index_of_position(position: Position) -> usize
    ensures { result + 1 ≡ position }
{
    usize::from(position.get()) - 1
}
