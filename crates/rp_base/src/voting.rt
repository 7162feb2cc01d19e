//! The answers of an acceptor.

use crate::ballot::Ballot;
use crate::number::Position;
use crate::placed::RangeVotes;
use crate::record::{Rec, Vote};

/// The answer to a `Prepare`.
#[derive(Clone, Copy, Debug, PartialEq, Eq)]
pub enum PrepareAnswer {
    /// The ballot is above the bound: a promise, which reports the last vote. The record is to be
    /// written, and then noted, before the promise is sent.
    Promise { last: Option<Vote>, rec: Rec },
    /// The ballot is below the bound, which is this.
    Nack(Ballot),
    /// The ballot is the bound: nothing is answered.
    Silent,
}

/// The answer to a `PrepareRange`.
#[derive(Debug, Drop)]
pub enum RangeAnswer {
    /// The ballot is above the bound at each position of the range: a promise for all of them,
    /// which reports the last vote of each position that has one. The record is to be written, and
    /// then noted, before the promise is sent.
    Promise { votes: RangeVotes, rec: Rec },
    /// The ballot is below the bound at a position of the range: the least such position, and its
    /// bound.
    Nack(Position, Ballot),
    /// The ballot is below no bound, and is the bound at some position: nothing is answered.
    Silent,
}

/// The answer to an `Accept`.
#[derive(Clone, Copy, Debug, PartialEq, Eq)]
pub enum AcceptAnswer {
    /// A vote. The record is to be written, and then noted, before the vote is sent.
    Vote { rec: Rec },
    /// The last vote is this one: it is sent again, and nothing is written.
    Again,
    /// The ballot is below the bound, which is this.
    Nack(Ballot),
    /// The last vote is for another action in this ballot: nothing is answered.
    Silent,
}
