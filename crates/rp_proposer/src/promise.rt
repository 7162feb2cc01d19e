//! A promise that came.

use rp_base::{Ballot, NodeId, PlacedVote, PositionRange, Vote};
use std::marker::Model;

/// A promise: who sent it, and the last vote that it reports.
#[derive(Clone, Copy)]
pub(crate) struct HeardPromise {
    pub(crate) from: NodeId,
    pub(crate) last: Option<Vote>,
}

impl Model for HeardPromise {
    ghost use Rattle.rp_base.specs.Promises.{Promise};

    ghost Value = { Promise };

    ghost view = { λ p. (p.from, p.last) };

    ghost inverse = { λ p. record { from = p.0; last = p.1 } };
}

/// A promise for a range: who sent it, its range and ballot, and the last votes that it reports.
#[derive(Clone, Copy)]
pub(crate) struct HeardRange<'a> {
    pub(crate) from: NodeId,
    pub(crate) range: PositionRange,
    pub(crate) ballot: Ballot,
    pub(crate) votes: &'a [PlacedVote],
}
