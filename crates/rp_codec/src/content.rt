//! What was read of a packet, before memory is taken for a report's actions or a promise's votes.

use crate::packet::{Body, Party};
use crate::reader::Reader;
use crate::version::Version;
use rp_base::{Ballot, Position, PositionRange};

/// What a packet says.
#[derive(Drop)]
pub(crate) enum Content<'a> {
    Whole(Body),
    /// A report, whose actions are the first `count` of what is at `actions`.
    Listed {
        version: Version,
        first: Position,
        applied: u16,
        count: u8,
        actions: Reader<'a>,
    },
    /// A promise for a range. How many votes it reports, and then each of them, are at `votes`.
    Voted {
        version: Version,
        range: PositionRange,
        ballot: Ballot,
        votes: Reader<'a>,
    },
}

/// A packet's parties and what it says.
#[derive(Drop)]
pub(crate) struct Found<'a> {
    pub(crate) from: Party,
    pub(crate) to: Party,
    pub(crate) content: Content<'a>,
}
