//! What the rules decided for an input, before anything of it is done.

ghost use Rattle.std.specs.Prelude.{◌≡◌, IfSome};
ghost use Rattle.rp_model.specs.Plans.{dropped_by, written_by};

use crate::effect::Dropped;
use crate::right::RightAction;
use rp_base::{Action, Ballot, NodeId, Position, PositionRange, Rec, Reply, TaskId, Vote};
use rp_codec::{Header, Votes};

/// A promise that came from a node, in a ballot at a position, with the vote that it reports.
#[derive(Clone, Copy)]
pub struct CountedPromise {
    pub from: NodeId,
    pub position: Position,
    pub ballot: Ballot,
    pub last: Option<Vote>,
}

/// A promise to a node for a range in a ballot.
#[derive(Clone, Copy)]
pub struct RangePromise {
    pub to: NodeId,
    pub range: PositionRange,
    pub ballot: Ballot,
}

/// A promise that came from a node, in a ballot for a range, with the votes that it reports.
#[derive(Drop)]
pub struct CountedRange {
    pub from: NodeId,
    pub range: PositionRange,
    pub ballot: Ballot,
    pub votes: Votes,
}

/// What a step does: decided without changing anything, small and without texts. To commit it is to
/// write its record, if it has one, then to update the state, and then to send.
#[derive(Drop)]
pub enum Plan {
    /// Nothing, and what is dropped.
    Pass(Dropped),
    /// A promise, which is sent to a node, with the last vote at its position.
    Promise(Header, Option<Vote>),
    /// A promise for a range, with the last votes there.
    PromiseRange(RangePromise),
    /// A vote for an action, which is sent to a node.
    Vote(Header, Action),
    /// A vote that was cast before is sent to a node again.
    Repeat(NodeId, Position, Ballot, Action),
    /// A node gets the bound that its ballot lies below.
    Refuse {
        to: NodeId,
        position: Position,
        ballot: Ballot,
        bound: Ballot,
    },
    /// A node gets what is learned at a position.
    Inform(NodeId, Position, Action),
    /// A task gets the reply that is kept for its call.
    Answer(TaskId, u32, Reply),
    /// An item becomes pending.
    Await(RightAction),
    /// A proposal begins, with an action of its own.
    Lead(Position, Ballot, Action),
    /// A proposal begins at each unlearned position of a range.
    LeadRange(PositionRange, Ballot),
    /// A prepared proposal offers an action to all: that of the highest vote that its promises
    /// report, or one of its own if they report none.
    OfferPrepared(Position, Ballot, Action),
    /// A promise counts, and makes no majority.
    CountPromise(CountedPromise),
    /// A promise for a range counts at each proposal that takes it.
    CountRangePromise(CountedRange),
    /// A promise makes a majority, and the action is offered to all.
    Offer(CountedPromise, Action),
    /// A proposal is refused by a bound.
    Yield {
        position: Position,
        ballot: Ballot,
        bound: Ballot,
    },
    /// A vote counts, and makes no majority.
    CountVote(NodeId, Position, Vote),
    /// A vote makes a majority: the action is learned, and the other nodes are informed.
    Learn(Position, Action),
    /// A node sent a decision: the action is learned, and the node is asked for what is missing.
    Follow(NodeId, Position, Action),
    /// A report to the audit, from a position on.
    Report(Position),
    /// A node is asked for each position that is missing in the window.
    AskMissing(NodeId),
}

impl Plan {
    /// What it drops.
    #[inline(always)]
    pub fn dropped(&self) -> Dropped
        ensures { result ≡ dropped_by self.now }
    {
        match *self {
            Plan::Pass(dropped) => dropped,
            _ => Dropped::No,
        }
    }

    /// The record that it writes, if it writes one.
    pub fn record(&self) -> Option<Rec>
        ensures { result ≡ written_by self.now }
    {
        match *self {
            Plan::Promise(header, _) => Some(Rec::Promised(header.position, header.ballot)),
            Plan::PromiseRange(promise) => {
                Some(Rec::PromisedRange(promise.range, promise.ballot))
            }
            Plan::Vote(header, action) => Some(Rec::Voted(header.position, header.ballot, action)),
            Plan::Lead(_, ballot, _) | Plan::LeadRange(_, ballot) => Some(Rec::Started(ballot)),
            Plan::Learn(position, action) | Plan::Follow(_, position, action) => {
                Some(Rec::Learned(position, action))
            }
            _ => None,
        }
    }
}
