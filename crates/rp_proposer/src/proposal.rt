//! A proposal that runs.

ghost use Rattle.std.specs.Prelude.{◌≡◌, ℕ, ◌≤◌, ◌++◌, ◌&&◌, List, option_map, option_to_list, nat_eq, not};
ghost use Rattle.rp_base.specs.Records.{highest};
ghost use Rattle.rp_base.specs.Action.{equal_items};
ghost use Rattle.rp_base.specs.Promises.{Promise, highest_vote, offer_of};
ghost use Rattle.rp_base.specs.Proposals.{Proposal as RunningProposal, new_proposal, range_proposal, is_preparing, with_promise, is_promised, is_prepared, is_gathering, takes_range_promise, once_promised, own_unless, is_given_up};
ghost use Rattle.rp_proposer.specs.Proposing.{asks_in, progress_of, once_noted, once_offered, offers_made, is_own};
ghost use Rattle.rp_proposer.specs.Room.{has_own, own_count};

use crate::promise::{HeardPromise, HeardRange};
use rp_base::{
    Action, Ballot, History, NodeId, Phase, PlacedVote, Position, Senders, Vote, majority,
};
use std::marker::Model;

/// What a promise makes of a proposal.
#[derive(Clone, Copy, Debug, PartialEq, Eq)]
pub enum Progress {
    /// The proposal runs on: there is no majority yet, or there was one before.
    Waiting,
    /// The promise makes a majority, and this action is to be offered to all.
    Offer(Action),
    /// No proposal runs at the position in the ballot, or one that began with a range.
    Stale,
}

/// A proposal that runs. Of the promises that came it keeps who sent them, and the highest vote
/// that they report: their offer depends on nothing else.
#[derive(Drop)]
pub(crate) struct Proposal {
    position: Position,
    ballot: Ballot,
    own: Option<Action>,
    ranged: bool,
    phase: Phase,
    senders: Senders,
    last: Option<Vote>,
    heard: History<HeardPromise>,
}

impl Model for Proposal {
    ghost use Rattle.std.specs.Prelude.{◌≡◌};
    ghost use Rattle.rp_base.specs.Sets.{SameMembers};
    ghost use Rattle.rp_base.specs.Promises.{promisers_of, highest_vote};
    ghost use Rattle.rp_base.specs.Proposals as proposals;
    ghost use Rattle.rp_proposer.specs.Heard.{set_of};

    ghost Value = { proposals.Proposal };

    ghost view = { λ p. record {
      position = p.position;
      ballot = p.ballot;
      own = p.own;
      ranged = p.ranged;
      phase = p.phase;
      promises = set_of p.heard;
    } };

    ghost invariant = { λ p. SameMembers p.senders (promisers_of (set_of p.heard))
        × (p.last ≡ highest_vote (set_of p.heard)) };
}

impl Proposal {
    /// A proposal that begins.
    pub(crate) fn new(position: Position, ballot: Ballot, own: Option<Action>) -> Proposal
        ensures { result ≡ new_proposal position ballot own }
    {
        Proposal {
            position,
            ballot,
            own,
            ranged: false,
            phase: Phase::Preparing,
            senders: Senders::new(),
            last: None,
            heard: History::new(),
        }
    }

    /// A proposal that begins with a range: it has no action of its own yet.
    pub(crate) fn of_range(position: Position, ballot: Ballot) -> Proposal
        ensures { result ≡ range_proposal ballot position }
    {
        Proposal {
            position,
            ballot,
            own: None,
            ranged: true,
            phase: Phase::Preparing,
            senders: Senders::new(),
            last: None,
            heard: History::new(),
        }
    }

    /// Where it runs.
    pub(crate) fn position(&self) -> Position
        ensures { result ≡ self.now.position }
    {
        self.position
    }

    /// In which ballot it runs.
    pub(crate) fn ballot(&self) -> Ballot
        ensures { result ≡ self.now.ballot }
    {
        self.ballot
    }

    /// Whether it waits for promises.
    pub(crate) fn is_preparing(&self) -> bool
        ensures { result ≡ is_preparing self.now.phase }
    {
        self.phase == Phase::Preparing
    }

    /// Whether a promise for its position in a ballot is for it: it runs in that ballot, and did not
    /// begin with a range.
    pub(crate) fn asks_in(&self, ballot: Ballot) -> bool
        ensures { result ≡ asks_in ballot self.now }
    {
        self.ballot == ballot && !self.ranged
    }

    /// Whether a majority promised, though it still waits for promises.
    pub(crate) fn is_prepared(&self, nodes: u8) -> bool
        requires { nodes ≤ 7 }
        ensures { result ≡ is_prepared nodes self.now }
    {
        self.is_preparing() && self.is_promised(nodes)
    }

    /// Whether it waits for promises, and no majority promised yet.
    pub(crate) fn is_gathering(&self, nodes: u8) -> bool
        requires { nodes ≤ 7 }
        ensures { result ≡ is_gathering nodes self.now }
    {
        self.is_preparing() && !self.is_promised(nodes)
    }

    /// Whether a refusal at a position in a ballot ends it.
    pub(crate) fn is_given_up(&self, nodes: u8, position: Position, ballot: Ballot) -> bool
        requires { nodes ≤ 7 }
        ensures { result ≡ is_given_up nodes position ballot self.now }
    {
        self.position == position || self.ballot == ballot && self.is_gathering(nodes)
    }

    /// The action of the highest vote that its promises report.
    pub(crate) fn value(&self) -> Option<Action>
        ensures { result ≡ option_map (λ vote. vote.action) (highest_vote self.now.promises) }
    {
        match self.last {
            Some(vote) => Some(vote.action),
            None => None,
        }
    }

    /// Whether it has an action of its own.
    pub(crate) fn has_own(&self) -> bool
        ensures { result ≡ has_own self.now }
    {
        self.own.is_some()
    }

    /// How many actions of its own it has: one or none.
    pub(crate) fn own_count(&self) -> usize
        ensures { result ≡ own_count self.now }
    {
        if self.has_own() { 1 } else { 0 }
    }

    /// Begins its second phase, if it is prepared, with this own action where no promise reports a
    /// vote. It returns how many actions of its own it had, and how many it has.
    pub(crate) fn offer(&mut self, nodes: u8, own: Action) -> (usize, usize)
        requires { nodes ≤ 7 }
        ensures offered { self.new ≡ once_offered nodes own self.old }
        ensures had { result.0 ≡ own_count self.old }
        ensures has { result.1 ≡ own_count self.new }
    {
        let had = self.own_count();
        self.begin_offer(nodes, own);
        (had, self.own_count())
    }

    /// Begins its second phase, if it is prepared.
    fn begin_offer(&mut self, nodes: u8, own: Action)
        requires { nodes ≤ 7 }
        ensures { self.new ≡ once_offered nodes own self.old }
    {
        if self.is_prepared(nodes) {
            self.own = own_unless(own, self.last);
            self.phase = Phase::Offering;
        }
    }

    /// Notes a promise for a range, if it counts for it.
    pub(crate) fn note_range(&mut self, nodes: u8, heard: &HeardRange)
        requires { nodes ≤ 7 }
        ensures { self.new ≡ once_promised nodes heard.now.from heard.now.range heard.now.ballot
            heard.now.votes.now self.old }
    {
        if heard.range.covers(self.position) && self.takes_range_promise(nodes, heard.ballot) {
            let last = PlacedVote::find(heard.votes, self.position);
            self.add(HeardPromise {
                from: heard.from,
                last,
            });
        }
    }

    /// Whether a promise for a range in a ballot counts for it.
    fn takes_range_promise(&self, nodes: u8, ballot: Ballot) -> bool
        requires { nodes ≤ 7 }
        ensures { result ≡ takes_range_promise nodes ballot self.now }
    {
        self.ballot == ballot && (self.ranged && self.is_gathering(nodes))
    }

    /// Whether the item is its own action.
    pub(crate) fn is_own(&self, item: &Action) -> bool
        ensures { result ≡ is_own item.now self.now }
    {
        match &self.own {
            Some(own) => equal_items(item, own),
            None => false,
        }
    }

    /// Whether it runs at another position and the item is its own action.
    pub(crate) fn is_own_elsewhere(&self, position: Position, item: &Action) -> bool
        ensures { result ≡ (is_own item.now self.now && not (nat_eq self.now.position position)) }
    {
        self.position != position && self.is_own(item)
    }

    /// What it offers with one promise more.
    fn offer_with(&self, promise: &HeardPromise) -> Action
        ensures { result ≡ offer_of self.now.own (with_promise self.now promise.now).promises }
    {
        match Vote::higher(self.last, promise.last) {
            Some(vote) => vote.action,
            None => self.own.unwrap_or(Action::Noop),
        }
    }

    /// Whether a majority promised, with one promise more.
    fn is_promised_with(&self, nodes: u8, promise: &HeardPromise) -> bool
        requires { nodes ≤ 7 }
        ensures { result ≡ is_promised nodes (with_promise self.now promise.now) }
    {
        self.senders.len_with(promise.from, nodes) >= usize::from(majority(nodes))
    }

    /// Whether a majority promised.
    fn is_promised(&self, nodes: u8) -> bool
        requires { nodes ≤ 7 }
        ensures { result ≡ is_promised nodes self.now }
    {
        self.senders.len_within(nodes) >= usize::from(majority(nodes))
    }

    /// What a promise in its ballot makes of it.
    pub(crate) fn progress(&self, nodes: u8, promise: &HeardPromise) -> Progress
        requires { nodes ≤ 7 }
        ensures { result ≡ progress_of nodes self.now promise.now }
    {
        if self.is_preparing() && self.is_promised_with(nodes, promise) {
            Progress::Offer(self.offer_with(promise))
        } else {
            Progress::Waiting
        }
    }

    /// Adds a promise.
    fn add(&mut self, promise: HeardPromise)
        ensures { self.new ≡ with_promise self.old promise }
    {
        self.senders.insert(promise.from);
        raise(&mut self.last, promise.last);
        self.heard.push(&promise);
    }

    /// Notes a promise in a ballot, if it counts: with a majority the second phase begins.
    pub(crate) fn note(&mut self, nodes: u8, ballot: Ballot, promise: HeardPromise)
        requires { nodes ≤ 7 }
        ensures { self.new ≡ once_noted nodes ballot self.old promise }
    {
        if self.ballot == ballot && (self.is_preparing() && !self.ranged) {
            self.add(promise);
            if self.is_promised(nodes) {
                self.phase = Phase::Offering;
            }
        }
    }
}

/// The action, where there is no vote.
fn own_unless(own: Action, vote: Option<Vote>) -> Option<Action>
    ensures { result ≡ own_unless own vote }
{
    match vote {
        Some(_) => None,
        None => Some(own),
    }
}

/// Notes a vote: the higher of it and the one before.
fn raise(last: &mut Option<Vote>, vote: Option<Vote>)
    ensures { last.new ≡ highest (option_to_list last.old ++ option_to_list vote) }
{
    if vote.is_some() {
        *last = Vote::higher(*last, vote);
    }
}

/// Whether two pending items are one: a call by its task and number, all else whole.
fn equal_items(item: &Action, other: &Action) -> bool
    ensures { result ≡ equal_items item.now other.now }
{
    match (item, other) {
        (
            Action::Call { task, number, .. },
            Action::Call {
                task: other,
                number: same,
                ..
            },
        ) => *task == *other && *number == *same,
        _ => *item == *other,
    }
}

/// A proposal makes one offer at most, whatever promises come, in whatever order and however often
/// (Lamport, "Paxos Made Simple", section 2.2: a proposal has one value).
pub fn one_offer_at_most()
    // claim: A proposal makes one offer at most, whatever promises come
    ensures { (nodes : ℕ) (proposal : RunningProposal) (promises : List Promise)
        → offers_made nodes proposal promises ≤ 1 }
{}
