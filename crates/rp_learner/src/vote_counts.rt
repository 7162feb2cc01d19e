//! The votes heard at one position.

ghost use Rattle.std.specs.Prelude.{◌≡◌, ◌≤◌, [], ◌∷◌, length, nat_eq, IfOk, OnOk, OnErr};
ghost use Rattle.rp_base.specs.Sets.{Has, IsSet, SameMembers, with_member};
ghost use Rattle.rp_base.specs.Majority.{nodes_among};
ghost use Rattle.rp_base.specs.Promises.{same_vote};
ghost use Rattle.rp_learner.specs.Casts.{same_cast, index_from, voters_with};
ghost use Rattle.rp_learner.specs.Status.{vote_for};

use rp_base::{Action, Ballot, NodeId, Senders, Vote};
use std::alloc::{AllocError, Global};
use std::marker::Model;

/// A vote, and who cast it.
#[derive(Drop)]
pub struct VoteCount {
    vote: Vote,
    senders: Senders,
}

/// The votes heard at a position. Where one ballot decides there is one count, which takes no
/// memory of its own.
#[derive(Drop)]
pub struct VoteCounts {
    first: VoteCount,
    others: Vec<VoteCount>,
}

impl Model for VoteCounts {
    ghost use Rattle.std.specs.Prelude.{List, ◌∷◌};
    ghost use Rattle.rp_learner.specs.Casts.{CastVote, casts_of, AreVoteCounts};

    ghost Value = { List CastVote };

    ghost view = { λ t. casts_of (t.first ∷ t.others.items) };

    ghost invariant = { λ t. AreVoteCounts (t.first ∷ t.others.items) };
}

impl VoteCount {
    /// A vote that one node cast.
    #[inline(always)]
    fn new(from: NodeId, vote: Vote) -> VoteCount
        ensures vote { result.vote ≡ vote }
        ensures senders { SameMembers result.senders (from ∷ []) }
    {
        let mut senders = Senders::new();
        senders.insert(from);
        VoteCount { vote, senders }
    }

    /// Whether it counts the vote of this ballot for this action.
    #[inline(always)]
    fn is_of(&self, ballot: Ballot, action: &Action) -> bool
        ensures { result ≡ same_vote self.now.vote (vote_for ballot action.now) }
    {
        self.vote.ballot == ballot && self.vote.action == *action
    }

    /// Adds a sender. How many of the nodes 1 to `nodes` have cast the vote then.
    #[inline(always)]
    fn hear(&mut self, nodes: u8, from: NodeId) -> usize
        requires { nodes ≤ 7 }
        ensures voters { result ≡ length (nodes_among nodes
            (with_member nat_eq self.old.senders from)) }
        ensures senders { SameMembers self.new.senders
            (with_member nat_eq self.old.senders from) }
        ensures once { IsSet self.old.senders }
        ensures vote { self.new.vote ≡ self.old.vote }
    {
        let voters = self.senders.len_with(from, nodes);
        self.senders.insert(from);
        voters
    }
}

impl VoteCounts {
    /// No vote was heard: the first count has no sender, and its vote says nothing.
    pub fn new(alloc: Global) -> VoteCounts
        ensures { result ≡ [] }
    {
        VoteCounts {
            first: VoteCount {
                vote: Vote {
                    ballot: Ballot::of(1, NodeId::first()),
                    action: Action::Noop,
                },
                senders: Senders::new(),
            },
            others: Vec::new(alloc),
        }
    }

    /// One vote was heard, in place of all others.
    #[inline(always)]
    pub fn restart(&mut self, from: NodeId, vote: Vote)
        ensures { SameMembers self.new (record { from = from; vote = vote } ∷ []) }
    {
        self.first = VoteCount::new(from, vote);
        if !self.others.is_empty() {
            free(&mut self.others);
        }
    }

    /// Lets go of all votes, and of the memory that they took.
    #[inline(always)]
    pub fn clear(&mut self)
        ensures { self.new ≡ [] }
    {
        self.first.senders = Senders::new();
        if !self.others.is_empty() {
            free(&mut self.others);
        }
    }

    /// How many of the nodes 1 to `nodes` have cast the vote, once this one has.
    #[inline(always)]
    pub fn count_with(&self, nodes: u8, from: NodeId, ballot: Ballot, action: &Action) -> usize
        requires { nodes ≤ 7 }
        ensures { result ≡ length (nodes_among nodes
            (voters_with self.now from (vote_for ballot action.now))) }
    {
        if self.first.is_of(ballot, action) {
            return self.first.senders.len_with(from, nodes);
        }
        match index_of_count(&self.others, ballot, action) {
            Some(index) => self.others[index].senders.len_with(from, nodes),
            None => Senders::new().len_with(from, nodes),
        }
    }

    /// Adds a vote, unless it was heard before. How many of the nodes 1 to `nodes` have cast it
    /// then. `AllocError` comes only where nobody had cast it, and leaves the counts as they were.
    #[inline(always)]
    pub fn hear(
        &mut self,
        nodes: u8,
        from: NodeId,
        ballot: Ballot,
        action: &Action,
    ) -> Result<usize, AllocError>
        requires { nodes ≤ 7 }
        ensures ok { OnOk result (SameMembers self.new (with_member same_cast self.old
            (record { from = from; vote = vote_for ballot action.now }))) }
        ensures voters { IfOk result (λ voters. voters ≡ length (nodes_among nodes
            (voters_with self.old from (vote_for ballot action.now)))) }
        ensures err { OnErr result (self.new ≡ self.old) }
        ensures full { OnErr result (¬ Has (record {
          from = from;
          vote = vote_for ballot action.now;
        }) self.old) }
        ensures few { OnErr result (length (nodes_among nodes
            (voters_with self.old from (vote_for ballot action.now))) ≤ 1) }
    {
        if self.first.is_of(ballot, action) {
            return Ok(self.first.hear(nodes, from));
        }
        match index_of_count(&self.others, ballot, action) {
            Some(index) => Ok(self.others[index].hear(nodes, from)),
            None => {
                let vote = Vote {
                    ballot,
                    action: *action,
                };
                self.others.push(VoteCount::new(from, vote))?;
                Ok(Senders::new().len_with(from, nodes))
            }
        }
    }
}

/// Frees all counts.
#[inline(never)]
fn free(vote_counts: &mut Vec<VoteCount>)
    ensures { vote_counts.new.items ≡ [] }
{
    *vote_counts = Vec::new(*vote_counts.allocator());
}

/// Where the count of the vote of this ballot for this action is.
#[inline(never)]
fn index_of_count(vote_counts: &[VoteCount], ballot: Ballot, action: &Action) -> Option<usize>
    ensures { result ≡ index_from 0 (vote_for ballot action.now) vote_counts.now }
{
    let mut index = 0;
    for vote_count in vote_counts {
        if vote_count.is_of(ballot, action) {
            return Some(index);
        }
        index += 1;
    }
    None
}
