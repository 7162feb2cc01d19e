//! What a learner knows of one position of its window.

ghost use Rattle.std.specs.Prelude.{◌≡◌, ◌≤◌, ◌<◌, false, OnOk, OnErr};
ghost use Rattle.rp_base.specs.Sets.{Has};
ghost use Rattle.rp_learner.specs.Place.{Unheard, Settled};
ghost use Rattle.rp_learner.specs.Places.{NotesCast, is_settled_in, opened, voters_at, votes_in};
ghost use Rattle.rp_learner.specs.Status.{vote_for, place_status};

use crate::learner::VoteStatus;
use crate::vote_counts::VoteCounts;
use rp_base::{Action, Ballot, NodeId, Vote, majority};
use std::alloc::{AllocError, Global};
use std::marker::Model;

/// What is known of a position.
#[derive(Clone, Copy)]
pub enum Stage {
    /// No vote was heard.
    Unheard,
    /// Votes were heard, and decide nothing.
    Heard,
    /// The position is settled.
    Settled,
}

/// The state of one position. Its votes count only in the stage where they are heard, so that
/// another stage begins by a write of one byte.
#[derive(Drop)]
pub struct PositionState {
    stage: Stage,
    votes: VoteCounts,
}

impl Model for PositionState {
    ghost use Rattle.rp_learner.specs.Place.{Place, in_stage};

    ghost Value = { Place };

    ghost view = { λ p. in_stage p.stage p.votes };
}

/// A vote that a node cast.
#[derive(Clone, Copy)]
pub struct Cast<'a> {
    pub from: NodeId,
    pub ballot: Ballot,
    pub action: &'a Action,
}

impl PositionState {
    /// No vote was heard.
    pub fn unheard(alloc: Global) -> PositionState
        ensures { result ≡ Unheard }
    {
        PositionState {
            stage: Stage::Unheard,
            votes: VoteCounts::new(alloc),
        }
    }

    /// What holds at the position once a vote of one of 3 to 7 nodes is counted. Stages stand in the
    /// order of these statuses, so that where no vote was heard the compiler needs no choice.
    #[inline(always)]
    pub fn status_with(&self, nodes: u8, cast: Cast<'_>) -> VoteStatus
        requires nodes { (3 ≤ nodes) × (nodes ≤ 7) }
        ensures { result ≡ place_status nodes self.now (record {
          from = cast.entry.from;
          vote = vote_for cast.entry.ballot cast.entry.action.now;
        }) }
    {
        match self.stage {
            Stage::Settled => VoteStatus::Known,
            Stage::Unheard => VoteStatus::Counting,
            Stage::Heard => {
                let voters = self
                    .votes
                    .count_with(nodes, cast.from, cast.ballot, cast.action);
                if voters >= usize::from(majority(nodes)) {
                    VoteStatus::Learned
                } else {
                    VoteStatus::Counting
                }
            }
        }
    }

    /// Notes a vote of one of 3 to 7 nodes. `AllocError` leaves it as it was.
    #[inline(always)]
    pub fn hear(&mut self, nodes: u8, cast: Cast<'_>) -> Result<(), AllocError>
        requires nodes { (3 ≤ nodes) × (nodes ≤ 7) }
        ensures ok { OnOk result (NotesCast nodes self.old (record {
          from = cast.entry.from;
          vote = vote_for cast.entry.ballot cast.entry.action.now;
        }) self.new) }
        ensures err { OnErr result (self.new ≡ self.old) }
        ensures open { OnErr result (is_settled_in self.old ≡ false) }
        ensures unheard { OnErr result (¬ Has (record {
          from = cast.entry.from;
          vote = vote_for cast.entry.ballot cast.entry.action.now;
        }) (votes_in self.old)) }
        ensures few { OnErr result (voters_at nodes self.old (record {
          from = cast.entry.from;
          vote = vote_for cast.entry.ballot cast.entry.action.now;
        }) ≤ 1) }
    {
        match self.stage {
            Stage::Settled => {}
            Stage::Unheard => {
                let vote = Vote {
                    ballot: cast.ballot,
                    action: *cast.action,
                };
                self.votes.restart(cast.from, vote);
                self.stage = Stage::Heard;
            }
            Stage::Heard => {
                let voters = self.votes.hear(nodes, cast.from, cast.ballot, cast.action)?;
                if voters >= usize::from(majority(nodes)) {
                    self.votes.clear();
                    self.stage = Stage::Settled;
                }
            }
        }
        Ok(())
    }

    /// Settles the position, and lets go of its votes.
    #[inline(always)]
    pub fn settle(&mut self)
        ensures { self.new ≡ Settled }
    {
        self.votes.clear();
        self.stage = Stage::Settled;
    }

    /// Whether the position is settled.
    #[inline(always)]
    pub fn is_settled(&self) -> bool
        ensures { result ≡ is_settled_in self.now }
    {
        matches!(self.stage, Stage::Settled)
    }

    /// A position that enters the window at an offset: settled if the offset's bit is set, and no
    /// vote was heard there.
    #[inline(always)]
    pub fn opened(alloc: Global, settled: u64, offset: u32) -> PositionState
        requires { offset < 64 }
        ensures { result ≡ opened settled offset }
    {
        let stage = if settled >> offset & 1 == 1 {
            Stage::Settled
        } else {
            Stage::Unheard
        };
        PositionState {
            stage,
            votes: VoteCounts::new(alloc),
        }
    }
}
