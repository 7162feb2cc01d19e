//! The learner of one node.

ghost use Rattle.std.specs.Prelude.{◌≡◌, ◌≤◌, ◌-◌, ℕ, nat_lt, replicate, None, Some, if◌then◌else◌, OnOk, OnErr, IfOk, IsOkUnless};
ghost use Rattle.circular_buffer.specs.Buffer.{buffer};
ghost use Rattle.rp_base.specs.declared.record.Vote.{Vote};
ghost use Rattle.rp_learner.specs.Learning.{Learning};
ghost use Rattle.rp_base.specs.Number.{window};
ghost use Rattle.rp_learner.specs.Place.{Unheard};
ghost use Rattle.rp_learner.specs.Status.{SameLearning, SameSizes, fresh, vote_for, status_with, decision_at, with_settled, with_vote, NotesVote, Settles, IsOneMore, Advances};

use crate::position_state::{Cast, PositionState};
use circular_buffer::HeapCircularBuffer;
use rp_base::{Action, Ballot, Fault, NodeId, Position, WINDOW};
use std::alloc::{AllocError, Global};
use std::marker::Model;

/// What holds at a position once a vote is counted.
#[derive(Clone, Copy, Debug, PartialEq, Eq)]
pub enum VoteStatus {
    /// No majority has cast this vote.
    Counting,
    /// This vote makes a majority.
    Learned,
    /// The position is settled.
    Known,
    /// The position is above the window, where nothing is counted.
    Beyond,
}

/// What a decision is that another node sends.
#[derive(Clone, Copy, Debug, PartialEq, Eq)]
pub enum Decision {
    /// The position was not settled.
    Learned,
    /// The position is settled.
    Known,
    /// The position is above the window, where nothing is marked.
    Beyond,
}

/// The votes that a node has heard and the positions that it knows to be decided (Lamport, "Paxos
/// Made Simple", section 2.3), in a window of 64 positions in a row; all below the window are
/// settled. Counting is stricter than Lamport's: only votes of one ballot add up. Votes at a
/// position are let go when it is settled. The window is a ring that `new` makes, so a learner
/// takes the same memory however many positions there are.
pub struct Learner {
    nodes: u8,
    max_positions: u16,
    first: u32,
    places: HeapCircularBuffer<PositionState>,
}

// Not derived, so that to drop it is one step of a proof and not one for each of its parts.
impl Drop for Learner {
    fn drop(self) {
        let Learner {
            nodes: _,
            max_positions: _,
            first: _,
            places: _,
        } = self;
    }
}

impl Model for Learner {
    ghost use Rattle.std.specs.Prelude.{◌≡◌, ◌≤◌, length};
    ghost use Rattle.rp_learner.specs.Learning.{Learning};

    ghost Value = { Learning };

    ghost use Rattle.rp_base.specs.Number.{window};
    ghost use Rattle.rp_learner.specs.Places.{heard_from, settled_from};

    ghost view = { λ l. record {
      nodes = l.nodes;
      max_positions = l.max_positions;
      first = l.first;
      heard = heard_from l.first l.places.items;
      settled = settled_from l.first l.places.items;
    } };

    ghost invariant = { λ l. (3 ≤ l.nodes) × (l.nodes ≤ 7) × (length l.places.items ≡ window)
        × (l.places.capacity ≡ window) };
}

/// The places of a window in which nothing is heard or settled.
fn unheard_places(alloc: Global) -> Result<HeapCircularBuffer<PositionState>, AllocError>
    ensures empty { IfOk result (λ places. places ≡ buffer (replicate window Unheard) window) }
{
    let mut places = HeapCircularBuffer::with_capacity(alloc, WINDOW as usize)?;
    for _ in 0..WINDOW {
        places.push_back(PositionState::unheard(alloc));
    }
    Ok(places)
}

impl Learner {
    /// A learner of 3 to 7 nodes that has heard nothing, for positions 1 to `max_positions`, with
    /// its window from position 1 on. `OutOfMemory` leaves nothing.
    pub fn new(alloc: Global, nodes: u8, max_positions: u16) -> Result<Self, Fault>
        requires nodes { (3 ≤ nodes) × (nodes ≤ 7) }
        ensures fresh { IfOk result (λ l. l ≡ fresh nodes max_positions) }
        ensures only { IsOkUnless result Fault.OutOfMemory }
    {
        Ok(Learner {
            nodes,
            max_positions,
            first: 1,
            places: unheard_places(alloc)?,
        })
    }

    /// What holds at the position once this vote of `from`, one of the nodes, for the action in the
    /// ballot is counted. Nothing changes: `note_vote` counts it.
    #[inline(always)]
    pub fn vote(
        &self,
        from: NodeId,
        position: Position,
        ballot: Ballot,
        action: &Action,
    ) -> VoteStatus
        requires sender { from ≤ self.now.nodes }
        // claim: A vote is Learned exactly if those heard to have cast it at its position, this one
        //   included, are a majority; Beyond exactly above the window of 64 positions; Known below
        //   it and if the position is settled
        ensures { result ≡ status_with self.now from position (vote_for ballot action.now) }
    {
        let Some(offset) = offset_from(self.first, position) else {
            return VoteStatus::Known;
        };
        let cast = Cast {
            from,
            ballot,
            action,
        };
        match self.places.get(offset) {
            Some(place) => place.status_with(self.nodes, cast),
            None => VoteStatus::Beyond,
        }
    }

    /// Counts a vote of one of the nodes. Where `vote` answers `Learned` for it, the position is
    /// settled; where it answers `Known` or `Beyond`, nothing changes. `OutOfMemory` leaves the
    /// learner as it was.
    #[inline(always)]
    pub fn note_vote(
        &mut self,
        alloc: Global,
        from: NodeId,
        position: Position,
        ballot: Ballot,
        action: &Action,
    ) -> Result<(), AllocError>
        requires sender { from ≤ self.old.nodes }
        // claim (noted, unchanged, full): A learner is out of memory only for a vote that is
        //   counted and was not heard, and then nothing has changed
        ensures noted { OnOk result (NotesVote self.old from position
            (vote_for ballot action.now) self.new) }
        ensures sizes { SameSizes self.new self.old }
        ensures unchanged { OnErr result (self.new ≡ self.old) }
        ensures full { OnErr result (IsOneMore self.old from position
            (vote_for ballot action.now)) }
    {
        let Some(offset) = offset_from(self.first, position) else {
            return Ok(());
        };
        let Some(place) = self.places.get_mut(offset) else {
            return Ok(());
        };
        let cast = Cast {
            from,
            ballot,
            action,
        };
        place.hear(self.nodes, cast)
    }

    /// The first position of the window.
    pub fn first(&self) -> u32
        ensures { result ≡ self.now.first }
    {
        self.first
    }

    /// What a decision at the position is that another node sends.
    pub fn decided(&self, position: Position) -> Decision
        ensures { result ≡ decision_at self.now position }
    {
        let Some(offset) = offset_from(self.first, position) else {
            return Decision::Known;
        };
        match self.places.get(offset) {
            None => Decision::Beyond,
            Some(place) if place.is_settled() => Decision::Known,
            Some(_) => Decision::Learned,
        }
    }

    /// Marks a position as settled, and frees the votes counted there. Above the window nothing
    /// is marked.
    #[inline(always)]
    pub fn settled(&mut self, position: Position)
        ensures settled { Settles self.old position self.new }
        ensures sizes { SameSizes self.new self.old }
    {
        let Some(offset) = offset_from(self.first, position) else {
            return;
        };
        let Some(place) = self.places.get_mut(offset) else {
            return;
        };
        place.settle();
    }

    /// Moves the window on to begin at `first`, at most 65,536. All positions below are settled
    /// then. Position `first + j` is settled if bit j of `settled` is set, the lowest bit being bit
    /// 0; only the bits of positions that were above the window are read. It takes no memory, and
    /// time in proportion to how far the window moves, at most 64 places.
    #[inline(always)]
    pub fn advance(&mut self, first: u32, settled: u64)
        requires on { self.old.first ≤ first }
        // claim: A window that moves on keeps the votes and the marks of the positions that stay;
        //   of those that enter, those are settled whose bits say so
        ensures { Advances self.old first settled self.new }
    {
        let moved = (first - self.first).min(WINDOW);
        let alloc = *self.places.allocator();
        for offset in WINDOW - moved..WINDOW {
            self.places
                .push_back(PositionState::opened(alloc, settled, offset));
        }
        self.first = first;
    }
}

/// How far above the first position of the window a position is, `None` below it.
#[inline(always)]
fn offset_from(first: u32, position: Position) -> Option<usize>
    ensures { result ≡ (if nat_lt position first then None else Some (position - first)) }
{
    u32::from(position.get())
        .checked_sub(first)
        .map(|offset| offset as usize)
}

/// Learners that hold the same, as sets, answer alike, and hold the same once the same is noted.
pub fn same_learners_answer_alike()
    // claim (vote, decided, note_vote, settled): Learners that hold the same, as sets, answer
    //   alike, also after the same is noted
    ensures vote { (l m : Learning) (from i : ℕ) (vote : Vote) → SameLearning l m
        → status_with l from i vote ≡ status_with m from i vote }
    ensures decided { (l m : Learning) (i : ℕ) → SameLearning l m
        → decision_at l i ≡ decision_at m i }
    ensures note_vote { (l m : Learning) (from i : ℕ) (vote : Vote) → SameLearning l m
        → SameLearning (with_vote l from i vote) (with_vote m from i vote) }
    ensures settled { (l m : Learning) (i : ℕ) → SameLearning l m
        → SameLearning (with_settled l i) (with_settled m i) }
    ensures equal { (l : Learning) → SameLearning l l }
    ensures back { (l m : Learning) → SameLearning l m → SameLearning m l }
    ensures on { (l m n : Learning) → SameLearning l m → SameLearning m n → SameLearning l n }
{}
