//! A node as a proposer.

ghost use Rattle.std.specs.Prelude.{◌≡◌, ℕ, List, [], ◌∷◌, ◌++◌, ◌||◌, is_none, is_some, remove, ◌↔◌, ◌+◌, ◌<◌, ◌≤◌, ◌^◌, max, map, filter, nat_eq, not, true, false, length, IsTrue, IfOk, IsErrOf, IsOkUnless, option_copied, if◌then◌else◌};
ghost use Rattle.std.specs.VecDeque.{deque_capacity};
ghost use Rattle.std.specs.Int.{bit_at};
ghost use Rattle.std.specs.List.{list_any};
ghost use Rattle.rp_base.specs.Ballot.{number_of, round_of, next_ballot, IsAbove, IsNext};
ghost use Rattle.rp_base.specs.Records.{started_of};
ghost use Rattle.rp_base.specs.Proposals.{Proposal as RunningProposal, is_in, proposal_at, without_proposal, with_proposal, with_range, range_proposal, once_promised, is_given_up};
ghost use Rattle.rp_base.specs.Ranges.{is_covered};
ghost use Rattle.rp_base.specs.Sets.{IsSet};
ghost use Rattle.rp_proposer.specs.Rows.{IsBusy, in_row};
ghost use Rattle.rp_proposer.specs.Room.{own_count, own_actions_of, Rises, IsLastBelow};
ghost use Rattle.rp_proposer.specs.Proposing.{greatest_counted, restored, ballot_at, HasRoom, begins, is_own, is_own_elsewhere, index_from, AreInWindow, IsInWindow, progress_in, waits_for_promises, notes_promise, notes_refusal, settles, most_running, unskipped, begins_range, notes_range, prepared_by, offers};

use crate::promise::{HeardPromise, HeardRange};
use crate::proposal::{Progress, Proposal};
use rp_base::{Action, Ballot, Fault, NodeId, PlacedVote, Position, PositionRange, Rec, Vote};
use std::alloc::Global;
use std::collections::VecDeque;
use std::marker::Model;

/// How many proposals may run.
const MOST_RUNNING: usize = 64;

/// A node as a proposer (Lamport, "Paxos Made Simple", section 2.2). A proposal runs from `begin`
/// until its position is settled, a refusal comes in its ballot, or another begins at its position.
/// At most 64 run, and it counts those that have an action of their own. While their positions
/// ascend, it knows without a search that none runs before the first or after the last. Questions
/// take `&self`; what takes effect is noted, after the record that goes before it.
pub struct Proposer {
    node: NodeId,
    nodes: u8,
    proposals: VecDeque<Proposal>,
    ascending: bool,
    own_actions: usize,
    started: Option<Ballot>,
    refused: Option<Ballot>,
}

// Not derived, so that to drop it is one step of a proof and not one for each of its parts.
impl Drop for Proposer {
    fn drop(self) {
        let Proposer {
            node: _,
            nodes: _,
            proposals: _,
            ascending: _,
            own_actions: _,
            started: _,
            refused: _,
        } = self;
    }
}

impl Model for Proposer {
    ghost use Rattle.std.specs.VecDeque.{deque_capacity};
    ghost use Rattle.rp_base.specs.Ballot.{number_of};
    ghost use Rattle.rp_proposer.specs.Proposing.{ProposerPart};

    ghost Value = { ProposerPart };

    ghost view = { λ p. record {
      node = p.node;
      nodes = p.nodes;
      proposals = p.proposals.items;
      started = number_of p.started;
      refused = p.refused;
    } };

    ghost use Rattle.rp_proposer.specs.Room.{IsWithin};

    ghost invariant = { λ p.
        IsWithin p.nodes p.proposals.items (deque_capacity p.proposals) p.ascending
        p.own_actions };
}

impl Proposer {
    /// The proposer of a node, one of 3 to 7, that wrote these records: no proposal runs. It has
    /// room for all that may run, so no other call takes memory. `OutOfMemory` where that is
    /// refused.
    pub fn restore(alloc: Global, node: NodeId, nodes: u8, records: &[Rec]) -> Result<Self, Fault>
        requires nodes { (3 ≤ nodes) × (nodes ≤ 7) }
        requires node { node ≤ nodes }
        ensures restored { IfOk result (λ proposer. proposer ≡ restored node nodes records.now) }
        ensures only { IsOkUnless result Fault.OutOfMemory }
    {
        Ok(Proposer {
            node,
            nodes,
            proposals: VecDeque::with_capacity(alloc, MOST_RUNNING)?,
            ascending: true,
            own_actions: 0,
            started: started_of(records),
            refused: None,
        })
    }

    /// The ballot to lead in next: the node's least above all that it counted. `BallotsSpent` where
    /// it has none.
    pub fn ballot(&self) -> Result<Ballot, Fault>
        // claim: A next ballot is above all that the proposer counted, or `BallotsSpent` exactly if
        //   there is none
        ensures next { IfOk result (IsNext self.now.node (greatest_counted self.now)) }
        ensures value { IfOk result (λ b. b ≡ next_ballot self.now.node (greatest_counted self.now)) }
        ensures exhausted { IsErrOf result Fault.BallotsSpent ↔ ((b : ℕ)
            → ¬ IsAbove self.now.node (greatest_counted self.now) b) }
        ensures full { IsErrOf result Fault.BallotsSpent
            ↔ (2 ^ 32 ≤ round_of (next_ballot self.now.node (greatest_counted self.now))) }
        ensures only { IsOkUnless result Fault.BallotsSpent }
    {
        Ballot::next_for(self.node, Ballot::greater(self.started, self.refused))
    }

    /// The ballot of the proposal that runs at a position.
    pub fn runs(&self, position: Position) -> Option<Ballot>
        ensures { result ≡ ballot_at self.now.proposals position }
    {
        proposal_at(&self.proposals, self.ascending, position).map(|proposal| proposal.ballot())
    }

    /// Whether a proposal may begin at a position: fewer than 64 run at others.
    pub fn has_room(&self, position: Position) -> bool
        ensures { IsTrue result ↔ HasRoom self.now.proposals position }
    {
        if self.proposals.len() < MOST_RUNNING {
            return true;
        }
        count_elsewhere(&self.proposals, position) < MOST_RUNNING
    }

    /// Begins a proposal, in place of any other at its position, in a ballot of the node's above
    /// all that it counted. The ballot counts as started.
    #[inline(always)]
    pub fn begin(&mut self, position: Position, ballot: Ballot, own: Option<Action>)
        requires room { HasRoom self.old.proposals position }
        requires ballot { IsAbove self.old.node (greatest_counted self.old) ballot }
        ensures { self.new ≡ begins self.old position ballot own }
    {
        let proposal = Proposal::new(position, ballot, own);
        let has = proposal.own_count();
        let index = index_of_proposal(&self.proposals, self.ascending, position);
        self.ascending = ascends_with(&self.proposals, self.ascending, index, position);
        let had = put(&mut self.proposals, index, proposal);
        self.own_actions = self.own_actions + has - had;
        self.started = Ballot::greater(self.started, Some(ballot));
    }

    /// Begins a proposal at each position of a range, in place of any other there, but where the
    /// position's bit, counted from the range's first, is set in `skip`. The ballot counts as
    /// started.
    pub fn begin_range(&mut self, range: PositionRange, skip: u64, ballot: Ballot)
        requires room { length (with_range self.old.proposals ballot (unskipped range skip))
            ≤ most_running }
        requires ballot { IsAbove self.old.node (greatest_counted self.old) ballot }
        // claim: A proposal begins at each position of a range that is not left out, without an
        //   action of its own
        ensures { self.new ≡ begins_range self.old (unskipped range skip) ballot }
    {
        self.own_actions = put_range(&mut self.proposals, self.own_actions, range, skip, ballot);
        self.ascending = ascend(&self.proposals);
        self.started = Ballot::greater(self.started, Some(ballot));
    }

    /// Whether no proposal runs at a position, or one that is prepared.
    pub fn is_ready(&self, position: Position) -> bool
        ensures { result ≡ (is_none (proposal_at self.now.proposals position)
            || is_some (prepared_by self.now.nodes (proposal_at self.now.proposals position))) }
    {
        match proposal_at(&self.proposals, self.ascending, position) {
            Some(proposal) => proposal.is_prepared(self.nodes),
            None => true,
        }
    }

    /// How many of the proposals, from the first on, run at positions in a row from this number on
    /// and are not prepared.
    pub fn in_row(&self, first: u32) -> u32
        ensures value { result ≡ in_row self.now.nodes first self.now.proposals }
        ensures busy { (j : ℕ) → first ≤ j → j < first + result
            → IsBusy self.now.nodes (proposal_at self.now.proposals j) }
        ensures few { result ≤ most_running }
    {
        in_row(&self.proposals, self.nodes, u64::from(first)) as u32
    }

    /// The ballot of the prepared proposal at a position, one that a majority promised though it
    /// offers nothing yet, and the action of the highest vote that its promises report.
    pub fn prepared(&self, position: Position) -> Option<(Ballot, Option<Action>)>
        // claim: A proposal is prepared exactly if a majority promised and it has offered nothing;
        //   what it may offer is the action of the highest vote reported
        ensures { result ≡ prepared_by self.now.nodes (proposal_at self.now.proposals position) }
    {
        match proposal_at(&self.proposals, self.ascending, position) {
            Some(proposal) if proposal.is_prepared(self.nodes) => {
                Some((proposal.ballot(), proposal.value()))
            }
            _ => None,
        }
    }

    /// Begins the second phase of a prepared proposal. Its own action is this one where no promise
    /// reports a vote; else it has none.
    pub fn offer(&mut self, position: Position, own: Action)
        // claim: A prepared proposal takes an action of its own only if no promise reports a vote
        ensures offered { self.new ≡ offers self.old own (proposal_at self.old.proposals position) }
        ensures nodes { self.new.nodes ≡ self.old.nodes }
    {
        if let Some(index) = index_of_proposal(&self.proposals, self.ascending, position) {
            let (had, has) = self.proposals[index].offer(self.nodes, own);
            self.own_actions = self.own_actions + has - had;
        }
    }

    /// Notes a promise of one of the nodes for a range, at each of its positions where a proposal
    /// that began with a range gathers promises in this ballot. Any other changes nothing.
    pub fn note_range(
        &mut self,
        from: NodeId,
        range: PositionRange,
        ballot: Ballot,
        votes: &[PlacedVote],
    )
        // claim: A promise for a range counts at each of its positions where a proposal that began
        //   with a range gathers promises in its ballot, and nowhere else
        ensures noted { self.new ≡ notes_range self.old from range ballot votes.now }
        ensures nodes { self.new.nodes ≡ self.old.nodes }
    {
        let heard = HeardRange {
            from,
            range,
            ballot,
            votes,
        };
        note_range(&mut self.proposals, self.nodes, &heard);
    }

    /// Whether the item is the own action of a proposal that runs at another position: a call by
    /// its task and number, all else whole.
    pub fn is_own_elsewhere(&self, position: Position, item: &Action) -> bool
        ensures { result ≡ is_own_elsewhere self.now.proposals position item.now }
    {
        if self.own_actions == 0 {
            return false;
        }
        let (front, back) = self.proposals.as_slices();
        is_own_elsewhere(front, position, item) || is_own_elsewhere(back, position, item)
    }

    /// Whether the item is the own action of a proposal that runs: a call by its task and number,
    /// all else whole.
    pub fn is_own(&self, item: &Action) -> bool
        ensures { result ≡ list_any (is_own item.now) self.now.proposals }
    {
        let (front, back) = self.proposals.as_slices();
        is_own(front, item) || is_own(back, item)
    }

    /// What a promise of one of the nodes makes of the proposal at the position, were it noted: its
    /// sender counts once, and `last` is the last vote that it reports. It changes nothing.
    #[inline(always)]
    pub fn promise(
        &self,
        from: NodeId,
        position: Position,
        ballot: Ballot,
        last: Option<Vote>,
    ) -> Progress
        requires sender { from ≤ self.now.nodes }
        // claim: A promise is an offer exactly if its sender makes a majority in the first phase,
        //   of the highest vote reported or else of the proposal's action; Stale exactly if no
        //   proposal runs in its ballot, or one that began with a range; and else Waiting
        ensures { result ≡ progress_in self.now.nodes ballot (from, last)
            (proposal_at self.now.proposals position) }
    {
        match proposal_at(&self.proposals, self.ascending, position) {
            Some(proposal) if proposal.asks_in(ballot) => {
                proposal.progress(self.nodes, &HeardPromise { from, last })
            }
            _ => Progress::Stale,
        }
    }

    /// Whether a proposal runs at a position and waits for promises.
    #[inline(always)]
    pub fn is_preparing(&self, position: Position) -> bool
        ensures { result ≡ waits_for_promises (proposal_at self.now.proposals position) }
    {
        match proposal_at(&self.proposals, self.ascending, position) {
            Some(proposal) => proposal.is_preparing(),
            None => false,
        }
    }

    /// Notes a promise of one of the nodes. One that makes a majority begins the second phase, so
    /// there is no second offer. One that comes later, or is stale, changes nothing.
    #[inline(always)]
    pub fn note_promise(
        &mut self,
        from: NodeId,
        position: Position,
        ballot: Ballot,
        last: Option<Vote>,
    )
        requires sender { from ≤ self.old.nodes }
        ensures noted { self.new ≡ notes_promise self.old ballot (from, last)
            (proposal_at self.old.proposals position) }
        ensures nodes { self.new.nodes ≡ self.old.nodes }
    {
        if let Some(index) = index_of_proposal(&self.proposals, self.ascending, position) {
            self.proposals[index].note(self.nodes, ballot, HeardPromise { from, last });
        }
    }

    /// Counts a refusal of the proposal at the position in this ballot, whose sender has promised a
    /// greater one: the proposal is given up, and each other of the ballot that gathers promises.
    /// Any other refusal changes nothing.
    pub fn nack(&mut self, position: Position, ballot: Ballot, promised: Ballot)
        // claim: A refusal ends the proposal at its position, and the others of its ballot that
        //   gather promises
        ensures noted { self.new ≡ notes_refusal self.old position ballot promised }
        ensures nodes { self.new.nodes ≡ self.old.nodes }
    {
        if is_in(&self.proposals, self.ascending, position, ballot) {
            give_up(&mut self.proposals, self.nodes, position, ballot);
            self.own_actions = count_own(&self.proposals);
            self.refused = Ballot::greater(self.refused, Some(promised));
        }
    }

    /// The position is settled, and the proposal there ends.
    #[inline(always)]
    pub fn settled(&mut self, position: Position)
        ensures { self.new ≡ settles self.old position }
    {
        self.own_actions -= leave_out(&mut self.proposals, self.ascending, position);
    }
}

/// The greatest ballot in which the records lead.
fn started_of(records: &[Rec]) -> Option<Ballot>
    ensures { number_of result ≡ started_of records.now }
{
    let mut started: Option<Ballot> = None;
    for record in records {
        if let Rec::Started(ballot) = *record {
            started = Ballot::greater(started, Some(ballot));
        }
    }
    started
}

/// The proposal that runs at a position.
#[inline(always)]
fn proposal_at(
    proposals: &VecDeque<Proposal>,
    ascending: bool,
    position: Position,
) -> Option<&Proposal>
    requires apart { IsSet (map (λ p. p.position) proposals.now.items) }
    requires ascends { ascending ≡ true → Rises 0 proposals.now.items }
    ensures { option_copied result ≡ proposal_at proposals.now.items position }
{
    match index_of_proposal(proposals, ascending, position) {
        Some(index) => Some(&proposals[index]),
        None => None,
    }
}

/// How many of the proposals, from the first on, run at positions in a row from this number on and
/// are not prepared.
fn in_row(proposals: &VecDeque<Proposal>, nodes: u8, first: u64) -> usize
    requires nodes { nodes ≤ 7 }
    requires small { first < 2 ^ 32 }
    ensures value { result ≡ in_row nodes first proposals.now.items }
    ensures few { result ≤ length proposals.now.items }
{
    let mut count = 0;
    while count < proposals.len() {
        let proposal = &proposals[count];
        let number = u64::from(proposal.position().get());
        if !(number == first + count as u64 && !proposal.is_prepared(nodes)) {
            return count;
        }
        count += 1;
    }
    count
}

/// Whether a proposal runs at a position in a ballot.
fn is_in(
    proposals: &VecDeque<Proposal>,
    ascending: bool,
    position: Position,
    ballot: Ballot,
) -> bool
    requires apart { IsSet (map (λ p. p.position) proposals.now.items) }
    requires ascends { ascending ≡ true → Rises 0 proposals.now.items }
    ensures { result ≡ is_in ballot (proposal_at proposals.now.items position) }
{
    match proposal_at(proposals, ascending, position) {
        Some(proposal) => proposal.ballot() == ballot,
        None => false,
    }
}

/// How many proposals run at other positions: asked only where as many run as may, so apart.
#[inline(never)]
fn count_elsewhere(proposals: &VecDeque<Proposal>, position: Position) -> usize
    ensures { result ≡ length (without_proposal proposals.now.items position) }
{
    proposals
        .iter()
        .filter(|proposal| proposal.position() != position)
        .count()
}

/// Whether the item is the own action of one of these at another position.
fn is_own_elsewhere(proposals: &[Proposal], position: Position, item: &Action) -> bool
    ensures { result ≡ is_own_elsewhere proposals.now position item.now }
{
    for proposal in proposals {
        if proposal.is_own_elsewhere(position, item) {
            return true;
        }
    }
    false
}

/// Whether the item is the own action of one of these.
fn is_own(proposals: &[Proposal], item: &Action) -> bool
    ensures { result ≡ list_any (is_own item.now) proposals.now }
{
    proposals.iter().any(|proposal| proposal.is_own(item))
}

/// How many of these have an action of their own.
fn count_own(proposals: &VecDeque<Proposal>) -> usize
    ensures { result ≡ own_actions_of proposals.now.items }
{
    proposals
        .iter()
        .filter(|proposal| proposal.has_own())
        .count()
}

/// Ends the proposal at a position. It returns how many actions of its own that had.
#[inline(always)]
fn leave_out(proposals: &mut VecDeque<Proposal>, ascending: bool, position: Position) -> usize
    requires apart { IsSet (map (λ p. p.position) proposals.old.items) }
    requires ascends { ascending ≡ true → Rises 0 proposals.old.items }
    ensures items { proposals.new.items ≡ without_proposal proposals.old.items position }
    ensures fewer { length proposals.new.items ≤ length proposals.old.items }
    ensures own { own_actions_of proposals.new.items + result ≡ own_actions_of proposals.old.items }
    ensures capacity { deque_capacity proposals.new ≡ deque_capacity proposals.old }
{
    match index_of_proposal(proposals, ascending, position) {
        Some(index) => {
            let had = proposals[index].own_count();
            take_out(proposals, index);
            had
        }
        None => 0,
    }
}

/// Takes out the proposal at an index. To take out the first moves no other.
fn take_out(proposals: &mut VecDeque<Proposal>, index: usize)
    requires { index < length proposals.old.items }
    ensures items { proposals.new.items ≡ remove proposals.old.items index }
    ensures capacity { deque_capacity proposals.new ≡ deque_capacity proposals.old }
{
    if index == 0 {
        proposals.pop_front();
    } else {
        take_out_later(proposals, index);
    }
}

/// Takes out the proposal at an index, with others moved: not the usual case, so apart from it.
#[inline(never)]
fn take_out_later(proposals: &mut VecDeque<Proposal>, index: usize)
    requires { index < length proposals.old.items }
    ensures items { proposals.new.items ≡ remove proposals.old.items index }
    ensures capacity { deque_capacity proposals.new ≡ deque_capacity proposals.old }
{
    proposals.remove(index);
}

/// Ends the proposals that a refusal at a position in a ballot ends.
fn give_up(proposals: &mut VecDeque<Proposal>, nodes: u8, position: Position, ballot: Ballot)
    requires { nodes ≤ 7 }
    ensures items { proposals.new.items
        ≡ filter (λ p. not (is_given_up nodes position ballot p)) proposals.old.items }
    ensures fewer { length proposals.new.items ≤ length proposals.old.items }
    ensures capacity { deque_capacity proposals.new ≡ deque_capacity proposals.old }
{
    proposals.retain(|proposal| !proposal.is_given_up(nodes, position, ballot));
}

/// Where the proposal at a position is. Most questions are about the first.
#[inline(always)]
fn index_of_proposal(
    proposals: &VecDeque<Proposal>,
    ascending: bool,
    position: Position,
) -> Option<usize>
    requires apart { IsSet (map (λ p. p.position) proposals.now.items) }
    requires ascends { ascending ≡ true → Rises 0 proposals.now.items }
    ensures { result ≡ index_from 0 position proposals.now.items }
{
    match proposals.front() {
        None => None,
        Some(first) if first.position() == position => Some(0),
        Some(_) => index_later(proposals, ascending, position),
    }
}

/// Where the proposal at a position is, of one or more. It is known without a search if the
/// proposals up to it run at positions in a row, and if the positions ascend and this one is before
/// the first or after the last.
fn index_later(proposals: &VecDeque<Proposal>, ascending: bool, position: Position) -> Option<usize>
    requires some { 0 < length proposals.now.items }
    requires apart { IsSet (map (λ p. p.position) proposals.now.items) }
    requires ascends { ascending ≡ true → Rises 0 proposals.now.items }
    ensures { result ≡ index_from 0 position proposals.now.items }
{
    let first = proposals[0].position().get();
    let in_row = usize::from(position.get().wrapping_sub(first));
    if in_row < proposals.len() && proposals[in_row].position() == position {
        return Some(in_row);
    }
    if ascending && is_outside(proposals, position) {
        return None;
    }
    index_by_search(proposals, position)
}

/// Whether a position is before that of the first proposal, or after that of the last.
#[inline(always)]
fn is_outside(proposals: &VecDeque<Proposal>, position: Position) -> bool
    requires some { 0 < length proposals.now.items }
    ensures { Rises 0 proposals.now.items → result ≡ true
        → index_from 0 position proposals.now.items ≡ None }
{
    position.get() < proposals[0].position().get() || is_after(proposals, position)
}

/// Whether a position is after that of the last proposal.
#[inline(always)]
fn is_after(proposals: &VecDeque<Proposal>, position: Position) -> bool
    requires some { 0 < length proposals.now.items }
    ensures { result ≡ true → IsLastBelow proposals.now.items position }
{
    proposals[proposals.len() - 1].position().get() < position.get()
}

/// Whether the positions ascend once a proposal is put at this one, in place of the one at the
/// index, or else after the others.
#[inline(always)]
fn ascends_with(
    proposals: &VecDeque<Proposal>,
    ascending: bool,
    index: Option<usize>,
    position: Position,
) -> bool
    requires ascends { ascending ≡ true → Rises 0 proposals.now.items }
    requires index { index ≡ index_from 0 position proposals.now.items }
    ensures { (p : RunningProposal) → p.position ≡ position → result ≡ true
        → Rises 0 (with_proposal proposals.now.items p) }
{
    if proposals.len() == 0 {
        return true;
    }
    ascending && (index.is_some() || is_after(proposals, position))
}

/// Whether the positions ascend, by a look at each.
fn ascend(proposals: &VecDeque<Proposal>) -> bool
    ensures { result ≡ true → Rises 0 proposals.now.items }
{
    let mut least: u32 = 0;
    let mut index = 0;
    while index < proposals.len() {
        let number = u32::from(proposals[index].position().get());
        if number < least {
            return false;
        }
        least = number + 1;
        index += 1;
    }
    true
}

/// Where the proposal at a position is, by a look at each.
#[inline(never)]
fn index_by_search(proposals: &VecDeque<Proposal>, position: Position) -> Option<usize>
    ensures { result ≡ index_from 0 position proposals.now.items }
{
    let (front, back) = proposals.as_slices();
    match index_in(front, position) {
        Some(index) => Some(index),
        None => match index_in(back, position) {
            Some(index) => Some(front.len() + index),
            None => None,
        },
    }
}

/// Where the proposal at a position is among these.
fn index_in(proposals: &[Proposal], position: Position) -> Option<usize>
    ensures { result ≡ index_from 0 position proposals.now }
{
    let mut index = 0;
    for proposal in proposals {
        if proposal.position() == position {
            return Some(index);
        }
        index += 1;
    }
    None
}

/// Puts a proposal in place of the one at its position, which is at this index, or after the
/// others. It returns how many actions of its own the one there had.
#[inline(always)]
fn put(proposals: &mut VecDeque<Proposal>, index: Option<usize>, proposal: Proposal) -> usize
    requires index { index ≡ index_from 0 proposal.position proposals.old.items }
    requires room { length (without_proposal proposals.old.items proposal.position)
        < deque_capacity proposals.old }
    ensures items { proposals.new.items ≡ with_proposal proposals.old.items proposal }
    ensures length { length proposals.new.items ≤ max (length proposals.old.items) (length
        (without_proposal proposals.old.items proposal.position) + 1) }
    ensures own { own_actions_of proposals.new.items + result
        ≡ own_actions_of proposals.old.items + own_count proposal }
    ensures capacity { deque_capacity proposals.new ≡ deque_capacity proposals.old }
{
    match index {
        Some(index) => {
            let had = proposals[index].own_count();
            proposals[index] = proposal;
            had
        }
        None => {
            proposals.push_back_reserved(proposal);
            0
        }
    }
}

/// Puts a new proposal at each position of a range that is not skipped. Where none runs at any of
/// them, all are pushed without a search. Given how many proposals have an action of their own, it
/// returns how many have one then.
fn put_range(
    proposals: &mut VecDeque<Proposal>,
    own_actions: usize,
    range: PositionRange,
    skip: u64,
    ballot: Ballot,
) -> usize
    requires own { own_actions ≡ own_actions_of proposals.old.items }
    requires room { length (with_range proposals.old.items ballot (unskipped range skip))
        ≤ deque_capacity proposals.old }
    ensures items { proposals.new.items
        ≡ with_range proposals.old.items ballot (unskipped range skip) }
    ensures own { result ≡ own_actions_of proposals.new.items }
    ensures capacity { deque_capacity proposals.new ≡ deque_capacity proposals.old }
{
    if runs_in(proposals, range) {
        put_each(proposals, range, skip, ballot);
        count_own(proposals)
    } else {
        push_each(proposals, range, skip, ballot);
        own_actions
    }
}

/// Whether a proposal runs at a position of the range.
fn runs_in(proposals: &VecDeque<Proposal>, range: PositionRange) -> bool
    ensures { result ≡ list_any (λ p. is_covered range p.position) proposals.now.items }
{
    proposals
        .iter()
        .any(|proposal| range.covers(proposal.position()))
}

/// Puts a new proposal at each position of a range that is not skipped.
fn put_each(proposals: &mut VecDeque<Proposal>, range: PositionRange, skip: u64, ballot: Ballot)
    requires { length (with_range proposals.old.items ballot (unskipped range skip))
        ≤ deque_capacity proposals.old }
    ensures items { proposals.new.items
        ≡ with_range proposals.old.items ballot (unskipped range skip) }
    ensures capacity { deque_capacity proposals.new ≡ deque_capacity proposals.old }
{
    for index in 0..range.count() {
        let proposal = Proposal::of_range(range.at(index), ballot);
        put_unless(proposals, has_bit(skip, index), proposal);
    }
}

/// Pushes a new proposal for each position of a range that is not skipped.
fn push_each(proposals: &mut VecDeque<Proposal>, range: PositionRange, skip: u64, ballot: Ballot)
    requires { length proposals.old.items + length (unskipped range skip)
        ≤ deque_capacity proposals.old }
    ensures items { proposals.new.items
        ≡ proposals.old.items ++ map (range_proposal ballot) (unskipped range skip) }
    ensures capacity { deque_capacity proposals.new ≡ deque_capacity proposals.old }
{
    for index in 0..range.count() {
        push_unless(proposals, has_bit(skip, index), range.at(index), ballot);
    }
}

/// Pushes a new proposal of a range, unless its position is skipped.
fn push_unless(
    proposals: &mut VecDeque<Proposal>,
    skipped: bool,
    position: Position,
    ballot: Ballot,
)
    requires { skipped ≡ false → length proposals.old.items < deque_capacity proposals.old }
    ensures items { proposals.new.items ≡ (if skipped then proposals.old.items
        else proposals.old.items ++ range_proposal ballot position ∷ []) }
    ensures capacity { deque_capacity proposals.new ≡ deque_capacity proposals.old }
{
    if !skipped {
        proposals.push_back_reserved(Proposal::of_range(position, ballot));
    }
}

/// Puts a proposal in place of the one at its position, or after the others, unless it is skipped.
fn put_unless(proposals: &mut VecDeque<Proposal>, skipped: bool, proposal: Proposal)
    requires { skipped ≡ false → length (without_proposal proposals.old.items proposal.position)
        < deque_capacity proposals.old }
    ensures items { proposals.new.items ≡ (if skipped then proposals.old.items
        else with_proposal proposals.old.items proposal) }
    ensures capacity { deque_capacity proposals.new ≡ deque_capacity proposals.old }
{
    if !skipped {
        let index = index_by_search(proposals, proposal.position());
        let _ = put(proposals, index, proposal);
    }
}

/// Whether the bit at an index is set.
fn has_bit(mask: u64, index: u8) -> bool
    requires { index < 64 }
    ensures { result ≡ nat_eq (bit_at mask index) 1 }
{
    mask >> index & 1 == 1
}

/// Notes a promise for a range at each proposal that takes it.
fn note_range(proposals: &mut VecDeque<Proposal>, nodes: u8, heard: &HeardRange)
    requires { nodes ≤ 7 }
    ensures items { proposals.new.items ≡ map (once_promised nodes heard.now.from heard.now.range
        heard.now.ballot heard.now.votes.now) proposals.old.items }
    ensures capacity { deque_capacity proposals.new ≡ deque_capacity proposals.old }
{
    let mut index = 0;
    while index < proposals.len() {
        proposals[index].note_range(nodes, heard);
        index += 1;
    }
}

/// Proposals at different positions of a window of 64 leave room to begin one there.
pub fn a_window_has_room()
    // claim: Proposals at different positions of a window of 64 leave room to begin one there
    ensures { (proposals : List RunningProposal) (first i : ℕ) → AreInWindow first proposals
        → IsInWindow first i → HasRoom proposals i }
{}
