//! The proposals that a server leads: where it may lead, in which ballot, and how they go on
//! (Lamport, "Paxos Made Simple", section 2.2).

ghost use Rattle.std.specs.Prelude.{◌≡◌, ◌+◌, ◌≤◌, ◌<◌, ◌^◌, [], is_some, IfNone, IfSome, IfErr, OnOk, OnErr, None, Some, true, false};
ghost use Rattle.std.specs.List.{AllByRecursion};
ghost use Rattle.rp_base.specs.Action.{IsRight};
ghost use Rattle.rp_base.specs.Ballot.{IsAbove, next_ballot, round_of};
ghost use Rattle.rp_base.specs.Proposals.{proposal_at};
ghost use Rattle.rp_base.specs.Ranges.{IsRange, end_of};
ghost use Rattle.rp_base.specs.Records.{learned_at, first_unlearned};
ghost use Rattle.rp_base.specs.Right.{IsRightVote};
ghost use Rattle.rp_base.specs.WriteFaults.{fault_of};
ghost use Rattle.rp_base.specs.declared.action.Action.{Action};
ghost use Rattle.rp_base.specs.declared.record.Rec.TheVariants.{Started};
ghost use Rattle.rp_model.specs.rp_codec.specs.Record.{record_text};
ghost use Rattle.rp_base.specs.Number.{window};
ghost use Rattle.rp_model.specs.Leader.{is_free_position, is_out_of_reach, least_free, starts_above, unlearned_in, begun_running, on_promise_range, on_nack};
ghost use Rattle.rp_model.specs.Says.{notes, writes};
ghost use Rattle.rp_proposer.specs.Proposing.{prepared_by, progress_in, unskipped, waits_for_promises};
ghost use Rattle.rp_proposer.specs.declared.proposal.Progress.TheVariants.{Offer};
ghost use Rattle.rp_store.specs.Stored.{IsPut, IsNotPut};
ghost use Rattle.rp_model.specs.Plans.{promised_running, started_running, offered_running};
ghost use Rattle.rp_server.specs.State.{server_after};

use crate::acceptor::write;
use crate::server::Roles;
use crate::window::{position_at, with_bit};
use rp_base::{
    Action, Ballot, NodeId, PlacedVote, Position, PositionRange, Rec, Vote, WINDOW, WriteFault,
};
use rp_machine::Machine;
use rp_proposer::Progress;
use rp_store::{Device, Store};

impl<M: Machine> Roles<M> {
    /// Whether the position is above the log, or too far above the first unlearned one.
    pub fn is_out_of_reach(&self, position: Position) -> bool
        ensures { result
            ≡ is_out_of_reach self.now.config.max_positions self.now.records position }
    {
        let number = u32::from(position.get());
        self.config.max_positions < position.get() || self.log.next_unlearned() + WINDOW <= number
    }

    /// The ballot to lead in next, if there is one.
    pub fn next_ballot(&self) -> Option<Ballot>
        ensures some { IfSome result (λ b. IsAbove self.now.me
            (starts_above self.now.records self.now.running) b) }
        ensures value { IfSome result (λ b. b
            ≡ next_ballot self.now.me (starts_above self.now.records self.now.running)) }
        ensures exhausted { IfNone result (2 ^ 32 ≤ round_of
            (next_ballot self.now.me (starts_above self.now.records self.now.running))) }
    {
        match self.proposer.ballot() {
            Ok(ballot) => Some(ballot),
            Err(_) => None,
        }
    }

    /// The least free position, if it is within reach. It looks at 64 positions at most: below the
    /// first unlearned one none is free, nor where proposals run in a row from there on.
    pub fn least_free(&self) -> Option<Position>
        ensures some { IfSome result (λ position. position
            ≡ least_free self.now.config.nodes self.now.records self.now.running.proposals) }
        ensures none { IfNone result (is_out_of_reach self.now.config.max_positions self.now.records
            (least_free self.now.config.nodes self.now.records self.now.running.proposals)
            ≡ true) }
    {
        let first = self.log.next_unlearned();
        let end = (first + WINDOW).min(u32::from(self.config.max_positions) + 1);
        let begin = first + self.proposer.in_row(first);
        for number in begin..end {
            let position = position_at(number);
            if self.is_free_position(position) {
                return Some(position);
            }
        }
        None
    }

    /// Whether nothing is learned at the position and no proposal runs there but a prepared one.
    fn is_free_position(&self, position: Position) -> bool
        ensures { result
            ≡ is_free_position self.now.config.nodes self.now.records
            self.now.running.proposals position }
    {
        !self.is_learned(position) && self.proposer.is_ready(position)
    }

    /// The ballot of the prepared proposal at the position, if one runs there, with the action of
    /// the highest vote that its promises report.
    pub fn prepared(&self, position: Position) -> Option<(Ballot, Option<Action>)>
        ensures found { result ≡ prepared_by self.now.config.nodes
            (proposal_at self.now.running.proposals position) }
        ensures right { IfSome result (λ found. IfSome found.1 IsRight) }
    {
        self.proposer.prepared(position)
    }

    /// What a promise of one of the nodes, with a right vote, makes of the proposal at the
    /// position.
    #[inline(always)]
    pub fn promise(
        &self,
        from: NodeId,
        position: Position,
        ballot: Ballot,
        last: Option<Vote>,
    ) -> Progress
        requires sender { from ≤ self.now.config.nodes }
        requires vote { IfSome last IsRightVote }
        ensures progress { result ≡ progress_in self.now.config.nodes ballot (from, last)
            (proposal_at self.now.running.proposals position) }
        ensures right { (v : Action) → Offer v ≡ result → IsRight v }
    {
        self.proposer.promise(from, position, ballot, last)
    }

    /// Whether a proposal runs at the position and waits for promises.
    #[inline(always)]
    pub fn is_preparing(&self, position: Position) -> bool
        ensures { result ≡ waits_for_promises (proposal_at self.now.running.proposals position) }
    {
        self.proposer.is_preparing(position)
    }

    /// Begins a proposal at an unlearned position within reach, in place of another there: its
    /// ballot is written first.
    #[inline(always)]
    pub fn begin<D: Device>(
        &mut self,
        store: &mut Store<D>,
        position: Position,
        ballot: Ballot,
        own: &Action,
    ) -> Result<(), WriteFault>
        requires working { store.old.failed ≡ false }
        requires right { IsRight own.now }
        requires above { IsAbove self.old.me
            (starts_above self.old.records self.old.running) ballot }
        requires unlearned { learned_at self.old.records position ≡ None }
        requires reach { position < first_unlearned self.old.records + window }
        ensures put { OnOk result
            (IsPut D.disk (record_text (Started ballot)) store.old store.new) }
        ensures begun { OnOk result (self.new ≡ server_after self.old (writes (Started ballot)
            (started_running self.old.running position ballot own.now) [])) }
        ensures unchanged { OnErr result (self.new ≡ self.old) }
        ensures err { IfErr result (λ fault.
            IsNotPut D.disk (record_text (Started ballot)) store.old (fault_of fault) store.new) }
    {
        let rec = Rec::Started(ballot);
        write(store, &mut self.acceptor, &rec)?;
        let _number = position.get();
        self.proposer.begin(position, ballot, Some(*own));
        Ok(())
    }

    /// Begins a proposal at each unlearned position of a range: the ballot is written first.
    pub fn begin_range<D: Device>(
        &mut self,
        store: &mut Store<D>,
        range: PositionRange,
        ballot: Ballot,
    ) -> Result<(), WriteFault>
        requires working { store.old.failed ≡ false }
        requires above { IsAbove self.old.me
            (starts_above self.old.records self.old.running) ballot }
        requires reach { end_of range ≤ first_unlearned self.old.records + window }
        ensures put { OnOk result
            (IsPut D.disk (record_text (Started ballot)) store.old store.new) }
        ensures begun { OnOk result (self.new ≡ server_after self.old (writes (Started ballot)
            (begun_running self.old.records self.old.running range ballot) [])) }
        ensures unchanged { OnErr result (self.new ≡ self.old) }
        ensures err { IfErr result (λ fault.
            IsNotPut D.disk (record_text (Started ballot)) store.old (fault_of fault) store.new) }
    {
        let learned = self.learned_mask(range);
        let rec = Rec::Started(ballot);
        write(store, &mut self.acceptor, &rec)?;
        self.proposer.begin_range(range, learned, ballot);
        Ok(())
    }

    /// The learned positions of the range, as bits counted from its first.
    fn learned_mask(&self, range: PositionRange) -> u64
        ensures mask { unskipped range result ≡ unlearned_in self.now.records range }
        ensures range { IsRange range }
    {
        let mut mask = 0;
        for index in 0..range.count() {
            mask = with_bit(mask, u32::from(index), self.is_learned(range.at(index)));
        }
        mask
    }

    /// The second phase of a prepared proposal begins.
    #[inline(always)]
    pub fn offer(&mut self, position: Position, action: &Action)
        requires right { IsRight action.now }
        ensures { self.new ≡ server_after self.old (notes (offered_running
            self.old.config.nodes self.old.running action.now
            (proposal_at self.old.running.proposals position))) }
    {
        self.proposer.offer(position, *action);
    }

    /// A promise of one of the nodes, with a right vote, counts.
    #[inline(always)]
    pub fn note_promise(
        &mut self,
        from: NodeId,
        position: Position,
        ballot: Ballot,
        last: Option<Vote>,
    )
        requires sender { from ≤ self.old.config.nodes }
        requires vote { IfSome last IsRightVote }
        ensures { self.new ≡ server_after self.old (notes (promised_running
            self.old.config.nodes self.old.running ballot (from, last)
            (proposal_at self.old.running.proposals position))) }
    {
        self.proposer.note_promise(from, position, ballot, last);
    }

    /// A promise of one of the nodes for a range, with right votes, counts at each proposal that
    /// takes it.
    pub fn note_range(
        &mut self,
        from: NodeId,
        range: PositionRange,
        ballot: Ballot,
        votes: &[PlacedVote],
    )
        requires sender { from ≤ self.old.config.nodes }
        requires right { AllByRecursion (λ placed. IsRightVote placed.vote) votes.now }
        ensures { self.new ≡ server_after self.old (on_promise_range self.old.config.nodes
            self.old.running (record {
              from = from;
              range = range;
              ballot = ballot;
              votes = votes.now;
            })) }
    {
        self.proposer.note_range(from, range, ballot, votes);
    }

    /// A proposal is refused by a bound.
    pub fn note_refusal(&mut self, position: Position, ballot: Ballot, bound: Ballot)
        ensures { self.new ≡ server_after self.old
            (on_nack self.old.config.nodes self.old.running position ballot bound) }
    {
        self.proposer.nack(position, ballot, bound);
    }
}
