//! A plan, committed: memory is reserved, the record is written, the state is updated, and the
//! packets are given out.

ghost use Rattle.std.specs.Prelude.{◌≡◌, ◌++◌, ◌∷◌, ◌<◌, [], Some, None, length, OnOk, OnErr, IfErr, IfOk, IfSome, IfNone, IsOk, IsOkUnless, true, false};
ghost use Rattle.rp_rules.specs.rp_acceptor.specs.First.{IsFirstPromise, IsFirstVote};
ghost use Rattle.rp_base.specs.Action.{IsCount, IsRight};
ghost use Rattle.rp_base.specs.Right.{IsRightRecord};
ghost use Rattle.rp_base.specs.declared.fault.WriteFault.TheVariants as faults;
ghost use Rattle.rp_base.specs.declared.record.Rec.TheVariants.{Promised};
ghost use Rattle.rp_base.specs.WriteFaults.{fault_of};
ghost use Rattle.rp_codec.specs.Decoding.{IsLongBody};
ghost use Rattle.rp_codec.specs.Message.{MaySay};
ghost use Rattle.rp_codec.specs.Record.{record_text};
ghost use Rattle.rp_codec.specs.Text.{vote_text};
ghost use Rattle.rp_codec.specs.declared.packet.Party.TheVariants.{Node};
ghost use Rattle.rp_codec.specs.declared.packet.Body.TheVariants.{Reply as Answered};
ghost use Rattle.rp_model.specs.Parts.{is_in_log};
ghost use Rattle.rp_model.specs.Pending.{most_pending};
ghost use Rattle.rp_model.specs.Says.{says, says_to_task, notes, sends, writes};
ghost use Rattle.rp_replica.specs.Committing.{Commits};
ghost use Rattle.rp_replica.specs.State.{after_turn, server_of};
ghost use Rattle.rp_model.specs.declared.plan.Plan.TheVariants as plans;
ghost use Rattle.rp_model.specs.Plans.{written_by};
ghost use Rattle.rp_rules.specs.Plans.{turn_of_plan, MayCommit, OnlySends, TakesNoMemory};
ghost use Rattle.rp_rules.specs.rp_server.specs.Invariant.{IsAnswer, vote_record};
ghost use Rattle.rp_replica.specs.Turning.{Stops};

use crate::replica::Replica;
use rp_base::{
    Action, Answer, Ballot, NodeId, PlacedVote, Position, Rec, Reply, TaskId, Vote, WriteFault,
};
use rp_codec::{Body, Header, VoteTail, voted_by};
use rp_machine::Machine;
use rp_model::{Plan, RightAction};
use rp_outbox::Outbox;
use rp_store::Device;
use std::alloc::Global;

impl<M: Machine, D: Device> Replica<M, D> {
    /// Commits a plan: its packets are put after the others. Refused with `OutOfMemory`, it changes
    /// nothing; a plan that writes no record, sends no packet and counts no vote is never refused.
    /// If the device fails while the record is written it is refused with `Device`: a prefix
    /// of the record may then be on the device, and nothing else has changed.
    #[inline(never)]
    pub(crate) fn commit(
        &mut self,
        alloc: Global,
        out: &mut Outbox,
        plan: &Plan,
    ) -> Result<(), WriteFault>
        requires working { self.old.failed ≡ false }
        requires may { MayCommit (server_of self.old) plan.now }
        ensures ok { OnOk result (Commits (turn_of_plan M.next M.answers (server_of self.old) plan.now)
            self.old self.new out.old.sent out.new.sent) }
        ensures err { IfErr result (λ fault.
            Stops (written_by plan.now) self.old self.new (fault_of fault)) }
        ensures unsent { OnErr result (out.new.sent ≡ out.old.sent) }
        ensures certain { TakesNoMemory self.old.running
            (turn_of_plan M.next M.answers (server_of self.old) plan.now) → IsOk result }
    {
        match *plan {
            Plan::Pass(_) => return Ok(()),
            Plan::Promise(ref header, ref last) => return self.promise(out, header, last),
            Plan::Vote(ref header, ref action) => return self.vote(out, header, action),
            Plan::PromiseRange(ref promise) => return self.promise_range(alloc, out, promise),
            Plan::Lead(position, ballot, ref own) => return self.begin(out, position, ballot, own),
            Plan::LeadRange(range, ballot) => return self.begin_range(out, range, ballot),
            Plan::OfferPrepared(position, ballot, ref action) => {
                return self.offer_prepared(out, position, ballot, action);
            }
            Plan::Learn(position, ref action) => {
                return self.learn_by_votes(out, position, action, None);
            }
            Plan::Follow(from, position, ref action) => {
                return self.learn_by_decision(out, from, position, action, None);
            }
            Plan::Offer(ref promise, ref action) => return self.offer(out, promise, action),
            Plan::CountVote(from, position, ref vote) => {
                return self.hear(alloc, from, position, vote);
            }
            Plan::CountPromise(ref promise) => self.note_promise(promise),
            Plan::CountRangePromise(ref promise) => self.note_range(promise),
            Plan::Yield {
                position,
                ballot,
                bound,
            } => self.note_refusal(position, ballot, bound),
            Plan::Await(item) => self.add(item),
            Plan::AskMissing(to) => return self.ask_missing(out, to),
            _ => return self.send(alloc, out, plan),
        }
        Ok(())
    }

    /// Writes a promise, and sends it.
    #[inline(always)]
    pub(crate) fn promise(
        &mut self,
        out: &mut Outbox,
        header: &Header,
        last: &Option<Vote>,
    ) -> Result<(), WriteFault>
        requires working { self.old.failed ≡ false }
        requires may { MayCommit (server_of self.old) (plans.Promise header.now last.now) }
        ensures ok { OnOk result (Commits
            (turn_of_plan M.next M.answers (server_of self.old) (plans.Promise header.now last.now))
            self.old self.new out.old.sent out.new.sent) }
        ensures err { IfErr result (λ fault.
            Stops (written_by (plans.Promise header.now last.now))
            self.old self.new (fault_of fault)) }
        ensures unsent { OnErr result (out.new.sent ≡ out.old.sent) }
    {
        let header = *header;
        out.reserve(1)?;
        self.keep(&Rec::Promised(header.position, header.ballot))?;
        out.promise(header, *last);
        Ok(())
    }

    /// Writes a vote, and sends it.
    #[inline(always)]
    pub(crate) fn vote(
        &mut self,
        out: &mut Outbox,
        header: &Header,
        action: &Action,
    ) -> Result<(), WriteFault>
        requires working { self.old.failed ≡ false }
        requires may { MayCommit (server_of self.old) (plans.Vote header.now action.now) }
        ensures ok { OnOk result (Commits
            (turn_of_plan M.next M.answers (server_of self.old) (plans.Vote header.now action.now))
            self.old self.new out.old.sent out.new.sent) }
        ensures err { IfErr result (λ fault.
            Stops (written_by (plans.Vote header.now action.now))
            self.old self.new (fault_of fault)) }
        ensures unsent { OnErr result (out.new.sent ≡ out.old.sent) }
    {
        let (header, action) = (*header, *action);
        out.reserve(1)?;
        self.keep(&Rec::Voted(header.position, header.ballot, action))?;
        out.accepted(header, &action);
        Ok(())
    }

    /// Writes a promise with no vote to report, and sends it, if a `Prepare` is answered with it.
    /// `None` changes nothing, and says nothing.
    #[inline(always)]
    pub(crate) fn promise_first(
        &mut self,
        out: &mut Outbox,
        header: &Header,
    ) -> Option<Result<(), WriteFault>>
        requires working { self.old.failed ≡ false }
        requires may { MayCommit (server_of self.old) (plans.Promise header.now None) }
        ensures first { IfSome result (λ _.
            IsFirstPromise self.old.records header.now.position header.now.ballot) }
        ensures ok { IfSome result (λ done. OnOk done (Commits
            (turn_of_plan M.next M.answers (server_of self.old) (plans.Promise header.now None))
            self.old self.new out.old.sent out.new.sent)) }
        ensures err { IfSome result (λ done. IfErr done (λ fault.
            Stops (written_by (plans.Promise header.now None))
            self.old self.new (fault_of fault))) }
        ensures unsent { IfSome result (λ done. OnErr done (out.new.sent ≡ out.old.sent)) }
        ensures none { IfNone result ((self.new ≡ self.old) × (out.new.sent ≡ out.old.sent)) }
    {
        let header = *header;
        out.reserve(1).ok()?;
        let kept = self.keep_first_promise(header.position, header.ballot)?;
        if kept.is_ok() {
            out.promise(header, None);
        }
        Some(kept)
    }

    /// Casts a vote, and sends it, if it is the first at its position and an `Accept` is answered
    /// with it; its texts are made of how that of the accept ends. `None` changes nothing, and says
    /// nothing.
    #[inline(always)]
    pub(crate) fn vote_first(
        &mut self,
        out: &mut Outbox,
        header: &Header,
        action: &Action,
        tail: &VoteTail,
    ) -> Option<Result<(), WriteFault>>
        requires working { self.old.failed ≡ false }
        requires may { MayCommit (server_of self.old) (plans.Vote header.now action.now) }
        requires tail { tail.now ≡ vote_text header.now.position header.now.ballot action.now }
        ensures first { IfSome result (λ _.
            IsFirstVote self.old.records header.now.position header.now.ballot) }
        ensures ok { IfSome result (λ done. OnOk done (Commits
            (turn_of_plan M.next M.answers (server_of self.old) (plans.Vote header.now action.now))
            self.old self.new out.old.sent out.new.sent)) }
        ensures err { IfSome result (λ done. IfErr done (λ fault.
            Stops (written_by (plans.Vote header.now action.now))
            self.old self.new (fault_of fault))) }
        ensures unsent { IfSome result (λ done. OnErr done (out.new.sent ≡ out.old.sent)) }
        ensures none { IfNone result ((self.new ≡ self.old) × (out.new.sent ≡ out.old.sent)) }
    {
        let (header, action) = (*header, *action);
        let placed = PlacedVote {
            position: header.position,
            vote: Vote {
                ballot: header.ballot,
                action,
            },
        };
        out.reserve(1).ok()?;
        let kept = self.keep_first_vote(&placed, &voted_by(tail))?;
        if kept.is_ok() {
            out.accepted_by(header, &action, tail);
        }
        Some(kept)
    }

    /// Commits a plan that writes nothing and changes nothing.
    #[inline(never)]
    fn send(&self, alloc: Global, out: &mut Outbox, plan: &Plan) -> Result<(), WriteFault>
        requires may { MayCommit (server_of self.now) plan.now }
        requires sends { OnlySends plan.now }
        ensures ok { OnOk result (Commits (turn_of_plan M.next M.answers (server_of self.now) plan.now)
            self.now self.now out.old.sent out.new.sent) }
        ensures only { IsOkUnless result faults.OutOfMemory }
        ensures unsent { OnErr result (out.new.sent ≡ out.old.sent) }
    {
        match *plan {
            Plan::Repeat(to, position, ballot, action) => self.send_to(
                out,
                Body::Accepted {
                    position,
                    ballot,
                    action,
                },
                to,
            ),
            Plan::Refuse {
                to,
                position,
                ballot,
                bound,
            } => self.send_to(
                out,
                Body::Nack {
                    position,
                    ballot,
                    bound,
                },
                to,
            ),
            Plan::Inform(to, position, action) => {
                self.send_to(out, Body::Decided { position, action }, to)
            }
            Plan::Answer(task, number, reply) => self.answer(out, task, number, reply),
            Plan::Report(first) => self.report_applied(alloc, out, first),
            _ => Ok(()),
        }
    }

    /// A body is sent to a node.
    fn send_to(&self, out: &mut Outbox, stated: Body, to: NodeId) -> Result<(), WriteFault>
        requires may { MaySay (Node self.now.me) (Node to) stated }
        requires short { ¬ IsLongBody stated }
        ensures ok { OnOk result (Commits (sends self.now.running (says self.now.me stated to ∷ []))
            self.now self.now out.old.sent out.new.sent) }
        ensures only { IsOkUnless result faults.OutOfMemory }
        ensures unsent { OnErr result (out.new.sent ≡ out.old.sent) }
    {
        out.reserve(1)?;
        out.say(self.server.me(), to, stated);
        Ok(())
    }

    /// A task gets the reply that is kept for its call.
    fn answer(
        &self,
        out: &mut Outbox,
        task: TaskId,
        number: u32,
        reply: Reply,
    ) -> Result<(), WriteFault>
        requires { IsCount number }
        ensures ok { OnOk result (Commits
            (sends self.now.running (says_to_task self.now.me (Answered number reply) task ∷ []))
            self.now self.now out.old.sent out.new.sent) }
        ensures only { IsOkUnless result faults.OutOfMemory }
        ensures unsent { OnErr result (out.new.sent ≡ out.old.sent) }
    {
        out.reserve(1)?;
        out.reply(
            self.server.me(),
            &Answer {
                task,
                number,
                reply,
            },
        );
        Ok(())
    }

    /// An item becomes pending.
    fn add(&mut self, item: RightAction)
        requires { length self.old.running.pending < most_pending }
        ensures { self.new ≡ after_turn self.old (notes (record self.old.running {
          pending = self.old.running.pending ++ item ∷ [];
        })) }
    {
        self.server.add(item);
    }

    /// Writes a promise or a vote.
    #[inline(always)]
    pub(crate) fn keep(&mut self, rec: &Rec) -> Result<(), WriteFault>
        requires working { self.old.failed ≡ false }
        requires right { IsRightRecord rec.now }
        requires place { is_in_log self.old.config.max_positions rec.now ≡ true }
        requires answer { IsAnswer rec.now }
        ensures ok { OnOk result (self.new ≡ after_turn self.old
            (writes rec.now self.old.running [])) }
        ensures err { IfErr result (λ fault.
            Stops (Some rec.now) self.old self.new (fault_of fault)) }
    {
        self.server.keep(&mut self.store, rec)
    }

    /// Writes the promise of the ballot at the position, as `Roles::keep_first_promise`.
    #[inline(always)]
    fn keep_first_promise(
        &mut self,
        position: Position,
        ballot: Ballot,
    ) -> Option<Result<(), WriteFault>>
        requires working { self.old.failed ≡ false }
        requires place { is_in_log self.old.config.max_positions (Promised position ballot)
            ≡ true }
        ensures first { IfSome result (λ _. IsFirstPromise self.old.records position ballot) }
        ensures ok { IfSome result (λ done. OnOk done (self.new
            ≡ after_turn self.old (writes (Promised position ballot) self.old.running []))) }
        ensures err { IfSome result (λ done. IfErr done (λ fault.
            Stops (Some (Promised position ballot)) self.old self.new (fault_of fault))) }
        ensures none { IfNone result (self.new ≡ self.old) }
    {
        self.server
            .keep_first_promise(&mut self.store, position, ballot)
    }

    /// Writes a vote, whose record's text this is, as `Roles::keep_first_vote`.
    #[inline(always)]
    fn keep_first_vote(
        &mut self,
        placed: &PlacedVote,
        text: &[u8],
    ) -> Option<Result<(), WriteFault>>
        requires working { self.old.failed ≡ false }
        requires right { IsRight placed.now.vote.action }
        requires place { is_in_log self.old.config.max_positions (vote_record placed.now)
            ≡ true }
        requires text { text.now ≡ record_text (vote_record placed.now) }
        ensures first { IfSome result (λ _. IsFirstVote self.old.records
            placed.now.position placed.now.vote.ballot) }
        ensures ok { IfSome result (λ done. OnOk done (self.new
            ≡ after_turn self.old (writes (vote_record placed.now) self.old.running []))) }
        ensures err { IfSome result (λ done. IfErr done (λ fault.
            Stops (Some (vote_record placed.now)) self.old self.new (fault_of fault))) }
        ensures none { IfNone result (self.new ≡ self.old) }
    {
        self.server.keep_first_vote(&mut self.store, placed, text)
    }
}
